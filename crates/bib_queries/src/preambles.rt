//! Prints the preambles of a file, each as a block of its own.

ghost use Rattle.std.specs.Prelude.{◌≡◌, ◌≤◌, ◌++◌, ◌∷◌, [], ℕ, List, not, ◌&&◌, ◌==◌, codes, length, OnOk};
ghost use Rattle.std.specs.List.{flat_map};
ghost use Rattle.std.specs.Option.{option_map_or};
ghost use Rattle.std.specs.Str.{IsCharBoundary};
ghost use Rattle.std.specs.String.{string_bytes};
ghost use Rattle.bib_text.specs.Characters as char;
ghost use Rattle.bib_queries.specs.Lines.{text_after_prefix};
ghost use Rattle.bib_queries.specs.Preambles.{ArePreambles, CanBeQuoted, preamble_line};

use crate::lines::after_prefix;
use std::alloc::AllocError;

// Returns whether this byte is a quote that no backslash escapes. `is_hidden`: a backslash escapes this byte.
fn is_close(is_hidden: bool, byte: u8) -> bool
    ensures { result ≡ (not is_hidden && byte == char.quote) }
{
    !is_hidden && byte == b'"'
}

// Returns whether this byte is a backslash that escapes the next byte. `is_hidden`: a backslash escapes this byte.
fn hides_next(is_hidden: bool, byte: u8) -> bool
    ensures { result ≡ (not is_hidden && byte == char.backslash) }
{
    !is_hidden && byte == b'\\'
}

// Returns the byte offset of the first quote that no backslash escapes, or the length of the text without one.
fn closing_quote(text: &str) -> usize
    ensures found { (inside rest : List ℕ) → CanBeQuoted inside → text.now ≡ inside ++ char.quote ∷ rest → result ≡ length inside }
    ensures boundary { IsCharBoundary text.now result }
{
    let bytes = text.as_bytes();
    let mut is_hidden = false;
    let mut at = 0;
    'bytes: while at < bytes.len() {
        if is_close(is_hidden, bytes[at]) {
            return at;
        }
        is_hidden = hides_next(is_hidden, bytes[at]);
        at += 1;
    }
    text.len()
}

// Returns the text after a closing quote and ` # `, or an empty text if it begins with something else.
fn after_joint(text: &str) -> &str
    ensures { result.now ≡ option_map_or (λ rest. rest) (text_after_prefix (codes "\" # ") text.now) [] }
{
    match after_prefix(text, "\" # ") {
        Some(rest) => rest,
        None => "",
    }
}

// Appends a block with a preamble, and a line end. `inside` is its text without the quotes.
fn print_preamble(printed: &mut String, line_end: &str, inside: &str) -> Result<(), AllocError>
    ensures { OnOk result (string_bytes printed.new ≡ string_bytes printed.old ++ preamble_line line_end.now inside.now) }
{
    printed.push_str("@preamble{\"")?;
    printed.push_str(inside)?;
    printed.push_str("\"}")?;
    printed.push_str(line_end)?;
    Ok(())
}

// Appends a block for each preamble, with a line end. `joined` contains the quoted texts of all preambles, joined by ` # `.
pub(crate) fn print_preambles(
    printed: &mut String,
    line_end: &str,
    joined: &str,
) -> Result<(), AllocError>
    ensures { OnOk result ((insides : List (List ℕ)) → ArePreambles joined.now insides →
        string_bytes printed.new ≡ string_bytes printed.old ++ flat_map (preamble_line line_end.now) insides) }
{
    let mut rest = joined;
    'preambles: while let Some(opened) = after_prefix(rest, "\"") {
        let (inside, closed) = opened.split_at(closing_quote(opened));
        print_preamble(printed, line_end, inside)?;
        rest = after_joint(closed);
    }
    Ok(())
}
