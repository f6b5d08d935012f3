//! Formats chunks as plain text.

ghost use Rattle.std.specs.Prelude.{◌≡◌, false, ◌∷◌, [], ◌++◌, OnOk, IfOk, option_to_list, if◌then◌else◌, string_bytes, encode_utf8_all};
ghost use Rattle.std.specs.Char.Iter.{case_mapping_chars};
ghost use Rattle.std.specs.Str.{IsUtf8, chars};
ghost use Rattle.bib_chunks.specs.Formatted.{is_break, ends_in_space, char_on_line, flowing, formatted_chars, formatted_atoms, formatted_chunk, space_after, upper_or_lower, sentence_case, sentence};
ghost use Rattle.bib_chunks.specs.Styled.{styled, text_of, is_shown};
ghost use Rattle.bib_chunks.specs.Writing.{Writes};
ghost use Rattle.bib_text.specs.Characters as char;

use super::{Chunk, ChunksRef};
use bib_text::scanner::Scanner;
use std::alloc::{AllocError, Global};
use std::char::ToLowercase;

// Returns whether the character is a line feed or a carriage return.
fn is_break(c: char) -> bool
    ensures { result ≡ is_break c }
{
    c == '\n' || c == '\r'
}

// Returns whether the text ends in white space, or `empty` if the text is empty.
fn ends_in_space(text: &str, empty: bool) -> bool
    ensures { result ≡ ends_in_space empty (chars text.now) }
{
    let mut chars = text.chars();
    let Some(c) = chars.next_back() else {
        return empty;
    };
    // For the proof: the contract of `as_str` states that the rest is UTF-8, which determines where the last character
    // begins.
    let _before = chars.as_str();
    c.is_whitespace()
}

// Writes a space for a line break, or nothing if `space`.
fn write_break(out: &mut String, space: bool) -> Result<(), AllocError>
    ensures { OnOk result (Writes out.old out.new (if space then [] else char.space ∷ [])) }
{
    if !space {
        out.push(' ')?;
    }
    Ok(())
}

// Writes a normal text on one line. `space` says whether a line break at its start is dropped. Returns the same for the
// next text.
fn write_flowing(out: &mut String, text: &str, space: bool) -> Result<bool, AllocError>
    ensures written { OnOk result (Writes out.old out.new (flowing space (chars text.now))) }
    ensures following { IfOk result (λ after. after ≡
        ends_in_space space (flowing space (chars text.now))) }
{
    let mut scanner = Scanner::new(text);
    let mut after = space;
    'text: loop {
        let run = scanner.eat_while(|c| !is_break(c));
        out.push_str(run)?;
        after = ends_in_space(run, after);
        let Some(_) = scanner.eat() else {
            return Ok(after);
        };
        write_break(out, after)?;
        after = true;
    }
}

// Writes a chunk. `space` says whether a line break at its start is dropped. Returns the same for the next text; math
// leaves it unchanged, and it is false after an empty verbatim text.
fn write_chunk(out: &mut String, chunk: &Chunk, space: bool) -> Result<bool, AllocError>
    ensures written { OnOk result (Writes out.old out.new
        (formatted_chunk (λ cs. cs) space chunk.now)) }
    ensures following { IfOk result (λ after. after ≡ space_after space chunk.now) }
{
    match chunk {
        Chunk::Normal(text) => write_flowing(out, text.as_str(), space),
        Chunk::Verbatim(text) => {
            out.push_str(text.as_str())?;
            Ok(ends_in_space(text.as_str(), false))
        }
        Chunk::Math(text) => {
            write_math(out, text.as_str())?;
            Ok(space)
        }
    }
}

// Writes a math text between dollar signs.
fn write_math(out: &mut String, text: &str) -> Result<(), AllocError>
    ensures { OnOk result (Writes out.old out.new (char.dollar ∷ (chars text.now ++ char.dollar ∷ []))) }
{
    out.push('$')?;
    out.push_str(text)?;
    out.push('$')?;
    Ok(())
}

/// Returns the text of the chunks. Math is written between dollar signs. A line break in normal text becomes a space, or
/// nothing if the last character written before it is white space. Math doesn't count as written, and an empty verbatim
/// chunk counts as a character other than white space. The only error is out of memory.
pub fn format_verbatim(alloc: Global, chunks: ChunksRef<'_>) -> Result<String, AllocError>
    ensures { IfOk result (λ text. string_bytes text ≡ encode_utf8_all (formatted_chars chunks.now)) }
{
    let mut out = String::new(alloc);
    let mut space = false;
    'chunks: for chunk in chunks {
        space = write_chunk(&mut out, &chunk.v, space)?;
    }
    Ok(out)
}

/// Returns whether a chunk adds something to the styled text: all do, except empty normal and verbatim chunks.
pub fn is_shown(chunk: &Chunk) -> bool
    ensures value { result ≡ is_shown chunk.now }
    ensures text { IsUtf8 (text_of chunk.now) }
{
    let text = chunk.get();
    match chunk {
        Chunk::Math(_) => true,
        _ => !text.is_empty(),
    }
}

/// Returns the text of the chunks as `format_verbatim` does, with empty normal and verbatim chunks skipped. The result
/// depends only on the styled text. The only error is out of memory.
pub fn format_styled(alloc: Global, chunks: ChunksRef<'_>) -> Result<String, AllocError>
    ensures { IfOk result (λ text. string_bytes text ≡
        encode_utf8_all (formatted_atoms false (styled chunks.now))) }
{
    let mut out = String::new(alloc);
    let mut space = false;
    'chunks: for chunk in chunks {
        if is_shown(&chunk.v) {
            space = write_chunk(&mut out, &chunk.v, space)?;
        }
    }
    Ok(out)
}

// Returns the character that replaces `c` on one line: a space for a line break, or none if `space`. Any other character is
// kept.
fn char_on_line(c: char, space: bool) -> Option<char>
    ensures { option_to_list result ≡ char_on_line space c }
{
    if !is_break(c) {
        return Some(c);
    }
    if space {
        return None;
    }
    Some(' ')
}

// Writes a character, if there is one.
fn write_some(out: &mut String, c: Option<char>) -> Result<(), AllocError>
    ensures { OnOk result (Writes out.old out.new (option_to_list c)) }
{
    if let Some(c) = c {
        out.push(c)?;
    }
    Ok(())
}

// Writes a character's mapping to another case, which is up to three characters. Both cases have the same type in std.
fn write_changed(out: &mut String, changed: ToLowercase) -> Result<(), AllocError>
    ensures { OnOk result (Writes out.old out.new (case_mapping_chars changed)) }
{
    let mut changed = changed;
    write_some(out, changed.next())?;
    write_some(out, changed.next())?;
    write_some(out, changed.next())?;
    Ok(())
}

// Writes a character in upper case if it begins a sentence, otherwise in lower case.
fn write_cased(out: &mut String, c: char, begins: bool) -> Result<(), AllocError>
    ensures { OnOk result (Writes out.old out.new (upper_or_lower begins c)) }
{
    if begins {
        return write_changed(out, c.to_uppercase());
    }
    write_changed(out, c.to_lowercase())
}

// Writes a normal text on one line in sentence case. `begins` says whether the text begins the sentence, `space`
// whether a line break at its start is dropped. Returns the same as `space` for the next text.
fn write_sentence_text(
    out: &mut String,
    text: &str,
    begins: bool,
    space: bool,
) -> Result<bool, AllocError>
    ensures written { OnOk result (Writes out.old out.new
        (sentence_case begins (flowing space (chars text.now)))) }
    ensures following { IfOk result (λ after. after ≡
        ends_in_space space (flowing space (chars text.now))) }
{
    let mut scanner = Scanner::new(text);
    let mut first = begins;
    let mut after = space;
    'text: while let Some(c) = scanner.eat() {
        let Some(shown) = char_on_line(c, after) else {
            continue 'text;
        };
        write_cased(out, shown, first)?;
        first = false;
        after = shown.is_whitespace();
    }
    Ok(after)
}

// Writes a chunk in sentence case. The arguments are as in `write_sentence_text`, and the result is as in `write_chunk`.
fn write_sentence_chunk(
    out: &mut String,
    chunk: &Chunk,
    begins: bool,
    space: bool,
) -> Result<bool, AllocError>
    ensures written { OnOk result (Writes out.old out.new
        (formatted_chunk (sentence_case begins) space chunk.now)) }
    ensures following { IfOk result (λ after. after ≡ space_after space chunk.now) }
{
    match chunk {
        Chunk::Normal(text) => write_sentence_text(out, text.as_str(), begins, space),
        Chunk::Verbatim(_) => write_chunk(out, chunk, space),
        Chunk::Math(_) => write_chunk(out, chunk, space),
    }
}

/// Returns the text of the chunks in sentence case. It is formatted as by `format_verbatim`, with the text of normal
/// chunks in lower case. If the first chunk is normal, its first character is in upper case.
///
/// The only error is out of memory.
pub fn format_sentence(alloc: Global, chunks: ChunksRef<'_>) -> Result<String, AllocError>
    ensures { IfOk result (λ text. string_bytes text ≡ encode_utf8_all (sentence chunks.now)) }
{
    let mut out = String::new(alloc);
    let mut begins = true;
    let mut space = false;
    'chunks: for chunk in chunks {
        space = write_sentence_chunk(&mut out, &chunk.v, begins, space)?;
        begins = false;
    }
    Ok(out)
}
