//! The text of commands: accents, symbols and the others.

ghost use Rattle.std.specs.Prelude.{◌≡◌, ℕ, List, ◌∷◌, [], ◌++◌, length, OnOk, IsTrue, Some, None, map, string_bytes, encode_utf8_all};
ghost use Rattle.std.specs.Option.{option_map};
ghost use Rattle.std.specs.Str.{chars};
ghost use Rattle.bib_text.specs.Enums.{value_named};
ghost use Rattle.bib_chunks.specs.Writing.{Writes};
ghost use Rattle.bib_contents.specs.Commands.{accents, symbols, bare, with_mark, other, command_text};
ghost use Rattle.bib_contents.specs.Effects.{before_argument, effect_text, IsFit};
ghost use Rattle.unicode_normalization.specs.Forms.{Nfd, nfc, is_in_form};

use crate::accents::{letter, mark_of};
use std::alloc::AllocError;
use unicode_normalization::char::compose;
use unicode_normalization::to_nfc;

// Returns the combining mark of the accent with this name.
fn accent_mark(name: &str) -> Option<char>
    ensures { result ≡ value_named accents (chars name.now) }
{
    let mut chars = name.chars();
    let Some(c) = chars.next() else {
        return None;
    };
    if !chars.as_str().is_empty() {
        return None;
    }
    mark_of(c)
}

// Returns the text of the first row with this name in a table.
fn find_text(table: &[(&str, &'static str)], name: &str) -> Option<&'static str>
    ensures { option_map (λ text. text.now) result ≡
        value_named (map (λ row. (row.0.now, row.1.now)) table.entry.now) name.now }
{
    'rows: for (row_name, text) in table {
        if *row_name == name {
            return Some(*text);
        }
    }
    None
}

// Returns the text of the symbol with this name.
fn symbol(name: &str) -> Option<&'static str>
    ensures { option_map (λ text. text.now) result ≡
        option_map encode_utf8_all (value_named symbols (chars name.now)) }
{
    find_text(&SYMBOLS, name)
}

// Returns the character for a mark without a letter.
fn bare(mark: char) -> char
    ensures { result ∷ [] ≡ bare mark }
{
    match mark {
        '\u{302}' => '^',
        '\u{303}' => '~',
        _ => mark,
    }
}

// Writes a letter and a mark in their composed form.
fn write_composed(out: &mut String, letter: char, mark: char) -> Result<(), AllocError>
    ensures { OnOk result (Writes out.old out.new (nfc (letter ∷ mark ∷ []))) }
{
    let alloc = *out.allocator();
    let mut pair = String::new(alloc);
    pair.push(letter)?;
    pair.push(mark)?;
    let composed = to_nfc(alloc, pair.as_str())?;
    out.push_str(composed.as_str())?;
    Ok(())
}

// Writes a letter and a mark in their composed form, without a buffer if the letter is ASCII.
fn write_marked_letter(out: &mut String, letter: char, mark: char) -> Result<(), AllocError>
    requires { IsTrue (is_in_form Nfd (mark ∷ [])) }
    ensures { OnOk result (Writes out.old out.new (nfc (letter ∷ mark ∷ []))) }
{
    if !letter.is_ascii() {
        return write_composed(out, letter, mark);
    }
    let Some(composed) = compose(letter, mark) else {
        out.push(letter)?;
        out.push(mark)?;
        return Ok(());
    };
    out.push(composed)?;
    Ok(())
}

// Puts a mark on the last character of the text that begins at byte `start`. If that text is empty, writes the character
// for a mark without a letter.
fn mark_last(out: &mut String, start: usize, mark: char) -> Result<(), AllocError>
    requires { IsTrue (is_in_form Nfd (mark ∷ [])) }
    ensures { (base inside : List ℕ) → length (encode_utf8_all base) ≡ start →
        string_bytes out.old ≡ encode_utf8_all (base ++ inside) →
        OnOk result (string_bytes out.new ≡ encode_utf8_all (base ++ with_mark mark inside)) }
{
    if out.len() <= start {
        out.push(bare(mark))?;
        return Ok(());
    }
    let Some(last) = out.pop() else {
        return Ok(());
    };
    write_marked_letter(out, letter(last), mark)?;
    Ok(())
}

// Writes the text of a command without an argument that is neither an accent nor a symbol.
fn write_other_alone(out: &mut String, name: &str) -> Result<(), AllocError>
    ensures { OnOk result (Writes out.old out.new (other (chars name.now) None)) }
{
    match name {
        "o" => out.push('ø')?,
        "copyright" => out.push('©')?,
        _ => {
            out.push('\\')?;
            out.push_str(name)?;
            out.push(' ')?;
        }
    }
    Ok(())
}

// Writes the text of a command with this name that has no argument.
pub(crate) fn write_alone(out: &mut String, name: &str) -> Result<(), AllocError>
    ensures { OnOk result (Writes out.old out.new (command_text (chars name.now) None)) }
{
    if let Some(mark) = accent_mark(name) {
        out.push(mark)?;
        return Ok(());
    }
    if let Some(text) = symbol(name) {
        out.push_str(text)?;
        return Ok(());
    }
    write_other_alone(out, name)
}

// The effect of a command on its argument.
#[derive(Clone, Copy)]
pub(crate) enum Effect {
    // A mark is put on its last character.
    Mark(char),
    // A symbol replaces it.
    Symbol(&'static str),
    // The copyright sign is put before it.
    Copyright,
    // The command is not known and is kept.
    Unknown,
}

impl Effect {
    // Returns the effect of the command with this name.
    pub(crate) fn of(name: &str) -> Self
        ensures made { (argument : List ℕ) →
            command_text (chars name.now) (Some argument) ≡ effect_text result (chars name.now) argument }
        ensures fit { IsFit result }
    {
        if let Some(mark) = accent_mark(name) {
            return Effect::Mark(mark);
        }
        if let Some(text) = symbol(name) {
            return Effect::Symbol(text);
        }
        match name {
            "o" => Effect::Mark('\u{338}'),
            "copyright" => Effect::Copyright,
            _ => Effect::Unknown,
        }
    }

    // Writes the text before the argument.
    pub(crate) fn begin(self, out: &mut String, name: &str) -> Result<(), AllocError>
        ensures { OnOk result (Writes out.old out.new (before_argument self (chars name.now))) }
    {
        match self {
            Effect::Mark(_) => {}
            Effect::Symbol(_) => {}
            Effect::Copyright => out.push('©')?,
            Effect::Unknown => {
                out.push('\\')?;
                out.push_str(name)?;
                out.push('{')?;
            }
        }
        Ok(())
    }

    // Applies the effect to the argument, whose text begins at byte `start` and ends the output.
    pub(crate) fn end(self, out: &mut String, start: usize) -> Result<(), AllocError>
        requires fit { IsFit self }
        requires begun { (base inside : List ℕ) × (length (encode_utf8_all base) ≡ start) ×
            (string_bytes out.old ≡ encode_utf8_all (base ++ inside)) }
        ensures { (base name inside : List ℕ) →
            length (encode_utf8_all (base ++ before_argument self name)) ≡ start →
            string_bytes out.old ≡ encode_utf8_all ((base ++ before_argument self name) ++ inside) →
            OnOk result (string_bytes out.new ≡
            encode_utf8_all (base ++ effect_text self name inside)) }
    {
        match self {
            Effect::Mark(mark) => mark_last(out, start, mark)?,
            Effect::Symbol(text) => {
                out.truncate(start);
                out.push_str(text)?;
            }
            Effect::Copyright => {}
            Effect::Unknown => out.push('}')?,
        }
        Ok(())
    }
}

// Writes the text of a command with this name and this argument.
pub(crate) fn write_command(out: &mut String, name: &str, argument: &str) -> Result<(), AllocError>
    ensures { OnOk result (Writes out.old out.new
        (command_text (chars name.now) (Some (chars argument.now)))) }
{
    let effect = Effect::of(name);
    effect.begin(out, name)?;
    let start = out.len();
    out.push_str(argument)?;
    effect.end(out, start)?;
    Ok(())
}

// The names of the symbols, each with its text.
static SYMBOLS: [(&str, &str); 70] = [
    ("LaTeX", "LaTeX"),
    ("TeX", "TeX"),
    ("textendash", "–"),
    ("textemdash", "—"),
    ("textquotesingle", "'"),
    ("textquotedbl", "\""),
    ("textquotedblleft", "“"),
    ("textquotedblright", "”"),
    ("textquoteleft", "‘"),
    ("textquoteright", "’"),
    ("textquotestraightdblbase", "„"),
    ("quotedblbase", "„"),
    ("textquotestraightbase", "‚"),
    ("quotesinglbase", "‚"),
    ("textasciicircum", "^"),
    ("textasciigrave", "`"),
    ("textasciitilde", "~"),
    ("textasteriskcentered", "⁎"),
    ("textbackslash", "\\"),
    ("textbar", "|"),
    ("textbraceleft", "{"),
    ("textbraceright", "}"),
    ("textbullet", "•"),
    ("textdagger", "†"),
    ("textdaggerdbl", "‡"),
    ("ddag", "‡"),
    ("textdollar", "$"),
    ("textless", "<"),
    ("textgreater", ">"),
    ("textunderscore", "_"),
    ("textexclamdown", "¡"),
    ("textquestiondown", "¿"),
    ("textordfeminine", "ª"),
    ("textordmasculine", "º"),
    ("textperiodcentered", "·"),
    ("textregistered", "®"),
    ("texttrademark", "™"),
    ("textsection", "§"),
    ("S", "§"),
    ("textparagraph", "¶"),
    ("P", "¶"),
    ("textvisiblespace", "␣"),
    ("guillemotleft", "«"),
    ("guillemotright", "»"),
    ("guilsinglleft", "‹"),
    ("guilsinglright", "›"),
    ("aa", "å"),
    ("AA", "Å"),
    ("ae", "æ"),
    ("AE", "Æ"),
    ("oe", "œ"),
    ("OE", "Œ"),
    ("dh", "ð"),
    ("DH", "Ð"),
    ("dj", "đ"),
    ("DJ", "Đ"),
    ("ng", "ŋ"),
    ("NG", "Ŋ"),
    ("l", "ł"),
    ("L", "Ł"),
    ("i", "ı"),
    ("O", "Ø"),
    ("ss", "ß"),
    ("SS", "ẞ"),
    ("th", "þ"),
    ("TH", "Þ"),
    ("dots", "…"),
    ("textellipsis", "…"),
    ("pounds", "£"),
    ("-", ""),
];
