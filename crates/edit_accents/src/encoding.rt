//! Characters beyond ASCII become commands.

ghost use Rattle.std.specs.Prelude.{◌≡◌, ◌∷◌, [], IfOk, OnOk, encode_utf8_all};
ghost use Rattle.std.specs.Option.{option_map};
ghost use Rattle.std.specs.Str.{chars};
ghost use Rattle.std.specs.String.{string_bytes};
ghost use Rattle.bib_text.specs.Characters as char;
ghost use Rattle.bib_chunks.specs.Writing.{Writes};
ghost use Rattle.edit_accents.specs.Encoded as spec;
ghost use Rattle.edit_entries.specs.Documents.{in_braces};
ghost use Rattle.unicode_normalization.specs.Forms.{nfd};

use crate::signs::{Stretch, characters, stretch_after};
use std::alloc::{AllocError, Global};
use unicode_normalization::char::is_combining_mark;
use unicode_normalization::slice::extend_nfd;

// Returns the name of the accent for a mark.
#[tactic(auto, unfolding(bib_contents::specs::Commands::accents))]
fn accent_name(mark: char) -> Option<char>
    ensures { result ≡ spec.accent_name mark }
{
    match mark {
        '\u{300}' => Some('`'),
        '\u{301}' => Some('\''),
        '\u{302}' => Some('^'),
        '\u{303}' => Some('~'),
        '\u{304}' => Some('='),
        '\u{306}' => Some('u'),
        '\u{307}' => Some('.'),
        '\u{308}' => Some('"'),
        '\u{30A}' => Some('r'),
        '\u{30B}' => Some('H'),
        '\u{30C}' => Some('v'),
        '\u{323}' => Some('d'),
        '\u{327}' => Some('c'),
        '\u{328}' => Some('k'),
        '\u{332}' => Some('b'),
        _ => None,
    }
}

// Returns the name of the command for a letter, or `None` if none of `common_names` is for it.
#[tactic(auto, unfolding(bib_contents::specs::Commands::accents, bib_contents::specs::Commands::symbols, bib_contents::specs::Commands::command_text))]
fn letter_name(c: char) -> Option<&'static str>
    ensures { option_map (λ name. name.now) result ≡ spec.letter_name c }
{
    match c {
        'å' => Some("aa"),
        'Å' => Some("AA"),
        'æ' => Some("ae"),
        'Æ' => Some("AE"),
        'œ' => Some("oe"),
        'Œ' => Some("OE"),
        'ø' => Some("o"),
        'Ø' => Some("O"),
        'ł' => Some("l"),
        'Ł' => Some("L"),
        'ß' => Some("ss"),
        'ı' => Some("i"),
        _ => None,
    }
}

// Returns the command with a name of ASCII characters.
fn named_command(alloc: Global, name: &str) -> Result<Vec<char>, AllocError>
    ensures { IfOk result (λ text. text.items ≡ char.backslash ∷ name.now) }
{
    let mut text = Vec::new(alloc);
    text.push('\\')?;
    'bytes: for byte in name.as_bytes() {
        text.push(*byte as char)?;
    }
    Ok(text)
}

// Returns the command for a letter, or `None` if `letter_name` has no name for it.
fn letter_command(alloc: Global, c: char) -> Result<Option<Vec<char>>, AllocError>
    ensures { IfOk result (λ found. option_map (λ text. text.items) found ≡ spec.letter_command c) }
{
    match letter_name(c) {
        Some(name) => Ok(Some(named_command(alloc, name)?)),
        None => Ok(None),
    }
}

// Returns the text of a letter that an accent is put on, or `None` if `c` is neither an ASCII letter nor a letter in `letter_name`.
fn base_text(alloc: Global, c: char) -> Result<Option<Vec<char>>, AllocError>
    ensures { IfOk result (λ found. option_map (λ text. text.items) found ≡ spec.base_text c) }
{
    if !c.is_ascii_alphabetic() {
        return letter_command(alloc, c);
    }
    let mut text = Vec::new(alloc);
    text.push(c)?;
    Ok(Some(text))
}

// Returns whether LaTeX, Biber and pandoc read an accent on a letter as the same character.
fn is_put_on(name: char, c: char) -> bool
    ensures { result ≡ spec.is_put_on name c }
{
    match c {
        'i' => matches!(name, '`' | '\'' | '^' | '"' | 'd' | 'k'),
        _ => c != 'j',
    }
}

// Returns a text in braces.
fn in_braces(alloc: Global, text: &[char]) -> Result<Vec<char>, AllocError>
    ensures { IfOk result (λ new. new.items ≡ in_braces text.now) }
{
    let mut new = Vec::new(alloc);
    new.push('{')?;
    new.extend_from_slice(text)?;
    new.push('}')?;
    Ok(new)
}

// Returns the argument of an accent with a name as it is written.
fn accent_argument(alloc: Global, name: char, text: Vec<char>) -> Result<Vec<char>, AllocError>
    ensures { IfOk result (λ argument. argument.items ≡ spec.accent_argument name text.items) }
{
    if name.is_ascii_alphabetic() || text.len() != 1 {
        in_braces(alloc, &text)
    } else {
        Ok(text)
    }
}

// Returns an accent with its argument.
fn accent_command(alloc: Global, name: char, text: Vec<char>) -> Result<Vec<char>, AllocError>
    ensures { IfOk result (λ new. new.items ≡ spec.accent_command name text.items) }
{
    let argument = accent_argument(alloc, name, text)?;
    let mut new = Vec::new(alloc);
    new.push('\\')?;
    new.push(name)?;
    new.extend_from_slice(&argument)?;
    Ok(new)
}

// Returns an accent with a letter as its argument, or `None` if `base_text` has none.
fn accent_with(alloc: Global, name: char, c: char) -> Result<Option<Vec<char>>, AllocError>
    ensures { IfOk result (λ found. option_map (λ text. text.items) found ≡ spec.accent_with name (spec.base_text c)) }
{
    match base_text(alloc, c)? {
        Some(text) => Ok(Some(accent_command(alloc, name, text)?)),
        None => Ok(None),
    }
}

// Returns the command for a letter with a mark, or `None` if there is none.
fn accent_on(alloc: Global, mark: char, c: char) -> Result<Option<Vec<char>>, AllocError>
    ensures { IfOk result (λ found. option_map (λ text. text.items) found ≡ spec.accent_on (spec.accent_name mark) c) }
{
    match accent_name(mark) {
        Some(name) if is_put_on(name, c) => accent_with(alloc, name, c),
        _ => Ok(None),
    }
}

// Returns the command for the character with this canonical decomposition, or `None` if there is none.
fn accented(alloc: Global, cs: &[char]) -> Result<Option<Vec<char>>, AllocError>
    ensures { IfOk result (λ found. option_map (λ text. text.items) found ≡ spec.accented cs.now) }
{
    match cs {
        [c, mark] => accent_on(alloc, *mark, *c),
        _ => Ok(None),
    }
}

// Returns the command for the canonical decomposition of a character.
fn decomposed(alloc: Global, c: char) -> Result<Option<Vec<char>>, AllocError>
    ensures { IfOk result (λ found. option_map (λ text. text.items) found ≡ spec.accented (nfd (c ∷ []))) }
{
    let mut cs = Vec::new(alloc);
    extend_nfd(&mut cs, &[c])?;
    accented(alloc, &cs)
}

// Returns the command for a character, if there is one.
fn command_for(alloc: Global, c: char) -> Result<Option<Vec<char>>, AllocError>
    ensures { IfOk result (λ found. option_map (λ text. text.items) found ≡ spec.command_for c) }
{
    if c.is_ascii() {
        return Ok(None);
    }
    match letter_command(alloc, c)? {
        Some(command) => Ok(Some(command)),
        None => decomposed(alloc, c),
    }
}

// Appends characters.
fn push_all(text: &mut String, cs: &[char]) -> Result<(), AllocError>
    ensures { OnOk result (Writes text.old text.new cs.now) }
{
    'characters: for c in cs {
        text.push(*c)?;
    }
    Ok(())
}

// Appends the command for a character in braces, or the character if there is none.
fn push_command(alloc: Global, text: &mut String, c: char) -> Result<(), AllocError>
    ensures { OnOk result (Writes text.old text.new (spec.in_braces_or (spec.command_for c) c)) }
{
    match command_for(alloc, c)? {
        Some(command) => push_all(text, &in_braces(alloc, &command)?),
        None => {
            text.push(c)?;
            Ok(())
        }
    }
}

// Returns whether a text begins with a combining character.
fn begins_mark(text: &[char]) -> bool
    ensures { result ≡ spec.begins_mark text.now }
{
    match text {
        [c, ..] => is_combining_mark(*c),
        [] => false,
    }
}

// Appends the text of a character in a stretch, before the rest of the text.
fn push_character(
    alloc: Global,
    text: &mut String,
    stretch: Stretch,
    c: char,
    rest: &[char],
) -> Result<(), AllocError>
    ensures { OnOk result (Writes text.old text.new (spec.character_text stretch c rest.now)) }
{
    if matches!(stretch, Stretch::Text) && !begins_mark(rest) {
        return push_command(alloc, text, c);
    }
    text.push(c)?;
    Ok(())
}

/// Returns a text in which a command replaces each character beyond ASCII for which `command_for` returns one. Math between dollar signs
/// stays the same, and so do addresses and keys with the optional arguments before them. So do characters on which a command puts an
/// accent, escaped characters, and characters before a combining character. The only error is out of memory.
pub(crate) fn with_commands(alloc: Global, text: &str) -> Result<String, AllocError>
    ensures { IfOk result (λ new. string_bytes new ≡ encode_utf8_all (spec.with_commands (chars text.now))) }
{
    let cs = characters(alloc, text)?;
    let mut new = String::new(alloc);
    let mut stretch = Stretch::Text;
    let mut is_escaped = false;
    'characters: for (at, c) in cs.iter().enumerate() {
        if is_escaped {
            new.push(*c)?;
            is_escaped = false;
        } else {
            let rest = &cs[at + 1..];
            push_character(alloc, &mut new, stretch, *c, rest)?;
            stretch = stretch_after(stretch, *c, rest);
            is_escaped = *c == '\\';
        }
    }
    Ok(new)
}
