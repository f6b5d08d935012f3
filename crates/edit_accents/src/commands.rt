//! The commands for accents and letters.

ghost use Rattle.std.specs.Prelude.{◌≡◌, ◌∷◌, [], IfOk};
ghost use Rattle.bib_text.specs.Enums.{value_named};
ghost use Rattle.bib_contents.specs.Commands.{accents};
ghost use Rattle.edit_accents.specs.Accents as spec;

use bib_contents::accents::{letter, mark_of};
use std::alloc::{AllocError, Global};
use unicode_normalization::slice::extend_nfc;

/// Returns whether a character is the name of an accent.
pub(crate) fn is_accent_sign(c: char) -> bool
    ensures { result ≡ spec.is_accent_sign c }
{
    mark_of(c).is_some()
}

/// Returns the combining mark of the accent with this name.
pub(crate) fn accent_mark(name: &[char]) -> Option<char>
    ensures { result ≡ value_named accents name.now }
{
    match name {
        [c] => mark_of(*c),
        _ => None,
    }
}

/// Returns the character of the command for a letter with this name.
#[tactic(auto, unfolding(bib_contents::specs::Commands::accents, bib_contents::specs::Commands::symbols, bib_contents::specs::Commands::command_text))]
pub(crate) fn named_letter(name: &[char]) -> Option<char>
    ensures { result ≡ spec.named_letter name.now }
{
    match name {
        ['o'] => Some('ø'),
        ['O'] => Some('Ø'),
        ['l'] => Some('ł'),
        ['L'] => Some('Ł'),
        ['i'] => Some('ı'),
        [first, second] => letter_of_two(*first, *second),
        _ => None,
    }
}

// Returns the character of the command for a letter with a name of two characters.
#[tactic(auto, unfolding(bib_contents::specs::Commands::accents, bib_contents::specs::Commands::symbols, bib_contents::specs::Commands::command_text))]
fn letter_of_two(first: char, second: char) -> Option<char>
    ensures { result ≡ spec.named_letter (first ∷ second ∷ []) }
{
    match (first, second) {
        ('a', 'a') => Some('å'),
        ('A', 'A') => Some('Å'),
        ('a', 'e') => Some('æ'),
        ('A', 'E') => Some('Æ'),
        ('o', 'e') => Some('œ'),
        ('O', 'E') => Some('Œ'),
        ('s', 's') => Some('ß'),
        ('d', 'h') => Some('ð'),
        ('D', 'H') => Some('Ð'),
        ('d', 'j') => Some('đ'),
        ('D', 'J') => Some('Đ'),
        ('n', 'g') => Some('ŋ'),
        ('N', 'G') => Some('Ŋ'),
        ('t', 'h') => Some('þ'),
        ('T', 'H') => Some('Þ'),
        _ => None,
    }
}

// Returns the only one of these characters, or `None` if there isn't exactly one.
fn only_character(cs: &[char]) -> Option<char>
    ensures { result ≡ spec.only_character cs.now }
{
    match cs {
        [c] => Some(*c),
        _ => None,
    }
}

// Returns a character, if there is one and it is beyond ASCII.
fn only_beyond_ascii(c: Option<char>) -> Option<char>
    ensures { result ≡ spec.only_beyond_ascii c }
{
    match c {
        Some(c) if !c.is_ascii() => Some(c),
        _ => None,
    }
}

/// Returns a character and a mark as one character beyond ASCII, if NFC has one. A dotless i or j counts as i or j.
pub(crate) fn composed(alloc: Global, mark: char, c: char) -> Result<Option<char>, AllocError>
    ensures { IfOk result (λ found. found ≡ spec.composed mark c) }
{
    let mut found = Vec::new(alloc);
    extend_nfc(&mut found, &[letter(c), mark])?;
    Ok(only_beyond_ascii(only_character(&found)))
}
