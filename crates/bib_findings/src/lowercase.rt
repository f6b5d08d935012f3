//! Texts in lowercase.

ghost use Rattle.std.specs.Prelude.{◌≡◌, ◌++◌, chars, encode_utf8_all, option_to_list, IfOk, OnOk};
ghost use Rattle.std.specs.Char.Unicode.ToLowercase.{to_lowercase};
ghost use Rattle.std.specs.List.{flat_map, list_any};
ghost use Rattle.std.specs.StrCase.Lower.{str_to_lowercase};
ghost use Rattle.std.specs.String.{string_bytes};
ghost use Rattle.bib_findings.specs.Lowercase as spec;

use std::alloc::{AllocError, Global};

// Returns whether a character is a capital sigma, whose lowercase form depends on the characters around it.
fn is_capital_sigma(c: char) -> bool
    ensures { result ≡ spec.is_capital_sigma c }
{
    c == 'Σ'
}

// Returns whether a text contains a capital sigma.
fn has_capital_sigma(text: &str) -> bool
    ensures { result ≡ list_any spec.is_capital_sigma (chars text.now) }
{
    text.chars().any(|c| is_capital_sigma(c))
}

// Appends a letter, if there is one.
fn push_some(text: &mut String, letter: Option<char>) -> Result<(), AllocError>
    ensures { OnOk result (string_bytes text.new ≡ string_bytes text.old ++ encode_utf8_all (option_to_list letter)) }
{
    match letter {
        Some(c) => text.push(c),
        None => Ok(()),
    }
}

// Appends the lowercase form of a character, which consists of at most three characters.
fn push_lowercase(text: &mut String, c: char) -> Result<(), AllocError>
    ensures { OnOk result (string_bytes text.new ≡ string_bytes text.old ++ encode_utf8_all (to_lowercase c)) }
{
    let mut letters = c.to_lowercase();
    push_some(text, letters.next())?;
    push_some(text, letters.next())?;
    push_some(text, letters.next())?;
    Ok(())
}

// Returns the lowercase forms of the characters of a text, each by itself.
fn lowercase_forms(alloc: Global, text: &str) -> Result<String, AllocError>
    ensures { IfOk result (λ forms. string_bytes forms ≡ encode_utf8_all (flat_map to_lowercase (chars text.now))) }
{
    let mut forms = String::with_capacity(alloc, text.len())?;
    'characters: for c in text.chars() {
        push_lowercase(&mut forms, c)?;
    }
    Ok(forms)
}

/// Returns a text in lowercase, like `to_lowercase` of the standard library. Unlike there, the characters around a letter are looked at only
/// if the text contains a capital sigma.
pub(crate) fn lowercase(alloc: Global, text: &str) -> Result<String, AllocError>
    ensures { IfOk result (λ lower. string_bytes lower ≡ str_to_lowercase text.now) }
{
    if text.is_ascii() {
        return text.to_lowercase(alloc);
    }
    if has_capital_sigma(text) {
        return text.to_lowercase(alloc);
    }
    let forms = lowercase_forms(alloc, text)?;
    Ok(forms)
}
