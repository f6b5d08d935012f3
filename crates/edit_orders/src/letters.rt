//! Texts as they are compared: without accents, case, punctuation and names of LaTeX commands.

ghost use Rattle.std.specs.Prelude.{◌≡◌, ◌++◌, IfOk, OnOk, encode_utf8_all, chars, string_bytes};
ghost use Rattle.edit_orders.specs.Letters as spec;

use std::alloc::{AllocError, Global};
use unicode_normalization::to_nfkd;

// Returns whether a character separates words: white space, a slash, a hyphen, an en dash or an em dash.
fn is_gap(c: char) -> bool
    ensures { result ≡ spec.separates_words c }
{
    c.is_whitespace() || matches!(c, '/' | '-' | '–' | '—')
}

// Appends `c`, a letter or a digit in lowercase, or the letters that it is sorted as.
fn push_letters(out: &mut String, c: char) -> Result<(), AllocError>
    ensures { OnOk result (string_bytes out.new ≡ string_bytes out.old ++ spec.sort_letters c) }
{
    match c {
        'ß' => out.push_str("ss"),
        'æ' => out.push_str("ae"),
        'œ' => out.push_str("oe"),
        'ð' => out.push('d'),
        'đ' => out.push('d'),
        'ħ' => out.push('h'),
        'ł' => out.push('l'),
        'ø' => out.push('o'),
        _ => out.push(c),
    }
}

// Appends a character of a decomposed text in lowercase: a letter or a digit, a space for a gap, and nothing otherwise.
fn push_plain(out: &mut String, c: char) -> Result<(), AllocError>
    ensures { OnOk result (string_bytes out.new ≡ string_bytes out.old ++ spec.sort_character c) }
{
    if is_gap(c) {
        return out.push(' ');
    }
    if c.is_alphanumeric() {
        return push_letters(out, c);
    }
    Ok(())
}

// Returns whether a character belongs to the name of a LaTeX command. `before` says whether the character before it does.
fn is_in_name(before: bool, c: char) -> bool
    ensures { result ≡ spec.is_in_name before c }
{
    c == '\\' || (before && c.is_ascii_alphabetic())
}

// Returns a text without the names of LaTeX commands: without each backslash and the ASCII letters after it.
fn without_commands(alloc: Global, text: &str) -> Result<String, AllocError>
    ensures { IfOk result (λ kept. string_bytes kept ≡ encode_utf8_all (spec.without_commands (chars text.now))) }
{
    let mut out = String::new(alloc);
    let mut is_name = false;
    'chars: for c in text.chars() {
        is_name = is_in_name(is_name, c);
        if !is_name {
            out.push(c)?;
        }
    }
    Ok(out)
}

// Returns the letters, digits and gaps of a text outside of names of LaTeX commands, in lowercase and without accents.
fn plain_text(alloc: Global, text: &str) -> Result<String, AllocError>
    ensures { IfOk result (λ plain. string_bytes plain ≡ spec.plain_text text.now) }
{
    let kept = without_commands(alloc, text)?;
    let decomposed = to_nfkd(alloc, &kept)?;
    let lowercase = decomposed.to_lowercase(alloc)?;
    let mut out = String::new(alloc);
    'chars: for c in lowercase.chars() {
        push_plain(&mut out, c)?;
    }
    Ok(out)
}

// Appends a word and a space, unless the word is empty.
fn push_word(out: &mut String, word: &str) -> Result<(), AllocError>
    ensures { OnOk result (string_bytes out.new ≡ string_bytes out.old ++ spec.word_and_space word.now) }
{
    if word.is_empty() {
        return Ok(());
    }
    out.push_str(word)?;
    out.push(' ')
}

// Returns a text as it is compared: its words, each followed by a space.
pub(crate) fn sort_text(alloc: Global, text: &str) -> Result<String, AllocError>
    ensures { IfOk result (λ words. string_bytes words ≡ spec.sort_text text.now) }
{
    let plain = plain_text(alloc, text)?;
    let mut out = String::new(alloc);
    'words: for word in plain.split(' ') {
        push_word(&mut out, word)?;
    }
    Ok(out)
}
