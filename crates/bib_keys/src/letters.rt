//! Texts as ASCII letters, ASCII digits and spaces. Letters lose their marks, and some are replaced. Letters that aren't ASCII then are
//! left out, such as those of other scripts.

ghost use Rattle.std.specs.Prelude.{◌≡◌, ◌++◌, IfOk, OnOk, string_bytes};
ghost use Rattle.bib_keys.specs.Letters as spec;

use std::alloc::{AllocError, Global};
use unicode_normalization::to_nfkd;

// Returns whether a character separates words: white space, a slash, an en dash or an em dash.
fn is_word_gap(c: char) -> bool
    ensures { result ≡ spec.is_word_gap c }
{
    c.is_whitespace() || matches!(c, '/' | '–' | '—')
}

// Returns the letters for one of these small letters, which don't decompose, or else an empty text.
fn for_small(c: char) -> &'static str
    ensures { result.now ≡ spec.for_small c }
{
    match c {
        'ß' => "ss",
        'æ' => "ae",
        'ð' => "d",
        'ø' => "o",
        'þ' => "th",
        'đ' => "d",
        'ħ' => "h",
        'ı' => "i",
        'ł' => "l",
        'ŋ' => "n",
        'œ' => "oe",
        'ŧ' => "t",
        _ => "",
    }
}

// Returns the letters for one of these capitals, which don't decompose, or else an empty text.
fn for_capital(c: char) -> &'static str
    ensures { result.now ≡ spec.for_capital c }
{
    match c {
        'Æ' => "AE",
        'Ð' => "D",
        'Ø' => "O",
        'Þ' => "TH",
        'Đ' => "D",
        'Ħ' => "H",
        'Ł' => "L",
        'Ŋ' => "N",
        'Œ' => "OE",
        'Ŧ' => "T",
        'ẞ' => "SS",
        _ => "",
    }
}

// Appends a character as plain text.
fn push_plain(out: &mut String, c: char) -> Result<(), AllocError>
    ensures { OnOk result (string_bytes out.new ≡ string_bytes out.old ++ spec.key_letter c) }
{
    if c.is_ascii_alphanumeric() {
        return out.push(c);
    }
    if is_word_gap(c) {
        return out.push(' ');
    }
    out.push_str(for_small(c))?;
    out.push_str(for_capital(c))?;
    Ok(())
}

// Returns a text as plain text: ASCII letters, ASCII digits and spaces.
pub(crate) fn key_letters(alloc: Global, text: &str) -> Result<String, AllocError>
    ensures { IfOk result (λ letters. string_bytes letters ≡ spec.key_letters text.now) }
{
    let decomposed = to_nfkd(alloc, text)?;
    let mut out = String::new(alloc);
    'chars: for c in decomposed.chars() {
        push_plain(&mut out, c)?;
    }
    Ok(out)
}
