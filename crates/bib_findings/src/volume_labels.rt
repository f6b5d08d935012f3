//! Usual labels of volumes, such as `B`, `IIa` and `75/76`.

ghost use Rattle.std.specs.Prelude.{◌≡◌, ◌&&◌};
ghost use Rattle.std.specs.List.{list_all};
ghost use Rattle.bib_findings.specs.VolumeLabels as spec;

use crate::other_digits::are_other_digits;
use bib_text::digits::are_digits;

// Returns whether a byte is a letter of Roman numerals, in any case.
fn is_roman_letter(b: &u8) -> bool
    ensures { result ≡ spec.is_roman_letter b.now }
{
    matches!(
        b.to_ascii_uppercase(),
        b'I' | b'V' | b'X' | b'L' | b'C' | b'D' | b'M'
    )
}

// Returns whether all bytes are letters of Roman numerals.
fn are_roman_letters(bytes: &[u8]) -> bool
    ensures { result ≡ list_all spec.is_roman_letter bytes.now }
{
    bytes.iter().all(is_roman_letter)
}

// Returns whether a text is an ASCII letter, and then only digits.
fn is_letter_and_digits(label: &[u8]) -> bool
    ensures { result ≡ spec.is_letter_and_digits label.now }
{
    match label {
        [letter, digits @ ..] => letter.is_ascii_alphabetic() && are_digits(digits),
        [] => false,
    }
}

// Returns whether the last byte of a text is an ASCII letter or digit, and the others are digits or letters of Roman numerals.
fn is_numeral_and_letter(label: &[u8]) -> bool
    ensures { result ≡ spec.is_numeral_and_letter label.now }
{
    match label {
        [start @ .., last] => {
            last.is_ascii_alphanumeric() && (are_digits(start) || are_roman_letters(start))
        }
        [] => false,
    }
}

// Returns whether a text is a label without a slash.
fn is_simple_label(label: &str) -> bool
    ensures { result ≡ spec.is_simple_label label.now }
{
    is_numeral_and_letter(label.as_bytes()) || is_letter_and_digits(label.as_bytes())
}

// Returns whether two texts are labels without a slash.
fn are_labels(first: &str, second: &str) -> bool
    ensures { result ≡ (spec.is_simple_label first.now && spec.is_simple_label second.now) }
{
    is_simple_label(first) && is_simple_label(second)
}

// Returns whether a text is one label without a slash, or two with a slash between them.
fn is_label(text: &str) -> bool
    ensures { result ≡ spec.is_label text.now }
{
    match text.split_once('/') {
        Some((first, second)) => are_labels(first, second),
        None => is_simple_label(text),
    }
}

/// Returns whether a text is a usual label of a volume, which may be a number in the digits of another script.
pub(crate) fn is_volume_label(text: &str) -> bool
    ensures { result ≡ spec.is_volume_label text.now }
{
    is_label(text) || are_other_digits(text)
}
