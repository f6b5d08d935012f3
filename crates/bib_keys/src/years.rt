//! The year in a key.

ghost use Rattle.std.specs.Prelude.{◌≡◌, ◌⊎◌, length, IsAscii};
ghost use Rattle.bib_keys.specs.Years as spec;

use bib_text::digits::are_digits;

// Returns whether bytes begin with four ASCII digits.
fn begins_with_year(bytes: &[u8]) -> bool
    ensures { result ≡ spec.begins_with_year bytes.now }
{
    bytes.len() >= 4 && are_digits(&bytes[..4])
}

// Returns the first four ASCII digits in a row, or an empty text.
fn four_digits(text: &str) -> &str
    ensures digits { result.now ≡ spec.four_digits text.now }
    ensures ascii { IsAscii result.now }
    ensures length { length result.now ≡ 0 ⊎ length result.now ≡ 4 }
{
    let bytes = text.as_bytes();
    'starts: for start in 0..bytes.len() {
        if begins_with_year(&bytes[start..]) {
            return &text[start..start + 4];
        }
    }
    ""
}

// Returns the first four ASCII digits in a row, or an empty text. If `is_short`, returns only the last two of these digits.
pub(crate) fn year_digits(text: &str, is_short: bool) -> &str
    ensures { result.now ≡ spec.year_digits is_short text.now }
{
    let digits = four_digits(text);
    if is_short && !digits.is_empty() {
        return &digits[2..];
    }
    digits
}
