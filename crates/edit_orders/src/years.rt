//! The year in a text.

ghost use Rattle.std.specs.Prelude.{◌≡◌, ◌≤◌, min, length, not, take};
ghost use Rattle.std.specs.Char.{is_ascii_digit};
ghost use Rattle.std.specs.List.{prefix_len};
ghost use Rattle.std.specs.Str.Parse.{AllDigits, digits_value};
ghost use Rattle.edit_orders.specs.Years as spec;

// The greatest distance of a year from 0. A year that is farther from 0 counts as the year at this distance on the same side.
const MOST: u64 = 1_000_000_000_000_000_000;

// Returns the number of bytes before the first ASCII digit, or the number of all bytes if there is none.
fn start_len(text: &str) -> usize
    ensures { result ≡ prefix_len (λ byte. not (is_ascii_digit byte)) text.now }
{
    text.as_bytes()
        .iter()
        .take_while(|byte| !byte.is_ascii_digit())
        .count()
}

// Returns the number of ASCII digits at the start.
fn digits_len(text: &str) -> usize
    ensures { result ≡ prefix_len is_ascii_digit text.now }
{
    text.as_bytes()
        .iter()
        .take_while(|byte| byte.is_ascii_digit())
        .count()
}

// Returns the number that `digits` are, at most `MOST`.
fn number(digits: &str) -> u64
    requires digits { AllDigits 10 digits.now }
    requires some { 1 ≤ length digits.now }
    ensures { result ≡ min (digits_value 10 digits.now) spec.most }
{
    match digits.parse::<u64>() {
        Ok(number) => number.min(MOST),
        Err(_) => MOST,
    }
}

// Returns the ASCII digits at the start.
fn first_digits(text: &str) -> &str
    ensures value { result.now ≡ take (prefix_len is_ascii_digit text.now) text.now }
    ensures digits { AllDigits 10 result.now }
{
    let (digits, _) = text.split_at(digits_len(text));
    digits
}

// Returns the number of a text: the first digits in a row, before year 0 if the text before them is a hyphen. Numbers are counted
// from `-MOST`.
fn year_of(text: &str) -> Option<u64>
    ensures { result ≡ spec.year_by_digits text.now }
{
    let (before, rest) = text.split_at(start_len(text));
    let digits = first_digits(rest);
    if digits.is_empty() {
        return None;
    }
    if before == "-" {
        return Some(MOST - number(digits));
    }
    Some(MOST + number(digits))
}

// Returns the year in a text, as `year_of` does, ignoring white space at its ends.
pub(crate) fn year_number(text: &str) -> Option<u64>
    ensures { result ≡ spec.year_number text.now }
{
    year_of(text.trim())
}
