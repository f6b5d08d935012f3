// The parts of dates. Most functions parse one at the start of a text, and return the rest of the text, too.

ghost use Rattle.std.specs.Prelude.{◌≡◌, ◌<◌, ◌≤◌, pos, neg_ℤ, ◌≤ℤ◌, ◌==◌, IfOk, IfSome, is_some, length, drop};
ghost use Rattle.std.specs.List.{prefix_len};
ghost use Rattle.std.specs.Char.{is_ascii_digit};
ghost use Rattle.std.specs.Str.Parse.{digits_value, AllDigits};
ghost use Rattle.jiff_core.specs.Calendar.{IsYear};
ghost use Rattle.bib_dates.specs.Code.{part_reading, rest, error_kind_of};
ghost use Rattle.bib_dates.specs.Parts as Spec;

use crate::errors::{ReadError, SpecifiedKind, UnspecifiedKind};

// Returns the text after this byte, if the text begins with it.
pub(crate) fn after(text: &str, byte: u8) -> Option<&str>
    requires some { 0 < byte }
    requires ascii { byte < 128 }
    ensures begins { is_some result ≡ Spec.begins_with byte text.now }
    ensures following { IfSome result (λ r. r.now ≡ drop 1 text.now) }
{
    match text.as_bytes() {
        [first, ..] if *first == byte => Some(text.split_at(1).1),
        _ => None,
    }
}

// Returns the number of digits at the start.
fn digits_len(text: &str) -> usize
    ensures { result ≡ prefix_len is_ascii_digit text.now }
{
    text.as_bytes()
        .iter()
        .take_while(|b| b.is_ascii_digit())
        .count()
}

// Returns the digits at the start, and the text after them.
pub(crate) fn digits(text: &str) -> (&str, &str)
    ensures run { result.0.now ≡ Spec.run is_ascii_digit text.now }
    ensures len { length result.0.now ≡ prefix_len is_ascii_digit text.now }
    ensures digits { AllDigits 10 result.0.now }
    ensures following { result.1.now ≡ Spec.after_run is_ascii_digit text.now }
{
    text.split_at(digits_len(text))
}

// Returns the length of the run of this byte at the start.
fn byte_run_len(text: &str, byte: u8) -> usize
    ensures { result ≡ prefix_len (λ b. b == byte) text.now }
{
    text.as_bytes().iter().take_while(|b| **b == byte).count()
}

// Returns the length of the run of this byte at the start, and the text after it.
pub(crate) fn byte_run(text: &str, byte: u8) -> (usize, &str)
    requires { byte < 128 }
    ensures len { result.0 ≡ prefix_len (λ b. b == byte) text.now }
    ensures following { result.1.now ≡ Spec.after_run (λ b. b == byte) text.now }
{
    let len = byte_run_len(text, byte);
    let (_, following) = text.split_at(len);
    (len, following)
}

// Returns the number of one to four digits.
pub(crate) fn value(digits: &str) -> u16
    requires count { length digits.now ≤ 4 }
    requires some { 0 < length digits.now }
    requires digits { AllDigits 10 digits.now }
    ensures value { result ≡ digits_value 10 digits.now }
    ensures below { result < 10000 }
    ensures short { length digits.now ≤ 2 → result < 100 }
    ensures shorter { length digits.now ≤ 3 → result < 1000 }
{
    digits.parse::<u16>().unwrap_or(0)
}

// Parses a number of `low` to `high` digits, after white space. If there are more or fewer digits, the error is
// `reason`.
#[tactic(auto, unfolding(crate::specs::Parts::number))]
pub(crate) fn number(
    low: usize,
    high: usize,
    reason: UnspecifiedKind,
    text: &str,
) -> Result<(u16, &str), ReadError>
    requires some { 0 < low }
    requires few { high ≤ 4 }
    ensures value { part_reading result ≡ Spec.number low high text.now }
    ensures short { high ≤ 2 → IfOk result (λ p. p.0 < 100) }
{
    let (digits, following) = digits(text.trim_start());
    if digits.len() < low || high < digits.len() {
        return Err(ReadError::Unspecified(reason));
    }
    Ok((value(digits), following))
}

// Parses a number of one or two digits, after white space. If it isn't from `low` to `high`, the error is `reason`. If there
// are more digits or none, the error is `InvalidFormat`.
#[tactic(auto, unfolding(crate::specs::Parts::small_number))]
pub(crate) fn small_number(
    low: u8,
    high: u8,
    reason: SpecifiedKind,
    text: &str,
) -> Result<(u8, &str), ReadError>
    ensures value { part_reading result ≡ Spec.small_number low high (error_kind_of reason) text.now }
    ensures within { IfOk result (λ p. (low ≤ p.0) × (p.0 ≤ high)) }
{
    let (n, following) = number(1, 2, UnspecifiedKind::InvalidFormat, text)?;
    if n < u16::from(low) || u16::from(high) < n {
        return Err(ReadError::Specified(reason));
    }
    Ok((n as u8, following))
}

// Returns the text after this byte at the start. If the text doesn't begin with it, the error is `reason`.
pub(crate) fn after_byte(text: &str, byte: u8, reason: UnspecifiedKind) -> Result<&str, ReadError>
    requires some { 0 < byte }
    requires ascii { byte < 128 }
    ensures { rest result ≡ Spec.after_byte byte text.now }
{
    match after(text, byte) {
        Some(following) => Ok(following),
        None => Err(ReadError::Unspecified(reason)),
    }
}

// Skips white space and a colon, and returns the text after them. If there is no colon, the error is `InvalidFormat`.
pub(crate) fn after_colon(text: &str) -> Result<&str, ReadError>
    ensures { rest result ≡ Spec.after_colon text.now }
{
    after_byte(text.trim_start(), b':', UnspecifiedKind::InvalidFormat)
}

// Skips white space and a run of hyphens, and returns the text after them. If there is no hyphen, the error is
// `reason`.
#[tactic(auto, unfolding(crate::specs::Parts::after_hyphens))]
pub(crate) fn after_hyphens(text: &str, reason: UnspecifiedKind) -> Result<&str, ReadError>
    ensures { rest result ≡ Spec.after_hyphens text.now }
{
    let following = after_byte(text.trim_start(), b'-', reason)?;
    let (_, following) = byte_run(following, b'-');
    Ok(following)
}

// Returns whether the text begins with a minus, and the text after a sign at the start, if there is one.
#[tactic(auto, unfolding(crate::specs::Parts::sign))]
pub(crate) fn sign(text: &str) -> (bool, &str)
    ensures minus { result.0 ≡ (Spec.sign text.now).0 }
    ensures following { result.1.now ≡ (Spec.sign text.now).1 }
{
    if let Some(following) = after(text, b'-') {
        return (true, following);
    }
    if let Some(following) = after(text, b'+') {
        return (false, following);
    }
    (false, text)
}

// Returns the year for two digits: 2000 is added to a number below 50, 1900 to others.
fn of_century(year: i32) -> i32
    requires low { neg_ℤ (pos 99) ≤ℤ year }
    requires high { year ≤ℤ pos 99 }
    ensures value { result ≡ Spec.of_century year }
    ensures within { IsYear result }
{
    if year < 50 { year + 2000 } else { year + 1900 }
}

// Parses a year of two or four digits, with an optional sign.
#[tactic(auto, unfolding(crate::specs::Parts::year))]
pub(crate) fn year(text: &str) -> Result<(i32, &str), ReadError>
    ensures value { part_reading result ≡ Spec.year text.now }
    ensures within { IfOk result (λ p. IsYear p.0) }
{
    let (is_minus, following) = sign(text.trim_start());
    let (digits, following) = digits(following.trim_start());
    if digits.len() != 2 && digits.len() != 4 {
        return Err(ReadError::Unspecified(UnspecifiedKind::InvalidFormat));
    }
    let year = with_sign(is_minus, value(digits));
    if digits.len() == 2 {
        return Ok((of_century(year), following));
    }
    Ok((year, following))
}

// Returns the number with its sign.
pub(crate) fn with_sign(is_minus: bool, n: u16) -> i32
    requires { n < 10000 }
    ensures value { result ≡ Spec.with_sign is_minus n }
    ensures within { IsYear result }
    ensures low { n < 100 → neg_ℤ (pos 99) ≤ℤ result }
    ensures high { n < 100 → result ≤ℤ pos 99 }
{
    if is_minus {
        -i32::from(n)
    } else {
        i32::from(n)
    }
}
