// The parser of a date in three fields. A function that parses one part at the start of a text also returns the rest, if
// its caller parses another part there.

ghost use Rattle.std.specs.Prelude.{◌≡◌, ◌<◌, ◌&&◌, ◌==◌, not, nat_lt, length, is_some, IfSome, drop, codes};
ghost use Rattle.std.specs.List.{prefix_len};
ghost use Rattle.std.specs.Char.{is_ascii_alphabetic};
ghost use Rattle.std.specs.Str.Parse.{AllDigits, digits_value};
ghost use Rattle.bib_dates.specs.Code.{reading, part_reading};
ghost use Rattle.bib_dates.specs.Parts;
ghost use Rattle.bib_dates.specs.Readings.Reading.{says};
ghost use Rattle.bib_dates.specs.ThreeFields as Spec;

use crate::errors::{ReadError, SpecifiedKind, UnspecifiedKind};
use crate::parts::{after, digits, sign, value, with_sign};
use bib_chunks::chunk::Span;
use bib_tables::months::Month;
use bib_text::scanner::Scanner;

// Returns whether the text begins with white space.
fn starts_blank(text: &str) -> bool
    ensures { result ≡ Spec.starts_blank text.now }
{
    text.trim_start().len() != text.len()
}

// Returns whether the text begins with a letter or a number.
fn starts_word(text: &str) -> bool
    ensures { result ≡ Spec.starts_word text.now }
{
    let Some(first) = text.chars().next() else {
        return false;
    };
    first.is_alphabetic() || first.is_numeric()
}

// Returns the text after these two bytes, if the text begins with them.
fn after_two(text: &str, first: u8, second: u8) -> Option<&str>
    requires some { 0 < first }
    requires ascii { first < 128 }
    requires other { 0 < second }
    requires low { second < 128 }
    ensures stands { is_some result ≡ (Parts.begins_with first text.now && Parts.begins_with second (drop 1 text.now)) }
    ensures following { IfSome result (λ r. r.now ≡ drop 1 (drop 1 text.now)) }
{
    let following = after(text, first)?;
    after(following, second)
}

// Returns the text after `BCE`, if the text begins with that.
fn after_bce(text: &str) -> Option<&str>
    ensures stands { is_some result ≡ Spec.stands (codes "BCE") text.now }
    ensures following { IfSome result (λ r. r.now ≡ Spec.after_word (codes "BCE") text.now) }
{
    let following = after(text, b'B')?;
    after_two(following, b'C', b'E')
}

// Returns the year of an era. `following` is the text after the name of the era.
#[tactic(auto, unfolding(crate::specs::ThreeFields::of_era))]
fn of_era(has_sign: bool, n: u16, year: i32, following: &str) -> Result<i32, ReadError>
    ensures { reading result ≡ Spec.of_era has_sign n year following.now }
{
    if starts_word(following) {
        return Err(ReadError::Unspecified(UnspecifiedKind::InvalidFormat));
    }
    if has_sign {
        return Err(ReadError::Specified(SpecifiedKind::InvalidFormat));
    }
    if n == 0 {
        return Err(ReadError::Specified(SpecifiedKind::YearZeroCE));
    }
    Ok(year)
}

// Returns the year of this number and sign, and of the era that may be at the start of `text`.
#[tactic(auto, unfolding(crate::specs::ThreeFields::with_era))]
fn with_era(has_sign: bool, is_minus: bool, n: u16, text: &str) -> Result<i32, ReadError>
    requires { n < 10000 }
    ensures { reading result ≡ Spec.with_era has_sign is_minus n text.now }
{
    if let Some(following) = after_two(text, b'A', b'D') {
        return of_era(has_sign, n, i32::from(n), following);
    }
    if let Some(following) = after_two(text, b'C', b'E') {
        return of_era(has_sign, n, i32::from(n), following);
    }
    if let Some(following) = after_bce(text) {
        return of_era(has_sign, n, 1 - i32::from(n), following);
    }
    if let Some(following) = after_two(text, b'B', b'C') {
        return of_era(has_sign, n, 1 - i32::from(n), following);
    }
    Ok(with_sign(is_minus, n))
}

// Parses the year field: an optional sign, one to four digits and an optional era. Other text after them is ignored, except that
// a letter or a number directly after an era is an error.
#[tactic(auto, unfolding(crate::specs::ThreeFields::year_field))]
pub(crate) fn year_field(text: &str) -> Result<i32, ReadError>
    ensures { reading result ≡ Spec.year_field text.now }
{
    let here = text.trim_start();
    let (is_minus, following) = sign(here);
    let has_sign = following.len() != here.len();
    if has_sign && starts_blank(following) {
        return Err(ReadError::Specified(SpecifiedKind::InvalidFormat));
    }
    let (digits, following) = digits(following);
    if digits.len() < 1 || 4 < digits.len() {
        return Err(ReadError::Unspecified(UnspecifiedKind::WrongNumberOfDigits));
    }
    with_era(has_sign, is_minus, value(digits), following.trim_start())
}

// Returns the index, from 0, of the month that a word names, or `None` if it names no month.
fn month_named(word: &str) -> Option<u8>
    ensures { result ≡ Spec.month_named word.now }
{
    Some(Month::from_word(word)?.index())
}

// Returns the number of ASCII letters at the start.
fn letters_len(text: &str) -> usize
    ensures { result ≡ prefix_len is_ascii_alphabetic text.now }
{
    text.as_bytes()
        .iter()
        .take_while(|b| b.is_ascii_alphabetic())
        .count()
}

// Returns the ASCII letters at the start, and the text after them.
fn letters(text: &str) -> (&str, &str)
    ensures run { result.0.now ≡ Parts.run is_ascii_alphabetic text.now }
    ensures following { result.1.now ≡ Parts.after_run is_ascii_alphabetic text.now }
{
    text.split_at(letters_len(text))
}

// Returns the month that the ASCII letters at the start name, or `None`, and the text after these letters.
fn named_month(text: &str) -> (Option<u8>, &str)
    ensures { says (result.0, result.1.now) ≡ Spec.named_month text.now }
{
    let (word, following) = letters(text);
    (month_named(word), following)
}

// Parses the month field, and returns the month and the text after it.
#[tactic(auto, unfolding(crate::specs::ThreeFields::month_field))]
pub(crate) fn month_field(text: &str) -> Result<(Option<u8>, &str), ReadError>
    ensures { part_reading result ≡ Spec.month_field text.now }
{
    let (digits, following) = digits(text.trim_start());
    if digits.len() < 1 || 2 < digits.len() {
        return Ok(named_month(following));
    }
    let n = value(digits);
    if n < 1 || 12 < n {
        return Err(ReadError::Specified(SpecifiedKind::MonthOutOfRange));
    }
    Ok((Some(n as u8 - 1), following))
}

// Returns a text without the white space and hyphens at its start.
fn after_gap(text: &str) -> &str
    ensures { result.now ≡ Spec.after_gap text.now }
{
    let mut scanner = Scanner::new(text);
    scanner.eat_while(|c| c.is_whitespace() || c == '-');
    let at = scanner.cursor();
    &text[at..]
}

// Returns the span of the digits of a day after a month, in bytes of the month's text.
pub(crate) fn day_place(text: &str, following: &str) -> Span
    ensures { result ≡ Spec.day_place text.now following.now }
{
    let here = after_gap(following);
    let (_, after_digits) = digits(here);
    text.len().saturating_sub(here.len())..text.len().saturating_sub(after_digits.len())
}

// Returns a day from 1 to 31, counted from 0, or `None` for another number.
fn day_number(digits: &str) -> Option<u8>
    requires { AllDigits 10 digits.now }
    ensures { result ≡ Spec.day_number digits.now }
{
    let Ok(day) = digits.parse::<u8>() else {
        return None;
    };
    if day < 1 || 31 < day {
        return None;
    }
    Some(day - 1)
}

// Parses the day after a month. Returns `Ok(None)` if the text doesn't begin with white space or a hyphen.
#[tactic(auto, unfolding(crate::specs::ThreeFields::day_after))]
pub(crate) fn day_after(text: &str) -> Result<Option<u8>, ReadError>
    ensures { reading result ≡ Spec.day_after text.now }
{
    let here = after_gap(text);
    if here.len() == text.len() {
        return Ok(None);
    }
    let (digits, _) = digits(here);
    if digits.is_empty() {
        return Err(ReadError::Unspecified(UnspecifiedKind::MissingNumber));
    }
    let Some(day) = day_number(digits) else {
        return Err(ReadError::Specified(SpecifiedKind::DayOutOfRange));
    };
    Ok(Some(day))
}

// Returns whether digits are a number of at most 255.
fn is_short(digits: &str) -> bool
    requires { AllDigits 10 digits.now }
    ensures { result ≡ (not (length digits.now == 0) && not (nat_lt 255 (digits_value 10 digits.now))) }
{
    digits.parse::<u8>().is_ok()
}

// Parses a day that consists of digits only. If the text isn't a number of at most 255, the error is `reason`.
#[tactic(auto, unfolding(crate::specs::ThreeFields::only_day))]
fn only_day(text: &str, reason: UnspecifiedKind) -> Result<Option<u8>, ReadError>
    ensures { reading result ≡ Spec.only_day text.now }
{
    let (digits, following) = digits(text);
    if !following.is_empty() || !is_short(digits) {
        return Err(ReadError::Unspecified(reason));
    }
    let Some(day) = day_number(digits) else {
        return Err(ReadError::Specified(SpecifiedKind::DayOutOfRange));
    };
    Ok(Some(day))
}

// Parses the day field. If it isn't a number of at most 255, the error is `reason`.
#[tactic(auto, unfolding(crate::specs::ThreeFields::day_field))]
pub(crate) fn day_field(text: &str, reason: UnspecifiedKind) -> Result<Option<u8>, ReadError>
    ensures { reading result ≡ Spec.day_field text.now }
{
    let here = text.trim();
    if let Some(following) = after(here, b'+') {
        return only_day(following, reason);
    }
    only_day(here, reason)
}
