// Parses a date in one text.

ghost use Rattle.std.specs.Prelude.{◌≡◌, ◌+◌, ◌^◌, ◌<◌, ◌≤◌, None, pos, ◌↔◌, ◌==◌, IsTrue, IfOk, IfSome, is_some};
ghost use Rattle.std.specs.List.{before_first, after_first};
ghost use Rattle.bib_text.specs.Characters as char;
ghost use Rattle.jiff_core.specs.Calendar.{IsDate, IsYear, days_in_month};
ghost use Rattle.bib_tables.specs.declared.type_error.TypeErrorKind.TheVariants.{DayOutOfRange};
ghost use Rattle.bib_dates.specs.Code.{reading, part_reading};
ghost use Rattle.bib_dates.specs.Parts;
ghost use Rattle.bib_dates.specs.Dates as Spec;

use crate::date::{Date, DateValue, Datetime};
use crate::errors::{ReadError, SpecifiedKind, UnspecifiedKind};
use crate::parts::{after, after_hyphens, byte_run, digits, number, small_number, value, year};
use crate::times::after_day;
use jiff::civil;

// Returns whether the calendar has this day. The month and the day count from 1.
pub(crate) fn day_exists(year: i32, month: u8, day: u8) -> bool
    requires { IsYear year }
    ensures { IsTrue result ↔ IsDate year (pos month) (pos day) }
{
    let (Ok(year), Ok(month), Ok(day)) = (
        i16::try_from(year),
        i8::try_from(month),
        i8::try_from(day),
    ) else {
        return false;
    };
    civil::Date::new(year, month, day).is_ok()
}

// Parses a day of this month, which counts from 1.
#[tactic(auto, unfolding(crate::specs::Parts::small_number))]
fn day(year: i32, month: u8, text: &str) -> Result<(u8, &str), ReadError>
    requires year { IsYear year }
    requires low { 1 ≤ month }
    requires high { month ≤ 12 }
    ensures value { part_reading result ≡ Parts.small_number 1 (days_in_month year month) DayOutOfRange text.now }
    ensures some { IfOk result (λ p. 1 ≤ p.0) }
{
    let (n, following) = number(1, 2, UnspecifiedKind::InvalidFormat, text)?;
    let day = n as u8;
    if !day_exists(year, month, day) {
        return Err(ReadError::Specified(SpecifiedKind::DayOutOfRange));
    }
    Ok((day, following))
}

// Returns the date of this year and month, which counts from 1, and of the day and the time that may come after them.
#[tactic(auto, unfolding(crate::specs::Dates::after_month))]
fn after_month(year: i32, month: u8, text: &str) -> Result<Datetime, ReadError>
    requires year { IsYear year }
    requires low { 1 ≤ month }
    requires high { month ≤ 12 }
    ensures { reading result ≡ Spec.after_month year month text.now }
{
    if text.is_empty() {
        return Ok(Datetime {
            year,
            month: Some(month - 1),
            day: None,
            time: None,
        });
    }
    let following = after_hyphens(text, UnspecifiedKind::InvalidFormat)?;
    let (day, following) = day(year, month, following)?;
    let time = after_day(following.trim_start())?;
    Ok(Datetime {
        year,
        month: Some(month - 1),
        day: Some(day - 1),
        time,
    })
}

// Returns the date of this year, and of the month, the day and the time that may come after it.
#[tactic(auto, unfolding(crate::specs::Dates::after_year))]
fn after_year(year: i32, text: &str) -> Result<Datetime, ReadError>
    requires { IsYear year }
    ensures { reading result ≡ Spec.after_year year text.now }
{
    if text.is_empty() {
        return Ok(Datetime {
            year,
            month: None,
            day: None,
            time: None,
        });
    }
    let following = after_hyphens(text, UnspecifiedKind::InvalidFormat)?;
    let (month, following) = small_number(1, 12, SpecifiedKind::MonthOutOfRange, following)?;
    after_month(year, month, following.trim_start())
}

// Parses one side of a range, or a single date.
#[tactic(auto, unfolding(crate::specs::Dates::side))]
fn side(text: &str) -> Result<Datetime, ReadError>
    ensures { reading result ≡ Spec.side text.now }
{
    let (year, following) = year(text)?;
    after_year(year, following.trim_start())
}

// Returns a date without a time.
fn datetime(year: u16, month: Option<u8>, day: Option<u8>) -> Datetime
    ensures { result ≡ Spec.datetime (pos year) month day None }
{
    Datetime {
        year: i32::from(year),
        month,
        day,
        time: None,
    }
}

// Returns the range from the first month of a year to the last one.
fn months(year: u16) -> DateValue
    ensures { result ≡ Spec.months year }
{
    DateValue::Between(
        datetime(year, Some(0), None),
        datetime(year, Some(11), None),
    )
}

// Returns the range from the first day of a month to the 31st, even if there is none.
fn days(year: u16, month: u8) -> DateValue
    ensures { result ≡ Spec.days year month }
{
    DateValue::Between(
        datetime(year, Some(month), Some(0)),
        datetime(year, Some(month), Some(30)),
    )
}

// Returns the range from this year to the one `more` years later.
fn years(year: u16, more: u16) -> DateValue
    requires { year + more < 2 ^ 16 }
    ensures { result ≡ Spec.years year more }
{
    DateValue::Between(
        datetime(year, None, None),
        datetime(year + more, None, None),
    )
}

// Returns the months of a year. `text` is the text after `XX` for the month.
#[tactic(auto, unfolding(crate::specs::Dates::all_months))]
fn all_months(year: u16, text: &str) -> Result<DateValue, ReadError>
    ensures { reading result ≡ Spec.all_months year text.now }
{
    if text.trim_start().is_empty() {
        return Ok(months(year));
    }
    let following = after_hyphens(text, UnspecifiedKind::InvalidFormat)?;
    let (count, _) = byte_run(following.trim_start(), b'X');
    if count != 2 {
        return Err(ReadError::Unspecified(UnspecifiedKind::InvalidFormat));
    }
    Ok(months(year))
}

// Returns the days of a month. `text` is the text after the year and hyphens.
#[tactic(auto, unfolding(crate::specs::Dates::all_days))]
fn all_days(year: u16, text: &str) -> Result<DateValue, ReadError>
    ensures { reading result ≡ Spec.all_days year text.now }
{
    let (month, following) = number(2, 2, UnspecifiedKind::WrongNumberOfDigits, text)?;
    if month < 1 || 12 < month {
        return Err(ReadError::Specified(SpecifiedKind::MonthOutOfRange));
    }
    let following = after_hyphens(following, UnspecifiedKind::InvalidFormat)?;
    let (count, following) = byte_run(following.trim_start(), b'X');
    if count != 2 || !following.trim_start().is_empty() {
        return Err(ReadError::Unspecified(UnspecifiedKind::InvalidFormat));
    }
    Ok(days(year, month as u8 - 1))
}

// Returns the months of a year or the days of a month. `text` is the text after the year and hyphens.
#[tactic(auto, unfolding(crate::specs::Dates::unknown_month))]
fn unknown_month(year: u16, text: &str) -> Result<DateValue, ReadError>
    ensures { reading result ≡ Spec.unknown_month year text.now }
{
    let (count, following) = byte_run(text, b'X');
    if count == 2 {
        return all_months(year, following);
    }
    if count == 0 {
        return all_days(year, text);
    }
    Err(ReadError::Unspecified(UnspecifiedKind::WrongNumberOfDigits))
}

// Returns the years of a century. `text` is the text after its two digits.
#[tactic(auto, unfolding(crate::specs::Dates::century))]
fn century(n: u16, text: &str) -> Result<DateValue, ReadError>
    requires { n < 100 }
    ensures { reading result ≡ Spec.century n text.now }
{
    let (count, _) = byte_run(text, b'X');
    if count != 2 {
        return Err(ReadError::Unspecified(UnspecifiedKind::WrongNumberOfDigits));
    }
    Ok(years(100 * n, 99))
}

// Returns the years of a decade. `text` is the text after its three digits.
#[tactic(auto, unfolding(crate::specs::Dates::decade))]
fn decade(n: u16, text: &str) -> Result<DateValue, ReadError>
    requires { n < 1000 }
    ensures { reading result ≡ Spec.decade n text.now }
{
    let (count, _) = byte_run(text, b'X');
    if count != 1 {
        return Err(ReadError::Unspecified(UnspecifiedKind::WrongNumberOfDigits));
    }
    Ok(years(10 * n, 9))
}

// Returns the months of a year or the days of a month. `text` is the text after the year's four digits. An `X` right
// after them would be a fifth digit.
#[tactic(auto, unfolding(crate::specs::Dates::after_four_digits))]
fn after_four_digits(year: u16, text: &str) -> Result<DateValue, ReadError>
    ensures { reading result ≡ Spec.after_four_digits year text.now }
{
    if after(text, b'X').is_some() {
        return Err(ReadError::Specified(SpecifiedKind::WrongNumberOfDigits));
    }
    let following = after_hyphens(text, UnspecifiedKind::InvalidFormat)?;
    unknown_month(year, following.trim_start())
}

// Parses a date with unknown digits.
#[tactic(auto, unfolding(crate::specs::Dates::unknown))]
fn unknown(text: &str) -> Result<DateValue, ReadError>
    ensures { reading result ≡ Spec.unknown text.now }
{
    let (digits, following) = digits(text.trim_start());
    if digits.len() > 4 {
        return Err(ReadError::Specified(SpecifiedKind::WrongNumberOfDigits));
    }
    if digits.len() < 2 {
        return Err(ReadError::Unspecified(UnspecifiedKind::WrongNumberOfDigits));
    }
    let n = value(digits);
    if digits.len() == 4 {
        return after_four_digits(n, following);
    }
    if digits.len() == 2 {
        return century(n, following);
    }
    decade(n, following)
}

// Returns whether a side of a range is open: it is blank or two dots.
fn is_open(text: &str) -> bool
    ensures { result ≡ Spec.is_open text.now }
{
    text.trim().is_empty() || text == ".."
}

// Parses a range with these sides.
#[tactic(auto, unfolding(crate::specs::Dates::range))]
fn range(from: &str, to: &str) -> Result<DateValue, ReadError>
    ensures { reading result ≡ Spec.range from.now to.now }
{
    if is_open(from) {
        if is_open(to) {
            return Err(ReadError::Specified(SpecifiedKind::UndefinedRange));
        }
        let end = side(to)?;
        return Ok(DateValue::Before(end));
    }
    let start = side(from)?;
    if is_open(to) {
        return Ok(DateValue::After(start));
    }
    let end = side(to)?;
    Ok(DateValue::Between(start, end))
}

// Returns the texts before and after the first slash.
fn sides(text: &str) -> Option<(&str, &str)>
    ensures some { is_some result ≡ Spec.holds char.slash text.now }
    ensures from { IfSome result (λ p. p.0.now ≡ before_first (λ b. b == char.slash) text.now) }
    ensures to { IfSome result (λ p. p.1.now ≡ after_first (λ b. b == char.slash) text.now) }
{
    text.split_once('/')
}

// Parses a date without the mark at its end.
#[tactic(auto, unfolding(crate::specs::Dates::date_value))]
fn date_value(text: &str) -> Result<DateValue, ReadError>
    ensures { reading result ≡ Spec.date_value text.now }
{
    if text.as_bytes().contains(&b'X') {
        return unknown(text);
    }
    let Some((from, to)) = sides(text) else {
        let at = side(text)?;
        return Ok(DateValue::At(at));
    };
    range(from, to)
}

// Returns whether this mark says that a date is uncertain.
fn is_uncertain(mark: u8) -> bool
    ensures { result ≡ Spec.is_uncertain mark }
{
    mark == b'%' || mark == b'?'
}

// Returns whether this mark says that a date is approximate.
fn is_approximate(mark: u8) -> bool
    ensures { result ≡ Spec.is_approximate mark }
{
    mark == b'%' || mark == b'~'
}

// Returns the last byte of a text, or 0.
fn last(text: &str) -> u8
    ensures { result ≡ Spec.last text.now }
{
    text.as_bytes().last().copied().unwrap_or(0)
}

// Returns a text without the mark at its end.
fn without_mark(text: &str) -> &str
    ensures { result.now ≡ Spec.without_mark text.now }
{
    if is_uncertain(last(text)) || is_approximate(last(text)) {
        return text.split_at(text.len() - 1).0;
    }
    text
}

// Parses a date with the mark at its end.
#[tactic(auto, unfolding(crate::specs::Dates::marked_date))]
pub(crate) fn marked_date(text: &str) -> Result<Date, ReadError>
    ensures { reading result ≡ Spec.marked_date text.now }
{
    let value = date_value(without_mark(text))?;
    let mark = last(text);
    Ok(Date {
        value,
        uncertain: is_uncertain(mark),
        approximate: is_approximate(mark),
    })
}
