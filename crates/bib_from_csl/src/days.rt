//! Writes the values of date fields.

ghost use Rattle.std.specs.Prelude.{◌≡◌, ◌≤◌, ◌++◌, IfOk, string_bytes};
ghost use Rattle.std.specs.Option.{option_map};
ghost use Rattle.bib_dates.specs.Written.{datetime_text as text_of_datetime, date_text as text_of_date};
ghost use Rattle.bib_from_csl.specs.WrittenDates as spec;

use crate::tags::spelled;
use crate::values::braced;
use bib_csl::item::{DateParts, ItemDate, Season};
use bib_dates::date::{Date, DateValue, Datetime};
use bib_text::text::Text;
use std::alloc::{AllocError, Global};

// Returns a year as BibLaTeX counts it, with 0 for the year before 1, or `None` if it then has more than four digits.
fn year_of(year: i64) -> Option<i32>
    ensures { result ≡ spec.counted_year year }
{
    if year < -10000 || 9999 < year {
        return None;
    }
    if year < 0 {
        return Some(year as i32 + 1);
    }
    Some(year as i32)
}

// Returns a number from 1 to `last` as one that counts from 0, or `None` for another number.
fn from_zero(number: u16, last: u16) -> Option<u8>
    requires { last ≤ 256 }
    ensures { result ≡ spec.from_zero number last }
{
    if number < 1 || last < number {
        return None;
    }
    Some((number - 1) as u8)
}

// Returns an optional number from 1 to `last` as one that counts from 0, or `None` if it is out of range.
fn counted(number: Option<u16>, last: u16) -> Option<Option<u8>>
    requires { last ≤ 256 }
    ensures { result ≡ spec.counted_part number last }
{
    match number {
        Some(number) => Some(Some(from_zero(number, last)?)),
        None => Some(None),
    }
}

// Returns the date of a year, a month and a day, or `None` if one is out of range.
fn datetime_of(parts: &DateParts) -> Option<Datetime>
    ensures { result ≡ spec.datetime_of parts.now }
{
    let year = year_of(parts.year)?;
    let month = counted(parts.month, 12)?;
    let day = counted(parts.day, 31)?;
    Some(Datetime {
        year,
        month,
        day,
        time: None,
    })
}

// Returns whether a date represents the open side of a range: the year 0 without a month and a day.
fn is_open_side(parts: &DateParts) -> bool
    ensures { result ≡ spec.is_open_side parts.now }
{
    parts.year == 0 && parts.month.is_none() && parts.day.is_none()
}

// Returns a range, which may have an open side.
fn range_with_sides(start: &DateParts, end: &DateParts) -> Option<DateValue>
    ensures { result ≡ spec.range_with_sides start.now end.now }
{
    if is_open_side(end) {
        return Some(DateValue::After(datetime_of(start)?));
    }
    if is_open_side(start) {
        return Some(DateValue::Before(datetime_of(end)?));
    }
    let start = datetime_of(start)?;
    let end = datetime_of(end)?;
    Some(DateValue::Between(start, end))
}

// Returns the value for one date, or for the two dates of a range.
fn value_of(parts: &[DateParts]) -> Option<DateValue>
    ensures { result ≡ spec.dates_value parts.now }
{
    match parts {
        [only] => Some(DateValue::At(datetime_of(only)?)),
        [start, end] => range_with_sides(start, end),
        _ => None,
    }
}

// Returns the last digit of the number of a season in ISO 8601-2 (21 to 24).
fn season_digit(season: Season) -> &'static str
    ensures { result.now ≡ spec.season_digit season }
{
    match season {
        Season::Spring => "1",
        Season::Summer => "2",
        Season::Autumn => "3",
        Season::Winter => "4",
    }
}

// Returns the first of these dates, or `None` if there is none, or if one of its parts is out of range.
fn first_of(parts: &[DateParts]) -> Option<Datetime>
    ensures { result ≡ spec.date_of_first parts.now }
{
    match parts.first() {
        Some(first) => datetime_of(first),
        None => None,
    }
}

// Returns a date without its month, day and time.
fn only_year(date: Datetime) -> Datetime
    ensures { result ≡ spec.only_year date }
{
    Datetime {
        year: date.year,
        month: None,
        day: None,
        time: None,
    }
}

// Returns the year of the first date with the number of a season after it, such as `2020-21`. Returns `None` if there is no such
// date.
fn season_text(
    alloc: Global,
    parts: &[DateParts],
    season: Season,
) -> Result<Option<Text>, AllocError>
    ensures { IfOk result (λ text. text ≡ spec.season_text parts.now season) }
{
    let Some(first) = first_of(parts) else {
        return Ok(None);
    };
    let year = only_year(first);
    let digit = season_digit(season);
    Ok(Some(Text::from_string(format!(in alloc; "{year}-2{digit}")?)))
}

// Returns the mark of an approximate date: `~` if `circa` is true, otherwise an empty text.
fn mark_of(circa: bool) -> &'static str
    ensures { result.now ≡ spec.circa_mark circa }
{
    if circa { "~" } else { "" }
}

// Returns the text of a date or a range, with a mark if it is approximate.
fn value_text(alloc: Global, value: DateValue, circa: bool) -> Result<Text, AllocError>
    ensures { IfOk result (λ text. text ≡ text_of_date (spec.date_with value circa)) }
{
    let mark = mark_of(circa);
    let text = match value {
        DateValue::At(at) => format!(in alloc; "{at}{mark}")?,
        DateValue::After(start) => format!(in alloc; "{start}/..{mark}")?,
        DateValue::Before(end) => format!(in alloc; "../{end}{mark}")?,
        DateValue::Between(start, end) => format!(in alloc; "{start}/{end}{mark}")?,
    };
    Ok(Text::from_string(text))
}

// Returns the text of one or two dates, or `None` if BibLaTeX can't write them.
fn parts_text(alloc: Global, parts: &[DateParts], circa: bool) -> Result<Option<Text>, AllocError>
    ensures { IfOk result (λ text. text ≡ spec.parts_text parts.now circa) }
{
    match value_of(parts) {
        Some(value) => Ok(Some(value_text(alloc, value, circa)?)),
        None => Ok(None),
    }
}

// Returns the text of a date with a text of its own. The mark of an approximate date is only added if the date has parts.
#[tactic(auto, unfolding(crate::specs::WrittenDates::literal_source))]
fn literal_text(alloc: Global, literal: &str, date: &ItemDate) -> Result<Text, AllocError>
    ensures { IfOk result (λ text. text ≡ spec.literal_source literal.now date.now) }
{
    let mut text = spelled(alloc, literal)?;
    text.push_str(mark_of(date.circa && !date.parts.is_empty()))?;
    Ok(text)
}

// Returns the text of a date: that of its season if it has one, or else its own text, or else that of its parts. Returns `None` if the
// season has no date with parts in range, or if BibLaTeX can't write the parts.
#[tactic(auto, unfolding(crate::specs::WrittenDates::text_of_item))]
fn text_of_item(alloc: Global, date: &ItemDate) -> Result<Option<Text>, AllocError>
    ensures { IfOk result (λ text. text ≡ spec.text_of_item date.now) }
{
    if let Some(season) = date.season {
        return season_text(alloc, date.parts.as_slice(), season);
    }
    match &date.literal {
        Some(literal) => Ok(Some(literal_text(alloc, literal.as_str(), date)?)),
        None => parts_text(alloc, date.parts.as_slice(), date.circa),
    }
}

// Returns the value of a date field, if the date can be written.
pub(crate) fn date_value(alloc: Global, date: &ItemDate) -> Result<Option<Text>, AllocError>
    ensures { IfOk result (λ value. value ≡ spec.date_source date.now) }
{
    match text_of_item(alloc, date)? {
        Some(text) => Ok(Some(braced(alloc, text.as_str())?)),
        None => Ok(None),
    }
}
