//! Parses dates: a year, a month, a day and any other text, with slashes between them.

ghost use Rattle.std.specs.Prelude.{◌≡◌, IfOk};
ghost use Rattle.bib_from_csl.specs.GivenDates.{sixteen_bits};
ghost use Rattle.bib_values.specs.Numbers.{decimal_of};
ghost use Rattle.bib_from_ris.specs.RisDates as spec;

use crate::cuts::{at_hyphen, at_slash};
use bib_csl::item::{DateParts, ItemDate};
use bib_from_csl::dates::said_date;
use bib_text::items::Items;
use std::alloc::{AllocError, Global};

// Returns the month of a date, or an empty text.
fn month_in(text: &str) -> &str
    ensures { result.now ≡ spec.month_portion text.now }
{
    let (_, rest) = at_slash(text);
    let (month, _) = at_slash(rest);
    month
}

// Returns the text after the month of a date.
fn after_month(text: &str) -> &str
    ensures { result.now ≡ spec.right_of_slash (spec.right_of_slash text.now) }
{
    let (_, rest) = at_slash(text);
    let (_, after) = at_slash(rest);
    after
}

// Returns the day of a date, or an empty text.
fn day_in(text: &str) -> &str
    ensures { result.now ≡ spec.day_portion text.now }
{
    let (day, _) = at_slash(after_month(text));
    day
}

// Returns the text after the day of a date, or an empty text.
fn remark_in(text: &str) -> &str
    ensures { result.now ≡ spec.remark_portion text.now }
{
    let (_, remark) = at_slash(after_month(text));
    remark
}

// Returns the year of a date.
fn year_in(text: &str) -> &str
    ensures { result.now ≡ spec.year_portion text.now }
{
    let (year, _) = at_slash(text);
    year
}

// Returns the integer that a text has in decimal digits, maybe with a sign before them, or `None` if it is no `i64`.
fn number_in(text: &str) -> Option<i64>
    ensures { result ≡ decimal_of text.now }
{
    text.parse::<i64>().ok()
}

// Returns a number if it is from 0 to 2^16 - 1.
fn small(number: i64) -> Option<u16>
    ensures { result ≡ sixteen_bits number }
{
    u16::try_from(number).ok()
}

// Returns the number of a month or a day.
fn small_number(text: &str) -> Option<u16>
    ensures { result ≡ spec.month_or_day text.now }
{
    let number = number_in(text)?;
    small(number)
}

// Returns the date with this year, this month and this day, if each is a number. The day, or both the month and the day, can be empty.
#[tactic(auto, unfolding(crate::specs::RisDates::parted_day))]
fn parts_of(year: &str, month: &str, day: &str) -> Option<DateParts>
    ensures { result ≡ spec.parted_day year.now month.now day.now }
{
    if !day.is_empty() {
        return Some(DateParts {
            year: number_in(year)?,
            month: Some(small_number(month)?),
            day: Some(small_number(day)?),
        });
    }
    if !month.is_empty() {
        return Some(DateParts {
            year: number_in(year)?,
            month: Some(small_number(month)?),
            day: None,
        });
    }
    Some(DateParts {
        year: number_in(year)?,
        month: None,
        day: None,
    })
}

// Returns the parts of the date of a text.
fn parts_in(text: &str) -> Option<DateParts>
    ensures { result ≡ spec.parted_day (spec.year_portion text.now) (spec.month_portion text.now) (spec.day_portion text.now) }
{
    parts_of(year_in(text), month_in(text), day_in(text))
}

// Returns a date with these parts.
fn of_parts(alloc: Global, only: DateParts) -> Result<ItemDate, AllocError>
    ensures { IfOk result (λ date. date ≡ spec.of_parts only) }
{
    let mut parts = Items::new(alloc);
    parts.push(only)?;
    Ok(ItemDate {
        parts,
        season: None,
        circa: false,
        literal: None,
    })
}

/// Returns the date of a text: by its parts, or else as in a date field. Returns `None` if the text is empty.
#[tactic(auto, unfolding(crate::specs::RisDates::ris_date))]
pub(crate) fn ris_date(alloc: Global, text: &str) -> Result<Option<ItemDate>, AllocError>
    ensures { IfOk result (λ date. date ≡ spec.ris_date text.now) }
{
    match parts_in(text) {
        Some(parts) => Ok(Some(of_parts(alloc, parts)?)),
        None => said_date(alloc, text),
    }
}

/// Returns whether no part of the text of a date is missing from `ris_date`.
#[tactic(auto, unfolding(crate::specs::RisDates::has_whole_date))]
pub(crate) fn is_whole_date(text: &str) -> bool
    ensures { result ≡ spec.has_whole_date text.now }
{
    match parts_in(text) {
        Some(_) => remark_in(text).is_empty(),
        None => true,
    }
}

// Returns whether a date has no month, no day and no text after the day.
fn is_only_year(text: &str) -> bool
    ensures { result ≡ spec.is_only_year text.now }
{
    month_in(text).is_empty() && day_in(text).is_empty() && remark_in(text).is_empty()
}

// Returns whether the text before the first slash or hyphen of a date is this year.
fn has_year(year: &str, day: &str) -> bool
    ensures { result ≡ spec.has_year year.now day.now }
{
    let (before, _) = at_hyphen(day);
    year == year_in(day) || year == before
}

/// Returns whether `year`, the text of the tag PY or Y1, is part of `day`, the text of the tag DA: it is only a year, and that of `day`.
#[tactic(auto, unfolding(crate::specs::RisDates::is_year_of))]
pub(crate) fn is_year_of(year: &str, day: &str) -> bool
    ensures { result ≡ spec.is_year_of year.now day.now }
{
    is_only_year(year) && has_year(year_in(year), day)
}
