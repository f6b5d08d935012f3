//! Lines of dates.

ghost use Rattle.std.specs.Prelude.{◌≡◌, ◌++◌, IfOk, OnOk};
ghost use Rattle.std.specs.String.{string_bytes};
ghost use Rattle.bib_ris.specs.Dates as spec;

use crate::lines::push_given;
use bib_csl::dates::date_in;
use bib_csl::item::{DateParts, ItemDate};
use bib_entry::entry::Entry;
use bib_text::text::Text;
use std::alloc::{AllocError, Global};

// Returns the only date, or the start of a range, or its end if its start is open.
fn first_date(parts: &[DateParts]) -> Option<DateParts>
    ensures { result ≡ spec.first_date parts.now }
{
    match parts {
        [] => None,
        [only] => Some(*only),
        [start, end, ..] => Some(if start.year == 0 { *end } else { *start }),
    }
}

// Returns a month or a day in at least two digits, or an empty text if it is unknown.
fn two_digits(alloc: Global, number: Option<u16>) -> Result<String, AllocError>
    ensures { IfOk result (λ text. string_bytes text ≡ spec.two_digits number) }
{
    match number {
        None => Ok(String::new(alloc)),
        Some(number) if number < 10 => format!(in alloc; "0{number}"),
        Some(number) => format!(in alloc; "{number}"),
    }
}

// Returns a year, a month and a day with a slash after each.
fn slashed_day(alloc: Global, date: DateParts) -> Result<String, AllocError>
    ensures { IfOk result (λ text. string_bytes text ≡ spec.slashed_day date) }
{
    let month = two_digits(alloc, date.month)?;
    let day = two_digits(alloc, date.day)?;
    format!(in alloc; "{}/{}/{}/", date.year, month.as_str(), day.as_str())
}

// Returns the text of a date that isn't parsed, or an empty text.
fn unparsed(date: &ItemDate) -> &str
    ensures { result.now ≡ spec.unparsed date.now }
{
    match &date.literal {
        Some(text) => text.as_str(),
        None => "",
    }
}

// Appends the lines of the date of publication: its year, and the whole date if its month is known. A date that isn't parsed has
// one line, with its text.
fn push_issued(out: &mut String, alloc: Global, date: &ItemDate) -> Result<(), AllocError>
    ensures { OnOk result (string_bytes out.new ≡ string_bytes out.old ++ spec.issued_date date.now) }
{
    let Some(first) = first_date(date.parts.as_slice()) else {
        return push_given(out, "PY", unparsed(date));
    };
    let year = format!(in alloc; "{}", first.year)?;
    push_given(out, "PY", year.as_str())?;
    if first.month.is_none() {
        return Ok(());
    }
    push_given(out, "DA", slashed_day(alloc, first)?.as_str())
}

// Appends the line of the date of access.
fn push_access(out: &mut String, alloc: Global, date: &ItemDate) -> Result<(), AllocError>
    ensures { OnOk result (string_bytes out.new ≡ string_bytes out.old ++ spec.access_date date.now) }
{
    match first_date(date.parts.as_slice()) {
        Some(first) => push_given(out, "Y2", slashed_day(alloc, first)?.as_str()),
        None => push_given(out, "Y2", unparsed(date)),
    }
}

/// Appends the lines of the dates of publication and of access.
pub(crate) fn push_dates(out: &mut String, alloc: Global, entry: &Entry) -> Result<(), AllocError>
    ensures { OnOk result (string_bytes out.new ≡ string_bytes out.old ++ spec.lines_of_dates entry.now) }
{
    if let Some(date) = date_in(alloc, entry, "date", "year", "month", "day")? {
        push_issued(out, alloc, &date)?;
    }
    match date_in(alloc, entry, "urldate", "urlyear", "urlmonth", "urlday")? {
        Some(date) => push_access(out, alloc, &date),
        None => Ok(()),
    }
}
