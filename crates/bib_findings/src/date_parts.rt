//! Dates whose year, month and day are in three fields.

ghost use Rattle.std.specs.Prelude.{◌≡◌, is_some, IfOk, option_copied};
ghost use Rattle.std.specs.FinMap as by_name;
ghost use Rattle.bib_findings.specs.DateParts as spec;
ghost use Rattle.bib_findings.specs.DateParts.{name_of_day, malformed_part, name_of_month, parts_read, name_of_year};

use bib_chunks::chunk::ChunksRef;
use bib_chunks::chunk::making::normal;
use bib_dates::date::Date;
use bib_entry::entry::Entry;
use std::alloc::{AllocError, Global};

// Returns the field that contains the year of this date, if the date is in separate fields; any other name is unchanged.
fn name_of_year(name: &str) -> &str
    ensures { result.now ≡ name_of_year name.now }
{
    match name {
        "date" => "year",
        "eventdate" => "eventyear",
        "origdate" => "origyear",
        "urldate" => "urlyear",
        _ => name,
    }
}

// Returns the field that contains the month of this date, if the date is in separate fields; any other name is unchanged.
fn name_of_month(name: &str) -> &str
    ensures { result.now ≡ name_of_month name.now }
{
    match name {
        "date" => "month",
        "eventdate" => "eventmonth",
        "origdate" => "origmonth",
        "urldate" => "urlmonth",
        _ => name,
    }
}

// Returns the field that contains the day of this date, if the date is in separate fields; any other name is unchanged.
fn name_of_day(name: &str) -> &str
    ensures { result.now ≡ name_of_day name.now }
{
    match name {
        "date" => "day",
        "eventdate" => "eventday",
        "origdate" => "origday",
        "urldate" => "urlday",
        _ => name,
    }
}

// Returns whether a year, a month and a day can be parsed as a date.
fn are_date(
    alloc: Global,
    year: ChunksRef<'_>,
    month: Option<ChunksRef<'_>>,
    day: Option<ChunksRef<'_>>,
) -> Result<bool, AllocError>
    ensures { IfOk result (λ are. are ≡ is_some (parts_read year.now (option_copied month.entry) (option_copied day.entry))) }
{
    match Date::parse_three_fields(alloc, year, month, day) {
        Ok(_) => Ok(true),
        Err(error) => {
            error.unless_out_of_memory()?;
            Ok(false)
        }
    }
}

// Returns whether there is a day, and a year and a month can be parsed as a date with the first day of the month instead.
fn is_malformed_day(
    alloc: Global,
    year: ChunksRef<'_>,
    month: Option<ChunksRef<'_>>,
    day: Option<ChunksRef<'_>>,
) -> Result<bool, AllocError>
    ensures { IfOk result (λ is. is ≡ spec.is_malformed_day year.now (option_copied month.entry) (option_copied day.entry)) }
{
    if day.is_none() {
        return Ok(false);
    }
    let first = normal(alloc, "1")?;
    are_date(alloc, year, month, Some(first.as_slice()))
}

/// Returns the name of the first of the year, the month and the day of an entry that can't be parsed, if this is a malformed date in
/// separate fields. Any other name, and that of a date without a year, is unchanged.
pub(crate) fn malformed_part<'n>(
    alloc: Global,
    entry: &Entry,
    name: &'n str,
) -> Result<&'n str, AllocError>
    ensures { IfOk result (λ part. part.now ≡ malformed_part entry.now name.now) }
{
    let Some(year) = entry.get(name_of_year(name)) else {
        return Ok(name);
    };
    if !are_date(alloc, year, None, None)? {
        return Ok(name_of_year(name));
    }
    let month = entry.get(name_of_month(name));
    let day = entry.get(name_of_day(name));
    if is_malformed_day(alloc, year, month, day)? {
        Ok(name_of_day(name))
    } else {
        Ok(name_of_month(name))
    }
}
