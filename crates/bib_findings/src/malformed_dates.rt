//! Findings of fields that should be a date and aren't one.

ghost use Rattle.std.specs.Prelude.{◌≡◌, ◌++◌, ◌==◌, ◌||◌, codes, is_none, IfOk, OnOk};
ghost use Rattle.bib_tables.specs.Requirements.{texts};
ghost use Rattle.bib_dates.specs.Chunks.{date_read};
ghost use Rattle.bib_dates.specs.Dates.{is_approximate, is_open, is_uncertain, without_mark};
ghost use Rattle.bib_syntax.specs.Views.{entry_reading_of};
ghost use Rattle.bib_findings.specs.MalformedDates as spec;
ghost use Rattle.bib_findings.specs.MalformedDates.{date_findings, dates_among, has_no_date, is_no_date};

use crate::codes::Code;
use crate::entries::field_finding;
use crate::finding::Finding;
use crate::nearest::is_one_of;
use crate::other_digits::is_other_year;
use crate::places::last_named;
use bib_chunks::chunk::making::normal;
use bib_chunks::chunk::{ChunksRef, format_verbatim};
use bib_dates::date::Date;
use bib_entry::entry::Entry;
use bib_syntax::raw::RawEntry;
use bib_text::digits::are_digits;
use bib_text::spanned::Spanned;
use std::alloc::{AllocError, Global};

// The fields that should be a date.
pub(crate) static DATE_FIELDS: [&str; 4] = ["date", "urldate", "eventdate", "origdate"];

// The numbers in place of a month for seasons, quarters and other divisions of a year, each with a hyphen before it.
static YEAR_DIVISIONS: [&str; 21] = [
    "-21", "-22", "-23", "-24", "-25", "-26", "-27", "-28", "-29", "-30", "-31", "-32", "-33",
    "-34", "-35", "-36", "-37", "-38", "-39", "-40", "-41",
];

// Returns a text without the hyphen at its start.
fn unsigned(text: &[u8]) -> &[u8]
    ensures { result.now ≡ spec.unsigned text.now }
{
    match text {
        [b'-', rest @ ..] => rest,
        _ => text,
    }
}

/// Returns whether a byte at the end of a date marks it as uncertain, approximate or both.
pub(crate) fn is_mark(b: u8) -> bool
    ensures { result ≡ (is_uncertain b || is_approximate b) }
{
    b == b'%' || b == b'?' || b == b'~'
}

// Returns a text without the mark at its end, if there is one.
fn without_mark(text: &[u8]) -> &[u8]
    ensures { result.now ≡ without_mark text.now }
{
    match text {
        [rest @ .., last] if is_mark(*last) => rest,
        _ => text,
    }
}

// Returns whether a text without a sign is a year with a division.
fn is_division(year: &[u8]) -> bool
    ensures { result ≡ spec.is_division year.now }
{
    match year {
        [a, b, c, d, number @ ..] => {
            are_digits(&[*a, *b, *c, *d]) && is_one_of(&YEAR_DIVISIONS, number)
        }
        _ => false,
    }
}

// Returns whether a text is a long year: `Y`, maybe a minus sign, and at least five digits.
fn is_long_year(text: &[u8]) -> bool
    ensures { result ≡ spec.is_long_year text.now }
{
    match text {
        [b'Y', year @ ..] => unsigned(year).len() > 4 && are_digits(unsigned(year)),
        _ => false,
    }
}

// Returns whether a text is the zone of a time: nothing, `Z`, or an offset.
fn is_zone(zone: &[u8]) -> bool
    ensures { result ≡ spec.is_zone zone.now }
{
    match zone {
        [] | [b'Z'] => true,
        [b'+' | b'-', a, b, b':', c, d] => are_digits(&[*a, *b, *c, *d]),
        _ => false,
    }
}

// Returns whether a text is three decimals of a second and a zone.
fn is_fraction(text: &[u8]) -> bool
    ensures { result ≡ spec.is_fraction text.now }
{
    match text {
        [a, b, c, zone @ ..] => are_digits(&[*a, *b, *c]) && is_zone(zone),
        _ => false,
    }
}

// Returns whether a side of a range is open.
fn is_open(side: &str) -> bool
    ensures { result ≡ is_open side.now }
{
    side.trim().is_empty() || side == ".."
}

// Returns whether a text is a year with a division or a long year, maybe with a mark at its end.
fn is_special_year(side: &str) -> bool
    ensures { result ≡ spec.is_special_year side.now }
{
    let year = without_mark(side.as_bytes());
    is_division(unsigned(year)) || is_long_year(year)
}

// Returns whether a value can't be parsed as a date.
fn is_unread(alloc: Global, chunks: ChunksRef<'_>) -> Result<bool, AllocError>
    ensures { IfOk result (λ unread. unread ≡ is_none (date_read chunks.now)) }
{
    match Date::parse(alloc, chunks) {
        Ok(_) => Ok(false),
        Err(error) => {
            error.unless_out_of_memory()?;
            Ok(true)
        }
    }
}

// Returns whether the library reads a text as a date.
fn reads_as_date(alloc: Global, text: &str) -> Result<bool, AllocError>
    ensures { IfOk result (λ date. date ≡ spec.reads_as_date text.now) }
{
    let chunks = normal(alloc, text)?;
    Ok(!is_unread(alloc, chunks.as_slice())?)
}

// Returns whether a text is a date and a time to the second, with three decimals, maybe a zone, and maybe a mark at its end.
fn has_decimals(alloc: Global, side: &str) -> Result<bool, AllocError>
    ensures { IfOk result (λ decimals. decimals ≡ spec.has_decimals side.now) }
{
    let Some((clock, after)) = side.split_once('.') else {
        return Ok(false);
    };
    if is_fraction(without_mark(after.as_bytes())) && unsigned(clock.as_bytes()).len() == 19 {
        return reads_as_date(alloc, clock);
    }
    Ok(false)
}

// Returns whether a text may be a side of a range, or a whole date.
#[tactic(auto, unfolding(crate::specs::MalformedDates::is_side))]
fn is_side(alloc: Global, side: &str) -> Result<bool, AllocError>
    ensures { IfOk result (λ is. is ≡ spec.is_side side.now) }
{
    if is_open(side) || is_special_year(side) || is_other_year(side) {
        return Ok(true);
    }
    if reads_as_date(alloc, side)? {
        return Ok(true);
    }
    has_decimals(alloc, side)
}

// Returns whether two texts are the sides of a range.
fn are_sides(alloc: Global, from: &str, to: &str) -> Result<bool, AllocError>
    ensures { IfOk result (λ are. are ≡ spec.are_sides from.now to.now) }
{
    if to.as_bytes().contains(&b'/') || !is_side(alloc, from)? {
        return Ok(false);
    }
    is_side(alloc, to)
}

// Returns whether a text is a date in the form of the Extended Date/Time Format that Biber reads.
fn is_edtf(alloc: Global, text: &str) -> Result<bool, AllocError>
    ensures { IfOk result (λ edtf. edtf ≡ spec.is_edtf text.now) }
{
    match text.split_once('/') {
        Some((from, to)) => {
            if text == "/" {
                return Ok(false);
            }
            are_sides(alloc, from, to)
        }
        None => is_side(alloc, text),
    }
}

// Returns whether a value is neither a date that the library reads, nor blank, nor a date that Biber reads.
fn is_no_date(alloc: Global, chunks: ChunksRef<'_>) -> Result<bool, AllocError>
    ensures { IfOk result (λ no_date. no_date ≡ is_no_date chunks.now) }
{
    if !is_unread(alloc, chunks)? {
        return Ok(false);
    }
    let text = format_verbatim(alloc, chunks)?;
    let text = text.as_str();
    if text.trim().is_empty() {
        return Ok(false);
    }
    Ok(!is_edtf(alloc, text)?)
}

// Returns whether an entry itself has a field, and its value is neither blank nor a date.
pub(crate) fn has_no_date(
    alloc: Global,
    said: &Spanned<RawEntry<'_>>,
    entry: &Entry,
    name: &str,
) -> Result<bool, AllocError>
    ensures { IfOk result (λ no_date. no_date ≡ has_no_date (entry_reading_of said.now) entry.now name.now) }
{
    if last_named(said.v.fields.as_slice(), name).is_none() {
        return Ok(false);
    }
    match entry.get(name) {
        Some(chunks) => is_no_date(alloc, chunks),
        None => Ok(false),
    }
}

// Appends a finding for each of these fields of an entry whose value is neither blank nor a date.
fn add_dates_among(
    alloc: Global,
    found: &mut Vec<Finding>,
    said: &Spanned<RawEntry<'_>>,
    entry: &Entry,
    names: &[&'static str],
) -> Result<(), AllocError>
    ensures { OnOk result (found.new.items ≡ found.old.items ++
        dates_among (entry_reading_of said.now) entry.now (texts names.now)) }
{
    'names: for name in names {
        if has_no_date(alloc, said, entry, name)? {
            found.push(field_finding(alloc, said, Code::MalformedDate, "malformed", name)?)?;
        }
    }
    Ok(())
}

/// Appends a finding for each field of an entry that should be a date, and whose value is neither blank nor a date.
pub(crate) fn add_dates(
    alloc: Global,
    found: &mut Vec<Finding>,
    said: &Spanned<RawEntry<'_>>,
    entry: &Entry,
) -> Result<(), AllocError>
    ensures { OnOk result (found.new.items ≡ found.old.items ++ date_findings (entry_reading_of said.now) entry.now) }
{
    add_dates_among(alloc, found, said, entry, &DATE_FIELDS)
}
