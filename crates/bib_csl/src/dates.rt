//! The dates of an item.

ghost use Rattle.std.specs.Prelude.{◌≡◌, ◌<◌, pos, true, length, ◌++◌, Some, OnOk, IfOk};
ghost use Rattle.std.specs.Char.{is_ascii_digit};
ghost use Rattle.std.specs.List.{prefix_len};
ghost use Rattle.std.specs.Option.{option_map, option_copied};
ghost use Rattle.bib_chunks.specs.Values.{text};
ghost use Rattle.bib_dates.specs.Chunks.{date_read};
ghost use Rattle.bib_csl.specs.Dates as spec;

use crate::fields::add_date;
use crate::item::{DateParts, Field, ItemDate, Season};
use crate::standing::shown;
use crate::texts::{joined, shown_field};
use crate::variables::Variable;
use bib_chunks::chunk::ChunksRef;
use bib_dates::date::{Date, DateValue, Datetime};
use bib_entry::entry::Entry;
use bib_text::digits::are_digits;
use bib_text::items::Items;
use bib_text::text::Text;
use std::alloc::{AllocError, Global};

// Returns a year as CSL counts it: the year before 1 is -1.
#[tactic(auto, unfolding(crate::specs::Dates::csl_year))]
fn csl_year(year: i32) -> i64
    ensures { result ≡ spec.csl_year year }
{
    if year < 1 {
        return year as i64 - 1;
    }
    year as i64
}

// Returns a number that counts from 0 as a number that counts from 1.
fn from_one(number: Option<u8>) -> Option<u16>
    ensures { result ≡ option_map spec.from_one number }
{
    match number {
        Some(n) => Some(n as u16 + 1),
        None => None,
    }
}

// Returns the year, the month and the day of a date as CSL counts them.
#[tactic(auto, unfolding(crate::specs::Dates::parts_of_date))]
fn parts_of_date(date: &Datetime) -> DateParts
    ensures { result ≡ spec.parts_of_date date.now }
{
    DateParts {
        year: csl_year(date.year),
        month: from_one(date.month),
        day: from_one(date.day),
    }
}

// The date in place of the open side of a range.
const OPEN_SIDE: DateParts = DateParts {
    year: 0,
    month: None,
    day: None,
};

// Returns the dates of a date or a range: one, or two for a range.
#[tactic(auto, unfolding(crate::specs::Dates::parts_of_value))]
fn parts_of_value(alloc: Global, value: &DateValue) -> Result<Items<DateParts>, AllocError>
    ensures { IfOk result (λ parts. parts ≡ spec.parts_of_value value.now) }
{
    let mut parts = Items::new(alloc);
    match value {
        DateValue::At(date) => parts.push(parts_of_date(date))?,
        DateValue::After(start) => {
            parts.push(parts_of_date(start))?;
            parts.push(OPEN_SIDE)?;
        }
        DateValue::Before(end) => {
            parts.push(OPEN_SIDE)?;
            parts.push(parts_of_date(end))?;
        }
        DateValue::Between(start, end) => {
            parts.push(parts_of_date(start))?;
            parts.push(parts_of_date(end))?;
        }
    }
    Ok(parts)
}

// Returns the date of an item for a parsed date.
#[tactic(auto, unfolding(crate::specs::Dates::date_item))]
fn date_item(alloc: Global, date: &Date) -> Result<ItemDate, AllocError>
    ensures { IfOk result (λ item. item ≡ spec.date_item date.now) }
{
    Ok(ItemDate {
        parts: parts_of_value(alloc, &date.value)?,
        season: None,
        circa: date.uncertain || date.approximate,
        literal: None,
    })
}

// Returns the date of an item for a text that can't be parsed as a date.
#[tactic(auto, unfolding(crate::specs::Dates::literal_item))]
fn literal_item(alloc: Global, text: Text) -> ItemDate
    ensures { result ≡ spec.literal_item text }
{
    ItemDate {
        parts: Items::new(alloc),
        season: None,
        circa: false,
        literal: Some(text),
    }
}

// Returns the value of a digit at an index of a text. It is 0 for a byte below `0`, and above 9 for a byte above `9`.
#[tactic(auto, unfolding(crate::specs::Dates::digit))]
fn digit(text: &[u8], i: usize) -> u32
    requires { i < length text.now }
    ensures value { result ≡ spec.digit text.now i }
    ensures small { result < 256 }
{
    text[i].saturating_sub(b'0') as u32
}

// Returns the year that the first four bytes of a text form as digits.
#[tactic(auto, unfolding(crate::specs::Dates::first_year))]
fn first_year(text: &[u8]) -> i32
    requires { 3 < length text.now }
    ensures { result ≡ pos (spec.first_year text.now) }
{
    let year = 1000 * digit(text, 0) + 100 * digit(text, 1) + 10 * digit(text, 2) + digit(text, 3);
    year as i32
}

// Returns whether a text is four ASCII digits, `-2` and one more byte: ISO 8601-2 has the seasons 21 to 24 there.
#[tactic(auto, unfolding(crate::specs::Dates::is_season_text))]
fn is_season_text(text: &[u8]) -> bool
    ensures value { result ≡ spec.is_season_text text.now }
    ensures long { result ≡ true → 6 < length text.now }
{
    text.len() == 7 && are_digits(&text[..4]) && text[4] == b'-' && digit(text, 5) == 2
}

// Returns the season with the number 20 + `number` in ISO 8601-2.
fn season_numbered(number: u32) -> Option<Season>
    ensures { result ≡ spec.season_numbered number }
{
    match number {
        1 => Some(Season::Spring),
        2 => Some(Season::Summer),
        3 => Some(Season::Autumn),
        4 => Some(Season::Winter),
        _ => None,
    }
}

// Returns the date of an item for a season of the year at the start of `text`.
#[tactic(auto, unfolding(crate::specs::Dates::season_item))]
fn season_item(alloc: Global, text: &[u8], season: Season) -> Result<ItemDate, AllocError>
    requires { 3 < length text.now }
    ensures { IfOk result (λ item. item ≡ spec.season_item (spec.first_year text.now) season) }
{
    let mut parts = Items::new(alloc);
    parts.push(DateParts {
        year: csl_year(first_year(text)),
        month: None,
        day: None,
    })?;
    Ok(ItemDate {
        parts,
        season: Some(season),
        circa: false,
        literal: None,
    })
}

// Returns the date of an item for a text such as `2020-21`, which is a season of a year.
#[tactic(auto, unfolding(crate::specs::Dates::season_of))]
fn season_of(alloc: Global, text: &[u8]) -> Result<Option<ItemDate>, AllocError>
    ensures { IfOk result (λ item. item ≡ spec.season_of text.now) }
{
    if !is_season_text(text) {
        return Ok(None);
    }
    match season_numbered(digit(text, 6)) {
        Some(season) => Ok(Some(season_item(alloc, text, season)?)),
        None => Ok(None),
    }
}

// Returns the date of an item for a text that isn't parsed: a season, or else the text itself. Returns `None` if it is empty.
#[tactic(auto, unfolding(crate::specs::Dates::unread))]
fn unread(alloc: Global, text: Text) -> Result<Option<ItemDate>, AllocError>
    ensures { IfOk result (λ item. item ≡ spec.unread text) }
{
    if text.is_empty() {
        return Ok(None);
    }
    match season_of(alloc, text.as_str().as_bytes())? {
        Some(season) => Ok(Some(season)),
        None => Ok(Some(literal_item(alloc, text))),
    }
}

/// Returns the date of an item: `date` if it was parsed, or else the season that `text` is, or else `text` as an unparsed text. Returns
/// `None` without a date if `text` is empty. The only error is out of memory.
#[tactic(auto, unfolding(crate::specs::Dates::read_or_unread))]
pub fn read_or_unread(
    alloc: Global,
    date: Option<Date>,
    text: Text,
) -> Result<Option<ItemDate>, AllocError>
    ensures { IfOk result (λ item. item ≡ spec.read_or_unread date text) }
{
    if let Some(date) = date {
        return Ok(Some(date_item(alloc, &date)?));
    }
    unread(alloc, text)
}

/// Returns the date that `chunks` contain, or `None` if they can't be parsed as one. The only error is out of memory.
pub fn read_date(alloc: Global, chunks: ChunksRef<'_>) -> Result<Option<Date>, AllocError>
    ensures { IfOk result (λ date. date ≡ date_read chunks.now) }
{
    match Date::parse(alloc, chunks) {
        Ok(date) => Ok(Some(date)),
        Err(e) => {
            let _unread = e.unless_out_of_memory()?;
            Ok(None)
        }
    }
}

// Returns a text without the hyphen before it, if it has one.
fn without_hyphen(text: &str) -> &str
    ensures { result.now ≡ spec.without_hyphen text.now }
{
    match text.as_bytes() {
        [first, ..] if *first == b'-' => text.split_at(1).1,
        _ => text,
    }
}

// Returns the number of ASCII digits at the start of a text.
fn digits(text: &str) -> usize
    ensures { result ≡ prefix_len is_ascii_digit text.now }
{
    text.as_bytes()
        .iter()
        .take_while(|byte| byte.is_ascii_digit())
        .count()
}

// Returns a text without the ASCII digits at its start.
fn after_digits(text: &str) -> &str
    ensures { result.now ≡ spec.after_digits text.now }
{
    text.split_at(digits(text)).1
}

// Returns whether a text has nothing but the digits of a year, maybe with a hyphen before them and an era after them. There may be
// white space at its ends and before the era, and the digits may be missing.
#[tactic(auto, unfolding(crate::specs::Dates::is_year))]
fn is_year(text: &str) -> bool
    ensures { result ≡ spec.is_year text.now }
{
    let rest = after_digits(without_hyphen(text.trim()));
    matches!(rest.trim_start(), "" | "AD" | "CE" | "BCE" | "BC")
}

// Returns the date that a year, and the month and the day if the entry has them, are parsed as. Returns `None` if they can't be
// parsed, or if there is other text around the year.
#[tactic(auto, unfolding(crate::specs::Dates::three_fields_read))]
fn read_fields(
    alloc: Global,
    year: ChunksRef<'_>,
    month: Option<ChunksRef<'_>>,
    day: Option<ChunksRef<'_>>,
) -> Result<Option<Date>, AllocError>
    ensures { IfOk result (λ date. date ≡ spec.three_fields_read year.now (option_copied month.entry) (option_copied day.entry)) }
{
    if !is_year(shown(alloc, year)?.as_str()) {
        return Ok(None);
    }
    match Date::parse_three_fields(alloc, year, month, day) {
        Ok(date) => Ok(Some(date)),
        Err(e) => {
            let _unread = e.unless_out_of_memory()?;
            Ok(None)
        }
    }
}

// Returns the date of an item for the chunks of one date field.
#[tactic(auto, unfolding(crate::specs::Dates::read_or_unread))]
fn one_field_item(alloc: Global, chunks: ChunksRef<'_>) -> Result<Option<ItemDate>, AllocError>
    ensures { IfOk result (λ item. item ≡ spec.read_or_unread (date_read chunks.now) (text chunks.now)) }
{
    if let Some(date) = read_date(alloc, chunks)? {
        return Ok(Some(date_item(alloc, &date)?));
    }
    unread(alloc, shown(alloc, chunks)?)
}

// Returns the date of an item for a year, and the month and the day if the entry has them. If `read_fields` returns `None`, it is the
// date for the text of the month and the year, which can be a season.
#[tactic(auto, unfolding(crate::specs::Dates::three_fields_item, crate::specs::Dates::read_or_unread))]
fn three_fields_item(
    alloc: Global,
    year: ChunksRef<'_>,
    month: Option<ChunksRef<'_>>,
    day: Option<ChunksRef<'_>>,
) -> Result<Option<ItemDate>, AllocError>
    ensures { IfOk result (λ item. item ≡ spec.three_fields_item (Some year.now)
        (option_copied month.entry) (option_copied day.entry)) }
{
    if let Some(date) = read_fields(alloc, year, month, day)? {
        return Ok(Some(date_item(alloc, &date)?));
    }
    let month = shown_field(alloc, month)?;
    unread(alloc, joined(" ", month, shown(alloc, year)?)?)
}

/// Returns the date of an item for the field named `date`, or else for the fields named `year`, `month` and `day`. The only error is out of
/// memory.
#[tactic(auto, unfolding(crate::specs::Dates::date_in, crate::specs::Dates::three_fields_item))]
pub fn date_in(
    alloc: Global,
    entry: &Entry,
    date: &str,
    year: &str,
    month: &str,
    day: &str,
) -> Result<Option<ItemDate>, AllocError>
    ensures { IfOk result (λ item. item ≡ spec.date_in entry.now date.now year.now month.now day.now) }
{
    if let Some(chunks) = entry.get(date) {
        return one_field_item(alloc, chunks);
    }
    match entry.get(year) {
        Some(year) => three_fields_item(alloc, year, entry.get(month), entry.get(day)),
        None => Ok(None),
    }
}

// Appends the dates of an item.
#[tactic(auto, unfolding(crate::specs::Dates::date_fields))]
pub(crate) fn add_dates(
    alloc: Global,
    entry: &Entry,
    fields: &mut Items<Field>,
) -> Result<(), AllocError>
    ensures { OnOk result (fields.new ≡ fields.old ++ spec.date_fields entry.now) }
{
    let issued = date_in(alloc, entry, "date", "year", "month", "day")?;
    add_date(fields, Variable::Issued, issued)?;
    let accessed = date_in(alloc, entry, "urldate", "urlyear", "urlmonth", "urlday")?;
    add_date(fields, Variable::Accessed, accessed)?;
    let event = date_in(
        alloc,
        entry,
        "eventdate",
        "eventyear",
        "eventmonth",
        "eventday",
    )?;
    add_date(fields, Variable::EventDate, event)?;
    let original = date_in(alloc, entry, "origdate", "origyear", "origmonth", "origday")?;
    add_date(fields, Variable::OriginalDate, original)
}
