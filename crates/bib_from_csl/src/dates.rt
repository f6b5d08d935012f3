//! Parses the dates of items.

ghost use Rattle.std.specs.Prelude.{◌≡◌, ◌≤◌, map, IfOk};
ghost use Rattle.std.specs.Option.{option_map};
ghost use Rattle.bib_chunks.specs.Values.{alone};
ghost use Rattle.json.specs.Value.{value_view};
ghost use Rattle.bib_from_csl.specs.GivenDates as spec;

use crate::objects::{elements, one_if, size, string_under, text_under, whole_number};
use bib_chunks::chunk::making::normal;
use bib_csl::dates::{read_date, read_or_unread};
use bib_csl::item::{DateParts, ItemDate, Season};
use bib_text::items::Items;
use bib_text::text::Text;
use json::Value;
use std::alloc::{AllocError, Global};

// Returns a number if it is from 0 to 2^16 - 1.
fn small(number: i64) -> Option<u16>
    ensures { result ≡ spec.sixteen_bits number }
{
    u16::try_from(number).ok()
}

// Returns the number of a month or a day, if it is from 0 to 2^16 - 1.
fn small_number(value: &Value<'_>) -> Option<u16>
    ensures { result ≡ spec.small_count (value_view value.now) }
{
    let number = whole_number(value)?;
    small(number)
}

// Returns the year, the month and the day of an array of one to three numbers, which may be texts.
fn date_parts(values: &[Value<'_>]) -> Option<DateParts>
    ensures { result ≡ spec.day_of_numbers (map value_view values.now) }
{
    match values {
        [year] => Some(DateParts {
            year: whole_number(year)?,
            month: None,
            day: None,
        }),
        [year, month] => Some(DateParts {
            year: whole_number(year)?,
            month: Some(small_number(month)?),
            day: None,
        }),
        [year, month, day] => Some(DateParts {
            year: whole_number(year)?,
            month: Some(small_number(month)?),
            day: Some(small_number(day)?),
        }),
        _ => None,
    }
}

// Returns the date of a value that is such an array.
fn date_in(value: &Value<'_>) -> Option<DateParts>
    ensures { result ≡ spec.day_in (value_view value.now) }
{
    let numbers = elements(value)?;
    date_parts(numbers)
}

// Returns one date, or the two dates of a range, if the array contains one or two dates.
fn dates_of(alloc: Global, values: &[Value<'_>]) -> Result<Option<Items<DateParts>>, AllocError>
    ensures { IfOk result (λ dates. dates ≡ spec.dates_of (map value_view values.now)) }
{
    let mut dates = Items::new(alloc);
    match values {
        [only] => {
            let Some(only) = date_in(only) else {
                return Ok(None);
            };
            dates.push(only)?;
        }
        [start, end] => {
            let (Some(start), Some(end)) = (date_in(start), date_in(end)) else {
                return Ok(None);
            };
            dates.push(start)?;
            dates.push(end)?;
        }
        _ => return Ok(None),
    }
    Ok(Some(dates))
}

// Returns the dates in the member `date-parts`.
fn dates_under(alloc: Global, date: &Value<'_>) -> Result<Option<Items<DateParts>>, AllocError>
    ensures { IfOk result (λ dates. dates ≡ spec.dates_under (value_view date.now)) }
{
    let Some(member) = date.get("date-parts") else {
        return Ok(None);
    };
    let Some(values) = elements(member) else {
        return Ok(None);
    };
    dates_of(alloc, values)
}

// Returns the season with this number.
fn season_of(number: &str) -> Option<Season>
    ensures { result ≡ spec.season_of_number number.now }
{
    match number {
        "1" => Some(Season::Spring),
        "2" => Some(Season::Summer),
        "3" => Some(Season::Autumn),
        "4" => Some(Season::Winter),
        _ => None,
    }
}

// Returns the season in the member `season`.
fn season_under(date: &Value<'_>) -> Option<Season>
    ensures { result ≡ spec.season_under (value_view date.now) }
{
    let number = text_under(date, "season")?;
    season_of(number)
}

// Returns the member `circa` if it is true or false.
fn circa_under(date: &Value<'_>) -> Option<bool>
    ensures { result ≡ spec.circa_under (value_view date.now) }
{
    let member = date.get("circa")?;
    member.as_bool()
}

// Returns the text of a date: the member `literal`, or else the member `raw`.
fn date_text<'a>(date: &Value<'a>) -> Option<&'a str>
    ensures { option_map (λ text. text.now) result ≡ spec.date_words (value_view date.now) }
{
    match string_under(date, "literal") {
        Some(text) => Some(text),
        None => string_under(date, "raw"),
    }
}

// Returns a copy of a text, if there is one.
fn copied(alloc: Global, text: Option<&str>) -> Result<Option<Text>, AllocError>
    ensures { IfOk result (λ copy. copy ≡ option_map (λ text. text.now) text.entry) }
{
    match text {
        Some(text) => Ok(Some(Text::from_str(alloc, text)?)),
        None => Ok(None),
    }
}

// Returns the date with these parts, and with the season, `circa` and the text of the object.
#[tactic(auto, unfolding(crate::specs::GivenDates::parted_date))]
fn parted_date(
    alloc: Global,
    date: &Value<'_>,
    parts: Items<DateParts>,
) -> Result<ItemDate, AllocError>
    ensures { IfOk result (λ item. item ≡ spec.parted_date parts (value_view date.now)) }
{
    Ok(ItemDate {
        parts,
        season: season_under(date),
        circa: circa_under(date).unwrap_or(false),
        literal: copied(alloc, date_text(date))?,
    })
}

/// Returns the date that a text is parsed as in a date field, or else a season or a date with this text. Returns `None` if it is
/// empty.
pub fn said_date(alloc: Global, text: &str) -> Result<Option<ItemDate>, AllocError>
    ensures { IfOk result (λ item. item ≡ spec.said_date text.now) }
{
    let chunks = normal(alloc, text)?;
    let date = read_date(alloc, chunks.as_slice())?;
    read_or_unread(alloc, date, Text::from_str(alloc, text)?)
}

// Returns the date of an object: by its parts, or else by its text.
#[tactic(auto, unfolding(crate::specs::GivenDates::date_given))]
pub(crate) fn given_date(alloc: Global, date: &Value<'_>) -> Result<Option<ItemDate>, AllocError>
    ensures { IfOk result (λ item. item ≡ spec.date_given (value_view date.now)) }
{
    if let Some(parts) = dates_under(alloc, date)? {
        return Ok(Some(parted_date(alloc, date, parts)?));
    }
    match date_text(date) {
        Some(text) => said_date(alloc, text),
        None => Ok(None),
    }
}

// Returns the number of members of an object that its date is made of.
#[tactic(auto, unfolding(crate::specs::GivenDates::said_by_parts))]
fn said_by_parts(alloc: Global, date: &Value<'_>) -> Result<usize, AllocError>
    ensures { IfOk result (λ n. n ≡ spec.said_by_parts (value_view date.now)) }
{
    if dates_under(alloc, date)?.is_none() {
        return Ok(one_if(date_text(date).is_some()));
    }
    Ok(
        1 + one_if(season_under(date).is_some())
            + one_if(circa_under(date).is_some())
            + one_if(date_text(date).is_some()),
    )
}

// Returns whether an object has no members except those that its date is made of.
pub(crate) fn is_whole_date(alloc: Global, date: &Value<'_>) -> Result<bool, AllocError>
    ensures { IfOk result (λ is. is ≡ spec.is_whole_date (value_view date.now)) }
{
    Ok(size(date) == said_by_parts(alloc, date)?)
}
