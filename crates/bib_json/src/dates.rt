//! Dates as JSON, with months and days counted from 1.

ghost use Rattle.std.specs.Prelude.{◌≡◌, IfOk};
ghost use Rattle.std.specs.Option.{option_map};
ghost use Rattle.serde_json.specs.View.{view};
ghost use Rattle.bib_json.specs.Dates as spec;

use crate::members::{put_given, put_text};
use bib_dates::date::{Date, DateValue, Datetime, Time, TimeOffset};
use serde_json::{Map, Value};
use std::alloc::{AllocError, Global};

// Returns the offset from UTC in minutes, positive for a time ahead of UTC.
fn offset_minutes(offset: TimeOffset) -> i32
    ensures { result ≡ spec.offset_minutes offset }
{
    match offset {
        TimeOffset::Utc => 0,
        TimeOffset::Offset {
            positive,
            hours,
            minutes,
        } => {
            let minutes = i32::from(hours) * 60 + i32::from(minutes);
            if positive { minutes } else { -minutes }
        }
    }
}

// Returns a time of day.
fn time_value(alloc: Global, time: Time) -> Result<Value, AllocError>
    ensures { IfOk result (λ value. view value ≡ spec.time_json time) }
{
    let offset = time
        .offset
        .map(|offset| Value::from(offset_minutes(offset)));
    let mut members = Map::new(alloc);
    serde_json::put(&mut members, alloc, "hour", Value::from(time.hour))?;
    serde_json::put(&mut members, alloc, "minute", Value::from(time.minute))?;
    serde_json::put(&mut members, alloc, "second", Value::from(time.second))?;
    put_given(&mut members, alloc, "offset", offset)?;
    Ok(Value::from(members))
}

// Returns a month or a day, counted from 1.
fn counted_value(index: u8) -> Value
    ensures { view result ≡ spec.counted_json index }
{
    Value::from(u16::from(index) + 1)
}

// Returns a time of day, if there is one.
fn time_if_given(alloc: Global, time: Option<Time>) -> Result<Option<Value>, AllocError>
    ensures { IfOk result (λ value. option_map view value ≡ option_map spec.time_json time) }
{
    match time {
        Some(time) => Ok(Some(time_value(alloc, time)?)),
        None => Ok(None),
    }
}

// Returns a year, with its month, its day and its time if the date has them.
fn datetime_value(alloc: Global, datetime: Datetime) -> Result<Value, AllocError>
    ensures { IfOk result (λ value. view value ≡ spec.datetime_json datetime) }
{
    let time = time_if_given(alloc, datetime.time)?;
    let mut members = Map::new(alloc);
    serde_json::put(&mut members, alloc, "year", Value::from(datetime.year))?;
    put_given(
        &mut members,
        alloc,
        "month",
        datetime.month.map(counted_value),
    )?;
    put_given(&mut members, alloc, "day", datetime.day.map(counted_value))?;
    put_given(&mut members, alloc, "time", time)?;
    Ok(Value::from(members))
}

// Returns the only date or one end of a range, if there is one.
fn end_value(alloc: Global, end: Option<Datetime>) -> Result<Option<Value>, AllocError>
    ensures { IfOk result (λ value. option_map view value ≡ option_map spec.datetime_json end) }
{
    match end {
        Some(datetime) => Ok(Some(datetime_value(alloc, datetime)?)),
        None => Ok(None),
    }
}

// Returns the kind of a date: one date, or a range with a start, with an end, or with both.
fn kind_name(value: DateValue) -> &'static str
    ensures { result.now ≡ spec.date_kind value }
{
    match value {
        DateValue::At(_) => "at",
        DateValue::After(_) => "after",
        DateValue::Before(_) => "before",
        DateValue::Between(_, _) => "between",
    }
}

// Returns the only date, or the start of a range, if it has one.
fn start_of(value: DateValue) -> Option<Datetime>
    ensures { result ≡ spec.date_start value }
{
    match value {
        DateValue::At(date) | DateValue::After(date) | DateValue::Between(date, _) => Some(date),
        DateValue::Before(_) => None,
    }
}

// Returns the end of a range, if it has one.
fn end_of(value: DateValue) -> Option<Datetime>
    ensures { result ≡ spec.date_end value }
{
    match value {
        DateValue::Before(date) | DateValue::Between(_, date) => Some(date),
        DateValue::At(_) | DateValue::After(_) => None,
    }
}

/// Returns a date or a range of dates.
pub(crate) fn date_value(alloc: Global, date: Date) -> Result<Value, AllocError>
    ensures { IfOk result (λ value. view value ≡ spec.date_json date) }
{
    let start = end_value(alloc, start_of(date.value))?;
    let end = end_value(alloc, end_of(date.value))?;
    let mut members = Map::new(alloc);
    put_text(&mut members, alloc, "kind", kind_name(date.value))?;
    put_given(&mut members, alloc, "start", start)?;
    put_given(&mut members, alloc, "end", end)?;
    serde_json::put(
        &mut members,
        alloc,
        "uncertain",
        Value::from(date.uncertain),
    )?;
    serde_json::put(
        &mut members,
        alloc,
        "approximate",
        Value::from(date.approximate),
    )?;
    Ok(Value::from(members))
}
