//! Parses dates from the chunks of fields, and writes them as chunks.

ghost use Rattle.std.specs.Prelude.{◌≡◌, ℕ, IfOk, option_copied};
ghost use Rattle.std.specs.Option.{option_map};
ghost use Rattle.std.specs.declared.ops.Range.{Range as ARange};
ghost use Rattle.bib_chunks.specs.Styled;
ghost use Rattle.bib_chunks.specs.Values.{text};
ghost use Rattle.bib_tables.specs.ReadAs.{LiesAt};
ghost use Rattle.bib_dates.specs.Code.{reading};
ghost use Rattle.bib_dates.specs.ThreeFields as Fields;
ghost use Rattle.bib_dates.specs.Chunks.{
  AnswersReading,
  date_reading,
  date_written,
  month_error_place,
  parts_error_place,
  three_fields_place,
  three_fields_reading,
};

use crate::date::{Date, DateValue, Datetime};
use crate::errors::{ReadError, UnspecifiedKind};
use crate::fields::{day_after, day_field, day_place, month_field, year_field};
use crate::read::marked_date;
use crate::write;
use bib_chunks::chunk::making::normal;
use bib_chunks::chunk::{Chunks, ChunksRef, Span, format_verbatim, whole_span};
use bib_tables::type_error::TypeError;
use std::alloc::{AllocError, Global};

// Returns the parsed value, or its error with this span.
fn with_span<T: Drop>(read: Result<T, ReadError>, span: Span) -> Result<T, TypeError>
    ensures reads { AnswersReading (reading read) result }
    ensures place { LiesAt span result }
{
    match read {
        Ok(value) => Ok(value),
        Err(ReadError::Specified(reason)) => Err(TypeError {
            span,
            kind: reason.kind(),
        }),
        Err(ReadError::Unspecified(reason)) => Err(TypeError {
            span,
            kind: reason.kind(),
        }),
    }
}

impl Date {
    /// Parses the formatted text of `chunks` as a date or a range, in any ASCII case. A mark at its end says that it is
    /// uncertain (`?`), approximate (`~`) or both (`%`).
    ///
    /// An error other than out of memory has the span of all chunks. Some kinds are specified. `UndefinedRange` means that
    /// both sides of a range are open. `MonthOutOfRange` and `DayOutOfRange` mean that there is no such month or day.
    /// `InvalidNumber` may mean that a number of a time is out of range. `WrongNumberOfDigits` may mean that a text with an `X`
    /// begins with more than four digits, or that an `X` comes right after four. If the kind isn't specified, it is
    /// `InvalidNumber`, `MissingNumber`, `WrongNumberOfDigits` or `InvalidFormat`.
    pub fn parse(alloc: Global, chunks: ChunksRef<'_>) -> Result<Date, TypeError>
        ensures reads { AnswersReading (date_reading chunks.now) result }
        ensures place { LiesAt (Styled.whole_span chunks.now) result }
    {
        let mut text = format_verbatim(alloc, chunks)?;
        text.make_ascii_uppercase();
        with_span(marked_date(text.as_str().trim_end()), whole_span(chunks))
    }

    /// Parses the formatted texts of a year, a month and a day as a date. An era may come after the year. The month is a
    /// number of one or two digits. Otherwise it is an English name or abbreviation, before which three or more digits are
    /// skipped. If there is no such name, the month is `None`, without an error. If there is no day field, the day may come
    /// after the month. Without a month field, the day field is ignored.
    ///
    /// An error other than out of memory has the span of its field. For a day after the month, it has that of the
    /// digits, in bytes of the month's text. Some kinds are specified. `MonthOutOfRange` means that the number of the month
    /// isn't from 1 to 12, and `DayOutOfRange` that the number of the day isn't from 1 to 31. `YearZeroCE` means that the year 0
    /// has an era and no sign. `InvalidFormat` may mean that a year with a sign has an era, or that white space comes after the
    /// sign. If the kind isn't specified, it is `InvalidNumber`, `MissingNumber`, `WrongNumberOfDigits` or `InvalidFormat`.
    pub fn parse_three_fields(
        alloc: Global,
        year: ChunksRef<'_>,
        month: Option<ChunksRef<'_>>,
        day: Option<ChunksRef<'_>>,
    ) -> Result<Date, TypeError>
        ensures reads { AnswersReading (three_fields_reading year.now
            (option_copied month.entry) (option_copied day.entry)) result }
        ensures place { LiesAt (three_fields_place year.now
            (option_copied month.entry) (option_copied day.entry)) result }
    {
        let year = year_of(alloc, year)?;
        let (month, day) = month_and_day(alloc, month, day)?;
        let date = Datetime {
            year,
            month,
            day,
            time: None,
        };
        Ok(Date {
            value: DateValue::At(date),
            uncertain: false,
            approximate: false,
        })
    }
}

// Parses the year field.
fn year_of(alloc: Global, chunks: ChunksRef<'_>) -> Result<i32, TypeError>
    ensures reads { AnswersReading (Fields.year_field (text chunks.now)) result }
    ensures place { LiesAt (Styled.whole_span chunks.now) result }
{
    let text = format_verbatim(alloc, chunks)?;
    with_span(year_field(text.as_str()), whole_span(chunks))
}

// Parses the day field.
fn day_of(alloc: Global, chunks: ChunksRef<'_>) -> Result<Option<u8>, TypeError>
    ensures reads { AnswersReading (Fields.day_field (text chunks.now)) result }
    ensures place { LiesAt (Styled.whole_span chunks.now) result }
{
    let text = format_verbatim(alloc, chunks)?;
    let span = whole_span(chunks);
    let reason = if span.start < span.end {
        UnspecifiedKind::InvalidNumber
    } else {
        UnspecifiedKind::MissingNumber
    };
    with_span(day_field(text.as_str(), reason), span)
}

// Parses the month field, and the day field or, without one, the day after the month.
fn month_and_day_of(
    alloc: Global,
    month: ChunksRef<'_>,
    day: Option<ChunksRef<'_>>,
) -> Result<(Option<u8>, Option<u8>), TypeError>
    ensures reads { AnswersReading (Fields.month_with_day (text month.now)
        (option_map text (option_copied day.entry))) result }
    ensures place { LiesAt (month_error_place month.now (option_copied day.entry)) result }
{
    let text = format_verbatim(alloc, month)?;
    let (number, following) = with_span(month_field(text.as_str()), whole_span(month))?;
    let Some(day) = day else {
        let day = with_span(day_after(following), day_place(text.as_str(), following))?;
        return Ok((number, day));
    };
    let day = day_of(alloc, day)?;
    Ok((number, day))
}

// Parses the month and the day, if there is a month field.
fn month_and_day(
    alloc: Global,
    month: Option<ChunksRef<'_>>,
    day: Option<ChunksRef<'_>>,
) -> Result<(Option<u8>, Option<u8>), TypeError>
    ensures reads { AnswersReading (Fields.month_and_day (option_map text (option_copied month.entry))
        (option_map text (option_copied day.entry))) result }
    ensures place { (nowhere : ARange ℕ) → LiesAt (parts_error_place nowhere (option_copied month.entry)
        (option_copied day.entry)) result }
{
    let Some(month) = month else {
        return Ok((None, None));
    };
    month_and_day_of(alloc, month, day)
}

/// Returns the text of a date, without times, as one normal chunk with a detached span: both its ends are `usize::MAX`.
/// The only error is out of memory.
pub fn date_chunks(alloc: Global, date: &Date) -> Result<Chunks, AllocError>
    ensures { IfOk result (λ chunks. chunks ≡ date_written date.now) }
{
    let text = write::text(date, alloc)?;
    normal(alloc, text.as_str())
}
