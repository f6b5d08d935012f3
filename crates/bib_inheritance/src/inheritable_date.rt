//! The date of an entry that other entries can inherit.

ghost use Rattle.std.specs.Prelude.{◌≡◌, Some, IfOk, codes, option_map};
ghost use Rattle.std.specs.FinMap as by_name;
ghost use Rattle.std.specs.Option.{option_copied};
ghost use Rattle.bib_chunks.specs.Styled.{styled};
ghost use Rattle.bib_dates.specs.Rewritten.{rewritten_date};
ghost use Rattle.bib_dates.specs.Chunks.{AnswersReading, three_fields_place};
ghost use Rattle.bib_tables.specs.ReadAs.{LiesAt};
ghost use Rattle.bib_dates.specs.Readings.{Reading, readable_value};
ghost use Rattle.bib_dates.specs.Written.{date_text};
ghost use Rattle.bib_dates.specs.declared.date.Date.{Date as ADate};
ghost use Rattle.bib_inheritance.specs.InheritableDate.{IsInheritableDate, LiesAtDate, as_text, dated_text, looks_for_date, of_one_field, three_fields, written_date};
ghost use Rattle.bib_inheritance.specs.References.{plain};
ghost use Rattle.bib_inheritance.specs.EntryTexts.{fields_of, texts_of_fields};
ghost use Rattle.bib_chunks.specs.Values.{text};

use bib_chunks::chunk::{Chunk, Chunks, ChunksRef, Spanned, format_styled, whole_span};
use bib_collections::text_map::TextMap;
use bib_dates::chunks::date_chunks;
use bib_dates::date::Date;
use bib_tables::mechanics::EntryType;
use bib_tables::type_error::TypeError;
use bib_text::items::Items;
use bib_text::text::Text;
use std::alloc::{AllocError, Global};

// Returns the plain text of `chunks` as one verbatim chunk with the span of all chunks.
fn as_text(alloc: Global, chunks: &Chunks) -> Result<Chunks, AllocError>
    ensures read { IfOk result (λ one. text one ≡ plain (styled chunks.now)) }
    ensures one { IfOk result (λ one. one ≡ as_text chunks.now) }
{
    let text = format_styled(alloc, chunks.as_slice())?;
    let mut one = Items::new(alloc);
    one.push(Spanned {
        v: Chunk::Verbatim(Text::from_string(text)),
        span: whole_span(chunks.as_slice()),
    })?;
    Ok(one)
}

// Returns the plain text of a field as one verbatim chunk, if the field exists.
fn field_as_text(
    alloc: Global,
    fields: &TextMap<Chunks>,
    name: &str,
) -> Result<Option<Chunks>, AllocError>
    ensures read { IfOk result (λ one. option_map text one ≡
        option_map plain (fields_of fields.now name.now)) }
    ensures one { IfOk result (λ one. one ≡ option_map as_text (by_name.get fields.now name.now)) }
{
    match fields.get(name) {
        Some(chunks) => Ok(Some(as_text(alloc, chunks)?)),
        None => Ok(None),
    }
}

// Borrows the chunks of a field, if the field exists.
fn lent_chunks(chunks: &Option<Chunks>) -> Option<ChunksRef<'_>>
    ensures { option_copied result ≡ chunks.now }
{
    match chunks {
        Some(chunks) => Some(chunks.as_slice()),
        None => None,
    }
}

// Parses the year, the month and the day of an entry as a date.
fn three_fields(alloc: Global, year: &Chunks, fields: &TextMap<Chunks>) -> Result<Date, TypeError>
    ensures reads { AnswersReading (three_fields (fields_of fields.now) (plain (styled year.now))) result }
    ensures place { LiesAt (three_fields_place (as_text year.now)
        (option_map as_text (by_name.get fields.now (codes "month")))
        (option_map as_text (by_name.get fields.now (codes "day")))) result }
{
    let year = as_text(alloc, year)?;
    let month = field_as_text(alloc, fields, "month")?;
    let day = field_as_text(alloc, fields, "day")?;
    Date::parse_three_fields(
        alloc,
        year.as_slice(),
        lent_chunks(&month),
        lent_chunks(&day),
    )
}

// Returns the chunks of a parsed date, or `None` if it couldn't be parsed.
fn rewrite_date(alloc: Global, read: Result<Date, TypeError>) -> Result<Option<Chunks>, AllocError>
    ensures { IfOk result (λ date. (reading : Reading ADate) → AnswersReading reading read →
        option_map styled date ≡ option_map (λ d. written_date (date_text d)) (readable_value reading)) }
{
    match read {
        Ok(date) => Ok(Some(date_chunks(alloc, &date)?)),
        Err(e) => {
            let _unread = e.unless_out_of_memory()?;
            Ok(None)
        }
    }
}

// Returns the date in a field `date`: rewritten, or copied if it can't be parsed.
fn from_one_field(alloc: Global, date: &Chunks) -> Result<Chunks, AllocError>
    ensures { IfOk result (λ chunks. Some (styled chunks) ≡
        dated_text (of_one_field (styled date.now) (rewritten_date (plain (styled date.now))))) }
{
    let one = as_text(alloc, date)?;
    let read = Date::parse(alloc, one.as_slice());
    match rewrite_date(alloc, read)? {
        Some(rewritten) => Ok(rewritten),
        None => date.clone(),
    }
}

/// The date of an entry that other entries can inherit.
#[derive(Drop)]
pub enum InheritableDate {
    /// The entry has neither `date` nor `year`.
    Undated,
    /// The entry has `year` but no `date`, and its `year`, `month` and `day` can't be parsed, because of this error.
    Unreadable(TypeError),
    /// The entry has this date. A date that can be parsed is rewritten without its time. A field `date` that can't be parsed
    /// is copied.
    Dated(Chunks),
}

impl InheritableDate {
    /// Returns the date of an entry with these fields. A field `date` takes precedence over `year`, `month` and `day`.
    pub fn of(alloc: Global, fields: &TextMap<Chunks>) -> Result<InheritableDate, AllocError>
        ensures read { IfOk result (IsInheritableDate (fields_of fields.now)) }
        ensures placed { IfOk result (LiesAtDate (by_name.get fields.now)) }
    {
        if let Some(date) = fields.get("date") {
            return Ok(InheritableDate::Dated(from_one_field(alloc, date)?));
        }
        let Some(year) = fields.get("year") else {
            return Ok(InheritableDate::Undated);
        };
        match three_fields(alloc, year, fields) {
            Ok(date) => Ok(InheritableDate::Dated(date_chunks(alloc, &date)?)),
            Err(e) => Ok(InheritableDate::Unreadable(e.unless_out_of_memory()?)),
        }
    }
}

/// Returns whether an entry lacks a required date: its type requires one, and it has neither `date` nor `year`. Does not
/// allocate.
pub fn looks_for_date(entry_type: &EntryType, own: &TextMap<Chunks>) -> bool
    ensures { result ≡ looks_for_date (texts_of_fields entry_type.now own.now) }
{
    entry_type.row().needs_date && own.get("date").is_none() && own.get("year").is_none()
}
