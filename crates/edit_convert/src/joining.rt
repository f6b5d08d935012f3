//! Joins the parts of a date to one field, as in BibLaTeX.

ghost use Rattle.std.specs.Prelude.{◌≡◌, IfOk, Some, codes, map};
ghost use Rattle.std.specs.Char.{is_ascii_alphabetic};
ghost use Rattle.std.specs.List.{find, list_all};
ghost use Rattle.std.specs.Option.{option_copied, option_map};
ghost use Rattle.std.specs.String.{string_bytes};
ghost use Rattle.bib_text.specs.Places.{between, place};
ghost use Rattle.bib_chunks.specs.Values as values;
ghost use Rattle.bib_dates.specs.Readings.{readable_value};
ghost use Rattle.bib_dates.specs.ThreeFields.{three_fields_of};
ghost use Rattle.edit_entries.specs.Documents.{has_name};
ghost use Rattle.bib_tables.specs.declared.dialects.Dialect.TheVariants.{Biblatex};
ghost use Rattle.edit_format.specs.Formatted as formatted;
ghost use Rattle.bib_syntax.specs.Views.{field_of, piece_of};
ghost use Rattle.edit_strings.specs.Collected.{is_month};
ghost use Rattle.edit_convert.specs.Conversions as conversions;
ghost use Rattle.edit_convert.specs.Joined as spec;
ghost use Rattle.edit_convert.specs.Tables.{lent_text};

use crate::dates::{are_digits, is_date};
use crate::fields::{count_named, first_named, has_any, has_part, is_date_part, single_text};
use bib_chunks::chunk::making::verbatim;
use bib_chunks::chunk::{Chunks, ChunksRef};
use bib_dates::date::Date;
use bib_syntax::raw::{Pair, RawChunk};
use bib_tables::dialects::Dialect;
use bib_tables::months::Month;
use bib_text::spanned::Spanned;
use std::alloc::{AllocError, Global};

// Returns whether each byte of a text is an ASCII letter.
fn all_letters(text: &str) -> bool
    ensures { result ≡ list_all is_ascii_alphabetic text.now }
{
    'bytes: for byte in text.as_bytes() {
        if !byte.is_ascii_alphabetic() {
            return false;
        }
    }
    true
}

// Returns whether a text is a number of one or two digits.
fn is_short_number(text: &str) -> bool
    ensures { result ≡ spec.is_short_number text.now }
{
    are_digits(1, text) || are_digits(2, text)
}

// Returns whether a text is a number of one or two digits, or consists of ASCII letters only, as the name of a month does.
fn is_month_alone(text: &str) -> bool
    ensures { result ≡ spec.is_month_alone text.now }
{
    is_short_number(text) || all_letters(text)
}

// Returns whether there is no day, or the day is a number of one or two digits.
fn is_day_alone(day: Option<&str>) -> bool
    ensures { result ≡ spec.is_day_alone (lent_text day.entry) }
{
    match day {
        Some(text) => is_short_number(text),
        None => true,
    }
}

// Returns the chunks of a text.
fn chunks_of(alloc: Global, text: &str) -> Result<Chunks, AllocError>
    ensures { IfOk result (λ chunks. values.text chunks ≡ text.now) }
{
    verbatim(alloc, text)
}

// Returns the chunks of a text, if there is one.
fn chunks_of_some(alloc: Global, text: Option<&str>) -> Result<Option<Chunks>, AllocError>
    ensures { IfOk result (λ chunks. option_map values.text chunks ≡ lent_text text.entry) }
{
    match text {
        Some(text) => Ok(Some(chunks_of(alloc, text)?)),
        None => Ok(None),
    }
}

// Borrows chunks, if there are any.
fn lent_chunks(chunks: &Option<Chunks>) -> Option<ChunksRef<'_>>
    ensures { option_copied result ≡ chunks.now }
{
    match chunks {
        Some(chunks) => Some(chunks.as_slice()),
        None => None,
    }
}

// Returns the date that a year, a month and perhaps a day are parsed as, or `None` if they can't be parsed.
fn three_fields(
    alloc: Global,
    year: &str,
    month: &str,
    day: Option<&str>,
) -> Result<Option<Date>, AllocError>
    ensures { IfOk result (λ date. date ≡ readable_value (three_fields_of year.now (Some month.now) (lent_text day.entry))) }
{
    let year = chunks_of(alloc, year)?;
    let month = chunks_of(alloc, month)?;
    let day = chunks_of_some(alloc, day)?;
    match Date::parse_three_fields(
        alloc,
        year.as_slice(),
        Some(month.as_slice()),
        lent_chunks(&day),
    ) {
        Ok(date) => Ok(Some(date)),
        Err(error) => {
            let _unread = error.unless_out_of_memory()?;
            Ok(None)
        }
    }
}

// Returns the text of the first side of a date, if it has a month and the text parses as a date.
fn month_date_text(alloc: Global, date: &Date) -> Result<Option<String>, AllocError>
    ensures { IfOk result (λ text. option_map string_bytes text ≡ spec.month_date_text (Some date.now)) }
{
    let side = date.value.first_side();
    if side.month.is_none() {
        return Ok(None);
    }
    let text = format!(in alloc; "{side}")?;
    if !is_date(alloc, &text)? {
        return Ok(None);
    }
    Ok(Some(text))
}

// Returns the text of the date that `year`, `month` and `day` are parsed as. Returns `None` if `year` isn't four digits, or `day` isn't one
// or two. Returns `None` also if `month` names no month, or if they are no date.
fn joined_text(
    alloc: Global,
    year: &str,
    month: &str,
    day: Option<&str>,
) -> Result<Option<String>, AllocError>
    ensures { IfOk result (λ text. option_map string_bytes text ≡ spec.joined_text year.now month.now (lent_text day.entry)) }
{
    if !are_digits(4, year) || !is_month_alone(month) || !is_day_alone(day) {
        return Ok(None);
    }
    let Some(date) = three_fields(alloc, year, month, day)? else {
        return Ok(None);
    };
    month_date_text(alloc, &date)
}

// Returns whether a name is the abbreviation of a month, in any ASCII case.
fn is_month_name(name: &str) -> bool
    ensures { result ≡ is_month name.now }
{
    Month::from_abbreviation(name).is_some()
}

// Returns whether a file defines the abbreviation of a month, in any ASCII case.
pub(crate) fn defines_month(abbreviations: &[Pair<'_>]) -> bool
    ensures { result ≡ conversions.defines_month (map field_of abbreviations.now) }
{
    'abbreviations: for pair in abbreviations {
        if is_month_name(pair.key.v) {
            return true;
        }
    }
    false
}

// Returns the text of a month: one literal, or the abbreviation of a month if the file defines no such abbreviation.
fn month_value<'s>(defines: bool, pieces: &[Spanned<RawChunk<'s>>]) -> Option<&'s str>
    ensures { lent_text result ≡ spec.month_value defines (map piece_of pieces.now) }
{
    match pieces {
        [piece] => match piece.v {
            RawChunk::Normal(text) => Some(text),
            RawChunk::Abbreviation(name) => {
                if is_month_name(name) && !defines {
                    Some(name)
                } else {
                    None
                }
            }
        },
        _ => None,
    }
}

// Returns the text of the first field with a name, if its value is one literal.
fn literal_named<'s>(fields: &[Pair<'s>], name: &str) -> Option<&'s str>
    ensures { lent_text result ≡ conversions.literal_of (find (has_name name.now) (map field_of fields.now)) }
{
    let field = first_named(fields, name)?;
    single_text(&field.value.v)
}

// Returns the text of the first field `month` (see `month_value`).
fn month_among<'s>(defines: bool, fields: &[Pair<'s>]) -> Option<&'s str>
    ensures { lent_text result ≡ conversions.month_of defines (find (has_name (codes "month")) (map field_of fields.now)) }
{
    let field = first_named(fields, "month")?;
    month_value(defines, &field.value.v)
}

// Returns the text of the date whose parts are among an entry's fields, or `None` if they aren't the parts of a date (see `joined_text`).
fn date_of_fields(
    alloc: Global,
    defines: bool,
    fields: &[Pair<'_>],
) -> Result<Option<String>, AllocError>
    ensures { IfOk result (λ date. option_map string_bytes date ≡ conversions.date_of_fields defines (map field_of fields.now)) }
{
    let Some(year) = literal_named(fields, "year") else {
        return Ok(None);
    };
    let Some(month) = month_among(defines, fields) else {
        return Ok(None);
    };
    let Some(day) = first_named(fields, "day") else {
        return joined_text(alloc, year, month, None);
    };
    let Some(day) = single_text(&day.value.v) else {
        return Ok(None);
    };
    joined_text(alloc, year, month, Some(day))
}

// Returns whether there is one year, one month and at most one day, and no `date`, `endyear`, `endmonth` or `endday`.
fn has_parts_once(fields: &[Pair<'_>]) -> bool
    ensures { result ≡ conversions.has_parts_once (map field_of fields.now) }
{
    count_named(fields, "year") == 1
        && count_named(fields, "month") == 1
        && count_named(fields, "day") < 2
        && !has_any(fields, &["date", "endyear", "endmonth", "endday"])
}

// Returns the bytes between two byte offsets of a text.
fn stretch(text: &str, start: usize, end: usize) -> &[u8]
    ensures { result.now ≡ between (place text.now start) (place text.now end) }
{
    let bytes = text.as_bytes();
    let end = end.min(bytes.len());
    &bytes[start.min(end)..end]
}

// Returns whether a percent sign occurs between two byte offsets of a text.
fn has_percent(text: &str, start: usize, end: usize) -> bool
    ensures { result ≡ formatted.has_percent text.now start end }
{
    stretch(text, start, end).contains(&b'%')
}

// Returns whether no comment occurs between a field and the next one.
fn is_comment_free(text: &str, field: &Pair<'_>, following: &[Pair<'_>]) -> bool
    ensures { result ≡ conversions.is_comment_free text.now (field_of field.now) (map field_of following.now) }
{
    match following {
        [next, ..] => !has_percent(text, field.value.span.end, next.key.span.start),
        [] => true,
    }
}

// Returns whether a field can be removed: another one follows, with no comment between the two.
pub(crate) fn can_be_removed(text: &str, field: &Pair<'_>, following: &[Pair<'_>]) -> bool
    ensures { result ≡ conversions.can_be_removed text.now (field_of field.now) (map field_of following.now) }
{
    !following.is_empty() && is_comment_free(text, field, following)
}

// Returns whether joining the parts of a date removes no comment after a field: it doesn't remove the field, or no comment follows it.
fn keeps_comments(text: &str, field: &Pair<'_>, following: &[Pair<'_>]) -> bool
    ensures { result ≡ conversions.keeps_comments text.now (field_of field.now) (map field_of following.now) }
{
    !(is_date_part(field) && has_part(following)) || is_comment_free(text, field, following)
}

// Returns whether joining the parts of a date removes no comment.
fn keep_comments(text: &str, fields: &[Pair<'_>]) -> bool
    ensures { result ≡ conversions.keep_comments text.now (map field_of fields.now) }
{
    'fields: for (at, field) in fields.iter().enumerate() {
        if !keeps_comments(text, field, &fields[at + 1..]) {
            return false;
        }
    }
    true
}

// Returns the text of the date that replaces its parts, if they may be joined.
fn allowed_date(
    alloc: Global,
    defines: bool,
    text: &str,
    fields: &[Pair<'_>],
) -> Result<Option<String>, AllocError>
    ensures { IfOk result (λ date. option_map string_bytes date ≡
        conversions.joined_date Biblatex defines text.now (map field_of fields.now)) }
{
    if !has_parts_once(fields) || !keep_comments(text, fields) {
        return Ok(None);
    }
    date_of_fields(alloc, defines, fields)
}

// Returns the text of the date that replaces its parts among an entry's fields, if they are joined.
pub(crate) fn joined_date(
    alloc: Global,
    dialect: Dialect,
    defines: bool,
    text: &str,
    fields: &[Pair<'_>],
) -> Result<Option<String>, AllocError>
    ensures { IfOk result (λ date. option_map string_bytes date ≡
        conversions.joined_date dialect defines text.now (map field_of fields.now)) }
{
    match dialect {
        Dialect::Biblatex => allowed_date(alloc, defines, text, fields),
        Dialect::Bibtex => Ok(None),
    }
}
