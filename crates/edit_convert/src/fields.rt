//! Fields of entries: their values, dates and parts of dates.

ghost use Rattle.std.specs.Prelude.{◌≡◌, IfOk, map};
ghost use Rattle.std.specs.List.{find, list_any};
ghost use Rattle.std.specs.Option.{option_map};
ghost use Rattle.bib_syntax.specs.Views.{field_of, piece_of};
ghost use Rattle.edit_entries.specs.Documents.{has_name};
ghost use Rattle.edit_strings.specs.Collected as values;
ghost use Rattle.edit_convert.specs.Conversions as spec;
ghost use Rattle.edit_strings.specs.Views.{lent_texts};
ghost use Rattle.edit_convert.specs.Tables.{lent_text, sides_as_written};

use crate::dates::{Sides, date_sides};
use crate::names::has_field;
use bib_syntax::raw::{Pair, RawChunk, is_word};
use bib_tables::dialects::Dialect;
use bib_text::spanned::Spanned;
use std::alloc::{AllocError, Global};

// Returns the text of a value that is one literal.
pub(crate) fn single_text<'s>(pieces: &[Spanned<RawChunk<'s>>]) -> Option<&'s str>
    ensures { lent_text result ≡ values.single_text (map piece_of pieces.now) }
{
    match pieces {
        [piece] => match piece.v {
            RawChunk::Normal(text) => Some(text),
            RawChunk::Abbreviation(_) => None,
        },
        _ => None,
    }
}

// Returns whether a field has one of these names, in any ASCII case.
pub(crate) fn has_any(fields: &[Pair<'_>], names: &[&str]) -> bool
    ensures { result ≡ list_any (spec.is_field_there (map field_of fields.now)) (lent_texts names.now) }
{
    'names: for name in names {
        if has_field(fields, *name) {
            return true;
        }
    }
    false
}

// Returns the first field with a name, in any ASCII case.
pub(crate) fn first_named<'f, 's>(fields: &'f [Pair<'s>], name: &str) -> Option<&'f Pair<'s>>
    ensures { option_map (λ f. field_of f.now) result ≡ find (has_name name.now) (map field_of fields.now) }
{
    'fields: for field in fields {
        if is_word(field.key.v, name) {
            return Some(field);
        }
    }
    None
}

// Returns the number of fields with a name, in any ASCII case.
pub(crate) fn count_named(fields: &[Pair<'_>], name: &str) -> usize
    ensures { result ≡ spec.times_named (map field_of fields.now) name.now }
{
    let mut count = 0usize;
    'fields: for field in fields {
        if is_word(field.key.v, name) {
            count += 1;
        }
    }
    count
}

// Returns whether a field is a part of a date: a year, a month or a day.
pub(crate) fn is_date_part(field: &Pair<'_>) -> bool
    ensures { result ≡ spec.is_date_part (field_of field.now) }
{
    let name = field.key.v;
    is_word(name, "year") || is_word(name, "month") || is_word(name, "day")
}

// Returns whether one of these fields is a part of a date.
pub(crate) fn has_part(fields: &[Pair<'_>]) -> bool
    ensures { result ≡ list_any spec.is_date_part (map field_of fields.now) }
{
    'fields: for field in fields {
        if is_date_part(field) {
            return true;
        }
    }
    false
}

// Returns whether a date may be replaced by fields of its parts: there is one `date`, and the entry has none of these fields.
fn is_date_free(fields: &[Pair<'_>]) -> bool
    ensures { result ≡ spec.is_date_free (map field_of fields.now) }
{
    count_named(fields, "date") == 1
        && !has_any(
            fields,
            &["year", "month", "day", "endyear", "endmonth", "endday"],
        )
}

// Returns whether an entry's date may be replaced by fields of its parts in a dialect; never for BibLaTeX.
pub(crate) fn divides_date(dialect: Dialect, fields: &[Pair<'_>]) -> bool
    ensures { result ≡ spec.divides_date dialect (map field_of fields.now) }
{
    match dialect {
        Dialect::Biblatex => false,
        Dialect::Bibtex => is_date_free(fields),
    }
}

// Returns the sides of a field that is a date, if the entry's date may be divided.
pub(crate) fn date_to_divide<'s>(
    alloc: Global,
    divides: bool,
    field: &Pair<'s>,
) -> Result<Option<Sides<'s>>, AllocError>
    ensures { IfOk result (λ sides. option_map sides_as_written sides ≡ spec.date_if_divided divides (field_of field.now)) }
{
    if !is_word(field.key.v, "date") || !divides {
        return Ok(None);
    }
    match single_text(&field.value.v) {
        Some(text) => date_sides(alloc, text),
        None => Ok(None),
    }
}
