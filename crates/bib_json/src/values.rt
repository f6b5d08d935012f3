//! Parses the values of fields by their types, and returns them as JSON.

ghost use Rattle.std.specs.Prelude.{◌≡◌, IfOk};
ghost use Rattle.std.specs.Option.{option_map};
ghost use Rattle.serde_json.specs.View.{view};
ghost use Rattle.bib_dates.specs.Chunks.{date_read};
ghost use Rattle.bib_json.specs.Dates.{date_json};
ghost use Rattle.bib_json.specs.Values.{typed_json, value_json};
ghost use Rattle.bib_json.specs.declared.types.ValueType.TheVariants as type;

use crate::dates::date_value;
use crate::lists::{language_value, languages_value, parts_value, ranges_value, texts_value};
use crate::people::people_value;
use crate::types::{ValueType, value_type};
use bib_chunks::chunk::ChunksRef;
use bib_chunks::chunk::cuts::and_list;
use bib_dates::date::Date;
use bib_people::people::read_people;
use bib_typed::typed::Type;
use bib_values::enums::{read_editor_type, read_gender, read_language, read_pagination};
use bib_values::lists::read_strings;
use bib_values::numbers::read_number;
use bib_values::ranges::read_ranges;
use serde_json::Value;
use std::alloc::{AllocError, Global};

// Returns the people in a list with `and` between them.
fn people(alloc: Global, chunks: ChunksRef<'_>) -> Result<Option<Value>, AllocError>
    ensures { IfOk result (λ value. option_map view value ≡ typed_json type.People chunks.now) }
{
    let people = read_people(alloc, chunks)?;
    Ok(Some(people_value(alloc, people.as_slice())?))
}

// Returns a date, or `None` if it can't be parsed.
fn date(alloc: Global, chunks: ChunksRef<'_>) -> Result<Option<Value>, AllocError>
    ensures { IfOk result (λ value. option_map view value ≡ typed_json type.Date chunks.now) }
{
    match <Date as Type>::from_chunks(alloc, chunks) {
        Ok(date) => Ok(Some(date_value(alloc, date)?)),
        Err(error) => {
            let _unread = error.unless_out_of_memory()?;
            Ok(None)
        }
    }
}

// Returns a whole number, or `None` if it can't be parsed.
fn number(alloc: Global, chunks: ChunksRef<'_>) -> Result<Option<Value>, AllocError>
    ensures { IfOk result (λ value. option_map view value ≡ typed_json type.Number chunks.now) }
{
    Ok(read_number(alloc, chunks)?.map(Value::from))
}

// Returns the page ranges in a comma list as a JSON array, or `None` if a part of the list is no range.
fn pages(alloc: Global, chunks: ChunksRef<'_>) -> Result<Option<Value>, AllocError>
    ensures { IfOk result (λ value. option_map view value ≡ typed_json type.Pages chunks.now) }
{
    match read_ranges(alloc, chunks)? {
        Some(ranges) => Ok(Some(ranges_value(alloc, ranges.as_slice())?)),
        None => Ok(None),
    }
}

// Returns the texts of a list with commas between them.
fn keys(alloc: Global, chunks: ChunksRef<'_>) -> Result<Option<Value>, AllocError>
    ensures { IfOk result (λ value. option_map view value ≡ typed_json type.Keys chunks.now) }
{
    let texts = read_strings(alloc, chunks)?;
    Ok(Some(texts_value(alloc, texts.as_slice())?))
}

// Returns the texts of a list with `and` between them.
fn parts(alloc: Global, chunks: ChunksRef<'_>) -> Result<Option<Value>, AllocError>
    ensures { IfOk result (λ value. option_map view value ≡ typed_json type.Parts chunks.now) }
{
    let parts = and_list(alloc, chunks)?;
    Ok(Some(parts_value(alloc, parts.as_slice())?))
}

// Returns the languages of a list with `and` between them, or the text of a part that names no language.
fn languages(alloc: Global, chunks: ChunksRef<'_>) -> Result<Option<Value>, AllocError>
    ensures { IfOk result (λ value. option_map view value ≡ typed_json type.Languages chunks.now) }
{
    let parts = and_list(alloc, chunks)?;
    Ok(Some(languages_value(alloc, parts.as_slice())?))
}

// Returns a language, or `None` if the text names none.
fn language(alloc: Global, chunks: ChunksRef<'_>) -> Result<Option<Value>, AllocError>
    ensures { IfOk result (λ value. option_map view value ≡ typed_json type.Language chunks.now) }
{
    match read_language(alloc, chunks)? {
        Some(language) => Ok(Some(language_value(alloc, language)?)),
        None => Ok(None),
    }
}

// Returns the unit that page numbers count, or `None` for another text.
fn pagination(alloc: Global, chunks: ChunksRef<'_>) -> Result<Option<Value>, AllocError>
    ensures { IfOk result (λ value. option_map view value ≡ typed_json type.Pagination chunks.now) }
{
    match read_pagination(alloc, chunks)? {
        Some(scheme) => Ok(Some(Value::try_from_str(alloc, scheme.as_ref())?)),
        None => Ok(None),
    }
}

// Returns the role of an editor.
fn role(alloc: Global, chunks: ChunksRef<'_>) -> Result<Option<Value>, AllocError>
    ensures { IfOk result (λ value. option_map view value ≡ typed_json type.Role chunks.now) }
{
    let role = read_editor_type(alloc, chunks)?;
    Ok(Some(Value::try_from_str(alloc, role.as_ref())?))
}

// Returns the gender of a name, or `None` for another text.
fn gender(alloc: Global, chunks: ChunksRef<'_>) -> Result<Option<Value>, AllocError>
    ensures { IfOk result (λ value. option_map view value ≡ typed_json type.Gender chunks.now) }
{
    match read_gender(alloc, chunks)? {
        Some(gender) => Ok(Some(Value::try_from_str(alloc, gender.as_ref())?)),
        None => Ok(None),
    }
}

// Returns the value of chunks by this type, or `None` if they can't be parsed.
fn typed_value(
    alloc: Global,
    value_type: ValueType,
    chunks: ChunksRef<'_>,
) -> Result<Option<Value>, AllocError>
    ensures { IfOk result (λ value. option_map view value ≡ typed_json value_type chunks.now) }
{
    match value_type {
        ValueType::People => people(alloc, chunks),
        ValueType::Date => date(alloc, chunks),
        ValueType::Number => number(alloc, chunks),
        ValueType::Pages => pages(alloc, chunks),
        ValueType::Keys => keys(alloc, chunks),
        ValueType::Parts => parts(alloc, chunks),
        ValueType::Languages => languages(alloc, chunks),
        ValueType::Language => language(alloc, chunks),
        ValueType::Pagination => pagination(alloc, chunks),
        ValueType::Role => role(alloc, chunks),
        ValueType::Gender => gender(alloc, chunks),
    }
}

/// Returns the value of the chunks of a field with this name, or `None` if the field has no type or they can't be parsed.
pub(crate) fn field_value(
    alloc: Global,
    name: &str,
    chunks: ChunksRef<'_>,
) -> Result<Option<Value>, AllocError>
    ensures { IfOk result (λ value. option_map view value ≡ value_json name.now chunks.now) }
{
    match value_type(name) {
        Some(value_type) => typed_value(alloc, value_type, chunks),
        None => Ok(None),
    }
}
