//! The fields in which properties are, and their contents.

ghost use Rattle.std.specs.Prelude.{◌≡◌, IfOk, map, option_map};
ghost use Rattle.bib_abbreviations.specs.Abbreviations.{given_by};
ghost use Rattle.bib_syntax.specs.Views.{entry_reading_of, field_of, piece_of};
ghost use Rattle.edit_orders.specs.Fields as spec;

use crate::order::{Property, SortBy};
use crate::values::{SortValue, one_text, sort_value_of};
use bib_abbreviations::reader::FieldReader;
use bib_chunks::chunk::Chunks;
use bib_chunks::chunk::making::push_normal;
use bib_syntax::raw::{Pair, RawChunk, RawEntry};
use bib_text::items::Items;
use bib_text::spanned::Spanned;
use bib_text::text::Text;
use std::alloc::{AllocError, Global};

// Returns the text of a literal, or the name of an abbreviation.
fn piece_text<'s>(piece: &Spanned<RawChunk<'s>>) -> &'s str
    ensures { result.now ≡ spec.plain_piece (piece_of piece.now) }
{
    match piece.v {
        RawChunk::Normal(text) => text,
        RawChunk::Abbreviation(name) => name,
    }
}

// Returns whether a value has a piece that isn't empty.
fn is_given(pieces: &[Spanned<RawChunk<'_>>]) -> bool
    ensures { result ≡ spec.is_given (map piece_of pieces.now) }
{
    pieces.iter().any(|piece| !piece_text(piece).is_empty())
}

// Returns whether a field has this name, in any ASCII case, and a value that isn't empty.
fn is_named(field: &Pair<'_>, name: &str) -> bool
    ensures { result ≡ spec.is_field_given name.now (field_of field.now) }
{
    field.key.v.eq_ignore_ascii_case(name) && is_given(&field.value.v)
}

// Returns the last field of this name with a value that isn't empty.
fn last_given<'f, 's>(fields: &'f [Pair<'s>], name: &str) -> Option<&'f Pair<'s>>
    ensures { option_map (λ f. field_of f.now) result ≡ spec.last_given (map field_of fields.now) name.now }
{
    fields.iter().rev().find(|field| is_named(field, name))
}

// Returns the field of the first name, or else that of the second name.
fn either<'f, 's>(fields: &'f [Pair<'s>], name: &str, other: &str) -> Option<&'f Pair<'s>>
    ensures { option_map (λ f. field_of f.now) result ≡ spec.either_field (map field_of fields.now) name.now other.now }
{
    match last_given(fields, name) {
        Some(field) => Some(field),
        None => last_given(fields, other),
    }
}

// Returns the field in which a property is.
fn field_with<'f, 's>(fields: &'f [Pair<'s>], property: Property) -> Option<&'f Pair<'s>>
    ensures { option_map (λ f. field_of f.now) result ≡ spec.field_with property (map field_of fields.now) }
{
    match property {
        Property::Year => either(fields, "date", "year"),
        Property::Author => either(fields, "author", "editor"),
        Property::Title => last_given(fields, "title"),
        Property::Key | Property::Type => None,
    }
}

// Returns the texts of pieces, one after another, as a normal chunk.
fn plain_contents(alloc: Global, pieces: &[Spanned<RawChunk<'_>>]) -> Result<Chunks, AllocError>
    ensures { IfOk result (λ chunks. chunks ≡ spec.plain_contents (map piece_of pieces.now)) }
{
    let mut text = Text::new(alloc);
    'pieces: for piece in pieces {
        text.push_str(piece_text(piece))?;
    }
    let mut chunks = Items::new(alloc);
    push_normal(&mut chunks, text)?;
    Ok(chunks)
}

// Returns the contents of a field, or its pieces as plain text if they can't be parsed.
fn contents<'s>(
    alloc: Global,
    field: &Pair<'s>,
    reader: &mut FieldReader<'_, 's>,
) -> Result<Chunks, AllocError>
    ensures same { reader.new ≡ reader.old }
    ensures contents { IfOk result (spec.AreContentsOf (given_by reader.old) (map piece_of field.now.value.v.items)) }
{
    match reader.read("title", &field.value.v) {
        Ok(chunks) => Ok(chunks),
        Err(error) => {
            error.unless_out_of_memory()?;
            plain_contents(alloc, &field.value.v)
        }
    }
}

// Returns the sort value of a property that is in a field.
fn field_value<'s>(
    alloc: Global,
    property: Property,
    fields: &[Pair<'s>],
    reader: &mut FieldReader<'_, 's>,
) -> Result<Option<SortValue>, AllocError>
    ensures same { reader.new ≡ reader.old }
    ensures value { IfOk result (spec.IsFieldValue (given_by reader.old) property (spec.field_with property (map field_of fields.now))) }
{
    let Some(field) = field_with(fields, property) else {
        return Ok(None);
    };
    let chunks = contents(alloc, field, reader)?;
    sort_value_of(alloc, property, chunks.as_slice())
}

// Returns the sort value of an entry by a property.
pub(crate) fn entry_value<'s>(
    alloc: Global,
    by: &SortBy,
    entry: &Spanned<RawEntry<'s>>,
    reader: &mut FieldReader<'_, 's>,
) -> Result<Option<SortValue>, AllocError>
    ensures same { reader.new ≡ reader.old }
    ensures value { IfOk result (spec.IsValueOf (given_by reader.old) (entry_reading_of entry.now) by.now.property) }
{
    match by.property {
        Property::Key => one_text(alloc, entry.v.key.v.to_ascii_lowercase(alloc)?),
        Property::Type => one_text(alloc, entry.v.kind.v.to_ascii_lowercase(alloc)?),
        Property::Year | Property::Author | Property::Title => field_value(
            alloc,
            by.property,
            &entry.v.fields,
            reader,
        ),
    }
}
