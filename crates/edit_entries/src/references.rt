//! References to the keys of entries, in the values of fields.

ghost use Rattle.std.specs.Prelude.{◌≡◌, IfOk, map, option_map};
ghost use Rattle.std.specs.List.{list_any};
ghost use Rattle.std.specs.String.{string_bytes};
ghost use Rattle.bib_syntax.specs.Views.{field_of, piece_of};
ghost use Rattle.edit_entries.specs.NewKeys.{name_for};
ghost use Rattle.edit_entries.specs.References as references;
ghost use Rattle.edit_entries.specs.References.{elements_of};

use crate::new_keys::Names;
use bib_syntax::raw::{Pair, RawChunk};
use bib_tables::fields::is_reference_field;
use bib_text::spanned::Spanned;
use std::alloc::{AllocError, Global};

// Returns whether `element`, one of a comma list in a field, gets a new name.
fn is_renamed(
    alloc: Global,
    names: &Names<'_, '_>,
    field: &str,
    element: &str,
) -> Result<bool, AllocError>
    ensures { IfOk result (λ is. is ≡ references.is_renamed (name_for names.now field.now) element.now) }
{
    Ok(names.name_for(alloc, field, element.trim())?.is_some())
}

/// Returns the first element of a comma list in a field that gets a new name, without the white space around it.
pub fn first_renamed<'l>(
    alloc: Global,
    names: &Names<'_, '_>,
    field: &str,
    list: &'l str,
) -> Result<Option<&'l str>, AllocError>
    ensures { IfOk result (λ element. option_map (λ e. e.now) element ≡
        references.first_renamed (name_for names.now field.now) list.now) }
{
    'elements: for element in list.split(',') {
        if is_renamed(alloc, names, field, element)? {
            return Ok(Some(element.trim()));
        }
    }
    Ok(None)
}

// Returns whether any element of a comma list in a field gets a new name.
fn has_renamed(
    alloc: Global,
    names: &Names<'_, '_>,
    field: &str,
    list: &str,
) -> Result<bool, AllocError>
    ensures { IfOk result (λ has. has ≡ list_any (references.is_renamed (name_for names.now field.now)) (elements_of list.now)) }
{
    let first = first_renamed(alloc, names, field, list)?;
    Ok(first.is_some())
}

// Returns a new text with the white space at the ends of another.
fn between_white(alloc: Global, element: &str, new: &str) -> Result<String, AllocError>
    ensures { IfOk result (λ text. string_bytes text ≡ references.between_white new.now element.now) }
{
    let start = element.len() - element.trim_start().len();
    let end = element.trim_end().len();
    let mut text = String::new(alloc);
    text.push_str(&element[..start])?;
    text.push_str(new)?;
    text.push_str(&element[end..])?;
    Ok(text)
}

// Returns an element of a comma list in a field, with a new name if it gets one.
fn renamed_element(
    alloc: Global,
    names: &Names<'_, '_>,
    field: &str,
    element: &str,
) -> Result<String, AllocError>
    ensures { IfOk result (λ text. string_bytes text ≡ references.renamed_element (name_for names.now field.now) element.now) }
{
    match names.name_for(alloc, field, element.trim())? {
        Some(new) => between_white(alloc, element, new),
        None => String::from_str(alloc, element),
    }
}

// Returns a comma list in a field with the new names of its elements.
fn renamed_list(
    alloc: Global,
    names: &Names<'_, '_>,
    field: &str,
    list: &str,
) -> Result<String, AllocError>
    ensures { IfOk result (λ text. string_bytes text ≡ references.renamed_list (name_for names.now field.now) list.now) }
{
    let mut parts = Vec::new(alloc);
    'elements: for element in list.split(',') {
        parts.push(renamed_element(alloc, names, field, element)?)?;
    }
    parts.join(alloc, ",")
}

// Returns a comma list in a field with the new names of its elements, if one gets a new name.
fn renamed_if_listed(
    alloc: Global,
    names: &Names<'_, '_>,
    field: &str,
    list: &str,
) -> Result<Option<String>, AllocError>
    ensures { IfOk result (λ text. option_map string_bytes text ≡ references.renamed_where_listed (name_for names.now field.now) list.now) }
{
    if !has_renamed(alloc, names, field, list)? {
        return Ok(None);
    }
    Ok(Some(renamed_list(alloc, names, field, list)?))
}

// Returns the new text of a field's value, if it is one literal with an element that gets a new name.
fn renamed_text(
    alloc: Global,
    names: &Names<'_, '_>,
    field: &str,
    pieces: &[Spanned<RawChunk<'_>>],
) -> Result<Option<String>, AllocError>
    ensures { IfOk result (λ text. option_map string_bytes text ≡
        references.renamed_text (name_for names.now field.now) (map piece_of pieces.now)) }
{
    match pieces {
        [piece] => match piece.v {
            RawChunk::Normal(text) => renamed_if_listed(alloc, names, field, text),
            RawChunk::Abbreviation(_) => Ok(None),
        },
        _ => Ok(None),
    }
}

// Returns the new text of the value of a reference field, if it is one literal with an element that gets a new name.
pub(crate) fn renamed_value(
    alloc: Global,
    names: &Names<'_, '_>,
    field: &Pair<'_>,
) -> Result<Option<String>, AllocError>
    ensures { IfOk result (λ text. option_map string_bytes text ≡ references.renamed_value (name_for names.now) (field_of field.now)) }
{
    if !is_reference_field(field.key.v) {
        return Ok(None);
    }
    renamed_text(alloc, names, field.key.v, &field.value.v)
}
