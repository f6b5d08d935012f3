//! The changes of fields, and of definitions of abbreviations.

ghost use Rattle.std.specs.Prelude.{◌≡◌, ◌++◌, IfOk, OnOk, map, option_map, slice_get};
ghost use Rattle.std.specs.List.{enumerate_from, flat_map};
ghost use Rattle.std.specs.Str.{str_to_ascii_lowercase};
ghost use Rattle.bib_syntax.specs.Views.{field_of};
ghost use Rattle.edit_units.specs.Views.{unit_reading_of};
ghost use Rattle.edit_changes.specs.Blocks.{unit_fields};
ghost use Rattle.edit_changes.specs.Fields as spec;

use crate::blocks::block_of;
use crate::changes::{Change, Place};
use bib_collections::claims::Claims;
use bib_queries::equal_values::are_equal_pieces;
use bib_syntax::raw::Pair;
use bib_text::text::Text;
use edit_units::units::Unit;
use edit_versions::names::{indices_of, with_number};
use std::alloc::{AllocError, Global};

// Returns the name of a field in ASCII lowercase.
fn lower_name(alloc: Global, field: &Pair<'_>) -> Result<Text, AllocError>
    ensures { IfOk result (λ name. name ≡ str_to_ascii_lowercase (field_of field.now).name.text) }
{
    let name = field.key.v.to_ascii_lowercase(alloc)?;
    Ok(Text::from_string(name))
}

// Returns the names by which fields are compared, all different.
fn field_names(alloc: Global, fields: &[Pair<'_>]) -> Result<Vec<Text>, AllocError>
    ensures { IfOk result (λ names. names.items ≡ spec.field_names (map field_of fields.now)) }
{
    let mut names = Vec::new(alloc);
    let mut counts = Claims::new(alloc);
    'fields: for field in fields {
        let own = lower_name(alloc, field)?;
        let number = counts.get(own.as_str()).unwrap_or(0);
        names.push(with_number(alloc, number, &own)?)?;
        counts.claim(own, number + 1)?;
    }
    Ok(names)
}

// Returns whether two fields have equal values, or both are absent.
fn are_equal_values(
    alloc: Global,
    field: Option<&Pair<'_>>,
    other: Option<&Pair<'_>>,
) -> Result<bool, AllocError>
    ensures { IfOk result (λ equal. equal ≡ spec.are_equal_values (option_map (λ f. field_of f.now) field.entry)
        (option_map (λ f. field_of f.now) other.entry)) }
{
    match field {
        Some(field) => match other {
            Some(other) => are_equal_pieces(alloc, &field.value.v, &other.value.v),
            None => Ok(false),
        },
        None => Ok(other.is_none()),
    }
}

// Appends the fields of the old version that the new version lacks, given their names, and the indices by name in the new version.
fn push_removed(
    changes: &mut Vec<Change>,
    place: Place,
    names: &[Text],
    others: &Claims,
) -> Result<(), AllocError>
    ensures { OnOk result (changes.new.items
        ≡ changes.old.items ++ flat_map (spec.removed_field place others.now) (enumerate_from 0 names.now)) }
{
    'names: for (index, name) in names.iter().enumerate() {
        if others.get(name.as_str()).is_none() {
            changes.push(Change::FieldRemoved { place, old: index })?;
        }
    }
    Ok(())
}

// Returns the field at an index, if there is one.
fn field_at<'f, 's>(fields: &'f [Pair<'s>], index: usize) -> Option<&'f Pair<'s>>
    ensures { option_map (λ f. field_of f.now) result ≡ slice_get (map field_of fields.now) index }
{
    fields.get(index)
}

/// Returns the field at an index of a unit, as a change names it: of its only entry, or of its definitions.
pub fn unit_field<'u, 's>(unit: &'u Unit<'s>, index: usize) -> Option<&'u Pair<'s>>
    ensures { option_map (λ f. field_of f.now) result ≡ slice_get (unit_fields (unit_reading_of unit.now)) index }
{
    let block = block_of(unit)?;
    field_at(block.fields, index)
}

// Appends the change from the field at an index of the old version, if there is one, to that at an index of the new version.
fn push_change(
    alloc: Global,
    changes: &mut Vec<Change>,
    place: Place,
    fields: &[Pair<'_>],
    others: &[Pair<'_>],
    new: usize,
    old: Option<usize>,
) -> Result<(), AllocError>
    ensures { OnOk result (changes.new.items
        ≡ changes.old.items ++ spec.present_field_change place (map field_of fields.now) (map field_of others.now) new old) }
{
    let Some(old) = old else {
        changes.push(Change::FieldAdded { place, new })?;
        return Ok(());
    };
    if !are_equal_values(alloc, field_at(fields, old), field_at(others, new))? {
        changes.push(Change::FieldSet { place, old, new })?;
    }
    Ok(())
}

// Appends the changes at the fields of the new version, given their names, and the indices by name in the old version.
fn push_present(
    alloc: Global,
    changes: &mut Vec<Change>,
    place: Place,
    fields: &[Pair<'_>],
    others: &[Pair<'_>],
    names: &[Text],
    indices: &Claims,
) -> Result<(), AllocError>
    ensures { OnOk result (changes.new.items ≡ changes.old.items
        ++ flat_map (spec.present_field place (map field_of fields.now) (map field_of others.now) indices.now) (enumerate_from 0 names.now)) }
{
    'names: for (index, name) in names.iter().enumerate() {
        let old = indices.get(name.as_str());
        push_change(alloc, changes, place, fields, others, index, old)?;
    }
    Ok(())
}

/// Appends the changes from fields of the old version to fields of the new one.
pub(crate) fn push_field_changes(
    alloc: Global,
    changes: &mut Vec<Change>,
    place: Place,
    fields: &[Pair<'_>],
    others: &[Pair<'_>],
) -> Result<(), AllocError>
    ensures { OnOk result (changes.new.items
        ≡ changes.old.items ++ spec.changes_of_fields place (map field_of fields.now) (map field_of others.now)) }
{
    let names = field_names(alloc, fields)?;
    let other_names = field_names(alloc, others)?;
    let indices = indices_of(alloc, &names)?;
    let other_indices = indices_of(alloc, &other_names)?;
    push_removed(changes, place, &names, &other_indices)?;
    push_present(
        alloc,
        changes,
        place,
        fields,
        others,
        &other_names,
        &indices,
    )?;
    Ok(())
}
