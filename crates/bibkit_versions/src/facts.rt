//! The parts of a change that are printed: the name of a field, and the old and the new text.

ghost use Rattle.std.specs.Prelude.{◌≡◌, IfOk, map, option_map};
ghost use Rattle.std.specs.String.{string_bytes};
ghost use Rattle.bib_syntax.specs.Views.{entry_reading_of, field_of};
ghost use Rattle.edit_units.specs.Views.{unit_reading_of};
ghost use Rattle.bibkit_versions.specs.Facts as spec;
ghost use Rattle.bibkit_versions.specs.FactViews.{facts_view};

use crate::labels::{name_at, value_text};
use bib_syntax::raw::{Pair, RawEntry};
use bib_text::spanned::Spanned;
use edit_changes::changes::Change;
use edit_changes::fields;
use edit_units::units::Unit;
use edit_versions::version::Version;
use std::alloc::{AllocError, Global};

/// The name of the changed field, and the old and the new text, as far as a change has them.
#[derive(Debug, Drop)]
pub(crate) struct Facts {
    /// The name of the field.
    pub(crate) field: Option<String>,
    /// The old text.
    pub(crate) old: Option<String>,
    /// The new text.
    pub(crate) new: Option<String>,
}

// Returns the type of the first of these entries after an at sign, or an empty text if there is none.
fn type_by(alloc: Global, entries: &[Spanned<RawEntry<'_>>]) -> Result<String, AllocError>
    ensures { IfOk result (λ text. string_bytes text ≡ spec.type_by (map entry_reading_of entries.now)) }
{
    match entries.first() {
        Some(entry) => format!(in alloc; "@{}", entry.v.kind.v),
        None => Ok(String::new(alloc)),
    }
}

// Returns the type of the first entry of the unit at an index, after an at sign.
fn type_at(alloc: Global, version: &Version<'_>, index: usize) -> Result<String, AllocError>
    ensures { IfOk result (λ text. string_bytes text ≡ spec.entry_type_at version.now index) }
{
    match version.unit_at(Some(index)) {
        Some(unit) => type_by(alloc, &unit.raw.entries),
        None => Ok(String::new(alloc)),
    }
}

// Returns the field at an index of a unit, if there is one.
fn unit_field<'v, 's>(unit: Option<&'v Unit<'s>>, field: usize) -> Option<&'v Pair<'s>>
    ensures { option_map (λ f. field_of f.now) result ≡ spec.unit_field (option_map (λ u. unit_reading_of u.now) unit.entry) field }
{
    match unit {
        Some(unit) => fields::unit_field(unit, field),
        None => None,
    }
}

// Returns the field at an index of the unit at an index, if there is one.
fn field_at<'v, 's>(version: &'v Version<'s>, unit: usize, field: usize) -> Option<&'v Pair<'s>>
    ensures { option_map (λ f. field_of f.now) result ≡ spec.field_at version.now unit field }
{
    unit_field(version.unit_at(Some(unit)), field)
}

// Returns the name of a field, or an empty text if there is none.
fn field_name(alloc: Global, field: Option<&Pair<'_>>) -> Result<String, AllocError>
    ensures { IfOk result (λ name. string_bytes name ≡ spec.name_of_field (option_map (λ f. field_of f.now) field.entry)) }
{
    match field {
        Some(field) => String::from_str(alloc, field.key.v),
        None => Ok(String::new(alloc)),
    }
}

// Returns the value of a field as text, or an empty text if there is none.
fn field_value(alloc: Global, field: Option<&Pair<'_>>) -> Result<String, AllocError>
    ensures { IfOk result (λ value. string_bytes value ≡ spec.field_value (option_map (λ f. field_of f.now) field.entry)) }
{
    match field {
        Some(field) => value_text(alloc, &field.value.v),
        None => Ok(String::new(alloc)),
    }
}

// Returns no parts.
fn no_facts() -> Facts
    ensures { facts_view result ≡ spec.no_facts }
{
    Facts {
        field: None,
        old: None,
        new: None,
    }
}

// Returns the parts of a change without a field.
fn pair_facts(old: String, new: String) -> Facts
    ensures { facts_view result ≡ record { field = None; old = Some (string_bytes old); new = Some (string_bytes new) } }
{
    Facts {
        field: None,
        old: Some(old),
        new: Some(new),
    }
}

// Returns the parts of a change of a field. `old` and `new` are its values in the versions that have it.
fn field_facts(
    alloc: Global,
    named: Option<&Pair<'_>>,
    old: Option<String>,
    new: Option<String>,
) -> Result<Facts, AllocError>
    ensures { IfOk result (λ facts. facts_view facts ≡ record {
      field = Some (spec.name_of_field (option_map (λ f. field_of f.now) named.entry));
      old = option_map string_bytes old;
      new = option_map string_bytes new;
    }) }
{
    let name = field_name(alloc, named)?;
    Ok(Facts {
        field: Some(name),
        old,
        new,
    })
}

/// Returns the parts of a change.
pub(crate) fn facts_of(
    alloc: Global,
    old: &Version<'_>,
    new: &Version<'_>,
    change: Change,
) -> Result<Facts, AllocError>
    ensures { IfOk result (λ facts. facts_view facts ≡ spec.facts_of old.now new.now change) }
{
    match change {
        Change::Renamed(place) => {
            let old_name = String::from_str(alloc, name_at(old, place.old))?;
            let new_name = String::from_str(alloc, name_at(new, place.new))?;
            Ok(pair_facts(old_name, new_name))
        }
        Change::TypeSet(place) => {
            let old_type = type_at(alloc, old, place.old)?;
            let new_type = type_at(alloc, new, place.new)?;
            Ok(pair_facts(old_type, new_type))
        }
        Change::FieldRemoved { place, old: index } => {
            let field = field_at(old, place.old, index);
            let value = field_value(alloc, field)?;
            field_facts(alloc, field, Some(value), None)
        }
        Change::FieldAdded { place, new: index } => {
            let field = field_at(new, place.new, index);
            let value = field_value(alloc, field)?;
            field_facts(alloc, field, None, Some(value))
        }
        Change::FieldSet {
            place,
            old: old_index,
            new: new_index,
        } => {
            let field = field_at(new, place.new, new_index);
            let old_value = field_value(alloc, field_at(old, place.old, old_index))?;
            let new_value = field_value(alloc, field)?;
            field_facts(alloc, field, Some(old_value), Some(new_value))
        }
        _ => Ok(no_facts()),
    }
}
