//! The JSON objects of changes.

ghost use Rattle.std.specs.Prelude.{◌≡◌, ◌++◌, IfOk, OnOk, option_map};
ghost use Rattle.std.specs.List.{enumerate_from, flat_map};
ghost use Rattle.std.specs.String.{string_bytes};
ghost use Rattle.edit_units.specs.Views.{unit_reading_of};
ghost use Rattle.bibkit_versions.specs.FactViews.{facts_view};
ghost use Rattle.bibkit_versions.specs.Objects as spec;

use crate::facts::{Facts, facts_of};
use crate::labels::{kind_at, name_at};
use crate::lines::Subject;
use bib_source::positions::Positions;
use edit_changes::changes::Change;
use edit_units::units::Unit;
use edit_versions::version::Version;
use serde_json::Value;
use std::alloc::{AllocError, Global};

// Returns a text as a JSON string with its quotes.
fn json_text(alloc: Global, text: &str) -> Result<String, AllocError>
    ensures { IfOk result (λ json. string_bytes json ≡ spec.json_string text.now) }
{
    Value::String(String::from_str(alloc, text)?).to_string(alloc)
}

// Returns the offset at which the first block of a unit begins, or else the unit.
fn unit_start(unit: Option<&Unit<'_>>) -> usize
    ensures { result ≡ spec.unit_start (option_map (λ u. unit_reading_of u.now) unit.entry) }
{
    match unit {
        Some(unit) => match unit.blocks.first() {
            Some(block) => block.start,
            None => unit.span.start,
        },
        None => 0,
    }
}

// Returns the line in which the first block of the unit at an index begins, or else the unit.
fn line_at(positions: &mut Positions<'_>, version: &Version<'_>, index: usize) -> usize
    requires { positions.old ≡ version.now.text }
    ensures line { result ≡ spec.unit_line_at version.now index }
    ensures same { positions.new ≡ positions.old }
{
    let start = unit_start(version.unit_at(Some(index)));
    positions.position(start).line
}

// Returns the name of a change.
fn change_name(change: Change) -> &'static str
    ensures { result.now ≡ spec.change_name change }
{
    match change {
        Change::Removed { .. } => "removed",
        Change::Added { .. } => "added",
        Change::Renamed(_) => "renamed",
        Change::TypeSet(_) => "type-set",
        Change::FieldRemoved { .. } => "field-removed",
        Change::FieldAdded { .. } => "field-added",
        Change::FieldSet { .. } => "field-set",
        Change::CommentsSet(_) => "comments-set",
        Change::TextSet(_) => "text-set",
        Change::LayoutSet(_) => "layout-set",
        Change::Reordered => "reordered",
    }
}

// Returns the members for the unit at an index: its kind, its name and its line.
fn unit_members(
    alloc: Global,
    positions: &mut Positions<'_>,
    version: &Version<'_>,
    index: usize,
) -> Result<String, AllocError>
    requires { positions.old ≡ version.now.text }
    ensures members { IfOk result (λ text. string_bytes text ≡ spec.unit_members version.now index) }
    ensures same { positions.new ≡ positions.old }
{
    let line = line_at(positions, version, index);
    let name = json_text(alloc, name_at(version, index))?;
    format!(in alloc;
        ",\"kind\":\"{}\",\"name\":{name},\"line\":{line}",
        kind_at(version, index).name()
    )
}

// Returns a member with this name and text, or an empty text if there is none.
fn member(alloc: Global, name: &str, text: &Option<String>) -> Result<String, AllocError>
    ensures { IfOk result (λ member. string_bytes member ≡ spec.member name.now (option_map string_bytes text.now)) }
{
    match text {
        Some(text) => {
            let value = json_text(alloc, text)?;
            format!(in alloc; ",\"{name}\":{value}")
        }
        None => Ok(String::new(alloc)),
    }
}

// Returns the members for the parts of a change.
fn facts_members(alloc: Global, facts: &Facts) -> Result<String, AllocError>
    ensures { IfOk result (λ text. string_bytes text ≡ spec.facts_members (facts_view facts.now)) }
{
    let field = member(alloc, "field", &facts.field)?;
    let old = member(alloc, "old", &facts.old)?;
    let new = member(alloc, "new", &facts.new)?;
    format!(in alloc; "{field}{old}{new}")
}

// The finders of positions in the two versions.
#[derive(Drop)]
struct BothPositions<'s> {
    // In the text of the old version.
    in_old: Positions<'s>,
    // In the text of the new version.
    in_new: Positions<'s>,
}

// Returns the members for the unit that a change is about.
fn subject_members(
    alloc: Global,
    positions: &mut BothPositions<'_>,
    old: &Version<'_>,
    new: &Version<'_>,
    subject: Subject,
) -> Result<String, AllocError>
    requires old { positions.old.in_old ≡ old.now.text }
    requires new { positions.old.in_new ≡ new.now.text }
    ensures members { IfOk result (λ text. string_bytes text ≡ spec.subject_members old.now new.now subject) }
    ensures old_same { positions.new.in_old ≡ positions.old.in_old }
    ensures new_same { positions.new.in_new ≡ positions.old.in_new }
{
    match subject {
        Subject::Old(index) => unit_members(alloc, &mut positions.in_old, old, index),
        Subject::New(index) => unit_members(alloc, &mut positions.in_new, new, index),
        Subject::Whole => Ok(String::new(alloc)),
    }
}

// Returns the object of a change.
fn change_object(
    alloc: Global,
    positions: &mut BothPositions<'_>,
    old: &Version<'_>,
    new: &Version<'_>,
    change: Change,
) -> Result<String, AllocError>
    requires old { positions.old.in_old ≡ old.now.text }
    requires new { positions.old.in_new ≡ new.now.text }
    ensures object { IfOk result (λ text. string_bytes text ≡ spec.change_object old.now new.now change) }
    ensures old_same { positions.new.in_old ≡ positions.old.in_old }
    ensures new_same { positions.new.in_new ≡ positions.old.in_new }
{
    let unit = subject_members(alloc, positions, old, new, Subject::of(change))?;
    let facts = facts_of(alloc, old, new, change)?;
    let members = facts_members(alloc, &facts)?;
    format!(in alloc; "{{\"change\":\"{}\"{unit}{members}}}", change_name(change))
}

// Returns the text before an object at this index of an array: a line feed, after a comma unless the object is the first.
fn separator(index: usize) -> &'static str
    ensures { result.now ≡ spec.object_separator index }
{
    if index == 0 { "\n" } else { ",\n" }
}

// Appends the objects of changes.
fn push_objects(
    alloc: Global,
    text: &mut String,
    old: &Version<'_>,
    new: &Version<'_>,
    changes: &[Change],
) -> Result<(), AllocError>
    ensures { OnOk result (string_bytes text.new
        ≡ string_bytes text.old ++ flat_map (spec.array_element old.now new.now) (enumerate_from 0 changes.now)) }
{
    let mut positions = BothPositions {
        in_old: Positions::new(old.text()),
        in_new: Positions::new(new.text()),
    };
    'changes: for (index, change) in changes.iter().enumerate() {
        let object = change_object(alloc, &mut positions, old, new, *change)?;
        text.push_str(separator(index))?;
        text.push_str(&object)?;
    }
    Ok(())
}

/// Returns the array of the objects of changes.
pub(crate) fn changes_array(
    alloc: Global,
    old: &Version<'_>,
    new: &Version<'_>,
    changes: &[Change],
) -> Result<String, AllocError>
    ensures { IfOk result (λ text. string_bytes text ≡ spec.changes_array old.now new.now changes.now) }
{
    let mut text = String::from_str(alloc, "[")?;
    push_objects(alloc, &mut text, old, new, changes)?;
    text.push_str("\n]\n")?;
    Ok(text)
}
