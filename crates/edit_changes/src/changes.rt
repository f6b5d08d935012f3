//! The changes from one version of a file to another one.

ghost use Rattle.std.specs.Prelude.{◌≡◌, ◌++◌, IfOk, OnOk};
ghost use Rattle.std.specs.List.{enumerate_from, flat_map};
ghost use Rattle.edit_units.specs.Views.{unit_reading_of};
ghost use Rattle.edit_versions.specs.Versions.{text_of_unit, version_names};
ghost use Rattle.edit_changes.specs.Blocks as blocks;
ghost use Rattle.edit_changes.specs.Changes as spec;
ghost use Rattle.edit_changes.specs.Contents.{AreLoneContents};

use crate::blocks::{block_of, is_same_outside};
use crate::fields::push_field_changes;
use crate::orders::is_same_order;
use crate::renames::LoneContents;
use bib_queries::equal_values::are_equal_texts;
use bib_syntax::raw::is_word;
use edit_units::units::Unit;
use edit_versions::comparison::is_same;
use edit_versions::version::Version;
use std::alloc::{AllocError, Global};

/// The indices of a unit in the old version and of its counterpart in the new version.
#[derive(Debug, Clone, Copy, PartialEq, Eq)]
pub struct Place {
    /// The index of the unit in the old version.
    pub old: usize,
    /// The index of the unit in the new version.
    pub new: usize,
}

/// A change from the old version to the new one. A field is named by its index among the fields of the entry, or among the definitions of
/// the `@string` block.
#[derive(Debug, Clone, Copy, PartialEq, Eq)]
pub enum Change {
    /// The old version has a unit that the new one lacks.
    Removed {
        /// The index of the unit in the old version.
        old: usize,
    },
    /// The new version has a unit that the old one lacks.
    Added {
        /// The index of the unit in the new version.
        new: usize,
    },
    /// An entry has another key.
    Renamed(Place),
    /// An entry has another type.
    TypeSet(Place),
    /// An entry lacks a field, or an `@string` block a definition.
    FieldRemoved {
        /// The unit.
        place: Place,
        /// The index of the field in the old version.
        old: usize,
    },
    /// An entry has one more field, or an `@string` block one more definition.
    FieldAdded {
        /// The unit.
        place: Place,
        /// The index of the field in the new version.
        new: usize,
    },
    /// A field or a definition has another value.
    FieldSet {
        /// The unit.
        place: Place,
        /// The index of the field in the old version.
        old: usize,
        /// The index of the field in the new version.
        new: usize,
    },
    /// A unit has another text outside of its type, its key and its fields: comments.
    CommentsSet(Place),
    /// Another unit has changed: a comment, a preamble, or a line with several blocks.
    TextSet(Place),
    /// Only the layout of a unit has changed.
    LayoutSet(Place),
    /// The units that both versions have are in another order.
    Reordered,
}

impl Change {
    /// Returns whether only the layout of a unit has changed.
    pub fn is_layout(self) -> bool
        ensures { result ≡ spec.is_layout self }
    {
        matches!(self, Change::LayoutSet(_))
    }
}

// Appends a change of a text, unless both texts are the same if each run of ASCII white space is one space.
fn push_text_change(
    alloc: Global,
    changes: &mut Vec<Change>,
    place: Place,
    text: &str,
    other: &str,
) -> Result<(), AllocError>
    ensures { OnOk result (changes.new.items ≡ changes.old.items ++ spec.text_changes place text.now other.now) }
{
    if !are_equal_texts(alloc, text, other)? {
        changes.push(Change::TextSet(place))?;
    }
    Ok(())
}

// Appends a change of the type, unless both types are equal in any ASCII case.
fn push_type_change(
    changes: &mut Vec<Change>,
    place: Place,
    kind: &str,
    other: &str,
) -> Result<(), AllocError>
    ensures { OnOk result (changes.new.items ≡ changes.old.items ++ spec.type_changes place kind.now other.now) }
{
    if !is_word(kind, other) {
        changes.push(Change::TypeSet(place))?;
    }
    Ok(())
}

// Appends a change of comments, unless they are the same.
fn push_comment_change(
    changes: &mut Vec<Change>,
    place: Place,
    is_same: bool,
) -> Result<(), AllocError>
    ensures { OnOk result (changes.new.items ≡ changes.old.items ++ spec.comment_change place is_same) }
{
    if !is_same {
        changes.push(Change::CommentsSet(place))?;
    }
    Ok(())
}

// A unit, the text of its version, and its bytes.
#[derive(Clone, Copy)]
struct Side<'a, 's> {
    text: &'a str,
    unit: &'a Unit<'s>,
    bytes: &'a str,
}

// Appends the changes of the content of a unit, except for its key: of the type, of comments and of fields, or of the text.
fn push_unit_changes(
    alloc: Global,
    changes: &mut Vec<Change>,
    place: Place,
    old: Side<'_, '_>,
    new: Side<'_, '_>,
) -> Result<(), AllocError>
    requires old { old.bytes.now ≡ text_of_unit old.text.now (unit_reading_of old.unit.now) }
    requires new { new.bytes.now ≡ text_of_unit new.text.now (unit_reading_of new.unit.now) }
    ensures { OnOk result (changes.new.items ≡ changes.old.items ++ spec.changes_by place
        old.entry.text.now (unit_reading_of old.entry.unit.now) (blocks.block_of (unit_reading_of old.entry.unit.now))
        new.entry.text.now (unit_reading_of new.entry.unit.now) (blocks.block_of (unit_reading_of new.entry.unit.now))) }
{
    let Some(block) = block_of(old.unit) else {
        return push_text_change(alloc, changes, place, old.bytes, new.bytes);
    };
    let Some(other) = block_of(new.unit) else {
        return push_text_change(alloc, changes, place, old.bytes, new.bytes);
    };
    push_type_change(changes, place, block.kind, other.kind)?;
    let is_same = is_same_outside(
        alloc, old.text, old.unit, &block, new.text, new.unit, &other,
    )?;
    push_comment_change(changes, place, is_same)?;
    push_field_changes(alloc, changes, place, block.fields, other.fields)
}

// Appends the changes of the content of the units at a place, except for their keys.
fn push_content_changes(
    alloc: Global,
    changes: &mut Vec<Change>,
    place: Place,
    old: &Version<'_>,
    new: &Version<'_>,
) -> Result<(), AllocError>
    ensures { OnOk result (changes.new.items ≡ changes.old.items ++ spec.content_changes place old.now new.now) }
{
    let Some((unit, bytes)) = old.unit_with_text(Some(place.old)) else {
        return Ok(());
    };
    let Some((other, other_bytes)) = new.unit_with_text(Some(place.new)) else {
        return Ok(());
    };
    let old_side = Side {
        text: old.text(),
        unit,
        bytes,
    };
    let new_side = Side {
        text: new.text(),
        unit: other,
        bytes: other_bytes,
    };
    push_unit_changes(alloc, changes, place, old_side, new_side)
}

// Appends the changes of the units at a place: none if their bytes are equal.
fn push_changes_at(
    alloc: Global,
    changes: &mut Vec<Change>,
    place: Place,
    old: &Version<'_>,
    new: &Version<'_>,
) -> Result<(), AllocError>
    ensures { OnOk result (changes.new.items ≡ changes.old.items ++ spec.changes_at place old.now new.now) }
{
    if is_same(old, Some(place.old), new, Some(place.new)) {
        return Ok(());
    }
    let count = changes.len();
    push_content_changes(alloc, changes, place, old, new)?;
    if changes.len() == count {
        changes.push(Change::LayoutSet(place))?;
    }
    Ok(())
}

// The two versions, and the contents of the units of each that the other one lacks.
#[derive(Clone, Copy)]
struct Comparison<'c, 's> {
    old: &'c Version<'s>,
    new: &'c Version<'s>,
    old_contents: &'c LoneContents,
    new_contents: &'c LoneContents,
}

// Appends the units of the old version that the new version lacks, and that weren't renamed.
fn push_removed(changes: &mut Vec<Change>, comparison: Comparison<'_, '_>) -> Result<(), AllocError>
    requires { AreLoneContents comparison }
    ensures { OnOk result (changes.new.items ≡ changes.old.items ++ flat_map
        (spec.removed_unit comparison.entry.old.now comparison.entry.new.now) (enumerate_from 0 (version_names comparison.entry.old.now))) }
{
    let Comparison {
        old,
        new,
        old_contents,
        new_contents,
    } = comparison;
    let names = old.names();
    'names: for (index, name) in names.iter().enumerate() {
        let is_present = new.index_of(name.as_str()).is_some();
        let renamed = old_contents.renamed_index(new_contents, index);
        if !(is_present || renamed.is_some()) {
            changes.push(Change::Removed { old: index })?;
        }
    }
    Ok(())
}

// Appends the changes of the unit at an index of the new version whose name the old version lacks: it was renamed, or is added.
fn push_lone_changes(
    alloc: Global,
    changes: &mut Vec<Change>,
    old: &Version<'_>,
    new: &Version<'_>,
    index: usize,
    renamed: Option<usize>,
) -> Result<(), AllocError>
    ensures { OnOk result (changes.new.items ≡ changes.old.items ++ spec.lone_changes old.now new.now index renamed) }
{
    let Some(old_index) = renamed else {
        changes.push(Change::Added { new: index })?;
        return Ok(());
    };
    let place = Place {
        old: old_index,
        new: index,
    };
    changes.push(Change::Renamed(place))?;
    push_content_changes(alloc, changes, place, old, new)
}

// Appends the changes of the unit of the new version with this index and this name.
fn push_present_unit(
    alloc: Global,
    changes: &mut Vec<Change>,
    comparison: Comparison<'_, '_>,
    index: usize,
    name: &str,
) -> Result<(), AllocError>
    requires { AreLoneContents comparison }
    ensures { OnOk result (changes.new.items
        ≡ changes.old.items ++ spec.present_unit comparison.entry.old.now comparison.entry.new.now (index, name.now)) }
{
    let Comparison {
        old,
        new,
        old_contents,
        new_contents,
    } = comparison;
    match old.index_of(name) {
        Some(old_index) => {
            let place = Place {
                old: old_index,
                new: index,
            };
            push_changes_at(alloc, changes, place, old, new)
        }
        None => {
            let renamed = new_contents.renamed_index(old_contents, index);
            push_lone_changes(alloc, changes, old, new, index, renamed)
        }
    }
}

// Appends the changes of the units of the new version.
fn push_present(
    alloc: Global,
    changes: &mut Vec<Change>,
    comparison: Comparison<'_, '_>,
) -> Result<(), AllocError>
    requires { AreLoneContents comparison }
    ensures { OnOk result (changes.new.items ≡ changes.old.items ++ flat_map
        (spec.present_unit comparison.entry.old.now comparison.entry.new.now) (enumerate_from 0 (version_names comparison.entry.new.now))) }
{
    let names = comparison.new.names();
    'names: for (index, name) in names.iter().enumerate() {
        push_present_unit(alloc, changes, comparison, index, name.as_str())?;
    }
    Ok(())
}

/// Returns the changes from an old version of a file to a new one: the removed units in their order, then the changes of the units of the new
/// version in their order, and a change of the order of the units. Returns an error only if out of memory.
pub fn changes(
    alloc: Global,
    old: &Version<'_>,
    new: &Version<'_>,
) -> Result<Vec<Change>, AllocError>
    ensures { IfOk result (λ found. found.items ≡ spec.changes old.now new.now) }
{
    let old_contents = LoneContents::of(alloc, old, new)?;
    let new_contents = LoneContents::of(alloc, new, old)?;
    let comparison = Comparison {
        old,
        new,
        old_contents: &old_contents,
        new_contents: &new_contents,
    };
    let mut changes = Vec::new(alloc);
    push_removed(&mut changes, comparison)?;
    push_present(alloc, &mut changes, comparison)?;
    if !is_same_order(alloc, old, new)? {
        changes.push(Change::Reordered)?;
    }
    Ok(changes)
}
