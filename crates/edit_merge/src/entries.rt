//! Merges entries that both sides changed by their fields. This is done before the units of both sides are merged.

ghost use Rattle.std.specs.Prelude.{◌≡◌, ◌++◌, IfOk, MatchOption, OnOk, option_map};
ghost use Rattle.std.specs.String.{string_bytes};
ghost use Rattle.bib_syntax.specs.Grammar.{IsFile};
ghost use Rattle.edit_entry_merge.specs.Views.{merge_of};
ghost use Rattle.edit_merge.specs.Entries as spec;
ghost use Rattle.edit_merge.specs.Entries.{HasMergedEntries, IsFieldMerge, IsSlotMerge, text_on};
ghost use Rattle.edit_merge.specs.Views.{versions_of};

use crate::groups::{find_changes, is_repeated_in};
use crate::picking::Versions;
use crate::slots::{Slot, slot_of};
use edit_entries::document::RawDocument;
use edit_entry_merge::merging::{EntryMerge, merge_entry};
use edit_units::texts::UnitText;
use edit_versions::comparison::is_same;
use edit_versions::names::own_part;
use std::alloc::{AllocError, Global};

/// A side of a merge.
#[derive(Debug, Clone, Copy, PartialEq, Eq)]
pub enum Side {
    /// Our side.
    Ours,
    /// Their side.
    Theirs,
}

// Returns the document of a text, or `None` if the text has a syntax error.
pub(crate) fn document(alloc: Global, text: &str) -> Result<Option<RawDocument<'_>>, AllocError>
    ensures { IfOk result (λ found. MatchOption found (IsFile text.now → ⊥) (λ d. d.text ≡ text.now)) }
{
    match RawDocument::parse(alloc, text) {
        Ok(document) => Ok(Some(document)),
        Err(error) => {
            error.unless_out_of_memory()?;
            Ok(None)
        }
    }
}

// Returns the merge of the texts of units by the fields of their entries.
fn merge_texts(
    alloc: Global,
    base: Option<&str>,
    ours: &str,
    theirs: &str,
) -> Result<EntryMerge, AllocError>
    ensures { IfOk result (λ m. IsFieldMerge (option_map (λ t. t.now) base.entry) (Some ours.now) (Some theirs.now) (merge_of m)) }
{
    let Some(ours) = document(alloc, ours)? else {
        return Ok(EntryMerge::Whole);
    };
    let Some(theirs) = document(alloc, theirs)? else {
        return Ok(EntryMerge::Whole);
    };
    let Some(base) = base else {
        return merge_entry(alloc, None, &ours, &theirs);
    };
    match document(alloc, base)? {
        Some(base) => merge_entry(alloc, Some(&base), &ours, &theirs),
        None => Ok(EntryMerge::Whole),
    }
}

// Returns the merge by fields of the units at a place, which may be absent.
fn merge_units(
    alloc: Global,
    versions: Versions<'_, '_>,
    slot: Slot,
) -> Result<EntryMerge, AllocError>
    ensures { IfOk result (λ m. IsFieldMerge (spec.bytes_at (versions_of versions.entry).base slot.base) (spec.bytes_at (versions_of versions.entry).ours slot.ours)
        (spec.bytes_at (versions_of versions.entry).theirs slot.theirs) (merge_of m)) }
{
    let Some(ours) = versions.ours.text_at(slot.ours) else {
        return Ok(EntryMerge::Whole);
    };
    let Some(theirs) = versions.theirs.text_at(slot.theirs) else {
        return Ok(EntryMerge::Whole);
    };
    merge_texts(alloc, versions.base.text_at(slot.base), ours, theirs)
}

/// Returns whether both sides changed the units at a place, and differently: no two versions have the same bytes there.
pub fn are_all_different(versions: Versions<'_, '_>, slot: Slot) -> bool
    ensures { result ≡ spec.are_all_different (versions_of versions.entry) slot }
{
    !is_same(versions.theirs, slot.theirs, versions.base, slot.base)
        && !is_same(versions.ours, slot.ours, versions.base, slot.base)
        && !is_same(versions.theirs, slot.theirs, versions.ours, slot.ours)
}

/// Returns the merge by fields at a place, for the units with this name. It is `EntryMerge::Whole` unless both sides changed the units, each
/// version has at most one unit with this own name, and each unit has one entry. Returns an error only if out of memory.
pub fn slot_merge(
    alloc: Global,
    versions: Versions<'_, '_>,
    name: &str,
    slot: Slot,
) -> Result<EntryMerge, AllocError>
    ensures { IfOk result (λ m. IsSlotMerge (versions_of versions.entry) name.now slot (merge_of m)) }
{
    if !are_all_different(versions, slot) {
        return Ok(EntryMerge::Whole);
    }
    if is_repeated_in(alloc, versions, own_part(name))? {
        return Ok(EntryMerge::Whole);
    }
    merge_units(alloc, versions, slot)
}

// Appends a unit of a side, after the merge by fields.
fn push_unit(
    text: &mut String,
    side: Side,
    merge: EntryMerge,
    unit: UnitText<'_>,
) -> Result<(), AllocError>
    ensures { OnOk result (string_bytes text.new
        ≡ string_bytes text.old ++ (unit.entry.space.now ++ text_on side (merge_of merge) unit.entry.text.now)) }
{
    text.push_str(unit.space)?;
    match merge {
        EntryMerge::Whole => text.push_str(unit.text),
        EntryMerge::Merged(merged) => text.push_str(&merged),
        EntryMerge::Fields { ours, theirs, .. } => match side {
            Side::Ours => text.push_str(&ours),
            Side::Theirs => text.push_str(&theirs),
        },
    }
}

/// Returns the text of a side in which each entry that both sides changed is merged by its fields. The merged entry is the same on both
/// sides, except for conflicting fields: they have the values of this side. Returns an error only if out of memory.
pub fn with_merged_entries(
    alloc: Global,
    versions: Versions<'_, '_>,
    side: Side,
) -> Result<String, AllocError>
    ensures { IfOk result (λ text. HasMergedEntries side (versions_of versions.entry) (string_bytes text)) }
{
    let changes = find_changes(alloc, versions)?;
    let version = match side {
        Side::Ours => versions.ours,
        Side::Theirs => versions.theirs,
    };
    let mut text = String::new(alloc);
    'units: for (name, unit) in version.names().iter().zip(version.texts()) {
        let slot = slot_of(alloc, versions, &changes, name.as_str())?;
        let merge = slot_merge(alloc, versions, name.as_str(), slot)?;
        push_unit(&mut text, side, merge, *unit)?;
    }
    text.push_str(version.end())?;
    Ok(text)
}
