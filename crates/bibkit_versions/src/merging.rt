//! The command `merge`: the merged text of three versions of a file, and a message for each conflict.

ghost use Rattle.std.specs.Prelude.{◌≡◌, IfOk, MatchOption, true};
ghost use Rattle.std.specs.List.{list_any};
ghost use Rattle.std.specs.String.{string_bytes};
ghost use Rattle.bibkit_versions.specs.Merging as spec;
ghost use Rattle.bib_syntax.specs.Grammar.{IsFile};
ghost use Rattle.bibkit_versions.specs.Merging.{IsMergeByFields, IsMergedFile, IsRefusedMerge, is_conflict_choice};
ghost use Rattle.edit_entry_merge.specs.ConflictTexts.{marker_lines};
ghost use Rattle.edit_merge.specs.Entries.{are_all_different};
ghost use Rattle.edit_merge.specs.Lost.{kept_slots};
ghost use Rattle.edit_merge.specs.Merged.{merged_text};
ghost use Rattle.edit_merge.specs.Views.{versions_of};
ghost use Rattle.edit_units.specs.Units.{AreUnits};

use crate::labels::label_at;
use crate::renaming::{new_version, version_of};
use edit_entry_merge::conflict_text::Markers;
use edit_entry_merge::merging::EntryMerge;
use edit_merge::entries::{Side, are_all_different, slot_merge, with_merged_entries};
use edit_merge::merging::{Merged, merge};
use edit_merge::picking::{Choice, Versions};
use edit_merge::renames::renamed_texts;
use edit_merge::slots::Slot;
use edit_versions::version::Version;
use std::alloc::{AllocError, Global};

/// The output of `merge`.
#[derive(Debug, Drop)]
pub struct Output {
    /// The merged text.
    pub text: String,
    /// A line for each conflict.
    pub messages: String,
    /// Whether there is a conflict.
    pub has_conflict: bool,
}

// Returns whether one of these places has a conflict.
fn has_conflict(slots: &[Slot]) -> bool
    ensures { result ≡ list_any (λ s. is_conflict_choice s.choice) slots.now }
{
    slots.iter().any(|slot| slot.choice == Choice::Conflict)
}

// Returns whether both sides changed the units at one of these places, and differently.
fn is_changed_twice(versions: Versions<'_, '_>, slots: &[Slot]) -> bool
    ensures { result ≡ list_any (are_all_different (versions_of versions.entry)) slots.now }
{
    slots.iter().any(|slot| are_all_different(versions, *slot))
}

// Returns the numbers of the lines of a merged text that equal a marker, from 1; none if the merge has no conflict.
fn lines_with(alloc: Global, merged: &Merged, marker: &str) -> Result<Vec<usize>, AllocError> {
    let mut numbers = Vec::new(alloc);
    if !has_conflict(&merged.slots) {
        return Ok(numbers);
    }
    'lines: for (index, line) in merged.text.lines().enumerate() {
        if line == marker {
            numbers.push(index + 1)?;
        }
    }
    Ok(numbers)
}

// Returns what both sides did to the units at a place with a conflict. `is_lost` is whether it is one because the merge uses a name that only
// one of the units defines.
fn what_happened(slot: Slot, is_lost: bool) -> &'static str {
    match (slot.base, slot.ours, slot.theirs) {
        (_, None, _) if is_lost => "removed by ours, but used",
        (_, _, None) if is_lost => "removed by theirs, but used",
        _ if is_lost => "a name is removed by one side, but used",
        (_, None, _) => "removed by ours, changed by theirs",
        (_, _, None) => "changed by ours, removed by theirs",
        (None, _, _) => "added by both sides",
        _ => "changed by both sides",
    }
}

// Appends the names of the conflicting fields of an entry, with commas between them and a colon at the end.
fn push_fields(
    message: &mut String,
    alloc: Global,
    versions: Versions<'_, '_>,
    name: &str,
    slot: Slot,
) -> Result<(), AllocError> {
    let EntryMerge::Fields { names, .. } = slot_merge(alloc, versions, name, slot)? else {
        return Ok(());
    };
    'names: for (index, name) in names.iter().enumerate() {
        message.push_str(if index == 0 { "" } else { ", " })?;
        message.push_str(name.as_str())?;
    }
    message.push_str(": ")
}

// Appends the message for a conflict on a line of the file `file`.
fn push_message(
    messages: &mut String,
    alloc: Global,
    file: &str,
    line: usize,
    versions: Versions<'_, '_>,
    slot: Slot,
    is_lost: bool,
) -> Result<(), AllocError> {
    let (version, index) = match (slot.ours, slot.theirs) {
        (Some(index), _) => (versions.ours, index),
        (None, Some(index)) => (versions.theirs, index),
        (None, None) => return Ok(()),
    };
    let label = label_at(alloc, version, index)?;
    messages.push_str(&format!(in alloc; "{file}:{line}: {label}: ")?)?;
    if let Some(name) = version.names().get(index) {
        push_fields(messages, alloc, versions, name.as_str(), slot)?;
    }
    messages.push_str(what_happened(slot, is_lost))?;
    messages.push_str("\n")
}

// Returns whether the merge has marker lines for the units at a place: they conflict, and their texts differ. One of several units with a
// name may be the same on both sides.
fn has_markers(versions: Versions<'_, '_>, slot: Slot) -> bool {
    slot.choice == Choice::Conflict
        && versions.ours.text_at(slot.ours) != versions.theirs.text_at(slot.theirs)
}

// Returns the messages for the conflicts of a merge of these versions.
fn conflict_messages(
    alloc: Global,
    file: &str,
    marker: &str,
    versions: Versions<'_, '_>,
    merged: &Merged,
) -> Result<String, AllocError> {
    let lines = lines_with(alloc, merged, marker)?;
    let mut messages = String::new(alloc);
    let mut numbers = lines.iter();
    'slots: for (slot, lost) in merged.slots.iter().zip(&merged.lost) {
        if has_markers(versions, *slot) {
            let line = numbers.next().copied().unwrap_or(1);
            let is_lost = lost.is_some();
            push_message(&mut messages, alloc, file, line, versions, *slot, is_lost)?;
        }
    }
    if merged.order == Choice::Conflict {
        messages.push_str(&format!(in alloc;
            "{file}: note: both sides changed the order of the entries; the order is that of ours\n"
        )?)?;
    }
    Ok(messages)
}

// Returns the output for a merge by units of these versions.
fn output_of(
    alloc: Global,
    file: &str,
    marker: &str,
    versions: Versions<'_, '_>,
    merged: Merged,
) -> Result<Output, AllocError>
    ensures text { IfOk result (λ o. string_bytes o.text ≡ string_bytes merged.text) }
    ensures conflict { IfOk result (λ o. o.has_conflict ≡ list_any (λ s. is_conflict_choice s.choice) merged.slots.items) }
{
    let messages = conflict_messages(alloc, file, marker, versions, &merged)?;
    let has_conflict = has_conflict(&merged.slots);
    Ok(Output {
        text: merged.text,
        messages,
        has_conflict,
    })
}

// Returns the output for a merge of these versions by units. `originals` are the versions before their entries were merged by fields.
fn output_by_units<'v, 's>(
    alloc: Global,
    file: &str,
    marker: &str,
    base: &'v Version<'s>,
    ours: &'v Version<'s>,
    theirs: &'v Version<'s>,
    originals: Versions<'_, '_>,
    markers: Markers<'_>,
) -> Result<Output, AllocError>
    ensures text { IfOk result (λ o. string_bytes o.text ≡ merged_text (marker_lines markers.entry)
        (record { base = base.now; ours = ours.now; theirs = theirs.now })
        (kept_slots (record { base = base.now; ours = ours.now; theirs = theirs.now }) (versions_of originals.entry))) }
    ensures conflict { IfOk result (λ o. o.has_conflict ≡ spec.has_conflict
        (kept_slots (record { base = base.now; ours = ours.now; theirs = theirs.now }) (versions_of originals.entry))) }
{
    let versions = Versions { base, ours, theirs };
    let merged = merge(alloc, versions, originals, markers)?;
    output_of(alloc, file, marker, versions, merged)
}

// Returns the output for a merge in which entries that both sides changed are merged by their fields, or `None` if the text of a side with
// these entries has a syntax error. The clause applies if both sides changed a unit differently.
fn output_by_fields(
    alloc: Global,
    file: &str,
    marker: &str,
    versions: Versions<'_, '_>,
    markers: Markers<'_>,
) -> Result<Option<Output>, AllocError>
    ensures { IfOk result (λ found. spec.is_changed_twice (versions_of versions.entry) ≡ true →
        MatchOption found (IsRefusedMerge (versions_of versions.entry))
        (λ o. IsMergeByFields (marker_lines markers.entry) (versions_of versions.entry) (string_bytes o.text) o.has_conflict)) }
{
    let our_text = with_merged_entries(alloc, versions, Side::Ours)?;
    let their_text = with_merged_entries(alloc, versions, Side::Theirs)?;
    let Some(ours) = version_of(alloc, &our_text)? else {
        return Ok(None);
    };
    let Some(theirs) = version_of(alloc, &their_text)? else {
        return Ok(None);
    };
    let base = versions.base;
    let output = output_by_units(alloc, file, marker, base, &ours, &theirs, versions, markers)?;
    Ok(Some(output))
}

// Returns the output for versions after the renames. Entries that both sides changed are merged by their fields.
fn output_of_renamed(
    alloc: Global,
    file: &str,
    marker: &str,
    versions: Versions<'_, '_>,
    markers: Markers<'_>,
) -> Result<Output, AllocError>
    ensures { IfOk result (λ o. IsMergeByFields (marker_lines markers.entry) (versions_of versions.entry) (string_bytes o.text) o.has_conflict) }
{
    let merged = merge(alloc, versions, versions, markers)?;
    if !is_changed_twice(versions, &merged.slots) {
        return output_of(alloc, file, marker, versions, merged);
    }
    match output_by_fields(alloc, file, marker, versions, markers)? {
        Some(output) => Ok(output),
        None => output_of(alloc, file, marker, versions, merged),
    }
}

// Returns the output for these versions after the renames.
fn output_of_versions<'v, 's>(
    alloc: Global,
    file: &str,
    marker: &str,
    base: &'v Version<'s>,
    ours: &'v Version<'s>,
    theirs: &'v Version<'s>,
    markers: Markers<'_>,
) -> Result<Output, AllocError>
    ensures { IfOk result (λ o. IsMergeByFields (marker_lines markers.entry) (record { base = base.now; ours = ours.now; theirs = theirs.now })
        (string_bytes o.text) o.has_conflict) }
{
    let versions = Versions { base, ours, theirs };
    output_of_renamed(alloc, file, marker, versions, markers)
}

/// Merges three versions of the file `file`. An entry that one side renamed gets its new key in all versions, and so do the references to it.
/// Then the units of the file are merged one by one. An entry that both sides changed is merged by its fields. `markers` are the lines around
/// conflicts, and `marker` is the first of them as `str::lines` returns it. Returns an error only if out of memory.
pub fn merge_file(
    alloc: Global,
    file: &str,
    marker: &str,
    versions: Versions<'_, '_>,
    markers: Markers<'_>,
) -> Result<Output, AllocError>
    ensures { IfOk result (λ o. IsMergedFile (marker_lines markers.entry) (versions_of versions.entry) (string_bytes o.text) o.has_conflict) }
{
    let texts = renamed_texts(alloc, versions)?;
    let base = new_version(alloc, &texts.base)?;
    let ours = new_version(alloc, &texts.ours)?;
    let theirs = new_version(alloc, &texts.theirs)?;
    let Some(base) = base.or_old(versions.base) else {
        return output_of_renamed(alloc, file, marker, versions, markers);
    };
    let Some(ours) = ours.or_old(versions.ours) else {
        return output_of_renamed(alloc, file, marker, versions, markers);
    };
    let Some(theirs) = theirs.or_old(versions.theirs) else {
        return output_of_renamed(alloc, file, marker, versions, markers);
    };
    output_of_versions(alloc, file, marker, base, ours, theirs, markers)
}
