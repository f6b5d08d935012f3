//! Writes the text of a merge.

ghost use Rattle.std.specs.Prelude.{◌≡◌, ◌++◌, IfOk, OnOk, map, option_map};
ghost use Rattle.std.specs.List.{flat_map};
ghost use Rattle.std.specs.String.{string_bytes};
ghost use Rattle.edit_entry_merge.specs.ConflictTexts.{marker_lines};
ghost use Rattle.edit_merge.specs.Lost as lost;
ghost use Rattle.edit_merge.specs.Merged as merged;
ghost use Rattle.edit_merge.specs.PartViews.{parts_view, part_view};
ghost use Rattle.edit_merge.specs.Picked as picked;
ghost use Rattle.edit_merge.specs.Views.{versions_of};
ghost use Rattle.edit_versions.specs.Versions as versions;
ghost use Rattle.edit_versions.specs.Views.{texts_view};

use crate::lost::{KeptSlots, kept_slots};
use crate::picking::{Choice, Versions};
use crate::slots::{Slot, slots};
use crate::spaces::{merged_blank, merged_end, merged_start, push_space, slot_space};
use edit_entry_merge::conflict_text::{Markers, conflict_text};
use edit_units::texts::UnitText;
use edit_versions::version::Version;
use std::alloc::{AllocError, Global};

// A part of the merged text: white space, and a text after it.
#[derive(Drop)]
pub(crate) struct Part<'s> {
    space: &'s str,
    text: String,
    is_text: bool,
}

// Returns whether a unit has no block, or is absent.
fn is_without_blocks(version: &Version<'_>, index: Option<usize>) -> bool
    ensures { result ≡ merged.is_without_blocks (versions.version_unit version.now index) }
{
    match version.unit_at(index) {
        Some(unit) => unit.blocks.is_empty(),
        None => true,
    }
}

// Returns whether the units of a slot have no block.
fn is_text_slot(versions: Versions<'_, '_>, slot: Slot) -> bool
    ensures { result ≡ merged.is_text_slot (versions_of versions.entry) slot }
{
    is_without_blocks(versions.ours, slot.ours) && is_without_blocks(versions.theirs, slot.theirs)
}

// Returns a copy of a text, if it is there.
fn copied(alloc: Global, text: Option<&str>) -> Result<Option<String>, AllocError>
    ensures { IfOk result (λ copy. option_map string_bytes copy ≡ option_map (λ t. t.now) text.entry) }
{
    match text {
        Some(text) => Ok(Some(String::from_str(alloc, text)?)),
        None => Ok(None),
    }
}

// Returns the text of a unit, if it is there.
fn found_text<'s>(unit: Option<UnitText<'s>>) -> Option<&'s str>
    ensures { option_map (λ t. t.now) result ≡ merged.found_text (texts_view unit.entry) }
{
    match unit {
        Some(unit) => Some(unit.text),
        None => None,
    }
}

// Returns the text of a slot, or `None` if what is picked is absent.
fn slot_text(
    alloc: Global,
    markers: Markers<'_>,
    versions: Versions<'_, '_>,
    slot: Slot,
) -> Result<Option<String>, AllocError>
    ensures { IfOk result (λ text. option_map string_bytes text ≡
        merged.slot_text (marker_lines markers.entry) (versions_of versions.entry) slot slot.choice) }
{
    let ours = found_text(versions.ours.texts_at(slot.ours));
    let theirs = found_text(versions.theirs.texts_at(slot.theirs));
    match slot.choice {
        Choice::Ours => copied(alloc, ours),
        Choice::Theirs => copied(alloc, theirs),
        Choice::Conflict => Ok(Some(conflict_text(alloc, markers, ours, theirs)?)),
    }
}

// Returns the part of a slot, or `None` if what is picked is absent.
fn slot_part<'s>(
    alloc: Global,
    markers: Markers<'_>,
    versions: Versions<'_, 's>,
    slot: Slot,
) -> Result<Option<Part<'s>>, AllocError>
    ensures { IfOk result (λ part. parts_view part ≡
        merged.slot_parts (marker_lines markers.entry) (versions_of versions.entry) slot) }
{
    match slot_text(alloc, markers, versions, slot)? {
        Some(text) => Ok(Some(Part {
            space: slot_space(versions, slot),
            text,
            is_text: is_text_slot(versions, slot),
        })),
        None => Ok(None),
    }
}

// Returns the parts of these slots, in order.
fn parts_of<'s>(
    alloc: Global,
    markers: Markers<'_>,
    versions: Versions<'_, 's>,
    slots: &[Slot],
) -> Result<Vec<Part<'s>>, AllocError>
    ensures { IfOk result (λ parts. map part_view parts.items ≡
        flat_map (merged.slot_parts (marker_lines markers.entry) (versions_of versions.entry)) slots.now) }
{
    let mut parts = Vec::new(alloc);
    'slots: for slot in slots {
        if let Some(part) = slot_part(alloc, markers, versions, *slot)? {
            parts.push(part)?;
        }
    }
    Ok(parts)
}

// Appends parts with the white space between them, and the white space at the end, after a part.
fn push_parts(
    text: &mut String,
    is_text: bool,
    parts: &[Part<'_>],
    end: &str,
) -> Result<(), AllocError>
    ensures { OnOk result (string_bytes text.new ≡ string_bytes text.old ++ merged.text_behind is_text (map part_view parts.now) end.now) }
{
    let mut after_text = is_text;
    'parts: for part in parts {
        push_space(text, after_text, part.space)?;
        text.push_str(&part.text)?;
        after_text = part.is_text;
    }
    text.push_str(end)
}

// Returns the text of all parts.
fn text_of_merge(
    alloc: Global,
    versions: Versions<'_, '_>,
    parts: &[Part<'_>],
) -> Result<String, AllocError>
    ensures { IfOk result (λ text. string_bytes text ≡ merged.text_of_merge (versions_of versions.entry) (map part_view parts.now)) }
{
    match parts {
        [first, others @ ..] => {
            let mut text = String::from_str(alloc, merged_start(versions))?;
            text.push_str(&first.text)?;
            push_parts(&mut text, first.is_text, others, merged_end(versions))?;
            Ok(text)
        }
        [] => String::from_str(alloc, merged_blank(versions)),
    }
}

/// A merge.
#[derive(Debug, Drop)]
pub struct Merged {
    /// The merged text.
    pub text: String,
    /// The place of each unit in it.
    pub slots: Vec<Slot>,
    /// For each place, the name that the merge would lose if it weren't a conflict: the name is used in the picked units, and only the unit
    /// that isn't picked defines it. `None` at other places. A name is `entry ` and a key, or `string ` and the name of an abbreviation
    /// in lowercase.
    pub lost: Vec<Option<String>>,
    /// Whose order the units have. If both sides changed the order, and differently, it is a conflict: the order is ours, and no markers
    /// show it.
    pub order: Choice,
}

/// Merges three versions of a file. A unit that only one side changed, added or removed is as this side has it. So is a unit that the other
/// side changed in its layout only. If both changed it, and differently, it is a conflict: the lines in which its texts differ are between
/// the `markers`. They are written as they are. A text with conflicts isn't meant to be parsed.
/// Several units with one name, such as entries with the same key, are chosen together.
///
/// A place is also a conflict if the merge would otherwise lose a name there: the picked units use it, such as an abbreviation or a key in
/// `crossref`, only the unit that isn't picked defines it, and it is defined or unused in both sides of `originals`. These are the versions
/// before their entries were merged by fields, or else `versions`. Returns an error only if out of memory.
pub fn merge(
    alloc: Global,
    versions: Versions<'_, '_>,
    originals: Versions<'_, '_>,
    markers: Markers<'_>,
) -> Result<Merged, AllocError>
    ensures text { IfOk result (λ m. string_bytes m.text ≡ merged.merged_text (marker_lines markers.entry) (versions_of versions.entry)
        (lost.kept_slots (versions_of versions.entry) (versions_of originals.entry))) }
    ensures slots { IfOk result (λ m. m.slots.items ≡ lost.kept_slots (versions_of versions.entry) (versions_of originals.entry)) }
    ensures lost { IfOk result (λ m. map (option_map string_bytes) m.lost.items ≡
        lost.names_lost (versions_of versions.entry) (versions_of originals.entry)) }
    ensures order { IfOk result (λ m. m.order ≡ picked.order_choice (versions_of versions.entry)) }
{
    let found = slots(alloc, versions)?;
    let KeptSlots { slots, lost } = kept_slots(alloc, versions, originals, &found.slots)?;
    let parts = parts_of(alloc, markers, versions, &slots)?;
    let text = text_of_merge(alloc, versions, &parts)?;
    Ok(Merged {
        text,
        slots,
        lost,
        order: found.order,
    })
}
