//! Names that a merge loses: it uses them, and no unit of it defines them, but on each side they are defined or unused.

ghost use Rattle.std.specs.Prelude.{◌≡◌, ◌||◌, ℕ, List, [], ◌∷◌, IfOk, OnOk, Option, cond, map, option_map};
ghost use Rattle.std.specs.BTreeSet.{contains_text};
ghost use Rattle.std.specs.List.{find, flat_map};
ghost use Rattle.std.specs.String.{string_bytes};
ghost use Rattle.bib_queries.specs.Needed.{is_listed};
ghost use Rattle.edit_merge.specs.Lost as spec;
ghost use Rattle.edit_merge.specs.NameSets as name_sets;
ghost use Rattle.edit_merge.specs.NameSets.{AreAdded, AreSideNames, HaveNames};
ghost use Rattle.edit_merge.specs.Picked as picked;
ghost use Rattle.edit_merge.specs.UnitNames as unit_names;
ghost use Rattle.edit_merge.specs.Views.{versions_of};
ghost use Rattle.edit_merge.specs.declared.picking.Choice.TheVariants.{Conflict};
ghost use Rattle.edit_units.specs.Views.{unit_reading_of};
ghost use Rattle.edit_versions.specs.Versions.{version_unit};

use crate::names::{defined_names, names_used};
use crate::picking::{Choice, Versions};
use crate::slots::Slot;
use edit_units::units::Unit;
use edit_versions::version::Version;
use std::alloc::{AllocError, Global};
use std::collections::BTreeSet;

// The names that units use, and those that they define.
#[derive(Drop)]
pub(crate) struct NameSets {
    used: BTreeSet<String>,
    defined: BTreeSet<String>,
}

// The names of the picked units of a merge, and of its sides.
#[derive(Drop)]
pub(crate) struct MergeNames {
    picked: NameSets,
    ours: NameSets,
    theirs: NameSets,
}

// Inserts names into a set.
fn insert_all(set: &mut BTreeSet<String>, names: Vec<String>) -> Result<(), AllocError>
    ensures { OnOk result ((name : List ℕ) → contains_text set.new name ≡
        (contains_text set.old name || is_listed (map string_bytes names.items) name)) }
{
    'names: for name in names {
        set.insert(name)?;
    }
    Ok(())
}

// Adds the names of a unit.
fn add_unit(sets: &mut NameSets, alloc: Global, unit: &Unit<'_>) -> Result<(), AllocError>
    ensures { OnOk result (AreAdded (unit_reading_of unit.now ∷ []) sets.old sets.new) }
{
    let used = names_used(alloc, unit)?;
    let defined = defined_names(alloc, unit)?;
    insert_all(&mut sets.used, used)?;
    insert_all(&mut sets.defined, defined)
}

// Adds the names of the unit at an index, if there is an index.
fn add_unit_at(
    sets: &mut NameSets,
    alloc: Global,
    version: &Version<'_>,
    index: Option<usize>,
) -> Result<(), AllocError>
    ensures { OnOk result (AreAdded (spec.unit_list (version_unit version.now index)) sets.old sets.new) }
{
    match version.unit_at(index) {
        Some(unit) => add_unit(sets, alloc, unit),
        None => Ok(()),
    }
}

// Adds the names of the units that the merge has at a place.
fn add_slot(
    sets: &mut NameSets,
    alloc: Global,
    versions: Versions<'_, '_>,
    slot: Slot,
) -> Result<(), AllocError>
    ensures { OnOk result (AreAdded (spec.picked_units (versions_of versions.entry) slot slot.choice) sets.old sets.new) }
{
    match slot.choice {
        Choice::Ours => add_unit_at(sets, alloc, versions.ours, slot.ours),
        Choice::Theirs => add_unit_at(sets, alloc, versions.theirs, slot.theirs),
        Choice::Conflict => {
            add_unit_at(sets, alloc, versions.ours, slot.ours)?;
            add_unit_at(sets, alloc, versions.theirs, slot.theirs)
        }
    }
}

// Returns sets without names.
fn no_names(alloc: Global) -> NameSets
    ensures { HaveNames [] result }
{
    NameSets {
        used: BTreeSet::new(alloc),
        defined: BTreeSet::new(alloc),
    }
}

// Returns the names of the units of a version.
fn names_of_version(alloc: Global, version: &Version<'_>) -> Result<NameSets, AllocError>
    ensures { IfOk result (HaveNames version.now.units) }
{
    let mut sets = no_names(alloc);
    'units: for unit in version.units() {
        add_unit(&mut sets, alloc, unit)?;
    }
    Ok(sets)
}

// Returns the names of the units that the merge has at these places.
fn names_at(
    alloc: Global,
    versions: Versions<'_, '_>,
    slots: &[Slot],
) -> Result<NameSets, AllocError>
    ensures { IfOk result (HaveNames (spec.units_at (versions_of versions.entry) slots.now)) }
{
    let mut sets = no_names(alloc);
    'slots: for slot in slots {
        add_slot(&mut sets, alloc, versions, *slot)?;
    }
    Ok(sets)
}

// Returns whether units use a name that none of them defines.
fn is_dangling(sets: &NameSets, name: &str) -> bool
    ensures { result ≡ name_sets.is_dangling sets.now name.now }
{
    sets.used.contains(name) && !sets.defined.contains(name)
}

// Returns whether the merge loses a name.
fn is_lost(names: &MergeNames, name: &str) -> bool
    ensures { result ≡ name_sets.is_lost_by names.now name.now }
{
    is_dangling(&names.picked, name)
        && !is_dangling(&names.ours, name)
        && !is_dangling(&names.theirs, name)
}

// Returns the first of these names that the merge loses.
fn first_lost(
    alloc: Global,
    names: &MergeNames,
    defined: &[String],
) -> Result<Option<String>, AllocError>
    ensures { IfOk result (λ lost. option_map string_bytes lost ≡ find (name_sets.is_lost_by names.now) (map string_bytes defined.now)) }
{
    'defined: for name in defined {
        if is_lost(names, name) {
            return Ok(Some(String::from_str(alloc, name)?));
        }
    }
    Ok(None)
}

// Returns the first name that the unit at an index defines and the merge loses.
fn lost_in(
    alloc: Global,
    names: &MergeNames,
    version: &Version<'_>,
    index: Option<usize>,
) -> Result<Option<String>, AllocError>
    ensures { IfOk result (λ lost. option_map string_bytes lost ≡ find (name_sets.is_lost_by names.now)
        (flat_map unit_names.defined_names (spec.unit_list (version_unit version.now index)))) }
{
    match version.unit_at(index) {
        Some(unit) => {
            let defined = defined_names(alloc, unit)?;
            first_lost(alloc, names, &defined)
        }
        None => Ok(None),
    }
}

// Returns the first name that the unit at a place defines that isn't picked, and that the merge loses.
fn lost_at(
    alloc: Global,
    names: &MergeNames,
    versions: Versions<'_, '_>,
    slot: Slot,
) -> Result<Option<String>, AllocError>
    ensures { IfOk result (λ lost. option_map string_bytes lost ≡ find (name_sets.is_lost_by names.now)
        (flat_map unit_names.defined_names (spec.unpicked_units (versions_of versions.entry) slot slot.choice))) }
{
    match slot.choice {
        Choice::Ours => lost_in(alloc, names, versions.theirs, slot.theirs),
        Choice::Theirs => lost_in(alloc, names, versions.ours, slot.ours),
        Choice::Conflict => Ok(None),
    }
}

// Returns the names of the picked units at these places, and of the sides of `originals`.
fn merge_names(
    alloc: Global,
    versions: Versions<'_, '_>,
    originals: Versions<'_, '_>,
    slots: &[Slot],
) -> Result<MergeNames, AllocError>
    requires { slots.now ≡ picked.slots (versions_of versions) }
    ensures { IfOk result (AreSideNames (versions_of versions.entry) (versions_of originals.entry)) }
{
    Ok(MergeNames {
        picked: names_at(alloc, versions, slots)?,
        ours: names_of_version(alloc, originals.ours)?,
        theirs: names_of_version(alloc, originals.theirs)?,
    })
}

// Returns a place, which is a conflict if a name is lost there.
fn kept_slot(slot: Slot, is_lost: bool) -> Slot
    ensures { result ≡ record slot { choice = cond is_lost Conflict slot.choice } }
{
    if is_lost {
        Slot {
            choice: Choice::Conflict,
            ..slot
        }
    } else {
        slot
    }
}

// Returns a place, which is a conflict if the unit that isn't picked defines a name that the merge loses, and the first such name.
fn kept_place(
    alloc: Global,
    names: &MergeNames,
    versions: Versions<'_, '_>,
    slot: Slot,
) -> Result<(Slot, Option<String>), AllocError>
    ensures slot { IfOk result (λ kept. kept.0 ≡ name_sets.kept_by names.now (versions_of versions.entry) slot) }
    ensures lost { IfOk result (λ kept. option_map string_bytes kept.1 ≡ name_sets.lost_by names.now (versions_of versions.entry) slot) }
{
    let lost = lost_at(alloc, names, versions, slot)?;
    Ok((kept_slot(slot, lost.is_some()), lost))
}

// The places of a merge, with conflicts for lost names, and the first lost name at each.
#[derive(Drop)]
pub(crate) struct KeptSlots {
    pub(crate) slots: Vec<Slot>,
    pub(crate) lost: Vec<Option<String>>,
}

// Returns these places, with conflicts for lost names.
fn kept_places(
    alloc: Global,
    names: &MergeNames,
    versions: Versions<'_, '_>,
    slots: &[Slot],
) -> Result<KeptSlots, AllocError>
    ensures slots { IfOk result (λ kept. kept.slots.items ≡ map (name_sets.kept_by names.now (versions_of versions.entry)) slots.now) }
    ensures lost { IfOk result (λ kept. map (option_map string_bytes) kept.lost.items ≡
        map (name_sets.lost_by names.now (versions_of versions.entry)) slots.now) }
{
    let mut kept = Vec::new(alloc);
    let mut lost = Vec::new(alloc);
    'slots: for slot in slots {
        let (place, name) = kept_place(alloc, names, versions, *slot)?;
        kept.push(place)?;
        lost.push(name)?;
    }
    Ok(KeptSlots { slots: kept, lost })
}

// Returns the places of a merge, with conflicts for lost names. Returns an error only if out of memory.
pub(crate) fn kept_slots(
    alloc: Global,
    versions: Versions<'_, '_>,
    originals: Versions<'_, '_>,
    slots: &[Slot],
) -> Result<KeptSlots, AllocError>
    requires { slots.now ≡ picked.slots (versions_of versions) }
    ensures slots { IfOk result (λ kept. kept.slots.items ≡ spec.kept_slots (versions_of versions.entry) (versions_of originals.entry)) }
    ensures lost { IfOk result (λ kept. map (option_map string_bytes) kept.lost.items ≡
        spec.names_lost (versions_of versions.entry) (versions_of originals.entry)) }
{
    let names = merge_names(alloc, versions, originals, slots)?;
    kept_places(alloc, &names, versions, slots)
}
