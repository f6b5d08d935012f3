//! The places of units in a merge.

ghost use Rattle.std.specs.Prelude.{◌≡◌, IfOk, map};
ghost use Rattle.edit_merge.specs.Groups.{AreChanges};
ghost use Rattle.edit_merge.specs.Picked as picked;
ghost use Rattle.edit_merge.specs.Views.{versions_of};

use crate::groups::{Changes, find_changes, group_choice, is_repeated_in};
use crate::order::{order, order_choice};
use crate::picking::{Choice, Versions, choice_at};
use edit_versions::names::own_part;
use std::alloc::{AllocError, Global};

/// The place of the units with one name: their index in each version, if it has one, and what the merge picks.
#[derive(Debug, Clone, Copy, PartialEq, Eq)]
pub struct Slot {
    /// The index of the unit in the base.
    pub base: Option<usize>,
    /// The index of the unit in our version.
    pub ours: Option<usize>,
    /// The index of the unit in their version.
    pub theirs: Option<usize>,
    /// What the merge picks.
    pub choice: Choice,
}

// Returns the choice for the units with a name, which are at these indices.
fn slot_choice(
    alloc: Global,
    versions: Versions<'_, '_>,
    changes: &Changes,
    name: &str,
    base: Option<usize>,
    ours: Option<usize>,
    theirs: Option<usize>,
) -> Result<Choice, AllocError>
    requires { AreChanges (versions_of versions) changes.now }
    ensures { IfOk result (λ choice. choice ≡ picked.slot_choice (versions_of versions.entry) name.now base ours theirs) }
{
    let own = own_part(name);
    if is_repeated_in(alloc, versions, own)? {
        Ok(group_choice(versions, changes, own, ours, theirs))
    } else {
        choice_at(alloc, versions, base, ours, theirs)
    }
}

/// Returns the place of the units with a name.
pub(crate) fn slot_of(
    alloc: Global,
    versions: Versions<'_, '_>,
    changes: &Changes,
    name: &str,
) -> Result<Slot, AllocError>
    requires { AreChanges (versions_of versions) changes.now }
    ensures { IfOk result (λ slot. slot ≡ picked.slot_of (versions_of versions.entry) name.now) }
{
    let base = versions.base.index_of(name);
    let ours = versions.ours.index_of(name);
    let theirs = versions.theirs.index_of(name);
    let choice = slot_choice(alloc, versions, changes, name, base, ours, theirs)?;
    Ok(Slot {
        base,
        ours,
        theirs,
        choice,
    })
}

// Returns the places of the units with these names.
fn slots_of(
    alloc: Global,
    versions: Versions<'_, '_>,
    names: &[&str],
) -> Result<Vec<Slot>, AllocError>
    ensures { IfOk result (λ slots. slots.items ≡ map (picked.slot_of (versions_of versions.entry)) (map (λ n. n.now) names.now)) }
{
    let changes = find_changes(alloc, versions)?;
    let mut slots = Vec::new(alloc);
    'names: for name in names {
        slots.push(slot_of(alloc, versions, &changes, name)?)?;
    }
    Ok(slots)
}

/// The places of units in a merge, and how their order was chosen.
#[derive(Debug, Drop)]
pub struct OrderedSlots {
    /// The places of all units of both sides, in the order of the merge.
    pub slots: Vec<Slot>,
    /// Whose order it is. If both sides changed the order, and differently, it is a conflict, and the order is ours.
    pub order: Choice,
}

/// Returns the places of all units of both sides, in the order of the merge. Returns an error only if out of memory.
pub fn slots(alloc: Global, versions: Versions<'_, '_>) -> Result<OrderedSlots, AllocError>
    ensures slots { IfOk result (λ found. found.slots.items ≡ picked.slots (versions_of versions.entry)) }
    ensures order { IfOk result (λ found. found.order ≡ picked.order_choice (versions_of versions.entry)) }
{
    let choice = order_choice(alloc, versions)?;
    let names = order(alloc, versions, choice)?;
    Ok(OrderedSlots {
        slots: slots_of(alloc, versions, &names)?,
        order: choice,
    })
}
