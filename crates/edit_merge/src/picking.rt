//! What a merge picks from the two sides.

ghost use Rattle.std.specs.Prelude.{◌≡◌, IfOk};
ghost use Rattle.edit_merge.specs.Picked as picked;
ghost use Rattle.edit_merge.specs.Views.{versions_of};

use edit_versions::comparison::{is_alike, is_same};
use edit_versions::version::Version;
use std::alloc::{AllocError, Global};

/// The versions of a merge.
#[derive(Clone, Copy)]
pub struct Versions<'v, 's> {
    /// The common base.
    pub base: &'v Version<'s>,
    /// Our side.
    pub ours: &'v Version<'s>,
    /// Their side.
    pub theirs: &'v Version<'s>,
}

/// What a merge picks: one of the two sides, or none because they conflict.
#[derive(Debug, Clone, Copy, PartialEq, Eq)]
pub enum Choice {
    /// What our side has, which may be nothing.
    Ours,
    /// What their side has, which may be nothing.
    Theirs,
    /// Both sides changed it, and differently.
    Conflict,
}

// Returns the choice for the units at these indices.
pub(crate) fn choice_at(
    alloc: Global,
    versions: Versions<'_, '_>,
    base: Option<usize>,
    ours: Option<usize>,
    theirs: Option<usize>,
) -> Result<Choice, AllocError>
    ensures { IfOk result (λ choice. choice ≡ picked.choice_at (versions_of versions.entry) base ours theirs) }
{
    if is_same(versions.theirs, theirs, versions.base, base) {
        return Ok(Choice::Ours);
    }
    if is_same(versions.ours, ours, versions.base, base) {
        return Ok(Choice::Theirs);
    }
    if is_alike(alloc, versions.theirs, theirs, versions.base, base)? {
        return Ok(Choice::Ours);
    }
    if is_alike(alloc, versions.theirs, theirs, versions.ours, ours)? {
        return Ok(Choice::Ours);
    }
    if is_alike(alloc, versions.ours, ours, versions.base, base)? {
        return Ok(Choice::Theirs);
    }
    Ok(Choice::Conflict)
}
