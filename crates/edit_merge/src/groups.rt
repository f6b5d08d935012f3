//! Several units with one name in a version, as entries with the same key. They are chosen together.

ghost use Rattle.std.specs.Prelude.{◌≡◌, ◌||◌, ℕ, List, IfOk, OnOk};
ghost use Rattle.std.specs.BTreeSet.{contains_text};
ghost use Rattle.std.specs.List.{list_any};
ghost use Rattle.edit_merge.specs.Groups.{AreChanges, AreChangedNames};
ghost use Rattle.edit_merge.specs.Picked as picked;
ghost use Rattle.edit_merge.specs.Views.{versions_of};

use crate::picking::{Choice, Versions};
use bib_text::text::Text;
use edit_versions::comparison::is_same;
use edit_versions::names::own_part;
use edit_versions::version::Version;
use std::alloc::{AllocError, Global};
use std::collections::BTreeSet;

// The names of which each side changed some unit. They are names without numbers, which several units may have.
#[derive(Drop)]
pub(crate) struct Changes {
    ours: BTreeSet<String>,
    theirs: BTreeSet<String>,
}

// Inserts the own name of each of `names` with which two versions have different units.
fn insert_changed(
    alloc: Global,
    set: &mut BTreeSet<String>,
    names: &[Text],
    first: &Version<'_>,
    second: &Version<'_>,
) -> Result<(), AllocError>
    ensures { OnOk result ((own : List ℕ) → contains_text set.new own ≡
        (list_any (picked.is_changed_name first.now second.now own) names.now || contains_text set.old own)) }
{
    'names: for name in names {
        let name = name.as_str();
        if !is_same(first, first.index_of(name), second, second.index_of(name)) {
            set.insert(String::from_str(alloc, own_part(name))?)?;
        }
    }
    Ok(())
}

// Returns the own names whose units differ in two versions.
fn changed_names(
    alloc: Global,
    side: &Version<'_>,
    base: &Version<'_>,
) -> Result<BTreeSet<String>, AllocError>
    ensures { IfOk result (λ set. AreChangedNames side.now base.now (contains_text set)) }
{
    let mut set = BTreeSet::new(alloc);
    insert_changed(alloc, &mut set, base.names(), side, base)?;
    insert_changed(alloc, &mut set, side.names(), side, base)?;
    Ok(set)
}

// Returns the names of which each side changed some unit.
pub(crate) fn find_changes(alloc: Global, versions: Versions<'_, '_>) -> Result<Changes, AllocError>
    ensures { IfOk result (λ changes. AreChanges (versions_of versions.entry) changes) }
{
    Ok(Changes {
        ours: changed_names(alloc, versions.ours, versions.base)?,
        theirs: changed_names(alloc, versions.theirs, versions.base)?,
    })
}

// Returns whether several units of a version have this own name.
pub(crate) fn is_repeated_in(
    alloc: Global,
    versions: Versions<'_, '_>,
    own: &str,
) -> Result<bool, AllocError>
    ensures { IfOk result (λ repeated. repeated ≡ picked.is_repeated_in (versions_of versions.entry) own.now) }
{
    if versions.base.is_repeated(alloc, own)? {
        return Ok(true);
    }
    if versions.ours.is_repeated(alloc, own)? {
        return Ok(true);
    }
    versions.theirs.is_repeated(alloc, own)
}

// Returns the choice for one of several units with an own name.
pub(crate) fn group_choice(
    versions: Versions<'_, '_>,
    changes: &Changes,
    own: &str,
    ours: Option<usize>,
    theirs: Option<usize>,
) -> Choice
    requires { AreChanges (versions_of versions) changes.now }
    ensures { result ≡ picked.group_choice (versions_of versions.entry) own.now ours theirs }
{
    if !changes.theirs.contains(own) {
        return Choice::Ours;
    }
    if !changes.ours.contains(own) {
        return Choice::Theirs;
    }
    if is_same(versions.theirs, theirs, versions.ours, ours) {
        return Choice::Ours;
    }
    Choice::Conflict
}
