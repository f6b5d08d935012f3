//! The order of the units of a merge.

ghost use Rattle.std.specs.Prelude.{◌≡◌, ◌++◌, None, IfOk, OnOk, filter, map};
ghost use Rattle.edit_merge.specs.Picked as picked;
ghost use Rattle.edit_versions.specs.Versions.{version_names};
ghost use Rattle.edit_versions.specs.Versions as versions;
ghost use Rattle.edit_merge.specs.Views.{versions_of};

use crate::picking::{Choice, Versions};
use bib_text::text::Text;
use edit_versions::version::Version;
use std::alloc::{AllocError, Global};

// Returns whether two lists of names are equal.
fn are_equal_names(first: &[&str], second: &[&str]) -> bool
    ensures { result ≡ picked.are_equal_names (map (λ n. n.now) first.now) (map (λ n. n.now) second.now) }
{
    first == second
}

// Returns the names of a version after the one at an index, or all of them if there is no index.
fn names_behind<'v>(version: &'v Version<'_>, index: Option<usize>) -> &'v [Text]
    ensures { result.now ≡ picked.names_behind version.now index }
{
    let Some(index) = index else {
        return version.names();
    };
    match version.names().get(index..) {
        Some([_, behind @ ..]) => behind,
        _ => &[],
    }
}

// Appends the names of `other` after the one at an index, up to the first one that `main` has too.
fn push_run<'v>(
    names: &mut Vec<&'v str>,
    main: &Version<'_>,
    other: &'v Version<'_>,
    index: Option<usize>,
) -> Result<(), AllocError>
    ensures { OnOk result (map (λ n. n.now) names.new.items ≡
        map (λ n. n.now) names.old.items ++ picked.run_behind main.now other.now index) }
{
    let left = names_behind(other, index);
    'names: for name in left {
        if main.index_of(name.as_str()).is_some() {
            return Ok(());
        }
        names.push(name.as_str())?;
    }
    Ok(())
}

// Returns the names of two versions in one order (`woven`).
fn woven<'v>(
    alloc: Global,
    main: &'v Version<'_>,
    other: &'v Version<'_>,
) -> Result<Vec<&'v str>, AllocError>
    ensures { IfOk result (λ names. map (λ n. n.now) names.items ≡ picked.woven main.now other.now None (version_names main.now)) }
{
    let mut names = Vec::new(alloc);
    let mut last = None;
    'names: for name in main.names() {
        let index = other.index_of(name.as_str());
        if index.is_some() {
            push_run(&mut names, main, other, last)?;
            last = index;
        }
        names.push(name.as_str())?;
    }
    push_run(&mut names, main, other, last)?;
    Ok(names)
}

// Returns the names of a version.
fn all_names<'v>(alloc: Global, version: &'v Version<'_>) -> Result<Vec<&'v str>, AllocError>
    ensures { IfOk result (λ names. map (λ n. n.now) names.items ≡ version_names version.now) }
{
    let mut names = Vec::new(alloc);
    'names: for name in version.names() {
        names.push(name.as_str())?;
    }
    Ok(names)
}

// Returns the names of a version that another one has too.
fn shared_names<'v>(
    alloc: Global,
    version: &'v Version<'_>,
    other: &Version<'_>,
) -> Result<Vec<&'v str>, AllocError>
    ensures { IfOk result (λ names. map (λ n. n.now) names.items ≡ filter (versions.has_unit_named other.now) (version_names version.now)) }
{
    let mut names = Vec::new(alloc);
    'names: for name in version.names() {
        if other.index_of(name.as_str()).is_some() {
            names.push(name.as_str())?;
        }
    }
    Ok(names)
}

// Returns whether two versions have the same names in the same order.
fn is_same_order(
    alloc: Global,
    first: &Version<'_>,
    second: &Version<'_>,
) -> Result<bool, AllocError>
    ensures { IfOk result (λ same. same ≡ picked.are_equal_names (version_names first.now) (version_names second.now)) }
{
    let names = all_names(alloc, first)?;
    let others = all_names(alloc, second)?;
    Ok(are_equal_names(&names, &others))
}

// Returns whether the names that two versions share have the same order in both.
fn is_alike_order(
    alloc: Global,
    first: &Version<'_>,
    second: &Version<'_>,
) -> Result<bool, AllocError>
    ensures { IfOk result (λ alike. alike ≡ picked.is_alike_order first.now second.now) }
{
    let names = shared_names(alloc, first, second)?;
    let others = shared_names(alloc, second, first)?;
    Ok(are_equal_names(&names, &others))
}

// Returns whose order the merge has.
pub(crate) fn order_choice(alloc: Global, versions: Versions<'_, '_>) -> Result<Choice, AllocError>
    ensures { IfOk result (λ choice. choice ≡ picked.order_choice (versions_of versions.entry)) }
{
    if is_same_order(alloc, versions.theirs, versions.base)? {
        return Ok(Choice::Ours);
    }
    if is_same_order(alloc, versions.ours, versions.base)? {
        return Ok(Choice::Theirs);
    }
    if is_alike_order(alloc, versions.theirs, versions.base)? {
        return Ok(Choice::Ours);
    }
    if is_alike_order(alloc, versions.theirs, versions.ours)? {
        return Ok(Choice::Ours);
    }
    if is_alike_order(alloc, versions.ours, versions.base)? {
        return Ok(Choice::Theirs);
    }
    Ok(Choice::Conflict)
}

// Returns the names of both sides in the order of the merge, given whose order it has.
pub(crate) fn order<'v>(
    alloc: Global,
    versions: Versions<'v, '_>,
    choice: Choice,
) -> Result<Vec<&'v str>, AllocError>
    ensures { IfOk result (λ names. map (λ n. n.now) names.items ≡ picked.order_by (versions_of versions.entry) choice) }
{
    match choice {
        Choice::Ours | Choice::Conflict => woven(alloc, versions.ours, versions.theirs),
        Choice::Theirs => woven(alloc, versions.theirs, versions.ours),
    }
}
