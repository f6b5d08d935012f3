//! The order of the units that two versions share.

ghost use Rattle.std.specs.Prelude.{◌≡◌, IfOk, bytes_eq, map};
ghost use Rattle.std.specs.Cmp.Lexicographic.{pointwise};
ghost use Rattle.edit_changes.specs.Changes as spec;

use edit_versions::version::Version;
use std::alloc::{AllocError, Global};

// Returns the names that a version shares with another one.
fn shared_names<'v>(
    alloc: Global,
    version: &'v Version<'_>,
    other: &Version<'_>,
) -> Result<Vec<&'v str>, AllocError>
    ensures { IfOk result (λ names. map (λ n. n.now) names.items ≡ spec.shared_names version.now other.now) }
{
    let mut names = Vec::new(alloc);
    'names: for name in version.names() {
        if other.index_of(name.as_str()).is_some() {
            names.push(name.as_str())?;
        }
    }
    Ok(names)
}

// Returns whether two lists of names are equal.
fn are_equal_names(first: &[&str], second: &[&str]) -> bool
    ensures { result ≡ pointwise bytes_eq (map (λ n. n.now) first.now) (map (λ n. n.now) second.now) }
{
    first == second
}

// Returns whether the names that two versions share have the same order in both.
pub(crate) fn is_same_order(
    alloc: Global,
    old: &Version<'_>,
    new: &Version<'_>,
) -> Result<bool, AllocError>
    ensures { IfOk result (λ same. same ≡ pointwise bytes_eq (spec.shared_names old.now new.now) (spec.shared_names new.now old.now)) }
{
    let names = shared_names(alloc, old, new)?;
    let others = shared_names(alloc, new, old)?;
    Ok(are_equal_names(&names, &others))
}
