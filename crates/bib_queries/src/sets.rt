//! Sets of names.

ghost use Rattle.std.specs.Prelude.{◌≡◌, ℕ, List, map, IfOk};
ghost use Rattle.bib_queries.specs.Needed.{is_listed};
ghost use Rattle.bib_queries.specs.Sets.{is_in_set};

use std::alloc::{AllocError, Global};
use std::collections::BTreeSet;

// Returns the set of these names.
pub(crate) fn name_set<'a>(
    alloc: Global,
    names: &[&'a str],
) -> Result<BTreeSet<&'a str>, AllocError>
    ensures { IfOk result (λ set. (name : List ℕ) → is_in_set set name ≡ is_listed (map (λ n. n.now) names.now) name) }
{
    let mut set = BTreeSet::new(alloc);
    'names: for name in names {
        set.insert(*name)?;
    }
    Ok(set)
}
