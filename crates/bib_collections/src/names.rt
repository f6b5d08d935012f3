//! The names of a bibliography. Each points to the index of an entry.

ghost use Rattle.std.specs.Prelude.{nat_eq, ◌≡◌, ◌+◌, ◌<◌, ◌≤◌, ◌∷◌, [], OnOk, OnErr, vec_len, vec_capacity};
ghost use Rattle.std.specs.FinMap as map;
ghost use Rattle.std.specs.Cmp.{nat_eq_equiv, partial_equiv_from_equiv};
ghost use Rattle.bib_collections.specs.Sorted.{IsSorted, map_of};
ghost use Rattle.bib_collections.specs.TextMap.{same_pairs, same_pairs_per, same_pairs_equiv};
ghost use Rattle.bib_collections.specs.Names.{with_claims, claims_for, moved_pair, without_index, IsMoved};

use crate::sorted::find_binary;
use bib_text::text::Text;
use std::alloc::{AllocError, Global};
use std::marker::Model;

/// Names and the indices that they point to, sorted by the bytes of the names. Contracts see them as a finite map.
#[derive(Debug, Drop)]
pub struct Names {
    pairs: Vec<(Text, usize)>,
}

impl Model for Names {
    ghost use Rattle.std.specs.Prelude.{ℕ};
    ghost use Rattle.std.specs.FinMap as map;
    ghost use Rattle.std.specs.Coded.{coded_list, coded_ℕ};
    ghost use Rattle.bib_collections.specs.Sorted.{ByText, IsSorted, map_of};

    ghost Value = { ByText ℕ };

    ghost coded = { map.code (coded_list coded_ℕ) coded_ℕ };

    ghost view = { λ a. map_of a.pairs.items };

    ghost invariant = { λ a. IsSorted a.pairs.items };
}

// Makes `name` point to `index`. `pairs` must have capacity for one more pair.
fn point(pairs: &mut Vec<(Text, usize)>, name: Text, index: usize)
    requires was_sorted { IsSorted pairs.old.items }
    requires room { vec_len pairs.old < vec_capacity pairs.old }
    ensures sorted { IsSorted pairs.new.items }
    ensures claimed { map_of pairs.new.items ≡ map.insert (map_of pairs.old.items) name index }
    ensures at_most_one_more { vec_len pairs.new ≤ vec_len pairs.old + 1 }
    ensures capacity { vec_capacity pairs.old ≤ vec_capacity pairs.new }
{
    match find_binary(pairs.as_slice(), name.as_str()) {
        Ok(at) => pairs[at].1 = index,
        Err(at) => {
            let inserted: Result<_, _> = pairs.insert(at, (name, index));
            inserted.unwrap();
        }
    }
}

impl Names {
    /// Returns an empty set of names. Doesn't allocate.
    pub fn new(alloc: Global) -> Self
        ensures { result ≡ map.empty }
    {
        Names {
            pairs: Vec::new(alloc),
        }
    }

    // Wraps pairs that are sorted by the bytes of the names.
    pub(crate) fn from_sorted(pairs: Vec<(Text, usize)>) -> Self
        requires { IsSorted pairs.items }
        ensures { result ≡ map_of pairs.items }
    {
        Names { pairs }
    }

    /// Returns the index that `name` points to, or `None` if it is missing. Does a binary search.
    pub fn get(&self, name: &str) -> Option<usize>
        ensures { result ≡ map.get self.now name.now }
    {
        match find_binary(self.pairs.as_slice(), name) {
            Ok(at) => Some(self.pairs[at].1),
            Err(_) => None,
        }
    }

    /// Makes `name` point to `index`. If out of memory, returns an error and leaves the names unchanged.
    pub fn claim(&mut self, name: Text, index: usize) -> Result<(), AllocError>
        ensures claimed { OnOk result (self.new ≡ map.insert self.old name index) }
        ensures refused { OnErr result (self.new ≡ self.old) }
    {
        self.pairs.reserve(1)?;
        point(&mut self.pairs, name, index);
        Ok(())
    }

    /// Makes each of `names` point to `index`. If out of memory, returns an error and leaves the names unchanged.
    pub fn claim_all(&mut self, names: Vec<Text>, index: usize) -> Result<(), AllocError>
        ensures claimed { OnOk result (self.new ≡ with_claims self.old (claims_for names.items index)) }
        ensures refused { OnErr result (self.new ≡ self.old) }
    {
        self.pairs.reserve(names.len())?;
        'names: for name in names {
            point(&mut self.pairs, name, index);
        }
        Ok(())
    }

    /// Removes the names that point to `index`, and subtracts 1 from each greater index. Doesn't allocate.
    pub fn close_gap(&mut self, index: usize)
        ensures { self.new ≡ without_index self.old index }
    {
        self.pairs.retain_mut(
            |pair: &mut (Text, usize)| -> bool
                ensures { IsMoved index pair.old result pair.new }
            {
                if pair.1 == index {
                    return false;
                }
                if pair.1 > index {
                    pair.1 -= 1;
                }
                true
            },
        );
    }
}

impl Clone for Names {
    ghost is_clone = { λ names copy. copy ≡ names };

    fn clone(&self) -> Result<Self, AllocError> {
        let pairs = self.pairs.clone()?;
        Ok(Names { pairs })
    }
}

impl PartialEq for Names {
    ghost eq = { same_pairs nat_eq };

    ghost laws = { same_pairs_per (partial_equiv_from_equiv nat_eq_equiv) };

    fn eq(&self, other: &Self) -> bool {
        self.pairs == other.pairs
    }
}

impl Eq for Names {
    ghost laws = { same_pairs_equiv nat_eq_equiv };
}
