//! The names of a bibliography while it is loaded.

ghost use Rattle.std.specs.Prelude.{◌≡◌, ℕ, take, OnOk, OnErr, IfOk, is_none};
ghost use Rattle.std.specs.FinMap as map;
ghost use Rattle.bib_collections.specs.Names.{with_claims, claims_for};

use crate::names::Names;
use bib_text::text::Text;
use std::alloc::{AllocError, Global};
use std::collections::BTreeMap;
use std::marker::Model;

/// Names and the indices that they point to so far. Claiming a name stays fast with many names. Contracts see a finite map.
#[derive(Drop)]
pub struct Claims {
    indices: BTreeMap<String, usize>,
}

impl Model for Claims {
    ghost use Rattle.std.specs.Prelude.{ℕ};
    ghost use Rattle.std.specs.FinMap as map;
    ghost use Rattle.std.specs.Coded.{coded_list, coded_ℕ};
    ghost use Rattle.bib_collections.specs.Sorted.{ByText};
    ghost use Rattle.bib_collections.specs.Claims.{text_pairs};

    ghost Value = { ByText ℕ };

    ghost coded = { map.code (coded_list coded_ℕ) coded_ℕ };

    ghost view = { λ a. map.from_entries (text_pairs a.indices.entries) };
}

impl Claims {
    /// Returns an empty set of names. Doesn't allocate.
    pub fn new(alloc: Global) -> Self
        ensures { result ≡ map.empty }
    {
        Claims {
            indices: BTreeMap::new(alloc),
        }
    }

    /// Returns the index that `name` points to, or `None` if it is missing.
    pub fn get(&self, name: &str) -> Option<usize>
        ensures { result ≡ map.get self.now name.now }
    {
        self.indices.get(name).copied()
    }

    /// Makes `name` point to `index`. If out of memory, returns an error and leaves the names unchanged.
    pub fn claim(&mut self, name: Text, index: usize) -> Result<(), AllocError>
        ensures claimed { OnOk result (self.new ≡ map.insert self.old name index) }
        ensures refused { OnErr result (self.new ≡ self.old) }
    {
        self.indices.insert(name.into_string(), index)?;
        Ok(())
    }

    /// Makes `name` point to `index`, and returns whether `name` was missing before. If out of memory, returns an error and
    /// leaves the names unchanged.
    pub fn claim_new(&mut self, name: Text, index: usize) -> Result<bool, AllocError>
        ensures new { IfOk result (λ is_new. is_new ≡ is_none (map.get self.old name)) }
        ensures claimed { OnOk result (self.new ≡ map.insert self.old name index) }
        ensures refused { OnErr result (self.new ≡ self.old) }
    {
        let had = self.indices.insert(name.into_string(), index)?;
        Ok(had.is_none())
    }

    /// Makes each of `names` point to `index`, one after another. If out of memory, returns an error, and the first ones of
    /// `names` (possibly none) already point to `index`.
    pub fn claim_all(&mut self, names: Vec<Text>, index: usize) -> Result<(), AllocError>
        ensures claimed { OnOk result (self.new ≡ with_claims self.old (claims_for names.items index)) }
        ensures refused { OnErr result ((n : ℕ) ×
            (self.new ≡ with_claims self.old (claims_for (take n names.items) index))) }
    {
        'names: for name in names {
            self.claim(name, index)?;
        }
        Ok(())
    }

    /// Converts to `Names`, in which a bibliography keeps its names after loading. Returns an error if out of memory.
    pub fn into_names(self, alloc: Global) -> Result<Names, AllocError>
        ensures { IfOk result (λ names. names ≡ self) }
    {
        let mut pairs = Vec::with_capacity(alloc, self.indices.len())?;
        'indices: for (name, index) in self.indices {
            pairs.push((Text::from_string(name), index))?;
        }
        Ok(Names::from_sorted(pairs))
    }
}
