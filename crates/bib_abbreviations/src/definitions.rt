//! The definitions of abbreviations.

ghost use Rattle.std.specs.Prelude.{◌≡◌, ℕ, IfOk, List, map};
ghost use Rattle.std.specs.Option.{option_map};
ghost use Rattle.bib_abbreviations.specs.Abbreviations.{definition_in, sorted_in};
ghost use Rattle.bib_abbreviations.specs.Expanding.{found_in};
ghost use Rattle.bib_syntax.specs.Views.{field_of, piece_of};

use bib_syntax::raw::{Field, Pair};
use std::alloc::{AllocError, Global};
use std::collections::{BTreeMap, HashMap};

/// Returns the definitions of a file by their names. If a name is defined twice, the last definition counts. Names are compared
/// byte by byte. Returns an error only if out of memory.
pub fn definitions<'f, 's>(
    alloc: Global,
    pairs: &'f [Pair<'s>],
) -> Result<BTreeMap<&'s str, &'f Field<'s>>, AllocError>
    ensures { IfOk result (λ definitions. (name : List ℕ) →
        sorted_in definitions name ≡ definition_in (map field_of pairs.now) name) }
{
    let mut definitions = BTreeMap::new(alloc);
    'definitions: for pair in pairs {
        definitions.insert(pair.key.v, &pair.value.v)?;
    }
    Ok(definitions)
}

// The map of a caller, or a sorted one, in which no choice of names makes look-ups slow.
#[derive(Clone, Copy)]
pub(crate) enum Lookup<'m, 'f, 's> {
    // A map by the hashes of names.
    Hashed(&'m HashMap<&'s str, &'f Field<'s>>),
    // A map by the order of names.
    Sorted(&'m BTreeMap<&'s str, &'f Field<'s>>),
}

impl<'m, 'f, 's> Lookup<'m, 'f, 's> {
    // Returns the definition of a name.
    pub(crate) fn get(self, name: &str) -> Option<&'f Field<'s>>
        ensures { option_map (λ field. map piece_of field.now.items) result ≡
            found_in self.entry name.now }
    {
        match self {
            Lookup::Hashed(definitions) => definitions.get(name).copied(),
            Lookup::Sorted(definitions) => definitions.get(name).copied(),
        }
    }
}
