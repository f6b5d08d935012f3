//! The offsets from which parsing fields fails, kept because parts of a text are parsed more than once.

ghost use Rattle.std.specs.Prelude.{◌≡◌, ℕ, List, OnOk};
ghost use Rattle.std.specs.BTreeMap as tree;
ghost use Rattle.std.specs.Option.{option_copied};
ghost use Rattle.std.specs.Ordering.{nat_cmp};
ghost use Rattle.bib_syntax.specs.Failures.{AllFail, AreFailures};

use crate::raw::ParseError;
use std::alloc::{AllocError, Global};
use std::collections::BTreeMap;

// Offsets from which parsing fields fails, each with its error.
#[derive(Drop)]
pub(crate) struct Failures {
    errors: BTreeMap<usize, ParseError>,
}

impl Failures {
    // Returns an empty set of failures.
    pub(crate) fn new(alloc: Global) -> Self
        ensures { (text : List ℕ) → AreFailures text result }
    {
        Failures {
            errors: BTreeMap::new(alloc),
        }
    }

    // Returns the known error for the offset `at`, if there is one.
    pub(crate) fn get(&self, at: usize) -> Option<&ParseError>
        ensures { option_copied result ≡ tree.get nat_cmp self.now.errors at }
    {
        self.errors.get(&at)
    }

    // Keeps `error` for each of the offsets `starts`.
    pub(crate) fn remember(
        &mut self,
        starts: &[usize],
        error: &ParseError,
    ) -> Result<(), AllocError>
        ensures { OnOk result ((text : List ℕ) → AllFail text error.now starts.now →
            AreFailures text self.old → AreFailures text self.new) }
    {
        'starts: for start in starts {
            self.errors.insert(*start, error.clone()?)?;
        }
        Ok(())
    }
}
