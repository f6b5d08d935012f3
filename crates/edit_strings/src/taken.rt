//! The names that are taken: those that the file defines or uses, and the new ones. A new abbreviation gets another name.

ghost use Rattle.std.specs.Prelude.{◌≡◌, ◌||◌, ◌<◌, ◌^◌, ℕ, List, IfOk, OnOk, map};
ghost use Rattle.std.specs.BTreeSet.{btree_set_len};
ghost use Rattle.std.specs.List.{flat_map};
ghost use Rattle.bib_syntax.specs.Grammar.{is_word};
ghost use Rattle.bib_syntax.specs.Views.{entry_reading_of, field_of, file_of, piece_of};
ghost use Rattle.edit_strings.specs.Collected.{definition_names, element_names, is_one_in_any_case, names_of_file, used_names};
ghost use Rattle.edit_strings.specs.Collecting.{has_lowercase, is_taken};

use bib_syntax::raw::{Pair, RawBibliography, RawChunk, RawEntry};
use bib_text::spanned::Spanned;
use std::alloc::{AllocError, Global};
use std::collections::BTreeSet;

// Taken names in ASCII lowercase.
#[derive(Drop)]
pub(crate) struct Taken {
    names: BTreeSet<String>,
}

impl Taken {
    // Returns whether `lowercase`, a name in ASCII lowercase, is taken.
    pub(crate) fn has(&self, lowercase: &str) -> bool
        ensures { result ≡ has_lowercase self.now lowercase.now }
    {
        self.names.contains(lowercase)
    }

    // Returns the number of taken names.
    pub(crate) fn count(&self) -> usize
        ensures count { result ≡ btree_set_len self.now.names }
        ensures bound { result < 2 ^ 63 }
    {
        self.names.len()
    }

    // Adds `name` in ASCII lowercase to the taken names.
    pub(crate) fn take(&mut self, alloc: Global, name: &str) -> Result<(), AllocError>
        ensures { OnOk result ((other : List ℕ) → is_taken self.new other ≡ (is_word name.now other || is_taken self.old other)) }
    {
        self.names.insert(name.to_ascii_lowercase(alloc)?)?;
        Ok(())
    }

    // Adds the names among `pieces`.
    fn take_elements(
        &mut self,
        alloc: Global,
        pieces: &[Spanned<RawChunk<'_>>],
    ) -> Result<(), AllocError>
        ensures { OnOk result ((other : List ℕ) → is_taken self.new other ≡
            (is_one_in_any_case (element_names (map piece_of pieces.now)) other || is_taken self.old other)) }
    {
        'pieces: for piece in pieces {
            if let RawChunk::Abbreviation(name) = piece.v {
                self.take(alloc, name)?;
            }
        }
        Ok(())
    }

    // Adds the names that definitions define or use.
    fn take_definitions(
        &mut self,
        alloc: Global,
        definitions: &[Pair<'_>],
    ) -> Result<(), AllocError>
        ensures { OnOk result ((other : List ℕ) → is_taken self.new other ≡
            (is_one_in_any_case (definition_names (map field_of definitions.now)) other || is_taken self.old other)) }
    {
        'definitions: for definition in definitions {
            self.take(alloc, definition.key.v)?;
            self.take_elements(alloc, &definition.value.v)?;
        }
        Ok(())
    }

    // Adds the names that fields use.
    fn take_fields(&mut self, alloc: Global, fields: &[Pair<'_>]) -> Result<(), AllocError>
        ensures { OnOk result ((other : List ℕ) → is_taken self.new other ≡
            (is_one_in_any_case (used_names (map field_of fields.now)) other || is_taken self.old other)) }
    {
        'fields: for field in fields {
            self.take_elements(alloc, &field.value.v)?;
        }
        Ok(())
    }

    // Adds the names that entries use.
    fn take_entries(
        &mut self,
        alloc: Global,
        entries: &[Spanned<RawEntry<'_>>],
    ) -> Result<(), AllocError>
        ensures { OnOk result ((other : List ℕ) → is_taken self.new other ≡
            (is_one_in_any_case (flat_map (λ e. used_names e.fields) (map entry_reading_of entries.now)) other
            || is_taken self.old other)) }
    {
        'entries: for entry in entries {
            self.take_fields(alloc, &entry.v.fields)?;
        }
        Ok(())
    }

    // Returns the names that a file defines or uses.
    pub(crate) fn of_file(alloc: Global, raw: &RawBibliography<'_>) -> Result<Taken, AllocError>
        ensures { IfOk result (λ taken. (other : List ℕ) → is_taken taken other ≡
            is_one_in_any_case (names_of_file (file_of raw.now)) other) }
    {
        let mut taken = Taken {
            names: BTreeSet::new(alloc),
        };
        taken.take_definitions(alloc, &raw.abbreviations)?;
        taken.take_entries(alloc, &raw.entries)?;
        Ok(taken)
    }
}
