//! Parses fields one after another, with the same definitions of abbreviations.

ghost use Rattle.std.specs.Prelude.{◌≡◌, ◌⊎◌, map, OnOk, IfOk, IfErr};
ghost use Rattle.bib_abbreviations.specs.Abbreviations.{AreContents, IsContentsError, IsReadable, given_by, is_known, pairs_in};
ghost use Rattle.bib_syntax.specs.Errors.{out_of_memory};
ghost use Rattle.bib_syntax.specs.Views.{piece_of};
ghost use Rattle.bib_tables.specs.VerbatimFields as names;

use crate::abbreviations::{Expansion, Memo, month};
use crate::definitions::Lookup;
use bib_chunks::chunk::Chunks;
use bib_syntax::raw::{Field, ParseError};
use bib_tables::fields::is_verbatim_field;
use std::alloc::Global;
use std::collections::BTreeMap;
use std::marker::Model;

/// Parses the contents of fields, one after another, with the same definitions of abbreviations. Unless an error occurs,
/// each definition is expanded at most once for verbatim fields and at most once for others. Contracts see the names that
/// are defined, each with its definition.
#[derive(Drop)]
pub struct FieldReader<'f, 's> {
    alloc: Global,
    definitions: BTreeMap<&'s str, &'f Field<'s>>,
    verbatim: Memo<'s>,
    others: Memo<'s>,
}

impl<'f, 's> Model for FieldReader<'f, 's> {
    ghost use Rattle.std.specs.Prelude.{ℕ, List, true, false, []};
    ghost use Rattle.bib_abbreviations.specs.Abbreviations.{pairs_in, sorted_in};
    ghost use Rattle.bib_abbreviations.specs.Expanding.{IsSound};
    ghost use Rattle.bib_syntax.specs.Reading.{Piece};

    ghost Value = { List (List ℕ × List Piece) };

    ghost view = { λ a. pairs_in a.definitions };

    ghost invariant = { λ a. IsSound (sorted_in a.definitions) true a.verbatim [] × IsSound (sorted_in a.definitions) false a.others [] };
}

impl<'f, 's> FieldReader<'f, 's> {
    /// Returns a reader that has parsed no field yet. Does not allocate.
    pub fn new(alloc: Global, definitions: BTreeMap<&'s str, &'f Field<'s>>) -> Self
        ensures { result ≡ pairs_in definitions.entry }
    {
        FieldReader {
            alloc,
            definitions,
            verbatim: Memo::new(alloc),
            others: Memo::new(alloc),
        }
    }

    /// Returns whether a name is defined, or is the first three letters of a month in any ASCII case. Does not allocate.
    pub fn knows(&self, name: &str) -> bool
        ensures { result ≡ is_known (given_by self.now) name.now }
    {
        Lookup::Sorted(&self.definitions).get(name).is_some() || month(name).is_some()
    }

    /// Parses the contents of a field with the name `key`, with the results and errors of `parse_field`.
    pub fn read(&mut self, key: &str, field: &Field<'s>) -> Result<Chunks, ParseError>
        ensures same { self.new ≡ self.old }
        ensures contents { IfOk result (AreContents (given_by self.old)
            (names.is_verbatim_field key.now) (map piece_of field.now.items)) }
        ensures readable { OnOk result (IsReadable (given_by self.old)
            (names.is_verbatim_field key.now) (map piece_of field.now.items)) }
        ensures refused { IfErr result (λ e. (e ≡ out_of_memory) ⊎
            IsContentsError (given_by self.old) (names.is_verbatim_field key.now)
            (map piece_of field.now.items) e) }
    {
        let is_verbatim = is_verbatim_field(key);
        let expansion = Expansion {
            alloc: self.alloc,
            definitions: Lookup::Sorted(&self.definitions),
            is_verbatim,
        };
        if is_verbatim {
            expansion.read(&mut self.verbatim, field)
        } else {
            expansion.read(&mut self.others, field)
        }
    }
}
