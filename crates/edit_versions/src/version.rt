//! A version of a file: its units and their names.

ghost use Rattle.std.specs.Prelude.{◌≡◌, ◌⊎◌, IfErr, IfOk, IfSome, OnOk, map, option_map};
ghost use Rattle.bib_syntax.specs.Errors.{Refuses, out_of_memory};
ghost use Rattle.bib_syntax.specs.Grammar.{IsFile};
ghost use Rattle.bib_syntax.specs.SyntaxErrors.{IsReported};
ghost use Rattle.edit_versions.specs.Versions as versions;
ghost use Rattle.edit_versions.specs.Views.{texts_view};
ghost use Rattle.edit_units.specs.Units.{AreUnits};
ghost use Rattle.edit_units.specs.Views.{unit_reading_of, unit_texts_of};

use crate::names::{indices_of, unit_names, with_prefix};
use bib_collections::claims::Claims;
use bib_syntax::raw::ParseError;
use bib_text::text::Text;
use edit_units::texts::{UnitText, unit_texts};
use edit_units::units::Unit;
use std::alloc::{AllocError, Global};
use std::marker::Model;

/// A version of a file. Contracts see its text and its units.
#[derive(Drop)]
pub struct Version<'s> {
    text: &'s str,
    units: Vec<Unit<'s>>,
    texts: Vec<UnitText<'s>>,
    end: &'s str,
    names: Vec<Text>,
    indices: Claims,
}

impl<'s> Model for Version<'s> {
    ghost use Rattle.std.specs.Prelude.{map};
    ghost use Rattle.edit_versions.specs.Kept.{ArePartsOfVersion};
    ghost use Rattle.edit_versions.specs.Versions.{VersionReading};
    ghost use Rattle.edit_units.specs.Views.{unit_reading_of, unit_texts_of};

    ghost Value = { VersionReading };

    ghost view = { λ v. record { text = v.text.now; units = map unit_reading_of v.units.items } };

    ghost invariant = { λ v. ArePartsOfVersion (record { text = v.text.now; units = map unit_reading_of v.units.items })
        (map unit_texts_of v.texts.items) v.end.now v.names.items v.indices };
}

impl<'s> Version<'s> {
    // Returns a version with these units.
    fn of_units(alloc: Global, text: &'s str, units: Vec<Unit<'s>>) -> Result<Self, AllocError>
        requires { AreUnits text.now (map unit_reading_of units.items) }
        ensures { IfOk result (λ v. v ≡ record { text = text.now; units = map unit_reading_of units.entry.items }) }
    {
        let (texts, end) = unit_texts(alloc, text, &units)?;
        let names = unit_names(alloc, text, &units)?;
        let indices = indices_of(alloc, &names)?;
        Ok(Version {
            text,
            units,
            texts,
            end,
            names,
            indices,
        })
    }

    /// Parses a version. Fails like `RawBibliography::parse`.
    pub fn parse(alloc: Global, text: &'s str) -> Result<Self, ParseError>
        ensures text { IfOk result (λ v. v.text ≡ text.now) }
        ensures units { IfOk result (λ v. AreUnits v.text v.units) }
        ensures accepted { OnOk result (IsFile text.now) }
        ensures refused { IfErr result (λ e. Refuses text.now e (IsFile text.now → ⊥)) }
        ensures reported { IfErr result (λ e. (e ≡ out_of_memory) ⊎ IsReported text.now e) }
    {
        let units = Unit::parse_all(alloc, text)?;
        Ok(Version::of_units(alloc, text, units)?)
    }

    /// Returns the text.
    pub fn text(&self) -> &'s str
        ensures { result.now ≡ self.now.text }
    {
        self.text
    }

    /// Returns the units, in order.
    pub fn units(&self) -> &[Unit<'s>]
        ensures { map unit_reading_of result.now ≡ self.now.units }
    {
        &self.units
    }

    /// Returns the unit at an index, if there is an index.
    pub fn unit_at(&self, index: Option<usize>) -> Option<&Unit<'s>>
        ensures { option_map (λ u. unit_reading_of u.now) result ≡ versions.version_unit self.now index }
    {
        self.units.get(index?)
    }

    /// Returns the units as texts, in order.
    pub fn texts(&self) -> &[UnitText<'s>]
        ensures { map unit_texts_of result.now ≡ versions.version_texts self.now }
    {
        &self.texts
    }

    /// Returns the texts of the unit at an index, if there is an index.
    pub fn texts_at(&self, index: Option<usize>) -> Option<UnitText<'s>>
        ensures { texts_view result ≡ versions.texts_at self.now index }
    {
        self.texts.get(index?).copied()
    }

    /// Returns the bytes of the unit at an index, if there is an index.
    pub fn text_at(&self, index: Option<usize>) -> Option<&'s str>
        ensures { option_map (λ t. t.now) result ≡ option_map (versions.text_of_unit self.now.text) (versions.version_unit self.now index) }
    {
        match self.texts_at(index) {
            Some(texts) => Some(texts.text),
            None => None,
        }
    }

    /// Returns the unit at an index and its bytes, if there is an index.
    pub fn unit_with_text(&self, index: Option<usize>) -> Option<(&Unit<'s>, &'s str)>
        ensures unit { option_map (λ x. unit_reading_of x.0.now) result ≡ versions.version_unit self.now index }
        ensures text { IfSome result (λ x. x.1.now ≡ versions.text_of_unit self.now.text (unit_reading_of x.0.now)) }
    {
        match self.unit_at(index) {
            Some(unit) => match self.text_at(index) {
                Some(text) => Some((unit, text)),
                None => None,
            },
            None => None,
        }
    }

    /// Returns the white space after the last unit.
    pub fn end(&self) -> &'s str
        ensures { result.now ≡ versions.end_of self.now }
    {
        self.end
    }

    /// Returns the names of the units. A name has only one unit.
    pub fn names(&self) -> &[Text]
        ensures { result.now ≡ versions.version_names self.now }
    {
        &self.names
    }

    /// Returns the index of the unit with a name, or `None` if no unit has it.
    pub fn index_of(&self, name: &str) -> Option<usize>
        ensures { result ≡ versions.named_index self.now name.now }
    {
        self.indices.get(name)
    }
    /// Returns whether several units have this own name (`own_part`). Returns an error only if out of memory.
    pub fn is_repeated(&self, alloc: Global, own: &str) -> Result<bool, AllocError>
        ensures { IfOk result (λ repeated. repeated ≡ versions.is_repeated_name self.now own.now) }
    {
        let second = with_prefix(alloc, "1 ", own)?;
        Ok(self.index_of(second.as_str()).is_some())
    }
}
