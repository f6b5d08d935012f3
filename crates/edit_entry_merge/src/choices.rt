//! Which side a merge chooses.

ghost use Rattle.std.specs.Prelude.{◌≡◌, ◌++◌, ◌∷◌, [], IfOk, OnOk, map};
ghost use Rattle.bib_syntax.specs.Views.{field_of};
ghost use Rattle.edit_entry_merge.specs.Choices as spec;
ghost use Rattle.edit_entry_merge.specs.Working.{AreIndexed, conflicts_of, lent_field, other_conflicts_of, versions_reading};

use crate::modification_times::time_choice;
use crate::versions::Versions;
use bib_queries::equal_values::are_equal_pieces;
use bib_syntax::raw::Pair;
use bib_text::text::Text;
use std::alloc::{AllocError, Global};

/// One of the two sides of a merge.
#[derive(Debug, Clone, Copy, PartialEq, Eq)]
pub enum Side {
    /// Our side.
    Ours,
    /// Their side.
    Theirs,
}

impl Side {
    // Returns the other side.
    pub(crate) fn other(self) -> Side
        ensures { result ≡ spec.other_side self }
    {
        match self {
            Side::Ours => Side::Theirs,
            Side::Theirs => Side::Ours,
        }
    }

    // Returns whether this and another side are different.
    fn is_different(self, other: Side) -> bool
        ensures { result ≡ spec.are_different_sides self other }
    {
        match self {
            Side::Ours => matches!(other, Side::Theirs),
            Side::Theirs => matches!(other, Side::Ours),
        }
    }
}

/// Returns the side that counts, or none if they conflict. A side that is equal to the base has changed nothing, so the other side counts.
/// If both sides changed the part and are equal, ours counts.
pub fn choose(theirs_is_base: bool, ours_is_base: bool, sides_are_equal: bool) -> Option<Side>
    ensures { result ≡ spec.counting_side theirs_is_base ours_is_base sides_are_equal }
{
    if theirs_is_base {
        return Some(Side::Ours);
    }
    if ours_is_base {
        return Some(Side::Theirs);
    }
    if sides_are_equal {
        return Some(Side::Ours);
    }
    None
}

// Returns whether two fields have equal values, or both are absent.
fn are_equal_fields(
    alloc: Global,
    one: Option<&Pair<'_>>,
    other: Option<&Pair<'_>>,
) -> Result<bool, AllocError>
    ensures { IfOk result (λ equal. equal ≡ spec.are_equal_fields (lent_field one.entry) (lent_field other.entry)) }
{
    match one {
        Some(one) => match other {
            Some(other) => are_equal_pieces(alloc, &one.value.v, &other.value.v),
            None => Ok(false),
        },
        None => Ok(other.is_none()),
    }
}

impl<'a, 's> Versions<'a, 's> {
    // Returns the side that counts for the field with a name, or none if they conflict.
    pub(crate) fn choice(&self, alloc: Global, name: &str) -> Result<Option<Side>, AllocError>
        requires { AreIndexed self.now }
        ensures { IfOk result (λ side. side ≡ spec.choice (versions_reading self.now) name.now) }
    {
        let base = self.base_field(alloc, name)?;
        let ours = self.ours.field(alloc, name)?;
        let theirs = self.theirs.field(alloc, name)?;
        let changed = choose(
            are_equal_fields(alloc, theirs, base)?,
            are_equal_fields(alloc, ours, base)?,
            are_equal_fields(alloc, theirs, ours)?,
        );
        Ok(changed.or(time_choice(name, ours, theirs)))
    }

    // Returns whether a side other than `main` counts for the field with a name, if a conflict is resolved to `prefer`.
    pub(crate) fn takes_other(
        &self,
        alloc: Global,
        main: Side,
        prefer: Side,
        name: &str,
    ) -> Result<bool, AllocError>
        requires { AreIndexed self.now }
        ensures { IfOk result (λ takes. takes ≡ spec.takes_other (versions_reading self.now) main prefer name.now) }
    {
        let side = self.choice(alloc, name)?.unwrap_or(prefer);
        Ok(main.is_different(side))
    }

    // Appends the name of a field, if it conflicts.
    fn push_conflict(
        &self,
        names: &mut Vec<Text>,
        alloc: Global,
        field: &Pair<'_>,
    ) -> Result<(), AllocError>
        requires { AreIndexed self.now }
        ensures { OnOk result (names.new.items ≡ names.old.items
            ++ conflicts_of (versions_reading self.now) (field_of field.now ∷ [])) }
    {
        if self.choice(alloc, field.key.v)?.is_none() {
            names.push(Text::from_str(alloc, field.key.v)?)?;
        }
        Ok(())
    }

    // Appends the name of a field that ours lacks, if it conflicts.
    fn push_other_conflict(
        &self,
        names: &mut Vec<Text>,
        alloc: Global,
        field: &Pair<'_>,
    ) -> Result<(), AllocError>
        requires { AreIndexed self.now }
        ensures { OnOk result (names.new.items ≡ names.old.items
            ++ other_conflicts_of (versions_reading self.now) (field_of field.now ∷ [])) }
    {
        if self.ours.field(alloc, field.key.v)?.is_none() {
            self.push_conflict(names, alloc, field)?;
        }
        Ok(())
    }

    // Appends the names of those of these fields that conflict.
    fn push_conflicts(
        &self,
        names: &mut Vec<Text>,
        alloc: Global,
        fields: &[Pair<'_>],
    ) -> Result<(), AllocError>
        requires { AreIndexed self.now }
        ensures { OnOk result (names.new.items ≡ names.old.items ++ conflicts_of (versions_reading self.now) (map field_of fields.now)) }
    {
        'fields: for field in fields {
            self.push_conflict(names, alloc, field)?;
        }
        Ok(())
    }

    // Appends the names of those of these fields that conflict and that ours lacks.
    fn push_other_conflicts(
        &self,
        names: &mut Vec<Text>,
        alloc: Global,
        fields: &[Pair<'_>],
    ) -> Result<(), AllocError>
        requires { AreIndexed self.now }
        ensures { OnOk result (names.new.items ≡ names.old.items
            ++ other_conflicts_of (versions_reading self.now) (map field_of fields.now)) }
    {
        'fields: for field in fields {
            self.push_other_conflict(names, alloc, field)?;
        }
        Ok(())
    }

    // Returns the names of the fields that conflict: those of ours in their order, and then those that only theirs has.
    pub(crate) fn conflicts(&self, alloc: Global) -> Result<Vec<Text>, AllocError>
        requires { AreIndexed self.now }
        ensures { IfOk result (λ names. names.items ≡ spec.conflicts (versions_reading self.now)) }
    {
        let mut names = Vec::new(alloc);
        self.push_conflicts(&mut names, alloc, &self.ours.entry.v.fields)?;
        self.push_other_conflicts(&mut names, alloc, &self.theirs.entry.v.fields)?;
        Ok(names)
    }
}
