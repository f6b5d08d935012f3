//! What happens to each field of the main side, whose text is edited.

ghost use Rattle.std.specs.Prelude.{◌≡◌, ◌++◌, ◌∷◌, [], IfOk, OnOk, filter, map};
ghost use Rattle.std.specs.List.{list_all};
ghost use Rattle.bib_syntax.specs.Views.{field_of};
ghost use Rattle.edit_entry_merge.specs.Choices as choices;
ghost use Rattle.edit_entry_merge.specs.Picks as spec;
ghost use Rattle.edit_entry_merge.specs.Working.{AreIndexed, count_to_last, lent_field, added_fields, pick_of, versions_reading};

use crate::choices::Side;
use crate::versions::Versions;
use bib_queries::equal_values::are_equal_pieces;
use bib_syntax::raw::Pair;
use std::alloc::{AllocError, Global};

// What happens to a field.
#[derive(Debug, Clone, Copy, PartialEq, Eq)]
pub(crate) enum Fate {
    // It is kept.
    Keep,
    // It gets the value of another field.
    Copy,
    // It is removed.
    Remove,
}

// What happens to a field, and the field whose value it gets if it gets one.
#[derive(Clone, Copy)]
pub(crate) struct Pick<'a, 's> {
    // What happens.
    pub(crate) fate: Fate,
    // The field whose value counts, or the field itself if it is removed.
    pub(crate) field: &'a Pair<'s>,
}

impl<'a, 's> Pick<'a, 's> {
    // Returns whether the field stays.
    pub(crate) fn is_staying(&self) -> bool
        ensures { result ≡ spec.is_staying (pick_of self.now) }
    {
        !matches!(self.fate, Fate::Remove)
    }
}

// A field of the other side that is added.
#[derive(Clone, Copy)]
pub(crate) struct Addition<'a, 's> {
    // The field.
    pub(crate) field: &'a Pair<'s>,
}

// Returns the pick for a field, given the field of the other side, which counts.
fn pick_instead<'a, 's>(
    alloc: Global,
    field: &'a Pair<'s>,
    found: Option<&'a Pair<'s>>,
) -> Result<Pick<'a, 's>, AllocError>
    ensures { IfOk result (λ pick. pick_of pick ≡ spec.pick_instead (field_of field.now) (lent_field found.entry)) }
{
    let Some(found) = found else {
        let fate = Fate::Remove;
        return Ok(Pick { fate, field });
    };
    if are_equal_pieces(alloc, &field.value.v, &found.value.v)? {
        let fate = Fate::Keep;
        return Ok(Pick { fate, field });
    }
    let fate = Fate::Copy;
    Ok(Pick { fate, field: found })
}

impl<'a, 's> Versions<'a, 's> {
    // Returns the pick for a field of the side `main`, if conflicts are resolved to `prefer`.
    fn pick(
        &self,
        alloc: Global,
        main: Side,
        prefer: Side,
        field: &'a Pair<'s>,
    ) -> Result<Pick<'a, 's>, AllocError>
        requires { AreIndexed self.now }
        ensures { IfOk result (λ pick. pick_of pick ≡ spec.pick (choices.takes_other (versions_reading self.now) main prefer)
            (choices.version_at (versions_reading self.now) (choices.other_side main)) (field_of field.now)) }
    {
        if !self.takes_other(alloc, main, prefer, field.key.v)? {
            let fate = Fate::Keep;
            return Ok(Pick { fate, field });
        }
        let found = self.at(main.other()).field(alloc, field.key.v)?;
        pick_instead(alloc, field, found)
    }

    // Returns the pick for each of these fields of the side `main`, if conflicts are resolved to `prefer`.
    pub(crate) fn picks(
        &self,
        alloc: Global,
        main: Side,
        prefer: Side,
        fields: &'a [Pair<'s>],
    ) -> Result<Vec<Pick<'a, 's>>, AllocError>
        requires { AreIndexed self.now }
        ensures { IfOk result (λ picks. map pick_of picks.items
            ≡ map (spec.pick (choices.takes_other (versions_reading self.now) main prefer)
            (choices.version_at (versions_reading self.now) (choices.other_side main))) (map field_of fields.now)) }
    {
        let mut picks = Vec::with_capacity(alloc, fields.len())?;
        'fields: for field in fields {
            picks.push(self.pick(alloc, main, prefer, field)?)?;
        }
        Ok(picks)
    }

    // Appends a field of the side other than `main`, if it is added.
    fn push_addition(
        &self,
        added: &mut Vec<Addition<'a, 's>>,
        alloc: Global,
        main: Side,
        prefer: Side,
        field: &'a Pair<'s>,
    ) -> Result<(), AllocError>
        requires { AreIndexed self.now }
        ensures { OnOk result (added_fields added.new.items ≡ added_fields added.old.items
            ++ filter (spec.is_added (choices.takes_other (versions_reading self.now) main prefer)
            (choices.version_at (versions_reading self.now) main)) (field_of field.now ∷ [])) }
    {
        if !self.takes_other(alloc, main, prefer, field.key.v)? {
            return Ok(());
        }
        if self.at(main).field(alloc, field.key.v)?.is_none() {
            added.push(Addition { field })?;
        }
        Ok(())
    }

    // Returns those of these fields of the side other than `main` that are added, if conflicts are resolved to `prefer`.
    pub(crate) fn additions(
        &self,
        alloc: Global,
        main: Side,
        prefer: Side,
        fields: &'a [Pair<'s>],
    ) -> Result<Vec<Addition<'a, 's>>, AllocError>
        requires { AreIndexed self.now }
        ensures { IfOk result (λ added. added_fields added.items
            ≡ filter (spec.is_added (choices.takes_other (versions_reading self.now) main prefer)
            (choices.version_at (versions_reading self.now) main)) (map field_of fields.now)) }
    {
        let mut added = Vec::new(alloc);
        'fields: for field in fields {
            self.push_addition(&mut added, alloc, main, prefer, field)?;
        }
        Ok(added)
    }
}

// Returns the number of fields up to the last one that stays, or 0 if none stays.
pub(crate) fn count_to_last(picks: &[Pick<'_, '_>]) -> usize
    ensures { result ≡ count_to_last (map pick_of picks.now) }
{
    let mut count = 0usize;
    'picks: for (index, pick) in picks.iter().enumerate() {
        if pick.is_staying() {
            count = index + 1;
        }
    }
    count
}

// Returns whether each field stays.
pub(crate) fn are_staying(picks: &[Pick<'_, '_>]) -> bool
    ensures { result ≡ list_all spec.is_staying (map pick_of picks.now) }
{
    'picks: for pick in picks {
        if !pick.is_staying() {
            return false;
        }
    }
    true
}
