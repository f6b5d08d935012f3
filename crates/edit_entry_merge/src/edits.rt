//! The edits of the main side's entry, and its new text.

ghost use Rattle.std.specs.Prelude.{◌≡◌, ◌++◌, ◌∷◌, ◌<◌, IfOk, List, OnOk, length, map, option_map, true};
ghost use Rattle.std.specs.List.{AllByRecursion, list_any};
ghost use Rattle.std.specs.String.{string_bytes};
ghost use Rattle.bib_syntax.specs.Reading.{FieldReading};
ghost use Rattle.bib_syntax.specs.Views.{field_of};
ghost use Rattle.edit_entries.specs.Changes.{edits_of_field, edits_of_fields};
ghost use Rattle.edit_entries.specs.EditList.{edit_of};
ghost use Rattle.edit_entries.specs.Placed.{IsPlaced, IsSignPlaced};
ghost use Rattle.edit_entry_merge.specs.Merges as merges;
ghost use Rattle.edit_entry_merge.specs.Mixed as spec;
ghost use Rattle.edit_entry_merge.specs.Picks.{is_staying};
ghost use Rattle.edit_entry_merge.specs.Working.{AreEditable, AreIndexed, IsPickPlaced, added_fields, pick_of, version_reading, versions_reading};

use crate::choices::Side;
use crate::closing::{Texts, push_closing};
use crate::picks::{Addition, Fate, Pick, are_staying, count_to_last};
use crate::values::value_text;
use crate::versions::{Version, Versions};
use bib_syntax::raw::Pair;
use edit_entries::editing::{Edit, edited_all, push_removal};
use edit_entries::values::value_end;
use std::alloc::{AllocError, Global};

// Adds the edit of a field by its pick, if it has one. `following` are the fields after it.
fn push_own(
    edits: &mut Vec<Edit>,
    alloc: Global,
    texts: Texts<'_, '_>,
    field: &Pair<'_>,
    following: &[Pair<'_>],
    pick: Pick<'_, '_>,
) -> Result<(), AllocError>
    requires field { IsPlaced texts.main.now (field_of field.now) }
    requires pick { IsPickPlaced texts.other.now (pick_of pick) }
    ensures { OnOk result (map edit_of edits.new.items ≡ map edit_of edits.old.items
        ++ edits_of_field texts.entry.main.now (field_of field.now) (map field_of following.now)
        (spec.picked_change texts.entry.other.now (pick_of pick.entry))) }
{
    match pick.fate {
        Fate::Keep => Ok(()),
        Fate::Copy => {
            edits.push(Edit {
                start: field.value.span.start,
                end: value_end(texts.main, field),
                text: String::from_str(alloc, value_text(texts.other, pick.field))?,
            })?;
            Ok(())
        }
        Fate::Remove => push_removal(edits, alloc, field, following),
    }
}

// Adds the edits of the last field that stays and of the fields after it. `fields` begin with the field that stays.
fn push_last(
    edits: &mut Vec<Edit>,
    alloc: Global,
    texts: Texts<'_, '_>,
    fields: &[Pair<'_>],
    pick: Pick<'_, '_>,
    added: &[Addition<'_, '_>],
) -> Result<(), AllocError>
    requires some { 0 < length fields.now }
    requires fields { AreEditable texts.main.now (map field_of fields.now) }
    requires signs { AllByRecursion (IsSignPlaced texts.main.now) (map field_of texts.fields.now) }
    requires pick { IsPickPlaced texts.other.now (pick_of pick) }
    requires added { AllByRecursion (IsPlaced texts.other.now) (added_fields added.now) }
    ensures { OnOk result ((f : FieldReading) (following : List FieldReading) → map field_of fields.now ≡ f ∷ following →
        map edit_of edits.new.items ≡ map edit_of edits.old.items ++ edits_of_fields texts.entry.main.now (f ∷ following)
        (spec.last_changes texts.entry.main.now texts.entry.other.now (map field_of texts.entry.fields.now) f (pick_of pick.entry)
        following (added_fields added.now))) }
{
    if fields.len() == 1 && added.is_empty() {
        return push_own(edits, alloc, texts, &fields[0], &[], pick);
    }
    push_closing(edits, alloc, texts, fields, pick, added)
}

// Returns the edits of the fields of the main side's entry, one of which stays.
fn entry_edits(
    alloc: Global,
    texts: Texts<'_, '_>,
    picks: &[Pick<'_, '_>],
    added: &[Addition<'_, '_>],
) -> Result<Vec<Edit>, AllocError>
    requires stays { list_any is_staying (map pick_of picks.now) ≡ true }
    requires count { length picks.now ≡ length texts.fields.now }
    requires fields { AreEditable texts.main.now (map field_of texts.fields.now) }
    requires picks { AllByRecursion (IsPickPlaced texts.other.now) (map pick_of picks.now) }
    requires added { AllByRecursion (IsPlaced texts.other.now) (added_fields added.now) }
    ensures { IfOk result (λ edits. map edit_of edits.items ≡ edits_of_fields texts.entry.main.now (map field_of texts.entry.fields.now)
        (spec.mixed_field_changes texts.entry.main.now texts.entry.other.now (map field_of texts.entry.fields.now) (added_fields added.now)
        (map pick_of picks.now) (map field_of texts.entry.fields.now))) }
{
    let mut edits = Vec::new(alloc);
    let last = count_to_last(picks) - 1;
    let fields = texts.fields;
    'fields: for index in 0..last {
        let following = &fields[index + 1..];
        push_own(
            &mut edits,
            alloc,
            texts,
            &fields[index],
            following,
            picks[index],
        )?;
    }
    push_last(
        &mut edits,
        alloc,
        texts,
        &fields[last..],
        picks[last],
        added,
    )?;
    Ok(edits)
}

// Returns whether fields with these picks can be written with these added ones: a field stays, and no comment is between the fields unless
// only values change.
fn can_write(
    alloc: Global,
    main: &Version<'_, '_>,
    picks: &[Pick<'_, '_>],
    added: &[Addition<'_, '_>],
) -> Result<bool, AllocError>
    ensures { IfOk result (λ can. can ≡ spec.can_write (version_reading main.now) (map pick_of picks.now) (added_fields added.now)) }
{
    if count_to_last(picks) == 0 {
        return Ok(false);
    }
    if are_staying(picks) && added.is_empty() {
        return Ok(true);
    }
    Ok(!main.has_inner_comment(alloc)?)
}

impl<'a, 's> Versions<'a, 's> {
    // Returns the text of the side `main` with the fields that count, if conflicts are resolved to `prefer` and the text can be written.
    pub(crate) fn text_for(
        &self,
        alloc: Global,
        main: Side,
        prefer: Side,
    ) -> Result<Option<String>, AllocError>
        requires { AreIndexed self.now }
        ensures { IfOk result (λ text. option_map string_bytes text ≡ merges.text_for (versions_reading self.now) main prefer) }
    {
        let version = self.at(main);
        let other = self.at(main.other());
        let fields = version.entry.v.fields.as_slice();
        let picks = self.picks(alloc, main, prefer, fields)?;
        let added = self.additions(alloc, main, prefer, &other.entry.v.fields)?;
        if !can_write(alloc, version, &picks, &added)? {
            return Ok(None);
        }
        let texts = Texts {
            main: version.text,
            fields,
            other: other.text,
        };
        let edits = entry_edits(alloc, texts, &picks, &added)?;
        Ok(Some(edited_all(alloc, version.text, &edits)?))
    }
}
