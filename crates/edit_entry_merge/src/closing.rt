//! The last field that stays, with the added fields after it.

ghost use Rattle.std.specs.Prelude.{◌≡◌, ◌++◌, ◌∷◌, ◌<◌, IfOk, List, OnOk, length, map};
ghost use Rattle.std.specs.List.{AllByRecursion};
ghost use Rattle.std.specs.String.{string_bytes};
ghost use Rattle.bib_syntax.specs.Reading.{FieldReading};
ghost use Rattle.bib_syntax.specs.Views.{field_of};
ghost use Rattle.edit_entries.specs.Changes.{edits_of_fields, field_text_by, more_field_texts};
ghost use Rattle.edit_entries.specs.EditList.{edit_of};
ghost use Rattle.edit_entries.specs.Placed.{IsNamePlaced, IsPlaced, IsSignPlaced};
ghost use Rattle.edit_entries.specs.Setting as setting;
ghost use Rattle.edit_entry_merge.specs.Mixed as spec;
ghost use Rattle.edit_entry_merge.specs.Working.{AreEditable, IsPickPlaced, all_removed, added_fields, pick_of};

use crate::picks::{Addition, Fate, Pick};
use crate::values::{sign_for, value_text};
use bib_syntax::raw::Pair;
use edit_entries::editing::{Edit, push_removal};
use edit_entries::layout::white_before;
use edit_entries::values::value_end;
use std::alloc::{AllocError, Global};

// The text of the main side and all fields of its entry, and the text of the other side.
#[derive(Clone, Copy)]
pub(crate) struct Texts<'t, 's> {
    // The text of the main side.
    pub(crate) main: &'t str,
    // The fields of its entry.
    pub(crate) fields: &'t [Pair<'s>],
    // The text of the other side.
    pub(crate) other: &'t str,
}

// Appends a field with this name and this value, in the layout of `field`.
fn push_field(
    new: &mut String,
    alloc: Global,
    texts: Texts<'_, '_>,
    field: &Pair<'_>,
    name: &str,
    value: &str,
) -> Result<(), AllocError>
    requires sign { IsSignPlaced texts.main.now (field_of field.now) }
    requires signs { AllByRecursion (IsSignPlaced texts.main.now) (map field_of texts.fields.now) }
    ensures { OnOk result (string_bytes new.new ≡ string_bytes new.old
        ++ (name.now ++ (spec.sign_for texts.entry.main.now (field_of field.now) (map field_of texts.entry.fields.now) name.now
        ++ value.now))) }
{
    let sign = sign_for(alloc, texts.main, field, texts.fields, name)?;
    new.push_str(name)?;
    new.push_str(&sign)?;
    new.push_str(value)
}

// Returns the value of a field as it is written: its own, or that of the copied field.
fn picked_value<'t>(texts: Texts<'t, '_>, field: &Pair<'_>, pick: Pick<'_, '_>) -> &'t str
    requires field { IsPlaced texts.main.now (field_of field.now) }
    requires pick { IsPickPlaced texts.other.now (pick_of pick) }
    ensures { result.now ≡
        (spec.field_written texts.entry.main.now texts.entry.other.now (field_of field.now) (pick_of pick.entry)).value.bytes }
{
    match pick.fate {
        Fate::Copy => value_text(texts.other, pick.field),
        Fate::Keep | Fate::Remove => value_text(texts.main, field),
    }
}

// Returns the text of a field with the added fields after it.
fn closing_text(
    alloc: Global,
    texts: Texts<'_, '_>,
    field: &Pair<'_>,
    pick: Pick<'_, '_>,
    added: &[Addition<'_, '_>],
) -> Result<String, AllocError>
    requires value { IsPlaced texts.main.now (field_of field.now) }
    requires sign { IsSignPlaced texts.main.now (field_of field.now) }
    requires name { IsNamePlaced texts.main.now (field_of field.now) }
    requires signs { AllByRecursion (IsSignPlaced texts.main.now) (map field_of texts.fields.now) }
    requires pick { IsPickPlaced texts.other.now (pick_of pick) }
    requires added { AllByRecursion (IsPlaced texts.other.now) (added_fields added.now) }
    ensures { IfOk result (λ new. string_bytes new ≡
        field_text_by (spec.sign_for texts.entry.main.now (field_of field.now) (map field_of texts.entry.fields.now))
        (spec.field_written texts.entry.main.now texts.entry.other.now (field_of field.now) (pick_of pick.entry))
        ++ more_field_texts (spec.sign_for texts.entry.main.now (field_of field.now) (map field_of texts.entry.fields.now))
        (setting.white_before texts.entry.main.now (field_of field.now).name.start)
        (map (spec.copied_field texts.entry.other.now) (added_fields added.now))) }
{
    let white = white_before(texts.main, field.key.span.start);
    let mut new = String::new(alloc);
    push_field(
        &mut new,
        alloc,
        texts,
        field,
        field.key.v,
        picked_value(texts, field, pick),
    )?;
    'added: for addition in added {
        let found = addition.field;
        new.push_str(",")?;
        new.push_str(white)?;
        push_field(
            &mut new,
            alloc,
            texts,
            field,
            found.key.v,
            value_text(texts.other, found),
        )?;
    }
    Ok(new)
}

// Adds the edits that remove each of these fields up to the next one. The last one has no edit.
fn push_removals(
    edits: &mut Vec<Edit>,
    alloc: Global,
    fields: &[Pair<'_>],
) -> Result<(), AllocError>
    ensures { (text : _) → OnOk result (map edit_of edits.new.items ≡ map edit_of edits.old.items
        ++ edits_of_fields text (map field_of fields.now) (all_removed (map field_of fields.now))) }
{
    'fields: for (index, field) in fields.iter().enumerate() {
        push_removal(edits, alloc, field, &fields[index + 1..])?;
    }
    Ok(())
}

// Adds the edits of the last field that stays and of the fields after it, which are removed. `fields` begin with the field that stays.
pub(crate) fn push_closing(
    edits: &mut Vec<Edit>,
    alloc: Global,
    texts: Texts<'_, '_>,
    fields: &[Pair<'_>],
    pick: Pick<'_, '_>,
    added: &[Addition<'_, '_>],
) -> Result<(), AllocError>
    requires some { 0 < length fields.now }
    requires fields { AreEditable texts.main.now (map field_of fields.now) }
    requires signs { AllByRecursion (IsSignPlaced texts.main.now) (map field_of texts.fields.now) }
    requires pick { IsPickPlaced texts.other.now (pick_of pick) }
    requires added { AllByRecursion (IsPlaced texts.other.now) (added_fields added.now) }
    ensures { OnOk result ((f : FieldReading) (following : List FieldReading) → map field_of fields.now ≡ f ∷ following →
        map edit_of edits.new.items ≡ map edit_of edits.old.items ++ edits_of_fields texts.entry.main.now (f ∷ following)
        (spec.closing_changes texts.entry.main.now texts.entry.other.now (map field_of texts.entry.fields.now) f (pick_of pick.entry)
        following (added_fields added.now))) }
{
    push_removals(edits, alloc, fields)?;
    let last = &fields[fields.len() - 1];
    edits.push(Edit {
        start: last.key.span.start,
        end: value_end(texts.main, last),
        text: closing_text(alloc, texts, &fields[0], pick, added)?,
    })?;
    Ok(())
}
