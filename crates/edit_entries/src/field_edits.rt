//! Edits of a field of several entries at once.

ghost use Rattle.std.specs.Prelude.{◌≡◌, ◌++◌, ℕ, List, IfErr, IfOk, OnOk, length, map};
ghost use Rattle.std.specs.List.{AllByRecursion};
ghost use Rattle.std.specs.String.{string_bytes};
ghost use Rattle.bib_queries.specs.Sets.{is_in_set};
ghost use Rattle.bib_syntax.specs.Views.{entry_reading_of, field_of};
ghost use Rattle.edit_entries.specs.Changes.{edits_of_entries, edits_of_entry, edits_of_fields};
ghost use Rattle.edit_entries.specs.EditList.{edit_of};
ghost use Rattle.edit_entries.specs.FieldEdits as spec;
ghost use Rattle.edit_entries.specs.FieldEdits.{HasFitValue, edit_name, entry_edited_by, name_change, new_field_first, selected_edited};
ghost use Rattle.edit_entries.specs.FieldTexts.{EditTextIsRefused, HaveFieldsPlaced, IsValueText};
ghost use Rattle.edit_entries.specs.Placed.{IsNamePlaced, IsPlaced, IsSignPlaced};
ghost use Rattle.edit_entries.specs.Setting as setting;
ghost use Rattle.edit_entries.specs.Setting.{CanBeNewName, value_of};

use crate::editing::Edit;
use crate::errors::EditError;
use crate::field_value::FieldValue;
use crate::layout::{new_sign, text_before, white_before};
use crate::names::can_be_new_name;
use crate::setting::{has_field, new_value, push_values};
use bib_syntax::raw::{Pair, RawEntry, is_word};
use bib_text::spanned::Spanned;
use std::alloc::{AllocError, Global};
use std::collections::BTreeSet;

/// An edit of a field of several entries at once. Names match in any ASCII case.
#[derive(Debug, Clone, Copy)]
pub enum FieldEdit<'a> {
    /// Each field with the name gets the value. An entry with fields, but none with the name, gets a new one.
    Set {
        /// The name of the field.
        name: &'a str,
        /// The value.
        value: FieldValue<'a>,
    },
    /// An entry with fields, but none with the name, gets a new one.
    Add {
        /// The name of the field.
        name: &'a str,
        /// The value.
        value: FieldValue<'a>,
    },
    /// Each field with the old name gets the new one, unless the entry has a field with the new name already.
    Rename {
        /// The old name.
        old: &'a str,
        /// The new name.
        new: &'a str,
    },
}

// Returns the value of an edit as it is written at a byte offset, or an empty text if the edit has none. Fails if the name that fields
// get can't be the name of a new field, or if the value can't be written there.
pub(crate) fn edit_text(
    alloc: Global,
    definitions: &[Pair<'_>],
    at: usize,
    edit: &FieldEdit<'_>,
) -> Result<String, EditError>
    ensures text { IfOk result (λ written. IsValueText edit.now (string_bytes written)) }
    ensures name { OnOk result (CanBeNewName (edit_name edit.now)) }
    ensures value { OnOk result (HasFitValue (map field_of definitions.now) at edit.now) }
    ensures refused { IfErr result (EditTextIsRefused (map field_of definitions.now) at edit.now) }
{
    match *edit {
        FieldEdit::Set { name, value } | FieldEdit::Add { name, value } => new_value(
            alloc,
            definitions,
            at,
            name,
            value,
        ),
        FieldEdit::Rename { new, .. } => {
            if !can_be_new_name(new) {
                return Err(EditError::NotAName);
            }
            Ok(String::new(alloc))
        }
    }
}

// Returns the byte offset at which the first entry with one of these keys begins, or the length of the text.
pub(crate) fn first_start(
    text: &str,
    entries: &[Spanned<RawEntry<'_>>],
    keys: &BTreeSet<&str>,
) -> usize
    ensures { result ≡ spec.first_start (is_in_set keys.now) (length text.now) (map entry_reading_of entries.now) }
{
    'entries: for entry in entries {
        if keys.contains(entry.v.key.v) {
            return entry.span.start;
        }
    }
    text.len()
}

// Adds the edit that puts a new field before the first of these fields, if there is one. `written` is its value as it is written.
fn push_field_first(
    edits: &mut Vec<Edit>,
    alloc: Global,
    text: &str,
    fields: &[Pair<'_>],
    name: &str,
    value: FieldValue<'_>,
    written: &str,
) -> Result<(), AllocError>
    requires placed { AllByRecursion (IsNamePlaced text.now) (map field_of fields.now) }
    requires signs { AllByRecursion (IsSignPlaced text.now) (map field_of fields.now) }
    requires written { written.now ≡ (setting.new_value (value_of value)).bytes }
    ensures { OnOk result (map edit_of edits.new.items ≡ map edit_of edits.old.items ++
        edits_of_fields text.now (map field_of fields.now)
        (new_field_first text.now name.now (value_of value.entry) (map field_of fields.now)).fields) }
{
    let [first, ..] = fields else {
        return Ok(());
    };
    let start = first.key.span.start;
    let white = white_before(text, start);
    let sign = new_sign(alloc, text, name, first, fields)?;
    edits.push(Edit {
        start,
        end: first.key.span.end,
        text: text_before(alloc, name, &sign, written, white, first.key.v)?,
    })?;
    Ok(())
}

// Adds the edits of the fields that get a new name, since they have the old one.
fn push_names(
    edits: &mut Vec<Edit>,
    alloc: Global,
    fields: &[Pair<'_>],
    old: &str,
    new: &str,
) -> Result<(), AllocError>
    ensures { (text : List ℕ) → OnOk result (map edit_of edits.new.items ≡ map edit_of edits.old.items ++
        edits_of_fields text (map field_of fields.now) (map (name_change old.now new.now) (map field_of fields.now))) }
{
    'fields: for field in fields {
        if is_word(field.key.v, old) {
            edits.push(Edit {
                start: field.key.span.start,
                end: field.key.span.end,
                text: String::from_str(alloc, new)?,
            })?;
        }
    }
    Ok(())
}

// Adds the edits of an entry. `written` is the value of the edit as it is written.
fn push_entry_edits(
    edits: &mut Vec<Edit>,
    alloc: Global,
    text: &str,
    entry: &Spanned<RawEntry<'_>>,
    edit: &FieldEdit<'_>,
    written: &str,
) -> Result<(), AllocError>
    requires placed { HaveFieldsPlaced text.now (entry_reading_of entry.now) }
    requires written { IsValueText edit.now written.now }
    ensures { OnOk result (map edit_of edits.new.items ≡ map edit_of edits.old.items ++
        edits_of_entry text.now (entry_reading_of entry.now) (entry_edited_by text.now edit.now (entry_reading_of entry.now))) }
{
    let fields = entry.v.fields.as_slice();
    match *edit {
        FieldEdit::Set { name, value } => {
            if has_field(fields, name) {
                return push_values(edits, alloc, text, fields, name, value, written);
            }
            push_field_first(edits, alloc, text, fields, name, value, written)
        }
        FieldEdit::Add { name, value } => {
            if has_field(fields, name) {
                return Ok(());
            }
            push_field_first(edits, alloc, text, fields, name, value, written)
        }
        FieldEdit::Rename { old, new } => {
            if has_field(fields, new) {
                return Ok(());
            }
            push_names(edits, alloc, fields, old, new)
        }
    }
}

// Adds the edits of an entry, if its key is one of these.
fn push_selected_edits(
    edits: &mut Vec<Edit>,
    alloc: Global,
    text: &str,
    entry: &Spanned<RawEntry<'_>>,
    keys: &BTreeSet<&str>,
    edit: &FieldEdit<'_>,
    written: &str,
) -> Result<(), AllocError>
    requires placed { HaveFieldsPlaced text.now (entry_reading_of entry.now) }
    requires written { IsValueText edit.now written.now }
    ensures { OnOk result (map edit_of edits.new.items ≡ map edit_of edits.old.items ++
        edits_of_entry text.now (entry_reading_of entry.now) (selected_edited text.now keys.now edit.now (entry_reading_of entry.now))) }
{
    if !keys.contains(entry.v.key.v) {
        return Ok(());
    }
    push_entry_edits(edits, alloc, text, entry, edit, written)
}

// Returns the edits of the entries with these keys.
pub(crate) fn field_edits(
    alloc: Global,
    text: &str,
    entries: &[Spanned<RawEntry<'_>>],
    keys: &BTreeSet<&str>,
    edit: &FieldEdit<'_>,
    written: &str,
) -> Result<Vec<Edit>, AllocError>
    requires placed { AllByRecursion (HaveFieldsPlaced text.now) (map entry_reading_of entries.now) }
    requires written { IsValueText edit.now written.now }
    ensures { IfOk result (λ edits. map edit_of edits.items ≡
        edits_of_entries (selected_edited text.now keys.now edit.now) text.now (map entry_reading_of entries.now)) }
{
    let mut edits = Vec::new(alloc);
    'entries: for entry in entries {
        push_selected_edits(&mut edits, alloc, text, entry, keys, edit, written)?;
    }
    Ok(edits)
}
