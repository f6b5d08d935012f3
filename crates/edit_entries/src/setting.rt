//! Sets a field of an entry.

ghost use Rattle.std.specs.Prelude.{◌≡◌, ◌⊎◌, ◌++◌, ℕ, IfErr, IfOk, List, MatchBool, OnOk, codes, map, true};
ghost use Rattle.std.specs.List.{AllByRecursion, list_any};
ghost use Rattle.std.specs.String.{string_bytes};
ghost use Rattle.bib_syntax.specs.Reading.{FieldReading};
ghost use Rattle.bib_syntax.specs.Views.{entry_reading_of, field_of};
ghost use Rattle.edit_entries.specs.Changes.{edits_of_entry, edits_of_field, edits_of_fields, field_before, name_edit};
ghost use Rattle.edit_entries.specs.Documents as documents;
ghost use Rattle.edit_entries.specs.EditList.{edit_of};
ghost use Rattle.edit_entries.specs.Edits as edits;
ghost use Rattle.edit_entries.specs.Placed.{HasComma, IsNamePlaced, IsPlaced, IsSignPlaced};
ghost use Rattle.edit_entries.specs.Layouts as layouts;
ghost use Rattle.edit_entries.specs.SetTexts.{AddIsRefused, CanBeSetIn, IsSetText, SetTextIsRefused};
ghost use Rattle.edit_entries.specs.Setting as spec;
ghost use Rattle.edit_entries.specs.Setting.{CanBeNewName, IsAfterComma, IsWritableAt, unfit_error, value_of};
ghost use Rattle.edit_entries.specs.declared.errors.EditError.TheVariants.{OutOfMemory};

use crate::adding::{after_comma, only_field_text};
use crate::editing::{Edit, edited, edited_all};
use crate::errors::EditError;
use crate::field_value::{FieldValue, is_same_value, value_text};
use crate::layout::{new_sign, text_before, white_before};
use crate::names::can_be_new_name;
use crate::values::value_end;
use bib_syntax::raw::{Pair, RawEntry, is_word};
use bib_text::spanned::Spanned;
use std::alloc::{AllocError, Global};

// Returns whether a field has a name, in any ASCII case, and another value than this one.
fn has_other_value(field: &Pair<'_>, name: &str, value: FieldValue<'_>) -> bool
    ensures { result ≡ spec.has_other_value name.now (value_of value.entry) (field_of field.now) }
{
    is_word(field.key.v, name) && !is_same_value(&field.value.v, value)
}

// Returns whether one of these fields has a name, in any ASCII case.
pub(crate) fn has_field(fields: &[Pair<'_>], name: &str) -> bool
    ensures { result ≡ list_any (documents.has_name name.now) (map field_of fields.now) }
{
    'fields: for field in fields {
        if is_word(field.key.v, name) {
            return true;
        }
    }
    false
}

// Returns whether one of these fields has a name, in any ASCII case, and another value than this one.
fn has_field_to_set(fields: &[Pair<'_>], name: &str, value: FieldValue<'_>) -> bool
    ensures { result ≡ list_any (spec.has_other_value name.now (value_of value.entry)) (map field_of fields.now) }
{
    'fields: for field in fields {
        if has_other_value(field, name, value) {
            return true;
        }
    }
    false
}

// Adds the edit that gives `field` a value, if it has `name` and another value. `written` is the new value as it is written.
fn push_new_value(
    edits: &mut Vec<Edit>,
    alloc: Global,
    text: &str,
    field: &Pair<'_>,
    name: &str,
    value: FieldValue<'_>,
    written: &str,
) -> Result<(), AllocError>
    requires placed { IsPlaced text.now (field_of field.now) }
    requires written { written.now ≡ (spec.new_value (value_of value)).bytes }
    ensures { OnOk result ((following : List FieldReading) → map edit_of edits.new.items ≡ map edit_of edits.old.items ++
        edits_of_field text.now (field_of field.now) following (spec.set_change name.now (value_of value.entry) (field_of field.now))) }
{
    if !has_other_value(field, name, value) {
        return Ok(());
    }
    edits.push(Edit {
        start: field.value.span.start,
        end: value_end(text, field),
        text: String::from_str(alloc, written)?,
    })?;
    Ok(())
}

// Adds the edits that give a value to each field with `name` and another value. `written` is the new value as it is written.
pub(crate) fn push_values(
    edits: &mut Vec<Edit>,
    alloc: Global,
    text: &str,
    fields: &[Pair<'_>],
    name: &str,
    value: FieldValue<'_>,
    written: &str,
) -> Result<(), AllocError>
    requires placed { AllByRecursion (IsPlaced text.now) (map field_of fields.now) }
    requires written { written.now ≡ (spec.new_value (value_of value)).bytes }
    ensures { OnOk result (map edit_of edits.new.items ≡ map edit_of edits.old.items ++
        edits_of_fields text.now (map field_of fields.now)
        (map (spec.set_change name.now (value_of value.entry)) (map field_of fields.now))) }
{
    'fields: for field in fields {
        push_new_value(edits, alloc, text, field, name, value, written)?;
    }
    Ok(())
}

// Returns the text in which each field of `entry` with `name` has the value. The text is the same if they all have this value already.
fn with_values(
    alloc: Global,
    definitions: &[Pair<'_>],
    text: &str,
    entry: &Spanned<RawEntry<'_>>,
    name: &str,
    value: FieldValue<'_>,
) -> Result<String, EditError>
    requires { CanBeSetIn text.now (entry_reading_of entry.now) name.now (value_of value) }
    ensures text { IfOk result (λ new. string_bytes new ≡ edits.edited_all
        (edits_of_entry text.now (entry_reading_of entry.now)
        (spec.values_set name.now (value_of value.entry) (entry_reading_of entry.now))) text.now) }
    ensures can { OnOk result (list_any (spec.has_other_value name.now (value_of value.entry)) (entry_reading_of entry.now).fields ≡ true →
        IsWritableAt (map field_of definitions.now) (entry_reading_of entry.now).start (value_of value.entry)) }
    ensures refused { IfErr result (λ e. (e ≡ OutOfMemory) ⊎ ((e ≡ unfit_error (value_of value.entry))
        × (IsWritableAt (map field_of definitions.now) (entry_reading_of entry.now).start (value_of value.entry) → ⊥)
        × (list_any (spec.has_other_value name.now (value_of value.entry)) (entry_reading_of entry.now).fields ≡ true))) }
{
    let fields = entry.v.fields.as_slice();
    if !has_field_to_set(fields, name, value) {
        return Ok(String::from_str(alloc, text)?);
    }
    let written = value_text(alloc, definitions, entry.span.start, value)?;
    let mut edits = Vec::new(alloc);
    push_values(&mut edits, alloc, text, fields, name, value, &written)?;
    Ok(edited_all(alloc, text, &edits)?)
}

// Returns the value of a new field as it is written at a byte offset.
pub(crate) fn new_value(
    alloc: Global,
    definitions: &[Pair<'_>],
    at: usize,
    name: &str,
    value: FieldValue<'_>,
) -> Result<String, EditError>
    ensures found { IfOk result (λ written. string_bytes written ≡ (spec.new_value (value_of value.entry)).bytes) }
    ensures name { OnOk result (CanBeNewName name.now) }
    ensures value { OnOk result (IsWritableAt (map field_of definitions.now) at (value_of value.entry)) }
    ensures refused { IfErr result (AddIsRefused (map field_of definitions.now) at name.now (value_of value.entry)) }
{
    if !can_be_new_name(name) {
        return Err(EditError::NotAName);
    }
    value_text(alloc, definitions, at, value)
}

// Returns the text with a new field before these fields, of which `first` is the first. `written` is its value as it is written.
fn with_field_before(
    alloc: Global,
    text: &str,
    first: &Pair<'_>,
    fields: &[Pair<'_>],
    name: &str,
    value: FieldValue<'_>,
    written: &str,
) -> Result<String, AllocError>
    requires placed { IsNamePlaced text.now (field_of first.now) }
    requires sign { IsSignPlaced text.now (field_of first.now) }
    requires signs { AllByRecursion (IsSignPlaced text.now) (map field_of fields.now) }
    requires written { written.now ≡ (spec.new_value (value_of value)).bytes }
    ensures { IfOk result (λ new. string_bytes new ≡ edits.edited (name_edit (field_of first.now)
        (field_before (spec.field_with_value name.now (value_of value.entry))
        (layouts.new_sign text.now name.now (field_of first.now) (map field_of fields.now))
        (spec.white_before text.now (field_of first.now).name.start))) text.now) }
{
    let start = first.key.span.start;
    let white = white_before(text, start);
    let sign = new_sign(alloc, text, name, first, fields)?;
    let bytes = text_before(alloc, name, &sign, written, white, first.key.v)?;
    edited(alloc, text, start, first.key.span.end, &bytes)
}

// Returns the text with a field in an entry without fields. `written` is its value as it is written.
fn with_only_field(
    alloc: Global,
    text: &str,
    entry: &Spanned<RawEntry<'_>>,
    name: &str,
    value: FieldValue<'_>,
    written: &str,
) -> Result<String, AllocError>
    requires comma { HasComma text.now (entry_reading_of entry.now) }
    requires written { written.now ≡ (spec.new_value (value_of value)).bytes }
    ensures { IfOk result (λ new. (at : ℕ) × IsAfterComma text.now (entry_reading_of entry.now) at × (string_bytes new ≡
        edits.edited (record { start = at; end = at; bytes = spec.only_field_text name.now (value_of value.entry) }) text.now)) }
{
    let field = only_field_text(alloc, name, written)?;
    let at = after_comma(text, entry);
    edited(alloc, text, at, at, &field)
}

// Returns the text with a field of an entry set. `definitions` are those of the document.
pub(crate) fn with_field_set(
    alloc: Global,
    definitions: &[Pair<'_>],
    text: &str,
    entry: &Spanned<RawEntry<'_>>,
    name: &str,
    value: FieldValue<'_>,
) -> Result<String, EditError>
    requires { CanBeSetIn text.now (entry_reading_of entry.now) name.now (value_of value) }
    ensures set { IfOk result (λ new. IsSetText (map field_of definitions.now) text.now (entry_reading_of entry.now) name.now
        (value_of value.entry) (string_bytes new)) }
    ensures refused { IfErr result (SetTextIsRefused (map field_of definitions.now) (entry_reading_of entry.now) name.now
        (value_of value.entry)) }
{
    let fields = entry.v.fields.as_slice();
    if has_field(fields, name) {
        return with_values(alloc, definitions, text, entry, name, value);
    }
    let written = new_value(alloc, definitions, entry.span.start, name, value)?;
    match fields {
        [first, ..] => Ok(with_field_before(alloc, text, first, fields, name, value, &written)?),
        [] => Ok(with_only_field(alloc, text, entry, name, value, &written)?),
    }
}
