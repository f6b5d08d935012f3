//! Gives entries new keys: one edit replaces each key, and one the value of each field with a reference that changes.

ghost use Rattle.std.specs.Prelude.{◌≡◌, ◌⊎◌, ◌<◌, ◌++◌, ◌∷◌, ℕ, List, [], IfErr, IfOk, OnOk, Some, length, map, option_map};
ghost use Rattle.std.specs.List.{AllByRecursion};
ghost use Rattle.std.specs.String.{string_bytes};
ghost use Rattle.bib_syntax.specs.Views.{entry_reading_of, field_of};
ghost use Rattle.edit_entries.specs.Documents.{CanBeKey, value_edit};
ghost use Rattle.edit_entries.specs.Edits as spec;
ghost use Rattle.edit_entries.specs.Placed.{IsPlaced};
ghost use Rattle.edit_entries.specs.References.{CanBeMade, Change, change_edit, key_change, key_renaming, reference_changes, renamed_value, renaming, value_change};
ghost use Rattle.edit_entries.specs.EditList.{edit_of};
ghost use Rattle.edit_entries.specs.NewKeys.{key_for, name_for};
ghost use Rattle.edit_entries.specs.Stretches.{AreChangesInOrder, AreEntriesPlaced, AreValuesPlaced, EndsInWhite};
ghost use Rattle.edit_entries.specs.declared.errors.EditError.TheVariants.{NotInBraces, OutOfMemory};

use crate::braces::in_braces;
use crate::editing::{Edit, edited_all};
use crate::errors::EditError;
use crate::new_keys::{Names, NewKeys};
use crate::references;
use crate::values::value_end;
use bib_syntax::raw::{Pair, RawEntry};
use bib_text::spanned::Spanned;
use std::alloc::{AllocError, Global};

// Adds the edit that gives a field a text in braces as its value.
fn push_value_edit(
    edits: &mut Vec<Edit>,
    text: &str,
    field: &Pair<'_>,
    braced: String,
) -> Result<(), AllocError>
    requires { IsPlaced text.now (field_of field.now) }
    ensures edits { OnOk result (map edit_of edits.new.items ≡ map edit_of edits.old.items
        ++ record (value_edit text.now (field_of field.now) []) { bytes = string_bytes braced } ∷ []) }
    ensures white { OnOk result ((value : List ℕ) → EndsInWhite text.now (Change.value (field_of field.now) value)) }
{
    let end = value_end(text, field);
    edits.push(Edit {
        start: field.value.span.start,
        end,
        text: braced,
    })?;
    Ok(())
}

// Adds the edit of a reference field, if its value is one literal with an element that gets a new name.
fn push_reference_edit(
    edits: &mut Vec<Edit>,
    alloc: Global,
    text: &str,
    field: &Pair<'_>,
    names: &Names<'_, '_>,
) -> Result<(), EditError>
    requires { IsPlaced text.now (field_of field.now) }
    ensures edits { OnOk result (map edit_of edits.new.items ≡
        map edit_of edits.old.items ++ map (change_edit text.now)
        (value_change (field_of field.now) (renamed_value (name_for names.now) (field_of field.now)))) }
    ensures can { OnOk result (AllByRecursion CanBeMade
        (value_change (field_of field.now) (renamed_value (name_for names.now) (field_of field.now)))) }
    ensures white { OnOk result (AllByRecursion (EndsInWhite text.now)
        (value_change (field_of field.now) (renamed_value (name_for names.now) (field_of field.now)))) }
    ensures refused { IfErr result (λ e. (e ≡ OutOfMemory) ⊎
        ((e ≡ NotInBraces) × (AllByRecursion CanBeMade
        (value_change (field_of field.now) (renamed_value (name_for names.now) (field_of field.now))) → ⊥))) }
{
    match references::renamed_value(alloc, names, field)? {
        Some(value) => {
            let braced = in_braces(alloc, &value)?;
            Ok(push_value_edit(edits, text, field, braced)?)
        }
        None => Ok(()),
    }
}

// Adds the edit of each reference field whose value is one literal with an element that gets a new name.
fn push_reference_edits(
    edits: &mut Vec<Edit>,
    alloc: Global,
    text: &str,
    fields: &[Pair<'_>],
    names: &Names<'_, '_>,
) -> Result<(), EditError>
    requires { AreValuesPlaced text.now (map field_of fields.now) }
    ensures edits { OnOk result (map edit_of edits.new.items ≡
        map edit_of edits.old.items ++ map (change_edit text.now) (reference_changes (name_for names.now) (map field_of fields.now))) }
    ensures can { OnOk result (AllByRecursion CanBeMade (reference_changes (name_for names.now) (map field_of fields.now))) }
    ensures white { OnOk result (AllByRecursion (EndsInWhite text.now) (reference_changes (name_for names.now) (map field_of fields.now))) }
    ensures refused { IfErr result (λ e. (e ≡ OutOfMemory) ⊎
        ((e ≡ NotInBraces) × (AllByRecursion CanBeMade (reference_changes (name_for names.now) (map field_of fields.now)) → ⊥))) }
{
    'fields: for field in fields {
        push_reference_edit(edits, alloc, text, field, names)?;
    }
    Ok(())
}

// Adds the edit of an entry's key, if it gets a new one.
fn push_key_edit(
    edits: &mut Vec<Edit>,
    alloc: Global,
    entry: &Spanned<RawEntry<'_>>,
    new: Option<&str>,
) -> Result<(), AllocError>
    ensures { OnOk result ((text : List ℕ) → map edit_of edits.new.items ≡
        map edit_of edits.old.items ++ map (change_edit text)
        (key_change (option_map (λ k. k.now) new.entry) (entry_reading_of entry.now))) }
{
    let Some(new) = new else {
        return Ok(());
    };
    let span = &entry.v.key.span;
    edits.push(Edit {
        start: span.start,
        end: span.end,
        text: String::from_str(alloc, new)?,
    })?;
    Ok(())
}

// Returns the edits that give entries new keys, also in the references to them in values that are one literal.
fn renaming_edits(
    alloc: Global,
    text: &str,
    entries: &[Spanned<RawEntry<'_>>],
    names: &Names<'_, '_>,
) -> Result<Vec<Edit>, EditError>
    requires placed { AreEntriesPlaced text.now (map entry_reading_of entries.now) }
    requires keys { (k : ℕ) (new : List ℕ) → k < length entries.now → key_for names.now.keys k ≡ Some new → CanBeKey new }
    ensures edits { IfOk result (λ edits. map edit_of edits.items ≡
        map (change_edit text.now) (renaming (name_for names.now) (key_for names.now.keys) 0 (map entry_reading_of entries.now))) }
    ensures can { OnOk result (AllByRecursion CanBeMade
        (renaming (name_for names.now) (key_for names.now.keys) 0 (map entry_reading_of entries.now))) }
    ensures white { OnOk result (AllByRecursion (EndsInWhite text.now)
        (renaming (name_for names.now) (key_for names.now.keys) 0 (map entry_reading_of entries.now))) }
    ensures refused { IfErr result (λ e. (e ≡ OutOfMemory) ⊎ ((e ≡ NotInBraces) ×
        (AllByRecursion CanBeMade (renaming (name_for names.now) (key_for names.now.keys) 0 (map entry_reading_of entries.now)) → ⊥))) }
{
    let mut edits = Vec::new(alloc);
    'entries: for (index, entry) in entries.iter().enumerate() {
        push_key_edit(&mut edits, alloc, entry, names.keys.at(index))?;
        push_reference_edits(&mut edits, alloc, text, &entry.v.fields, names)?;
    }
    Ok(edits)
}

// Returns the text with new keys of entries, also in the references to them in values that are one literal.
pub(crate) fn with_new_keys(
    alloc: Global,
    text: &str,
    entries: &[Spanned<RawEntry<'_>>],
    keys: NewKeys<'_>,
) -> Result<String, EditError>
    requires placed { AreEntriesPlaced text.now (map entry_reading_of entries.now) }
    requires keys { (k : ℕ) (new : List ℕ) → k < length entries.now → key_for keys k ≡ Some new → CanBeKey new }
    requires apart { AreChangesInOrder text.now 0 (key_renaming (key_for keys) (map entry_reading_of entries.now)) }
    ensures text { IfOk result (λ made. string_bytes made ≡
        spec.edited_all (map (change_edit text.now) (key_renaming (key_for keys.entry) (map entry_reading_of entries.now))) text.now) }
    ensures can { OnOk result (AllByRecursion CanBeMade (key_renaming (key_for keys.entry) (map entry_reading_of entries.now))) }
    ensures white { OnOk result (AllByRecursion (EndsInWhite text.now)
        (key_renaming (key_for keys.entry) (map entry_reading_of entries.now))) }
    ensures refused { IfErr result (λ e. (e ≡ OutOfMemory) ⊎ ((e ≡ NotInBraces) ×
        (AllByRecursion CanBeMade (key_renaming (key_for keys.entry) (map entry_reading_of entries.now)) → ⊥))) }
{
    let names = Names::new(alloc, entries, keys)?;
    let edits = renaming_edits(alloc, text, entries, &names)?;
    Ok(edited_all(alloc, text, &edits)?)
}
