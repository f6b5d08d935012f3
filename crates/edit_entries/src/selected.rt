//! Edits of the entries with some keys: a field of each is unset, or each is removed.

ghost use Rattle.std.specs.Prelude.{◌≡◌, ◌++◌, [], ◌∷◌, List, IfOk, OnOk, filter, map};
ghost use Rattle.std.specs.List.{AllByRecursion, flat_map, list_any};
ghost use Rattle.bib_queries.specs.Sets.{is_in_set};
ghost use Rattle.bib_syntax.specs.Views.{entry_reading_of};
ghost use Rattle.edit_entries.specs.EditList.{edit_of};
ghost use Rattle.edit_entries.specs.FieldTexts.{HaveFieldsPlaced};
ghost use Rattle.edit_entries.specs.Placed.{IsEntryPlaced};
ghost use Rattle.edit_entries.specs.RemovalLists.{AreRemovalsAdded};
ghost use Rattle.edit_entries.specs.Selected as spec;
ghost use Rattle.edit_entries.specs.Selected.{AreRemovals, has_selected_key, unset_if_selected};

use crate::editing::Edit;
use crate::removing::{entry_removal, have_only};
use crate::unsetting::unset_edits;
use bib_syntax::raw::RawEntry;
use bib_text::spanned::Spanned;
use std::alloc::{AllocError, Global};
use std::collections::BTreeSet;

// Returns whether an entry has one of these keys and at least one field, and all its fields have `name`.
fn would_be_empty(entry: &Spanned<RawEntry<'_>>, keys: &BTreeSet<&str>, name: &str) -> bool
    ensures { result ≡ spec.would_be_empty (is_in_set keys.now) name.now (entry_reading_of entry.now) }
{
    keys.contains(entry.v.key.v) && have_only(&entry.v.fields, name)
}

// Returns whether an entry with one of these keys has at least one field, and all its fields have `name`.
pub(crate) fn would_one_be_empty(
    entries: &[Spanned<RawEntry<'_>>],
    keys: &BTreeSet<&str>,
    name: &str,
) -> bool
    ensures { result ≡ list_any (spec.would_be_empty (is_in_set keys.now) name.now) (map entry_reading_of entries.now) }
{
    'entries: for entry in entries {
        if would_be_empty(entry, keys, name) {
            return true;
        }
    }
    false
}

// Adds the edits that unset a field of an entry, if it has one of these keys.
fn push_unset_edits(
    edits: &mut Vec<Edit>,
    alloc: Global,
    text: &str,
    entry: &Spanned<RawEntry<'_>>,
    keys: &BTreeSet<&str>,
    name: &str,
) -> Result<(), AllocError>
    requires placed { HaveFieldsPlaced text.now (entry_reading_of entry.now) }
    ensures { OnOk result (map edit_of edits.new.items ≡ map edit_of edits.old.items ++
        unset_if_selected (is_in_set keys.now) text.now name.now (entry_reading_of entry.now)) }
{
    if !keys.contains(entry.v.key.v) {
        return Ok(());
    }
    let mut more = unset_edits(alloc, text, entry, name)?;
    edits.append(&mut more)
}

// Returns the edits that unset a field of the entries with these keys.
pub(crate) fn all_unset_edits(
    alloc: Global,
    text: &str,
    entries: &[Spanned<RawEntry<'_>>],
    keys: &BTreeSet<&str>,
    name: &str,
) -> Result<Vec<Edit>, AllocError>
    requires placed { AllByRecursion (HaveFieldsPlaced text.now) (map entry_reading_of entries.now) }
    ensures { IfOk result (λ edits. map edit_of edits.items ≡
        flat_map (unset_if_selected (is_in_set keys.now) text.now name.now) (map entry_reading_of entries.now)) }
{
    let mut edits = Vec::new(alloc);
    'entries: for entry in entries {
        push_unset_edits(&mut edits, alloc, text, entry, keys, name)?;
    }
    Ok(edits)
}

// Adds the edit that removes an entry, if it has one of these keys.
fn push_removal(
    edits: &mut Vec<Edit>,
    alloc: Global,
    text: &str,
    entry: &Spanned<RawEntry<'_>>,
    keys: &BTreeSet<&str>,
) -> Result<(), AllocError>
    requires placed { IsEntryPlaced text.now (entry_reading_of entry.now) }
    ensures { OnOk result (AreRemovalsAdded text.now (filter (has_selected_key (is_in_set keys.now)) (entry_reading_of entry.now ∷ []))
        (map edit_of edits.old.items) (map edit_of edits.new.items)) }
{
    if keys.contains(entry.v.key.v) {
        edits.push(entry_removal(alloc, text, entry))?;
    }
    Ok(())
}

// Returns the edits that remove the entries with these keys.
pub(crate) fn removals(
    alloc: Global,
    text: &str,
    entries: &[Spanned<RawEntry<'_>>],
    keys: &BTreeSet<&str>,
) -> Result<Vec<Edit>, AllocError>
    requires placed { AllByRecursion (IsEntryPlaced text.now) (map entry_reading_of entries.now) }
    ensures { IfOk result (λ edits. AreRemovals text.now
        (filter (has_selected_key (is_in_set keys.now)) (map entry_reading_of entries.now)) (map edit_of edits.items)) }
{
    let mut edits = Vec::new(alloc);
    'entries: for entry in entries {
        push_removal(&mut edits, alloc, text, entry, keys)?;
    }
    Ok(edits)
}
