//! Edits that remove, for each of some keys, the first entry with it.

ghost use Rattle.std.specs.Prelude.{◌≡◌, ◌⊎◌, ◌&&◌, ◌||◌, [], ℕ, List, IfErr, IfOk, OnOk, bytes_eq, false, map, not, true};
ghost use Rattle.std.specs.List.{AllByRecursion, list_any};
ghost use Rattle.bib_queries.specs.Needed.{is_listed};
ghost use Rattle.bib_queries.specs.Sets.{is_in_set};
ghost use Rattle.bib_syntax.specs.Views.{entry_reading_of};
ghost use Rattle.edit_entries.specs.EditList.{edit_of};
ghost use Rattle.edit_entries.specs.Placed.{IsEntryPlaced};
ghost use Rattle.edit_entries.specs.RemovalLists.{AreRemovalsAdded, entry_if};
ghost use Rattle.edit_entries.specs.Selected.{AreRemovals, has_each, is_first_with, passing_after};
ghost use Rattle.edit_entries.specs.declared.errors.EditError.TheVariants.{OutOfMemory, UnknownKey};

use crate::editing::Edit;
use crate::errors::EditError;
use crate::removing::entry_removal;
use bib_syntax::raw::RawEntry;
use bib_text::spanned::Spanned;
use std::alloc::{AllocError, Global};
use std::collections::BTreeSet;

// Returns the set of these keys.
fn key_set<'k>(alloc: Global, keys: &[&'k str]) -> Result<BTreeSet<&'k str>, AllocError>
    ensures { IfOk result (λ set. (key : List ℕ) → is_in_set set key ≡ is_listed (map (λ k. k.now) keys.now) key) }
{
    let mut set = BTreeSet::new(alloc);
    'keys: for key in keys {
        set.insert(*key)?;
    }
    Ok(set)
}

// Returns whether a set lacks one of these keys.
fn lacks_one(set: &BTreeSet<&str>, keys: &[&str]) -> bool
    ensures { result ≡ list_any (λ key. not (is_in_set set.now key)) (map (λ k. k.now) keys.now) }
{
    'keys: for key in keys {
        if !set.contains(*key) {
            return true;
        }
    }
    false
}

// Adds a key to `found` if it is one of `keys`. Returns whether it is one of them and wasn't in `found`.
fn is_found_first<'s>(
    found: &mut BTreeSet<&'s str>,
    keys: &BTreeSet<&str>,
    key: &'s str,
) -> Result<bool, AllocError>
    ensures is { IfOk result (λ is. is ≡ (is_in_set keys.now key.now && not (is_in_set found.old key.now))) }
    ensures found { OnOk result ((name : List ℕ) →
        is_in_set found.new name ≡ (is_in_set found.old name || (is_in_set keys.now key.now && bytes_eq key.now name))) }
{
    if !keys.contains(key) {
        return Ok(false);
    }
    Ok(found.insert(key)?)
}

// If the key of an entry is in `keys` and not in `found`, adds it to `found`, and appends the edit that removes the entry.
fn push_first_removal<'s>(
    edits: &mut Vec<Edit>,
    found: &mut BTreeSet<&'s str>,
    alloc: Global,
    text: &str,
    entry: &Spanned<RawEntry<'s>>,
    keys: &BTreeSet<&str>,
) -> Result<(), AllocError>
    requires placed { IsEntryPlaced text.now (entry_reading_of entry.now) }
    ensures made { OnOk result (AreRemovalsAdded text.now
        (entry_if (is_in_set keys.now (entry_reading_of entry.now).key.text && not (is_in_set found.old (entry_reading_of entry.now).key.text))
        (entry_reading_of entry.now)) (map edit_of edits.old.items) (map edit_of edits.new.items)) }
    ensures found { OnOk result ((name : List ℕ) → is_in_set found.new name ≡ (is_in_set found.old name
        || (is_in_set keys.now (entry_reading_of entry.now).key.text && bytes_eq (entry_reading_of entry.now).key.text name))) }
{
    if is_found_first(found, keys, entry.v.key.v)? {
        edits.push(entry_removal(alloc, text, entry))?;
    }
    Ok(())
}

// Returns the edits that remove the first entry with each of these keys. Fails if a key is that of no entry.
pub(crate) fn first_removals(
    alloc: Global,
    text: &str,
    entries: &[Spanned<RawEntry<'_>>],
    keys: &[&str],
) -> Result<Vec<Edit>, EditError>
    requires placed { AllByRecursion (IsEntryPlaced text.now) (map entry_reading_of entries.now) }
    ensures made { IfOk result (λ edits. AreRemovals text.now
        (passing_after (is_first_with (map (λ k. k.now) keys.now)) [] (map entry_reading_of entries.now)) (map edit_of edits.items)) }
    ensures found { OnOk result (has_each (map entry_reading_of entries.now) (map (λ k. k.now) keys.now) ≡ true) }
    ensures refused { IfErr result (λ e. (e ≡ OutOfMemory) ⊎ ((e ≡ UnknownKey)
        × (has_each (map entry_reading_of entries.now) (map (λ k. k.now) keys.now) ≡ false))) }
{
    let set = key_set(alloc, keys)?;
    let mut found = BTreeSet::new(alloc);
    let mut edits = Vec::new(alloc);
    'entries: for entry in entries {
        push_first_removal(&mut edits, &mut found, alloc, text, entry, &set)?;
    }
    if lacks_one(&found, keys) {
        return Err(EditError::UnknownKey);
    }
    Ok(edits)
}
