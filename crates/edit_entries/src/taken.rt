//! New keys that entries have already.

ghost use Rattle.std.specs.Prelude.{◌≡◌, ◌||◌, ℕ, List, IfOk, MatchBool, OnOk, map, not};
ghost use Rattle.std.specs.BTreeSet.{contains_text};
ghost use Rattle.bib_syntax.specs.Grammar.{is_word};
ghost use Rattle.bib_syntax.specs.Views.{entry_reading_of};
ghost use Rattle.edit_entries.specs.NameSets.{holds_name};
ghost use Rattle.edit_entries.specs.NewKeys.{key_for};
ghost use Rattle.edit_entries.specs.NewNames.{IsNewKeyTaken, has_word, kept_names, staying_names};

use crate::joining::insert_names;
use crate::new_keys::NewKeys;
use bib_queries::names::entry_names;
use bib_syntax::raw::RawEntry;
use bib_text::spanned::Spanned;
use std::alloc::{AllocError, Global};
use std::collections::BTreeSet;

// Inserts the names that an entry keeps into a set, in ASCII lowercase. These are those in its fields `ids`, and its key if it gets no new
// one.
fn insert_staying(
    alloc: Global,
    set: &mut BTreeSet<String>,
    entry: &Spanned<RawEntry<'_>>,
    gets_key: bool,
) -> Result<(), AllocError>
    ensures { OnOk result ((name : List ℕ) → holds_name (contains_text set.new) name ≡
        (has_word (kept_names gets_key (entry_reading_of entry.now)) name || holds_name (contains_text set.old) name)) }
{
    let names = entry_names(alloc, entry)?;
    if gets_key {
        return insert_names(alloc, set, &names[1..]);
    }
    insert_names(alloc, set, &names)
}

// Returns the set of the names that stay if entries get new keys, in ASCII lowercase.
fn staying_set(
    alloc: Global,
    entries: &[Spanned<RawEntry<'_>>],
    keys: &NewKeys<'_>,
) -> Result<BTreeSet<String>, AllocError>
    ensures { IfOk result (λ set. (name : List ℕ) → holds_name (contains_text set) name ≡
        has_word (staying_names (key_for keys.now) 0 (map entry_reading_of entries.now)) name) }
{
    let mut set = BTreeSet::new(alloc);
    'entries: for (index, entry) in entries.iter().enumerate() {
        insert_staying(alloc, &mut set, entry, keys.at(index).is_some())?;
    }
    Ok(set)
}

// Inserts a key into a set, in ASCII lowercase. Returns whether the set contained it already.
fn insert_key(alloc: Global, set: &mut BTreeSet<String>, key: &str) -> Result<bool, AllocError>
    ensures taken { IfOk result (λ taken. taken ≡ holds_name (contains_text set.old) key.now) }
    ensures inserted { OnOk result ((name : List ℕ) → holds_name (contains_text set.new) name ≡
        (is_word key.now name || holds_name (contains_text set.old) name)) }
{
    let is_new = set.insert(key.to_ascii_lowercase(alloc)?)?;
    Ok(!is_new)
}

// Returns whether a new key of an entry is, in any ASCII case, a name that stays or the new key of an earlier entry.
pub(crate) fn is_new_key_taken(
    alloc: Global,
    entries: &[Spanned<RawEntry<'_>>],
    keys: &NewKeys<'_>,
) -> Result<bool, AllocError>
    ensures { IfOk result (λ taken. MatchBool taken
        (IsNewKeyTaken (map entry_reading_of entries.now) (key_for keys.now))
        (IsNewKeyTaken (map entry_reading_of entries.now) (key_for keys.now) → ⊥)) }
{
    let mut set = staying_set(alloc, entries, keys)?;
    'entries: for (index, _) in entries.iter().enumerate() {
        if let Some(key) = keys.at(index) {
            if insert_key(alloc, &mut set, key)? {
                return Ok(true);
            }
        }
    }
    Ok(false)
}
