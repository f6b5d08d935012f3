//! New keys of entries.
//!
//! `taken` maps each key in ASCII lower case to a number below which all suffixes of it are taken. So the search for the next suffix of
//! a text begins where the last one ended.

ghost use Rattle.std.specs.Prelude.{◌≡◌, ◌<◌, ◌^◌, IfOk, OnOk, string_bytes};
ghost use Rattle.std.specs.BTreeMap.{get_by_text};
ghost use Rattle.std.specs.List.{All};
ghost use Rattle.bib_keys.specs.Characters.{CanServeAsKey};
ghost use Rattle.bib_keys.specs.Keys.{AreDistinct, AreKeys, HasSuffix};
ghost use Rattle.bib_keys.specs.Taken.{AreBelowTaken, AreTakenBelow, IsFirstFree, SetsNumber, TakesKey, is_key_taken};

use crate::bases::pattern_text;
use crate::pattern::Part;
use crate::suffixes::push_suffix;
use bib_entry::entry::Entry;
use bib_text::text::Text;
use std::alloc::{AllocError, Global};
use std::collections::BTreeMap;

// Returns a text with the suffix that has this number.
fn with_suffix(text: &String, number: u64) -> Result<String, AllocError>
    ensures { IfOk result (λ key. HasSuffix number (string_bytes text.now) (string_bytes key)) }
{
    let mut key = text.clone()?;
    push_suffix(&mut key, number)?;
    Ok(key)
}

// Returns whether a key is taken, in any ASCII case.
fn is_key_taken(alloc: Global, taken: &BTreeMap<String, u64>, key: &str) -> Result<bool, AllocError>
    ensures { IfOk result (λ is. is ≡ is_key_taken (get_by_text taken.now) key.now) }
{
    let lowercase = key.to_ascii_lowercase(alloc)?;
    Ok(taken.contains_key(lowercase.as_str()))
}

// Returns the first key that isn't taken and the number of its suffix. The keys with the numbers below `start` are known to be taken.
// A map of `len` keys can't contain the keys of `len + 1` numbers, so one of the numbers up to `len` is free.
fn first_free(
    alloc: Global,
    taken: &BTreeMap<String, u64>,
    text: &String,
    start: u64,
) -> Result<(u64, String), AllocError>
    requires { AreTakenBelow (get_by_text taken.now) (string_bytes text.now) start }
    ensures free { IfOk result (λ found. IsFirstFree (get_by_text taken.now) (string_bytes text.now) found.0 (string_bytes found.1)) }
    ensures bound { IfOk result (λ found. found.0 < 2 ^ 63) }
{
    let len = taken.len() as u64;
    'numbers: for number in start..len + 1 {
        let key = with_suffix(text, number)?;
        if !is_key_taken(alloc, taken, key.as_str())? {
            return Ok((number, key));
        }
    }
    unreachable!()
}

// Sets the number of a name.
fn set(taken: &mut BTreeMap<String, u64>, name: String, number: u64) -> Result<(), AllocError>
    ensures { OnOk result (SetsNumber (get_by_text taken.old) (get_by_text taken.new) (string_bytes name) number) }
{
    taken.insert(name, number)?;
    Ok(())
}

// Returns the key for a text, and adds it to the keys that are taken.
fn take_key(
    alloc: Global,
    taken: &mut BTreeMap<String, u64>,
    text: &String,
) -> Result<String, AllocError>
    requires { AreBelowTaken (get_by_text taken.old) }
    ensures { IfOk result (λ key. TakesKey (get_by_text taken.old) (get_by_text taken.new) (string_bytes text.now) (string_bytes key)) }
{
    let lowercase = text.to_ascii_lowercase(alloc)?;
    let start = taken.get(lowercase.as_str()).copied().unwrap_or(0);
    let (number, key) = first_free(alloc, taken, text, start)?;
    set(taken, lowercase, number + 1)?;
    set(taken, key.to_ascii_lowercase(alloc)?, 1)?;
    Ok(key)
}

// Returns the key of each entry: the text that the pattern gives, with the first suffix that makes a new key.
fn keys_of(alloc: Global, pattern: &[Part], entries: &[Entry]) -> Result<Vec<Text>, AllocError>
    ensures { IfOk result (λ keys. AreKeys pattern.now entries.now keys.items) }
{
    let mut taken = BTreeMap::new(alloc);
    let mut keys = Vec::new(alloc);
    'entries: for entry in entries {
        let text = pattern_text(alloc, pattern, entry)?;
        keys.push(Text::from_string(take_key(alloc, &mut taken, &text)?))?;
    }
    Ok(keys)
}

// Returns the key that a pattern gives for each entry. The keys are distinct, and all characters are allowed in keys.
pub(crate) fn new_keys(
    alloc: Global,
    pattern: &[Part],
    entries: &[Entry],
) -> Result<Vec<Text>, AllocError>
    ensures keys { IfOk result (λ keys. AreKeys pattern.now entries.now keys.items) }
    ensures distinct { IfOk result (λ keys. AreDistinct keys.items) }
    ensures allowed { IfOk result (λ keys. All CanServeAsKey keys.items) }
{
    let keys = keys_of(alloc, pattern, entries)?;
    Ok(keys)
}
