//! Texts that can be new keys, and entries that may get them.

ghost use Rattle.std.specs.Prelude.{◌≡◌, ℕ, List, MatchBool, MatchOption, Some, map, option_map};
ghost use Rattle.bib_syntax.specs.Views.{entry_reading_of};
ghost use Rattle.edit_entries.specs.NewNames as spec;
ghost use Rattle.edit_entries.specs.NewKeys.{key_for};
ghost use Rattle.edit_entries.specs.NewNames.{CanBeNewKey, HaveNewKeys, IsFirstUnsafeKey};
ghost use Rattle.edit_entries.specs.References.{IsNoNewKey, MayGetKey, MayGetNewKeys};

use crate::new_keys::NewKeys;
use bib_syntax::raw::{RawEntry, is_key};
use bib_text::scanner::Scanner;
use bib_text::spanned::Spanned;

// Returns whether a new key may contain a character.
fn is_new_key(c: char) -> bool
    ensures { result ≡ spec.is_new_key c }
{
    is_key(c)
        && !matches!(
            c,
            '"' | '#' | '$' | '%' | '\'' | '(' | ')' | '=' | '\\' | '{' | '~'
        )
}

// Returns whether a text can be a new key.
pub(crate) fn can_be_new_key(text: &str) -> bool
    ensures { MatchBool result (CanBeNewKey text.now) (CanBeNewKey text.now → ⊥) }
{
    if text.is_empty() {
        return false;
    }
    if text == "*" {
        return false;
    }
    if text.contains("--") {
        return false;
    }
    let mut s = Scanner::new(text);
    s.eat_while(is_new_key);
    s.done()
}

// Returns the first key of these entries that can't be a new key, or `None` if each can be one.
pub(crate) fn first_unsafe_key<'s>(entries: &[Spanned<RawEntry<'s>>]) -> Option<&'s str>
    ensures { MatchOption result
        (HaveNewKeys (map entry_reading_of entries.now))
        (λ key. IsFirstUnsafeKey (map entry_reading_of entries.now) key.now) }
{
    'entries: for entry in entries {
        if !can_be_new_key(entry.v.key.v) {
            return Some(entry.v.key.v);
        }
    }
    None
}

// Returns whether the key of each of these entries can be a new key.
pub(crate) fn have_new_keys(entries: &[Spanned<RawEntry<'_>>]) -> bool
    ensures { MatchBool result
        (HaveNewKeys (map entry_reading_of entries.now))
        (HaveNewKeys (map entry_reading_of entries.now) → ⊥) }
{
    match first_unsafe_key(entries) {
        Some(_) => false,
        None => true,
    }
}

// Returns whether an entry may get a new key, if it gets one.
fn may_get_key(entry: &Spanned<RawEntry<'_>>, new: Option<&str>) -> bool
    ensures { MatchBool result
        ((k : List ℕ) → option_map (λ n. n.now) new.entry ≡ Some k → MayGetKey (entry_reading_of entry.now) k)
        ((k : List ℕ) × (option_map (λ n. n.now) new.entry ≡ Some k) × (MayGetKey (entry_reading_of entry.now) k → ⊥)) }
{
    match new {
        Some(new) => !entry.v.key.v.is_empty() && can_be_new_key(new),
        None => true,
    }
}

// Returns whether each entry that gets a new key may get it.
pub(crate) fn may_get_keys(entries: &[Spanned<RawEntry<'_>>], keys: &NewKeys<'_>) -> bool
    ensures { MatchBool result
        (MayGetNewKeys (map entry_reading_of entries.now) (key_for keys.now))
        (IsNoNewKey (map entry_reading_of entries.now) (key_for keys.now)) }
{
    'entries: for (index, entry) in entries.iter().enumerate() {
        let may = may_get_key(entry, keys.at(index));
        if !may {
            return false;
        }
    }
    true
}
