//! Decides whether a bibliography is settled.

ghost use Rattle.std.specs.Prelude.{◌≡◌, ◌↔◌, ◌<◌, IsTrue, Some, bytes_eq, length, map};
ghost use Rattle.std.specs.FinMap as by_name;
ghost use Rattle.std.specs.List.{AllByRecursion, IsDistinct, list_any};
ghost use Rattle.biblatex.specs.Settled.{AreSettled, IsSettledEntry};
ghost use Rattle.biblatex.specs.Distinct.{stands_elsewhere};

use crate::bibliography::Bibliography;
use crate::settled_entry::is_settled_entry;
use bib_collections::names::Names;
use bib_entry::entry::Entry;

// Returns whether one of the entries has the key `key`.
fn is_key_among(entries: &[Entry], key: &str) -> bool
    ensures { result ≡ list_any (λ e. bytes_eq key.now e.key) entries.now }
{
    entries.iter().any(|entry| key == entry.key.as_str())
}

// Returns whether another entry has the key of the entry at `index`.
fn is_repeated(entries: &[Entry], index: usize) -> bool
    requires { index < length entries.now }
    ensures { result ≡ stands_elsewhere (map (λ e. e.key) entries.now) index }
{
    let key = entries[index].key.as_str();
    is_key_among(&entries[..index], key) || is_key_among(&entries[index + 1..], key)
}

// Returns whether `name` points to `index`.
fn points_to(names: &Names, name: &str, index: usize) -> bool
    ensures { IsTrue result ↔ by_name.get names.now name.now ≡ Some index }
{
    match names.get(name) {
        Some(found) => found == index,
        None => false,
    }
}

// Returns whether no two entries have the same key. A name points to one index, so equal keys can't both point to their own
// entries. Only a key that doesn't point to its own index is therefore compared with the keys of all other entries.
fn has_distinct_keys(entries: &[Entry], names: &Names) -> bool
    ensures { IsTrue result ↔ IsDistinct bytes_eq (map (λ e. e.key) entries.now) }
{
    'indices: for index in 0..entries.len() {
        if points_to(names, entries[index].key.as_str(), index) {
            continue 'indices;
        }
        if is_repeated(entries, index) {
            return false;
        }
    }
    true
}

// Returns whether each entry is settled.
fn are_settled(entries: &[Entry]) -> bool
    ensures { IsTrue result ↔ AllByRecursion IsSettledEntry entries.now }
{
    'entries: for entry in entries {
        if !is_settled_entry(entry) {
            return false;
        }
    }
    true
}

impl Bibliography {
    /// Returns whether the bibliography is settled. The output of [`Self::to_biblatex_string`] for a settled bibliography
    /// parses back to its entries, mapped to BibLaTeX's types and fields.
    ///
    /// A bibliography is settled if no two keys are equal, keys consist of key characters, and each value is settled. Each
    /// field name must be an identifier without uppercase ASCII letters, and none of `ids`, `crossref` and `xdata`. Does not
    /// allocate.
    pub fn is_settled(&self) -> bool
        ensures { IsTrue result ↔ AreSettled self.now.entries }
    {
        if !are_settled(self.as_slice()) {
            return false;
        }
        has_distinct_keys(self.as_slice(), self.names())
    }
}
