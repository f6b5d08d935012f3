//! Finds the first entry with a key.

ghost use Rattle.std.specs.Prelude.{◌≡◌, ◌<◌, length, map, ℕ, IfSome, None, MatchOption, slice_get, Some};
ghost use Rattle.bib_syntax.specs.Views.{entry_reading_of};
ghost use Rattle.edit_entries.specs.Documents as documents;
ghost use Rattle.edit_entries.specs.Documents.{first_position};

use bib_syntax::raw::RawEntry;
use bib_text::spanned::Spanned;

// Returns whether an entry has this key.
fn is_keyed(entry: &Spanned<RawEntry<'_>>, key: &str) -> bool
    ensures { result ≡ documents.is_keyed key.now (entry_reading_of entry.now) }
{
    entry.v.key.v == key
}

/// Returns the index of the first entry with this key.
pub fn entry_index(entries: &[Spanned<RawEntry<'_>>], key: &str) -> Option<usize>
    ensures is { result ≡ first_position (documents.is_keyed key.now) (map entry_reading_of entries.now) }
    ensures bound { IfSome result (λ index. index < length entries.now) }
{
    'entries: for (index, entry) in entries.iter().enumerate() {
        if is_keyed(entry, key) {
            return Some(index);
        }
    }
    None
}

// Returns the first entry with this key.
pub(crate) fn entry_with<'a, 's>(
    entries: &'a [Spanned<RawEntry<'s>>],
    key: &str,
) -> Option<&'a Spanned<RawEntry<'s>>>
    ensures { MatchOption result
        (first_position (documents.is_keyed key.now) (map entry_reading_of entries.now) ≡ None)
        (λ entry. (k : ℕ) × (first_position (documents.is_keyed key.now) (map entry_reading_of entries.now) ≡ Some k) ×
        (slice_get (map entry_reading_of entries.now) k ≡ Some (entry_reading_of entry.now))) }
{
    match entry_index(entries, key) {
        Some(index) => Some(&entries[index]),
        None => None,
    }
}
