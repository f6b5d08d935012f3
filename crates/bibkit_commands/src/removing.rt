//! The edits of `remove` with several keys, and the message for a key of no entry.

use bib_syntax::raw::{RawBibliography, RawEntry};
use bib_text::spanned::Spanned;
use bibkit_edits::edit::Edit;
use edit_entries::errors::EditError;
use std::alloc::{AllocError, Global};
use std::collections::BTreeSet;

/// Returns the keys of these edits, if there are several of them, each is a `Remove`, and no key occurs twice. One `RemoveEach` with the
/// keys then gives the same text as these edits in turn, and parses the file only once.
pub fn distinct_removals<'a>(
    alloc: Global,
    edits: &[Edit<'a>],
) -> Result<Option<Vec<&'a str>>, AllocError> {
    if edits.len() < 2 {
        return Ok(None);
    }
    let mut seen = BTreeSet::new(alloc);
    let mut keys = Vec::new(alloc);
    'edits: for edit in edits {
        let Edit::Remove { key } = edit else {
            return Ok(None);
        };
        if !seen.insert(*key)? {
            return Ok(None);
        }
        keys.push(*key)?;
    }
    Ok(Some(keys))
}

// Returns the set of the keys of these entries.
fn keys_of<'s>(
    alloc: Global,
    entries: &[Spanned<RawEntry<'s>>],
) -> Result<BTreeSet<&'s str>, AllocError> {
    let mut set = BTreeSet::new(alloc);
    'entries: for entry in entries {
        set.insert(entry.v.key.v)?;
    }
    Ok(set)
}

// Returns the first of these keys that is the key of none of these entries.
fn first_unknown<'k>(
    alloc: Global,
    entries: &[Spanned<RawEntry<'_>>],
    keys: &[&'k str],
) -> Result<Option<&'k str>, AllocError> {
    let known = keys_of(alloc, entries)?;
    'keys: for key in keys {
        if !known.contains(*key) {
            return Ok(Some(*key));
        }
    }
    Ok(None)
}

/// Returns the message for the error `why` of removing the entries with these keys from `src`. If a key is that of no entry in `src`, the
/// message contains the first such key.
pub fn removal_line(
    alloc: Global,
    name: &str,
    src: &str,
    keys: &[&str],
    why: EditError,
) -> Result<String, AllocError> {
    if let Ok(raw) = RawBibliography::parse(alloc, src) {
        if let Some(key) = first_unknown(alloc, &raw.entries, keys)? {
            return format!(in alloc; "bibkit: {name}: `{key}`: {why}\n");
        }
    }
    format!(in alloc; "bibkit: {name}: {why}\n")
}
