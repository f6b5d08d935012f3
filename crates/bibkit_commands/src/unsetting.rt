//! The message of an edit that would remove all fields of an entry.

use bib_syntax::raw::{RawBibliography, RawEntry};
use bibkit_edits::edit::Edit;
use edit_entries::errors::EditError;
use std::alloc::{AllocError, Global};

// Returns whether one of these edits is an `UnsetAll` of the fields with this name.
fn is_unset(edits: &[Edit<'_>], field: &str) -> bool {
    edits.iter().any(
        |edit| matches!(edit, Edit::UnsetAll { name, .. } if name.eq_ignore_ascii_case(field)),
    )
}

// Returns whether an entry has one of `keys` as its key, has fields, and the edits remove each of these.
fn would_be_empty(entry: &RawEntry<'_>, keys: &[&str], edits: &[Edit<'_>]) -> bool {
    !entry.fields.is_empty()
        && entry.fields.iter().all(|own| is_unset(edits, own.key.v))
        && keys.contains(&entry.key.v)
}

/// Returns the message for the error `why` of the last of `edits`, which unsets a field of the entries with these keys. If the edits would
/// remove all fields of an entry in `src`, the message contains the key of the first such entry.
pub fn unset_line(
    alloc: Global,
    name: &str,
    src: &str,
    keys: &[&str],
    field: &str,
    edits: &[Edit<'_>],
    why: EditError,
) -> Result<String, AllocError> {
    if let Ok(raw) = RawBibliography::parse(alloc, src) {
        'entries: for entry in &raw.entries {
            if would_be_empty(&entry.v, keys, edits) {
                let key = entry.v.key.v;
                return format!(in alloc; "bibkit: {name}: `{key}`: `{field}`: {why}\n");
            }
        }
    }
    format!(in alloc; "bibkit: {name}: `{field}`: {why}\n")
}
