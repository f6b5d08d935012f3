//! Runs `resolve`, which replaces the references `crossref` and `xdata` by the inherited fields.

use crate::edits::{Editing, Edits, Mode, after_mark, apply, run_edits};
use crate::stops::{Stop, bytes_of};
use bibkit_edits::edit::Edit;
use bibkit_edits::uninherited_notes::uninherited_notes;
use std::alloc::{AllocError, Global};
use std::str::from_utf8;

// Returns the notes on the fields that the entries of a file's bytes don't inherit; none if the bytes aren't UTF-8.
fn notes_on(alloc: Global, name: &str, bytes: &[u8]) -> Result<String, AllocError> {
    match from_utf8(after_mark(bytes)) {
        Ok(text) => uninherited_notes(alloc, name, text),
        Err(_) => Ok(String::new(alloc)),
    }
}

/// Resolves the references of a file, and uses the new text as `editing` requests. If `has_notes`, then prints notes on the fields that
/// entries don't inherit.
pub fn resolve(rt: &HostRuntime, editing: &Editing<'_>, has_notes: bool) -> Result<(), Stop> {
    let bytes = bytes_of(rt, editing.name)?;
    let notes = if has_notes {
        notes_on(rt.alloc(), editing.name, &bytes)?
    } else {
        String::new(rt.alloc())
    };
    apply(rt, editing, &bytes, &[Edit::Resolve])?;
    let _ = eprint!(rt; "{notes}");
    Ok(())
}

/// Resolves the references of each file in turn, and returns the greatest status. If `has_notes`, prints notes on the fields that entries
/// don't inherit.
pub fn run_resolve(rt: &HostRuntime, mode: Mode, has_notes: bool, names: &[&str]) -> u8 {
    let mut status = 0;
    'names: for (index, name) in names.iter().enumerate() {
        let editing = Editing {
            edits: Edits::Resolve { has_notes },
            name,
            mode,
            is_last: index + 1 == names.len(),
        };
        status = run_edits(rt, &editing).max(status);
    }
    status
}
