//! The command `diff`: the changes from one version of a file to another one.

ghost use Rattle.std.specs.Prelude.{◌≡◌, IfOk};
ghost use Rattle.std.specs.String.{string_bytes};
ghost use Rattle.edit_changes.specs.Changes as list;
ghost use Rattle.bibkit_versions.specs.Diff as spec;

use crate::lines::{changes_text, layout_count};
use crate::objects::changes_array;
use edit_changes::changes::{Change, changes};
use edit_versions::version::Version;
use std::alloc::{AllocError, Global};

/// The format of changes.
#[derive(Debug, Clone, Copy, PartialEq, Eq)]
pub enum Format {
    /// The name of the file, and a line for each change.
    Text,
    /// A JSON array with an object for each change.
    Json,
}

/// The output for the changes of a file.
#[derive(Debug, Drop)]
pub struct Difference {
    /// The text to print.
    pub text: String,
    /// Whether there is a change other than of the layout.
    pub has_change: bool,
}

// Returns whether there is a change other than of the layout.
fn has_change(changes: &[Change]) -> bool
    ensures { result ≡ spec.has_change changes.now }
{
    layout_count(changes) != changes.len()
}

/// Returns the changes from an old version of the file `name` to a new one in a format, and whether there is one other than of the layout.
/// Returns an error only if out of memory.
pub fn compare(
    alloc: Global,
    name: &str,
    old: &Version<'_>,
    new: &Version<'_>,
    format: Format,
) -> Result<Difference, AllocError>
    ensures text { IfOk result (λ found. string_bytes found.text
        ≡ spec.output_by format name.now old.now new.now (list.changes old.now new.now)) }
    ensures changed { IfOk result (λ found. found.has_change ≡ spec.has_change (list.changes old.now new.now)) }
{
    let changes = changes(alloc, old, new)?;
    let text = match format {
        Format::Text => changes_text(alloc, name, old, new, &changes)?,
        Format::Json => changes_array(alloc, old, new, &changes)?,
    };
    Ok(Difference {
        text,
        has_change: has_change(&changes),
    })
}
