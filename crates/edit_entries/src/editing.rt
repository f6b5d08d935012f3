//! Edits of a text: each replaces a stretch of it.

ghost use Rattle.std.specs.Prelude.{◌≡◌, ◌++◌, ◌≤◌, IfOk, OnOk, map};
ghost use Rattle.std.specs.Str.{IsCharBoundary};
ghost use Rattle.std.specs.String.{string_bytes};
ghost use Rattle.bib_syntax.specs.Views.{field_of};
ghost use Rattle.edit_entries.specs.Changes.{removal_edits};
ghost use Rattle.edit_entries.specs.Edits as spec;
ghost use Rattle.edit_entries.specs.EditList.{AreEditsInOrder, edit_of};

use bib_syntax::raw::Pair;
use std::alloc::{AllocError, Global};

/// The replacement of a stretch of a text.
#[derive(Debug, Drop)]
pub struct Edit {
    /// The byte offset at which the stretch begins.
    pub start: usize,
    /// The byte offset at which it ends.
    pub end: usize,
    /// The text that replaces it.
    pub text: String,
}

// Returns a text with a stretch replaced.
pub(crate) fn edited(
    alloc: Global,
    text: &str,
    start: usize,
    end: usize,
    bytes: &str,
) -> Result<String, AllocError>
    requires ordered { start ≤ end }
    requires start { IsCharBoundary text.now start }
    requires end { IsCharBoundary text.now end }
    ensures { IfOk result (λ new. string_bytes new ≡ spec.edited (record { start = start; end = end; bytes = bytes.now }) text.now) }
{
    let mut new = String::new(alloc);
    new.push_str(&text[..start])?;
    new.push_str(bytes)?;
    new.push_str(&text[end..])?;
    Ok(new)
}

/// Returns the text with these edits made. Their stretches are in order, don't overlap, and begin and end at character boundaries. The
/// only error is out of memory.
pub fn edited_all(alloc: Global, text: &str, edits: &[Edit]) -> Result<String, AllocError>
    requires { AreEditsInOrder text.now 0 (map edit_of edits.now) }
    ensures { IfOk result (λ new. string_bytes new ≡ spec.edited_all (map edit_of edits.now) text.now) }
{
    let mut new = String::new(alloc);
    let mut at = 0usize;
    'edits: for edit in edits {
        new.push_str(&text[at..edit.start])?;
        new.push_str(&edit.text)?;
        at = edit.end;
    }
    new.push_str(&text[at..])?;
    Ok(new)
}

/// Adds the edit that removes `field`, up to the first field of `following`. Does nothing if no field follows. The only error is out of
/// memory.
pub fn push_removal(
    edits: &mut Vec<Edit>,
    alloc: Global,
    field: &Pair<'_>,
    following: &[Pair<'_>],
) -> Result<(), AllocError>
    ensures { OnOk result (map edit_of edits.new.items ≡ map edit_of edits.old.items
        ++ removal_edits (field_of field.now) (map field_of following.now)) }
{
    let [next, ..] = following else {
        return Ok(());
    };
    edits.push(Edit {
        start: field.key.span.start,
        end: next.key.span.start,
        text: String::new(alloc),
    })?;
    Ok(())
}
