//! Lines of fields.

ghost use Rattle.std.specs.Prelude.{◌≡◌, ◌++◌, IfOk, OnOk};
ghost use Rattle.std.specs.Option.{option_copied};
ghost use Rattle.std.specs.String.{string_bytes};
ghost use Rattle.bib_ris.specs.Bare as spec;
ghost use Rattle.bib_ris.specs.Lines.{given_line};

use crate::lines::push_given;
use bib_chunks::chunk::ChunksRef;
use bib_csl::markup;
use bib_csl::texts::field_or;
use bib_entry::entry::Entry;
use bib_text::text::Text;
use std::alloc::{AllocError, Global};

// Returns the text of a field with its LaTeX commands replaced, as by `bare_text`, or an empty text if the field is missing.
fn bare_value(alloc: Global, field: Option<ChunksRef<'_>>) -> Result<Text, AllocError>
    ensures { IfOk result (λ text. text ≡ spec.bare_value (option_copied field.entry)) }
{
    match field {
        Some(chunks) => markup::bare_text(alloc, chunks),
        None => Ok(Text::new(alloc)),
    }
}

/// Returns the text of the field of this name with its LaTeX commands replaced, or an empty text if the field is missing.
#[tactic(auto, unfolding(crate::specs::Bare::bare_named))]
pub(crate) fn bare_named(alloc: Global, entry: &Entry, name: &str) -> Result<Text, AllocError>
    ensures { IfOk result (λ text. text ≡ spec.bare_named entry.now name.now) }
{
    bare_value(alloc, entry.get(name))
}

/// Returns the text of the field `name`, or else of the field `other`, with its LaTeX commands replaced. It is empty if both are missing.
#[tactic(auto, unfolding(crate::specs::Bare::bare_named_or))]
pub(crate) fn bare_named_or(
    alloc: Global,
    entry: &Entry,
    name: &str,
    other: &str,
) -> Result<Text, AllocError>
    ensures { IfOk result (λ text. text ≡ spec.bare_named_or entry.now name.now other.now) }
{
    bare_value(alloc, field_or(entry, name, other))
}

/// Appends a line with the text of the field of this name, unless the text is empty.
pub(crate) fn push_field(
    out: &mut String,
    alloc: Global,
    entry: &Entry,
    tag: &str,
    name: &str,
) -> Result<(), AllocError>
    ensures { OnOk result (string_bytes out.new ≡ string_bytes out.old ++ given_line tag.now (spec.bare_named entry.now name.now)) }
{
    push_given(out, tag, bare_named(alloc, entry, name)?.as_str())
}

/// Appends a line with the text of the field `name`, or else of the field `other`, unless the text is empty.
pub(crate) fn push_field_or(
    out: &mut String,
    alloc: Global,
    entry: &Entry,
    tag: &str,
    name: &str,
    other: &str,
) -> Result<(), AllocError>
    ensures { OnOk result (string_bytes out.new ≡ string_bytes out.old ++
        given_line tag.now (spec.bare_named_or entry.now name.now other.now)) }
{
    push_given(out, tag, bare_named_or(alloc, entry, name, other)?.as_str())
}
