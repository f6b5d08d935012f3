//! Writes entries.

ghost use Rattle.std.specs.Prelude.{◌≡◌, ◌++◌, OnOk, IfOk};
ghost use Rattle.std.specs.List.{flat_map};
ghost use Rattle.bib_entry.specs.WrittenEntries.{value_bytes};
ghost use Rattle.bib_from_json.specs.WrittenSources as spec;

use crate::given::{GivenEntry, GivenField};
use bib_chunks::chunk::{ChunksRef, value_text};
use bib_tables::fields::is_verbatim_field;
use bib_text::text::Text;
use std::alloc::{AllocError, Global};

// Returns the value of a field with this name, with its braces.
fn value_of(alloc: Global, name: &str, chunks: ChunksRef<'_>) -> Result<Text, AllocError>
    ensures { IfOk result (λ value. value ≡ value_bytes name.now chunks.now) }
{
    let value = value_text(alloc, chunks, is_verbatim_field(name))?;
    Ok(Text::from_string(value))
}

// Appends the line of a field.
#[tactic(auto, unfolding(crate::specs::WrittenSources::field_source))]
fn push_field(alloc: Global, out: &mut Text, field: &GivenField) -> Result<(), AllocError>
    ensures { OnOk result (out.new ≡ out.old ++ spec.field_source field.now) }
{
    let name = field.name.as_str();
    let value = value_of(alloc, name, field.chunks.as_slice())?;
    out.push_str("  ")?;
    out.push_str(name)?;
    out.push_str(" = ")?;
    out.push_str(value.as_str())?;
    out.push_str(",\n")
}

// Appends the lines of fields.
fn push_fields(alloc: Global, out: &mut Text, fields: &[GivenField]) -> Result<(), AllocError>
    ensures { OnOk result (out.new ≡ out.old ++ flat_map spec.field_source fields.now) }
{
    'fields: for field in fields {
        push_field(alloc, out, field)?;
    }
    Ok(())
}

// Appends the start of an entry, up to the line end after its key.
#[tactic(auto, unfolding(crate::specs::WrittenSources::source_head))]
fn push_head(out: &mut Text, entry: &GivenEntry) -> Result<(), AllocError>
    ensures { OnOk result (out.new ≡ out.old ++ spec.source_head entry.now) }
{
    out.push('@')?;
    out.push_str(entry.kind.as_str())?;
    out.push('{')?;
    out.push_str(entry.key.as_str())?;
    out.push_str(",\n")
}

// Appends an entry.
#[tactic(auto, unfolding(crate::specs::WrittenSources::entry_source))]
fn push_entry(alloc: Global, out: &mut Text, entry: &GivenEntry) -> Result<(), AllocError>
    ensures { OnOk result (out.new ≡ out.old ++ spec.entry_source entry.now) }
{
    push_head(out, entry)?;
    push_fields(alloc, out, entry.fields.as_slice())?;
    out.push_str("}\n")
}

// Appends an entry, after an empty line unless it is the first.
fn push_next(
    alloc: Global,
    out: &mut Text,
    first: bool,
    entry: &GivenEntry,
) -> Result<(), AllocError>
    ensures { OnOk result (out.new ≡ out.old ++ spec.next_source first entry.now) }
{
    if !first {
        out.push('\n')?;
    }
    push_entry(alloc, out, entry)
}

/// Returns the source of an entry.
pub fn entry_text(alloc: Global, entry: &GivenEntry) -> Result<Text, AllocError>
    ensures { IfOk result (λ text. text ≡ spec.entry_source entry.now) }
{
    let mut out = Text::new(alloc);
    push_entry(alloc, &mut out, entry)?;
    Ok(out)
}

/// Returns the source of entries, with the fields of each in their order.
pub fn entries_text(alloc: Global, entries: &[GivenEntry]) -> Result<Text, AllocError>
    ensures { IfOk result (λ text. text ≡ spec.entries_source entries.now) }
{
    let mut out = Text::new(alloc);
    let mut first = true;
    'entries: for entry in entries {
        push_next(alloc, &mut out, first, entry)?;
        first = false;
    }
    Ok(out)
}
