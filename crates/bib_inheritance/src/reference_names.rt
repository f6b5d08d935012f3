//! The references of an entry.

ghost use Rattle.std.specs.Prelude.{◌≡◌, ◌++◌, IfOk, OnOk};
ghost use Rattle.std.specs.List.{filter_map};
ghost use Rattle.std.specs.FinMap as by_name;
ghost use Rattle.bib_inheritance.specs.References.{reference_names, references};
ghost use Rattle.bib_inheritance.specs.EntryTexts.{fields_of};

use bib_chunks::chunk::{Chunks, format_styled};
use bib_chunks::lists::comma_texts;
use bib_collections::names::Names;
use bib_collections::text_map::TextMap;
use bib_text::text::Text;
use std::alloc::{AllocError, Global};

// Returns the names that an entry with these fields refers to.
fn reference_names(alloc: Global, fields: &TextMap<Chunks>) -> Result<Vec<Text>, AllocError>
    ensures { IfOk result (λ names. names.items ≡ reference_names (fields_of fields.now)) }
{
    let mut names = match fields.get("xdata") {
        Some(chunks) => comma_texts(alloc, chunks.as_slice())?,
        None => Vec::new(alloc),
    };
    if let Some(chunks) = fields.get("crossref") {
        let name = format_styled(alloc, chunks.as_slice())?;
        names.insert(0, Text::from_string(name))?;
    }
    Ok(names)
}

/// Returns the indices of the entries that an entry with these fields refers to. The first is that of the name in `crossref`,
/// and then follow those of the names in the comma-separated list `xdata`. A name that points to no entry is skipped. An
/// index may occur more than once.
pub fn references(
    alloc: Global,
    fields: &TextMap<Chunks>,
    names: &Names,
) -> Result<Vec<usize>, AllocError>
    ensures { IfOk result (λ indices. indices.items ≡ references names.now (fields_of fields.now)) }
{
    let written = reference_names(alloc, fields)?;
    written
        .iter()
        .filter_map(|name| names.get(name.as_str()))
        .collect(alloc)
}
