//! The entries that an entry belongs to, and the fields through which it inherits.

ghost use Rattle.std.specs.Prelude.{◌≡◌, IfOk, IfErr, map, string_bytes};
ghost use Rattle.bib_entry.specs.Parents.{has_references, parents_of};
ghost use Rattle.bib_tables.specs.TypeError.{no_memory};

use crate::entry::Entry;
use bib_chunks::chunk::format_verbatim;
use bib_tables::type_error::TypeError;
use bib_values::lists::read_strings;
use std::alloc::{AllocError, Global};

// Returns the text of `crossref`, and then the items of the comma-separated list `xref`.
fn parents_of(alloc: Global, entry: &Entry) -> Result<Vec<String>, AllocError>
    ensures { IfOk result (λ names. map (λ s. string_bytes s) names.items ≡ parents_of entry.now) }
{
    let mut names = match entry.get("xref") {
        Some(chunks) => read_strings(alloc, chunks)?,
        None => Vec::new(alloc),
    };
    if let Some(chunks) = entry.get("crossref") {
        names.insert(0, format_verbatim(alloc, chunks)?)?;
    }
    Ok(names)
}

/// Returns whether an entry has a field through which it inherits, `crossref` or `xdata`.
pub fn has_references(entry: &Entry) -> bool
    ensures { result ≡ has_references entry.now }
{
    entry.get("crossref").is_some() || entry.get("xdata").is_some()
}

impl Entry {
    /// Returns the keys of the entries that this entry belongs to: the text of `crossref`, and then the items of the
    /// comma-separated list `xref`. The only error is out of memory.
    pub fn parents(&self, alloc: Global) -> Result<Vec<String>, TypeError>
        ensures parents { IfOk result (λ names.
            map (λ s. string_bytes s) names.items ≡ parents_of self.now) }
        ensures refused { IfErr result (λ e. e ≡ no_memory) }
    {
        Ok(parents_of(alloc, self)?)
    }
}
