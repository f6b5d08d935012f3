//! The names that an entry claims.

ghost use Rattle.std.specs.Prelude.{◌≡◌, IfOk};
ghost use Rattle.bib_file_entries.specs.Bibliography.{aliases, claims};

use bib_chunks::lists::comma_texts;
use bib_entry::entry::Entry;
use bib_text::text::Text;
use std::alloc::{AllocError, Global};

// Returns the other names of an entry: the items of its field `ids`. Does not allocate if there is no such field.
pub(crate) fn aliases(alloc: Global, entry: &Entry) -> Result<Vec<Text>, AllocError>
    ensures { IfOk result (λ names. names.items ≡ aliases entry.now) }
{
    match entry.get("ids") {
        Some(chunks) => comma_texts(alloc, chunks),
        None => Ok(Vec::new(alloc)),
    }
}

/// Returns the names that an entry claims: its key, then the items of its field `ids`. The only error is out of memory.
pub fn claims(alloc: Global, entry: &Entry) -> Result<Vec<Text>, AllocError>
    ensures { IfOk result (λ names. names.items ≡ claims entry.now) }
{
    let mut names = aliases(alloc, entry)?;
    names.insert(0, entry.key.clone()?)?;
    Ok(names)
}
