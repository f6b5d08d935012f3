//! Entries of a bibliography.

ghost use Rattle.std.specs.Prelude.{◌≡◌, map, OnOk, OnErr, IfOk, IfErr};
ghost use Rattle.std.specs.Char.{to_ascii_lowercase};
ghost use Rattle.std.specs.Option.{option_copied};
ghost use Rattle.std.specs.FinMap as by_name;

use bib_chunks::chunk::{Chunks, ChunksRef};
use bib_collections::text_map::TextMap;
use bib_tables::mechanics::EntryType;
use bib_text::text::Text;
use bib_typed::setting::SetError;
use bib_typed::{reading, setting};
use std::alloc::{AllocError, Global};

/// An entry of a bibliography.
#[derive(Debug, PartialEq, Eq, Drop)]
pub struct Entry {
    /// The key by which the entry is cited.
    pub key: Text,
    /// The type of the entry.
    pub entry_type: EntryType,
    /// The fields by name.
    pub fields: TextMap<Chunks>,
}

impl Entry {
    /// Returns an entry without fields. Does not allocate.
    pub fn new(alloc: Global, key: Text, entry_type: EntryType) -> Self
        ensures { result ≡ record { key = key; entry_type = entry_type; fields = by_name.empty } }
    {
        Entry {
            key,
            entry_type,
            fields: TextMap::new(alloc),
        }
    }

    /// Returns the chunks of the field `name`. The case of letters matters.
    pub fn get(&self, name: &str) -> Option<ChunksRef<'_>>
        ensures { option_copied result ≡ by_name.get self.now.fields name.now }
    {
        reading::get(&self.fields, name)
    }

    /// Sets the field whose name is `name` with ASCII letters in lowercase, and returns its previous chunks. If memory runs
    /// out, the entry stays unchanged, and the error contains `chunks`.
    pub fn set(&mut self, name: &str, chunks: Chunks) -> Result<Option<Chunks>, SetError>
        ensures had { IfOk result (λ had. had ≡ by_name.get self.old.fields
            (map to_ascii_lowercase name.now)) }
        ensures set { OnOk result (self.new ≡ record self.old
            { fields = by_name.insert self.old.fields (map to_ascii_lowercase name.now) chunks }) }
        ensures refused { OnErr result (self.new ≡ self.old) }
        ensures returned { IfErr result (λ e. e.chunks ≡ chunks) }
    {
        setting::set(&mut self.fields, name, chunks)
    }

    /// Removes the field `name`, and returns its chunks. The case of letters matters. Does not allocate.
    pub fn remove(&mut self, name: &str) -> Option<Chunks>
        ensures had { result ≡ by_name.get self.old.fields name.now }
        ensures removed { self.new ≡
            record self.old { fields = by_name.remove self.old.fields name.now } }
    {
        self.fields.remove(name)
    }
}

impl Clone for Entry {
    ghost is_clone = { λ e copy. copy ≡ e };

    fn clone(&self) -> Result<Self, AllocError> {
        let key = self.key.clone()?;
        let entry_type = self.entry_type.clone()?;
        let fields = self.fields.clone()?;
        Ok(Entry {
            key,
            entry_type,
            fields,
        })
    }
}
