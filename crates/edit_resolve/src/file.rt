//! The entries of a file, which Biber finds by their names.

ghost use Rattle.std.specs.Prelude.{◌≡◌, map, IfOk};
ghost use Rattle.bib_syntax.specs.Views.{entry_reading_of};
ghost use Rattle.bib_tables.specs.Requirements as requirements;
ghost use Rattle.edit_resolve.specs.Parents as spec;
ghost use Rattle.edit_resolve.specs.Parents.{type_of};
ghost use Rattle.edit_resolve.specs.Working.{HasNames, readings};

use crate::parents::Link;
use bib_syntax::raw::RawEntry;
use bib_tables::mechanics::EntryType;
use bib_text::spanned::Spanned;
use edit_entries::new_keys::{alias_indices, key_indices};
use std::alloc::{AllocError, Global};
use std::collections::BTreeMap;

// The entries of a file, with their names and types.
#[derive(Drop)]
pub(crate) struct File<'a, 's> {
    // The entries.
    pub(crate) entries: &'a [Spanned<RawEntry<'s>>],
    // The index of the first entry with each key.
    keys: BTreeMap<&'s str, usize>,
    // The index of the first entry with each name in its fields `ids`.
    aliases: BTreeMap<&'s str, usize>,
    // The types of the entries.
    pub(crate) types: Vec<EntryType>,
}

// Returns the types of entries.
fn types(alloc: Global, entries: &[Spanned<RawEntry<'_>>]) -> Result<Vec<EntryType>, AllocError>
    ensures { IfOk result (λ types. types.items ≡ map type_of (map entry_reading_of entries.now)) }
{
    let mut types = Vec::with_capacity(alloc, entries.len())?;
    'entries: for entry in entries {
        types.push(EntryType::new(alloc, entry.v.kind.v)?)?;
    }
    Ok(types)
}

// Returns whether a type is `xdata`.
fn is_container(entry_type: &EntryType) -> bool
    ensures { result ≡ requirements.is_container entry_type.now }
{
    matches!(entry_type, EntryType::XData)
}

impl<'a, 's> File<'a, 's> {
    // Returns the file with these entries.
    pub(crate) fn of(
        alloc: Global,
        entries: &'a [Spanned<RawEntry<'s>>],
    ) -> Result<Self, AllocError>
        ensures entries { IfOk result (λ file. file.entries.now ≡ entries.now) }
        ensures known { IfOk result HasNames }
    {
        Ok(File {
            entries,
            keys: key_indices(alloc, entries)?,
            aliases: alias_indices(alloc, entries)?,
            types: types(alloc, entries)?,
        })
    }

    // Returns the index of the entry that Biber finds by a name.
    fn entry_index(&self, name: &str) -> Option<usize>
        requires { HasNames self.now }
        ensures { result ≡ spec.entry_index (readings self.now) name.now }
    {
        match self.keys.get(name) {
            Some(index) => Some(*index),
            None => self.aliases.get(name).copied(),
        }
    }

    // Returns the index of the entry of type `xdata` that Biber finds by a name.
    fn container_index(&self, name: &str) -> Option<usize>
        requires { HasNames self.now }
        ensures { result ≡ spec.container_index (readings self.now) (spec.entry_index (readings self.now) name.now) }
    {
        let index = self.entry_index(name)?;
        if is_container(&self.types[index]) {
            Some(index)
        } else {
            None
        }
    }

    // Returns the index of the parent that a reference finds by a key.
    pub(crate) fn parent_index(&self, link: Link, key: &str) -> Option<usize>
        requires { HasNames self.now }
        ensures { result ≡ spec.parent_index (readings self.now) link key.now }
    {
        match link {
            Link::Crossref => self.entry_index(key),
            Link::Xdata => self.container_index(key),
        }
    }
}
