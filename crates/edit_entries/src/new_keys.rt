//! New keys of entries, and the entries that names mean.

ghost use Rattle.std.specs.Prelude.{◌≡◌, ℕ, List, IfOk, None, OnOk, Some, bytes_eq, if◌then◌else◌, map, option_map, slice_index_or, []};
ghost use Rattle.std.specs.Option.{option_or};
ghost use Rattle.bib_queries.specs.Needed.{is_listed};
ghost use Rattle.bib_syntax.specs.Grammar.{is_word};
ghost use Rattle.bib_syntax.specs.Views.{entry_reading_of};
ghost use Rattle.edit_entries.specs.Documents.{first_position, is_keyed};
ghost use Rattle.edit_entries.specs.NewKeys.{index_for, index_for_word, key_for, name_for};
ghost use Rattle.edit_entries.specs.NewKeys as spec;
ghost use Rattle.edit_entries.specs.References as references;
ghost use Rattle.edit_entries.specs.References.{has_alias, has_key_word, new_reference};

use bib_queries::names::entry_names;
use bib_syntax::raw::{RawEntry, is_word};
use bib_text::spanned::Spanned;
use std::alloc::{AllocError, Global};
use std::collections::BTreeMap;

/// New keys of entries, by the indices of the entries.
#[derive(Clone, Copy, Drop)]
pub enum NewKeys<'k> {
    /// The entry at an index gets a key.
    One(usize, &'k str),
    /// Each entry gets the key at its index, if there is one.
    Each(&'k [Option<&'k str>]),
}

impl<'k> NewKeys<'k> {
    // Returns the new key of the entry at an index, if it gets one.
    pub(crate) fn at(&self, index: usize) -> Option<&'k str>
        ensures { option_map (λ k. k.now) result ≡ key_for self.now index }
    {
        match self {
            NewKeys::One(renamed, key) => { if index == *renamed { Some(*key) } else { None } }
            NewKeys::Each(keys) => match keys.get(index) {
                Some(key) => *key,
                None => None,
            },
        }
    }
}

/// The new keys of entries, and the indices of entries by names.
#[derive(Drop)]
pub struct Names<'k, 's> {
    pub(crate) keys: NewKeys<'k>,
    // The index of the first entry with each key.
    exact: BTreeMap<&'s str, usize>,
    // The index of the first entry with each key, by the key in ASCII lowercase.
    in_lowercase: BTreeMap<String, usize>,
    // The index of the first entry with each name in its fields `ids`.
    aliases: BTreeMap<&'s str, usize>,
    // The keys of the entries.
    texts: Vec<&'s str>,
}

// Gives a name an index, unless it has one.
fn give_index<'s>(
    indices: &mut BTreeMap<&'s str, usize>,
    name: &'s str,
    index: usize,
) -> Result<(), AllocError>
    ensures { OnOk result ((other : List ℕ) → index_for indices.new other ≡
        option_or (index_for indices.old other) (if bytes_eq name.now other then Some index else None)) }
{
    if indices.contains_key(name) {
        return Ok(());
    }
    indices.insert(name, index)?;
    Ok(())
}

// Gives a name in ASCII lowercase an index, unless it has one.
fn give_lowercase_index(
    indices: &mut BTreeMap<String, usize>,
    alloc: Global,
    name: &str,
    index: usize,
) -> Result<(), AllocError>
    ensures { OnOk result ((other : List ℕ) → index_for_word indices.new other ≡
        option_or (index_for_word indices.old other) (if is_word name.now other then Some index else None)) }
{
    let lower = name.to_ascii_lowercase(alloc)?;
    if indices.contains_key(lower.as_str()) {
        return Ok(());
    }
    indices.insert(lower, index)?;
    Ok(())
}

// Gives each of these names an index, unless it has one.
fn give_indices<'s>(
    indices: &mut BTreeMap<&'s str, usize>,
    names: &[&'s str],
    index: usize,
) -> Result<(), AllocError>
    ensures { OnOk result ((other : List ℕ) → index_for indices.new other ≡
        option_or (index_for indices.old other) (if is_listed (map (λ n. n.now) names.now) other then Some index else None)) }
{
    'names: for name in names {
        give_index(indices, name, index)?;
    }
    Ok(())
}

// Gives the names in the fields `ids` of an entry its index, unless they have one.
fn give_alias_index<'s>(
    indices: &mut BTreeMap<&'s str, usize>,
    alloc: Global,
    entry: &Spanned<RawEntry<'s>>,
    index: usize,
) -> Result<(), AllocError>
    ensures { OnOk result ((other : List ℕ) → index_for indices.new other ≡
        option_or (index_for indices.old other) (if has_alias other (entry_reading_of entry.now) then Some index else None)) }
{
    let names = entry_names(alloc, entry)?;
    give_indices(indices, &names[1..], index)
}

/// Returns the index of the first entry with each key. Returns an error only if out of memory.
pub fn key_indices<'s>(
    alloc: Global,
    entries: &[Spanned<RawEntry<'s>>],
) -> Result<BTreeMap<&'s str, usize>, AllocError>
    ensures { IfOk result (λ indices. (name : List ℕ) →
        index_for indices name ≡ first_position (is_keyed name) (map entry_reading_of entries.now)) }
{
    let mut indices = BTreeMap::new(alloc);
    'entries: for (index, entry) in entries.iter().enumerate() {
        give_index(&mut indices, entry.v.key.v, index)?;
    }
    Ok(indices)
}

// Returns the index of the first entry with each key in ASCII lowercase.
fn lowercase_indices(
    alloc: Global,
    entries: &[Spanned<RawEntry<'_>>],
) -> Result<BTreeMap<String, usize>, AllocError>
    ensures { IfOk result (λ indices. (name : List ℕ) →
        index_for_word indices name ≡ first_position (has_key_word name) (map entry_reading_of entries.now)) }
{
    let mut indices = BTreeMap::new(alloc);
    'entries: for (index, entry) in entries.iter().enumerate() {
        give_lowercase_index(&mut indices, alloc, entry.v.key.v, index)?;
    }
    Ok(indices)
}

/// Returns the index of the first entry with each name in its fields `ids`. Returns an error only if out of memory.
pub fn alias_indices<'s>(
    alloc: Global,
    entries: &[Spanned<RawEntry<'s>>],
) -> Result<BTreeMap<&'s str, usize>, AllocError>
    ensures { IfOk result (λ indices. (name : List ℕ) →
        index_for indices name ≡ first_position (has_alias name) (map entry_reading_of entries.now)) }
{
    let mut indices = BTreeMap::new(alloc);
    'entries: for (index, entry) in entries.iter().enumerate() {
        give_alias_index(&mut indices, alloc, entry, index)?;
    }
    Ok(indices)
}

// Returns the keys of entries.
fn key_texts<'s>(
    alloc: Global,
    entries: &[Spanned<RawEntry<'s>>],
) -> Result<Vec<&'s str>, AllocError>
    ensures { IfOk result (λ keys. map (λ k. k.now) keys.items ≡ map (λ e. e.key.text) (map entry_reading_of entries.now)) }
{
    let mut keys = Vec::with_capacity(alloc, entries.len())?;
    'entries: for entry in entries {
        keys.push(entry.v.key.v)?;
    }
    Ok(keys)
}

// Returns the key at an index, or an empty text if there is none.
fn key_at<'s>(keys: &[&'s str], index: usize) -> &'s str
    ensures { result.now ≡ slice_index_or (map (λ k. k.now) keys.now) index [] }
{
    match keys.get(index) {
        Some(key) => *key,
        None => "",
    }
}

// Returns the index `found`, unless `other` is the index of another key.
fn unless_other(keys: &[&str], found: Option<&usize>, other: Option<&usize>) -> Option<usize>
    ensures { result ≡ references.unless_other (map (λ k. k.now) keys.now)
        (option_map (λ i. i.now) found.entry) (option_map (λ i. i.now) other.entry) }
{
    let index = *found?;
    match other {
        Some(other) if key_at(keys, *other) != key_at(keys, index) => None,
        _ => Some(index),
    }
}

impl<'k, 's> Names<'k, 's> {
    /// Returns the new keys, with the indices of the entries by their names.
    pub fn new(
        alloc: Global,
        entries: &[Spanned<RawEntry<'s>>],
        keys: NewKeys<'k>,
    ) -> Result<Self, AllocError>
        ensures keys { IfOk result (λ names. names.keys ≡ keys.entry) }
        ensures names { IfOk result (λ names. (field name : List ℕ) →
            name_for names field name ≡ new_reference (map entry_reading_of entries.now) (key_for keys.entry) field name) }
    {
        Ok(Names {
            keys,
            exact: key_indices(alloc, entries)?,
            in_lowercase: lowercase_indices(alloc, entries)?,
            aliases: alias_indices(alloc, entries)?,
            texts: key_texts(alloc, entries)?,
        })
    }

    // Returns the index of the entry that a name in a field means, if there is one.
    fn index_of(&self, alloc: Global, field: &str, name: &str) -> Result<Option<usize>, AllocError>
        ensures { IfOk result (λ index. index ≡ spec.index_in_names self.now field.now name.now) }
    {
        if let Some(index) = self.exact.get(name) {
            return Ok(Some(*index));
        }
        if !is_word(field, "crossref") {
            return Ok(None);
        }
        let lower = name.to_ascii_lowercase(alloc)?;
        Ok(unless_other(
            &self.texts,
            self.in_lowercase.get(lower.as_str()),
            self.aliases.get(name),
        ))
    }

    // Returns the new key of the entry that a name in a field means, if the entry gets one.
    pub(crate) fn name_for(
        &self,
        alloc: Global,
        field: &str,
        name: &str,
    ) -> Result<Option<&'k str>, AllocError>
        ensures { IfOk result (λ key. option_map (λ k. k.now) key ≡ spec.name_for self.now field.now name.now) }
    {
        match self.index_of(alloc, field, name)? {
            Some(index) => Ok(self.keys.at(index)),
            None => Ok(None),
        }
    }
}
