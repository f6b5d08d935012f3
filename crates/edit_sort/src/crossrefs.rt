//! The keys of entries, and the references between entries by `crossref`.

ghost use Rattle.std.specs.Prelude.{◌≡◌, ◌<◌, ◌&&◌, ◌||◌, ℕ, Bool, [], IfOk, OnOk, if◌then◌else◌, is_some, length, map};
ghost use Rattle.std.specs.FinMap.{get, insert};
ghost use Rattle.std.specs.List.{list_any};
ghost use Rattle.std.specs.Option.{option_map};
ghost use Rattle.std.specs.Str.{str_to_ascii_lowercase};
ghost use Rattle.bib_collections.specs.Graph.{refs_of};
ghost use Rattle.bib_collections.specs.Names.{AreIndicesBelow};
ghost use Rattle.bib_collections.specs.Rows.{rows};
ghost use Rattle.bib_syntax.specs.Views.{entry_reading_of, field_of, piece_of};
ghost use Rattle.edit_sort.specs.Ranks.{AreChildren, AreKeyIndices, names_index, owner, points_to};
ghost use Rattle.edit_sort.specs.Sorted as sorted;

use bib_collections::claims::Claims;
use bib_syntax::raw::{Pair, RawChunk, RawEntry, is_word};
use bib_text::spanned::Spanned;
use bib_text::text::Text;
use std::alloc::{AllocError, Global};

// Returns the text of a value that is one literal, without white space at its ends.
fn one_text<'s>(pieces: &[Spanned<RawChunk<'s>>]) -> Option<&'s str>
    ensures { option_map (λ text. text.now) result ≡ sorted.one_text (map piece_of pieces.now) }
{
    match pieces {
        [piece] => match piece.v {
            RawChunk::Normal(text) => Some(text.trim()),
            RawChunk::Abbreviation(_) => None,
        },
        _ => None,
    }
}

// Returns the key that a field names, if the field is a `crossref` and its value is one literal.
fn crossref<'s>(field: &Pair<'s>) -> Option<&'s str>
    ensures { option_map (λ key. key.now) result ≡ sorted.crossref (field_of field.now) }
{
    if is_word(field.key.v, "crossref") {
        one_text(&field.value.v)
    } else {
        None
    }
}

// Returns a key in ASCII lowercase.
fn lowercase(alloc: Global, key: &str) -> Result<Text, AllocError>
    ensures { IfOk result (λ lower. lower ≡ str_to_ascii_lowercase key.now) }
{
    let lower = key.to_ascii_lowercase(alloc)?;
    Ok(Text::from_string(lower))
}

// Makes a key point to an index, unless it already points to one.
fn claim_first(names: &mut Claims, key: Text, index: usize) -> Result<(), AllocError>
    ensures { OnOk result (names.new ≡ (if is_some (get names.old key) then names.old else insert names.old key index)) }
{
    match names.get(key.as_str()) {
        Some(_) => Ok(()),
        None => names.claim(key, index),
    }
}

// Returns the keys of entries in ASCII lowercase. Each points to the index of the first entry with that key.
pub(crate) fn key_indices(
    alloc: Global,
    entries: &[Spanned<RawEntry<'_>>],
) -> Result<Claims, AllocError>
    ensures { IfOk result (AreKeyIndices (map entry_reading_of entries.now)) }
{
    let mut names = Claims::new(alloc);
    'entries: for (index, entry) in entries.iter().enumerate() {
        let key = lowercase(alloc, entry.v.key.v)?;
        claim_first(&mut names, key, index)?;
    }
    Ok(names)
}

// Returns the index that a key points to, in any ASCII case, or `None` if no entry has the key.
fn index_of(alloc: Global, names: &Claims, key: &str) -> Result<Option<usize>, AllocError>
    ensures { IfOk result (λ index. index ≡ get names.now (str_to_ascii_lowercase key.now)) }
{
    let lower = lowercase(alloc, key)?;
    Ok(names.get(lower.as_str()))
}

// Returns the owner of each entry: the index that its key points to, which is that of the first entry with its key in any ASCII case.
pub(crate) fn owners_of(
    alloc: Global,
    names: &Claims,
    entries: &[Spanned<RawEntry<'_>>],
) -> Result<Vec<usize>, AllocError>
    ensures { IfOk result (λ owners. owners.items ≡ map (owner names.now) (map entry_reading_of entries.now)) }
{
    let mut owners = Vec::new(alloc);
    'entries: for entry in entries {
        let index = index_of(alloc, names, entry.v.key.v)?;
        owners.push(index.unwrap_or(0))?;
    }
    Ok(owners)
}

// Adds `child` to the row of the index that a key points to, if it points to one.
fn add_child(
    alloc: Global,
    names: &Claims,
    key: &str,
    child: usize,
    children: &mut Vec<Vec<usize>>,
) -> Result<(), AllocError>
    requires below { AreIndicesBelow (length children.old.items) names.now }
    ensures length { length children.new.items ≡ length children.old.items }
    ensures rows { OnOk result ((test : ℕ → Bool) (index : ℕ) → list_any test (refs_of (rows children.new.items) index)
        ≡ (list_any test (refs_of (rows children.old.items) index) || (points_to names.now index key.now && test child))) }
{
    match index_of(alloc, names, key)? {
        Some(index) => {
            children[index].push(child)?;
            Ok(())
        }
        None => Ok(()),
    }
}

// Adds `child` to the row of the index that a field refers to, if the field is a `crossref` that names a known key.
fn add_reference(
    alloc: Global,
    names: &Claims,
    field: &Pair<'_>,
    child: usize,
    children: &mut Vec<Vec<usize>>,
) -> Result<(), AllocError>
    requires below { AreIndicesBelow (length children.old.items) names.now }
    ensures length { length children.new.items ≡ length children.old.items }
    ensures rows { OnOk result ((test : ℕ → Bool) (index : ℕ) → list_any test (refs_of (rows children.new.items) index)
        ≡ (list_any test (refs_of (rows children.old.items) index) || (names_index names.now index (field_of field.now) && test child))) }
{
    match crossref(field) {
        Some(key) => add_child(alloc, names, key, child, children),
        None => Ok(()),
    }
}

// Adds `child` to the row of each index that one of these fields refers to.
fn add_references(
    alloc: Global,
    names: &Claims,
    fields: &[Pair<'_>],
    child: usize,
    children: &mut Vec<Vec<usize>>,
) -> Result<(), AllocError>
    requires below { AreIndicesBelow (length children.old.items) names.now }
    ensures length { length children.new.items ≡ length children.old.items }
    ensures rows { OnOk result ((test : ℕ → Bool) (index : ℕ) → list_any test (refs_of (rows children.new.items) index)
        ≡ (list_any test (refs_of (rows children.old.items) index)
        || (list_any (names_index names.now index) (map field_of fields.now) && test child))) }
{
    'fields: for field in fields {
        add_reference(alloc, names, field, child, children)?;
    }
    Ok(())
}

// Returns empty rows, as many as `count`.
fn empty_rows(alloc: Global, count: usize) -> Result<Vec<Vec<usize>>, AllocError>
    ensures length { IfOk result (λ found. length found.items ≡ count) }
    ensures rows { IfOk result (λ found. (index : ℕ) → refs_of (rows found.items) index ≡ []) }
{
    let mut found = Vec::new(alloc);
    'rows: for _index in 0..count {
        found.push(Vec::new(alloc))?;
    }
    Ok(found)
}

// Returns a row for each index: the owners of the entries whose `crossref` names a key that points to this index.
pub(crate) fn children_of(
    alloc: Global,
    names: &Claims,
    owners: &[usize],
    entries: &[Spanned<RawEntry<'_>>],
) -> Result<Vec<Vec<usize>>, AllocError>
    requires below { AreIndicesBelow (length entries.now) names.now }
    requires owners { owners.now ≡ map (owner names.now) (map entry_reading_of entries.now) }
    ensures length { IfOk result (λ children. length children.items ≡ length entries.now) }
    ensures rows { IfOk result (λ children. AreChildren names.now (map entry_reading_of entries.now) (rows children.items)) }
{
    let mut children = empty_rows(alloc, entries.len())?;
    'entries: for (index, entry) in entries.iter().enumerate() {
        add_references(alloc, names, &entry.v.fields, owners[index], &mut children)?;
    }
    Ok(children)
}
