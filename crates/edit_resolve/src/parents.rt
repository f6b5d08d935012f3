//! The parents of entries: the entries that they inherit from.

ghost use Rattle.std.specs.Prelude.{◌≡◌, ◌++◌, ◌∷◌, ◌<◌, [], ℕ, List, length, map, slice_index_or, IfOk, OnOk};
ghost use Rattle.std.specs.List.{filter_map, flat_map, list_all};
ghost use Rattle.std.specs.Option.{option_map};
ghost use Rattle.bib_collections.specs.Rows.{rows};
ghost use Rattle.bib_queries.specs.Names.{comma_parts, name_if_filled};
ghost use Rattle.bib_queries.specs.Texts.{text_list};
ghost use Rattle.bib_syntax.specs.Views.{entry_reading_of, field_of, piece_of};
ghost use Rattle.edit_strings.specs.Collected as texts;
ghost use Rattle.edit_resolve.specs.Parents as spec;
ghost use Rattle.edit_resolve.specs.Uninherited.{reference_parents};
ghost use Rattle.edit_resolve.specs.Working.{HasNames, parent_lists, readings};

use crate::file::File;
use bib_syntax::raw::{Pair, RawChunk, RawEntry, is_word};
use bib_text::spanned::Spanned;
use std::alloc::{AllocError, Global};

/// A reference by which an entry inherits.
#[derive(Debug, Clone, Copy, PartialEq, Eq)]
pub enum Link {
    /// The field `crossref`.
    Crossref,
    /// The field `xdata`.
    Xdata,
}

/// An entry that another one inherits from.
#[derive(Debug, Clone, Copy, PartialEq, Eq)]
pub struct Parent {
    /// The reference.
    pub link: Link,
    /// The index of the entry.
    pub index: usize,
}

// Returns the name of the field of a reference.
fn link_name(link: Link) -> &'static str
    ensures { result.now ≡ spec.link_name link }
{
    match link {
        Link::Crossref => "crossref",
        Link::Xdata => "xdata",
    }
}

// Appends a key unless it is empty.
fn push_filled<'s>(keys: &mut Vec<&'s str>, key: &'s str) -> Result<(), AllocError>
    ensures { OnOk result (text_list keys.new ≡ text_list keys.old ++ name_if_filled key.now) }
{
    if key.is_empty() {
        return Ok(());
    }
    keys.push(key)?;
    Ok(())
}

// Appends the keys of a list with commas between them.
fn push_parts<'s>(keys: &mut Vec<&'s str>, list: &'s str) -> Result<(), AllocError>
    ensures { OnOk result (text_list keys.new ≡ text_list keys.old ++ comma_parts list.now) }
{
    'parts: for part in list.split(',') {
        push_filled(keys, part.trim())?;
    }
    Ok(())
}

// Returns the keys in the text of a reference.
fn named_keys<'s>(alloc: Global, link: Link, text: &'s str) -> Result<Vec<&'s str>, AllocError>
    ensures { IfOk result (λ keys. text_list keys ≡ spec.named_keys link text.now) }
{
    let mut keys = Vec::new(alloc);
    match link {
        Link::Crossref => push_filled(&mut keys, text.trim())?,
        Link::Xdata => push_parts(&mut keys, text)?,
    }
    Ok(keys)
}

// Returns the text of a value, if it is one literal.
fn single_text<'s>(pieces: &[Spanned<RawChunk<'s>>]) -> Option<&'s str>
    ensures { option_map (λ t. t.now) result ≡ texts.single_text (map piece_of pieces.now) }
{
    match pieces {
        [piece] => match piece.v {
            RawChunk::Normal(text) => Some(text),
            RawChunk::Abbreviation(_) => None,
        },
        _ => None,
    }
}

// Returns the keys in a field; none if the field is no such reference, or its value isn't one literal.
fn field_keys<'s>(alloc: Global, link: Link, field: &Pair<'s>) -> Result<Vec<&'s str>, AllocError>
    ensures { IfOk result (λ keys. text_list keys ≡ spec.field_keys link (field_of field.now)) }
{
    if !is_word(field.key.v, link_name(link)) {
        return Ok(Vec::new(alloc));
    }
    match single_text(&field.value.v) {
        Some(text) => named_keys(alloc, link, text),
        None => Ok(Vec::new(alloc)),
    }
}

// Appends the parent that a reference finds by a key, if it finds one.
fn push_parent(
    parents: &mut Vec<Parent>,
    file: &File<'_, '_>,
    link: Link,
    key: &str,
) -> Result<(), AllocError>
    requires { HasNames file.now }
    ensures { OnOk result (parents.new.items ≡ parents.old.items ++
        map (spec.parent link) (filter_map (spec.parent_index (readings file.now) link) (key.now ∷ []))) }
{
    if let Some(index) = file.parent_index(link, key) {
        parents.push(Parent { link, index })?;
    }
    Ok(())
}

// Appends the parents that a reference finds by keys.
fn push_found(
    parents: &mut Vec<Parent>,
    file: &File<'_, '_>,
    link: Link,
    keys: &[&str],
) -> Result<(), AllocError>
    requires { HasNames file.now }
    ensures { OnOk result (parents.new.items ≡ parents.old.items ++
        map (spec.parent link) (filter_map (spec.parent_index (readings file.now) link) (map (λ key. key.now) keys.now))) }
{
    'keys: for key in keys {
        push_parent(parents, file, link, *key)?;
    }
    Ok(())
}

// Appends the parents that a field refers to.
fn push_field_parents(
    parents: &mut Vec<Parent>,
    alloc: Global,
    file: &File<'_, '_>,
    link: Link,
    field: &Pair<'_>,
) -> Result<(), AllocError>
    requires { HasNames file.now }
    ensures { OnOk result (parents.new.items ≡ parents.old.items ++ spec.field_parents (readings file.now) link (field_of field.now)) }
{
    let keys = field_keys(alloc, link, field)?;
    push_found(parents, file, link, &keys)
}

// Appends the parents that fields refer to.
fn push_linked(
    parents: &mut Vec<Parent>,
    alloc: Global,
    file: &File<'_, '_>,
    link: Link,
    fields: &[Pair<'_>],
) -> Result<(), AllocError>
    requires { HasNames file.now }
    ensures { OnOk result (parents.new.items ≡ parents.old.items ++ spec.linked (readings file.now) link (map field_of fields.now)) }
{
    'fields: for field in fields {
        push_field_parents(parents, alloc, file, link, field)?;
    }
    Ok(())
}

// Returns the parents of an entry: those of `xdata`, and then those of `crossref`, each from the last to the first.
fn parents(
    alloc: Global,
    file: &File<'_, '_>,
    entry: &Spanned<RawEntry<'_>>,
) -> Result<Vec<Parent>, AllocError>
    requires { HasNames file.now }
    ensures { IfOk result (λ found. found.items ≡ spec.parents (readings file.now) (entry_reading_of entry.now)) }
{
    let mut found = Vec::new(alloc);
    push_linked(&mut found, alloc, file, Link::Crossref, &entry.v.fields)?;
    push_linked(&mut found, alloc, file, Link::Xdata, &entry.v.fields)?;
    found.reverse();
    Ok(found)
}

// Returns the parents of each entry.
pub(crate) fn all_parents(
    alloc: Global,
    file: &File<'_, '_>,
) -> Result<Vec<Vec<Parent>>, AllocError>
    requires { HasNames file.now }
    ensures { IfOk result (λ found. parent_lists found.items ≡ map (spec.parents (readings file.now)) (readings file.now)) }
{
    let mut found = Vec::with_capacity(alloc, file.entries.len())?;
    'entries: for entry in file.entries {
        found.push(parents(alloc, file, entry)?)?;
    }
    Ok(found)
}

// Returns the parents of the entry at an index.
pub(crate) fn parents_at(parents: &[Vec<Parent>], index: usize) -> &[Parent]
    requires { index < length parents.now }
    ensures { result.now ≡ slice_index_or (parent_lists parents.now) index [] }
{
    &parents[index]
}

// Returns the indices of parents.
fn indices(alloc: Global, parents: &[Parent]) -> Result<Vec<usize>, AllocError>
    ensures { IfOk result (λ found. found.items ≡ map (λ p. p.index) parents.now) }
{
    parents.iter().map(|parent| parent.index).collect(alloc)
}

// Returns for each entry the indices of its parents.
pub(crate) fn graph(alloc: Global, parents: &[Vec<Parent>]) -> Result<Vec<Vec<usize>>, AllocError>
    ensures { IfOk result (λ found. rows found.items ≡ map (λ ps. map (λ p. p.index) ps.items) parents.now) }
{
    let mut found = Vec::with_capacity(alloc, parents.len())?;
    'parents: for row in parents {
        found.push(indices(alloc, row)?)?;
    }
    Ok(found)
}

// Returns whether there are keys, and a parent is found by each of them.
fn are_found(file: &File<'_, '_>, link: Link, keys: &[&str]) -> bool
    requires { HasNames file.now }
    ensures { result ≡ spec.are_found (readings file.now) link (map (λ key. key.now) keys.now) }
{
    'keys: for key in keys {
        if file.parent_index(link, *key).is_none() {
            return false;
        }
    }
    !keys.is_empty()
}

// Returns whether a field is a reference with keys, by each of which a parent is found.
pub(crate) fn is_resolved(
    alloc: Global,
    file: &File<'_, '_>,
    field: &Pair<'_>,
) -> Result<bool, AllocError>
    requires { HasNames file.now }
    ensures { IfOk result (λ resolved. resolved ≡ spec.is_resolved (readings file.now) (field_of field.now)) }
{
    let keys = field_keys(alloc, Link::Crossref, field)?;
    if are_found(file, Link::Crossref, &keys) {
        return Ok(true);
    }
    let keys = field_keys(alloc, Link::Xdata, field)?;
    Ok(are_found(file, Link::Xdata, &keys))
}

// Returns the parents that a reference names, in order; none if it isn't resolved.
pub(crate) fn reference_parents(
    alloc: Global,
    file: &File<'_, '_>,
    field: &Pair<'_>,
) -> Result<Vec<Parent>, AllocError>
    requires { HasNames file.now }
    ensures { IfOk result (λ found. found.items ≡ reference_parents (readings file.now) (field_of field.now)) }
{
    let mut found = Vec::new(alloc);
    if !is_resolved(alloc, file, field)? {
        return Ok(found);
    }
    push_field_parents(&mut found, alloc, file, Link::Crossref, field)?;
    push_field_parents(&mut found, alloc, file, Link::Xdata, field)?;
    Ok(found)
}
