//! Entries that one side renamed: they have a new key and the same content. Before a merge each version gets their new keys, so that the
//! merge finds such an entry on both sides.
//!
//! A rename counts if exactly one entry of each version has the old or the new key. If a version has both, or neither, the entry isn't
//! renamed, so that no entry is lost. If two versions have the same text, no rename counts. So a merge with an unchanged side stays the
//! text of the other side.

ghost use Rattle.std.specs.Prelude.{◌≡◌, ◌≢◌, ◌==◌, ◌+◌, ◌∷◌, ◌++◌, [], ℕ, List, IfErr, IfOk, OnOk, Some, filter, is_none, map, option_and_then, option_map, slice_get, unwrap_or};
ghost use Rattle.std.specs.FinMap.{get};
ghost use Rattle.std.specs.List.{list_all};
ghost use Rattle.std.specs.Option.{option_or};
ghost use Rattle.std.specs.String.{string_bytes};
ghost use Rattle.bib_syntax.specs.Views.{entry_reading_of};
ghost use Rattle.edit_changes.specs.Counts.{AreCounts};
ghost use Rattle.edit_entries.specs.References.{KeysAreRefused};
ghost use Rattle.edit_entries.specs.declared.errors.EditError.TheVariants.{OutOfMemory};
ghost use Rattle.edit_merge.specs.RenameViews.{AreKeyCounts, documents_of, replacement_in, rename_view};
ghost use Rattle.edit_merge.specs.Renames as spec;
ghost use Rattle.edit_merge.specs.Views.{new_texts_of, versions_of};
ghost use Rattle.edit_units.specs.Views.{unit_reading_of};
ghost use Rattle.edit_versions.specs.Versions.{version_unit};

use crate::entries::document;
use crate::picking::Versions;
use bib_collections::claims::Claims;
use bib_syntax::raw::RawEntry;
use bib_text::spanned::Spanned;
use bib_text::text::Text;
use edit_changes::renames::renamed_indices;
use edit_entries::document::RawDocument;
use edit_entries::errors::EditError;
use edit_units::units::Unit;
use edit_versions::alike::single_entry;
use std::alloc::{AllocError, Global};
use std::collections::BTreeMap;

// The versions of a merge as documents.
#[derive(Clone, Copy)]
struct Documents<'d, 's> {
    base: &'d RawDocument<'s>,
    ours: &'d RawDocument<'s>,
    theirs: &'d RawDocument<'s>,
}

// The old and the new key of a renamed entry.
#[derive(Clone, Copy)]
struct Rename<'s> {
    old: &'s str,
    new: &'s str,
}

// The number of entries with each key in each version.
#[derive(Drop)]
struct KeyCounts {
    base: Claims,
    ours: Claims,
    theirs: Claims,
}

// ---- which renames count

// Returns the number of entries with each key.
fn key_counts(alloc: Global, entries: &[Spanned<RawEntry<'_>>]) -> Result<Claims, AllocError>
    ensures { IfOk result (λ counts. AreCounts (map (λ e. e.key.text) (map entry_reading_of entries.now)) counts) }
{
    let mut counts = Claims::new(alloc);
    'entries: for entry in entries {
        let key = entry.v.key.v;
        let number = counts.get(key).unwrap_or(0);
        counts.claim(Text::from_str(alloc, key)?, number + 1)?;
    }
    Ok(counts)
}

// Returns whether exactly one entry has one of two keys, given the number of entries with each key.
fn has_one(counts: &Claims, old: &str, new: &str) -> bool
    ensures { result ≡ (unwrap_or (get counts.now old.now) 0 + unwrap_or (get counts.now new.now) 0 == 1) }
{
    let old_count = counts.get(old).unwrap_or(0);
    let new_count = counts.get(new).unwrap_or(0);
    (old_count == 1 && new_count == 0) || (old_count == 0 && new_count == 1)
}

impl KeyCounts {
    // Counts the keys of the versions.
    fn of(alloc: Global, documents: Documents<'_, '_>) -> Result<Self, AllocError>
        ensures { IfOk result (AreKeyCounts (documents_of documents.entry)) }
    {
        Ok(KeyCounts {
            base: key_counts(alloc, &documents.base.raw().entries)?,
            ours: key_counts(alloc, &documents.ours.raw().entries)?,
            theirs: key_counts(alloc, &documents.theirs.raw().entries)?,
        })
    }

    // Returns whether exactly one entry of each version has the old or the new key of a rename.
    fn have_one(&self, rename: Rename<'_>) -> bool
        ensures { (ds : spec.Documents) → AreKeyCounts ds self.now → result ≡ spec.have_one ds (rename_view rename.entry) }
    {
        if !has_one(&self.base, rename.old, rename.new) {
            return false;
        }
        if !has_one(&self.ours, rename.old, rename.new) {
            return false;
        }
        has_one(&self.theirs, rename.old, rename.new)
    }
}

// Returns the key of the only entry of a unit.
fn single_key<'s>(unit: Option<&Unit<'s>>) -> Option<&'s str>
    ensures { option_map (λ k. k.now) result ≡ spec.single_key (option_map (λ u. unit_reading_of u.now) unit.entry) }
{
    match unit {
        Some(unit) => match single_entry(unit) {
            Some(entry) => Some(entry.v.key.v),
            None => None,
        },
        None => None,
    }
}

// Returns the new key of an entry, given those on both sides: that of the side that renamed it, or of both if they are equal.
fn agreed_key<'s>(ours: Option<&'s str>, theirs: Option<&'s str>) -> Option<&'s str>
    ensures { option_map (λ k. k.now) result ≡
        spec.agreed_key (option_map (λ k. k.now) ours.entry) (option_map (λ k. k.now) theirs.entry) }
{
    match ours {
        Some(ours) => match theirs {
            Some(theirs) if ours != theirs => None,
            _ => Some(ours),
        },
        None => theirs,
    }
}

// Returns the index at a place in a list of indices, if there is one.
fn index_in(indices: &[Option<usize>], place: usize) -> Option<usize>
    ensures { result ≡ option_and_then (λ i. i) (slice_get indices.now place) }
{
    match indices.get(place) {
        Some(index) => *index,
        None => None,
    }
}

// Returns the rename of the entry at an index of the base, given its index on each side that renamed it.
fn rename_at<'s>(
    versions: Versions<'_, 's>,
    index: usize,
    ours: Option<usize>,
    theirs: Option<usize>,
) -> Option<Rename<'s>>
    ensures { option_map rename_view result ≡ spec.rename_from
        (spec.single_key (version_unit versions.entry.base.now (Some index)))
        (spec.agreed_key (spec.single_key (version_unit versions.entry.ours.now ours))
        (spec.single_key (version_unit versions.entry.theirs.now theirs))) }
{
    let old = single_key(versions.base.unit_at(Some(index)))?;
    let our_key = single_key(versions.ours.unit_at(ours));
    let their_key = single_key(versions.theirs.unit_at(theirs));
    let new = agreed_key(our_key, their_key)?;
    Some(Rename { old, new })
}

// Returns whether no two versions have the same text.
fn have_different_texts(versions: Versions<'_, '_>) -> bool
    ensures { result ≡ spec.have_different_texts (versions_of versions.entry) }
{
    let base = versions.base.text();
    let ours = versions.ours.text();
    let theirs = versions.theirs.text();
    ours != base && theirs != base && ours != theirs
}

// Returns the renames of both sides, in the order of the entries in the base.
fn renames_of_sides<'s>(
    alloc: Global,
    versions: Versions<'_, 's>,
) -> Result<Vec<Rename<'s>>, AllocError>
    ensures { IfOk result (λ found. map rename_view found.items ≡ spec.renames_of_sides (versions_of versions.entry)) }
{
    let ours = renamed_indices(alloc, versions.base, versions.ours)?;
    let theirs = renamed_indices(alloc, versions.base, versions.theirs)?;
    let mut renames = Vec::new(alloc);
    let names = versions.base.names();
    'names: for (index, _name) in names.iter().enumerate() {
        let our_index = index_in(&ours, index);
        let their_index = index_in(&theirs, index);
        if let Some(rename) = rename_at(versions, index, our_index, their_index) {
            renames.push(rename)?;
        }
    }
    Ok(renames)
}

// Returns the renames of which exactly one entry of each version has the old or the new key.
fn counted_renames<'s>(
    alloc: Global,
    renames: &[Rename<'s>],
    counts: &KeyCounts,
) -> Result<Vec<Rename<'s>>, AllocError>
    ensures { IfOk result (λ found. (ds : spec.Documents) → AreKeyCounts ds counts.now →
        map rename_view found.items ≡ filter (spec.have_one ds) (map rename_view renames.now)) }
{
    let mut found = Vec::new(alloc);
    'renames: for rename in renames {
        if counts.have_one(*rename) {
            found.push(*rename)?;
        }
    }
    Ok(found)
}

// ---- the new texts

// Gives a key a new key, unless it has one.
fn give_key<'s>(keys: &mut BTreeMap<&'s str, &'s str>, rename: Rename<'s>) -> Result<(), AllocError>
    ensures { OnOk result ((key : List ℕ) → replacement_in keys.new key ≡
        option_or (replacement_in keys.old key) (spec.new_key (rename_view rename.entry ∷ []) key)) }
{
    if keys.contains_key(rename.old) {
        return Ok(());
    }
    keys.insert(rename.old, rename.new)?;
    Ok(())
}

// Returns the new key of each old one.
fn keys_of<'s>(
    alloc: Global,
    renames: &[Rename<'s>],
) -> Result<BTreeMap<&'s str, &'s str>, AllocError>
    ensures { IfOk result (λ keys. (key : List ℕ) → replacement_in keys key ≡ spec.new_key (map rename_view renames.now) key) }
{
    let mut keys = BTreeMap::new(alloc);
    'renames: for rename in renames {
        give_key(&mut keys, *rename)?;
    }
    Ok(keys)
}

// Returns for each entry the new key that replaces its key, if there is one.
fn new_keys<'s>(
    alloc: Global,
    entries: &[Spanned<RawEntry<'_>>],
    keys: &BTreeMap<&'s str, &'s str>,
) -> Result<Vec<Option<&'s str>>, AllocError>
    ensures { IfOk result (λ new. map (option_map (λ k. k.now)) new.items ≡
        map (λ e. replacement_in keys.now e.key.text) (map entry_reading_of entries.now)) }
{
    let mut new = Vec::new(alloc);
    'entries: for entry in entries {
        new.push(keys.get(entry.v.key.v).copied())?;
    }
    Ok(new)
}

// Returns whether no entry gets a new key.
fn are_absent(keys: &[Option<&str>]) -> bool
    ensures { result ≡ list_all (λ k. is_none k) keys.now }
{
    keys.iter().all(|key| key.is_none())
}

// Returns the text of a document with new keys for old ones, or `None` if no entry has one of these.
fn new_text<'k>(
    alloc: Global,
    document: &RawDocument<'_>,
    keys: &BTreeMap<&'k str, &'k str>,
) -> Result<Option<String>, EditError>
    ensures text { IfOk result (λ text. spec.IsNewText (replacement_in keys.now) document.now (option_map string_bytes text)) }
    ensures refused { IfErr result (KeysAreRefused document.now (spec.keys_after (replacement_in keys.now) document.now)) }
{
    let new = new_keys(alloc, &document.raw().entries, keys)?;
    if are_absent(&new) {
        return Ok(None);
    }
    Ok(Some(document.rename_keys(alloc, &new)?))
}

/// The new texts of the versions of a merge. A version whose text stays has none.
#[derive(Debug, Drop)]
pub struct RenamedTexts {
    /// The new text of the common base.
    pub base: Option<String>,
    /// The new text of our side.
    pub ours: Option<String>,
    /// The new text of their side.
    pub theirs: Option<String>,
}

impl RenamedTexts {
    // Returns no texts.
    fn none() -> Self
        ensures { new_texts_of result ≡ spec.no_texts }
    {
        RenamedTexts {
            base: None,
            ours: None,
            theirs: None,
        }
    }
}

// Returns the texts of the versions with new keys for old ones.
fn new_texts<'k>(
    alloc: Global,
    documents: Documents<'_, '_>,
    keys: &BTreeMap<&'k str, &'k str>,
) -> Result<RenamedTexts, EditError>
    ensures texts { IfOk result (λ texts. spec.AreNewTexts (replacement_in keys.now) (documents_of documents.entry) (new_texts_of texts)) }
    ensures refused { IfErr result (λ e. e ≢ OutOfMemory →
        spec.AreNewTexts (replacement_in keys.now) (documents_of documents.entry) spec.no_texts) }
{
    Ok(RenamedTexts {
        base: new_text(alloc, documents.base, keys)?,
        ours: new_text(alloc, documents.ours, keys)?,
        theirs: new_text(alloc, documents.theirs, keys)?,
    })
}

// Returns an `AllocError` if the error is `OutOfMemory`.
fn unless_out_of_memory(error: EditError) -> Result<(), AllocError>
    ensures { OnOk result (error ≢ OutOfMemory) }
{
    match error {
        EditError::OutOfMemory => Err(AllocError),
        _ => Ok(()),
    }
}

// Returns the texts of the versions with new keys for old ones, or none if the new keys of a version are refused.
fn new_texts_or_none<'k>(
    alloc: Global,
    documents: Documents<'_, '_>,
    keys: &BTreeMap<&'k str, &'k str>,
) -> Result<RenamedTexts, AllocError>
    ensures { IfOk result (λ texts. spec.AreNewTexts (replacement_in keys.now) (documents_of documents.entry) (new_texts_of texts)) }
{
    match new_texts(alloc, documents, keys) {
        Ok(texts) => Ok(texts),
        Err(error) => {
            unless_out_of_memory(error)?;
            Ok(RenamedTexts::none())
        }
    }
}

// Returns the new texts of the versions, given the renames of both sides and the documents of the versions.
fn texts_of_documents(
    alloc: Global,
    renames: &[Rename<'_>],
    documents: Documents<'_, '_>,
) -> Result<RenamedTexts, AllocError>
    ensures { IfOk result (λ texts. spec.AreNewTexts
        (spec.new_key (filter (spec.have_one (documents_of documents.entry)) (map rename_view renames.now)))
        (documents_of documents.entry) (new_texts_of texts)) }
{
    let counts = KeyCounts::of(alloc, documents)?;
    let counted = counted_renames(alloc, renames, &counts)?;
    let keys = keys_of(alloc, &counted)?;
    new_texts_or_none(alloc, documents, &keys)
}

// Returns the texts of the versions after those of `renames` that count.
fn texts_after(
    alloc: Global,
    versions: Versions<'_, '_>,
    renames: &[Rename<'_>],
) -> Result<RenamedTexts, AllocError>
    ensures { IfOk result (λ texts. (ds : spec.Documents) → spec.AreDocumentsOf (versions_of versions.entry) ds →
        spec.AreNewTexts (spec.new_key (filter (spec.have_one ds) (map rename_view renames.now))) ds (new_texts_of texts)) }
{
    if renames.is_empty() {
        return Ok(RenamedTexts::none());
    }
    let Some(base) = document(alloc, versions.base.text())? else {
        return Ok(RenamedTexts::none());
    };
    let Some(ours) = document(alloc, versions.ours.text())? else {
        return Ok(RenamedTexts::none());
    };
    let Some(theirs) = document(alloc, versions.theirs.text())? else {
        return Ok(RenamedTexts::none());
    };
    let documents = Documents {
        base: &base,
        ours: &ours,
        theirs: &theirs,
    };
    texts_of_documents(alloc, renames, documents)
}

/// Returns the texts of the versions after the renames that count. An entry that one side renamed gets its new key in the base and on the
/// other side, and so do the references to it (see `RawDocument::rename_keys`). An entry is renamed if its key is new and the rest of its
/// content is the same (see `renamed_indices` of `edit_changes`).
///
/// A rename counts if exactly one entry of each version has the old or the new key, and the sides didn't give the entry different keys. If
/// two versions have the same text, no rename counts. If the new keys of one version are refused, all texts stay.
///
/// # Errors
///
/// Returns an error only if out of memory.
pub fn renamed_texts(alloc: Global, versions: Versions<'_, '_>) -> Result<RenamedTexts, AllocError>
    ensures { IfOk result (λ texts. spec.HaveNewTexts (versions_of versions.entry) (new_texts_of texts)) }
{
    if !have_different_texts(versions) {
        return Ok(RenamedTexts::none());
    }
    let renames = renames_of_sides(alloc, versions)?;
    texts_after(alloc, versions, &renames)
}
