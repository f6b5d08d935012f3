//! Notes on references that stay as they are when entries get new keys.

ghost use Rattle.std.specs.Prelude.{◌≡◌, ◌++◌, ℕ, IfOk, OnOk, map};
ghost use Rattle.std.specs.List.{flat_map};
ghost use Rattle.std.specs.String.{string_bytes};
ghost use Rattle.bib_source.specs.Positions.{position_at};
ghost use Rattle.edit_entries.specs.NewKeys.{key_for};
ghost use Rattle.edit_strings.specs.Views.{left_of, lent_left};
ghost use Rattle.bibkit_edits.specs.LeftNotes as spec;
ghost use Rattle.bibkit_edits.specs.LeftNotes.{AreDocumentNotes, AreLeftNotes};

use crate::edit::Edit;
use bib_source::positions::{Position, Positions};
use edit_entries::document::RawDocument;
use edit_entries::lookup::entry_index;
use edit_entries::new_keys::NewKeys;
use edit_strings::left_references::{LeftReference, left_references};
use std::alloc::{AllocError, Global};

// Returns the note on a reference whose field begins at this position.
fn left_note(
    alloc: Global,
    name: &str,
    place: Position,
    left: &LeftReference<'_, '_>,
) -> Result<String, AllocError>
    ensures { IfOk result (λ note. string_bytes note ≡ spec.left_note name.now place (left_of left.now)) }
{
    format!(in alloc;
        "{name}:{}:{}: note: `{}` of entry `{}` names `{}` by an abbreviation or in parts, so it isn't changed\n",
        place.line,
        place.column,
        left.field.key.v,
        left.entry.v.key.v,
        left.name.as_str()
    )
}

// Returns the note on each of these references, in order.
fn notes_on(
    alloc: Global,
    name: &str,
    text: &str,
    left: &[LeftReference<'_, '_>],
) -> Result<String, AllocError>
    ensures { IfOk result (λ notes. string_bytes notes ≡ spec.left_lines name.now text.now (lent_left left.now)) }
{
    let mut positions = Positions::new(text);
    let mut notes = String::new(alloc);
    'left: for reference in left {
        let place = positions.position(reference.field.key.span.start);
        let note = left_note(alloc, name, place, reference)?;
        notes.push_str(&note)?;
    }
    Ok(notes)
}

// Returns the new key for the first entry with the key `old`. There is none if no entry has this key, or if the new key is `old`.
fn renamed_key<'k>(document: &RawDocument<'_>, old: &str, new: &'k str) -> NewKeys<'k>
    ensures { (index : ℕ) → key_for result index ≡ spec.renamed_key document.now.says.entries old.now new.now index }
{
    if old == new {
        return NewKeys::Each(&[]);
    }
    match entry_index(&document.raw().entries, old) {
        Some(index) => NewKeys::One(index, new),
        None => NewKeys::Each(&[]),
    }
}

// Returns the new keys that an edit gives the entries of a document.
fn edit_keys<'k>(document: &RawDocument<'_>, edit: &Edit<'k>) -> NewKeys<'k>
    ensures { (index : ℕ) → key_for result index ≡ spec.edit_keys edit.now document.now.says.entries index }
{
    match *edit {
        Edit::Rename { old, new } => renamed_key(document, old, new),
        Edit::RenameAll { keys } => NewKeys::Each(keys),
        _ => NewKeys::Each(&[]),
    }
}

// Returns the notes on the references of a document that stay when an edit gives its entries new keys.
fn document_notes(
    alloc: Global,
    name: &str,
    document: &RawDocument<'_>,
    edit: &Edit<'_>,
) -> Result<String, AllocError>
    ensures { IfOk result (λ notes. AreDocumentNotes name.now edit.now document.now (string_bytes notes)) }
{
    let keys = edit_keys(document, edit);
    let left = left_references(alloc, document, keys)?;
    notes_on(alloc, name, document.text(), &left)
}

/// Returns a note for each reference in a text that stays as it is when an edit gives entries new keys, although it names such an entry.
/// Its value isn't one literal. A note has the form `FILE:LINE:COLUMN: note: TEXT`, with the position of the field, and a line feed.
/// Returns an empty text if the edit gives no new keys, or if the text has an error that makes parsing fail.
pub fn left_notes(
    alloc: Global,
    name: &str,
    text: &str,
    edit: &Edit<'_>,
) -> Result<String, AllocError>
    ensures { IfOk result (λ notes. AreLeftNotes name.now edit.now text.now (string_bytes notes)) }
{
    match RawDocument::parse(alloc, text) {
        Ok(document) => document_notes(alloc, name, &document, edit),
        Err(error) => {
            error.unless_out_of_memory()?;
            Ok(String::new(alloc))
        }
    }
}
