//! Notes on the fields of parents that entries lack when inherited fields are written out.

ghost use Rattle.std.specs.Prelude.{◌≡◌, ◌++◌, IfOk, OnOk, map};
ghost use Rattle.std.specs.String.{string_bytes};
ghost use Rattle.edit_resolve.specs.Views.{uninherited_list, uninherited_row};
ghost use Rattle.bibkit_edits.specs.UninheritedNotes as spec;
ghost use Rattle.bibkit_edits.specs.UninheritedNotes.{AreNotesOn, AreUninheritedNotes};

use bib_source::positions::{Position, Positions};
use edit_entries::document::RawDocument;
use edit_resolve::uninherited::{UninheritedFields, uninherited_fields};
use std::alloc::{AllocError, Global};

// Appends a comma and a name in backticks.
fn push_next(list: &mut String, name: &str) -> Result<(), AllocError>
    ensures { OnOk result (string_bytes list.new ≡ string_bytes list.old ++ spec.next_name name.now) }
{
    list.push_str(", `")?;
    list.push_str(name)?;
    list.push_str("`")
}

// Returns names in backticks, with commas between them.
fn name_list(alloc: Global, names: &[&str]) -> Result<String, AllocError>
    ensures { IfOk result (λ list. string_bytes list ≡ spec.name_list (map (λ name. name.now) names.now)) }
{
    let [first, more @ ..] = names else {
        return Ok(String::new(alloc));
    };
    let mut list = format!(in alloc; "`{}`", *first)?;
    'more: for name in more {
        push_next(&mut list, *name)?;
    }
    Ok(list)
}

// Returns the note on fields of a parent that an entry lacks, whose reference begins at this position.
fn uninherited_note(
    alloc: Global,
    name: &str,
    place: Position,
    fields: &UninheritedFields<'_, '_>,
) -> Result<String, AllocError>
    ensures { IfOk result (λ note. string_bytes note ≡ spec.uninherited_note name.now place (uninherited_row fields.now)) }
{
    let names = name_list(alloc, &fields.names)?;
    format!(in alloc;
        "{name}:{}:{}: note: entry `{}` doesn't inherit {} of `{}`\n",
        place.line,
        place.column,
        fields.entry.v.key.v,
        names.as_str(),
        fields.parent.v.key.v
    )
}

// Returns the note on each of these, in order.
fn notes_on(
    alloc: Global,
    name: &str,
    text: &str,
    found: &[UninheritedFields<'_, '_>],
) -> Result<String, AllocError>
    ensures { IfOk result (λ notes. string_bytes notes ≡ spec.uninherited_lines name.now text.now (uninherited_list found.now)) }
{
    let mut positions = Positions::new(text);
    let mut notes = String::new(alloc);
    'found: for fields in found {
        let place = positions.position(fields.reference.key.span.start);
        let note = uninherited_note(alloc, name, place, fields)?;
        notes.push_str(&note)?;
    }
    Ok(notes)
}

// Returns the notes on a document.
fn document_notes(
    alloc: Global,
    name: &str,
    document: &RawDocument<'_>,
) -> Result<String, AllocError>
    ensures { IfOk result (λ notes. AreNotesOn name.now document.now (string_bytes notes)) }
{
    match uninherited_fields(alloc, document) {
        Ok(found) => notes_on(alloc, name, document.text(), &found),
        Err(error) => {
            error.unless_out_of_memory()?;
            Ok(String::new(alloc))
        }
    }
}

/// Returns a note for each parent that a reference of the text names, if the entry with the reference lacks fields of it after inheriting.
/// References with a key that finds no parent have no notes. A note has the form `FILE:LINE:COLUMN: note: TEXT`, with the position of the
/// reference, and a line feed. Returns an empty text if an entry inherits from itself, or if the text has an error that makes parsing
/// fail.
pub fn uninherited_notes(alloc: Global, name: &str, text: &str) -> Result<String, AllocError>
    ensures { IfOk result (λ notes. AreUninheritedNotes name.now text.now (string_bytes notes)) }
{
    match RawDocument::parse(alloc, text) {
        Ok(document) => document_notes(alloc, name, &document),
        Err(error) => {
            error.unless_out_of_memory()?;
            Ok(String::new(alloc))
        }
    }
}
