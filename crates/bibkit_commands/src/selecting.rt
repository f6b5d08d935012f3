//! Prints the entries that conditions select, and edits them. An entry is selected if its key is that of an entry that meets all
//! conditions.

ghost use Rattle.bib_syntax.specs.Recovery.{IsRecovery};
ghost use Rattle.bib_syntax.specs.Views.{file_of};

use crate::edits::{Editing, after_mark, apply};
use crate::joining::join;
use crate::stops::{Stop, bytes_of, output_stop, report_skipped_of, say};
use bib_queries::excerpts::{answer, answer_of};
use bib_queries::request::{CitedKeys, Request as Excerpts};
use bib_select::errors::SelectionError;
use bib_select::selection::Selection;
use bib_source::decoding::decode;
use bibkit_core::conditions::{keys_of_selected, resolved_entries};
use bibkit_edits::edit::Edit;
use biblatex::{Output, RawBibliography, RawRecovery, Sink};
use edit_entries::field_edits::FieldEdit;
use edit_entries::field_value::FieldValue;
use std::alloc::{AllocError, Global};
use std::io;
use std::str::from_utf8;

/// The conditions on the entries to print, and the output for these entries.
#[derive(Drop)]
pub struct Selecting<'a> {
    /// The conditions, all of which an entry must meet.
    pub conditions: Vec<&'a str>,
    /// The output for these entries.
    pub printed: Printed,
}

/// The output for the selected entries.
#[derive(Clone, Copy)]
pub struct Printed {
    /// Whether the definitions and entries that the selected entries use are printed too, with the parsed preambles of the file and the
    /// skipped ones in braces.
    pub is_complete: bool,
    /// Whether only the keys of entries are printed.
    pub has_keys: bool,
}

/// An edit of the selected entries.
#[derive(Clone, Copy)]
pub enum SelectedEdit<'a> {
    /// Edits a field of each of these entries.
    Field(FieldEdit<'a>),
    /// Removes the fields with this name from each of these entries.
    Unset(&'a str),
    /// Removes these entries.
    Remove,
}

// Returns the error of a condition, or fails if out of memory.
fn unless_out_of_memory(error: SelectionError) -> Result<SelectionError, AllocError> {
    match error {
        SelectionError::OutOfMemory => Err(AllocError),
        error => Ok(error),
    }
}

/// Parses conditions. Fails with a message and status 2 for a text that isn't a condition.
pub fn parse_conditions(alloc: Global, conditions: &[&str]) -> Result<Vec<Selection>, Stop> {
    let mut selections = Vec::new(alloc);
    'conditions: for condition in conditions {
        match Selection::parse(alloc, *condition) {
            Ok(selection) => selections.push(selection)?,
            Err(error) => {
                let error = unless_out_of_memory(error)?;
                let said = format!(in alloc; "bibkit: --where `{condition}`: {error}\n")?;
                return Err(Stop::Said(said, 2));
            }
        }
    }
    Ok(selections)
}

// Returns the text to print for a file's text with this recovery, and whether it has an entry or a key. Blocks with a syntax error are
// skipped, except preambles in braces if `printed.is_complete`.
fn selected_text(
    alloc: Global,
    selections: &[Selection],
    printed: Printed,
    text: &str,
    found: &RawRecovery<'_>,
) -> Result<(String, bool), AllocError>
    requires { IsRecovery text.now (file_of found.now.raw) found.now.skipped.items }
{
    let entries = resolved_entries(alloc, &found.raw)?;
    let keys = keys_of_selected(alloc, selections, &entries)?;
    if keys.is_empty() {
        return Ok((String::new(alloc), false));
    }
    let request = if printed.is_complete {
        Excerpts::Cited(CitedKeys { keys, all: false })
    } else {
        Excerpts::Get(keys)
    };
    let excerpts = answer_of(alloc, &request, text, found)?;
    if printed.has_keys {
        let keys = answer(alloc, &Excerpts::Keys, &excerpts.text)?;
        return Ok((keys.text, keys.has_entry));
    }
    Ok((excerpts.text, excerpts.has_entry))
}

// Prints the selected entries of a text with this recovery, as `printed` requests. Returns whether there is one.
fn select_text<K: Sink>(
    alloc: Global,
    selections: &[Selection],
    printed: Printed,
    text: &str,
    found: &RawRecovery<'_>,
    output: &mut K,
) -> Result<bool, Stop>
    requires { IsRecovery text.now (file_of found.now.raw) found.now.skipped.items }
{
    let (text, is_found) = selected_text(alloc, selections, printed, text, found)?;
    if output.write_str(&text) {
        Ok(is_found)
    } else {
        Err(output_stop(alloc)?)
    }
}

// Prints the selected entries of a file, as `printed` requests, and reports its skipped blocks. Returns whether there is such an entry, and
// the status: 1 if a block is skipped, otherwise 0.
fn select_file<K: Sink>(
    rt: &HostRuntime,
    selections: &[Selection],
    printed: Printed,
    name: &str,
    output: &mut K,
) -> Result<(bool, u8), Stop> {
    let bytes = bytes_of(rt, name)?;
    let decoded = decode(rt.alloc(), &bytes)?;
    let text = decoded.text.as_str();
    let found = RawBibliography::recover(rt.alloc(), text)?;
    let status = report_skipped_of(rt, name, text, &found)?;
    let is_found = select_text(rt.alloc(), selections, printed, text, &found, output)?;
    Ok((is_found, status))
}

// Prints the selected entries of files as one database. Returns whether an entry is selected, and the status of reading the files.
fn select_joined<K: Sink>(
    rt: &HostRuntime,
    selections: &[Selection],
    printed: Printed,
    names: &[&str],
    output: &mut K,
) -> Result<(bool, u8), Stop> {
    let database = join(rt, names)?;
    let text = database.text.as_str();
    let found = RawBibliography::recover(rt.alloc(), text)?;
    let is_found = select_text(rt.alloc(), selections, printed, text, &found, output)?;
    Ok((is_found, database.status))
}

// Prints the selected entries of each file. Returns whether an entry is selected, and the greatest status of the files.
fn select_each<K: Sink>(
    rt: &HostRuntime,
    selections: &[Selection],
    printed: Printed,
    names: &[&str],
    output: &mut K,
) -> (bool, u8) {
    let mut is_found = false;
    let mut status = 0;
    'names: for name in names {
        match select_file(rt, selections, printed, name, output) {
            Ok((found, skipped)) => {
                is_found = is_found || found;
                status = skipped.max(status);
            }
            Err(stop) => status = say(rt, &stop).max(status),
        }
    }
    (is_found, status)
}

// Prints the selected entries of files, and returns the greatest status, which is at least 1 if no entry is selected. With the definitions
// and entries that they use, several files are one database.
fn select_files(rt: &HostRuntime, selecting: &Selecting<'_>, names: &[&str]) -> Result<u8, Stop> {
    let selections = parse_conditions(rt.alloc(), &selecting.conditions)?;
    let printed = selecting.printed;
    let mut output = Output::new(io::writer(rt));
    let (is_found, status) = if printed.is_complete && names.len() > 1 {
        select_joined(rt, &selections, printed, names, &mut output)?
    } else {
        select_each(rt, &selections, printed, names, &mut output)
    };
    if is_found || status > 0 {
        Ok(status)
    } else {
        Ok(1)
    }
}

/// Prints the selected entries of files, and returns the status.
pub fn run_select(rt: &HostRuntime, selecting: &Selecting<'_>, names: &[&str]) -> u8 {
    match select_files(rt, selecting, names) {
        Ok(status) => status,
        Err(stop) => say(rt, &stop),
    }
}

// Returns the text of a value.
fn value_text<'e>(value: &FieldValue<'e>) -> &'e str {
    match value {
        FieldValue::Text(text) | FieldValue::Bare(text) => *text,
    }
}

// Returns the two texts of an edit of a field.
fn texts_of<'e>(edit: &FieldEdit<'e>) -> (&'e str, &'e str) {
    match edit {
        FieldEdit::Set { name, value } | FieldEdit::Add { name, value } => (
            *name,
            value_text(value),
        ),
        FieldEdit::Rename { old, new } => (*old, *new),
    }
}

// Returns the texts of an edit of the selected entries. An edit of a field has two, the removal of a field one, which is its name, and the
// removal of the entries none. A missing text is empty.
fn texts_of_change<'e>(change: &SelectedEdit<'e>) -> (&'e str, &'e str) {
    match change {
        SelectedEdit::Field(edit) => texts_of(edit),
        SelectedEdit::Unset(name) => (*name, ""),
        SelectedEdit::Remove => ("", ""),
    }
}

// Returns a value with this text, written in braces or without them, as `value` is.
fn with_text<'e>(value: &FieldValue<'_>, text: &'e str) -> FieldValue<'e> {
    match value {
        FieldValue::Text(_) => FieldValue::Text(text),
        FieldValue::Bare(_) => FieldValue::Bare(text),
    }
}

// Adds `edit` for the entries with these keys. `first` and `second` are the texts of `edit`, as `texts_of` returns them.
fn push_edit<'e>(
    edits: &mut Vec<Edit<'e>>,
    keys: &'e [&'e str],
    edit: &FieldEdit<'_>,
    first: &'e str,
    second: &'e str,
) -> Result<(), AllocError> {
    let edit = match edit {
        FieldEdit::Set { value, .. } => FieldEdit::Set {
            name: first,
            value: with_text(value, second),
        },
        FieldEdit::Add { value, .. } => FieldEdit::Add {
            name: first,
            value: with_text(value, second),
        },
        FieldEdit::Rename { .. } => FieldEdit::Rename {
            old: first,
            new: second,
        },
    };
    edits.push(Edit::Fields { keys, edit })?;
    Ok(())
}

// Adds `change` for the entries with these keys. `first` and `second` are the texts of `change`, as `texts_of_change` returns them.
fn push_change<'e>(
    edits: &mut Vec<Edit<'e>>,
    keys: &'e [&'e str],
    change: &SelectedEdit<'_>,
    first: &'e str,
    second: &'e str,
) -> Result<(), AllocError> {
    match change {
        SelectedEdit::Field(edit) => push_edit(edits, keys, edit, first, second)?,
        SelectedEdit::Unset(_) => edits.push(Edit::UnsetAll { keys, name: first })?,
        SelectedEdit::Remove => edits.push(Edit::RemoveAll { keys })?,
    }
    Ok(())
}

// Edits the selected entries of a file's text.
fn edit_text(
    rt: &HostRuntime,
    editing: &Editing<'_>,
    selections: &[Selection],
    changes: &[SelectedEdit<'_>],
    bytes: &[u8],
    text: &str,
) -> Result<(), Stop> {
    let raw = RawBibliography::recover(rt.alloc(), text)?.raw;
    let entries = resolved_entries(rt.alloc(), &raw)?;
    let keys = keys_of_selected(rt.alloc(), selections, &entries)?;
    let mut edits = Vec::new(rt.alloc());
    'changes: for change in changes {
        let (first, second) = texts_of_change(change);
        push_change(&mut edits, &keys, change, first, second)?;
    }
    apply(rt, editing, bytes, &edits)
}

/// Edits the selected entries of a file, by each of these edits in turn.
pub fn edit_selected(
    rt: &HostRuntime,
    editing: &Editing<'_>,
    conditions: &[&str],
    changes: &[SelectedEdit<'_>],
) -> Result<(), Stop> {
    let selections = parse_conditions(rt.alloc(), conditions)?;
    let bytes = bytes_of(rt, editing.name)?;
    match from_utf8(after_mark(&bytes)) {
        Ok(text) => edit_text(rt, editing, &selections, changes, &bytes, text),
        Err(_) => apply(rt, editing, &bytes, &[Edit::RenameAll { keys: &[] }]),
    }
}
