//! Runs `convert` from bibliography files to BibTeX and BibLaTeX.

ghost use Rattle.std.specs.Prelude.{◌≡◌, IfOk, string_bytes};
ghost use Rattle.bib_source.specs.Positions.{position_at};
ghost use Rattle.bibkit_commands.specs.Messages.{text_of_note, line_of_note};

use crate::edits::{after_mark, new_text, print};
use crate::stops::{Stop, bytes_of, say};
use bib_source::positions::Positions;
use bib_syntax::raw::{Pair, RawBibliography};
use bib_tables::dialects::Dialect;
use bib_tables::months::Month;
use bibkit_edits::edit::Edit;
use edit_convert::notes::{NoteKind, notes};
use edit_entries::document::RawDocument;
use std::alloc::{AllocError, Global};
use std::str::from_utf8;

// A file that was read.
#[derive(Drop)]
struct Input<'a> {
    // Its name.
    name: &'a str,
    // Its bytes.
    bytes: Vec<u8>,
}

// Returns the edit that converts a file to the types and fields of a dialect.
fn edit_of<'a>(dialect: Dialect) -> Edit<'a> {
    match dialect {
        Dialect::Biblatex => Edit::ToBiblatex,
        Dialect::Bibtex => Edit::ToBibtex,
    }
}

// Returns the text of a note on the field with the name `field`.
fn note_text(alloc: Global, kind: NoteKind, field: &str) -> Result<String, AllocError>
    ensures { IfOk result (λ text. string_bytes text ≡ text_of_note kind field.now) }
{
    match kind {
        NoteKind::NameIsThere => {
            format!(in alloc;
                "`{field}` is kept: the entry already has the field that would replace it"
            )
        }
        NoteKind::DateStays => {
            format!(in alloc;
                "`{field}` is kept: it isn't one date, or the entry already has a field for a part of it"
            )
        }
        NoteKind::MonthStays => {
            format!(in alloc; "`{field}` is kept: it can't be joined with a year to a date")
        }
        NoteKind::NotRead => format!(in alloc; "no standard style of BibTeX reads `{field}`"),
        NoteKind::PartsNotRead => {
            format!(in alloc;
                "`{field}` becomes several fields, but no standard style of BibTeX reads a day or a second date"
            )
        }
    }
}

// Returns the line of a note on a field, with the position of its name.
fn note_line(
    alloc: Global,
    name: &str,
    positions: &mut Positions<'_>,
    field: &Pair<'_>,
    kind: NoteKind,
) -> Result<String, AllocError>
    ensures line { IfOk result (λ line. string_bytes line
        ≡ line_of_note name.now (position_at positions.old field.now.key.span.start) (text_of_note kind field.now.key.v.now)) }
    ensures same { positions.new ≡ positions.old }
{
    let position = positions.position(field.key.span.start);
    let said = note_text(alloc, kind, field.key.v)?;
    format!(in alloc;
        "{name}:{}:{}: note: {}\n",
        position.line,
        position.column,
        said.as_str()
    )
}

// Returns whether a file has no entry, no definition of an abbreviation and no text in a preamble.
fn has_nothing(raw: &RawBibliography<'_>) -> bool {
    raw.entries.is_empty() && raw.abbreviations.is_empty() && raw.preamble.is_empty()
}

// Returns the notes on the fields of a document.
fn document_notes(
    alloc: Global,
    dialect: Dialect,
    name: &str,
    document: &RawDocument<'_>,
) -> Result<String, AllocError> {
    if has_nothing(document.raw()) {
        return format!(in alloc; "{name}: note: no entry\n");
    }
    let mut positions = Positions::new(document.text());
    let mut lines = String::new(alloc);
    'notes: for note in notes(alloc, document, dialect)? {
        if let Some(entry) = document.raw().entries.get(note.entry) {
            if let Some(field) = entry.v.fields.get(note.field) {
                let line = note_line(alloc, name, &mut positions, field, note.kind)?;
                lines.push_str(&line)?;
            }
        }
    }
    Ok(lines)
}

// Returns the notes on the fields of a file's bytes; none if they can't be parsed.
fn notes_on(
    alloc: Global,
    dialect: Dialect,
    name: &str,
    bytes: &[u8],
) -> Result<String, AllocError> {
    if let Ok(text) = from_utf8(after_mark(bytes)) {
        if let Ok(document) = RawDocument::parse(alloc, text) {
            return document_notes(alloc, dialect, name, &document);
        }
    }
    Ok(String::new(alloc))
}

// Prints a file with the types and fields of a dialect, and notes on fields. `is_last` says whether it is the last one.
fn rewrite_file(
    rt: &HostRuntime,
    dialect: Dialect,
    input: &Input<'_>,
    is_last: bool,
) -> Result<(), Stop> {
    let notes = notes_on(rt.alloc(), dialect, input.name, &input.bytes)?;
    print(rt, input.name, &input.bytes, &[edit_of(dialect)], is_last)?;
    let _ = eprint!(rt; "{notes}");
    Ok(())
}

// Prints each file in turn with the types and fields of a dialect, and returns the greatest status.
fn rewrite_in_turn(rt: &HostRuntime, dialect: Dialect, inputs: &[Input<'_>]) -> u8 {
    let mut status = 0;
    'inputs: for (index, input) in inputs.iter().enumerate() {
        let is_last = index + 1 == inputs.len();
        if let Err(stop) = rewrite_file(rt, dialect, input, is_last) {
            status = say(rt, &stop).max(status);
        }
    }
    status
}

// Returns whether a file defines the abbreviation of a month. A file that isn't UTF-8 or has a syntax error counts as one that doesn't.
fn defines_month(alloc: Global, input: &Input<'_>) -> Result<bool, AllocError> {
    let Ok(text) = from_utf8(after_mark(&input.bytes)) else {
        return Ok(false);
    };
    match RawBibliography::parse(alloc, text) {
        Ok(raw) => Ok(
            raw.abbreviations.iter().any(|definition| Month::from_abbreviation(
                definition.key.v,
            ).is_some()),
        ),
        Err(error) => {
            error.unless_out_of_memory()?;
            Ok(false)
        }
    }
}

// Returns whether one of several files defines the abbreviation of a month. The output is one text, so this definition counts in all of it.
fn share_months(alloc: Global, inputs: &[Input<'_>]) -> Result<bool, AllocError> {
    if inputs.len() < 2 {
        return Ok(false);
    }
    'inputs: for input in inputs {
        if defines_month(alloc, input)? {
            return Ok(true);
        }
    }
    Ok(false)
}

// Returns the bytes of files, one after another. A line feed separates a file without one at its end from the next file, so that a line
// comment ends with its file. The byte order marks of all files but the first are left out.
fn joined_bytes(alloc: Global, inputs: &[Input<'_>]) -> Result<Vec<u8>, AllocError> {
    let mut joined = Vec::new(alloc);
    'inputs: for (index, input) in inputs.iter().enumerate() {
        let bytes = if index == 0 {
            input.bytes.as_slice()
        } else {
            after_mark(&input.bytes)
        };
        if !joined.is_empty() && !joined.ends_with(b"\n") {
            joined.push(b'\n')?;
        }
        joined.extend_from_slice(bytes)?;
    }
    Ok(joined)
}

// Reports the first error of each file that can't be rewritten by itself, and the notes on the fields of the others. Returns the greatest
// status.
fn check_inputs(rt: &HostRuntime, dialect: Dialect, inputs: &[Input<'_>]) -> Result<u8, Stop> {
    let mut status = 0;
    'inputs: for input in inputs {
        match new_text(
            rt.alloc(),
            input.name,
            &input.bytes,
            &[edit_of(dialect)],
            false,
        ) {
            Ok(_new) => {
                let notes = notes_on(rt.alloc(), dialect, input.name, &input.bytes)?;
                let _ = eprint!(rt; "{notes}");
            }
            Err(stop) => status = say(rt, &stop).max(status),
        }
    }
    Ok(status)
}

// Prints files as one text with the types and fields of BibTeX. If one of them can't be converted, prints nothing.
fn rewrite_joined(rt: &HostRuntime, inputs: &[Input<'_>]) -> Result<u8, Stop> {
    let status = check_inputs(rt, Dialect::Bibtex, inputs)?;
    if status == 0 {
        let joined = joined_bytes(rt.alloc(), inputs)?;
        print(rt, "-", &joined, &[Edit::ToBibtex], true)?;
    }
    Ok(status)
}

// Prints files with the types and fields of a dialect, and returns the greatest status.
fn rewrite_inputs(rt: &HostRuntime, dialect: Dialect, inputs: &[Input<'_>]) -> Result<u8, Stop> {
    if dialect == Dialect::Bibtex && share_months(rt.alloc(), inputs)? {
        rewrite_joined(rt, inputs)
    } else {
        Ok(rewrite_in_turn(rt, dialect, inputs))
    }
}

// Reads files and prints them with the types and fields of a dialect. Reports each file that can't be read, and returns the greatest
// status.
fn rewrite_files(rt: &HostRuntime, dialect: Dialect, names: &[&str]) -> Result<u8, Stop> {
    let mut inputs = Vec::new(rt.alloc());
    let mut status = 0;
    'names: for name in names {
        match bytes_of(rt, name) {
            Ok(bytes) => inputs.push(Input { name: *name, bytes })?,
            Err(stop) => status = say(rt, &stop).max(status),
        }
    }
    Ok(rewrite_inputs(rt, dialect, &inputs)?.max(status))
}

/// Prints files in turn with the types and fields of a dialect, and returns the greatest status. For BibTeX, if one of several files
/// defines the abbreviation of a month, all files that can be read are converted as one text. If one of these can't be converted then,
/// nothing is printed.
pub fn run_rewrite(rt: &HostRuntime, dialect: Dialect, names: &[&str]) -> u8 {
    match rewrite_files(rt, dialect, names) {
        Ok(status) => status,
        Err(stop) => say(rt, &stop),
    }
}
