//! Runs the commands that edit a file.

ghost use Rattle.std.specs.Prelude.{◌≡◌, Some, codes, IfOk, string_bytes};
ghost use Rattle.bibkit_commands.specs.Messages as spec;
ghost use Rattle.bibkit_commands.specs.Messages.{no_pair_text, of_program, on_file, says};

use crate::recoding::{Recoding, recode};
use crate::refusals::{printing_stop, unbalanced_quotes_line};
use crate::rekeying::{Rekeying, rekey};
use crate::removing::distinct_removals;
use crate::replacing::replace;
use crate::resolving::resolve;
use crate::selecting::{SelectedEdit, edit_selected};
use crate::stops::{Stop, bytes_of, say};
use bib_source::decoding::decode;
use bibkit_core::replacing::ReplaceError;
use bibkit_edits::edit::Edit;
use bibkit_edits::editing::edit_file;
use bibkit_edits::left_notes::left_notes;
use bibkit_edits::printing::{Unprinted, print_difference, print_edited};
use biblatex::Output;
use edit_entries::document::RawDocument;
use std::alloc::{AllocError, Global};
use std::io;
use std::io::ErrorKind;
use std::str::from_utf8;

/// The edits of a command.
#[derive(Drop)]
pub enum Edits<'a> {
    /// Makes these edits.
    These(Vec<Edit<'a>>),
    /// Adds the entries of standard input.
    AddInput,
    /// Defines abbreviations for texts that occur in several fields.
    Collect {
        /// The names of the fields whose texts are collected, or `None` for the default fields.
        fields: Option<Vec<&'a str>>,
        /// The minimum number of fields with the same text.
        at_least: usize,
    },
    /// Edits the entries that conditions select (see `selecting`).
    Selected {
        /// The conditions, all of which an entry must meet.
        conditions: Vec<&'a str>,
        /// The edits of each of these entries, in turn.
        edits: Vec<SelectedEdit<'a>>,
    },
    /// Gives entries the keys that a pattern makes.
    Rekey(Rekeying<'a>),
    /// Replaces the references `crossref` and `xdata` by the inherited fields.
    Resolve {
        /// Whether notes report the fields that entries don't inherit.
        has_notes: bool,
    },
    /// Converts the file to UTF-8.
    Recode(Recoding),
    /// Makes no edits, since a word isn't two texts with an equals sign between them.
    NoPair {
        /// The word.
        word: &'a str,
        /// The names of the two texts in help, such as `FIELD=VALUE`.
        pair: &'static str,
    },
}

/// The edits of a command, their file, and the use of the new text.
#[derive(Drop)]
pub struct Editing<'a> {
    /// The edits.
    pub edits: Edits<'a>,
    /// The name of the file; `-` is standard input.
    pub name: &'a str,
    /// The use of the new text.
    pub mode: Mode,
    /// Whether the process ends after this file, so that memory needn't be freed.
    pub is_last: bool,
}

/// The use of the new text of a file.
#[derive(Clone, Copy, PartialEq, Eq)]
pub enum Mode {
    /// Prints it.
    Print,
    /// Writes it into the file.
    Write,
    /// Doesn't print it. If it differs from the old text, fails with a message and status 1.
    Check,
    /// Prints the diff from the old text.
    Diff {
        /// Whether the command fails with status 1 if the texts differ, as with `Check`.
        is_check: bool,
    },
}

/// Returns the message of a wrong command line, with status 2.
pub fn wrong_usage(alloc: Global, text: &str) -> Result<Stop, AllocError>
    ensures { IfOk result (λ stop. says stop ≡ Some (of_program text.now, 2)) }
{
    Ok(Stop::Said(format!(in alloc; "bibkit: {text}\n")?, 2))
}

// Refuses to write into standard input, and to add entries of standard input to a text of standard input.
fn check(alloc: Global, editing: &Editing<'_>) -> Result<(), Stop> {
    match editing.edits {
        _ if editing.name != "-" => Ok(()),
        _ if editing.mode == Mode::Write => Err(wrong_usage(
            alloc,
            "`--write` needs the name of a file",
        )?),
        Edits::AddInput => Err(wrong_usage(alloc, "`add` needs the name of a file")?),
        _ => Ok(()),
    }
}

/// Returns the bytes of a file after its byte order mark for UTF-8, or all bytes if they don't begin with it.
pub fn after_mark(bytes: &[u8]) -> &[u8] {
    match bytes.strip_prefix(b"\xEF\xBB\xBF") {
        Some(rest) => rest,
        None => bytes,
    }
}

// Returns the text of the reason why a file can't be written.
fn write_reason(kind: ErrorKind) -> &'static str
    ensures { result.now ≡ spec.write_reason kind }
{
    match kind {
        ErrorKind::PermissionDenied => "can't be written: permission denied",
        ErrorKind::InvalidInput => "not a regular file",
        ErrorKind::StorageFull => "can't be written: the disk is full",
        _ => "can't be written",
    }
}

// Returns the text of the reason why replacing a file failed. After `Unsure`, the file may have the new text. After `Unsettled`, it has the
// new text, but a crash may bring back the old one.
fn unwritten_reason(error: &ReplaceError) -> &'static str
    ensures { result.now ≡ spec.unwritten_reason error.now }
{
    match error {
        ReplaceError::NotReplaced(error) | ReplaceError::Unsure(error) => {
            write_reason(error.kind())
        }
        ReplaceError::Unsettled(_) => "written, but a crash of the machine may lose it",
        _ => "can't be written",
    }
}

// Returns the message for an error of replacing a file.
fn unwritten_line(alloc: Global, name: &str, error: &ReplaceError) -> Result<String, AllocError>
    ensures { IfOk result (λ line. string_bytes line ≡ on_file name.now (spec.unwritten_reason error.now)) }
{
    let reason = unwritten_reason(error);
    format!(in alloc; "bibkit: {name}: {reason}\n")
}

// Returns `AllocError` if out of memory and the file isn't replaced, and `Ok` with any other error.
fn unless_out_of_memory(error: ReplaceError) -> Result<ReplaceError, AllocError> {
    match error {
        ReplaceError::OutOfMemory => Err(AllocError),
        ReplaceError::NotReplaced(error) if error.kind() == ErrorKind::OutOfMemory => {
            Err(AllocError)
        }
        error => Ok(error),
    }
}

// Returns the message for a file that another program changed after it was read.
fn changed_stop(alloc: Global, name: &str) -> Result<Stop, AllocError>
    ensures { IfOk result (λ stop. says stop ≡ Some (on_file name.now (codes "another program changed it, so it isn't written"), 2)) }
{
    let said = format!(in alloc;
        "bibkit: {name}: another program changed it, so it isn't written\n"
    )?;
    Ok(Stop::Said(said, 2))
}

// Replaces the bytes `old` of a file by a text. Fails with a message and status 2, or if out of memory.
fn write(rt: &HostRuntime, name: &str, old: &[u8], text: &str) -> Result<(), Stop> {
    match replace(rt, name, old, text) {
        Ok(true) => Ok(()),
        Ok(false) => Err(changed_stop(rt.alloc(), name)?),
        Err(error) => {
            let error = unless_out_of_memory(error)?;
            let said = unwritten_line(rt.alloc(), name, &error)?;
            Err(Stop::Said(said, 2))
        }
    }
}

/// Applies edits to a file's bytes, and prints the new text. `is_last` says whether the process ends after this file, so that memory
/// needn't be freed.
pub fn print(
    rt: &HostRuntime,
    name: &str,
    bytes: &[u8],
    edits: &[Edit<'_>],
    is_last: bool,
) -> Result<(), Stop> {
    let mut output = Output::new(io::writer(rt));
    match print_edited(rt.alloc(), bytes, edits, is_last, &mut output) {
        Ok(()) => Ok(()),
        Err(why) => Err(printing_stop(rt.alloc(), name, bytes, edits, &why)?),
    }
}

/// Applies edits to a file's bytes, and returns the new text. `is_last` says whether the process ends after this file, so that memory
/// needn't be freed.
pub fn new_text(
    alloc: Global,
    name: &str,
    bytes: &[u8],
    edits: &[Edit<'_>],
    is_last: bool,
) -> Result<String, Stop> {
    match edit_file(alloc, bytes, edits, is_last) {
        Ok(new) => Ok(new),
        Err(refusal) => {
            let why = Unprinted::Refused(refusal);
            Err(printing_stop(alloc, name, bytes, edits, &why)?)
        }
    }
}

/// Writes the text `new` into a file that had these bytes. Does nothing if the text is the same. Otherwise fails if the file has other
/// bytes by now.
pub fn write_new(rt: &HostRuntime, name: &str, bytes: &[u8], new: &str) -> Result<(), Stop> {
    if new.as_bytes() == bytes {
        return Ok(());
    }
    write(rt, name, bytes, new)
}

// Applies edits to a file's bytes, and writes the new text into the file if it differs from them. `is_last` is that of `new_text`.
fn write_edited(
    rt: &HostRuntime,
    name: &str,
    bytes: &[u8],
    edits: &[Edit<'_>],
    is_last: bool,
) -> Result<(), Stop> {
    let new = new_text(rt.alloc(), name, bytes, edits, is_last)?;
    write_new(rt, name, bytes, &new)
}

// Returns the message for a file that isn't in the requested style, with status 1.
fn style_stop(alloc: Global, name: &str) -> Result<Stop, AllocError>
    ensures { IfOk result (λ stop. says stop ≡ Some (on_file name.now (codes "not in this style"), 1)) }
{
    let said = format!(in alloc; "bibkit: {name}: not in this style\n")?;
    Ok(Stop::Said(said, 1))
}

// Fails if edits would change a file's bytes. `is_last` is that of `new_text`.
fn check_edited(
    alloc: Global,
    name: &str,
    bytes: &[u8],
    edits: &[Edit<'_>],
    is_last: bool,
) -> Result<(), Stop> {
    let new = new_text(alloc, name, bytes, edits, is_last)?;
    if new.as_bytes() == bytes {
        Ok(())
    } else {
        Err(style_stop(alloc, name)?)
    }
}

/// Returns the name of a file in a diff. If it contains a space, a tab follows it, as in the output of diff. Otherwise `patch` ends the
/// name at the space.
pub fn name_in_diff(alloc: Global, name: &str) -> Result<String, AllocError> {
    let mut text = String::from_str(alloc, name)?;
    if name.contains(' ') {
        text.push('\t')?;
    }
    Ok(text)
}

// Prints the diff of edits of a file's bytes. If `is_check`, fails if the diff isn't empty.
fn show_difference(
    rt: &HostRuntime,
    name: &str,
    bytes: &[u8],
    edits: &[Edit<'_>],
    is_check: bool,
) -> Result<(), Stop> {
    let mut output = Output::new(io::writer(rt));
    let shown = name_in_diff(rt.alloc(), name)?;
    let is_changed = match print_difference(rt.alloc(), &shown, bytes, edits, &mut output) {
        Ok(is_changed) => is_changed,
        Err(why) => return Err(printing_stop(rt.alloc(), name, bytes, edits, &why)?),
    };
    if is_changed && is_check {
        Err(style_stop(rt.alloc(), name)?)
    } else {
        Ok(())
    }
}

/// Applies edits to the bytes of a file, and uses the new text as `editing` requests.
pub fn apply(
    rt: &HostRuntime,
    editing: &Editing<'_>,
    bytes: &[u8],
    edits: &[Edit<'_>],
) -> Result<(), Stop> {
    let is_last = editing.is_last;
    match editing.mode {
        Mode::Print => print(rt, editing.name, bytes, edits, is_last),
        Mode::Write => write_edited(rt, editing.name, bytes, edits, is_last),
        Mode::Check => check_edited(rt.alloc(), editing.name, bytes, edits, is_last),
        Mode::Diff { is_check } => show_difference(rt, editing.name, bytes, edits, is_check),
    }
}

// Returns the notes on references in a file's bytes that stay, if the only edit renames a key.
fn rename_notes(
    alloc: Global,
    name: &str,
    bytes: &[u8],
    edits: &[Edit<'_>],
) -> Result<String, AllocError> {
    match (from_utf8(after_mark(bytes)), edits) {
        (Ok(text), [edit]) if matches!(edit, Edit::Rename { .. }) => {
            left_notes(alloc, name, text, edit)
        }
        _ => Ok(String::new(alloc)),
    }
}

// Applies edits to a file, and uses the new text as `editing` requests. Then prints notes on references that stay if a key is renamed.
fn edit(rt: &HostRuntime, editing: &Editing<'_>, edits: &[Edit<'_>]) -> Result<(), Stop> {
    let bytes = bytes_of(rt, editing.name)?;
    let notes = rename_notes(rt.alloc(), editing.name, &bytes, edits)?;
    apply(rt, editing, &bytes, edits)?;
    let _ = eprint!(rt; "{notes}");
    Ok(())
}

// Applies edits to a file as `edit` does. Removals with different keys are one edit, so that the file is parsed only once.
fn edit_these(rt: &HostRuntime, editing: &Editing<'_>, edits: &[Edit<'_>]) -> Result<(), Stop> {
    match distinct_removals(rt.alloc(), edits)? {
        Some(keys) => edit(rt, editing, &[Edit::RemoveEach { keys: &keys }]),
        None => edit(rt, editing, edits),
    }
}

// Fails with a message and status 1 if the text of standard input contains a text in quotes whose braces don't balance. A syntax error
// is left to the edit.
fn check_added(alloc: Global, text: &str) -> Result<(), Stop> {
    match RawDocument::parse(alloc, text) {
        Ok(document) if document.has_unbalanced_quotes() => {
            let line = unbalanced_quotes_line(alloc, "-", text.as_bytes())?;
            Err(Stop::Said(line, 1))
        }
        Ok(_) => Ok(()),
        Err(error) => Ok(error.unless_out_of_memory()?),
    }
}

// Decodes standard input, and adds its entries to a file.
fn add_input(rt: &HostRuntime, editing: &Editing<'_>) -> Result<(), Stop> {
    let bytes = bytes_of(rt, "-")?;
    let input = decode(rt.alloc(), &bytes)?;
    check_added(rt.alloc(), &input.text)?;
    edit(rt, editing, &[Edit::Add { text: &input.text }])
}

// The default fields whose texts are collected.
static COLLECTED: [&str; 9] = [
    "journal",
    "journaltitle",
    "publisher",
    "series",
    "institution",
    "school",
    "organization",
    "address",
    "location",
];

// Returns the names of the fields whose texts are collected: the given ones, or the default ones.
fn collected_fields<'e>(given: &'e Option<Vec<&'e str>>) -> &'e [&'e str] {
    match given {
        Some(fields) => fields.as_slice(),
        None => COLLECTED.as_slice(),
    }
}

// Returns the message and status 2 for a word that isn't two texts with an equals sign between them.
fn no_pair_stop(alloc: Global, word: &str, pair: &str) -> Result<Stop, AllocError>
    ensures { IfOk result (λ stop. says stop ≡ Some (of_program (no_pair_text word.now pair.now), 2)) }
{
    let text = format!(in alloc; "`{word}` isn't {pair}; use `--file` for the name of the file")?;
    wrong_usage(alloc, &text)
}

// Runs a command that edits a file.
fn answer(rt: &HostRuntime, editing: &Editing<'_>) -> Result<(), Stop> {
    check(rt.alloc(), editing)?;
    match &editing.edits {
        Edits::These(edits) => edit_these(rt, editing, edits),
        Edits::AddInput => add_input(rt, editing),
        Edits::Collect { fields, at_least } => {
            let fields = collected_fields(fields);
            edit(
                rt,
                editing,
                &[Edit::Collect {
                    fields,
                    at_least: *at_least,
                }],
            )
        }
        Edits::Selected { conditions, edits } => {
            if edits.is_empty() {
                return Err(wrong_usage(
                    rt.alloc(),
                    "`edit` needs `--rename`, `--set`, `--add` or `--unset`",
                )?);
            }
            edit_selected(rt, editing, conditions, edits)
        }
        Edits::Rekey(rekeying) => rekey(rt, editing, rekeying),
        Edits::Resolve { has_notes } => resolve(rt, editing, *has_notes),
        Edits::Recode(recoding) => recode(rt, editing, recoding),
        Edits::NoPair { word, pair } => Err(no_pair_stop(rt.alloc(), word, pair)?),
    }
}

/// Runs a command that edits a file, reports its errors, and returns the status.
pub fn run_edits(rt: &HostRuntime, editing: &Editing<'_>) -> u8 {
    match answer(rt, editing) {
        Ok(()) => 0,
        Err(stop) => say(rt, &stop),
    }
}
