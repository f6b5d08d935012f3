//! Runs `convert` from bibliography files to CSL-JSON, JSON and RIS.

use crate::readable::{error_lines, readable_text, without_blocks};
use crate::selecting::parse_conditions;
use crate::several::{TextFile, joined_texts, lines_of_all, move_spans};
use crate::stops::{Stop, bytes_of, output_stop, say};
use bib_select::selection::Selection;
use bib_source::decoding::decode;
use bib_syntax::raw::{JoinedFiles, RawEntry, is_word};
use bibkit_convert::converting::{ConvertError, print_entries, print_entry};
use bibkit_convert::target::Target;
use bibkit_core::conditions::selected_keys;
use biblatex::{Bibliography, Output, RawRecovery, Sink, Spanned};
use edit_entries::document::RawDocument;
use edit_resolve::resolving::resolve;
use std::alloc::{AllocError, Global};
use std::collections::BTreeSet;
use std::io;

/// A format, and the entries that are printed in it.
#[derive(Drop)]
pub struct Converting<'a> {
    /// The format.
    pub target: Target,
    /// The conditions, all of which an entry must meet.
    pub conditions: Vec<&'a str>,
}

// The progress of printing.
#[derive(Clone, Copy)]
struct Progress {
    // Whether no entry is printed yet.
    is_empty: bool,
    // The greatest status so far.
    status: u8,
}

// Returns whether an entry has a field `crossref` or `xdata`.
fn refers(entry: &Spanned<RawEntry<'_>>) -> bool {
    let mut fields = entry.v.fields.iter();
    fields.any(|field| is_word(field.key.v, "crossref") || is_word(field.key.v, "xdata"))
}

// Returns whether an entry of a document has a field `crossref` or `xdata`. Otherwise, `resolve` returns the same text.
fn has_references(document: &RawDocument<'_>) -> bool {
    document.raw().entries.iter().any(refers)
}

// Returns a text with its references `crossref` and `xdata` resolved by the rules of BibLaTeX. Returns `None` if that is the same text, if
// an entry inherits from itself, or if the text has a syntax error.
fn resolved_text(alloc: Global, text: &str) -> Result<Option<String>, AllocError> {
    let document = match RawDocument::parse(alloc, text) {
        Ok(document) => document,
        Err(error) => {
            error.unless_out_of_memory()?;
            return Ok(None);
        }
    };
    if !has_references(&document) {
        return Ok(None);
    }
    let resolved = match resolve(alloc, &document) {
        Ok(resolved) => resolved,
        Err(error) => {
            let _entry = error.unless_out_of_memory()?;
            return Ok(None);
        }
    };
    if resolved.as_str() == text {
        return Ok(None);
    }
    Ok(Some(resolved))
}

// Returns the resolved text of a file, whose entries are printed, or `None` if the entries of `text` itself are printed. The result for
// JSON is always `None`, because JSON contains byte offsets of the file.
fn printed_text(alloc: Global, target: Target, text: &str) -> Result<Option<String>, AllocError> {
    match target {
        Target::Json => Ok(None),
        Target::Csl(_) | Target::Ris => resolved_text(alloc, text),
    }
}

// How a text is parsed.
#[derive(Clone, Copy)]
enum Reading {
    // As a whole; the first error makes parsing fail.
    Whole,
    // As far as possible, as by `Bibliography::recover`.
    Parts,
}

// What is printed of the text of a file.
#[derive(Clone, Copy)]
struct Printing<'a> {
    // The format.
    target: Target,
    // The conditions, all of which an entry must meet.
    selections: &'a [Selection],
    // How the text is parsed.
    reading: Reading,
}

// Returns the bibliography of a text.
fn bibliography_of(
    alloc: Global,
    reading: Reading,
    text: &str,
) -> Result<Bibliography, ConvertError> {
    match reading {
        Reading::Whole => Ok(Bibliography::parse(alloc, text)?),
        Reading::Parts => {
            let recovery = Bibliography::recover(alloc, text)?;
            Ok(recovery.bibliography)
        }
    }
}

// Returns the keys of the entries of a bibliography that meet all conditions, or `None` without conditions.
fn wanted_keys(
    alloc: Global,
    selections: &[Selection],
    bibliography: &Bibliography,
) -> Result<Option<BTreeSet<String>>, AllocError> {
    if selections.is_empty() {
        return Ok(None);
    }
    let mut keys = BTreeSet::new(alloc);
    'keys: for key in selected_keys(alloc, selections, bibliography)? {
        keys.insert(String::from_str(alloc, key)?)?;
    }
    Ok(Some(keys))
}

// Returns the wanted keys of the bibliography of a text, or `None` without conditions. Fails if the text is parsed as a whole and has an
// error, or if out of memory.
fn wanted_keys_in(
    alloc: Global,
    printing: &Printing<'_>,
    text: &str,
) -> Result<Option<BTreeSet<String>>, ConvertError> {
    let bibliography = bibliography_of(alloc, printing.reading, text)?;
    Ok(wanted_keys(alloc, printing.selections, &bibliography)?)
}

// Prints the entries of a bibliography, each after its separator; in CSL-JSON and RIS no `xdata` entries. With `keys`, prints only those
// that have one of these keys. Returns whether the next entry would be the first of the output.
fn print_wanted<K: Sink>(
    alloc: Global,
    target: Target,
    is_first: bool,
    keys: &Option<BTreeSet<String>>,
    bibliography: &Bibliography,
    output: &mut K,
) -> Result<bool, ConvertError> {
    let Some(keys) = keys else {
        return print_entries(alloc, target, is_first, bibliography, output);
    };
    let mut is_still_first = is_first;
    'entries: for entry in bibliography {
        if keys.contains(entry.key.as_str()) {
            is_still_first = print_entry(alloc, target, is_still_first, entry, output)?;
        }
    }
    Ok(is_still_first)
}

// Prints the entries of a file's text that meet all conditions; in CSL-JSON and RIS no `xdata` entries. Returns whether the next entry
// would be the first of the output. If the text can't be parsed, prints nothing and returns the error.
fn print_text<K: Sink>(
    alloc: Global,
    printing: &Printing<'_>,
    is_first: bool,
    text: &str,
    output: &mut K,
) -> Result<bool, ConvertError> {
    let target = printing.target;
    match printed_text(alloc, target, text)? {
        Some(resolved) => {
            let keys = wanted_keys_in(alloc, printing, text)?;
            let printed = bibliography_of(alloc, printing.reading, &resolved)?;
            print_wanted(alloc, target, is_first, &keys, &printed, output)
        }
        None => {
            let printed = bibliography_of(alloc, printing.reading, text)?;
            let keys = wanted_keys(alloc, printing.selections, &printed)?;
            print_wanted(alloc, target, is_first, &keys, &printed, output)
        }
    }
}

// Prints those entries of a text with errors that can be parsed, as `print_text` does. Blocks with a syntax error are left out.
fn print_readable<K: Sink>(
    alloc: Global,
    printing: &Printing<'_>,
    is_first: bool,
    text: &str,
    output: &mut K,
) -> Result<bool, ConvertError> {
    let readable = readable_text(alloc, text)?;
    let printing = Printing {
        reading: Reading::Parts,
        ..*printing
    };
    print_text(alloc, &printing, is_first, &readable, output)
}

// Returns the progress after errors were reported and the other entries were printed.
fn after_errors(
    alloc: Global,
    progress: Progress,
    printed: Result<bool, ConvertError>,
) -> Result<Progress, Stop> {
    match printed {
        Ok(is_empty) => Ok(Progress {
            is_empty,
            status: progress.status.max(1),
        }),
        Err(error) => {
            let _not_taken = error.unless_out_of_memory()?;
            Err(output_stop(alloc)?)
        }
    }
}

// Reports the errors of a file's text, and prints those entries that can be parsed and meet all conditions; in CSL-JSON and RIS no `xdata`
// entries.
fn convert_readable<K: Sink>(
    rt: &HostRuntime,
    printing: &Printing<'_>,
    progress: Progress,
    name: &str,
    text: &str,
    output: &mut K,
) -> Result<Progress, Stop> {
    let lines = error_lines(rt.alloc(), name, text)?;
    let _ = eprint!(rt; "{lines}");
    let printed = print_readable(rt.alloc(), printing, progress.is_empty, text, output);
    after_errors(rt.alloc(), progress, printed)
}

// Prints the entries of a file's text that meet all conditions; in CSL-JSON and RIS no `xdata` entries. If parsing it as a bibliography
// fails, reports its errors, and prints those entries that can be parsed.
fn convert_text<K: Sink>(
    rt: &HostRuntime,
    printing: &Printing<'_>,
    progress: Progress,
    name: &str,
    text: &str,
    output: &mut K,
) -> Result<Progress, Stop> {
    match print_text(rt.alloc(), printing, progress.is_empty, text, output) {
        Ok(is_empty) => Ok(Progress {
            is_empty,
            ..progress
        }),
        Err(error) => match error.unless_out_of_memory()? {
            ConvertError::File(_) => convert_readable(rt, printing, progress, name, text, output),
            _ => Err(output_stop(rt.alloc())?),
        },
    }
}

// Several files that were read as one database.
#[derive(Clone, Copy)]
struct Database<'n, 't, 'f> {
    // The files.
    files: &'f [TextFile<'n>],
    // Their texts in one text.
    texts: &'t JoinedFiles,
    // The content of this text.
    recovery: &'f RawRecovery<'t>,
}

// Prints the objects of the entries of several files that meet all conditions. The spans of an object are in the file of the entry. `text`
// is the text of all files, maybe without its skipped blocks.
fn print_objects<K: Sink>(
    alloc: Global,
    printing: &Printing<'_>,
    is_first: bool,
    database: Database<'_, '_, '_>,
    text: &str,
    output: &mut K,
) -> Result<bool, ConvertError> {
    let Database {
        texts,
        recovery,
        ..
    } = database;
    let mut printed = bibliography_of(alloc, printing.reading, text)?;
    let keys = wanted_keys(alloc, printing.selections, &printed)?;
    move_spans(alloc, texts.ends(), recovery, &mut printed)?;
    print_wanted(alloc, printing.target, is_first, &keys, &printed, output)
}

// Prints the entries of several files that meet all conditions; in CSL-JSON and RIS no `xdata` entries. `text` is the text of all files,
// maybe without its skipped blocks. If it can't be parsed, prints nothing and returns the error.
fn print_database<K: Sink>(
    alloc: Global,
    printing: &Printing<'_>,
    is_first: bool,
    database: Database<'_, '_, '_>,
    text: &str,
    output: &mut K,
) -> Result<bool, ConvertError> {
    match printing.target {
        Target::Json => print_objects(alloc, printing, is_first, database, text, output),
        Target::Csl(_) | Target::Ris => print_text(alloc, printing, is_first, text, output),
    }
}

// Reports the errors of several files, and prints those of their entries that can be parsed and meet all conditions.
fn convert_rest<K: Sink>(
    rt: &HostRuntime,
    printing: &Printing<'_>,
    progress: Progress,
    database: Database<'_, '_, '_>,
    output: &mut K,
) -> Result<Progress, Stop> {
    let Database {
        files,
        texts,
        recovery,
    } = database;
    let lines = lines_of_all(rt.alloc(), files, texts, recovery)?;
    let _ = eprint!(rt; "{lines}");
    let readable = without_blocks(rt.alloc(), texts.text(), &recovery.skipped)?;
    let printing = Printing {
        reading: Reading::Parts,
        ..*printing
    };
    let printed = print_database(
        rt.alloc(),
        &printing,
        progress.is_empty,
        database,
        &readable,
        output,
    );
    after_errors(rt.alloc(), progress, printed)
}

// Prints the entries of several files that meet all conditions; in CSL-JSON and RIS no `xdata` entries. If parsing them as one bibliography
// fails, reports the errors, and prints those entries that can be parsed.
fn convert_recovered<K: Sink>(
    rt: &HostRuntime,
    printing: &Printing<'_>,
    progress: Progress,
    database: Database<'_, '_, '_>,
    output: &mut K,
) -> Result<Progress, Stop> {
    if !database.recovery.skipped.is_empty() {
        return convert_rest(rt, printing, progress, database, output);
    }
    let is_first = progress.is_empty;
    let text = database.texts.text();
    match print_database(rt.alloc(), printing, is_first, database, text, output) {
        Ok(is_empty) => Ok(Progress {
            is_empty,
            ..progress
        }),
        Err(error) => match error.unless_out_of_memory()? {
            ConvertError::File(_) => convert_rest(rt, printing, progress, database, output),
            _ => Err(output_stop(rt.alloc())?),
        },
    }
}

// Prints the entries of several files as one database, as `convert_recovered` does.
fn convert_database<K: Sink>(
    rt: &HostRuntime,
    printing: &Printing<'_>,
    progress: Progress,
    files: &[TextFile<'_>],
    output: &mut K,
) -> Result<Progress, Stop> {
    let texts = joined_texts(rt.alloc(), files)?;
    let recovery = texts.recover_parts(rt.alloc())?;
    let database = Database {
        files,
        texts: &texts,
        recovery: &recovery,
    };
    convert_recovered(rt, printing, progress, database, output)
}

// The files that were read, and the status of reading them.
#[derive(Drop)]
struct Inputs<'a> {
    files: Vec<TextFile<'a>>,
    status: u8,
}

// Reads files, and reports each file that can't be read.
fn read_files<'a>(rt: &HostRuntime, names: &[&'a str]) -> Result<Inputs<'a>, AllocError> {
    let mut inputs = Inputs {
        files: Vec::new(rt.alloc()),
        status: 0,
    };
    'names: for name in names {
        match bytes_of(rt, name) {
            Ok(bytes) => {
                let text = decode(rt.alloc(), &bytes)?.text;
                inputs.files.push(TextFile { name: *name, text })?;
            }
            Err(stop) => {
                let stop = stop.unless_out_of_memory()?;
                inputs.status = say(rt, &stop).max(inputs.status);
            }
        }
    }
    Ok(inputs)
}

// Prints the entries of files that meet all conditions; in CSL-JSON and RIS no `xdata` entries. Several files are one database. Reports
// the errors of the files, and each file that can't be read.
fn convert_inputs<K: Sink>(
    rt: &HostRuntime,
    printing: &Printing<'_>,
    names: &[&str],
    output: &mut K,
) -> Result<Progress, Stop> {
    let Inputs { files, status } = read_files(rt, names)?;
    let progress = Progress {
        is_empty: true,
        status,
    };
    match files.as_slice() {
        [file] => convert_text(rt, printing, progress, file.name, &file.text, output),
        files => convert_database(rt, printing, progress, files, output),
    }
}

// Prints the end of the format after the entries of all files.
fn print_end<K: Sink>(
    alloc: Global,
    target: Target,
    is_empty: bool,
    output: &mut K,
) -> Result<(), Stop> {
    if output.write_str(target.end(is_empty)) {
        Ok(())
    } else {
        Err(output_stop(alloc)?)
    }
}

// Prints the entries of files that meet all conditions; in CSL-JSON and RIS no `xdata` entries. Returns the greatest status of a file.
// With conditions, the status is at least 1 if no entry is printed.
fn convert_files(
    rt: &HostRuntime,
    converting: &Converting<'_>,
    names: &[&str],
) -> Result<u8, Stop> {
    let selections = parse_conditions(rt.alloc(), &converting.conditions)?;
    let mut output = Output::new(io::writer(rt));
    let printing = Printing {
        target: converting.target,
        selections: &selections,
        reading: Reading::Whole,
    };
    let progress = convert_inputs(rt, &printing, names, &mut output)?;
    print_end(
        rt.alloc(),
        converting.target,
        progress.is_empty,
        &mut output,
    )?;
    if progress.is_empty && !selections.is_empty() {
        return Ok(progress.status.max(1));
    }
    if progress.is_empty && progress.status == 0 {
        let _ = eprint!(rt; "bibkit: note: no entry to print\n");
    }
    Ok(progress.status)
}

/// Prints the entries of files that meet all conditions in another format, and returns the greatest status of a file. In CSL-JSON and RIS,
/// no `xdata` entries are printed. If conditions are given and no entry is printed, the status is at least 1. If a condition can't be
/// parsed, if the output refuses a text, or if out of memory, stops and returns the status of that error.
pub fn run_convert(rt: &HostRuntime, converting: &Converting<'_>, names: &[&str]) -> u8 {
    match convert_files(rt, converting, names) {
        Ok(status) => status,
        Err(stop) => say(rt, &stop),
    }
}
