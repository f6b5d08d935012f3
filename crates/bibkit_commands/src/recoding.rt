//! Runs `recode`, which converts a file to UTF-8, and its line ends and accents if this is requested.

ghost use Rattle.std.specs.Prelude.{◌≡◌, Some, codes, IfOk, string_bytes};
ghost use Rattle.bibkit_commands.specs.Messages as spec;
ghost use Rattle.bibkit_commands.specs.Messages.{on_file, says};

use crate::edits::{Editing, Mode, write_new};
use crate::refusals::unbalanced_quotes_line;
use crate::stops::{Stop, bytes_of, print_output, syntax_line};
use bib_recode::decoding::{DecodeError, decode};
use bib_recode::encoding::{Encoding, detect, marked_as};
use bib_recode::line_ends::{LineEnds, with_line_ends};
use bib_syntax::raw::ParseError;
use edit_accents::recoding::{Form, recode as with_form};
use edit_entries::document::RawDocument;
use std::alloc::{AllocError, Global};

/// The encoding of a file, and how its text is written.
#[derive(Clone, Copy)]
pub struct Recoding {
    /// The encoding of a file without a byte order mark, or `None` if such a file must be UTF-8.
    pub from: Option<Encoding>,
    /// The line ends of the new text, or `None` to keep them.
    pub line_ends: Option<LineEnds>,
    /// Whether the new text begins with a byte order mark.
    pub has_mark: bool,
    /// The form of accents and letters beyond ASCII, or `None` to keep them as they are.
    pub accents: Option<Form>,
}

// Returns the message and status 2 for a file without a byte order mark that isn't UTF-8.
fn encoding_stop(alloc: Global, name: &str) -> Result<Stop, AllocError>
    ensures { IfOk result (λ stop. says stop
        ≡ Some (on_file name.now (codes "not UTF-8; `--from` names its encoding, such as windows-1252"), 2)) }
{
    let said = format!(in alloc;
        "bibkit: {name}: not UTF-8; `--from` names its encoding, such as windows-1252\n"
    )?;
    Ok(Stop::Said(said, 2))
}

// Returns the encoding of a file: that of its byte order mark, or else the one in `recoding`, or else UTF-8 if the bytes are valid UTF-8.
// Otherwise fails with a message and status 2.
fn encoding_of(
    alloc: Global,
    name: &str,
    recoding: &Recoding,
    bytes: &[u8],
) -> Result<Encoding, Stop> {
    match marked_as(bytes).or(recoding.from).or(detect(bytes)) {
        Some(encoding) => Ok(encoding),
        None => Err(encoding_stop(alloc, name)?),
    }
}

// Returns the message for an error of decoding a file.
fn decode_line(alloc: Global, name: &str, error: DecodeError) -> Result<String, AllocError>
    ensures { IfOk result (λ line. string_bytes line ≡ spec.decode_line name.now error) }
{
    match error {
        DecodeError::NotUtf8 { at } => {
            format!(in alloc; "bibkit: {name}: not UTF-8 from byte {at} on\n")
        }
        DecodeError::UnpairedSurrogate { at } => {
            format!(in alloc; "bibkit: {name}: not UTF-16: an unpaired surrogate at byte {at}\n")
        }
        DecodeError::OddByte { at } => {
            format!(in alloc;
                "bibkit: {name}: not UTF-16: an odd number of bytes; the last is byte {at}\n"
            )
        }
        DecodeError::OutOfMemory => format!(in alloc; "bibkit: out of memory\n"),
    }
}

// Returns `AllocError` for out of memory, and `Ok` with any other error.
fn unless_out_of_memory(error: DecodeError) -> Result<DecodeError, AllocError> {
    match error {
        DecodeError::OutOfMemory => Err(AllocError),
        error => Ok(error),
    }
}

// Decodes the bytes of a file. Fails with a message and status 1 if they aren't in this encoding.
fn decoded(alloc: Global, name: &str, bytes: &[u8], encoding: Encoding) -> Result<String, Stop> {
    match decode(alloc, bytes, encoding) {
        Ok(text) => Ok(text),
        Err(error) => {
            let error = unless_out_of_memory(error)?;
            Err(Stop::Said(decode_line(alloc, name, error)?, 1))
        }
    }
}

// Returns the message and status 1 for the error of parsing a text as a bibliography.
fn syntax_stop(
    alloc: Global,
    name: &str,
    text: &str,
    error: &ParseError,
) -> Result<Stop, AllocError> {
    let line = syntax_line(alloc, name, text.as_bytes(), error)?;
    Ok(Stop::Said(line, 1))
}

// Returns a text with its accents and letters in a form. Fails with a message and status 1 if it can't be parsed, or if the braces of a
// text in quotes don't balance.
fn with_accents(alloc: Global, name: &str, text: &str, form: Form) -> Result<String, Stop> {
    match RawDocument::parse(alloc, text) {
        Ok(document) if document.has_unbalanced_quotes() => {
            let line = unbalanced_quotes_line(alloc, name, text.as_bytes())?;
            Err(Stop::Said(line, 1))
        }
        Ok(document) => Ok(with_form(alloc, &document, form)?),
        Err(error) => {
            error.unless_out_of_memory()?;
            Err(syntax_stop(alloc, name, text, &error)?)
        }
    }
}

// Returns a text with its accents and letters in the form of `recoding`, or as it is if `recoding` has none.
fn exchanged(alloc: Global, name: &str, recoding: &Recoding, text: String) -> Result<String, Stop> {
    match recoding.accents {
        Some(form) => with_accents(alloc, name, &text, form),
        None => Ok(text),
    }
}

// Returns a text with the line ends and the byte order mark of `recoding`.
fn recoded(alloc: Global, recoding: &Recoding, text: String) -> Result<String, AllocError> {
    match recoding.line_ends {
        Some(ends) => with_line_ends(alloc, &text, ends, recoding.has_mark),
        None if recoding.has_mark => format!(in alloc; "\u{FEFF}{text}"),
        None => Ok(text),
    }
}

/// Prints a file as UTF-8, or writes the new text into the file.
pub fn recode(rt: &HostRuntime, editing: &Editing<'_>, recoding: &Recoding) -> Result<(), Stop> {
    let name = editing.name;
    let bytes = bytes_of(rt, name)?;
    let encoding = encoding_of(rt.alloc(), name, recoding, &bytes)?;
    let text = decoded(rt.alloc(), name, &bytes, encoding)?;
    let text = exchanged(rt.alloc(), name, recoding, text)?;
    let new = recoded(rt.alloc(), recoding, text)?;
    if editing.mode == Mode::Write {
        write_new(rt, name, &bytes, &new)
    } else {
        print_output(rt, &new)
    }
}
