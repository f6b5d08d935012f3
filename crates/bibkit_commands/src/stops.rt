//! The reasons why a command ends early, and their messages.

ghost use Rattle.std.specs.Prelude.{◌≡◌, ◌++◌, ℕ, List, Some, codes, IfOk, string_bytes};
ghost use Rattle.bib_source.specs.Positions.{position_at};
ghost use Rattle.bib_syntax.specs.Errors.{kind_text};
ghost use Rattle.bib_syntax.specs.Recovery.{IsRecovery};
ghost use Rattle.bib_syntax.specs.Views.{file_of};
ghost use Rattle.bibkit_commands.specs.Messages as spec;
ghost use Rattle.bibkit_commands.specs.Messages.{of_program, says};

use crate::files::SystemFiles;
use bib_source::positions::Positions;
use bib_syntax::raw::{ParseError, RawRecovery};
use bibkit_core::files::Files;
use bibkit_core::skipped::{skipped_lines, skipped_lines_of};
use biblatex::{Output, Sink};
use std::alloc::{AllocError, AllocFailed, Global};
use std::io;

/// The reason why a command on a file ends early.
#[derive(Drop)]
pub enum Stop {
    /// An error with this message and this status.
    Said(String, u8),
    /// Out of memory.
    OutOfMemory,
}

impl From<AllocError> for Stop {
    fn from(_error: AllocError) -> Self {
        Stop::OutOfMemory
    }
}

impl<T: Drop> From<AllocFailed<T>> for Stop {
    fn from(_error: AllocFailed<T>) -> Self {
        Stop::OutOfMemory
    }
}

impl Stop {
    /// Returns `AllocError` for out of memory, and `Ok` with any other reason.
    pub fn unless_out_of_memory(self) -> Result<Stop, AllocError> {
        match self {
            Stop::OutOfMemory => Err(AllocError),
            said => Ok(said),
        }
    }
}

/// Returns the bytes of a file. `-` is standard input. If the file can't be read, fails with a message and status 2, or with
/// `OutOfMemory`.
pub fn bytes_of(rt: &HostRuntime, name: &str) -> Result<Vec<u8>, Stop> {
    bytes_from(rt, name, "-")
}

/// Returns the bytes of a file, as `bytes_of` does. The file `input` is standard input.
pub fn bytes_from(rt: &HostRuntime, name: &str, input: &str) -> Result<Vec<u8>, Stop> {
    let mut files = SystemFiles::new(rt, input);
    match files.read(rt.alloc(), name) {
        Ok(bytes) => Ok(bytes),
        Err(error) => {
            let error = error.unless_out_of_memory()?;
            let text = format!(in rt.alloc(); "bibkit: {name}: {}\n", error.text())?;
            Err(Stop::Said(text, 2))
        }
    }
}

/// Returns the message for an error at the byte offset `at` of `bytes`: `name:line:column: error: text` and a line feed. `bytes` are
/// the bytes of the file `name` in which the offset is counted, with or without a byte order mark.
pub fn error_line(
    alloc: Global,
    name: &str,
    bytes: &[u8],
    at: usize,
    text: &str,
) -> Result<String, AllocError>
    ensures { IfOk result (λ line. string_bytes line ≡ spec.line_of_error name.now (position_at bytes.now at) text.now) }
{
    let position = Positions::of_bytes(bytes).position(at);
    format!(in alloc;
        "{name}:{}:{}: error: {text}\n",
        position.line, position.column
    )
}

/// Returns the message for a syntax error of the file `name`. `text` is its text without a byte order mark.
pub fn syntax_line(
    alloc: Global,
    name: &str,
    text: &[u8],
    error: &ParseError,
) -> Result<String, AllocError>
    ensures { IfOk result (λ line. (said : List ℕ) → kind_text error.now.kind ≡ Some said
        → string_bytes line ≡ spec.line_of_error name.now (position_at text.now error.now.span.start) (said ++ codes " [syntax]")) }
{
    let said = format!(in alloc; "{} [syntax]", error.kind)?;
    error_line(alloc, name, text, error.span.start, &said)
}

/// Returns the message and status 2 for an output that can't be written.
pub fn output_stop(alloc: Global) -> Result<Stop, AllocError>
    ensures { IfOk result (λ stop. says stop ≡ Some (of_program (codes "the output can't be written"), 2)) }
{
    let said = String::from_str(alloc, "bibkit: the output can't be written\n")?;
    Ok(Stop::Said(said, 2))
}

/// Prints a text to standard output.
pub fn print_output(rt: &HostRuntime, text: &str) -> Result<(), Stop> {
    let mut output = Output::new(io::writer(rt));
    if output.write_str(text) {
        Ok(())
    } else {
        Err(output_stop(rt.alloc())?)
    }
}

/// Prints the message of a stop to standard error, and returns the status.
pub fn say(rt: &HostRuntime, stop: &Stop) -> u8 {
    match stop {
        Stop::Said(text, status) => {
            let _ = eprint!(rt; "{text}");
            *status
        }
        Stop::OutOfMemory => {
            let _ = rt.eprintln("bibkit: out of memory");
            3
        }
    }
}

// Prints the lines for skipped blocks to standard error. Returns the status: 1 if there is one, otherwise 0.
fn report_lines(rt: &HostRuntime, lines: &str) -> u8 {
    if lines.is_empty() {
        return 0;
    }
    let _ = eprint!(rt; "{lines}");
    1
}

/// Reports the skipped blocks of the file `name` with this decoded text to standard error. Returns the status: 1 if there is one, otherwise
/// 0.
pub fn report_skipped(rt: &HostRuntime, name: &str, text: &str) -> Result<u8, AllocError> {
    let lines = skipped_lines(rt.alloc(), name, text)?;
    Ok(report_lines(rt, &lines))
}

/// Reports the skipped blocks of a file as `report_skipped` does. `found` is the result of `RawBibliography::recover` for its decoded text.
pub fn report_skipped_of(
    rt: &HostRuntime,
    name: &str,
    text: &str,
    found: &RawRecovery<'_>,
) -> Result<u8, AllocError>
    requires { IsRecovery text.now (file_of found.now.raw) found.now.skipped.items }
{
    let lines = skipped_lines_of(rt.alloc(), name, text, found)?;
    Ok(report_lines(rt, &lines))
}
