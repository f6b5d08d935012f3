//! Calls that write a bibliography as JSON or as CSL-JSON.

ghost use Rattle.std.specs.Prelude.{◌≡◌, ⊤, Some, IfErr, IfOk};
ghost use Rattle.std.specs.String.{string_bytes};
ghost use Rattle.biblatex_c.specs.Calls.{IsNoBibliography, IsNumberedEnd, IsWrittenAs, TextFails, exported_text};
ghost use Rattle.biblatex_c.specs.declared.status.Status.TheVariants.{OutOfMemory};
ghost use Rattle.bib_csl.specs.declared.sentence_items.TitleCase.TheVariants.{AsWritten};
ghost use Rattle.bibkit_convert.specs.declared.target.Target.TheVariants.{Csl, Json};

use crate::buffers::end;
use crate::reading::bibliography_of;
use crate::status::Status;
use bib_csl::sentence_items::TitleCase;
use bibkit_convert::converting::{ConvertError, print_entries};
use bibkit_convert::target::Target;
use biblatex::{Bibliography, ParseError, Sink};
use std::alloc::{AllocError, Global};

// A sink that appends to a string, and counts the writes that failed. A write fails only if out of memory.
#[derive(Drop)]
struct Growing {
    text: String,
    refusals: u64,
}

impl Sink for Growing {
    ghost taken = { λ growing. Some (string_bytes growing.text) };

    ghost refusals = { λ growing. growing.refusals };

    ghost hands_over = { λ _ _ _ _. ⊤ };

    fn write_str(&mut self, text: &str) -> bool {
        match self.text.push_str(text) {
            Ok(()) => true,
            Err(_) => {
                self.refusals = self.refusals.saturating_add(1);
                false
            }
        }
    }
}

// Returns the error of the file, or `AllocError` for any other error. A write to a `Growing` fails only if out of memory.
fn unless_out_of_memory(error: ConvertError) -> Result<ParseError, AllocError>
    ensures file { IfOk result (λ file. error ≡ ConvertError.File file) }
{
    match error {
        ConvertError::File(file) => Ok(file),
        ConvertError::NotTaken | ConvertError::OutOfMemory => Err(AllocError),
    }
}

// Returns the text of a bibliography in a format. Fails only if out of memory.
pub(crate) fn entries_as(
    alloc: Global,
    target: Target,
    bibliography: &Bibliography,
) -> Result<String, Status>
    ensures text { IfOk result (λ text. string_bytes text ≡ exported_text target bibliography.now) }
    ensures fails { IfErr result (λ why. why ≡ OutOfMemory) }
{
    let mut growing = Growing {
        text: String::new(alloc),
        refusals: 0,
    };
    match print_entries(alloc, target, true, bibliography, &mut growing) {
        Ok(is_empty) => {
            let Growing { mut text, .. } = growing;
            text.push_str(target.end(is_empty))?;
            Ok(text)
        }
        Err(error) => Err(Status::from(unless_out_of_memory(error)?)),
    }
}

// Parses a bibliography and returns its text in a format.
fn bibliography_as(alloc: Global, target: Target, bytes: &[u8]) -> Result<String, Status>
    ensures text { IfOk result (λ text. IsWrittenAs target bytes.now (string_bytes text)) }
    ensures fails { IfErr result (TextFails (IsNoBibliography bytes.now) bytes.now) }
{
    let bibliography = bibliography_of(alloc, bytes)?;
    entries_as(alloc, target, &bibliography)
}

/// Writes the entries of a bibliography, with chunks and typed values, as a JSON array. Returns `Refused` if parsing the text
/// fails.
#[unsafe(no_mangle)]
pub extern "C" fn biblatex_json(alloc: Global, text: &[u8], out: &mut [u8], size: &mut usize) -> u32
    ensures { IsNumberedEnd (IsWrittenAs Json text.now) (TextFails (IsNoBibliography text.now) text.now)
        out.old size.old out.new size.new result }
{
    end(bibliography_as(alloc, Target::Json, text), out, size).number()
}

/// Writes the entries of a bibliography, except those of the type `xdata`, as an array of CSL-JSON items. Returns `Refused` if parsing the
/// text fails.
#[unsafe(no_mangle)]
pub extern "C" fn biblatex_csl(alloc: Global, text: &[u8], out: &mut [u8], size: &mut usize) -> u32
    ensures { IsNumberedEnd (IsWrittenAs (Csl AsWritten) text.now) (TextFails (IsNoBibliography text.now) text.now)
        out.old size.old out.new size.new result }
{
    end(
        bibliography_as(alloc, Target::Csl(TitleCase::AsWritten), text),
        out,
        size,
    )
    .number()
}
