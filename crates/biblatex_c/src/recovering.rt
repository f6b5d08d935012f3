//! The call that writes the bibliography recovered from a text with errors.

ghost use Rattle.std.specs.Prelude.{◌≡◌, IfErr, IfOk};
ghost use Rattle.std.specs.String.{string_bytes};
ghost use Rattle.biblatex_c.specs.Calls.{IsNumberedEnd};
ghost use Rattle.biblatex_c.specs.Recovered.{IsRecoveredIn, IsRecoveredText, RecoverFails, format_numbered, written_in};
ghost use Rattle.biblatex_c.specs.declared.status.Status.TheVariants.{OutOfMemory};

use crate::buffers::end;
use crate::exporting::entries_as;
use crate::status::Status;
use bib_csl::sentence_items::TitleCase;
use bibkit_convert::target::Target;
use biblatex::{Bibliography, decode};
use std::alloc::Global;
use std::str::from_utf8;

/// A format in which a recovered bibliography is written.
#[derive(Debug, Clone, Copy, PartialEq, Eq)]
pub enum ExportFormat {
    /// The types and fields of BibLaTeX.
    Biblatex,
    /// The types and fields of BibTeX.
    Bibtex,
    /// Entries with chunks and typed values, as a JSON array.
    Json,
    /// CSL-JSON items.
    Csl,
}

impl ExportFormat {
    /// Returns the format with this number: 0 to 3, in the order of the variants. Returns `None` for any other number.
    pub fn from_number(number: u32) -> Option<Self>
        ensures { result ≡ format_numbered number }
    {
        match number {
            0 => Some(ExportFormat::Biblatex),
            1 => Some(ExportFormat::Bibtex),
            2 => Some(ExportFormat::Json),
            3 => Some(ExportFormat::Csl),
            _ => None,
        }
    }
}

// Returns the text of a bibliography in a format. Fails only if out of memory.
fn text_in(
    alloc: Global,
    format: ExportFormat,
    bibliography: &Bibliography,
) -> Result<String, Status>
    ensures text { IfOk result (λ text. string_bytes text ≡ written_in format bibliography.now) }
    ensures fails { IfErr result (λ why. why ≡ OutOfMemory) }
{
    match format {
        ExportFormat::Biblatex => Ok(bibliography.to_biblatex_string(alloc)?),
        ExportFormat::Bibtex => Ok(bibliography.to_bibtex_string(alloc)?),
        ExportFormat::Json => entries_as(alloc, Target::Json, bibliography),
        ExportFormat::Csl => entries_as(alloc, Target::Csl(TitleCase::AsWritten), bibliography),
    }
}

// Returns the bibliography recovered from `text`, in a format. Fails only if out of memory.
fn recovered_text(alloc: Global, format: ExportFormat, text: &str) -> Result<String, Status>
    ensures text { IfOk result (λ answer. IsRecoveredText format text.now (string_bytes answer)) }
    ensures fails { IfErr result (λ why. why ≡ OutOfMemory) }
{
    let found = Bibliography::recover(alloc, text)?;
    text_in(alloc, format, &found.bibliography)
}

// Decodes `bytes`, and returns the bibliography recovered from their text, in the format with this number. Bytes that aren't UTF-8 are
// decoded as Windows-1252. Fails with `Refused` if no format has the number.
fn recover_in(alloc: Global, number: u32, bytes: &[u8]) -> Result<String, Status>
    ensures text { IfOk result (λ answer. IsRecoveredIn number bytes.now (string_bytes answer)) }
    ensures fails { IfErr result (RecoverFails number) }
{
    let Some(format) = ExportFormat::from_number(number) else {
        return Err(Status::Refused);
    };
    match from_utf8(bytes) {
        Ok(text) => recovered_text(alloc, format, text),
        Err(_) => {
            let decoded = decode(alloc, bytes)?;
            recovered_text(alloc, format, decoded.text.as_str())
        }
    }
}

/// Writes the bibliography recovered from a text, in the format with this number (see `Bibliography::recover`). For a text without errors,
/// this is its whole bibliography. Bytes that aren't UTF-8 are decoded as Windows-1252. Returns `Refused` only if no format has the number.
#[unsafe(no_mangle)]
pub extern "C" fn biblatex_recover(
    alloc: Global,
    text: &[u8],
    format: u32,
    out: &mut [u8],
    size: &mut usize,
) -> u32
    ensures { IsNumberedEnd (IsRecoveredIn format text.now) (RecoverFails format)
        out.old size.old out.new size.new result }
{
    end(recover_in(alloc, format, text), out, size).number()
}
