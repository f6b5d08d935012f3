//! Calls that parse a text and write its keys, or its bibliography as BibLaTeX or BibTeX.

ghost use Rattle.std.specs.Prelude.{◌≡◌, IfOk, IfErr};
ghost use Rattle.std.specs.Str.{IsUtf8};
ghost use Rattle.std.specs.String.{string_bytes};
ghost use Rattle.biblatex.specs.Headline.{IsBibliographyOf};
ghost use Rattle.biblatex.specs.Syntax.{biblatex_entry, bibtex_entry};
ghost use Rattle.biblatex_c.specs.Calls.{AreKeysInLines, IsNoBibliography, IsNoFile, IsNumberedEnd, IsWrittenAnew, TextFails};

use crate::buffers::end;
use crate::status::Status;
use bib_queries::excerpts::key_lines;
use biblatex::{Bibliography, RawBibliography};
use std::alloc::Global;
use std::str::from_utf8;

// Returns the bytes as a text, or `NotUtf8`.
pub(crate) fn text_of(bytes: &[u8]) -> Result<&str, Status>
    ensures text { IfOk result (λ text. text.now ≡ bytes.now) }
    ensures fails { IfErr result (λ why. (why ≡ Status.NotUtf8) × (IsUtf8 bytes.now → ⊥)) }
{
    match from_utf8(bytes) {
        Ok(text) => Ok(text),
        Err(_) => Err(Status::NotUtf8),
    }
}

// Parses a file and returns the keys of its entries, each followed by a line feed.
fn keys_of(alloc: Global, bytes: &[u8]) -> Result<String, Status>
    ensures keys { IfOk result (λ text. AreKeysInLines bytes.now (string_bytes text)) }
    ensures fails { IfErr result (TextFails (IsNoFile bytes.now) bytes.now) }
{
    let raw = RawBibliography::parse(alloc, text_of(bytes)?)?;
    Ok(key_lines(alloc, &raw.entries)?)
}

// Parses a bibliography.
pub(crate) fn bibliography_of(alloc: Global, bytes: &[u8]) -> Result<Bibliography, Status>
    ensures loaded { IfOk result (IsBibliographyOf bytes.now) }
    ensures fails { IfErr result (TextFails (IsNoBibliography bytes.now) bytes.now) }
{
    let bibliography = Bibliography::parse(alloc, text_of(bytes)?)?;
    Ok(bibliography)
}

// Parses a bibliography and returns it in the types and fields of BibLaTeX.
fn biblatex_of(alloc: Global, bytes: &[u8]) -> Result<String, Status>
    ensures text { IfOk result (λ text. IsWrittenAnew biblatex_entry bytes.now (string_bytes text)) }
    ensures fails { IfErr result (TextFails (IsNoBibliography bytes.now) bytes.now) }
{
    let bibliography = bibliography_of(alloc, bytes)?;
    Ok(bibliography.to_biblatex_string(alloc)?)
}

// Parses a bibliography and returns it in the types and fields of BibTeX.
fn bibtex_of(alloc: Global, bytes: &[u8]) -> Result<String, Status>
    ensures text { IfOk result (λ text. IsWrittenAnew bibtex_entry bytes.now (string_bytes text)) }
    ensures fails { IfErr result (TextFails (IsNoBibliography bytes.now) bytes.now) }
{
    let bibliography = bibliography_of(alloc, bytes)?;
    Ok(bibliography.to_bibtex_string(alloc)?)
}

/// Writes the key of each entry of a file in file order, each followed by a line feed. Returns `Refused` if the text isn't a
/// file of the grammar.
#[unsafe(no_mangle)]
pub extern "C" fn biblatex_keys(alloc: Global, text: &[u8], out: &mut [u8], size: &mut usize) -> u32
    ensures { IsNumberedEnd (AreKeysInLines text.now) (TextFails (IsNoFile text.now) text.now)
        out.old size.old out.new size.new result }
{
    end(keys_of(alloc, text), out, size).number()
}

/// Writes the bibliography of a text in the types and fields of BibLaTeX. Returns `Refused` if parsing the text fails.
#[unsafe(no_mangle)]
pub extern "C" fn biblatex_biblatex(
    alloc: Global,
    text: &[u8],
    out: &mut [u8],
    size: &mut usize,
) -> u32
    ensures { IsNumberedEnd (IsWrittenAnew biblatex_entry text.now) (TextFails (IsNoBibliography text.now) text.now)
        out.old size.old out.new size.new result }
{
    end(biblatex_of(alloc, text), out, size).number()
}

/// Writes the bibliography of a text in the types and fields of BibTeX. Returns `Refused` if parsing the text fails.
#[unsafe(no_mangle)]
pub extern "C" fn biblatex_bibtex(
    alloc: Global,
    text: &[u8],
    out: &mut [u8],
    size: &mut usize,
) -> u32
    ensures { IsNumberedEnd (IsWrittenAnew bibtex_entry text.now) (TextFails (IsNoBibliography text.now) text.now)
        out.old size.old out.new size.new result }
{
    end(bibtex_of(alloc, text), out, size).number()
}
