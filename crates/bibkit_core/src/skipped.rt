//! Returns the lines that report the skipped blocks of files.

ghost use Rattle.std.specs.Prelude.{◌≡◌, ◌||◌, ◌==◌, false, length, not, IfOk, OnOk};
ghost use Rattle.std.specs.String.{string_bytes};
ghost use Rattle.bib_syntax.specs.Recovery.{IsRecovery};
ghost use Rattle.bib_syntax.specs.Views.{file_of};
ghost use Rattle.bibkit_core.specs.Skipped as spec;
ghost use Rattle.bibkit_core.specs.Skipped.{AddsSkipped, AreBlockFindings, AreSkippedLines};

use crate::lines::finding_line;
use bib_findings::finding::Finding;
use bib_findings::findings::findings_in;
use bib_source::positions::Positions;
use biblatex::{RawBibliography, RawRecovery};
use std::alloc::{AllocError, Global};

// Returns the findings of `lint` for the skipped blocks of a text, in order of their places.
fn block_findings(alloc: Global, text: &str) -> Result<Vec<Finding>, AllocError>
    ensures { IfOk result (λ found. AreBlockFindings text.now found.items) }
{
    let recovery = RawBibliography::recover_parts(alloc, text)?;
    let found = findings_in(
        alloc,
        text,
        &recovery.skipped,
        &[],
        &[],
        &[],
        &recovery.raw.entries,
        &[],
        &[],
        Vec::new(alloc),
    )?;
    Ok(found)
}

// Returns the lines of skipped blocks with these findings, in turn.
fn block_lines(
    alloc: Global,
    name: &str,
    text: &str,
    found: &[Finding],
) -> Result<String, AllocError>
    ensures { IfOk result (λ lines. string_bytes lines ≡ spec.block_lines name.now text.now found.now) }
{
    let mut positions = Positions::new(text);
    let mut lines = String::new(alloc);
    'found: for finding in found {
        let place = positions.position(finding.span.start);
        lines.push_str(&finding_line(alloc, name, place, finding)?)?;
    }
    Ok(lines)
}

/// Returns the line that `lint` prints for each skipped block of the file `name` with this decoded text, in order of their places.
/// Fails only if out of memory.
pub fn skipped_lines(alloc: Global, name: &str, text: &str) -> Result<String, AllocError>
    ensures { IfOk result (λ lines. AreSkippedLines name.now text.now (string_bytes lines)) }
{
    let found = block_findings(alloc, text)?;
    let lines = block_lines(alloc, name, text, &found)?;
    Ok(lines)
}

/// Returns the lines that `skipped_lines` returns for the file `name` with this decoded text. `found` is the result of
/// `RawBibliography::recover` for the text. If it has no skipped block, the text isn't parsed again. Fails only if out of memory.
pub fn skipped_lines_of(
    alloc: Global,
    name: &str,
    text: &str,
    found: &RawRecovery<'_>,
) -> Result<String, AllocError>
    requires { IsRecovery text.now (file_of found.now.raw) found.now.skipped.items }
    ensures { IfOk result (λ lines. AreSkippedLines name.now text.now (string_bytes lines)) }
{
    if found.skipped.is_empty() {
        return Ok(String::new(alloc));
    }
    skipped_lines(alloc, name, text)
}

// Returns whether a file so far has a skipped block: one before this file, or this file, which has these lines.
fn has_any_with(has_any: bool, lines: &str) -> bool
    ensures { result ≡ (has_any || not (length lines.now == 0)) }
{
    has_any || !lines.is_empty()
}

/// The lines for the skipped blocks of the file that was processed last, and whether a file so far has a skipped block.
#[derive(Drop)]
pub struct Skipped {
    /// The lines for the skipped blocks of the last file.
    pub lines: String,
    /// Whether this file or one before it has a skipped block.
    pub has_any: bool,
}

impl Skipped {
    /// Returns the value before the first file.
    pub fn none(alloc: Global) -> Self
        ensures { result.has_any ≡ false }
    {
        Skipped {
            lines: String::new(alloc),
            has_any: false,
        }
    }

    /// Makes the lines of the next file, which has this name and this decoded text. `found` is the result of
    /// `RawBibliography::recover` for the text.
    pub fn next(
        &mut self,
        alloc: Global,
        name: &str,
        text: &str,
        found: &RawRecovery<'_>,
    ) -> Result<(), AllocError>
        requires { IsRecovery text.now (file_of found.now.raw) found.now.skipped.items }
        ensures { OnOk result (AddsSkipped self.old name.now text.now self.new) }
    {
        self.lines = skipped_lines_of(alloc, name, text, found)?;
        self.has_any = has_any_with(self.has_any, &self.lines);
        Ok(())
    }
}
