//! The parts of a file with errors that can be parsed, and the lines of its errors.

use bib_findings::codes::Code;
use bib_findings::finding::Finding;
use bib_findings::findings::findings;
use bib_source::positions::Positions;
use bib_syntax::raw::RawBibliography;
use bibkit_core::lines::finding_line;
use biblatex::SkippedBlock;
use std::alloc::{AllocError, Global};

// Appends as many spaces as `text` has bytes, but keeps its line ends.
fn push_blank(blanked: &mut String, text: &str) -> Result<(), AllocError> {
    'bytes: for byte in text.as_bytes() {
        blanked.push(match byte {
            b'\n' => '\n',
            b'\r' => '\r',
            _ => ' ',
        })?;
    }
    Ok(())
}

/// Returns a text without its skipped blocks. A space replaces each of their bytes except line ends, so each byte offset stays the same, and
/// each line keeps its number.
pub fn without_blocks(
    alloc: Global,
    text: &str,
    skipped: &[SkippedBlock],
) -> Result<String, AllocError> {
    let mut blanked = String::new(alloc);
    let mut from = 0;
    'skipped: for block in skipped {
        let (start, end) = (block.span.start, block.span.end);
        blanked.push_str(text.get(from..start).unwrap_or(""))?;
        push_blank(&mut blanked, text.get(start..end).unwrap_or(""))?;
        from = end;
    }
    blanked.push_str(text.get(from..).unwrap_or(""))?;
    Ok(blanked)
}

/// Returns a text without its blocks that can't be parsed. A space replaces each of their bytes except line ends, so each byte offset stays
/// the same, and each line keeps its number.
pub fn readable_text(alloc: Global, text: &str) -> Result<String, AllocError> {
    let recovery = RawBibliography::recover(alloc, text)?;
    without_blocks(alloc, text, &recovery.skipped)
}

// Returns whether parsing a text as a bibliography fails because of this finding.
fn prevents_parsing(finding: &Finding) -> bool {
    matches!(
        finding.code,
        Code::Syntax
            | Code::UnreadField
            | Code::UnknownAbbreviation
            | Code::CircularAbbreviation
            | Code::DuplicateKey
            | Code::CircularReference
            | Code::UnreadDate
    )
}

/// Appends the lines of those of these findings for which parsing a bibliography fails, as `lint` prints them. The findings are in order of
/// their places in a text. They are about the file `name`, which begins at the offset `start` in that text and has the text `of_file`.
pub fn push_error_lines(
    lines: &mut String,
    alloc: Global,
    name: &str,
    of_file: &str,
    start: usize,
    found: &[Finding],
) -> Result<(), AllocError> {
    let mut positions = Positions::new(of_file);
    'found: for finding in found {
        if prevents_parsing(finding) {
            let position = positions.position(finding.span.start.saturating_sub(start));
            lines.push_str(&finding_line(alloc, name, position, finding)?)?;
        }
    }
    Ok(())
}

/// Returns the lines of the errors for which parsing the text of the file `name` as a bibliography fails, as `lint` prints them.
pub fn error_lines(alloc: Global, name: &str, text: &str) -> Result<String, AllocError> {
    let mut lines = String::new(alloc);
    push_error_lines(&mut lines, alloc, name, text, 0, &findings(alloc, text)?)?;
    Ok(lines)
}
