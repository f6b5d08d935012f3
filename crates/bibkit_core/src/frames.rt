//! Returns the text of a finding in colours for a terminal, with the line of the file below it.

ghost use Rattle.std.specs.Prelude.{◌≡◌, ◌≤◌, length, IfOk};
ghost use Rattle.std.specs.String.{string_bytes};
ghost use Rattle.bib_findings.specs.Codes.{severity_of};
ghost use Rattle.bibkit_core.specs.Printed as spec;
ghost use Rattle.bibkit_core.specs.Printed.{IsFramed};

use bib_findings::codes::Severity;
use bib_findings::finding::Finding;
use bib_source::positions::Position;
use std::alloc::{AllocError, Global};
use std::str::from_utf8;

// The maximum number of bytes of a line that are shown on each side of the mark.
const MOST_SHOWN: usize = 200;

// Returns the escape sequence that sets the colour of a severity.
fn color(severity: Severity) -> &'static str
    ensures { result.now ≡ spec.color severity }
{
    match severity {
        Severity::Error => "\x1b[1;31m",
        Severity::Warning => "\x1b[1;33m",
        Severity::Info => "\x1b[1;36m",
    }
}

// Returns the bytes before the offset `at` that are in the same line, at most the last `MOST_SHOWN`.
fn before(bytes: &[u8], at: usize) -> &[u8]
    requires { at ≤ length bytes.now }
{
    let shown = &bytes[at.saturating_sub(MOST_SHOWN)..at];
    match shown.iter().rposition(|byte| *byte == b'\n') {
        Some(index) => shown.get(index + 1..).unwrap_or(&[]),
        None => shown,
    }
}

// Returns the bytes from the offset `at` on that are in the same line, at most the first `MOST_SHOWN`.
fn after(bytes: &[u8], at: usize) -> &[u8]
    requires { at ≤ length bytes.now }
{
    let rest = &bytes[at..];
    let shown = &rest[..rest.len().min(MOST_SHOWN)];
    match shown.iter().position(|byte| *byte == b'\n') {
        Some(index) => shown.get(..index).unwrap_or(&[]),
        None => shown,
    }
}

// Returns the longest UTF-8 text at the start of the bytes.
fn text_of(bytes: &[u8]) -> &str {
    match from_utf8(bytes) {
        Ok(text) => text,
        Err(error) => from_utf8(bytes.get(..error.valid_up_to()).unwrap_or(&[])).unwrap_or(""),
    }
}

// Skips the end of a character that was cut at the start of the bytes, and returns the longest UTF-8 text after it.
fn end_of(bytes: &[u8]) -> &str {
    let begins = |byte: &u8| *byte < 0x80 || *byte >= 0xC0;
    let cut = bytes.iter().position(begins).unwrap_or(0);
    text_of(bytes.get(cut..).unwrap_or(&[]))
}

// Returns the character to print. A control character other than a tab is replaced by U+FFFD, since it could move the cursor or change
// colours.
fn printable_char(character: char) -> char {
    if character == '\t' || !character.is_control() {
        character
    } else {
        '\u{FFFD}'
    }
}

// Returns white space for a character: a tab for a tab, otherwise a space.
fn blank(character: char) -> char {
    if character == '\t' { '\t' } else { ' ' }
}

// Returns the line that contains the offset `at`, and a line with a mark below the character at that offset. The first line has at most
// `MOST_SHOWN` bytes on each side of the offset, and on each side only those before the first invalid UTF-8. Its control characters except
// tabs are replaced.
fn frame(alloc: Global, bytes: &[u8], at: usize) -> Result<String, AllocError> {
    let at = at.min(bytes.len());
    let before = end_of(before(bytes, at));
    let after = text_of(after(bytes, at));
    let mut text = String::from_str(alloc, "  ")?;
    text.extend(before.chars().map(printable_char))?;
    text.extend(after.chars().map(printable_char))?;
    text.push_str("\n  ")?;
    text.extend(before.chars().map(blank))?;
    text.push_str("\x1b[1;32m^\x1b[0m\n")?;
    Ok(text)
}

// Returns the file name, the line and the column in bold.
fn colored_place(alloc: Global, name: &str, place: Position) -> Result<String, AllocError>
    ensures { IfOk result (λ text. string_bytes text ≡ spec.colored_place name.now place) }
{
    format!(in alloc; "\x1b[1m{name}:{}:{}:\x1b[0m ", place.line, place.column)
}

// Returns the severity in its colour, the message and the code.
fn colored_text(alloc: Global, finding: &Finding) -> Result<String, AllocError>
    ensures { IfOk result (λ text. string_bytes text ≡ spec.colored_text finding.now) }
{
    let severity = finding.code.severity();
    format!(in alloc;
        "{}{}:\x1b[0m {} [{}]\n",
        color(severity),
        severity.name(),
        finding.message.as_str(),
        finding.code.name()
    )
}

// Returns the line of a finding in colours.
fn colored_line(
    alloc: Global,
    name: &str,
    place: Position,
    finding: &Finding,
) -> Result<String, AllocError>
    ensures { IfOk result (λ text. string_bytes text ≡ spec.colored_line name.now place finding.now) }
{
    let mut line = colored_place(alloc, name, place)?;
    let text = colored_text(alloc, finding)?;
    line.push_str(&text)?;
    Ok(line)
}

/// Returns the line of a finding at the position `place` of the file `name`, in colours. Below it is the part of the line in `bytes`
/// around the finding, as `frame` returns it, with a mark.
pub fn framed_finding(
    alloc: Global,
    name: &str,
    bytes: &[u8],
    place: Position,
    finding: &Finding,
) -> Result<String, AllocError>
    ensures { IfOk result (λ text. IsFramed name.now place finding.now (string_bytes text)) }
{
    let mut text = colored_line(alloc, name, place, finding)?;
    let frame = frame(alloc, bytes, finding.span.start)?;
    text.push_str(&frame)?;
    Ok(text)
}
