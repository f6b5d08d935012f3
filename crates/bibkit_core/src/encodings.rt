//! Findings of a file's bytes.

ghost use Rattle.std.specs.Prelude.{◌≡◌, ◌++◌, IfOk, OnOk, take};
ghost use Rattle.std.specs.Char.{is_ascii};
ghost use Rattle.std.specs.List.{list_all, list_any};
ghost use Rattle.bibkit_core.specs.Encodings.{begins_beyond_ascii, byte_findings, escape_finding, escape_findings, has_run_beyond_ascii, is_unassigned, is_unlikely_windows, unread_finding, unread_findings, unread_message};

use bib_findings::codes::Code;
use bib_findings::finding::Finding;
use bib_text::text::Text;
use memchr::memmem;
use std::alloc::{AllocError, Global};

// Returns whether Windows-1252 has no character for a byte.
fn is_unassigned(b: u8) -> bool
    ensures { result ≡ is_unassigned b }
{
    matches!(b, 0x81 | 0x8D | 0x8F | 0x90 | 0x9D)
}

// Returns whether Windows-1252 has no character for one of these bytes.
fn are_unassigned(bytes: &[u8]) -> bool
    ensures { result ≡ list_any is_unassigned bytes.now }
{
    bytes.iter().any(|b| is_unassigned(*b))
}

// Returns whether bytes begin with four that aren't ASCII.
fn begins_beyond_ascii(bytes: &[u8]) -> bool
    ensures { result ≡ begins_beyond_ascii bytes.now }
{
    match bytes {
        [a, b, c, d, ..] => !a.is_ascii() && !b.is_ascii() && !c.is_ascii() && !d.is_ascii(),
        _ => false,
    }
}

// Returns whether four of these bytes in a row aren't ASCII.
fn has_run_beyond_ascii(bytes: &[u8]) -> bool
    ensures { result ≡ has_run_beyond_ascii bytes.now }
{
    'bytes: for index in 0..bytes.len() {
        if begins_beyond_ascii(&bytes[index..]) {
            return true;
        }
    }
    false
}

// Returns the first `at` of these bytes, or all of them if there are fewer.
fn first_bytes(bytes: &[u8], at: usize) -> &[u8]
    ensures { result.now ≡ take at bytes.now }
{
    match bytes.get(..at) {
        Some(first) => first,
        None => bytes,
    }
}

// Returns whether these bytes are ASCII.
fn are_ascii(bytes: &[u8]) -> bool
    ensures { result ≡ list_all is_ascii bytes.now }
{
    bytes.iter().all(|b| b.is_ascii())
}

// Returns whether a file is unlikely to be in Windows-1252, if its first byte that isn't UTF-8 is at the offset `at`.
fn is_unlikely_windows(bytes: &[u8], at: usize) -> bool
    ensures { result ≡ is_unlikely_windows bytes.now at }
{
    are_ascii(first_bytes(bytes, at)) && (are_unassigned(bytes) || has_run_beyond_ascii(bytes))
}

// Returns the message for a file whose byte at the offset `at` is the first that isn't UTF-8.
fn unread_message(bytes: &[u8], at: usize) -> &'static str
    ensures { result.now ≡ unread_message bytes.now at }
{
    if is_unlikely_windows(bytes, at) {
        "not UTF-8 from here on; the file is read as Windows-1252, but is unlikely to be in it"
    } else {
        "not UTF-8 from here on, so the file is read as Windows-1252"
    }
}

// Returns the finding that the byte at the offset `at` is the first that isn't UTF-8.
fn unread_finding(alloc: Global, bytes: &[u8], at: usize) -> Result<Finding, AllocError>
    ensures { IfOk result (λ finding. finding ≡ unread_finding bytes.now at) }
{
    Ok(Finding {
        code: Code::UnreadBytes,
        span: at..at,
        message: Text::from_str(alloc, unread_message(bytes, at))?,
    })
}

// Returns the finding of an escape sequence at the offset `at`.
fn escape_finding(alloc: Global, at: usize) -> Result<Finding, AllocError>
    ensures { IfOk result (λ finding. finding ≡ escape_finding at) }
{
    Ok(Finding {
        code: Code::EscapeSequence,
        span: at..at,
        message: Text::from_str(
            alloc,
            "an escape sequence, as in ISO-2022-JP; the characters after it aren't decoded",
        )?,
    })
}

// Appends the finding that the byte at the offset `invalid` isn't UTF-8, or no finding for `None`.
fn add_unread(
    alloc: Global,
    found: &mut Vec<Finding>,
    bytes: &[u8],
    invalid: Option<usize>,
) -> Result<(), AllocError>
    ensures { OnOk result (found.new.items ≡ found.old.items ++ unread_findings bytes.now invalid) }
{
    match invalid {
        Some(at) => {
            found.push(unread_finding(alloc, bytes, at)?)?;
            Ok(())
        }
        None => Ok(()),
    }
}

// Appends the finding of the first escape sequence, if there is one.
fn add_escape(alloc: Global, found: &mut Vec<Finding>, bytes: &[u8]) -> Result<(), AllocError>
    ensures { OnOk result (found.new.items ≡ found.old.items ++ escape_findings bytes.now) }
{
    match memmem::find(bytes, b"\x1B$") {
        Some(at) => {
            found.push(escape_finding(alloc, at)?)?;
            Ok(())
        }
        None => Ok(()),
    }
}

/// Returns the findings of a file's bytes: that the byte at the offset `invalid` isn't UTF-8, if it isn't `None`, and the first escape
/// sequence of ISO 2022. The only error is out of memory.
pub fn byte_findings(
    alloc: Global,
    bytes: &[u8],
    invalid: Option<usize>,
) -> Result<Vec<Finding>, AllocError>
    ensures { IfOk result (λ found. found.items ≡ byte_findings bytes.now invalid) }
{
    let mut found = Vec::new(alloc);
    add_unread(alloc, &mut found, bytes, invalid)?;
    add_escape(alloc, &mut found, bytes)?;
    Ok(found)
}
