//! Splits the bytes of a UTF-8 file into a byte order mark and a text, and puts the mark before a new text.

ghost use Rattle.std.specs.Prelude.{◌≡◌, ◌≤◌, ◌++◌, length, IfErr, IfOk, string_bytes};
ghost use Rattle.std.specs.Str.{IsUtf8};
ghost use Rattle.bib_source.specs.Encoding.{IsFirstInvalid, mark_length, without_byte_order_mark};
ghost use Rattle.bibkit_edits.specs.Edited.{mark_of};

use std::alloc::{AllocError, Global};
use std::str::from_utf8;

// Returns the length in bytes of the byte order mark of UTF-8 at the start of a file, or 0 if the file doesn't begin with it.
fn mark_length(bytes: &[u8]) -> usize
    ensures value { result ≡ mark_length bytes.now }
    ensures within { result ≤ length bytes.now }
{
    if bytes.starts_with(b"\xEF\xBB\xBF") {
        3
    } else {
        0
    }
}

/// Returns the text of a file, without its byte order mark if it has one. If the bytes aren't UTF-8, fails with the offset in the file of
/// the first byte that isn't.
pub fn text_after_mark(bytes: &[u8]) -> Result<&str, usize>
    ensures text { IfOk result (λ text. text.now ≡ without_byte_order_mark bytes.now) }
    ensures utf8 { IfOk result (λ _. IsUtf8 (without_byte_order_mark bytes.now)) }
    ensures invalid { IfErr result (IsFirstInvalid bytes.now) }
{
    let start = mark_length(bytes);
    match from_utf8(&bytes[start..]) {
        Ok(text) => Ok(text),
        Err(error) => Err(start + error.valid_up_to()),
    }
}

// Returns the concatenation of two texts.
fn concat(alloc: Global, first: &str, second: &str) -> Result<String, AllocError>
    ensures { IfOk result (λ text. string_bytes text ≡ first.now ++ second.now) }
{
    let mut text = String::from_str(alloc, first)?;
    text.push_str(second)?;
    Ok(text)
}

/// Returns `text`, after a byte order mark if `bytes` begin with that of UTF-8.
pub fn with_mark(alloc: Global, bytes: &[u8], text: String) -> Result<String, AllocError>
    ensures { IfOk result (λ whole. string_bytes whole ≡ mark_of bytes.now ++ string_bytes text) }
{
    if mark_length(bytes) == 0 {
        Ok(text)
    } else {
        concat(alloc, "\u{FEFF}", &text)
    }
}
