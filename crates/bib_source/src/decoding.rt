//! Decodes the bytes of a file.

ghost use Rattle.std.specs.Prelude.{◌≡◌, ◌≤◌, length, IfOk, MatchOption, None, string_bytes};
ghost use Rattle.std.specs.Str.{IsUtf8};
ghost use Rattle.bib_source.specs.Encoding.{mark_length, without_byte_order_mark, windows_1252_text, IsFirstInvalid};

use crate::windows_1252::windows_1252_text;
use std::alloc::{AllocError, Global};
use std::str::from_utf8;

/// How the bytes of a file were decoded.
#[derive(Debug, Clone, Copy, PartialEq, Eq)]
pub enum Encoding {
    Utf8,
    Windows1252,
}

/// The decoded text of a file, and its encoding.
#[derive(Debug, Drop)]
pub struct Decoded {
    /// The text, without the byte order mark if it was decoded as UTF-8.
    pub text: String,
    pub encoding: Encoding,
    /// The index of the first byte of the file that isn't valid UTF-8, if there is one. Counts all bytes of the file.
    pub invalid: Option<usize>,
}

// Returns the length in bytes of the UTF-8 byte order mark at the start of the file; 0 if it has none.
fn mark_length(bytes: &[u8]) -> usize
    ensures value { result ≡ mark_length bytes.now }
    ensures within { result ≤ length bytes.now }
{
    if bytes.starts_with(b"\xEF\xBB\xBF") {
        3
    } else {
        0
    }
}

/// Decodes the bytes of a file. If the bytes after an optional UTF-8 byte order mark are valid UTF-8, the text is these bytes.
/// Otherwise the text is the Windows-1252 character of each byte of the file; none is skipped.
///
/// Returns an error only if out of memory.
pub fn decode(alloc: Global, bytes: &[u8]) -> Result<Decoded, AllocError>
    ensures utf8 { IfOk result (λ read. IsUtf8 (without_byte_order_mark bytes.now) →
        (string_bytes read.text ≡ without_byte_order_mark bytes.now) × (read.encoding ≡ Encoding.Utf8)
        × (read.invalid ≡ None)) }
    ensures windows { IfOk result (λ read. ¬ (IsUtf8 (without_byte_order_mark bytes.now)) →
        (string_bytes read.text ≡ windows_1252_text bytes.now)
        × (read.encoding ≡ Encoding.Windows1252)) }
    ensures invalid { IfOk result (λ read. MatchOption read.invalid
        (IsUtf8 (without_byte_order_mark bytes.now)) (IsFirstInvalid bytes.now)) }
{
    let start = mark_length(bytes);
    match from_utf8(&bytes[start..]) {
        Ok(text) => Ok(Decoded {
            text: String::from_str(alloc, text)?,
            encoding: Encoding::Utf8,
            invalid: None,
        }),
        Err(error) => Ok(Decoded {
            text: windows_1252_text(alloc, bytes)?,
            encoding: Encoding::Windows1252,
            invalid: Some(start + error.valid_up_to()),
        }),
    }
}
