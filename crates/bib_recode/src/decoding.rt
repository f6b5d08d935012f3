//! Decodes the bytes of a file.

ghost use Rattle.std.specs.Prelude.{◌≡◌, ◌≤◌, IfErr, IfOk, drop, length, string_bytes};
ghost use Rattle.bib_recode.specs.Decoded.{IsDecoded, IsRefused, IsUtf16Refused, IsUtf16Text};
ghost use Rattle.bib_recode.specs.declared.decoding.DecodeError.TheVariants.{OutOfMemory};

use crate::encoding::Encoding;
use crate::latin1::latin1_text;
use crate::utf16::{first_unpaired, units_of};
use bib_source::decoding;
use bib_source::windows_1252::windows_1252_text;
use std::alloc::{AllocError, Global};

/// The reason why bytes can't be decoded. Each place is an offset in bytes of the file, from 0.
#[derive(Debug, Clone, Copy, PartialEq, Eq)]
pub enum DecodeError {
    /// The bytes aren't valid UTF-8.
    NotUtf8 {
        /// The offset of the first byte that isn't valid UTF-8.
        at: usize,
    },
    /// A unit of UTF-16 is a surrogate without a partner.
    UnpairedSurrogate {
        /// The offset of the first byte of the unit.
        at: usize,
    },
    /// The file is UTF-16 and has an odd number of bytes.
    OddByte {
        /// The offset of the last byte.
        at: usize,
    },
    /// Out of memory.
    OutOfMemory,
}

impl From<AllocError> for DecodeError {
    ghost from_gives = { λ _ error. error ≡ OutOfMemory };

    fn from(_error: AllocError) -> Self {
        DecodeError::OutOfMemory
    }
}

// Decodes a file as UTF-8.
fn decode_utf8(alloc: Global, bytes: &[u8]) -> Result<String, DecodeError>
    ensures decoded { IfOk result (λ text. IsDecoded Encoding.Utf8 bytes.now (string_bytes text)) }
    ensures refused { IfErr result (IsRefused Encoding.Utf8 bytes.now) }
{
    let read = decoding::decode(alloc, bytes)?;
    match read.invalid {
        None => Ok(read.text),
        Some(at) => Err(DecodeError::NotUtf8 { at }),
    }
}

// Decodes the bytes of a file from an offset as UTF-16.
fn decode_utf16(
    alloc: Global,
    bytes: &[u8],
    start: usize,
    is_big_endian: bool,
) -> Result<String, DecodeError>
    requires { start ≤ length bytes.now }
    ensures decoded { IfOk result (λ text. IsUtf16Text is_big_endian (drop start bytes.now) (string_bytes text)) }
    ensures refused { IfErr result (IsUtf16Refused is_big_endian start (drop start bytes.now)) }
{
    let rest = &bytes[start..];
    if rest.len() % 2 == 1 {
        return Err(DecodeError::OddByte {
            at: bytes.len() - 1,
        });
    }
    let units = units_of(alloc, rest, is_big_endian)?;
    if let Some(index) = first_unpaired(&units) {
        return Err(DecodeError::UnpairedSurrogate {
            at: start + 2 * index,
        });
    }
    match String::from_utf16(alloc, &units)? {
        Ok(text) => Ok(text),
        Err(_) => unreachable!(),
    }
}

/// Decodes the bytes of a file in an encoding, and removes a byte order mark in that encoding from the start. In Windows-1252 the five
/// undefined bytes are the control characters with their numbers.
///
/// Returns an error with its place in three cases. A file in UTF-8 isn't valid UTF-8. A file in UTF-16 has an odd number of bytes. A file
/// in UTF-16 with an even number of bytes has a surrogate without a partner. The only other error is out of memory.
pub fn decode(alloc: Global, bytes: &[u8], encoding: Encoding) -> Result<String, DecodeError>
    ensures decoded { IfOk result (λ text. IsDecoded encoding bytes.now (string_bytes text)) }
    ensures refused { IfErr result (IsRefused encoding bytes.now) }
{
    match encoding {
        Encoding::Utf8 => decode_utf8(alloc, bytes),
        Encoding::Utf16LittleEndian => decode_utf16(
            alloc,
            bytes,
            encoding.mark_length(bytes),
            false,
        ),
        Encoding::Utf16BigEndian => decode_utf16(alloc, bytes, encoding.mark_length(bytes), true),
        Encoding::Windows1252 => Ok(windows_1252_text(alloc, bytes)?),
        Encoding::Latin1 => Ok(latin1_text(alloc, bytes)?),
    }
}
