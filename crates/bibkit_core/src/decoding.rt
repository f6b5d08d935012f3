//! Decodes the bytes of a file.

ghost use Rattle.std.specs.Prelude.{IfOk};
ghost use Rattle.bibkit_core.specs.Tasks.{AreDecoded};

use biblatex::{Decoded, decode};
use std::alloc::{AllocError, Global};

/// Decodes the bytes of a file, and returns their text: without a byte order mark if they are UTF-8, otherwise as Windows-1252.
pub fn decode_bytes(alloc: Global, bytes: &[u8]) -> Result<Decoded, AllocError>
    ensures { IfOk result (AreDecoded bytes.now) }
{
    let decoded = decode(alloc, bytes)?;
    Ok(decoded)
}
