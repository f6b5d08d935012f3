//! ISO 8859-1, in which each byte is the character with its number.

ghost use Rattle.std.specs.Prelude.{◌≡◌, IfOk, encode_utf8_all, string_bytes};

use std::alloc::{AllocError, Global};

// Decodes bytes as ISO 8859-1. The only error is out of memory.
pub(crate) fn latin1_text(alloc: Global, bytes: &[u8]) -> Result<String, AllocError>
    ensures { IfOk result (λ text. string_bytes text ≡ encode_utf8_all bytes.now) }
{
    bytes.iter().map(|byte| char::from(*byte)).collect(alloc)
}
