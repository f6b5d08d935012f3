//! The characters of Windows-1252, as the Encoding Standard defines them.

ghost use Rattle.std.specs.Prelude.{◌≡◌, IfOk, string_bytes};
ghost use Rattle.bib_source.specs.Encoding.{windows_1252, windows_1252_text};

use std::alloc::{AllocError, Global};

// Returns the character of a byte in Windows-1252.
#[tactic(auto, unfolding(crate::specs::Encoding::windows_1252))]
fn windows_1252(byte: u8) -> char
    ensures { result ≡ windows_1252 byte }
{
    match byte {
        0x80 => '€',
        0x82 => '‚',
        0x83 => 'ƒ',
        0x84 => '„',
        0x85 => '…',
        0x86 => '†',
        0x87 => '‡',
        0x88 => 'ˆ',
        0x89 => '‰',
        0x8A => 'Š',
        0x8B => '‹',
        0x8C => 'Œ',
        0x8E => 'Ž',
        0x91 => '‘',
        0x92 => '’',
        0x93 => '“',
        0x94 => '”',
        0x95 => '•',
        0x96 => '–',
        0x97 => '—',
        0x98 => '˜',
        0x99 => '™',
        0x9A => 'š',
        0x9B => '›',
        0x9C => 'œ',
        0x9E => 'ž',
        0x9F => 'Ÿ',
        _ => char::from(byte),
    }
}

/// Decodes `bytes` as Windows-1252. The only error is out of memory.
pub fn windows_1252_text(alloc: Global, bytes: &[u8]) -> Result<String, AllocError>
    ensures { IfOk result (λ text. string_bytes text ≡ windows_1252_text bytes.now) }
{
    bytes.iter().map(|byte| windows_1252(*byte)).collect(alloc)
}
