//! Units of UTF-16.

ghost use Rattle.std.specs.Prelude.{◌≡◌, false, IfOk, MatchOption};
ghost use Rattle.std.specs.Char.Utf16.{has_unpaired_surrogate, is_high_surrogate, is_low_surrogate};
ghost use Rattle.bib_recode.specs.Units as spec;
ghost use Rattle.bib_recode.specs.Units.{IsFirstUnpaired, begins_unpaired, unit, units_of};

use std::alloc::{AllocError, Global};

// Returns a unit from its two bytes.
fn unit(is_big_endian: bool, first: u8, second: u8) -> u16
    ensures { result ≡ unit is_big_endian first second }
{
    if is_big_endian {
        first as u16 * 256 + second as u16
    } else {
        second as u16 * 256 + first as u16
    }
}

// Returns the units of bytes, two bytes for each. An odd byte at the end is ignored.
pub(crate) fn units_of(
    alloc: Global,
    bytes: &[u8],
    is_big_endian: bool,
) -> Result<Vec<u16>, AllocError>
    ensures { IfOk result (λ units. units.items ≡ units_of is_big_endian bytes.now) }
{
    let mut units = Vec::new(alloc);
    'indices: for index in 0..bytes.len() / 2 {
        units.push(unit(is_big_endian, bytes[2 * index], bytes[2 * index + 1]))?;
    }
    Ok(units)
}

// Returns whether a unit is a high surrogate: whether it can be the first one of a pair.
fn is_high(unit: u16) -> bool
    ensures { result ≡ is_high_surrogate unit }
{
    0xD800 <= unit && unit < 0xDC00
}

// Returns whether a unit is a low surrogate: whether it can be the second one of a pair.
fn is_low(unit: u16) -> bool
    ensures { result ≡ is_low_surrogate unit }
{
    0xDC00 <= unit && unit < 0xE000
}

// Returns whether two units are a pair.
fn is_pair(first: u16, second: u16) -> bool
    ensures { result ≡ spec.is_surrogate_pair first second }
{
    is_high(first) && is_low(second)
}

// Returns whether a unit is a surrogate.
fn is_surrogate(unit: u16) -> bool
    ensures { result ≡ spec.is_surrogate unit }
{
    is_high(unit) || is_low(unit)
}

// Returns whether the first unit is a surrogate without a partner.
fn begins_unpaired(units: &[u16]) -> bool
    ensures { result ≡ begins_unpaired units.now }
{
    match units {
        [] => false,
        [unit] => is_surrogate(*unit),
        [first, second, ..] => is_surrogate(*first) && !is_pair(*first, *second),
    }
}

// Returns the number of units of the first character: 2 for a pair, otherwise 1.
fn character_len(units: &[u16]) -> usize
    ensures { result ≡ spec.character_len units.now }
{
    match units {
        [first, second, ..] if is_pair(*first, *second) => 2,
        _ => 1,
    }
}

// Returns the index of the first surrogate without a partner, or `None`.
pub(crate) fn first_unpaired(units: &[u16]) -> Option<usize>
    ensures { MatchOption result (has_unpaired_surrogate units.now ≡ false) (IsFirstUnpaired units.now) }
{
    let mut at = 0usize;
    'units: while at < units.len() {
        let rest = &units[at..];
        if begins_unpaired(rest) {
            return Some(at);
        }
        at += character_len(rest);
    }
    None
}
