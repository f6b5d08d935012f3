//! The units of a text as texts.

ghost use Rattle.std.specs.Prelude.{◌≡◌, IfOk, drop, map};
ghost use Rattle.edit_units.specs.Units.{AreUnits, end_of_units, texts_from};
ghost use Rattle.edit_units.specs.Views.{unit_reading_of, unit_texts_of};

use crate::units::Unit;
use std::alloc::{AllocError, Global};

/// A unit as texts.
#[derive(Debug, Clone, Copy, PartialEq, Eq)]
pub struct UnitText<'s> {
    /// The white space before the unit.
    pub space: &'s str,
    /// The bytes of the unit, without the last line feed.
    pub text: &'s str,
}

/// Returns the texts of the units of a text, and the white space after the last unit. `units` are those that `Unit::parse_all` returns for
/// the text. Returns an error only if out of memory.
pub fn unit_texts<'s>(
    alloc: Global,
    text: &'s str,
    units: &[Unit<'_>],
) -> Result<(Vec<UnitText<'s>>, &'s str), AllocError>
    requires { AreUnits text.now (map unit_reading_of units.now) }
    ensures texts { IfOk result (λ found. map unit_texts_of found.0.items ≡ texts_from text.now 0 (map unit_reading_of units.now)) }
    ensures end { IfOk result (λ found. found.1.now ≡ drop (end_of_units 0 (map unit_reading_of units.now)) text.now) }
{
    let mut texts = Vec::new(alloc);
    let mut at = 0usize;
    'units: for unit in units {
        texts.push(UnitText {
            space: &text[at..unit.span.start],
            text: &text[unit.span.start..unit.span.end],
        })?;
        at = unit.span.end;
    }
    Ok((texts, &text[at..]))
}
