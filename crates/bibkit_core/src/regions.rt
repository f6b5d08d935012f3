//! Finds the lines and columns of the start and the end of a finding.

ghost use Rattle.std.specs.Prelude.{◌≡◌};
ghost use Rattle.bib_source.specs.Positions.{position_at};
ghost use Rattle.bibkit_core.specs.Joining.{joined_position};
ghost use Rattle.bibkit_core.specs.Regions as spec;

use bib_source::positions::{Position, Positions};
use std::ops::Range;

/// The positions of the start and the end of a finding.
#[derive(Debug, Clone, Copy, PartialEq, Eq)]
pub struct Region {
    /// The position of the start.
    pub start: Position,
    /// The position of the end, which is after the last character.
    pub end: Position,
}

// Returns the position of the end of two texts, one after the other. `first` is the position of the end of the first text, and
// `second` that of the second text by itself.
fn joined_position(first: Position, second: Position) -> Position
    ensures { result ≡ joined_position first second }
{
    Position {
        line: first.line.saturating_add(second.line.saturating_sub(1)),
        column: if second.line == 1 {
            first.column.saturating_add(second.column.saturating_sub(1))
        } else {
            second.column
        },
    }
}

/// Returns the region of a span in `bytes`. `start` is the position of its start. Only the bytes of the span are read, unless it ends
/// before its start or begins after the end of `bytes`.
pub fn region_at(bytes: &[u8], start: Position, span: &Range<usize>) -> Region
    requires { start ≡ position_at bytes.now span.now.start }
    ensures { result ≡ spec.region_at bytes.now span.now }
{
    Region {
        start,
        end: end_position(bytes, start, span),
    }
}

// Returns the position of the end of a span in `bytes`. `start` is the position of its start.
fn end_position(bytes: &[u8], start: Position, span: &Range<usize>) -> Position
    requires { start ≡ position_at bytes.now span.now.start }
    ensures { result ≡ position_at bytes.now span.now.end }
{
    match bytes.get(span.start..) {
        Some(rest) if span.start <= span.end => {
            joined_position(
                start,
                Positions::of_bytes(rest).position(span.end - span.start),
            )
        }
        _ => Positions::of_bytes(bytes).position(span.end),
    }
}
