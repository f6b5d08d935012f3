//! Parses the contents of a piece: cuts it into units and appends their text to chunks.

ghost use Rattle.std.specs.Prelude.{◌≡◌, ◌++◌, ◌+◌, ◌<◌, ◌^◌, ◌⊎◌, ℕ, List, length, OnOk, IfErr};
ghost use Rattle.std.specs.Str.{chars};
ghost use Rattle.bib_chunks.specs.Styled.{Atom, styled};
ghost use Rattle.bib_contents.specs.ContentErrors.{ContentFails};
ghost use Rattle.bib_contents.specs.Contents.{IsContent, IsUnread, StaysBetween, saturate};
ghost use Rattle.bib_contents.specs.ParseResults.{IsErrorAt, IsUnitAppended, IsUnitAt};
ghost use Rattle.bib_syntax.specs.Errors.{out_of_memory};
ghost use Rattle.bib_chunks.specs.Joined.{AreJoined, ArePlaced};
ghost use Rattle.bib_contents.specs.Progress.{IsUntaken};
ghost use Rattle.bib_contents.specs.UnitViews.{unit_of};

use crate::arguments::write_applied;
use crate::characters::Characters;
use crate::ends::Ends;
use crate::errors::{closing_brace_error, early_end_error};
use crate::growing::{OpenChunk, finish, finish_before_math, finish_chunk};
use crate::plain::write_plain;
use crate::units::{Unit, eat_unit};
use crate::writing::write_unit;
use bib_chunks::chunk::{Chunks, Span};
use bib_syntax::raw::ParseError;
use std::alloc::Global;

// Appends the text of a unit to the open chunk, or finishes that chunk at a brace or math. The unit is at `span` of a
// piece, which begins at byte `offset` of the file.
fn take(
    out: &mut Chunks,
    growing: &mut OpenChunk,
    alloc: Global,
    unit: Unit<'_>,
    offset: usize,
    span: Span,
) -> Result<(), ParseError>
    requires deep { growing.old.depth < 2 ^ 63 }
    requires place { IsUnitAt unit span.start span.end }
    ensures ok { OnOk result (IsUnitAppended (unit_of unit.entry)
        out.old growing.old (saturate (offset + span.start))
        out.new growing.new (saturate (offset + span.end))) }
    ensures err { IfErr result (IsErrorAt (IsUntaken (unit_of unit.entry) growing.old.depth)
        offset span.start span.end) }
{
    let end = offset.saturating_add(span.start);
    let following = offset.saturating_add(span.end);
    match unit {
        Unit::Shown(shown) => write_unit(&mut growing.text, shown, false)?,
        Unit::Applied(name, _, inside) => {
            write_applied(&mut growing.text, alloc, name, inside, offset)?;
        }
        Unit::Formula(text) => {
            let first = offset.saturating_add(span.start + 1);
            let last = offset.saturating_add(span.end - 1);
            finish_before_math(out, growing, text, end, first..last, following)?;
        }
        Unit::Opening => {
            let depth = growing.depth + 1;
            finish_chunk(out, growing, end, depth, following)?;
        }
        Unit::Closing => {
            if growing.depth == 0 {
                return Err(closing_brace_error(end, following));
            }
            let depth = growing.depth - 1;
            finish_chunk(out, growing, end, depth, following)?;
        }
    }
    Ok(())
}

/// Parses the contents of `text` and appends their chunks to `out`. `text` begins at byte `offset` of the file, and
/// `is_verbatim` says whether its field is a verbatim one. A chunk is merged with the one before it if both are normal
/// or both verbatim. Spans are in bytes of the file, up to `usize::MAX`.
///
/// If the text can't be parsed, returns an error with a span in it. The kind is `Unexpected` at a closing brace that
/// has no opening one. Outside verbatim fields, it is `UnexpectedEof` if the second dollar sign of math, the closing brace
/// of an argument or the character after a backslash is missing. The only other error is out of memory. The chunks that were
/// finished before the error stay appended. When out of memory, the last chunk of `out` may be lost.
pub fn contents(
    out: &mut Chunks,
    alloc: Global,
    text: &str,
    offset: usize,
    is_verbatim: bool,
) -> Result<(), ParseError>
    ensures read { OnOk result ((atoms : List Atom) × IsContent is_verbatim (chars text.now) atoms ×
        (styled out.new ≡ styled out.old ++ atoms)) }
    ensures joined { OnOk result (AreJoined out.old → AreJoined out.new) }
    ensures placed { OnOk result ((low : ℕ) → ArePlaced low offset out.old →
        ArePlaced low (saturate (offset + length text.now)) out.new) }
    ensures refused { IfErr result (λ e. (e ≡ out_of_memory) ⊎
        (IsUnread e.kind × ((atoms : List Atom) →
        IsContent is_verbatim (chars text.now) atoms → ⊥))) }
    ensures fails { IfErr result (λ e. (e ≡ out_of_memory) ⊎
        ContentFails is_verbatim 0 (chars text.now) e.kind) }
    ensures within { offset + length text.now < 2 ^ 64 →
        IfErr result (StaysBetween offset (offset + length text.now)) }
{
    let end = offset.saturating_add(text.len());
    let mut s = Characters::new(text);
    let ends = Ends::none(alloc);
    let mut growing = OpenChunk {
        text: String::with_capacity(alloc, text.len())?,
        depth: 0,
        start: offset,
        is_first: true,
    };
    'units: loop {
        write_plain(&mut growing.text, &mut s, is_verbatim)?;
        if s.done() {
            finish(out, growing, end)?;
            return Ok(());
        }
        let start = s.cursor();
        let Some(unit) = eat_unit(&mut s, is_verbatim, &ends) else {
            return Err(early_end_error(end));
        };
        take(out, &mut growing, alloc, unit, offset, start..s.cursor())?;
    }
}
