//! The units of a text.

ghost use Rattle.std.specs.Prelude.{◌≡◌, ◌⊎◌, ◌≤◌, IfErr, IfOk, OnOk, length, map, reverse};
ghost use Rattle.std.specs.Char.{is_ascii_whitespace};
ghost use Rattle.std.specs.List.{AllByRecursion, list_all};
ghost use Rattle.bib_syntax.specs.Errors.{Refuses, out_of_memory};
ghost use Rattle.bib_syntax.specs.Grammar.{IsFile};
ghost use Rattle.bib_syntax.specs.LineViews.{line_of};
ghost use Rattle.bib_syntax.specs.SyntaxErrors.{IsReported};
ghost use Rattle.edit_units.specs.Cuts.{IsWithin};
ghost use Rattle.edit_units.specs.Units as spec;
ghost use Rattle.edit_units.specs.Units.{AreUnits, line_units, with_line};
ghost use Rattle.edit_units.specs.Views.{unit_reading_of};

use bib_syntax::raw::{ParseError, RawBibliography, RawLine};
use bib_text::spanned::Span;
use std::alloc::{AllocError, Global};

/// A unit of a text: a line with blocks and the lines directly above it, or else one or more lines without blocks, up to a blank line or the
/// end.
#[derive(Debug, Clone, Drop)]
pub struct Unit<'s> {
    /// The span of its lines, in bytes of the text, without the last line feed.
    pub span: Span,
    /// The spans of its blocks, in bytes of the text.
    pub blocks: Vec<Span>,
    /// The content of its blocks, with spans in bytes of the text.
    pub raw: RawBibliography<'s>,
}

// Returns whether all bytes are ASCII white space.
fn are_white(bytes: &[u8]) -> bool
    ensures { result ≡ list_all is_ascii_whitespace bytes.now }
{
    bytes.iter().all(|byte| byte.is_ascii_whitespace())
}

// Returns whether a line has no block, and no character except ASCII white space.
fn is_blank_line(text: &str, line: &RawLine<'_>) -> bool
    requires order { (line_of line.now).start ≤ (line_of line.now).end }
    requires within { (line_of line.now).end ≤ length text.now }
    ensures { result ≡ spec.is_blank_line text.now (line_of line.now) }
{
    line.blocks.is_empty() && are_white(&text.as_bytes()[line.span.start..line.span.end])
}

// Adds a line to the units of the lines after it, which are in reverse order. `joins` is whether it belongs to the first of them.
fn push_line<'s>(
    units: &mut Vec<Unit<'s>>,
    line: RawLine<'s>,
    joins: bool,
) -> Result<(), AllocError>
    ensures { OnOk result (reverse (map unit_reading_of units.new.items) ≡ with_line joins (line_of line.entry) (reverse (map unit_reading_of units.old.items))) }
{
    if joins {
        if let Some(mut unit) = units.pop() {
            unit.span.start = line.span.start;
            units.push(unit)?;
            return Ok(());
        }
    }
    units.push(Unit {
        span: line.span,
        blocks: line.blocks,
        raw: line.raw,
    })?;
    Ok(())
}

// Returns the units of these lines of a text.
fn units_of_lines<'s>(
    alloc: Global,
    text: &'s str,
    mut lines: Vec<RawLine<'s>>,
) -> Result<Vec<Unit<'s>>, AllocError>
    requires { AllByRecursion (IsWithin text.now) (map line_of lines.items) }
    ensures { IfOk result (λ units. map unit_reading_of units.items ≡ line_units text.now (map line_of lines.entry.items)) }
{
    let mut units = Vec::new(alloc);
    let mut is_filled = false;
    'lines: while let Some(line) = lines.pop() {
        if is_blank_line(text, &line) {
            is_filled = false;
        } else {
            let joins = is_filled && line.blocks.is_empty();
            push_line(&mut units, line, joins)?;
            is_filled = true;
        }
    }
    units.reverse();
    Ok(units)
}

impl<'s> Unit<'s> {
    /// Returns the units of a text, in order. Fails like `RawBibliography::parse`.
    pub fn parse_all(alloc: Global, text: &'s str) -> Result<Vec<Self>, ParseError>
        ensures found { IfOk result (λ units. AreUnits text.now (map unit_reading_of units.items)) }
        ensures accepted { OnOk result (IsFile text.now) }
        ensures refused { IfErr result (λ e. Refuses text.now e (IsFile text.now → ⊥)) }
        ensures reported { IfErr result (λ e. (e ≡ out_of_memory) ⊎ IsReported text.now e) }
    {
        let lines = RawLine::parse_all(alloc, text)?;
        Ok(units_of_lines(alloc, text, lines)?)
    }
}
