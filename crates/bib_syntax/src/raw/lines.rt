//! Parses the lines of a file.

ghost use Rattle.std.specs.Prelude.{◌≡◌, ◌⊎◌, ◌==◌, ℕ, true, false, map, MatchBool, IfOk, IfErr, OnOk};
ghost use Rattle.bib_text.specs.Characters as char;
ghost use Rattle.bib_text.specs.Places.{CharAt, EndsOr, Place, place};
ghost use Rattle.bib_syntax.specs.Errors.{Refuses, out_of_memory};
ghost use Rattle.bib_syntax.specs.Grammar.{IsFile, IsRawReading};
ghost use Rattle.bib_syntax.specs.LineParts.{IsPartRead};
ghost use Rattle.bib_syntax.specs.LineViews.{line_of};
ghost use Rattle.bib_syntax.specs.Lines.{AreLinesFrom, IsLine, lines_together};
ghost use Rattle.bib_syntax.specs.SyntaxErrors.{FileFails, IsReported, Reports};

use crate::raw::fields::line_comment;
use crate::raw::file::{add, block};
use crate::raw::reader::Reader;
use crate::raw::{ParseError, RawBibliography};
use bib_text::scanner::Scanner;
use bib_text::spanned::Span;
use std::alloc::Global;

/// A line of a file. Only a line feed outside of blocks ends a line, so a line with blocks can have several line feeds.
#[derive(Debug, Clone, Drop)]
pub struct RawLine<'s> {
    /// The span of the line in the file, in bytes, without its line feed.
    pub span: Span,
    /// The span of each block that begins in the line, in bytes of the file, from its at sign to after the brace or quote that ends it.
    pub blocks: Vec<Span>,
    /// The content of these blocks, with spans in bytes of the file.
    pub raw: RawBibliography<'s>,
}

// Returns whether a line ends here: a line feed follows, or the text ends.
fn ends_line(s: &Reader<'_, '_>) -> bool
    ensures { MatchBool result
        (EndsOr (λ c. c == char.line_feed ≡ true) s.now)
        ((c : ℕ) × (v : Place) × CharAt s.now c v × (c == char.line_feed ≡ false)) }
{
    match s.peek() {
        Some(c) => c == '\n',
        None => true,
    }
}

// Parses the block at this at sign, and adds it to a line.
fn push_block<'s>(
    line: &mut RawLine<'s>,
    s: &mut Reader<'s, '_>,
    alloc: Global,
) -> Result<(), ParseError>
    requires { (v : Place) × CharAt s.old char.at v }
    ensures found { OnOk result (IsPartRead s.old line.old s.new line.new) }
    ensures fails { IfErr result (λ e. Refuses s.old.text e (Reports (FileFails s.old) e)) }
{
    let start = s.cursor();
    let item = block(s, alloc)?;
    add(&mut line.raw, item)?;
    line.blocks.push(start..s.cursor())?;
    Ok(())
}

// Parses the next part of a line, and adds it to the line: a block, a line comment, or a run of other characters.
fn push_part<'s>(
    line: &mut RawLine<'s>,
    s: &mut Reader<'s, '_>,
    alloc: Global,
) -> Result<(), ParseError>
    requires { (c : ℕ) × (v : Place) × CharAt s.old c v × (c == char.line_feed ≡ false) }
    ensures found { OnOk result (IsPartRead s.old line.old s.new line.new) }
    ensures fails { IfErr result (λ e. Refuses s.old.text e (Reports (FileFails s.old) e)) }
{
    if s.at('@') {
        push_block(line, s, alloc)
    } else if s.at('%') {
        line_comment(s);
        Ok(())
    } else {
        s.eat_until_any(b'@', b'%', b'\n');
        Ok(())
    }
}

// Parses a line, up to its line feed or the end of the text.
fn line<'s>(s: &mut Reader<'s, '_>, alloc: Global) -> Result<RawLine<'s>, ParseError>
    ensures found { IfOk result (λ line. IsLine s.old (line_of line) s.new) }
    ensures ends { OnOk result (EndsOr (λ c. c == char.line_feed ≡ true) s.new) }
    ensures fails { IfErr result (λ e. Refuses s.old.text e (Reports (FileFails s.old) e)) }
{
    let start = s.cursor();
    let mut line = RawLine {
        span: start..start,
        blocks: Vec::new(alloc),
        raw: RawBibliography {
            preamble: String::new(alloc),
            entries: Vec::new(alloc),
            abbreviations: Vec::new(alloc),
        },
    };
    'parts: while !ends_line(s) {
        push_part(&mut line, s, alloc)?;
    }
    line.span.end = s.cursor();
    Ok(line)
}

// Parses lines up to the end of the text.
fn lines_from<'s>(s: &mut Reader<'s, '_>, alloc: Global) -> Result<Vec<RawLine<'s>>, ParseError>
    ensures found { IfOk result (λ lines. AreLinesFrom s.old (map line_of lines.items)) }
    ensures fails { IfErr result (λ e. Refuses s.old.text e (Reports (FileFails s.old) e)) }
{
    let mut lines = Vec::new(alloc);
    'lines: loop {
        let line = line(s, alloc)?;
        lines.push(line)?;
        if !s.eat_if('\n') {
            return Ok(lines);
        }
    }
}

impl<'s> RawLine<'s> {
    /// Parses the lines of a file, which are separated by line feeds outside of blocks. So there is at least one, and the last one is empty if
    /// such a line feed ends the file. Fails like `RawBibliography::parse`.
    pub fn parse_all(alloc: Global, src: &'s str) -> Result<Vec<Self>, ParseError>
        ensures found { IfOk result (λ lines. AreLinesFrom (place src.now 0) (map line_of lines.items)) }
        ensures read { IfOk result (λ lines. IsRawReading src.now (lines_together (map line_of lines.items))) }
        ensures accepted { OnOk result (IsFile src.now) }
        ensures refused { IfErr result (λ e. Refuses src.now e (IsFile src.now → ⊥)) }
        ensures reported { IfErr result (λ e. (e ≡ out_of_memory) ⊎ IsReported src.now e) }
    {
        Ok(lines_from(&mut Reader::new(Scanner::new(src)), alloc)?)
    }
}
