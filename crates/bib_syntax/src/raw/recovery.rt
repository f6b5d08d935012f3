//! Parses a file even if some of its blocks can't be parsed.

ghost use Rattle.std.specs.Prelude.{◌≡◌, ◌≢◌, ◌⊎◌, ◌<◌, ◌-◌, ◌==◌, ◌++◌, [], ◌∷◌, ℕ, List, not, true, false, length, take, MatchBool, IfSome, IfOk, IfErr, OnOk, OnErr};
ghost use Rattle.std.specs.Str.{IsCharBoundary};
ghost use Rattle.bib_text.specs.Characters as char;
ghost use Rattle.bib_text.specs.Places.{Place, CharAt, AtEnd, place};
ghost use Rattle.bib_syntax.specs.Blocks.{item_of};
ghost use Rattle.bib_syntax.specs.Errors.{Refuses, out_of_memory};
ghost use Rattle.bib_syntax.specs.Failures.{AllFail};
ghost use Rattle.bib_syntax.specs.Grammar.{Block, longest};
ghost use Rattle.bib_syntax.specs.Recovery as Spec;
ghost use Rattle.bib_syntax.specs.Recovering.{RecoveredTo};
ghost use Rattle.bib_syntax.specs.Reading.{FileReading, empty_reading, then};
ghost use Rattle.bib_syntax.specs.Recovery.{Recovered, GoesOnAt, Keeps, skipped_block};
ghost use Rattle.bib_syntax.specs.Stretches.{IsMemoOf};
ghost use Rattle.bib_syntax.specs.SyntaxErrors.{BlockFails, Reports};
ghost use Rattle.bib_syntax.specs.Views.{file_of};

use crate::raw::failing::failing_fields;
use crate::raw::fields::line_comment;
use crate::raw::file::{Item, add, add_preamble, block};
use crate::raw::kept::kept;
use crate::raw::memo::Memo;
use crate::raw::reader::Reader;
use crate::raw::{ParseError, RawBibliography};
use bib_text::scanner::Scanner;
use bib_text::spanned::Span;
use std::alloc::{AllocError, Global};

/// A block of a file that can't be parsed, and the text that is skipped because of it.
#[derive(Debug, Clone, PartialEq, Eq, Drop)]
pub struct SkippedBlock {
    /// Why it can't be parsed.
    pub error: ParseError,
    /// The span of the skipped text, in bytes of the parsed text. It is from the at sign of the block to before the next at sign with
    /// only white space before it on its line, or to the end of the file.
    pub span: Span,
}

/// The parsed and the skipped blocks of a file, or of several files in one text.
#[derive(Debug, Clone, Drop)]
pub struct RawRecovery<'s> {
    /// The content of the parsed blocks. `RawBibliography::recover_parts` adds the complete parts of the skipped ones.
    pub raw: RawBibliography<'s>,
    /// The skipped blocks, in the order of the text.
    pub skipped: Vec<SkippedBlock>,
}

// Returns whether `before` is blank or a line ends in the white space at its end.
fn ends_blank(before: &str) -> bool
    ensures { result ≡ Spec.ends_blank before.now }
{
    let filled = before.trim_end().len();
    let blank = &before.as_bytes()[filled..];
    filled == 0 || blank.contains(&b'\n') || blank.contains(&b'\r')
}

// Returns whether the text ends here, or only white space precedes this place on its line.
fn begins_line(s: &Reader<'_, '_>) -> bool
    ensures { MatchBool result
        (AtEnd s.now ⊎ (Spec.ends_blank (take s.now.at s.now.text) ≡ true))
        ((AtEnd s.now → ⊥) × (Spec.ends_blank (take s.now.at s.now.text) ≡ false)) }
{
    if s.done() {
        return true;
    }
    ends_blank(s.before())
}

// Returns whether `c` isn't an at sign.
fn is_other(c: char) -> bool
    ensures { result ≡ not (c == char.at) }
{
    c != '@'
}

// Moves to the next at sign that begins a line, or to the end of the text.
fn go_on(s: &mut Reader<'_, '_>)
    ensures { GoesOnAt s.old s.new }
{
    'search: loop {
        s.eat_while(is_other);
        if begins_line(s) {
            return;
        }
        s.eat();
    }
}

// Parses the block at this at sign, with the memo of the text if there is one. Doesn't move if that fails.
fn read_block<'s>(
    s: &mut Reader<'s, '_>,
    alloc: Global,
    memo: Option<&Memo>,
) -> Result<Item<'s>, ParseError>
    requires sign { (v : Place) × CharAt s.old char.at v }
    requires memo { IfSome memo (λ memo. IsMemoOf s.old.text memo.now) }
    ensures found { IfOk result (λ item. Block longest s.old (item_of item) s.new) }
    ensures fails { IfErr result (λ e. Refuses s.old.text e (Reports (BlockFails s.old) e)) }
    ensures stays { OnErr result (s.new ≡ s.old) }
{
    let mut reader = s.with_memo(memo);
    let item = block(&mut reader, alloc)?;
    s.jump(reader.cursor());
    Ok(item)
}

// Returns an error if `error` is out of memory. Otherwise adds to the memo, if there is one, that parsing fields from each of
// `starts` fails with `error`.
fn remember(memo: &mut Option<Memo>, starts: &[usize], error: &ParseError) -> Result<(), AllocError>
    ensures { OnOk result ((text : List ℕ) → (error.now ≢ out_of_memory → AllFail text error.now starts.now) →
        IfSome memo.old (IsMemoOf text) → IfSome memo.new (IsMemoOf text)) }
{
    error.unless_out_of_memory()?;
    match memo {
        Some(memo) => memo.failures.remember(starts, error),
        None => Ok(()),
    }
}

// If there is a memo, adds to it the offsets of the fields of the block at this at sign from which parsing fields fails.
fn remember_failures(
    s: &Reader<'_, '_>,
    alloc: Global,
    memo: &mut Option<Memo>,
) -> Result<(), AllocError>
    requires sign { (v : Place) × CharAt s.now char.at v }
    requires memo { IfSome memo.old (IsMemoOf s.now.text) }
    ensures { OnOk result (IfSome memo.new (IsMemoOf s.now.text)) }
{
    if memo.is_none() {
        return Ok(());
    }
    let mut starts = Vec::new(alloc);
    let mut reader = s.with_memo(memo.as_ref());
    if let Err(error) = failing_fields(&mut reader, alloc, &mut starts) {
        return remember(memo, &starts, &error);
    }
    Ok(())
}

// Appends the complete parts of the skipped block with this span to the content of the blocks before it, if `keeps_parts` is
// true.
fn add_parts<'s>(
    raw: &mut RawBibliography<'s>,
    alloc: Global,
    text: &'s str,
    span: Span,
    keeps_parts: bool,
) -> Result<(), AllocError>
    requires block { (v : Place) × CharAt (place text.now span.start) char.at v × GoesOnAt v (place text.now span.end) }
    requires boundary { IsCharBoundary text.now span.end }
    ensures { OnOk result ((kept : FileReading) × Keeps keeps_parts (place text.now span.start) (place text.now span.end) kept ×
        (file_of raw.new ≡ then (file_of raw.old) kept)) }
{
    if !keeps_parts {
        return Ok(());
    }
    let item = kept(alloc, &text[..span.end], span.start)?;
    add(raw, item)
}

impl<'s> RawRecovery<'s> {
    // Returns the recovery of an empty text.
    pub(crate) fn nothing(alloc: Global) -> Self
        ensures content { file_of result.raw ≡ empty_reading }
        ensures skipped { result.skipped.items ≡ [] }
    {
        RawRecovery {
            raw: RawBibliography {
                preamble: String::new(alloc),
                entries: Vec::new(alloc),
                abbreviations: Vec::new(alloc),
            },
            skipped: Vec::new(alloc),
        }
    }

    // Appends the parsed and the skipped blocks of another file.
    pub(crate) fn append(&mut self, file: RawRecovery<'s>) -> Result<(), AllocError>
        ensures content { OnOk result (file_of self.new.raw ≡ then (file_of self.old.raw) (file_of file.entry.raw)) }
        ensures skipped { OnOk result (self.new.skipped.items ≡ self.old.skipped.items ++ file.entry.skipped.items) }
    {
        let RawRecovery {
            mut raw,
            mut skipped,
        } = file;
        add_preamble(&mut self.raw.preamble, &raw.preamble)?;
        self.raw.entries.append(&mut raw.entries)?;
        self.raw.abbreviations.append(&mut raw.abbreviations)?;
        self.skipped.append(&mut skipped)?;
        Ok(())
    }

    // Skips the block at this at sign, and keeps its error, and its complete parts if `keeps_parts` is true.
    fn skip(
        &mut self,
        s: &mut Reader<'s, '_>,
        alloc: Global,
        text: &'s str,
        error: ParseError,
        keeps_parts: bool,
    ) -> Result<(), AllocError>
        requires sign { (v : Place) × CharAt s.old char.at v }
        requires text { text.now ≡ s.old.text }
        ensures passed { OnOk result ((v : Place) × CharAt s.old char.at v × GoesOnAt v s.new) }
        ensures kept { OnOk result ((kept : FileReading) × Keeps keeps_parts s.old s.new kept ×
            (file_of self.new.raw ≡ then (file_of self.old.raw) kept)) }
        ensures skipped { OnOk result (self.new.skipped.items ≡
            self.old.skipped.items ++ skipped_block error s.old s.new ∷ []) }
    {
        let start = s.cursor();
        s.eat();
        go_on(s);
        let end = s.cursor();
        add_parts(&mut self.raw, alloc, text, start..end, keeps_parts)?;
        self.skipped.push(SkippedBlock {
            error,
            span: start..end,
        })?;
        Ok(())
    }

    // Parses the block at this at sign. If the grammar rejects it, skips the block, and adds the offsets of its fields to the memo
    // if there is one.
    fn add_block(
        &mut self,
        s: &mut Reader<'s, '_>,
        alloc: Global,
        text: &'s str,
        keeps_parts: bool,
        memo: &mut Option<Memo>,
    ) -> Result<(), AllocError>
        requires sign { (v : Place) × CharAt s.old char.at v }
        requires text { text.now ≡ s.old.text }
        requires memo { IfSome memo.old (IsMemoOf s.old.text) }
        ensures found { OnOk result ((start : Place) →
            RecoveredTo keeps_parts start (file_of self.old.raw) self.old.skipped.items s.old →
            RecoveredTo keeps_parts start (file_of self.new.raw) self.new.skipped.items s.new) }
        ensures same { OnOk result (s.new.text ≡ s.old.text) }
        ensures smaller { OnOk result (length s.new.text - s.new.at < length s.old.text - s.old.at) }
        ensures memo { OnOk result (IfSome memo.new (IsMemoOf s.old.text)) }
    {
        match read_block(s, alloc, memo.as_ref()) {
            Ok(item) => add(&mut self.raw, item),
            Err(error) => {
                error.unless_out_of_memory()?;
                remember_failures(s, alloc, memo)?;
                self.skip(s, alloc, text, error, keeps_parts)
            }
        }
    }
}

impl<'s> RawRecovery<'s> {
    // Parses the blocks of a file, up to its end. The text of a skipped block may be parsed again, so the memo is made
    // before the first block after a skipped one.
    fn add_blocks(
        &mut self,
        s: &mut Reader<'s, '_>,
        alloc: Global,
        text: &'s str,
        keeps_parts: bool,
    ) -> Result<(), AllocError>
        requires { text.now ≡ s.old.text }
        ensures found { OnOk result ((start : Place) →
            RecoveredTo keeps_parts start (file_of self.old.raw) self.old.skipped.items s.old →
            RecoveredTo keeps_parts start (file_of self.new.raw) self.new.skipped.items s.new) }
        ensures end { OnOk result (AtEnd s.new) }
    {
        let file_start = s.cursor();
        let mut memo = None;
        'file: while let Some(c) = s.peek() {
            if c == '@' {
                if memo.is_none() && !self.skipped.is_empty() {
                    memo = Some(Memo::new(alloc, text, file_start)?);
                }
                self.add_block(s, alloc, text, keeps_parts, &mut memo)?;
            } else if c == '%' {
                line_comment(s);
            } else {
                s.eat_until_either(b'@', b'%');
            }
        }
        Ok(())
    }
}

// Parses the blocks of a file that begins at the offset `start` of `src` and ends with `src`. Skips those that can't be parsed. If
// `keeps_parts` is true, keeps the complete parts of these.
pub(crate) fn recover(
    alloc: Global,
    src: &str,
    start: usize,
    keeps_parts: bool,
) -> Result<RawRecovery<'_>, AllocError>
    requires { IsCharBoundary src.now start }
    ensures { IfOk result (λ found. Recovered keeps_parts (place src.now start) (file_of found.raw) found.skipped.items) }
{
    let mut s = Reader::new(Scanner::new(src));
    s.jump(start);
    let mut found = RawRecovery::nothing(alloc);
    found.add_blocks(&mut s, alloc, src, keeps_parts)?;
    Ok(found)
}
