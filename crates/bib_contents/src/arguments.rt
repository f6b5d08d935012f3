//! Parses arguments in braces. Nested arguments are a stack of frames, and all of them are written to one text.

ghost use Rattle.std.specs.Prelude.{◌≡◌, ◌+◌, ◌-◌, ◌≤◌, ◌<◌, ◌^◌, ◌||◌, ◌==◌, ℕ, List, length, false, true, IfOk, IfErr, OnOk, Some, string_bytes};
ghost use Rattle.std.specs.Str.{chars};
ghost use Rattle.bib_chunks.specs.Formatted.{formatted_atoms};
ghost use Rattle.bib_chunks.specs.Styled.{Atom};
ghost use Rattle.bib_chunks.specs.Writing.{Writes};
ghost use Rattle.bib_contents.specs.Arguments.{AreKnown, StandsRight};
ghost use Rattle.bib_contents.specs.Commands.{command_text};
ghost use Rattle.bib_contents.specs.ContentErrors.{ContentFails};
ghost use Rattle.bib_contents.specs.Contents.{Reads, is_name, StaysBetween};
ghost use Rattle.bib_contents.specs.Effects.{IsFit, before_argument, effect_text};
ghost use Rattle.bib_contents.specs.ParseResults.{IsArgumentError, IsErrorAt, IsParsedOn, IsSameExceptDepth, IsUnitTaken};
ghost use Rattle.bib_contents.specs.Progress.{left};

use crate::characters::Characters;
use crate::classes::is_ordinary;
use crate::commands::Effect;
use crate::ends::Ends;
use crate::errors::{closing_brace_error, early_end_error};
use crate::units::{Unit, eat_unit};
use crate::writing::{write_math, write_unit};
use bib_syntax::raw::ParseError;
use std::alloc::{AllocError, Global};

// An argument that is being parsed. `s` is at the text that is left, and `effect` is that of its command. Its own text
// begins at byte `start` of the output, and `depth` braces are open in it. If `is_flat`, it is outside braces in an
// argument around it, so all of its text is put on one line.
#[derive(Drop)]
struct Frame<'s> {
    s: Characters<'s>,
    effect: Effect,
    start: usize,
    depth: usize,
    is_flat: bool,
}

// The result of parsing the next part of an argument.
enum Next<'s> {
    // A unit, which was written.
    Read,
    // A command with an argument in braces, which isn't parsed yet.
    Follows(&'s str, Characters<'s>),
    // The end of the argument.
    End,
}

impl<'s> Frame<'s> {
    // Begins an argument: writes the text that its command puts before it, and returns its frame.
    fn open(
        text: &mut String,
        name: &str,
        inside: Characters<'s>,
        is_flat: bool,
    ) -> Result<Self, AllocError>
        ensures frame { IfOk result (λ frame. (frame.s ≡ inside.entry) × (frame.depth ≡ 0) ×
            (frame.is_flat ≡ is_flat)) }
        ensures wrote { IfOk result (λ frame. Writes text.old text.new
            (before_argument frame.effect (chars name.now)) ×
            (frame.start ≡ length (string_bytes text.new))) }
        ensures made { IfOk result (λ frame. (argument : List ℕ) →
            command_text (chars name.now) (Some argument) ≡ effect_text frame.effect (chars name.now) argument) }
        ensures fit { IfOk result (λ frame. IsFit frame.effect) }
    {
        let effect = Effect::of(name);
        effect.begin(text, name)?;
        Ok(Frame {
            s: inside,
            effect,
            start: text.len(),
            depth: 0,
            is_flat,
        })
    }

    // Returns whether characters at this point are written on one line.
    fn is_flat_here(&self) -> bool
        ensures { result ≡ (self.now.is_flat || self.now.depth == 0) }
    {
        self.is_flat || self.depth == 0
    }

    // Appends a run of ordinary characters to `text`, and parses the unit after it, if there is one. The text that `s`
    // reads begins at byte `offset` of the file.
    fn next(
        &mut self,
        text: &mut String,
        alloc: Global,
        ends: &Ends,
        offset: usize,
    ) -> Result<Next<'s>, ParseError>
        requires known { AreKnown ends.now self.old.s.text }
        requires right { StandsRight self.old }
        ensures ok { IfOk result (IsParsedOn self.old (string_bytes text.old)
            self.new (string_bytes text.new)) }
        ensures err { IfErr result (IsErrorAt
            (IsArgumentError self.old (left self.old.s) (string_bytes text.old))
            offset self.old.s.at (length self.old.s.text)) }
    {
        let run = self.s.eat_while(|c| is_ordinary(false, c));
        text.push_str(run)?;
        if self.s.done() {
            return Ok(Next::End);
        }
        let start = self.s.cursor();
        let Some(unit) = eat_unit(&mut self.s, false, ends) else {
            return Err(early_end_error(offset.saturating_add(self.s.len())));
        };
        let end = offset.saturating_add(start);
        let following = offset.saturating_add(self.s.cursor());
        let next = self.take(text, alloc, unit, end, following)?;
        Ok(next)
    }

    // Writes a unit, or returns the command and the argument that has to be parsed. The unit is from `start` to `end`
    // in the file.
    fn take(
        &mut self,
        text: &mut String,
        alloc: Global,
        unit: Unit<'s>,
        start: usize,
        end: usize,
    ) -> Result<Next<'s>, ParseError>
        requires deep { self.old.depth < 2 ^ 63 }
        ensures frame { IsSameExceptDepth self.old self.new }
        ensures taken { IsUnitTaken unit.entry self.old (string_bytes text.old)
            self.new (string_bytes text.new) result }
        ensures within { start ≤ end → IfErr result (StaysBetween start end) }
    {
        match unit {
            Unit::Shown(shown) => write_unit(text, shown, self.is_flat_here())?,
            Unit::Applied(name, _, inside) => return Ok(Next::Follows(name, inside)),
            Unit::Formula(math) => write_math(text, alloc, math, self.is_flat)?,
            Unit::Opening => self.depth += 1,
            Unit::Closing => {
                if self.depth == 0 {
                    return Err(closing_brace_error(start, end));
                }
                self.depth -= 1;
            }
        }
        Ok(Next::Read)
    }
}

// Parses the argument of a command and writes the text of the command. The argument is in a piece that begins at byte
// `offset` of the file.
pub(crate) fn write_applied(
    text: &mut String,
    alloc: Global,
    name: &str,
    inside: Characters<'_>,
    offset: usize,
) -> Result<(), ParseError>
    requires named { is_name (chars name.now) ≡ true }
    requires place { inside.at ≤ length inside.text }
    ensures read { OnOk result ((inner : List Atom) × Reads false 0 (left inside.entry) inner ×
        Writes text.old text.new (command_text (chars name.now) (Some (formatted_atoms false inner)))) }
    ensures err { IfErr result (IsErrorAt (ContentFails false 0 (left inside.entry))
        offset inside.entry.at (length inside.entry.text)) }
{
    let ends = Ends::of(alloc, &inside)?;
    let mut frames = Vec::new(alloc);
    let mut frame = Frame::open(text, name, inside, false)?;
    'units: loop {
        let next = frame.next(text, alloc, &ends, offset)?;
        match next {
            Next::Read => {}
            Next::Follows(name, inside) => {
                let above = Frame::open(text, name, inside, frame.is_flat_here())?;
                frames.push(frame)?;
                frame = above;
            }
            Next::End => {
                frame.effect.end(text, frame.start)?;
                let Some(below) = frames.pop() else {
                    return Ok(());
                };
                frame = below;
            }
        }
    }
}
