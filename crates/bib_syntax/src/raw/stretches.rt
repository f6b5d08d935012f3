//! Finds stretches of a text without some character, for a text whose parts are parsed more than once.

ghost use Rattle.std.specs.Prelude.{◌≤◌, IfOk, IsTrue, ◌↔◌};
ghost use Rattle.std.specs.Str.{IsCharBoundary};
ghost use Rattle.bib_syntax.specs.Stretches.{AreLines, IsTail};

use bib_text::scanner::Scanner;
use std::alloc::{AllocError, Global};

// A stretch from an offset to the next occurrence of some character, or to the end of the text.
#[derive(Clone, Copy)]
pub(crate) struct Stretch {
    pub(crate) start: usize,
    pub(crate) end: usize,
}

impl Stretch {
    // Returns whether the offset `at` is in the stretch or at its end.
    pub(crate) fn holds(&self, at: usize) -> bool
        ensures { IsTrue result ↔ ((self.now.start ≤ at) × (at ≤ self.now.end)) }
    {
        self.start <= at && at <= self.end
    }
}

// Returns the lines of `text` from the offset `start` on, without their line feeds.
pub(crate) fn lines(alloc: Global, text: &str, start: usize) -> Result<Vec<Stretch>, AllocError>
    requires { IsCharBoundary text.now start }
    ensures { IfOk result (λ found. AreLines text.now found.items) }
{
    let mut s = Scanner::new(text);
    s.jump(start);
    let mut found = Vec::new(alloc);
    'lines: loop {
        let start = s.cursor();
        s.eat_until(|c| c == '\n');
        let end = s.cursor();
        found.push(Stretch { start, end })?;
        if !s.eat_if('\n') {
            return Ok(found);
        }
    }
}

// Returns the stretch after the last closing brace of `text`; the text from the offset `start` on if no closing brace occurs there.
pub(crate) fn tail(text: &str, start: usize) -> Stretch
    requires { IsCharBoundary text.now start }
    ensures { IsTail text.now result }
{
    let mut s = Scanner::new(text);
    s.jump(start);
    'braces: loop {
        let start = s.cursor();
        s.eat_until(|c| c == '}');
        let end = s.cursor();
        if !s.eat_if('}') {
            return Stretch { start, end };
        }
    }
}
