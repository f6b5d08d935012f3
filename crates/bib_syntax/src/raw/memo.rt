//! Known facts about a text, kept because parts of the text are parsed more than once.

ghost use Rattle.std.specs.Prelude.{IfOk};
ghost use Rattle.std.specs.Str.{IsCharBoundary};
ghost use Rattle.bib_syntax.specs.Stretches.{IsMemoOf};

use crate::raw::closings::{Closing, closings};
use crate::raw::failures::Failures;
use crate::raw::stretches::{Stretch, lines, tail};
use std::alloc::{AllocError, Global};

// Where the braces of a text close, its lines, the stretch after its last closing brace, and offsets from which parsing fields
// fails.
#[derive(Drop)]
pub(crate) struct Memo {
    pub(crate) closings: Vec<Closing>,
    pub(crate) lines: Vec<Stretch>,
    pub(crate) tail: Stretch,
    pub(crate) failures: Failures,
}

impl Memo {
    // Returns the memo of `text` from the offset `start` on, without failures.
    pub(crate) fn new(alloc: Global, text: &str, start: usize) -> Result<Self, AllocError>
        requires { IsCharBoundary text.now start }
        ensures { IfOk result (IsMemoOf text.now) }
    {
        Ok(Memo {
            closings: closings(alloc, text, start)?,
            lines: lines(alloc, text, start)?,
            tail: tail(text, start),
            failures: Failures::new(alloc),
        })
    }
}
