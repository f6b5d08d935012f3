//! Finds where the arguments in an argument end.

ghost use Rattle.std.specs.Prelude.{◌≡◌, ◌<◌, ℕ, List, length, IfOk, IfSome};
ghost use Rattle.bib_contents.specs.Arguments.{AreKnown, Closes};

use crate::characters::Characters;
use std::alloc::{AllocError, Global};

// The byte offsets of the closing braces in a text. `places[i]` belongs to the opening brace right before byte
// `start + i`; it is 0 if there is no such brace or it isn't closed. The text is scanned at most twice, however deep
// its braces are nested.
#[derive(Drop)]
pub(crate) struct Ends {
    start: usize,
    places: Vec<usize>,
}

impl Ends {
    // Returns `Ends` in which no end is known.
    pub(crate) fn none(alloc: Global) -> Self
        ensures { (text : List ℕ) → AreKnown result text }
    {
        Ends {
            start: 0,
            places: Vec::new(alloc),
        }
    }

    // Finds the ends in the text that is left.
    pub(crate) fn of(alloc: Global, s: &Characters<'_>) -> Result<Self, AllocError>
        ensures { IfOk result (λ ends. AreKnown ends s.now.text) }
    {
        let mut inside = s.copy();
        inside.eat_while(|c| c != '{');
        if inside.done() {
            return Ok(Ends::none(alloc));
        }
        Ends::between_braces(alloc, s.copy())
    }

    // Finds the ends in a text that contains an opening brace.
    fn between_braces(alloc: Global, s: Characters<'_>) -> Result<Self, AllocError>
        ensures { IfOk result (λ ends. AreKnown ends s.entry.text) }
    {
        let mut s = s;
        let start = s.cursor();
        let mut places = vec![in alloc; 0usize; s.len() - start]?;
        let mut open: Vec<usize> = Vec::new(alloc);
        'braces: loop {
            s.eat_while(|c| c != '{' && c != '}');
            let end = s.cursor();
            let Some(brace) = s.eat() else {
                return Ok(Ends { start, places });
            };
            if brace == '{' {
                open.push(s.cursor())?;
            } else if let Some(begin) = open.pop() {
                places[begin - start] = end;
            }
        }
    }

    // Returns the byte offset of the brace that closes the argument that begins at `begin`, if it is known.
    pub(crate) fn end_of(&self, begin: usize) -> Option<usize>
        ensures { IfSome result (λ end. (text : List ℕ) → AreKnown self.now text →
            end < length text → Closes text begin end) }
    {
        let Some(index) = begin.checked_sub(self.start) else {
            return None;
        };
        let Some(end) = self.places.get(index) else {
            return None;
        };
        if *end == 0 {
            return None;
        }
        Some(*end)
    }
}
