//! Finds where the braces of a text close, for a text whose parts are parsed more than once.

ghost use Rattle.std.specs.Prelude.{◌≡◌, ◌<◌, ◌-◌, ◌++◌, ◌∷◌, [], ℕ, List, length, MatchBool, IfOk, OnOk};
ghost use Rattle.std.specs.Str.{IsCharBoundary};
ghost use Rattle.bib_text.specs.Places.{Place, AtEnd, CharAt};
ghost use Rattle.bib_syntax.specs.Closings.{AreClosings};
ghost use Rattle.bib_syntax.specs.OpenBraces.{AreBracesAt, ClosesLast};

use bib_text::scanner::Scanner;
use std::alloc::{AllocError, Global};

// The offset after an opening brace, and the offset of the brace that closes it, if there is one.
#[derive(Clone, Copy)]
pub(crate) struct Closing {
    pub(crate) start: usize,
    pub(crate) close: Option<usize>,
}

// The braces of a text up to a place: the offsets after those that are open, and where closed ones close.
#[derive(Drop)]
struct Braces {
    opened: Vec<usize>,
    found: Vec<Closing>,
}

impl Braces {
    // Moves the last open brace, if there is one, to `found`, as closed at the offset `at`.
    fn close(&mut self, at: usize) -> Result<(), AllocError>
        ensures { OnOk result (ClosesLast self.old.opened.items self.old.found.items at
            self.new.opened.items self.new.found.items) }
    {
        if let Some(start) = self.opened.pop() {
            let close = Some(at);
            self.found.push(Closing { start, close })?;
        }
        Ok(())
    }

    // Moves past a run of plain characters, and past the brace, or the backslash and a character, after it. Returns false at
    // the end of the text.
    fn pass(&mut self, s: &mut Scanner<'_>) -> Result<bool, AllocError>
        ensures braces { OnOk result ((text : List ℕ) →
            AreBracesAt text self.old.opened.items self.old.found.items s.old →
            AreBracesAt text self.new.opened.items self.new.found.items s.new) }
        ensures goes_on { IfOk result (λ goes_on. MatchBool goes_on
            (length s.new.text - s.new.at < length s.old.text - s.old.at) (AtEnd s.new)) }
    {
        s.eat_until_any(b'{', b'}', b'\\');
        if s.eat_if('{') {
            self.opened.push(s.cursor())?;
            return Ok(true);
        }
        if s.at('}') {
            self.close(s.cursor())?;
            s.eat_if('}');
            return Ok(true);
        }
        if s.eat_if('\\') {
            s.eat();
            return Ok(true);
        }
        Ok(false)
    }

    // Moves to the end of the text.
    fn pass_all(&mut self, s: &mut Scanner<'_>) -> Result<(), AllocError>
        ensures braces { OnOk result ((text : List ℕ) →
            AreBracesAt text self.old.opened.items self.old.found.items s.old →
            AreBracesAt text self.new.opened.items self.new.found.items s.new) }
        ensures end { OnOk result (AtEnd s.new) }
    {
        'text: while self.pass(s)? {}
        Ok(())
    }

    // Moves the braces that are open at the end of the text to `found`, as never closed.
    fn end(&mut self) -> Result<(), AllocError>
        ensures { OnOk result ((text : List ℕ) (here : Place) → AtEnd here →
            AreBracesAt text self.old.opened.items self.old.found.items here →
            AreClosings text self.new.found.items) }
    {
        'opened: while let Some(start) = self.opened.pop() {
            self.found.push(Closing { start, close: None })?;
        }
        Ok(())
    }
}

// Returns a `Closing` for each opening brace that no backslash escapes, from the offset `start` of `text` on. They are sorted by their field
// `start`.
pub(crate) fn closings(alloc: Global, text: &str, start: usize) -> Result<Vec<Closing>, AllocError>
    requires { IsCharBoundary text.now start }
    ensures { IfOk result (λ found. AreClosings text.now found.items) }
{
    let mut s = Scanner::new(text);
    s.jump(start);
    let mut braces = Braces {
        opened: Vec::new(alloc),
        found: Vec::new(alloc),
    };
    braces.pass_all(&mut s)?;
    braces.end()?;
    let mut found = braces.found;
    found.sort_unstable_by_key(|it| it.start);
    Ok(found)
}
