//! A scanner that may have a memo of its text.

ghost use Rattle.std.specs.Prelude.{◌≡◌, ◌==◌, ◌&&◌, ℕ, ◌≤◌, ◌<◌, ◌^◌, Bool, true, false, not, length, take, MatchOption, MatchBool, IsTrue, IfOk, IfSome, ◌↔◌};
ghost use Rattle.std.specs.Char.{is_whitespace};
ghost use Rattle.std.specs.Str.{IsCharBoundary};
ghost use Rattle.bib_text.specs.Characters as char;
ghost use Rattle.bib_text.specs.Places.{Place, place, CharAt, Longest, AllBetween, AtEnd, EndsOr, Answers, between};
ghost use Rattle.bib_syntax.specs.Closings.{IsCloseOf};
ghost use Rattle.bib_syntax.specs.Failures.{FailsAt};
ghost use Rattle.bib_syntax.specs.Stretches.{IsMemoOf, IsStretchFrom};
ghost use Rattle.bib_syntax.specs.SyntaxErrors.{text_end};

use crate::raw::ParseError;
use crate::raw::memo::Memo;
use bib_text::scanner::Scanner;
use std::alloc::AllocError;
use std::marker::Model;

// A scanner, and the memo of its text if there is one. Methods without a comment call the method of `Scanner` with the same name.
#[derive(Drop)]
pub(crate) struct Reader<'s, 'm> {
    scanner: Scanner<'s>,
    memo: Option<&'m Memo>,
}

impl<'s, 'm> Model for Reader<'s, 'm> {
    ghost use Rattle.std.specs.Prelude.{IfSome};
    ghost use Rattle.bib_text.specs.Places.{Place};
    ghost use Rattle.bib_syntax.specs.Stretches.{IsMemoOf};

    ghost Value = { Place };

    ghost view = { λ r. r.scanner };

    ghost invariant = { λ r. IfSome r.memo (λ memo. IsMemoOf r.scanner.text memo.now) };
}

impl<'s, 'm> Reader<'s, 'm> {
    // Returns a reader at the place of `scanner`, without a memo.
    pub(crate) fn new(scanner: Scanner<'s>) -> Self
        ensures { result ≡ scanner.entry }
    {
        Reader {
            scanner,
            memo: None,
        }
    }

    // Returns a reader at the same place, with the `memo` of the text, if there is one.
    pub(crate) fn with_memo<'n>(&self, memo: Option<&'n Memo>) -> Reader<'s, 'n>
        requires { IfSome memo (λ memo. IsMemoOf self.now.text memo.now) }
        ensures { result ≡ self.now }
    {
        Reader {
            scanner: self.scanner.copy(),
            memo,
        }
    }

    pub(crate) fn cursor(&self) -> usize
        ensures place { result ≡ self.now.at }
        ensures boundary { IsCharBoundary self.now.text result }
        ensures fits { length self.now.text < 2 ^ 63 }
    {
        self.scanner.cursor()
    }

    pub(crate) fn done(&self) -> bool
        ensures { IsTrue result ↔ AtEnd self.now }
    {
        self.scanner.done()
    }

    pub(crate) fn peek(&self) -> Option<char>
        ensures { MatchOption result (AtEnd self.now) (λ c. (v : Place) × CharAt self.now c v) }
    {
        self.scanner.peek()
    }

    pub(crate) fn at(&self, c: char) -> bool
        ensures { MatchBool result
            ((v : Place) × CharAt self.now c v)
            ((v : Place) → CharAt self.now c v → ⊥) }
    {
        self.scanner.at(c)
    }

    pub(crate) fn eat(&mut self) -> Option<char>
        ensures { MatchOption result
            (AtEnd self.old × (self.new ≡ self.old))
            (λ c. CharAt self.old c self.new) }
    {
        self.scanner.eat()
    }

    pub(crate) fn eat_if(&mut self, c: char) -> bool
        ensures { MatchBool result
            (CharAt self.old c self.new)
            ((self.new ≡ self.old) × ((v : Place) → CharAt self.old c v → ⊥)) }
    {
        self.scanner.eat_if(c)
    }

    pub(crate) fn eat_while<F: Fn(char) -> bool>(&mut self, test: F) -> &'s str
        requires { F.IsAlwaysCallable test }
        ensures longest { (p : ℕ → Bool) → Answers (F.post test) p → Longest p self.old self.new }
        ensures passed { AllBetween (λ c. F.post test c true) self.old self.new }
        ensures stopped { EndsOr (λ c. F.post test c false) self.new }
        ensures same { self.new.text ≡ self.old.text }
        ensures forward { self.old.at ≤ self.new.at }
        ensures eaten { result.now ≡ between self.old self.new }
    {
        self.scanner.eat_while(test)
    }

    // Moves to the next `a` or `b`, which are ASCII, or to the end of the text.
    pub(crate) fn eat_until_either(&mut self, a: u8, b: u8)
        requires ascii { (a < 128) × (b < 128) }
        ensures longest { Longest (λ x. not (x == a) && not (x == b)) self.old self.new }
        ensures stopped { EndsOr (λ x. not (x == a) && not (x == b) ≡ false) self.new }
    {
        self.scanner.eat_until_either(a, b);
    }

    // Moves to the next `a`, `b` or `c`, which are ASCII, or to the end of the text.
    pub(crate) fn eat_until_any(&mut self, a: u8, b: u8, c: u8)
        requires ascii { (a < 128) × (b < 128) × (c < 128) }
        ensures longest { Longest (λ x. not (x == a) && not (x == b) && not (x == c)) self.old self.new }
        ensures stopped { EndsOr (λ x. not (x == a) && not (x == b) && not (x == c) ≡ false) self.new }
    {
        self.scanner.eat_until_any(a, b, c);
    }

    // Moves to the next closing brace, or to the end of the text.
    pub(crate) fn eat_to_brace(&mut self)
        ensures longest { Longest (λ c. not (c == char.close_brace)) self.old self.new }
        ensures stopped { EndsOr (λ c. c == char.close_brace ≡ true) self.new }
    {
        match self.known_tail() {
            Some(end) => self.jump(end),
            None => {
                self.scanner.eat_until_byte(b'}');
            }
        }
    }

    // Moves to the next line feed, or to the end of the text.
    pub(crate) fn eat_line(&mut self)
        ensures { Longest (λ c. not (c == char.line_feed)) self.old self.new }
    {
        match self.known_line() {
            Some(end) => self.jump(end),
            None => {
                self.scanner.eat_until_byte(b'\n');
            }
        }
    }

    #[inline]
    pub(crate) fn eat_whitespace(&mut self) -> &'s str
        ensures longest { Longest is_whitespace self.old self.new }
        ensures eaten { result.now ≡ between self.old self.new }
    {
        self.scanner.eat_whitespace()
    }

    pub(crate) fn from(&self, start: usize) -> &'s str
        requires boundary { IsCharBoundary self.now.text start }
        requires following { start ≤ self.now.at }
        ensures { result.now ≡ between (place self.now.text start) self.now }
    {
        self.scanner.from(start)
    }

    pub(crate) fn before(&self) -> &'s str
        ensures { result.now ≡ take self.now.at self.now.text }
    {
        self.scanner.before()
    }

    // Moves to the byte offset `target`, which must be a character boundary of the text.
    pub(crate) fn jump(&mut self, target: usize)
        requires { IsCharBoundary self.old.text target }
        ensures { self.new ≡ place self.old.text target }
    {
        self.scanner.jump(target);
    }

    // Moves to the end of the text.
    pub(crate) fn jump_to_end(&mut self)
        ensures { self.new ≡ text_end self.old }
    {
        match self.memo {
            Some(memo) => self.scanner.jump(memo.tail.end),
            None => {
                self.scanner.eat_while(|_| true);
            }
        }
    }

    // Returns the offset of the brace that closes the text from here, if it is known. Returns `Some(None)` if no brace closes
    // the text, and `None` if this isn't known. It is known only directly after an opening brace.
    pub(crate) fn known_close(&self) -> Option<Option<usize>>
        ensures { IfSome result (IsCloseOf self.now) }
    {
        let memo = self.memo?;
        let at = self.scanner.cursor();
        let index = memo.closings.binary_search_by_key(&at, |it| it.start).ok()?;
        let closing = memo.closings[index];
        if closing.start != at {
            return None;
        }
        Some(closing.close)
    }

    // Returns the error with which parsing fields from here fails, if it is known. Fails only if out of memory.
    pub(crate) fn known_error(&self) -> Result<Option<ParseError>, AllocError>
        ensures { IfOk result (λ found. IfSome found (λ e. FailsAt self.now.text e self.now.at)) }
    {
        let Some(memo) = self.memo else {
            return Ok(None);
        };
        match memo.failures.get(self.scanner.cursor()) {
            Some(error) => Ok(Some(error.clone()?)),
            None => Ok(None),
        }
    }

    // Returns the end of the text if it is known that no closing brace occurs from here on.
    fn known_tail(&self) -> Option<usize>
        ensures { IfSome result (IsStretchFrom char.close_brace self.now) }
    {
        let memo = self.memo?;
        if !memo.tail.holds(self.scanner.cursor()) {
            return None;
        }
        Some(memo.tail.end)
    }

    // Returns the end of the line, before its line feed, if it is known.
    fn known_line(&self) -> Option<usize>
        ensures { IfSome result (IsStretchFrom char.line_feed self.now) }
    {
        let memo = self.memo?;
        let at = self.scanner.cursor();
        let following = memo.lines.partition_point(|it| it.start <= at);
        let index = following.checked_sub(1)?;
        let line = memo.lines[index];
        if !line.holds(at) {
            return None;
        }
        Some(line.end)
    }
}
