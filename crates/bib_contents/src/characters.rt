//! A cursor over the characters of a text.

ghost use Rattle.std.specs.Prelude.{◌≡◌, ℕ, ◌≤◌, ◌<◌, ◌==◌, ◌^◌, Bool, true, false, List, [], ◌∷◌, length, take, drop, MatchOption, MatchBool};
ghost use Rattle.std.specs.List.{list_all};
ghost use Rattle.std.specs.Str.{chars, IsCharBoundary, IsUtf8};
ghost use Rattle.bib_text.specs.Places.{Place, place, Answers, AtEnd, CharAt, between};
ghost use Rattle.bib_contents.specs.Contents.{begins, is_space};
ghost use Rattle.bib_contents.specs.Progress.{left, Passes, ReadsAs, is_alone};

use crate::classes::{is_ordinary, is_space};
use bib_text::scanner::Scanner;
use std::marker::Model;

// A text and a byte offset in it. Contracts speak of the characters that are left.
#[derive(Drop)]
pub(crate) struct Characters<'s> {
    text: &'s str,
    scanner: Scanner<'s>,
}

impl<'s> Model for Characters<'s> {
    ghost use Rattle.std.specs.Prelude.{◌≡◌, drop};
    ghost use Rattle.std.specs.Str.{IsUtf8};
    ghost use Rattle.bib_text.specs.Places.{Place};

    ghost Value = { Place };

    ghost view = { λ c. c.scanner };

    ghost invariant = { λ c. IsUtf8 c.text.now × (c.text.now ≡ c.scanner.text) ×
        IsUtf8 (drop c.scanner.at c.scanner.text) };
}

// Returns the character at byte `at`, or `None` at the end of the text.
fn char_at(text: &str, at: usize) -> Option<char>
    requires { IsCharBoundary text.now at }
    ensures { MatchOption result
        (AtEnd (place text.now at))
        (λ c. (v : Place) × CharAt (place text.now at) c v) }
{
    let bytes = text.as_bytes();
    if at == bytes.len() {
        return None;
    }
    let byte = bytes[at];
    if byte < 0x80 {
        return Some(byte as char);
    }
    text[at..].chars().next()
}

// Returns whether `c`, which comes before byte `at`, is a space that no white space follows, or a hyphen that no hyphen
// follows.
fn is_alone(c: char, text: &str, at: usize) -> bool
    requires { IsCharBoundary text.now at }
    ensures { result ≡ is_alone c (left (place text.now at)) }
{
    let Some(next) = char_at(text, at) else {
        return c == ' ' || c == '-';
    };
    if c == ' ' {
        return !is_space(next);
    }
    c == '-' && next != '-'
}

impl<'s> Characters<'s> {
    // Returns a cursor at the start of a text.
    pub(crate) fn new(text: &'s str) -> Self
        ensures { result ≡ place text.now 0 }
    {
        Characters {
            text,
            scanner: Scanner::new(text),
        }
    }

    // Returns the offset, in bytes from the start of the text.
    pub(crate) fn cursor(&self) -> usize
        ensures place { result ≡ self.now.at }
        ensures boundary { IsCharBoundary self.now.text result }
        ensures fits { length self.now.text < 2 ^ 63 }
        ensures utf8 { IsUtf8 (drop self.now.at self.now.text) }
    {
        self.scanner.cursor()
    }

    // Returns the next character.
    pub(crate) fn peek(&self) -> Option<char>
        ensures { MatchOption result
            (left self.now ≡ [])
            (λ c. (rest : List ℕ) × (left self.now ≡ c ∷ rest)) }
    {
        self.scanner.peek()
    }

    // Returns whether the cursor is at the end of the text.
    pub(crate) fn done(&self) -> bool
        ensures { MatchBool result (left self.now ≡ []) (left self.now ≡ [] → ⊥) }
    {
        self.peek().is_none()
    }

    // Consumes the next character and returns it.
    pub(crate) fn eat(&mut self) -> Option<char>
        ensures { MatchOption result
            ((left self.old ≡ []) × (self.new ≡ self.old))
            (λ c. Passes self.old (c ∷ []) self.new) }
    {
        self.scanner.eat()
    }

    // Consumes the next character if it is `c`, and returns whether it is.
    pub(crate) fn eat_if(&mut self, c: char) -> bool
        ensures { MatchBool result
            (Passes self.old (c ∷ []) self.new)
            ((self.new ≡ self.old) × (begins (λ d. d == c) (left self.old) ≡ false)) }
    {
        self.scanner.eat_if(c)
    }

    // Consumes characters while they pass a test, and returns their text.
    pub(crate) fn eat_while<F: Fn(char) -> bool>(&mut self, test: F) -> &'s str
        requires callable { F.IsAlwaysCallable test }
        requires is_test { (p : ℕ → Bool) × Answers (F.post test) p }
        ensures passed { Passes self.old (chars result.now) self.new }
        ensures longest { (p : ℕ → Bool) → Answers (F.post test) p →
            (list_all p (chars result.now) ≡ true) × (begins p (left self.new) ≡ false) }
    {
        self.scanner.eat_while(test)
    }

    // Consumes characters that are parsed as themselves, and returns their text: ordinary ones, and single spaces and
    // hyphens.
    pub(crate) fn eat_as_is(&mut self, is_verbatim: bool) -> &'s str
        ensures { ReadsAs is_verbatim self.old (chars result.now) self.new }
    {
        let text = self.text;
        let bytes = text.as_bytes();
        let start = self.scanner.cursor();
        let mut at = start;
        'run: while at < bytes.len() {
            let byte = bytes[at];
            if byte < 0x80 {
                let c = byte as char;
                if !(is_ordinary(is_verbatim, c) || is_alone(c, text, at + 1)) {
                    break;
                }
                at += 1;
            } else {
                let Some(c) = char_at(text, at) else {
                    break;
                };
                if !is_ordinary(is_verbatim, c) {
                    break;
                }
                at += c.len_utf8();
            }
        }
        self.scanner.jump(at);
        &text[start..at]
    }

    // Returns the text from byte `start` to the cursor.
    pub(crate) fn from(&self, start: usize) -> &'s str
        requires boundary { IsCharBoundary self.now.text start }
        requires following { start ≤ self.now.at }
        ensures { result.now ≡ between (place self.now.text start) self.now }
    {
        self.scanner.from(start)
    }

    // Returns the length of the whole text, in bytes.
    pub(crate) fn len(&self) -> usize
        ensures { result ≡ length self.now.text }
    {
        self.text.len()
    }

    // Moves the cursor to byte `target`.
    pub(crate) fn jump(&mut self, target: usize)
        requires { IsCharBoundary self.old.text target }
        ensures place { self.new ≡ place self.old.text target }
        ensures utf8 { IsUtf8 (drop target self.old.text) }
    {
        self.scanner.jump(target);
    }

    // Returns a cursor over the text up to this cursor, at byte `start`.
    pub(crate) fn back_to(&self, start: usize) -> Characters<'s>
        requires boundary { IsCharBoundary self.now.text start }
        requires following { start ≤ self.now.at }
        ensures place { result ≡ place (take self.now.at self.now.text) start }
        ensures utf8 { IsUtf8 (drop result.at result.text) }
    {
        let mut inside = Characters::new(self.scanner.before());
        inside.jump(start);
        inside
    }

    // Returns another cursor at this offset.
    pub(crate) fn copy(&self) -> Characters<'s>
        ensures { result ≡ self.now }
    {
        let mut copy = Characters::new(self.text);
        copy.jump(self.cursor());
        copy
    }
}
