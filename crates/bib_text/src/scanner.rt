//! A cursor over a text.

ghost use Rattle.std.specs.Prelude.{◌≡◌, ℕ, ◌+◌, ◌-◌, ◌≤◌, ◌<◌, ◌^◌, ◌==◌, ◌&&◌, Bool, true, false, not, length, take, drop, Option, Some, IfSome, MatchOption, MatchBool, IsTrue, ◌↔◌};
ghost use Rattle.std.specs.Char.{is_whitespace};
ghost use Rattle.std.specs.Str.{IsCharBoundary, IsUtf8};
ghost use Rattle.std.specs.Option.{unwrap_or};
ghost use Rattle.memchr.specs.Find.{IsFirstByte, is_byte2, is_byte3};
ghost use Rattle.bib_text.specs.Places.{Place, place, CharAt, Stops, Longest, AllBetween, AtEnd, EndsOr, Answers, between};

use memchr::{memchr, memchr2, memchr3};
use std::marker::Model;

/// A cursor over a text: the text and a byte offset, which is always a character boundary.
#[derive(Debug, Clone, Drop)]
pub struct Scanner<'s> {
    text: &'s str,
    at: usize,
}

impl<'s> Model for Scanner<'s> {
    ghost use Rattle.std.specs.Str.{IsCharBoundary, IsUtf8};
    ghost use Rattle.bib_text.specs.Places.{Place, place};

    ghost Value = { Place };

    ghost view = { λ s. place s.text.now s.at };

    ghost invariant = { λ s. IsUtf8 s.text.now × IsCharBoundary s.text.now s.at };
}

// Returns the character at offset `at`, or `None` at the end of `text`.
fn char_at(text: &str, at: usize) -> Option<char>
    requires { IsCharBoundary text.now at }
    ensures { MatchOption result
        (AtEnd (place text.now at))
        (λ c. (v : Place) × CharAt (place text.now at) c v) }
{
    text[at..].chars().next()
}

// Returns whether `byte` is `a`, `b` or `c`.
fn is_one_of(byte: u8, a: u8, b: u8, c: u8) -> bool
    ensures { result ≡ is_byte3 a b c byte }
{
    byte == a || byte == b || byte == c
}

// Returns the index of the first `a`, `b` or `c` if it is among the first four bytes, and `None` otherwise.
// Calling `memchr2` or `memchr3` only pays off for a byte further ahead.
fn near(bytes: &[u8], a: u8, b: u8, c: u8) -> Option<usize>
    ensures { IfSome result (λ n. IsFirstByte (is_byte3 a b c) bytes.now (Some n)) }
{
    let mut n = 0;
    'near: while n < 4 && n < bytes.len() {
        if is_one_of(bytes[n], a, b, c) {
            return Some(n);
        }
        n += 1;
    }
    None
}

// Returns the number of bytes before the first `a` or `b`, or the number of all bytes if neither occurs.
fn before_either(bytes: &[u8], a: u8, b: u8) -> usize
    ensures { (found : Option ℕ) × IsFirstByte (is_byte2 a b) bytes.now found
        × (result ≡ unwrap_or found (length bytes.now)) }
{
    match near(bytes, a, b, b) {
        Some(n) => n,
        None => memchr2(a, b, bytes).unwrap_or(bytes.len()),
    }
}

// Returns the number of bytes before the first `a`, `b` or `c`, or the number of all bytes if none occurs.
fn before_any(bytes: &[u8], a: u8, b: u8, c: u8) -> usize
    ensures { (found : Option ℕ) × IsFirstByte (is_byte3 a b c) bytes.now found
        × (result ≡ unwrap_or found (length bytes.now)) }
{
    match near(bytes, a, b, c) {
        Some(n) => n,
        None => memchr3(a, b, c, bytes).unwrap_or(bytes.len()),
    }
}

impl<'s> Scanner<'s> {
    /// Returns a scanner at the start of `text`.
    pub fn new(text: &'s str) -> Self
        ensures { result ≡ place text.now 0 }
    {
        Scanner { text, at: 0 }
    }

    /// Returns another scanner at the same offset of the same text. Unlike `clone`, it can't fail.
    pub fn copy(&self) -> Self
        ensures { result ≡ self.now }
    {
        Scanner {
            text: self.text,
            at: self.at,
        }
    }

    /// Returns the offset, in bytes from the start of the text.
    pub fn cursor(&self) -> usize
        ensures place { result ≡ self.now.at }
        ensures boundary { IsCharBoundary self.now.text result }
        ensures fits { length self.now.text < 2 ^ 63 }
    {
        self.at
    }

    /// Moves to the byte offset `target`, which must be a character boundary of the text.
    pub fn jump(&mut self, target: usize)
        requires { IsCharBoundary self.old.text target }
        ensures { self.new ≡ place self.old.text target }
    {
        self.at = target;
    }

    /// Returns whether the scanner is at the end of the text.
    pub fn done(&self) -> bool
        ensures { IsTrue result ↔ AtEnd self.now }
    {
        self.at == self.text.len()
    }

    /// Returns the next character without moving, or `None` at the end of the text.
    pub fn peek(&self) -> Option<char>
        ensures { MatchOption result (AtEnd self.now) (λ c. (v : Place) × CharAt self.now c v) }
    {
        let bytes = self.text.as_bytes();
        if self.at == bytes.len() {
            return None;
        }
        let byte = bytes[self.at];
        if byte < 0x80 {
            return Some(byte as char);
        }
        char_at(self.text, self.at)
    }

    /// Returns whether the next character is `c`. Doesn't move.
    pub fn at(&self, c: char) -> bool
        ensures { MatchBool result
            ((v : Place) × CharAt self.now c v)
            ((v : Place) → CharAt self.now c v → ⊥) }
    {
        match self.peek() {
            Some(here) => here == c,
            None => false,
        }
    }

    // Moves past the next character, which must be `c`.
    fn pass(&mut self, c: char)
        requires { (v : Place) × CharAt self.old c v }
        ensures { CharAt self.old c self.new }
    {
        self.at += c.len_utf8();
    }

    /// Moves past the next character and returns it. Returns `None` at the end of the text.
    pub fn eat(&mut self) -> Option<char>
        ensures { MatchOption result
            (AtEnd self.old × (self.new ≡ self.old))
            (λ c. CharAt self.old c self.new) }
    {
        let c = self.peek()?;
        self.pass(c);
        Some(c)
    }

    /// Moves past the next character if it is `c`, and returns whether it was.
    pub fn eat_if(&mut self, c: char) -> bool
        ensures { MatchBool result
            (CharAt self.old c self.new)
            ((self.new ≡ self.old) × ((v : Place) → CharAt self.old c v → ⊥)) }
    {
        if !self.at(c) {
            return false;
        }
        self.pass(c);
        true
    }

    /// Moves past characters while `test` accepts them, and returns the text of these characters. It is the longest
    /// accepted run if `test` always returns the same result for the same character.
    pub fn eat_while<F: Fn(char) -> bool>(&mut self, test: F) -> &'s str
        requires { F.IsAlwaysCallable test }
        ensures longest { (p : ℕ → Bool) → Answers (F.post test) p → Longest p self.old self.new }
        ensures passed { AllBetween (λ c. F.post test c true) self.old self.new }
        ensures stopped { EndsOr (λ c. F.post test c false) self.new }
        ensures same { self.new.text ≡ self.old.text }
        ensures forward { self.old.at ≤ self.new.at }
        ensures eaten { result.now ≡ between self.old self.new }
    {
        let bytes = self.text.as_bytes();
        let start = self.at;
        let mut at = start;
        'run: while at < bytes.len() {
            let byte = bytes[at];
            if byte < 0x80 {
                if !test(byte as char) {
                    break;
                }
                at += 1;
            } else {
                let Some(c) = char_at(self.text, at) else {
                    break;
                };
                if !test(c) {
                    break;
                }
                at += c.len_utf8();
            }
        }
        self.at = at;
        &self.text[start..at]
    }

    /// Moves past characters while `test` rejects them, and returns the text of these characters. It is the longest
    /// rejected run if `test` always returns the same result for the same character.
    pub fn eat_until<F: Fn(char) -> bool>(&mut self, test: F) -> &'s str
        requires { F.IsAlwaysCallable test }
        ensures longest { (p : ℕ → Bool) → Answers (F.post test) p →
            Longest (λ c. not (p c)) self.old self.new }
        ensures passed { AllBetween (λ c. F.post test c false) self.old self.new }
        ensures stopped { EndsOr (λ c. F.post test c true) self.new }
        ensures same { self.new.text ≡ self.old.text }
        ensures forward { self.old.at ≤ self.new.at }
        ensures eaten { result.now ≡ between self.old self.new }
    {
        self.eat_while(|c| !test(c))
    }

    // Moves past `count` bytes and returns them.
    fn eat_bytes(&mut self, count: usize) -> &'s str
        requires { IsCharBoundary self.old.text (self.old.at + count) }
        ensures reached { self.new ≡ place self.old.text (self.old.at + count) }
        ensures eaten { result.now ≡ between self.old self.new }
    {
        let start = self.at;
        self.jump(start + count);
        self.from(start)
    }

    /// Moves to the next `end`, an ASCII character, or to the end of the text if there is none. Returns the text passed.
    pub fn eat_until_byte(&mut self, end: u8) -> &'s str
        requires ascii { end < 128 }
        ensures longest { Longest (λ x. not (x == end)) self.old self.new }
        ensures stopped { EndsOr (λ x. not (x == end) ≡ false) self.new }
        ensures same { self.new.text ≡ self.old.text }
        ensures eaten { result.now ≡ between self.old self.new }
    {
        let ahead = self.text[self.at..].as_bytes();
        let count = memchr(end, ahead).unwrap_or(ahead.len());
        self.eat_bytes(count)
    }

    /// Moves to the next `a` or `b`, which are ASCII, or to the end of the text if there is none. Returns the text passed.
    pub fn eat_until_either(&mut self, a: u8, b: u8) -> &'s str
        requires ascii { (a < 128) × (b < 128) }
        ensures longest { Longest (λ x. not (x == a) && not (x == b)) self.old self.new }
        ensures stopped { EndsOr (λ x. not (x == a) && not (x == b) ≡ false) self.new }
        ensures same { self.new.text ≡ self.old.text }
        ensures eaten { result.now ≡ between self.old self.new }
    {
        let ahead = self.text[self.at..].as_bytes();
        let count = before_either(ahead, a, b);
        self.eat_bytes(count)
    }

    /// Moves to the next `a`, `b` or `c`, which are ASCII, or to the end of the text if there is none. Returns the text
    /// passed.
    pub fn eat_until_any(&mut self, a: u8, b: u8, c: u8) -> &'s str
        requires ascii { (a < 128) × (b < 128) × (c < 128) }
        ensures longest { Longest (λ x. not (x == a) && not (x == b) && not (x == c)) self.old self.new }
        ensures stopped { EndsOr (λ x. not (x == a) && not (x == b) && not (x == c) ≡ false) self.new }
        ensures same { self.new.text ≡ self.old.text }
        ensures eaten { result.now ≡ between self.old self.new }
    {
        let ahead = self.text[self.at..].as_bytes();
        let count = before_any(ahead, a, b, c);
        self.eat_bytes(count)
    }

    // Returns whether the next character is a visible ASCII character.
    fn is_at_visible(&self) -> bool
        ensures { IsTrue result → Stops is_whitespace self.now }
    {
        if self.done() {
            return false;
        }
        self.text.as_bytes()[self.at].is_ascii_graphic()
    }

    // Moves past white space and returns it.
    #[inline(never)]
    fn eat_white(&mut self) -> &'s str
        ensures longest { Longest is_whitespace self.old self.new }
        ensures eaten { result.now ≡ between self.old self.new }
    {
        self.eat_while(|c| c.is_whitespace())
    }

    /// Moves past white space (Unicode property `White_Space`) and returns it.
    #[inline]
    pub fn eat_whitespace(&mut self) -> &'s str
        ensures longest { Longest is_whitespace self.old self.new }
        ensures eaten { result.now ≡ between self.old self.new }
    {
        if self.is_at_visible() {
            return &self.text[self.at..self.at];
        }
        self.eat_white()
    }

    /// Returns the text from the byte offset `start` to the current offset. `start` must be a character boundary and not
    /// after the current offset.
    pub fn from(&self, start: usize) -> &'s str
        requires boundary { IsCharBoundary self.now.text start }
        requires following { start ≤ self.now.at }
        ensures { result.now ≡ between (place self.now.text start) self.now }
    {
        &self.text[start..self.at]
    }

    /// Returns the text before the current offset.
    pub fn before(&self) -> &'s str
        ensures { result.now ≡ take self.now.at self.now.text }
    {
        &self.text[..self.at]
    }
}
