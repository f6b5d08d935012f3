//! Finds positions in a text: lines and columns.

ghost use Rattle.std.specs.Prelude.{◌≡◌, ◌<◌, ◌≤◌, ◌+◌, ◌^◌, ◌++◌, ◌∷◌, [], ℕ, List, length};
ghost use Rattle.bib_source.specs.Positions.{position_after, position_at};

use std::marker::Model;

/// A line and a column, each counted from 1.
#[derive(Debug, Clone, Copy, PartialEq, Eq)]
pub struct Position {
    /// The line: one more than the number of line feeds before the position.
    pub line: usize,
    /// The column, in characters: one more than the number of characters before the position in its line.
    pub column: usize,
}

impl Position {
    // Returns the position of the first byte of a text.
    fn first() -> Self
        ensures { result ≡ position_after [] }
    {
        Position { line: 1, column: 1 }
    }

    // Returns the position after `byte`, if `byte` is at this position.
    fn advance(self, byte: u8) -> Self
        requires line { self.line + 1 < 2 ^ 64 }
        requires column { self.column + 1 < 2 ^ 64 }
        ensures after { (before : List ℕ) → self ≡ position_after before →
            result ≡ position_after (before ++ byte ∷ []) }
        ensures line { result.line ≤ self.line + 1 }
        ensures column { result.column ≤ self.column + 1 }
    {
        match byte {
            b'\n' => Position {
                line: self.line + 1,
                column: 1,
            },
            0x80..=0xBF => self,
            _ => Position {
                line: self.line,
                column: self.column + 1,
            },
        }
    }

    // Returns the position after `bytes`, if they begin at this position.
    fn advance_all(self, bytes: &[u8]) -> Self
        requires line { self.line + length bytes.now < 2 ^ 64 }
        requires column { self.column + length bytes.now < 2 ^ 64 }
        ensures { (before : List ℕ) → self ≡ position_after before →
            result ≡ position_after (before ++ bytes.now) }
    {
        let mut position = self;
        'bytes: for byte in bytes {
            position = position.advance(*byte);
        }
        position
    }
}

/// Finds the positions of byte offsets in a text. If the offsets ascend, it scans the text only once.
#[derive(Drop)]
pub struct Positions<'s> {
    bytes: &'s [u8],
    at: usize,
    position: Position,
}

impl<'s> Model for Positions<'s> {
    ghost use Rattle.std.specs.Prelude.{◌≡◌, ◌≤◌, ℕ, List, length};
    ghost use Rattle.bib_source.specs.Positions.{position_at};

    ghost Value = { List ℕ };

    ghost view = { λ p. p.bytes.now };

    ghost invariant = { λ p. (p.at ≤ length p.bytes.now) × (p.position ≡ position_at p.bytes.now p.at) };
}

impl<'s> Positions<'s> {
    /// Returns a finder of positions in `text`.
    pub fn new(text: &'s str) -> Self
        ensures { result ≡ text.now }
    {
        Positions::of_bytes(text.as_bytes())
    }

    /// Returns a finder of positions in `bytes`. The bytes before the requested offsets should be UTF-8: each byte that isn't
    /// from 80 to BF counts as one character.
    pub fn of_bytes(bytes: &'s [u8]) -> Self
        ensures { result ≡ bytes.now }
    {
        Positions {
            bytes,
            at: 0,
            position: Position::first(),
        }
    }

    // Returns an offset with a known position that isn't after `at`, and its position.
    fn known_position(&self, at: usize) -> (usize, Position)
        ensures before { result.0 ≤ at }
        ensures position { result.1 ≡ position_at self.now result.0 }
    {
        if self.at <= at {
            (self.at, self.position)
        } else {
            (0, Position::first())
        }
    }

    /// Returns the position of the byte offset `at`. For an offset after the end of the text, returns the position of the
    /// end. For an offset within a character, returns the position after that character.
    pub fn position(&mut self, at: usize) -> Position
        ensures found { result ≡ position_at self.old at }
        ensures same { self.new ≡ self.old }
    {
        let end = at.min(self.bytes.len());
        let (start, position) = self.known_position(end);
        let position = position.advance_all(&self.bytes[start..end]);
        *self = Positions {
            bytes: self.bytes,
            at: end,
            position,
        };
        position
    }
}
