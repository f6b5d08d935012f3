//! Decides whether chunks are settled. If they are, they parse back to the same styled text once they are written.

ghost use Rattle.std.specs.Prelude.{◌≡◌, ◌==◌, ◌↔◌, [], IsTrue, MatchBool, MatchOption};
ghost use Rattle.std.specs.List.{list_any};
ghost use Rattle.std.specs.Str.{chars};
ghost use Rattle.bib_chunks.specs.Settled.{is_pair, IsSettled};
ghost use Rattle.bib_chunks.specs.Settling.{MayFollow, neighbour, character_atom, text_atoms, Continues, IsUnsettledAfter, ContinuesIn, IsStuckIn, IsSettledMath};
ghost use Rattle.bib_chunks.specs.Styled.{atoms_of, styled};
ghost use Rattle.bib_text.specs.Characters as char;

use crate::chunk::{Chunk, ChunksRef};
use bib_text::braces::has_balanced_braces;
use bib_text::scanner::Scanner;

// The neighbour before an atom (a character or a math text), if the parser could merge the two: a normal or a verbatim
// character.
#[derive(Clone, Copy)]
enum Before {
    Nothing,
    Normal(char),
    Verbatim(char),
}

// Returns whether the parser merges the two characters if they are neighbours: two spaces, or two hyphens.
fn is_pair(c: char, d: char) -> bool
    ensures { result ≡ is_pair c d }
{
    (c == ' ' && d == ' ') || (c == '-' && d == '-')
}

// Returns whether a character may occur after `before` in settled text. `is_braced` says whether it is verbatim.
fn may_follow(before: Before, c: char, is_braced: bool) -> bool
    ensures { MatchBool result (MayFollow before (character_atom is_braced c))
        (MayFollow before (character_atom is_braced c) → ⊥) }
{
    if c.is_whitespace() && c != ' ' {
        return false;
    }
    match before {
        Before::Nothing => true,
        Before::Normal(b) => is_braced || !is_pair(b, c),
        Before::Verbatim(b) => !is_braced || !is_pair(b, c),
    }
}

// Returns the `Before` of the atom that follows a character.
fn neighbour(c: char, is_braced: bool) -> Before
    ensures { result ≡ neighbour (character_atom is_braced c) }
{
    if is_braced {
        return Before::Verbatim(c);
    }
    Before::Normal(c)
}

// Returns the `Before` of the atom that follows a text, or `None` if one of its characters may not occur there.
fn after_text(text: &str, is_braced: bool, before: Before) -> Option<Before>
    ensures { MatchOption result (IsUnsettledAfter before (text_atoms is_braced (chars text.now)))
        (λ after. Continues before (text_atoms is_braced (chars text.now)) after []) }
{
    let mut scanner = Scanner::new(text);
    let mut last = before;
    'text: while let Some(c) = scanner.eat() {
        if !may_follow(last, c, is_braced) {
            return None;
        }
        last = neighbour(c, is_braced);
    }
    Some(last)
}

// Returns whether the text contains a dollar sign.
fn holds_dollar(text: &str) -> bool
    ensures { result ≡ list_any (λ c. c == char.dollar) (chars text.now) }
{
    let mut scanner = Scanner::new(text);
    scanner.eat_while(|c| c != '$');
    scanner.eat().is_some()
}

// Returns whether a math text may occur in settled text outside verbatim fields.
fn is_settled_math(text: &str) -> bool
    ensures { MatchBool result (IsSettledMath text.now) (IsSettledMath text.now → ⊥) }
{
    if holds_dollar(text) {
        return false;
    }
    has_balanced_braces(text)
}

// Returns the `Before` of the atom that follows a chunk, or `None` if one of its atoms may not occur there.
fn after_chunk(chunk: &Chunk, is_verbatim: bool, before: Before) -> Option<Before>
    ensures { MatchOption result (IsStuckIn is_verbatim before (atoms_of chunk.now))
        (λ after. ContinuesIn is_verbatim before (atoms_of chunk.now) after []) }
{
    match chunk {
        Chunk::Normal(text) => after_text(text.as_str(), false, before),
        Chunk::Verbatim(text) => after_text(text.as_str(), true, before),
        Chunk::Math(text) => {
            if is_verbatim {
                return None;
            }
            if !is_settled_math(text.as_str()) {
                return None;
            }
            Some(Before::Nothing)
        }
    }
}

/// Returns whether a value is settled. If it is, it parses back to the same styled text once it is written. `is_verbatim`
/// says whether its field is a verbatim one. Does not allocate.
///
/// A value is settled if and only if the following hold. The only white space of its normal and verbatim chunks is U+0020.
/// No two spaces and no two hyphens are neighbours if both are normal or both verbatim. A verbatim field contains no math. In
/// other fields, each math text has balanced unescaped braces, no dollar sign, and no unescaped backslash at its end.
pub fn is_settled(chunks: ChunksRef<'_>, is_verbatim: bool) -> bool
    ensures { IsTrue result ↔ IsSettled (styled chunks.now) is_verbatim }
{
    let mut before = Before::Nothing;
    'chunks: for chunk in chunks {
        let Some(after) = after_chunk(&chunk.v, is_verbatim, before) else {
            return false;
        };
        before = after;
    }
    true
}
