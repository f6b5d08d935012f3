//! Finds where a name is cut into given name, prefix and family name.

ghost use Rattle.std.specs.Prelude.{◌≡◌, ◌+◌, ◌≤◌, length};
ghost use Rattle.bib_people.specs.Names.{leading, through_last, whole_name, before_comma};
ghost use Rattle.bib_people.specs.WordKinds.{is_of, cuts_of};

use super::words::Word;
use unicode::properties::{is_lowercase, is_uppercase};

// A test of words by their first letter. `Capital`: it is in upper case or verbatim. `Lower`: it is neither. `Low`: it
// is in lower case or verbatim.
#[derive(Clone, Copy, PartialEq, Eq, Drop)]
pub(crate) enum Kind {
    Capital,
    Lower,
    Low,
}

// The number of words of the given name, and of the prefix after it; the other words are the family name.
#[derive(Clone, Copy, Drop)]
pub(crate) struct Cuts {
    pub(crate) given: usize,
    pub(crate) prefix: usize,
}

// Returns whether the word passes the test.
fn is_of(word: &Word<'_>, kind: Kind) -> bool
    ensures { result ≡ is_of kind word.now }
{
    let Some(first) = word.letters().first() else {
        return kind == Kind::Lower;
    };
    match kind {
        Kind::Capital => first.is_verbatim || is_uppercase(first.char),
        Kind::Lower => !(first.is_verbatim || is_uppercase(first.char)),
        Kind::Low => first.is_verbatim || is_lowercase(first.char),
    }
}

// Returns the number of words before the first one that fails the test.
fn leading(words: &[Word<'_>], kind: Kind) -> usize
    ensures value { result ≡ leading (is_of kind) words.now }
    ensures within { result ≤ length words.now }
{
    'words: for (i, word) in words.iter().enumerate() {
        if !is_of(word, kind) {
            return i;
        }
    }
    words.len()
}

// Returns the number of words up to the last one that passes the test, this one included.
fn through_last(words: &[Word<'_>], kind: Kind) -> usize
    ensures value { result ≡ through_last (is_of kind) words.now }
    ensures within { result ≤ length words.now }
{
    let mut end = 0usize;
    'words: for (i, word) in words.iter().enumerate() {
        if is_of(word, kind) {
            end = i + 1;
        }
    }
    end
}

// Returns the cuts of a name without a comma.
#[tactic(auto, unfolding(crate::specs::Names::whole_name))]
pub(crate) fn whole_name(words: &[Word<'_>]) -> Cuts
    ensures value { cuts_of result ≡ whole_name words.now }
    ensures within { result.given + result.prefix ≤ length words.now }
{
    let given = leading(words, Kind::Capital);
    if given == words.len() {
        return Cuts {
            given: given.saturating_sub(1),
            prefix: 0,
        };
    }
    let more = &words[given..];
    let end = through_last(more, Kind::Capital);
    if end == 0 {
        return Cuts {
            given,
            prefix: more.len() - 1,
        };
    }
    Cuts {
        given,
        prefix: through_last(&more[..end], Kind::Lower),
    }
}

// Returns the cuts of the words before a comma.
#[tactic(auto, unfolding(crate::specs::Names::before_comma))]
pub(crate) fn before_comma(words: &[Word<'_>]) -> Cuts
    ensures value { cuts_of result ≡ before_comma words.now }
    ensures within { result.given + result.prefix ≤ length words.now }
{
    if leading(words, Kind::Low) == words.len() {
        return Cuts {
            given: 0,
            prefix: words.len().saturating_sub(1),
        };
    }
    Cuts {
        given: 0,
        prefix: through_last(words, Kind::Low),
    }
}
