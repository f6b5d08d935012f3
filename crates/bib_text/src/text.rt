//! Owned text: a `String` that contracts see as its bytes.

ghost use Rattle.std.specs.Prelude.{◌≡◌, ◌==◌, refl, Some, ◌↔◌, List, [], ◌++◌, length, is_ok, if◌then◌else◌, IfOk, IsTrue, nat_eq, encode_utf8, string_bytes};
ghost use Rattle.std.specs.Cmp;
ghost use Rattle.std.specs.Cmp.Lexicographic.{pointwise, nat_list_cmp_total, nat_list_eq_equiv, slice_cmp, texts_po, texts_ties};
ghost use Rattle.std.specs.Fmt.{styled_text};
ghost use Rattle.std.proofs.Common.{rules};
ghost use Rattle.std.specs.Cmp.Rules.{hashing};
ghost use Rattle.std.specs.Hash as fed;
ghost use Rattle.std.specs.Ordering.{nat_cmp};

use std::alloc::{AllocError, Global};
use std::cmp::Ordering;
use std::convert::AsStr;
use std::fmt;
use std::hash::{Hash, Hasher};
use std::marker::Model;

/// An owned text. Contracts see it as its bytes, which are UTF-8.
#[derive(Debug, Drop)]
pub struct Text {
    string: String,
}

impl Model for Text {
    ghost use Rattle.std.specs.Prelude.{ℕ, List, string_bytes};

    ghost Value = { List ℕ };

    ghost view = { λ t. string_bytes t.string };
}

impl Text {
    /// Returns an empty text. Doesn't allocate.
    pub fn new(alloc: Global) -> Self
        ensures { result ≡ [] }
    {
        Text {
            string: String::new(alloc),
        }
    }

    /// Copies `text`. Returns an error if out of memory.
    pub fn from_str(alloc: Global, text: &str) -> Result<Self, AllocError>
        ensures { IfOk result (λ t. t ≡ text.now) }
    {
        let string = String::from_str(alloc, text)?;
        Ok(Text { string })
    }

    /// Wraps `whole`. Doesn't allocate.
    pub fn from_string(whole: String) -> Self
        ensures { result ≡ string_bytes whole }
    {
        Text { string: whole }
    }

    /// Returns the wrapped string. Doesn't allocate.
    pub fn into_string(self) -> String
        ensures { string_bytes result ≡ self }
    {
        let Text { string: text } = self;
        text
    }

    /// Borrows the text.
    pub fn as_str(&self) -> &str
        ensures { result.now ≡ self.now }
    {
        self.string.as_str()
    }

    /// Returns the length in bytes.
    pub fn len(&self) -> usize
        ensures { result ≡ length self.now }
    {
        self.string.len()
    }

    /// Returns whether the text is empty.
    pub fn is_empty(&self) -> bool
        ensures { result ≡ (length self.now == 0) }
    {
        self.string.is_empty()
    }

    /// Appends the character `c`. If out of memory, returns an error and leaves the text unchanged.
    pub fn push(&mut self, c: char) -> Result<(), AllocError>
        ensures { self.new ≡ (if is_ok result then self.old ++ encode_utf8 c else self.old) }
    {
        self.string.push(c)
    }

    /// Appends `text`. If out of memory, returns an error and leaves this text unchanged.
    pub fn push_str(&mut self, text: &str) -> Result<(), AllocError>
        ensures { self.new ≡ (if is_ok result then self.old ++ text.now else self.old) }
    {
        self.string.push_str(text)
    }

    /// Removes all characters. Keeps the allocated memory.
    pub fn clear(&mut self)
        ensures { self.new ≡ [] }
    {
        self.string.clear();
    }
}

/// Wraps a string. Doesn't allocate.
impl From<String> for Text {
    ghost from_gives = { λ string text. text ≡ string_bytes string };

    fn from(whole: String) -> Text {
        Text::from_string(whole)
    }
}

impl AsStr for Text {
    ghost text = { λ t. t };

    fn as_str(&self) -> &str {
        Text::as_str(self)
    }
}

/// Writes the text as `str` does, with the width, alignment and precision of the format.
impl fmt::Display for Text {
    ghost output = { λ t. Some t };

    ghost styled_output = { λ t spec. Some (styled_text spec t) };

    fn fmt<W: fmt::Write>(&self, f: &mut fmt::Formatter<W>) -> fmt::Result {
        f.pad(self.as_str())
    }
}

impl Clone for Text {
    ghost is_clone = { λ t copy. copy ≡ t };

    fn clone(&self) -> Result<Self, AllocError> {
        let string = self.string.clone()?;
        Ok(Text { string })
    }
}

impl PartialEq for Text {
    ghost eq = { pointwise nat_eq };

    ghost laws = { Cmp.partial_equiv_from_equiv nat_list_eq_equiv };

    fn eq(&self, other: &Self) -> bool {
        self.string == other.string
    }
}

impl Eq for Text {
    ghost laws = { nat_list_eq_equiv };
}

/// Compares the bytes lexicographically.
impl PartialOrd for Text {
    ghost partial_cmp = { λ x y. Some (slice_cmp nat_cmp x y) };

    ghost laws = { texts_po };

    fn partial_cmp(&self, other: &Self) -> Option<Ordering> {
        Some(self.cmp(other))
    }
}

/// Compares the bytes lexicographically.
impl Ord for Text {
    ghost cmp = { slice_cmp nat_cmp };

    ghost total = { nat_list_cmp_total };

    ghost matches_partial_cmp = { λ x y. refl };

    ghost matches_eq = { texts_ties };

    fn cmp(&self, other: &Self) -> Ordering {
        self.string.cmp(&other.string)
    }
}

/// Hashes the text like its `str`.
impl Hash for Text {
    ghost hash_input = { λ t. fed.str t };

    ghost respects_eq = { Prim.search (hashing, rules) };

    fn hash<H: Hasher>(&self, state: &mut H) {
        self.as_str().hash(state);
    }
}
