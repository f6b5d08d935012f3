//! Values with their spans in a text.

ghost use Rattle.std.specs.Prelude.{◌≡◌, ◌^◌, ◌-◌, ◌↔◌, IsTrue};

use std::ops::Range;

/// A range of byte offsets in a text.
pub type Span = Range<usize>;

/// A value and the span of the text that it was parsed from, or an empty span if it wasn't parsed.
#[derive(Debug, Clone, PartialEq, Eq, Drop)]
pub struct Spanned<T> {
    /// The value.
    pub v: T,
    /// The span of the value.
    pub span: Span,
}

impl<T> Spanned<T> {
    /// Returns `v` with `span`.
    pub fn new(v: T, span: Span) -> Self
        ensures { result ≡ record { v = v; span = span } }
    {
        Spanned { v, span }
    }

    /// Returns `v` with the empty span at the start of a text, `0..0`.
    pub fn zero(v: T) -> Self
        ensures { result ≡ record { v = v; span = record { start = 0; end = 0 } } }
    {
        Spanned { v, span: 0..0 }
    }

    /// Returns `v` without a span in any text: both ends are `usize::MAX`.
    pub fn detached(v: T) -> Self
        ensures { result ≡
            record { v = v; span = record { start = 2 ^ 64 - 1; end = 2 ^ 64 - 1 } } }
    {
        Spanned {
            v,
            span: usize::MAX..usize::MAX,
        }
    }

    /// Returns whether the value has no span in any text: whether the start of its span is `usize::MAX`.
    pub fn is_detached(&self) -> bool
        ensures { IsTrue result ↔ (self.now.span.start ≡ 2 ^ 64 - 1) }
    {
        self.span.start == usize::MAX
    }

    /// Returns a borrow of the value with the same span.
    pub fn as_ref(&self) -> Spanned<&T>
        ensures value { result.v.now ≡ self.now.v }
        ensures span { result.span ≡ self.now.span }
    {
        Spanned {
            v: &self.v,
            span: self.span.start..self.span.end,
        }
    }

    /// Applies `f` to the value and keeps the span.
    pub fn map<U, F: FnOnce(T) -> U>(self, f: F) -> Spanned<U>
        requires { F.pre f self.v }
        ensures value { F.post f self.v result.v }
        ensures span { result.span ≡ self.span }
    {
        Spanned {
            v: f(self.v),
            span: self.span,
        }
    }
}
