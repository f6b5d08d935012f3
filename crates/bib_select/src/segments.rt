//! Segments of a condition: consecutive tokens.

ghost use Rattle.std.specs.Prelude.{◌≡◌, ◌<◌, ◌∷◌, length, IfSome};
ghost use Rattle.std.specs.Option.{option_map};
ghost use Rattle.bib_select.specs.Segments as spec;
ghost use Rattle.bib_select.specs.Views.{placed_of, segment_of, segments_left};

use crate::errors::{SelectionError, SelectionErrorKind};
use crate::tokens::Placed;

/// Consecutive tokens of a condition, and the byte offset of the token after them, or the length of the text if there is none.
#[derive(Clone, Copy)]
pub(crate) struct Segment<'t, 's> {
    /// The tokens.
    pub(crate) tokens: &'t [Placed<'s>],
    /// The offset of the token after them, or the length of the text.
    pub(crate) end: usize,
}

impl<'t, 's> Segment<'t, 's> {
    /// Returns the segment before the first word `joint`, and the segment after it, or the whole segment and `None` if it has no such
    /// word.
    pub(crate) fn cut(self, joint: &str) -> (Segment<'t, 's>, Option<Segment<'t, 's>>)
        ensures cut { spec.segments_between joint.now (segment_of self.entry).end (segment_of self.entry).tokens ≡
            segment_of result.0 ∷ segments_left joint.now result.1 }
        ensures smaller { IfSome result.1 (λ rest. length rest.tokens.now < length self.entry.tokens.now) }
    {
        'tokens: for (index, placed) in self.tokens.iter().enumerate() {
            if placed.is_keyword(joint) {
                let first = Segment {
                    tokens: &self.tokens[..index],
                    end: placed.at,
                };
                let rest = Segment {
                    tokens: &self.tokens[index + 1..],
                    end: self.end,
                };
                return (first, Some(rest));
            }
        }
        (self, None)
    }

    /// Returns the first token.
    pub(crate) fn first(&self) -> Option<Placed<'s>>
        ensures { option_map placed_of result ≡ spec.first_token (segment_of self.now) }
    {
        self.tokens.first().copied()
    }

    /// Returns whether the first token is this word.
    pub(crate) fn opens_with(&self, keyword: &str) -> bool
        ensures { result ≡ spec.opens_with keyword.now (segment_of self.now) }
    {
        match self.first() {
            Some(first) => first.is_keyword(keyword),
            None => false,
        }
    }

    /// Returns the segment without its first token, if it has one.
    pub(crate) fn rest(self) -> Segment<'t, 's>
        ensures { segment_of result ≡ spec.without_first (segment_of self.entry) }
    {
        match self.tokens.split_first() {
            Some((_, tokens)) => Segment {
                tokens,
                end: self.end,
            },
            None => self,
        }
    }

    /// Returns an error of this kind at the first token, or at the end of the segment if it has none.
    pub(crate) fn error(&self, kind: SelectionErrorKind) -> SelectionError
        ensures { result ≡ spec.failure_at kind (segment_of self.now) }
    {
        let at = match self.first() {
            Some(first) => first.at,
            None => self.end,
        };
        SelectionError::Malformed { kind, at }
    }
}
