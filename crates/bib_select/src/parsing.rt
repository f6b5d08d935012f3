//! Parses a condition from its text.

ghost use Rattle.std.specs.Prelude.{IfOk, IfErr};
ghost use Rattle.bib_select.specs.Parsed.{IsParsed, IsParseError};

use crate::errors::SelectionError;
use crate::segments::Segment;
use crate::selection::Selection;
use crate::tokens::tokens;
use crate::{compiling, conditions};
use std::alloc::Global;

impl Selection {
    /// Parses a condition. Each error except out of memory has a byte offset. It is that of the first token that doesn't fit, of a
    /// quote that isn't closed, or of the token with a regular expression that can't be compiled. If the text ends too early, the offset
    /// is its length.
    pub fn parse(alloc: Global, text: &str) -> Result<Selection, SelectionError>
        ensures found { IfOk result (IsParsed text.now) }
        ensures refused { IfErr result (IsParseError text.now) }
    {
        let tokens = tokens(alloc, text)?;
        let whole = Segment {
            tokens: &tokens,
            end: text.len(),
        };
        let raw = conditions::alternatives(alloc, whole)?;
        let alternatives = compiling::alternatives(alloc, &raw)?;
        Ok(Selection { alternatives })
    }
}
