//! Methods on lists of chunks.

ghost use Rattle.std.specs.Prelude.{◌≡◌, List, IfOk, string_bytes, encode_utf8_all};
ghost use Rattle.bib_chunks.specs.declared.chunk.Chunk.{Chunk as AChunk};
ghost use Rattle.bib_text.specs.declared.spanned.Spanned.{Spanned as APlaced};
ghost use Rattle.bib_chunks.specs.Formatted.{formatted_chars, sentence};
ghost use Rattle.bib_chunks.specs.Styled.{whole_span};
ghost use Rattle.bib_chunks.specs.Written.{written_value};
ghost use Rattle.bib_tables.specs.ReadAs.{IsReadAs, LiesAt};

use crate::typed::Type;
use bib_chunks::chunk::{
    Chunks, ChunksRef, Span, format_sentence, format_verbatim, value_text, whole_span,
};
use bib_tables::type_error::TypeError;
use std::alloc::{AllocError, Global};

/// Methods on lists of chunks.
pub trait ChunksExt {
    // The chunks.
    ghost contents: { Self → List (APlaced AChunk) };

    /// Parses the chunks as a value of type `T`. The span of an error is that of all chunks, except for out of memory.
    fn parse<T: Type>(&self, alloc: Global) -> Result<T, TypeError>
        ensures reads { IsReadAs T.meaning (T.reads (contents self.now))
            (T.may_refuse (contents self.now)) result }
        ensures place { LiesAt (whole_span (contents self.now)) result };

    /// Returns the text of the chunks. Math is written between dollar signs. A line break in normal text becomes a space, or
    /// nothing if the last character written before it is white space. Math doesn't count as written, and an empty verbatim
    /// chunk counts as a character other than white space.
    fn format_verbatim(&self, alloc: Global) -> Result<String, AllocError>
        ensures { IfOk result (λ text. string_bytes text ≡
            encode_utf8_all (formatted_chars (contents self.now))) };

    /// Returns the text of the chunks in sentence case: like `format_verbatim`, with the characters of normal chunks in
    /// lowercase. If the first chunk is normal, its first character is in uppercase.
    fn format_sentence(&self, alloc: Global) -> Result<String, AllocError>
        ensures { IfOk result (λ text. string_bytes text ≡
            encode_utf8_all (sentence (contents self.now))) };

    /// Returns the span from the start of the first chunk to the end of the last, in bytes, or `0..0` if there are no chunks.
    fn span(&self) -> Span
        ensures { result ≡ whole_span (contents self.now) };

    /// Returns the value as a text with escapes, in braces. An unknown command was parsed as plain text, so it is escaped:
    /// `\emph{x}` is written `\\emph\{x\}`. Outside verbatim fields and math, `~` is written `\textasciitilde{}`. The edits
    /// of `bibkit` and its `convert --to biblatex` keep such commands.
    ///
    /// `is_verbatim` tells whether the field is verbatim. The only error is out of memory.
    fn to_biblatex_string(&self, alloc: Global, is_verbatim: bool) -> Result<String, AllocError>
        ensures { IfOk result (λ text. string_bytes text ≡
            encode_utf8_all (written_value (contents self.now) is_verbatim)) };
}

impl ChunksExt for ChunksRef<'_> {
    ghost contents = { λ chunks. chunks.now };

    fn parse<T: Type>(&self, alloc: Global) -> Result<T, TypeError> {
        T::from_chunks(alloc, self)
    }

    fn format_verbatim(&self, alloc: Global) -> Result<String, AllocError> {
        format_verbatim(alloc, self)
    }

    fn format_sentence(&self, alloc: Global) -> Result<String, AllocError> {
        format_sentence(alloc, self)
    }

    fn span(&self) -> Span {
        whole_span(self)
    }

    fn to_biblatex_string(&self, alloc: Global, is_verbatim: bool) -> Result<String, AllocError> {
        value_text(alloc, self, is_verbatim)
    }
}

impl ChunksExt for Chunks {
    ghost contents = { λ chunks. chunks };

    fn parse<T: Type>(&self, alloc: Global) -> Result<T, TypeError> {
        self.as_slice().parse(alloc)
    }

    fn format_verbatim(&self, alloc: Global) -> Result<String, AllocError> {
        self.as_slice().format_verbatim(alloc)
    }

    fn format_sentence(&self, alloc: Global) -> Result<String, AllocError> {
        self.as_slice().format_sentence(alloc)
    }

    fn span(&self) -> Span {
        self.as_slice().span()
    }

    fn to_biblatex_string(&self, alloc: Global, is_verbatim: bool) -> Result<String, AllocError> {
        self.as_slice().to_biblatex_string(alloc, is_verbatim)
    }
}
