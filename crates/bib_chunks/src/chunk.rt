//! Text in chunks that are normal, verbatim or math.

ghost use Rattle.std.specs.Prelude.{◌≡◌, IfOk, string_bytes, encode_utf8_all};
ghost use Rattle.std.specs.Borrow.{sem};
ghost use Rattle.bib_chunks.specs.Styled.{text_of, whole_span};
ghost use Rattle.bib_chunks.specs.Lending.{LendsText};
ghost use Rattle.bib_chunks.specs.Written.{written_chunk};

pub mod cuts;
mod formatting;
pub mod making;
mod writing;

use bib_text::items::Items;
pub use bib_text::spanned::{Span, Spanned};
use bib_text::text::Text;
pub use formatting::{format_sentence, format_styled, format_verbatim, is_shown};
use std::alloc::{AllocError, Global};
pub use writing::{value_text, write_value};

/// A part of a field's value.
#[derive(Debug, PartialEq, Eq, Drop)]
pub enum Chunk {
    /// Text whose case a style may change.
    Normal(Text),
    /// Text in braces, whose case is kept.
    Verbatim(Text),
    /// Text between dollar signs.
    Math(Text),
}

/// The chunks of a value, each with its span.
pub type Chunks = Items<Spanned<Chunk>>;

/// Borrowed chunks.
pub type ChunksRef<'a> = &'a [Spanned<Chunk>];

impl Chunk {
    /// Returns the text of the chunk.
    pub fn get(&self) -> &str
        ensures { result.now ≡ text_of self.now }
    {
        match self {
            Chunk::Normal(text) | Chunk::Verbatim(text) | Chunk::Math(text) => text.as_str(),
        }
    }

    /// Returns the text of the chunk as a mutable reference.
    pub fn get_mut(&mut self) -> &mut Text
        ensures* writes_back { sem 𝓛 (LendsText self.entry result) }
        ensures value { result.now ≡ text_of self.old }
    {
        match self {
            Chunk::Normal(text) => text,
            Chunk::Verbatim(text) => text,
            Chunk::Math(text) => text,
        }
    }

    /// Returns the text of the chunk as it is written in a file, without braces and dollar signs around it. `is_verbatim` says
    /// whether the field is a verbatim one.
    ///
    /// Outside verbatim fields, math is written unchanged. In any other text, braces and backslashes are escaped by a backslash.
    /// Outside verbatim fields, so are `#`, `&`, `%`, `$` and `_`; `~` is written `\textasciitilde{}` and `^` is written
    /// `\textasciicircum{}`. A command that the parser doesn't know is plain text: `\emph{x}` is written `\\emph\{x\}`. The edits
    /// of `bibkit` and its `convert --to biblatex` keep such commands.
    ///
    /// The only error is out of memory.
    pub fn to_biblatex_string(&self, alloc: Global, is_verbatim: bool) -> Result<String, AllocError>
        ensures { IfOk result (λ text. string_bytes text ≡
            encode_utf8_all (written_chunk self.now is_verbatim)) }
    {
        writing::chunk_text(alloc, self, is_verbatim)
    }
}

impl Clone for Chunk {
    ghost is_clone = { λ c copy. copy ≡ c };

    fn clone(&self) -> Result<Self, AllocError> {
        match self {
            Chunk::Normal(text) => Ok(Chunk::Normal(text.clone()?)),
            Chunk::Verbatim(text) => Ok(Chunk::Verbatim(text.clone()?)),
            Chunk::Math(text) => Ok(Chunk::Math(text.clone()?)),
        }
    }
}

/// Returns the span from the start of the first chunk to the end of the last one, in bytes; `0..0` if there are no
/// chunks.
pub fn whole_span(chunks: ChunksRef<'_>) -> Span
    ensures { result ≡ whole_span chunks.now }
{
    let Some(first) = chunks.first() else {
        return 0..0;
    };
    let Some(last) = chunks.last() else {
        return 0..0;
    };
    first.span.start..last.span.end
}
