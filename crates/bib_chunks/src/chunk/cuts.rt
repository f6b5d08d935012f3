//! Splits lists in the value of a field, and cuts a value at a character.

ghost use Rattle.std.specs.Prelude.{◌≡◌, ◌∷◌, [], ◌++◌, ◌≤◌, length, false, OnOk, IfOk, MatchOption};
ghost use Rattle.std.specs.Str.{chars};
ghost use Rattle.bib_chunks.specs.Cuts.{with_span, trimmed_start, trimmed_end, chunk_part, piece, pieces, pieces_between, list_parts, comma_list, halves, cut_at, begins_with_space, between_ands, trimmed_chunk, trimmed_ends, and_list};
ghost use Rattle.bib_chunks.specs.Cutting.{between_cuts, width, ReadsPieces, IsFirstCut, NoAnd, IsAnd, IsFirstAnd};

use super::{Chunk, Chunks, ChunksRef, Span, Spanned};
use bib_text::items::Items;
use bib_text::text::Text;
use std::alloc::{AllocError, Global};
use std::mem;

// The separator of a list.
#[derive(Clone, Copy)]
enum Separator {
    Comma,
    // The word `and` with white space before and after it.
    And,
}

// The finished parts of a list, and the current one.
#[derive(Drop)]
struct Parts {
    done: Items<Chunks>,
    last: Chunks,
}

impl Parts {
    // Returns `Parts` with no finished part and an empty current one.
    fn new(alloc: Global) -> Self
        ensures { result ≡ record { done = []; last = [] } }
    {
        Parts {
            done: Items::new(alloc),
            last: Items::new(alloc),
        }
    }

    // Appends a chunk to the current part.
    fn add(&mut self, chunk: Spanned<Chunk>) -> Result<(), AllocError>
        ensures { OnOk result (self.new ≡
            record { done = self.old.done; last = self.old.last ++ chunk ∷ [] }) }
    {
        self.last.push(chunk)?;
        Ok(())
    }

    // Finishes the current part and begins an empty one.
    fn end(&mut self, alloc: Global) -> Result<(), AllocError>
        ensures { OnOk result (self.new ≡
            record { done = self.old.done ++ self.old.last ∷ []; last = [] }) }
    {
        let part = mem::replace(&mut self.last, Items::new(alloc));
        self.done.push(part)?;
        Ok(())
    }
}

// Returns a copy of a chunk with its span.
fn copy(chunk: &Spanned<Chunk>) -> Result<Spanned<Chunk>, AllocError>
    ensures { IfOk result (λ c. c ≡ chunk.now) }
{
    let v = chunk.v.clone()?;
    Ok(Spanned {
        v,
        span: chunk.span.start..chunk.span.end,
    })
}

// Returns a normal chunk with this text and span.
fn normal(alloc: Global, text: &str, start: usize, end: usize) -> Result<Spanned<Chunk>, AllocError>
    ensures { IfOk result (λ c. c ≡ with_span (Chunk.Normal text.now) start end) }
{
    let text = Text::from_str(alloc, text)?;
    Ok(Spanned {
        v: Chunk::Normal(text),
        span: start..end,
    })
}

// Returns the text, without the white space at its start if `first` is true, which means that the text follows a separator or
// begins the list.
fn trimmed_start(text: &str, first: bool) -> &str
    ensures value { result.now ≡ trimmed_start first text.now }
    ensures shorter { length result.now ≤ length text.now }
{
    if first {
        return text.trim_start();
    }
    text
}

// Returns the text, without the white space at its end if `last` is true, which means that a separator follows the text, or
// that it ends the list.
fn trimmed_end(text: &str, last: bool) -> &str
    ensures { result.now ≡ trimmed_end last text.now }
{
    if last {
        return text.trim_end();
    }
    text
}

// Returns a part of a normal chunk as a chunk. `whole` and `span` are the text and the span of the normal chunk, `at`
// is the number of bytes of `whole` before the part. A part that is the whole text keeps the span.
fn chunk_part(
    alloc: Global,
    whole: &str,
    span: &Span,
    at: usize,
    text: &str,
) -> Result<Spanned<Chunk>, AllocError>
    ensures { IfOk result (λ c. c ≡ chunk_part whole.now span.now at text.now) }
{
    if text.len() == whole.len() {
        return normal(alloc, text, span.start, span.end);
    }
    let start = span.start.saturating_add(at);
    normal(alloc, text, start, start.saturating_add(text.len()))
}

// The same as `chunk_part`, without the white space at the part's start if `first`, and at its end if `last`.
fn piece(
    alloc: Global,
    whole: &str,
    span: &Span,
    at: usize,
    text: &str,
    first: bool,
    last: bool,
) -> Result<Spanned<Chunk>, AllocError>
    ensures { IfOk result (λ c. c ≡ piece whole.now span.now at first last text.now) }
{
    let begun = trimmed_start(text, first);
    let at = at.saturating_add(text.len() - begun.len());
    chunk_part(alloc, whole, span, at, trimmed_end(begun, last))
}

// Returns whether the text begins with white space.
fn begins_with_space(text: &str) -> bool
    ensures { result ≡ begins_with_space (chars text.now) }
{
    let Some(c) = text.chars().next() else {
        return false;
    };
    c.is_whitespace()
}

// Returns the text after the word `and` at the start of a text, if white space follows the word.
fn after_and(text: &str) -> Option<&str>
    ensures { MatchOption result (NoAnd text.now) (λ following. IsAnd text.now following.now) }
{
    let following = text.strip_prefix("and")?;
    if !begins_with_space(following) {
        return None;
    }
    Some(following)
}

// Returns the texts before and after the first word `and` that has white space right before and after it in the text.
fn first_and(text: &str) -> Option<(&str, &str)>
    ensures { MatchOption result (between_ands false (chars text.now) ≡ chars text.now ∷ [])
        (λ both. IsFirstAnd text.now both.0.now both.1.now) }
{
    let mut at = 0usize;
    let mut space = false;
    'text: while at < text.len() {
        let rest = &text[at..];
        if space {
            if let Some(following) = after_and(rest) {
                return Some((&text[..at], following));
            }
        }
        let Some(c) = rest.chars().next() else {
            return None;
        };
        at += c.len_utf8();
        space = c.is_whitespace();
    }
    None
}

// Returns the texts before and after the first separator of a text.
fn first_cut(text: &str, separator: Separator) -> Option<(&str, &str)>
    ensures { MatchOption result (between_cuts separator (chars text.now) ≡ chars text.now ∷ [])
        (λ both. IsFirstCut separator text.now both.0.now both.1.now) }
{
    match separator {
        Separator::Comma => text.split_once(','),
        Separator::And => first_and(text),
    }
}

// Cuts a normal chunk at its separators and adds the pieces to `parts`.
fn cut_text(
    alloc: Global,
    parts: &mut Parts,
    whole: &str,
    span: &Span,
    separator: Separator,
) -> Result<(), AllocError>
    ensures { OnOk result (ReadsPieces parts.old parts.new (pieces_between (width separator) whole.now
        span.now 0 false (between_cuts separator (chars whole.now)))) }
{
    let mut rest = whole;
    let mut following = false;
    'pieces: while let Some((before, after)) = first_cut(rest, separator) {
        let at = whole.len() - rest.len();
        parts.add(piece(alloc, whole, span, at, before, following, true)?)?;
        parts.end(alloc)?;
        rest = after;
        following = true;
    }
    let at = whole.len() - rest.len();
    parts.add(piece(alloc, whole, span, at, rest, following, false)?)?;
    Ok(())
}

// Adds the pieces of a chunk to `parts`. Only a normal chunk is cut.
fn cut_chunk(
    alloc: Global,
    parts: &mut Parts,
    chunk: &Spanned<Chunk>,
    separator: Separator,
) -> Result<(), AllocError>
    ensures { OnOk result (ReadsPieces parts.old parts.new
        (pieces (width separator) (between_cuts separator) chunk.now.v chunk.now.span)) }
{
    if let Chunk::Normal(list) = &chunk.v {
        return cut_text(alloc, parts, list.as_str(), &chunk.span, separator);
    }
    parts.add(copy(chunk)?)
}

// Splits a list at each occurrence of `separator` in a normal chunk.
fn list_parts(
    alloc: Global,
    chunks: ChunksRef<'_>,
    separator: Separator,
) -> Result<Items<Chunks>, AllocError>
    ensures { IfOk result (λ parts. parts ≡
        list_parts (width separator) (between_cuts separator) chunks.now) }
{
    let mut parts = Parts::new(alloc);
    'chunks: for chunk in chunks {
        cut_chunk(alloc, &mut parts, chunk, separator)?;
    }
    parts.end(alloc)?;
    Ok(parts.done)
}

/// Splits a comma list into its parts, at each comma of a normal chunk. The white space next to such a comma in that
/// chunk is removed. If `chunks` is empty, the result is one empty part.
///
/// A piece of a chunk has the span of its text, counted in bytes from the start of the chunk, up to `usize::MAX`. A piece
/// that is the whole chunk keeps the span of the chunk. The only error is out of memory.
pub fn comma_list(alloc: Global, chunks: ChunksRef<'_>) -> Result<Items<Chunks>, AllocError>
    ensures { IfOk result (λ parts. parts ≡ comma_list chunks.now) }
{
    list_parts(alloc, chunks, Separator::Comma)
}

// Returns a copy of a chunk. If it is normal, the white space at its start is removed if `first`, and at its end if
// `last`.
fn trimmed_chunk(
    alloc: Global,
    chunk: &Spanned<Chunk>,
    first: bool,
    last: bool,
) -> Result<Spanned<Chunk>, AllocError>
    ensures { IfOk result (λ c. c ≡ trimmed_chunk first last chunk.now.v chunk.now.span) }
{
    if let Chunk::Normal(text) = &chunk.v {
        let text = text.as_str();
        return piece(alloc, text, &chunk.span, 0, text, first, last);
    }
    copy(chunk)
}

// Returns a copy of the chunks. White space is removed at the start of the first one and at the end of the last one, if
// they are normal.
fn trimmed_ends(alloc: Global, chunks: ChunksRef<'_>) -> Result<Chunks, AllocError>
    ensures { IfOk result (λ all. all ≡ trimmed_ends chunks.now) }
{
    let mut all = Items::new(alloc);
    let mut first = true;
    'chunks: for (i, chunk) in chunks.iter().enumerate() {
        let last = chunks.len() - i == 1;
        all.push(trimmed_chunk(alloc, chunk, first, last)?)?;
        first = false;
    }
    Ok(all)
}

/// Splits an `and` list into its parts. First removes white space at the start of the first chunk and at the end of the last
/// one, if they are normal. Then splits at each word `and` that has white space right before and after it inside one normal
/// chunk. Removes the white space next to such a word in that chunk. If `chunks` is empty, the result is one empty part.
///
/// A piece of a chunk has the span of its text, counted in bytes from the start of the chunk, up to `usize::MAX`. A piece
/// that is the whole chunk keeps the span of the chunk. The only error is out of memory.
pub fn and_list(alloc: Global, chunks: ChunksRef<'_>) -> Result<Items<Chunks>, AllocError>
    ensures { IfOk result (λ parts. parts ≡ and_list chunks.now) }
{
    let whole = trimmed_ends(alloc, chunks)?;
    list_parts(alloc, whole.as_slice(), Separator::And)
}

// Cuts a normal chunk at the first `separator`, and removes the white space next to it. Returns `None` if the chunk
// isn't normal or doesn't contain the character.
fn halves(
    alloc: Global,
    chunk: &Spanned<Chunk>,
    separator: char,
) -> Result<Option<(Spanned<Chunk>, Spanned<Chunk>)>, AllocError>
    ensures { IfOk result (λ both. both ≡ halves chunk.now.v chunk.now.span separator) }
{
    let Chunk::Normal(text) = &chunk.v else {
        return Ok(None);
    };
    let whole = text.as_str();
    let Some((before, following)) = whole.split_once(separator) else {
        return Ok(None);
    };
    let first = piece(alloc, whole, &chunk.span, 0, before, false, true)?;
    let at = whole.len() - following.len();
    let second = piece(alloc, whole, &chunk.span, at, following, true, false)?;
    Ok(Some((first, second)))
}

/// Appends copies of `chunks` with their spans. The only error is out of memory. Some of the first copies may then be
/// appended.
pub fn append(all: &mut Chunks, chunks: ChunksRef<'_>) -> Result<(), AllocError>
    ensures { OnOk result (all.new ≡ all.old ++ chunks.now) }
{
    'chunks: for chunk in chunks {
        all.push(copy(chunk)?)?;
    }
    Ok(())
}

// Returns the chunks after a cut: the second half of the cut chunk, and copies of the chunks after it.
fn after_cut(
    alloc: Global,
    second: Spanned<Chunk>,
    rest: ChunksRef<'_>,
) -> Result<Chunks, AllocError>
    ensures { IfOk result (λ chunks. chunks ≡ second ∷ rest.now) }
{
    let mut chunks = Items::new(alloc);
    chunks.push(second)?;
    append(&mut chunks, rest)?;
    Ok(chunks)
}

/// Cuts the chunks at the first `separator` in a normal chunk, and returns the chunks before and after it. Returns
/// `None` if no normal chunk contains the character.
///
/// The white space next to the separator in that chunk is removed. Both pieces of that chunk have the span of their text,
/// counted in bytes from the start of the chunk, up to `usize::MAX`. The only error is out of memory.
pub fn cut_at(
    alloc: Global,
    chunks: ChunksRef<'_>,
    separator: char,
) -> Result<Option<(Chunks, Chunks)>, AllocError>
    ensures { IfOk result (λ cut. cut ≡ cut_at chunks.now separator) }
{
    let mut before = Items::new(alloc);
    'chunks: for (i, chunk) in chunks.iter().enumerate() {
        if let Some((first, second)) = halves(alloc, chunk, separator)? {
            before.push(first)?;
            let following = after_cut(alloc, second, &chunks[i + 1..])?;
            return Ok(Some((before, following)));
        }
        before.push(copy(chunk)?)?;
    }
    Ok(None)
}
