//! Splits a comma list in its styled text.

ghost use Rattle.std.specs.Prelude.{◌≡◌, ◌∷◌, ◌++◌, [], OnOk, IfOk};
ghost use Rattle.bib_chunks.specs.Styled.{styled, is_same_kind};
ghost use Rattle.bib_chunks.specs.Lists.{lengthened_chunk, at_start, chunks_of, comma_texts};
ghost use Rattle.bib_chunks.specs.Joining.{with_chunk};

use crate::chunk::cuts::comma_list;
use crate::chunk::{Chunk, Chunks, ChunksRef, Spanned, format_styled, is_shown};
use bib_text::items::Items;
use bib_text::text::Text;
use std::alloc::{AllocError, Global};

// Appends the text of `chunk` to `last` if both are normal or both are verbatim. Returns whether they are.
fn lengthen(last: &mut Chunk, chunk: &Chunk) -> Result<bool, AllocError>
    ensures joined { IfOk result (λ joined. joined ≡ is_same_kind last.old chunk.now) }
    ensures text { OnOk result (last.new ≡ lengthened_chunk last.old chunk.now) }
{
    match (last, chunk) {
        (Chunk::Normal(text), Chunk::Normal(more)) => {
            text.push_str(more.as_str())?;
            Ok(true)
        }
        (Chunk::Verbatim(text), Chunk::Verbatim(more)) => {
            text.push_str(more.as_str())?;
            Ok(true)
        }
        _ => Ok(false),
    }
}

// Appends a copy of a chunk with the span `0..0`.
fn push_copy(chunks: &mut Chunks, chunk: &Chunk) -> Result<(), AllocError>
    ensures { OnOk result (chunks.new ≡ chunks.old ++ at_start chunk.now ∷ []) }
{
    let copy = chunk.clone()?;
    chunks.push(Spanned::zero(copy))?;
    Ok(())
}

// Appends a copy of a chunk with the span `0..0`, or merges it with the last chunk if both are normal or both verbatim.
fn add(chunks: &mut Chunks, chunk: &Chunk) -> Result<(), AllocError>
    ensures { OnOk result (chunks.new ≡ with_chunk chunks.old (at_start chunk.now)) }
{
    let Some(mut last) = chunks.pop() else {
        return push_copy(chunks, chunk);
    };
    let joined = lengthen(&mut last.v, chunk)?;
    chunks.push(last)?;
    if joined {
        return Ok(());
    }
    push_copy(chunks, chunk)
}

// Returns the chunks without empty normal and verbatim ones. Neighbours that are both normal or both verbatim are merged.
// Each chunk has the span `0..0`.
fn merge_neighbours(alloc: Global, chunks: ChunksRef<'_>) -> Result<Chunks, AllocError>
    ensures { IfOk result (λ all. all ≡ chunks_of (styled chunks.now)) }
{
    let mut all = Items::new(alloc);
    'chunks: for chunk in chunks {
        if is_shown(&chunk.v) {
            add(&mut all, &chunk.v)?;
        }
    }
    Ok(all)
}

/// Splits a comma list and returns its parts, each formatted by `format_styled`.
///
/// The list is cut in its styled text. So empty normal and verbatim chunks are ignored, and neighbours that are both normal
/// or both verbatim count as one chunk. The only error is out of memory.
pub fn comma_texts(alloc: Global, chunks: ChunksRef<'_>) -> Result<Vec<Text>, AllocError>
    ensures { IfOk result (λ texts. texts.items ≡ comma_texts (styled chunks.now)) }
{
    let joined = merge_neighbours(alloc, chunks)?;
    let parts = comma_list(alloc, joined.as_slice())?;
    let mut texts = Vec::new(alloc);
    'parts: for part in parts.as_slice() {
        let text = format_styled(alloc, part.as_slice())?;
        texts.push(Text::from_string(text))?;
    }
    Ok(texts)
}
