//! Makes values of one chunk, appends chunks and copies values.

ghost use Rattle.std.specs.Prelude.{◌≡◌, ◌∷◌, [], ◌++◌, IfOk, OnOk};
ghost use Rattle.bib_chunks.specs.declared.chunk.Chunk.TheVariants.{Normal as ANormal, Verbatim as AVerbatim};
ghost use Rattle.bib_chunks.specs.Values.{alone, nowhere};

use crate::chunk::cuts::append;
use crate::chunk::{Chunk, Chunks, ChunksRef, Spanned};
use bib_text::items::Items;
use bib_text::text::Text;
use std::alloc::{AllocError, Global};

// Returns one chunk with a detached span: both its ends are `usize::MAX`.
fn alone(alloc: Global, chunk: Chunk) -> Result<Chunks, AllocError>
    ensures { IfOk result (λ chunks. chunks ≡ alone chunk) }
{
    let mut chunks = Items::new(alloc);
    chunks.push(Spanned::detached(chunk))?;
    Ok(chunks)
}

/// Returns `text` as one normal chunk with a detached span: both its ends are `usize::MAX`. The only error is out of
/// memory.
pub fn normal(alloc: Global, text: &str) -> Result<Chunks, AllocError>
    ensures { IfOk result (λ chunks. chunks ≡ alone (ANormal text.now)) }
{
    alone(alloc, Chunk::Normal(Text::from_str(alloc, text)?))
}

/// Returns `text` as one verbatim chunk with a detached span: both its ends are `usize::MAX`. The only error is out of
/// memory.
pub fn verbatim(alloc: Global, text: &str) -> Result<Chunks, AllocError>
    ensures { IfOk result (λ chunks. chunks ≡ alone (AVerbatim text.now)) }
{
    alone(alloc, Chunk::Verbatim(Text::from_str(alloc, text)?))
}

/// Appends `text` as a normal chunk with a detached span: both its ends are `usize::MAX`. The only error is out of
/// memory.
pub fn push_normal(chunks: &mut Chunks, text: Text) -> Result<(), AllocError>
    ensures { OnOk result (chunks.new ≡ chunks.old ++ nowhere (ANormal text) ∷ []) }
{
    chunks.push(Spanned::detached(Chunk::Normal(text)))?;
    Ok(())
}

/// Appends `text` as a verbatim chunk with a detached span: both its ends are `usize::MAX`. The only error is out of
/// memory.
pub fn push_verbatim(chunks: &mut Chunks, text: Text) -> Result<(), AllocError>
    ensures { OnOk result (chunks.new ≡ chunks.old ++ nowhere (AVerbatim text) ∷ []) }
{
    chunks.push(Spanned::detached(Chunk::Verbatim(text)))?;
    Ok(())
}

/// Returns a copy of `chunks` with their spans. The only error is out of memory.
pub fn copy_of(alloc: Global, chunks: ChunksRef<'_>) -> Result<Chunks, AllocError>
    ensures { IfOk result (λ copy. copy ≡ chunks.now) }
{
    let mut all = Items::new(alloc);
    append(&mut all, chunks)?;
    Ok(all)
}
