//! The chunk that isn't finished while contents are parsed.

ghost use Rattle.std.specs.Prelude.{◌≡◌, ◌∷◌, [], ◌++◌, ◌+◌, ◌≤◌, ℕ, map, OnOk, string_bytes};
ghost use Rattle.std.specs.Str.{chars};
ghost use Rattle.bib_chunks.specs.Styled.{Atom, atoms_of, styled};
ghost use Rattle.bib_contents.specs.Contents.{character};
ghost use Rattle.bib_chunks.specs.Joined.{AreJoined, ArePlaced};
ghost use Rattle.bib_contents.specs.Progress.{so_far};

use bib_chunks::chunk::{Chunk, Chunks, Span, Spanned};
use bib_chunks::joining::append;
use bib_text::text::Text;
use std::alloc::AllocError;

// A chunk that isn't finished: its text, the number of braces open around it, and its start in bytes of the file.
#[derive(Drop)]
pub(crate) struct OpenChunk {
    pub(crate) text: String,
    pub(crate) depth: usize,
    pub(crate) start: usize,
    // Whether it is the first chunk of the piece.
    pub(crate) is_first: bool,
}

// Returns the chunk with this text: a normal one if no brace is open, otherwise a verbatim one.
fn chunk_of(depth: usize, text: String) -> Chunk
    ensures { atoms_of result ≡ map (character depth) (chars (string_bytes text)) }
{
    if depth == 0 {
        return Chunk::Normal(Text::from_string(text));
    }
    Chunk::Verbatim(Text::from_string(text))
}

// Shrinks the text if more than 15 bytes are unused. Up to 15 unused bytes are kept, since most allocators don't reuse so few.
fn shrink(mut text: String) -> String
    ensures { string_bytes result ≡ string_bytes text }
{
    if text.capacity() > text.len() + 15 {
        text.shrink_to_fit();
    }
    text
}

// Finishes the chunk at `end`, and begins one at `following` with `depth` braces open.
pub(crate) fn finish_chunk(
    out: &mut Chunks,
    growing: &mut OpenChunk,
    end: usize,
    depth: usize,
    following: usize,
) -> Result<(), AllocError>
    ensures atoms { OnOk result (styled out.new ≡ so_far out.old growing.old) }
    ensures begun { OnOk result ((string_bytes growing.new.text ≡ []) ×
        (growing.new.depth ≡ depth) × (growing.new.start ≡ following)) }
    ensures joined { OnOk result (AreJoined out.old → AreJoined out.new) }
    ensures placed { OnOk result ((low : ℕ) → ArePlaced low growing.old.start out.old →
        growing.old.start ≤ end → ArePlaced low end out.new) }
{
    let empty = String::new(*growing.text.allocator());
    let text = shrink(std::mem::replace(&mut growing.text, empty));
    append(
        out,
        Spanned::new(chunk_of(growing.depth, text), growing.start..end),
    )?;
    growing.depth = depth;
    growing.start = following;
    growing.is_first = false;
    Ok(())
}

// Finishes the chunk before math, appends the math with the span `span`, and begins a chunk at `following`.
pub(crate) fn finish_before_math(
    out: &mut Chunks,
    growing: &mut OpenChunk,
    text: &str,
    end: usize,
    span: Span,
    following: usize,
) -> Result<(), AllocError>
    ensures atoms { OnOk result (styled out.new ≡
        so_far out.old growing.old ++ Atom.math (chars text.now) ∷ []) }
    ensures begun { OnOk result ((string_bytes growing.new.text ≡ []) ×
        (growing.new.depth ≡ growing.old.depth) × (growing.new.start ≡ following)) }
    ensures joined { OnOk result (AreJoined out.old → AreJoined out.new) }
    ensures placed { OnOk result ((low : ℕ) → ArePlaced low growing.old.start out.old →
        growing.old.start ≤ end → end ≤ span.start → span.start ≤ span.end →
        ArePlaced low span.end out.new) }
{
    let alloc = *growing.text.allocator();
    let depth = growing.depth;
    finish_chunk(out, growing, end, depth, following)?;
    let math = Chunk::Math(Text::from_str(alloc, text)?);
    append(out, Spanned::new(math, span))?;
    Ok(())
}

// Finishes the last chunk at the end of a piece. An empty one is dropped, unless it is the only one.
pub(crate) fn finish(out: &mut Chunks, mut growing: OpenChunk, end: usize) -> Result<(), AllocError>
    ensures atoms { OnOk result (styled out.new ≡ so_far out.old growing) }
    ensures joined { OnOk result (AreJoined out.old → AreJoined out.new) }
    ensures placed { OnOk result ((low : ℕ) → ArePlaced low growing.start out.old →
        growing.start ≤ end → ArePlaced low end out.new) }
{
    if growing.text.as_str().is_empty() && !growing.is_first {
        return Ok(());
    }
    finish_chunk(out, &mut growing, end, 0, end)?;
    Ok(())
}
