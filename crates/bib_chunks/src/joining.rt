//! Appends chunks and merges neighbours that are both normal or both verbatim.

ghost use Rattle.std.specs.Prelude.{◌≡◌, ℕ, ◌≤◌, ◌++◌, OnOk, IfOk};
ghost use Rattle.std.specs.Str.{chars};
ghost use Rattle.bib_chunks.specs.Styled.{atoms_of, styled};
ghost use Rattle.bib_chunks.specs.Joined.{AreJoined, ArePlaced, AreNeighbours};

use crate::chunk::{Chunk, Chunks, Spanned};
use bib_text::text::Text;
use std::alloc::AllocError;

/// Appends `chunk` to `out`. If it and the last chunk are both normal or both verbatim, they are merged into one chunk.
///
/// The only error is out of memory. The last chunk of `out` may then be lost.
pub fn append(out: &mut Chunks, chunk: Spanned<Chunk>) -> Result<(), AllocError>
    ensures styled { OnOk result (styled out.new ≡ styled out.old ++ atoms_of chunk.v) }
    ensures joined { OnOk result (AreJoined out.old → AreJoined out.new) }
    ensures placed { OnOk result ((low high : ℕ) → ArePlaced low high out.old →
        high ≤ chunk.span.start → chunk.span.start ≤ chunk.span.end →
        ArePlaced low chunk.span.end out.new) }
{
    let Some(last) = out.pop() else {
        out.push(chunk)?;
        return Ok(());
    };
    let (first, second) = join(last, chunk)?;
    out.push(first)?;
    let Some(second) = second else {
        return Ok(());
    };
    out.push(second)?;
    Ok(())
}

// Merges two neighbouring chunks if both are normal or both are verbatim. Returns both of them otherwise.
fn join(
    first: Spanned<Chunk>,
    second: Spanned<Chunk>,
) -> Result<(Spanned<Chunk>, Option<Spanned<Chunk>>), AllocError>
    ensures { IfOk result (AreNeighbours first second) }
{
    let Spanned { v: a, span: s } = first;
    let Spanned { v: b, span: t } = second;
    match (a, b) {
        (Chunk::Normal(text), Chunk::Normal(more)) => {
            let v = Chunk::Normal(longer(text, more.as_str())?);
            Ok((Spanned::new(v, s.start..t.end), None))
        }
        (Chunk::Verbatim(text), Chunk::Verbatim(more)) => {
            let v = Chunk::Verbatim(longer(text, more.as_str())?);
            Ok((Spanned::new(v, s.start..t.end), None))
        }
        (a, b) => Ok((Spanned::new(a, s), Some(Spanned::new(b, t)))),
    }
}

// Returns `text` with `more` appended.
fn longer(text: Text, more: &str) -> Result<Text, AllocError>
    ensures { IfOk result (λ whole. chars whole ≡ chars text ++ chars more.now) }
{
    let mut whole = text;
    let _text = whole.as_str();
    whole.push_str(more)?;
    Ok(whole)
}

/// Appends copies of `chunks` one after another, as `append` does.
///
/// The only error is out of memory. Some of the first copies may then be appended, and the last chunk of `out` may be lost.
pub fn append_copies(out: &mut Chunks, chunks: &[Spanned<Chunk>]) -> Result<(), AllocError>
    ensures styled { OnOk result (styled out.new ≡ styled out.old ++ styled chunks.now) }
    ensures joined { OnOk result (AreJoined out.old → AreJoined out.new) }
{
    'copies: for chunk in chunks {
        append_copy(out, chunk)?;
    }
    Ok(())
}

// Appends a copy of a chunk, as `append` does.
fn append_copy(out: &mut Chunks, chunk: &Spanned<Chunk>) -> Result<(), AllocError>
    ensures styled { OnOk result (styled out.new ≡ styled out.old ++ atoms_of chunk.now.v) }
    ensures joined { OnOk result (AreJoined out.old → AreJoined out.new) }
{
    let v = chunk.v.clone()?;
    append(out, Spanned::new(v, chunk.span.start..chunk.span.end))
}
