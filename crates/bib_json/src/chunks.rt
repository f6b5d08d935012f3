//! Chunks of a field as JSON.

ghost use Rattle.std.specs.Prelude.{◌≡◌, IfOk};
ghost use Rattle.std.specs.Option.{option_map};
ghost use Rattle.serde_json.specs.View.{view};
ghost use Rattle.bib_json.specs.Chunks as spec;

use crate::members::{put_given, put_text};
use bib_chunks::chunk::{Chunk, ChunksRef, Spanned};
use serde_json::{Map, Value};
use std::alloc::{AllocError, Global};

// Returns the kind of a chunk.
fn kind_name(chunk: &Chunk) -> &'static str
    ensures { result.now ≡ spec.kind_name chunk.now }
{
    match chunk {
        Chunk::Normal(_) => "normal",
        Chunk::Verbatim(_) => "verbatim",
        Chunk::Math(_) => "math",
    }
}

// Returns a byte offset in the source, or `None` for a chunk that isn't in it. `start` is the start of the chunk.
fn byte_unless_nowhere(start: usize, byte: usize) -> Option<Value>
    ensures { option_map view result ≡ spec.byte_unless_nowhere start byte }
{
    if start == usize::MAX {
        return None;
    }
    Some(Value::from(byte))
}

// Returns a chunk: its kind, its text, and its byte offsets in the source, if it is in it.
fn chunk_value(alloc: Global, chunk: &Spanned<Chunk>) -> Result<Value, AllocError>
    ensures { IfOk result (λ value. view value ≡ spec.chunk_json chunk.now) }
{
    let start = chunk.span.start;
    let mut members = Map::new(alloc);
    put_text(&mut members, alloc, "kind", kind_name(&chunk.v))?;
    put_text(&mut members, alloc, "text", chunk.v.get())?;
    put_given(
        &mut members,
        alloc,
        "start",
        byte_unless_nowhere(start, start),
    )?;
    put_given(
        &mut members,
        alloc,
        "end",
        byte_unless_nowhere(start, chunk.span.end),
    )?;
    Ok(Value::from(members))
}

/// Returns the JSON array of the chunks of a field.
pub(crate) fn chunks_value(alloc: Global, chunks: ChunksRef<'_>) -> Result<Value, AllocError>
    ensures { IfOk result (λ value. view value ≡ spec.chunks_json chunks.now) }
{
    let mut elements = Vec::new(alloc);
    'chunks: for chunk in chunks {
        let element = chunk_value(alloc, chunk)?;
        elements.push(element)?;
    }
    Ok(Value::from(elements))
}
