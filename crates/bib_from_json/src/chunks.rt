//! Parses the chunks of a field.

ghost use Rattle.std.specs.Prelude.{◌≡◌, IfOk, map, ok_or};
ghost use Rattle.json.specs.Value.{value_view};
ghost use Rattle.bib_from_json.specs.GivenChunks as spec;
ghost use Rattle.bib_from_json.specs.declared.reading.Fault.TheVariants.{WrongKind};

use crate::reading::Fault;
use bib_chunks::chunk::{Chunk, Chunks, Spanned};
use bib_from_csl::objects::{elements, one_if, size, string_under};
use bib_text::items::Items;
use bib_text::text::Text;
use json::Value;
use std::alloc::{AllocError, Global};

// Returns 1 if an object has a member with this name, and otherwise 0.
pub(crate) fn one_under(value: &Value<'_>, name: &str) -> usize
    ensures { result ≡ spec.one_under name.now (value_view value.now) }
{
    one_if(value.get(name).is_some())
}

// Returns whether an object with the members `kind` and `text` has no others, except `start` and `end`. Each may occur only once.
fn has_chunk_members(value: &Value<'_>) -> bool
    ensures { result ≡ spec.has_chunk_members (value_view value.now) }
{
    size(value) == 2 + (one_under(value, "start") + one_under(value, "end"))
}

// Returns the chunk of a kind, or the fault `WrongKind`.
fn chunk_of_kind(alloc: Global, kind: &str, text: &str) -> Result<Result<Chunk, Fault>, AllocError>
    ensures { IfOk result (λ chunk. chunk ≡ ok_or (spec.chunk_of_kind kind.now text.now) WrongKind) }
{
    match kind {
        "normal" => Ok(Ok(Chunk::Normal(Text::from_str(alloc, text)?))),
        "verbatim" => Ok(Ok(Chunk::Verbatim(Text::from_str(alloc, text)?))),
        "math" => Ok(Ok(Chunk::Math(Text::from_str(alloc, text)?))),
        _ => Ok(Err(Fault::WrongKind)),
    }
}

// Returns the chunk of a JSON value, or the fault.
fn chunk_in(alloc: Global, value: &Value<'_>) -> Result<Result<Chunk, Fault>, AllocError>
    ensures { IfOk result (λ chunk. chunk ≡ spec.chunk_in (value_view value.now)) }
{
    let Some(kind) = string_under(value, "kind") else {
        return Ok(Err(Fault::NotAChunk));
    };
    let Some(text) = string_under(value, "text") else {
        return Ok(Err(Fault::NotAChunk));
    };
    if !has_chunk_members(value) {
        return Ok(Err(Fault::ChunkMember));
    }
    chunk_of_kind(alloc, kind, text)
}

// Returns the chunks of JSON values, or the first fault.
fn chunks_from(alloc: Global, values: &[Value<'_>]) -> Result<Result<Chunks, Fault>, AllocError>
    ensures { IfOk result (λ chunks. chunks ≡ spec.chunks_from (map value_view values.now)) }
{
    let mut chunks = Items::new(alloc);
    'chunks: for value in values {
        match chunk_in(alloc, value)? {
            Ok(chunk) => chunks.push(Spanned::detached(chunk))?,
            Err(fault) => return Ok(Err(fault)),
        }
    }
    Ok(Ok(chunks))
}

// Returns whether an object with the member `chunks` has no others, except `value`. Each may occur only once.
fn has_field_members(value: &Value<'_>) -> bool
    ensures { result ≡ spec.has_field_members (value_view value.now) }
{
    size(value) == 1 + one_under(value, "value")
}

/// Returns the chunks of a field, or the fault. The member `value` is ignored.
pub(crate) fn field_chunks(
    alloc: Global,
    value: &Value<'_>,
) -> Result<Result<Chunks, Fault>, AllocError>
    ensures { IfOk result (λ chunks. chunks ≡ spec.field_chunks (value_view value.now)) }
{
    let Some(member) = value.get("chunks") else {
        return Ok(Err(Fault::NoChunks));
    };
    let Some(values) = elements(member) else {
        return Ok(Err(Fault::NoChunks));
    };
    if !has_field_members(value) {
        return Ok(Err(Fault::FieldMember));
    }
    chunks_from(alloc, values)
}
