//! Fields as JSON.

ghost use Rattle.std.specs.Prelude.{◌≡◌, IfOk};
ghost use Rattle.serde_json.specs.View.{view};
ghost use Rattle.bib_json.specs.Fields.{field_json, fields_json};

use crate::chunks::chunks_value;
use crate::members::put_given;
use crate::values::field_value;
use bib_chunks::chunk::{Chunks, ChunksRef};
use bib_collections::text_map::TextMap;
use serde_json::{Map, Value};
use std::alloc::{AllocError, Global};

// Returns the object of a field: its chunks and its parsed value, if it has one.
fn field_object(alloc: Global, name: &str, chunks: ChunksRef<'_>) -> Result<Value, AllocError>
    ensures { IfOk result (λ value. view value ≡ field_json name.now chunks.now) }
{
    let value = field_value(alloc, name, chunks)?;
    let chunks = chunks_value(alloc, chunks)?;
    let mut members = Map::new(alloc);
    serde_json::put(&mut members, alloc, "chunks", chunks)?;
    put_given(&mut members, alloc, "value", value)?;
    Ok(Value::from(members))
}

/// Returns an object with fields by their names.
pub(crate) fn fields_object(alloc: Global, fields: &TextMap<Chunks>) -> Result<Value, AllocError>
    ensures { IfOk result (λ value. view value ≡ fields_json fields.now) }
{
    let mut members = Map::new(alloc);
    'fields: for (name, chunks) in fields {
        let field = field_object(alloc, name.as_str(), chunks.as_slice())?;
        serde_json::put(&mut members, alloc, name.as_str(), field)?;
    }
    Ok(Value::from(members))
}
