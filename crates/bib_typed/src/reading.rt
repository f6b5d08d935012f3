//! Getting a field of a map as a value of a type.

ghost use Rattle.std.specs.Prelude.{◌≡◌};
ghost use Rattle.std.specs.FinMap as by_name;
ghost use Rattle.std.specs.Option.{option_copied};
ghost use Rattle.bib_typed.specs.Retrieved.{AreChunksOf, IsRetrieved, one_or_other};

use crate::retrieval::RetrievalError;
use crate::typed::Type;
use bib_chunks::chunk::{Chunks, ChunksRef};
use bib_collections::text_map::TextMap;
use bib_text::text::Text;
use std::alloc::Global;

/// Returns the chunks of the field `name`, if it exists. The case of letters matters. Does not allocate.
pub fn get<'f>(fields: &'f TextMap<Chunks>, name: &str) -> Option<ChunksRef<'f>>
    ensures { option_copied result ≡ by_name.get fields.now name.now }
{
    let chunks = fields.get(name)?;
    Some(chunks.as_slice())
}

/// Parses the field `name` as a value of type `T`. The case of letters matters. The error is `Missing` if there is no such
/// field, a `TypeError` if its chunks can't be parsed as a `T`, or out of memory.
pub fn get_as<T: Type>(
    fields: &TextMap<Chunks>,
    alloc: Global,
    name: &str,
) -> Result<T, RetrievalError>
    ensures { IsRetrieved T.Type (by_name.get fields.now name.now) name.now result }
{
    read(alloc, name, get(fields, name))
}

/// Parses the field `name`, or the field `other` if `name` is missing, as a value of type `T`. If both are missing, the error is
/// `Missing` with `name`, or out of memory. The other errors are those of `get_as`.
pub fn get_as_or<T: Type>(
    fields: &TextMap<Chunks>,
    alloc: Global,
    name: &str,
    other: &str,
) -> Result<T, RetrievalError>
    ensures { IsRetrieved T.Type (one_or_other fields.now name.now other.now) name.now result }
{
    read(alloc, name, get_or(fields, name, other))
}

/// Returns the chunks of the field `name`. The error is `Missing` if there is no such field, or out of memory for its name.
pub fn chunks_of_field<'f>(
    fields: &'f TextMap<Chunks>,
    alloc: Global,
    name: &str,
) -> Result<ChunksRef<'f>, RetrievalError>
    ensures { AreChunksOf (by_name.get fields.now name.now) name.now result }
{
    require_chunks(alloc, name, get(fields, name))
}

/// Returns the chunks of the field `name`, or else of the field `other`. If both are missing, the error is `Missing` with
/// `name`, or out of memory.
pub fn chunks_of_either<'f>(
    fields: &'f TextMap<Chunks>,
    alloc: Global,
    name: &str,
    other: &str,
) -> Result<ChunksRef<'f>, RetrievalError>
    ensures { AreChunksOf (one_or_other fields.now name.now other.now) name.now result }
{
    require_chunks(alloc, name, get_or(fields, name, other))
}

// Returns the chunks of the field `name`, or else of the field `other`.
fn get_or<'f>(fields: &'f TextMap<Chunks>, name: &str, other: &str) -> Option<ChunksRef<'f>>
    ensures { option_copied result ≡ one_or_other fields.now name.now other.now }
{
    match get(fields, name) {
        Some(chunks) => Some(chunks),
        None => get(fields, other),
    }
}

// Parses a field as a value of type `T`. If there is no field, the error is `Missing` with `name`, or out of memory.
fn read<T: Type>(
    alloc: Global,
    name: &str,
    field: Option<ChunksRef<'_>>,
) -> Result<T, RetrievalError>
    ensures { IsRetrieved T.Type (option_copied field.entry) name.now result }
{
    let Some(chunks) = field else {
        return Err(RetrievalError::Missing(Text::from_str(alloc, name)?));
    };
    match T::from_chunks(alloc, chunks) {
        Ok(value) => Ok(value),
        Err(e) => Err(RetrievalError::from(e)),
    }
}

// Returns the chunks of a field. If there is no field, the error is `Missing` with `name`, or out of memory.
fn require_chunks<'a>(
    alloc: Global,
    name: &str,
    field: Option<ChunksRef<'a>>,
) -> Result<ChunksRef<'a>, RetrievalError>
    ensures { AreChunksOf (option_copied field.entry) name.now result }
{
    match field {
        Some(chunks) => Ok(chunks),
        None => Err(RetrievalError::Missing(Text::from_str(alloc, name)?)),
    }
}
