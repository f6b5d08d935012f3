//! Setting a field of a map to chunks, or to a value of a type.

ghost use Rattle.std.specs.Prelude.{◌≡◌, map, Some, OnOk, OnErr, IfOk, IfErr, codes};
ghost use Rattle.std.specs.Char.{to_ascii_lowercase};
ghost use Rattle.std.specs.FinMap as by_name;
ghost use Rattle.bib_typed.specs.Retrieved.{field_as};

use crate::typed::Type;
use bib_chunks::chunk::Chunks;
use bib_collections::text_map::TextMap;
use bib_text::text::Text;
use std::alloc::{AllocError, AllocFailed};
use std::error::Error;
use std::fmt;

/// The error of setting a field: out of memory. It contains the chunks.
#[derive(Debug, Drop)]
pub struct SetError {
    /// The chunks that the field was to be set to.
    pub chunks: Chunks,
}

impl fmt::Display for SetError {
    ghost output = { λ _. Some (codes "out of memory") };

    fn fmt<W: fmt::Write>(&self, f: &mut fmt::Formatter<W>) -> fmt::Result {
        f.write_str("out of memory")
    }
}

impl Error for SetError {}

// Converts a failed insertion to the error that contains the chunks.
impl From<AllocFailed<(Text, Chunks)>> for SetError {
    ghost from_gives = { λ failed error. error.chunks ≡ failed.value.1 };

    fn from(failed: AllocFailed<(Text, Chunks)>) -> SetError {
        SetError {
            chunks: failed.value.1,
        }
    }
}

// Drops the chunks.
impl From<SetError> for AllocError {
    fn from(_error: SetError) -> AllocError {
        AllocError
    }
}

impl SetError {
    // Returns the error that contains `chunks`, if memory runs out before the field is set.
    fn for_chunks(_error: AllocError, chunks: Chunks) -> SetError
        ensures { result.chunks ≡ chunks }
    {
        SetError { chunks }
    }
}

/// Sets the field whose name is `name` with ASCII letters in lowercase, and returns its previous chunks. If memory runs out,
/// the map stays unchanged, and the error contains `chunks`.
pub fn set(
    fields: &mut TextMap<Chunks>,
    name: &str,
    chunks: Chunks,
) -> Result<Option<Chunks>, SetError>
    ensures had { IfOk result (λ had. had ≡ by_name.get fields.old (map to_ascii_lowercase name.now)) }
    ensures set { OnOk result (fields.new ≡
        by_name.insert fields.old (map to_ascii_lowercase name.now) chunks) }
    ensures refused { OnErr result (fields.new ≡ fields.old) }
    ensures returned { IfErr result (λ e. e.chunks ≡ chunks) }
{
    let lowered = match name.to_ascii_lowercase(fields.allocator()) {
        Ok(lowered) => lowered,
        Err(error) => return Err(SetError::for_chunks(error, chunks)),
    };
    Ok(fields.insert(Text::from_string(lowered), chunks)?)
}

/// Sets the field whose name is `name` with ASCII letters in lowercase to the chunks that `value` is written as. If the type
/// keeps the value, the field then parses back to it. If memory runs out, the map stays unchanged.
pub fn set_as<T: Type>(
    fields: &mut TextMap<Chunks>,
    name: &str,
    value: &T,
) -> Result<(), AllocError>
    ensures set { OnOk result (fields.new ≡ by_name.insert fields.old
        (map to_ascii_lowercase name.now) (T.Type.writes (T.meaning value.now))) }
    ensures kept { OnOk result (T.Type.kept (T.meaning value.now) → field_as T.Type.reads
        (by_name.get fields.new (map to_ascii_lowercase name.now)) ≡ Some (T.meaning value.now)) }
    ensures refused { OnErr result (fields.new ≡ fields.old) }
{
    let chunks = value.to_chunks(fields.allocator())?;
    set(fields, name, chunks)?;
    Ok(())
}
