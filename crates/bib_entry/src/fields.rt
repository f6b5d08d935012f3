//! Getters and setters for fields as values of a type.

ghost use Rattle.std.specs.Prelude.{◌≡◌, map};
ghost use Rattle.std.specs.Char.{to_ascii_lowercase};
ghost use Rattle.bib_entry.specs.Fields.{GetsValue, GetsEitherValue, GetsChunks, GetsEitherChunks, SetsValue};

mod aliases;
mod bibtex;
mod identifiers;
mod people;
mod supplements;
mod titles;

use crate::entry::Entry;
use bib_chunks::chunk::ChunksRef;
use bib_typed::retrieval::RetrievalError;
use bib_typed::typed::Type;
use bib_typed::{reading, setting};
use std::alloc::{AllocError, Global};

impl Entry {
    /// Parses the field `name` as a value of type `T`. The case of letters matters. The error is `Missing` if there is no
    /// such field, a `TypeError` if its chunks can't be parsed as a `T`, or out of memory.
    pub fn get_as<T: Type>(&self, alloc: Global, name: &str) -> Result<T, RetrievalError>
        ensures { GetsValue T.Type self.now name.now result }
    {
        reading::get_as(&self.fields, alloc, name)
    }

    // Parses the field `name`, or the field `other` if `name` is missing, as a value of type `T`.
    pub(crate) fn get_as_or<T: Type>(
        &self,
        alloc: Global,
        name: &str,
        other: &str,
    ) -> Result<T, RetrievalError>
        ensures { GetsEitherValue T.Type self.now name.now other.now result }
    {
        reading::get_as_or(&self.fields, alloc, name, other)
    }

    // Returns the chunks of the field `name`.
    pub(crate) fn chunks_of_field(
        &self,
        alloc: Global,
        name: &str,
    ) -> Result<ChunksRef<'_>, RetrievalError>
        ensures { GetsChunks self.now name.now result }
    {
        reading::chunks_of_field(&self.fields, alloc, name)
    }

    // Returns the chunks of the field `name`, or else of the field `other`.
    pub(crate) fn chunks_of_either(
        &self,
        alloc: Global,
        name: &str,
        other: &str,
    ) -> Result<ChunksRef<'_>, RetrievalError>
        ensures { GetsEitherChunks self.now name.now other.now result }
    {
        reading::chunks_of_either(&self.fields, alloc, name, other)
    }

    /// Sets the field whose name is `name` with ASCII letters in lowercase to the chunks that `value` is written as. If
    /// memory runs out, the entry stays unchanged.
    pub fn set_as<T: Type>(&mut self, name: &str, value: &T) -> Result<(), AllocError>
        ensures { SetsValue T.Type (T.meaning value.now) (map to_ascii_lowercase name.now)
            self.old self.new result }
    {
        setting::set_as(&mut self.fields, name, value)
    }
}
