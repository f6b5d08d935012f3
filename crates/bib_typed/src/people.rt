//! Lists of people as typed values.

ghost use Rattle.std.specs.Prelude.{List, Some};
ghost use Rattle.bib_people.specs.declared.person.Person.{Person as APerson};
ghost use Rattle.bib_people.specs.People.{people_of, people_chunks as people_written};
ghost use Rattle.bib_people.specs.Kept.{ArePeople};
ghost use Rattle.bib_people.proofs.SurviveFacts.{people_survive_read};

use crate::typed::Type;
use bib_chunks::chunk::{Chunks, ChunksRef};
use bib_people::people::{people_chunks, read_people};
use bib_people::person::Person;
use bib_tables::type_error::TypeError;
use std::alloc::{AllocError, Global};

/// Parses any chunks as the items of an `and` list, each a person. Written with `and` between them.
impl Type for Vec<Person> {
    ghost Meaning = { List APerson };

    ghost meaning = { λ people. people.items };

    ghost reads = { λ chunks. Some (people_of chunks) };

    ghost may_refuse = { λ _ _. ⊥ };

    ghost writes = { people_written };

    ghost kept = { ArePeople };

    ghost survives = { people_survive_read };

    fn from_chunks(alloc: Global, chunks: ChunksRef<'_>) -> Result<Self, TypeError> {
        Ok(read_people(alloc, chunks)?)
    }

    fn to_chunks(&self, alloc: Global) -> Result<Chunks, AllocError> {
        people_chunks(alloc, self.as_slice())
    }
}
