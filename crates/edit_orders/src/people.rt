//! Names of people as they are compared.

ghost use Rattle.std.specs.Prelude.{◌≡◌, ◌++◌, IfOk, OnOk, string_bytes};
ghost use Rattle.std.specs.List.{flat_map};
ghost use Rattle.bib_people.specs.People.{people_of};
ghost use Rattle.edit_orders.specs.People as spec;

use crate::letters::sort_text;
use bib_chunks::chunk::ChunksRef;
use bib_people::people::read_people;
use bib_people::person::Person;
use bib_text::text::Text;
use std::alloc::{AllocError, Global};

// Returns the family name of a person, after the prefix if that is part of it.
fn family_name(alloc: Global, person: &Person) -> Result<String, AllocError>
    ensures { IfOk result (λ name. string_bytes name ≡ spec.sort_family person.now) }
{
    if person.use_prefix == Some(true) {
        return format!(in alloc; "{} {}", person.prefix.as_str(), person.name.as_str());
    }
    String::from_str(alloc, person.name.as_str())
}

// Appends a text as it is compared.
fn push_text(alloc: Global, texts: &mut Vec<Text>, text: &str) -> Result<(), AllocError>
    ensures { OnOk result (texts.new.items ≡ texts.old.items ++ spec.person_part text.now) }
{
    texts.push(Text::from_string(sort_text(alloc, text)?))?;
    Ok(())
}

// Appends the family name, the given name, the suffix and the prefix of a person. Appends nothing for the family name `others`.
fn push_person(alloc: Global, texts: &mut Vec<Text>, person: &Person) -> Result<(), AllocError>
    ensures { OnOk result (texts.new.items ≡ texts.old.items ++ spec.person_texts person.now) }
{
    if person.name.as_str() == "others" {
        return Ok(());
    }
    push_text(alloc, texts, &family_name(alloc, person)?)?;
    push_text(alloc, texts, person.given_name.as_str())?;
    push_text(alloc, texts, person.suffix.as_str())?;
    push_text(alloc, texts, person.prefix.as_str())
}

// Returns the texts by which people are compared, one person after another.
pub(crate) fn people_texts(alloc: Global, chunks: ChunksRef<'_>) -> Result<Vec<Text>, AllocError>
    ensures { IfOk result (λ texts. texts.items ≡ flat_map spec.person_texts (people_of chunks.now)) }
{
    let people = read_people(alloc, chunks)?;
    let mut texts = Vec::new(alloc);
    'people: for person in &people {
        push_person(alloc, &mut texts, person)?;
    }
    Ok(texts)
}
