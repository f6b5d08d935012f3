//! The family names in a key.

ghost use Rattle.std.specs.Prelude.{◌≡◌, IfOk, map};
ghost use Rattle.bib_keys.specs.Names as spec;

use crate::commands::without_names;
use crate::letters::key_letters;
use bib_chunks::chunk::ChunksRef;
use bib_people::people::read_people;
use bib_people::person::Person;
use bib_text::text::Text;
use std::alloc::{AllocError, Global};

// The words for the authors that aren't named.
const OTHERS: &str = "EtAl";

// Returns the family name of a person as plain text, without the names of commands that don't count as text. Returns `EtAl` for the
// family name `others`.
fn shown_family_name(alloc: Global, person: &Person) -> Result<Text, AllocError>
    ensures { IfOk result (λ name. name ≡ spec.shown_family_name person.now) }
{
    if person.name.as_str() == "others" {
        return Text::from_str(alloc, OTHERS);
    }
    let name = without_names(alloc, false, person.name.as_str())?;
    Ok(Text::from_string(key_letters(alloc, name.as_str())?))
}

// Returns the family names of people.
fn family_names(alloc: Global, people: &[Person]) -> Result<Vec<Text>, AllocError>
    ensures { IfOk result (λ names. names.items ≡ map spec.shown_family_name people.now) }
{
    let mut names = Vec::new(alloc);
    'people: for person in people {
        names.push(shown_family_name(alloc, person)?)?;
    }
    Ok(names)
}

// Returns the names that are written in a key. Without `count`, that is the first name; otherwise at most `count` names, and
// `EtAl` if there are more.
fn shown(alloc: Global, count: Option<u8>, mut names: Vec<Text>) -> Result<Vec<Text>, AllocError>
    ensures { IfOk result (λ shown. shown.items ≡ spec.shown_names count names.items) }
{
    let Some(count) = count else {
        names.truncate(1);
        return Ok(names);
    };
    if (count as usize) < names.len() {
        names.truncate(count as usize);
        names.push(Text::from_str(alloc, OTHERS)?)?;
    }
    Ok(names)
}

// Returns the names in a key for the people in a field.
pub(crate) fn names_in_key(
    alloc: Global,
    count: Option<u8>,
    people: ChunksRef<'_>,
) -> Result<Vec<Text>, AllocError>
    ensures { IfOk result (λ names. names.items ≡ spec.names_in_key count people.now) }
{
    let people = read_people(alloc, people)?;
    shown(alloc, count, family_names(alloc, &people)?)
}
