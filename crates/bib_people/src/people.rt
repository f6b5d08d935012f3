//! Parses and writes lists of people.

ghost use Rattle.std.specs.Prelude.{◌≡◌, ◌++◌, OnOk, IfOk, codes};
ghost use Rattle.std.specs.Str.{chars};
ghost use Rattle.bib_people.specs.People.{people_of, suffix_text, after_prefix, begins_capital, plain_chunks, key_and_value, key_if_some, key_and_flag, four_keys, more_keys, has_more, person_chunks, joined_person, people_chunks};

use crate::person::Person;
use bib_chunks::chunk::cuts::and_list;
use bib_chunks::chunk::making::{push_normal, push_verbatim};
use bib_chunks::chunk::{Chunks, ChunksRef};
use bib_text::items::Items;
use bib_text::text::Text;
use std::alloc::{AllocError, Global};
use unicode::properties::is_uppercase;

/// Returns the people in an `and` list, one for each part of it. The only error is out of memory.
pub fn read_people(alloc: Global, chunks: ChunksRef<'_>) -> Result<Vec<Person>, AllocError>
    ensures { IfOk result (λ people. people.items ≡ people_of chunks.now) }
{
    let list = and_list(alloc, chunks)?;
    let mut people = Vec::new(alloc);
    'people: for chunks in list.as_slice() {
        people.push(Person::parse(alloc, chunks.as_slice())?)?;
    }
    Ok(people)
}

// Writes a suffix and a comma after it, if there is one.
fn write_suffix(out: &mut Text, suffix: &Text) -> Result<(), AllocError>
    ensures { OnOk result (out.new ≡ out.old ++ suffix_text suffix.now) }
{
    if !suffix.is_empty() {
        out.push_str(suffix.as_str())?;
        out.push_str(", ")?;
    }
    Ok(())
}

// Writes name, suffix and given name, with commas between them.
fn write_after_prefix(out: &mut Text, person: &Person) -> Result<(), AllocError>
    ensures { OnOk result (out.new ≡ out.old ++ after_prefix person.now) }
{
    out.push_str(person.name.as_str())?;
    out.push_str(", ")?;
    write_suffix(out, &person.suffix)?;
    out.push_str(person.given_name.as_str())?;
    Ok(())
}

// Returns whether the text begins with an uppercase character.
fn begins_capital(text: &str) -> bool
    ensures { result ≡ begins_capital (chars text.now) }
{
    let Some(c) = text.chars().next() else {
        return false;
    };
    is_uppercase(c)
}

// Writes a person that has only the four parts of BibTeX.
fn push_plain(alloc: Global, all: &mut Chunks, person: &Person) -> Result<(), AllocError>
    ensures { OnOk result (all.new ≡ all.old ++ plain_chunks person.now) }
{
    let mut text = Text::new(alloc);
    if person.prefix.is_empty() {
        write_after_prefix(&mut text, person)?;
        return push_normal(all, text);
    }
    if begins_capital(person.prefix.as_str()) {
        push_verbatim(all, person.prefix.clone()?)?;
        text.push_str(" ")?;
        write_after_prefix(&mut text, person)?;
        return push_normal(all, text);
    }
    text.push_str(person.prefix.as_str())?;
    text.push_str(" ")?;
    write_after_prefix(&mut text, person)?;
    push_normal(all, text)
}

// Writes a key and its value. `key` contains the equals sign, and the comma before any key except the first.
#[tactic(auto, unfolding(crate::specs::People::key_and_value))]
fn push_key(alloc: Global, all: &mut Chunks, key: &str, value: &str) -> Result<(), AllocError>
    ensures { OnOk result (all.new ≡ all.old ++ key_and_value key.now value.now) }
{
    push_normal(all, Text::from_str(alloc, key)?)?;
    push_verbatim(all, Text::from_str(alloc, value)?)
}

// Writes a key and its value, if there is a value.
fn push_some(
    alloc: Global,
    all: &mut Chunks,
    key: &str,
    value: &Option<Text>,
) -> Result<(), AllocError>
    ensures { OnOk result (all.new ≡ all.old ++ key_if_some key.now value.now) }
{
    match value {
        Some(value) => push_key(alloc, all, key, value.as_str()),
        None => Ok(()),
    }
}

// Writes a key and its flag, if there is a flag.
fn push_flag(
    alloc: Global,
    all: &mut Chunks,
    key: &str,
    flag: Option<bool>,
) -> Result<(), AllocError>
    ensures { OnOk result (all.new ≡ all.old ++ key_and_flag key.now flag) }
{
    match flag {
        Some(true) => push_key(alloc, all, key, "true"),
        Some(false) => push_key(alloc, all, key, "false"),
        None => Ok(()),
    }
}

// Writes the four parts of a person with their keys.
fn push_four_keys(alloc: Global, all: &mut Chunks, person: &Person) -> Result<(), AllocError>
    ensures { OnOk result (all.new ≡ all.old ++ four_keys person.now) }
{
    push_key(alloc, all, "given=", person.given_name.as_str())?;
    push_key(alloc, all, ", family=", person.name.as_str())?;
    push_key(alloc, all, ", prefix=", person.prefix.as_str())?;
    push_key(alloc, all, ", suffix=", person.suffix.as_str())
}

// Writes the optional parts of a person with their keys.
fn push_more_keys(alloc: Global, all: &mut Chunks, person: &Person) -> Result<(), AllocError>
    ensures { OnOk result (all.new ≡ all.old ++ more_keys person.now) }
{
    push_some(alloc, all, ", id=", &person.id)?;
    push_some(alloc, all, ", prefix-i=", &person.prefix_initials)?;
    push_some(alloc, all, ", given-i=", &person.given_initials)?;
    push_flag(alloc, all, ", useprefix=", person.use_prefix)
}

// Returns whether the person has one of the optional parts.
fn has_more(person: &Person) -> bool
    ensures { result ≡ has_more person.now }
{
    person.id.is_some()
        || person.prefix_initials.is_some()
        || person.given_initials.is_some()
        || person.use_prefix.is_some()
}

// Writes a person, with keys if it has one of the optional parts.
fn push_person(alloc: Global, all: &mut Chunks, person: &Person) -> Result<(), AllocError>
    ensures { OnOk result (all.new ≡ all.old ++ person_chunks person.now) }
{
    if has_more(person) {
        push_four_keys(alloc, all, person)?;
        return push_more_keys(alloc, all, person);
    }
    push_plain(alloc, all, person)
}

// Writes a person, after the word `and` unless it is the first.
fn push_joined(
    alloc: Global,
    all: &mut Chunks,
    person: &Person,
    first: bool,
) -> Result<(), AllocError>
    ensures { OnOk result (all.new ≡ all.old ++ joined_person first person.now) }
{
    if !first {
        push_normal(all, Text::from_str(alloc, " and ")?)?;
    }
    push_person(alloc, all, person)
}

/// Returns people as an `and` list, whose chunks have detached spans: both ends are `usize::MAX`. The only error is out
/// of memory.
pub fn people_chunks(alloc: Global, people: &[Person]) -> Result<Chunks, AllocError>
    ensures { IfOk result (λ all. all ≡ people_chunks people.now) }
{
    let mut all = Items::new(alloc);
    let mut first = true;
    'people: for person in people {
        push_joined(alloc, &mut all, person, first)?;
        first = false;
    }
    Ok(all)
}
