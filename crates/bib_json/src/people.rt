//! People as JSON.

ghost use Rattle.std.specs.Prelude.{◌≡◌, IfOk, OnOk};
ghost use Rattle.std.specs.Option.{option_map};
ghost use Rattle.serde_json.specs.Data.{string};
ghost use Rattle.serde_json.specs.View.{view, members_view};
ghost use Rattle.bib_json.specs.Objects.{with_given};
ghost use Rattle.bib_json.specs.Objects.{array_of};
ghost use Rattle.bib_json.specs.Values.{person_json};

use crate::members::{put_given, put_text};
use bib_people::person::Person;
use bib_text::text::Text;
use serde_json::{Map, Value};
use std::alloc::{AllocError, Global};

// Inserts a member with a text, if there is one.
fn put_text_if_given(
    members: &mut Map<String, Value>,
    alloc: Global,
    name: &str,
    text: &Option<Text>,
) -> Result<(), AllocError>
    ensures { OnOk result (members_view members.new.entries ≡
        with_given name.now (option_map string text.now) (members_view members.old.entries)) }
{
    if let Some(text) = text {
        put_text(members, alloc, name, text.as_str())?;
    }
    Ok(())
}

// Returns a person: the four parts of the name, and the additional parts of the extended name format.
fn person_value(alloc: Global, person: &Person) -> Result<Value, AllocError>
    ensures { IfOk result (λ value. view value ≡ person_json person.now) }
{
    let mut members = Map::new(alloc);
    put_text(&mut members, alloc, "name", person.name.as_str())?;
    put_text(&mut members, alloc, "given", person.given_name.as_str())?;
    put_text(&mut members, alloc, "prefix", person.prefix.as_str())?;
    put_text(&mut members, alloc, "suffix", person.suffix.as_str())?;
    put_text_if_given(&mut members, alloc, "id", &person.id)?;
    put_text_if_given(
        &mut members,
        alloc,
        "prefix-initials",
        &person.prefix_initials,
    )?;
    put_text_if_given(
        &mut members,
        alloc,
        "given-initials",
        &person.given_initials,
    )?;
    put_given(
        &mut members,
        alloc,
        "useprefix",
        person.use_prefix.map(Value::from),
    )?;
    Ok(Value::from(members))
}

/// Returns an array of people.
pub(crate) fn people_value(alloc: Global, people: &[Person]) -> Result<Value, AllocError>
    ensures { IfOk result (λ value. view value ≡ array_of person_json people.now) }
{
    let mut elements = Vec::new(alloc);
    'people: for person in people {
        let element = person_value(alloc, person)?;
        elements.push(element)?;
    }
    Ok(Value::from(elements))
}
