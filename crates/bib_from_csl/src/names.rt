//! Parses the names of items.

ghost use Rattle.std.specs.Prelude.{◌≡◌, ◌≤◌, map, IfOk};
ghost use Rattle.std.specs.List.{list_all};
ghost use Rattle.std.specs.Option.{option_map, unwrap_or};
ghost use Rattle.json.specs.Value.{value_view};
ghost use Rattle.bib_from_csl.specs.GivenNames as spec;

use crate::objects::{elements, members, one_if, size, string_under};
use bib_csl::item::{Name, NameParts};
use bib_text::items::Items;
use bib_text::text::Text;
use json::Value;
use std::alloc::{AllocError, Global};

// Returns the text of a member, or an empty text if it is missing or no text.
fn part(alloc: Global, person: &Value<'_>, name: &str) -> Result<Text, AllocError>
    ensures { IfOk result (λ text. text ≡ spec.name_part name.now (value_view person.now)) }
{
    match string_under(person, name) {
        Some(text) => Text::from_str(alloc, text),
        None => Ok(Text::new(alloc)),
    }
}

// Returns the parts of a name.
#[tactic(auto, unfolding(crate::specs::GivenNames::given_parts))]
fn given_parts(alloc: Global, person: &Value<'_>) -> Result<NameParts, AllocError>
    ensures { IfOk result (λ parts. parts ≡ spec.given_parts (value_view person.now)) }
{
    Ok(NameParts {
        family: part(alloc, person, "family")?,
        given: part(alloc, person, "given")?,
        suffix: part(alloc, person, "suffix")?,
        dropping_particle: part(alloc, person, "dropping-particle")?,
        non_dropping_particle: part(alloc, person, "non-dropping-particle")?,
    })
}

// Returns the name of an object.
#[tactic(auto, unfolding(crate::specs::GivenNames::given_name))]
fn given_name(alloc: Global, person: &Value<'_>) -> Result<Name, AllocError>
    ensures { IfOk result (λ name. name ≡ spec.given_name (value_view person.now)) }
{
    match string_under(person, "literal") {
        Some(text) => Ok(Name::Literal(Text::from_str(alloc, text)?)),
        None => Ok(Name::Parts(given_parts(alloc, person)?)),
    }
}

// Returns 1 if the member with a name is a text, and 0 otherwise.
fn count(person: &Value<'_>, name: &str) -> usize
    ensures value { result ≡ spec.count name.now (value_view person.now) }
    ensures small { result ≤ 1 }
{
    one_if(string_under(person, name).is_some())
}

// Returns the number of members of an object that its name is made of.
#[tactic(auto, unfolding(crate::specs::GivenNames::said_parts))]
fn said_parts(person: &Value<'_>) -> usize
    ensures { result ≡ spec.said_parts (value_view person.now) }
{
    if string_under(person, "literal").is_some() {
        return 1;
    }
    count(person, "family")
        + count(person, "given")
        + count(person, "suffix")
        + count(person, "dropping-particle")
        + count(person, "non-dropping-particle")
}

// Returns whether an object has no members except those that its name is made of.
fn is_whole_name(person: &Value<'_>) -> bool
    ensures { result ≡ spec.says_name_only (value_view person.now) }
{
    size(person) == said_parts(person)
}

// Returns whether a value is an object.
fn is_object(value: &Value<'_>) -> bool
    ensures { result ≡ spec.is_object (value_view value.now) }
{
    members(value).is_some()
}

// Returns whether all values are objects.
fn all_objects(values: &[Value<'_>]) -> bool
    ensures { result ≡ list_all (λ value. spec.is_object (value_view value)) values.now }
{
    values.iter().all(|value| is_object(value))
}

// Returns whether a value is an array of objects.
pub(crate) fn are_objects(value: &Value<'_>) -> bool
    ensures { result ≡ spec.are_objects (value_view value.now) }
{
    match elements(value) {
        Some(elements) => all_objects(elements),
        None => false,
    }
}

// Returns the names of an array of objects.
#[tactic(auto, unfolding(crate::specs::GivenNames::given_names))]
pub(crate) fn given_names(alloc: Global, value: &Value<'_>) -> Result<Items<Name>, AllocError>
    ensures { IfOk result (λ names. names ≡ spec.given_names (value_view value.now)) }
{
    let mut names = Items::new(alloc);
    let Some(elements) = elements(value) else {
        return Ok(names);
    };
    'people: for person in elements {
        names.push(given_name(alloc, person)?)?;
    }
    Ok(names)
}

// Returns whether each object has no members except those that its name is made of.
fn all_whole_names(people: &[Value<'_>]) -> bool
    ensures { result ≡ list_all (λ person. spec.says_name_only (value_view person)) people.now }
{
    people.iter().all(|person| is_whole_name(person))
}

// Returns whether each object of an array has no members except those that its name is made of.
#[tactic(auto, unfolding(crate::specs::GivenNames::are_whole_names))]
pub(crate) fn are_whole_names(value: &Value<'_>) -> bool
    ensures { result ≡ spec.are_whole_names (value_view value.now) }
{
    match elements(value) {
        Some(elements) => all_whole_names(elements),
        None => true,
    }
}
