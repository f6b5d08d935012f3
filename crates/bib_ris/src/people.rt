//! Lines of people.

ghost use Rattle.std.specs.Prelude.{◌≡◌, ◌++◌, IfOk, OnOk};
ghost use Rattle.std.specs.Option.{option_copied};
ghost use Rattle.std.specs.String.{string_bytes};
ghost use Rattle.bib_ris.specs.People as spec;

use crate::lines::push_line;
use bib_chunks::chunk::ChunksRef;
use bib_csl::tags::loosened;
use bib_people::people::read_people;
use bib_people::person::Person;
use bib_text::text::Text;
use std::alloc::{AllocError, Global};

// Appends the prefix and the family name.
fn push_family_name(out: &mut Text, person: &Person) -> Result<(), AllocError>
    ensures { OnOk result (out.new ≡ out.old ++ spec.family_name person.now) }
{
    if !person.prefix.is_empty() {
        out.push_str(person.prefix.as_str())?;
        out.push_str(" ")?;
    }
    out.push_str(person.name.as_str())
}

// Returns whether a text contains a byte.
fn contains_byte(text: &str, byte: u8) -> bool
    ensures { result ≡ spec.contains_byte byte text.now }
{
    text.as_bytes().contains(&byte)
}

// Returns `,` for a family name that contains a space or a tilde, and an empty text for any other.
fn comma_alone(family_name: &str) -> &'static str
    ensures { result.now ≡ spec.comma_alone family_name.now }
{
    if contains_byte(family_name, b' ') || contains_byte(family_name, b'~') {
        ","
    } else {
        ""
    }
}

// Appends a comma and the given name. If the person has neither a given name nor a suffix, appends only the comma of `comma_alone`.
// `out` is the family name with its prefix.
fn push_given_part(out: &mut Text, person: &Person) -> Result<(), AllocError>
    requires { out.old ≡ spec.family_name person.now }
    ensures { OnOk result (out.new ≡ out.old ++ spec.given_part person.now) }
{
    if person.given_name.is_empty() && person.suffix.is_empty() {
        let comma = comma_alone(out.as_str());
        return out.push_str(comma);
    }
    out.push_str(", ")?;
    out.push_str(person.given_name.as_str())
}

// Appends a comma and the suffix, if there is one.
fn push_suffix_part(out: &mut Text, person: &Person) -> Result<(), AllocError>
    ensures { OnOk result (out.new ≡ out.old ++ spec.suffix_part person.now) }
{
    if person.suffix.is_empty() {
        return Ok(());
    }
    out.push_str(", ")?;
    out.push_str(person.suffix.as_str())
}

// Returns the name of a person, with spaces for tildes.
fn person_text(alloc: Global, person: &Person) -> Result<Text, AllocError>
    ensures { IfOk result (λ text. text ≡ spec.person_text person.now) }
{
    let mut text = Text::new(alloc);
    push_family_name(&mut text, person)?;
    push_given_part(&mut text, person)?;
    push_suffix_part(&mut text, person)?;
    loosened(alloc, text)
}

// Appends a line for a person, unless the person is the word `others`.
fn push_person(
    out: &mut String,
    alloc: Global,
    tag: &str,
    person: &Person,
) -> Result<(), AllocError>
    ensures { OnOk result (string_bytes out.new ≡ string_bytes out.old ++ spec.person_line tag.now person.now) }
{
    let text = person_text(alloc, person)?;
    if text.as_str() == "others" {
        return Ok(());
    }
    push_line(out, tag, text.as_str())
}

// Appends a line for each person except the word `others`.
fn push_people(
    out: &mut String,
    alloc: Global,
    tag: &str,
    people: &[Person],
) -> Result<(), AllocError>
    ensures { OnOk result (string_bytes out.new ≡ string_bytes out.old ++ spec.person_lines tag.now people.now) }
{
    'people: for person in people {
        push_person(out, alloc, tag, person)?;
    }
    Ok(())
}

/// Appends a line for each person of a field except the word `others`.
pub(crate) fn push_people_of(
    out: &mut String,
    alloc: Global,
    tag: &str,
    field: Option<ChunksRef<'_>>,
) -> Result<(), AllocError>
    ensures { OnOk result (string_bytes out.new ≡ string_bytes out.old ++ spec.people_lines tag.now (option_copied field.entry)) }
{
    let Some(chunks) = field else {
        return Ok(());
    };
    let people = read_people(alloc, chunks)?;
    push_people(out, alloc, tag, people.as_slice())
}
