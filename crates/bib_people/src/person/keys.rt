//! Parses names in the extended format: parts, each after a key.

ghost use Rattle.std.specs.Prelude.{codes, ◌≡◌, ◌==◌, [], map, IfOk, bytes_eq};
ghost use Rattle.std.specs.List.{list_any};
ghost use Rattle.std.specs.Option.{unwrap_or, option_map, option_copied};
ghost use Rattle.bib_chunks.specs.Styled.{text_of};
ghost use Rattle.bib_people.specs.Names.{key_value_of, parts_of, last_value, person_of_parts, in_parts, is_in_parts};

use super::Person;
use super::commas::trimmed_text;
use bib_chunks::chunk::ChunksRef;
use bib_chunks::chunk::cuts::{comma_list, cut_at};
use bib_text::items::Items;
use bib_text::text::Text;
use std::alloc::{AllocError, Global};

// A key and its value.
type Part = (Text, Text);

// Returns whether a chunk of any kind contains an equals sign.
pub(crate) fn is_in_parts(chunks: ChunksRef<'_>) -> bool
    ensures { result ≡ is_in_parts chunks.now }
{
    'chunks: for chunk in chunks {
        if chunk.v.get().as_bytes().contains(&b'=') {
            return true;
        }
    }
    false
}

// Parses a key and its value. Without an equals sign in a normal chunk, the value is empty.
fn read_part(alloc: Global, chunks: ChunksRef<'_>) -> Result<Part, AllocError>
    ensures { IfOk result (λ part. part ≡ key_value_of chunks.now) }
{
    let Some((key, value)) = cut_at(alloc, chunks, '=')? else {
        let key = trimmed_text(alloc, chunks)?;
        return Ok((key, Text::new(alloc)));
    };
    let key = trimmed_text(alloc, key.as_slice())?;
    let value = trimmed_text(alloc, value.as_slice())?;
    Ok((key, value))
}

// Returns the keys of a name with their values.
fn parts(alloc: Global, chunks: ChunksRef<'_>) -> Result<Items<Part>, AllocError>
    ensures { IfOk result (λ parts. parts ≡ parts_of chunks.now) }
{
    let list = comma_list(alloc, chunks)?;
    let mut all = Items::new(alloc);
    'parts: for chunks in list.as_slice() {
        all.push(read_part(alloc, chunks.as_slice())?)?;
    }
    Ok(all)
}

// Returns the value of a key, the last one if the key occurs more than once.
fn last_value(alloc: Global, parts: &[Part], key: &str) -> Result<Option<Text>, AllocError>
    ensures { IfOk result (λ value. value ≡ last_value key.now parts.now) }
{
    let mut found = None;
    'parts: for (name, value) in parts {
        if name.as_str() == key {
            found = Some(value.clone()?);
        }
    }
    Ok(found)
}

// Returns the value of a key, or the empty text if the key doesn't occur.
fn text_of(alloc: Global, parts: &[Part], key: &str) -> Result<Text, AllocError>
    ensures { IfOk result (λ text. text ≡ unwrap_or (last_value key.now parts.now) []) }
{
    let Some(text) = last_value(alloc, parts, key)? else {
        return Ok(Text::new(alloc));
    };
    Ok(text)
}

// Returns whether the value of `useprefix` is `true`, if that key occurs.
fn use_prefix(alloc: Global, parts: &[Part]) -> Result<Option<bool>, AllocError>
    ensures { IfOk result (λ used. used ≡ option_map (λ v. bytes_eq v (codes "true")) (last_value (codes "useprefix") parts.now)) }
{
    let Some(value) = last_value(alloc, parts, "useprefix")? else {
        return Ok(None);
    };
    Ok(Some(value.as_str() == "true"))
}

// Returns the person with these parts.
#[tactic(auto, unfolding(crate::specs::Names::person_of_parts))]
fn person_of(alloc: Global, parts: &[Part]) -> Result<Person, AllocError>
    ensures { IfOk result (λ person. person ≡ person_of_parts parts.now) }
{
    Ok(Person {
        name: text_of(alloc, parts, "family")?,
        given_name: text_of(alloc, parts, "given")?,
        prefix: text_of(alloc, parts, "prefix")?,
        suffix: text_of(alloc, parts, "suffix")?,
        id: last_value(alloc, parts, "id")?,
        prefix_initials: last_value(alloc, parts, "prefix-i")?,
        given_initials: last_value(alloc, parts, "given-i")?,
        use_prefix: use_prefix(alloc, parts)?,
    })
}

// Returns the person of a name in the extended format.
pub(crate) fn in_parts(alloc: Global, chunks: ChunksRef<'_>) -> Result<Person, AllocError>
    ensures { IfOk result (λ person. person ≡ in_parts chunks.now) }
{
    let parts = parts(alloc, chunks)?;
    person_of(alloc, parts.as_slice())
}
