//! Definitions of abbreviations in two documents.

ghost use Rattle.std.specs.Prelude.{◌≡◌, IfOk, MatchBool, map};
ghost use Rattle.std.specs.BTreeMap.{get_by_text};
ghost use Rattle.bib_syntax.specs.Views.{field_of, piece_of};
ghost use Rattle.edit_entries.specs.Definitions as spec;
ghost use Rattle.edit_entries.specs.Definitions.{AgreesWithLast, AllAgree, ArePiecesSame, AreLast};
ghost use Rattle.edit_entries.specs.Documents.{AgreeOnDefinitions};

use bib_syntax::raw::{Pair, RawChunk};
use bib_text::spanned::Spanned;
use std::alloc::{AllocError, Global};
use std::collections::BTreeMap;

// Returns whether two pieces are two literals or two abbreviations, with one text.
fn is_same_piece(one: &Spanned<RawChunk<'_>>, other: &Spanned<RawChunk<'_>>) -> bool
    ensures { result ≡ spec.is_same_piece (piece_of one.now) (piece_of other.now) }
{
    match one.v {
        RawChunk::Normal(first) => match other.v {
            RawChunk::Normal(second) => first == second,
            RawChunk::Abbreviation(_) => false,
        },
        RawChunk::Abbreviation(first) => match other.v {
            RawChunk::Normal(_) => false,
            RawChunk::Abbreviation(second) => first == second,
        },
    }
}

// Returns whether two values have the same pieces.
fn is_same_value(one: &[Spanned<RawChunk<'_>>], other: &[Spanned<RawChunk<'_>>]) -> bool
    ensures { MatchBool result
        (ArePiecesSame (map piece_of one.now) (map piece_of other.now))
        (ArePiecesSame (map piece_of one.now) (map piece_of other.now) → ⊥) }
{
    if one.len() != other.len() {
        return false;
    }
    'pieces: for (index, piece) in one.iter().enumerate() {
        if !is_same_piece(piece, &other[index]) {
            return false;
        }
    }
    true
}

// Returns the index of the last definition of each abbreviation, by its name in ASCII lowercase.
fn last_definitions(
    alloc: Global,
    definitions: &[Pair<'_>],
) -> Result<BTreeMap<String, usize>, AllocError>
    ensures { IfOk result (λ last. AreLast (map field_of definitions.now) (get_by_text last)) }
{
    let mut last = BTreeMap::new(alloc);
    'definitions: for (index, definition) in definitions.iter().enumerate() {
        last.insert(definition.key.v.to_ascii_lowercase(alloc)?, index)?;
    }
    Ok(last)
}

// Returns whether a definition has the value of the last of `others` with its name, in any ASCII case, if there is one.
fn agrees(
    alloc: Global,
    definition: &Pair<'_>,
    others: &[Pair<'_>],
    last: &BTreeMap<String, usize>,
) -> Result<bool, AllocError>
    requires { AreLast (map field_of others.now) (get_by_text last.now) }
    ensures { IfOk result (λ agrees. MatchBool agrees
        (AgreesWithLast (map field_of others.now) (field_of definition.now))
        (AgreesWithLast (map field_of others.now) (field_of definition.now) → ⊥)) }
{
    let name = definition.key.v.to_ascii_lowercase(alloc)?;
    match last.get(name.as_str()) {
        Some(index) => Ok(is_same_value(&definition.value.v, &others[*index].value.v)),
        None => Ok(true),
    }
}

// Returns whether each definition has the value of the last of `others` with its name, in any ASCII case, if there is one.
fn agree_with_last(
    alloc: Global,
    definitions: &[Pair<'_>],
    others: &[Pair<'_>],
) -> Result<bool, AllocError>
    ensures { IfOk result (λ agree. MatchBool agree
        (AllAgree (map field_of definitions.now) (map field_of others.now))
        (AllAgree (map field_of definitions.now) (map field_of others.now) → ⊥)) }
{
    let last = last_definitions(alloc, others)?;
    'definitions: for definition in definitions {
        if !agrees(alloc, definition, others, &last)? {
            return Ok(false);
        }
    }
    Ok(true)
}

// Returns whether two lists of definitions give each abbreviation that both define, in any ASCII case, one value.
pub(crate) fn agree_on_definitions(
    alloc: Global,
    definitions: &[Pair<'_>],
    others: &[Pair<'_>],
) -> Result<bool, AllocError>
    ensures { IfOk result (λ agree. MatchBool agree
        (AgreeOnDefinitions (map field_of definitions.now) (map field_of others.now))
        (AgreeOnDefinitions (map field_of definitions.now) (map field_of others.now) → ⊥)) }
{
    if !agree_with_last(alloc, definitions, others)? {
        return Ok(false);
    }
    agree_with_last(alloc, others, definitions)
}
