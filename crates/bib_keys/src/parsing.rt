//! Parses patterns.

ghost use Rattle.std.specs.Prelude.{◌≡◌, ◌++◌, ◌∷◌, [], ◌+◌, ◌<◌, ℕ, List, IfErr, IfOk, MatchOption, Option};
ghost use Rattle.bib_text.specs.Characters as char;
ghost use Rattle.bib_keys.specs.declared.pattern.Part.{Part as APart};
ghost use Rattle.bib_keys.specs.Parsing.{stop_error};
ghost use Rattle.bib_keys.specs.Patterns.{HasNameAndCount, IsPart, IsPattern, IsPatternError, IsPlaceholder, part_meant};

use crate::characters::is_in_keys;
use crate::errors::PatternError;
use crate::pattern::{Case, Part};
use bib_text::items::Items;
use std::alloc::Global;

// Returns the number that a text is: one digit from 1 to 9.
fn digit(text: &str) -> Option<u8>
    ensures { MatchOption result
        ((n : ℕ) → 0 < n → n < 10 → text.now ≡ (char.zero + n) ∷ [] → ⊥)
        (λ n. (0 < n) × (n < 10) × (text.now ≡ (char.zero + n) ∷ [])) }
{
    match text.as_bytes() {
        [byte @ b'1'..=b'9'] => Some(*byte - b'0'),
        _ => None,
    }
}

// Splits a placeholder into its name and its number. Returns `None` if a colon isn't followed by exactly one digit from 1 to 9.
fn name_and_count(text: &str) -> Option<(&str, Option<u8>)>
    ensures { MatchOption result
        ((name : List ℕ) (count : Option ℕ) → HasNameAndCount text.now name count → ⊥)
        (λ found. HasNameAndCount text.now found.0.now found.1) }
{
    match text.split_once(':') {
        Some((name, number)) => Some((name, Some(digit(number)?))),
        None => Some((text, None)),
    }
}

// Returns the part that a name and a number mean.
fn part_named(name: &str, count: Option<u8>) -> Option<Part>
    ensures { result ≡ part_meant name.now count }
{
    match (name, count) {
        ("author", count) => Some(Part::Author(Case::Lower, count)),
        ("Author", count) => Some(Part::Author(Case::Capital, count)),
        ("AUTHOR", count) => Some(Part::Author(Case::Upper, count)),
        ("title", count) => Some(Part::Title(Case::Lower, count)),
        ("Title", count) => Some(Part::Title(Case::Capital, count)),
        ("TITLE", count) => Some(Part::Title(Case::Upper, count)),
        ("year", None) => Some(Part::Year),
        ("year", Some(2)) => Some(Part::ShortYear),
        _ => None,
    }
}

// Returns the part that a placeholder means. `text` is the placeholder without its braces.
fn placeholder(text: &str) -> Option<Part>
    ensures { MatchOption result
        ((part : APart) → IsPlaceholder part text.now → ⊥)
        (λ part. IsPlaceholder part text.now) }
{
    let (name, count) = name_and_count(text)?;
    part_named(name, count)
}

// Returns the first part of a text, and the text after it.
fn first_part(text: &str) -> Option<(Part, &str)>
    ensures { MatchOption result
        ((part : APart) (here rest : List ℕ) → IsPart part here → text.now ≡ here ++ rest → ⊥)
        (λ found. (here : List ℕ) × IsPart found.0 here × (text.now ≡ here ++ found.1.now)) }
{
    if let Some(after) = text.strip_prefix('{') {
        let (inside, rest) = after.split_once('}')?;
        return Some((placeholder(inside)?, rest));
    }
    let mut rest = text.chars();
    let c = rest.next()?;
    if is_in_keys(c) {
        return Some((Part::Literal(c), rest.as_str()));
    }
    None
}

// Returns the error for the text `rest` at the byte offset `at`, which begins with no part.
fn stop_error(at: usize, rest: &str) -> PatternError
    ensures { result ≡ stop_error at rest.now }
{
    if rest.starts_with('{') {
        return PatternError::NoPlaceholder(at);
    }
    PatternError::NotInKeys(at)
}

// Returns the parts of a pattern.
pub(crate) fn parts(alloc: Global, text: &str) -> Result<Items<Part>, PatternError>
    ensures found { IfOk result (λ parts. IsPattern parts text.now) }
    ensures refused { IfErr result (IsPatternError text.now) }
{
    let mut parts = Items::new(alloc);
    let mut rest = text;
    'parts: while !rest.is_empty() {
        let Some((part, after)) = first_part(rest) else {
            return Err(stop_error(text.len() - rest.len(), rest));
        };
        parts.push(part)?;
        rest = after;
    }
    Ok(parts)
}
