//! Parses the names of people.

ghost use Rattle.std.specs.Prelude.{◌≡◌, IfOk};
ghost use Rattle.bib_from_ris.specs.RisNames as spec;

use crate::cuts::at_comma;
use bib_csl::item::{Name, NameParts};
use bib_text::text::Text;
use std::alloc::{AllocError, Global};

// Returns the family name, which is before the first comma.
fn family_in(text: &str) -> &str
    ensures { result.now ≡ spec.family_in text.now }
{
    let (family, _) = at_comma(text);
    family.trim()
}

// Returns the given name, which is between the first two commas.
fn given_in(text: &str) -> &str
    ensures { result.now ≡ spec.given_in text.now }
{
    let (_, rest) = at_comma(text);
    let (given, _) = at_comma(rest);
    given.trim()
}

// Returns the suffix, which is after the second comma.
fn suffix_in(text: &str) -> &str
    ensures { result.now ≡ spec.suffix_in text.now }
{
    let (_, rest) = at_comma(text);
    let (_, suffix) = at_comma(rest);
    suffix.trim()
}

// Returns whether a text contains a space.
fn has_space(text: &str) -> bool
    ensures { result ≡ spec.has_space text.now }
{
    text.as_bytes().iter().any(|b| *b == b' ')
}

// Returns whether a name has no parts: it has several words, and neither a given name nor a suffix.
#[tactic(auto, unfolding(crate::specs::RisNames::has_no_parts))]
fn is_whole_name(text: &str) -> bool
    ensures { result ≡ spec.has_no_parts text.now }
{
    given_in(text).is_empty() && suffix_in(text).is_empty() && has_space(family_in(text))
}

// Returns a name with its parts.
#[tactic(auto, unfolding(crate::specs::RisNames::parted_name))]
fn parted_name(alloc: Global, text: &str) -> Result<Name, AllocError>
    ensures { IfOk result (λ name. name ≡ spec.parted_name text.now) }
{
    Ok(Name::Parts(NameParts {
        family: Text::from_str(alloc, family_in(text))?,
        given: Text::from_str(alloc, given_in(text))?,
        suffix: Text::from_str(alloc, suffix_in(text))?,
        dropping_particle: Text::new(alloc),
        non_dropping_particle: Text::new(alloc),
    }))
}

/// Returns a name. A name of several words with neither a given name nor a suffix, such as that of an institution, has no parts.
#[tactic(auto, unfolding(crate::specs::RisNames::ris_name))]
pub(crate) fn ris_name(alloc: Global, text: &str) -> Result<Name, AllocError>
    ensures { IfOk result (λ name. name ≡ spec.ris_name text.now) }
{
    if is_whole_name(text) {
        return Ok(Name::Literal(Text::from_str(alloc, family_in(text))?));
    }
    parted_name(alloc, text)
}
