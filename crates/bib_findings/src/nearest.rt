//! The known name that an unknown one may mean.

ghost use Rattle.std.specs.Prelude.{◌≡◌, bytes_eq, IfOk, option_copied};
ghost use Rattle.std.specs.List.{list_any};
ghost use Rattle.std.specs.String.{string_bytes};
ghost use Rattle.bib_tables.specs.Requirements.{texts};
ghost use Rattle.bib_findings.specs.Nearest as spec;

use crate::entry_names::entry_name;
use std::alloc::{AllocError, Global};
use strsim::osa_distance;

// Returns whether `names` contains a name, in any ASCII case.
pub(crate) fn is_among(names: &[&'static str], name: &str) -> bool
    ensures { result ≡ spec.is_known_name (texts names.now) name.now }
{
    names.iter().any(|known| known.eq_ignore_ascii_case(name))
}

// Returns whether a text is one of these words.
pub(crate) fn is_one_of(words: &[&'static str], text: &[u8]) -> bool
    ensures { result ≡ list_any (λ word. bytes_eq word text.now) (texts words.now) }
{
    words.iter().any(|word| word.as_bytes() == text)
}

// Returns whether two texts begin with the same byte.
fn begin_alike(name: &str, known: &str) -> bool
    ensures { result ≡ spec.begin_alike name.now known.now }
{
    match (name.as_bytes(), known.as_bytes()) {
        ([first, ..], [other, ..]) => first == other,
        _ => false,
    }
}

// Returns whether the lengths of two texts in bytes differ by at most one.
fn are_of_like_length(name: &str, known: &str) -> bool
    ensures { result ≡ spec.are_of_like_length name.now known.now }
{
    name.len().saturating_sub(known.len()) <= 1 && known.len().saturating_sub(name.len()) <= 1
}

// Returns whether a name is a known one, maybe with other characters before or after it, and isn't its plural.
fn is_extension(name: &str, known: &str) -> bool
    ensures { result ≡ spec.is_extension name.now known.now }
{
    match name.strip_prefix(known) {
        Some(rest) => rest != "s",
        None => name.ends_with(known),
    }
}

// Returns whether a name may be a typing error for a known one.
fn is_plausible(alloc: Global, name: &str, known: &str) -> Result<bool, AllocError>
    ensures { IfOk result (λ plausible. plausible ≡ spec.is_plausible name.now known.now) }
{
    if name.len() < 4
        || !begin_alike(name, known)
        || !are_of_like_length(name, known)
        || is_extension(name, known)
    {
        return Ok(false);
    }
    Ok(osa_distance(alloc, name, known)? <= 1)
}

// Returns the first of these names for which a name may be a typing error, or `None` if there is no such name.
pub(crate) fn suggestion(
    alloc: Global,
    names: &[&'static str],
    name: &str,
) -> Result<Option<&'static str>, AllocError>
    ensures { IfOk result (λ known. option_copied known ≡ spec.suggestion (texts names.now) name.now) }
{
    'names: for known in names {
        if is_plausible(alloc, name, known)? {
            return Ok(Some(*known));
        }
    }
    Ok(None)
}

// Returns the message about an unknown name of the entry with this key, with the known name that is suggested. `wrong` says what is
// unknown.
pub(crate) fn unknown_message(
    alloc: Global,
    key: &str,
    wrong: &str,
    name: &str,
    known: &str,
) -> Result<String, AllocError>
    ensures { IfOk result (λ text. string_bytes text ≡ spec.unknown_message key.now wrong.now name.now known.now) }
{
    let entry = entry_name(key);
    format!(in alloc; "{entry}: {wrong} `{name}`; did you mean `{known}`?")
}
