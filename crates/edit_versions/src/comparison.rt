//! Compares units of two versions.

ghost use Rattle.std.specs.Prelude.{◌≡◌, IfOk, option_map};
ghost use Rattle.edit_versions.specs.Alike as spec;
ghost use Rattle.edit_versions.specs.Versions as versions;

use crate::alike::are_alike;
use crate::version::Version;
use std::alloc::{AllocError, Global};

// Returns whether two texts are equal, or both are absent.
fn are_same_texts(text: Option<&str>, other: Option<&str>) -> bool
    ensures { result ≡ spec.are_same_texts (option_map (λ t. t.now) text.entry) (option_map (λ t. t.now) other.entry) }
{
    match text {
        Some(text) => match other {
            Some(other) => text == other,
            None => false,
        },
        None => other.is_none(),
    }
}

/// Returns whether the units at these indices have the same bytes, or both are absent.
pub fn is_same(
    first: &Version<'_>,
    index: Option<usize>,
    second: &Version<'_>,
    other: Option<usize>,
) -> bool
    ensures { result ≡ spec.is_same first.now (versions.version_unit first.now index) second.now (versions.version_unit second.now other) }
{
    are_same_texts(first.text_at(index), second.text_at(other))
}

/// Returns whether the units at these indices are alike, or both are absent. Returns an error only if out of memory.
pub fn is_alike(
    alloc: Global,
    first: &Version<'_>,
    index: Option<usize>,
    second: &Version<'_>,
    other: Option<usize>,
) -> Result<bool, AllocError>
    ensures { IfOk result (λ alike. alike ≡
        spec.is_alike first.now (versions.version_unit first.now index) second.now (versions.version_unit second.now other)) }
{
    match first.unit_with_text(index) {
        Some((unit, text)) => match second.unit_with_text(other) {
            Some((found, found_text)) => are_alike(
                alloc,
                first.text(),
                unit,
                text,
                second.text(),
                found,
                found_text,
            ),
            None => Ok(false),
        },
        None => Ok(second.unit_with_text(other).is_none()),
    }
}
