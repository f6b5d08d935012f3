//! The versions of a merge after the renames of entries.

ghost use Rattle.std.specs.Prelude.{◌≡◌, IfOk, MatchOption, option_map};
ghost use Rattle.std.specs.String.{string_bytes};
ghost use Rattle.bib_syntax.specs.Grammar.{IsFile};
ghost use Rattle.bibkit_versions.specs.NewVersions as spec;
ghost use Rattle.edit_units.specs.Units.{AreUnits};

use edit_versions::version::Version;
use std::alloc::{AllocError, Global};

/// Returns the version of a text, or `None` if it has a syntax error. Returns an error only if out of memory.
pub(crate) fn version_of<'t>(
    alloc: Global,
    text: &'t str,
) -> Result<Option<Version<'t>>, AllocError>
    ensures { IfOk result (λ found. MatchOption found (IsFile text.now → ⊥) (λ v. (v.text ≡ text.now) × AreUnits v.text v.units)) }
{
    match Version::parse(alloc, text) {
        Ok(version) => Ok(Some(version)),
        Err(error) => {
            error.unless_out_of_memory()?;
            Ok(None)
        }
    }
}

// A version of a merge after the renames.
#[derive(Drop)]
pub(crate) enum NewVersion<'t> {
    // It is the old one.
    Old,
    // It has a new text.
    New(Version<'t>),
    // Its new text has a syntax error.
    Refused,
}

// Returns the version of a new text, or the old one if there is none.
pub(crate) fn new_version<'t>(
    alloc: Global,
    text: &'t Option<String>,
) -> Result<NewVersion<'t>, AllocError>
    ensures { IfOk result (spec.IsVersionOf (option_map string_bytes text.now)) }
{
    let Some(text) = text else {
        return Ok(NewVersion::Old);
    };
    match version_of(alloc, text)? {
        Some(version) => Ok(NewVersion::New(version)),
        None => Ok(NewVersion::Refused),
    }
}

impl<'t> NewVersion<'t> {
    // Returns this version, or `old` if it is the old one, or `None` if the new text has a syntax error.
    pub(crate) fn or_old<'v>(&'v self, old: &'v Version<'t>) -> Option<&'v Version<'t>>
        ensures { option_map (λ v. v.now) result ≡ spec.version_or self.now old.now }
    {
        match self {
            NewVersion::Old => Some(old),
            NewVersion::New(version) => Some(version),
            NewVersion::Refused => None,
        }
    }
}
