//! The white space of a merge.

ghost use Rattle.std.specs.Prelude.{◌≡◌, ◌++◌, OnOk, drop};
ghost use Rattle.std.specs.String.{string_bytes};
ghost use Rattle.edit_merge.specs.Merged as merged;
ghost use Rattle.edit_merge.specs.PartViews.{optional_text};
ghost use Rattle.edit_merge.specs.Views.{versions_of};

use crate::picking::Versions;
use crate::slots::Slot;
use edit_versions::version::Version;
use std::alloc::AllocError;

// Returns whether the base has this white space.
fn is_same_space(base: Option<&str>, space: &str) -> bool
    ensures { result ≡ merged.is_same_space (optional_text base.entry) space.now }
{
    match base {
        Some(base) => space == base,
        None => false,
    }
}

// Returns the white space of the side that changed it, or of ours if both did.
fn picked_space<'s>(
    base: Option<&'s str>,
    ours: Option<&'s str>,
    theirs: Option<&'s str>,
) -> Option<&'s str>
    ensures { optional_text result ≡ merged.picked_space (optional_text base.entry) (optional_text ours.entry) (optional_text theirs.entry) }
{
    let Some(space) = ours else {
        return theirs;
    };
    if theirs.is_some() && is_same_space(base, space) {
        theirs
    } else {
        ours
    }
}

// Returns the white space before the unit at an index, or after it if it is the first unit; if there is another unit.
fn space_at<'s>(version: &Version<'s>, index: Option<usize>) -> Option<&'s str>
    ensures { optional_text result ≡ merged.space_at version.now index }
{
    let later = index?.max(1);
    match version.texts_at(Some(later)) {
        Some(texts) => Some(texts.space),
        None => None,
    }
}

// Returns the white space before the units of a slot: a blank line if no version has some.
pub(crate) fn slot_space<'s>(versions: Versions<'_, 's>, slot: Slot) -> &'s str
    ensures { result.now ≡ merged.slot_space (versions_of versions.entry) slot }
{
    let base = space_at(versions.base, slot.base);
    let ours = space_at(versions.ours, slot.ours);
    let theirs = space_at(versions.theirs, slot.theirs);
    picked_space(base, ours, theirs).unwrap_or("\n\n")
}

// Returns the white space before the first unit, if there are units.
fn start_of<'s>(version: &Version<'s>) -> Option<&'s str>
    ensures { optional_text result ≡ merged.start_of version.now }
{
    match version.texts_at(Some(0)) {
        Some(texts) => Some(texts.space),
        None => None,
    }
}

// Returns the white space after the last unit, if there are units.
fn end_behind<'s>(version: &Version<'s>) -> Option<&'s str>
    ensures { optional_text result ≡ merged.end_behind version.now }
{
    match version.unit_at(Some(0)) {
        Some(_) => Some(version.end()),
        None => None,
    }
}

// Returns the white space before the first part.
pub(crate) fn merged_start<'s>(versions: Versions<'_, 's>) -> &'s str
    ensures { result.now ≡ merged.merged_start (versions_of versions.entry) }
{
    let base = start_of(versions.base);
    picked_space(base, start_of(versions.ours), start_of(versions.theirs)).unwrap_or("")
}

// Returns the white space after the last part.
pub(crate) fn merged_end<'s>(versions: Versions<'_, 's>) -> &'s str
    ensures { result.now ≡ merged.merged_end (versions_of versions.entry) }
{
    let base = end_behind(versions.base);
    picked_space(base, end_behind(versions.ours), end_behind(versions.theirs)).unwrap_or("")
}

// Returns the text of a merge without units.
pub(crate) fn merged_blank<'s>(versions: Versions<'_, 's>) -> &'s str
    ensures { result.now ≡ merged.merged_blank (versions_of versions.entry) }
{
    if versions.ours.end() == versions.base.end() {
        versions.theirs.end()
    } else {
        versions.ours.end()
    }
}

// Returns whether a text has a line feed after its first byte.
fn has_later_feed(text: &str) -> bool
    ensures { result ≡ merged.has_feed (drop 1 text.now) }
{
    match text.as_bytes() {
        [_, rest @ ..] => rest.contains(&b'\n'),
        [] => false,
    }
}

// Appends the white space between two parts. `is_text` is whether the units of the first part have no block.
pub(crate) fn push_space(text: &mut String, is_text: bool, space: &str) -> Result<(), AllocError>
    ensures { OnOk result (string_bytes text.new ≡ string_bytes text.old ++ merged.space_between is_text space.now) }
{
    if is_text && !has_later_feed(space) {
        text.push('\n')?;
    }
    text.push_str(space)
}
