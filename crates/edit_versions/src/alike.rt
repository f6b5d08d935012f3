//! Units that have the same content and the same comments, but may differ in their layout.

ghost use Rattle.std.specs.Prelude.{◌≡◌, ◌&&◌, ◌++◌, IfOk, OnOk, bytes_eq, filter, map, option_map};
ghost use Rattle.bib_text.specs.Places.{between, place};
ghost use Rattle.bib_syntax.specs.Views.{entry_reading_of, field_of};
ghost use Rattle.edit_units.specs.Views.{unit_reading_of};
ghost use Rattle.edit_versions.specs.Alike as spec;
ghost use Rattle.edit_versions.specs.Versions.{text_of_unit, words_with_spaces};
ghost use Rattle.edit_versions.specs.Alike.{is_no_layout, outside_fields};

use crate::names::words_with_spaces;
use bib_queries::equal_values::are_equal_pieces;
use bib_syntax::raw::{Pair, RawEntry, is_word};
use bib_text::spanned::Spanned;
use edit_units::units::Unit;
use std::alloc::{AllocError, Global};

// Returns the bytes of a text from `start` to `end`, without those that it doesn't have.
fn bytes_between(text: &[u8], start: usize, end: usize) -> &[u8]
    ensures { result.now ≡ between (place text.now start) (place text.now end) }
{
    let last = end.min(text.len());
    if start < last {
        &text[start..last]
    } else {
        &[]
    }
}

// Appends the bytes that aren't layout: neither ASCII white space nor a comma.
fn push_without_layout(kept: &mut Vec<u8>, bytes: &[u8]) -> Result<(), AllocError>
    ensures { OnOk result (kept.new.items ≡ kept.old.items ++ filter is_no_layout bytes.now) }
{
    'bytes: for byte in bytes {
        if !(byte.is_ascii_whitespace() || *byte == b',') {
            kept.push(*byte)?;
        }
    }
    Ok(())
}

/// Appends the bytes from `start` to `end` that are outside of these fields, without layout. Returns an error only if out of memory.
pub fn push_outside_fields(
    kept: &mut Vec<u8>,
    text: &[u8],
    start: usize,
    fields: &[Pair<'_>],
    end: usize,
) -> Result<(), AllocError>
    ensures { OnOk result (kept.new.items
        ≡ kept.old.items ++ filter is_no_layout (outside_fields text.now start (map field_of fields.now) end)) }
{
    let mut at = start;
    'fields: for field in fields {
        push_without_layout(kept, bytes_between(text, at, field.key.span.start))?;
        at = field.value.span.end;
    }
    push_without_layout(kept, bytes_between(text, at, end))
}

// Returns the bytes of a unit outside of the type and the fields of its entry, without layout.
fn rest_of_entry(
    alloc: Global,
    text: &[u8],
    unit: &Unit<'_>,
    entry: &Spanned<RawEntry<'_>>,
) -> Result<Vec<u8>, AllocError>
    ensures { IfOk result (λ rest. rest.items ≡ spec.rest_of_entry text.now (unit_reading_of unit.now) (entry_reading_of entry.now)) }
{
    let mut rest = Vec::new(alloc);
    let kind = &entry.v.kind.span;
    push_without_layout(&mut rest, bytes_between(text, unit.span.start, kind.start))?;
    push_outside_fields(&mut rest, text, kind.end, &entry.v.fields, unit.span.end)?;
    Ok(rest)
}

// Returns whether two fields have the same name, in any ASCII case, and equal values.
fn is_alike_field(alloc: Global, one: &Pair<'_>, other: &Pair<'_>) -> Result<bool, AllocError>
    ensures { IfOk result (λ alike. alike ≡ spec.is_alike_field (field_of one.now) (field_of other.now)) }
{
    if is_word(one.key.v, other.key.v) {
        are_equal_pieces(alloc, &one.value.v, &other.value.v)
    } else {
        Ok(false)
    }
}

// Returns whether fields are alike, one by one.
fn are_alike_fields(alloc: Global, one: &[Pair<'_>], other: &[Pair<'_>]) -> Result<bool, AllocError>
    ensures { IfOk result (λ alike. alike ≡ spec.are_alike_fields (map field_of one.now) (map field_of other.now)) }
{
    if one.len() != other.len() {
        return Ok(false);
    }
    'fields: for (index, field) in one.iter().enumerate() {
        if !is_alike_field(alloc, field, &other[index])? {
            return Ok(false);
        }
    }
    Ok(true)
}

/// Returns the entry of a unit whose only block is that entry.
pub fn single_entry<'a, 's>(unit: &'a Unit<'s>) -> Option<&'a Spanned<RawEntry<'s>>>
    ensures { option_map (λ entry. entry_reading_of entry.now) result ≡ spec.single_entry (unit_reading_of unit.now) }
{
    if unit.blocks.len() != 1 {
        return None;
    }
    match unit.raw.entries.as_slice() {
        [entry] => Some(entry),
        _ => None,
    }
}

// Returns bytes without the ASCII white space at their start.
fn without_start_space(bytes: &[u8]) -> &[u8]
    ensures { result.now ≡ spec.without_start_space bytes.now }
{
    bytes.trim_ascii_start()
}

// Returns bytes without the ASCII white space at their end.
fn without_end_space(bytes: &[u8]) -> &[u8]
    ensures { result.now ≡ spec.without_end_space bytes.now }
{
    bytes.trim_ascii_end()
}

// Returns the bytes of a unit before its entry, without white space at their start.
fn before_entry<'t>(text: &'t [u8], unit: &Unit<'_>, entry: &Spanned<RawEntry<'_>>) -> &'t [u8]
    ensures { result.now ≡ spec.before_entry text.now (unit_reading_of unit.now) (entry_reading_of entry.now) }
{
    without_start_space(bytes_between(text, unit.span.start, entry.span.start))
}

// Returns the bytes of a unit after its entry, from the closing brace on, without white space at their end.
fn behind_entry<'t>(text: &'t [u8], unit: &Unit<'_>, entry: &Spanned<RawEntry<'_>>) -> &'t [u8]
    ensures { result.now ≡ spec.behind_entry text.now (unit_reading_of unit.now) (entry_reading_of entry.now) }
{
    without_end_space(bytes_between(text, entry.span.end, unit.span.end))
}

// Returns whether the texts before and after two entries of units are equal, except for white space around them.
fn are_equal_around(
    text: &[u8],
    unit: &Unit<'_>,
    entry: &Spanned<RawEntry<'_>>,
    other: &[u8],
    second: &Unit<'_>,
    found: &Spanned<RawEntry<'_>>,
) -> bool
    ensures { result ≡ (bytes_eq (spec.before_entry text.now (unit_reading_of unit.now) (entry_reading_of entry.now))
        (spec.before_entry other.now (unit_reading_of second.now) (entry_reading_of found.now))
        && bytes_eq (spec.behind_entry text.now (unit_reading_of unit.now) (entry_reading_of entry.now))
        (spec.behind_entry other.now (unit_reading_of second.now) (entry_reading_of found.now))) }
{
    before_entry(text, unit, entry) == before_entry(other, second, found)
        && behind_entry(text, unit, entry) == behind_entry(other, second, found)
}

// Returns whether two units with these entries are alike: the types are equal, in any ASCII case, the fields are alike, the text before and
// after the entries is equal except for white space around it, and the rest is equal except for white space and commas.
fn are_alike_entries(
    alloc: Global,
    text: &[u8],
    unit: &Unit<'_>,
    entry: &Spanned<RawEntry<'_>>,
    other: &[u8],
    second: &Unit<'_>,
    found: &Spanned<RawEntry<'_>>,
) -> Result<bool, AllocError>
    ensures { IfOk result (λ alike. alike ≡ spec.are_alike_entries text.now (unit_reading_of unit.now) (entry_reading_of entry.now)
        other.now (unit_reading_of second.now) (entry_reading_of found.now)) }
{
    if !is_word(entry.v.kind.v, found.v.kind.v) {
        return Ok(false);
    }
    if !are_alike_fields(alloc, &entry.v.fields, &found.v.fields)? {
        return Ok(false);
    }
    if !are_equal_around(text, unit, entry, other, second, found) {
        return Ok(false);
    }
    let rest = rest_of_entry(alloc, text, unit, entry)?;
    let other_rest = rest_of_entry(alloc, other, second, found)?;
    Ok(rest.as_slice() == other_rest.as_slice())
}

// Returns whether two units with one entry each are alike.
fn are_alike_by(
    alloc: Global,
    text: &[u8],
    unit: &Unit<'_>,
    other: &[u8],
    second: &Unit<'_>,
) -> Result<bool, AllocError>
    ensures { IfOk result (λ alike. alike ≡ spec.are_alike_by text.now (unit_reading_of unit.now) (spec.single_entry (unit_reading_of unit.now))
        other.now (unit_reading_of second.now) (spec.single_entry (unit_reading_of second.now))) }
{
    match single_entry(unit) {
        Some(entry) => match single_entry(second) {
            Some(found) => are_alike_entries(alloc, text, unit, entry, other, second, found),
            None => Ok(false),
        },
        None => Ok(false),
    }
}

// Returns whether a text has a percent sign.
fn has_comment_sign(text: &str) -> bool
    ensures { result ≡ spec.has_comment_sign text.now }
{
    text.as_bytes().contains(&b'%')
}

// Returns whether two units have no percent sign, and are alike by their entries. `own` and `other_own` are the bytes of the units.
fn are_alike_in_layout(
    alloc: Global,
    text: &str,
    unit: &Unit<'_>,
    own: &str,
    other: &str,
    second: &Unit<'_>,
    other_own: &str,
) -> Result<bool, AllocError>
    requires own { own.now ≡ text_of_unit text.now (unit_reading_of unit.now) }
    requires other_own { other_own.now ≡ text_of_unit other.now (unit_reading_of second.now) }
    ensures { IfOk result (λ alike. alike ≡
        spec.are_alike_in_layout text.now (unit_reading_of unit.now) other.now (unit_reading_of second.now)) }
{
    if has_comment_sign(own) || has_comment_sign(other_own) {
        return Ok(false);
    }
    are_alike_by(alloc, text.as_bytes(), unit, other.as_bytes(), second)
}

// Returns whether two texts have the same words.
fn are_equal_words(alloc: Global, text: &str, other: &str) -> Result<bool, AllocError>
    ensures { IfOk result (λ equal. equal ≡ bytes_eq (words_with_spaces text.now) (words_with_spaces other.now)) }
{
    let words = words_with_spaces(alloc, text)?;
    let others = words_with_spaces(alloc, other)?;
    Ok(words.as_str() == others.as_str())
}

// Returns whether two units of two texts are alike. `own` and `other_own` are the bytes of the units. Returns an error only if out of memory.
pub(crate) fn are_alike(
    alloc: Global,
    text: &str,
    unit: &Unit<'_>,
    own: &str,
    other: &str,
    second: &Unit<'_>,
    other_own: &str,
) -> Result<bool, AllocError>
    requires own { own.now ≡ text_of_unit text.now (unit_reading_of unit.now) }
    requires other_own { other_own.now ≡ text_of_unit other.now (unit_reading_of second.now) }
    ensures { IfOk result (λ alike. alike ≡ spec.are_alike text.now (unit_reading_of unit.now) other.now (unit_reading_of second.now)) }
{
    if own == other_own {
        return Ok(true);
    }
    if are_alike_in_layout(alloc, text, unit, own, other, second, other_own)? {
        return Ok(true);
    }
    if unit.blocks.is_empty() && second.blocks.is_empty() {
        return are_equal_words(alloc, own, other_own);
    }
    Ok(false)
}
