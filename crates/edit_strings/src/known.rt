//! Definitions that can be reused for collected texts.

ghost use Rattle.std.specs.Prelude.{◌≡◌, ◌==◌, ◌&&◌, ℕ, List, IfOk, OnOk, map, not};
ghost use Rattle.std.specs.Option.{option_map};
ghost use Rattle.bib_syntax.specs.Reading.{FileReading};
ghost use Rattle.bib_syntax.specs.Views.{entry_reading_of, field_of, file_of};
ghost use Rattle.edit_strings.specs.Collected as spec;
ghost use Rattle.edit_strings.specs.Collected.{known_name};
ghost use Rattle.edit_strings.specs.Collecting.{AreNameCounts, known_in, learned, name_count_in};

use crate::naming::is_month;
use crate::texts::single_text;
use bib_syntax::raw::{Pair, RawBibliography, RawEntry};
use bib_text::spanned::Spanned;
use std::alloc::{AllocError, Global};
use std::collections::BTreeMap;

// Returns the byte offset of the first entry, or 0 if there is none.
pub(crate) fn first_entry_start(entries: &[Spanned<RawEntry<'_>>]) -> usize
    ensures { result ≡ spec.first_entry_start (map entry_reading_of entries.now) }
{
    match entries {
        [first, ..] => first.span.start,
        [] => 0,
    }
}

// Returns how often `lowercase`, a name in ASCII lowercase, was counted.
fn name_count(counts: &BTreeMap<String, usize>, lowercase: &str) -> usize
    ensures { result ≡ name_count_in counts.now lowercase.now }
{
    match counts.get(lowercase) {
        Some(count) => *count,
        None => 0,
    }
}

// Returns how many definitions each name has, in any ASCII case. The names of the map are in ASCII lowercase.
fn name_counts(
    alloc: Global,
    definitions: &[Pair<'_>],
) -> Result<BTreeMap<String, usize>, AllocError>
    ensures { IfOk result (λ counts. AreNameCounts counts (map field_of definitions.now)) }
{
    let mut counts = BTreeMap::new(alloc);
    'definitions: for definition in definitions {
        let lowercase = definition.key.v.to_ascii_lowercase(alloc)?;
        let count = name_count(&counts, lowercase.as_str());
        counts.insert(lowercase, count + 1)?;
    }
    Ok(counts)
}

// Returns whether `name` begins with an ASCII digit.
fn has_digit_first(name: &str) -> bool
    ensures { result ≡ spec.has_digit_first name.now }
{
    match name.as_bytes() {
        [first, ..] => first.is_ascii_digit(),
        [] => false,
    }
}

// Returns whether `name` is no month's abbreviation, begins with no digit, and was counted once. `lowercase` is `name` in ASCII lowercase.
fn is_counted_once(counts: &BTreeMap<String, usize>, name: &str, lowercase: &str) -> bool
    ensures { result ≡ (not (spec.is_month name.now) && not (spec.has_digit_first name.now)
        && (name_count_in counts.now lowercase.now == 1)) }
{
    !is_month(name) && !has_digit_first(name) && name_count(counts, lowercase) == 1
}

// Returns whether `name` can be reused: it is no month's abbreviation, begins with no digit, and has one definition.
fn is_reusable_name(
    alloc: Global,
    counts: &BTreeMap<String, usize>,
    name: &str,
) -> Result<bool, AllocError>
    ensures { IfOk result (λ is. (says : FileReading) → AreNameCounts counts.now says.abbreviations →
        is ≡ spec.is_reusable_name says name.now) }
{
    let lowercase = name.to_ascii_lowercase(alloc)?;
    let is = is_counted_once(counts, name, lowercase.as_str());
    Ok(is)
}

// Returns the text for which `definition` can be reused: its value, if this is one literal. The definition must begin before the
// byte offset `start`, and its name must be reusable.
fn reusable_text<'s>(
    alloc: Global,
    counts: &BTreeMap<String, usize>,
    start: usize,
    definition: &Pair<'s>,
) -> Result<Option<&'s str>, AllocError>
    ensures { IfOk result (λ text. (says : FileReading) → AreNameCounts counts.now says.abbreviations →
        start ≡ spec.first_entry_start says.entries →
        option_map (λ t. t.now) text ≡ spec.reusable_text says (field_of definition.now)) }
{
    if definition.key.span.start >= start {
        return Ok(None);
    }
    if !is_reusable_name(alloc, counts, definition.key.v)? {
        return Ok(None);
    }
    Ok(single_text(&definition.value.v))
}

// Adds the name of `definition` for `text` to `known`, unless `known` has a name for this text or there is no text.
fn learn<'s>(
    known: &mut BTreeMap<&'s str, &'s str>,
    text: Option<&'s str>,
    definition: &Pair<'s>,
) -> Result<(), AllocError>
    ensures { OnOk result ((other : List ℕ) → known_in known.new other ≡
        learned (known_in known.old other) (option_map (λ t. t.now) text.entry) (field_of definition.now) other) }
{
    let Some(text) = text else {
        return Ok(());
    };
    if !known.contains_key(text) {
        known.insert(text, definition.key.v)?;
    }
    Ok(())
}

// Returns the name of the first definition that can be reused for each text that has one.
pub(crate) fn known_names<'s>(
    alloc: Global,
    raw: &RawBibliography<'s>,
) -> Result<BTreeMap<&'s str, &'s str>, AllocError>
    ensures { IfOk result (λ known. (text : List ℕ) → known_in known text ≡ known_name (file_of raw.now) text) }
{
    let counts = name_counts(alloc, &raw.abbreviations)?;
    let start = first_entry_start(&raw.entries);
    let mut known = BTreeMap::new(alloc);
    'definitions: for definition in &raw.abbreviations {
        let text = reusable_text(alloc, &counts, start, definition)?;
        learn(&mut known, text, definition)?;
    }
    Ok(known)
}
