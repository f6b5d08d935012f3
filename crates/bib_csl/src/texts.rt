//! The texts of fields, plain or with HTML tags.

ghost use Rattle.std.specs.Prelude.{◌≡◌, [], codes, eqb, IfOk};
ghost use Rattle.std.specs.List.{ends_with};
ghost use Rattle.std.specs.Option.{option_copied};
ghost use Rattle.bib_entry.specs.Fields.{field_or};
ghost use Rattle.bib_csl.specs.Texts.{field, shown_field, title_text, rich_text, rich_text_or, either, joined, joined_by_mark, ends_with_mark, ends_with_mark_before, listed_after, listed_field, series_named};

use crate::markup::{marked_chunks, marked_field};
use crate::standing::shown;
use bib_chunks::chunk::cuts::and_list;
use bib_chunks::chunk::{Chunks, ChunksRef};
use bib_entry::entry::Entry;
use bib_text::text::Text;
use std::alloc::{AllocError, Global};

/// Returns the field `name`, or else the field `other`.
pub fn field_or<'e>(entry: &'e Entry, name: &str, other: &str) -> Option<ChunksRef<'e>>
    ensures { option_copied result ≡ field_or entry.now name.now other.now }
{
    match entry.get(name) {
        Some(chunks) => Some(chunks),
        None => entry.get(other),
    }
}

// Returns the plain text of a field, or an empty text if the field is missing.
#[tactic(auto, unfolding(crate::specs::Texts::shown_field))]
pub(crate) fn shown_field(alloc: Global, field: Option<ChunksRef<'_>>) -> Result<Text, AllocError>
    ensures { IfOk result (λ shown. shown ≡ shown_field (option_copied field.entry)) }
{
    match field {
        Some(chunks) => shown(alloc, chunks),
        None => Ok(Text::new(alloc)),
    }
}

/// Returns the plain text of the field `name`, or an empty text if the field is missing. The only error is out of memory.
pub fn plain_text(alloc: Global, entry: &Entry, name: &str) -> Result<Text, AllocError>
    ensures { IfOk result (λ shown. shown ≡ shown_field (field entry.now name.now)) }
{
    shown_field(alloc, entry.get(name))
}

// Returns the text of the field `name`, a title, with HTML tags. Verbatim text is in a tag that keeps its case, with the
// exceptions of `markup`.
#[tactic(auto, unfolding(crate::specs::Texts::title_text))]
pub(crate) fn title_text(alloc: Global, entry: &Entry, name: &str) -> Result<Text, AllocError>
    ensures { IfOk result (λ shown. shown ≡ title_text entry.now name.now) }
{
    marked_field(alloc, true, entry.get(name))
}

// Returns the text of the field `name`, which is no title, with HTML tags.
#[tactic(auto, unfolding(crate::specs::Texts::rich_text))]
pub(crate) fn rich_text(alloc: Global, entry: &Entry, name: &str) -> Result<Text, AllocError>
    ensures { IfOk result (λ shown. shown ≡ rich_text entry.now name.now) }
{
    marked_field(alloc, false, entry.get(name))
}

// Returns the text of the field `name`, or else of the field `other`, with HTML tags.
#[tactic(auto, unfolding(crate::specs::Texts::rich_text_or))]
pub(crate) fn rich_text_or(
    alloc: Global,
    entry: &Entry,
    name: &str,
    other: &str,
) -> Result<Text, AllocError>
    ensures { IfOk result (λ shown. shown ≡ rich_text_or entry.now name.now other.now) }
{
    marked_field(alloc, false, field_or(entry, name, other))
}

/// Returns the first text, or the other one if the first is empty.
#[tactic(auto, unfolding(crate::specs::Texts::either))]
pub fn either(first: Text, other: Text) -> Text
    ensures { result ≡ either first other }
{
    if first.is_empty() { other } else { first }
}

// Returns two texts with the separator between them, or only one of them if the other is empty.
#[tactic(auto, unfolding(crate::specs::Texts::joined))]
pub(crate) fn joined(separator: &str, first: Text, next: Text) -> Result<Text, AllocError>
    ensures { IfOk result (λ shown. shown ≡ joined separator.now first next) }
{
    if next.is_empty() {
        return Ok(first);
    }
    if first.is_empty() {
        return Ok(next);
    }
    let mut text = first;
    text.push_str(separator)?;
    text.push_str(next.as_str())?;
    Ok(text)
}

// Returns whether a text ends with another.
fn has_end(text: &str, end: &str) -> bool
    ensures { result ≡ ends_with eqb text.now end.now }
{
    text.ends_with(end)
}

// Returns whether a text ends with a mark after which no other mark is written.
fn ends_with_plain_mark(text: &str) -> bool
    ensures { result ≡ ends_with_mark_before [] text.now }
{
    let is_end = has_end(text, "?") | has_end(text, "!") | has_end(text, ".");
    is_end | has_end(text, ",") | has_end(text, ":") | has_end(text, ";")
}

// Returns whether a text ends with such a mark and then `</i>`.
fn ends_with_emphasized_mark(text: &str) -> bool
    ensures { result ≡ ends_with_mark_before (codes "</i>") text.now }
{
    let is_end = has_end(text, "?</i>") | has_end(text, "!</i>") | has_end(text, ".</i>");
    is_end | has_end(text, ",</i>") | has_end(text, ":</i>") | has_end(text, ";</i>")
}

// Returns whether a text ends with such a mark and then `</span>`.
fn ends_with_mark_of_kept_case(text: &str) -> bool
    ensures { result ≡ ends_with_mark_before (codes "</span>") text.now }
{
    let is_end = has_end(text, "?</span>") | has_end(text, "!</span>") | has_end(text, ".</span>");
    is_end | has_end(text, ",</span>") | has_end(text, ":</span>") | has_end(text, ";</span>")
}

// Returns whether a text ends with a mark after which no other mark is written, or with one and then `</i>` or `</span>`.
#[tactic(auto, unfolding(crate::specs::Texts::ends_with_mark))]
fn ends_with_mark(text: &str) -> bool
    ensures { result ≡ ends_with_mark text.now }
{
    ends_with_plain_mark(text)
        || ends_with_emphasized_mark(text)
        || ends_with_mark_of_kept_case(text)
}

/// Returns two texts with a mark and a space between them, or only one of them if the other is empty. After a text that ends with a mark of
/// its own there is only the space. The only error is out of memory.
#[tactic(auto, unfolding(crate::specs::Texts::joined_by_mark, crate::specs::Texts::mark_after))]
pub fn joined_by_mark(
    alloc: Global,
    mark: &str,
    first: Text,
    next: Text,
) -> Result<Text, AllocError>
    ensures { IfOk result (λ shown. shown ≡ joined_by_mark mark.now first next) }
{
    if ends_with_mark(first.as_str()) {
        return joined(" ", first, next);
    }
    let mut separator = Text::from_str(alloc, mark)?;
    separator.push_str(" ")?;
    joined(separator.as_str(), first, next)
}

// Returns the texts of the parts of a list, with semicolons between them.
fn listed(alloc: Global, parts: &[Chunks]) -> Result<Text, AllocError>
    ensures { IfOk result (λ shown. shown ≡ listed_after [] parts.now) }
{
    let mut text = Text::new(alloc);
    'parts: for part in parts {
        text = joined("; ", text, marked_chunks(alloc, false, part.as_slice())?)?;
    }
    Ok(text)
}

// Returns the texts of a field that is a list, or an empty text if the field is missing.
#[tactic(auto, unfolding(crate::specs::Texts::listed_field))]
fn listed_field(alloc: Global, field: Option<ChunksRef<'_>>) -> Result<Text, AllocError>
    ensures { IfOk result (λ shown. shown ≡ listed_field (option_copied field.entry)) }
{
    let Some(chunks) = field else {
        return Ok(Text::new(alloc));
    };
    let list = and_list(alloc, chunks)?;
    listed(alloc, list.as_slice())
}

// Returns the texts of the field `name`, which is a list.
pub(crate) fn list_text(alloc: Global, entry: &Entry, name: &str) -> Result<Text, AllocError>
    ensures { IfOk result (λ shown. shown ≡ listed_field (field entry.now name.now)) }
{
    listed_field(alloc, entry.get(name))
}

/// Returns the texts of the field `name`, or else of the field `other`, which are lists, with semicolons between their parts and with HTML
/// tags. The only error is out of memory.
pub fn list_text_or(
    alloc: Global,
    entry: &Entry,
    name: &str,
    other: &str,
) -> Result<Text, AllocError>
    ensures { IfOk result (λ shown. shown ≡ listed_field (field_or entry.now name.now other.now)) }
{
    listed_field(alloc, field_or(entry, name, other))
}

/// Returns the text for BibLaTeX's keys in the field `series`, or any other text as it is. The only error is out of memory.
#[tactic(auto, unfolding(crate::specs::Texts::series_named))]
pub fn series_named(alloc: Global, text: Text) -> Result<Text, AllocError>
    ensures { IfOk result (λ named. named ≡ series_named text) }
{
    match text.as_str() {
        "newseries" => Text::from_str(alloc, "new series"),
        "oldseries" => Text::from_str(alloc, "old series"),
        _ => Ok(text),
    }
}
