//! The lines for changes.

ghost use Rattle.std.specs.Prelude.{◌≡◌, ◌++◌, IfOk, OnOk, count_by, map, option_map};
ghost use Rattle.std.specs.List.{flat_map};
ghost use Rattle.std.specs.String.{string_bytes};
ghost use Rattle.bib_syntax.specs.Views.{entry_reading_of};
ghost use Rattle.edit_changes.specs.Changes.{is_layout};
ghost use Rattle.bibkit_versions.specs.FactViews.{facts_view};
ghost use Rattle.bibkit_versions.specs.Lines as spec;

use crate::facts::{Facts, facts_of};
use crate::labels::{label_at, shown};
use bib_syntax::raw::RawEntry;
use bib_text::spanned::Spanned;
use edit_changes::changes::Change;
use edit_versions::version::Version;
use std::alloc::{AllocError, Global};

/// The unit that a change is about.
#[derive(Debug, Clone, Copy, PartialEq, Eq)]
pub(crate) enum Subject {
    /// A unit of the old version.
    Old(usize),
    /// A unit of the new version.
    New(usize),
    /// No unit, or all of them.
    Whole,
}

impl Subject {
    /// Returns the unit that a change is about.
    pub(crate) fn of(change: Change) -> Self
        ensures { result ≡ spec.change_subject change }
    {
        match change {
            Change::Removed { old } => Subject::Old(old),
            Change::Added { new } => Subject::New(new),
            Change::Renamed(place)
            | Change::TypeSet(place)
            | Change::FieldRemoved { place, .. }
            | Change::FieldAdded { place, .. }
            | Change::FieldSet { place, .. }
            | Change::CommentsSet(place)
            | Change::TextSet(place)
            | Change::LayoutSet(place) => Subject::New(place.new),
            Change::Reordered => Subject::Whole,
        }
    }

    // Returns the unit whose name is in the line of a change: none for a new key, since the line has both keys.
    fn of_line(change: Change) -> Self
        ensures { result ≡ spec.line_subject change }
    {
        match change {
            Change::Renamed(_) => Subject::Whole,
            _ => Subject::of(change),
        }
    }
}

// Returns the word at the start of the line of a change.
fn verb(change: Change) -> &'static str
    ensures { result.now ≡ spec.verb change }
{
    match change {
        Change::Removed { .. } => "removed  ",
        Change::Added { .. } => "added    ",
        Change::Renamed(_) => "renamed  ",
        _ => "changed  ",
    }
}

// Returns the old and the new text, with an arrow between them if there are both.
fn arrow(alloc: Global, old: &Option<String>, new: &Option<String>) -> Result<String, AllocError>
    ensures { IfOk result (λ text. string_bytes text ≡ spec.arrow (option_map string_bytes old.now) (option_map string_bytes new.now)) }
{
    match old {
        Some(old) => match new {
            Some(new) => {
                let old = shown(alloc, old)?;
                let new = shown(alloc, new)?;
                format!(in alloc; "{old} -> {new}")
            }
            None => {
                let old = shown(alloc, old)?;
                format!(in alloc; "removed {old}")
            }
        },
        None => match new {
            Some(new) => {
                let new = shown(alloc, new)?;
                format!(in alloc; "added {new}")
            }
            None => Ok(String::new(alloc)),
        },
    }
}

// Returns the name of a field and a colon, or an empty text if there is none.
fn field_prefix(alloc: Global, field: &Option<String>) -> Result<String, AllocError>
    ensures { IfOk result (λ text. string_bytes text ≡ spec.field_prefix (option_map string_bytes field.now)) }
{
    match field {
        Some(name) => {
            let name = shown(alloc, name)?;
            format!(in alloc; "{name}: ")
        }
        None => Ok(String::new(alloc)),
    }
}

// Returns the parts of a change.
fn facts_text(alloc: Global, facts: &Facts) -> Result<String, AllocError>
    ensures { IfOk result (λ text. string_bytes text ≡ spec.facts_text (facts_view facts.now)) }
{
    let mut text = field_prefix(alloc, &facts.field)?;
    text.push_str(&arrow(alloc, &facts.old, &facts.new)?)?;
    Ok(text)
}

// Returns the word for a number of fields.
fn fields_word(count: usize) -> &'static str
    ensures { result.now ≡ spec.fields_word count }
{
    if count == 1 { " field)" } else { " fields)" }
}

// Returns the type and the number of fields of the first of these entries, or an empty text if there is none.
fn summary_by(alloc: Global, entries: &[Spanned<RawEntry<'_>>]) -> Result<String, AllocError>
    ensures { IfOk result (λ text. string_bytes text ≡ spec.summary_by (map entry_reading_of entries.now)) }
{
    let Some(entry) = entries.first() else {
        return Ok(String::new(alloc));
    };
    let kind = shown(alloc, entry.v.kind.v)?;
    let count = entry.v.fields.len();
    format!(in alloc; "(@{kind}, {count}{}", fields_word(count))
}

// Returns the summary of the first entry of the unit at an index.
fn summary_at(alloc: Global, version: &Version<'_>, index: usize) -> Result<String, AllocError>
    ensures { IfOk result (λ text. string_bytes text ≡ spec.summary_at version.now index) }
{
    match version.unit_at(Some(index)) {
        Some(unit) => summary_by(alloc, &unit.raw.entries),
        None => Ok(String::new(alloc)),
    }
}

// Returns the text after the name of the unit of a change.
fn detail(
    alloc: Global,
    old: &Version<'_>,
    new: &Version<'_>,
    change: Change,
) -> Result<String, AllocError>
    ensures { IfOk result (λ text. string_bytes text ≡ spec.detail old.now new.now change) }
{
    match change {
        Change::Removed { old: index } => summary_at(alloc, old, index),
        Change::Added { new: index } => summary_at(alloc, new, index),
        Change::CommentsSet(_) => String::from_str(alloc, "comments"),
        Change::TextSet(_) | Change::LayoutSet(_) => Ok(String::new(alloc)),
        Change::Reordered => String::from_str(alloc, "the order of the entries"),
        _ => {
            let facts = facts_of(alloc, old, new, change)?;
            facts_text(alloc, &facts)
        }
    }
}

// Returns two spaces before a text, or an empty text before an empty one.
fn gap_before(text: &str) -> &'static str
    ensures { result.now ≡ spec.gap_to text.now }
{
    if text.is_empty() { "" } else { "  " }
}

// Returns the name of a unit, and a text after it.
fn after_label(label: String, text: &str) -> Result<String, AllocError>
    ensures { IfOk result (λ body. string_bytes body ≡ spec.after_label (string_bytes label) text.now) }
{
    let mut body = label;
    body.push_str(gap_before(text))?;
    body.push_str(text)?;
    Ok(body)
}

// Returns the name of the unit that a line is about, and a text after it.
fn body(
    alloc: Global,
    old: &Version<'_>,
    new: &Version<'_>,
    subject: Subject,
    text: String,
) -> Result<String, AllocError>
    ensures { IfOk result (λ body. string_bytes body ≡ spec.body old.now new.now subject (string_bytes text)) }
{
    match subject {
        Subject::Old(index) => after_label(label_at(alloc, old, index)?, &text),
        Subject::New(index) => after_label(label_at(alloc, new, index)?, &text),
        Subject::Whole => Ok(text),
    }
}

// Appends the line of a change, unless it is one of the layout only.
fn push_line(
    alloc: Global,
    lines: &mut String,
    old: &Version<'_>,
    new: &Version<'_>,
    change: Change,
) -> Result<(), AllocError>
    ensures { OnOk result (string_bytes lines.new ≡ string_bytes lines.old ++ spec.change_line old.now new.now change) }
{
    if change.is_layout() {
        return Ok(());
    }
    let detail = detail(alloc, old, new, change)?;
    let body = body(alloc, old, new, Subject::of_line(change), detail)?;
    lines.push_str("  ")?;
    lines.push_str(verb(change))?;
    lines.push_str(&body)?;
    lines.push_str("\n")
}

// Appends the line with the number of changes of the layout only, if there is one.
fn push_layout_line(alloc: Global, lines: &mut String, count: usize) -> Result<(), AllocError>
    ensures { OnOk result (string_bytes lines.new ≡ string_bytes lines.old ++ spec.layout_line count) }
{
    if count == 0 {
        return Ok(());
    }
    let word = if count == 1 { " unit\n" } else { " units\n" };
    let line = format!(in alloc; "  layout   of {count}{word}")?;
    lines.push_str(&line)
}

/// Returns the number of changes of the layout only.
pub(crate) fn layout_count(changes: &[Change]) -> usize
    ensures { result ≡ count_by is_layout changes.now }
{
    let mut count = 0usize;
    'changes: for change in changes {
        if change.is_layout() {
            count += 1;
        }
    }
    count
}

// Appends the lines of changes.
fn push_lines(
    alloc: Global,
    lines: &mut String,
    old: &Version<'_>,
    new: &Version<'_>,
    changes: &[Change],
) -> Result<(), AllocError>
    ensures { OnOk result (string_bytes lines.new ≡ string_bytes lines.old ++ flat_map (spec.change_line old.now new.now) changes.now) }
{
    'changes: for change in changes {
        push_line(alloc, lines, old, new, *change)?;
    }
    Ok(())
}

/// Returns the changes of a file with this name: its name and their lines, or an empty text if there are none.
pub(crate) fn changes_text(
    alloc: Global,
    name: &str,
    old: &Version<'_>,
    new: &Version<'_>,
    changes: &[Change],
) -> Result<String, AllocError>
    ensures { IfOk result (λ text. string_bytes text ≡ spec.changes_text name.now old.now new.now changes.now) }
{
    if changes.is_empty() {
        return Ok(String::new(alloc));
    }
    let mut text = format!(in alloc; "{name}\n")?;
    push_lines(alloc, &mut text, old, new, changes)?;
    push_layout_line(alloc, &mut text, layout_count(changes))?;
    Ok(text)
}
