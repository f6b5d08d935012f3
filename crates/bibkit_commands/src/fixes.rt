//! The fixes of a file: edits of single entries that mend the findings with one right remedy.
//!
//! An unknown field gets the known name that its finding suggests, and a DOI with an address becomes the DOI alone. `fixes` decides which
//! findings are mended, and `fixed_text` makes the edits. Each edit is one of `bibkit_edits`, on the text of one entry. So the time doesn't
//! grow with the number of edits times the length of the file.

use crate::edits::new_text;
use crate::misspellings::is_meant;
use crate::stops::Stop;
use bib_findings::codes::Code;
use bib_findings::finding::Finding;
use bib_findings::identities::DOI_PREFIXES;
use bib_queries::names::entry_names;
use bib_syntax::raw::{Pair, RawChunk, RawEntry};
use bib_text::spanned::Spanned;
use bibkit_edits::edit::Edit;
use edit_entries::field_edits::FieldEdit;
use edit_entries::field_value::FieldValue;
use std::alloc::{AllocError, Global};
use std::collections::BTreeMap;
use std::str::from_utf8;

/// A fix of an entry.
#[derive(Drop)]
pub struct Fix {
    /// The index of the entry.
    pub entry: usize,
    /// The change of the entry.
    pub change: Change,
}

/// The change of an entry by a fix.
#[derive(Drop)]
pub enum Change {
    /// Gives the field `old` the name `new`.
    Rename {
        /// The name of the field.
        old: String,
        /// The known name.
        new: String,
    },
    /// Sets the field `doi` to this DOI.
    Doi(String),
}

// Returns the part of a text between two byte offsets, or an empty text if there is no such part.
fn part(text: &str, start: usize, end: usize) -> &str {
    from_utf8(text.as_bytes().get(start..end).unwrap_or(&[])).unwrap_or("")
}

// Returns the text after a prefix in any ASCII case, or `None` if the text begins otherwise.
fn after_prefix<'t>(text: &'t str, prefix: &str) -> Option<&'t str> {
    if part(text, 0, prefix.len()).eq_ignore_ascii_case(prefix) {
        Some(part(text, prefix.len(), text.len()))
    } else {
        None
    }
}

// Returns whether a character of an address or of a DOI can have another meaning in the other one, or in LaTeX.
fn is_unfit(c: char) -> bool {
    c.is_whitespace() || matches!(c, '%' | '?' | '#' | '\\' | '{' | '}')
}

// Returns whether a text is a DOI that is written in the same way with and without an address.
fn is_plain_doi(text: &str) -> bool {
    text.starts_with("10.") && text.contains('/') && !text.chars().any(|c| is_unfit(c))
}

// Returns the DOI in a text that is a DOI, as `is_plain_doi` tests it, with its address, or `None` for any other text.
fn doi_in(text: &str) -> Option<&str> {
    let text = text.trim();
    'prefixes: for prefix in &DOI_PREFIXES {
        if let Some(rest) = after_prefix(text, prefix) {
            let doi = rest.trim();
            return if is_plain_doi(doi) { Some(doi) } else { None };
        }
    }
    None
}

// Adds one to the count of a name.
fn count(
    alloc: Global,
    counts: &mut BTreeMap<String, usize>,
    name: &str,
) -> Result<(), AllocError> {
    let before = count_of(counts, name);
    counts.insert(String::from_str(alloc, name)?, before.saturating_add(1))?;
    Ok(())
}

/// Returns the count of a name: 0 if the map has none.
pub fn count_of(counts: &BTreeMap<String, usize>, name: &str) -> usize {
    counts.get(name).copied().unwrap_or(0)
}

/// Returns how often each of these texts occurs.
pub fn counts_of(alloc: Global, texts: &[String]) -> Result<BTreeMap<String, usize>, AllocError> {
    let mut counts = BTreeMap::new(alloc);
    'texts: for text in texts {
        count(alloc, &mut counts, text)?;
    }
    Ok(counts)
}

// Returns how often each text is the key of an entry, or a name in the field `ids` of one.
fn name_counts(
    alloc: Global,
    entries: &[Spanned<RawEntry<'_>>],
) -> Result<BTreeMap<String, usize>, AllocError> {
    let mut counts = BTreeMap::new(alloc);
    'entries: for entry in entries {
        let names = entry_names(alloc, entry)?;
        'names: for name in &names {
            count(alloc, &mut counts, name)?;
        }
    }
    Ok(counts)
}

// Returns the field whose name begins at a byte offset.
fn field_at<'f, 's>(fields: &'f [Pair<'s>], start: usize) -> Option<&'f Pair<'s>> {
    let index = fields.partition_point(|field| field.key.span.start < start);
    let field = fields.get(index)?;
    if field.key.span.start == start {
        Some(field)
    } else {
        None
    }
}

// Returns the known name that the finding of an unknown field suggests, or `None` without a suggestion. The field is in the entry with
// this key.
fn suggestion<'f>(
    alloc: Global,
    key: &str,
    name: &str,
    finding: &'f Finding,
) -> Result<Option<&'f str>, AllocError> {
    let start = format!(in alloc; "{key}: unknown field `{name}`; did you mean `")?;
    let message = finding.message.as_str();
    Ok(
        message
            .strip_prefix(start.as_str())
            .and_then(|rest| rest.strip_suffix("`?")),
    )
}

// Returns the text of a value that is one literal, or an empty text for any other value.
fn literal_text<'s>(field: &Pair<'s>) -> &'s str {
    match field.value.v.as_slice() {
        [piece] => match piece.v {
            RawChunk::Normal(text) => text,
            RawChunk::Abbreviation(_) => "",
        },
        _ => "",
    }
}

// Returns the change of the name `old` to a suggested name, or `None` without one, or if `old` may mean another name.
fn rename_of(
    alloc: Global,
    old: &str,
    suggested: Option<&str>,
) -> Result<Option<Change>, AllocError> {
    let Some(new) = suggested else {
        return Ok(None);
    };
    if !is_meant(old.to_ascii_lowercase(alloc)?.as_str(), new) {
        return Ok(None);
    }
    Ok(Some(Change::Rename {
        old: String::from_str(alloc, old)?,
        new: String::from_str(alloc, new)?,
    }))
}

// Returns the change of the field `doi` to a DOI, or `None` without one.
fn doi_change(alloc: Global, doi: Option<&str>) -> Result<Option<Change>, AllocError> {
    match doi {
        Some(doi) => Ok(Some(Change::Doi(String::from_str(alloc, doi)?))),
        None => Ok(None),
    }
}

// Returns the change that mends a finding of an entry, or `None` if it doesn't have one right remedy.
fn change_of(
    alloc: Global,
    entry: &RawEntry<'_>,
    finding: &Finding,
) -> Result<Option<Change>, AllocError> {
    let Some(field) = field_at(&entry.fields, finding.span.start) else {
        return Ok(None);
    };
    let old = field.key.v;
    match finding.code {
        Code::UnknownField => rename_of(alloc, old, suggestion(alloc, entry.key.v, old, finding)?),
        Code::DoiAddress => doi_change(alloc, doi_in(literal_text(field))),
        _ => Ok(None),
    }
}

// Returns the names of the field that a change reads and of the field that it writes.
fn names_of(change: &Change) -> (&str, &str) {
    match change {
        Change::Rename { old, new } => (old.as_str(), new.as_str()),
        Change::Doi(_) => ("doi", "doi"),
    }
}

// Returns how often each name in ASCII lowercase is that of a field of an entry, or the new name of one of these changes.
fn field_counts(
    alloc: Global,
    entry: &RawEntry<'_>,
    changes: &[Change],
) -> Result<BTreeMap<String, usize>, AllocError> {
    let mut counts = BTreeMap::new(alloc);
    'fields: for field in &entry.fields {
        count(
            alloc,
            &mut counts,
            field.key.v.to_ascii_lowercase(alloc)?.as_str(),
        )?;
    }
    'changes: for change in changes {
        if let Change::Rename { new, .. } = change {
            count(alloc, &mut counts, new)?;
        }
    }
    Ok(counts)
}

// Returns the changes that mend these findings of an entry, if each finding is mended by itself.
fn changes_of(
    alloc: Global,
    entry: &RawEntry<'_>,
    found: &[Finding],
) -> Result<Vec<Change>, AllocError> {
    let mut changes = Vec::new(alloc);
    'found: for finding in found {
        if let Some(change) = change_of(alloc, entry, finding)? {
            changes.push(change)?;
        }
    }
    Ok(changes)
}

// Returns whether only one field of an entry has the old name of a change, and only one would have its new name, by these counts.
fn is_alone(
    alloc: Global,
    counts: &BTreeMap<String, usize>,
    change: &Change,
) -> Result<bool, AllocError> {
    let (old, new) = names_of(change);
    let old = old.to_ascii_lowercase(alloc)?;
    Ok(count_of(counts, &old) == 1 && count_of(counts, new) == 1)
}

// Appends the fixes of the entry at an index, by the findings at places in it. A change is left out if two fields of the entry have its old
// name, or if two fields would have its new name.
fn push_fixes(
    alloc: Global,
    fixes: &mut Vec<Fix>,
    index: usize,
    entry: &RawEntry<'_>,
    found: &[Finding],
) -> Result<(), AllocError> {
    let changes = changes_of(alloc, entry, found)?;
    if changes.is_empty() {
        return Ok(());
    }
    let counts = field_counts(alloc, entry, &changes)?;
    'changes: for change in changes {
        if is_alone(alloc, &counts, &change)? {
            fixes.push(Fix {
                entry: index,
                change,
            })?;
        }
    }
    Ok(())
}

// Returns those of the findings, which are in order of their starts, that begin in an entry.
fn findings_in<'f>(found: &'f [Finding], entry: &Spanned<RawEntry<'_>>) -> &'f [Finding] {
    let start = found.partition_point(|finding| finding.span.start < entry.span.start);
    let end = found.partition_point(|finding| finding.span.start < entry.span.end);
    found.get(start..end).unwrap_or(&[])
}

/// Returns the fixes of the entries of a text, in the order of the entries. `found` are the findings to mend, in order of their starts. An
/// entry is left alone unless its key occurs once among the names of all entries: their keys and the names in their fields `ids`.
pub fn fixes(
    alloc: Global,
    entries: &[Spanned<RawEntry<'_>>],
    found: &[Finding],
) -> Result<Vec<Fix>, AllocError> {
    let counts = name_counts(alloc, entries)?;
    let mut fixes = Vec::new(alloc);
    'entries: for (index, entry) in entries.iter().enumerate() {
        if count_of(&counts, entry.v.key.v) == 1 {
            let own = findings_in(found, entry);
            push_fixes(alloc, &mut fixes, index, &entry.v, own)?;
        }
    }
    Ok(fixes)
}

// Returns the edit that makes a change of the entry with one of these keys.
fn edit_of<'e>(change: &'e Change, keys: &'e [&'e str]) -> Edit<'e> {
    let edit = match change {
        Change::Rename { old, new } => FieldEdit::Rename {
            old: old.as_str(),
            new: new.as_str(),
        },
        Change::Doi(doi) => FieldEdit::Set {
            name: "doi",
            value: FieldValue::Text(doi.as_str()),
        },
    };
    Edit::Fields { keys, edit }
}

// Returns the text of an entry of the file `name` with these fixes. `keys` has the key of the entry.
fn fixed_entry<'e>(
    alloc: Global,
    name: &str,
    text: &str,
    keys: &'e [&'e str],
    fixes: &'e [Fix],
) -> Result<String, Stop> {
    let mut edits = Vec::new(alloc);
    'fixes: for fix in fixes {
        edits.push(edit_of(&fix.change, keys))?;
    }
    new_text(alloc, name, text.as_bytes(), &edits, false)
}

// Returns those of the fixes, which are in order of their entries, that are for the entry at an index.
fn fixes_of(fixes: &[Fix], index: usize) -> &[Fix] {
    let start = fixes.partition_point(|fix| fix.entry < index);
    let end = fixes.partition_point(|fix| fix.entry <= index);
    fixes.get(start..end).unwrap_or(&[])
}

/// Returns the text of the file `name` with these fixes of its entries, which are in the order of the entries.
pub fn fixed_text(
    alloc: Global,
    name: &str,
    text: &str,
    entries: &[Spanned<RawEntry<'_>>],
    fixes: &[Fix],
) -> Result<String, Stop> {
    let mut new = String::with_capacity(alloc, text.len())?;
    let mut end = 0;
    'entries: for (index, entry) in entries.iter().enumerate() {
        let own = fixes_of(fixes, index);
        if !own.is_empty() {
            let after = entry.span.end.saturating_add(1);
            let old = part(text, entry.span.start, after);
            new.push_str(part(text, end, entry.span.start))?;
            new.push_str(&fixed_entry(alloc, name, old, &[entry.v.key.v], own)?)?;
            end = after;
        }
    }
    new.push_str(part(text, end, text.len()))?;
    Ok(new)
}
