//! Notes on the fields that a conversion keeps although the dialect has another field for them or doesn't read them. There are also notes
//! on replaced dates that it doesn't read fully.

ghost use Rattle.std.specs.Prelude.{◌≡◌, ◌++◌, IfOk, OnOk, is_some, map};
ghost use Rattle.std.specs.Option.{option_and_then, option_map};
ghost use Rattle.std.specs.String.{string_bytes};
ghost use Rattle.bib_tables.specs.EntryType.{entry_type_of};
ghost use Rattle.bib_syntax.specs.Views.{entry_reading_of, field_of};
ghost use Rattle.edit_convert.specs.Conversions as conversions;
ghost use Rattle.edit_convert.specs.Notes as spec;
ghost use Rattle.edit_convert.specs.Notes.{file_notes, indexed, note_at};
ghost use Rattle.edit_convert.specs.Rules.{rules_note};
ghost use Rattle.edit_convert.specs.Tables.{lent_names, lent_text, printed_of, replacement_by, replacement_by_one};

use crate::changes::{Changes, changes_of};
use crate::dates::has_unread_parts;
use crate::fields::{date_to_divide, is_date_part};
use crate::joining::defines_month;
use crate::names::{is_one_of, other_name, other_names};
use bib_syntax::raw::{Pair, RawEntry, is_word};
use bib_tables::dialects::Dialect;
use bib_tables::mechanics::EntryType;
use bib_text::spanned::Spanned;
use edit_entries::document::RawDocument;
use std::alloc::{AllocError, Global};

/// The reason for a note on a field.
#[derive(Debug, Clone, Copy, PartialEq, Eq)]
pub enum NoteKind {
    /// The field keeps its name, because its entry has a field with the dialect's name for it.
    NameIsThere,
    /// The field is a `date` that isn't replaced. Its value isn't one literal, is no date that can be divided, or its entry already
    /// has fields of the parts of a date or another `date`.
    DateStays,
    /// The field is a `month` that isn't joined with a year to a date.
    MonthStays,
    /// No standard style of BibTeX reads a field with this name.
    NotRead,
    /// The field is a `date` that is replaced by fields of its parts. It has a day or is a range, and no standard style of BibTeX reads
    /// all these fields.
    PartsNotRead,
}

/// A note on a field.
#[derive(Debug, Clone, Copy, PartialEq, Eq)]
pub struct Note {
    /// The index of the entry, from 0.
    pub entry: usize,
    /// The index of the field in its entry, from 0.
    pub field: usize,
    /// The reason for the note.
    pub kind: NoteKind,
}

// Returns whether the standard styles of BibTeX read a field with a name, in any ASCII case.
fn is_bibtex_field(name: &str) -> bool
    ensures { result ≡ spec.is_bibtex_field name.now }
{
    is_one_of(
        &[
            "address",
            "author",
            "booktitle",
            "chapter",
            "crossref",
            "edition",
            "editor",
            "howpublished",
            "institution",
            "journal",
            "key",
            "month",
            "note",
            "number",
            "organization",
            "pages",
            "publisher",
            "school",
            "series",
            "title",
            "type",
            "volume",
            "year",
        ],
        name,
    )
}

// Returns the note on a field that is kept, for BibTeX.
fn bibtex_note(field: &Pair<'_>) -> Option<NoteKind>
    ensures { result ≡ spec.bibtex_note (field_of field.now) }
{
    if is_word(field.key.v, "date") {
        return Some(NoteKind::DateStays);
    }
    if is_bibtex_field(field.key.v) {
        return None;
    }
    Some(NoteKind::NotRead)
}

// Returns the note on a field that is kept, for BibLaTeX.
fn biblatex_note(field: &Pair<'_>) -> Option<NoteKind>
    ensures { result ≡ spec.biblatex_note (field_of field.now) }
{
    if is_word(field.key.v, "month") {
        Some(NoteKind::MonthStays)
    } else {
        None
    }
}

// Returns the note on a field that is kept. `other` is the dialect's other name for it.
fn kept_note(dialect: Dialect, other: Option<&str>, field: &Pair<'_>) -> Option<NoteKind>
    ensures { result ≡ spec.kept_note dialect (lent_text other.entry) (field_of field.now) }
{
    if other.is_some() {
        return Some(NoteKind::NameIsThere);
    }
    match dialect {
        Dialect::Biblatex => biblatex_note(field),
        Dialect::Bibtex => bibtex_note(field),
    }
}

// The data that the notes on an entry's fields depend on: the names that the dialect replaces, and the changes of the entry.
#[derive(Drop)]
struct Rules {
    dialect: Dialect,
    names: &'static [(&'static str, &'static str)],
    changes: Changes,
}

// Returns the rules of an entry. `defines` is whether the file defines the abbreviation of a month.
fn rules_of(
    alloc: Global,
    dialect: Dialect,
    defines: bool,
    text: &str,
    entry: &RawEntry<'_>,
) -> Result<Rules, AllocError>
    ensures dialect { IfOk result (λ rules. rules.dialect ≡ dialect) }
    ensures defines { IfOk result (λ rules. rules.changes.defines ≡ defines) }
    ensures names { IfOk result (λ rules. lent_names rules.names.now ≡
        conversions.other_names dialect (entry_type_of entry.now.kind.v.now)) }
    ensures free { IfOk result (λ rules. lent_names rules.changes.names.items ≡
        conversions.free_names (map field_of entry.now.fields.items)
        (conversions.other_names dialect (entry_type_of entry.now.kind.v.now))) }
    ensures printed { IfOk result (λ rules. printed_of rules.changes.printed ≡
        conversions.printed_type dialect (entry_type_of entry.now.kind.v.now) (map field_of entry.now.fields.items)) }
    ensures divides { IfOk result (λ rules. rules.changes.divides ≡
        conversions.divides_date dialect (map field_of entry.now.fields.items)) }
    ensures joined { IfOk result (λ rules. option_map string_bytes rules.changes.joined ≡
        conversions.joined_date dialect defines text.now (map field_of entry.now.fields.items)) }
{
    let kind = EntryType::new(alloc, entry.kind.v)?;
    let changes = changes_of(alloc, dialect, defines, text, &kind, &entry.fields)?;
    Ok(Rules {
        dialect,
        names: other_names(dialect, &kind),
        changes,
    })
}

// Returns whether a field is replaced, and not by fields of the parts of a date.
fn is_replaced_by_one(changes: &Changes, field: &Pair<'_>) -> bool
    ensures { result ≡ is_some (replacement_by_one changes.now (field_of field.now)) }
{
    if is_date_part(field) && changes.joined.is_some() {
        return true;
    }
    if other_name(&changes.names, field.key.v).is_some() {
        return true;
    }
    is_word(field.key.v, "type") && changes.printed.is_some()
}

// Returns whether a field is replaced.
pub(crate) fn is_replaced(
    alloc: Global,
    changes: &Changes,
    field: &Pair<'_>,
) -> Result<bool, AllocError>
    ensures { IfOk result (λ gives. gives ≡ is_some (replacement_by changes.now (field_of field.now))) }
{
    if is_replaced_by_one(changes, field) {
        return Ok(true);
    }
    Ok(date_to_divide(alloc, changes.divides, field)?.is_some())
}

// Returns the note on a field that is replaced, if there is one.
fn replaced_note(
    alloc: Global,
    changes: &Changes,
    field: &Pair<'_>,
) -> Result<Option<NoteKind>, AllocError>
    ensures { IfOk result (λ note. note ≡ option_and_then spec.replaced_note (replacement_by changes.now (field_of field.now))) }
{
    if is_replaced_by_one(changes, field) {
        return Ok(None);
    }
    let Some(sides) = date_to_divide(alloc, changes.divides, field)? else {
        return Ok(None);
    };
    if has_unread_parts(&sides) {
        return Ok(Some(NoteKind::PartsNotRead));
    }
    Ok(None)
}

// Returns the note on a field, if there is one.
fn field_note(
    alloc: Global,
    rules: &Rules,
    field: &Pair<'_>,
) -> Result<Option<NoteKind>, AllocError>
    ensures { IfOk result (λ note. note ≡ rules_note rules.now (field_of field.now)) }
{
    if is_replaced(alloc, &rules.changes, field)? {
        return replaced_note(alloc, &rules.changes, field);
    }
    Ok(kept_note(rules.dialect, other_name(rules.names, field.key.v), field))
}

// Adds the note on the field with an index, if there is one.
fn push_note(
    notes: &mut Vec<Note>,
    entry: usize,
    field: usize,
    kind: Option<NoteKind>,
) -> Result<(), AllocError>
    ensures { OnOk result (notes.new.items ≡ notes.old.items ++ note_at entry field kind) }
{
    let Some(kind) = kind else {
        return Ok(());
    };
    notes.push(Note { entry, field, kind })?;
    Ok(())
}

// Adds the notes on fields of the entry with an index.
fn push_field_notes(
    notes: &mut Vec<Note>,
    alloc: Global,
    rules: &Rules,
    index: usize,
    fields: &[Pair<'_>],
) -> Result<(), AllocError>
    ensures { OnOk result (notes.new.items ≡ notes.old.items
        ++ indexed (λ j f. note_at index j (rules_note rules.now f)) 0 (map field_of fields.now)) }
{
    'fields: for (at, field) in fields.iter().enumerate() {
        push_note(notes, index, at, field_note(alloc, rules, field)?)?;
    }
    Ok(())
}

// Adds the notes on the fields of the entry with an index.
fn push_entry_notes(
    notes: &mut Vec<Note>,
    alloc: Global,
    dialect: Dialect,
    defines: bool,
    text: &str,
    index: usize,
    entry: &Spanned<RawEntry<'_>>,
) -> Result<(), AllocError>
    ensures { OnOk result (notes.new.items ≡ notes.old.items
        ++ spec.entry_notes dialect defines text.now index (entry_reading_of entry.now)) }
{
    let rules = rules_of(alloc, dialect, defines, text, &entry.v)?;
    push_field_notes(notes, alloc, &rules, index, &entry.v.fields)
}

// Returns the notes on the fields of entries. `defines` is whether the file defines the abbreviation of a month.
fn entry_notes(
    alloc: Global,
    dialect: Dialect,
    defines: bool,
    text: &str,
    entries: &[Spanned<RawEntry<'_>>],
) -> Result<Vec<Note>, AllocError>
    ensures { IfOk result (λ notes. notes.items ≡
        indexed (spec.entry_notes dialect defines text.now) 0 (map entry_reading_of entries.now)) }
{
    let mut notes = Vec::new(alloc);
    'entries: for (index, entry) in entries.iter().enumerate() {
        push_entry_notes(&mut notes, alloc, dialect, defines, text, index, entry)?;
    }
    Ok(notes)
}

/// Returns the notes on the fields of a document for a conversion to `dialect`, in file order.
///
/// In both dialects, a field has a note if it keeps its name because its entry has a field with the dialect's name for it. For BibLaTeX, a
/// month has a note if it isn't joined with a year. For BibTeX, a date has a note if it isn't divided, or if it is divided and has a day or
/// a second side. For BibTeX, any other field that no standard style reads and that isn't replaced has a note, too.
///
/// # Errors
///
/// Returns an error only if out of memory.
pub fn notes(
    alloc: Global,
    document: &RawDocument<'_>,
    dialect: Dialect,
) -> Result<Vec<Note>, AllocError>
    ensures { IfOk result (λ notes. notes.items ≡ file_notes dialect document.now) }
{
    let raw = document.raw();
    let defines = defines_month(&raw.abbreviations);
    entry_notes(alloc, dialect, defines, document.text(), &raw.entries)
}
