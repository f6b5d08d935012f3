//! Converts the entry types and fields of a file to those of a dialect.

ghost use Rattle.std.specs.Prelude.{◌≡◌, ◌++◌, ◌∷◌, [], IfOk, OnOk, None, Some, map};
ghost use Rattle.std.specs.List.{AllByRecursion};
ghost use Rattle.std.specs.Option.{option_map};
ghost use Rattle.std.specs.String.{string_bytes};
ghost use Rattle.bib_syntax.specs.Views.{entry_reading_of, field_of, part_of};
ghost use Rattle.edit_convert.specs.Conversions.{Replacement, IsConverted, conversion, date_if_divided};
ghost use Rattle.edit_entries.specs.Changes.{edits_of_entries, field_stretch, part_edits};
ghost use Rattle.edit_convert.specs.Conversions as spec;
ghost use Rattle.edit_entries.specs.EditList.{edit_of};
ghost use Rattle.edit_convert.specs.Tables.{AreFieldsInText, IsFieldInText, change_edits, conversion_edits, edits_at, lent_text, pending_after, pending_edits, printed_of, replacement_by};

use crate::changes::{Changes, changes_of};
use crate::dates::{written_date, written_sides};
use crate::fields::{date_to_divide, has_part, is_date_part};
use crate::joining::{can_be_removed, defines_month};
use crate::names::{other_name, other_type};
use crate::new_fields::{EntryField, braced_before, in_braces};
use crate::notes::is_replaced;
use crate::types::{Printed, missing_type};
use bib_syntax::raw::{Pair, RawEntry, is_word};
use bib_tables::dialects::Dialect;
use bib_tables::mechanics::EntryType;
use bib_text::spanned::Spanned;
use edit_entries::document::RawDocument;
use edit_entries::editing::{Edit, edited_all, push_removal};
use edit_entries::values::value_end;
use std::alloc::{AllocError, Global};

// Adds the edit that replaces a part of a text, if there is a new text.
fn push_part_edit(
    edits: &mut Vec<Edit>,
    alloc: Global,
    part: &Spanned<&str>,
    other: Option<&str>,
) -> Result<(), AllocError>
    ensures { OnOk result (map edit_of edits.new.items ≡ map edit_of edits.old.items
        ++ part_edits (part_of part.now) (lent_text other.entry)) }
{
    let Some(text) = other else {
        return Ok(());
    };
    edits.push(Edit {
        start: part.span.start,
        end: part.span.end,
        text: String::from_str(alloc, text)?,
    })?;
    Ok(())
}

// Adds the edit that replaces a field with a text, without the white space after its value.
fn push_field_text(
    edits: &mut Vec<Edit>,
    at: &EntryField<'_, '_>,
    text: String,
) -> Result<(), AllocError>
    requires { IsFieldInText at.now }
    ensures { OnOk result (map edit_of edits.new.items ≡ map edit_of edits.old.items ++
        field_stretch at.now.text.now (field_of at.now.field.now) (string_bytes text) ∷ []) }
{
    edits.push(Edit {
        start: at.field.key.span.start,
        end: value_end(at.text, at.field),
        text,
    })?;
    Ok(())
}

// Adds the edit of a field that is a date, if it is replaced by fields of its parts.
fn push_date_edit(
    edits: &mut Vec<Edit>,
    alloc: Global,
    changes: &Changes,
    at: &EntryField<'_, '_>,
) -> Result<(), AllocError>
    requires { IsFieldInText at.now }
    ensures { OnOk result (map edit_of edits.new.items ≡ map edit_of edits.old.items ++ edits_at at.now
        (spec.first_replacement changes.now.defines None None None
        (date_if_divided changes.now.divides (field_of at.now.field.now)))) }
{
    let Some(sides) = date_to_divide(alloc, changes.divides, at.field)? else {
        return Ok(());
    };
    let text = written_sides(alloc, at, changes.defines, &sides)?;
    push_field_text(edits, at, text)
}

// Adds the edit of a part of a date that is joined with the others.
fn push_joined_edit(
    edits: &mut Vec<Edit>,
    alloc: Global,
    date: &str,
    at: &EntryField<'_, '_>,
) -> Result<(), AllocError>
    requires { IsFieldInText at.now }
    ensures { OnOk result (map edit_of edits.new.items ≡ map edit_of edits.old.items ++
        edits_at at.now (Some (Replacement.with_date date.now))) }
{
    if has_part(at.following) {
        return push_removal(edits, alloc, at.field, at.following);
    }
    let text = written_date(alloc, at, date)?;
    push_field_text(edits, at, text)
}

// Returns the text of the joined date, if a field is one of its parts.
fn date_if_part<'c>(joined: &'c Option<String>, field: &Pair<'_>) -> Option<&'c str>
    ensures { lent_text result ≡ spec.date_if_part (option_map string_bytes joined.now) (field_of field.now) }
{
    if !is_date_part(field) {
        return None;
    }
    match joined {
        Some(date) => Some(date.as_str()),
        None => None,
    }
}

// Adds the edit of a field `type` that became the entry's type: it is removed or, if it can't be, gets the text that styles print.
fn push_type_edit(
    edits: &mut Vec<Edit>,
    alloc: Global,
    printed: &str,
    at: &EntryField<'_, '_>,
) -> Result<(), AllocError>
    requires { IsFieldInText at.now }
    ensures { OnOk result (map edit_of edits.new.items ≡ map edit_of edits.old.items ++
        edits_at at.now (Some (Replacement.with_type printed.now))) }
{
    if can_be_removed(at.text, at.field, at.following) {
        return push_removal(edits, alloc, at.field, at.following);
    }
    edits.push(Edit {
        start: at.field.value.span.start,
        end: value_end(at.text, at.field),
        text: in_braces(alloc, printed)?,
    })?;
    Ok(())
}

// Returns the type, if a field's name is `type`.
fn type_if_named(printed: Option<Printed>, field: &Pair<'_>) -> Option<Printed>
    ensures { printed_of result ≡ spec.type_if_named (printed_of printed) (field_of field.now) }
{
    if is_word(field.key.v, "type") {
        printed
    } else {
        None
    }
}

// Adds the edit of a field that gets no other name and isn't joined to a date, if it is replaced: of a field `type` or `date`.
fn push_value_edit(
    edits: &mut Vec<Edit>,
    alloc: Global,
    changes: &Changes,
    at: &EntryField<'_, '_>,
) -> Result<(), AllocError>
    requires { IsFieldInText at.now }
    ensures { OnOk result (map edit_of edits.new.items ≡ map edit_of edits.old.items ++ edits_at at.now
        (spec.first_replacement changes.now.defines None None
        (spec.type_if_named (printed_of changes.now.printed) (field_of at.now.field.now))
        (date_if_divided changes.now.divides (field_of at.now.field.now)))) }
{
    match type_if_named(changes.printed, at.field) {
        Some(printed) => push_type_edit(edits, alloc, printed.text, at),
        None => push_date_edit(edits, alloc, changes, at),
    }
}

// Adds the edit of a field, if it is replaced.
fn push_field_edit(
    edits: &mut Vec<Edit>,
    alloc: Global,
    changes: &Changes,
    at: &EntryField<'_, '_>,
) -> Result<(), AllocError>
    requires { IsFieldInText at.now }
    ensures { OnOk result (map edit_of edits.new.items ≡ map edit_of edits.old.items ++
        edits_at at.now (replacement_by changes.now (field_of at.now.field.now))) }
{
    let field = at.field;
    if let Some(date) = date_if_part(&changes.joined, field) {
        return push_joined_edit(edits, alloc, date, at);
    }
    match other_name(&changes.names, field.key.v) {
        Some(name) => push_part_edit(edits, alloc, &field.key, Some(name)),
        None => push_value_edit(edits, alloc, changes, at),
    }
}

// Adds the edit that writes a field `type` before a field that is kept.
fn push_missing_type(
    edits: &mut Vec<Edit>,
    alloc: Global,
    value: &str,
    at: &EntryField<'_, '_>,
) -> Result<(), AllocError>
    requires { IsFieldInText at.now }
    ensures { OnOk result (map edit_of edits.new.items ≡ map edit_of edits.old.items ++
        pending_edits at.now (Some value.now) None) }
{
    edits.push(Edit {
        start: at.field.key.span.start,
        end: at.field.key.span.end,
        text: braced_before(alloc, at, "type", value)?,
    })?;
    Ok(())
}

// Adds the edit of a field, if it is replaced, or if it is kept and `pending` is to be added before it. Returns the value of `type` that is
// still to be added.
fn push_pending_edit(
    edits: &mut Vec<Edit>,
    alloc: Global,
    changes: &Changes,
    pending: Option<&'static str>,
    at: &EntryField<'_, '_>,
) -> Result<Option<&'static str>, AllocError>
    requires { IsFieldInText at.now }
    ensures edits { OnOk result (map edit_of edits.new.items ≡ map edit_of edits.old.items ++
        pending_edits at.now (lent_text pending.entry) (replacement_by changes.now (field_of at.now.field.now))) }
    ensures left { IfOk result (λ left. lent_text left ≡
        pending_after (lent_text pending.entry) (replacement_by changes.now (field_of at.now.field.now))) }
{
    let Some(value) = pending else {
        push_field_edit(edits, alloc, changes, at)?;
        return Ok(None);
    };
    if is_replaced(alloc, changes, at.field)? {
        push_field_edit(edits, alloc, changes, at)?;
        return Ok(pending);
    }
    push_missing_type(edits, alloc, value, at)?;
    Ok(None)
}

// Adds the edits of an entry's fields. A missing value of `type` is added before the first field that is kept.
fn push_field_edits(
    edits: &mut Vec<Edit>,
    alloc: Global,
    text: &str,
    changes: &Changes,
    missing: Option<&'static str>,
    fields: &[Pair<'_>],
) -> Result<(), AllocError>
    requires { AreFieldsInText text.now (map field_of fields.now) }
    ensures { OnOk result (map edit_of edits.new.items ≡ map edit_of edits.old.items
        ++ change_edits changes.now text.now (map field_of fields.now) (lent_text missing.entry) (map field_of fields.now)) }
{
    let mut pending = missing;
    'fields: for (index, field) in fields.iter().enumerate() {
        let at = EntryField {
            text,
            fields,
            field,
            following: &fields[index + 1..],
        };
        pending = push_pending_edit(edits, alloc, changes, pending, &at)?;
    }
    Ok(())
}

// Returns whether at least one of these fields is kept.
fn keeps_one(alloc: Global, changes: &Changes, fields: &[Pair<'_>]) -> Result<bool, AllocError>
    ensures { IfOk result (λ stays. stays ≡ spec.keeps_one (replacement_by changes.now) (map field_of fields.now)) }
{
    'fields: for field in fields {
        if !is_replaced(alloc, changes, field)? {
            return Ok(true);
        }
    }
    Ok(false)
}

// Returns the new name of an entry's type, if it is replaced.
fn new_type(
    alloc: Global,
    dialect: Dialect,
    kind: &EntryType,
    changes: &Changes,
    missing: Option<&'static str>,
    fields: &[Pair<'_>],
) -> Result<Option<&'static str>, AllocError>
    ensures { IfOk result (λ name. lent_text name ≡
        spec.type_for dialect kind.now (printed_of changes.now.printed) (lent_text missing.entry)
        (spec.keeps_one (replacement_by changes.now) (map field_of fields.now))) }
{
    if let Some(printed) = changes.printed {
        return Ok(Some(printed.name));
    }
    if missing.is_some() && !keeps_one(alloc, changes, fields)? {
        return Ok(None);
    }
    Ok(other_type(dialect, kind))
}

// Adds the edits of an entry: of the name of its type, and of its fields.
fn push_entry_edits(
    edits: &mut Vec<Edit>,
    alloc: Global,
    dialect: Dialect,
    defines: bool,
    text: &str,
    entry: &Spanned<RawEntry<'_>>,
) -> Result<(), AllocError>
    requires { AreFieldsInText text.now (entry_reading_of entry.now).fields }
    ensures { OnOk result (map edit_of edits.new.items ≡ map edit_of edits.old.items
        ++ conversion_edits dialect defines text.now (entry_reading_of entry.now)) }
{
    let kind = EntryType::new(alloc, entry.v.kind.v)?;
    let fields = &entry.v.fields;
    let changes = changes_of(alloc, dialect, defines, text, &kind, fields)?;
    let missing = missing_type(dialect, &kind, fields);
    let other = new_type(alloc, dialect, &kind, &changes, missing, fields)?;
    push_part_edit(edits, alloc, &entry.v.kind, other)?;
    push_field_edits(edits, alloc, text, &changes, missing, fields)
}

// Returns the edits of entries. `defines` is whether the file defines the abbreviation of a month.
fn edits(
    alloc: Global,
    dialect: Dialect,
    defines: bool,
    text: &str,
    entries: &[Spanned<RawEntry<'_>>],
) -> Result<Vec<Edit>, AllocError>
    requires { AllByRecursion (λ e. AreFieldsInText text.now e.fields) (map entry_reading_of entries.now) }
    ensures { IfOk result (λ made. map edit_of made.items ≡
        edits_of_entries (conversion dialect defines text.now) text.now (map entry_reading_of entries.now)) }
{
    let mut edits = Vec::new(alloc);
    'entries: for entry in entries {
        push_entry_edits(&mut edits, alloc, dialect, defines, text, entry)?;
    }
    Ok(edits)
}

/// Returns the text of a document with its entry types and fields converted to those of `dialect`. Every other byte is kept: other values,
/// comments, and the text between entries.
///
/// **Types.** The name of a type that has another name in the dialect is replaced, in any ASCII case. A type without a variant of
/// `EntryType`, such as `artwork`, is kept.
///
/// For BibLaTeX a Master's thesis, a PhD thesis and a technical report without a field `type` get `type = {mathesis}`,
/// `{phdthesis}` or `{techreport}`, as Biber reads them. It comes before the first field that is unchanged. If there is no such
/// field, the name of the type is kept.
///
/// For BibTeX a thesis with one field `type` of the first two values, or a report with the third, becomes that type, and the field is
/// removed. If the field is the last one, or a comment occurs between it and the next one, it stays. Its value becomes the text that
/// the standard styles print: `Master's thesis`, `PhD thesis` or `Technical Report`. The value must be one literal. ASCII white space at
/// both ends of its text doesn't count, as in Biber. If the first line of the text contains a tab, BibLaTeX finds no key in it, and the
/// field is kept.
///
/// **Names of fields.** For BibLaTeX `journal`, `address` and `school` become `journaltitle`, `location` and `institution`. For BibTeX
/// `journaltitle` and `location` become `journal` and `address`; in an entry whose type before the conversion is a thesis, `institution`
/// becomes `school`. A name is kept if the entry has a field with the other name.
///
/// **Dates.** For BibTeX a `date` is replaced by `year`, and by `month` and `day` if it has them. The end of a range is likewise replaced
/// by `endyear`, `endmonth` and `endday`. This is done if the entry has one `date` and none of these fields, and the value is one literal
/// that parses as a date. Each side must be a year in four digits, perhaps with a month and a day in two each. A month is written as its
/// abbreviation. It is written as its English name in braces if the file defines the abbreviation of a month, since that may have
/// another text.
///
/// For BibLaTeX `year` and `month`, and `day` if there is one, are joined to one `date`. The last of them is replaced by the date, and
/// the others are removed. This is done if all of the following hold. The entry has one of each, and none of the fields `date`,
/// `endyear`, `endmonth` and `endday`. The year is one literal of four digits. The month is the abbreviation of a month, and the
/// file defines no such abbreviation. Or it is one literal: the English name of a month, its first three letters or its number. The
/// day, if there is one, is one literal of one or two digits. The parts are a date that exists. No comment would
/// be removed.
///
/// **Layout.** A new field is laid out like the field that it replaces or comes before. The white space before the name of that field is
/// before each new field. Around the equals sign, a new field has the spaces and tabs of that field. If that field has more than one byte
/// before its equals sign, the new equals sign is in the same column. Otherwise it is in the column of the first field of the entry with
/// more than one byte there, if there is one. If that field has any other character around its equals sign, one space is before and after
/// the new one. `edit_entries::layout::sign_at` returns this text.
///
/// # Errors
///
/// Returns an error only if out of memory.
pub fn convert(
    alloc: Global,
    document: &RawDocument<'_>,
    dialect: Dialect,
) -> Result<String, AllocError>
    ensures { IfOk result (λ new. IsConverted dialect document.now (string_bytes new)) }
{
    let text = document.text();
    let raw = document.raw();
    let defines = defines_month(&raw.abbreviations);
    let edits = edits(alloc, dialect, defines, text, &raw.entries)?;
    edited_all(alloc, text, &edits)
}
