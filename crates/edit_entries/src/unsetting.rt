//! Unsetting a field of an entry: each field with its name is removed.

ghost use Rattle.std.specs.Prelude.{◌≡◌, ◌<◌, IfOk, length, map, option_map};
ghost use Rattle.std.specs.List.{AllByRecursion};
ghost use Rattle.std.specs.String.{string_bytes};
ghost use Rattle.bib_syntax.specs.Views.{entry_reading_of, field_of};
ghost use Rattle.edit_entries.specs.Edits as edits;
ghost use Rattle.edit_entries.specs.EditList.{AreEditsInOrder, edit_of};
ghost use Rattle.edit_entries.specs.Placed.{IsPlaced};
ghost use Rattle.edit_entries.specs.Unset as unset;

use crate::editing::{Edit, edited_all};
use crate::removing::{comma_after, comma_before, own_edit, removals};
use crate::setting::has_field;
use bib_queries::bytes::{has_byte, has_percent};
use bib_syntax::raw::{Pair, RawEntry, is_word};
use bib_text::spanned::Spanned;
use std::alloc::{AllocError, Global};

// Returns the edit that removes a field with the comma after it and no comment of another field. There is one if the commas around it are
// found and no percent sign is between the first of them and the field.
fn plain_edit(
    alloc: Global,
    text: &str,
    entry: &Spanned<RawEntry<'_>>,
    index: usize,
    field: &Pair<'_>,
) -> Option<Edit>
    requires { index < length (entry_reading_of entry.now).fields }
    ensures { option_map edit_of result ≡ unset.plain_edit text.now (entry_reading_of entry.now) index (field_of field.now) }
{
    let start = comma_before(text, entry, index, field);
    let end = comma_after(text, entry, index, field);
    if !has_byte(text, start, b',') || !has_byte(text, end, b',') {
        return None;
    }
    if has_percent(text, start, field.key.span.start) {
        return None;
    }
    Some(Edit {
        start: start + 1,
        end: end + 1,
        text: String::new(alloc),
    })
}

// Returns the edit that removes a field and no comment of another field, if there is one. `more` is whether a later field has its name.
fn edit_before(
    alloc: Global,
    text: &str,
    entry: &Spanned<RawEntry<'_>>,
    index: usize,
    field: &Pair<'_>,
    more: bool,
) -> Result<Option<Edit>, AllocError>
    requires index { index < length (entry_reading_of entry.now).fields }
    requires placed { IsPlaced text.now (field_of field.now) }
    ensures { IfOk result (λ found. option_map edit_of found ≡
        unset.edit_before more text.now (entry_reading_of entry.now) index (field_of field.now)) }
{
    if more {
        return Ok(plain_edit(alloc, text, entry, index, field));
    }
    own_edit(alloc, text, entry, index, field)
}

// Returns the edits that remove each field with a name and no comment of another field, if there is one for each of them.
fn own_edits(
    alloc: Global,
    text: &str,
    entry: &Spanned<RawEntry<'_>>,
    name: &str,
) -> Result<Option<Vec<Edit>>, AllocError>
    requires { AllByRecursion (IsPlaced text.now) (entry_reading_of entry.now).fields }
    ensures { IfOk result (λ found. option_map (λ edits. map edit_of edits.items) found ≡
        unset.own_edits text.now name.now (entry_reading_of entry.now) 0 (entry_reading_of entry.now).fields) }
{
    let mut edits = Vec::new(alloc);
    let fields = entry.v.fields.as_slice();
    'fields: for (index, field) in fields.iter().enumerate() {
        if is_word(field.key.v, name) {
            let more = has_field(&fields[index + 1..], name);
            let Some(edit) = edit_before(alloc, text, entry, index, field, more)? else {
                return Ok(None);
            };
            edits.push(edit)?;
        }
    }
    Ok(Some(edits))
}

// Returns the edits that unset a field of an entry: each field with the name is removed.
pub(crate) fn unset_edits(
    alloc: Global,
    text: &str,
    entry: &Spanned<RawEntry<'_>>,
    name: &str,
) -> Result<Vec<Edit>, AllocError>
    requires { AllByRecursion (IsPlaced text.now) (entry_reading_of entry.now).fields }
    ensures { IfOk result (λ edits. map edit_of edits.items ≡ unset.unset_edits text.now name.now (entry_reading_of entry.now)) }
{
    match own_edits(alloc, text, entry, name)? {
        Some(edits) => Ok(edits),
        None => removals(alloc, entry, name),
    }
}

// Returns the text without the fields of `entry` that have the name `name`.
pub(crate) fn without_fields(
    alloc: Global,
    text: &str,
    entry: &Spanned<RawEntry<'_>>,
    name: &str,
) -> Result<String, AllocError>
    requires placed { AllByRecursion (IsPlaced text.now) (entry_reading_of entry.now).fields }
    requires ordered { AreEditsInOrder text.now 0 (unset.unset_edits text.now name.now (entry_reading_of entry.now)) }
    ensures { IfOk result (λ new. string_bytes new ≡
        edits.edited_all (unset.unset_edits text.now name.now (entry_reading_of entry.now)) text.now) }
{
    let edits = unset_edits(alloc, text, entry, name)?;
    edited_all(alloc, text, &edits)
}
