//! The edits that replace references by inherited fields or remove them, and those that replace own fields by fields of `xdata` parents.

ghost use Rattle.std.specs.Prelude.{◌≡◌, ◌++◌, ◌<◌, ◌≤◌, List, length, map, count_by, drop, IfOk, OnOk};
ghost use Rattle.std.specs.List.{AllByRecursion};
ghost use Rattle.bib_syntax.specs.Reading.{FieldReading};
ghost use Rattle.bib_syntax.specs.Views.{entry_reading_of, field_of};
ghost use Rattle.edit_entries.specs.Changes.{edits_of_entries, edits_of_entry, edits_of_field, edits_of_fields};
ghost use Rattle.edit_entries.specs.Cuts.{ArePiecesCut};
ghost use Rattle.edit_entries.specs.EditList.{edit_of};
ghost use Rattle.edit_resolve.specs.Parents as spec;
ghost use Rattle.edit_resolve.specs.Resolved.{all_fields, field_resolutions, fields_by, inherited, last_change, own_change, replacement, resolution};
ghost use Rattle.edit_resolve.specs.Working.{AreAlong, AreFieldsCut, AreGivenCut, HasNames, IsNamedCut, fields_at, instead_at, last_or_removed, named_of, parent_lists, readings};

use crate::file::File;
use crate::gathering::{Named, fields_of};
use crate::giving::{given, substitute};
use crate::parents::{Parent, is_resolved, parents_at};
use crate::texts::new_text;
use bib_syntax::raw::{Pair, RawEntry};
use bib_text::spanned::Spanned;
use edit_entries::editing::{Edit, push_removal};
use edit_entries::layout::white_before;
use edit_entries::values::value_end;
use std::alloc::{AllocError, Global};
use std::collections::BTreeMap;

// Adds the edit of an entry's last resolved reference: the inherited fields replace it. If there are none, it is removed, or kept if no
// field follows.
fn push_last(
    edits: &mut Vec<Edit>,
    alloc: Global,
    text: &str,
    new: &[Named<'_, '_>],
    field: &Pair<'_>,
    following: &[Pair<'_>],
) -> Result<(), AllocError>
    requires field { IsNamedCut text.now (field_of field.now) }
    requires new { AllByRecursion (λ n. ArePiecesCut text.now n.field) (map named_of new.now) }
    ensures { OnOk result (map edit_of edits.new.items ≡ map edit_of edits.old.items ++
        edits_of_field text.now (field_of field.now) (map field_of following.now)
        (last_change text.now (map named_of new.now) (field_of field.now) (map field_of following.now))) }
{
    let [first, more @ ..] = new else {
        return push_removal(edits, alloc, field, following);
    };
    let white = white_before(text, field.key.span.start);
    edits.push(Edit {
        start: field.key.span.start,
        end: value_end(text, field),
        text: new_text(alloc, text, white, first, more)?,
    })?;
    Ok(())
}

// Adds the edit of a resolved reference, if it is replaced or removed.
fn push_reference(
    edits: &mut Vec<Edit>,
    alloc: Global,
    text: &str,
    is_last: bool,
    new: &[Named<'_, '_>],
    field: &Pair<'_>,
    following: &[Pair<'_>],
) -> Result<(), AllocError>
    requires field { IsNamedCut text.now (field_of field.now) }
    requires new { AllByRecursion (λ n. ArePiecesCut text.now n.field) (map named_of new.now) }
    ensures { OnOk result (map edit_of edits.new.items ≡ map edit_of edits.old.items ++
        edits_of_field text.now (field_of field.now) (map field_of following.now)
        (last_or_removed text.now is_last (map named_of new.now) (field_of field.now) (map field_of following.now))) }
{
    if is_last {
        push_last(edits, alloc, text, new, field, following)
    } else {
        push_removal(edits, alloc, field, following)
    }
}

// Returns the number of resolved references.
fn count_resolved(
    alloc: Global,
    file: &File<'_, '_>,
    fields: &[Pair<'_>],
) -> Result<usize, AllocError>
    requires { HasNames file.now }
    ensures { IfOk result (λ count. count ≡ count_by (spec.is_resolved (readings file.now)) (map field_of fields.now)) }
{
    let mut count = 0usize;
    'fields: for field in fields {
        if is_resolved(alloc, file, field)? {
            count += 1;
        }
    }
    Ok(count)
}

// Adds the edit of an own field, if another field takes its place.
fn push_own(
    edits: &mut Vec<Edit>,
    alloc: Global,
    text: &str,
    given: &BTreeMap<String, Named<'_, '_>>,
    field: &Pair<'_>,
) -> Result<(), AllocError>
    requires field { IsNamedCut text.now (field_of field.now) }
    requires given { AreGivenCut text.now given.now }
    ensures { (following : List FieldReading) → OnOk result (map edit_of edits.new.items ≡ map edit_of edits.old.items ++
        edits_of_field text.now (field_of field.now) following (own_change text.now (instead_at given.now (field_of field.now)))) }
{
    let Some(named) = substitute(given, alloc, field)? else {
        return Ok(());
    };
    edits.push(Edit {
        start: field.key.span.start,
        end: value_end(text, field),
        text: new_text(alloc, text, "", &named, &[])?,
    })?;
    Ok(())
}

// Adds the edits of the fields of an entry. `new` are the fields that it inherits.
fn push_field_edits(
    edits: &mut Vec<Edit>,
    alloc: Global,
    file: &File<'_, '_>,
    text: &str,
    given: &BTreeMap<String, Named<'_, '_>>,
    new: &[Named<'_, '_>],
    fields: &[Pair<'_>],
) -> Result<(), AllocError>
    requires known { HasNames file.now }
    requires given { AreGivenCut text.now given.now }
    requires fields { AllByRecursion (IsNamedCut text.now) (map field_of fields.now) }
    requires new { AllByRecursion (λ n. ArePiecesCut text.now n.field) (map named_of new.now) }
    ensures { OnOk result (map edit_of edits.new.items ≡ map edit_of edits.old.items ++
        edits_of_fields text.now (map field_of fields.now)
        (field_resolutions text.now (spec.is_resolved (readings file.now)) (instead_at given.now) (map named_of new.now)
        (map field_of fields.now))) }
{
    let mut left = count_resolved(alloc, file, fields)?;
    'fields: for (at, field) in fields.iter().enumerate() {
        if is_resolved(alloc, file, field)? {
            left -= 1;
            push_reference(edits, alloc, text, left == 0, new, field, &fields[at + 1..])?;
        } else {
            push_own(edits, alloc, text, given, field)?;
        }
    }
    Ok(())
}

// Returns fields without the first `count` ones.
fn without_first<'f, 'a, 's>(fields: &'f [Named<'a, 's>], count: usize) -> &'f [Named<'a, 's>]
    requires { count ≤ length fields.now }
    ensures { result.now ≡ drop count fields.now }
{
    &fields[count..]
}

// Adds the edits of an entry. `all` has its fields with the inherited ones; the first of them are its own ones, or those that take their
// places.
fn push_entry_edits(
    edits: &mut Vec<Edit>,
    alloc: Global,
    file: &File<'_, '_>,
    text: &str,
    given: &BTreeMap<String, Named<'_, '_>>,
    entry: &Spanned<RawEntry<'_>>,
    all: &[Named<'_, '_>],
) -> Result<(), AllocError>
    requires known { HasNames file.now }
    requires own { AllByRecursion (λ f. IsNamedCut text.now f × ArePiecesCut text.now f) (entry_reading_of entry.now).fields }
    requires given { (f : FieldReading) → instead_at given.now f ≡ replacement (readings file.now) (entry_reading_of entry.now) f }
    requires cut { AreGivenCut text.now given.now }
    requires all { map named_of all.now ≡ fields_by (readings file.now) (all_fields (readings file.now)) (entry_reading_of entry.now) }
    requires new { AllByRecursion (λ n. ArePiecesCut text.now n.field) (inherited (readings file.now) (entry_reading_of entry.now)) }
    ensures { OnOk result (map edit_of edits.new.items ≡ map edit_of edits.old.items ++
        edits_of_entry text.now (entry_reading_of entry.now) (resolution text.now (readings file.now) (entry_reading_of entry.now))) }
{
    let own = &entry.v.fields;
    let new = without_first(all, own.len());
    push_field_edits(edits, alloc, file, text, given, new, own)
}

// Returns the edits of the entries, which have these parents and fields.
pub(crate) fn edits(
    alloc: Global,
    file: &File<'_, '_>,
    text: &str,
    parents: &[Vec<Parent>],
    fields: &[Vec<Named<'_, '_>>],
) -> Result<Vec<Edit>, AllocError>
    requires known { HasNames file.now }
    requires parents { parent_lists parents.now ≡ map (spec.parents (readings file.now)) (readings file.now) }
    requires length { length fields.now ≡ length file.now.entries.now }
    requires along { AreAlong (readings file.now) (fields_at fields.now) }
    requires cut { AreFieldsCut text.now (readings file.now) }
    ensures { IfOk result (λ made. map edit_of made.items ≡
        edits_of_entries (resolution text.now (readings file.now)) text.now (readings file.now)) }
{
    let mut edits = Vec::new(alloc);
    'entries: for (index, entry) in file.entries.iter().enumerate() {
        let given = given(alloc, parents_at(parents, index), fields)?;
        let all = fields_of(fields, index);
        push_entry_edits(&mut edits, alloc, file, text, &given, entry, all)?;
    }
    Ok(edits)
}
