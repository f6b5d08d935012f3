//! Expanding abbreviations.

ghost use Rattle.std.specs.Prelude.{◌≡◌, ◌++◌, ◌≤◌, ◌<◌, ℕ, IfErr, IfOk, OnOk, length, map};
ghost use Rattle.std.specs.List.{AllByRecursion};
ghost use Rattle.std.specs.String.{string_bytes};
ghost use Rattle.bib_syntax.specs.Views.{entry_reading_of, field_of};
ghost use Rattle.edit_strings.specs.Tables.{each_edits, field_edits, value_edits, BeginBetween, AreExpansionsCut, AreFrom, AreIndices, AreOrdered, AreRows, BeginBefore, IsBelow, IsExpansionCut, IsNextAfter, entry_expansion, expansion_by, lowercase_index_in, rows_of};
ghost use Rattle.edit_strings.specs.Expanded.{ExpandIsRefused, HasNoEarlyUse, IsExpanded};
ghost use Rattle.edit_entries.specs.EditList.{edit_of};

use crate::definitions::{Indices, add_definition, definition_indices, has_defined};
use crate::elements::laid_out;
use crate::errors::ExpandError;
use crate::written::{Indexed, check_early_uses, expanded, rows, with_indices};
use bib_syntax::raw::{Pair, RawEntry};
use bib_text::spanned::Spanned;
use edit_entries::document::RawDocument;
use edit_entries::editing::{Edit, edited_all};
use edit_entries::values::value_end;
use std::alloc::{AllocError, Global};
use std::collections::BTreeMap;

// The text of a file, its definitions, and the pieces of each definition with the indices of their definitions.
#[derive(Drop)]
struct Names<'a, 's> {
    text: &'a str,
    definitions: &'a [Pair<'s>],
    rows: Vec<Vec<Indexed<'a, 's>>>,
}

// Sets the indices of the definitions from the index `from` on, up to the first that doesn't begin before the byte offset `start`. Returns
// the index of that definition, or the number of definitions if there is none.
pub(crate) fn add_before(
    alloc: Global,
    indices: &mut Indices,
    definitions: &[Pair<'_>],
    from: usize,
    start: usize,
) -> Result<usize, AllocError>
    requires from { from ≤ length definitions.now }
    requires indices { AreIndices indices.old (map field_of definitions.now) from }
    ensures indices { IfOk result (λ next. AreIndices indices.new (map field_of definitions.now) next) }
    ensures from { IfOk result (λ next. from ≤ next) }
    ensures within { IfOk result (λ next. next ≤ length definitions.now) }
    ensures before { IfOk result (λ next. BeginBefore (map field_of definitions.now) start from next) }
    ensures next { IfOk result (λ next. IsNextAfter (map field_of definitions.now) start next) }
{
    let mut next = from;
    'definitions: while next < definitions.len() {
        if definitions[next].key.span.start >= start {
            return Ok(next);
        }
        add_definition(alloc, indices, &definitions[next], next)?;
        next += 1;
    }
    Ok(next)
}

// If the value of `field` contains a name that has an index, appends the edit that expands it.
fn push_expansion<'a, 's>(
    edits: &mut Vec<Edit>,
    alloc: Global,
    names: &Names<'a, 's>,
    indices: &Indices,
    field: &'a Pair<'s>,
) -> Result<(), AllocError>
    requires ordered { AreOrdered (rows_of names.now.rows.items) }
    requires below { IsBelow (length names.now.rows.items) (lowercase_index_in indices.now) }
    requires cut { IsExpansionCut names.now.text.now (rows_of names.now.rows.items) (lowercase_index_in indices.now) (field_of field.now) }
    ensures { OnOk result (map edit_of edits.new.items ≡ map edit_of edits.old.items ++
        value_edits names.now.text.now (field_of field.now)
        (expansion_by names.now.text.now (rows_of names.now.rows.items) (lowercase_index_in indices.now) (field_of field.now))) }
{
    if !has_defined(alloc, indices, &field.value.v)? {
        return Ok(());
    }
    let pieces = with_indices(alloc, indices, &field.value.v)?;
    let elements = expanded(alloc, &names.rows, pieces)?;
    let text = laid_out(alloc, names.text, &elements)?;
    edits.push(Edit {
        start: field.value.span.start,
        end: value_end(names.text, field),
        text,
    })?;
    Ok(())
}

// Appends an edit for each field whose value contains a name that has an index.
fn push_expansions<'a, 's>(
    edits: &mut Vec<Edit>,
    alloc: Global,
    names: &Names<'a, 's>,
    indices: &Indices,
    fields: &'a [Pair<'s>],
) -> Result<(), AllocError>
    requires ordered { AreOrdered (rows_of names.now.rows.items) }
    requires below { IsBelow (length names.now.rows.items) (lowercase_index_in indices.now) }
    requires cut { AllByRecursion (IsExpansionCut names.now.text.now (rows_of names.now.rows.items) (lowercase_index_in indices.now))
        (map field_of fields.now) }
    ensures { OnOk result (map edit_of edits.new.items ≡ map edit_of edits.old.items ++
        field_edits (expansion_by names.now.text.now (rows_of names.now.rows.items) (lowercase_index_in indices.now)) names.now.text.now
        (map field_of fields.now)) }
{
    'fields: for field in fields {
        push_expansion(edits, alloc, names, indices, field)?;
    }
    Ok(())
}

// Returns the edits that expand the values of `entries`. The entries are in the order of the file.
fn expansions<'a, 's>(
    alloc: Global,
    names: &Names<'a, 's>,
    entries: &'a [Spanned<RawEntry<'s>>],
) -> Result<Vec<Edit>, AllocError>
    requires rows { AreRows (map field_of names.now.definitions.now) (length names.now.definitions.now) (rows_of names.now.rows.items) }
    requires definitions { (end : ℕ) × BeginBetween 0 end (map field_of names.now.definitions.now) }
    requires entries { AreFrom 0 (map entry_reading_of entries.now) }
    requires cut { AreExpansionsCut names.now.text.now (map field_of names.now.definitions.now) (rows_of names.now.rows.items)
        (map entry_reading_of entries.now) }
    ensures { IfOk result (λ edits. map edit_of edits.items ≡
        each_edits (entry_expansion names.now.text.now (map field_of names.now.definitions.now)
        (rows_of names.now.rows.items)) names.now.text.now (map entry_reading_of entries.now)) }
{
    let mut edits = Vec::new(alloc);
    let mut indices = BTreeMap::new(alloc);
    let mut next = 0;
    'entries: for entry in entries {
        next = add_before(
            alloc,
            &mut indices,
            names.definitions,
            next,
            entry.span.start,
        )?;
        push_expansions(&mut edits, alloc, names, &indices, &entry.v.fields)?;
    }
    Ok(edits)
}

/// Returns the text of `document` with its abbreviations expanded. Each value of an entry's field that contains a defined name
/// is replaced by its pieces, with ` # ` between them. A defined name is replaced by the pieces of its last definition before the
/// use, as they are written in the file. Names in that definition are expanded too, each by its last definition before that one.
/// Names are compared in any ASCII case. A name without a definition before its use is unchanged, and so are other values, white
/// space after a value and the definitions.
///
/// Returns `EarlyUse` if a definition uses its own name, or a name before the name's first definition, even if no entry uses the
/// definition. Returns `OutOfMemory` if memory runs out.
pub fn expand(alloc: Global, document: &RawDocument<'_>) -> Result<String, ExpandError>
    ensures expanded { IfOk result (λ new. IsExpanded document.now (string_bytes new)) }
    ensures no_early_use { OnOk result (HasNoEarlyUse document.now.says.abbreviations) }
    ensures refused { IfErr result (ExpandIsRefused document.now) }
{
    let raw = document.raw();
    let all = definition_indices(alloc, &raw.abbreviations)?;
    check_early_uses(alloc, &all, &raw.abbreviations)?;
    let names = Names {
        text: document.text(),
        definitions: &raw.abbreviations,
        rows: rows(alloc, &raw.abbreviations)?,
    };
    let edits = expansions(alloc, &names, &raw.entries)?;
    Ok(edited_all(alloc, document.text(), &edits)?)
}
