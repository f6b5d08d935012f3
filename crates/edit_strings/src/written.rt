//! Expansions of values, and the check that no definition uses a name too early.

ghost use Rattle.std.specs.Prelude.{◌≡◌, IfErr, IfOk, OnOk, length, map};
ghost use Rattle.std.specs.List.{AllByRecursion};
ghost use Rattle.bib_syntax.specs.Views.{field_of, piece_of};
ghost use Rattle.edit_strings.specs.Expanded.{HasNoEarlyUse, IsExpandError};
ghost use Rattle.edit_strings.specs.Tables as spec;
ghost use Rattle.edit_strings.specs.Tables.{AreIndices, AreOrdered, AreRows, IsIndexBelow, lowercase_index_in, indexed_back, rows_of, with_index};
ghost use Rattle.edit_strings.specs.Views.{lent_pieces};

use crate::definitions::{Indices, add_definition, defined_index, has_early_use};
use crate::errors::ExpandError;
use bib_syntax::raw::{Pair, RawChunk};
use bib_text::spanned::Spanned;
use std::alloc::{AllocError, Global};
use std::collections::BTreeMap;

// Pieces that are borrowed from the file.
pub(crate) type Elements<'a, 's> = Vec<&'a Spanned<RawChunk<'s>>>;

// A piece of a value, and the index of its definition if it is a defined name.
#[derive(Clone, Copy)]
pub(crate) struct Indexed<'a, 's> {
    pub(crate) piece: &'a Spanned<RawChunk<'s>>,
    pub(crate) definition: Option<usize>,
}

// Returns `pieces` with the indices of their definitions, from the last piece to the first.
pub(crate) fn with_indices<'a, 's>(
    alloc: Global,
    indices: &Indices,
    pieces: &'a [Spanned<RawChunk<'s>>],
) -> Result<Vec<Indexed<'a, 's>>, AllocError>
    ensures { IfOk result (λ found. indexed_back found.items ≡
        map (with_index (lowercase_index_in indices.now)) (map piece_of pieces.now)) }
{
    let mut found = Vec::with_capacity(alloc, pieces.len())?;
    'pieces: for piece in pieces {
        let definition = defined_index(alloc, indices, piece)?;
        found.push(Indexed { piece, definition })?;
    }
    found.reverse();
    Ok(found)
}

// Fails with `EarlyUse` for the first definition that uses its own name, or a name before the name's first definition. In `all`, each
// name has the index of its last definition.
pub(crate) fn check_early_uses(
    alloc: Global,
    all: &Indices,
    definitions: &[Pair<'_>],
) -> Result<(), ExpandError>
    requires all { AreIndices all.now (map field_of definitions.now) (length definitions.now) }
    ensures none { OnOk result (HasNoEarlyUse (map field_of definitions.now)) }
    ensures refused { IfErr result (IsExpandError (map field_of definitions.now)) }
{
    let mut indices = BTreeMap::new(alloc);
    'definitions: for (index, definition) in definitions.iter().enumerate() {
        if has_early_use(alloc, all, &indices, definition)? {
            return Err(ExpandError::EarlyUse(index));
        }
        add_definition(alloc, &mut indices, definition, index)?;
    }
    Ok(())
}

// Returns the pieces of each definition, from the last piece to the first. A name that is defined earlier in the file has the
// index of its last definition there.
pub(crate) fn rows<'a, 's>(
    alloc: Global,
    definitions: &'a [Pair<'s>],
) -> Result<Vec<Vec<Indexed<'a, 's>>>, AllocError>
    ensures { IfOk result (λ rows. AreRows (map field_of definitions.now) (length definitions.now) (rows_of rows.items)) }
{
    let mut indices = BTreeMap::new(alloc);
    let mut rows = Vec::with_capacity(alloc, definitions.len())?;
    'definitions: for (index, definition) in definitions.iter().enumerate() {
        rows.push(with_indices(alloc, &indices, &definition.value.v)?)?;
        add_definition(alloc, &mut indices, definition, index)?;
    }
    Ok(rows)
}

// Returns the expansion of `pieces`, given the pieces of each definition. The given lists go from the last piece to the first, and the
// expansion from the first to the last.
pub(crate) fn expanded<'a, 's>(
    alloc: Global,
    rows: &[Vec<Indexed<'a, 's>>],
    pieces: Vec<Indexed<'a, 's>>,
) -> Result<Elements<'a, 's>, AllocError>
    requires ordered { AreOrdered (rows_of rows.now) }
    requires below { AllByRecursion (IsIndexBelow (length rows.now)) (indexed_back pieces.items) }
    ensures { IfOk result (λ found. lent_pieces found.items ≡ spec.expanded (rows_of rows.now) (indexed_back pieces.entry.items)) }
{
    let mut found = Vec::new(alloc);
    let mut stack = pieces;
    'stack: while let Some(next) = stack.pop() {
        match next.definition {
            Some(index) => stack.extend_from_slice(&rows[index])?,
            None => found.push(next.piece)?,
        }
    }
    Ok(found)
}
