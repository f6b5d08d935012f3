//! The `@string` definitions of a file: the index of each name's last definition, and definitions that use a name too early.

ghost use Rattle.std.specs.Prelude.{◌≡◌, ℕ, List, IfOk, OnOk, Some, if◌then◌else◌, length, map};
ghost use Rattle.std.specs.List.{list_any};
ghost use Rattle.bib_syntax.specs.Views.{field_of, piece_of};
ghost use Rattle.edit_entries.specs.Documents.{has_name};
ghost use Rattle.edit_strings.specs.Expanded as spec;
ghost use Rattle.edit_strings.specs.Expanded.{piece_index};
ghost use Rattle.edit_strings.specs.Tables.{AreIndices, lowercase_index_in};

use bib_syntax::raw::{Pair, RawChunk, is_word};
use bib_text::spanned::Spanned;
use std::alloc::{AllocError, Global};
use std::collections::BTreeMap;

// Indices of definitions, by their names in ASCII lowercase.
pub(crate) type Indices = BTreeMap<String, usize>;

// Sets the index of the name of `definition`.
pub(crate) fn add_definition(
    alloc: Global,
    indices: &mut Indices,
    definition: &Pair<'_>,
    index: usize,
) -> Result<(), AllocError>
    ensures { OnOk result ((name : List ℕ) → lowercase_index_in indices.new name ≡
        (if has_name name (field_of definition.now) then Some index else lowercase_index_in indices.old name)) }
{
    indices.insert(definition.key.v.to_ascii_lowercase(alloc)?, index)?;
    Ok(())
}

// Returns the index of the last definition of each name, in any ASCII case.
pub(crate) fn definition_indices(
    alloc: Global,
    definitions: &[Pair<'_>],
) -> Result<Indices, AllocError>
    ensures { IfOk result (λ indices. AreIndices indices (map field_of definitions.now) (length definitions.now)) }
{
    let mut indices = BTreeMap::new(alloc);
    'definitions: for (index, definition) in definitions.iter().enumerate() {
        add_definition(alloc, &mut indices, definition, index)?;
    }
    Ok(indices)
}

// Returns the index of the definition of `piece`, if it is a defined name.
pub(crate) fn defined_index(
    alloc: Global,
    indices: &Indices,
    piece: &Spanned<RawChunk<'_>>,
) -> Result<Option<usize>, AllocError>
    ensures { IfOk result (λ index. index ≡ piece_index (lowercase_index_in indices.now) (piece_of piece.now)) }
{
    match piece.v {
        RawChunk::Abbreviation(name) => {
            let lowercase = name.to_ascii_lowercase(alloc)?;
            Ok(indices.get(lowercase.as_str()).copied())
        }
        RawChunk::Normal(_) => Ok(None),
    }
}

// Returns whether `pieces` contains a defined name.
pub(crate) fn has_defined(
    alloc: Global,
    indices: &Indices,
    pieces: &[Spanned<RawChunk<'_>>],
) -> Result<bool, AllocError>
    ensures { IfOk result (λ has. has ≡ spec.has_defined (lowercase_index_in indices.now) (map piece_of pieces.now)) }
{
    'pieces: for piece in pieces {
        if defined_index(alloc, indices, piece)?.is_some() {
            return Ok(true);
        }
    }
    Ok(false)
}

// Returns whether `piece` is the name `name`, in any ASCII case.
fn is_use_of(name: &str, piece: &Spanned<RawChunk<'_>>) -> bool
    ensures { result ≡ spec.is_use_of name.now (piece_of piece.now) }
{
    match piece.v {
        RawChunk::Abbreviation(used) => is_word(name, used),
        RawChunk::Normal(_) => false,
    }
}

// Returns whether `piece` is the name `own`, or a name that has an index in `all`, but none in `earlier`.
fn is_early_use(
    alloc: Global,
    own: &str,
    all: &Indices,
    earlier: &Indices,
    piece: &Spanned<RawChunk<'_>>,
) -> Result<bool, AllocError>
    ensures { IfOk result (λ is. is ≡
        spec.is_early_use own.now (lowercase_index_in all.now) (lowercase_index_in earlier.now) (piece_of piece.now)) }
{
    let last = defined_index(alloc, all, piece)?;
    let before = defined_index(alloc, earlier, piece)?;
    let is_own = is_use_of(own, piece);
    Ok(is_own || last.is_some() && before.is_none())
}

// Returns whether `definition` uses its own name, or a name that has an index in `all`, but none in `earlier`.
pub(crate) fn has_early_use(
    alloc: Global,
    all: &Indices,
    earlier: &Indices,
    definition: &Pair<'_>,
) -> Result<bool, AllocError>
    ensures { IfOk result (λ has. has ≡
        list_any (spec.is_early_use (field_of definition.now).name.text (lowercase_index_in all.now) (lowercase_index_in earlier.now))
        (spec.elements (field_of definition.now))) }
{
    'pieces: for piece in &definition.value.v {
        if is_early_use(alloc, definition.key.v, all, earlier, piece)? {
            return Ok(true);
        }
    }
    Ok(false)
}
