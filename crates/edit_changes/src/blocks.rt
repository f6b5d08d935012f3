//! The only block of a unit, if it is an entry or has definitions of abbreviations.

ghost use Rattle.std.specs.Prelude.{◌≡◌, ◌++◌, IfOk, OnOk, Some, bytes_eq, map, option_map};
ghost use Rattle.bib_syntax.specs.Views.{entry_reading_of, field_of};
ghost use Rattle.edit_units.specs.Views.{unit_reading_of};
ghost use Rattle.edit_changes.specs.Blocks as spec;
ghost use Rattle.edit_changes.specs.Views.{block_view};

use bib_syntax::raw::{Pair, RawEntry};
use bib_text::spanned::Spanned;
use edit_units::units::Unit;
use edit_versions::alike::push_outside_fields;
use std::alloc::{AllocError, Global};

// An entry, or definitions of abbreviations. Definitions have an empty type and no key, and the type of their block reaches from its at
// sign to their first name.
#[derive(Clone, Copy)]
pub(crate) struct Block<'u, 's> {
    // The type of the entry.
    pub(crate) kind: &'s str,
    // The offset at which the type begins.
    pub(crate) kind_start: usize,
    // The offset at which the type ends.
    pub(crate) kind_end: usize,
    // The offset at which the key begins.
    pub(crate) key_start: usize,
    // The offset at which the key ends.
    pub(crate) key_end: usize,
    // The fields of the entry, or the definitions.
    pub(crate) fields: &'u [Pair<'s>],
}

// Returns the block of an entry.
fn entry_block<'u, 's>(entry: &'u Spanned<RawEntry<'s>>) -> Block<'u, 's>
    ensures { block_view result ≡ spec.entry_block (entry_reading_of entry.now) }
{
    Block {
        kind: entry.v.kind.v,
        kind_start: entry.v.kind.span.start,
        kind_end: entry.v.kind.span.end,
        key_start: entry.v.key.span.start,
        key_end: entry.v.key.span.end,
        fields: &entry.v.fields,
    }
}

// Returns the block of definitions that begins at an offset, if there are some.
fn definition_block<'u, 's>(start: usize, definitions: &'u [Pair<'s>]) -> Option<Block<'u, 's>>
    ensures { option_map block_view result ≡ spec.definition_block start (map field_of definitions.now) }
{
    let first = definitions.first()?;
    let name = first.key.span.start;
    Some(Block {
        kind: "",
        kind_start: start,
        kind_end: name,
        key_start: name,
        key_end: name,
        fields: definitions,
    })
}

// Returns the only block of a unit, if it is an entry or has definitions.
pub(crate) fn block_of<'u, 's>(unit: &'u Unit<'s>) -> Option<Block<'u, 's>>
    ensures { option_map block_view result ≡ spec.block_of (unit_reading_of unit.now) }
{
    match unit.blocks.as_slice() {
        [span] => match unit.raw.entries.as_slice() {
            [] => definition_block(span.start, &unit.raw.abbreviations),
            [entry] => Some(entry_block(entry)),
            _ => None,
        },
        _ => None,
    }
}

// Returns the bytes of a unit outside of the type, the key and the fields of its block, without white space and commas.
fn text_outside(
    alloc: Global,
    text: &str,
    unit: &Unit<'_>,
    block: &Block<'_, '_>,
) -> Result<Vec<u8>, AllocError>
    ensures { IfOk result (λ outside. outside.items ≡ spec.text_outside text.now (unit_reading_of unit.now) (block_view block.now)) }
{
    let bytes = text.as_bytes();
    let mut outside = Vec::new(alloc);
    push_outside_fields(&mut outside, bytes, unit.span.start, &[], block.kind_start)?;
    push_outside_fields(&mut outside, bytes, block.kind_end, &[], block.key_start)?;
    push_outside_fields(
        &mut outside,
        bytes,
        block.key_end,
        block.fields,
        unit.span.end,
    )?;
    Ok(outside)
}

// Returns whether two units of two texts have the same bytes outside of the types, keys and fields of these blocks, except for white space
// and commas.
pub(crate) fn is_same_outside(
    alloc: Global,
    text: &str,
    unit: &Unit<'_>,
    block: &Block<'_, '_>,
    other: &str,
    second: &Unit<'_>,
    found: &Block<'_, '_>,
) -> Result<bool, AllocError>
    ensures { IfOk result (λ same. same ≡ bytes_eq (spec.text_outside text.now (unit_reading_of unit.now) (block_view block.now))
        (spec.text_outside other.now (unit_reading_of second.now) (block_view found.now))) }
{
    let outside = text_outside(alloc, text, unit, block)?;
    let other_outside = text_outside(alloc, other, second, found)?;
    Ok(outside.as_slice() == other_outside.as_slice())
}
