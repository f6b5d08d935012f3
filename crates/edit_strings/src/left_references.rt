//! References that stay as they are when entries get new keys, although they refer to such an entry by an abbreviation or in parts.

ghost use Rattle.std.specs.Prelude.{◌≡◌, ◌++◌, ℕ, IfOk, OnOk, is_some, length, map};
ghost use Rattle.std.specs.List.{flat_map};
ghost use Rattle.std.specs.String.{string_bytes};
ghost use Rattle.bib_syntax.specs.Views.{entry_reading_of, field_of, piece_of};
ghost use Rattle.edit_entries.specs.NewKeys.{key_for, name_for};
ghost use Rattle.edit_strings.specs.Collected.{single_text};
ghost use Rattle.edit_strings.specs.Left as spec;
ghost use Rattle.edit_strings.specs.Left.{AreLeft};
ghost use Rattle.edit_strings.specs.Tables.{AreFrom, AreOrdered, AreRows, BeginBetween, IsBelow, field_expanded, lowercase_index_in, rows_of, written_by};
ghost use Rattle.edit_strings.specs.Views.{lent_left, lent_pieces};

use crate::definitions::Indices;
use crate::expanding::add_before;
use crate::texts::single_text;
use crate::written::{Indexed, expanded, rows, with_indices};
use bib_syntax::raw::{Pair, RawChunk, RawEntry};
use bib_tables::fields::is_reference_field;
use bib_text::spanned::Spanned;
use bib_text::text::Text;
use edit_entries::document::RawDocument;
use edit_entries::new_keys::{Names, NewKeys};
use edit_entries::references::first_renamed;
use std::alloc::{AllocError, Global};
use std::collections::BTreeMap;

/// A reference that stays as it is when entries get new keys, although it refers to such an entry.
#[derive(Drop)]
pub struct LeftReference<'a, 's> {
    /// The entry with the reference.
    pub entry: &'a Spanned<RawEntry<'s>>,
    /// The field of the reference.
    pub field: &'a Pair<'s>,
    /// The first key in the reference that refers to an entry with a new key.
    pub name: Text,
}

// The pieces of each definition of a file, and the new keys of its entries by their names.
#[derive(Drop)]
struct Known<'a, 'k, 's> {
    rows: Vec<Vec<Indexed<'a, 's>>>,
    names: Names<'k, 's>,
}

// Appends the text of a piece of an expansion: none for a name, which has no definition.
fn push_expanded(text: &mut String, piece: &Spanned<RawChunk<'_>>) -> Result<(), AllocError>
    ensures { OnOk result (string_bytes text.new ≡ string_bytes text.old ++ spec.expanded_text (piece_of piece.now)) }
{
    match piece.v {
        RawChunk::Normal(literal) => text.push_str(literal),
        RawChunk::Abbreviation(_) => Ok(()),
    }
}

// Returns the text of expanded pieces.
fn expansion_text(alloc: Global, pieces: &[&Spanned<RawChunk<'_>>]) -> Result<String, AllocError>
    ensures { IfOk result (λ text. string_bytes text ≡ spec.expansion_text (lent_pieces pieces.now)) }
{
    let mut text = String::new(alloc);
    'pieces: for piece in pieces {
        push_expanded(&mut text, *piece)?;
    }
    Ok(text)
}

// Returns the text of a field's value with its abbreviations expanded. `indices` has the definitions before its entry.
fn field_text<'a, 's>(
    alloc: Global,
    rows: &[Vec<Indexed<'a, 's>>],
    indices: &Indices,
    field: &'a Pair<'s>,
) -> Result<String, AllocError>
    requires ordered { AreOrdered (rows_of rows.now) }
    requires below { IsBelow (length rows.now) (lowercase_index_in indices.now) }
    ensures { IfOk result (λ text. string_bytes text ≡
        spec.expansion_text (field_expanded (rows_of rows.now) (lowercase_index_in indices.now) (field_of field.now))) }
{
    let pieces = with_indices(alloc, indices, &field.value.v)?;
    let elements = expanded(alloc, rows, pieces)?;
    expansion_text(alloc, &elements)
}

// Returns whether pieces are one literal.
fn is_literal(pieces: &[Spanned<RawChunk<'_>>]) -> bool
    ensures { result ≡ is_some (single_text (map piece_of pieces.now)) }
{
    match single_text(pieces) {
        Some(_) => true,
        None => false,
    }
}

// Returns whether a field is a reference whose value isn't one literal.
fn is_joined_reference(field: &Pair<'_>) -> bool
    ensures { result ≡ spec.is_joined_reference (field_of field.now) }
{
    is_reference_field(field.key.v) && !is_literal(&field.value.v)
}

// Returns the first key in a field that refers to an entry with a new key, if the field is a reference whose value isn't one literal.
fn left_name<'a, 's>(
    alloc: Global,
    known: &Known<'a, '_, 's>,
    indices: &Indices,
    field: &'a Pair<'s>,
) -> Result<Option<Text>, AllocError>
    requires ordered { AreOrdered (rows_of known.now.rows.items) }
    requires below { IsBelow (length known.now.rows.items) (lowercase_index_in indices.now) }
    ensures { IfOk result (λ name. name ≡ spec.left_name (name_for known.now.names) (field_of field.now)
        (field_expanded (rows_of known.now.rows.items) (lowercase_index_in indices.now) (field_of field.now))) }
{
    if !is_joined_reference(field) {
        return Ok(None);
    }
    let text = field_text(alloc, &known.rows, indices, field)?;
    match first_renamed(alloc, &known.names, field.key.v, &text)? {
        Some(name) => Ok(Some(Text::from_str(alloc, name)?)),
        None => Ok(None),
    }
}

// Appends the reference in a field, if `name` is a key in it that refers to an entry with a new key.
fn push_left<'a, 's>(
    left: &mut Vec<LeftReference<'a, 's>>,
    entry: &'a Spanned<RawEntry<'s>>,
    field: &'a Pair<'s>,
    name: Option<Text>,
) -> Result<(), AllocError>
    ensures { OnOk result (lent_left left.new.items ≡ lent_left left.old.items
        ++ spec.left_at (entry_reading_of entry.now) (field_of field.now) name) }
{
    if let Some(name) = name {
        left.push(LeftReference { entry, field, name })?;
    }
    Ok(())
}

// Appends the references of an entry that stay. `indices` has the definitions before the entry.
fn push_left_in<'a, 's>(
    left: &mut Vec<LeftReference<'a, 's>>,
    alloc: Global,
    known: &Known<'a, '_, 's>,
    indices: &Indices,
    entry: &'a Spanned<RawEntry<'s>>,
) -> Result<(), AllocError>
    requires ordered { AreOrdered (rows_of known.now.rows.items) }
    requires below { IsBelow (length known.now.rows.items) (lowercase_index_in indices.now) }
    ensures { OnOk result (lent_left left.new.items ≡ lent_left left.old.items
        ++ spec.left_in (name_for known.now.names) (λ e. field_expanded (rows_of known.now.rows.items) (lowercase_index_in indices.now))
        (entry_reading_of entry.now)) }
{
    'fields: for field in &entry.v.fields {
        let name = left_name(alloc, known, indices, field)?;
        push_left(left, entry, field, name)?;
    }
    Ok(())
}

// Returns the references of entries, which are in the order of the file, that stay.
fn left_in_entries<'a, 's>(
    alloc: Global,
    known: &Known<'a, '_, 's>,
    definitions: &[Pair<'_>],
    entries: &'a [Spanned<RawEntry<'s>>],
) -> Result<Vec<LeftReference<'a, 's>>, AllocError>
    requires rows { AreRows (map field_of definitions.now) (length definitions.now) (rows_of known.now.rows.items) }
    requires definitions { (end : ℕ) × BeginBetween 0 end (map field_of definitions.now) }
    requires entries { AreFrom 0 (map entry_reading_of entries.now) }
    ensures { IfOk result (λ left. lent_left left.items ≡
        flat_map (spec.left_in (name_for known.now.names) (written_by (map field_of definitions.now) (rows_of known.now.rows.items)))
        (map entry_reading_of entries.now)) }
{
    let mut left = Vec::new(alloc);
    let mut indices = BTreeMap::new(alloc);
    let mut next = 0;
    'entries: for entry in entries {
        next = add_before(alloc, &mut indices, definitions, next, entry.span.start)?;
        push_left_in(&mut left, alloc, known, &indices, entry)?;
    }
    Ok(left)
}

/// Returns the references of a document that stay as they are when entries get new keys, although they refer to such an entry. Their values
/// aren't one literal, but an abbreviation or several pieces. Such a value is the texts of its pieces, one after another. An abbreviation
/// has the text of its last definition before the entry, in any ASCII case, and an empty text without one.
pub fn left_references<'a, 's>(
    alloc: Global,
    document: &'a RawDocument<'s>,
    keys: NewKeys<'_>,
) -> Result<Vec<LeftReference<'a, 's>>, AllocError>
    ensures { IfOk result (λ left. AreLeft document.now.says (key_for keys.entry) (lent_left left.items)) }
{
    let raw = document.raw();
    let known = Known {
        rows: rows(alloc, &raw.abbreviations)?,
        names: Names::new(alloc, &raw.entries, keys)?,
    };
    left_in_entries(alloc, &known, &raw.abbreviations, &raw.entries)
}
