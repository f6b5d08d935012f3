//! The names of entries and of abbreviations, and the names that they refer to.

ghost use Rattle.std.specs.Prelude.{◌≡◌, ◌++◌, map, IfOk, OnOk};
ghost use Rattle.bib_syntax.specs.Grammar as grammar;
ghost use Rattle.bib_syntax.specs.Views.{entry_reading_of, field_of, piece_of};
ghost use Rattle.bib_queries.specs.Names as spec;
ghost use Rattle.bib_queries.specs.Names.{comma_parts, literal_parts, aliases_of, references_of, used_in_value, used_in_fields, entry_node, definition_node};
ghost use Rattle.bib_queries.specs.Texts.{text_list, node_of};

use bib_syntax::raw::{Pair, RawChunk, RawEntry};
use bib_tables::fields::is_reference_field;
use bib_text::spanned::Spanned;
use std::alloc::{AllocError, Global};

/// The names of an entry or of an abbreviation, and the names that it refers to.
#[derive(Debug, Drop)]
pub struct Links<'s> {
    /// Its own names.
    pub names: Vec<&'s str>,
    /// The names that it refers to.
    pub references: Vec<&'s str>,
}

// Returns whether a name is this word, in any ASCII case.
pub(crate) fn is_name(name: &str, word: &str) -> bool
    ensures { result ≡ grammar.is_word name.now word.now }
{
    name.eq_ignore_ascii_case(word)
}

// Appends the parts of a comma-separated list, without the white space around them and without empty parts.
pub(crate) fn push_parts<'s>(names: &mut Vec<&'s str>, list: &'s str) -> Result<(), AllocError>
    ensures { OnOk result (text_list names.new ≡ text_list names.old ++ comma_parts list.now) }
{
    'parts: for part in list.split(',') {
        push_filled(names, part.trim())?;
    }
    Ok(())
}

// Appends a name unless it is empty.
pub(crate) fn push_filled<'s>(names: &mut Vec<&'s str>, name: &'s str) -> Result<(), AllocError>
    ensures { OnOk result (text_list names.new ≡ text_list names.old ++ spec.name_if_filled name.now) }
{
    if name.is_empty() {
        return Ok(());
    }
    names.push(name)?;
    Ok(())
}

// Appends the parts of the literals of a value, which are comma-separated lists.
fn push_listed<'s>(
    names: &mut Vec<&'s str>,
    value: &[Spanned<RawChunk<'s>>],
) -> Result<(), AllocError>
    ensures { OnOk result (text_list names.new ≡ text_list names.old ++ literal_parts (map piece_of value.now)) }
{
    'pieces: for piece in value {
        push_piece(names, piece)?;
    }
    Ok(())
}

// Appends the parts of a piece if it is a literal, which is a comma-separated list.
fn push_piece<'s>(names: &mut Vec<&'s str>, piece: &Spanned<RawChunk<'s>>) -> Result<(), AllocError>
    ensures { OnOk result (text_list names.new ≡ text_list names.old ++ spec.piece_parts (piece_of piece.now)) }
{
    match piece.v {
        RawChunk::Normal(text) => push_parts(names, text),
        RawChunk::Abbreviation(_) => Ok(()),
    }
}

// Appends the names that a field lists, if it is the field `ids`.
fn push_alias_field<'s>(names: &mut Vec<&'s str>, field: &Pair<'s>) -> Result<(), AllocError>
    ensures { OnOk result (text_list names.new ≡ text_list names.old ++ spec.aliases_in (field_of field.now)) }
{
    if is_name(field.key.v, "ids") {
        return push_listed(names, &field.value.v);
    }
    Ok(())
}

// Appends the names in the fields `ids` of an entry.
fn push_aliases<'s>(names: &mut Vec<&'s str>, fields: &[Pair<'s>]) -> Result<(), AllocError>
    ensures { OnOk result (text_list names.new ≡ text_list names.old ++ aliases_of (map field_of fields.now)) }
{
    'fields: for field in fields {
        push_alias_field(names, field)?;
    }
    Ok(())
}

// Appends the names that a field lists, if it is a reference.
fn push_reference_field<'s>(names: &mut Vec<&'s str>, field: &Pair<'s>) -> Result<(), AllocError>
    ensures { OnOk result (text_list names.new ≡ text_list names.old ++ spec.references_in (field_of field.now)) }
{
    if is_reference_field(field.key.v) {
        return push_listed(names, &field.value.v);
    }
    Ok(())
}

/// Appends the names that an entry with these fields refers to. The only error is out of memory. After it, `names` may have some of them.
pub fn push_references<'s>(names: &mut Vec<&'s str>, fields: &[Pair<'s>]) -> Result<(), AllocError>
    ensures { OnOk result (text_list names.new ≡ text_list names.old ++ references_of (map field_of fields.now)) }
{
    'fields: for field in fields {
        push_reference_field(names, field)?;
    }
    Ok(())
}

// Appends the name of a piece if it is an abbreviation.
fn push_used_piece<'s>(
    names: &mut Vec<&'s str>,
    piece: &Spanned<RawChunk<'s>>,
) -> Result<(), AllocError>
    ensures { OnOk result (text_list names.new ≡ text_list names.old ++ spec.used_as (piece_of piece.now)) }
{
    match piece.v {
        RawChunk::Normal(_) => Ok(()),
        RawChunk::Abbreviation(name) => {
            names.push(name)?;
            Ok(())
        }
    }
}

// Appends the abbreviations that a value uses.
fn push_used<'s>(
    names: &mut Vec<&'s str>,
    value: &[Spanned<RawChunk<'s>>],
) -> Result<(), AllocError>
    ensures { OnOk result (text_list names.new ≡ text_list names.old ++ used_in_value (map piece_of value.now)) }
{
    'pieces: for piece in value {
        push_used_piece(names, piece)?;
    }
    Ok(())
}

/// Appends the abbreviations that fields use, as they are written. The only error is out of memory. After it, `names` may have some of
/// them.
pub fn push_used_in_fields<'s>(
    names: &mut Vec<&'s str>,
    fields: &[Pair<'s>],
) -> Result<(), AllocError>
    ensures { OnOk result (text_list names.new ≡ text_list names.old ++ used_in_fields (map field_of fields.now)) }
{
    'fields: for field in fields {
        push_used(names, &field.value.v)?;
    }
    Ok(())
}

/// Returns the names of an entry: its key, and the names in its fields `ids`. The only error is out of memory.
pub fn entry_names<'s>(
    alloc: Global,
    entry: &Spanned<RawEntry<'s>>,
) -> Result<Vec<&'s str>, AllocError>
    ensures { IfOk result (λ names. text_list names ≡ spec.entry_names (entry_reading_of entry.now)) }
{
    let mut names = Vec::new(alloc);
    names.push(entry.v.key.v)?;
    push_aliases(&mut names, &entry.v.fields)?;
    Ok(names)
}

// Returns the names of an entry, and the names that it refers to.
fn entry_links<'s>(alloc: Global, entry: &Spanned<RawEntry<'s>>) -> Result<Links<'s>, AllocError>
    ensures { IfOk result (λ links. node_of links ≡ entry_node (entry_reading_of entry.now)) }
{
    let names = entry_names(alloc, entry)?;
    let mut references = Vec::new(alloc);
    push_references(&mut references, &entry.v.fields)?;
    Ok(Links { names, references })
}

// Returns the name of an abbreviation, and the abbreviations that its definition uses.
fn definition_links<'s>(alloc: Global, pair: &Pair<'s>) -> Result<Links<'s>, AllocError>
    ensures { IfOk result (λ links. node_of links ≡ definition_node (field_of pair.now)) }
{
    let mut names = Vec::new(alloc);
    names.push(pair.key.v)?;
    let mut references = Vec::new(alloc);
    push_used(&mut references, &pair.value.v)?;
    Ok(Links { names, references })
}

// Returns the names of each entry, and the names that it refers to.
pub(crate) fn links_of_entries<'s>(
    alloc: Global,
    entries: &[Spanned<RawEntry<'s>>],
) -> Result<Vec<Links<'s>>, AllocError>
    ensures { IfOk result (λ links. map node_of links.items ≡ map entry_node (map entry_reading_of entries.now)) }
{
    let mut links = Vec::with_capacity(alloc, entries.len())?;
    'entries: for entry in entries {
        links.push(entry_links(alloc, entry)?)?;
    }
    Ok(links)
}

// Returns the name of each abbreviation, and the abbreviations that its definition uses.
pub(crate) fn links_of_definitions<'s>(
    alloc: Global,
    pairs: &[Pair<'s>],
) -> Result<Vec<Links<'s>>, AllocError>
    ensures { IfOk result (λ links. map node_of links.items ≡ map definition_node (map field_of pairs.now)) }
{
    let mut links = Vec::with_capacity(alloc, pairs.len())?;
    'pairs: for pair in pairs {
        links.push(definition_links(alloc, pair)?)?;
    }
    Ok(links)
}
