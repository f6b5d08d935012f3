//! The names of units and the texts of values, as they are printed.

ghost use Rattle.std.specs.Prelude.{◌≡◌, ◌++◌, IfOk, OnOk, length, map, option_map};
ghost use Rattle.std.specs.String.{string_bytes};
ghost use Rattle.std.specs.Str.{chars};
ghost use Rattle.bib_syntax.specs.Views.{entry_reading_of, field_of, piece_of};
ghost use Rattle.edit_units.specs.Views.{unit_reading_of};
ghost use Rattle.bibkit_versions.specs.Labels as spec;

use bib_syntax::raw::{Pair, RawChunk, RawEntry};
use bib_text::spanned::{Span, Spanned};
use edit_units::units::Unit;
use edit_versions::names::{first_line, words_with_spaces};
use edit_versions::version::Version;
use std::alloc::{AllocError, Global};

// The greatest number of characters of a text that are shown.
const MOST_SHOWN: usize = 60;

// Appends a character, or U+FFFD for a control character.
fn push_printable(printed: &mut String, c: char) -> Result<(), AllocError>
    ensures { OnOk result (string_bytes printed.new ≡ string_bytes printed.old ++ spec.printable_character c) }
{
    if c.is_control() {
        printed.push('\u{FFFD}')
    } else {
        printed.push(c)
    }
}

// Returns a text with U+FFFD for each control character.
fn printable(alloc: Global, text: &str) -> Result<String, AllocError>
    ensures { IfOk result (λ printed. string_bytes printed ≡ spec.printable text.now) }
{
    let mut printed = String::new(alloc);
    'characters: for c in text.chars() {
        push_printable(&mut printed, c)?;
    }
    Ok(printed)
}

// Returns the first characters of a text, at most `MOST_SHOWN`.
fn front(alloc: Global, text: &str) -> Result<String, AllocError>
    ensures { IfOk result (λ front. string_bytes front ≡ spec.front text.now) }
{
    text.chars().take(MOST_SHOWN).collect(alloc)
}

// Returns the number of characters of a text.
fn character_count(text: &str) -> usize
    ensures { result ≡ length (chars text.now) }
{
    text.chars().count()
}

// Returns three points for a text with more than `MOST_SHOWN` characters, and otherwise an empty text.
fn points_after(text: &str) -> &'static str
    ensures { result.now ≡ spec.points_after text.now }
{
    if character_count(text) > MOST_SHOWN {
        "..."
    } else {
        ""
    }
}

/// Returns a text on one line, cut to `MOST_SHOWN` characters, without control characters.
pub(crate) fn shown(alloc: Global, text: &str) -> Result<String, AllocError>
    ensures { IfOk result (λ shown. string_bytes shown ≡ spec.shown_text text.now) }
{
    let words = words_with_spaces(alloc, text)?;
    let line = words.as_str().trim_end();
    let front = front(alloc, line)?;
    let mut shown = printable(alloc, &front)?;
    shown.push_str(points_after(line))?;
    Ok(shown)
}

// Returns a piece of a value: a literal in braces, or the name of an abbreviation.
fn piece_text(alloc: Global, piece: &Spanned<RawChunk<'_>>) -> Result<String, AllocError>
    ensures { IfOk result (λ text. string_bytes text ≡ spec.piece_in_braces (piece_of piece.now)) }
{
    match piece.v {
        RawChunk::Normal(text) => format!(in alloc; "{{{text}}}"),
        RawChunk::Abbreviation(name) => String::from_str(alloc, name),
    }
}

// Returns a number sign before a piece at this index of a value, or an empty text before the first one.
fn sign_before(index: usize) -> &'static str
    ensures { result.now ≡ spec.number_sign_before index }
{
    if index == 0 { "" } else { " # " }
}

/// Returns a value: its pieces, joined by number signs.
pub(crate) fn value_text(
    alloc: Global,
    pieces: &[Spanned<RawChunk<'_>>],
) -> Result<String, AllocError>
    ensures { IfOk result (λ text. string_bytes text ≡ spec.value_in_braces (map piece_of pieces.now)) }
{
    let mut text = String::new(alloc);
    'pieces: for (index, piece) in pieces.iter().enumerate() {
        text.push_str(sign_before(index))?;
        text.push_str(&piece_text(alloc, piece)?)?;
    }
    Ok(text)
}

/// The kind of a unit.
#[derive(Debug, Clone, Copy, PartialEq, Eq)]
pub(crate) enum Kind {
    /// It has an entry.
    Entry,
    /// It has a definition of an abbreviation, and no entry.
    Definition,
    /// It has another block: a comment or a preamble.
    Block,
    /// It has no block.
    Text,
}

impl Kind {
    /// Returns the name of the kind.
    pub(crate) fn name(self) -> &'static str
        ensures { result.now ≡ spec.unit_kind_name self }
    {
        match self {
            Kind::Entry => "entry",
            Kind::Definition => "string",
            Kind::Block => "block",
            Kind::Text => "text",
        }
    }

    // Returns the text before the name of a unit of this kind.
    fn prefix(self) -> &'static str
        ensures { result.now ≡ spec.kind_prefix self }
    {
        match self {
            Kind::Definition => "@string ",
            _ => "",
        }
    }
}

// Returns the kind of a unit, by its entries, its definitions and its blocks.
fn kind_by(entries: &[Spanned<RawEntry<'_>>], definitions: &[Pair<'_>], blocks: &[Span]) -> Kind
    ensures { result ≡ spec.kind_by (map entry_reading_of entries.now) (map field_of definitions.now) blocks.now }
{
    if !entries.is_empty() {
        return Kind::Entry;
    }
    if !definitions.is_empty() {
        return Kind::Definition;
    }
    if blocks.is_empty() {
        Kind::Text
    } else {
        Kind::Block
    }
}

// Returns the kind of a unit.
fn unit_kind(unit: Option<&Unit<'_>>) -> Kind
    ensures { result ≡ spec.unit_kind (option_map (λ u. unit_reading_of u.now) unit.entry) }
{
    match unit {
        Some(unit) => kind_by(&unit.raw.entries, &unit.raw.abbreviations, &unit.blocks),
        None => Kind::Text,
    }
}

/// Returns the kind of the unit at an index.
pub(crate) fn kind_at(version: &Version<'_>, index: usize) -> Kind
    ensures { result ≡ spec.kind_at version.now index }
{
    unit_kind(version.unit_at(Some(index)))
}

// Returns the name of a unit with this text: the key of its first entry, or the name of its first definition, or its first line.
fn name_by<'s>(
    entries: &[Spanned<RawEntry<'s>>],
    definitions: &[Pair<'s>],
    text: &'s str,
) -> &'s str
    ensures { result.now ≡ spec.name_by (map entry_reading_of entries.now) (map field_of definitions.now) text.now }
{
    if let Some(entry) = entries.first() {
        return entry.v.key.v;
    }
    match definitions.first() {
        Some(definition) => definition.key.v,
        None => first_line(text),
    }
}

/// Returns the name of the unit at an index, or an empty text if there is none.
pub(crate) fn name_at<'s>(version: &Version<'s>, index: usize) -> &'s str
    ensures { result.now ≡ spec.unit_name_at version.now index }
{
    match version.unit_with_text(Some(index)) {
        Some((unit, text)) => name_by(&unit.raw.entries, &unit.raw.abbreviations, text),
        None => "",
    }
}

/// Returns the name of the unit at an index as it is shown in a line.
pub(crate) fn label_at(
    alloc: Global,
    version: &Version<'_>,
    index: usize,
) -> Result<String, AllocError>
    ensures { IfOk result (λ label. string_bytes label ≡ spec.label_at version.now index) }
{
    let name = shown(alloc, name_at(version, index))?;
    format!(in alloc; "{}{name}", kind_at(version, index).prefix())
}
