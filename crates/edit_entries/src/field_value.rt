//! Values that fields get.

ghost use Rattle.std.specs.Prelude.{◌≡◌, ◌⊎◌, IfErr, IfOk, MatchBool, OnOk, map};
ghost use Rattle.std.specs.List.{list_any};
ghost use Rattle.std.specs.String.{string_bytes};
ghost use Rattle.bib_syntax.specs.Views.{field_of, piece_of};
ghost use Rattle.edit_entries.specs.Documents as documents;
ghost use Rattle.edit_entries.specs.Setting as spec;
ghost use Rattle.edit_entries.specs.Setting.{CanBeValue, IsBare, IsWritableAt, unfit_error, value_of};
ghost use Rattle.edit_entries.specs.declared.errors.EditError.TheVariants.{NotInBraces, OutOfMemory};

use crate::braces::in_braces;
use crate::errors::EditError;
use crate::names::can_be_new_name;
use bib_queries::balance::is_balanced;
use bib_syntax::raw::{Pair, RawChunk, is_word};
use bib_tables::months::Month;
use bib_text::digits::are_digits;
use bib_text::spanned::Spanned;
use std::alloc::{AllocError, Global};

/// A value that a field gets.
#[derive(Debug, Clone, Copy)]
pub enum FieldValue<'a> {
    /// A text, without the braces in which it is written.
    Text(&'a str),
    /// A number, or the name of an abbreviation, which are written without braces.
    Bare(&'a str),
}

// Returns whether a text consists of one or more ASCII digits.
fn is_number(text: &str) -> bool
    ensures { result ≡ spec.is_bare_number text.now }
{
    match text.as_bytes() {
        [] => false,
        bytes => are_digits(bytes),
    }
}

// Returns whether one of these definitions has a name, in any ASCII case, and begins before a byte offset.
fn is_defined_before(definitions: &[Pair<'_>], at: usize, name: &str) -> bool
    ensures { result ≡ list_any (spec.is_defined_before at name.now) (map field_of definitions.now) }
{
    'definitions: for definition in definitions {
        if is_word(definition.key.v, name) && definition.key.span.start < at {
            return true;
        }
    }
    false
}

// Returns whether a name is a month's abbreviation, or is defined before a byte offset, in any ASCII case.
fn is_defined(definitions: &[Pair<'_>], at: usize, name: &str) -> bool
    ensures { result ≡ spec.is_defined (map field_of definitions.now) at name.now }
{
    Month::from_abbreviation(name).is_some() || is_defined_before(definitions, at, name)
}

// Returns whether a text can be a value without braces at a byte offset.
fn is_bare(definitions: &[Pair<'_>], at: usize, text: &str) -> bool
    ensures { MatchBool result (IsBare (map field_of definitions.now) at text.now) (IsBare (map field_of definitions.now) at text.now → ⊥) }
{
    if is_number(text) {
        return true;
    }
    if !can_be_new_name(text) {
        return false;
    }
    is_defined(definitions, at, text)
}

// Returns whether a value is one literal with this text.
fn is_value(pieces: &[Spanned<RawChunk<'_>>], value: &str) -> bool
    ensures { result ≡ documents.is_value value.now (map piece_of pieces.now) }
{
    match pieces {
        [piece] => match piece.v {
            RawChunk::Normal(text) => text == value,
            RawChunk::Abbreviation(_) => false,
        },
        _ => false,
    }
}

// Returns whether pieces are this value.
pub(crate) fn is_same_value(pieces: &[Spanned<RawChunk<'_>>], value: FieldValue<'_>) -> bool
    ensures { result ≡ spec.is_same_value (value_of value.entry) (map piece_of pieces.now) }
{
    match value {
        FieldValue::Text(text) => is_value(pieces, text),
        FieldValue::Bare(text) => match pieces {
            [piece] => match piece.v {
                RawChunk::Normal(own) => is_number(text) && own == text,
                RawChunk::Abbreviation(name) => is_word(name, text),
            },
            _ => false,
        },
    }
}

// Returns a text between two braces, if it can be a value.
fn value_in_braces(alloc: Global, value: &str) -> Result<String, EditError>
    ensures found { IfOk result (λ braced. string_bytes braced ≡ documents.in_braces value.now) }
    ensures can { OnOk result (CanBeValue value.now) }
    ensures refused { IfErr result (λ e. (e ≡ OutOfMemory) ⊎ ((e ≡ NotInBraces) × (CanBeValue value.now → ⊥))) }
{
    let braced = in_braces(alloc, value)?;
    if !is_balanced(value) {
        return Err(EditError::NotInBraces);
    }
    Ok(braced)
}

// Returns a value as it is written at a byte offset, if it can be.
pub(crate) fn value_text(
    alloc: Global,
    definitions: &[Pair<'_>],
    at: usize,
    value: FieldValue<'_>,
) -> Result<String, EditError>
    ensures found { IfOk result (λ written. string_bytes written ≡ (spec.new_value (value_of value.entry)).bytes) }
    ensures can { OnOk result (IsWritableAt (map field_of definitions.now) at (value_of value.entry)) }
    ensures refused { IfErr result (λ e. (e ≡ OutOfMemory) ⊎
        ((e ≡ unfit_error (value_of value.entry)) × (IsWritableAt (map field_of definitions.now) at (value_of value.entry) → ⊥))) }
{
    match value {
        FieldValue::Text(text) => value_in_braces(alloc, text),
        FieldValue::Bare(text) => {
            if !is_bare(definitions, at, text) {
                return Err(EditError::NotBare);
            }
            Ok(String::from_str(alloc, text)?)
        }
    }
}
