//! The values of fields and the text before them, as they are written.

ghost use Rattle.std.specs.Prelude.{◌≡◌, IfOk, map};
ghost use Rattle.std.specs.Char.{is_ascii_whitespace};
ghost use Rattle.std.specs.List.{AllByRecursion, list_all};
ghost use Rattle.std.specs.String.{string_bytes};
ghost use Rattle.bib_syntax.specs.Views.{field_of};
ghost use Rattle.edit_entries.specs.Layouts.{after_equals, before_equals};
ghost use Rattle.edit_entries.specs.Placed.{IsPlaced, IsSignPlaced};
ghost use Rattle.edit_entry_merge.specs.Mixed as spec;

use bib_syntax::raw::Pair;
use edit_entries::layout::sign_at;
use edit_entries::values::value_end;
use std::alloc::{AllocError, Global};

// Returns the value of a field as it is written, without the white space after it.
pub(crate) fn value_text<'s>(text: &'s str, field: &Pair<'_>) -> &'s str
    requires { IsPlaced text.now (field_of field.now) }
    ensures { result.now ≡ (spec.copied text.now (field_of field.now)).bytes }
{
    &text[field.value.span.start..value_end(text, field)]
}

// Returns whether a text is ASCII white space.
fn is_white(text: &str) -> bool
    ensures { result ≡ list_all is_ascii_whitespace text.now }
{
    'bytes: for byte in text.as_bytes() {
        if !byte.is_ascii_whitespace() {
            return false;
        }
    }
    true
}

// Returns the text between the name of a field and its equals sign, and the text between that and its value.
fn signs<'t>(text: &'t str, field: &Pair<'_>) -> (&'t str, &'t str)
    requires { IsSignPlaced text.now (field_of field.now) }
    ensures before { result.0.now ≡ before_equals text.now (field_of field.now) }
    ensures after { result.1.now ≡ after_equals text.now (field_of field.now) }
{
    let sign = &text[field.key.span.end..field.value.span.start];
    match sign.split_once('=') {
        Some((before, after)) => (before, after),
        None => (sign, ""),
    }
}

// Returns the text between the name of a field and its value, or ` = ` if other characters than ASCII white space are around the sign.
fn own_sign(alloc: Global, text: &str, field: &Pair<'_>) -> Result<String, AllocError>
    requires { IsSignPlaced text.now (field_of field.now) }
    ensures { IfOk result (λ sign. string_bytes sign ≡ spec.own_sign text.now (field_of field.now)) }
{
    let (before, after) = signs(text, field);
    if !is_white(before) || !is_white(after) {
        return String::from_str(alloc, " = ");
    }
    let mut sign = String::from_str(alloc, before)?;
    sign.push_str("=")?;
    sign.push_str(after)?;
    Ok(sign)
}

// Returns the text between a name and a value in the place of `field`; `fields` are all fields of its entry.
pub(crate) fn sign_for(
    alloc: Global,
    text: &str,
    field: &Pair<'_>,
    fields: &[Pair<'_>],
    name: &str,
) -> Result<String, AllocError>
    requires field { IsSignPlaced text.now (field_of field.now) }
    requires fields { AllByRecursion (IsSignPlaced text.now) (map field_of fields.now) }
    ensures { IfOk result (λ sign. string_bytes sign ≡ spec.sign_for text.now (field_of field.now) (map field_of fields.now) name.now) }
{
    if name == field.key.v {
        return own_sign(alloc, text, field);
    }
    sign_at(alloc, text, field, fields, name)
}
