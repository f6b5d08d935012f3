//! The layout of a new field: the text between its name and its value, and the white space between it and the next field.

ghost use Rattle.std.specs.Prelude.{◌≡◌, ◌++◌, ◌∷◌, [], IfOk, OnOk, map, replicate};
ghost use Rattle.std.specs.List.{AllByRecursion, list_all};
ghost use Rattle.std.specs.Str.{IsCharBoundary};
ghost use Rattle.std.specs.String.{string_bytes};
ghost use Rattle.bib_text.specs.Characters as char;
ghost use Rattle.bib_syntax.specs.Views.{field_of};
ghost use Rattle.edit_entries.specs.Layouts as spec;
ghost use Rattle.edit_entries.specs.Placed.{IsSignPlaced};
ghost use Rattle.edit_entries.specs.Setting as setting;

use bib_syntax::raw::Pair;
use std::alloc::{AllocError, Global};

// Returns the text between the name of a field and its equals sign, and the text between that and its value.
fn signs<'t>(text: &'t str, field: &Pair<'_>) -> (&'t str, &'t str)
    requires { IsSignPlaced text.now (field_of field.now) }
    ensures before { result.0.now ≡ spec.before_equals text.now (field_of field.now) }
    ensures after { result.1.now ≡ spec.after_equals text.now (field_of field.now) }
{
    let sign = &text[field.key.span.end..field.value.span.start];
    match sign.split_once('=') {
        Some((before, after)) => (before, after),
        None => (sign, ""),
    }
}

// Returns whether a byte is a space or a tab.
fn is_blank_byte(byte: u8) -> bool
    ensures { result ≡ spec.is_blank_byte byte }
{
    byte == b' ' || byte == b'\t'
}

// Returns whether a text consists of spaces and tabs.
fn is_blank(text: &str) -> bool
    ensures { result ≡ list_all spec.is_blank_byte text.now }
{
    'bytes: for byte in text.as_bytes() {
        let blank = is_blank_byte(*byte);
        if !blank {
            return false;
        }
    }
    true
}

// Returns the number of bytes from the start of a field's name to its equals sign. Returns `None` if at most one byte is between its name
// and the sign.
fn own_column(text: &str, field: &Pair<'_>) -> Option<usize>
    requires { IsSignPlaced text.now (field_of field.now) }
    ensures { result ≡ spec.wide_column text.now (field_of field.now ∷ []) }
{
    let before = signs(text, field).0;
    if 1 < before.len() {
        return Some(field.key.v.len() + before.len());
    }
    None
}

// Returns the number of bytes from the start of a field's name to its equals sign. The field is the first of these with more than one
// byte between its name and the sign. Returns `None` if there is no such field.
fn wide_column(text: &str, fields: &[Pair<'_>]) -> Option<usize>
    requires { AllByRecursion (IsSignPlaced text.now) (map field_of fields.now) }
    ensures { result ≡ spec.wide_column text.now (map field_of fields.now) }
{
    'fields: for field in fields {
        let column = own_column(text, field);
        if column.is_some() {
            return column;
        }
    }
    None
}

// Appends `count` spaces.
fn push_spaces(out: &mut String, count: usize) -> Result<(), AllocError>
    ensures { OnOk result (string_bytes out.new ≡ string_bytes out.old ++ replicate count char.space) }
{
    'spaces: for _ in 0..count {
        out.push(' ')?;
    }
    Ok(())
}

// Appends the white space before the equals sign of a new field: spaces up to the column, at least one, or `white` if there is
// no column.
fn push_before_sign(
    out: &mut String,
    name: &str,
    column: Option<usize>,
    white: &str,
) -> Result<(), AllocError>
    ensures { OnOk result (string_bytes out.new ≡ string_bytes out.old ++ spec.padding_or column name.now white.now) }
{
    match column {
        Some(column) => push_spaces(out, column.saturating_sub(name.len()).max(1)),
        None => out.push_str(white),
    }
}

// Returns the text between a new field's name and value: ` = ` if anything but spaces and tabs is around the sign of `field`. Otherwise
// spaces up to `column`, at least one, come before the sign, or without a column the white space that `field` has there.
fn sign_in_column(
    alloc: Global,
    text: &str,
    name: &str,
    column: Option<usize>,
    field: &Pair<'_>,
) -> Result<String, AllocError>
    requires { IsSignPlaced text.now (field_of field.now) }
    ensures { IfOk result (λ sign. string_bytes sign ≡ spec.sign_in_column text.now name.now column (field_of field.now)) }
{
    let (before, after) = signs(text, field);
    if !is_blank(before) || !is_blank(after) {
        return String::from_str(alloc, " = ");
    }
    let mut sign = String::new(alloc);
    push_before_sign(&mut sign, name, column, before)?;
    sign.push_str("=")?;
    sign.push_str(after)?;
    Ok(sign)
}

// Returns the text between the name and the value of a new field beside the field `first`. The column is that of the first of `fields` with
// more than one byte between its name and its sign, if there is one.
pub(crate) fn new_sign(
    alloc: Global,
    text: &str,
    name: &str,
    first: &Pair<'_>,
    fields: &[Pair<'_>],
) -> Result<String, AllocError>
    requires first { IsSignPlaced text.now (field_of first.now) }
    requires fields { AllByRecursion (IsSignPlaced text.now) (map field_of fields.now) }
    ensures { IfOk result (λ sign. string_bytes sign ≡ spec.new_sign text.now name.now (field_of first.now) (map field_of fields.now)) }
{
    sign_in_column(alloc, text, name, wide_column(text, fields), first)
}

/// Returns the text between the name and the value of a new field that replaces `field` or comes before it. `fields` are the fields of
/// the entry.
///
/// If `field` has more than one byte between its name and its equals sign, the new equals sign is in the same column. Otherwise it is in
/// the column of the first of `fields` with more than one byte there. If the name reaches that column, one space is before the sign. If
/// there is no such field, the white space before the sign is that of `field`. The white space after the sign is that of `field`, too. If
/// `field` has any other character than spaces and tabs around its sign, such as a line end, one space is before and after the new sign.
///
/// # Errors
///
/// Returns an error only if out of memory.
pub fn sign_at(
    alloc: Global,
    text: &str,
    field: &Pair<'_>,
    fields: &[Pair<'_>],
    name: &str,
) -> Result<String, AllocError>
    requires field { IsSignPlaced text.now (field_of field.now) }
    requires fields { AllByRecursion (IsSignPlaced text.now) (map field_of fields.now) }
    ensures { IfOk result (λ sign. string_bytes sign ≡ spec.sign_at text.now (field_of field.now) (map field_of fields.now) name.now) }
{
    match own_column(text, field) {
        Some(column) => sign_in_column(alloc, text, name, Some(column), field),
        None => new_sign(alloc, text, name, field, fields),
    }
}

/// Returns the ASCII white space directly before a byte offset of a text.
pub fn white_before(text: &str, at: usize) -> &str
    requires { IsCharBoundary text.now at }
    ensures { result.now ≡ setting.white_before text.now at }
{
    let before = &text[..at];
    let rest = before.trim_ascii_end();
    &before[rest.len()..]
}

/// Returns a new field, a comma, white space, and the name of the field that follows. `sign` is the text between the name and the value
/// of the new field. The only error is out of memory.
pub fn text_before(
    alloc: Global,
    name: &str,
    sign: &str,
    written: &str,
    white: &str,
    following: &str,
) -> Result<String, AllocError>
    ensures { IfOk result (λ text. string_bytes text ≡ (name.now ++ (sign.now ++ written.now) ++ char.comma ∷ white.now) ++ following.now) }
{
    let mut text = String::new(alloc);
    text.push_str(name)?;
    text.push_str(sign)?;
    text.push_str(written)?;
    text.push_str(",")?;
    text.push_str(white)?;
    text.push_str(following)?;
    Ok(text)
}
