//! Texts of new fields, which have the layout of the field that they replace or come before.

ghost use Rattle.std.specs.Prelude.{◌≡◌, ◌++◌, ◌∷◌, IfOk, OnOk};
ghost use Rattle.std.specs.String.{string_bytes};
ghost use Rattle.bib_text.specs.Characters as char;
ghost use Rattle.bib_syntax.specs.Views.{field_of};
ghost use Rattle.edit_entries.specs.Changes.{braced_field, field_before, field_text_by};
ghost use Rattle.edit_entries.specs.Documents as documents;
ghost use Rattle.edit_convert.specs.Tables.{IsFieldInText, white_at, sign_by};

use bib_syntax::raw::Pair;
use edit_entries::layout::{sign_at, text_before, white_before};
use std::alloc::{AllocError, Global};

// A field of an entry: the text of the file, the fields of the entry, the field itself, and the fields after it.
#[derive(Clone, Copy)]
pub(crate) struct EntryField<'e, 's> {
    pub(crate) text: &'e str,
    pub(crate) fields: &'e [Pair<'s>],
    pub(crate) field: &'e Pair<'s>,
    pub(crate) following: &'e [Pair<'s>],
}

// Returns the white space directly before the name of a field.
fn white_at<'e>(at: &EntryField<'e, '_>) -> &'e str
    requires { IsFieldInText at.now }
    ensures { result.now ≡ white_at at.now }
{
    white_before(at.text, at.field.key.span.start)
}

// Appends a comma and the white space before the next new field.
pub(crate) fn push_comma(out: &mut String, at: &EntryField<'_, '_>) -> Result<(), AllocError>
    requires { IsFieldInText at.now }
    ensures { OnOk result (string_bytes out.new ≡ string_bytes out.old ++ char.comma ∷ white_at at.now) }
{
    out.push_str(",")?;
    out.push_str(white_at(at))
}

// Appends the name of a new field, and the text between it and the value.
pub(crate) fn push_name(
    out: &mut String,
    alloc: Global,
    at: &EntryField<'_, '_>,
    name: &str,
) -> Result<(), AllocError>
    requires { IsFieldInText at.now }
    ensures { OnOk result (string_bytes out.new ≡ string_bytes out.old ++ (name.now ++ sign_by at.now name.now)) }
{
    out.push_str(name)?;
    let sign = sign_at(alloc, at.text, at.field, at.fields, name)?;
    out.push_str(&sign)
}

// Appends a new field whose value is a text in braces.
pub(crate) fn push_braced(
    out: &mut String,
    alloc: Global,
    at: &EntryField<'_, '_>,
    name: &str,
    text: &str,
) -> Result<(), AllocError>
    requires { IsFieldInText at.now }
    ensures { OnOk result (string_bytes out.new ≡ string_bytes out.old ++ field_text_by (sign_by at.now) (braced_field name.now text.now)) }
{
    push_name(out, alloc, at, name)?;
    out.push_str("{")?;
    out.push_str(text)?;
    out.push_str("}")
}

// Returns a text in braces.
pub(crate) fn in_braces(alloc: Global, text: &str) -> Result<String, AllocError>
    ensures { IfOk result (λ braced. string_bytes braced ≡ documents.in_braces text.now) }
{
    let mut out = String::new(alloc);
    out.push_str("{")?;
    out.push_str(text)?;
    out.push_str("}")?;
    Ok(out)
}

// Returns a new field whose value is a text in braces, a comma and white space, and the name of the field before which it comes.
pub(crate) fn braced_before(
    alloc: Global,
    at: &EntryField<'_, '_>,
    name: &str,
    text: &str,
) -> Result<String, AllocError>
    requires { IsFieldInText at.now }
    ensures { IfOk result (λ new. string_bytes new ≡
        field_before (braced_field name.now text.now) (sign_by at.now name.now) (white_at at.now) ++ (field_of at.now.field.now).name.text) }
{
    let field = at.field;
    let sign = sign_at(alloc, at.text, field, at.fields, name)?;
    let value = in_braces(alloc, text)?;
    text_before(alloc, name, &sign, &value, white_at(at), field.key.v)
}
