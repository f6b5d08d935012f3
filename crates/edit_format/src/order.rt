//! Fields in the order of the style.

ghost use Rattle.std.specs.Prelude.{◌≡◌, ◌++◌, map, OnOk};
ghost use Rattle.std.specs.List.{AllByRecursion, filter, flat_map};
ghost use Rattle.std.specs.String.{string_bytes};
ghost use Rattle.bib_syntax.specs.Views.{field_of};
ghost use Rattle.edit_entries.specs.Documents.{has_name};
ghost use Rattle.edit_entries.specs.Cuts.{ArePiecesCut};
ghost use Rattle.edit_format.specs.Formatted as styled;
ghost use Rattle.edit_format.specs.Formatted.{field_laid_out};
ghost use Rattle.edit_format.specs.Ordered as ordered;
ghost use Rattle.edit_format.specs.Unlisted as listed;
ghost use Rattle.edit_format.specs.Unlisted.{name_texts, unlisted};

use crate::fields::{padded_width, push_field};
use crate::layout::Layout;
use bib_syntax::raw::Pair;
use std::alloc::{AllocError, Global};

// Returns whether `field` has this name, in any ASCII case.
fn has_name(name: &str, field: &Pair<'_>) -> bool
    ensures { result ≡ has_name name.now (field_of field.now) }
{
    field.key.v.eq_ignore_ascii_case(name)
}

// Returns whether `field` has one of `names`, in any ASCII case.
fn has_one_of(names: &[&str], field: &Pair<'_>) -> bool
    ensures { result ≡ listed.has_one_of (name_texts names.now) (field_of field.now) }
{
    'names: for name in names {
        if has_name(name, field) {
            return true;
        }
    }
    false
}

// Returns whether `field` has the name `name` and none of the names `before`.
fn has_name_first(before: &[&str], name: &str, field: &Pair<'_>) -> bool
    ensures { result ≡ listed.has_name_first (name_texts before.now) name.now (field_of field.now) }
{
    has_name(name, field) && !has_one_of(before, field)
}

// Appends the fields that have the name `name` and none of the names `before`.
fn push_named(
    alloc: Global,
    new: &mut String,
    layout: &Layout<'_, '_>,
    width: usize,
    before: &[&str],
    name: &str,
    fields: &[Pair<'_>],
) -> Result<(), AllocError>
    requires { AllByRecursion (ArePiecesCut layout.now.text.now) (map field_of fields.now) }
    ensures { OnOk result (string_bytes new.new ≡ string_bytes new.old ++
        flat_map (field_laid_out layout.now.line_end.now layout.now.style layout.now.text.now width)
        (filter (listed.has_name_first (name_texts before.now) name.now) (map field_of fields.now))) }
{
    'fields: for field in fields {
        if has_name_first(before, name, field) {
            push_field(alloc, new, layout, width, field)?;
        }
    }
    Ok(())
}

// Appends the fields that have none of `names`.
fn push_unlisted(
    alloc: Global,
    new: &mut String,
    layout: &Layout<'_, '_>,
    width: usize,
    names: &[&str],
    fields: &[Pair<'_>],
) -> Result<(), AllocError>
    requires { AllByRecursion (ArePiecesCut layout.now.text.now) (map field_of fields.now) }
    ensures { OnOk result (string_bytes new.new ≡ string_bytes new.old ++
        flat_map (field_laid_out layout.now.line_end.now layout.now.style layout.now.text.now width)
        (unlisted (name_texts names.now) (map field_of fields.now))) }
{
    'fields: for field in fields {
        if !has_one_of(names, field) {
            push_field(alloc, new, layout, width, field)?;
        }
    }
    Ok(())
}

// Appends the fields in the order of the style. Each begins a new line.
pub(crate) fn push_fields(
    alloc: Global,
    new: &mut String,
    layout: &Layout<'_, '_>,
    fields: &[Pair<'_>],
) -> Result<(), AllocError>
    requires { AllByRecursion (ArePiecesCut layout.now.text.now) (map field_of fields.now) }
    ensures { OnOk result (string_bytes new.new ≡ string_bytes new.old ++
        flat_map (field_laid_out layout.now.line_end.now layout.now.style layout.now.text.now
        (styled.padded_width layout.now.style (map field_of fields.now)))
        (ordered.in_order (ordered.order_of layout.now.style) (map field_of fields.now))) }
{
    let width = padded_width(&layout.style, fields);
    let order = layout.style.order;
    'names: for (index, name) in order.iter().enumerate() {
        push_named(alloc, new, layout, width, &order[..index], name, fields)?;
    }
    push_unlisted(alloc, new, layout, width, order, fields)
}
