//! Writing of the fields of entries.

ghost use Rattle.std.specs.Prelude.{◌≡◌, ◌++◌, codes, length, map, IfOk, OnOk};
ghost use Rattle.std.specs.Str.{chars};
ghost use Rattle.std.specs.String.{string_bytes};
ghost use Rattle.bib_syntax.specs.Views.{field_of};
ghost use Rattle.edit_entries.specs.Cuts.{ArePiecesCut};
ghost use Rattle.edit_format.specs.Formatted as styled;
ghost use Rattle.edit_format.specs.Formatted.{elements_as_written, field_laid_out, spaces};

use crate::layout::Layout;
use crate::lowercase::push_lowercase;
use crate::pieces::push_value;
use crate::style::Style;
use bib_syntax::raw::Pair;
use std::alloc::{AllocError, Global};

// Returns the number of characters of `text`.
fn character_count(text: &str) -> usize
    ensures { result ≡ length (chars text.now) }
{
    text.chars().count()
}

// Returns the length in characters of the longest name of `fields`.
fn longest_name(fields: &[Pair<'_>]) -> usize
    ensures { result ≡ styled.longest_name (map field_of fields.now) }
{
    let mut longest = 0usize;
    'fields: for field in fields {
        longest = character_count(field.key.v).max(longest);
    }
    longest
}

// Returns the number of characters to which the names of `fields` are padded: 0 if the style doesn't align them.
pub(crate) fn padded_width(style: &Style<'_>, fields: &[Pair<'_>]) -> usize
    ensures { result ≡ styled.padded_width style.now (map field_of fields.now) }
{
    if style.aligned {
        longest_name(fields)
    } else {
        0
    }
}

// Appends `count` spaces.
fn push_spaces(new: &mut String, count: usize) -> Result<(), AllocError>
    ensures { OnOk result (string_bytes new.new ≡ string_bytes new.old ++ spaces count) }
{
    'spaces: for _written in 0..count {
        new.push(' ')?;
    }
    Ok(())
}

// Appends the line of a field: its padded name and its value, with `next` before each piece except the first.
fn push_line(
    alloc: Global,
    new: &mut String,
    layout: &Layout<'_, '_>,
    width: usize,
    next: &str,
    field: &Pair<'_>,
) -> Result<(), AllocError>
    requires { ArePiecesCut layout.now.text.now (field_of field.now) }
    ensures { OnOk result (string_bytes new.new ≡ string_bytes new.old ++
        styled.line_laid_out layout.now.style width next.now (field_of field.now).name.text
        (elements_as_written layout.now.style layout.now.text.now (field_of field.now))) }
{
    push_spaces(new, layout.style.indent)?;
    push_lowercase(alloc, new, field.key.v)?;
    push_spaces(new, width.saturating_sub(character_count(field.key.v)))?;
    push_value(new, layout, next, &field.value.v)?;
    Ok(())
}

// Returns whether the field on one line, with a comma after it, is longer than the width of the style.
fn is_too_long(
    alloc: Global,
    layout: &Layout<'_, '_>,
    width: usize,
    field: &Pair<'_>,
) -> Result<bool, AllocError>
    requires { ArePiecesCut layout.now.text.now (field_of field.now) }
    ensures { IfOk result (λ is. is ≡ styled.is_too_long layout.now.style.width
        (styled.line_laid_out layout.now.style width (codes " # ") (field_of field.now).name.text
        (elements_as_written layout.now.style layout.now.text.now (field_of field.now)))) }
{
    match layout.style.width {
        None => Ok(false),
        Some(most) => {
            let mut line = String::new(alloc);
            push_line(alloc, &mut line, layout, width, " # ", field)?;
            Ok(most <= character_count(line.as_str()))
        }
    }
}

// Returns whether each piece of the value except the first begins a new line.
fn is_broken(
    alloc: Global,
    layout: &Layout<'_, '_>,
    width: usize,
    field: &Pair<'_>,
) -> Result<bool, AllocError>
    requires { ArePiecesCut layout.now.text.now (field_of field.now) }
    ensures { IfOk result (λ is. is ≡ styled.is_broken layout.now.style width (field_of field.now).name.text
        (elements_as_written layout.now.style layout.now.text.now (field_of field.now))) }
{
    if field.value.v.len() < 2 {
        return Ok(false);
    }
    is_too_long(alloc, layout, width, field)
}

// Returns a line end, spaces up to the column of the first piece, and `#` with a space after it.
fn next_line(
    alloc: Global,
    layout: &Layout<'_, '_>,
    width: usize,
    name: &str,
) -> Result<String, AllocError>
    ensures { IfOk result (λ next. string_bytes next ≡ styled.next_line layout.now.line_end.now layout.now.style width name.now) }
{
    let mut next = String::new(alloc);
    next.push_str(layout.line_end)?;
    push_spaces(&mut next, layout.style.indent)?;
    push_spaces(&mut next, character_count(name).max(width))?;
    next.push_str("   # ")?;
    Ok(next)
}

// Appends a comma and the field, on one line or with one line for each piece.
pub(crate) fn push_field(
    alloc: Global,
    new: &mut String,
    layout: &Layout<'_, '_>,
    width: usize,
    field: &Pair<'_>,
) -> Result<(), AllocError>
    requires { ArePiecesCut layout.now.text.now (field_of field.now) }
    ensures { OnOk result (string_bytes new.new ≡ string_bytes new.old ++
        field_laid_out layout.now.line_end.now layout.now.style layout.now.text.now width (field_of field.now)) }
{
    new.push_str(",")?;
    new.push_str(layout.line_end)?;
    if is_broken(alloc, layout, width, field)? {
        let next = next_line(alloc, layout, width, field.key.v)?;
        return push_line(alloc, new, layout, width, next.as_str(), field);
    }
    push_line(alloc, new, layout, width, " # ", field)
}
