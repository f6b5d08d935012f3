//! Writing of entries.

ghost use Rattle.std.specs.Prelude.{◌≡◌, ◌++◌, codes, map, OnOk};
ghost use Rattle.std.specs.List.{AllByRecursion};
ghost use Rattle.std.specs.Str.{str_to_ascii_lowercase};
ghost use Rattle.std.specs.String.{string_bytes};
ghost use Rattle.bib_syntax.specs.Views.{entry_reading_of, field_of};
ghost use Rattle.edit_entries.specs.Cuts.{ArePiecesCut, IsEntryCut};
ghost use Rattle.edit_format.specs.Formatted as styled;
ghost use Rattle.edit_format.specs.Formatted.{entry_in_style, entry_laid_out};

use crate::comments::is_copied;
use crate::layout::Layout;
use crate::lowercase::push_lowercase;
use crate::order::push_fields;
use crate::style::Style;
use bib_syntax::raw::{Pair, RawEntry};
use bib_text::spanned::Spanned;
use std::alloc::{AllocError, Global};

// Appends the head of an entry: `@`, its type with ASCII letters in lowercase, `{` and its key.
fn push_head(alloc: Global, new: &mut String, kind: &str, key: &str) -> Result<(), AllocError>
    ensures { OnOk result (string_bytes new.new ≡ string_bytes new.old ++
        (codes "@" ++ (str_to_ascii_lowercase kind.now ++ (codes "{" ++ key.now)))) }
{
    new.push_str("@")?;
    push_lowercase(alloc, new, kind)?;
    new.push_str("{")?;
    new.push_str(key)?;
    Ok(())
}

// Returns a comma if the entry has no fields or the style has a comma after the last one, otherwise an empty text.
fn last_comma(style: &Style<'_>, fields: &[Pair<'_>]) -> &'static str
    ensures { result.now ≡ styled.last_comma style.now (map field_of fields.now) }
{
    match fields {
        [] => ",",
        _ => if style.trailing_comma { "," } else { "" },
    }
}

// Appends `entry` in the layout of the style.
fn push_laid_out(
    alloc: Global,
    new: &mut String,
    layout: &Layout<'_, '_>,
    entry: &Spanned<RawEntry<'_>>,
) -> Result<(), AllocError>
    requires { AllByRecursion (ArePiecesCut layout.now.text.now) (entry_reading_of entry.now).fields }
    ensures { OnOk result (string_bytes new.new ≡ string_bytes new.old ++
        entry_laid_out layout.now.line_end.now layout.now.style layout.now.text.now (entry_reading_of entry.now)) }
{
    push_head(alloc, new, entry.v.kind.v, entry.v.key.v)?;
    push_fields(alloc, new, layout, &entry.v.fields)?;
    new.push_str(last_comma(&layout.style, &entry.v.fields))?;
    new.push_str(layout.line_end)?;
    new.push_str("}")?;
    Ok(())
}

// Appends `entry` in the layout of the style. An entry with a comment, or with a literal whose braces aren't balanced, is copied from the
// file.
pub(crate) fn push_entry(
    alloc: Global,
    new: &mut String,
    layout: &Layout<'_, '_>,
    entry: &Spanned<RawEntry<'_>>,
) -> Result<(), AllocError>
    requires { IsEntryCut layout.now.text.now (entry_reading_of entry.now) }
    ensures { OnOk result (string_bytes new.new ≡ string_bytes new.old ++
        entry_in_style layout.now.line_end.now layout.now.style layout.now.text.now (entry_reading_of entry.now)) }
{
    if is_copied(layout.text, entry) {
        new.push_str(&layout.text[entry.span.start..entry.span.end + 1])?;
    } else {
        push_laid_out(alloc, new, layout, entry)?;
    }
    Ok(())
}
