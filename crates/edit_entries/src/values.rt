//! Byte offsets of the values of fields.

ghost use Rattle.std.specs.Prelude.{◌≡◌};
ghost use Rattle.std.specs.Char.{is_whitespace};
ghost use Rattle.std.specs.Str.{IsCharBoundary};
ghost use Rattle.bib_text.specs.Places.{Run, place};
ghost use Rattle.bib_syntax.specs.Views.{field_of};
ghost use Rattle.edit_entries.specs.Changes as changes;
ghost use Rattle.edit_entries.specs.Placed.{IsPlaced};

use bib_syntax::raw::Pair;

/// Returns the byte offset where a value ends, without the white space after it.
pub fn value_end(text: &str, field: &Pair<'_>) -> usize
    requires { IsPlaced text.now (field_of field.now) }
    ensures end { result ≡ changes.value_end text.now (field_of field.now) }
    ensures white { Run is_whitespace (place text.now result)
        (place text.now (field_of field.now).value.end) }
    ensures boundary { IsCharBoundary text.now result }
{
    let start = field.value.span.start;
    let value = &text[start..field.value.span.end];
    start + value.trim_end().len()
}
