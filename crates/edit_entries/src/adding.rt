//! Fields of entries that have none yet.

ghost use Rattle.std.specs.Prelude.{◌≡◌, ◌++◌, codes, IfOk};
ghost use Rattle.std.specs.Str.{IsCharBoundary};
ghost use Rattle.std.specs.String.{string_bytes};
ghost use Rattle.bib_syntax.specs.Views.{entry_reading_of};
ghost use Rattle.edit_entries.specs.Placed.{HasComma};
ghost use Rattle.edit_entries.specs.Setting.{IsAfterComma};

use bib_syntax::raw::RawEntry;
use bib_text::scanner::Scanner;
use bib_text::spanned::Spanned;
use std::alloc::{AllocError, Global};

// Returns the byte offset after the comma that follows the key of an entry.
pub(crate) fn after_comma(text: &str, entry: &Spanned<RawEntry<'_>>) -> usize
    requires { HasComma text.now (entry_reading_of entry.now) }
    ensures is { IsAfterComma text.now (entry_reading_of entry.now) result }
    ensures boundary { IsCharBoundary text.now result }
{
    let mut s = Scanner::new(text);
    s.jump(entry.v.key.span.end);
    s.eat_whitespace();
    s.eat_if(',');
    s.cursor()
}

// Returns a space, a field, and a comma. `written` is the value as it is written.
pub(crate) fn only_field_text(
    alloc: Global,
    name: &str,
    written: &str,
) -> Result<String, AllocError>
    ensures { IfOk result (λ field. string_bytes field ≡ codes " " ++ ((name.now ++ (codes " = " ++ written.now)) ++ codes ",")) }
{
    let mut field = String::new(alloc);
    field.push_str(" ")?;
    field.push_str(name)?;
    field.push_str(" = ")?;
    field.push_str(written)?;
    field.push_str(",")?;
    Ok(field)
}
