//! The places of an entry's fields in the file.

ghost use Rattle.std.specs.Prelude.{◌≡◌, map, option_map, IfOk};
ghost use Rattle.bib_syntax.specs.Views.{entry_reading_of, field_of};
ghost use Rattle.bib_findings.specs.Entries.{field_place, has_own_field, last_named, range_or};
ghost use Rattle.bib_findings.specs.Reported.{malformed_place};

use crate::date_parts::malformed_part;
use bib_entry::entry::Entry;
use bib_syntax::raw::{Pair, RawEntry};
use bib_text::spanned::{Span, Spanned};
use std::alloc::{AllocError, Global};

/// Returns the last field of this name, in any ASCII case.
pub fn last_named<'f, 's>(fields: &'f [Pair<'s>], name: &str) -> Option<&'f Pair<'s>>
    ensures { option_map (λ f. field_of f.now) result ≡ last_named (map field_of fields.now) name.now }
{
    fields
        .iter()
        .rev()
        .find(|field| field.key.v.eq_ignore_ascii_case(name))
}

// Returns whether an entry has a field of this name in the file.
pub(crate) fn has_own_field(said: &Spanned<RawEntry<'_>>, name: &str) -> bool
    ensures { result ≡ has_own_field (entry_reading_of said.now) name.now }
{
    last_named(said.v.fields.as_slice(), name).is_some()
}

// Returns the place of the name of the last field of this name, or `other` if the entry has none.
fn place_or(said: &Spanned<RawEntry<'_>>, name: &str, other: Span) -> Span
    ensures { result ≡ range_or other (last_named (entry_reading_of said.now).fields name.now) }
{
    match last_named(said.v.fields.as_slice(), name) {
        Some(field) => field.key.span.start..field.key.span.end,
        None => other,
    }
}

/// Returns the place of the name of this field in an entry, or of the entry's key if it has no such field.
pub(crate) fn field_place(said: &Spanned<RawEntry<'_>>, name: &str) -> Span
    ensures { result ≡ field_place (entry_reading_of said.now) name.now }
{
    place_or(said, name, said.v.key.span.start..said.v.key.span.end)
}

/// Returns the place of a malformed field: its name, or the field that can't be parsed if it is a date in separate fields, or else the
/// entry's key.
pub(crate) fn malformed_place(
    alloc: Global,
    said: &Spanned<RawEntry<'_>>,
    entry: &Entry,
    name: &str,
) -> Result<Span, AllocError>
    ensures { IfOk result (λ place. place ≡ malformed_place (entry_reading_of said.now) entry.now name.now) }
{
    let part = malformed_part(alloc, entry, name)?;
    Ok(place_or(said, name, field_place(said, part)))
}
