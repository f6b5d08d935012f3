//! Texts in quotes whose braces aren't balanced: BibTeX and Biber may end them elsewhere than this library.

ghost use Rattle.std.specs.Prelude.{◌≡◌, map};
ghost use Rattle.std.specs.List.{list_any};
ghost use Rattle.bib_syntax.specs.Views.{entry_reading_of, field_of, piece_of};
ghost use Rattle.bib_queries.specs.Quotes as spec;

use crate::balance::is_balanced;
use crate::bytes::has_byte;
use bib_syntax::raw::{Pair, RawChunk, RawEntry};
use bib_text::spanned::Spanned;

/// Returns whether `piece` is in quotes in `text`, and its braces aren't balanced. BibTeX and Biber, which end a text in quotes at the
/// first quote outside of braces, may end such a piece elsewhere.
pub fn is_unbalanced_quote(text: &str, piece: &Spanned<RawChunk<'_>>) -> bool
    ensures { result ≡ spec.is_unbalanced_quote text.now (piece_of piece.now) }
{
    match piece.v {
        RawChunk::Normal(own) => {
            has_byte(text, piece.span.start.saturating_sub(1), b'"') && !is_balanced(own)
        }
        RawChunk::Abbreviation(_) => false,
    }
}

// Returns whether a field contains a text in quotes whose braces aren't balanced.
fn has_unbalanced_quote(text: &str, field: &Pair<'_>) -> bool
    ensures { result ≡ spec.has_unbalanced_quote text.now (field_of field.now) }
{
    'pieces: for piece in &field.value.v {
        if is_unbalanced_quote(text, piece) {
            return true;
        }
    }
    false
}

/// Returns whether one of these fields contains a text in quotes whose braces aren't balanced.
pub fn have_unbalanced_quote(text: &str, fields: &[Pair<'_>]) -> bool
    ensures { result ≡ list_any (spec.has_unbalanced_quote text.now) (map field_of fields.now) }
{
    'fields: for field in fields {
        if has_unbalanced_quote(text, field) {
            return true;
        }
    }
    false
}

/// Returns whether one of these entries contains a text in quotes whose braces aren't balanced.
pub fn contain_unbalanced_quote(text: &str, entries: &[Spanned<RawEntry<'_>>]) -> bool
    ensures { result ≡ list_any (spec.contains_unbalanced_quote text.now) (map entry_reading_of entries.now) }
{
    'entries: for entry in entries {
        if have_unbalanced_quote(text, &entry.v.fields) {
            return true;
        }
    }
    false
}
