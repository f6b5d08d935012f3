//! Entries that are copied: those with comments, and those with literals whose braces aren't balanced.

ghost use Rattle.std.specs.Prelude.{◌≡◌, map};
ghost use Rattle.std.specs.List.{list_any};
ghost use Rattle.bib_syntax.specs.Views.{entry_reading_of, field_of, piece_of};
ghost use Rattle.bib_text.specs.Characters as char;
ghost use Rattle.edit_entries.specs.Cuts.{AreGapsCut, CanBeCut};
ghost use Rattle.edit_format.specs.Formatted as styled;
ghost use Rattle.memchr.specs.Find.{is_byte2};

use bib_queries::balance::is_balanced;
use bib_syntax::raw::{Pair, RawChunk, RawEntry};
use bib_text::spanned::Spanned;
use memchr::memchr2;

// Returns whether `text` contains a percent sign between two offsets.
fn has_percent(text: &str, start: usize, end: usize) -> bool
    requires { CanBeCut text.now start end }
    ensures { result ≡ styled.has_percent text.now start end }
{
    text[start..end].contains('%')
}

// Returns whether an entry contains a percent sign outside of its fields: between its key, its fields and its closing brace.
fn has_comment(text: &str, entry: &Spanned<RawEntry<'_>>) -> bool
    requires { AreGapsCut text.now (entry_reading_of entry.now).key.end (entry_reading_of entry.now).fields
        (entry_reading_of entry.now).end }
    ensures { result ≡ styled.has_comment text.now (entry_reading_of entry.now) }
{
    let mut start = entry.v.key.span.end;
    'fields: for field in &entry.v.fields {
        if has_percent(text, start, field.key.span.start) {
            return true;
        }
        start = field.value.span.end;
    }
    has_percent(text, start, entry.span.end)
}

// Returns whether a text contains a brace.
fn has_brace(text: &str) -> bool
    ensures { result ≡ list_any (is_byte2 char.open_brace char.close_brace) text.now }
{
    memchr2(b'{', b'}', text.as_bytes()).is_some()
}

// Returns whether a piece is a literal whose braces aren't balanced. Most literals contain none.
fn is_unbalanced(piece: &Spanned<RawChunk<'_>>) -> bool
    ensures { result ≡ styled.is_unbalanced (piece_of piece.now) }
{
    match piece.v {
        RawChunk::Normal(text) => has_brace(text) && !is_balanced(text),
        RawChunk::Abbreviation(_) => false,
    }
}

// Returns whether a field has a literal whose braces aren't balanced.
fn has_unbalanced(field: &Pair<'_>) -> bool
    ensures { result ≡ styled.has_unbalanced (field_of field.now) }
{
    'pieces: for piece in &field.value.v {
        if is_unbalanced(piece) {
            return true;
        }
    }
    false
}

// Returns whether one of these fields has a literal whose braces aren't balanced.
fn have_unbalanced(fields: &[Pair<'_>]) -> bool
    ensures { result ≡ list_any styled.has_unbalanced (map field_of fields.now) }
{
    'fields: for field in fields {
        if has_unbalanced(field) {
            return true;
        }
    }
    false
}

// Returns whether an entry is copied: it contains a comment, or a literal whose braces aren't balanced.
pub(crate) fn is_copied(text: &str, entry: &Spanned<RawEntry<'_>>) -> bool
    requires { AreGapsCut text.now (entry_reading_of entry.now).key.end (entry_reading_of entry.now).fields
        (entry_reading_of entry.now).end }
    ensures { result ≡ styled.is_copied text.now (entry_reading_of entry.now) }
{
    has_comment(text, entry) || have_unbalanced(&entry.v.fields)
}
