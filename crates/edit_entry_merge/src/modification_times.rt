//! Fields in which programs write the time of the last change of an entry.

ghost use Rattle.std.specs.Prelude.{◌≡◌, map, option_map};
ghost use Rattle.std.specs.List.{list_any};
ghost use Rattle.bib_syntax.specs.Grammar as grammar;
ghost use Rattle.bib_syntax.specs.Views.{piece_of};
ghost use Rattle.edit_entry_merge.specs.Choices as spec;
ghost use Rattle.edit_entry_merge.specs.Working.{borrowed_text, lent_field};

use crate::choices::Side;
use bib_syntax::raw::{Pair, RawChunk, is_word};
use bib_text::spanned::Spanned;
use std::cmp::Ordering;

// The names of these fields.
static MODIFICATION_TIMES: [&str; 3] = [
    // JabRef.
    "modificationdate",
    // Earlier versions of JabRef.
    "timestamp",
    // BibDesk.
    "date-modified",
];

// Returns whether a name is one of these words, in any ASCII case.
fn is_any_word(name: &str, words: &[&'static str]) -> bool
    ensures { result ≡ list_any (grammar.is_word name.now) (map (λ word. word.now) words.now) }
{
    words.iter().any(|word| is_word(name, word))
}

// Returns whether a field with this name has the time of the last change of its entry. The name may be in any ASCII case.
fn is_modification_time(name: &str) -> bool
    ensures { result ≡ spec.is_modification_time name.now }
{
    is_any_word(name, &MODIFICATION_TIMES)
}

// Returns the text of a value that is one literal.
fn only_literal<'s>(pieces: &[Spanned<RawChunk<'s>>]) -> Option<&'s str>
    ensures { borrowed_text result ≡ spec.only_literal (map piece_of pieces.now) }
{
    match pieces {
        [piece] => match piece.v {
            RawChunk::Normal(text) => Some(text),
            RawChunk::Abbreviation(_) => None,
        },
        _ => None,
    }
}

// Returns the text of a field whose value is one literal.
fn only_text<'s>(field: Option<&Pair<'s>>) -> Option<&'s str>
    ensures { borrowed_text result ≡ spec.only_text (lent_field field.entry) }
{
    match field {
        Some(field) => only_literal(&field.value.v),
        None => None,
    }
}

// Returns the side with the greater text, compared byte by byte, or ours if the texts are equal.
fn greater_side(ours: &str, theirs: &str) -> Side
    ensures { result ≡ spec.greater_side ours.now theirs.now }
{
    match theirs.cmp(ours) {
        Ordering::Greater => Side::Theirs,
        Ordering::Less | Ordering::Equal => Side::Ours,
    }
}

// Returns the side that counts for a modification time, given its name and the fields of both sides: the one with the greater text. Returns
// none for a field with another name, and if a side has no field or one whose value isn't one literal.
pub(crate) fn time_choice(
    name: &str,
    ours: Option<&Pair<'_>>,
    theirs: Option<&Pair<'_>>,
) -> Option<Side>
    ensures { result ≡ spec.time_choice name.now (lent_field ours.entry) (lent_field theirs.entry) }
{
    if !is_modification_time(name) {
        return None;
    }
    let ours = only_text(ours)?;
    let theirs = only_text(theirs)?;
    Some(greater_side(ours, theirs))
}
