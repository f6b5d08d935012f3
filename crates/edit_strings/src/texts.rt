//! The texts of the fields to collect from, and how often each text occurs.

ghost use Rattle.std.specs.Prelude.{◌≡◌, ◌++◌, ℕ, List, IfOk, OnOk, map};
ghost use Rattle.std.specs.Option.{option_map};
ghost use Rattle.bib_syntax.specs.Views.{entry_reading_of, field_of, piece_of};
ghost use Rattle.edit_strings.specs.Collected as spec;
ghost use Rattle.edit_strings.specs.Collected.{times_of};
ghost use Rattle.edit_strings.specs.Collecting.{count_in};
ghost use Rattle.edit_strings.specs.Views.{lent_texts};

use bib_syntax::raw::{Pair, RawChunk, RawEntry, is_word};
use bib_text::spanned::Spanned;
use std::alloc::{AllocError, Global};
use std::collections::BTreeMap;

// Returns the text of `pieces` if they are one literal.
pub(crate) fn single_text<'s>(pieces: &[Spanned<RawChunk<'s>>]) -> Option<&'s str>
    ensures { option_map (λ t. t.now) result ≡ spec.single_text (map piece_of pieces.now) }
{
    match pieces {
        [piece] => match piece.v {
            RawChunk::Normal(text) => Some(text),
            RawChunk::Abbreviation(_) => None,
        },
        _ => None,
    }
}

// Returns whether `field` has one of `names`, in any ASCII case.
fn is_named_by(names: &[&str], field: &Pair<'_>) -> bool
    ensures { result ≡ spec.is_named_by (lent_texts names.now) (field_of field.now) }
{
    'names: for name in names {
        if is_word(field.key.v, *name) {
            return true;
        }
    }
    false
}

// Returns the text of `field` if it has one of `names` and its value is one literal.
pub(crate) fn named_text<'s>(names: &[&str], field: &Pair<'s>) -> Option<&'s str>
    ensures { option_map (λ t. t.now) result ≡ spec.named_text (lent_texts names.now) (field_of field.now) }
{
    if !is_named_by(names, field) {
        return None;
    }
    single_text(&field.value.v)
}

// Appends the text of each field that has one of `names` and whose value is one literal.
fn push_texts<'s>(
    texts: &mut Vec<&'s str>,
    names: &[&str],
    fields: &[Pair<'s>],
) -> Result<(), AllocError>
    ensures { OnOk result (lent_texts texts.new.items ≡ lent_texts texts.old.items
        ++ spec.field_texts (lent_texts names.now) (map field_of fields.now)) }
{
    'fields: for field in fields {
        if let Some(text) = named_text(names, field) {
            texts.push(text)?;
        }
    }
    Ok(())
}

// Returns the texts of all fields of `entries` that have one of `names` and whose value is one literal, in order.
pub(crate) fn named_texts<'s>(
    alloc: Global,
    names: &[&str],
    entries: &[Spanned<RawEntry<'s>>],
) -> Result<Vec<&'s str>, AllocError>
    ensures { IfOk result (λ texts. lent_texts texts.items ≡ spec.named_texts (lent_texts names.now) (map entry_reading_of entries.now)) }
{
    let mut texts = Vec::new(alloc);
    'entries: for entry in entries {
        push_texts(&mut texts, names, &entry.v.fields)?;
    }
    Ok(texts)
}

// Returns how often `text` was counted.
pub(crate) fn count_of(counts: &BTreeMap<&str, usize>, text: &str) -> usize
    ensures { result ≡ count_in counts.now text.now }
{
    match counts.get(text) {
        Some(count) => *count,
        None => 0,
    }
}

// Returns how often each text occurs in `texts`.
pub(crate) fn counts<'s>(
    alloc: Global,
    texts: &[&'s str],
) -> Result<BTreeMap<&'s str, usize>, AllocError>
    ensures { IfOk result (λ counts. (text : List ℕ) → count_in counts text ≡ times_of text (lent_texts texts.now)) }
{
    let mut counts = BTreeMap::new(alloc);
    'texts: for text in texts {
        let count = count_of(&counts, *text);
        counts.insert(*text, count + 1)?;
    }
    Ok(counts)
}
