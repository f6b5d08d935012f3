//! Sort values: the values by which entries are compared.

ghost use Rattle.std.specs.Prelude.{◌≡◌, IfOk, string_bytes};
ghost use Rattle.edit_orders.specs.Values as spec;

use crate::letters::sort_text;
use crate::order::Property;
use crate::people::people_texts;
use crate::years::year_number;
use bib_chunks::chunk::{ChunksRef, format_verbatim};
use bib_text::items::Items;
use bib_text::text::Text;
use std::alloc::{AllocError, Global};

/// A value by which entries are compared.
#[derive(Debug, Drop)]
pub enum SortValue {
    /// A number.
    Number(u64),
    /// Texts, compared by their bytes, one after another.
    Texts(Items<Text>),
}

// Returns whether all texts are empty.
fn are_empty(texts: &[Text]) -> bool
    ensures { result ≡ spec.are_empty texts.now }
{
    texts.iter().all(|text| text.is_empty())
}

// Returns texts as a sort value, or `None` if all are empty.
fn some_texts(texts: Vec<Text>) -> Option<SortValue>
    ensures { result ≡ spec.some_texts texts.items }
{
    if are_empty(&texts) {
        return None;
    }
    Some(SortValue::Texts(Items::from_vec(texts)))
}

// Returns a text as a sort value.
pub(crate) fn one_text(alloc: Global, text: String) -> Result<Option<SortValue>, AllocError>
    ensures { IfOk result (λ value. value ≡ spec.text_as_value (string_bytes text)) }
{
    let mut texts = Vec::new(alloc);
    texts.push(Text::from_string(text))?;
    Ok(Some(SortValue::Texts(Items::from_vec(texts))))
}

// Returns the sort value of the year in chunks.
fn year_value(alloc: Global, chunks: ChunksRef<'_>) -> Result<Option<SortValue>, AllocError>
    ensures { IfOk result (λ value. value ≡ spec.year_value chunks.now) }
{
    let text = format_verbatim(alloc, chunks)?;
    let Some(number) = year_number(&text) else {
        return Ok(None);
    };
    Ok(Some(SortValue::Number(number)))
}

// Returns the sort value of a title in chunks.
fn title_value(alloc: Global, chunks: ChunksRef<'_>) -> Result<Option<SortValue>, AllocError>
    ensures { IfOk result (λ value. value ≡ spec.title_value chunks.now) }
{
    let text = format_verbatim(alloc, chunks)?;
    let mut texts = Vec::new(alloc);
    texts.push(Text::from_string(sort_text(alloc, &text)?))?;
    Ok(some_texts(texts))
}

// Returns the sort value of a property that is in a field with these contents.
pub(crate) fn sort_value_of(
    alloc: Global,
    property: Property,
    chunks: ChunksRef<'_>,
) -> Result<Option<SortValue>, AllocError>
    ensures { IfOk result (λ value. value ≡ spec.sort_value_of property chunks.now) }
{
    match property {
        Property::Year => year_value(alloc, chunks),
        Property::Author => Ok(some_texts(people_texts(alloc, chunks)?)),
        Property::Title => title_value(alloc, chunks),
        Property::Key | Property::Type => Ok(None),
    }
}
