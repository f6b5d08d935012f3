//! Items whose English titles are in sentence case.

ghost use Rattle.std.specs.Prelude.{◌≡◌, map, IfOk, OnOk};
ghost use Rattle.bib_csl.specs.SentenceItems as spec;

use crate::item::{Content, Field, Item};
use crate::making::item_of;
use crate::notes::{language_of, language_value};
use crate::sentence::title_in_sentence_case;
use crate::texts::field_or;
use crate::variables::Variable;
use bib_entry::entry::Entry;
use bib_text::items::Items;
use std::alloc::{AllocError, Global};

/// The case of the titles of items.
#[derive(Debug, Clone, Copy, PartialEq, Eq)]
pub enum TitleCase {
    /// Titles have the capitals of the file.
    AsWritten,
    /// English titles are in sentence case, as CSL recommends: by the rules in `sentence`, words lose the capital at their start. The
    /// variable container-title stays if it is the title of a journal.
    Sentence,
}

// Returns whether an entry has the field with the title of a journal.
#[tactic(auto, unfolding(crate::specs::SentenceItems::has_journal))]
fn has_journal(entry: &Entry) -> bool
    ensures { result ≡ spec.has_journal entry.now }
{
    field_or(entry, "journaltitle", "journal").is_some()
}

/// Returns whether the tag or the name of a language is English: it begins with `en`, in any ASCII case.
pub fn is_english_tag(tag: &str) -> bool
    ensures { result ≡ spec.is_english_tag tag.now }
{
    match tag.as_bytes().get(..2) {
        Some(start) => start.eq_ignore_ascii_case(b"en"),
        None => false,
    }
}

// Returns whether an entry has no language, or its tag, or else its text, is English.
#[tactic(auto, unfolding(crate::specs::SentenceItems::has_english_titles))]
fn has_english_titles(alloc: Global, entry: &Entry) -> Result<bool, AllocError>
    ensures { IfOk result (λ is. is ≡ spec.has_english_titles entry.now) }
{
    let tag = language_of(alloc, language_value(entry))?;
    Ok(tag.is_empty() || is_english_tag(tag.as_str()))
}

// Returns whether a variable is a title, but not that of a journal.
fn is_title_variable(in_journal: bool, variable: Variable) -> bool
    ensures { result ≡ spec.is_title_variable in_journal variable }
{
    match variable {
        Variable::Title | Variable::TitleShort | Variable::VolumeTitle => true,
        Variable::ContainerTitle => !in_journal,
        Variable::CollectionTitle | Variable::OriginalTitle => true,
        Variable::Event | Variable::EventTitle => true,
        _ => false,
    }
}

// Returns the content of a title in sentence case.
fn content_in_sentence_case(alloc: Global, content: Content) -> Result<Content, AllocError>
    ensures { IfOk result (λ cased. cased ≡ spec.content_in_sentence_case content) }
{
    match content {
        Content::Text(text) => Ok(Content::Text(title_in_sentence_case(alloc, text.as_str())?)),
        other => Ok(other),
    }
}

// Returns a variable with its content, in sentence case if it is a title.
#[tactic(auto, unfolding(crate::specs::SentenceItems::field_in_sentence_case))]
fn field_in_sentence_case(
    alloc: Global,
    in_journal: bool,
    field: Field,
) -> Result<Field, AllocError>
    ensures { IfOk result (λ cased. cased ≡ spec.field_in_sentence_case in_journal field) }
{
    if !is_title_variable(in_journal, field.variable) {
        return Ok(field);
    }
    Ok(Field {
        variable: field.variable,
        content: content_in_sentence_case(alloc, field.content)?,
    })
}

// Returns variables with their contents, in sentence case if they are titles.
fn all_in_sentence_case(
    alloc: Global,
    in_journal: bool,
    fields: Items<Field>,
) -> Result<Items<Field>, AllocError>
    ensures { IfOk result (λ cased. cased ≡ map (spec.field_in_sentence_case in_journal) fields) }
{
    let mut cased = Items::new(alloc);
    'fields: for field in fields {
        cased.push(field_in_sentence_case(alloc, in_journal, field)?)?;
    }
    Ok(cased)
}

// Returns the item of an entry with its English titles in sentence case.
#[tactic(auto, unfolding(crate::specs::SentenceItems::item_in_sentence_case))]
fn item_in_sentence_case(alloc: Global, entry: &Entry, item: Item) -> Result<Item, AllocError>
    ensures { IfOk result (λ cased. cased ≡ spec.item_in_sentence_case entry.now item) }
{
    if !has_english_titles(alloc, entry)? {
        return Ok(item);
    }
    Ok(Item {
        id: item.id,
        kind: item.kind,
        fields: all_in_sentence_case(alloc, has_journal(entry), item.fields)?,
    })
}

/// Returns the item of an entry with its titles in this case. The only error is out of memory.
pub fn item_of_in(alloc: Global, titles: TitleCase, entry: &Entry) -> Result<Item, AllocError>
    ensures { IfOk result (λ item. item ≡ spec.item_of_entry_in titles entry.now) }
{
    let item = item_of(alloc, entry)?;
    match titles {
        TitleCase::AsWritten => Ok(item),
        TitleCase::Sentence => item_in_sentence_case(alloc, entry, item),
    }
}
