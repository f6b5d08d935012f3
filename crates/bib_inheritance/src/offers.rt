//! The fields that an entry offers to the entries that refer to it.

ghost use Rattle.std.specs.Prelude.{◌≡◌, Some, option_map};
ghost use Rattle.std.specs.Option.{option_copied};
ghost use Rattle.bib_text.specs.Enums.{value_named};
ghost use Rattle.bib_chunks.specs.Styled.{styled};
ghost use Rattle.bib_tables.specs.Requirements.{texts};
ghost use Rattle.bib_inheritance.specs.Inherited.{is_periodical, journal_titles, book_titles, main_titles, title_for, same_meaning, first_offer, offer};
ghost use Rattle.bib_inheritance.specs.EntryTexts.{fields_of, texts_of_reference};

use bib_chunks::chunk::Chunks;
use bib_collections::text_map::TextMap;
use bib_tables::mechanics::EntryType;

/// An entry that another entry refers to.
#[derive(Clone, Copy)]
pub struct Reference<'a> {
    /// The type of the entry.
    pub entry_type: &'a EntryType,
    /// The fields of the entry, including those that it inherits.
    pub fields: &'a TextMap<Chunks>,
}

// Returns whether the type is `Periodical`.
fn is_periodical(entry_type: &EntryType) -> bool
    ensures { result ≡ is_periodical entry_type.now }
{
    matches!(entry_type, EntryType::Periodical)
}

// Returns the name of the title that a periodical offers for the title or subtitle of a journal, or `None` for another `name`.
fn journal_title(name: &str) -> Option<&'static [&'static str]>
    ensures { option_map (λ names. texts names.now) result ≡ value_named journal_titles name.now }
{
    match name {
        "journaltitle" => Some(&["title"]),
        "journalsubtitle" => Some(&["subtitle"]),
        _ => None,
    }
}

// Returns the name of the title that an entry of a collection type offers for `name`, if this is a title of a book.
fn book_title(name: &str) -> Option<&'static [&'static str]>
    ensures { option_map (λ names. texts names.now) result ≡ value_named book_titles name.now }
{
    match name {
        "booktitle" => Some(&["title"]),
        "booksubtitle" => Some(&["subtitle"]),
        "booktitleaddon" => Some(&["titleaddon"]),
        _ => None,
    }
}

// Returns the name of the title that an entry of a multi-volume type offers for `name`, if this is a main title.
fn main_title(name: &str) -> Option<&'static [&'static str]>
    ensures { option_map (λ names. texts names.now) result ≡ value_named main_titles name.now }
{
    match name {
        "maintitle" => Some(&["title"]),
        "mainsubtitle" => Some(&["subtitle"]),
        "maintitleaddon" => Some(&["titleaddon"]),
        _ => None,
    }
}

// Returns the names of the fields that an entry of this type offers for `name`, if it offers one of its own titles.
fn title_for(entry_type: &EntryType, name: &str) -> Option<&'static [&'static str]>
    ensures { option_map (λ names. texts names.now) result ≡ title_for entry_type.now name.now }
{
    if is_periodical(entry_type) {
        if let Some(names) = journal_title(name) {
            return Some(names);
        }
    }
    if entry_type.is_collection() {
        if let Some(names) = book_title(name) {
            return Some(names);
        }
    }
    if entry_type.is_multi_volume() {
        return main_title(name);
    }
    None
}

// Returns the names of the fields with the same meaning that an entry offers for `name`, in order of preference.
fn same_meaning(name: &str) -> Option<&'static [&'static str]>
    ensures { option_map (λ names. texts names.now) result ≡ value_named same_meaning name.now }
{
    match name {
        "address" => Some(&["address", "location"]),
        "institution" => Some(&["institution", "school"]),
        "school" => Some(&["school", "institution"]),
        "journaltitle" => Some(&["journaltitle", "journal"]),
        _ => None,
    }
}

// Returns the first of these fields that exists.
#[tactic(auto, using(crate::proofs::OfferFacts::first_of_more, crate::proofs::OfferFacts::first_of_none))]
fn first_offer<'a>(fields: &'a TextMap<Chunks>, names: &[&str]) -> Option<&'a Chunks>
    ensures { option_map styled (option_copied result) ≡ first_offer (fields_of fields.now) (texts names.now) }
{
    'names: for name in names {
        if let Some(chunks) = fields.get(name) {
            return Some(chunks);
        }
    }
    None
}

/// Returns the field that an entry offers for `name`, if it has one.
pub fn offer<'a>(reference: &Reference<'a>, name: &str) -> Option<&'a Chunks>
    ensures { option_map styled (option_copied result) ≡ offer (texts_of_reference reference.now) name.now }
{
    if let Some(names) = title_for(reference.entry_type, name) {
        return first_offer(reference.fields, names);
    }
    if let Some(names) = same_meaning(name) {
        return first_offer(reference.fields, names);
    }
    reference.fields.get(name)
}
