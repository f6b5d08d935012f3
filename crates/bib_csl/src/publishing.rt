//! The publishers of an item and of its original, and its genre.

ghost use Rattle.std.specs.Prelude.{◌≡◌, ◌++◌, OnOk, IfOk};
ghost use Rattle.std.specs.Option.{option_map};
ghost use Rattle.bib_text.specs.Enums.{value_named};
ghost use Rattle.bib_csl.specs.Publishing as spec;
ghost use Rattle.bib_csl.specs.Texts.{either as either_of};

use crate::adding::add_listed;
use crate::fields::add_text;
use crate::item::Field;
use crate::named::find_text;
use crate::texts::{either, list_text, list_text_or, rich_text};
use crate::variables::Variable;
use crate::ways::way_as_publisher;
use bib_entry::entry::Entry;
use bib_tables::mechanics::EntryType;
use bib_text::items::Items;
use bib_text::text::Text;
use std::alloc::{AllocError, Global};

// Returns the publisher, or else the institution or school, or else the organization.
#[tactic(auto, unfolding(crate::specs::Publishing::named_publisher))]
pub(crate) fn named_publisher(alloc: Global, entry: &Entry) -> Result<Text, AllocError>
    ensures { IfOk result (λ text. text ≡ spec.named_publisher entry.now) }
{
    let institution = list_text_or(alloc, entry, "institution", "school")?;
    let other = either(institution, list_text(alloc, entry, "organization")?);
    Ok(either(list_text(alloc, entry, "publisher")?, other))
}

/// Returns the publisher of an entry, or else the field `howpublished`, unless that begins with an address. The text has HTML tags.
/// The only error is out of memory.
#[tactic(auto, unfolding(crate::specs::Publishing::publisher_of))]
pub fn publisher_of(alloc: Global, entry: &Entry) -> Result<Text, AllocError>
    ensures { IfOk result (λ text. text ≡ spec.publisher_of entry.now) }
{
    Ok(either(
        named_publisher(alloc, entry)?,
        way_as_publisher(alloc, entry)?,
    ))
}

// Genres: BibLaTeX's key and the text.
static GENRES: [(&str, &str); 21] = [
    ("bathesis", "Bachelor's thesis"),
    ("mathesis", "Master's thesis"),
    ("phdthesis", "PhD thesis"),
    ("candthesis", "Candidate thesis"),
    ("techreport", "technical report"),
    ("resreport", "research report"),
    ("software", "computer software"),
    ("datacd", "CD-ROM"),
    ("audiocd", "audio CD"),
    ("patent", "patent"),
    ("patentde", "German patent"),
    ("patenteu", "European patent"),
    ("patentfr", "French patent"),
    ("patentuk", "British patent"),
    ("patentus", "U.S. patent"),
    ("patreq", "patent request"),
    ("patreqde", "German patent request"),
    ("patreqeu", "European patent request"),
    ("patreqfr", "French patent request"),
    ("patrequk", "British patent request"),
    ("patrequs", "U.S. patent request"),
];

// Returns the first text, or the other one if the first is empty.
#[tactic(auto, unfolding(crate::specs::Texts::either))]
fn first_of<'t>(first: &'t str, other: &'t str) -> &'t str
    ensures { result.now ≡ either_of first.now other.now }
{
    if first.is_empty() { other } else { first }
}

// Returns the genre with this key of BibLaTeX, or `None`.
fn genre_of_key(key: &str) -> Option<&'static str>
    ensures { option_map (λ genre. genre.now) result ≡ value_named spec.genres key.now }
{
    find_text(&GENRES, key)
}

// Returns the genre by BibLaTeX's key for it in the field `type`, or the text itself if it is no such key.
#[tactic(auto, unfolding(crate::specs::Publishing::genre_named))]
fn genre_named(text: &str) -> &str
    ensures { result.now ≡ spec.genre_named text.now }
{
    match genre_of_key(text) {
        Some(genre) => genre,
        None => text,
    }
}

// Returns the genre that the entry type implies, or an empty text.
#[tactic(auto, unfolding(crate::specs::Publishing::genre_of_type))]
fn genre_of_type(entry_type: &EntryType) -> &'static str
    ensures { result.now ≡ spec.genre_of_type entry_type.now }
{
    match entry_type {
        EntryType::MastersThesis => "Master's thesis",
        EntryType::PhdThesis => "PhD thesis",
        EntryType::TechReport => "technical report",
        _ => "",
    }
}

/// Returns the genre of an entry, with HTML tags: by the field `type`, or else by the entry type. The only error is out of memory.
#[tactic(auto, unfolding(crate::specs::Publishing::genre_of))]
pub fn genre_of(alloc: Global, entry: &Entry) -> Result<Text, AllocError>
    ensures { IfOk result (λ text. text ≡ spec.genre_of entry.now) }
{
    let kind = rich_text(alloc, entry, Variable::Genre.field())?;
    let named = first_of(genre_named(kind.as_str()), genre_of_type(&entry.entry_type));
    Text::from_str(alloc, named)
}

// Appends the publisher and its place.
#[tactic(auto, unfolding(crate::specs::Publishing::publisher_fields))]
fn add_publisher(alloc: Global, entry: &Entry, fields: &mut Items<Field>) -> Result<(), AllocError>
    ensures { OnOk result (fields.new ≡ fields.old ++ spec.publisher_fields entry.now) }
{
    add_text(fields, Variable::Publisher, publisher_of(alloc, entry)?)?;
    let place = list_text_or(alloc, entry, "location", "address")?;
    add_text(fields, Variable::PublisherPlace, place)
}

// Appends the publisher of the original and its place.
#[tactic(auto, unfolding(crate::specs::Publishing::original_fields))]
fn add_original(alloc: Global, entry: &Entry, fields: &mut Items<Field>) -> Result<(), AllocError>
    ensures { OnOk result (fields.new ≡ fields.old ++ spec.original_fields entry.now) }
{
    add_listed(alloc, Variable::OriginalPublisher, entry, fields)?;
    add_listed(alloc, Variable::OriginalPublisherPlace, entry, fields)
}

// Appends the publishers of an item and of its original, and its genre.
#[tactic(auto, unfolding(crate::specs::Publishing::publishing_fields))]
pub(crate) fn add_publishing(
    alloc: Global,
    entry: &Entry,
    fields: &mut Items<Field>,
) -> Result<(), AllocError>
    ensures { OnOk result (fields.new ≡ fields.old ++ spec.publishing_fields entry.now) }
{
    add_publisher(alloc, entry, fields)?;
    add_original(alloc, entry, fields)?;
    add_text(fields, Variable::Genre, genre_of(alloc, entry)?)
}
