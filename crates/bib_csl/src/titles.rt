//! The titles of an item, of its container and of its event.

ghost use Rattle.std.specs.Prelude.{◌≡◌, ◌++◌, OnOk, IfOk};
ghost use Rattle.bib_csl.specs.Titles as spec;

use crate::adding::{add_rich, add_title};
use crate::fields::add_text;
use crate::item::Field;
use crate::item_types::ItemType;
use crate::markup::marked_field;
use crate::texts::{either, field_or, joined_by_mark, series_named, title_text};
use crate::types::{is_article, is_in_book, is_volume};
use crate::variables::Variable;
use bib_entry::entry::Entry;
use bib_text::items::Items;
use bib_text::text::Text;
use std::alloc::{AllocError, Global};

// Returns a title with its subtitle and its addition, which are in the fields `subtitle` and `addon`.
#[tactic(auto, unfolding(crate::specs::Titles::with_subtitle))]
fn with_subtitle(
    alloc: Global,
    entry: &Entry,
    title: Text,
    subtitle: &str,
    addon: &str,
) -> Result<Text, AllocError>
    ensures { IfOk result (λ text. text ≡ spec.with_subtitle entry.now title subtitle.now addon.now) }
{
    let both = joined_by_mark(alloc, ":", title, title_text(alloc, entry, subtitle)?)?;
    joined_by_mark(alloc, ".", both, title_text(alloc, entry, addon)?)
}

// Returns the title of the work itself.
#[tactic(auto, unfolding(crate::specs::Titles::own_title))]
fn own_title(alloc: Global, entry: &Entry) -> Result<Text, AllocError>
    ensures { IfOk result (λ text. text ≡ spec.own_title entry.now) }
{
    let title = title_text(alloc, entry, "title")?;
    with_subtitle(alloc, entry, title, "subtitle", "titleaddon")
}

// Returns the title of a work of several volumes.
#[tactic(auto, unfolding(crate::specs::Titles::title_of_work))]
fn title_of_work(alloc: Global, entry: &Entry) -> Result<Text, AllocError>
    ensures { IfOk result (λ text. text ≡ spec.title_of_work entry.now) }
{
    let title = title_text(alloc, entry, "maintitle")?;
    with_subtitle(alloc, entry, title, "mainsubtitle", "maintitleaddon")
}

// Returns the title of the book that contains the work.
#[tactic(auto, unfolding(crate::specs::Titles::title_of_book))]
fn title_of_book(alloc: Global, entry: &Entry) -> Result<Text, AllocError>
    ensures { IfOk result (λ text. text ≡ spec.title_of_book entry.now) }
{
    let title = title_text(alloc, entry, "booktitle")?;
    with_subtitle(alloc, entry, title, "booksubtitle", "booktitleaddon")
}

// Returns the title of the journal.
#[tactic(auto, unfolding(crate::specs::Titles::journal_title))]
fn journal_title(alloc: Global, entry: &Entry) -> Result<Text, AllocError>
    ensures { IfOk result (λ text. text ≡ spec.journal_title entry.now) }
{
    let title = marked_field(alloc, true, field_or(entry, "journaltitle", "journal"))?;
    with_subtitle(alloc, entry, title, "journalsubtitle", "journaltitleaddon")
}

// Returns the title of the work itself, or else that of the book that contains it.
#[tactic(auto, unfolding(crate::specs::Titles::title_of_whole))]
fn title_of_whole(alloc: Global, entry: &Entry) -> Result<Text, AllocError>
    ensures { IfOk result (λ text. text ≡ spec.title_of_whole entry.now) }
{
    Ok(either(own_title(alloc, entry)?, title_of_book(alloc, entry)?))
}

// Returns the title of the item: of the work itself. For a book or a periodical, it is the title of the work of several volumes, or else
// that of `title_of_whole`.
#[tactic(auto, unfolding(crate::specs::Titles::item_title))]
fn item_title(alloc: Global, kind: ItemType, entry: &Entry) -> Result<Text, AllocError>
    ensures { IfOk result (λ text. text ≡ spec.item_title kind entry.now) }
{
    if is_volume(kind) {
        return Ok(either(title_of_work(alloc, entry)?, title_of_whole(alloc, entry)?));
    }
    own_title(alloc, entry)
}

// Returns the title of the volume, if the item is a volume or a part of a book, and the work of several volumes has a title. Otherwise
// returns an empty text.
#[tactic(auto, unfolding(crate::specs::Titles::volume_title))]
fn volume_title(alloc: Global, kind: ItemType, entry: &Entry) -> Result<Text, AllocError>
    ensures { IfOk result (λ text. text ≡ spec.volume_title kind entry.now) }
{
    let main = title_of_work(alloc, entry)?;
    if main.is_empty() {
        return Ok(main);
    }
    if is_volume(kind) {
        return title_of_whole(alloc, entry);
    }
    if is_in_book(kind) {
        return title_of_book(alloc, entry);
    }
    Ok(Text::new(alloc))
}

// Returns the title of the container. For a part of a book, this is the work of several volumes, or else the book. For an article
// or a volume, it is the journal. For any other item, it is the journal, or else the book.
#[tactic(auto, unfolding(crate::specs::Titles::container_title))]
fn container_title(alloc: Global, kind: ItemType, entry: &Entry) -> Result<Text, AllocError>
    ensures { IfOk result (λ text. text ≡ spec.container_title kind entry.now) }
{
    if is_in_book(kind) {
        return Ok(either(title_of_work(alloc, entry)?, title_of_book(alloc, entry)?));
    }
    let journal = journal_title(alloc, entry)?;
    if is_article(kind) || is_volume(kind) {
        return Ok(journal);
    }
    Ok(either(journal, title_of_book(alloc, entry)?))
}

// Returns the title of the series.
#[tactic(auto, unfolding(crate::specs::Titles::series_title))]
fn series_title(alloc: Global, entry: &Entry) -> Result<Text, AllocError>
    ensures { IfOk result (λ text. text ≡ spec.series_title entry.now) }
{
    series_named(
        alloc,
        title_text(alloc, entry, Variable::CollectionTitle.field())?,
    )
}

// Returns the name of the event, such as a conference.
#[tactic(auto, unfolding(crate::specs::Titles::event_title))]
fn event_title(alloc: Global, entry: &Entry) -> Result<Text, AllocError>
    ensures { IfOk result (λ text. text ≡ spec.event_title entry.now) }
{
    let title = title_text(alloc, entry, "eventtitle")?;
    joined_by_mark(
        alloc,
        ".",
        title,
        title_text(alloc, entry, "eventtitleaddon")?,
    )
}

// Appends the title, the short title, the title of the volume and the title of the original.
#[tactic(auto, unfolding(crate::specs::Titles::title_fields))]
pub(crate) fn add_titles(
    alloc: Global,
    kind: ItemType,
    entry: &Entry,
    fields: &mut Items<Field>,
) -> Result<(), AllocError>
    ensures { OnOk result (fields.new ≡ fields.old ++ spec.title_fields kind entry.now) }
{
    add_text(fields, Variable::Title, item_title(alloc, kind, entry)?)?;
    add_title(alloc, Variable::TitleShort, entry, fields)?;
    add_text(
        fields,
        Variable::VolumeTitle,
        volume_title(alloc, kind, entry)?,
    )?;
    add_title(alloc, Variable::OriginalTitle, entry, fields)
}

// Appends the title of the container, its short form and the title of the series.
#[tactic(auto, unfolding(crate::specs::Titles::container_fields))]
pub(crate) fn add_container(
    alloc: Global,
    kind: ItemType,
    entry: &Entry,
    fields: &mut Items<Field>,
) -> Result<(), AllocError>
    ensures { OnOk result (fields.new ≡ fields.old ++ spec.container_fields kind entry.now) }
{
    add_text(
        fields,
        Variable::ContainerTitle,
        container_title(alloc, kind, entry)?,
    )?;
    add_title(alloc, Variable::ContainerTitleShort, entry, fields)?;
    add_text(
        fields,
        Variable::CollectionTitle,
        series_title(alloc, entry)?,
    )
}

// Appends the title of the event, such as a conference, under both of its names, and its place.
#[tactic(auto, unfolding(crate::specs::Titles::event_fields))]
pub(crate) fn add_event(
    alloc: Global,
    entry: &Entry,
    fields: &mut Items<Field>,
) -> Result<(), AllocError>
    ensures { OnOk result (fields.new ≡ fields.old ++ spec.event_fields entry.now) }
{
    let title = event_title(alloc, entry)?;
    add_text(fields, Variable::Event, title.clone()?)?;
    add_text(fields, Variable::EventTitle, title)?;
    add_rich(alloc, Variable::EventPlace, entry, fields)
}
