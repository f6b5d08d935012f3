//! The type of the item of an entry, and groups of these types.

ghost use Rattle.std.specs.Prelude.{◌≡◌};
ghost use Rattle.bib_csl.specs.Types.{type_of_article, item_type_named, type_of_unpublished, item_type_of, is_article, is_in_book, is_volume, counts_issues, counts_series};

use crate::item_types::ItemType;
use bib_tables::mechanics::EntryType;

// Returns the type of an article, by the text of the field `entrysubtype`.
fn type_of_article(subtype: &str) -> ItemType
    ensures { result ≡ type_of_article subtype.now }
{
    match subtype {
        "magazine" => ItemType::ArticleMagazine,
        "newspaper" => ItemType::ArticleNewspaper,
        _ => ItemType::ArticleJournal,
    }
}

/// Returns the type of the item of an entry with an unknown type of this name. Some other types of BibLaTeX, such as `movie`, have an
/// item type. Any other name has `Document`.
pub fn item_type_named(name: &str) -> ItemType
    ensures { result ≡ item_type_named name.now }
{
    match ItemType::from_own_type(name) {
        Some(kind) => kind,
        None => ItemType::Document,
    }
}

// Returns the type of an unpublished work: a talk if the entry has an event.
fn type_of_unpublished(has_event: bool) -> ItemType
    ensures { result ≡ type_of_unpublished has_event }
{
    if has_event {
        ItemType::Speech
    } else {
        ItemType::Manuscript
    }
}

// Returns the type of the item of an entry with this type and this `entrysubtype`. `has_event` says whether the entry has an event.
pub(crate) fn item_type_of(entry_type: &EntryType, subtype: &str, has_event: bool) -> ItemType
    ensures { result ≡ item_type_of entry_type.now subtype.now has_event }
{
    match entry_type {
        EntryType::Article | EntryType::SuppPeriodical => type_of_article(subtype),
        EntryType::Periodical => ItemType::Periodical,
        EntryType::Book
        | EntryType::MvBook
        | EntryType::Collection
        | EntryType::MvCollection
        | EntryType::Proceedings
        | EntryType::MvProceedings
        | EntryType::Reference
        | EntryType::MvReference
        | EntryType::Manual => ItemType::Book,
        EntryType::InBook
        | EntryType::BookInBook
        | EntryType::SuppBook
        | EntryType::InCollection
        | EntryType::SuppCollection => ItemType::Chapter,
        EntryType::InReference => ItemType::EntryEncyclopedia,
        EntryType::InProceedings => ItemType::PaperConference,
        EntryType::Booklet => ItemType::Pamphlet,
        EntryType::Thesis | EntryType::MastersThesis | EntryType::PhdThesis => ItemType::Thesis,
        EntryType::Report | EntryType::TechReport => ItemType::Report,
        EntryType::Patent => ItemType::Patent,
        EntryType::Online => ItemType::Webpage,
        EntryType::Dataset => ItemType::Dataset,
        EntryType::Software => ItemType::Software,
        EntryType::Unpublished => type_of_unpublished(has_event),
        EntryType::Misc | EntryType::Set | EntryType::XData => ItemType::Document,
        EntryType::Unknown(name) => item_type_named(name.as_str()),
    }
}

/// Returns whether the item is an article of a journal, a magazine or a newspaper, or a review.
pub fn is_article(kind: ItemType) -> bool
    ensures { result ≡ is_article kind }
{
    matches!(
        kind,
        ItemType::ArticleJournal
            | ItemType::ArticleMagazine
            | ItemType::ArticleNewspaper
            | ItemType::Review
    )
}

/// Returns whether the item is a part of a book.
pub fn is_in_book(kind: ItemType) -> bool
    ensures { result ≡ is_in_book kind }
{
    matches!(
        kind,
        ItemType::Chapter | ItemType::PaperConference | ItemType::EntryEncyclopedia
    )
}

/// Returns whether the item can be a volume of a work of several volumes.
pub fn is_volume(kind: ItemType) -> bool
    ensures { result ≡ is_volume kind }
{
    matches!(
        kind,
        ItemType::Book | ItemType::Collection | ItemType::Periodical
    )
}

/// Returns whether the field `number` counts the issues of a periodical.
pub fn counts_issues(kind: ItemType) -> bool
    ensures { result ≡ counts_issues kind }
{
    matches!(
        kind,
        ItemType::ArticleJournal
            | ItemType::ArticleMagazine
            | ItemType::ArticleNewspaper
            | ItemType::Periodical
            | ItemType::Review
    )
}

/// Returns whether the field `number` counts the works of a series.
pub fn counts_series(kind: ItemType) -> bool
    ensures { result ≡ counts_series kind }
{
    matches!(
        kind,
        ItemType::Book
            | ItemType::Chapter
            | ItemType::Collection
            | ItemType::PaperConference
            | ItemType::EntryEncyclopedia
            | ItemType::Pamphlet
    )
}
