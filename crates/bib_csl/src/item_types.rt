//! The table of types of items.
//!
//! It has one row for each type. `bib_csl` reads it to write items, and `bib_from_csl` reads it to write entries.

ghost use Rattle.std.specs.Prelude.{◌≡◌};
ghost use Rattle.bib_csl.specs.TableRows.{first_type, is_of_own_type, is_of_type, type_row_meaning};
ghost use Rattle.bib_csl.specs.Tables as spec;

/// The types of items that entries have or become (CSL 1.0.2, appendix III).
#[derive(Debug, Clone, Copy, PartialEq, Eq)]
pub enum ItemType {
    /// An article of a journal.
    ArticleJournal,
    /// An article of a magazine.
    ArticleMagazine,
    /// An article of a newspaper.
    ArticleNewspaper,
    /// A book.
    Book,
    /// A part of a book.
    Chapter,
    /// A collection of works. No entry becomes an item of this type.
    Collection,
    /// A data set.
    Dataset,
    /// A work of no other type.
    Document,
    /// An article of a work of reference.
    EntryEncyclopedia,
    /// A picture or another work of art.
    Graphic,
    /// The decision of a court.
    LegalCase,
    /// A law.
    Legislation,
    /// An unpublished work.
    Manuscript,
    /// A film or another moving picture.
    MotionPicture,
    /// A printed work without a publisher.
    Pamphlet,
    /// A paper in the proceedings of a conference.
    PaperConference,
    /// A patent.
    Patent,
    /// A performance of a work.
    Performance,
    /// An issue of a periodical.
    Periodical,
    /// A letter or another message.
    PersonalCommunication,
    /// A report.
    Report,
    /// A review of another work.
    Review,
    /// Software.
    Software,
    /// Music or another recording of sound.
    Song,
    /// A talk at an event.
    Speech,
    /// A standard.
    Standard,
    /// A thesis.
    Thesis,
    /// A treaty or another legal document.
    Treaty,
    /// A web page or a web site.
    Webpage,
}

/// A type of items: CSL's name, other types of CSL that import treats as this one, the type of the entry that an item becomes, and types of
/// entries that aren't in `EntryType` and become an item of this type. If there are such types, an item becomes an entry of the first one.
type TypeRow = (
    ItemType,
    &'static str,
    &'static [&'static str],
    &'static str,
    &'static [&'static str],
);

/// The types of items, in the order of the variants.
static ITEM_TYPES: [TypeRow; 29] = [
    (
        ItemType::ArticleJournal,
        "article-journal",
        &["article"],
        "article",
        &[],
    ),
    (
        ItemType::ArticleMagazine,
        "article-magazine",
        &[],
        "article",
        &[],
    ),
    (
        ItemType::ArticleNewspaper,
        "article-newspaper",
        &[],
        "article",
        &[],
    ),
    (ItemType::Book, "book", &["classic"], "book", &[]),
    (ItemType::Chapter, "chapter", &[], "incollection", &[]),
    (ItemType::Collection, "collection", &[], "collection", &[]),
    (ItemType::Dataset, "dataset", &[], "dataset", &[]),
    (ItemType::Document, "document", &[], "misc", &[]),
    (
        ItemType::EntryEncyclopedia,
        "entry-encyclopedia",
        &["entry", "entry-dictionary"],
        "inreference",
        &[],
    ),
    (ItemType::Graphic, "graphic", &[], "", &["artwork", "image"]),
    (
        ItemType::LegalCase,
        "legal_case",
        &[],
        "",
        &["jurisdiction"],
    ),
    (
        ItemType::Legislation,
        "legislation",
        &[],
        "",
        &["legislation"],
    ),
    (ItemType::Manuscript, "manuscript", &[], "unpublished", &[]),
    (
        ItemType::MotionPicture,
        "motion_picture",
        &[],
        "",
        &["movie", "video"],
    ),
    (ItemType::Pamphlet, "pamphlet", &[], "booklet", &[]),
    (
        ItemType::PaperConference,
        "paper-conference",
        &[],
        "inproceedings",
        &[],
    ),
    (ItemType::Patent, "patent", &[], "patent", &[]),
    (
        ItemType::Performance,
        "performance",
        &[],
        "",
        &["performance"],
    ),
    (ItemType::Periodical, "periodical", &[], "periodical", &[]),
    (
        ItemType::PersonalCommunication,
        "personal_communication",
        &[],
        "",
        &["letter"],
    ),
    (ItemType::Report, "report", &[], "report", &[]),
    (
        ItemType::Review,
        "review",
        &["review-book"],
        "",
        &["review"],
    ),
    (ItemType::Software, "software", &[], "software", &[]),
    (ItemType::Song, "song", &[], "", &["music", "audio"]),
    (ItemType::Speech, "speech", &[], "unpublished", &[]),
    (ItemType::Standard, "standard", &[], "", &["standard"]),
    (ItemType::Thesis, "thesis", &[], "thesis", &[]),
    (ItemType::Treaty, "treaty", &[], "", &["legal"]),
    (
        ItemType::Webpage,
        "webpage",
        &["post", "post-weblog"],
        "online",
        &[],
    ),
];

impl ItemType {
    /// Returns CSL's name of the type.
    pub fn name(self) -> &'static str
        ensures { result.now ≡ spec.item_type_name self }
    {
        let (_, name, _, _, _) = self.row();
        name
    }

    /// Returns the name of the type of the entry that an item of this type becomes.
    pub fn entry_type(self) -> &'static str
        ensures { result.now ≡ spec.written_entry_type self }
    {
        let (_, _, _, entry_type, own) = self.row();
        match own {
            [first, ..] => first,
            [] => entry_type,
        }
    }

    // Returns the row of the type.
    fn row(self) -> &'static TypeRow
        ensures { type_row_meaning result.now ≡ spec.item_type_row self }
    {
        &ITEM_TYPES[self as usize]
    }

    /// Returns the type with exactly this name, or `None`. Some other types of CSL are treated as one of these: for example,
    /// `review-book` as `review`.
    pub fn from_name(name: &str) -> Option<Self>
        ensures { result ≡ spec.item_type_by_name name.now }
    {
        find_type(&ITEM_TYPES, name)
    }

    /// Returns the type of the item of an entry whose type isn't in `EntryType` and has exactly this name, such as `movie`. Returns
    /// `None` for any other name.
    pub fn from_own_type(name: &str) -> Option<Self>
        ensures { result ≡ spec.item_type_by_own_type name.now }
    {
        find_by_own_type(&ITEM_TYPES, name)
    }
}

// Returns whether the type of a row has this name, or a type with this name is treated as it.
fn is_of_type(row: &TypeRow, name: &str) -> bool
    ensures { result ≡ is_of_type name.now row.entry.now }
{
    let (_, own_name, others, _, _) = row;
    *own_name == name || others.contains(&name)
}

// Returns whether an entry of the type with this name, which isn't in `EntryType`, becomes an item of the type of a row.
fn is_of_own_type(row: &TypeRow, name: &str) -> bool
    ensures { result ≡ is_of_own_type name.now row.entry.now }
{
    let (_, _, _, _, own) = row;
    own.contains(&name)
}

// Returns the type of the first row that `is_of_type` accepts, or `None`.
fn find_type(rows: &[TypeRow], name: &str) -> Option<ItemType>
    ensures { result ≡ first_type (is_of_type name.now) rows.entry.now }
{
    for row in rows {
        if is_of_type(row, name) {
            return Some(row.0);
        }
    }
    None
}

// Returns the type of the first row that `is_of_own_type` accepts, or `None`.
fn find_by_own_type(rows: &[TypeRow], name: &str) -> Option<ItemType>
    ensures { result ≡ first_type (is_of_own_type name.now) rows.entry.now }
{
    for row in rows {
        if is_of_own_type(row, name) {
            return Some(row.0);
        }
    }
    None
}
