//! The fields that each entry type requires, allows and forbids.

ghost use Rattle.std.specs.Prelude.{◌≡◌, [], IfOk, false};
ghost use Rattle.bib_tables.specs.Requirements.{texts, rules_of, forbidden_fields_of, author_names, page_names};
ghost use Rattle.bib_tables.specs.Row.{optional_of_row, rules_of_row};

mod rows;

use super::EntryType;
use std::alloc::{AllocError, Global};

/// The rule of an entry type for the fields `author` and `editor`.
#[derive(Debug, Clone, Copy, PartialEq, Eq, Default)]
pub enum AuthorMode {
    /// Neither is required.
    NoneRequired,
    /// At least one of them is required.
    OneRequired,
    /// Both are required.
    BothRequired,
    /// `author` is required.
    #[default]
    AuthorRequired,
    /// `author` is required and `editor` is optional.
    AuthorRequiredEditorOptional,
    /// `editor` is required and `author` is forbidden.
    EditorRequiredAuthorForbidden,
}

impl AuthorMode {
    /// Returns those of the two fields that this rule requires or allows; none for `NoneRequired`.
    pub fn possible(self) -> &'static [&'static str]
        ensures { texts result.now ≡ author_names self }
    {
        match self {
            Self::NoneRequired => &[],
            Self::OneRequired | Self::BothRequired | Self::AuthorRequiredEditorOptional => {
                &["author", "editor"]
            }
            Self::AuthorRequired => &["author"],
            Self::EditorRequiredAuthorForbidden => &["editor"],
        }
    }
}

/// The rule of an entry type for the fields `pages` and `chapter`.
#[derive(Debug, Clone, Copy, PartialEq, Eq, Default)]
pub enum PagesChapterMode {
    /// There is no rule for them.
    #[default]
    None,
    /// At least one of them is required.
    OneRequired,
    /// Both are optional.
    BothOptional,
    /// Both are forbidden.
    BothForbidden,
    /// `pages` is optional.
    PagesOptional,
    /// `pages` is required.
    PagesRequired,
}

impl PagesChapterMode {
    /// Returns those of the two fields that this rule requires or allows; none for `None`.
    pub fn possible(self) -> &'static [&'static str]
        ensures { texts result.now ≡ page_names self }
    {
        match self {
            Self::None | Self::BothForbidden => &[],
            Self::OneRequired | Self::BothOptional => &["pages", "chapter"],
            Self::PagesOptional | Self::PagesRequired => &["pages"],
        }
    }
}

/// The required, optional and forbidden fields of an entry type. The lists lack `author`, `editor`, `pages`, `chapter`, `date`
/// and `year`, which have rules of their own.
#[derive(Debug, Clone, Drop)]
pub struct Requirements {
    /// Required fields.
    pub required: Vec<&'static str>,
    /// Optional fields.
    pub optional: Vec<&'static str>,
    /// Forbidden fields.
    pub forbidden: Vec<&'static str>,
    /// The rule for `author` and `editor`.
    pub author_eds_field: AuthorMode,
    /// The rule for `pages` and `chapter`.
    pub page_chapter_field: PagesChapterMode,
    /// Whether a date or a year is required.
    pub needs_date: bool,
}

impl Requirements {
    /// Returns requirements without any field except a required author. Doesn't allocate.
    pub fn new(alloc: Global) -> Self
        ensures required { result.required.items ≡ [] }
        ensures optional { result.optional.items ≡ [] }
        ensures forbidden { result.forbidden.items ≡ [] }
        ensures author { result.author_eds_field ≡ AuthorMode.AuthorRequired }
        ensures pages { result.page_chapter_field ≡ PagesChapterMode.None }
        ensures date { result.needs_date ≡ false }
    {
        Requirements {
            required: Vec::new(alloc),
            optional: Vec::new(alloc),
            forbidden: Vec::new(alloc),
            author_eds_field: AuthorMode::default(),
            page_chapter_field: PagesChapterMode::default(),
            needs_date: false,
        }
    }
}

impl EntryType {
    /// Returns the required, optional and forbidden fields of this type. Returns an error only if out of memory.
    pub fn requirements(&self, alloc: Global) -> Result<Requirements, AllocError>
        ensures required { IfOk result (λ asked. texts asked.required.items ≡
            (rules_of self.now).required) }
        ensures optional { IfOk result (λ asked. texts asked.optional.items ≡
            (rules_of self.now).optional) }
        ensures forbidden { IfOk result (λ asked. texts asked.forbidden.items ≡
            forbidden_fields_of self.now) }
        ensures author { IfOk result (λ asked. asked.author_eds_field ≡
            (rules_of self.now).author) }
        ensures pages { IfOk result (λ asked. asked.page_chapter_field ≡
            (rules_of self.now).pages) }
        ensures date { IfOk result (λ asked. asked.needs_date ≡ (rules_of self.now).needs_date) }
    {
        let row = self.row();
        Ok(Requirements {
            required: Vec::from_slice(alloc, row.required)?,
            optional: row.optional(alloc)?,
            forbidden: Vec::from_slice(alloc, self.forbidden_fields())?,
            author_eds_field: row.author,
            page_chapter_field: row.pages,
            needs_date: row.needs_date,
        })
    }

    /// Borrows the row of this type in the table of requirements. Doesn't allocate.
    pub fn row(&self) -> &'static Row
        ensures { rules_of_row result.now ≡ rules_of self.now }
    {
        match self {
            Self::Article | Self::SuppPeriodical => &rows::ARTICLE,
            Self::Book => &rows::BOOK,
            Self::Booklet => &rows::BOOKLET,
            Self::InBook | Self::BookInBook | Self::SuppBook => &rows::IN_BOOK,
            Self::InCollection | Self::SuppCollection | Self::InReference => &rows::IN_COLLECTION,
            Self::InProceedings => &rows::IN_PROCEEDINGS,
            Self::Manual => &rows::MANUAL,
            Self::MastersThesis | Self::PhdThesis => &rows::MASTERS_THESIS,
            Self::Misc | Self::Software => &rows::MISC,
            Self::Proceedings => &rows::PROCEEDINGS,
            Self::TechReport => &rows::TECH_REPORT,
            Self::Unpublished => &rows::UNPUBLISHED,
            Self::MvBook => &rows::MV_BOOK,
            Self::Periodical => &rows::PERIODICAL,
            Self::Collection | Self::Reference => &rows::COLLECTION,
            Self::MvCollection | Self::MvReference | Self::Unknown(_) => &rows::MV_COLLECTION,
            Self::MvProceedings => &rows::MV_PROCEEDINGS,
            Self::Report => &rows::REPORT,
            Self::Patent => &rows::PATENT,
            Self::Thesis => &rows::THESIS,
            Self::Online => &rows::ONLINE,
            Self::Dataset => &rows::DATASET,
            Self::Set => &rows::SET,
            Self::XData => &rows::XDATA,
        }
    }

    // Returns the forbidden fields of the type, except for those that its rules for authors and pages forbid.
    fn forbidden_fields(&self) -> &'static [&'static str]
        ensures { texts result.now ≡ forbidden_fields_of self.now }
    {
        match self {
            Self::InBook
            | Self::InCollection
            | Self::InProceedings
            | Self::BookInBook
            | Self::SuppBook
            | Self::SuppCollection
            | Self::InReference => &["pagetotal"],
            Self::MvBook
            | Self::MvCollection
            | Self::MvReference
            | Self::MvProceedings
            | Self::Unknown(_) => &[
                "maintitle",
                "mainsubtitle",
                "maintitleaddon",
                "part",
                "volume",
            ],
            _ => &[],
        }
    }
}

/// A row of the table of requirements: the rules of an entry type, without its list of forbidden fields.
pub struct Row {
    /// Required fields.
    pub required: &'static [&'static str],
    /// Optional fields, in groups. Several entry types share some of the groups.
    pub optional: &'static [&'static [&'static str]],
    /// The rule for `author` and `editor`.
    pub author: AuthorMode,
    /// The rule for `pages` and `chapter`.
    pub pages: PagesChapterMode,
    /// Whether a date or a year is required.
    pub needs_date: bool,
}

impl Row {
    // Returns the optional fields of the row, in the order of its groups.
    fn optional(&self, alloc: Global) -> Result<Vec<&'static str>, AllocError>
        ensures { IfOk result (λ names. texts names.items ≡ optional_of_row self.now) }
    {
        let mut names = Vec::new(alloc);
        for group in self.optional {
            names.extend_from_slice(group)?;
        }
        Ok(names)
    }
}
