//! Entry types, and the fields that each requires.

ghost use Rattle.std.specs.Prelude.{◌≡◌, Some, IsOk, IsSome, IfOk};
ghost use Rattle.std.specs.Option.{ok_or};
ghost use Rattle.bib_text.specs.Enums.{value_named};
ghost use Rattle.bib_tables.specs.EntryType.{entry_type_name, entry_type_named, alias_names, entry_type_by_name_or_alias, entry_type_of, known_type, biblatex_type, bibtex_type, is_multi_volume, is_collection};

mod requirements;

use crate::types::NameError;
use bib_text::text::Text;
pub use requirements::{AuthorMode, PagesChapterMode, Requirements, Row};
use std::alloc::{AllocError, Global};
use std::fmt;
use std::str::FromStr;

/// The type of an entry (BibLaTeX manual, 2.1).
#[derive(Debug, Clone, PartialEq, Eq, Drop)]
pub enum EntryType {
    /// An article in a journal, magazine or other periodical.
    Article,
    /// A book in one volume.
    Book,
    /// A work like a book, without a publisher.
    Booklet,
    /// A part of a book that has its own title.
    InBook,
    /// A contribution to a collection that has its own author and title.
    InCollection,
    /// An article in the proceedings of a conference; `@conference` is an alias.
    InProceedings,
    /// Technical documentation.
    Manual,
    /// A Master's thesis.
    MastersThesis,
    /// A PhD thesis.
    PhdThesis,
    /// A work that fits no other type.
    Misc,
    /// The proceedings of a conference, in one volume.
    Proceedings,
    /// A technical report.
    TechReport,
    /// A work that is not formally published.
    Unpublished,
    /// A book in several volumes.
    MvBook,
    /// A book that is reprinted as a part of another.
    BookInBook,
    /// Supplemental material in a book, such as a preface.
    SuppBook,
    /// A whole issue of a periodical.
    Periodical,
    /// Supplemental material in a periodical, such as a column.
    SuppPeriodical,
    /// A collection of contributions by several authors, in one volume.
    Collection,
    /// A collection in several volumes.
    MvCollection,
    /// Supplemental material in a collection.
    SuppCollection,
    /// A work of reference in one volume, such as a dictionary.
    Reference,
    /// A work of reference in several volumes.
    MvReference,
    /// An article in a work of reference.
    InReference,
    /// The proceedings of a conference, in several volumes.
    MvProceedings,
    /// A report of a university or another institution.
    Report,
    /// A patent, or a request for one.
    Patent,
    /// A thesis for a degree.
    Thesis,
    /// A work that is only available online; `@electronic` and `@www` are aliases.
    Online,
    /// Software.
    Software,
    /// A data set.
    Dataset,
    /// A set of entries.
    Set,
    /// A container of fields that other entries inherit.
    XData,
    /// Another type; the text is its name in ASCII lowercase.
    Unknown(Text),
}

// The table of the named types and their names. It is passed to one of the macros below, which expands it to a `match`.
macro_rules! with_named_types {
    ($make:ident, $value:expr) => {
        $make! { $value;
            Article => "article",
            Book => "book",
            Booklet => "booklet",
            InBook => "inbook",
            InCollection => "incollection",
            InProceedings => "inproceedings",
            Manual => "manual",
            MastersThesis => "mastersthesis",
            PhdThesis => "phdthesis",
            Misc => "misc",
            Proceedings => "proceedings",
            TechReport => "techreport",
            Unpublished => "unpublished",
            MvBook => "mvbook",
            BookInBook => "bookinbook",
            SuppBook => "suppbook",
            Periodical => "periodical",
            SuppPeriodical => "suppperiodical",
            Collection => "collection",
            MvCollection => "mvcollection",
            SuppCollection => "suppcollection",
            Reference => "reference",
            MvReference => "mvreference",
            InReference => "inreference",
            MvProceedings => "mvproceedings",
            Report => "report",
            Patent => "patent",
            Thesis => "thesis",
            Online => "online",
            Software => "software",
            Dataset => "dataset",
            Set => "set",
            XData => "xdata",
        }
    };
}

// Returns the name of a type, or `unknown` if it isn't a named type.
macro_rules! name_of {
    ($kind:expr; $($variant:ident => $name:literal,)*) => {
        match $kind {
            $(Self::$variant => $name,)*
            Self::Unknown(_) => "unknown",
        }
    };
}

// Returns the named type with a name, or `None`.
macro_rules! type_named {
    ($text:expr; $($variant:ident => $name:literal,)*) => {
        match $text {
            $($name => Some(Self::$variant),)*
            _ => None,
        }
    };
}

// Returns a named type unchanged, and `Misc` for any other type.
macro_rules! known_or_misc {
    ($kind:expr; $($variant:ident => $name:literal,)*) => {
        match $kind {
            $(Self::$variant => Self::$variant,)*
            Self::Unknown(_) => Self::Misc,
        }
    };
}

impl EntryType {
    /// Returns the type with the name or alias `name`, in any ASCII case. The aliases are `conference`, `electronic` and
    /// `www`. Any other name gives `Unknown` with the name in ASCII lowercase. Doesn't allocate if `name` is exactly the
    /// name of a named type. Returns an error only if out of memory.
    pub fn new(alloc: Global, name: &str) -> Result<Self, AllocError>
        ensures ok { IfOk result (λ type. type ≡ entry_type_of name.now) }
        ensures no_memory_needed { IsSome (entry_type_named name.now) → IsOk result }
    {
        if let Some(known) = Self::from_name(name) {
            return Ok(known);
        }
        let lowered = name.to_ascii_lowercase(alloc)?;
        match Self::from_name_or_alias(lowered.as_str()) {
            Some(known) => Ok(known),
            None => Ok(Self::Unknown(Text::from_string(lowered))),
        }
    }

    /// Returns whether a work of this type has several volumes. Its title is the `maintitle` of its parts.
    pub fn is_multi_volume(&self) -> bool
        ensures { result ≡ is_multi_volume self.now }
    {
        matches!(
            self,
            Self::MvBook | Self::MvCollection | Self::MvReference | Self::MvProceedings
        )
    }

    /// Returns whether a work of this type is one volume or one issue that contains other works. Its title is the
    /// `booktitle` of its parts.
    pub fn is_collection(&self) -> bool
        ensures { result ≡ is_collection self.now }
    {
        matches!(
            self,
            Self::Book | Self::Collection | Self::Periodical | Self::Reference | Self::Proceedings
        )
    }

    /// Returns the type that BibLaTeX has for this type. The thesis types of BibTeX become `Thesis`, `TechReport` becomes
    /// `Report`, and an unknown type becomes `Misc`. Any other type stays the same.
    pub fn to_biblatex(&self) -> Self
        ensures { result ≡ biblatex_type self.now }
    {
        match self {
            Self::MastersThesis | Self::PhdThesis => Self::Thesis,
            Self::TechReport => Self::Report,
            _ => self.known_type(),
        }
    }

    /// Returns the type that BibTeX has for this type; `Misc` if it has none.
    pub fn to_bibtex(&self) -> Self
        ensures { result ≡ bibtex_type self.now }
    {
        match self {
            Self::Article | Self::SuppPeriodical => Self::Article,
            Self::Book | Self::MvBook => Self::Book,
            Self::Booklet => Self::Booklet,
            Self::InBook | Self::BookInBook | Self::SuppBook => Self::InBook,
            Self::InCollection | Self::SuppCollection | Self::InReference => Self::InCollection,
            Self::InProceedings => Self::InProceedings,
            Self::Manual => Self::Manual,
            Self::MastersThesis => Self::MastersThesis,
            Self::PhdThesis | Self::Thesis => Self::PhdThesis,
            Self::Proceedings | Self::Collection | Self::MvCollection | Self::MvProceedings =>
                Self::Proceedings,
            Self::TechReport | Self::Report => Self::TechReport,
            Self::Unpublished => Self::Unpublished,
            Self::Misc
            | Self::Periodical
            | Self::Reference
            | Self::MvReference
            | Self::Patent
            | Self::Online
            | Self::Software
            | Self::Dataset
            | Self::Set
            | Self::XData
            | Self::Unknown(_) => Self::Misc,
        }
    }

    /// Returns the name by which the type is written: `unknown` for an unknown type.
    pub fn name(&self) -> &'static str
        ensures { result.now ≡ entry_type_name self.now }
    {
        with_named_types!(name_of, self)
    }

    /// Returns the type itself if it is named, and `Misc` if it is unknown.
    fn known_type(&self) -> Self
        ensures { result ≡ known_type self.now }
    {
        with_named_types!(known_or_misc, self)
    }

    // Returns the named type with exactly this name or alias, or `None`.
    fn from_name_or_alias(name: &str) -> Option<Self>
        ensures { result ≡ entry_type_by_name_or_alias name.now }
    {
        if let Some(known) = Self::from_name(name) {
            return Some(known);
        }
        Self::alias(name)
    }

    // Returns the named type with exactly this name, or `None`.
    fn from_name(name: &str) -> Option<Self>
        ensures { result ≡ entry_type_named name.now }
    {
        with_named_types!(type_named, name)
    }

    // Returns the named type with exactly this alias, or `None`.
    fn alias(name: &str) -> Option<Self>
        ensures { result ≡ value_named alias_names name.now }
    {
        match name {
            "conference" => Some(Self::InProceedings),
            "electronic" => Some(Self::Online),
            "www" => Some(Self::Online),
            _ => None,
        }
    }
}

/// Writes the name of the type: `unknown` for an unknown type.
impl fmt::Display for EntryType {
    ghost output = { λ type. Some (entry_type_name type) };

    fn fmt<W: fmt::Write>(&self, f: &mut fmt::Formatter<W>) -> fmt::Result {
        f.write_str(self.name())
    }
}

/// Parses the name of a named type, which must match exactly. Aliases aren't accepted.
impl FromStr for EntryType {
    ghost use Rattle.bib_tables.specs.declared.types.NameError.{NameError};

    type Err = NameError;

    ghost from_str_gives = { λ name result. result ≡ ok_or (entry_type_named name) NameError.Unknown };

    fn from_str(name: &str) -> Result<Self, NameError> {
        Self::from_name(name).ok_or(NameError::Unknown)
    }
}
