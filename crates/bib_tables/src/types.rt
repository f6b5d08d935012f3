//! Small enumerations of BibLaTeX: pagination schemes, roles of editors and genders.

ghost use Rattle.std.specs.Prelude.{◌≡◌, ◌↔◌, Some, IsOk, IsSome, IsTrue, IfOk, IsOkUnless};
ghost use Rattle.std.specs.List.{list_all};
ghost use Rattle.std.specs.Option.{ok_or};
ghost use Rattle.bib_tables.specs.Pagination.{pagination_name, pagination_named};
ghost use Rattle.bib_tables.specs.EditorType.{editor_type_name, editor_type_named, editor_type_of};
ghost use Rattle.bib_tables.specs.Gender.{gender_name, plural_of, singular_of, coalesced_gender, group_gender, is_female, is_male};

pub mod lang;

use bib_text::text::Text;
use std::alloc::{AllocError, Global};
use std::fmt;
use std::str::FromStr;
use thiserror::Error;

/// Why a name couldn't be parsed.
#[derive(Debug, Clone, Copy, PartialEq, Eq, Error)]
pub enum NameError {
    /// The name is unknown.
    #[error("unknown name")]
    Unknown,
    /// There was no memory for a copy of the name.
    #[error("out of memory")]
    OutOfMemory,
}

impl From<AllocError> for NameError {
    ghost use Rattle.bib_tables.specs.declared.types.NameError.{NameError};

    ghost from_gives = { λ _ error. error ≡ NameError.OutOfMemory };

    fn from(_error: AllocError) -> NameError {
        NameError::OutOfMemory
    }
}

/// A pagination scheme: the unit that the numbers in the field `pages` or in a citation count (BibLaTeX manual, 2.3.12).
#[derive(Debug, Clone, Copy, PartialEq, Eq)]
pub enum Pagination {
    /// Pages.
    Page,
    /// Columns.
    Column,
    /// Lines.
    Line,
    /// Verses.
    Verse,
    /// Sections.
    Section,
    /// Paragraphs.
    Paragraph,
}

impl Pagination {
    /// Returns the name of the scheme: the name of the variant in lowercase letters.
    pub fn as_ref(&self) -> &'static str
        ensures { result.now ≡ pagination_name self.now }
    {
        match self {
            Self::Page => "page",
            Self::Column => "column",
            Self::Line => "line",
            Self::Verse => "verse",
            Self::Section => "section",
            Self::Paragraph => "paragraph",
        }
    }

    // Returns the scheme with exactly this name, or `None`.
    fn from_name(text: &str) -> Option<Self>
        ensures { result ≡ pagination_named text.now }
    {
        match text {
            "page" => Some(Self::Page),
            "column" => Some(Self::Column),
            "line" => Some(Self::Line),
            "verse" => Some(Self::Verse),
            "section" => Some(Self::Section),
            "paragraph" => Some(Self::Paragraph),
            _ => None,
        }
    }
}

/// Writes the name of the scheme.
impl fmt::Display for Pagination {
    ghost output = { λ scheme. Some (pagination_name scheme) };

    fn fmt<W: fmt::Write>(&self, f: &mut fmt::Formatter<W>) -> fmt::Result {
        f.write_str(self.as_ref())
    }
}

/// Parses the name of a scheme, which must match exactly.
impl FromStr for Pagination {
    ghost use Rattle.bib_tables.specs.declared.types.NameError.{NameError};

    type Err = NameError;

    ghost from_str_gives = { λ text result. result ≡ ok_or (pagination_named text) NameError.Unknown };

    fn from_str(text: &str) -> Result<Self, NameError> {
        Self::from_name(text).ok_or(NameError::Unknown)
    }
}

/// The role of an editor (BibLaTeX manual, 2.3.6).
#[derive(Debug, Clone, PartialEq, Eq, Drop)]
pub enum EditorType {
    /// Edited the work.
    Editor,
    /// Compiled it.
    Compiler,
    /// Founded it.
    Founder,
    /// Continued it.
    Continuator,
    /// Redacted it.
    Redactor,
    /// Revised it.
    Reviser,
    /// Took part in it.
    Collaborator,
    /// Organized it.
    Organizer,
    /// Directed it.
    Director,
    /// Another role; the text is its name.
    Unknown(Text),
}

impl EditorType {
    /// Returns the role with the name `text`, which must match exactly, and otherwise `Unknown` with a copy of `text`. The
    /// only error is `OutOfMemory`, for that copy.
    pub fn from_str(alloc: Global, text: &str) -> Result<Self, NameError>
        ensures ok { IfOk result (λ role. role ≡ editor_type_of text.now) }
        ensures refused { IsOkUnless result NameError.OutOfMemory }
        ensures no_memory_needed { IsSome (editor_type_named text.now) → IsOk result }
    {
        match Self::from_name(text) {
            Some(role) => Ok(role),
            None => {
                let text = Text::from_str(alloc, text)?;
                Ok(Self::Unknown(text))
            }
        }
    }

    /// Returns the role with the name `text`, which must match exactly, and otherwise `Unknown` with `text`.
    pub fn from_text(text: Text) -> Self
        ensures { result ≡ editor_type_of text }
    {
        match Self::from_name(text.as_str()) {
            Some(role) => role,
            None => Self::Unknown(text),
        }
    }

    /// Returns the name of the role: the name of the variant in lowercase letters, or the text of an unknown role.
    pub fn as_ref(&self) -> &str
        ensures { result.now ≡ editor_type_name self.now }
    {
        match self {
            Self::Editor => "editor",
            Self::Compiler => "compiler",
            Self::Founder => "founder",
            Self::Continuator => "continuator",
            Self::Redactor => "redactor",
            Self::Reviser => "reviser",
            Self::Collaborator => "collaborator",
            Self::Organizer => "organizer",
            Self::Director => "director",
            Self::Unknown(text) => text.as_str(),
        }
    }

    // Returns the role with exactly this name, or `None`.
    fn from_name(text: &str) -> Option<Self>
        ensures { result ≡ editor_type_named text.now }
    {
        match text {
            "editor" => Some(Self::Editor),
            "compiler" => Some(Self::Compiler),
            "founder" => Some(Self::Founder),
            "continuator" => Some(Self::Continuator),
            "redactor" => Some(Self::Redactor),
            "reviser" => Some(Self::Reviser),
            "collaborator" => Some(Self::Collaborator),
            "organizer" => Some(Self::Organizer),
            "director" => Some(Self::Director),
            _ => None,
        }
    }
}

/// Writes the name of the role.
impl fmt::Display for EditorType {
    ghost output = { λ role. Some (editor_type_name role) };

    fn fmt<W: fmt::Write>(&self, f: &mut fmt::Formatter<W>) -> fmt::Result {
        f.write_str(self.as_ref())
    }
}

/// Gender and number of the author, or of the editor if there is no author (BibLaTeX manual, 2.2.3, `gender`).
#[derive(Debug, Clone, Copy, PartialEq, Eq)]
pub enum Gender {
    /// One woman.
    SingularFemale,
    /// One man.
    SingularMale,
    /// One person of neither gender.
    SingularNeuter,
    /// Women.
    PluralFemale,
    /// Men.
    PluralMale,
    /// A mixed group, or people of neither gender.
    PluralNeuter,
}

impl Gender {
    /// Returns the plural of the same gender.
    pub fn plural(self) -> Self
        ensures { result ≡ plural_of self }
    {
        match self {
            Self::SingularFemale | Self::PluralFemale => Self::PluralFemale,
            Self::SingularMale | Self::PluralMale => Self::PluralMale,
            Self::SingularNeuter | Self::PluralNeuter => Self::PluralNeuter,
        }
    }

    /// Returns the singular of the same gender.
    pub fn singular(self) -> Self
        ensures { result ≡ singular_of self }
    {
        match self {
            Self::SingularFemale | Self::PluralFemale => Self::SingularFemale,
            Self::SingularMale | Self::PluralMale => Self::SingularMale,
            Self::SingularNeuter | Self::PluralNeuter => Self::SingularNeuter,
        }
    }

    /// Returns the gender of a group: `None` if `list` is empty, and its only gender if it has one element. Otherwise returns
    /// a plural, which is neuter unless all are female or all are male.
    pub fn coalesce(list: &[Self]) -> Option<Self>
        ensures { result ≡ coalesced_gender list.now }
    {
        match list {
            [] => None,
            [gender] => Some(*gender),
            _ => Some(Self::group(list)),
        }
    }

    /// Returns the name of the variant.
    pub fn as_ref(&self) -> &'static str
        ensures { result.now ≡ gender_name self.now }
    {
        match self {
            Self::SingularFemale => "SingularFemale",
            Self::SingularMale => "SingularMale",
            Self::SingularNeuter => "SingularNeuter",
            Self::PluralFemale => "PluralFemale",
            Self::PluralMale => "PluralMale",
            Self::PluralNeuter => "PluralNeuter",
        }
    }

    // Returns the plural of a group: female if all are female, otherwise male if all are male, and otherwise neuter.
    fn group(list: &[Self]) -> Self
        ensures { result ≡ group_gender list.now }
    {
        if Self::all_female(list) {
            Self::PluralFemale
        } else if Self::all_male(list) {
            Self::PluralMale
        } else {
            Self::PluralNeuter
        }
    }

    fn all_female(list: &[Self]) -> bool
        ensures { result ≡ list_all is_female list.now }
    {
        list.iter().all(|gender| gender.is_female())
    }

    fn all_male(list: &[Self]) -> bool
        ensures { result ≡ list_all is_male list.now }
    {
        list.iter().all(|gender| gender.is_male())
    }

    fn is_female(self) -> bool
        ensures { result ≡ is_female self }
    {
        matches!(self, Self::SingularFemale | Self::PluralFemale)
    }

    fn is_male(self) -> bool
        ensures { result ≡ is_male self }
    {
        matches!(self, Self::SingularMale | Self::PluralMale)
    }
}

/// Writes the name of the variant.
impl fmt::Display for Gender {
    ghost output = { λ gender. Some (gender_name gender) };

    fn fmt<W: fmt::Write>(&self, f: &mut fmt::Formatter<W>) -> fmt::Result {
        f.write_str(self.as_ref())
    }
}
