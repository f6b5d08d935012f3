//! Items of CSL-JSON, the input of a citation processor.

use crate::item_types::ItemType;
use crate::variables::Variable;
use bib_text::items::Items;
use bib_text::text::Text;

/// An item.
#[derive(Debug, PartialEq, Eq, Drop)]
pub struct Item {
    /// The key, by which the item is cited.
    pub id: Text,
    /// The type of the item.
    pub kind: ItemType,
    /// The variables of the item and their contents.
    pub fields: Items<Field>,
}

/// A variable and its content.
#[derive(Debug, PartialEq, Eq, Drop)]
pub struct Field {
    /// The variable.
    pub variable: Variable,
    /// The content of the variable.
    pub content: Content,
}

/// The content of a variable.
#[derive(Debug, PartialEq, Eq, Drop)]
pub enum Content {
    /// A text, with HTML tags for markup.
    Text(Text),
    /// Names of people or institutions.
    Names(Items<Name>),
    /// A date.
    Date(ItemDate),
}

/// The name of a person or of an institution.
#[derive(Debug, PartialEq, Eq, Drop)]
pub enum Name {
    /// A name without parts, such as that of an institution.
    Literal(Text),
    /// The parts of a person's name.
    Parts(NameParts),
}

/// The parts of a person's name. A missing part is empty.
#[derive(Debug, PartialEq, Eq, Drop)]
pub struct NameParts {
    /// The family name.
    pub family: Text,
    /// The given name.
    pub given: Text,
    /// A suffix, such as `Jr.`.
    pub suffix: Text,
    /// A prefix that isn't part of the family name, such as `von`: citations with only the family name omit it.
    pub dropping_particle: Text,
    /// A prefix that is part of the family name.
    pub non_dropping_particle: Text,
}

/// A date.
#[derive(Debug, PartialEq, Eq, Drop)]
pub struct ItemDate {
    /// One date, or the two dates of a range. In the item of an entry, empty for a date that can't be parsed and isn't a season.
    pub parts: Items<DateParts>,
    /// The season of the year.
    pub season: Option<Season>,
    /// Whether the date is uncertain or approximate.
    pub circa: bool,
    /// The text of the date. In the item of an entry, only a date that can't be parsed and isn't a season has one.
    pub literal: Option<Text>,
}

/// A year, with its month and its day if the date has them.
#[derive(Debug, Clone, Copy, PartialEq, Eq)]
pub struct DateParts {
    /// The year; the year before 1 is -1, and 0 is in place of the open side of a range.
    pub year: i64,
    /// The month, from 1.
    pub month: Option<u16>,
    /// The day of the month, from 1.
    pub day: Option<u16>,
}

/// A season of a year.
#[derive(Debug, Clone, Copy, PartialEq, Eq)]
pub enum Season {
    /// Spring.
    Spring,
    /// Summer.
    Summer,
    /// Autumn.
    Autumn,
    /// Winter.
    Winter,
}
