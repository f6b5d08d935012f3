//! Orders of the entries of a bibliography file: by key, year, author, title or type, one after another, each in one direction.
//!
//! `order` parses the text of an order, such as `author,-year`. Each entry gets a list of sort values, one for each property. `fields`
//! chooses the field of a property and parses its contents, with the abbreviations of the file. `values` turns contents into a sort
//! value: `people` does so for names, `years` for numbers, and `letters` for texts, without accents, case and markup. `comparing`
//! compares two lists of sort values, and `places` sorts them and returns the place of each entry.
#![tactic(auto)]

mod comparing;
mod fields;
mod letters;
pub mod order;
mod people;
pub mod places;
mod values;
mod years;
