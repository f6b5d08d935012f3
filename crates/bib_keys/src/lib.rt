//! Keys of entries, made by a pattern from the fields of each entry.
//!
//! A pattern such as `{author}{year}{title:1}` is a list of parts: characters, and placeholders in braces. `parsing` parses it. Each
//! part adds a text for an entry: `names` that of the authors, `years` that of the year, `titles` that of the title. These texts consist of
//! ASCII letters, digits and spaces. `commands` leaves out most names of LaTeX commands, `letters` gets the letters and digits of a
//! text in ASCII, and `cases` writes them in lower or upper case. `bases` joins the texts of the parts and removes spaces and repeated
//! hyphens. Entries with the same text get different keys from `keys`, by the letters of `suffixes`.
#![tactic(auto)]

mod bases;
mod cases;
mod characters;
mod commands;
mod errors;
mod keys;
pub mod laws;
mod letters;
mod names;
mod parsing;
pub mod pattern;
mod suffixes;
mod titles;
mod years;

pub use errors::PatternError;
pub use pattern::{Case, KeyPattern, Part};
