//! Entries as JSON, for other programs.
//!
//! A definition lists the members of an object, also those without a value. The code inserts them in the same order: `members` inserts a
//! member if it has a value. `types` returns the type of a field by its name. `values` parses the field with this type, with `people`,
//! `dates` and `lists`, and `fields` returns the parsed value together with the `chunks`. `entries` returns an entry as an object and as a
//! text. `arrays` returns the texts around the elements of an array, so that a program can write it element by element.
#![tactic(auto)]

pub mod arrays;
mod chunks;
mod dates;
pub mod entries;
mod fields;
pub mod laws;
mod lists;
mod members;
mod people;
pub mod types;
mod values;
