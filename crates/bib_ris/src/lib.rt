//! Entries as RIS records, which reference managers import.
//!
//! A record is appended to a text line by line. `lines` writes a line, and `fields` the line of a field. `people`, `dates`, `pages` and
//! `titles` write the lines of their fields. `records` writes the parts of a record one after another. `types` returns the type of a
//! record. Most texts come from `bib_csl`. Only the publisher, its place and the genre have HTML tags.
#![tactic(auto)]

mod dates;
mod fields;
pub mod laws;
mod lines;
mod pages;
mod people;
pub mod records;
mod titles;
pub mod types;
