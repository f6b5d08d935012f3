//! Items of CSL-JSON as entries (Citation Style Language 1.0.2).
//!
//! `reading` parses each object of an array, or one object, as an item, with its members in their order. `objects`, `names` and `dates`
//! return the parts of JSON values, and `titles` marks words that keep their case. `writing` writes each item as an entry: `variables` and
//! `types` choose the fields, and `values`, `tags`, `people`, `days` and `languages` write their values. `converting` parses the entries
//! again, and `losses` compares them with the items. `places` finds the byte offset of a fault.
#![tactic(auto)]

pub mod converting;
pub mod dates;
mod days;
pub mod given;
mod languages;
pub mod laws;
pub mod losses;
mod names;
pub mod objects;
mod people;
pub mod places;
pub mod reading;
mod tags;
pub mod titles;
mod types;
mod values;
mod variables;
pub mod writing;
