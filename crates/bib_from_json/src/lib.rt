//! Entries in JSON as entries of BibLaTeX.
//!
//! docs/entries.schema.json describes the JSON. `chunks` parses the chunks of a field, and `reading` parses fields and entries; both report
//! the first part that the schema doesn't allow. `writing` writes the entries. `converting` parses the result, and `comparing` checks that
//! its entries are the given ones.
#![tactic(auto)]

mod chunks;
mod comparing;
pub mod converting;
pub mod given;
pub mod laws;
pub mod reading;
pub mod writing;
