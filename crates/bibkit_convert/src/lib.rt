//! Exports a bibliography as CSL-JSON, JSON or RIS, entry by entry.
//!
//! `target` contains the formats and the text of an entry in each. `converting` parses a text and passes one text for each entry
//! to the output. So the texts of all entries needn't be in memory at once.
#![tactic(auto)]

pub mod converting;
pub mod target;
