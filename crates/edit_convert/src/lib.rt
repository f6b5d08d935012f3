//! Converts the entry types and fields of a file to those of BibLaTeX or of BibTeX.
//!
//! The definitions state the replacement of each field, and the change of an entry. The edits of all entries are made in one pass
//! over the text. The new text isn't parsed again. `edit_entries` proves the reading of a text with such changes, and
//! `ConvertedFacts` that the changes of a conversion can be made. Years and days are copied from the date as texts.
//!
//! The parts of a date are joined by `bib_dates`, which parses and writes them, so the new date parses as the date of its parts
//! (`JoinedTextFacts`). The last part is replaced by the date. Each other part is removed, up to the next field.
#![tactic(auto)]

mod changes;
pub mod converting;
mod dates;
mod fields;
mod joining;
pub mod laws;
mod names;
mod new_fields;
pub mod notes;
mod types;
