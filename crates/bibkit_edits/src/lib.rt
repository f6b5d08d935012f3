//! Applies the edits of `bibkit` to a file, and prints the new text or a diff.
//!
//! `edit` contains the edits and the reasons for refusing them. `editing` applies edits to the bytes of a file: each to the text
//! after the previous one, and either all of them or none. `reading` handles the byte order mark of a file, and
//! `printing` prints the new text or a diff. `left_notes` reports references that keep the old key of an entry, and
//! `uninherited_notes` reports fields that entries lack after their references are resolved.
#![tactic(auto)]

pub mod edit;
pub mod editing;
pub mod left_notes;
pub mod printing;
pub mod reading;
pub mod uninherited_notes;
