//! The layout of a bibliography file: each entry is written in one style, and the text between entries is kept. Only white
//! space between entries changes, if the style asks for it. Entries with comments or unbalanced braces are copied (`comments`).
//!
//! The text is copied up to each entry, the entry is written from its raw reading, and copying resumes after its closing brace.
//! `format` takes a parsed file, and `format_text` parses the text one entry at a time. The new text isn't parsed. The proofs show
//! that it parses to the same entries by the file grammar. The text between entries is a zone of both texts (`ZoneFacts` of
//! `edit_entries`). An entry with a new layout is parsed part by part, and the content of each piece is in a zone that the old text
//! has too. Tests of the bytes decide whether a content can have other delimiters, and these tests agree with the grammar
//! (`DelimiterFacts`). Fields are written name by name in the order of the style, and they parse in that order (`OrderFacts`).
#![tactic(auto)]

mod comments;
mod delimiters;
mod entries;
mod fields;
pub mod formatting;
mod gaps;
pub mod laws;
mod layout;
mod lowercase;
mod order;
mod pieces;
pub mod style;
