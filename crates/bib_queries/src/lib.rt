//! Finds entries by key, by field or by the citations of a document, and returns their source text.
//!
//! A file is parsed with `RawBibliography::recover`, so a file with errors has excerpts too. `known` uses `recover_parts`, so an
//! entry with a syntax error has names too. Excerpts are slices of the text: an entry is a block of the file grammar at its
//! offset, and a definition is a field at its offset.
//!
//! Entries and abbreviations are nodes: they have names and refer to names. `needed` marks the needed nodes. Its map
//! contains the indices of the nodes with each name. Its stack contains the marked nodes whose references are not
//! looked up yet. Looking up a name removes it from the map, so that its indices are visited only once.
//!
//! `balance`, `bytes` and `quotes` test texts for edits and findings: whether braces are balanced, which bytes are at byte offsets, and
//! whether the end of a text in quotes depends on the program. `equal_values` compares the values of fields.
#![tactic(auto)]

pub mod balance;
pub mod bytes;
pub mod citations;
mod cited;
mod elements;
pub mod equal_values;
pub mod excerpts;
pub mod known;
pub mod laws;
pub mod line_ends;
pub mod lines;
pub mod names;
mod needed;
mod preambles;
pub mod quotes;
pub mod request;
mod sets;
pub mod sources;
mod unread;
