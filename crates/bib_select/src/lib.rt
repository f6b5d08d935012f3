//! Conditions on entries: parses a condition such as `type = article and year >= 2000`, and decides whether an entry meets it.
//!
//! `tokens` cuts the text of a condition into words, quoted texts and signs. `conditions` cuts the tokens at `or` into alternatives,
//! and each alternative at `and` into terms; `segments` has the tokens between two such words. `terms` parses a term: a test, or `not`
//! and a test. `compiling` compiles regular expressions and looks up entry types. `selection` has the parsed condition, and decides
//! whether an entry meets it. `years` returns the year of an entry.
//!
//! The tokens are cut before anything else, and each segment is parsed by itself. So a condition is defined on lists of tokens, and
//! only tokens are a relation between places in a text. An alternative contains no other condition, so nothing
//! recurses.
#![tactic(auto)]

mod compiling;
mod conditions;
pub mod errors;
pub mod laws;
mod parsing;
mod segments;
pub mod selection;
mod terms;
mod tokens;
mod years;
