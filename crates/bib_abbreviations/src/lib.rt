//! The contents of fields: each literal is parsed by itself, and each abbreviation is replaced by its definition or by a month.
//!
//! A field consists of pieces: literals and names of abbreviations. `contents` of `bib_contents` parses each literal.
//! `abbreviations` expands names without recursion. It has a stack of frames, each with the remaining pieces of a
//! definition. A memo contains the defined names that occurred, with their chunks. If a name in the memo isn't done and
//! occurs again, there is a cycle. With one memo, each definition is parsed at most once, however often its name occurs. The
//! chunks of a name include those of the names in its definition, so a chain of names isn't copied at each link.
//!
//! `definitions` makes a sorted map of a file's definitions, and looks up names in it or in the map of the caller of `parse_field`. A
//! `FieldReader` has a sorted map. It keeps two memos from field to field, one for verbatim fields and one for others, since
//! a definition may have different chunks in each. An error empties the memo that was in use.
#![tactic(auto)]

mod abbreviations;
pub mod definitions;
pub mod laws;
pub mod parsing;
pub mod reader;
