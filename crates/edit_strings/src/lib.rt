//! Expands the abbreviations of a bibliography file, and replaces repeated texts by abbreviations. A text for which a definition can be
//! reused gets the name of that definition, and another text a new one. `left_references` finds the references that stay although their
//! entries get new keys, since their values aren't one literal.
//!
//! A name is expanded by its last definition before the use, so the pieces of a definition only refer to earlier definitions. Their
//! indices are looked up once. A value is expanded by a stack of the pieces that are still to expand. The entries are visited in the
//! order of the file, with a map from each name to the index of its last definition so far.
//!
//! To collect texts, a map counts how often each text occurs, and each candidate name is checked against the set of taken names. The new
//! `@string` lines are written before the first entry.
//!
//! Each replaced value is one edit of the text. All edits are applied in one pass, and the new text isn't parsed again. The
//! proof of its reading takes the edits as changes of entries (`ExchangedFacts`), with the lemmas of `edit_entries` about such
//! changes. A copied piece was parsed at some place of the file. It parses in the same way wherever its bytes occur before a
//! character that can't continue a name or a number (`ElementFacts`).
#![tactic(auto)]

mod collected;
pub mod collecting;
mod definitions;
pub mod elements;
pub mod errors;
pub mod expanding;
mod known;
pub mod left_references;
mod naming;
mod taken;
mod texts;
mod written;
