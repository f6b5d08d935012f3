//! The source of a bibliography file together with its raw reading, and edits of its entries, fields and keys.
//!
//! An edit finds its stretch by the spans of the raw reading, and copies the text around it. The new text isn't parsed again: its reading
//! is proved from the file grammar. The old and the new text have the same bytes before the stretch and after it; each such part is a
//! *zone* (`ZoneFacts`). A rule of the grammar that holds in a zone of one text holds in the other, with its byte offsets moved
//! (`GrammarFacts`, one lemma per rule). A condition on the character after a run (no white space, no `%`) is only checked at the end of
//! a zone. A file is split at an entry, and an entry at a field (`SplitFacts`); the parts are joined again around the new one
//! (`EntryFacts`).
//!
//! Several stretches are replaced in one pass over the text (`StretchFacts`). The reading is proved change by change, from the last to the
//! first. The document agrees with the old one before its first change (`AgreementFacts`), so the parts before it keep their byte offsets
//! (`ChangedFacts`).
#![tactic(auto)]

mod adding;
mod braces;
mod definitions;
pub mod document;
pub mod editing;
pub mod errors;
pub mod field_edits;
pub mod field_value;
mod firsts;
mod joining;
mod keys;
pub mod laws;
pub mod layout;
pub mod line_ends;
pub mod lookup;
mod names;
pub mod new_keys;
pub mod references;
mod removing;
mod renaming;
mod selected;
mod setting;
mod taken;
mod unsetting;
pub mod values;
