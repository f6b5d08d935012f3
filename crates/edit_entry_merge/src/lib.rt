//! Merges three versions of an entry by its fields: the common base, and the two sides that changed it.
//!
//! `versions` finds the entry of each version and its fields by name. `choices` compares the three values of a field and chooses one side,
//! or neither if both sides changed the field differently. `modification_times` chooses one even then, if the field has the time of the last
//! change of the entry. `frames` compares the *frame*, the text outside of the fields: the text around the entry, its type, its key and the
//! comments in it. The text of the side whose frame is chosen is edited (`edits`): fields get the values of the other side, are removed, or
//! are added. `picks` says which. `merging` puts all of this together.
//!
//! The new text isn't parsed again. The edits are *changes of entries* of `edit_entries`, whose theorem states the reading of the text.
#![tactic(auto)]

pub mod choices;
mod closing;
pub mod conflict_text;
mod edits;
mod frames;
pub mod laws;
pub mod merging;
mod modification_times;
mod picks;
mod values;
mod versions;
