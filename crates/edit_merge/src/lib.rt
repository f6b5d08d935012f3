//! Merges three versions of a file by units: a common base, and two sides that changed it.
//!
//! A unit is found in the other versions by its name (`edit_versions`). `picking` chooses for each name what the merge has; several units
//! with one name are chosen together (`groups`). `order` puts the names of both sides in one order (`slots`). `lost` finds the names that the
//! picked units use and don't define (`names`), although each side is right, and makes the places with their definitions conflicts. `merging`
//! writes the picked units, with white space between them (`spaces`). If one side is unchanged, the merge is the text of the other side
//! (`laws::unchanged_theirs_gives_ours`).
#![tactic(auto)]

pub mod entries;
mod groups;
pub mod laws;
mod lost;
pub mod merging;
mod names;
mod order;
pub mod picking;
pub mod renames;
pub mod slots;
mod spaces;
