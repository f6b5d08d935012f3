//! Commands of `bibkit` on several versions of a file.
//!
//! `diff` prints the changes from one version to another one (`edit_changes`). `labels` has the names of units and the texts of values,
//! `lines` the lines of the output, and `objects` its JSON objects. `merging` merges three versions (`edit_merge`); `renaming` has the
//! versions after the renames of entries. `laws` states theorems about merges.
#![tactic(auto)]

pub mod diff;
mod facts;
mod labels;
pub mod laws;
mod lines;
pub mod merging;
mod objects;
mod renaming;
