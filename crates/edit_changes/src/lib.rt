//! The changes from one version of a file to another one, by unit and by field.
//!
//! A unit of the new version is compared with the unit of the old version that has its name. An entry whose name the old version lacks is
//! compared with the entry that it was renamed from, if there is one. `renames` finds the renamed entries. `blocks` finds the only entry or
//! the definitions of a unit, and `fields` compares them by field. `changes` returns the list of all changes, and `laws` says when it is
//! empty except for layout.
#![tactic(auto)]

mod blocks;
pub mod changes;
pub mod fields;
pub mod laws;
mod orders;
pub mod renames;
