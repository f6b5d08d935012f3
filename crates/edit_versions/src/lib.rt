//! Versions of a file: their units, the names by which a unit is found in another version, and which units are alike.
//!
//! `Version::parse` cuts a text into units (`edit_units`). `names` gives each unit a name that no other unit of the version has
//! (`laws::names_are_distinct`). `comparison` compares the units at two indices: `is_same` by their bytes, and `is_alike` except for their
//! layout.
#![tactic(auto)]

pub mod alike;
pub mod comparison;
pub mod laws;
pub mod names;
pub mod version;
