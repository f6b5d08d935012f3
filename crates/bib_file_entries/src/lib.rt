//! Loads the entries of a file, each with its own fields, and the names that they claim.
//!
//! `loading` converts a raw entry to an entry. It parses each field with one `FieldReader`, and sorts the fields once into a map.
//! `reading` converts all raw entries, frees each afterwards, and reports a key that was claimed before. `Claims` keeps the
//! claimed names in a tree, and returns them in order at the end. Loading is therefore not quadratic for any order of the keys,
//! and the tree stores each name once. `claiming` finds the names that an entry claims. The definitions in `Loaded` describe the
//! entries in terms of the grammar, not of the data structures. The private definitions in `Loading` say the same in terms of
//! the data structures, and lemmas connect them.
//!
//! `keeping` does the same for a file with errors. It continues after a key that was claimed before and after a field that
//! can't be parsed. It collects the errors, and replaces an undefined abbreviation in a field by its name as text. It
//! borrows the raw entries, which contain the spans of the errors. It copies only the fields with an undefined abbreviation.
#![tactic(auto)]

pub mod claiming;
pub mod keeping;
mod loading;
pub mod reading;
