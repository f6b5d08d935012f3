//! Writes the fields that entries inherit into the entries of a file, as BibLaTeX has them.
//!
//! The parents of an entry are found by the keys in its `crossref` and `xdata` (`file`, `parents`). The references form a graph over the
//! indices of the entries. The entries are visited in a topological order of this graph, so the fields of its parents are known when an
//! entry inherits from them (`turns`). `inheritance` contains the tables of BibLaTeX: the name that a field of a parent gets in an entry.
//! `giving` finds the fields that take the places of own ones, and `gathering` the offered fields that the entry lacks. `edits` replaces
//! own fields and references by them. `uninherited` finds the fields of parents that entries lack after that.
//!
//! The new text isn't parsed again. The edits are *changes of entries* of `edit_entries`, whose theorem states the reading of the text.
#![tactic(auto)]

mod edits;
pub mod errors;
mod file;
mod gathering;
mod giving;
pub mod inheritance;
mod names;
pub mod parents;
pub mod resolving;
mod texts;
mod turns;
pub mod uninherited;
