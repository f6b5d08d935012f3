//! Entries as items of CSL-JSON, the input of citation processors (Citation Style Language 1.0.2).
//!
//! An item has a type and a list of variables. Each group of variables has a module, whose calls append the variables of the group that an
//! entry has. `making` makes these calls one after another. Texts come from `texts` and `markup`, names from `people`, dates from `dates`.
//! `objects` returns the text of an item as JSON: `members` puts its members in the order of their names, and `writing` writes it token
//! by token. `sentence_items` changes the titles of an item to sentence case, by the rules in `sentence`.
//!
//! `item_types` has the table of types, and `variables` has the table of variables, with one row each. `bib_from_csl` reads the same tables
//! to convert items to entries. `named` searches tables of texts.
#![tactic(auto)]

mod adding;
mod command_names;
mod commands;
pub mod dates;
mod fields;
pub mod identifiers;
pub mod item;
pub mod item_types;
pub mod laws;
pub mod making;
pub mod markup;
mod members;
pub mod named;
pub mod notes;
mod numbers;
pub mod objects;
pub mod people;
pub mod publishing;
pub mod sentence;
pub mod sentence_items;
pub mod sentence_laws;
mod standing;
pub mod tags;
pub mod texts;
mod titles;
pub mod types;
pub mod variables;
mod ways;
mod writing;
