//! Records of RIS as entries.
//!
//! RIS is the text format that reference managers and publishers export.
//!
//! `lines` parses the lines of a text, and `sections` finds the records among them. `types` and `tags` choose the item type of a record and
//! the variable of each line, and `variables` finds the lines of a variable. `members` and `text_members` make the members of an item,
//! `names` and `dates` parse their contents, and `items` makes the items of all records. `converting` writes them as entries, in the same
//! way as items of CSL-JSON, and `outside` finds the lines that are in no record.
#![tactic(auto)]

pub mod converting;
mod cuts;
mod dates;
mod items;
pub mod lines;
mod members;
mod names;
mod outside;
pub mod sections;
mod tags;
mod text_members;
mod types;
pub mod variables;
