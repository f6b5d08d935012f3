//! The commands of `bibkit`, from the words of the command line to the status.
//!
//! `arguments` parses the words, and `start` runs their command. The program `bibkit` only calls `start`, because a library is proved
//! faster than a program, which reads the code of all libraries below it.
#![tactic(auto)]

mod argument_values;
mod arguments;
mod convert_arguments;
mod converting;
mod differing;
mod document;
mod edit_arguments;
mod edits;
mod files;
mod fixes;
mod fixing;
mod formatting;
mod importing;
mod joining;
mod lint_arguments;
mod merging;
mod misspellings;
mod readable;
mod reading_arguments;
mod recoding;
mod refusals;
mod rekeying;
mod removing;
mod replacing;
mod resolving;
mod rewriting;
mod selecting;
mod several;
pub mod start;
mod stops;
mod unsetting;
