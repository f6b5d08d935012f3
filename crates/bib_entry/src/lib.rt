//! Entries of a bibliography, with getters and setters for typed values of their fields.
//!
//! Each getter or setter in `fields` is one line: a getter calls `chunks_of_field`, `chunks_of_either`, `get_as` or
//! `get_as_or`, and a setter `set` or `set_as`. A getter with the parameter `alloc` also fails if out of memory.
//! `write_entry` appends an entry to a text in either dialect. The functions of `biblatex` that return texts or pass them to
//! a sink are a few lines around `write_entry`. `dates`, `editors` and `parents` have the getters that combine several fields.
//! `report` finds missing, superfluous and malformed fields. Section numbers of the BibLaTeX manual are those of its version 3.18.
#![tactic(auto)]

mod dates;
mod editors;
pub mod entry;
mod fields;
pub mod parents;
pub mod report;
pub mod write;
