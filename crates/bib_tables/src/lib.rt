//! The tables of BibTeX and BibLaTeX: entry types, required fields, the names of both dialects, verbatim fields, months, small
//! enumerations and languages. Also the errors of typed values.
//!
//! `mechanics` has the entry types and the fields that each requires, allows and forbids. An entry type may contain a text, so the
//! table of their names can't be a constant. It is a macro that expands to a `match`, for example from types to names or from
//! names to types. `EntryType::new` first looks a name up without changing its case, so it doesn't allocate for the exact name
//! of a type. `types` has the enumerations. Languages are rows of a constant table, in the order of the variants. `months`
//! has the months. `dialects` maps the types and the names of fields of each dialect to those of the other. `fields` has
//! the verbatim fields and the reference fields. `type_error` has the reasons why chunks aren't a value of a type.
#![tactic(auto)]

pub mod dialects;
pub mod fields;
pub mod mechanics;
pub mod months;
pub mod type_error;
pub mod types;
