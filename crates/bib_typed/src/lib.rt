//! Typed values: parsing the chunks of a field as a value, writing a value as chunks, and getting and setting typed fields of
//! a map.
//!
//! In an impl of `Type`, `reads` is the value that chunks are parsed as, and `may_refuse` the kinds of errors that parsing
//! may return. `writes` is the chunks that a value is written as, and `kept` tells for which values the law `survives`
//! holds. This law states that the chunks written for a kept value parse back to the same value. So `get_as` and `set_as`
//! are proved once for any type, and so is `PermissiveType`. The impls are short, because the parsers and their lemmas are
//! in the crates of the types. Written chunks have no span in a file, except for chunks that are part of the value.
//!
//! `retrieval` defines the errors of getting a field, `reading` parses a field of a map as a typed value, and `setting` sets
//! a field to one. `ext` has methods on lists of chunks.
#![tactic(auto)]

mod dates;
mod enums;
pub mod ext;
pub mod laws;
mod lists;
mod numbers;
mod people;
mod ranges;
pub mod reading;
pub mod retrieval;
pub mod setting;
pub mod typed;
