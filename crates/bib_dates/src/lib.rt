//! Dates and times: how they are parsed from texts and from the chunks of fields, how they are written, and how they
//! are ordered.
//!
//! The definition of a date is a function from the bytes of a text to a value or an error. The kind of the error is
//! specified or not. The function consists of small ones. Many of them parse a part at the start of a text and return it with
//! the rest. For most of them the program has one function on a `&str`, whose contract says that both return the same.
//! So few of them need a proof file.
//!
//! The text of a date in one field is formatted once, put into upper case in place, and parsed without copying it. An error
//! of a text is a `ReadError`, which has no variant for out of memory. `Specified` contains a kind that the definition
//! specifies, `Unspecified` one that it leaves open. The functions on chunks turn it into a type error with a span.
//!
//! `parts` parses numbers, signs and hyphens, `times` the time after a day, `read` the sides of ranges, unknown digits
//! and marks, `fields` the three fields. `date` orders dates, and `write` writes them. The proof that a kept date parses from
//! its text speaks of the definitions only. Trimming and upper case change nothing in that text, and each part ends where the
//! next one begins.
#![tactic(auto)]

pub mod chunks;
pub mod date;
mod errors;
mod fields;
pub mod laws;
mod parts;
mod read;
pub mod separators;
mod times;
mod write;
