//! Chunks of normal text, verbatim text and math, and the styled text that they form.
//!
//! `chunk` makes, formats, cuts and writes chunks. `joining` appends chunks and merges neighbours that are both normal or both
//! verbatim. `lists` splits a comma list in its styled text. `settling` decides whether chunks are settled. If they are, they
//! parse back to the same styled text once they are written.
#![tactic(auto)]

pub mod chunk;
pub mod joining;
pub mod laws;
pub mod lists;
pub mod settling;
