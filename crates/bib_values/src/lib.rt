//! Parses numbers, ranges, texts and values of enumerations from chunks, and writes them as chunks.
#![tactic(auto)]

pub mod enums;
pub mod laws;
pub mod lists;
pub mod numbers;
pub mod ranges;
mod roman;
mod text;
