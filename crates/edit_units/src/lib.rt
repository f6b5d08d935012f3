//! The units of a file: the parts that a comparison or a merge of files keeps together.
//!
//! A unit is a line with blocks and the lines directly above it, or else one or more lines without blocks, up to a blank line or the end. The
//! text of a unit is a file by itself, with the content that it has in the whole (`laws::units_are_parts`). Texts with a line feed between
//! them have the content of all of them, in order (`laws::parts_are_read`). So units can be left out, replaced and reordered.
#![tactic(auto)]

pub mod laws;
pub mod texts;
pub mod units;
