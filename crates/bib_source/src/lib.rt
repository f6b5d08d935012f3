//! Decodes the bytes of a file, finds lines and columns, and compares two texts.
//!
//! `decoding` decodes bytes as UTF-8 if they are valid UTF-8 after an optional UTF-8 byte order mark. Otherwise it decodes them as
//! Windows-1252, in which every byte is a character. So one invalid byte makes the whole file Windows-1252. No file is
//! rejected and no character is replaced.
//!
//! `positions` finds the line and the column of a byte.
//!
//! `unified_diff` returns the differences of two texts in the unified format. `lines` cuts a text into lines. `ends` finds the
//! lines that both texts begin and end with, and `partners` pairs equal lines between them. `comparison` merges the lines of
//! both texts into one list by these pairs. `hunks` cuts out the changed lines and their context. Which equal lines are paired
//! is a choice. For each choice, these facts are proved. The hunks turn the old text into the new one. Each line of a hunk is at
//! most three lines from a changed line of the hunk. The common start and the common end aren't shown as changed. In no run of
//! changed lines do the removed and the added lines begin or end with the same line.
#![tactic(auto)]

pub mod comparison;
pub mod decoding;
mod ends;
mod hunks;
pub mod laws;
mod lines;
mod partners;
pub mod positions;
pub mod unified;
pub mod windows_1252;
