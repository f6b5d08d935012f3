//! Three examples of docs/LIBRARY.md as tests, proved like the code of a user: parsing, changing, and porting code that was
//! written for the Rust crate. The other Rattle examples, except for the first one, are tests in tests/src/guide.rs.
#![tactic(auto)]

#[cfg(test)]
mod change;
#[cfg(test)]
mod porting;
#[cfg(test)]
mod read;
