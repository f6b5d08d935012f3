//! Sorted maps by text, names that point to the indices of entries, and a topological order of references.
//!
//! A `TextMap` is a sorted vector of names and values, and `Names` of names and indices of entries. For the few fields of an
//! entry, a vector takes less memory than a tree. `sorted` contains the look-ups in both. `TextMap::get` and the
//! functions that call it compare the names one by one if there are at most 16, because most differ in length. Other look-ups are
//! binary searches. `Claims` is a tree, because a sorted vector would on average move half of its names for each key of a file
//! whose keys are in random order.
//!
//! `worklist` orders entries such that each comes after all that it refers to. For each entry, it counts the references to
//! entries that aren't done, and lists the entries that wait for it. An entry with a count of 0 is done, and lowers the
//! counts of the entries that wait for it.
//!
//! One entry *leads* to a second one if a chain of one or more references goes from it to the second. Both may be the same. If
//! some entries are never done, `cycles` finds those that lead to themselves. A depth-first search against the direction of the
//! references leaves the entries in some order. In the reverse of this order, a search along the references starts at each
//! entry without a mark. It marks the entries without a mark that the start leads to. The start is the root of these
//! entries. A walk back from the root, among the entries with this root, finds those that lead to the root. Since the root
//! leads to them, they lead to themselves.
//!
//! It isn't proved that these searches decide every entry, so a separate search would start from each undecided one. If there
//! is none, the time is linear in the number of entries and references. No function is recursive.
#![tactic(auto)]

pub mod claims;
mod cycles;
pub mod names;
mod sorted;
pub mod text_map;
pub mod worklist;
