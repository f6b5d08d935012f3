//! Sorts the entries of a bibliography file. Each entry moves together with the comment before it, and all other text stays.
//!
//! The gap between two entries is cut into a space, which stays, and a comment, which moves. An at sign in a gap begins a new run, and no
//! entry leaves its run. Entries are sorted once, by run, rank, place and position, and written after the spaces in the order of the file.
//! Entries with one key, in any ASCII case, keep their order, because each has the rank and the place of the first one.
//!
//! The rank of an entry is the length of the longest chain of `crossref`s that leads to it (`ranks`). Keys become indices, and all entries
//! with one key, in any ASCII case, share one index. The references of indices on cycles are removed, so the indices have a topological
//! order. In this order, the length at an index is 0, or one more than the greatest length at the indices of its children. On a cycle it is
//! the number of indices, which no length exceeds. This takes time linear in the number of entries and references, except for the lookups
//! of keys.
//!
//! The new text isn't parsed. Its raw reading is proved from the file grammar. A comment, and a space without an at sign, are
//! plain: they contain no at sign and end each of their line comments (`PlainFacts`). So they parse to the empty reading
//! anywhere. Every other space is a zone of both texts, and so is each entry. Such a space extends to the at sign of an entry,
//! or to plain text after a line feed. No block is open at that line feed, since it would have to end by a closing brace or a
//! quote in the plain text (`FeedFacts`).
#![tactic(auto)]

mod crossrefs;
mod gaps;
mod items;
pub mod laws;
mod ranks;
pub mod sorting;
