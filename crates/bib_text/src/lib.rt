//! Texts, lists of values, values with their spans, a cursor over a text, and a test for balanced braces.
//!
//! Contracts see a `Scanner` as a *place*: a text and a byte offset. A grammar rule relates two places, and consecutive
//! rules share a place. Proofs of other crates therefore rarely need facts about UTF-8 or about the ends of lists.
//! `Scanner::cursor` also ensures that its offset is a character boundary. Since other crates do arithmetic on offsets, it also
//! ensures that the text is shorter than 2^63 bytes. `Scanner::at` is public because the parser needs it in many
//! functions. It doesn't move the scanner.
//!
//! `Text` wraps a `String` and `Items<T>` wraps a `Vec<T>`. Contracts see them as bytes and as a list. Wrapping and
//! unwrapping don't allocate.
#![tactic(auto)]

pub mod braces;
pub mod digits;
pub mod items;
pub mod scanner;
pub mod spanned;
pub mod text;
