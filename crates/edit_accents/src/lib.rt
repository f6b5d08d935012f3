//! Replaces LaTeX commands for accents and letters by characters in the values of entries, and such characters by commands.
//!
//! For characters, a text is cut into *signs* (`signs`): backslashes that begin commands, braces, and plain characters. The signs are
//! reduced from the last to the first (`decoding`), in place: a command that becomes a character takes the signs after it with it. So an
//! accent is put on a character that an inner command became, without recursion, and each sign is looked at a bounded number of times.
//! Then the signs are written (`writing`). The braces around such a character are kept only if a command may take them as an argument.
//!
//! For commands, each character of text becomes one (`encoding`) if it is a letter in `letter_name`. It also does if its canonical
//! decomposition is an ASCII letter or such a letter, and the mark of one accent. An i or a j with an accent that programs read in
//! different ways stays. Its stretch and the next character also decide whether a character stays.
//!
//! Each changed value is one edit of the text (`recoding`). The new text isn't parsed again. The definition `fit` tests the
//! braces and quotes of signs. Each step keeps the result of this test, so the new literals can be written with their delimiters.
#![tactic(auto)]

mod commands;
mod decoding;
mod encoding;
pub mod laws;
pub mod recoding;
pub mod signs;
pub mod writing;
