//! The contents of a text in a field: how it is cut into units, and the meaning of units, commands and accents.
//!
//! A piece of a value is cut into *units*: hyphens, white space, braces, escaped characters, math, commands with any argument,
//! other backslashes, and single characters. `characters` is a cursor whose contracts speak of the characters
//! that are left. So other files rarely deal with UTF-8: units consist of characters, and spans are in bytes. `units`
//! parses one unit and does not allocate. `contents` goes from unit to unit and appends the text of each to the open
//! chunk (`growing`), which a brace or math finishes. Plain characters are written in whole runs (`plain`), without a
//! unit for each. `commands` is the table of commands, and `accents` that of accents.
//!
//! The invariant of each loop has two directions. A parse of the rest of a text gives a parse of the whole, and a parse
//! of the whole gives one of the rest. Since a text has at most one parse, the result is the only one.
//!
//! `arguments` parses a command's argument in braces without recursion. Nested arguments are a stack of frames, and all
//! of them are written to the end of one text. When an argument ends, its command is applied to the end of that text.
//! Text outside braces in an argument is put on one line. So in an argument that is nested there, line breaks in math and
//! after kept backslashes are replaced at once (`writing`). If an argument contains braces, `ends` finds the offset of each
//! closing brace once, so the text of a nested argument isn't searched again. So time and memory are linear in the
//! text, however deep commands are nested.
#![tactic(auto)]

pub mod accents;
mod arguments;
mod characters;
pub mod classes;
mod commands;
pub mod contents;
mod ends;
mod errors;
mod growing;
pub mod laws;
mod plain;
mod units;
mod writing;
