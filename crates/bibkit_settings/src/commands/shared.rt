//! The options that several commands have.

use crate::commands::arguments::{Argument, Flag, Takes};

/// The option that names the file to edit.
pub const FILE: Argument = Argument {
    name: "file",
    takes: Takes::EditedFile,
    help: "The file to edit [default: standard input]",
};

/// The flag that writes the file.
pub const WRITE: Argument = Argument {
    name: "write",
    takes: Takes::Flag(Flag::Beside("file")),
    help: "Write the new text to the file instead of printing it",
};

/// The flag that prints a diff.
pub const DIFF: Argument = Argument {
    name: "diff",
    takes: Takes::Flag(Flag::After("write")),
    help: "Print a diff instead of the new text",
};

/// The option that selects entries.
pub const WHERE: Argument = Argument {
    name: "where",
    takes: Takes::Condition,
    help: "Only entries that meet this condition, and those of all other --where",
};
