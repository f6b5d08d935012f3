//! The commands that read several versions of a file.

use crate::commands::arguments::{Argument, Choice, Flag, Row, Takes};

// The text at the end of the help of `diff`.
const DIFF_HELP: &str = "\
Takes two files, the old and the new version. Compares entries by their keys and fields by their names. Prints the entries, definitions and
comments that were added, removed or changed, and entries with another key. White space, the delimiters of values and the order of fields
don't count.

Examples:
  bibkit diff old.bib new.bib
  git config diff.bibtex.command 'bibkit diff --git'

Status: 0 no change other than of the layout, or --git, 1 changes, 2 wrong usage, or a file has an error or failed, 3 out of memory";

// The text at the end of the help of `merge`.
const MERGE_HELP: &str = "\
Takes three files: the common base, our version and their version. Finds entries by their keys, and merges an entry that both sides changed by
its fields. A conflict has marker lines around the lines in which both sides differ, and a message on standard error. `merge --install`
prints the commands that make `bibkit merge` the merge driver of a git repository.

Examples:
  bibkit merge base.bib ours.bib theirs.bib
  bibkit merge --install | sh

Status: 0 merged, 1 conflicts, 2 wrong usage, or a file has an error or a conflict marker, or a file or the output failed, 3 out of memory";

// The arguments of `merge`.
const MERGE: [Argument; 4] = [
    Argument {
        name: "path",
        takes: Takes::FileName,
        help: "The name of the file in messages [default: that of our version]",
    },
    Argument {
        name: "marker-size",
        takes: Takes::MarkerSize,
        help: "The number of signs in the marker lines of a conflict [default: 7]",
    },
    Argument {
        name: "write",
        takes: Takes::Flag(Flag::Plain),
        help: "Replace the file with our version instead of printing the text",
    },
    Argument {
        name: "install",
        takes: Takes::Flag(Flag::Against(&["path", "marker-size", "write"])),
        help: "Print the commands that install the merge driver in the git repository of this folder",
    },
];

// The arguments of `diff`.
const DIFF: [Argument; 2] = [
    Argument {
        name: "format",
        takes: Takes::Choice(Choice::Changes),
        help: "The format of changes [default: text]",
    },
    Argument {
        name: "git",
        takes: Takes::Flag(Flag::Against(&["format"])),
        help: "Take the arguments that git passes to an external diff command",
    },
];

/// The commands that read several versions of a file.
pub static VERSIONS: [Row; 2] = [
    Row {
        name: "diff",
        about: "Print the changes from one version of a file to another one",
        help: DIFF_HELP,
        arguments: &DIFF,
    },
    Row {
        name: "merge",
        about: "Merge three versions of a file",
        help: MERGE_HELP,
        arguments: &MERGE,
    },
];
