//! The commands that print files in another form.

use crate::commands::arguments::{Argument, Choice, Flag, Row, Takes};
use crate::commands::shared::{DIFF, WHERE};

// The text at the end of the help of `fmt`.
const FMT_HELP: &str = "\
Writes each entry with its type and field names in lowercase letters, one field per line, and values unchanged. Keeps all other text, and
entries that contain a comment or a text whose braces don't balance. A table [fmt] in a file bibkit.toml in the folder of the first file, or
in one above it, has the style of a project: indent, align, trailing-comma, blank-lines, delimiters, order, width and sort.

Example:
  bibkit fmt --align --write refs.bib

Status: 0 done, 1 a file isn't in this style (--check) or has errors, 2 wrong usage, or a file or the output failed, 3 out of memory";

// The arguments of `fmt`.
const FMT: [Argument; 13] = [
    Argument {
        name: "indent",
        takes: Takes::Choice(Choice::Indent),
        help: "Spaces before a field [default: 2]",
    },
    Argument {
        name: "align",
        takes: Takes::Flag(Flag::After("no-align")),
        help: "Align the equals signs of an entry",
    },
    Argument {
        name: "no-align",
        takes: Takes::Flag(Flag::After("align")),
        help: "Don't align the equals signs (overrides bibkit.toml)",
    },
    Argument {
        name: "trailing-comma",
        takes: Takes::Flag(Flag::After("no-trailing-comma")),
        help: "Write a comma after the last field (overrides bibkit.toml)",
    },
    Argument {
        name: "no-trailing-comma",
        takes: Takes::Flag(Flag::After("trailing-comma")),
        help: "Write no comma after the last field of an entry",
    },
    Argument {
        name: "blank-lines",
        takes: Takes::Choice(Choice::BlankLines),
        help: "Blank lines between entries with only white space between them",
    },
    Argument {
        name: "delimiters",
        takes: Takes::Choice(Choice::Delimiters),
        help: "Write texts in braces or in quotes if possible",
    },
    Argument {
        name: "order",
        takes: Takes::FieldNames,
        help: "Write these fields first in each entry, in this order",
    },
    Argument {
        name: "width",
        takes: Takes::Width,
        help: "Break longer lines between joined texts; 0 is no limit",
    },
    Argument {
        name: "sort",
        takes: Takes::Order,
        help: "Sort the entries by key, year, author, title or type, or by several of them, such as author,-year; keep doesn't sort [default: keep]",
    },
    Argument {
        name: "check",
        takes: Takes::Flag(Flag::Plain),
        help: "List the files that aren't in this style, and change nothing",
    },
    Argument {
        name: "write",
        takes: Takes::Flag(Flag::Plain),
        help: "Write the new texts to the files instead of printing them",
    },
    DIFF,
];

// The text at the end of the help of `convert`.
const CONVERT_HELP: &str = "\
csl, json and ris print the entries of all files, or those that meet --where, with inherited fields: by the rules of BibLaTeX for csl and
ris, and by those of `bib` for json, which has byte offsets of the file. --where requires one of these three. A file with errors is printed
as far as it can be parsed, and each error is reported. Several files are one database.

biblatex and bibtex change dates and the names of types and fields, and keep all other text. A file with errors is not printed, and its
first error is reported. --from csl converts each item of CSL-JSON to an entry, and --from ris each record of RIS. What is lost or changed is
reported. --from json converts the output of --to json back to entries. Without --from, files whose names end in .json or .ris are read as
CSL-JSON or RIS.

Examples:
  bibkit convert --to csl refs.bib >refs.json
  bibkit convert --to bibtex refs.bib >old.bib
  bibkit convert --to biblatex refs.json >refs.bib

Status: 0 done, 1 a file has errors or no entry meets --where, 2 wrong usage, or a file or the output failed, 3 out of memory";

// The arguments of `convert`.
const CONVERT: [Argument; 4] = [
    Argument {
        name: "to",
        takes: Takes::Choice(Choice::Target),
        help: "CSL-JSON, JSON, RIS, or the types and fields of BibLaTeX or BibTeX",
    },
    Argument {
        name: "from",
        takes: Takes::Choice(Choice::Source),
        help: "Bibliography files, CSL-JSON, RIS, or the JSON of --to json [default: csl for names that end in .json, ris for .ris]",
    },
    Argument {
        name: "sentence-case",
        takes: Takes::Flag(Flag::Plain),
        help: "Write English titles in sentence case, as CSL recommends; requires --to csl",
    },
    WHERE,
];

// The text at the end of the help of `resolve`.
const RESOLVE_HELP: &str = "\
Replaces the references of each entry (crossref, xdata) by the fields that it inherits by BibLaTeX's rules, with their text from the file.
Keeps references to unknown keys, the entries that are referred to, and all other text. --not-inherited prints a note for each entry that
is referred to and has fields that aren't inherited, such as options, if the entry with the reference lacks them.

Examples:
  bibkit resolve --write refs.bib
  bibkit resolve --not-inherited refs.bib >resolved.bib

Status: 0 done, 1 a file has errors, 2 wrong usage, or a file or the output failed, 3 out of memory";

// The arguments of `resolve`.
const RESOLVE: [Argument; 3] = [
    Argument {
        name: "not-inherited",
        takes: Takes::Flag(Flag::Plain),
        help: "Report the fields that entries don't inherit from the entries they refer to",
    },
    Argument {
        name: "write",
        takes: Takes::Flag(Flag::Plain),
        help: "Write the new texts to the files instead of printing them",
    },
    DIFF,
];

/// The commands, in the order of help.
pub static CONVERTING: [Row; 3] = [
    Row {
        name: "fmt",
        about: "Print files in one style",
        help: FMT_HELP,
        arguments: &FMT,
    },
    Row {
        name: "convert",
        about: "Print files in another format",
        help: CONVERT_HELP,
        arguments: &CONVERT,
    },
    Row {
        name: "resolve",
        about: "Print files with inherited fields written out",
        help: RESOLVE_HELP,
        arguments: &RESOLVE,
    },
];
