//! The commands that print findings, keys, entries and counts of files.

use crate::commands::arguments::{Argument, Choice, Flag, Row, Takes};
use crate::commands::shared::WHERE;

// The text at the end of the help of `lint`.
const LINT_HELP: &str = "\
Findings are lines FILE:LINE:COLUMN: error|warning|info: TEXT [CODE]. A file bibkit.toml in the folder of the first file, or in one
above it, has the settings of a project: ignore, only, color, format, fail-on and the table own.

Several files are one database. A file can use the definitions and the entries of the others. An entry is a duplicate if an entry of an
earlier file has its key. With --each, each file is a database of its own.

A code can have a field: missing-field:year means the findings whose text contains the word year. A line of a file that begins with
`% bibkit: off ` lists codes that aren't reported for it, separated by commas.

--where leaves out findings that are about no entry, such as bytes that aren't UTF-8. It keeps a finding about two entries, such as a
duplicate, if one of them meets the conditions. `bibkit help select` has the conditions.

--fix mends misspelled field names (unknown-field) and DOIs with an address (doi-address), each file by itself. It prints the findings that
stay on standard error. It makes no edit that leads to a new finding.

Examples:
  bibkit lint --ignore unknown-field refs.bib
  bibkit lint --fix --write refs.bib
  bibkit lint --where 'year >= 2020' refs.bib

Status: 0 no finding of at least the severity of --fail-on, 1 such a finding, 2 wrong usage, or a file or the output failed, 3 out of
memory";

// The arguments of `lint`.
const LINT: [Argument; 15] = [
    Argument {
        name: "only",
        takes: Takes::Codes,
        help: "Report only these codes, such as missing-field or missing-field:publisher, separated by commas",
    },
    Argument {
        name: "ignore",
        takes: Takes::Codes,
        help: "Don't report these codes, such as not-a-number or not-a-number:volume, separated by commas",
    },
    Argument {
        name: "baseline",
        takes: Takes::Baseline,
        help: "Don't report the findings in this file: the output of an earlier run",
    },
    Argument {
        name: "format",
        takes: Takes::Choice(Choice::Format),
        help: "Print findings in this format [default: text]",
    },
    Argument {
        name: "fail-on",
        takes: Takes::Choice(Choice::FailOn),
        help: "Status 1 for findings of at least this severity [default: warning]",
    },
    Argument {
        name: "color",
        takes: Takes::Choice(Choice::Color),
        help: "When to print colours and source excerpts",
    },
    Argument {
        name: "explain",
        takes: Takes::Choice(Choice::Code),
        help: "Explain a code, and read no file",
    },
    Argument {
        name: "cited",
        takes: Takes::Document,
        help: "Report keys that this .aux or .bcf file cites and no file contains",
    },
    Argument {
        name: "unused",
        takes: Takes::Flag(Flag::Beside("cited")),
        help: "Report entries that the document doesn't cite",
    },
    Argument {
        name: "each",
        takes: Takes::Flag(Flag::Plain),
        help: "Check each file by itself, not all files as one database",
    },
    Argument {
        name: "where",
        takes: Takes::Condition,
        help: "Only findings about entries that meet this condition, and those of all other --where",
    },
    Argument {
        name: "stdin-filename",
        takes: Takes::InputName,
        help: "Name of standard input in findings; the settings are those of a file with this name",
    },
    Argument {
        name: "fix",
        takes: Takes::Flag(Flag::Against(&["cited"])),
        help: "Mend findings with one right remedy, print the new texts, and report what stays",
    },
    Argument {
        name: "write",
        takes: Takes::Flag(Flag::Beside("fix")),
        help: "Write the new texts to the files instead of printing them",
    },
    Argument {
        name: "diff",
        takes: Takes::Flag(Flag::BesideAfter("fix", "write")),
        help: "Print diffs instead of the new texts",
    },
];

// The arguments of `keys`.
const KEYS: [Argument; 1] = [WHERE];

// The arguments of `get`.
const GET: [Argument; 2] = [
    Argument {
        name: "KEYS",
        takes: Takes::Texts,
        help: "Keys, separated by commas",
    },
    WHERE,
];

// The text at the end of the help of `select`.
const SELECT_HELP: &str = "\
A condition consists of tests with `and`, `or` and `not`. A test is `has FIELD`, or compares `type`, `key`, `year` or a field by `=` or
`!=`. A key and a field are also compared by `contains` and by `~` with a regular expression, and a year by `<`, `<=`, `>` and `>=`.

Examples:
  bibkit select --where 'type = article and year >= 2000' refs.bib
  bibkit select --where 'author ~ Knuth' --where 'not has doi' --keys refs.bib
  bibkit select --where 'type = article' --complete refs.bib | bibkit convert --to csl

Status: 0 done, 1 no entry meets the conditions or a block is skipped, 2 wrong usage, or a file or the output failed, 3 out of memory";

// The arguments of `select`.
const SELECT: [Argument; 3] = [
    WHERE,
    Argument {
        name: "complete",
        takes: Takes::Flag(Flag::Plain),
        help: "Print also the definitions, preambles and entries that they use",
    },
    Argument {
        name: "keys",
        takes: Takes::Flag(Flag::Plain),
        help: "Print only the keys of the entries",
    },
];

// The arguments of `grep`.
const GREP: [Argument; 2] = [
    Argument {
        name: "FIELD",
        takes: Takes::Text,
        help: "The name of a field, in any case",
    },
    Argument {
        name: "TEXT",
        takes: Takes::Text,
        help: "The text to search for in its value, as it is in the file",
    },
];

// The arguments of `cited`.
const CITED: [Argument; 1] = [Argument {
    name: "DOCUMENT",
    takes: Takes::Text,
    help: "The .aux or .bcf file that LaTeX wrote for the document",
}];

/// The commands, in the order of help.
pub static SEARCHING: [Row; 7] = [
    Row {
        name: "lint",
        about: "Report errors and likely mistakes in files",
        help: LINT_HELP,
        arguments: &LINT,
    },
    Row {
        name: "keys",
        about: "Print the key of each entry",
        help: "`bibkit help select` has the conditions of --where.\n\nExamples:\n  bibkit keys refs.bib\n  bibkit keys --where 'year >= 2000' refs.bib\n\nStatus 1 if no entry meets the conditions, or for a skipped block",
        arguments: &KEYS,
    },
    Row {
        name: "get",
        about: "Print the entries with these keys, unchanged",
        help: "`bibkit help select` has the conditions of --where.\n\nExample:\n  bibkit get tolkien1937,knuth1984 refs.bib\n\nStatus 1 if no entry has any of the keys and meets the conditions, or for a skipped block",
        arguments: &GET,
    },
    Row {
        name: "select",
        about: "Print the entries that meet a condition, unchanged",
        help: SELECT_HELP,
        arguments: &SELECT,
    },
    Row {
        name: "grep",
        about: "Print the entries with a text in a field, unchanged",
        help: "Example:\n  bibkit grep author Knuth refs.bib\n\nStatus 1 if there is no such entry, or for a skipped block",
        arguments: &GREP,
    },
    Row {
        name: "cited",
        about: "Print the entries that a document cites, unchanged",
        help: "Without FILE, reads the .bib files that the document names.\n\nExample:\n  bibkit cited thesis.bcf >cited.bib\n\nStatus 1 if no cited entry is found, or for a skipped block",
        arguments: &CITED,
    },
    Row {
        name: "stats",
        about: "Count entries by type and year, fields by name, and findings by code",
        help: "Example:\n  bibkit stats refs.bib",
        arguments: &[],
    },
];
