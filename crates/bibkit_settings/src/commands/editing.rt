//! The commands that edit a file.

use crate::commands::arguments::{Argument, Choice, Flag, Row, Takes};
use crate::commands::shared::{DIFF, FILE, WHERE, WRITE};

// The arguments of `edit`.
const EDIT: [Argument; 8] = [
    WHERE,
    Argument {
        name: "rename",
        takes: Takes::Pair("OLD=NEW"),
        help: "Rename a field, unless the entry has a field with the new name",
    },
    Argument {
        name: "set",
        takes: Takes::Pair("FIELD=VALUE"),
        help: "Set a field",
    },
    Argument {
        name: "add",
        takes: Takes::Pair("FIELD=VALUE"),
        help: "Add a field to entries that lack it",
    },
    Argument {
        name: "unset",
        takes: Takes::FieldNames,
        help: "Remove fields, but not all fields of an entry",
    },
    FILE,
    WRITE,
    DIFF,
];

// The arguments of `rekey`.
const REKEY: [Argument; 6] = [
    Argument {
        name: "pattern",
        takes: Takes::Pattern,
        help: "The pattern of the keys [default: {author}{year}{title:1}]",
    },
    Argument {
        name: "map",
        takes: Takes::Flag(Flag::Against(&["diff"])),
        help: "Print OLD,NEW for each key that changes instead of the new text",
    },
    Argument {
        name: "check",
        takes: Takes::Flag(Flag::Against(&["map", "write", "diff"])),
        help: "Report the keys that would change, and change nothing",
    },
    FILE,
    WRITE,
    DIFF,
];

// The arguments of `set`.
const SET: [Argument; 5] = [
    Argument {
        name: "KEY",
        takes: Takes::Text,
        help: "The key of an entry",
    },
    Argument {
        name: "FIELD=VALUE",
        takes: Takes::Words,
        help: "Field names with their values",
    },
    FILE,
    WRITE,
    DIFF,
];

// The arguments of `unset`.
const UNSET: [Argument; 5] = [
    Argument {
        name: "KEY",
        takes: Takes::Text,
        help: "The key of an entry",
    },
    Argument {
        name: "FIELDS",
        takes: Takes::WordsOrTexts,
        help: "Field names, in any case",
    },
    FILE,
    WRITE,
    DIFF,
];

// The arguments of `rename`.
const RENAME: [Argument; 5] = [
    Argument {
        name: "OLD",
        takes: Takes::Text,
        help: "The key of an entry",
    },
    Argument {
        name: "NEW",
        takes: Takes::Text,
        help: "Its new key",
    },
    FILE,
    WRITE,
    DIFF,
];

// The arguments of `remove`.
const REMOVE: [Argument; 5] = [
    Argument {
        name: "KEYS",
        takes: Takes::WordsOrTextsUnless("where"),
        help: "The keys of entries",
    },
    WHERE,
    FILE,
    WRITE,
    DIFF,
];

// The arguments of `add`.
const ADD: [Argument; 3] = [
    Argument {
        name: "file",
        takes: Takes::AnEditedFile,
        help: "The file to add the entries of standard input to",
    },
    WRITE,
    DIFF,
];

// The arguments of `strings`.
const STRINGS: [Argument; 7] = [
    Argument {
        name: "expand",
        takes: Takes::Flag(Flag::Or("collect")),
        help: "Replace abbreviations by their texts in the entries that use them",
    },
    Argument {
        name: "collect",
        takes: Takes::Flag(Flag::Or("expand")),
        help: "Define abbreviations for texts that occur in several fields",
    },
    Argument {
        name: "fields",
        takes: Takes::CollectedFields,
        help: "The fields whose texts are collected, separated by commas",
    },
    Argument {
        name: "at-least",
        takes: Takes::Times,
        help: "Minimum number of occurrences [default: 2]",
    },
    FILE,
    WRITE,
    DIFF,
];

// The arguments of `recode`.
const RECODE: [Argument; 6] = [
    Argument {
        name: "from",
        takes: Takes::Choice(Choice::Encoding),
        help: "The encoding of a file without a byte order mark [default: utf-8]",
    },
    Argument {
        name: "line-ends",
        takes: Takes::Choice(Choice::LineEnds),
        help: "Write line ends of this kind [default: those of the file]",
    },
    Argument {
        name: "bom",
        takes: Takes::Flag(Flag::Plain),
        help: "Write a byte order mark; without it there is none",
    },
    Argument {
        name: "accents",
        takes: Takes::Choice(Choice::Accents),
        help: "Write accents and letters as characters, or as LaTeX commands [default: keep them]",
    },
    FILE,
    WRITE,
];

// The text at the end of the help of `set`.
const SET_HELP: &str = "\
FIELD:=VALUE writes a number or an abbreviation without braces, and month=jan the abbreviation of a month.

Examples:
  bibkit set knuth1984 year=1984 'title=The {TeX}book' --file refs.bib --write
  bibkit set knuth1984 month=jan publisher:=aw --file refs.bib

Status: 0 done, 1 an edit is refused or the file has errors, 2 wrong usage, or a file or the output failed, 3 out of memory";

// The text at the end of the help of `unset`.
const UNSET_HELP: &str = "\
Example:
  bibkit unset knuth1984 abstract keywords --file refs.bib

Status: 0 done, 1 an edit is refused or the file has errors, 2 wrong usage, or a file or the output failed, 3 out of memory";

// The text at the end of the help of `rename`.
const RENAME_HELP: &str = "\
Example:
  bibkit rename knuth knuth1984 --file refs.bib

Status: 0 done, 1 an edit is refused or the file has errors, 2 wrong usage, or a file or the output failed, 3 out of memory";

// The text at the end of the help of `remove`.
const REMOVE_HELP: &str = "\
With --where, removes the entries that meet the condition. `bibkit help select` has the conditions.

Examples:
  bibkit remove knuth1984 tolkien1937 --file refs.bib
  bibkit remove --where 'type = misc and year < 1990' --file refs.bib --write

Status: 0 done, 1 an edit is refused or the file has errors, 2 wrong usage, or a file or the output failed, 3 out of memory";

// The text at the end of the help of `add`.
const ADD_HELP: &str = "\
Example:
  bibkit add --file refs.bib --write <new.bib

Status: 0 done, 1 an edit is refused or the file has errors, 2 wrong usage, or a file or the output failed, 3 out of memory";

// The text at the end of the help of `strings`.
const STRINGS_HELP: &str = "\
--expand keeps all definitions. --collect reuses definitions before the first entry, and writes its own there. By default it collects the
texts of journal, journaltitle, publisher, series, institution, school, organization, address and location.

Example:
  bibkit strings --collect --fields journaltitle,publisher --file refs.bib --write

Status: 0 done, 1 a definition uses its own name or one that is defined later, or the file has errors, 2 wrong usage, or a file or the output failed, 3 out of memory";

// The text at the end of the help of `recode`.
const RECODE_HELP: &str = "\
A file that isn't UTF-8 and has no byte order mark requires --from. utf-16 is little-endian.

Examples:
  bibkit recode --from windows-1252 --line-ends lf --file refs.bib --write
  bibkit recode --accents characters --file refs.bib
  bibkit recode --accents commands --file refs.bib >latex.bib

Status: 0 done, 1 the file isn't in this encoding or --accents finds an error in it, 2 no encoding or wrong usage, or a file or the output failed, 3 out of memory";

// The text at the end of the help of `edit`.
const EDIT_HELP: &str = "\
Without --where, edits all entries. Fields are first renamed, then set, then added, then removed. FIELD:=VALUE writes a number or an
abbreviation without braces, and month=jan the abbreviation of a month. `bibkit help select` has the conditions.

Examples:
  bibkit edit --where 'type = article' --rename journal=journaltitle --add langid=english --file refs.bib --write
  bibkit edit --unset abstract,file --file refs.bib

Status: 0 done, 1 an edit is refused or the file has errors, 2 wrong usage, or a file or the output failed, 3 out of memory";

// The text at the end of the help of `rekey`.
const REKEY_HELP: &str = "\
Gives each entry the key that the pattern makes, and changes the references to it. {author} is the family name of the first author, {year}
the year and {title:2} the first two words of the title. {Author} and {Title} write capitals. Equal keys get the letters a, b and so on.

Example:
  bibkit rekey --pattern '{Author}:{year}' --file refs.bib --write --map >keys.csv

Status: 0 done, 1 keys would change (--check), an edit is refused or the file has errors, 2 wrong usage, or a file or the output failed, 3 out of memory";

/// The commands, in the order of help, which lists them after the commands that read files.
pub static EDITING: [Row; 9] = [
    Row {
        name: "set",
        about: "Set fields of an entry, and print the new text",
        help: SET_HELP,
        arguments: &SET,
    },
    Row {
        name: "unset",
        about: "Remove fields of an entry, and print the new text",
        help: UNSET_HELP,
        arguments: &UNSET,
    },
    Row {
        name: "rename",
        about: "Rename the key of an entry, and print the new text",
        help: RENAME_HELP,
        arguments: &RENAME,
    },
    Row {
        name: "rekey",
        about: "Give entries keys by a pattern, and print the new text",
        help: REKEY_HELP,
        arguments: &REKEY,
    },
    Row {
        name: "edit",
        about: "Edit fields of all entries that meet a condition, and print the new text",
        help: EDIT_HELP,
        arguments: &EDIT,
    },
    Row {
        name: "remove",
        about: "Remove entries, and print the new text",
        help: REMOVE_HELP,
        arguments: &REMOVE,
    },
    Row {
        name: "add",
        about: "Add the entries of standard input to a file, and print the new text",
        help: ADD_HELP,
        arguments: &ADD,
    },
    Row {
        name: "strings",
        about: "Expand abbreviations, or collect repeated texts as abbreviations, and print the new text",
        help: STRINGS_HELP,
        arguments: &STRINGS,
    },
    Row {
        name: "recode",
        about: "Print a file as UTF-8",
        help: RECODE_HELP,
        arguments: &RECODE,
    },
];
