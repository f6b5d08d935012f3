//! The arguments of a command, and how clap parses them.

use crate::settings::{Color, OutputFormat, code_names, fail_on_names};
use clap::builder::ValueParser;
use clap::{Arg, ArgAction};
use std::alloc::{AllocError, Global};

/// The values of an argument, and whether it is positional or an option.
#[derive(Clone, Copy)]
pub enum Takes {
    /// A required positional argument with one value.
    Text,
    /// A required positional argument with values separated by commas.
    Texts,
    /// A required positional argument of one or more words.
    Words,
    /// A required positional argument of one or more words, each of which may be several values separated by commas.
    WordsOrTexts,
    /// A positional argument like `WordsOrTexts`. It conflicts with the option with this name, and is required if that is missing.
    WordsOrTextsUnless(&'static str),
    /// An option that may be repeated: a condition on entries.
    Condition,
    /// An option that may be repeated: two texts with an equals sign between them, which help calls by this name.
    Pair(&'static str),
    /// An option: a pattern of keys.
    Pattern,
    /// An option: the name of the file to edit.
    EditedFile,
    /// A required option: the name of the file to edit.
    AnEditedFile,
    /// An option: codes, alone or with a field, separated by commas.
    Codes,
    /// An option: the name of the .aux or .bcf file of a document.
    Document,
    /// An option: the name of standard input in findings.
    InputName,
    /// An option: the name of a file in messages.
    FileName,
    /// An option: the name of a file with the output of an earlier run.
    Baseline,
    /// An option: field names separated by commas.
    FieldNames,
    /// An option: the maximum width of a line in characters.
    Width,
    /// An option: the number of signs in the marker lines of a conflict.
    MarkerSize,
    /// An option: properties by which entries are sorted, separated by commas, or `keep`.
    Order,
    /// An option, which conflicts with `expand`: names of the fields whose texts are collected, separated by commas.
    CollectedFields,
    /// An option, which conflicts with `expand`: the minimum number of fields with a text that is collected.
    Times,
    /// An option: one of several words.
    Choice(Choice),
    /// An option without a value.
    Flag(Flag),
}

/// The words of an option whose value is one of several words.
#[derive(Clone, Copy)]
pub enum Choice {
    /// The codes of findings.
    Code,
    /// The formats of findings.
    Format,
    /// When colours are printed.
    Color,
    /// The findings for which the status is 1.
    FailOn,
    /// The numbers of spaces before a field.
    Indent,
    /// The numbers of blank lines between entries, and `keep`.
    BlankLines,
    /// The delimiters of literals, and `keep`.
    Delimiters,
    /// The encodings of a file.
    Encoding,
    /// The line ends of a text.
    LineEnds,
    /// The forms of accents.
    Accents,
    /// The formats to convert to. The option is required.
    Target,
    /// The formats to convert from.
    Source,
    /// The formats of changes.
    Changes,
}

/// How a flag depends on other options.
#[derive(Clone, Copy)]
pub enum Flag {
    /// It depends on none.
    Plain,
    /// It requires the option with this name.
    Beside(&'static str),
    /// It overrides an earlier flag with this name.
    After(&'static str),
    /// It requires the option with the first name, and overrides an earlier flag with the second one.
    BesideAfter(&'static str, &'static str),
    /// It is required if the flag with this name is missing, and conflicts with it.
    Or(&'static str),
    /// It conflicts with the options with these names.
    Against(&'static [&'static str]),
}

/// An argument of a command.
pub struct Argument {
    /// The name; for an option without `--` before it.
    pub name: &'static str,
    /// Its values.
    pub takes: Takes,
    /// Its line in the help of the command.
    pub help: &'static str,
}

/// A command.
pub struct Row {
    /// The name.
    pub name: &'static str,
    /// The summary, which is its line in the help of the program.
    pub about: &'static str,
    /// The text at the end of its help.
    pub help: &'static str,
    /// The arguments, except the files that it reads.
    pub arguments: &'static [Argument],
}

// The values of `--from` of `recode`.
static ENCODINGS: [&str; 6] = [
    "utf-8",
    "utf-16",
    "utf-16le",
    "utf-16be",
    "windows-1252",
    "latin1",
];

// The values of `--line-ends`.
static LINE_ENDS: [&str; 2] = ["lf", "crlf"];

// The values of `--accents`.
static ACCENTS: [&str; 2] = ["characters", "commands"];

// The values of `--indent`.
static INDENTS: [&str; 9] = ["0", "1", "2", "3", "4", "5", "6", "7", "8"];

// The values of `--blank-lines`.
static BLANK_LINES: [&str; 5] = ["keep", "0", "1", "2", "3"];

// The values of `--delimiters`.
static DELIMITERS: [&str; 3] = ["keep", "braces", "quotes"];

// The values of `--to`.
static TARGETS: [&str; 5] = ["csl", "json", "ris", "biblatex", "bibtex"];

// The values of `--from` of `convert`.
static SOURCES: [&str; 4] = ["bib", "csl", "ris", "json"];

// The values of `--format` of `diff`.
static CHANGES: [&str; 2] = ["text", "json"];

/// Returns the argument for the files that a command reads, with this help.
pub fn files<'a>(alloc: Global, help: &'static str) -> Arg<'a> {
    Arg::new(alloc, "FILE")
        .num_args(0..)
        .action(ArgAction::Append)
        .help(help)
}

// Returns a positional argument.
fn positional<'a>(alloc: Global, row: &'static Argument) -> Arg<'a> {
    Arg::new(alloc, row.name).help(row.help)
}

// Returns a required positional argument.
fn required_argument<'a>(alloc: Global, row: &'static Argument) -> Arg<'a> {
    positional(alloc, row).required(true).action(ArgAction::Set)
}

// Returns an option.
fn option<'a>(alloc: Global, row: &'static Argument) -> Arg<'a> {
    positional(alloc, row).long(row.name)
}

// Returns an option with one value, which help calls `name`.
fn value<'a>(alloc: Global, row: &'static Argument, name: &'a str) -> Arg<'a> {
    option(alloc, row).value_name(name).action(ArgAction::Set)
}

// Returns an option that may be repeated, whose value help calls `name`.
fn values<'a>(alloc: Global, row: &'static Argument, name: &'a str) -> Arg<'a> {
    option(alloc, row)
        .value_name(name)
        .action(ArgAction::Append)
}

// Returns an option whose values are codes, alone or with a field, separated by commas.
fn codes<'a>(alloc: Global, row: &'static Argument) -> Arg<'a> {
    option(alloc, row)
        .value_name("CODES")
        .value_delimiter(',')
        .action(ArgAction::Append)
}

// Returns an option whose values are field names, separated by commas.
fn field_names<'a>(alloc: Global, row: &'static Argument) -> Arg<'a> {
    option(alloc, row)
        .value_name("FIELDS")
        .value_delimiter(',')
        .action(ArgAction::Append)
}

// Returns a required positional argument of one or more words.
fn words<'a>(alloc: Global, row: &'static Argument) -> Arg<'a> {
    positional(alloc, row)
        .required(true)
        .num_args(1..)
        .action(ArgAction::Append)
}

// Returns the option that names the file to edit, also as `-f`.
fn edited_file<'a>(alloc: Global, row: &'static Argument) -> Arg<'a> {
    value(alloc, row, "FILE").short('f')
}

// Returns an option whose value is one of several words.
fn choice_argument<'a>(alloc: Global, row: &'static Argument, choice: Choice) -> Arg<'a> {
    match choice {
        Choice::Code => value(alloc, row, "CODE").value_parser(code_names()),
        Choice::Format => value(alloc, row, "FORMAT").value_parser(OutputFormat::names()),
        Choice::Color => value(alloc, row, "WHEN").value_parser(Color::names()),
        Choice::FailOn => value(alloc, row, "SEVERITY").value_parser(fail_on_names()),
        Choice::Indent => value(alloc, row, "SPACES").value_parser(INDENTS.as_slice()),
        Choice::BlankLines => value(alloc, row, "LINES").value_parser(BLANK_LINES.as_slice()),
        Choice::Delimiters => value(alloc, row, "DELIMITERS").value_parser(DELIMITERS.as_slice()),
        Choice::Encoding => value(alloc, row, "ENCODING").value_parser(ENCODINGS.as_slice()),
        Choice::LineEnds => value(alloc, row, "ENDS").value_parser(LINE_ENDS.as_slice()),
        Choice::Accents => value(alloc, row, "FORM").value_parser(ACCENTS.as_slice()),
        Choice::Target => value(alloc, row, "FORMAT")
            .value_parser(TARGETS.as_slice())
            .required(true),
        Choice::Source => value(alloc, row, "FORMAT").value_parser(SOURCES.as_slice()),
        Choice::Changes => value(alloc, row, "FORMAT").value_parser(CHANGES.as_slice()),
    }
}

// Returns an option without a value.
fn flag_argument<'a>(
    alloc: Global,
    row: &'static Argument,
    flag: Flag,
) -> Result<Arg<'a>, AllocError> {
    let argument = option(alloc, row).action(ArgAction::SetTrue);
    match flag {
        Flag::Plain => Ok(argument),
        Flag::Beside(other) => argument.requires_arg(other),
        Flag::After(other) => argument.overrides_with(other),
        Flag::BesideAfter(other, earlier) => argument.requires_arg(other)?.overrides_with(earlier),
        Flag::Or(other) => argument
            .conflicts_with(other)?
            .required_unless_present(other),
        Flag::Against(others) => argument.conflicts_with_all(others),
    }
}

// Returns the argument that clap parses for a row.
fn argument_of<'a>(alloc: Global, row: &'static Argument) -> Result<Arg<'a>, AllocError> {
    match row.takes {
        Takes::Text => Ok(required_argument(alloc, row)),
        Takes::Texts => Ok(required_argument(alloc, row).value_delimiter(',')),
        Takes::Words => Ok(words(alloc, row)),
        Takes::WordsOrTexts => Ok(words(alloc, row).value_delimiter(',')),
        Takes::WordsOrTextsUnless(other) => positional(alloc, row)
            .num_args(0..)
            .action(ArgAction::Append)
            .value_delimiter(',')
            .conflicts_with(other)?
            .required_unless_present(other),
        Takes::Condition => Ok(values(alloc, row, "CONDITION")),
        Takes::Pair(name) => Ok(values(alloc, row, name)),
        Takes::Pattern => Ok(value(alloc, row, "PATTERN")),
        Takes::EditedFile => Ok(edited_file(alloc, row)),
        Takes::AnEditedFile => Ok(edited_file(alloc, row).required(true)),
        Takes::Codes => Ok(codes(alloc, row)),
        Takes::Document => Ok(value(alloc, row, "DOCUMENT")),
        Takes::InputName | Takes::FileName => Ok(value(alloc, row, "NAME")),
        Takes::Baseline => Ok(value(alloc, row, "FILE")),
        Takes::FieldNames => Ok(field_names(alloc, row)),
        Takes::Width => Ok(value(alloc, row, "CHARACTERS").value_parser(ValueParser::unsigned(
            0, 1_000_000,
        ))),
        Takes::MarkerSize => {
            Ok(value(alloc, row, "NUMBER").value_parser(ValueParser::unsigned(1, 1_000)))
        }
        Takes::Order => Ok(value(alloc, row, "ORDER").allow_hyphen_values(true)),
        Takes::CollectedFields => field_names(alloc, row).conflicts_with("expand"),
        Takes::Times => value(alloc, row, "TIMES")
            .value_parser(ValueParser::unsigned(2, 1_000_000))
            .conflicts_with("expand"),
        Takes::Choice(choice) => Ok(choice_argument(alloc, row, choice)),
        Takes::Flag(flag) => flag_argument(alloc, row, flag),
    }
}

/// Returns the arguments of a command, except the files that it reads.
pub fn own_arguments<'a>(
    alloc: Global,
    rows: &'static [Argument],
) -> Result<Vec<Arg<'a>>, AllocError> {
    let mut arguments = Vec::new(alloc);
    'rows: for row in rows {
        arguments.push(argument_of(alloc, row)?)?;
    }
    Ok(arguments)
}
