//! Parses the command line into a request.

ghost use Rattle.std.specs.Prelude.{◌≡◌, codes, map, IfErr, IfOk, option_and_then, option_map};
ghost use Rattle.clap.specs.Simple.{subcommand_rows_of};
ghost use Rattle.bibkit_settings.specs.StyleSettings as style;
ghost use Rattle.bibkit_commands.specs.Arguments.{arguments_of, argument_number, argument_value};
ghost use Rattle.bibkit_commands.specs.Asked as spec;
ghost use Rattle.bibkit_commands.specs.Asked.{AreStyleSettingsOf, IsFormatOf, IsSortOf, IsSortRefused, files_of, mode_asked};
ghost use Rattle.bibkit_commands.specs.CommandLine.{IsCommandLineOf, IsCommandOf};
ghost use Rattle.bibkit_commands.specs.EditsAsked.{IsEditingOf};

use crate::argument_values::{given_texts, has_flag, number, number_in, texts, value};
use crate::converting::Converting;
use crate::differing::Diffing;
use crate::edit_arguments::edits_of;
use crate::edits::{Editing, Mode};
use crate::importing::Source;
use crate::merging::Merging;
use crate::reading_arguments::request_of;
use crate::selecting::Selecting;
use bib_queries::request::Request as Excerpts;
use bib_tables::dialects::Dialect;
use bibkit_core::request::{Cited, Request};
use bibkit_settings::commands::{command, is_editing};
use bibkit_settings::settings::Settings;
use bibkit_settings::style_settings::{StyleSettings, delimiters_named, width_of};
use clap::{ArgMatches, Error};
use edit_format::style::Delimiters;
use edit_orders::order::{Order, OrderError};
use std::alloc::{AllocError, Global};

/// The request of a command line. The settings of `lint` and `fmt` may be completed by those of a project.
#[derive(Drop)]
pub enum Asked<'a> {
    /// Prints the findings of files.
    Lint {
        /// The settings of the command line.
        settings: Settings,
        /// The document whose citations are compared with the files.
        cited: Option<Cited<'a>>,
        /// Whether each of several files is a database of its own.
        is_each: bool,
        /// The conditions on the entries that findings are about. An entry must meet all of them.
        conditions: Vec<&'a str>,
        /// The name of standard input in findings, if one is given. Without one, the name is `-`.
        input_name: Option<&'a str>,
        /// The use of the new text of each file in which findings are mended, or `None` if they are only printed.
        fix: Option<Mode>,
        /// The name of the file with the findings that aren't reported, if there is one.
        baseline: Option<&'a str>,
    },
    /// Edits a file.
    Edits(Editing<'a>),
    /// Formats files in one style.
    Format {
        /// The settings of the command line, except the order of fields.
        settings: StyleSettings<'a>,
        /// The names of the fields that come first, if they are set.
        order: Option<Vec<&'a str>>,
        /// The use of the new text of each file.
        mode: Mode,
    },
    /// Prints the entries of files that meet conditions in another format.
    Convert(Converting<'a>),
    /// Prints files with the types and fields of a dialect.
    Rewrite {
        /// The dialect.
        dialect: Dialect,
        /// Whether files whose names end in `.json` or `.ris` are read as CSL-JSON or RIS.
        is_by_ending: bool,
    },
    /// Prints the entries of the items, records or objects of files, with the types and fields of a dialect.
    Import {
        /// The dialect.
        dialect: Dialect,
        /// The format of the files.
        source: Source,
    },
    /// Replaces the references `crossref` and `xdata` in files by the inherited fields.
    Resolve {
        /// The use of the new text of each file.
        mode: Mode,
        /// Whether notes report the fields that entries don't inherit.
        has_notes: bool,
    },
    /// Prints the entries that the document of this .aux or .bcf file cites.
    Cited(&'a str),
    /// Prints the entries that conditions select, or their keys (see `selecting`).
    Select(Selecting<'a>),
    /// Prints entries of files that conditions select, or their keys.
    Entries {
        /// The conditions, all of which an entry must meet.
        conditions: Vec<&'a str>,
        /// The keys of the entries to print. If it is `None`, the keys of all selected entries are printed.
        keys: Option<Vec<&'a str>>,
    },
    /// Prints the changes from one version of a file to another one.
    Diff(Diffing),
    /// Merges three versions of a file.
    Merge(Merging<'a>),
    /// Runs another request.
    Other(Request<'a>),
    /// Reports that the command line is wrong, for this reason.
    Wrong(&'static str),
    /// Reports that a word isn't a code, alone or with the name of a field.
    WrongRule(&'a str),
    /// Reports that the order of entries is wrong, for this reason.
    WrongOrder(OrderError<'a>),
}

/// A parsed command line.
#[derive(Drop)]
pub struct Words<'a> {
    /// The request.
    pub asked: Asked<'a>,
    /// The names of the files to read: `-` (standard input) if none is given. Empty for commands that edit a file, and for `cited`
    /// if none is given.
    pub names: Vec<&'a str>,
}

/// Returns the use of the new text. With `--diff`, that is a diff, with a check if `is_check`. Otherwise a check takes precedence over
/// `--write`.
pub fn mode_of(matches: &ArgMatches<'_>, is_check: bool) -> Mode
    ensures { result ≡ mode_asked is_check (arguments_of matches.now) }
{
    if has_flag(matches, "diff") {
        Mode::Diff { is_check }
    } else if is_check {
        Mode::Check
    } else if has_flag(matches, "write") {
        Mode::Write
    } else {
        Mode::Print
    }
}

// Returns the request of a command that edits a file.
fn editing_of<'a>(
    alloc: Global,
    name: &str,
    matches: &ArgMatches<'a>,
) -> Result<Editing<'a>, AllocError>
    ensures { IfOk result (IsEditingOf name.now (arguments_of matches.now)) }
{
    Ok(Editing {
        edits: edits_of(alloc, name, matches)?,
        name: value(matches, "file").unwrap_or("-"),
        mode: mode_of(matches, false),
        is_last: true,
    })
}

// Returns the choice between the flags `yes` and `no`, or `None` if neither is given.
fn flag_choice(matches: &ArgMatches<'_>, yes: &str, no: &str) -> Option<bool>
    ensures { result ≡ spec.choice_asked (arguments_of matches.now) yes.now no.now }
{
    if has_flag(matches, yes) {
        Some(true)
    } else if has_flag(matches, no) {
        Some(false)
    } else {
        None
    }
}

// Returns the order of entries that `--sort` names: `None` without the option, and `Some(None)` for `keep`.
fn sort_order<'a>(matches: &ArgMatches<'a>) -> Result<Option<Option<Order>>, OrderError<'a>>
    ensures ok { IfOk result (IsSortOf (argument_value (arguments_of matches.now) (codes "sort"))) }
    ensures refused { IfErr result (IsSortRefused (argument_value (arguments_of matches.now) (codes "sort"))) }
{
    match value(matches, "sort") {
        None => Ok(None),
        Some("keep") => Ok(Some(None)),
        Some(text) => Ok(Some(Some(Order::parse(text)?))),
    }
}

// Returns the number of blank lines that `--blank-lines` sets, or `Some(None)` for a word that is no number.
fn blank_lines_asked(matches: &ArgMatches<'_>) -> Option<Option<usize>>
    ensures { result ≡ spec.blank_lines_asked (arguments_of matches.now) }
{
    Some(number_in(value(matches, "blank-lines")?))
}

// Returns the delimiters that `--delimiters` names, if there are any.
fn delimiters_asked(matches: &ArgMatches<'_>) -> Option<Delimiters>
    ensures { result ≡ option_and_then style.delimiters_named (argument_value (arguments_of matches.now) (codes "delimiters")) }
{
    delimiters_named(value(matches, "delimiters")?)
}

// Returns the maximum width of a line that `--width` sets, if it is given.
fn width_asked(matches: &ArgMatches<'_>) -> Option<Option<usize>>
    ensures { result ≡ option_map style.width_of (argument_number (arguments_of matches.now) (codes "width")) }
{
    Some(width_of(number(matches, "width")?))
}

// Returns the settings of `fmt`, except the order of fields. `sort` is the order of entries.
fn style_settings<'a>(matches: &ArgMatches<'a>, sort: Option<Option<Order>>) -> StyleSettings<'a>
    ensures { AreStyleSettingsOf (arguments_of matches.now) sort result }
{
    StyleSettings {
        indent: number(matches, "indent"),
        aligned: flag_choice(matches, "align", "no-align"),
        trailing_comma: flag_choice(matches, "trailing-comma", "no-trailing-comma"),
        blank_lines: blank_lines_asked(matches),
        delimiters: delimiters_asked(matches),
        order: None,
        width: width_asked(matches),
        sort,
    }
}

/// Returns the request of `fmt`. Returns an error only if out of memory.
pub(crate) fn format_asked<'a>(
    alloc: Global,
    matches: &ArgMatches<'a>,
) -> Result<Asked<'a>, AllocError>
    ensures { IfOk result (IsFormatOf (arguments_of matches.now)) }
{
    let sort = match sort_order(matches) {
        Ok(sort) => sort,
        Err(error) => return Ok(Asked::WrongOrder(error)),
    };
    Ok(Asked::Format {
        settings: style_settings(matches, sort),
        order: given_texts(alloc, matches, "order")?,
        mode: mode_of(matches, has_flag(matches, "check")),
    })
}

// Returns the names of the files that the command line of the command `name` contains. If it contains none, returns `-` (standard
// input), or an empty list for `cited`.
fn file_names<'a>(
    alloc: Global,
    name: &str,
    matches: &ArgMatches<'a>,
) -> Result<Vec<&'a str>, AllocError>
    ensures { IfOk result (λ names. map (λ name. name.now) names.items ≡ files_of name.now (arguments_of matches.now)) }
{
    let mut names = texts(alloc, matches, "FILE")?;
    if names.is_empty() && name != "cited" {
        names.push("-")?;
    }
    Ok(names)
}

// Returns the request and the files of the command `name`.
fn words_of<'a>(
    alloc: Global,
    name: &str,
    matches: &ArgMatches<'a>,
) -> Result<Words<'a>, AllocError>
    ensures { IfOk result (IsCommandOf name.now (arguments_of matches.now)) }
{
    if is_editing(name) {
        let editing = editing_of(alloc, name, matches)?;
        return Ok(Words {
            asked: Asked::Edits(editing),
            names: Vec::new(alloc),
        });
    }
    let names = file_names(alloc, name, matches)?;
    let asked = request_of(alloc, name, matches)?;
    Ok(Words { asked, names })
}

// Returns the request and the files of a command line, from the matches of clap.
fn parse_matches<'a>(alloc: Global, matches: &ArgMatches<'a>) -> Result<Words<'a>, AllocError>
    ensures { IfOk result (IsCommandLineOf (subcommand_rows_of matches.now)) }
{
    match matches.subcommand() {
        Some((name, inner)) => words_of(alloc, name, inner),
        None => Ok(Words {
            asked: Asked::Other(Request::Entries(Excerpts::Keys)),
            names: Vec::new(alloc),
        }),
    }
}

// Parses the words of a command line with clap. The first word is the name of the program.
fn matches<'a>(alloc: Global, words: &'a [String]) -> Result<ArgMatches<'a>, Error> {
    command(alloc)?.try_get_matches_from(words)
}

/// Parses a command line. Its first word is the name of the program. Fails with the requested help or version, with the reason why clap
/// refuses the command line, or if out of memory. Some wrong command lines are parsed, for example as `Asked::Wrong` or
/// `Asked::WrongOrder`, and refused when they are run.
pub fn read<'a>(alloc: Global, words: &'a [String]) -> Result<Words<'a>, Error> {
    let matches = matches(alloc, words)?;
    let words = parse_matches(alloc, &matches)?;
    Ok(words)
}
