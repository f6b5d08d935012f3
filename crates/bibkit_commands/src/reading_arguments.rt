//! The requests of the commands that read files, by the names of the commands.

ghost use Rattle.std.specs.Prelude.{◌≡◌, codes, map, IfOk, option_map};
ghost use Rattle.bibkit_commands.specs.Arguments.{arguments_of};
ghost use Rattle.bibkit_commands.specs.Asked as spec;
ghost use Rattle.bibkit_commands.specs.Asked.{IsAskedBy, IsCitedOf, IsDiffOf, IsGetOf, IsKeysOf, IsMergingOf, IsResolveOf, IsSearchOf, IsSelectOf};
ghost use Rattle.bibkit_commands.specs.Commands.{reading_command_named};

use crate::argument_values::{has_flag, number, text, texts, value};
use crate::arguments::{Asked, format_asked, mode_of};
use crate::convert_arguments::convert_asked;
use crate::differing::Diffing;
use crate::lint_arguments::lint_asked;
use crate::merging::Merging;
use crate::selecting::{Printed, Selecting};
use bib_queries::request::{Request as Excerpts, Search};
use bibkit_core::request::Request;
use bibkit_versions::diff::Format;
use clap::ArgMatches;
use std::alloc::{AllocError, Global};

/// A command that reads files.
#[derive(Debug, Clone, Copy, PartialEq, Eq)]
pub enum ReadingCommand {
    /// `lint`: reports findings.
    Lint,
    /// `fmt`: lays files out.
    Fmt,
    /// `convert`: prints entries in another format.
    Convert,
    /// `resolve`: writes inherited fields into entries.
    Resolve,
    /// `get`: prints entries by their keys.
    Get,
    /// `grep`: prints entries with a text in a field.
    Grep,
    /// `cited`: prints the entries that a document cites.
    Cited,
    /// `select`: prints the entries that meet conditions.
    Select,
    /// `stats`: counts entries and fields.
    Stats,
    /// `diff`: prints the changes from one version of a file to another one.
    Diff,
    /// `merge`: merges three versions of a file.
    Merge,
    /// `keys`: prints keys.
    Keys,
}

// Returns the command with this name. Any other name is that of `keys`.
fn command_named(name: &str) -> ReadingCommand
    ensures { result ≡ reading_command_named name.now }
{
    match name {
        "lint" => ReadingCommand::Lint,
        "fmt" => ReadingCommand::Fmt,
        "convert" => ReadingCommand::Convert,
        "resolve" => ReadingCommand::Resolve,
        "get" => ReadingCommand::Get,
        "grep" => ReadingCommand::Grep,
        "cited" => ReadingCommand::Cited,
        "select" => ReadingCommand::Select,
        "stats" => ReadingCommand::Stats,
        "diff" => ReadingCommand::Diff,
        "merge" => ReadingCommand::Merge,
        _ => ReadingCommand::Keys,
    }
}

// Returns the request of `keys`.
fn keys_asked<'a>(alloc: Global, matches: &ArgMatches<'a>) -> Result<Asked<'a>, AllocError>
    ensures { IfOk result (IsKeysOf (arguments_of matches.now)) }
{
    let conditions = texts(alloc, matches, "where")?;
    if conditions.is_empty() {
        return Ok(Asked::Other(Request::Entries(Excerpts::Keys)));
    }
    Ok(Asked::Entries {
        conditions,
        keys: None,
    })
}

// Returns the request of `get`.
fn get_asked<'a>(alloc: Global, matches: &ArgMatches<'a>) -> Result<Asked<'a>, AllocError>
    ensures { IfOk result (IsGetOf (arguments_of matches.now)) }
{
    let keys = texts(alloc, matches, "KEYS")?;
    let conditions = texts(alloc, matches, "where")?;
    if conditions.is_empty() {
        return Ok(Asked::Other(Request::Entries(Excerpts::Get(keys))));
    }
    Ok(Asked::Entries {
        conditions,
        keys: Some(keys),
    })
}

// Returns the request of `grep`.
fn search_asked<'a>(matches: &ArgMatches<'a>) -> Asked<'a>
    ensures { IsSearchOf (arguments_of matches.now) result }
{
    Asked::Other(Request::Entries(Excerpts::Grep(Search {
        field: text(matches, "FIELD"),
        part: text(matches, "TEXT"),
    })))
}

// Returns the request of `resolve`.
fn resolve_asked<'a>(matches: &ArgMatches<'a>) -> Asked<'a>
    ensures { IsResolveOf (arguments_of matches.now) result }
{
    Asked::Resolve {
        mode: mode_of(matches, false),
        has_notes: has_flag(matches, "not-inherited"),
    }
}

// Returns the request of `cited`.
fn cited_asked<'a>(matches: &ArgMatches<'a>) -> Asked<'a>
    ensures { IsCitedOf (arguments_of matches.now) result }
{
    Asked::Cited(text(matches, "DOCUMENT"))
}

// Returns the request of `select`.
fn select_asked<'a>(alloc: Global, matches: &ArgMatches<'a>) -> Result<Asked<'a>, AllocError>
    ensures { IfOk result (IsSelectOf (arguments_of matches.now)) }
{
    Ok(Asked::Select(Selecting {
        conditions: texts(alloc, matches, "where")?,
        printed: Printed {
            is_complete: has_flag(matches, "complete"),
            has_keys: has_flag(matches, "keys"),
        },
    }))
}

// Returns the format of changes with this name, or lines for any other name and for a missing one.
fn change_format(name: Option<&str>) -> Format
    ensures { result ≡ spec.change_format (option_map (λ name. name.now) name.entry) }
{
    match name {
        Some("json") => Format::Json,
        _ => Format::Text,
    }
}

// Returns the request of `diff`.
fn diff_asked<'a>(matches: &ArgMatches<'a>) -> Asked<'a>
    ensures { IsDiffOf (arguments_of matches.now) result }
{
    Asked::Diff(Diffing {
        format: change_format(value(matches, "format")),
        is_git: has_flag(matches, "git"),
    })
}

// Returns how `merge` merges.
fn merging_asked<'a>(matches: &ArgMatches<'a>) -> Merging<'a>
    ensures { IsMergingOf (arguments_of matches.now) result }
{
    Merging {
        path: value(matches, "path"),
        marker_size: number(matches, "marker-size").unwrap_or(7),
        is_written: has_flag(matches, "write"),
        is_install: has_flag(matches, "install"),
    }
}

// Returns the request of a command.
fn request_by<'a>(
    alloc: Global,
    command: ReadingCommand,
    matches: &ArgMatches<'a>,
) -> Result<Asked<'a>, AllocError>
    ensures { IfOk result (IsAskedBy command (arguments_of matches.now)) }
{
    match command {
        ReadingCommand::Lint => lint_asked(alloc, matches),
        ReadingCommand::Fmt => format_asked(alloc, matches),
        ReadingCommand::Convert => convert_asked(alloc, matches),
        ReadingCommand::Resolve => Ok(resolve_asked(matches)),
        ReadingCommand::Get => get_asked(alloc, matches),
        ReadingCommand::Grep => Ok(search_asked(matches)),
        ReadingCommand::Cited => Ok(cited_asked(matches)),
        ReadingCommand::Select => select_asked(alloc, matches),
        ReadingCommand::Stats => Ok(Asked::Other(Request::Stats)),
        ReadingCommand::Diff => Ok(diff_asked(matches)),
        ReadingCommand::Merge => Ok(Asked::Merge(merging_asked(matches))),
        ReadingCommand::Keys => keys_asked(alloc, matches),
    }
}

/// Returns the request of the command with this name, which reads files. Returns an error only if out of memory.
pub(crate) fn request_of<'a>(
    alloc: Global,
    name: &str,
    matches: &ArgMatches<'a>,
) -> Result<Asked<'a>, AllocError>
    ensures { IfOk result (IsAskedBy (reading_command_named name.now) (arguments_of matches.now)) }
{
    request_by(alloc, command_named(name), matches)
}
