//! The commands of the program, with their arguments and help.
//!
//! `searching`, `versions`, `converting` and `editing` contain the tables of the commands, and `shared` the options that several of them
//! have.
//! `arguments` contains the kinds of arguments, and makes those that clap parses.

mod arguments;
mod converting;
mod editing;
mod searching;
mod shared;
mod versions;

use arguments::{Row, files, own_arguments};
use bibkit_core::version::VERSION;
use clap::Command;
use converting::CONVERTING;
use editing::EDITING;
use searching::SEARCHING;
use std::alloc::{AllocError, Global};
use versions::VERSIONS;

// Returns a command without arguments.
fn command_of<'a>(alloc: Global, row: &'static Row) -> Command<'a> {
    Command::new(alloc, row.name)
        .about(row.about)
        .after_help(row.help)
}

// The help of the files that a command reads.
const FILES_HELP: &str = "Files to read; standard input for - or without files";

// The help of the files of a command that reads several versions of a file.
const VERSIONS_HELP: &str = "The versions, in this order; one of them may be -, standard input";

// Returns a command that reads files, which have this help. The files are its last argument.
fn reading_command<'a>(
    alloc: Global,
    row: &'static Row,
    files_help: &'static str,
) -> Result<Command<'a>, AllocError> {
    let mut arguments = own_arguments(alloc, row.arguments)?;
    arguments.push(files(alloc, files_help))?;
    command_of(alloc, row).args(arguments)
}

// Returns a command that edits a file.
fn editing_command<'a>(alloc: Global, row: &'static Row) -> Result<Command<'a>, AllocError> {
    let arguments = own_arguments(alloc, row.arguments)?;
    command_of(alloc, row).args(arguments)
}

// Returns the commands of these rows, which read files with this help.
fn reading_commands<'a>(
    alloc: Global,
    rows: &'static [Row],
    files_help: &'static str,
) -> Result<Vec<Command<'a>>, AllocError> {
    let mut commands = Vec::new(alloc);
    'rows: for row in rows {
        commands.push(reading_command(alloc, row, files_help)?)?;
    }
    Ok(commands)
}

// Returns the commands that edit a file.
fn editing_commands<'a>(alloc: Global) -> Result<Vec<Command<'a>>, AllocError> {
    let mut commands = Vec::new(alloc);
    'rows: for row in &EDITING {
        commands.push(editing_command(alloc, row)?)?;
    }
    Ok(commands)
}

// Returns the program without its commands.
fn program<'a>(alloc: Global) -> Command<'a> {
    Command::new(alloc, "bibkit")
        .about("Check, search and edit bibliography files")
        .version(VERSION)
}

/// Returns whether `name` is a command that edits a file.
pub fn is_editing(name: &str) -> bool {
    EDITING.iter().any(|row| row.name == name)
}

/// Returns the definition of the command line: the program with all its commands.
pub fn command<'a>(alloc: Global) -> Result<Command<'a>, AllocError> {
    let searching = reading_commands(alloc, &SEARCHING, FILES_HELP)?;
    let versions = reading_commands(alloc, &VERSIONS, VERSIONS_HELP)?;
    let converting = reading_commands(alloc, &CONVERTING, FILES_HELP)?;
    let editing = editing_commands(alloc)?;
    program(alloc)
        .subcommand_required(true)
        .arg_required_else_help(true)
        .subcommands(searching)?
        .subcommands(versions)?
        .subcommands(converting)?
        .subcommands(editing)
}
