//! Runs `diff`, which prints the changes from one version of a file to another one.

use crate::stops::{Stop, bytes_of, print_output, say, syntax_line};
use bib_source::decoding::decode;
use bib_source::unified::unified_diff;
use bibkit_versions::diff::{Difference, Format, compare};
use edit_versions::version::Version;
use std::alloc::{AllocError, Global};

/// How changes are printed.
#[derive(Debug, Clone, Copy, PartialEq, Eq)]
pub struct Diffing {
    /// The format.
    pub format: Format,
    /// Whether the files are the arguments that git passes to an external diff command.
    pub is_git: bool,
}

// The two versions of a file: the names of their files, and the name of the file in the output.
#[derive(Clone, Copy)]
struct Names<'a> {
    old: &'a str,
    new: &'a str,
    shown: &'a str,
}

// Returns the decoded text of a file.
fn text_of(rt: &HostRuntime, name: &str) -> Result<String, Stop> {
    let bytes = bytes_of(rt, name)?;
    Ok(decode(rt.alloc(), &bytes)?.text)
}

// Returns the version of a file with this text. If it has a syntax error, fails with a message and status 2.
fn version_of<'t>(alloc: Global, name: &str, text: &'t str) -> Result<Version<'t>, Stop> {
    match Version::parse(alloc, text) {
        Ok(version) => Ok(version),
        Err(error) => {
            error.unless_out_of_memory()?;
            let line = syntax_line(alloc, name, text.as_bytes(), &error)?;
            Err(Stop::Said(line, 2))
        }
    }
}

// Returns the changes from the text of a file to a new text. If one of them has a syntax error, fails with a message and status 2.
fn difference(
    alloc: Global,
    names: Names<'_>,
    old: &str,
    new: &str,
    format: Format,
) -> Result<Difference, Stop> {
    let old = version_of(alloc, names.old, old)?;
    let new = version_of(alloc, names.new, new)?;
    Ok(compare(alloc, names.shown, &old, &new, format)?)
}

// Prints the changes from an old file to a new one, and returns the status: 1 if there is a change other than of the layout.
fn print_changes(rt: &HostRuntime, names: Names<'_>, format: Format) -> Result<u8, Stop> {
    let old = text_of(rt, names.old)?;
    let new = text_of(rt, names.new)?;
    let found = difference(rt.alloc(), names, &old, &new, format)?;
    print_output(rt, &found.text)?;
    Ok(if found.has_change { 1 } else { 0 })
}

// Returns the changes from the text of a file to a new text for git. If one of them has a syntax error, returns the changed lines.
fn git_text(alloc: Global, names: Names<'_>, old: &str, new: &str) -> Result<String, AllocError> {
    match difference(alloc, names, old, new, Format::Text) {
        Ok(found) => Ok(found.text),
        Err(stop) => {
            let _said = stop.unless_out_of_memory()?;
            unified_diff(alloc, names.shown, old, new)
        }
    }
}

// Prints the changes from an old file to a new one for git, and returns the status 0.
fn print_for_git(rt: &HostRuntime, names: Names<'_>) -> Result<u8, Stop> {
    let old = text_of(rt, names.old)?;
    let new = text_of(rt, names.new)?;
    let text = git_text(rt.alloc(), names, &old, &new)?;
    print_output(rt, &text)?;
    Ok(0)
}

// Prints that a file isn't merged, and returns the status 0. git passes only the name of such a file.
fn print_unmerged(rt: &HostRuntime, name: &str) -> Result<u8, Stop> {
    let text = format!(in rt.alloc(); "* Unmerged path {name}\n")?;
    print_output(rt, &text)?;
    Ok(0)
}

// Returns the reason why the files of a command line can't be compared, with status 2.
fn wrong_files(alloc: Global, reason: &str) -> Result<Stop, AllocError> {
    let text = format!(in alloc; "bibkit: {reason}\n")?;
    Ok(Stop::Said(text, 2))
}

// Runs `diff` with the arguments of git: the name of the file, the old file, its hash and its mode, and the same of the new file. Other
// arguments may follow.
fn run_git(rt: &HostRuntime, files: &[&str]) -> Result<u8, Stop> {
    match files {
        [name] => print_unmerged(rt, name),
        [shown, old, _, _, new, _, _, ..] => print_for_git(rt, Names { old, new, shown }),
        _ => Err(wrong_files(
            rt.alloc(),
            "`diff --git` requires the arguments of a git external diff command",
        )?),
    }
}

// Runs `diff` with two files.
fn run_files(rt: &HostRuntime, files: &[&str], format: Format) -> Result<u8, Stop> {
    match files {
        [old, new] if !(*old == "-" && *new == "-") => print_changes(
            rt,
            Names {
                old,
                new,
                shown: new,
            },
            format,
        ),
        _ => Err(wrong_files(
            rt.alloc(),
            "`diff` requires two files, one of which may be `-`",
        )?),
    }
}

/// Runs `diff` on these files, and returns the status:
/// - 0: there is no change other than of the layout, or the changes are for git.
/// - 1: there are changes.
/// - 2: the files are wrong, can't be read or have a syntax error, or the output can't be written.
/// - 3: out of memory.
pub fn run_diff(rt: &HostRuntime, diffing: Diffing, files: &[&str]) -> u8 {
    let result = if diffing.is_git {
        run_git(rt, files)
    } else {
        run_files(rt, files, diffing.format)
    };
    match result {
        Ok(status) => status,
        Err(stop) => say(rt, &stop),
    }
}
