//! Runs `merge`, which merges three versions of a file. git can run it as a merge driver.

use crate::edits::write_new;
use crate::stops::{Stop, bytes_of, error_line, print_output, say, syntax_line};
use bibkit_edits::reading::{text_after_mark, with_mark};
use bibkit_versions::merging::{Output, merge_file};
use edit_entries::line_ends::with_line_ends_of;
use edit_entry_merge::conflict_text::Markers;
use edit_merge::picking::Versions;
use edit_versions::version::Version;
use std::alloc::{AllocError, Global};

/// How versions of a file are merged.
#[derive(Debug, Clone, Copy)]
pub struct Merging<'a> {
    /// The name of the file in messages, or `None` for the names of the files that are read.
    pub path: Option<&'a str>,
    /// The number of signs in a marker line.
    pub marker_size: usize,
    /// Whether the file with our version is replaced.
    pub is_written: bool,
    /// Whether the commands that install the merge driver are printed, and nothing is merged.
    pub is_install: bool,
}

// The commands of a shell that make `bibkit merge` the merge driver of a git repository. For files that `bibkit` refuses, and if there is no
// `bibkit`, git merges the lines.
static INSTALL: &str = "\
grep -qs '^[*].bib merge=bibkit' .gitattributes || {
  test -z \"$(tail -c 1 .gitattributes 2>/dev/null)\" || echo >> .gitattributes
  echo '*.bib merge=bibkit diff=bibtex' >> .gitattributes
}
git config merge.bibkit.name 'bibkit merge'
git config merge.bibkit.recursive binary
git config merge.bibkit.driver 'bibkit merge --write --path=%P --marker-size %L %O %A %B || \
{ test $? -eq 1 && exit 1; git merge-file --marker-size=%L -L ours -L base -L theirs %A %O %B; }'
";

// A version of the file: its bytes, and its name in messages.
#[derive(Drop)]
struct Source {
    bytes: Vec<u8>,
    name: String,
}

// Returns the name of a version in messages.
fn shown_name(
    alloc: Global,
    merging: Merging<'_>,
    which: &str,
    file: &str,
) -> Result<String, AllocError> {
    match merging.path {
        Some(path) => format!(in alloc; "{path} ({which})"),
        None => String::from_str(alloc, file),
    }
}

// Reads a version of the file.
fn read_source(
    rt: &HostRuntime,
    merging: Merging<'_>,
    which: &str,
    file: &str,
) -> Result<Source, Stop> {
    Ok(Source {
        bytes: bytes_of(rt, file)?,
        name: shown_name(rt.alloc(), merging, which, file)?,
    })
}

// Returns whether a line begins with this sign `size` times or seven times, and a space after that.
fn is_marker(line: &str, sign: u8, size: usize) -> bool {
    let bytes = line.as_bytes();
    let count = bytes.iter().take_while(|byte| **byte == sign).count();
    (count == size || count == 7) && matches!(bytes.get(count), Some(b' '))
}

// Returns the byte offset of the first line of a text that begins like a marker line of `size` or of seven signs.
fn first_marker(text: &str, size: usize) -> Option<usize> {
    if !text.contains('<') && !text.contains('>') {
        return None;
    }
    let mut at = 0usize;
    'lines: for line in text.split('\n') {
        if is_marker(line, b'<', size) || is_marker(line, b'>', size) {
            return Some(at);
        }
        at = at.saturating_add(line.len()).saturating_add(1);
    }
    None
}

// Returns the text of a version, without a byte order mark. Fails with a message and status 2 if it isn't UTF-8 or has a marker line of
// `size` or of seven signs.
fn text_of<'s>(alloc: Global, source: &'s Source, size: usize) -> Result<&'s str, Stop> {
    let name = &source.name;
    let text = match text_after_mark(&source.bytes) {
        Ok(text) => text,
        Err(at) => {
            let said = format!(in alloc; "bibkit: {name}: not UTF-8 from byte {at} on\n")?;
            return Err(Stop::Said(said, 2));
        }
    };
    match first_marker(text, size) {
        Some(at) => {
            let said = "conflict marker; resolve this conflict first";
            let line = error_line(alloc, name, text.as_bytes(), at, said)?;
            Err(Stop::Said(line, 2))
        }
        None => Ok(text),
    }
}

// Returns the version with a text. Fails with a message and status 2 if it has a syntax error.
fn version_of<'t>(alloc: Global, name: &str, text: &'t str) -> Result<Version<'t>, Stop> {
    match Version::parse(alloc, text) {
        Ok(version) => Ok(version),
        Err(error) => {
            error.unless_out_of_memory()?;
            let line = syntax_line(alloc, name, text.as_bytes(), &error)?;
            Err(Stop::Said(line, 2))
        }
    }
}

// Returns a marker line: this number of signs, and a label.
fn marker(alloc: Global, sign: char, size: usize, label: &str) -> Result<String, AllocError> {
    let mut line = String::new(alloc);
    'signs: for _ in 0..size {
        line.push(sign)?;
    }
    line.push_str(label)?;
    Ok(line)
}

// Returns a marker line with the carriage return with which the lines of a file end, if they end with one.
fn ended_marker(alloc: Global, text: &str, marker: &str) -> Result<String, AllocError> {
    let line = format!(in alloc; "{marker}\n")?;
    let ended = with_line_ends_of(alloc, text, &line)?;
    match ended.strip_suffix('\n') {
        Some(line) => String::from_str(alloc, line),
        None => Ok(ended),
    }
}

// Returns the output for the texts of the versions.
fn merged(
    alloc: Global,
    merging: Merging<'_>,
    file: &str,
    base: &Source,
    ours: &Source,
    theirs: &Source,
) -> Result<Output, Stop> {
    let size = merging.marker_size;
    let our_text = text_of(alloc, ours, size)?;
    let their_text = text_of(alloc, theirs, size)?;
    let base = version_of(alloc, &base.name, text_of(alloc, base, size)?)?;
    let ours = version_of(alloc, &ours.name, our_text)?;
    let theirs = version_of(alloc, &theirs.name, their_text)?;
    let first = marker(alloc, '<', size, " ours")?;
    let before = ended_marker(alloc, our_text, &first)?;
    let middle = ended_marker(alloc, our_text, &marker(alloc, '=', size, "")?)?;
    let after = ended_marker(alloc, our_text, &marker(alloc, '>', size, " theirs")?)?;
    let versions = Versions {
        base: &base,
        ours: &ours,
        theirs: &theirs,
    };
    let markers = Markers {
        ours: &before,
        middle: &middle,
        theirs: &after,
    };
    Ok(merge_file(alloc, file, &first, versions, markers)?)
}

// Merges these files, prints or writes the text, and prints the messages. Returns the status: 1 if there is a conflict, otherwise 0.
fn merge_files(
    rt: &HostRuntime,
    merging: Merging<'_>,
    base: &str,
    ours: &str,
    theirs: &str,
) -> Result<u8, Stop> {
    let base = read_source(rt, merging, "base", base)?;
    let our_source = read_source(rt, merging, "ours", ours)?;
    let theirs = read_source(rt, merging, "theirs", theirs)?;
    let file = merging.path.unwrap_or(ours);
    let output = merged(rt.alloc(), merging, file, &base, &our_source, &theirs)?;
    let text = with_mark(rt.alloc(), &our_source.bytes, output.text)?;
    if merging.is_written {
        write_new(rt, ours, &our_source.bytes, &text)?;
    } else {
        print_output(rt, &text)?;
    }
    let _ = eprint!(rt; "{}", output.messages);
    Ok(if output.has_conflict { 1 } else { 0 })
}

// Returns the reason why a command line can't be run, with status 2.
fn wrong(alloc: Global, reason: &str) -> Result<Stop, AllocError> {
    let text = format!(in alloc; "bibkit: {reason}\n")?;
    Ok(Stop::Said(text, 2))
}

// Merges the files with these names. Fails with status 2 unless there are three.
fn merge_named(rt: &HostRuntime, merging: Merging<'_>, files: &[&str]) -> Result<u8, Stop> {
    let alloc = rt.alloc();
    let inputs = files.iter().filter(|file| **file == "-").count();
    match files {
        [_, ours, _] if merging.is_written && *ours == "-" => Err(wrong(
            alloc,
            "`merge --write` requires the name of a file with our version",
        )?),
        [_, _, _] if inputs > 1 => Err(wrong(
            alloc,
            "`merge` can read only one version from standard input",
        )?),
        [base, ours, theirs] => merge_files(rt, merging, base, ours, theirs),
        _ => Err(wrong(
            alloc,
            "`merge` requires three files: the base, our version and their version",
        )?),
    }
}

// Prints the commands that install the merge driver, and returns the status 0.
fn print_install(rt: &HostRuntime) -> Result<u8, Stop> {
    print_output(rt, INSTALL)?;
    Ok(0)
}

/// Runs `merge` on these files, and returns the status:
/// - 0: there is no conflict, or the commands for git were printed.
/// - 1: there are conflicts, and the text has marker lines.
/// - 2: the files are wrong, can't be read or written, aren't UTF-8, or have a syntax error or a marker line.
/// - 3: out of memory.
pub fn run_merge(rt: &HostRuntime, merging: Merging<'_>, files: &[&str]) -> u8 {
    let result = if merging.is_install {
        print_install(rt)
    } else {
        merge_named(rt, merging, files)
    };
    match result {
        Ok(status) => status,
        Err(stop) => say(rt, &stop),
    }
}
