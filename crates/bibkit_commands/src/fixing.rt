//! Runs `lint --fix`, which mends the findings with one right remedy, and prints those that stay.
//!
//! Each file is a database of its own. Fixes that lead to a new finding aren't made.

use crate::edits::{Mode, name_in_diff, new_text, write_new, wrong_usage};
use crate::fixes::{Change, Fix, count_of, counts_of, fixed_text, fixes};
use crate::stops::{Stop, bytes_from, print_output, say};
use bib_findings::finding::Finding;
use bib_findings::findings::findings;
use bib_source::unified::unified_diff;
use bib_syntax::raw::RawEntry;
use bib_text::spanned::Spanned;
use bibkit_core::conditions::reported_findings;
use bibkit_core::lint::off_in;
use bibkit_core::linting::Linting;
use bibkit_core::own_names::without_own;
use bibkit_core::request::Lint;
use bibkit_core::rules::Rule;
use bibkit_core::task::Task;
use bibkit_edits::edit::Edit;
use biblatex::RawBibliography;
use std::alloc::{AllocError, Global};
use std::collections::{BTreeMap, BTreeSet};
use std::str::from_utf8;

// The maximum number of texts that are tested for new findings. If the last of them has one, no field is renamed.
const ROUNDS: usize = 4;

// Appends a finding if `lint` selects it. Rules in `off` are switched off.
fn push_selected(
    alloc: Global,
    lint: &Lint<'_>,
    off: &[Rule],
    kept: &mut Vec<Finding>,
    finding: Finding,
) -> Result<(), AllocError> {
    if lint.selection.asks_for(alloc, off, &finding)? {
        kept.push(finding)?;
    }
    Ok(())
}

// Returns the findings of a text that are reported.
fn reported(
    alloc: Global,
    lint: &Lint<'_>,
    text: &str,
    found: Vec<Finding>,
) -> Result<Vec<Finding>, AllocError> {
    let reported = reported_findings(alloc, &lint.conditions, text, found)?;
    let reported = without_own(alloc, &lint.own, reported)?;
    let off = off_in(alloc, lint, text)?;
    let mut kept = Vec::new(alloc);
    'reported: for finding in reported {
        push_selected(alloc, lint, &off, &mut kept, finding)?;
    }
    Ok(kept)
}

// Returns the code and the message of each finding as one text.
fn finding_texts(alloc: Global, found: &[Finding]) -> Result<Vec<String>, AllocError> {
    let mut texts = Vec::new(alloc);
    'found: for finding in found {
        let code = finding.code.name();
        texts.push(format!(in alloc; "{code} {}", finding.message.as_str())?)?;
    }
    Ok(texts)
}

// Inserts the key of the first entry that doesn't end before a byte offset: the one at the offset, or else the next one.
fn blame_place(
    alloc: Global,
    blamed: &mut BTreeSet<String>,
    entries: &[Spanned<RawEntry<'_>>],
    at: usize,
) -> Result<(), AllocError> {
    let index = entries.partition_point(|entry| entry.span.end < at);
    if let Some(entry) = entries.get(index) {
        blamed.insert(String::from_str(alloc, entry.v.key.v)?)?;
    }
    Ok(())
}

// Inserts the text in quotes at the end of a message, if there is one. In a message about two entries, it is the key of the earlier one.
fn blame_earlier(
    alloc: Global,
    blamed: &mut BTreeSet<String>,
    message: &str,
) -> Result<(), AllocError> {
    if let Some((_, rest)) = message.split_once(" \"") {
        if let Some(key) = rest.strip_suffix("\"") {
            blamed.insert(String::from_str(alloc, key)?)?;
        }
    }
    Ok(())
}

// Returns the keys of the entries of a text that findings are about, if these occur more often than in `known`. Returns `None` if there is
// no such finding.
fn blamed_keys(
    alloc: Global,
    known: &BTreeMap<String, usize>,
    text: &str,
) -> Result<Option<BTreeSet<String>>, AllocError> {
    let found = findings(alloc, text)?;
    let texts = finding_texts(alloc, &found)?;
    let counts = counts_of(alloc, &texts)?;
    let entries = RawBibliography::recover(alloc, text)?.raw.entries;
    let mut blamed = BTreeSet::new(alloc);
    let mut is_found = false;
    'found: for (finding, said) in found.iter().zip(&texts) {
        if count_of(&counts, said) > count_of(known, said) {
            is_found = true;
            blame_place(alloc, &mut blamed, &entries, finding.span.start)?;
            blame_earlier(alloc, &mut blamed, finding.message.as_str())?;
        }
    }
    Ok(if is_found { Some(blamed) } else { None })
}

// Returns the fixes that rename no field of an entry whose key is in a set.
fn without_blamed(
    alloc: Global,
    entries: &[Spanned<RawEntry<'_>>],
    fixes: Vec<Fix>,
    blamed: &BTreeSet<String>,
) -> Result<Vec<Fix>, AllocError> {
    let mut kept = Vec::new(alloc);
    'fixes: for fix in fixes {
        if let Some(entry) = entries.get(fix.entry) {
            if matches!(fix.change, Change::Doi(_)) || !blamed.contains(entry.v.key.v) {
                kept.push(fix)?;
            }
        }
    }
    Ok(kept)
}

// Returns the fixes that rename no field. They lead to no new finding, because only `doi-address` tests the address of a DOI.
fn without_renames(alloc: Global, fixes: Vec<Fix>) -> Result<Vec<Fix>, AllocError> {
    let mut kept = Vec::new(alloc);
    'fixes: for fix in fixes {
        if matches!(fix.change, Change::Doi(_)) {
            kept.push(fix)?;
        }
    }
    Ok(kept)
}

// Returns the text of the file `name` with those of these fixes that lead to no finding that isn't in `known`. If too many texts would have
// to be tested, no field is renamed.
fn safely_fixed(
    alloc: Global,
    name: &str,
    text: &str,
    entries: &[Spanned<RawEntry<'_>>],
    fixes: Vec<Fix>,
    known: &BTreeMap<String, usize>,
) -> Result<String, Stop> {
    let mut fixes = fixes;
    'rounds: for _ in 0..ROUNDS {
        let new = fixed_text(alloc, name, text, entries, &fixes)?;
        match blamed_keys(alloc, known, &new)? {
            Some(blamed) => fixes = without_blamed(alloc, entries, fixes, &blamed)?,
            None => return Ok(new),
        }
    }
    let fixes = without_renames(alloc, fixes)?;
    fixed_text(alloc, name, text, entries, &fixes)
}

// Returns the text of the file `name`, which has no syntax error, with its fixes, except those that would lead to a new finding.
fn fix(alloc: Global, lint: &Lint<'_>, name: &str, text: &str) -> Result<String, Stop> {
    let entries = RawBibliography::recover(alloc, text)?.raw.entries;
    let found = findings(alloc, text)?;
    let known = counts_of(alloc, &finding_texts(alloc, &found)?)?;
    let found = reported(alloc, lint, text, found)?;
    let fixes = fixes(alloc, &entries, &found)?;
    if fixes.is_empty() {
        return Ok(String::from_str(alloc, text)?);
    }
    safely_fixed(alloc, name, text, &entries, fixes, &known)
}

// Returns the text of a file's bytes with its fixes, and with the byte order mark of the file. Fails as an edit does if the file can't be
// edited.
fn fixed_file(alloc: Global, lint: &Lint<'_>, name: &str, bytes: &[u8]) -> Result<String, Stop> {
    let same = new_text(alloc, name, bytes, &[Edit::RenameAll { keys: &[] }], false)?;
    match same.strip_prefix("\u{FEFF}") {
        Some(text) => {
            let new = fix(alloc, lint, name, text)?;
            Ok(format!(in alloc; "\u{FEFF}{new}")?)
        }
        None => fix(alloc, lint, name, &same),
    }
}

// Prints the diff from a file's bytes, which are UTF-8, to its new text.
fn print_diff(rt: &HostRuntime, name: &str, bytes: &[u8], new: &str) -> Result<(), Stop> {
    let shown = name_in_diff(rt.alloc(), name)?;
    let old = from_utf8(bytes).unwrap_or("");
    let diff = unified_diff(rt.alloc(), &shown, old, new)?;
    print_output(rt, &diff)
}

// Uses the new text of a file as `mode` requests.
fn use_text(rt: &HostRuntime, mode: Mode, name: &str, bytes: &[u8], new: &str) -> Result<(), Stop> {
    match mode {
        Mode::Write => write_new(rt, name, bytes, new),
        Mode::Diff { .. } => print_diff(rt, name, bytes, new),
        Mode::Print | Mode::Check => print_output(rt, new),
    }
}

// Mends the findings of a file, uses the new text as `mode` requests, and returns it. The file `input` is standard input.
fn fix_file(
    rt: &HostRuntime,
    lint: &Lint<'_>,
    mode: Mode,
    name: &str,
    input: &str,
) -> Result<String, Stop> {
    let bytes = bytes_from(rt, name, input)?;
    let new = fixed_file(rt.alloc(), lint, name, &bytes)?;
    use_text(rt, mode, name, &bytes, &new)?;
    Ok(new)
}

// Prints the findings of a mended file on standard error.
fn report_file(
    rt: &HostRuntime,
    task: &mut Linting<'_, '_>,
    name: &str,
    new: &str,
) -> Result<(), Stop> {
    let text = task.file(rt.alloc(), name, new.as_bytes())?;
    let _ = eprint!(rt; "{text}");
    Ok(())
}

// Mends the findings of each file, and prints the findings that stay and their counts. Returns the greatest status.
fn fix_files(
    rt: &HostRuntime,
    lint: &Lint<'_>,
    mode: Mode,
    names: &[&str],
    input: &str,
) -> Result<u8, Stop> {
    let mut task = Linting::new(lint);
    let mut status = 0;
    let mut is_mended = false;
    'names: for name in names {
        match fix_file(rt, lint, mode, name, input) {
            Ok(new) => {
                is_mended = true;
                report_file(rt, &mut task, name, &new)?;
            }
            Err(stop) => status = say(rt, &stop).max(status),
        }
    }
    if !is_mended {
        return Ok(status);
    }
    let end = task.end(rt.alloc())?;
    let _ = eprint!(rt; "{}", end.text.as_str());
    Ok(end.status.max(status))
}

// Mends the findings of files. Fails if the new text of standard input is to be written, or if the texts of several files are to be printed.
fn check_and_fix(
    rt: &HostRuntime,
    lint: &Lint<'_>,
    mode: Mode,
    names: &[&str],
    input: &str,
) -> Result<u8, Stop> {
    if mode == Mode::Write && names.iter().any(|name| *name == input) {
        return Err(wrong_usage(rt.alloc(), "`--write` needs the name of a file")?);
    }
    if mode == Mode::Print && names.len() > 1 {
        return Err(wrong_usage(
            rt.alloc(),
            "`--fix` with several files requires `--write` or `--diff`",
        )?);
    }
    fix_files(rt, lint, mode, names, input)
}

/// Mends the findings of files, uses the new text of each file as `mode` requests, and prints the findings that stay on standard error.
/// Returns the greatest status. The file `input` is standard input.
pub fn run_fix(rt: &HostRuntime, lint: &Lint<'_>, mode: Mode, names: &[&str], input: &str) -> u8 {
    match check_and_fix(rt, lint, mode, names, input) {
        Ok(status) => status,
        Err(stop) => say(rt, &stop),
    }
}
