//! The task that prints the findings of several files as one database.

ghost use Rattle.std.specs.Prelude.{◌≡◌, ◌≤◌, [], List, length, map, nat_le, IfOk, OnOk};
ghost use Rattle.std.specs.String.{string_bytes};
ghost use Rattle.bib_syntax.specs.Reading.{EntryReading, FileReading};
ghost use Rattle.bib_syntax.specs.Views.{entry_reading_of};
ghost use Rattle.bibkit_core.specs.Adding.{IsAdded};
ghost use Rattle.bibkit_core.specs.Database as spec;
ghost use Rattle.bibkit_core.specs.Database.{AreFilesPrinted, AreMissingPrinted, AreOfDatabase, BeginsDatabase, EndsDatabase, IsStoredPrinted, StoresFile, database_begins, finding_in};

use crate::cited::Document;
use crate::conditions::{findings_of_no_entry, reported_among};
use crate::decoding::decode_bytes;
use crate::lint::{Origin, Printed, print_findings, print_kept};
use crate::linting::{closing, in_file, lint_status, opening};
use crate::own_names::without_own;
use crate::request::Lint;
use crate::tally::Tally;
use crate::task::{End, Task};
use bib_findings::finding::Finding;
use bib_findings::findings::{findings_of, sorted_by_place};
use bib_syntax::raw::JoinedFiles;
use bib_text::spanned::Spanned;
use biblatex::{Decoded, RawEntry};
use std::alloc::{AllocError, Global};

/// A file that was read.
#[derive(Drop)]
pub struct StoredFile {
    /// The name of the file.
    pub name: String,
    /// The bytes of the file.
    pub bytes: Vec<u8>,
    /// The decoded text of the file.
    pub decoded: Decoded,
}

/// Prints the selected findings of files as one database. If there is a document, also prints those that compare the files with its
/// citations.
#[derive(Drop)]
pub struct Database<'r, 'a> {
    lint: &'r Lint<'a>,
    document: Option<Document<'r>>,
    files: Vec<StoredFile>,
}

// The findings that are printed for a database.
#[derive(Drop)]
struct Found {
    // The reported findings, in order of their places in the text of all files.
    kept: Vec<Finding>,
    // The findings of the citations that are the names of no entry.
    missing: Vec<Finding>,
}

impl<'r, 'a> Database<'r, 'a> {
    /// Returns the task before the first file.
    pub fn new(alloc: Global, lint: &'r Lint<'a>, document: Option<Document<'r>>) -> Self
        ensures { BeginsDatabase lint.now document.entry result }
    {
        Database {
            lint,
            document,
            files: Vec::new(alloc),
        }
    }
}

// Returns the decoded texts of these files in one text.
fn joined_texts(alloc: Global, files: &[StoredFile]) -> Result<JoinedFiles, AllocError>
    ensures { IfOk result (λ texts. texts ≡ spec.joined_texts files.now) }
{
    let mut texts = JoinedFiles::new(alloc);
    'files: for file in files {
        texts.push(&file.decoded.text)?;
    }
    Ok(texts)
}

// Returns the findings of the entries that the document, if there is one, doesn't cite.
fn unused_by(
    alloc: Global,
    document: &Option<Document<'_>>,
    entries: &[Spanned<RawEntry<'_>>],
) -> Result<Vec<Finding>, AllocError>
    ensures { IfOk result (λ found. found.items ≡ spec.unused_by document.now (map entry_reading_of entries.now)) }
{
    match document {
        Some(document) => document.unused_among(alloc, entries),
        None => Ok(Vec::new(alloc)),
    }
}

// Returns the findings of the citations of the document, if there is one, that are the names of none of these entries.
fn missing_by(
    alloc: Global,
    document: &Option<Document<'_>>,
    entries: &[Spanned<RawEntry<'_>>],
) -> Result<Vec<Finding>, AllocError>
    ensures { IfOk result (λ found. found.items ≡ spec.missing_by document.now (map entry_reading_of entries.now)) }
{
    match document {
        Some(document) => document.missing_among(alloc, entries),
        None => Ok(Vec::new(alloc)),
    }
}

// Returns the reported findings of files as one database, and the findings of the document.
fn find(
    alloc: Global,
    lint: &Lint<'_>,
    document: &Option<Document<'_>>,
    texts: &JoinedFiles,
) -> Result<Found, AllocError>
    ensures { IfOk result (λ found. (says : FileReading)
        × AreOfDatabase lint.now document.now texts.now says found.kept.items
        × (found.missing.items ≡ spec.missing_by document.now says.entries)) }
{
    let recovery = texts.recover_parts(alloc)?;
    let mut found = findings_of(alloc, texts.text(), texts.ends(), &recovery)?;
    let mut unused = unused_by(alloc, document, &recovery.raw.entries)?;
    let missing = missing_by(alloc, document, &recovery.raw.entries)?;
    found.append(&mut unused)?;
    let found = sorted_by_place(found)?;
    let reported = reported_among(alloc, &lint.conditions, recovery, found)?;
    let kept = without_own(alloc, &lint.own, reported)?;
    Ok(Found { kept, missing })
}

// Returns whether a finding begins at or before the offset `end`.
fn begins_by(finding: &Finding, end: usize) -> bool
    ensures { result ≡ nat_le finding.now.span.start end }
{
    finding.span.start <= end
}

// Returns the number of findings before the first one that begins after the offset `end`.
fn count_to(found: &[Finding], end: usize) -> usize
    ensures count { result ≡ spec.count_to end found.now }
    ensures within { result ≤ length found.now }
{
    'found: for count in 0..found.len() {
        if !begins_by(&found[count], end) {
            return count;
        }
    }
    found.len()
}

// Returns the number of findings about a file that ends at the offset `end`: those that begin up to it, or all if no files follow. `later`
// has the ends of the files that follow.
fn count_of_file(found: &[Finding], end: usize, later: &[usize]) -> usize
    ensures count { result ≡ spec.count_of_file later.now end found.now }
    ensures within { result ≤ length found.now }
{
    match later {
        [] => found.len(),
        [_, ..] => count_to(found, end),
    }
}

// Returns these findings of a file that begins at the offset `start`, with their spans in the text of the file.
fn findings_in(alloc: Global, start: usize, found: &[Finding]) -> Result<Vec<Finding>, AllocError>
    ensures { IfOk result (λ moved. moved.items ≡ map (finding_in start) found.now) }
{
    let mut moved = Vec::new(alloc);
    'found: for finding in found {
        moved.push(Finding {
            code: finding.code,
            span: finding.span.start.saturating_sub(start)..finding.span.end.saturating_sub(start),
            message: finding.message.clone()?,
        })?;
    }
    Ok(moved)
}

// Appends the output for a file that begins at the offset `start`, with these reported findings.
fn print_file(
    alloc: Global,
    printed: &mut Printed,
    lint: &Lint<'_>,
    start: usize,
    file: &StoredFile,
    found: &[Finding],
) -> Result<(), AllocError>
    ensures { OnOk result (IsAdded (IsStoredPrinted lint.now start file.now found.now) printed.old printed.new) }
{
    let kept = findings_in(alloc, start, found)?;
    let origin = Origin {
        name: &file.name,
        bytes: &file.bytes,
    };
    let mut of_file = Printed {
        text: String::new(alloc),
        tally: printed.tally,
    };
    print_kept(alloc, &mut of_file, lint, &origin, &file.decoded, &kept)?;
    printed
        .text
        .push_str(&in_file(alloc, lint.style, &file.name, of_file.text)?)?;
    printed.tally = of_file.tally;
    Ok(())
}

// Returns the output for files with these reported findings, which are in order of their places in the text of all files. `texts` has this
// text, and the offset at which each file ends in it.
fn print_files(
    alloc: Global,
    lint: &Lint<'_>,
    files: &[StoredFile],
    texts: &JoinedFiles,
    found: &[Finding],
) -> Result<Printed, AllocError>
    requires { length files.now ≡ length texts.now.ends }
    ensures { IfOk result (λ printed.
        AreFilesPrinted lint.now 0 files.now texts.now.ends found.now spec.no_findings (string_bytes printed.text) printed.tally) }
{
    let mut printed = Printed {
        text: String::new(alloc),
        tally: Tally::none(),
    };
    let text = texts.text();
    let ends = texts.ends();
    let mut start = 0usize;
    let mut first = 0usize;
    'files: for index in 0..files.len() {
        let end = ends[index];
        let left = &found[first..];
        let count = count_of_file(left, end, &ends[index + 1..]);
        print_file(
            alloc,
            &mut printed,
            lint,
            start,
            &files[index],
            &left[..count],
        )?;
        first += count;
        start = end + 2;
    }
    Ok(printed)
}

// Appends the output for the findings of the document, if there is one.
fn print_missing(
    alloc: Global,
    printed: &mut Printed,
    lint: &Lint<'_>,
    document: &Option<Document<'_>>,
    missing: Vec<Finding>,
) -> Result<(), AllocError>
    ensures { OnOk result ((entries : List EntryReading) → missing.items ≡ spec.missing_by document.now entries →
        IsAdded (AreMissingPrinted lint.now document.now entries) printed.old printed.new) }
{
    let Some(document) = document else {
        return Ok(());
    };
    let kept = findings_of_no_entry(alloc, &lint.conditions, missing);
    let origin = document.origin();
    let mut of_document = Printed {
        text: String::new(alloc),
        tally: printed.tally,
    };
    print_findings(alloc, &mut of_document, lint, &[], &origin, &kept)?;
    printed.text.push_str(&in_file(alloc, lint.style, origin.name, of_document.text)?)?;
    printed.tally = of_document.tally;
    Ok(())
}

impl<'r, 'a> Task for Database<'r, 'a> {
    ghost begins = { database_begins };

    ghost prints = { StoresFile };

    ghost messages = { λ task. [] };

    ghost ends = { EndsDatabase };

    fn begin(&self) -> &'static str {
        opening(self.lint.style)
    }

    fn file(&mut self, alloc: Global, name: &str, bytes: &[u8]) -> Result<String, AllocError> {
        let decoded = decode_bytes(alloc, bytes)?;
        self.files.push(StoredFile {
            name: String::from_str(alloc, name)?,
            bytes: Vec::from_slice(alloc, bytes)?,
            decoded,
        })?;
        Ok(String::new(alloc))
    }

    fn messages(&self) -> &str {
        ""
    }

    fn end(&mut self, alloc: Global) -> Result<End, AllocError> {
        let texts = joined_texts(alloc, &self.files)?;
        let Found { kept, missing } = find(alloc, self.lint, &self.document, &texts)?;
        let mut printed = print_files(alloc, self.lint, &self.files, &texts, &kept)?;
        print_missing(alloc, &mut printed, self.lint, &self.document, missing)?;
        printed
            .text
            .push_str(&closing(alloc, self.lint.style, printed.tally)?)?;
        Ok(End {
            text: printed.text,
            status: lint_status(self.lint.fail_on, printed.tally),
        })
    }
}
