//! The requests that the program runs.

use crate::own_names::OwnNames;
use crate::selection::Selection;
use bib_findings::codes::Code;
use bib_queries::request::Request as Excerpts;
use bib_select::selection::Selection as Condition;

/// The style in which findings are printed.
#[derive(Debug, Clone, Copy, PartialEq, Eq)]
pub enum Style {
    /// A line for each finding, and a line with the counts.
    Plain,
    /// A line in colours for each finding, the line of the file with a mark under the column, and a line with the counts.
    Colored,
    /// A JSON array with an object for each finding.
    Json,
    /// A JSON object for each finding, on a line of its own.
    JsonLines,
    /// A workflow command of GitHub Actions for each finding.
    Github,
    /// A document in the XML format of Checkstyle, with an element for each finding.
    Checkstyle,
    /// A log in SARIF 2.1.0, with a result for each finding.
    Sarif,
}

/// The findings for which `lint` has the status 1.
#[derive(Debug, Clone, Copy, PartialEq, Eq)]
pub enum FailOn {
    /// Errors.
    Error,
    /// Errors and warnings.
    Warning,
    /// All findings.
    Info,
    /// None.
    Never,
}

/// The document whose citations `lint` compares with the entries of the files.
#[derive(Debug, Clone, Copy)]
pub struct Cited<'a> {
    /// The name of the .aux or .bcf file of the document.
    pub name: &'a str,
    /// Whether entries that the document doesn't cite are reported too.
    pub has_unused: bool,
}

/// The findings to print, and their style.
#[derive(Drop)]
pub struct Lint<'a> {
    /// The findings to report, by their codes, by words of their messages, and by the findings of an earlier run.
    pub selection: Selection,
    /// The style of the output.
    pub style: Style,
    /// The findings for which the status is 1.
    pub fail_on: FailOn,
    /// The document whose citations are compared with the files.
    pub cited: Option<Cited<'a>>,
    /// Whether each of several files is a database of its own. Otherwise they are one database.
    pub is_each: bool,
    /// The conditions on entries. If there is one, only findings about entries whose key is that of an entry that meets all conditions
    /// are reported.
    pub conditions: Vec<Condition>,
    /// The names of the project's own style. They aren't reported as unknown.
    pub own: OwnNames,
    /// Whether lines of a file switch off rules for the file.
    pub has_switches: bool,
}

/// The conditions on entries of files, and the output for the entries that they select: those with the key of an entry that meets all
/// conditions.
#[derive(Drop)]
pub struct Selected<'a> {
    /// The conditions, all of which an entry must meet.
    pub conditions: Vec<Condition>,
    /// The keys of the entries to print. If it is `None`, the keys of all selected entries are printed.
    pub keys: Option<Vec<&'a str>>,
}

/// The request of a command.
#[derive(Drop)]
pub enum Request<'a> {
    /// Prints the findings of files.
    Lint(Lint<'a>),
    /// Explains a code.
    Explain(Code),
    /// Prints entries of files, or their keys.
    Entries(Excerpts<'a>),
    /// Prints entries of files that conditions select, or their keys.
    Selected(Selected<'a>),
    /// Prints the entries that the document of this .aux or .bcf file cites, everything that they refer to, transitively, and the
    /// preambles.
    Cited(&'a str),
    /// Prints the number of entries, and the counts of types, fields, years and codes of findings.
    Stats,
}

/// A request and the files to run it on.
#[derive(Drop)]
pub struct Call<'a> {
    /// The request.
    pub request: Request<'a>,
    /// The names of the files, by which `Files` reads them.
    pub names: Vec<&'a str>,
    /// Whether progress is shown: the number and the name of each file while it is processed.
    pub has_progress: bool,
    /// Whether a request for entries reports the skipped blocks of each file. They count for its status in both cases.
    pub has_skipped_lines: bool,
}
