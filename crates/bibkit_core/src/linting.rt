//! The task that prints the findings of files.

ghost use Rattle.std.specs.Prelude.{◌≡◌, [], IfOk};
ghost use Rattle.std.specs.String.{string_bytes};
ghost use Rattle.bibkit_core.specs.Asked.{selected_findings};
ghost use Rattle.bibkit_core.specs.Linted.{ArePrinted};
ghost use Rattle.bibkit_core.specs.Tasks.{BeginsLinting, IsEndOfFindings, PrintsFindings, linting_begins, linting_ends, linting_prints};
ghost use Rattle.bibkit_core.specs.Tasks as spec;

use crate::decoding::decode_bytes;
use crate::lint::{Origin, Printed, print_file, print_findings};
use crate::request::{FailOn, Lint, Style};
use crate::rules::Rule;
use crate::tally::Tally;
use crate::task::{End, Task};
use crate::{checkstyle, sarif};
use bib_findings::finding::Finding;
use std::alloc::{AllocError, Global};

/// Prints the selected findings of files.
#[derive(Drop)]
pub struct Linting<'r, 'a> {
    lint: &'r Lint<'a>,
    tally: Tally,
}

impl<'r, 'a> Linting<'r, 'a> {
    /// Returns the task before the first file.
    pub fn new(lint: &'r Lint<'a>) -> Self
        ensures { BeginsLinting lint.now result }
    {
        Linting {
            lint,
            tally: Tally::none(),
        }
    }

    /// Returns the request.
    pub fn lint(&self) -> &'r Lint<'a>
        ensures { result.now ≡ self.now.lint.now }
    {
        self.lint
    }

    // Returns an empty text, with the counts of the findings so far.
    fn nothing(&self, alloc: Global) -> Printed
        ensures text { string_bytes result.text ≡ [] }
        ensures tally { result.tally ≡ self.now.tally }
    {
        Printed {
            text: String::new(alloc),
            tally: self.tally,
        }
    }

    // Stores the counts of `printed`, and returns its text.
    fn take_text(&mut self, printed: Printed) -> String
        ensures text { string_bytes result ≡ string_bytes printed.text }
        ensures tally { self.new.tally ≡ printed.tally }
        ensures lint { self.new.lint.now ≡ self.old.lint.now }
    {
        let Printed { text, tally } = printed;
        self.tally = tally;
        text
    }

    /// Returns the text of the selected findings of the file `name` with these bytes, and counts them.
    pub fn print_file(
        &mut self,
        alloc: Global,
        name: &str,
        bytes: &[u8],
    ) -> Result<String, AllocError>
        ensures printed { IfOk result (λ text. PrintsFindings self.old.lint.now name.now bytes.now self.old.tally
            (string_bytes text) self.new.tally) }
        ensures lint { self.new.lint.now ≡ self.old.lint.now }
    {
        let decoded = decode_bytes(alloc, bytes)?;
        let mut printed = self.nothing(alloc);
        print_file(
            alloc,
            &mut printed,
            self.lint,
            &Origin { name, bytes },
            &decoded,
        )?;
        Ok(self.take_text(printed))
    }

    /// Returns the text of the selected findings among `found`, and counts them. Rules in `off` are switched off.
    pub fn print(
        &mut self,
        alloc: Global,
        off: &[Rule],
        origin: &Origin<'_>,
        found: &[Finding],
    ) -> Result<String, AllocError>
        ensures printed { IfOk result (λ text. ArePrinted self.old.lint.now.style origin.now.name.now origin.now.bytes.now
            (selected_findings self.old.lint.now.selection off.now found.now) self.old.tally (string_bytes text) self.new.tally) }
        ensures lint { self.new.lint.now ≡ self.old.lint.now }
    {
        let mut printed = self.nothing(alloc);
        print_findings(alloc, &mut printed, self.lint, off, origin, found)?;
        Ok(self.take_text(printed))
    }
}

// Returns the text before all findings: the start of the array in JSON, or of the document for Checkstyle and SARIF. It is empty in the
// other styles.
pub(crate) fn opening(style: Style) -> &'static str
    ensures { result.now ≡ spec.opening style }
{
    match style {
        Style::Json => "[",
        Style::Checkstyle => checkstyle::HEAD,
        Style::Sarif => sarif::HEAD,
        Style::Plain | Style::Colored | Style::JsonLines | Style::Github => "",
    }
}

// Returns the text after all findings. It is the line with the counts in the styles `Plain` and `Colored`, the end of the array in JSON,
// and the end of the document for Checkstyle and SARIF. In the other styles, it is empty.
pub(crate) fn closing(alloc: Global, style: Style, tally: Tally) -> Result<String, AllocError>
    ensures { IfOk result (λ text. IsEndOfFindings style tally (string_bytes text)) }
{
    match style {
        Style::Plain | Style::Colored => tally.line(alloc),
        Style::Json => String::from_str(alloc, "\n]\n"),
        Style::JsonLines | Style::Github => Ok(String::new(alloc)),
        Style::Checkstyle => String::from_str(alloc, checkstyle::TAIL),
        Style::Sarif => sarif::tail(alloc),
    }
}

/// Returns the output for the file `name`, from the text of its findings: for Checkstyle the element of the file, otherwise the
/// text itself.
pub fn in_file(alloc: Global, style: Style, name: &str, text: String) -> Result<String, AllocError>
    ensures { IfOk result (λ output. string_bytes output ≡ spec.in_file style name.now (string_bytes text)) }
{
    match style {
        Style::Checkstyle => checkstyle::file_element(alloc, name, text),
        _ => Ok(text),
    }
}

// Returns the status: 1 if findings of at least the severity `fail_on` are counted (with `Never`, none count), otherwise 0.
pub(crate) fn lint_status(fail_on: FailOn, tally: Tally) -> u8
    ensures { result ≡ spec.lint_status fail_on tally }
{
    if tally.has_failing(fail_on) { 1 } else { 0 }
}

impl<'r, 'a> Task for Linting<'r, 'a> {
    ghost begins = { linting_begins };

    ghost prints = { linting_prints };

    ghost messages = { λ task. [] };

    ghost ends = { linting_ends };

    fn begin(&self) -> &'static str {
        opening(self.lint.style)
    }

    fn file(&mut self, alloc: Global, name: &str, bytes: &[u8]) -> Result<String, AllocError> {
        let text = self.print_file(alloc, name, bytes)?;
        let output = in_file(alloc, self.lint.style, name, text)?;
        Ok(output)
    }

    fn messages(&self) -> &str {
        ""
    }

    fn end(&mut self, alloc: Global) -> Result<End, AllocError> {
        Ok(End {
            text: closing(alloc, self.lint.style, self.tally)?,
            status: lint_status(self.lint.fail_on, self.tally),
        })
    }
}
