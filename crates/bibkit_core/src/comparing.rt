//! The task that prints the findings of files, and compares their entries with the citations of a document.

ghost use Rattle.std.specs.Prelude.{◌≡◌, []};
ghost use Rattle.bibkit_core.specs.Marks.{EndsComparing, PrintsComparing, comparing_begins};
ghost use Rattle.bibkit_core.specs.Tasks.{BeginsLinting};

use crate::cited::Document;
use crate::conditions::{findings_of_no_entry, reported_findings};
use crate::decoding::decode_bytes;
use crate::lint::{Origin, off_in};
use crate::linting::{Linting, in_file};
use crate::request::Lint;
use crate::task::{End, Task};
use std::alloc::{AllocError, Global};

/// Prints the selected findings of files, and the selected findings that compare the files with the citations of a document.
#[derive(Drop)]
pub struct Comparing<'r, 'a> {
    linting: Linting<'r, 'a>,
    document: Document<'r>,
}

impl<'r, 'a> Comparing<'r, 'a> {
    /// Returns the task before the first file.
    pub fn new(lint: &'r Lint<'a>, document: Document<'r>) -> Self
        ensures linting { BeginsLinting lint.now result.linting }
        ensures document { result.document ≡ document.entry }
    {
        Comparing {
            linting: Linting::new(lint),
            document,
        }
    }
}

impl<'r, 'a> Task for Comparing<'r, 'a> {
    ghost begins = { comparing_begins };

    ghost prints = { PrintsComparing };

    ghost messages = { λ task. [] };

    ghost ends = { EndsComparing };

    fn begin(&self) -> &'static str {
        self.linting.begin()
    }

    fn file(&mut self, alloc: Global, name: &str, bytes: &[u8]) -> Result<String, AllocError> {
        let lint = self.linting.lint();
        let mut text = self.linting.print_file(alloc, name, bytes)?;
        let decoded = decode_bytes(alloc, bytes)?;
        let unused = self.document.compare(alloc, decoded.text.as_str())?;
        let kept = reported_findings(alloc, &lint.conditions, decoded.text.as_str(), unused)?;
        let off = off_in(alloc, lint, decoded.text.as_str())?;
        let origin = Origin {
            name,
            bytes: decoded.text.as_bytes(),
        };
        let more = self.linting.print(alloc, &off, &origin, &kept)?;
        text.push_str(&more)?;
        let output = in_file(alloc, lint.style, name, text)?;
        Ok(output)
    }

    fn messages(&self) -> &str {
        ""
    }

    fn end(&mut self, alloc: Global) -> Result<End, AllocError> {
        let missing = self.document.missing_findings(alloc)?;
        let kept = findings_of_no_entry(alloc, &self.linting.lint().conditions, missing);
        let origin = self.document.origin();
        let found = self.linting.print(alloc, &[], &origin, &kept)?;
        let mut text = in_file(alloc, self.linting.lint().style, origin.name, found)?;
        let end = self.linting.end(alloc)?;
        text.push_str(&end.text)?;
        Ok(End {
            text,
            status: end.status,
        })
    }
}
