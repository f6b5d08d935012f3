//! Selects findings by their codes, by the words of their messages, and by the findings of an earlier run.

ghost use Rattle.std.specs.Prelude.{◌≡◌, [], None, IfOk};
ghost use Rattle.bibkit_core.specs.Asked as asked;

use crate::lines::line_text;
use crate::rules::{Rule, mean};
use bib_findings::finding::Finding;
use std::alloc::{AllocError, Global};
use std::collections::BTreeSet;

/// The findings to report. `ignored` takes precedence over `only`.
#[derive(Debug, Drop)]
pub struct Selection {
    /// The findings to report. If there are no rules, they exclude no finding.
    pub only: Vec<Rule>,
    /// The findings not to report.
    pub ignored: Vec<Rule>,
    /// The texts of the accepted findings, if there is a list (see `baseline`). They aren't reported.
    pub accepted: Option<BTreeSet<String>>,
}

impl Selection {
    /// Returns the selection of all findings.
    pub fn all(alloc: Global) -> Self
        ensures only { result.only.items ≡ [] }
        ensures ignored { result.ignored.items ≡ [] }
        ensures accepted { result.accepted ≡ None }
    {
        Selection {
            only: Vec::new(alloc),
            ignored: Vec::new(alloc),
            accepted: None,
        }
    }

    // Returns whether the rules choose a finding.
    fn chooses(&self, finding: &Finding) -> bool
        ensures { result ≡ asked.is_chosen self.now finding.now }
    {
        (self.only.is_empty() || mean(&self.only, finding)) && !mean(&self.ignored, finding)
    }

    // Returns whether a finding is one of the accepted ones. The only error is out of memory.
    fn accepts(&self, alloc: Global, finding: &Finding) -> Result<bool, AllocError>
        ensures { IfOk result (λ accepted. accepted ≡ asked.is_accepted self.now finding.now) }
    {
        match &self.accepted {
            Some(texts) => {
                let text = line_text(alloc, finding)?;
                Ok(texts.contains(text.as_str()))
            }
            None => Ok(false),
        }
    }

    /// Returns whether a finding is reported: the rules choose it, none of the rules in `off` means it, and it isn't accepted. The only
    /// error is out of memory.
    pub fn asks_for(
        &self,
        alloc: Global,
        off: &[Rule],
        finding: &Finding,
    ) -> Result<bool, AllocError>
        ensures { IfOk result (λ asks. asks ≡ asked.is_asked self.now off.now finding.now) }
    {
        if !self.chooses(finding) {
            return Ok(false);
        }
        if mean(off, finding) {
            return Ok(false);
        }
        Ok(!self.accepts(alloc, finding)?)
    }
}
