//! Counts findings by severity.

ghost use Rattle.std.specs.Prelude.{◌≡◌, IfOk};
ghost use Rattle.std.specs.String.{string_bytes};
ghost use Rattle.bibkit_core.specs.Printed as spec;
ghost use Rattle.bibkit_core.specs.Printed.{counts_line, one_more};

use crate::request::FailOn;
use bib_findings::codes::Severity;
use std::alloc::{AllocError, Global};

/// The numbers of findings with each severity. A number that would overflow stays at its maximum.
#[derive(Debug, Clone, Copy, PartialEq, Eq)]
pub struct Tally {
    /// The number of errors.
    pub errors: u64,
    /// The number of warnings.
    pub warnings: u64,
    /// The number of findings that are information.
    pub infos: u64,
}

impl Tally {
    /// Returns the counts for no findings: all are 0.
    pub fn none() -> Self
        ensures errors { result.errors ≡ 0 }
        ensures warnings { result.warnings ≡ 0 }
        ensures infos { result.infos ≡ 0 }
    {
        Tally {
            errors: 0,
            warnings: 0,
            infos: 0,
        }
    }

    /// Returns the counts with one more finding of this severity.
    pub fn with(self, severity: Severity) -> Self
        ensures { result ≡ one_more self severity }
    {
        match severity {
            Severity::Error => Tally {
                errors: self.errors.saturating_add(1),
                ..self
            },
            Severity::Warning => Tally {
                warnings: self.warnings.saturating_add(1),
                ..self
            },
            Severity::Info => Tally {
                infos: self.infos.saturating_add(1),
                ..self
            },
        }
    }

    /// Returns whether there are neither errors nor warnings.
    pub fn is_clean(self) -> bool
        ensures { result ≡ spec.is_clean self }
    {
        self.errors == 0 && self.warnings == 0
    }

    /// Returns whether no finding is counted: all numbers are zero.
    pub fn has_no_finding(self) -> bool
        ensures { result ≡ spec.has_no_finding self }
    {
        self.is_clean() && self.infos == 0
    }

    /// Returns whether there are findings for which `lint` has the status 1.
    pub fn has_failing(self, fail_on: FailOn) -> bool
        ensures { result ≡ spec.has_failing fail_on self }
    {
        match fail_on {
            FailOn::Error => self.errors != 0,
            FailOn::Warning => !self.is_clean(),
            FailOn::Info => !self.has_no_finding(),
            FailOn::Never => false,
        }
    }

    /// Returns the line with the numbers. The number of findings that are information is left out if it is zero.
    pub fn line(self, alloc: Global) -> Result<String, AllocError>
        ensures { IfOk result (λ text. string_bytes text ≡ counts_line self) }
    {
        let Tally {
            errors,
            warnings,
            infos,
        } = self;
        if infos == 0 {
            return format!(in alloc; "errors: {errors}, warnings: {warnings}\n");
        }
        format!(in alloc; "errors: {errors}, warnings: {warnings}, info: {infos}\n")
    }
}
