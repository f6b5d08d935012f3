//! Reports on entries: missing, superfluous and malformed fields.

ghost use Rattle.std.specs.Prelude.{◌≡◌, ◌==◌, ◌&&◌, IfOk, length};
ghost use Rattle.bib_tables.specs.Requirements.{texts};
ghost use Rattle.bib_entry.specs.Reports.{missing_of, superfluous_of, AreMalformed};

mod errors;
mod fields;

use crate::entry::Entry;
use bib_tables::type_error::TypeError;
use bib_text::text::Text;
use std::alloc::{AllocError, Global};

/// The problems of an entry, by the rules of [`Entry::verify`].
#[derive(Debug, Drop)]
pub struct Report {
    /// The fields that its type requires and the entry lacks.
    pub missing: Vec<&'static str>,
    /// The fields that its type forbids and the entry has.
    pub superfluous: Vec<&'static str>,
    /// The checked fields and dates that can't be parsed as values of their types, each with its error.
    pub malformed: Vec<(Text, TypeError)>,
}

impl Report {
    /// Returns whether the report is empty. Does not allocate.
    pub fn is_ok(&self) -> bool
        ensures { result ≡ (length self.now.missing.items == 0
            && (length self.now.superfluous.items == 0
            && length self.now.malformed.items == 0)) }
    {
        self.missing.is_empty() && self.superfluous.is_empty() && self.malformed.is_empty()
    }
}

impl Entry {
    /// Reports the problems of the entry. `missing` contains the fields that its type requires and it lacks, and
    /// `superfluous` those that its type forbids and it has. `malformed` contains the fields and dates that can't be parsed
    /// as values of their types. Only `bookpagination`, `gender`, `pages`, `pagination`, `volume`, `volumes` and dates in
    /// three fields are checked. Such a date has the name of the single field, such as `date`.
    ///
    /// A required field without chunks is missing. It may also occur under its other name: `journal` for `journaltitle`,
    /// `address` for `location`, and `institution` for `school`. Authors, editors, pages, a chapter and a date aren't missing
    /// if their fields exist, even without chunks. A forbidden field without chunks isn't superfluous, except for `author`,
    /// `pages` and `chapter`. The only error is out of memory.
    pub fn verify(&self, alloc: Global) -> Result<Report, AllocError>
        ensures missing { IfOk result (λ report. texts report.missing.items ≡ missing_of self.now) }
        ensures superfluous { IfOk result (λ report. texts report.superfluous.items ≡
            superfluous_of self.now) }
        ensures malformed { IfOk result (λ report. AreMalformed self.now report.malformed.items) }
    {
        let asked = self.entry_type.requirements(alloc)?;
        Ok(Report {
            missing: self.missing_fields(alloc, &asked)?,
            superfluous: self.superfluous_fields(alloc, &asked)?,
            malformed: self.malformed_fields(alloc)?,
        })
    }
}
