//! Recovery: bibliographies of texts with errors.

ghost use Rattle.std.specs.Prelude.{IfOk};
ghost use Rattle.biblatex.specs.BibliographyRecovery.{IsRecoveredBibliography};

use crate::bibliography::Bibliography;
use bib_file_entries::keeping::{KeptEntries, keep};
use bib_inheritance::recovering::resolve_readable;
use bib_syntax::raw::{ParseError, RawBibliography, RawRecovery, SkippedBlock};
use std::alloc::{AllocError, Global};

/// The result of parsing a text with errors: the bibliography, and the errors.
#[derive(Debug, Drop)]
pub struct BibliographyRecovery {
    /// The bibliography of the kept entries, after inheriting.
    pub bibliography: Bibliography,
    /// For each entry of the bibliography, in order, its index among the entries that `RawBibliography::recover_parts` returns
    /// for the text. The raw entry contains the spans of its key, fields and values. If a skipped block begins where the raw
    /// entry does, only the complete parts of the entry are kept.
    pub origins: Vec<usize>,
    /// The skipped blocks of the text, each with its syntax error.
    pub skipped: Vec<SkippedBlock>,
    /// The other errors. First, in the order of the entries and of their fields: undefined abbreviations, and the fields and
    /// entries that are left out. For a field that is left out, the errors of its abbreviations come first. Then the entries
    /// on cycles. Then the entries that lack a required date and refer to an entry that has `year` but no `date`, and whose
    /// `year`, `month` and `day` can't be parsed.
    pub errors: Vec<ParseError>,
}

impl Bibliography {
    /// Parses a bibliography file as far as possible, and returns the errors. Spans are in bytes of the text, except for some
    /// errors of dates (see `from_raw`). Each skipped block has one syntax error. No errors are returned for the fields of an
    /// entry that is left out.
    ///
    /// The result has no skipped blocks and no errors exactly if `parse` accepts the text, and its bibliography is then that
    /// of `parse`. Otherwise the parts with errors are removed or replaced, and the rest is parsed as by `parse`:
    ///
    /// - A block with a syntax error is skipped, up to the next at sign with only white space before it on its line. Without
    /// such an at sign, it is skipped up to the end of the text. Its complete parts are kept: the key and the fields of an
    /// entry, or the definitions of abbreviations. They end before the first that isn't complete, or before a missing comma.
    /// - An entry whose key an earlier kept entry claimed is left out (`DuplicateKey`), and so is a field that can't be
    /// parsed.
    /// - An entry that refers to itself by `crossref` or `xdata`, directly or through others, loses these two fields
    /// (`ReferenceCycle`).
    /// - A name in a field that is neither defined nor the abbreviation of a month is replaced by its text
    /// (`UnknownAbbreviation`).
    /// - An entry that lacks a required date doesn't inherit one from an entry that has `year` but no `date`, and whose
    /// `year`, `month` and `day` can't be parsed (`ResolutionError`).
    ///
    /// The only returned error is out of memory.
    pub fn recover(alloc: Global, src: &str) -> Result<BibliographyRecovery, AllocError>
        ensures { IfOk result (λ found. IsRecoveredBibliography src.now found.bibliography found.origins.items
            found.skipped.items found.errors.items) }
    {
        let RawRecovery { raw, skipped } = RawBibliography::recover_parts(alloc, src)?;
        let KeptEntries {
            mut entries,
            names,
            spans,
            origins,
            mut errors,
        } = keep(alloc, &raw)?;
        let mut unresolved = resolve_readable(alloc, &spans, &names, &mut entries)?;
        errors.append(&mut unresolved)?;
        Ok(BibliographyRecovery {
            bibliography: Bibliography::from_names(entries, names),
            origins,
            skipped,
            errors,
        })
    }
}
