//! Compares the citations of a document with the entries of files.

ghost use Rattle.std.specs.Prelude.{◌≡◌, ◌&&◌, ◌||◌, not, [], ◌∷◌, ◌++◌, codes, eqb, if◌then◌else◌, map, IfOk, OnOk};
ghost use Rattle.std.specs.List.{ends_with};
ghost use Rattle.bib_syntax.specs.Views.{entry_reading_of, part_of};
ghost use Rattle.bibkit_core.specs.Compared.{AreCitedBy, cited_keys, missing_among, missing_finding, unused_finding, unused_findings};
ghost use Rattle.bibkit_core.specs.Marks.{AreKnownWith, AreUncited, AreUnused, BeginsDocument, IsSameDocument, either_mark, unmarked_findings};

use crate::conditions::{all_names, name_set};
use crate::lint::Origin;
use bib_findings::codes::Code;
use bib_findings::finding::Finding;
use bib_queries::citations::{Citation, Citations, in_aux, in_bcf};
use bib_queries::known::{find_uncited, mark_known, uncited_in};
use bib_syntax::raw::RawEntry;
use bib_text::spanned::Spanned;
use bib_text::text::Text;
use std::alloc::{AllocError, Global};

/// A document with its citations, each with a mark: whether one of the files so far has an entry for it.
#[derive(Drop)]
pub struct Document<'t> {
    name: &'t str,
    text: &'t str,
    has_unused: bool,
    citations: Citations,
    known: Vec<bool>,
}

// Returns whether the file name is that of a control file of Biber (.bcf).
fn is_control_file(name: &str) -> bool
    ensures { result ≡ ends_with eqb name.now (codes ".bcf") }
{
    name.ends_with(".bcf")
}

/// Returns the citations in the file `name` of a document with this text: a control file of Biber if the name ends with `.bcf`,
/// otherwise an .aux file.
pub fn citations(alloc: Global, name: &str, text: &str) -> Result<Citations, AllocError>
    ensures { IfOk result (AreCitedBy name.now text.now) }
{
    if is_control_file(name) {
        in_bcf(alloc, text)
    } else {
        in_aux(alloc, text)
    }
}

/// Returns the keys of the citations.
pub fn keys(alloc: Global, citations: &Citations) -> Result<Vec<&str>, AllocError>
    ensures { IfOk result (λ keys. map (λ key. key.now) keys.items ≡ cited_keys citations.now) }
{
    let mut keys = Vec::new(alloc);
    'citations: for citation in &citations.keys {
        keys.push(citation.key.as_str())?;
    }
    Ok(keys)
}

// Returns whether one of two marks is true.
fn is_either(one: bool, other: bool) -> bool
    ensures { result ≡ (one || other) }
{
    one || other
}

// Returns a list as long as the shorter list. Each of its marks is true if one of the two marks at its index is true.
fn either(alloc: Global, first: &[bool], second: &[bool]) -> Result<Vec<bool>, AllocError>
    ensures { IfOk result (λ marks. marks.items ≡ either_mark first.now second.now) }
{
    let mut marks = Vec::new(alloc);
    'marks: for (one, other) in first.iter().zip(second) {
        marks.push(is_either(*one, *other))?;
    }
    Ok(marks)
}

// Returns the finding of a citation for which no file has an entry.
fn missing_entry(alloc: Global, citation: &Citation) -> Result<Finding, AllocError>
    ensures { IfOk result (λ finding. finding ≡ missing_finding citation.now) }
{
    let message = format!(in alloc; "no file has an entry \"{}\"", citation.key.as_str())?;
    Ok(Finding {
        code: Code::MissingEntry,
        span: citation.at..citation.at,
        message: Text::from_string(message),
    })
}

// Returns the finding of an entry that the document doesn't cite, at its key.
fn unused_entry(alloc: Global, key: &Spanned<&str>) -> Result<Finding, AllocError>
    ensures { IfOk result (λ finding. finding ≡ unused_finding (part_of key.now)) }
{
    let message = format!(in alloc; "{}: never cited", key.v)?;
    Ok(Finding {
        code: Code::UnusedEntry,
        span: key.span.start..key.span.end,
        message: Text::from_string(message),
    })
}

// Returns the findings of the entries with these keys, which the document doesn't cite.
fn unused_entries(alloc: Global, keys: &[Spanned<&str>]) -> Result<Vec<Finding>, AllocError>
    ensures { IfOk result (λ found. found.items ≡ map unused_finding (map part_of keys.now)) }
{
    let mut found = Vec::new(alloc);
    'keys: for key in keys {
        found.push(unused_entry(alloc, key)?)?;
    }
    Ok(found)
}

// Appends the finding of a citation unless a file has an entry for it.
fn push_unless_known(
    alloc: Global,
    found: &mut Vec<Finding>,
    citation: &Citation,
    is_known: bool,
) -> Result<(), AllocError>
    ensures { OnOk result (found.new.items ≡ found.old.items ++ (if is_known then [] else missing_finding citation.now ∷ [])) }
{
    if is_known {
        return Ok(());
    }
    found.push(missing_entry(alloc, citation)?)?;
    Ok(())
}

// Returns the findings of the citations whose mark is false. A mark belongs to the citation at the same index.
fn unmarked_findings(
    alloc: Global,
    citations: &[Citation],
    known: &[bool],
) -> Result<Vec<Finding>, AllocError>
    ensures { IfOk result (λ found. found.items ≡ unmarked_findings citations.now known.now) }
{
    let mut found = Vec::new(alloc);
    'citations: for (citation, is_known) in citations.iter().zip(known) {
        push_unless_known(alloc, &mut found, citation, *is_known)?;
    }
    Ok(found)
}

impl<'t> Document<'t> {
    /// Returns the document whose .aux or .bcf file has this name and text, without a marked citation. `has_unused` requests the findings
    /// of entries that it doesn't cite.
    pub fn new(
        alloc: Global,
        name: &'t str,
        text: &'t str,
        has_unused: bool,
    ) -> Result<Self, AllocError>
        ensures { IfOk result (BeginsDocument name.now text.now has_unused) }
    {
        let citations = citations(alloc, name, text)?;
        let known = vec![in alloc; false; citations.keys.len()]?;
        Ok(Document {
            name,
            text,
            has_unused,
            citations,
            known,
        })
    }

    /// Returns the name of the document's file, and the bytes of its decoded text, for the positions of findings in it.
    pub fn origin(&self) -> Origin<'t>
        ensures name { result.name.now ≡ self.now.name.now }
        ensures bytes { result.bytes.now ≡ self.now.text.now }
    {
        Origin {
            name: self.name,
            bytes: self.text.as_bytes(),
        }
    }

    /// Marks the citations for which a file with this text has an entry. Returns the findings of its entries that the document
    /// doesn't cite, or none if they aren't requested or the document cites all entries.
    pub fn compare(&mut self, alloc: Global, text: &str) -> Result<Vec<Finding>, AllocError>
        ensures same { OnOk result (IsSameDocument self.old self.new) }
        ensures known { OnOk result (AreKnownWith text.now self.old self.new.known.items) }
        ensures unused { IfOk result (λ found. AreUnused self.old text.now found.items) }
    {
        let unused = self.unused_findings(alloc, text)?;
        self.known = self.known_with(alloc, text)?;
        Ok(unused)
    }

    // Returns the marks of the citations after a file with this text. A mark is true if it was true before, or if the file has an entry for
    // the citation.
    fn known_with(&self, alloc: Global, text: &str) -> Result<Vec<bool>, AllocError>
        ensures { IfOk result (λ known. AreKnownWith text.now self.now known.items) }
    {
        let keys = keys(alloc, &self.citations)?;
        let here = mark_known(alloc, text, &keys)?;
        either(alloc, &self.known, &here)
    }

    // Returns whether entries that the document doesn't cite are requested, and the document doesn't cite all entries.
    fn asks_for_unused(&self) -> bool
        ensures { result ≡ (self.now.has_unused && not self.now.citations.all) }
    {
        self.has_unused && !self.citations.all
    }

    // Returns the findings of the entries of a file that have no name among the keys of the citations.
    fn uncited_entries(&self, alloc: Global, text: &str) -> Result<Vec<Finding>, AllocError>
        ensures { IfOk result (λ found. AreUncited text.now (cited_keys self.now.citations) found.items) }
    {
        let keys = keys(alloc, &self.citations)?;
        let uncited = find_uncited(alloc, text, &keys)?;
        let found = unused_entries(alloc, &uncited)?;
        Ok(found)
    }

    // Returns the findings of the entries of a file that the document doesn't cite. Returns none if they aren't requested, or if the
    // document cites all entries.
    fn unused_findings(&self, alloc: Global, text: &str) -> Result<Vec<Finding>, AllocError>
        ensures { IfOk result (λ found. AreUnused self.now text.now found.items) }
    {
        if self.asks_for_unused() {
            self.uncited_entries(alloc, text)
        } else {
            Ok(Vec::new(alloc))
        }
    }

    /// Returns the findings of the entries in `entries` that the document doesn't cite. Returns none if they aren't requested, or if the
    /// document cites all entries.
    pub fn unused_among(
        &self,
        alloc: Global,
        entries: &[Spanned<RawEntry<'_>>],
    ) -> Result<Vec<Finding>, AllocError>
        ensures { IfOk result (λ found. found.items ≡
            unused_findings self.now.has_unused self.now.citations (map entry_reading_of entries.now)) }
    {
        if !self.asks_for_unused() {
            return Ok(Vec::new(alloc));
        }
        let keys = keys(alloc, &self.citations)?;
        let uncited = uncited_in(alloc, entries, &keys)?;
        let found = unused_entries(alloc, &uncited)?;
        Ok(found)
    }

    /// Returns the findings of the citations that are the names of none of these entries.
    pub fn missing_among(
        &self,
        alloc: Global,
        entries: &[Spanned<RawEntry<'_>>],
    ) -> Result<Vec<Finding>, AllocError>
        ensures { IfOk result (λ found. found.items ≡
            missing_among (map entry_reading_of entries.now) self.now.citations.keys.items) }
    {
        let names = all_names(alloc, entries)?;
        let set = name_set(alloc, &names)?;
        let mut found = Vec::new(alloc);
        'citations: for citation in &self.citations.keys {
            push_unless_known(
                alloc,
                &mut found,
                citation,
                set.contains(citation.key.as_str()),
            )?;
        }
        Ok(found)
    }

    /// Returns the findings of the citations for which no file so far has an entry.
    pub fn missing_findings(&self, alloc: Global) -> Result<Vec<Finding>, AllocError>
        ensures { IfOk result (λ found. found.items ≡ unmarked_findings self.now.citations.keys.items self.now.known.items) }
    {
        unmarked_findings(alloc, &self.citations.keys, &self.known)
    }
}
