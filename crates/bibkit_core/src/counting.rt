//! The task that counts the entries, types, fields, years and findings of files, and prints the counts at the end.

ghost use Rattle.std.specs.Prelude.{◌≡◌, [], ◌∷◌, ◌++◌, ℕ, List, map, IfOk, OnOk};
ghost use Rattle.std.specs.Option.{option_map};
ghost use Rattle.std.specs.Str.{str_to_ascii_lowercase};
ghost use Rattle.std.specs.String.{string_bytes};
ghost use Rattle.bib_syntax.specs.Views.{entry_reading_of, field_of, piece_of};
ghost use Rattle.bibkit_core.specs.Stats as spec;
ghost use Rattle.bibkit_core.specs.Stats.{none_counted};
ghost use Rattle.bibkit_core.specs.Totals.{AddsEntries, AddsFindings, AddsNames, AddsTextEntries, AddsTextFindings, AreCountsOf, EndsCounting, PrintsCounting};

use crate::decoding::decode_bytes;
use crate::tables::Counts;
use crate::task::{End, Task};
use bib_findings::finding::Finding;
use bib_findings::findings::findings;
use bib_findings::places::last_named;
use bib_text::digits::are_digits;
use biblatex::{Pair, RawBibliography, RawChunk, RawEntry, Spanned};
use std::alloc::{AllocError, Global};

/// The counts of the files so far.
#[derive(Drop)]
pub struct Counting {
    entries: u64,
    types: Counts,
    fields: Counts,
    years: Counts,
    findings: Counts,
}

// Returns a name with its ASCII letters in lowercase.
fn lowercase(alloc: Global, name: &str) -> Result<String, AllocError>
    ensures { IfOk result (λ lowered. string_bytes lowered ≡ str_to_ascii_lowercase name.now) }
{
    name.to_ascii_lowercase(alloc)
}

// Returns the text of a literal without the white space around it, or `None` for an abbreviation.
fn literal_text<'s>(piece: &Spanned<RawChunk<'s>>) -> Option<&'s str>
    ensures { option_map (λ text. text.now) result ≡ spec.trimmed_literal (piece_of piece.now) }
{
    match piece.v {
        RawChunk::Normal(text) => Some(text.trim()),
        RawChunk::Abbreviation(_) => None,
    }
}

// Returns the trimmed text of the first piece of a value. Returns `None` if the first piece is an abbreviation or missing.
fn first_text<'s>(pieces: &[Spanned<RawChunk<'s>>]) -> Option<&'s str>
    ensures { option_map (λ text. text.now) result ≡ spec.first_text (map piece_of pieces.now) }
{
    match pieces {
        [] => None,
        [first, ..] => literal_text(first),
    }
}

// Returns the trimmed text of the first piece of the last field with this name. Returns `None` if there is no such field, or if its
// first piece isn't a literal.
fn text_of_last<'s>(fields: &[Pair<'s>], name: &str) -> Option<&'s str>
    ensures { option_map (λ text. text.now) result ≡ spec.text_of_last (map field_of fields.now) name.now }
{
    match last_named(fields, name) {
        Some(field) => first_text(&field.value.v),
        None => None,
    }
}

// Returns the trimmed text of the first piece of the last field `date`. If `date` is missing or its first piece isn't a literal, returns
// that text of the last field `year`.
fn date_text<'s>(fields: &[Pair<'s>]) -> Option<&'s str>
    ensures { option_map (λ text. text.now) result ≡ spec.text_of_date (map field_of fields.now) }
{
    match text_of_last(fields, "date") {
        Some(text) => Some(text),
        None => text_of_last(fields, "year"),
    }
}

// Returns the text before the first hyphen, or the whole text without one.
fn before_hyphen(text: &str) -> &str
    ensures { result.now ≡ spec.before_hyphen text.now }
{
    match text.split_once('-') {
        Some((before, _)) => before,
        None => text,
    }
}

// Returns the text before the first slash, or the whole text without one.
fn before_slash(text: &str) -> &str
    ensures { result.now ≡ spec.before_slash text.now }
{
    match text.split_once('/') {
        Some((before, _)) => before,
        None => text,
    }
}

// Returns whether a text is one or more ASCII digits.
fn is_number(text: &str) -> bool
    ensures { result ≡ spec.is_number text.now }
{
    !text.is_empty() && are_digits(text.as_bytes())
}

// Returns the text before the first hyphen or slash, or the whole text without one. Returns `None` if it isn't one or more ASCII digits.
fn leading_year(text: &str) -> Option<&str>
    ensures { option_map (λ year. year.now) result ≡ spec.leading_year text.now }
{
    let year = before_slash(before_hyphen(text));
    if is_number(year) { Some(year) } else { None }
}

// Returns the year of an entry with these fields: the leading year of the field `date`, or that of `year` if `date` is missing or
// doesn't begin with a literal. If the text of `date` has no leading year, returns `None`, whatever `year` contains.
fn year_of<'s>(fields: &[Pair<'s>]) -> Option<&'s str>
    ensures { option_map (λ year. year.now) result ≡ spec.year_in (map field_of fields.now) }
{
    match date_text(fields) {
        Some(text) => leading_year(text),
        None => None,
    }
}

// Counts the names of fields, with their ASCII letters in lowercase.
fn count_fields(alloc: Global, counts: &mut Counts, fields: &[Pair<'_>]) -> Result<(), AllocError>
    ensures { OnOk result (AddsNames (spec.lowercase_names (map field_of fields.now)) counts.old counts.new) }
{
    'fields: for field in fields {
        counts.add(lowercase(alloc, field.key.v)?)?;
    }
    Ok(())
}

// Counts the year of an entry with these fields, if it has one.
fn count_year(alloc: Global, counts: &mut Counts, fields: &[Pair<'_>]) -> Result<(), AllocError>
    ensures { OnOk result (AddsNames (spec.years_in (map field_of fields.now)) counts.old counts.new) }
{
    match year_of(fields) {
        Some(year) => {
            counts.add(String::from_str(alloc, year)?)?;
            Ok(())
        }
        None => Ok(()),
    }
}

impl Counting {
    /// Returns the task before the first file.
    pub fn new(alloc: Global) -> Self
        ensures { AreCountsOf none_counted result }
    {
        Counting {
            entries: 0,
            types: Counts::new(alloc),
            fields: Counts::new(alloc),
            years: Counts::new(alloc),
            findings: Counts::new(alloc),
        }
    }

    // Counts an entry, its type and the names of its fields, with their ASCII letters in lowercase, and its year.
    fn add_entry(&mut self, alloc: Global, entry: &Spanned<RawEntry<'_>>) -> Result<(), AllocError>
        ensures { OnOk result (AddsEntries (entry_reading_of entry.now ∷ []) self.old self.new) }
    {
        self.entries = self.entries.saturating_add(1);
        self.types.add(lowercase(alloc, entry.v.kind.v)?)?;
        count_fields(alloc, &mut self.fields, &entry.v.fields)?;
        count_year(alloc, &mut self.years, &entry.v.fields)?;
        Ok(())
    }

    // Counts entries.
    fn add_entries(
        &mut self,
        alloc: Global,
        entries: &[Spanned<RawEntry<'_>>],
    ) -> Result<(), AllocError>
        ensures { OnOk result (AddsEntries (map entry_reading_of entries.now) self.old self.new) }
    {
        'entries: for entry in entries {
            self.add_entry(alloc, entry)?;
        }
        Ok(())
    }

    // Counts the entries of a text that can be parsed.
    fn add_text(&mut self, alloc: Global, text: &str) -> Result<(), AllocError>
        ensures { OnOk result (AddsTextEntries text.now self.old self.new) }
    {
        let said = RawBibliography::recover(alloc, text)?;
        self.add_entries(alloc, &said.raw.entries)?;
        Ok(())
    }

    // Counts findings by their codes.
    fn add_found(&mut self, alloc: Global, found: &[Finding]) -> Result<(), AllocError>
        ensures { OnOk result (AddsFindings found.now self.old self.new) }
    {
        'findings: for finding in found {
            self.findings
                .add(String::from_str(alloc, finding.code.name())?)?;
        }
        Ok(())
    }

    // Counts the findings of a text.
    fn add_findings(&mut self, alloc: Global, text: &str) -> Result<(), AllocError>
        ensures { OnOk result (AddsTextFindings text.now self.old self.new) }
    {
        let found = findings(alloc, text)?;
        self.add_found(alloc, &found)?;
        Ok(())
    }
}

impl Task for Counting {
    ghost begins = { λ task. [] };

    ghost prints = { PrintsCounting };

    ghost messages = { λ task. [] };

    ghost ends = { EndsCounting };

    fn begin(&self) -> &'static str {
        ""
    }

    fn file(&mut self, alloc: Global, _name: &str, bytes: &[u8]) -> Result<String, AllocError> {
        let decoded = decode_bytes(alloc, bytes)?;
        self.add_text(alloc, decoded.text.as_str())?;
        self.add_findings(alloc, decoded.text.as_str())?;
        Ok(String::new(alloc))
    }

    fn messages(&self) -> &str {
        ""
    }

    fn end(&mut self, alloc: Global) -> Result<End, AllocError> {
        let mut text = format!(in alloc; "entries: {}\n", self.entries)?;
        self.types.push_by_count(alloc, &mut text, "types")?;
        self.fields.push_by_count(alloc, &mut text, "fields")?;
        self.years.push_by_name(alloc, &mut text, "years")?;
        self.findings.push_by_count(alloc, &mut text, "findings")?;
        Ok(End { text, status: 0 })
    }
}
