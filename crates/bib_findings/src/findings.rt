//! The findings of the text of a file.

ghost use Rattle.std.specs.Prelude.{◌≡◌, ◌<◌, ◌++◌, All, length, map, IfOk, OnOk};
ghost use Rattle.std.specs.BTreeMap.{get_by_text};
ghost use Rattle.bib_tables.specs.Requirements.{texts};
ghost use Rattle.bib_syntax.specs.Views.{entry_reading_of, field_of, file_of};
ghost use Rattle.bib_findings.specs.Adding.{Adds};
ghost use Rattle.bib_findings.specs.Duplicates.{entries_at};
ghost use Rattle.bib_findings.specs.Entries.{AreOfEach};
ghost use Rattle.bib_findings.specs.Findings.{AreBetween, AreFindings, AreFindingsIn, AreFindingsOf, AreOfEntry, AreOfKept, AreSortedByPlace, entries_said, own_findings, reading_findings, single_findings, text_findings};
ghost use Rattle.bib_findings.specs.Lacking.{with_flags};
ghost use Rattle.bib_findings.specs.Met.{AreFieldNames};

use crate::comments::add_comments;
use crate::cuts::whole_origins;
use crate::definitions::add_redefinitions;
use crate::demands::reported_missing;
use crate::duplicates::add_duplicates;
use crate::entries::add_report;
use crate::errors::{add_blocks, add_errors};
use crate::fields::{add_address, add_empty, add_empty_key, add_repeated};
use crate::finding::Finding;
use crate::html::add_printed_fields;
use crate::key_cases::add_cases;
use crate::lacking::{flag_at, lacking_flags};
use crate::malformed_dates::add_dates;
use crate::names::{FieldName, add_misspelled_fields};
use crate::once::add_once;
use crate::parent_order::add_early;
use crate::people::add_names;
use crate::quotes::{add_defined_quotes, add_quotes};
use crate::references::add_references;
use crate::standard_numbers::add_numbers;
use crate::stray::add_strays;
use crate::types::add_misspelled_type;
use crate::unused_definitions::add_unused;
use crate::urls::add_url;
use crate::years::add_years;
use bib_collections::names::Names;
use bib_entry::entry::Entry;
use bib_file_entries::keeping::{KeptEntries, keep};
use bib_inheritance::recovering::resolve_readable;
use bib_syntax::raw::{Pair, ParseError, RawBibliography, RawEntry, RawRecovery, SkippedBlock};
use bib_text::spanned::Spanned;
use std::alloc::{AllocError, Global};
use std::collections::BTreeMap;

// Appends the findings of an empty key, repeated and empty fields, wrong numbers, a DOI with an address or a scheme, a URL without a
// scheme, and malformed dates. `missing` has the missing fields of the entry.
fn add_own(
    alloc: Global,
    found: &mut Vec<Finding>,
    missing: &[&'static str],
    said: &Spanned<RawEntry<'_>>,
    entry: &Entry,
) -> Result<(), AllocError>
    ensures { OnOk result (found.new.items ≡ found.old.items ++
        own_findings (texts missing.now) (entry_reading_of said.now) entry.now) }
{
    add_empty_key(alloc, found, said)?;
    add_repeated(alloc, found, said)?;
    add_empty(alloc, found, missing, said)?;
    add_numbers(alloc, found, said)?;
    add_address(alloc, found, said)?;
    add_url(alloc, found, said)?;
    add_dates(alloc, found, said, entry)
}

// Appends the findings of two different years, malformed names, and HTML or special characters of an entry.
fn add_texts(
    alloc: Global,
    found: &mut Vec<Finding>,
    said: &Spanned<RawEntry<'_>>,
    entry: &Entry,
) -> Result<(), AllocError>
    ensures { OnOk result (found.new.items ≡ found.old.items ++ text_findings (entry_reading_of said.now) entry.now) }
{
    add_years(alloc, found, said, entry)?;
    add_names(alloc, found, said)?;
    add_printed_fields(alloc, found, said)
}

// Appends the findings of a key and of single fields of an entry with these missing fields.
fn add_single(
    alloc: Global,
    found: &mut Vec<Finding>,
    missing: &[&'static str],
    said: &Spanned<RawEntry<'_>>,
    entry: &Entry,
) -> Result<(), AllocError>
    ensures { OnOk result (found.new.items ≡ found.old.items ++
        single_findings (texts missing.now) (entry_reading_of said.now) entry.now) }
{
    add_own(alloc, found, missing, said, entry)?;
    add_texts(alloc, found, said, entry)
}

// Appends the findings of an entry, with its raw form `said` and these missing fields. `met` caches the field names.
fn add_entry(
    alloc: Global,
    found: &mut Vec<Finding>,
    met: &mut BTreeMap<String, FieldName>,
    missing: &[&'static str],
    said: &Spanned<RawEntry<'_>>,
    entry: &Entry,
) -> Result<(), AllocError>
    requires { AreFieldNames (get_by_text met.old) }
    ensures met { OnOk result (AreFieldNames (get_by_text met.new)) }
    ensures added { OnOk result (Adds (AreOfEntry (texts missing.now) (entry_reading_of said.now) entry.now)
        found.old.items found.new.items) }
{
    add_misspelled_type(alloc, found, said)?;
    add_report(alloc, found, missing, said, entry)?;
    add_misspelled_fields(alloc, found, met, said)?;
    add_single(alloc, found, missing, said, entry)
}

// Appends the findings of entries. `origins` contains the index of each in `said`, and `lacking` whether fields of each may be lost.
fn add_entries(
    alloc: Global,
    found: &mut Vec<Finding>,
    lacking: &[bool],
    said: &[Spanned<RawEntry<'_>>],
    origins: &[usize],
    entries: &[Entry],
) -> Result<(), AllocError>
    requires same_length { length origins.now ≡ length entries.now }
    requires there { All (λ index. index < length said.now) origins.now }
    ensures { OnOk result (Adds (AreOfEach AreOfKept (map entry_reading_of said.now) origins.now (with_flags lacking.now entries.now))
        found.old.items found.new.items) }
{
    let mut met = BTreeMap::new(alloc);
    'entries: for index in 0..entries.len() {
        let one = &said[origins[index]];
        let entry = &entries[index];
        let may_lack = flag_at(lacking, index);
        let missing = reported_missing(alloc, may_lack, one, entry)?;
        add_entry(alloc, found, &mut met, &missing, one, entry)?;
    }
    Ok(())
}

// Appends the findings of text that BibTeX or Biber reads otherwise: comments in entries, and texts in quotes with unbalanced braces in
// entries and in definitions of abbreviations. `text` is the text of the file. `origins` contains the index of each entry in `said`.
fn add_readings(
    alloc: Global,
    found: &mut Vec<Finding>,
    text: &str,
    said: &[Spanned<RawEntry<'_>>],
    origins: &[usize],
    definitions: &[Pair<'_>],
) -> Result<(), AllocError>
    requires { All (λ index. index < length said.now) origins.now }
    ensures { OnOk result (found.new.items ≡ found.old.items ++
        reading_findings text.now (entries_at (entries_said said.now) origins.now) (map field_of definitions.now)) }
{
    add_comments(alloc, found, text, said, origins)?;
    add_quotes(alloc, found, text, said, origins)?;
    add_defined_quotes(alloc, found, text, definitions)
}

/// Returns the findings between entries, with only the fields that each entry has itself. They are, in this order: keys that an
/// entry refers to and no kept entry has; entries that are likely the same work as an earlier one; text after an entry that reads
/// as a field; keys that differ only in ASCII case; parents that come before their children; names that are reported once in a file;
/// abbreviations that are defined again with another value; comments in entries; and texts in quotes with unbalanced braces, first those
/// of entries. `text` is the text of the file, `skipped` contains its skipped blocks, and `definitions` contains its definitions of
/// abbreviations. If `text` is that of several files, `ends` contains the offset at which each of them ends. `origins` contains the index
/// of each entry in `said`, the raw entries of the file. An entry that begins where a skipped block begins is no likely duplicate, and the
/// text after it isn't tested. Fails only if out of memory.
pub fn between(
    alloc: Global,
    text: &str,
    ends: &[usize],
    skipped: &[SkippedBlock],
    said: &[Spanned<RawEntry<'_>>],
    origins: &[usize],
    names: &Names,
    own: &[Entry],
    definitions: &[Pair<'_>],
) -> Result<Vec<Finding>, AllocError>
    requires same_length { length origins.now ≡ length own.now }
    requires there { All (λ index. index < length said.now) origins.now }
    ensures { IfOk result (λ found. AreBetween text.now ends.now skipped.now names.now (entries_said said.now) origins.now own.now
        (map field_of definitions.now) found.items) }
{
    let mut found = Vec::new(alloc);
    add_references(alloc, &mut found, names, said, origins, own)?;
    let whole = whole_origins(alloc, skipped, said, origins)?;
    add_duplicates(alloc, &mut found, said, &whole)?;
    add_strays(alloc, &mut found, text, said, &whole)?;
    add_cases(alloc, &mut found, said, origins)?;
    add_early(alloc, &mut found, said, origins)?;
    add_once(alloc, &mut found, ends, said, origins)?;
    add_redefinitions(alloc, &mut found, definitions)?;
    add_readings(alloc, &mut found, text, said, origins, definitions)?;
    Ok(found)
}

/// Returns findings sorted by their starts. Findings with the same start keep their order. Fails only if out of memory.
pub fn sorted_by_place(found: Vec<Finding>) -> Result<Vec<Finding>, AllocError>
    ensures { IfOk result (λ sorted. AreSortedByPlace found.items sorted.items) }
{
    let mut found = found;
    found.sort_by_key(|finding| finding.span.start)?;
    Ok(found)
}

/// Returns the findings of skipped blocks, of errors and of entries, and `between`, sorted by their starts. `text` is the recovered text.
/// `skipped` contains its skipped blocks, `definitions` its definitions of abbreviations, `errors` the errors, `entries` the kept entries,
/// and `between` the findings between them.
/// `origins` contains the index of each entry in `said`, the raw entries of the file. `lacking` contains for each entry whether fields of
/// it may be lost (see `lacking_flags`). Fails only if out of memory.
pub fn findings_in(
    alloc: Global,
    text: &str,
    skipped: &[SkippedBlock],
    lacking: &[bool],
    definitions: &[Pair<'_>],
    errors: &[ParseError],
    said: &[Spanned<RawEntry<'_>>],
    origins: &[usize],
    entries: &[Entry],
    between: Vec<Finding>,
) -> Result<Vec<Finding>, AllocError>
    requires same_length { length origins.now ≡ length entries.now }
    requires there { All (λ index. index < length said.now) origins.now }
    ensures { IfOk result (λ found. AreFindingsIn text.now skipped.now lacking.now (map field_of definitions.now) errors.now
        (entries_said said.now) origins.now entries.now between.items found.items) }
{
    let mut between = between;
    let mut found = Vec::new(alloc);
    add_blocks(alloc, &mut found, text, said, skipped)?;
    add_errors(alloc, &mut found, definitions, errors)?;
    add_entries(alloc, &mut found, lacking, said, origins, entries)?;
    found.append(&mut between)?;
    sorted_by_place(found)
}

/// Returns the findings of a recovered text, sorted by their starts, with the codes of `findings` except `UnusedDefinition`. Spans are in
/// bytes of the text. The text may be that of several files (`JoinedFiles`), which end at the offsets `ends`. Then a file can use the
/// definitions and the entries of the others, and an entry can be a duplicate of one in another file. For one file, `ends` is empty. Fails
/// only if out of memory.
pub fn findings_of(
    alloc: Global,
    text: &str,
    ends: &[usize],
    recovery: &RawRecovery<'_>,
) -> Result<Vec<Finding>, AllocError>
    ensures { IfOk result (λ found. AreFindingsOf text.now ends.now (file_of recovery.now.raw) recovery.now.skipped.items found.items) }
{
    let RawRecovery { raw, skipped } = recovery;
    let KeptEntries {
        mut entries,
        names,
        spans,
        origins,
        mut errors,
    } = keep(alloc, raw)?;
    let said = &raw.entries;
    let definitions = raw.abbreviations.as_slice();
    let linked = between(
        alloc,
        text,
        ends,
        skipped,
        said,
        &origins,
        &names,
        &entries,
        definitions,
    )?;
    let lacking = lacking_flags(alloc, skipped, &names, said, &origins, &entries)?;
    let mut unresolved = resolve_readable(alloc, &spans, &names, &mut entries)?;
    errors.append(&mut unresolved)?;
    findings_in(
        alloc,
        text,
        skipped,
        &lacking,
        definitions,
        &errors,
        said,
        &origins,
        &entries,
        linked,
    )
}

/// Returns all findings of the text of a bibliography file, sorted by their starts. Recovers the text as
/// `Bibliography::recover` does, so the complete fields of an entry with a syntax error have findings too. Spans are in bytes of
/// the text. Besides those of `findings_of`, it returns the findings of abbreviations that nothing in this text uses. The codes
/// `UnreadBytes`, `EscapeSequence`, `MissingEntry` and `UnusedEntry` don't occur, because they are about the bytes of the file or about
/// documents. Fails only if out of memory.
pub fn findings(alloc: Global, text: &str) -> Result<Vec<Finding>, AllocError>
    ensures { IfOk result (λ found. AreFindings text.now found.items) }
{
    let recovery = RawBibliography::recover_parts(alloc, text)?;
    let mut found = findings_of(alloc, text, &[], &recovery)?;
    add_unused(alloc, &mut found, &recovery)?;
    sorted_by_place(found)
}
