//! The entries of a file that meet conditions, and the findings that are about these entries.

ghost use Rattle.std.specs.Prelude.{◌≡◌, ◌||◌, ◌&&◌, ◌++◌, ◌∷◌, [], ℕ, List, codes, false, filter, get_or, if◌then◌else◌, map, nat_le, nat_lt, IfOk, OnOk};
ghost use Rattle.std.specs.BTreeSet.{contains};
ghost use Rattle.std.specs.List.{list_any};
ghost use Rattle.std.specs.Option.{option_map};
ghost use Rattle.std.specs.Ordering.{nat_cmp};
ghost use Rattle.bib_syntax.specs.Reading.{EntryReading};
ghost use Rattle.bib_syntax.specs.Views.{entry_reading_of, file_of};
ghost use Rattle.bib_syntax.specs.declared.raw.recovery.SkippedBlock.{SkippedBlock};
ghost use Rattle.bib_queries.specs.Elements.{text_after_part};
ghost use Rattle.bib_queries.specs.Known as known;
ghost use Rattle.bib_queries.specs.Needed.{is_listed};
ghost use Rattle.bib_queries.specs.Sets.{is_in_set};
ghost use Rattle.bibkit_core.specs.Conditions as spec;
ghost use Rattle.bibkit_core.specs.Conditions.{AreAboutSelected, AreResolvedEntries, AreReportedAmong, AreReportedFindings, begins_one, entries_with, is_in, is_in_block, is_in_one};

use bib_entry::entry::Entry;
use bib_file_entries::keeping::{KeptEntries, keep};
use bib_findings::codes::Code;
use bib_findings::finding::Finding;
use bib_inheritance::recovering::resolve_readable;
use bib_queries::names::entry_names;
use bib_select::selection::Selection;
use bib_syntax::raw::{RawRecovery, SkippedBlock};
use bib_text::spanned::Spanned;
use biblatex::{Bibliography, RawBibliography, RawEntry};
use std::alloc::{AllocError, Global};
use std::collections::BTreeSet;

// Returns whether an entry meets all conditions.
fn meets_all(alloc: Global, conditions: &[Selection], entry: &Entry) -> Result<bool, AllocError>
    ensures { IfOk result (λ met. met ≡ spec.meets_all conditions.now entry.now) }
{
    'conditions: for condition in conditions {
        if !condition.selects(alloc, entry)? {
            return Ok(false);
        }
    }
    Ok(true)
}

// Appends the key of an entry if the entry meets all conditions.
fn push_selected<'b>(
    alloc: Global,
    keys: &mut Vec<&'b str>,
    conditions: &[Selection],
    entry: &'b Entry,
) -> Result<(), AllocError>
    ensures { OnOk result (map (λ key. key.now) keys.new.items ≡
        map (λ key. key.now) keys.old.items ++ spec.selected_keys conditions.now (entry.now ∷ [])) }
{
    if meets_all(alloc, conditions, entry)? {
        keys.push(entry.key.as_str())?;
    }
    Ok(())
}

/// Returns the keys of the entries of a bibliography that meet all conditions. The only error is out of memory.
pub fn selected_keys<'b>(
    alloc: Global,
    conditions: &[Selection],
    bibliography: &'b Bibliography,
) -> Result<Vec<&'b str>, AllocError>
    ensures { IfOk result (λ keys. map (λ key. key.now) keys.items ≡
        spec.selected_keys conditions.now bibliography.now.entries) }
{
    let mut keys = Vec::new(alloc);
    'entries: for entry in bibliography.iter() {
        push_selected(alloc, &mut keys, conditions, entry)?;
    }
    Ok(keys)
}

/// Returns the keys of the entries in `entries` that meet all conditions. The only error is out of memory.
pub fn keys_of_selected<'b>(
    alloc: Global,
    conditions: &[Selection],
    entries: &'b [Entry],
) -> Result<Vec<&'b str>, AllocError>
    ensures { IfOk result (λ keys. map (λ key. key.now) keys.items ≡ spec.selected_keys conditions.now entries.now) }
{
    let mut keys = Vec::new(alloc);
    'entries: for entry in entries {
        push_selected(alloc, &mut keys, conditions, entry)?;
    }
    Ok(keys)
}

/// Returns the entries of a bibliography with this content. Each has the fields that it inherits. An entry is left out if its key was
/// claimed before: an earlier entry that isn't left out has the key, or names it in `ids`. The only error is out of memory.
pub fn resolved_entries(alloc: Global, raw: &RawBibliography<'_>) -> Result<Vec<Entry>, AllocError>
    ensures { IfOk result (λ entries. AreResolvedEntries (file_of raw.now) entries.items) }
{
    let KeptEntries {
        mut entries,
        names,
        spans,
        ..
    } = keep(alloc, raw)?;
    resolve_readable(alloc, &spans, &names, &mut entries)?;
    Ok(entries)
}

// Returns the set of these names.
pub(crate) fn name_set<'a>(
    alloc: Global,
    names: &[&'a str],
) -> Result<BTreeSet<&'a str>, AllocError>
    ensures { IfOk result (λ set. (name : List ℕ) → is_in_set set name ≡ is_listed (map (λ n. n.now) names.now) name) }
{
    let mut set = BTreeSet::new(alloc);
    'names: for name in names {
        set.insert(*name)?;
    }
    Ok(set)
}

// Appends a key if the set contains it.
fn push_common<'a>(
    common: &mut Vec<&'a str>,
    set: &BTreeSet<&str>,
    key: &'a str,
) -> Result<(), AllocError>
    ensures { OnOk result ((keys : List (List ℕ)) → ((name : List ℕ) → is_in_set set.now name ≡ is_listed keys name) →
        map (λ key. key.now) common.new.items ≡ map (λ key. key.now) common.old.items ++ filter (is_listed keys) (key.now ∷ [])) }
{
    if set.contains(key) {
        common.push(key)?;
    }
    Ok(())
}

/// Returns those of the keys `wanted` that are among `keys`. The only error is out of memory.
pub fn common_keys<'a>(
    alloc: Global,
    wanted: &[&'a str],
    keys: &[&str],
) -> Result<Vec<&'a str>, AllocError>
    ensures { IfOk result (λ common. map (λ key. key.now) common.items ≡
        filter (is_listed (map (λ key. key.now) keys.now)) (map (λ key. key.now) wanted.now)) }
{
    let set = name_set(alloc, keys)?;
    let mut common = Vec::new(alloc);
    'wanted: for key in wanted {
        push_common(&mut common, &set, *key)?;
    }
    Ok(common)
}

// Appends an entry if the set contains its key.
fn push_listed<'s>(
    kept: &mut Vec<Spanned<RawEntry<'s>>>,
    set: &BTreeSet<&str>,
    entry: Spanned<RawEntry<'s>>,
) -> Result<(), AllocError>
    ensures { OnOk result ((keys : List (List ℕ)) → ((name : List ℕ) → is_in_set set.now name ≡ is_listed keys name) →
        map entry_reading_of kept.new.items ≡
        map entry_reading_of kept.old.items ++ entries_with keys (entry_reading_of entry.entry ∷ [])) }
{
    if set.contains(entry.v.key.v) {
        kept.push(entry)?;
    }
    Ok(())
}

// Returns the entries that have one of these keys.
pub(crate) fn entries_with<'s>(
    alloc: Global,
    keys: &[&str],
    entries: Vec<Spanned<RawEntry<'s>>>,
) -> Result<Vec<Spanned<RawEntry<'s>>>, AllocError>
    ensures { IfOk result (λ kept. map entry_reading_of kept.items ≡
        entries_with (map (λ key. key.now) keys.now) (map entry_reading_of entries.entry.items)) }
{
    let set = name_set(alloc, keys)?;
    let mut kept = Vec::new(alloc);
    'entries: for entry in entries {
        push_listed(&mut kept, &set, entry)?;
    }
    Ok(kept)
}

// Stores `true` at each offset from `start` to before `end`. Offsets beyond the list have the value `false`.
fn cover(covered: &mut Vec<bool>, start: usize, end: usize) -> Result<(), AllocError>
    ensures { OnOk result ((at : ℕ) → get_or covered.new.items at false ≡
        (get_or covered.old.items at false || (nat_le start at && nat_lt at end))) }
{
    if covered.len() < end {
        covered.resize(end, false)?;
    }
    'offsets: for at in start..end {
        covered[at] = true;
    }
    Ok(())
}

// Returns, for each offset, whether it is in one of these entries: from its start to before its end. Offsets beyond the list are in none.
fn covered_by(alloc: Global, entries: &[Spanned<RawEntry<'_>>]) -> Result<Vec<bool>, AllocError>
    ensures { IfOk result (λ covered. (at : ℕ) → get_or covered.items at false ≡
        list_any (is_in at) (map entry_reading_of entries.now)) }
{
    let mut covered = Vec::new(alloc);
    'entries: for entry in entries {
        cover(&mut covered, entry.span.start, entry.span.end)?;
    }
    Ok(covered)
}

// Returns the offsets at which these entries begin.
fn entry_starts(
    alloc: Global,
    entries: &[Spanned<RawEntry<'_>>],
) -> Result<BTreeSet<usize>, AllocError>
    ensures { IfOk result (λ starts. (start : ℕ) → contains nat_cmp starts start ≡
        begins_one (map entry_reading_of entries.now) start) }
{
    let mut starts = BTreeSet::new(alloc);
    'entries: for entry in entries {
        starts.insert(entry.span.start)?;
    }
    Ok(starts)
}

// Stores `true` at each offset in a skipped block if one of these entries begins where it does.
fn cover_block(
    covered: &mut Vec<bool>,
    starts: &BTreeSet<usize>,
    block: &SkippedBlock,
) -> Result<(), AllocError>
    ensures { OnOk result ((entries : List EntryReading) →
        ((start : ℕ) → contains nat_cmp starts.now start ≡ begins_one entries start) →
        (at : ℕ) → get_or covered.new.items at false ≡ (get_or covered.old.items at false || is_in_block entries at block.now)) }
{
    if starts.contains(&block.span.start) {
        cover(covered, block.span.start, block.span.end)?;
    }
    Ok(())
}

// Stores `true` at each offset in those of the skipped blocks that begin where one of these entries does.
fn cover_blocks(
    covered: &mut Vec<bool>,
    starts: &BTreeSet<usize>,
    skipped: &[SkippedBlock],
) -> Result<(), AllocError>
    ensures { OnOk result ((entries : List EntryReading) →
        ((start : ℕ) → contains nat_cmp starts.now start ≡ begins_one entries start) →
        (at : ℕ) → get_or covered.new.items at false ≡
        (get_or covered.old.items at false || list_any (is_in_block entries at) skipped.now)) }
{
    'skipped: for block in skipped {
        cover_block(covered, starts, block)?;
    }
    Ok(())
}

// Returns, for each offset, whether it is in one of these entries, or in one of these skipped blocks that begins where one of the entries
// does. Offsets beyond the list are in none.
fn covered_with(
    alloc: Global,
    skipped: &[SkippedBlock],
    entries: &[Spanned<RawEntry<'_>>],
) -> Result<Vec<bool>, AllocError>
    ensures { IfOk result (λ covered. (at : ℕ) → get_or covered.items at false ≡
        is_in_one skipped.now (map entry_reading_of entries.now) at) }
{
    let mut covered = covered_by(alloc, entries)?;
    let starts = entry_starts(alloc, entries)?;
    cover_blocks(&mut covered, &starts, skipped)?;
    Ok(covered)
}

// Returns the names of all entries.
pub(crate) fn all_names<'s>(
    alloc: Global,
    entries: &[Spanned<RawEntry<'s>>],
) -> Result<Vec<&'s str>, AllocError>
    ensures { IfOk result (λ names. map (λ name. name.now) names.items ≡
        known.all_names (map entry_reading_of entries.now)) }
{
    let mut names = Vec::new(alloc);
    'entries: for entry in entries {
        names.extend_from_slice(&entry_names(alloc, entry)?)?;
    }
    Ok(names)
}

// Returns the text after the first occurrence of `words`, or `None` without one.
pub(crate) fn text_after<'m>(message: &'m str, words: &str) -> Option<&'m str>
    ensures { option_map (λ rest. rest.now) result ≡ text_after_part words.now message.now }
{
    match message.split_once(words) {
        Some((_, rest)) => Some(rest),
        None => None,
    }
}

// Returns the text without `words` at its end, or `None` if it doesn't end with them.
pub(crate) fn before_end<'m>(text: &'m str, words: &str) -> Option<&'m str>
    ensures { option_map (λ name. name.now) result ≡ spec.before_end words.now text.now }
{
    text.strip_suffix(words)
}

// Returns the name in a message between the first occurrence of the words `before` and the words `after` at the end.
fn name_between<'m>(message: &'m str, before: &str, after: &str) -> Option<&'m str>
    ensures { option_map (λ name. name.now) result ≡ spec.name_between before.now after.now message.now }
{
    let rest = text_after(message, before)?;
    before_end(rest, after)
}

// Returns the name of the earlier entry in the message of a repeated key, a likely duplicate, or a key that differs from another only in
// ASCII case. Returns `None` for any other finding.
fn name_of_earlier(finding: &Finding) -> Option<&str>
    ensures { option_map (λ name. name.now) result ≡ spec.name_of_earlier finding.now.code finding.now.message }
{
    let message = finding.message.as_str();
    match finding.code {
        Code::DuplicateKey | Code::LikelyDuplicate => name_between(message, " \"", "\""),
        Code::KeyCase => name_between(message, " key differs from `", "` only in case"),
        _ => None,
    }
}

// Returns the place of a finding: its start, or for a syntax error and for text after an entry the byte before it.
fn finding_place(finding: &Finding) -> usize
    ensures { result ≡ spec.finding_place finding.now.code finding.now.span.start }
{
    match finding.code {
        Code::Syntax | Code::StrayField => finding.span.start.saturating_sub(1),
        _ => finding.span.start,
    }
}

// Returns whether a finding is about one of these entries, by the offsets in them and the set of their names.
fn is_about(covered: &[bool], names: &BTreeSet<&str>, finding: &Finding) -> bool
    ensures { (skipped : List SkippedBlock) (entries : List EntryReading) →
        ((at : ℕ) → get_or covered.now at false ≡ is_in_one skipped entries at) →
        ((name : List ℕ) → is_in_set names.now name ≡ is_listed (known.all_names entries) name) →
        result ≡ spec.is_about skipped entries finding.now }
{
    if covered
        .get(finding_place(finding))
        .copied()
        .unwrap_or(false)
    {
        return true;
    }
    match name_of_earlier(finding) {
        Some(name) => names.contains(name),
        None => false,
    }
}

// Appends a finding if it is about one of these entries, by the offsets in them and the set of their names.
fn push_about(
    kept: &mut Vec<Finding>,
    covered: &[bool],
    names: &BTreeSet<&str>,
    finding: Finding,
) -> Result<(), AllocError>
    ensures { OnOk result ((skipped : List SkippedBlock) (entries : List EntryReading) →
        ((at : ℕ) → get_or covered.now at false ≡ is_in_one skipped entries at) →
        ((name : List ℕ) → is_in_set names.now name ≡ is_listed (known.all_names entries) name) →
        kept.new.items ≡ kept.old.items ++ filter (spec.is_about skipped entries) (finding ∷ [])) }
{
    if is_about(covered, names, &finding) {
        kept.push(finding)?;
    }
    Ok(())
}

// Returns the findings that are about one of these entries, some of which may be the complete parts of these skipped blocks.
fn findings_about(
    alloc: Global,
    skipped: &[SkippedBlock],
    entries: &[Spanned<RawEntry<'_>>],
    found: Vec<Finding>,
) -> Result<Vec<Finding>, AllocError>
    ensures { IfOk result (λ kept. kept.items ≡
        filter (spec.is_about skipped.now (map entry_reading_of entries.now)) found.items) }
{
    let covered = covered_with(alloc, skipped, entries)?;
    let names = all_names(alloc, entries)?;
    let set = name_set(alloc, &names)?;
    let mut kept = Vec::new(alloc);
    'found: for finding in found {
        push_about(&mut kept, &covered, &set, finding)?;
    }
    Ok(kept)
}

// Returns the findings of a recovered text that are about entries whose key is that of an entry that meets all conditions.
fn about_selected(
    alloc: Global,
    conditions: &[Selection],
    recovery: RawRecovery<'_>,
    found: Vec<Finding>,
) -> Result<Vec<Finding>, AllocError>
    ensures { IfOk result (λ kept. AreAboutSelected conditions.now (file_of recovery.entry.raw) recovery.entry.skipped.items
        found.items kept.items) }
{
    let RawRecovery { raw, skipped } = recovery;
    let entries = resolved_entries(alloc, &raw)?;
    let keys = keys_of_selected(alloc, conditions, &entries)?;
    let selected = entries_with(alloc, &keys, raw.entries)?;
    let kept = findings_about(alloc, &skipped, &selected, found)?;
    Ok(kept)
}

/// Returns the findings of a text that are reported if the rules select them. Without conditions, these are all findings. Otherwise, they
/// are those about entries whose key is that of an entry that meets all conditions. The only error is out of memory.
pub fn reported_findings(
    alloc: Global,
    conditions: &[Selection],
    text: &str,
    found: Vec<Finding>,
) -> Result<Vec<Finding>, AllocError>
    ensures { IfOk result (λ kept. AreReportedFindings conditions.now text.now found.items kept.items) }
{
    if conditions.is_empty() {
        return Ok(found);
    }
    let recovery = RawBibliography::recover_parts(alloc, text)?;
    let kept = about_selected(alloc, conditions, recovery, found)?;
    Ok(kept)
}

/// Returns the findings of a recovered text as `reported_findings` does. The only error is out of memory.
pub fn reported_among(
    alloc: Global,
    conditions: &[Selection],
    recovery: RawRecovery<'_>,
    found: Vec<Finding>,
) -> Result<Vec<Finding>, AllocError>
    ensures { IfOk result (λ kept. AreReportedAmong conditions.now (file_of recovery.entry.raw) recovery.entry.skipped.items
        found.items kept.items) }
{
    if conditions.is_empty() {
        return Ok(found);
    }
    about_selected(alloc, conditions, recovery, found)
}

/// Returns the findings to report among findings that are about no entry of a file: all of them without conditions, otherwise none.
pub fn findings_of_no_entry(
    alloc: Global,
    conditions: &[Selection],
    found: Vec<Finding>,
) -> Vec<Finding>
    ensures { result.items ≡ spec.findings_of_no_entry conditions.now found.items }
{
    if conditions.is_empty() {
        found
    } else {
        Vec::new(alloc)
    }
}
