//! Findings of entries whose parent comes before them, if both types are types of BibTeX's standard styles.

ghost use Rattle.std.specs.Prelude.{◌≡◌, ◌==◌, ◌&&◌, ◌++◌, ◌<◌, ◌∷◌, [], if◌then◌else◌, not, All, List, length, map, IfOk, OnOk};
ghost use Rattle.std.specs.BTreeSet.{contains_text};
ghost use Rattle.std.specs.List.{filter, list_any};
ghost use Rattle.bib_syntax.specs.Reading.{EntryReading};
ghost use Rattle.bib_syntax.specs.Views.{entry_reading_of};
ghost use Rattle.bib_findings.specs.Duplicates.{entries_at};
ghost use Rattle.bib_findings.specs.FirstKeys.{AreKeysSeen};
ghost use Rattle.bib_findings.specs.ParentOrder as spec;
ghost use Rattle.bib_findings.specs.ParentOrder.{early_after, early_among, early_finding, early_findings};

use crate::codes::Code;
use crate::fields::named_message;
use crate::finding::Finding;
use crate::identities::own_literal;
use crate::nearest::is_among;
use crate::places::field_place;
use bib_syntax::raw::RawEntry;
use bib_text::spanned::Spanned;
use bib_text::text::Text;
use std::alloc::{AllocError, Global};
use std::collections::BTreeSet;

// The entry types of BibTeX's standard styles.
static BIBTEX_TYPES: [&str; 14] = [
    "article",
    "book",
    "booklet",
    "conference",
    "inbook",
    "incollection",
    "inproceedings",
    "manual",
    "mastersthesis",
    "misc",
    "phdthesis",
    "proceedings",
    "techreport",
    "unpublished",
];

// Returns whether BibTeX's standard styles have the type of an entry, in any ASCII case.
fn has_bibtex_type(said: &Spanned<RawEntry<'_>>) -> bool
    ensures { result ≡ spec.has_bibtex_type (entry_reading_of said.now) }
{
    is_among(&BIBTEX_TYPES, said.v.kind.v)
}

// Returns those of the indices in `origins` whose entries have a type of BibTeX's standard styles.
fn bibtex_origins(
    alloc: Global,
    said: &[Spanned<RawEntry<'_>>],
    origins: &[usize],
) -> Result<Vec<usize>, AllocError>
    requires { All (λ index. index < length said.now) origins.now }
    ensures there { IfOk result (λ chosen. All (λ index. index < length said.now) chosen.items) }
    ensures chosen { IfOk result (λ chosen. entries_at (map entry_reading_of said.now) chosen.items ≡
        filter spec.has_bibtex_type (entries_at (map entry_reading_of said.now) origins.now)) }
{
    let mut chosen = Vec::new(alloc);
    'origins: for index in 0..origins.len() {
        let one = &said[origins[index]];
        if has_bibtex_type(one) {
            chosen.push(origins[index])?;
        }
    }
    Ok(chosen)
}

// Returns the `crossref` of an entry without the white space around it, or the empty text if the entry has none as one literal.
fn parent_key<'s>(said: &Spanned<RawEntry<'s>>) -> &'s str
    ensures { result.now ≡ spec.parent_key (entry_reading_of said.now) }
{
    own_literal(said, "crossref").trim()
}

// Returns the finding of an entry whose `crossref` names this key of an earlier entry.
fn early_finding(
    alloc: Global,
    said: &Spanned<RawEntry<'_>>,
    parent: &str,
) -> Result<Finding, AllocError>
    ensures { IfOk result (λ finding. finding ≡ early_finding (entry_reading_of said.now) parent.now) }
{
    let after = " comes first; BibTeX finds it only if it is cited too";
    let message = named_message(alloc, said.v.key.v, "the parent ", parent, after)?;
    Ok(Finding {
        code: Code::EarlyParent,
        span: field_place(said, "crossref"),
        message: Text::from_string(message),
    })
}

// Returns whether one of the earlier entries has a key, in any ASCII case. `seen` has their keys in ASCII lowercase.
fn is_seen(alloc: Global, seen: &BTreeSet<String>, key: &str) -> Result<bool, AllocError>
    ensures { IfOk result (λ is_seen. (earlier : List EntryReading) → AreKeysSeen (contains_text seen.now) earlier
        → is_seen ≡ list_any (spec.is_key_of key.now) earlier) }
{
    let lowercase = key.to_ascii_lowercase(alloc)?;
    Ok(seen.contains(lowercase.as_str()))
}

// Returns whether a key isn't empty, and one of the earlier entries has it, in any ASCII case. `seen` has their keys in ASCII lowercase.
fn is_early(alloc: Global, seen: &BTreeSet<String>, key: &str) -> Result<bool, AllocError>
    ensures { IfOk result (λ is_early. (earlier : List EntryReading) → AreKeysSeen (contains_text seen.now) earlier
        → is_early ≡ (not (length key.now == 0) && list_any (spec.is_key_of key.now) earlier)) }
{
    if key.is_empty() {
        return Ok(false);
    }
    let is_seen = is_seen(alloc, seen, key)?;
    Ok(is_seen)
}

// Appends the finding of an entry whose `crossref` names the key `parent`, if an earlier entry has this key.
fn add_if(
    alloc: Global,
    found: &mut Vec<Finding>,
    is_early: bool,
    said: &Spanned<RawEntry<'_>>,
    parent: &str,
) -> Result<(), AllocError>
    ensures { OnOk result (found.new.items ≡ found.old.items ++
        (if is_early then early_finding (entry_reading_of said.now) parent.now ∷ [] else [])) }
{
    if is_early {
        found.push(early_finding(alloc, said, parent)?)?;
    }
    Ok(())
}

// Appends the finding of an entry if its `crossref` is one literal, and is the key of one of the earlier entries in any ASCII case. `seen`
// has their keys in ASCII lowercase.
fn add_if_early(
    alloc: Global,
    found: &mut Vec<Finding>,
    seen: &BTreeSet<String>,
    said: &Spanned<RawEntry<'_>>,
) -> Result<(), AllocError>
    ensures { OnOk result ((earlier : List EntryReading) → AreKeysSeen (contains_text seen.now) earlier
        → found.new.items ≡ found.old.items ++ early_after earlier (entry_reading_of said.now)) }
{
    let parent = parent_key(said);
    let is_early = is_early(alloc, seen, parent)?;
    add_if(alloc, found, is_early, said, parent)?;
    Ok(())
}

// Adds the key of an entry in ASCII lowercase.
fn add_key(
    alloc: Global,
    seen: &mut BTreeSet<String>,
    said: &Spanned<RawEntry<'_>>,
) -> Result<(), AllocError>
    ensures { OnOk result ((earlier : List EntryReading) → AreKeysSeen (contains_text seen.old) earlier
        → AreKeysSeen (contains_text seen.new) (earlier ++ entry_reading_of said.now ∷ [])) }
{
    seen.insert(said.v.key.v.to_ascii_lowercase(alloc)?)?;
    Ok(())
}

// Appends a finding for each of these entries whose `crossref` is one literal, and is the key of an earlier one in any ASCII case.
// `origins` contains the index of each in `said`.
fn add_early_among(
    alloc: Global,
    found: &mut Vec<Finding>,
    said: &[Spanned<RawEntry<'_>>],
    origins: &[usize],
) -> Result<(), AllocError>
    requires { All (λ index. index < length said.now) origins.now }
    ensures { OnOk result (found.new.items ≡ found.old.items ++
        early_among (entries_at (map entry_reading_of said.now) origins.now)) }
{
    let mut seen = BTreeSet::new(alloc);
    'origins: for index in origins {
        let one = &said[*index];
        add_if_early(alloc, found, &seen, one)?;
        add_key(alloc, &mut seen, one)?;
    }
    Ok(())
}

// Returns whether an entry has a `crossref` that is one literal and not blank.
fn has_parent(said: &Spanned<RawEntry<'_>>) -> bool
    ensures { result ≡ spec.has_parent (entry_reading_of said.now) }
{
    !parent_key(said).is_empty()
}

// Returns whether one of these entries has a `crossref` that is one literal and not blank.
fn have_parents(said: &[Spanned<RawEntry<'_>>]) -> bool
    ensures { result ≡ list_any spec.has_parent (map entry_reading_of said.now) }
{
    'entries: for one in said {
        if has_parent(one) {
            return true;
        }
    }
    false
}

/// Appends a finding for each of these entries whose `crossref` is one literal, and is the key of an earlier one in any ASCII case. Only
/// entries with a type of BibTeX's standard styles count. `origins` contains the index of each entry in `said`.
pub(crate) fn add_early(
    alloc: Global,
    found: &mut Vec<Finding>,
    said: &[Spanned<RawEntry<'_>>],
    origins: &[usize],
) -> Result<(), AllocError>
    requires { All (λ index. index < length said.now) origins.now }
    ensures { OnOk result (found.new.items ≡ found.old.items ++
        early_findings (entries_at (map entry_reading_of said.now) origins.now)) }
{
    if !have_parents(said) {
        return Ok(());
    }
    let chosen = bibtex_origins(alloc, said, origins)?;
    add_early_among(alloc, found, said, &chosen)
}
