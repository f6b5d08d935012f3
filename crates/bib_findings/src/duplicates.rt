//! Findings of entries that are likely the same work.

ghost use Rattle.std.specs.Prelude.{◌≡◌, ◌<◌, ◌++◌, ◌∷◌, [], List, ℕ, All, length, map, slice_get, option_and_then, IfOk, IfSome, OnOk};
ghost use Rattle.std.specs.BTreeMap.{get_by_text};
ghost use Rattle.std.specs.String.{string_bytes};
ghost use Rattle.bib_syntax.specs.Reading.{EntryReading};
ghost use Rattle.bib_syntax.specs.Views.{entry_reading_of};
ghost use Rattle.bib_findings.specs.Duplicates.{common_ground, shared_people, duplicate_finding, duplicate_message, duplicates, duplicates_after, entries_at};
ghost use Rattle.bib_findings.specs.Seen.{AreFirstWith, AreThere, alike_among, alike_by, first_alike, remembered, same_finding, stored_indices, with_entry_index};

use crate::codes::Code;
use crate::entry_names::entry_name;
use crate::finding::Finding;
use crate::identities::{are_told_apart, have_open_list, identities, share_doi, share_isbn};
use crate::marks::candidates;
use bib_syntax::raw::RawEntry;
use bib_text::spanned::Spanned;
use bib_text::text::Text;
use std::alloc::{AllocError, Global};
use std::collections::BTreeMap;

// The greatest number of earlier entries with one identity that an entry is compared with.
const MOST_COMPARED: usize = 16;

// Returns the first of these indices whose entry isn't told apart from `one`.
fn first_alike(
    alloc: Global,
    said: &[Spanned<RawEntry<'_>>],
    one: &Spanned<RawEntry<'_>>,
    indices: &[usize],
) -> Result<Option<usize>, AllocError>
    requires { All (λ index. index < length said.now) indices.now }
    ensures there { IfOk result (λ first. IfSome first (λ index. index < length said.now)) }
    ensures first { IfOk result (λ first. option_and_then (slice_get (map entry_reading_of said.now)) first ≡
        first_alike (entry_reading_of one.now) (entries_at (map entry_reading_of said.now) indices.now)) }
{
    'indices: for index in indices {
        if !are_told_apart(alloc, one, &said[*index])? {
            return Ok(Some(*index));
        }
    }
    Ok(None)
}

// Returns the index of the first entry with this identity that isn't told apart from `one`. `seen` has the indices of the first
// `MOST_COMPARED` entries with each identity; only these are compared.
fn alike_by(
    alloc: Global,
    seen: &BTreeMap<String, Vec<usize>>,
    said: &[Spanned<RawEntry<'_>>],
    one: &Spanned<RawEntry<'_>>,
    identity: &str,
) -> Result<Option<usize>, AllocError>
    requires { AreThere (get_by_text seen.now) (length said.now) }
    ensures there { IfOk result (λ first. IfSome first (λ index. index < length said.now)) }
    ensures first { IfOk result (λ first. option_and_then (slice_get (map entry_reading_of said.now)) first ≡
        alike_by (get_by_text seen.now) (map entry_reading_of said.now) (entry_reading_of one.now) identity.now) }
{
    match seen.get(identity) {
        Some(indices) => first_alike(alloc, said, one, indices),
        None => Ok(None),
    }
}

// Returns the index of the earlier entry that is likely the same work as `one`, by the first of `identities` for which there is one.
// `seen` has the indices of the first `MOST_COMPARED` entries with each identity.
fn same_work(
    alloc: Global,
    seen: &BTreeMap<String, Vec<usize>>,
    said: &[Spanned<RawEntry<'_>>],
    one: &Spanned<RawEntry<'_>>,
    identities: &[String],
) -> Result<Option<usize>, AllocError>
    requires { AreThere (get_by_text seen.now) (length said.now) }
    ensures there { IfOk result (λ first. IfSome first (λ index. index < length said.now)) }
    ensures first { IfOk result (λ first. option_and_then (slice_get (map entry_reading_of said.now)) first ≡
        alike_among (get_by_text seen.now) (map entry_reading_of said.now) (entry_reading_of one.now) (map string_bytes identities.now)) }
{
    'identities: for identity in identities {
        let first = alike_by(alloc, seen, said, one, identity.as_str())?;
        if first.is_some() {
            return Ok(first);
        }
    }
    Ok(None)
}

// Appends an index, unless there are already `MOST_COMPARED` indices.
fn add_index(indices: &mut Vec<usize>, index: usize) -> Result<(), AllocError>
    ensures { OnOk result (indices.new.items ≡ with_entry_index indices.old.items index) }
{
    if indices.len() < MOST_COMPARED {
        indices.push(index)?;
    }
    Ok(())
}

// Adds the index of an entry to those of an identity, unless it already has `MOST_COMPARED` indices.
fn store(
    seen: &mut BTreeMap<String, Vec<usize>>,
    identity: String,
    index: usize,
) -> Result<(), AllocError>
    ensures { OnOk result ((id : List ℕ) → stored_indices (get_by_text seen.new id) ≡
        remembered (string_bytes identity ∷ []) index id (stored_indices (get_by_text seen.old id))) }
{
    add_index(seen.entry(identity)?.or_default(), index)?;
    Ok(())
}

// Adds the index of an entry to those of each of its identities that doesn't have `MOST_COMPARED` indices yet.
fn remember(
    seen: &mut BTreeMap<String, Vec<usize>>,
    identities: Vec<String>,
    index: usize,
) -> Result<(), AllocError>
    ensures { OnOk result ((id : List ℕ) → stored_indices (get_by_text seen.new id) ≡
        remembered (map string_bytes identities.items) index id (stored_indices (get_by_text seen.old id))) }
{
    'identities: for identity in identities {
        store(seen, identity, index)?;
    }
    Ok(())
}

// Returns the words for the title, the year and the people that two entries share: only the first person if `and others` ends a list of
// people.
fn shared_people(
    alloc: Global,
    said: &Spanned<RawEntry<'_>>,
    first: &Spanned<RawEntry<'_>>,
) -> Result<&'static str, AllocError>
    ensures { IfOk result (λ shared. shared.now ≡ shared_people (entry_reading_of said.now) (entry_reading_of first.now)) }
{
    if have_open_list(alloc, said, first)? {
        return Ok("title, year and first person");
    }
    Ok("title, year and people")
}

// Returns the words for the identity that two entries share. The entries are likely the same work.
fn common_ground(
    alloc: Global,
    said: &Spanned<RawEntry<'_>>,
    first: &Spanned<RawEntry<'_>>,
) -> Result<&'static str, AllocError>
    ensures { IfOk result (λ shared. shared.now ≡ common_ground (entry_reading_of said.now) (entry_reading_of first.now)) }
{
    if share_doi(alloc, said, first)? {
        return Ok("DOI");
    }
    if share_isbn(alloc, said, first)? {
        return Ok("ISBN");
    }
    shared_people(alloc, said, first)
}

// Returns the message for an entry that is likely the same work as another; `shared` names their identity.
fn duplicate_message(
    alloc: Global,
    key: &str,
    shared: &str,
    first: &str,
) -> Result<String, AllocError>
    ensures { IfOk result (λ text. string_bytes text ≡ duplicate_message key.now shared.now first.now) }
{
    let entry = entry_name(key);
    format!(in alloc; "{entry}: likely the same work: same {shared} as \"{first}\"")
}

// Returns the finding of an entry that is likely the same work as `first`, an earlier one.
fn duplicate_finding(
    alloc: Global,
    said: &Spanned<RawEntry<'_>>,
    first: &Spanned<RawEntry<'_>>,
) -> Result<Finding, AllocError>
    ensures { IfOk result (λ finding. finding ≡
        duplicate_finding (entry_reading_of said.now) (entry_reading_of first.now)) }
{
    let shared = common_ground(alloc, said, first)?;
    let message = duplicate_message(alloc, said.v.key.v, shared, first.v.key.v)?;
    Ok(Finding {
        code: Code::LikelyDuplicate,
        span: said.v.key.span.start..said.v.key.span.end,
        message: Text::from_string(message),
    })
}

// Appends the finding that `one` is likely the same work as the entry at the index `first`, if there is an index.
fn add_same(
    alloc: Global,
    found: &mut Vec<Finding>,
    said: &[Spanned<RawEntry<'_>>],
    one: &Spanned<RawEntry<'_>>,
    first: Option<usize>,
) -> Result<(), AllocError>
    requires { IfSome first (λ first. first < length said.now) }
    ensures { OnOk result (found.new.items ≡ found.old.items ++
        same_finding (entry_reading_of one.now) (option_and_then (slice_get (map entry_reading_of said.now)) first)) }
{
    if let Some(first) = first {
        found.push(duplicate_finding(alloc, one, &said[first])?)?;
    }
    Ok(())
}

// Appends a finding if the entry at `index` is likely the same work as an earlier one, and stores its identities. `seen` has the
// indices of the first `MOST_COMPARED` earlier entries with each identity.
fn add_duplicate(
    alloc: Global,
    found: &mut Vec<Finding>,
    seen: &mut BTreeMap<String, Vec<usize>>,
    said: &[Spanned<RawEntry<'_>>],
    index: usize,
) -> Result<(), AllocError>
    requires within { index < length said.now }
    requires there { AreThere (get_by_text seen.old) (length said.now) }
    ensures there { OnOk result (AreThere (get_by_text seen.new) (length said.now)) }
    ensures first { OnOk result ((earlier : List EntryReading)
        → AreFirstWith (get_by_text seen.old) (map entry_reading_of said.now) earlier
        → AreFirstWith (get_by_text seen.new) (map entry_reading_of said.now)
        (earlier ++ entries_at (map entry_reading_of said.now) (index ∷ []))) }
    ensures added { OnOk result ((earlier : List EntryReading)
        → AreFirstWith (get_by_text seen.old) (map entry_reading_of said.now) earlier
        → found.new.items ≡ found.old.items ++
        duplicates_after earlier (entries_at (map entry_reading_of said.now) (index ∷ []))) }
{
    let one = &said[index];
    let identities = identities(alloc, one)?;
    let first = same_work(alloc, seen, said, one, &identities)?;
    remember(seen, identities, index)?;
    add_same(alloc, found, said, one, first)
}

// Appends a finding for each of these entries that is likely the same work as one before it. `origins` contains the index of each in
// `said`.
fn add_duplicates_among(
    alloc: Global,
    found: &mut Vec<Finding>,
    said: &[Spanned<RawEntry<'_>>],
    origins: &[usize],
) -> Result<(), AllocError>
    requires { All (λ index. index < length said.now) origins.now }
    ensures { OnOk result (found.new.items ≡ found.old.items ++
        duplicates (entries_at (map entry_reading_of said.now) origins.now)) }
{
    let mut seen = BTreeMap::new(alloc);
    'origins: for index in origins {
        add_duplicate(alloc, found, &mut seen, said, *index)?;
    }
    Ok(())
}

/// Appends a finding for each of these entries that is likely the same work as one before it. `origins` contains the
/// index of each in `said`.
pub(crate) fn add_duplicates(
    alloc: Global,
    found: &mut Vec<Finding>,
    said: &[Spanned<RawEntry<'_>>],
    origins: &[usize],
) -> Result<(), AllocError>
    requires { All (λ index. index < length said.now) origins.now }
    ensures { OnOk result (found.new.items ≡ found.old.items ++
        duplicates (entries_at (map entry_reading_of said.now) origins.now)) }
{
    let candidates = candidates(alloc, said, origins)?;
    add_duplicates_among(alloc, found, said, &candidates)
}
