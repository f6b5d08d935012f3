//! Marks: hashes that show quickly which entries may be the same work as another.
//!
//! Entries that share an identity share a mark. So an entry that shares no mark with another needs no comparison.

ghost use Rattle.std.specs.Prelude.{◌≡◌, ◌<◌, ◌++◌, ℕ, All, List, length, map, IfOk, OnOk};
ghost use Rattle.std.specs.List.{flat_map, list_any};
ghost use Rattle.std.specs.Option.{option_to_list};
ghost use Rattle.bib_syntax.specs.Views.{entry_reading_of};
ghost use Rattle.bib_findings.specs.Duplicates.{entries_at};
ghost use Rattle.bib_findings.specs.Marks.{AreMetMarks, before_brace, chosen, has_repeated, is_repeated, listed, mark, marks_of, may_share};

use crate::identities::{doi, isbn, title};
use bib_syntax::raw::RawEntry;
use bib_text::spanned::Spanned;
use std::alloc::{AllocError, Global};
use std::collections::BTreeMap;
use std::hash::{FoldHasher, Hasher};

// Hashes of the identities of an entry: entries that share an identity share the hash of its kind.
#[derive(Clone, Copy)]
struct Marks {
    // The hash of the DOI, if there is one.
    doi: Option<u64>,
    // The hash of the ISBN, if there is one.
    isbn: Option<u64>,
    // The hash of the title, if there is one.
    title: Option<u64>,
}

// Returns the text before its first opening brace, or the whole text if it has none.
fn before_brace(text: &str) -> &str
    ensures { result.now ≡ before_brace text.now }
{
    match text.split_once('{') {
        Some((before, _)) => before,
        None => text,
    }
}

// Returns the mark of a text of this kind, or none if the text is empty.
fn mark(kind: &str, text: &str) -> Option<u64>
    ensures { result ≡ mark kind.now text.now }
{
    if text.is_empty() {
        return None;
    }
    let mut hasher = FoldHasher::default();
    hasher.write(kind.as_bytes());
    hasher.write(before_brace(text).as_bytes());
    Some(hasher.finish())
}

// Returns the marks of an entry.
fn marks_of(alloc: Global, said: &Spanned<RawEntry<'_>>) -> Result<Marks, AllocError>
    ensures { IfOk result (λ marks. marks ≡ marks_of (entry_reading_of said.now)) }
{
    let doi = doi(alloc, said)?;
    let isbn = isbn(alloc, said)?;
    let title = title(alloc, said)?;
    Ok(Marks {
        doi: mark("doi ", &doi),
        isbn: mark("isbn ", &isbn),
        title: mark("work ", &title),
    })
}

// Returns the marks of the entries that have these indices in `said`.
fn all_marks(
    alloc: Global,
    said: &[Spanned<RawEntry<'_>>],
    origins: &[usize],
) -> Result<Vec<Marks>, AllocError>
    requires { All (λ index. index < length said.now) origins.now }
    ensures { IfOk result (λ all. all.items ≡ map marks_of (entries_at (map entry_reading_of said.now) origins.now)) }
{
    let mut all = Vec::with_capacity(alloc, origins.len())?;
    'origins: for index in 0..origins.len() {
        let one = &said[origins[index]];
        all.push(marks_of(alloc, one)?)?;
    }
    Ok(all)
}

// Stores a mark: with `false` if it is new, and with `true` if it occurred before.
fn note(met: &mut BTreeMap<u64, bool>, mark: Option<u64>) -> Result<(), AllocError>
    ensures { OnOk result ((all : List ℕ) → AreMetMarks met.old all → AreMetMarks met.new (all ++ option_to_list mark)) }
{
    let Some(mark) = mark else {
        return Ok(());
    };
    if met.insert(mark, false)?.is_some() {
        met.insert(mark, true)?;
    }
    Ok(())
}

// Stores the marks of an entry.
fn note_all(met: &mut BTreeMap<u64, bool>, marks: &Marks) -> Result<(), AllocError>
    ensures { OnOk result ((all : List ℕ) → AreMetMarks met.old all → AreMetMarks met.new (all ++ listed marks.now)) }
{
    note(met, marks.doi)?;
    note(met, marks.isbn)?;
    note(met, marks.title)
}

// Returns, for each mark, whether it occurs more than once.
fn met_marks(alloc: Global, all: &[Marks]) -> Result<BTreeMap<u64, bool>, AllocError>
    ensures { IfOk result (λ met. AreMetMarks met (flat_map listed all.now)) }
{
    let mut met = BTreeMap::new(alloc);
    'marks: for one in all {
        note_all(&mut met, one)?;
    }
    Ok(met)
}

// Returns whether a mark occurs more than once.
fn is_shared(met: &BTreeMap<u64, bool>, mark: Option<u64>) -> bool
    ensures { (all : List ℕ) → AreMetMarks met.now all → result ≡ list_any (is_repeated all) (option_to_list mark) }
{
    match mark {
        Some(mark) => met.get(&mark).copied().unwrap_or(false),
        None => false,
    }
}

// Returns whether one of these marks occurs more than once.
fn has_shared(met: &BTreeMap<u64, bool>, marks: &Marks) -> bool
    ensures { (all : List ℕ) → AreMetMarks met.now all → result ≡ has_repeated all marks.now }
{
    is_shared(met, marks.doi) || is_shared(met, marks.isbn) || is_shared(met, marks.title)
}

// Returns the indices whose marks, at the same position of `all`, include one that occurs more than once.
fn chosen(
    alloc: Global,
    met: &BTreeMap<u64, bool>,
    all: &[Marks],
    origins: &[usize],
) -> Result<Vec<usize>, AllocError>
    requires { length all.now ≡ length origins.now }
    ensures { IfOk result (λ found. (listed : List ℕ) → AreMetMarks met.now listed → found.items ≡ chosen listed all.now origins.now) }
{
    let mut found = Vec::new(alloc);
    'origins: for index in 0..origins.len() {
        if has_shared(met, &all[index]) {
            found.push(origins[index])?;
        }
    }
    Ok(found)
}

/// Returns those of the indices in `origins` whose entries may share an identity with another one.
pub(crate) fn candidates(
    alloc: Global,
    said: &[Spanned<RawEntry<'_>>],
    origins: &[usize],
) -> Result<Vec<usize>, AllocError>
    requires { All (λ index. index < length said.now) origins.now }
    ensures there { IfOk result (λ found. All (λ index. index < length said.now) found.items) }
    ensures found { IfOk result (λ found. entries_at (map entry_reading_of said.now) found.items ≡
        may_share (entries_at (map entry_reading_of said.now) origins.now)) }
{
    let all = all_marks(alloc, said, origins)?;
    let met = met_marks(alloc, &all)?;
    chosen(alloc, &met, &all, origins)
}
