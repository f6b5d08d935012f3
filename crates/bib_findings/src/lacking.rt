//! Entries of which fields may be lost by a syntax error.

ghost use Rattle.std.specs.Prelude.{◌≡◌, ◌↔◌, ◌⊎◌, ◌<◌, ℕ, [], true, false, List, length, map, slice_get, slice_index_or, replicate, IfOk, OnOk};
ghost use Rattle.std.specs.BTreeSet.{contains};
ghost use Rattle.std.specs.List.{All, Contains};
ghost use Rattle.std.specs.Option.{option_map_or};
ghost use Rattle.std.specs.Ordering.{nat_cmp};
ghost use Rattle.bib_collections.specs.Graph.{IsInRange, refs_of};
ghost use Rattle.bib_collections.specs.Names.{AreIndicesBelow};
ghost use Rattle.bib_collections.specs.Rows.{rows};
ghost use Rattle.bib_inheritance.specs.Resolving.{graph_by};
ghost use Rattle.bib_queries.specs.Needed.{AreMarks};
ghost use Rattle.bib_syntax.specs.Views.{entry_reading_of};
ghost use Rattle.bib_syntax.specs.declared.raw.recovery.SkippedBlock.{SkippedBlock as ASkippedBlock};
ghost use Rattle.bib_findings.specs.Cuts.{begins_block, is_cut};
ghost use Rattle.bib_findings.specs.Lacking.{AreLacking, is_cut_at};
ghost use Rattle.bib_findings.specs.Reaching.{IsReversed, IsReached};

use crate::cuts::block_starts;
use bib_collections::names::Names;
use bib_entry::entry::Entry;
use bib_inheritance::reference_names::references;
use bib_syntax::raw::{RawEntry, SkippedBlock};
use bib_text::spanned::Spanned;
use std::alloc::{AllocError, Global};
use std::collections::BTreeSet;

// Returns whether the raw entry with this index is cut. `starts` contains the offsets at which skipped blocks begin.
fn is_cut_raw(starts: &BTreeSet<usize>, said: &[Spanned<RawEntry<'_>>], origin: usize) -> bool
    ensures { (skipped : List ASkippedBlock) → ((start : ℕ) → contains nat_cmp starts.now start ≡ begins_block skipped start)
        → result ≡ option_map_or (is_cut skipped) (slice_get (map entry_reading_of said.now) origin) false }
{
    match said.get(origin) {
        Some(one) => starts.contains(&one.span.start),
        None => false,
    }
}

// Returns whether the kept entry with this index is cut. `starts` contains the offsets at which skipped blocks begin.
fn is_cut_at(
    starts: &BTreeSet<usize>,
    said: &[Spanned<RawEntry<'_>>],
    origins: &[usize],
    index: usize,
) -> bool
    ensures { (skipped : List ASkippedBlock) → ((start : ℕ) → contains nat_cmp starts.now start ≡ begins_block skipped start)
        → result ≡ is_cut_at skipped (map entry_reading_of said.now) origins.now index }
{
    match origins.get(index) {
        Some(origin) => is_cut_raw(starts, said, *origin),
        None => false,
    }
}

// Returns the indices of the kept entries that are cut. `starts` contains the offsets at which skipped blocks begin.
fn cut_indices(
    alloc: Global,
    starts: &BTreeSet<usize>,
    said: &[Spanned<RawEntry<'_>>],
    origins: &[usize],
) -> Result<Vec<usize>, AllocError>
    ensures below { IfOk result (λ cut. All (λ index. index < length origins.now) cut.items) }
    ensures cut { IfOk result (λ cut. (skipped : List ASkippedBlock)
        → ((start : ℕ) → contains nat_cmp starts.now start ≡ begins_block skipped start)
        → (index : ℕ) → Contains cut.items index ↔ (is_cut_at skipped (map entry_reading_of said.now) origins.now index ≡ true)) }
{
    let mut cut = Vec::new(alloc);
    'origins: for index in 0..origins.len() {
        if is_cut_at(starts, said, origins, index) {
            cut.push(index)?;
        }
    }
    Ok(cut)
}

// Returns `count` empty lists.
fn empty_lists(alloc: Global, count: usize) -> Result<Vec<Vec<usize>>, AllocError>
    ensures { IfOk result (λ lists. rows lists.items ≡ replicate count []) }
{
    let mut lists = Vec::with_capacity(alloc, count)?;
    'lists: for _index in 0..count {
        lists.push(Vec::new(alloc))?;
    }
    Ok(lists)
}

// Appends `child` to the list of each of these parents.
fn add_child(lists: &mut [Vec<usize>], parents: &[usize], child: usize) -> Result<(), AllocError>
    requires { All (λ parent. parent < length lists.old) parents.now }
    ensures length { length lists.new ≡ length lists.old }
    ensures added { OnOk result ((parent one : ℕ) → Contains (refs_of (rows lists.new) parent) one ↔
        (Contains (refs_of (rows lists.old) parent) one ⊎ ((one ≡ child) × Contains parents.now parent))) }
{
    'parents: for parent in parents {
        lists[*parent].push(child)?;
    }
    Ok(())
}

// Returns for each entry the entries that refer to it by `crossref` or `xdata`.
fn children(alloc: Global, names: &Names, own: &[Entry]) -> Result<Vec<Vec<usize>>, AllocError>
    requires { AreIndicesBelow (length own.now) names.now }
    ensures { IfOk result (λ lists. IsReversed (graph_by names.now own.now) (rows lists.items)) }
{
    let mut lists = empty_lists(alloc, own.len())?;
    'entries: for index in 0..own.len() {
        let parents = references(alloc, &own[index].fields, names)?;
        add_child(&mut lists, &parents, index)?;
    }
    Ok(lists)
}

// Marks the indices that are reached: those in `starts`, and those in the row of `refs` of an index that is reached.
fn mark_reached(
    alloc: Global,
    refs: &[Vec<usize>],
    starts: Vec<usize>,
) -> Result<Vec<bool>, AllocError>
    requires in_range { IsInRange (rows refs.now) }
    requires starts { All (λ index. index < length refs.now) starts.items }
    ensures { IfOk result (λ marks. AreMarks (IsReached (rows refs.now) starts.items) (length refs.now) marks.items) }
{
    let mut marks = vec![in alloc; false; refs.len()]?;
    let mut pending = starts;
    'pending: while let Some(index) = pending.pop() {
        if marks[index] {
            continue 'pending;
        }
        marks[index] = true;
        pending.extend_from_slice(&refs[index])?;
    }
    Ok(marks)
}

/// Returns the flag at an index, or `false` if there is none.
pub(crate) fn flag_at(flags: &[bool], index: usize) -> bool
    ensures { result ≡ slice_index_or flags.now index false }
{
    match flags.get(index) {
        Some(flag) => *flag,
        None => false,
    }
}

/// Returns for each entry whether fields of it may be lost by a syntax error: whether it is cut, or refers to a cut entry by `crossref`
/// or `xdata`, directly or through others. `skipped` contains the skipped blocks of the file, `own` the kept entries with only the
/// fields that each has itself, and `origins` the index of each in `said`. `names` points to the entries. Fails only if out of memory.
pub fn lacking_flags(
    alloc: Global,
    skipped: &[SkippedBlock],
    names: &Names,
    said: &[Spanned<RawEntry<'_>>],
    origins: &[usize],
    own: &[Entry],
) -> Result<Vec<bool>, AllocError>
    requires same_length { length origins.now ≡ length own.now }
    requires below { AreIndicesBelow (length own.now) names.now }
    ensures { IfOk result (λ lacking. AreLacking skipped.now names.now (map entry_reading_of said.now) origins.now own.now
        lacking.items) }
{
    let starts = block_starts(alloc, skipped)?;
    let cut = cut_indices(alloc, &starts, said, origins)?;
    if cut.is_empty() {
        return Ok(vec![in alloc; false; own.len()]?);
    }
    let children = children(alloc, names, own)?;
    mark_reached(alloc, &children, cut)
}
