//! Cut entries: those of skipped blocks, of which only the complete parts are kept.

ghost use Rattle.std.specs.Prelude.{◌≡◌, ◌<◌, ℕ, All, length, map, IfOk, option_map};
ghost use Rattle.std.specs.BTreeMap.{get};
ghost use Rattle.std.specs.BTreeSet.{contains};
ghost use Rattle.std.specs.Ordering.{nat_cmp};
ghost use Rattle.bib_syntax.specs.Views.{entry_reading_of};
ghost use Rattle.bib_findings.specs.Cuts.{begins_block, whole_among};
ghost use Rattle.bib_findings.specs.Duplicates.{entries_at};
ghost use Rattle.bib_findings.specs.Starts.{AreEntriesByStart};

use bib_syntax::raw::{RawEntry, SkippedBlock};
use bib_text::spanned::Spanned;
use std::alloc::{AllocError, Global};
use std::collections::{BTreeMap, BTreeSet};

/// Returns the offsets at which skipped blocks begin.
pub(crate) fn block_starts(
    alloc: Global,
    skipped: &[SkippedBlock],
) -> Result<BTreeSet<usize>, AllocError>
    ensures { IfOk result (λ starts. (start : ℕ) → contains nat_cmp starts start ≡ begins_block skipped.now start) }
{
    let mut starts = BTreeSet::new(alloc);
    'skipped: for block in skipped {
        starts.insert(block.span.start)?;
    }
    Ok(starts)
}

/// Returns the first entry that begins at each offset.
pub(crate) fn entries_by_start<'r, 's>(
    alloc: Global,
    said: &'r [Spanned<RawEntry<'s>>],
) -> Result<BTreeMap<usize, &'r Spanned<RawEntry<'s>>>, AllocError>
    ensures { IfOk result (λ entries. AreEntriesByStart entries (map entry_reading_of said.now)) }
{
    let mut entries = BTreeMap::new(alloc);
    'entries: for one in said {
        if !entries.contains_key(&one.span.start) {
            entries.insert(one.span.start, one)?;
        }
    }
    Ok(entries)
}

/// Returns those of the indices in `origins` whose entries aren't cut.
pub(crate) fn whole_origins(
    alloc: Global,
    skipped: &[SkippedBlock],
    said: &[Spanned<RawEntry<'_>>],
    origins: &[usize],
) -> Result<Vec<usize>, AllocError>
    requires { All (λ index. index < length said.now) origins.now }
    ensures there { IfOk result (λ whole. All (λ index. index < length said.now) whole.items) }
    ensures whole { IfOk result (λ whole. entries_at (map entry_reading_of said.now) whole.items ≡
        whole_among skipped.now (entries_at (map entry_reading_of said.now) origins.now)) }
{
    let starts = block_starts(alloc, skipped)?;
    let mut whole = Vec::new(alloc);
    'origins: for index in 0..origins.len() {
        let start = said[origins[index]].span.start;
        if !starts.contains(&start) {
            whole.push(origins[index])?;
        }
    }
    Ok(whole)
}
