//! The dates of entries that other entries may inherit. Each is computed at most once.

ghost use Rattle.std.specs.Prelude.{◌≡◌, ◌<◌, ◌⊎◌, ℕ, IfOk, IsNone, IsSome, OnOk, length, map, option_map};
ghost use Rattle.std.specs.List.{All, Contains};
ghost use Rattle.std.specs.Option.{option_copied};
ghost use Rattle.bib_chunks.specs.Styled.{styled};
ghost use Rattle.bib_inheritance.specs.InheritableDate.{last_date};
ghost use Rattle.bib_inheritance.specs.Resolving.{at_index, texts_of_entries};
ghost use Rattle.bib_inheritance.specs.Turning.{AddsAmong, IsCacheOf, IsEmptyCache, date_at, error_in, inheritable_chunks};

use crate::inheritable_date::InheritableDate;
use bib_chunks::chunk::Chunks;
use bib_entry::entry::Entry;
use bib_tables::type_error::TypeError;
use std::alloc::{AllocError, Global};

// Returns a cache with `count` places, none of whose dates is computed yet.
pub(crate) fn unread_dates(
    alloc: Global,
    count: usize,
) -> Result<Vec<Option<InheritableDate>>, AllocError>
    ensures { IfOk result (λ dates. IsEmptyCache count dates.items) }
{
    let mut dates = Vec::with_capacity(alloc, count)?;
    'indices: for _index in 0..count {
        dates.push(None)?;
    }
    Ok(dates)
}

// Returns the date if it was computed and the entry has one that can be inherited.
fn inheritable_chunks(date: &Option<InheritableDate>) -> Option<&Chunks>
    ensures { option_copied result ≡ inheritable_chunks date.now }
{
    match date {
        Some(InheritableDate::Dated(chunks)) => Some(chunks),
        Some(InheritableDate::Undated | InheritableDate::Unreadable(_)) | None => None,
    }
}

// Returns the error if the date was computed and is unreadable.
pub(crate) fn error(date: &Option<InheritableDate>) -> Option<&TypeError>
    ensures { option_copied result ≡ error_in date.now }
{
    match date {
        Some(InheritableDate::Unreadable(error)) => Some(error),
        Some(InheritableDate::Undated | InheritableDate::Dated(_)) | None => None,
    }
}

// Computes the date of the entry at `index`, unless it was computed before.
pub(crate) fn read_date(
    alloc: Global,
    entries: &[Entry],
    dates: &mut [Option<InheritableDate>],
    index: usize,
) -> Result<(), AllocError>
    requires index { index < length entries.now }
    requires dates { IsCacheOf entries.now dates.old }
    ensures dates { IsCacheOf entries.now dates.new }
    ensures read { OnOk result (IsSome (date_at dates.new index)) }
    ensures added { (other : ℕ) → IsSome (date_at dates.new other) →
        IsSome (date_at dates.old other) ⊎ (other ≡ index) }
{
    if dates[index].is_some() {
        return Ok(());
    }
    let entry = &entries[index];
    let date = InheritableDate::of(alloc, &entry.fields)?;
    dates[index] = Some(date);
    Ok(())
}

// Returns the date of the last of these entries whose date can be inherited.
pub(crate) fn last_date(
    alloc: Global,
    indices: &[usize],
    entries: &[Entry],
    dates: &mut [Option<InheritableDate>],
) -> Result<Option<Chunks>, AllocError>
    requires indices { All (λ r. r < length entries.now) indices.now }
    requires dates { IsCacheOf entries.now dates.old }
    ensures last { IfOk result (λ date. option_map styled date ≡
        last_date (map (at_index (texts_of_entries entries.now)) indices.now)) }
    ensures dates { IsCacheOf entries.now dates.new }
    ensures added { AddsAmong indices.now dates.old dates.new }
{
    let count = indices.len();
    'indices: for done in 0..count {
        let index = indices[count - 1 - done];
        read_date(alloc, entries, dates, index)?;
        if let Some(date) = inheritable_chunks(&dates[index]) {
            return Ok(Some(date.clone()?));
        }
    }
    Ok(None)
}
