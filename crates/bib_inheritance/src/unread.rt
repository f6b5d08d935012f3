//! Unreadable dates among the references of entries that lack a required date.

ghost use Rattle.std.specs.Prelude.{◌≡◌, ◌<◌, ℕ, false, IfOk, MatchOption, length};
ghost use Rattle.std.specs.List.{All, list_any};
ghost use Rattle.bib_collections.specs.Graph.{IsInRange};
ghost use Rattle.bib_collections.specs.Rows.{rows};
ghost use Rattle.bib_inheritance.specs.Resolving.{is_bad_date, texts_of_entries};
ghost use Rattle.bib_inheritance.specs.Turning.{IsCacheOf, IsFirstUnread, IsUnreadDate, is_unread_at};

use crate::dates::{error, read_date};
use crate::inheritable_date::InheritableDate;
use bib_entry::entry::Entry;
use bib_tables::type_error::TypeError;
use std::alloc::{AllocError, Global};

// Returns the error of the first of these entries that has an unreadable date.
pub(crate) fn first_unread(
    alloc: Global,
    indices: &[usize],
    entries: &[Entry],
    dates: &mut [Option<InheritableDate>],
) -> Result<Option<TypeError>, AllocError>
    requires indices { All (λ r. r < length entries.now) indices.now }
    requires dates { IsCacheOf entries.now dates.old }
    ensures unread { IfOk result (λ error. MatchOption error
        (list_any (is_bad_date (texts_of_entries entries.now)) indices.now ≡ false)
        (IsUnreadDate entries.now indices.now)) }
    ensures dates { IsCacheOf entries.now dates.new }
{
    'indices: for r in indices {
        read_date(alloc, entries, dates, *r)?;
        if let Some(error) = error(&dates[*r]) {
            return Ok(Some(error.clone()?));
        }
    }
    Ok(None)
}

// Returns the error of the first entry that is flagged in `looks` and refers to an entry with an unreadable date.
pub(crate) fn unread_date(
    alloc: Global,
    refs: &[Vec<usize>],
    looks: &[bool],
    entries: &[Entry],
    dates: &mut [Option<InheritableDate>],
) -> Result<Option<TypeError>, AllocError>
    requires in_range { IsInRange (rows refs.now) }
    requires as_long { length entries.now ≡ length refs.now }
    requires flags { length looks.now ≡ length refs.now }
    requires dates { IsCacheOf entries.now dates.old }
    ensures { IfOk result (λ error. MatchOption error
        ((index : ℕ) → is_unread_at looks.now (rows refs.now) (texts_of_entries entries.now) index ≡ false)
        (IsFirstUnread looks.now (rows refs.now) entries.now)) }
{
    'entries: for index in 0..refs.len() {
        if !looks[index] {
            continue 'entries;
        }
        let error = first_unread(alloc, &refs[index], entries, dates)?;
        if error.is_some() {
            return Ok(error);
        }
    }
    Ok(None)
}
