//! Sorts the entries of a file.

ghost use Rattle.std.specs.Prelude.{◌≡◌, IfOk, length, drop, map};
ghost use Rattle.std.specs.List.{AllByRecursion};
ghost use Rattle.std.specs.Str.{IsCharBoundary};
ghost use Rattle.std.specs.String.{string_bytes};
ghost use Rattle.edit_sort.specs.Cuts.{IsEntryOfItemCut};
ghost use Rattle.edit_sort.specs.Ranks.{item_reading_of};
ghost use Rattle.edit_sort.specs.Sorted.{AreEntriesInOrder, IsReadSorted, IsSortedText, item_cmp};
ghost use Rattle.edit_sort.specs.Steps.{items_laid_out};

use crate::crossrefs::{key_indices, owners_of};
use crate::items::{Item, gather};
use crate::ranks::ranks_of;
use edit_entries::document::RawDocument;
use std::alloc::{AllocError, Global};
use std::cmp::Ordering;

// Compares two entries by run, rank, place and position in the file.
fn compared(first: &Item<'_, '_>, second: &Item<'_, '_>) -> Ordering
    ensures { result ≡ item_cmp (item_reading_of first.now) (item_reading_of second.now) }
{
    let by_run = first.run.cmp(&second.run);
    let by_rank = first.rank.cmp(&second.rank);
    let by_place = first.place.cmp(&second.place);
    let by_position = first.entry.span.start.cmp(&second.entry.span.start);
    by_run.then(by_rank.then(by_place.then(by_position)))
}

// Returns the entries in order.
fn ordered<'a, 's>(mut items: Vec<Item<'a, 's>>) -> Result<Vec<Item<'a, 's>>, AllocError>
    ensures { IfOk result (λ order. AreEntriesInOrder (map item_reading_of items.entry.items) (map item_reading_of order.items)) }
{
    items.sort_by(|first, second| compared(first, second))?;
    Ok(items)
}

// Returns the entries one after another, each after its comment and the space at its new position, and then the rest of the text.
fn laid_out(
    alloc: Global,
    text: &str,
    spaces: &[&str],
    order: &[Item<'_, '_>],
    end: usize,
) -> Result<String, AllocError>
    requires as_many { length spaces.now ≡ length order.now }
    requires cut { AllByRecursion (IsEntryOfItemCut text.now) (map item_reading_of order.now) }
    requires end { IsCharBoundary text.now end }
    ensures { IfOk result (λ new. string_bytes new ≡
        items_laid_out text.now (map (λ s. s.now) spaces.now) (map item_reading_of order.now) (drop end text.now)) }
{
    let mut new = String::new(alloc);
    'order: for (index, item) in order.iter().enumerate() {
        new.push_str(spaces[index])?;
        new.push_str(item.comment)?;
        new.push_str(&text[item.entry.span.start..item.entry.span.end + 1])?;
    }
    new.push_str(&text[end..])?;
    Ok(new)
}

/// Returns the text of a document with its entries sorted by `places`, which has a number for each entry, at its index in the file. An
/// entry with a smaller number comes first. Entries with equal numbers keep their order. An entry without a number has the greatest one.
/// Entries with one key, in any ASCII case, keep their order: each of them counts with the number of the first one. BibTeX reads only the
/// first entry with a key.
///
/// Each entry keeps all its bytes. Some rules come before the numbers:
///
/// - No entry moves over an at sign between entries, such as that of an `@string`. The entries between two of these are a run, and each run
///   is sorted by itself.
/// - ASCII white space after an entry stays. The rest of the text before the next entry, such as a comment, moves with that entry.
/// - Before the first entry of a run, only the text after the last blank line can move, without the white space at its start. Without a
///   blank line, all text before the entry can. It stays if it contains an at sign, a closing brace or a quote, because a block could
///   begin or end there.
/// - BibTeX requires an entry before the entries that it names by `crossref`. So entries of a run are sorted by rank first. The rank of an
///   entry is the length of the longest chain of references that leads to it, and 0 if no entry names it. An entry on a cycle of
///   references, or after one, comes last in its run. A `crossref` names an entry if its value is one text: the key of the entry, in any
///   ASCII case, with or without white space at its ends.
///
/// Returns an error only if memory runs out.
pub fn sort_entries(
    alloc: Global,
    document: &RawDocument<'_>,
    places: &[usize],
) -> Result<String, AllocError>
    ensures text { IfOk result (λ new. IsSortedText document.now places.now (string_bytes new)) }
    ensures read { IfOk result (λ new. IsReadSorted document.now places.now (string_bytes new)) }
{
    let text = document.text();
    let entries = &document.raw().entries;
    let names = key_indices(alloc, entries)?;
    let owners = owners_of(alloc, &names, entries)?;
    let ranks = ranks_of(alloc, &names, &owners, entries)?;
    let gathered = gather(alloc, text, entries, places, &owners, &ranks)?;
    let order = ordered(gathered.items)?;
    laid_out(alloc, text, &gathered.spaces, &order, gathered.end)
}
