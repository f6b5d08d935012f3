//! Entries with the comments before them and their sort keys.

ghost use Rattle.std.specs.Prelude.{◌≡◌, IfOk, map};
ghost use Rattle.bib_syntax.specs.Views.{entry_reading_of};
ghost use Rattle.edit_sort.specs.Cuts.{AreItemsCut};
ghost use Rattle.edit_sort.specs.Ranks.{item_reading_of};
ghost use Rattle.edit_sort.specs.Sorted as sorted;
ghost use Rattle.edit_sort.specs.Steps.{items_from, place_after, spaces_from};

use crate::gaps::{comment_in, run_after};
use bib_syntax::raw::RawEntry;
use bib_text::spanned::Spanned;
use std::alloc::{AllocError, Global};

// An entry with the comment before it. Entries are sorted by run, then by rank, by place and by position in the file.
#[derive(Clone, Copy)]
pub(crate) struct Item<'a, 's> {
    pub(crate) run: usize,
    pub(crate) rank: usize,
    pub(crate) place: usize,
    pub(crate) comment: &'s str,
    pub(crate) entry: &'a Spanned<RawEntry<'s>>,
}

// The entries of a text, the space that stays before each, and the end of the last one.
#[derive(Drop)]
pub(crate) struct Gathered<'a, 's> {
    pub(crate) spaces: Vec<&'s str>,
    pub(crate) items: Vec<Item<'a, 's>>,
    pub(crate) end: usize,
}

// Returns the place at an index, or the greatest number if there is none.
fn place_at(places: &[usize], index: usize) -> usize
    ensures { result ≡ sorted.place_at places.now index }
{
    if index < places.len() {
        places[index]
    } else {
        usize::MAX
    }
}

// Returns the entries of a text, each with the comment before it and its sort keys. The place of an entry is at the index of the first
// entry with its key.
pub(crate) fn gather<'a, 's>(
    alloc: Global,
    text: &'s str,
    entries: &'a [Spanned<RawEntry<'s>>],
    places: &[usize],
    owners: &[usize],
    ranks: &[usize],
) -> Result<Gathered<'a, 's>, AllocError>
    requires cut { AreItemsCut text.now 0 0 (map entry_reading_of entries.now) }
    requires owners { owners.now ≡ map (sorted.first_with_key_of (map entry_reading_of entries.now)) (map entry_reading_of entries.now) }
    requires ranks { ranks.now ≡ map (sorted.rank (map entry_reading_of entries.now)) (map entry_reading_of entries.now) }
    ensures spaces { IfOk result (λ g. map (λ s. s.now) g.spaces.items ≡ spaces_from text.now 0 0 (map entry_reading_of entries.now)) }
    ensures items { IfOk result (λ g. map item_reading_of g.items.items ≡
        items_from (map entry_reading_of entries.now) text.now places.now 0 0 0 (map entry_reading_of entries.now)) }
    ensures end { IfOk result (λ g. g.end ≡ place_after 0 (map entry_reading_of entries.now)) }
{
    let mut spaces = Vec::new(alloc);
    let mut items = Vec::new(alloc);
    let mut at = 0usize;
    let mut run = 0usize;
    'entries: for (index, entry) in entries.iter().enumerate() {
        let gap = &text[at..entry.span.start];
        let comment = comment_in(index == 0, gap);
        run = run_after(run, gap);
        spaces.push(&text[at..entry.span.start - comment.len()])?;
        items.push(Item {
            run,
            rank: ranks[index],
            place: place_at(places, owners[index]),
            comment,
            entry,
        })?;
        at = entry.span.end + 1;
    }
    Ok(Gathered {
        spaces,
        items,
        end: at,
    })
}
