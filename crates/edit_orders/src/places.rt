//! The place of each entry in an order.

ghost use Rattle.std.specs.Prelude.{◌≡◌, IfOk, length, map};
ghost use Rattle.std.specs.List.{AllZip};
ghost use Rattle.std.specs.List.Sorted.{IsPermutation, IsSorted};
ghost use Rattle.bib_abbreviations.specs.Abbreviations.{given_by};
ghost use Rattle.bib_syntax.specs.Views.{entry_reading_of, file_of};
ghost use Rattle.edit_orders.specs.Orders.{order_parts};
ghost use Rattle.edit_orders.specs.Places.{ArePlacesOf, AreValuesOf, IsPlaceIn, ArePlacesIn};
ghost use Rattle.edit_orders.specs.Values.{values_cmp};

use crate::comparing::entries_compared;
use crate::fields::entry_value;
use crate::order::{Order, SortBy};
use crate::values::SortValue;
use bib_abbreviations::definitions::definitions;
use bib_abbreviations::reader::FieldReader;
use bib_syntax::raw::{RawBibliography, RawEntry};
use bib_text::items::Items;
use bib_text::spanned::Spanned;
use std::alloc::{AllocError, Global};

// Returns the sort values of an entry, one for each property.
fn entry_values<'s>(
    alloc: Global,
    order: &[SortBy],
    entry: &Spanned<RawEntry<'s>>,
    reader: &mut FieldReader<'_, 's>,
) -> Result<Items<Option<SortValue>>, AllocError>
    ensures same { reader.new ≡ reader.old }
    ensures values { IfOk result (AreValuesOf (given_by reader.old) order.now (entry_reading_of entry.now)) }
{
    let mut values = Vec::new(alloc);
    'order: for by in order {
        values.push(entry_value(alloc, by, entry, reader)?)?;
    }
    Ok(Items::from_vec(values))
}

// Returns the sort values of each entry.
fn all_values<'s>(
    alloc: Global,
    order: &[SortBy],
    entries: &[Spanned<RawEntry<'s>>],
    reader: &mut FieldReader<'_, 's>,
) -> Result<Vec<Items<Option<SortValue>>>, AllocError>
    ensures { IfOk result (λ all. AllZip (AreValuesOf (given_by reader.old) order.now) (map entry_reading_of entries.now) all.items) }
{
    let mut all = Vec::new(alloc);
    'entries: for entry in entries {
        all.push(entry_values(alloc, order, entry, reader)?)?;
    }
    Ok(all)
}

// Returns lists of sort values as slices.
fn slices<'a>(
    alloc: Global,
    all: &'a [Items<Option<SortValue>>],
) -> Result<Vec<&'a [Option<SortValue>]>, AllocError>
    ensures { IfOk result (λ slices. map (λ s. s.now) slices.items ≡ all.now) }
{
    let mut slices = Vec::new(alloc);
    'all: for values in all {
        slices.push(values.as_slice())?;
    }
    Ok(slices)
}

// Returns lists of sort values sorted by an order.
fn sorted_values<'a>(
    order: &[SortBy],
    mut all: Vec<&'a [Option<SortValue>]>,
) -> Result<Vec<&'a [Option<SortValue>]>, AllocError>
    ensures same { IfOk result (λ sorted. IsPermutation (map (λ s. s.now) all.entry.items) (map (λ s. s.now) sorted.items)) }
    ensures sorted { IfOk result (λ sorted. IsSorted (values_cmp order.now) (map (λ s. s.now) sorted.items)) }
{
    all.sort_by(|first, second| entries_compared(order, first, second))?;
    Ok(all)
}

// Returns the place of an entry among sorted ones: the number of entries that come before it.
fn place_in(
    order: &[SortBy],
    sorted: &[&[Option<SortValue>]],
    values: &[Option<SortValue>],
) -> usize
    requires { IsSorted (values_cmp order.now) (map (λ s. s.now) sorted.now) }
    ensures { IsPlaceIn order.now (map (λ s. s.now) sorted.now) values.now result }
{
    sorted.partition_point(|other| entries_compared(order, other, values).is_lt())
}

// Returns the place of each entry among all entries.
fn places_of(
    alloc: Global,
    order: &[SortBy],
    all: &[Items<Option<SortValue>>],
) -> Result<Vec<usize>, AllocError>
    ensures { IfOk result (λ places. ArePlacesOf order.now all.now places.items) }
{
    let sorted = sorted_values(order, slices(alloc, all)?)?;
    let mut places = Vec::new(alloc);
    'all: for values in all {
        places.push(place_in(order, &sorted, values.as_slice()))?;
    }
    Ok(places)
}

/// Returns the place of each entry of a file in an order. Two entries have equal places if the order doesn't tell them apart, so that
/// they keep their order in the file. The only error is out of memory.
///
/// Only the own fields of an entry count, not those that it inherits. Abbreviations count as their last definitions in the file with
/// exactly the same name. A field can't be parsed if it contains LaTeX with an error, or an abbreviation that is neither defined nor a
/// month. Nor can a field with an abbreviation that its own definition uses. The source of its texts and the names of its abbreviations
/// count then.
pub fn order_places(
    alloc: Global,
    order: Order,
    raw: &RawBibliography<'_>,
) -> Result<Vec<usize>, AllocError>
    ensures { IfOk result (λ places. ArePlacesIn (order_parts order) (file_of raw.now) places.items) }
{
    let parts = order.parts(alloc)?;
    let mut reader = FieldReader::new(alloc, definitions(alloc, &raw.abbreviations)?);
    let all = all_values(alloc, &parts, &raw.entries, &mut reader)?;
    places_of(alloc, &parts, &all)
}
