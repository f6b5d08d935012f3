//! Inheritance between the entries of a file with errors.

ghost use Rattle.std.specs.Prelude.{◌≡◌, ◌<◌, ℕ, true, IfOk, OnOk, length, map};
ghost use Rattle.bib_collections.specs.Graph.{HasNoCycle, IsInRange, IsTopologicalOrder};
ghost use Rattle.bib_collections.specs.Rows.{rows};
ghost use Rattle.bib_collections.specs.Names.{AreIndicesBelow};
ghost use Rattle.bib_inheritance.specs.Cutting.{IsCut, IsUnreadError};
ghost use Rattle.bib_inheritance.specs.Recovered.{AreRecovered, EachReported, without_references};
ghost use Rattle.bib_inheritance.specs.Resolving.{texts_of_entries};
ghost use Rattle.bib_inheritance.specs.Turning.{IsCacheOf, is_unread_at};

use crate::dates::unread_dates;
use crate::inheritable_date::InheritableDate;
use crate::reference_indices::{date_flags, graph, reference_flags};
use crate::resolving::{cycle, resolution_error};
use crate::turning::take_turns;
use crate::unread::first_unread;
use bib_chunks::chunk::Span;
use bib_collections::names::Names;
use bib_collections::worklist::{on_cycles, topological_order};
use bib_entry::entry::Entry;
use bib_syntax::raw::ParseError;
use std::alloc::{AllocError, Global};

// Removes `crossref` and `xdata`.
fn cut(entry: &mut Entry)
    ensures { entry.new ≡ without_references entry.old }
{
    entry.fields.remove("crossref");
    entry.fields.remove("xdata");
}

// Removes `crossref` and `xdata` of each entry that refers to itself by them, directly or through others, and returns an error
// for each.
fn cut_cycles(
    alloc: Global,
    spans: &[Span],
    entries: &mut [Entry],
    refs: &mut [Vec<usize>],
) -> Result<Vec<ParseError>, AllocError>
    requires in_range { IsInRange (rows refs.old) }
    requires rows { length refs.old ≡ length entries.old }
    requires as_long { length spans.now ≡ length entries.old }
    ensures rows { length refs.new ≡ length refs.old }
    ensures length { length entries.new ≡ length entries.old }
    ensures cut { IfOk result (λ errors. IsCut spans.now entries.old (rows refs.old) entries.new (rows refs.new) errors.items) }
{
    let marks = on_cycles(alloc, refs)?;
    let mut errors = Vec::new(alloc);
    'entries: for index in 0..marks.len() {
        if marks[index] {
            let error = cycle(alloc, spans, entries, index)?;
            errors.push(error)?;
            cut(&mut entries[index]);
            refs[index] = Vec::new(alloc);
        }
    }
    Ok(errors)
}

// Returns a topological order of the entries, whose graph has no cycle.
fn order(alloc: Global, refs: &[Vec<usize>]) -> Result<Vec<usize>, AllocError>
    requires in_range { IsInRange (rows refs.now) }
    requires no_cycle { HasNoCycle (rows refs.now) }
    ensures { IfOk result (λ order. IsTopologicalOrder (rows refs.now) order.items) }
{
    match topological_order(alloc, refs) {
        Ok(order) => Ok(order),
        Err(e) => {
            e.unless_out_of_memory()?;
            unreachable!()
        }
    }
}

// Removes the references of each entry on a cycle. Returns a topological order of the entries, and an error for each entry on
// a cycle.
fn order_and_cycles(
    alloc: Global,
    spans: &[Span],
    entries: &mut [Entry],
    refs: &mut [Vec<usize>],
) -> Result<(Vec<usize>, Vec<ParseError>), AllocError>
    requires in_range { IsInRange (rows refs.old) }
    requires rows { length refs.old ≡ length entries.old }
    requires as_long { length spans.now ≡ length entries.old }
    ensures rows { length refs.new ≡ length refs.old }
    ensures length { length entries.new ≡ length entries.old }
    ensures turns { IfOk result (λ found. IsTopologicalOrder (rows refs.new) found.0.items) }
    ensures cut { IfOk result (λ found. IsCut spans.now entries.old (rows refs.old) entries.new (rows refs.new) found.1.items) }
{
    match topological_order(alloc, refs) {
        Ok(order) => Ok((order, Vec::new(alloc))),
        Err(e) => {
            e.unless_out_of_memory()?;
            let errors = cut_cycles(alloc, spans, entries, refs)?;
            Ok((order(alloc, refs)?, errors))
        }
    }
}

// Returns an error for each entry that is flagged in `looks` and refers to an entry with an unreadable date.
fn date_errors(
    alloc: Global,
    refs: &[Vec<usize>],
    looks: &[bool],
    entries: &[Entry],
    dates: &mut [Option<InheritableDate>],
) -> Result<Vec<ParseError>, AllocError>
    requires in_range { IsInRange (rows refs.now) }
    requires as_long { length entries.now ≡ length refs.now }
    requires flags { length looks.now ≡ length refs.now }
    requires dates { IsCacheOf entries.now dates.old }
    ensures { IfOk result (λ errors. EachReported
        (λ index. is_unread_at looks.now (rows refs.now) (texts_of_entries entries.now) index ≡ true)
        (IsUnreadError (rows refs.now) entries.now) (length refs.now) errors.items) }
{
    let mut errors = Vec::new(alloc);
    'entries: for index in 0..refs.len() {
        if !looks[index] {
            continue 'entries;
        }
        if let Some(error) = first_unread(alloc, &refs[index], entries, dates)? {
            errors.push(resolution_error(error))?;
        }
    }
    Ok(errors)
}

/// Adds to each entry the fields that it inherits, removes its `xdata`, and returns the errors. `names` points to the
/// entries, and `spans` contains the span of each entry in the file.
///
/// Each entry that refers to itself by `crossref` or `xdata`, directly or through others, is reported (`ReferenceCycle`, at the
/// entry), and loses these two fields. Then each entry is reported that lacks a required date and refers to an entry with an unreadable
/// date (`ResolutionError`). A date is unreadable if the entry has `year` but no `date`, and its `year`, `month` and `day`
/// can't be parsed. It is not inherited. Both kinds of errors are in the order of the entries.
///
/// The only returned error is out of memory. Some entries may then have changed, and one may have lost its fields.
pub fn resolve_readable(
    alloc: Global,
    spans: &[Span],
    names: &Names,
    entries: &mut [Entry],
) -> Result<Vec<ParseError>, AllocError>
    requires below { AreIndicesBelow (length entries.old) names.now }
    requires as_long { length spans.now ≡ length entries.old }
    ensures length { length entries.new ≡ length entries.old }
    ensures recovered { IfOk result (λ errors. AreRecovered spans.now names.now entries.old entries.new errors.items) }
{
    let mut refs = graph(alloc, entries, names)?;
    let (order, mut errors) = order_and_cycles(alloc, spans, entries, &mut refs)?;
    let looks = date_flags(alloc, entries)?;
    let flags = reference_flags(alloc, entries)?;
    let mut dates = unread_dates(alloc, entries.len())?;
    take_turns(alloc, &order, &refs, &flags, entries, &mut dates)?;
    let mut unread = date_errors(alloc, &refs, &looks, entries, &mut dates)?;
    errors.append(&mut unread)?;
    Ok(errors)
}
