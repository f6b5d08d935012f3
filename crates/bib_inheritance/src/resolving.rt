//! Inheritance between the entries of a bibliography.

ghost use Rattle.std.specs.Prelude.{◌≡◌, ◌⊎◌, ◌<◌, ℕ, IfOk, IfErr, OnOk, length, map};
ghost use Rattle.bib_collections.specs.Graph.{IsTopologicalOrder, HasNoCycle, IsFirstOnCycle, IsInRange};
ghost use Rattle.bib_collections.specs.Rows.{rows};
ghost use Rattle.bib_collections.specs.Names.{AreIndicesBelow};
ghost use Rattle.bib_syntax.specs.Errors.{out_of_memory};
ghost use Rattle.bib_syntax.specs.declared.raw.ParseErrorKind.TheVariants.{ResolutionError as ADate};
ghost use Rattle.bib_inheritance.specs.Resolving.{AreResolved, IsCycleAt, IsResolvingError, graph_by};

use crate::dates::unread_dates;
use crate::reference_indices::{flagged_graph, reference_flags};
use crate::turning::take_turns;
use crate::unread::unread_date;
use bib_chunks::chunk::Span;
use bib_collections::names::Names;
use bib_collections::worklist::topological_order;
use bib_entry::entry::Entry;
use bib_syntax::raw::{ParseError, ParseErrorKind};
use bib_tables::type_error::TypeError;
use std::alloc::{AllocError, Global};

// Returns the error of the entry at `index`, which refers to itself, directly or through others.
pub(crate) fn cycle(
    alloc: Global,
    spans: &[Span],
    entries: &[Entry],
    index: usize,
) -> Result<ParseError, AllocError>
    requires index { index < length entries.now }
    requires as_long { length spans.now ≡ length entries.now }
    ensures { IfOk result (IsCycleAt spans.now entries.now index) }
{
    let span = &spans[index];
    let entry = &entries[index];
    let key = entry.key.clone()?;
    Ok(ParseError {
        span: span.start..span.end,
        kind: ParseErrorKind::ReferenceCycle(key),
    })
}

// Returns a topological order of the entries, or the error of the first entry on a cycle.
fn order(
    alloc: Global,
    refs: &[Vec<usize>],
    spans: &[Span],
    entries: &[Entry],
) -> Result<Vec<usize>, ParseError>
    requires in_range { IsInRange (rows refs.now) }
    requires rows { length refs.now ≡ length entries.now }
    requires as_long { length spans.now ≡ length entries.now }
    ensures turns { IfOk result (λ order. IsTopologicalOrder (rows refs.now) order.items) }
    ensures no_cycle { OnOk result (HasNoCycle (rows refs.now)) }
    ensures refused { IfErr result (λ e. (e ≡ out_of_memory) ⊎ ((index : ℕ) ×
        IsFirstOnCycle (rows refs.now) index × IsCycleAt spans.now entries.now index e)) }
{
    match topological_order(alloc, refs) {
        Ok(order) => Ok(order),
        Err(e) => Err(cycle(alloc, spans, entries, e.unless_out_of_memory()?)?),
    }
}

// Returns the error of resolving an unreadable date.
pub(crate) fn resolution_error(error: TypeError) -> ParseError
    ensures { result ≡ record { span = error.span; kind = ADate error.kind } }
{
    ParseError {
        span: error.span,
        kind: ParseErrorKind::ResolutionError(error.kind),
    }
}

/// Adds to each entry the fields that it inherits, removes its `xdata`, and returns the indices of the entries in the order
/// in which they inherited. `names` points to the entries, and `spans` contains the span of each entry in the file.
///
/// Entries refer to each other by `crossref` and `xdata` here. The error is that of the first entry that refers to itself, directly
/// or through others (`ReferenceCycle`, at the entry). If there is none, it is that of the first entry that lacks a required date
/// and refers to an entry with an unreadable date (`ResolutionError`). A date is unreadable if the entry has `year` but
/// no `date`, and its `year`, `month` and `day` can't be parsed. The span is then that of the first of these
/// three fields that can't be parsed. For a day in the field `month`, it is that of its digits, in bytes of that field's text.
///
/// After an error, some entries may be resolved. After out of memory, one entry may have lost its fields.
pub fn resolve(
    alloc: Global,
    spans: &[Span],
    names: &Names,
    entries: &mut [Entry],
) -> Result<Vec<usize>, ParseError>
    requires below { AreIndicesBelow (length entries.old) names.now }
    requires as_long { length spans.now ≡ length entries.old }
    ensures length { length entries.new ≡ length entries.old }
    ensures turns { IfOk result (λ turns. IsTopologicalOrder (graph_by names.now entries.old) turns.items) }
    ensures resolved { OnOk result (AreResolved entries.old (graph_by names.now entries.old) entries.new) }
    ensures refused { IfErr result (λ e. (e ≡ out_of_memory) ⊎
        IsResolvingError spans.now entries.old (graph_by names.now entries.old) e) }
{
    let flags = reference_flags(alloc, entries)?;
    let (refs, looks) = flagged_graph(alloc, entries, names, &flags)?;
    let order = order(alloc, &refs, spans, entries)?;
    let mut dates = unread_dates(alloc, entries.len())?;
    let turns = take_turns(alloc, &order, &refs, &flags, entries, &mut dates)?;
    match unread_date(alloc, &refs, &looks, entries, &mut dates)? {
        Some(error) => Err(resolution_error(error)),
        None => Ok(turns),
    }
}
