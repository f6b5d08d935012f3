//! The rank of each entry: the length of the longest chain of references that leads to it.

ghost use Rattle.std.specs.Prelude.{◌≡◌, ◌<◌, ◌+◌, [], IfOk, length, map, min, slice_index_or, slice_set, if◌then◌else◌};
ghost use Rattle.std.specs.List.{All};
ghost use Rattle.bib_collections.specs.Graph.{HasNoCycle, IsInRange, IsTopologicalOrder, Solves};
ghost use Rattle.bib_collections.specs.Rows.{rows};
ghost use Rattle.bib_syntax.specs.Views.{entry_reading_of};
ghost use Rattle.edit_sort.specs.Ranks as ranks;
ghost use Rattle.edit_sort.specs.Ranks.{AreCyclesCut, AreKeyIndices, length_by, longest_chains, owner};
ghost use Rattle.edit_sort.specs.Sorted.{rank};

use crate::crossrefs::children_of;
use bib_collections::claims::Claims;
use bib_collections::worklist::{on_cycles, topological_order};
use bib_syntax::raw::RawEntry;
use bib_text::spanned::Spanned;
use std::alloc::{AllocError, Global};

// Returns a length that is one greater, but at most `most`.
fn one_more(length: usize, most: usize) -> usize
    ensures { result ≡ min (length + 1) most }
{
    if length < most { length + 1 } else { most }
}

// Returns one more than the greatest of the lengths at these indices, but at most `most`; 0 if there are no indices.
fn one_above(lengths: &[usize], indices: &[usize], most: usize) -> usize
    requires { All (λ r. r < length lengths.now) indices.now }
    ensures { result ≡ ranks.one_above most (map (λ r. slice_index_or lengths.now r 0) indices.now) }
{
    let mut found = 0usize;
    'indices: for r in indices {
        found = found.max(one_more(lengths[*r], most));
    }
    found
}

// Returns the length of the longest chain that begins at an index, from the lengths at the indices that it refers to. Returns `most` if
// the index is on a cycle.
fn length_at(lengths: &[usize], indices: &[usize], is_on_cycle: bool, most: usize) -> usize
    requires { All (λ r. r < length lengths.now) indices.now }
    ensures { result ≡ (if is_on_cycle then most else ranks.one_above most (map (λ r. slice_index_or lengths.now r 0) indices.now)) }
{
    if is_on_cycle {
        most
    } else {
        one_above(lengths, indices, most)
    }
}

// Returns the length of the longest chain that begins at each index. In `order`, each index comes after those that it refers
// to.
fn lengths_in(
    alloc: Global,
    graph: &[Vec<usize>],
    marks: &[bool],
    order: &[usize],
) -> Result<Vec<usize>, AllocError>
    requires in_range { IsInRange (rows graph.now) }
    requires marks { length marks.now ≡ length graph.now }
    requires order { IsTopologicalOrder (rows graph.now) order.now }
    ensures { IfOk result (λ lengths. Solves 0 (length_by (length graph.now) marks.now) (rows graph.now) lengths.items) }
{
    let most = graph.len();
    let mut lengths = vec![in alloc; 0; most]?;
    'order: for index in order {
        lengths[*index] = length_at(&lengths, &graph[*index], marks[*index], most);
    }
    Ok(lengths)
}

// Removes the references of an index if it is on a cycle.
fn cut_row(alloc: Global, graph: &mut Vec<Vec<usize>>, index: usize, is_on_cycle: bool)
    requires { index < length graph.old.items }
    ensures { rows graph.new.items ≡ (if is_on_cycle then slice_set (rows graph.old.items) index [] else rows graph.old.items) }
{
    if is_on_cycle {
        graph[index] = Vec::new(alloc);
    }
}

// Removes the references of each index on a cycle.
fn cut(alloc: Global, graph: &mut Vec<Vec<usize>>, marks: &[bool])
    requires { length marks.now ≡ length graph.old.items }
    ensures { AreCyclesCut (rows graph.old.items) marks.now (rows graph.new.items) }
{
    'marks: for index in 0..marks.len() {
        cut_row(alloc, graph, index, marks[index]);
    }
}

// Returns a topological order of a graph without cycles.
fn order_of(alloc: Global, graph: &[Vec<usize>]) -> Result<Vec<usize>, AllocError>
    requires in_range { IsInRange (rows graph.now) }
    requires no_cycle { HasNoCycle (rows graph.now) }
    ensures { IfOk result (λ order. IsTopologicalOrder (rows graph.now) order.items) }
{
    match topological_order(alloc, graph) {
        Ok(order) => Ok(order),
        Err(e) => {
            e.unless_out_of_memory()?;
            unreachable!()
        }
    }
}

// Returns the length of the longest chain that begins at each index, at most the number of indices. Removes the references of
// the indices on cycles.
fn chain_lengths(alloc: Global, graph: &mut Vec<Vec<usize>>) -> Result<Vec<usize>, AllocError>
    requires { IsInRange (rows graph.old.items) }
    ensures { IfOk result (λ lengths. lengths.items ≡ longest_chains (rows graph.old.items)) }
{
    let marks = on_cycles(alloc, graph)?;
    cut(alloc, graph, &marks);
    let order = order_of(alloc, graph)?;
    lengths_in(alloc, graph, &marks, &order)
}

// Returns the lengths at these indices.
fn lengths_at(alloc: Global, lengths: &[usize], indices: &[usize]) -> Result<Vec<usize>, AllocError>
    requires { All (λ r. r < length lengths.now) indices.now }
    ensures { IfOk result (λ found. found.items ≡ map (λ r. slice_index_or lengths.now r 0) indices.now) }
{
    let mut found = Vec::new(alloc);
    'indices: for r in indices {
        found.push(lengths[*r])?;
    }
    Ok(found)
}

// Returns the rank of each entry.
pub(crate) fn ranks_of(
    alloc: Global,
    names: &Claims,
    owners: &[usize],
    entries: &[Spanned<RawEntry<'_>>],
) -> Result<Vec<usize>, AllocError>
    requires names { AreKeyIndices (map entry_reading_of entries.now) names.now }
    requires owners { owners.now ≡ map (owner names.now) (map entry_reading_of entries.now) }
    ensures { IfOk result (λ found. found.items ≡ map (rank (map entry_reading_of entries.now)) (map entry_reading_of entries.now)) }
{
    let mut children = children_of(alloc, names, owners, entries)?;
    let lengths = chain_lengths(alloc, &mut children)?;
    lengths_at(alloc, &lengths, owners)
}
