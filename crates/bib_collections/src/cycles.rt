//! Finds the indices on cycles: those that lead to themselves by a chain of one or more references.

ghost use Rattle.std.specs.Prelude.{◌≡◌, ◌<◌, ◌⊎◌, ◌↔◌, ℕ, false, length, OnOk, IfOk, IfSome, IsTrue, slice_index_or};
ghost use Rattle.std.specs.List.{All, Contains};
ghost use Rattle.bib_collections.specs.Graph.{IsInRange, HasNoCycle, IsFirstOnCycle, AreOnCycles, Leads};
ghost use Rattle.bib_collections.specs.Rows.{rows};
ghost use Rattle.bib_collections.specs.Search.{is_marked, root_at, IsClosed, IsSpread, AreReached, AreSuspects, AreRoots, AreBackInside, AllLeadToThemselves};

use std::alloc::{AllocError, Global};

// Marks all indices that `start` leads to, and returns those that had no mark before.
fn spread(
    alloc: Global,
    refs: &[Vec<usize>],
    marks: &mut [bool],
    start: usize,
) -> Result<Vec<usize>, AllocError>
    requires in_range { IsInRange (rows refs.now) }
    requires start { start < length refs.now }
    requires marks { length marks.old ≡ length refs.now }
    requires closed { IsClosed (rows refs.now) marks.old }
    ensures length { length marks.new ≡ length marks.old }
    ensures spread { OnOk result (IsSpread (rows refs.now) start marks.old marks.new) }
    ensures reached { IfOk result (λ reached. AreReached (rows refs.now) start reached.items) }
{
    let mut pending = vec![in alloc; start]?;
    let mut reached = Vec::new(alloc);
    while let Some(index) = pending.pop() {
        for r in &refs[index] {
            if !marks[*r] {
                marks[*r] = true;
                pending.push(*r)?;
                reached.push(*r)?;
            }
        }
    }
    Ok(reached)
}

// Returns whether a chain of one or more references leads from `start` back to `start`.
fn leads_to_itself(alloc: Global, refs: &[Vec<usize>], start: usize) -> Result<bool, AllocError>
    requires in_range { IsInRange (rows refs.now) }
    requires start { start < length refs.now }
    ensures { IfOk result (λ yes. IsTrue yes ↔ Leads (rows refs.now) start start) }
{
    let mut marks = vec![in alloc; false; refs.len()]?;
    spread(alloc, refs, &mut marks, start)?;
    Ok(marks[start])
}

// Returns the index in `refs` of the first unmarked reference from `from` on, or `None` if there is none.
fn next_unmarked(refs: &[usize], marks: &[bool], from: usize) -> Option<usize>
    requires in_range { All (λ r. r < length marks.now) refs.now }
    ensures { IfSome result (λ i. (i < length refs.now) × (is_marked marks.now (slice_index_or refs.now i 0) ≡ false)) }
{
    for i in from..refs.len() {
        if !marks[refs[i]] {
            return Some(i);
        }
    }
    None
}

// Returns the indices in the order in which a depth-first search leaves them. The speed of `marks_on_cycles` depends on
// this order, but its result doesn't.
fn post_order(alloc: Global, refs: &[Vec<usize>]) -> Result<Vec<usize>, AllocError>
    requires in_range { IsInRange (rows refs.now) }
    ensures { IfOk result (λ order. All (λ index. index < length refs.now) order.items) }
{
    let mut marks = vec![in alloc; false; refs.len()]?;
    let mut looked = vec![in alloc; 0; refs.len()]?;
    let mut order = Vec::new(alloc);
    for root in 0..refs.len() {
        if marks[root] {
            continue;
        }
        marks[root] = true;
        let mut path = vec![in alloc; root]?;
        while let Some(index) = path.pop() {
            let row = &refs[index];
            match next_unmarked(row, &marks, looked[index]) {
                Some(i) => {
                    let next = row[i];
                    marks[next] = true;
                    looked[index] = i + 1;
                    path.push(index)?;
                    path.push(next)?;
                }
                None => order.push(index)?,
            }
        }
    }
    Ok(order)
}

// The results of `search`. An index that leads to itself is a suspect. The root of an index leads to it. Because of the
// order of `post_order`, only indices that lead to themselves are suspects, and each index with a root leads to it. These two
// facts aren't proved.
struct Searches {
    suspects: Vec<bool>,
    roots: Vec<Option<usize>>,
}

// Sets the root of each of `indices`.
fn set_root(roots: &mut [Option<usize>], indices: &[usize], root: usize)
    requires indices { All (λ r. r < length roots.old) indices.now }
    ensures length { length roots.new ≡ length roots.old }
    ensures set { (index : ℕ) → (root_at roots.new index ≡ root_at roots.old index)
        ⊎ ((root_at roots.new index ≡ Some root) × Contains indices.now index) }
{
    for r in indices {
        roots[*r] = Some(root);
    }
}

// Searches from each index that no earlier search has marked.
fn search(
    alloc: Global,
    refs: &[Vec<usize>],
    waiting: &[Vec<usize>],
) -> Result<Searches, AllocError>
    requires in_range { IsInRange (rows refs.now) }
    requires waiting { IsInRange (rows waiting.now) }
    requires as_long { length waiting.now ≡ length refs.now }
    ensures length { IfOk result (λ found. length found.suspects.items ≡ length refs.now) }
    ensures suspects { IfOk result (λ found. AreSuspects (rows refs.now) found.suspects.items) }
    ensures as_many { IfOk result (λ found. length found.roots.items ≡ length refs.now) }
    ensures roots { IfOk result (λ found. AreRoots (rows refs.now) found.roots.items) }
{
    let mut order = post_order(alloc, waiting)?;
    let mut marks = vec![in alloc; false; refs.len()]?;
    let mut suspects = vec![in alloc; true; refs.len()]?;
    let mut roots = vec![in alloc; None; refs.len()]?;
    while let Some(root) = order.pop() {
        if marks[root] {
            continue;
        }
        let reached = spread(alloc, refs, &mut marks, root)?;
        set_root(&mut roots, &reached, root);
        suspects[root] = marks[root];
        marks[root] = true;
    }
    Ok(Searches { suspects, roots })
}

// Returns for each index the indices that refer to it and have the same root. For an index without a root, these are the
// indices without a root that refer to it.
fn waiting_lists_inside(
    alloc: Global,
    refs: &[Vec<usize>],
    roots: &[Option<usize>],
) -> Result<Vec<Vec<usize>>, AllocError>
    requires in_range { IsInRange (rows refs.now) }
    requires roots { length roots.now ≡ length refs.now }
    ensures { IfOk result (λ inside. AreBackInside (rows refs.now) roots.now (rows inside.items)) }
{
    let mut inside = Vec::new(alloc);
    for _index in 0..refs.len() {
        inside.push(Vec::new(alloc))?;
    }
    for entry in 0..refs.len() {
        for r in &refs[entry] {
            if roots[*r] == roots[entry] {
                inside[*r].push(entry)?;
            }
        }
    }
    Ok(inside)
}

// Marks the indices that lead to their root through indices with the same root. Since the root leads to them, they lead to
// themselves.
fn marks_leading_to_roots(
    alloc: Global,
    refs: &[Vec<usize>],
    roots: &[Option<usize>],
) -> Result<Vec<bool>, AllocError>
    requires in_range { IsInRange (rows refs.now) }
    requires length { length roots.now ≡ length refs.now }
    requires roots { AreRoots (rows refs.now) roots.now }
    ensures length { IfOk result (λ marks. length marks.items ≡ length refs.now) }
    ensures returning { IfOk result (λ marks. AllLeadToThemselves (rows refs.now) marks.items) }
{
    let inside = waiting_lists_inside(alloc, refs, roots)?;
    let mut marks = vec![in alloc; false; refs.len()]?;
    for index in 0..refs.len() {
        if roots[index] == Some(index) {
            spread(alloc, &inside, &mut marks, index)?;
        }
    }
    Ok(marks)
}

// Marks each index that leads to itself. Searches separately from each index that `search` and `marks_leading_to_roots` leave
// undecided.
pub(crate) fn marks_on_cycles(
    alloc: Global,
    refs: &[Vec<usize>],
    waiting: &[Vec<usize>],
) -> Result<Vec<bool>, AllocError>
    requires in_range { IsInRange (rows refs.now) }
    requires waiting { IsInRange (rows waiting.now) }
    requires as_long { length waiting.now ≡ length refs.now }
    ensures { IfOk result (λ marks. AreOnCycles (rows refs.now) marks.items) }
{
    let Searches { suspects, roots } = search(alloc, refs, waiting)?;
    let mut marks = marks_leading_to_roots(alloc, refs, &roots)?;
    for index in 0..refs.len() {
        if suspects[index] && !marks[index] {
            marks[index] = leads_to_itself(alloc, refs, index)?;
        }
    }
    Ok(marks)
}

// Returns the first index that leads to itself. There must be one.
pub(crate) fn first_on_cycle(
    alloc: Global,
    refs: &[Vec<usize>],
    waiting: &[Vec<usize>],
) -> Result<usize, AllocError>
    requires in_range { IsInRange (rows refs.now) }
    requires waiting { IsInRange (rows waiting.now) }
    requires as_long { length waiting.now ≡ length refs.now }
    requires cycle { HasNoCycle (rows refs.now) → ⊥ }
    ensures { IfOk result (IsFirstOnCycle (rows refs.now)) }
{
    let marks = marks_on_cycles(alloc, refs, waiting)?;
    for index in 0..refs.len() {
        if marks[index] {
            return Ok(index);
        }
    }
    unreachable!()
}
