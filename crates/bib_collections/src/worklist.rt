//! A topological order of indices, by a worklist.

ghost use Rattle.std.specs.Prelude.{◌≡◌, ◌+◌, ◌<◌, ◌≤◌, ◌==◌, ℕ, length, sum, OnOk, OnErr, IfOk, IfErr, map, vec_len, if◌then◌else◌};
ghost use Rattle.std.specs.List.{All};
ghost use Rattle.bib_collections.specs.Graph.{IsInRange, HasNoCycle, IsTopologicalOrder, AreOnCycles};
ghost use Rattle.bib_collections.specs.Rows.{rows, IsOrderError};
ghost use Rattle.bib_collections.specs.Work.{times, missing_at, AreWaiting};
ghost use Rattle.bib_collections.specs.declared.worklist.OrderError.TheVariants.{Cycle, OutOfMemory};

use crate::cycles::{first_on_cycle, marks_on_cycles};
use std::alloc::{AllocError, AllocFailed, Global};

/// Why no topological order was returned.
#[derive(Debug, Drop)]
pub enum OrderError {
    OutOfMemory,
    /// The first index on a cycle: a chain of one or more references leads from it back to it.
    Cycle(usize),
}

impl From<AllocError> for OrderError {
    ghost use Rattle.bib_collections.specs.declared.worklist.OrderError.TheVariants.{OutOfMemory};

    ghost from_gives = { λ e r. r ≡ OutOfMemory };

    fn from(_error: AllocError) -> OrderError {
        OrderError::OutOfMemory
    }
}

impl<T: Drop> From<AllocFailed<T>> for OrderError {
    ghost use Rattle.bib_collections.specs.declared.worklist.OrderError.TheVariants.{OutOfMemory};

    ghost from_gives = { λ e r. r ≡ OutOfMemory };

    fn from(failed: AllocFailed<T>) -> OrderError {
        OrderError::from(AllocError::from(failed))
    }
}

impl OrderError {
    /// Returns the first index on a cycle, or an error if this is `OutOfMemory`.
    pub fn unless_out_of_memory(self) -> Result<usize, AllocError>
        ensures ok { IfOk result (λ index. self ≡ Cycle index) }
        ensures err { OnErr result (self ≡ OutOfMemory) }
    {
        match self {
            OrderError::Cycle(index) => Ok(index),
            OrderError::OutOfMemory => Err(AllocError),
        }
    }
}

/// Returns each index of `refs` once, after all indices that it refers to. The row of `refs` at an index has the indices
/// that it refers to, all less than the length of `refs`.
///
/// Returns the error `Cycle` if there is a cycle, and `OutOfMemory` if out of memory.
pub fn topological_order(alloc: Global, refs: &[Vec<usize>]) -> Result<Vec<usize>, OrderError>
    requires in_range { IsInRange (rows refs.now) }
    ensures order { IfOk result (λ order. IsTopologicalOrder (rows refs.now) order.items) }
    ensures no_cycle { OnOk result (HasNoCycle (rows refs.now)) }
    ensures error { IfErr result (IsOrderError (rows refs.now)) }
{
    let waiting = waiting_lists(alloc, refs)?;
    let mut missing = missing_counts(alloc, refs)?;
    let mut ready = ready_indices(alloc, &missing)?;
    let mut order = Vec::new(alloc);
    while let Some(index) = ready.pop() {
        order.push(index)?;
        release(&mut missing, &mut ready, &waiting[index])?;
    }
    for index in 0..refs.len() {
        if missing[index] != 0 {
            let first = first_on_cycle(alloc, refs, &waiting)?;
            return Err(OrderError::Cycle(first));
        }
    }
    Ok(order)
}

/// Returns for each index whether it is on a cycle: whether a chain of one or more references leads from it back to it.
/// Returns an error only if out of memory.
pub fn on_cycles(alloc: Global, refs: &[Vec<usize>]) -> Result<Vec<bool>, AllocError>
    requires in_range { IsInRange (rows refs.now) }
    ensures { IfOk result (λ marks. AreOnCycles (rows refs.now) marks.items) }
{
    let waiting = waiting_lists(alloc, refs)?;
    marks_on_cycles(alloc, refs, &waiting)
}

// Returns for each index the entries that refer to it, once for each reference.
fn waiting_lists(alloc: Global, refs: &[Vec<usize>]) -> Result<Vec<Vec<usize>>, AllocError>
    requires in_range { IsInRange (rows refs.now) }
    ensures { IfOk result (λ waiting. AreWaiting (rows refs.now) (rows waiting.items)) }
{
    let mut waiting = Vec::new(alloc);
    for _index in 0..refs.len() {
        waiting.push(Vec::new(alloc))?;
    }
    for entry in 0..refs.len() {
        for r in &refs[entry] {
            waiting[*r].push(entry)?;
        }
    }
    Ok(waiting)
}

// Returns the number of references of each entry.
fn missing_counts(alloc: Global, refs: &[Vec<usize>]) -> Result<Vec<usize>, AllocError>
    ensures { IfOk result (λ missing. missing.items ≡ map (λ row. vec_len row) refs.now) }
{
    refs.iter().map(|row| row.len()).collect(alloc)
}

// Returns the indices with no missing reference.
fn ready_indices(alloc: Global, missing: &[usize]) -> Result<Vec<usize>, AllocError>
    ensures { IfOk result (λ ready. (p : ℕ) → times p ready.items ≡ (if missing_at missing.now p == 0 then 1 else 0)) }
{
    let mut ready = Vec::new(alloc);
    for index in 0..missing.len() {
        if missing[index] == 0 {
            ready.push(index)?;
        }
    }
    Ok(ready)
}

// Subtracts 1 from the count of missing references for each index in `waiting`. Appends an index to `ready` when
// its count becomes 0.
fn release(
    missing: &mut [usize],
    ready: &mut Vec<usize>,
    waiting: &[usize],
) -> Result<(), AllocError>
    requires below { All (λ w. w < length missing.old) waiting.now }
    requires enough { (p : ℕ) → p < length missing.old → times p waiting.now ≤ missing_at missing.old p }
    ensures length { length missing.new ≡ length missing.old }
    ensures missing { OnOk result ((p : ℕ) → p < length missing.old → missing_at missing.new p + times p waiting.now ≡
        missing_at missing.old p) }
    ensures ready { OnOk result ((p : ℕ) → times p ready.new.items + (if missing_at missing.old p == 0 then 1 else 0) ≡
        times p ready.old.items + (if missing_at missing.new p == 0 then 1 else 0)) }
    ensures fewer { OnOk result (sum missing.new + length ready.new.items ≤ sum missing.old + length ready.old.items) }
{
    for w in waiting {
        missing[*w] -= 1;
        if missing[*w] == 0 {
            ready.push(*w)?;
        }
    }
    Ok(())
}
