//! Marks the needed nodes: those with a requested name, and those that they refer to, transitively.

ghost use Rattle.std.specs.Prelude.{◌≡◌, ◌↔◌, ◌⊎◌, ◌+◌, ◌<◌, ℕ, List, [], ◌∷◌, ◌++◌, true, false, length, map, bytes_eq, slice_index_or, if◌then◌else◌, IfOk, OnOk};
ghost use Rattle.std.specs.List.{All, Contains};
ghost use Rattle.bib_queries.specs.Needed.{AreMarks, HasName, IsMarked, IsNeeded, is_listed};
ghost use Rattle.bib_queries.specs.Searching.{AreHolders, AreHoldersIn, Marks, LooksUp, holders_in, unmarked_count};
ghost use Rattle.bib_queries.specs.Texts.{node_of, text_list};

use crate::names::Links;
use std::alloc::{AllocError, Global};
use std::collections::BTreeMap;

// Removes the indices of a name from a map, and returns them. Returns no indices if the map doesn't contain the name.
fn take_indices(alloc: Global, holders: &mut BTreeMap<&str, Vec<usize>>, name: &str) -> Vec<usize>
    ensures items { result.items ≡ holders_in holders.old name.now }
    ensures left { (other : List ℕ) → holders_in holders.new other ≡
        (if bytes_eq name.now other then [] else holders_in holders.old other) }
{
    match holders.remove(name) {
        Some(indices) => indices,
        None => Vec::new(alloc),
    }
}

// Appends `index` to the indices of `name`.
fn add_holder<'s>(
    alloc: Global,
    holders: &mut BTreeMap<&'s str, Vec<usize>>,
    name: &'s str,
    index: usize,
) -> Result<(), AllocError>
    ensures { OnOk result ((other : List ℕ) → holders_in holders.new other ≡
        (if bytes_eq name.now other then holders_in holders.old other ++ index ∷ [] else holders_in holders.old other)) }
{
    let mut indices = take_indices(alloc, holders, name);
    indices.push(index)?;
    holders.insert(name, indices)?;
    Ok(())
}

// Appends `index` to the indices of each name in `names`.
fn add_holders<'s>(
    alloc: Global,
    holders: &mut BTreeMap<&'s str, Vec<usize>>,
    names: &[&'s str],
    index: usize,
) -> Result<(), AllocError>
    ensures { OnOk result ((name : List ℕ) (one : ℕ) → Contains (holders_in holders.new name) one ↔
        (Contains (holders_in holders.old name) one ⊎ ((one ≡ index) × (is_listed (map (λ n. n.now) names.now) name ≡ true)))) }
{
    'names: for name in names {
        add_holder(alloc, holders, name, index)?;
    }
    Ok(())
}

// Returns the indices of the nodes with each name.
fn holders<'s>(
    alloc: Global,
    links: &[Links<'s>],
) -> Result<BTreeMap<&'s str, Vec<usize>>, AllocError>
    ensures { IfOk result (AreHolders (map node_of links.now)) }
{
    let mut holders = BTreeMap::new(alloc);
    'links: for (index, link) in links.iter().enumerate() {
        add_holders(alloc, &mut holders, &link.names, index)?;
    }
    Ok(holders)
}

// Marks indices, and appends those that had no mark to `pending`.
fn mark_all(
    indices: &[usize],
    marks: &mut [bool],
    pending: &mut Vec<usize>,
) -> Result<(), AllocError>
    requires { All (λ index. index < length marks.old) indices.now }
    ensures length { length marks.new ≡ length marks.old }
    ensures marks { OnOk result (Marks (Contains indices.now) marks.old pending.old.items marks.new pending.new.items) }
    ensures all { OnOk result (All (IsMarked marks.new) indices.now) }
{
    'indices: for index in indices {
        if !marks[*index] {
            marks[*index] = true;
            pending.push(*index)?;
        }
    }
    Ok(())
}

// Marks the nodes with a name, and appends those that had no mark to `pending`. Removes the name from `holders`, so that its indices
// are visited only once.
fn mark_name(
    alloc: Global,
    holders: &mut BTreeMap<&str, Vec<usize>>,
    name: &str,
    marks: &mut [bool],
    pending: &mut Vec<usize>,
) -> Result<(), AllocError>
    requires { (other : List ℕ) → All (λ index. index < length marks.old) (holders_in holders.old other) }
    ensures length { length marks.new ≡ length marks.old }
    ensures marks { OnOk result (Marks (Contains
        (holders_in holders.old name.now)) marks.old pending.old.items marks.new pending.new.items) }
    ensures all { OnOk result (All (IsMarked marks.new) (holders_in holders.old name.now)) }
    ensures left { (other : List ℕ) → holders_in holders.new other ≡
        (if bytes_eq name.now other then [] else holders_in holders.old other) }
{
    let indices = take_indices(alloc, holders, name);
    mark_all(&indices, marks, pending)
}

// Marks the nodes with one of these names, and appends those that had no mark to `pending`.
fn mark_names(
    alloc: Global,
    holders: &mut BTreeMap<&str, Vec<usize>>,
    names: &[&str],
    marks: &mut [bool],
    pending: &mut Vec<usize>,
) -> Result<(), AllocError>
    requires { (other : List ℕ) → All (λ index. index < length marks.old) (holders_in holders.old other) }
    ensures length { length marks.new ≡ length marks.old }
    ensures marks { OnOk result (Marks (AreHoldersIn holders.old
        (map (λ n. n.now) names.now)) marks.old pending.old.items marks.new pending.new.items) }
    ensures expands { OnOk result (LooksUp holders.old (map (λ n. n.now) names.now) marks.new holders.new) }
{
    'names: for name in names {
        mark_name(alloc, holders, name, marks, pending)?;
    }
    Ok(())
}

// Marks the nodes with one of these names, and the nodes that they refer to, transitively.
pub(crate) fn mark_needed(
    alloc: Global,
    names: &[&str],
    links: &[Links<'_>],
) -> Result<Vec<bool>, AllocError>
    ensures { IfOk result (λ marks. AreMarks (IsNeeded (map (λ n. n.now) names.now) (map node_of links.now))
        (length links.now) marks.items) }
{
    let mut holders = holders(alloc, links)?;
    let mut marks = vec![in alloc; false; links.len()]?;
    let mut pending = Vec::new(alloc);
    mark_names(alloc, &mut holders, names, &mut marks, &mut pending)?;
    'search: while let Some(index) = pending.pop() {
        mark_names(
            alloc,
            &mut holders,
            &links[index].references,
            &mut marks,
            &mut pending,
        )?;
    }
    Ok(marks)
}
