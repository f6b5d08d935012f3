//! The fields of all entries, with inherited ones.

ghost use Rattle.std.specs.Prelude.{◌≡◌, length, map, IfErr, IfOk, OnOk};
ghost use Rattle.bib_collections.specs.Graph.{HasNoCycle, IsInRange, IsTopologicalOrder};
ghost use Rattle.bib_collections.specs.Rows.{rows};
ghost use Rattle.edit_resolve.specs.Parents as spec;
ghost use Rattle.edit_resolve.specs.Parents.{parent_graph};
ghost use Rattle.edit_resolve.specs.Resolved.{IsResolveError};
ghost use Rattle.edit_resolve.specs.Working.{AreAlong, HasNames, fields_at, parent_lists, readings};

use crate::errors::ResolveError;
use crate::file::File;
use crate::gathering::{Named, with_inherited};
use crate::parents::{Parent, graph, parents_at};
use bib_collections::worklist::topological_order;
use std::alloc::{AllocError, Global};

// Returns this number of empty lists.
fn empty_lists<'a, 's>(alloc: Global, count: usize) -> Result<Vec<Vec<Named<'a, 's>>>, AllocError>
    ensures { IfOk result (λ lists. length lists.items ≡ count) }
{
    let mut lists: Vec<Vec<Named<'a, 's>>> = Vec::with_capacity(alloc, count)?;
    'lists: for _index in 0..count {
        let list: Vec<Named<'a, 's>> = Vec::new(alloc);
        lists.push(list)?;
    }
    Ok(lists)
}

// Returns the fields of each entry, with the inherited ones. In `order`, each entry comes after its parents.
fn fields_in_order<'a, 's>(
    alloc: Global,
    file: &File<'a, 's>,
    parents: &[Vec<Parent>],
    order: &[usize],
) -> Result<Vec<Vec<Named<'a, 's>>>, AllocError>
    requires known { HasNames file.now }
    requires parents { parent_lists parents.now ≡ map (spec.parents (readings file.now)) (readings file.now) }
    requires order { IsTopologicalOrder (parent_graph (readings file.now)) order.now }
    ensures length { IfOk result (λ fields. length fields.items ≡ length file.now.entries.now) }
    ensures fields { IfOk result (λ fields. AreAlong (readings file.now) (fields_at fields.items)) }
{
    let mut fields = empty_lists(alloc, file.entries.len())?;
    'order: for index in order {
        fields[*index] = with_inherited(alloc, file, *index, parents_at(parents, *index), &fields)?;
    }
    Ok(fields)
}

// Returns the fields of each entry, with the inherited ones. The entries have these parents.
pub(crate) fn all_fields<'a, 's>(
    alloc: Global,
    file: &File<'a, 's>,
    parents: &[Vec<Parent>],
) -> Result<Vec<Vec<Named<'a, 's>>>, ResolveError>
    requires known { HasNames file.now }
    requires parents { parent_lists parents.now ≡ map (spec.parents (readings file.now)) (readings file.now) }
    ensures length { IfOk result (λ fields. length fields.items ≡ length file.now.entries.now) }
    ensures fields { IfOk result (λ fields. AreAlong (readings file.now) (fields_at fields.items)) }
    ensures no_cycle { OnOk result (HasNoCycle (parent_graph (readings file.now))) }
    ensures refused { IfErr result (IsResolveError (readings file.now)) }
{
    let refs = graph(alloc, parents)?;
    let order = topological_order(alloc, &refs)?;
    Ok(fields_in_order(alloc, file, parents, &order)?)
}
