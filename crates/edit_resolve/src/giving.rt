//! The fields that `xdata` gives an entry, which take the places of own ones.

ghost use Rattle.std.specs.Prelude.{◌≡◌, ◌∷◌, ◌<◌, [], ℕ, List, length, map, filter, IfOk, OnOk};
ghost use Rattle.std.specs.List.{All, find};
ghost use Rattle.std.specs.Option.{option_map};
ghost use Rattle.bib_syntax.specs.Views.{field_of};
ghost use Rattle.edit_resolve.specs.Inheritance.{passes_on, read_name};
ghost use Rattle.edit_resolve.specs.Resolved as spec;
ghost use Rattle.edit_resolve.specs.Resolved.{given_fields_by, is_read_as};
ghost use Rattle.edit_resolve.specs.Working.{Gives, fields_at, given_at, instead_at, named_of};

use crate::gathering::Named;
use crate::inheritance::passes_on;
use crate::names::read_name;
use crate::parents::{Link, Parent};
use bib_syntax::raw::Pair;
use std::alloc::{AllocError, Global};
use std::collections::BTreeMap;

// Adds a field of a parent that `xdata` names, if it is inherited and no field has its name yet.
fn give<'a, 's>(
    given: &mut BTreeMap<String, Named<'a, 's>>,
    alloc: Global,
    named: Named<'a, 's>,
) -> Result<(), AllocError>
    ensures { OnOk result (Gives given.old (filter (λ n. passes_on (read_name n.name)) (named_of named.entry ∷ [])) given.new) }
{
    let name = read_name(alloc, named.name)?;
    if !passes_on(&name) || given.contains_key(&name) {
        return Ok(());
    }
    given.insert(name, named)?;
    Ok(())
}

// Adds the fields of a parent that `xdata` names, as `give` adds each.
fn give_all<'a, 's>(
    given: &mut BTreeMap<String, Named<'a, 's>>,
    alloc: Global,
    fields: &[Named<'a, 's>],
) -> Result<(), AllocError>
    ensures { OnOk result (Gives given.old (filter (λ n. passes_on (read_name n.name)) (map named_of fields.now)) given.new) }
{
    'fields: for named in fields {
        give(given, alloc, *named)?;
    }
    Ok(())
}

// Adds the fields that a parent gives.
fn give_parent<'a, 's>(
    given: &mut BTreeMap<String, Named<'a, 's>>,
    alloc: Global,
    parent: Parent,
    found: &[Vec<Named<'a, 's>>],
) -> Result<(), AllocError>
    requires { parent.index < length found.now }
    ensures { OnOk result (Gives given.old (spec.given_fields parent.link (fields_at found.now parent.index)) given.new) }
{
    match parent.link {
        Link::Xdata => give_all(given, alloc, &found[parent.index]),
        Link::Crossref => Ok(()),
    }
}

// Returns the fields that the parents of an entry give, by the names under which Biber reads them.
pub(crate) fn given<'a, 's>(
    alloc: Global,
    parents: &[Parent],
    found: &[Vec<Named<'a, 's>>],
) -> Result<BTreeMap<String, Named<'a, 's>>, AllocError>
    requires { All (λ p. p.index < length found.now) parents.now }
    ensures { IfOk result (λ given. (name : List ℕ) →
        given_at given name ≡ find (is_read_as name) (given_fields_by (fields_at found.now) parents.now)) }
{
    let mut given = BTreeMap::new(alloc);
    'parents: for parent in parents {
        give_parent(&mut given, alloc, *parent, found)?;
    }
    Ok(given)
}

// Returns the field that takes the place of an own field, if there is one.
pub(crate) fn substitute<'a, 's>(
    given: &BTreeMap<String, Named<'a, 's>>,
    alloc: Global,
    field: &Pair<'_>,
) -> Result<Option<Named<'a, 's>>, AllocError>
    ensures { IfOk result (λ found. option_map named_of found ≡ instead_at given.now (field_of field.now)) }
{
    let name = read_name(alloc, field.key.v)?;
    Ok(given.get(&name).copied())
}
