//! The fields that an entry inherits from its parents.

ghost use Rattle.std.specs.Prelude.{◌≡◌, ◌++◌, ◌∷◌, [], ◌<◌, ℕ, List, length, map, filter, unwrap_or, IfOk, OnOk};
ghost use Rattle.std.specs.BTreeSet.{contains_text};
ghost use Rattle.std.specs.List.{All, flat_map};
ghost use Rattle.bib_queries.specs.Needed.{is_listed};
ghost use Rattle.bib_syntax.specs.Views.{entry_reading_of, field_of};
ghost use Rattle.edit_resolve.specs.Inheritance.{keeps_name, name_by_crossref, passes_on, read_name};
ghost use Rattle.edit_resolve.specs.Resolved.{as_itself, offers, renamed};
ghost use Rattle.edit_resolve.specs.Working as spec;
ghost use Rattle.edit_resolve.specs.Working.{HasNames, Offered, fields_at, instead_at, named_of, readings, type_at};

use crate::file::File;
use crate::giving::{given, substitute};
use crate::inheritance::{keeps_name, name_by_crossref, passes_on};
use crate::names::{is_ruled_out, read_name};
use crate::parents::{Link, Parent};
use bib_syntax::raw::Pair;
use bib_tables::mechanics::EntryType;
use std::alloc::{AllocError, Global};
use std::collections::{BTreeMap, BTreeSet};

// A name, and the field of the file that has the value.
#[derive(Clone, Copy)]
pub(crate) struct Named<'a, 's> {
    // The name.
    pub(crate) name: &'s str,
    // The field.
    pub(crate) field: &'a Pair<'s>,
}

// Returns the fields at an index.
pub(crate) fn fields_of<'f, 'a, 's>(
    fields: &'f [Vec<Named<'a, 's>>],
    index: usize,
) -> &'f [Named<'a, 's>]
    requires { index < length fields.now }
    ensures { map named_of result.now ≡ fields_at fields.now index }
{
    &fields[index]
}

// The fields of an entry, and the names that are taken.
#[derive(Drop)]
struct Gathered<'a, 's> {
    names: BTreeSet<String>,
    fields: Vec<Named<'a, 's>>,
}

// Adds an offered field, unless its name, or one that excludes it, is taken.
fn push_new<'a, 's>(
    gathered: &mut Gathered<'a, 's>,
    alloc: Global,
    offered: Named<'a, 's>,
) -> Result<(), AllocError>
    ensures { OnOk result (Offered gathered.old (named_of offered.entry ∷ []) gathered.new) }
{
    let name = read_name(alloc, offered.name)?;
    if is_ruled_out(&gathered.names, &name) {
        return Ok(());
    }
    gathered.names.insert(name)?;
    gathered.fields.push(offered)?;
    Ok(())
}

// Passes a field of a parent to `push_new`, if its name can be inherited through `xdata`.
fn push_passed<'a, 's>(
    gathered: &mut Gathered<'a, 's>,
    alloc: Global,
    named: Named<'a, 's>,
) -> Result<(), AllocError>
    ensures { OnOk result (Offered gathered.old (filter (λ n. passes_on (read_name n.name)) (named_of named.entry ∷ [])) gathered.new) }
{
    let name = read_name(alloc, named.name)?;
    if !passes_on(&name) {
        return Ok(());
    }
    push_new(gathered, alloc, named)
}

// Offers a field of a parent that `crossref` names to `push_new` under its new name, if it has one.
fn push_renamed<'a, 's>(
    gathered: &mut Gathered<'a, 's>,
    alloc: Global,
    parent: &EntryType,
    child: &EntryType,
    named: Named<'a, 's>,
) -> Result<(), AllocError>
    ensures { OnOk result (Offered gathered.old
        (renamed (named_of named.entry) (name_by_crossref parent.now child.now (read_name (named_of named.entry).name))) gathered.new) }
{
    let name = read_name(alloc, named.name)?;
    let Some(name) = name_by_crossref(parent, child, &name) else {
        return Ok(());
    };
    let field = named.field;
    push_new(gathered, alloc, Named { name, field })
}

// Offers a field of a parent that `crossref` names to `push_new` under its own name, if it is inherited under it.
fn push_kept<'a, 's>(
    gathered: &mut Gathered<'a, 's>,
    alloc: Global,
    parent: &EntryType,
    child: &EntryType,
    named: Named<'a, 's>,
) -> Result<(), AllocError>
    ensures { OnOk result (Offered gathered.old
        (filter (λ n. keeps_name parent.now child.now (read_name n.name)) (named_of named.entry ∷ [])) gathered.new) }
{
    let name = read_name(alloc, named.name)?;
    if !keeps_name(parent, child, &name) {
        return Ok(());
    }
    push_new(gathered, alloc, named)
}

// Offers the fields of a parent that `xdata` names, in order (see `push_passed`).
fn push_all_passed<'a, 's>(
    gathered: &mut Gathered<'a, 's>,
    alloc: Global,
    fields: &[Named<'a, 's>],
) -> Result<(), AllocError>
    ensures { OnOk result (Offered gathered.old (filter (λ n. passes_on (read_name n.name)) (map named_of fields.now)) gathered.new) }
{
    'fields: for named in fields {
        push_passed(gathered, alloc, *named)?;
    }
    Ok(())
}

// Offers the fields of a parent that `crossref` names under their new names, in order (see `push_renamed`).
fn push_all_renamed<'a, 's>(
    gathered: &mut Gathered<'a, 's>,
    alloc: Global,
    parent: &EntryType,
    child: &EntryType,
    fields: &[Named<'a, 's>],
) -> Result<(), AllocError>
    ensures { OnOk result (Offered gathered.old
        (flat_map (λ n. renamed n (name_by_crossref parent.now child.now (read_name n.name))) (map named_of fields.now)) gathered.new) }
{
    'fields: for named in fields {
        push_renamed(gathered, alloc, parent, child, *named)?;
    }
    Ok(())
}

// Offers the fields of a parent that `crossref` names under their own names, in order (see `push_kept`).
fn push_all_kept<'a, 's>(
    gathered: &mut Gathered<'a, 's>,
    alloc: Global,
    parent: &EntryType,
    child: &EntryType,
    fields: &[Named<'a, 's>],
) -> Result<(), AllocError>
    ensures { OnOk result (Offered gathered.old
        (filter (λ n. keeps_name parent.now child.now (read_name n.name)) (map named_of fields.now)) gathered.new) }
{
    'fields: for named in fields {
        push_kept(gathered, alloc, parent, child, *named)?;
    }
    Ok(())
}

// Adds each field that a parent offers, unless its name, or a name that excludes it, is taken.
fn push_offers<'a, 's>(
    gathered: &mut Gathered<'a, 's>,
    alloc: Global,
    link: Link,
    parent: &EntryType,
    child: &EntryType,
    fields: &[Named<'a, 's>],
) -> Result<(), AllocError>
    ensures { OnOk result (Offered gathered.old (offers link parent.now child.now (map named_of fields.now)) gathered.new) }
{
    match link {
        Link::Xdata => push_all_passed(gathered, alloc, fields),
        Link::Crossref => {
            push_all_renamed(gathered, alloc, parent, child, fields)?;
            push_all_kept(gathered, alloc, parent, child, fields)
        }
    }
}

// Returns the names of fields, as Biber reads them.
fn own_names(alloc: Global, fields: &[Pair<'_>]) -> Result<BTreeSet<String>, AllocError>
    ensures { IfOk result (λ names. (name : List ℕ) → contains_text names name ≡
        is_listed (map (λ f. read_name f.name.text) (map field_of fields.now)) name) }
{
    let mut names = BTreeSet::new(alloc);
    'fields: for field in fields {
        names.insert(read_name(alloc, field.key.v)?)?;
    }
    Ok(names)
}

// Returns the field that takes the place of an own field, or else the own field itself.
fn own_field<'a, 's>(
    alloc: Global,
    given: &BTreeMap<String, Named<'a, 's>>,
    field: &'a Pair<'s>,
) -> Result<Named<'a, 's>, AllocError>
    ensures { IfOk result (λ own. named_of own ≡ unwrap_or (instead_at given.now (field_of field.now)) (as_itself (field_of field.now))) }
{
    let name = field.key.v;
    Ok(substitute(given, alloc, field)?.unwrap_or(Named { name, field }))
}

// Returns own fields, or those that take their places.
fn own_fields<'a, 's>(
    alloc: Global,
    given: &BTreeMap<String, Named<'a, 's>>,
    fields: &'a [Pair<'s>],
) -> Result<Vec<Named<'a, 's>>, AllocError>
    ensures { IfOk result (λ own. map named_of own.items ≡
        map (λ f. unwrap_or (instead_at given.now f) (as_itself f)) (map field_of fields.now)) }
{
    let mut own = Vec::with_capacity(alloc, fields.len())?;
    'fields: for field in fields {
        own.push(own_field(alloc, given, field)?)?;
    }
    Ok(own)
}

// Adds each field that `parent` offers, unless its name, or a name that excludes it, is taken. `found` contains the fields of
// each entry, and `types` the types.
fn push_parent<'a, 's>(
    gathered: &mut Gathered<'a, 's>,
    alloc: Global,
    types: &[EntryType],
    child: &EntryType,
    parent: Parent,
    found: &[Vec<Named<'a, 's>>],
) -> Result<(), AllocError>
    requires as_many { length types.now ≡ length found.now }
    requires within { parent.index < length found.now }
    ensures { OnOk result (Offered gathered.old
        (offers parent.link (type_at types.now parent.index) child.now (fields_at found.now parent.index)) gathered.new) }
{
    push_offers(
        gathered,
        alloc,
        parent.link,
        &types[parent.index],
        child,
        &found[parent.index],
    )
}

// Adds each field that a parent of an entry offers, parent by parent, unless its name, or a name that excludes it, is taken.
fn push_parents<'a, 's>(
    gathered: &mut Gathered<'a, 's>,
    alloc: Global,
    types: &[EntryType],
    child: &EntryType,
    parents: &[Parent],
    found: &[Vec<Named<'a, 's>>],
) -> Result<(), AllocError>
    requires as_many { length types.now ≡ length found.now }
    requires within { All (λ p. p.index < length found.now) parents.now }
    ensures { OnOk result (Offered gathered.old (spec.offered_at types.now child.now (fields_at found.now) parents.now) gathered.new) }
{
    'parents: for parent in parents {
        push_parent(gathered, alloc, types, child, *parent, found)?;
    }
    Ok(())
}

// Returns the fields of the entry at `index`, or those that take their places, and those that it inherits from `parents`. `found`
// has the fields of each entry.
pub(crate) fn with_inherited<'a, 's>(
    alloc: Global,
    file: &File<'a, 's>,
    index: usize,
    parents: &[Parent],
    found: &[Vec<Named<'a, 's>>],
) -> Result<Vec<Named<'a, 's>>, AllocError>
    requires known { HasNames file.now }
    requires index { index < length file.now.entries.now }
    requires as_many { length found.now ≡ length file.now.entries.now }
    requires within { All (λ p. p.index < length found.now) parents.now }
    ensures { IfOk result (λ fields. map named_of fields.items ≡
        spec.with_inherited (readings file.now) (fields_at found.now) parents.now index) }
{
    let fields = &file.entries[index].v.fields;
    let given = given(alloc, parents, found)?;
    let mut gathered = Gathered {
        names: own_names(alloc, fields)?,
        fields: own_fields(alloc, &given, fields)?,
    };
    push_parents(
        &mut gathered,
        alloc,
        &file.types,
        &file.types[index],
        parents,
        found,
    )?;
    Ok(gathered.fields)
}
