//! The fields of parents that entries lack, since the rules of BibLaTeX don't let the entries inherit them.

ghost use Rattle.std.specs.Prelude.{◌≡◌, ◌++◌, ◌∷◌, ◌<◌, [], ℕ, List, length, map, IfErr, IfOk, OnOk};
ghost use Rattle.std.specs.BTreeSet.{contains_text};
ghost use Rattle.std.specs.List.{All, filter, flat_map, list_any};
ghost use Rattle.bib_collections.specs.Graph.{HasNoCycle};
ghost use Rattle.bib_queries.specs.Texts.{text_list};
ghost use Rattle.bib_syntax.specs.Views.{entry_reading_of, field_of};
ghost use Rattle.bib_tables.specs.Requirements.{is_one_of};
ghost use Rattle.edit_resolve.specs.Inheritance as inheritance;
ghost use Rattle.edit_resolve.specs.Parents.{entry_at, parent_graph};
ghost use Rattle.edit_resolve.specs.Resolved.{Named as NamedReading, ResolveIsRefused, is_read_as};
ghost use Rattle.edit_resolve.specs.Uninherited as spec;
ghost use Rattle.edit_resolve.specs.Uninherited.{lacking_names, linking_fields, reference_parents, uninherited_by, uninherited_in, uninherited_of};
ghost use Rattle.edit_resolve.specs.Views.{uninherited_list};
ghost use Rattle.edit_resolve.specs.Working.{AreAlong, HasNames, IsChild, fields_at, named_of, readings};

use crate::errors::ResolveError;
use crate::file::File;
use crate::gathering::{Named, fields_of};
use crate::inheritance::{keeps_name, name_by_crossref, passes_on};
use crate::names::read_name;
use crate::parents::{Link, Parent, all_parents, reference_parents};
use crate::turns::all_fields;
use bib_syntax::raw::{Pair, RawEntry};
use bib_tables::mechanics::EntryType;
use bib_text::spanned::Spanned;
use edit_entries::document::RawDocument;
use std::alloc::{AllocError, Global};
use std::collections::BTreeSet;

/// Fields of a parent that an entry lacks, since it doesn't inherit them.
#[derive(Drop)]
pub struct UninheritedFields<'a, 's> {
    /// The entry.
    pub entry: &'a Spanned<RawEntry<'s>>,
    /// The field of the entry that names the parent.
    pub reference: &'a Pair<'s>,
    /// The parent.
    pub parent: &'a Spanned<RawEntry<'s>>,
    /// The names of the fields in the parent, in order. It contains at least one name.
    pub names: Vec<&'s str>,
}

// An entry, and the names under which Biber reads its fields and those that it inherits.
#[derive(Drop)]
struct Child<'c, 'a, 's> {
    entry: &'a Spanned<RawEntry<'s>>,
    entry_type: &'c EntryType,
    names: BTreeSet<String>,
}

// Returns whether a field is one of those that link entries and aren't listed: `ids`, `crossref`, `xref` and `xdata`.
fn is_linking(name: &str) -> bool
    ensures { result ≡ is_one_of linking_fields name.now }
{
    matches!(name, "ids" | "crossref" | "xref" | "xdata")
}

// Returns whether a parent offers an entry of the type `child` a field with this name, under any name.
fn is_offered(link: Link, parent: &EntryType, child: &EntryType, name: &str) -> bool
    ensures { (n : NamedReading) → name.now ≡ inheritance.read_name n.name → result ≡ spec.is_offered link parent.now child.now n }
{
    match link {
        Link::Xdata => passes_on(name),
        Link::Crossref => {
            name_by_crossref(parent, child, name).is_some() || keeps_name(parent, child, name)
        }
    }
}

// Returns whether an entry of the type `child` lacks a field of a parent that Biber reads under `name`. `names` are those of the entry's
// fields.
fn is_lacking(
    link: Link,
    parent: &EntryType,
    child: &EntryType,
    names: &BTreeSet<String>,
    name: &str,
) -> bool
    ensures { (n : NamedReading) → name.now ≡ inheritance.read_name n.name →
        result ≡ spec.is_lacking link parent.now child.now (contains_text names.now) n }
{
    if is_linking(name) {
        return false;
    }
    if is_offered(link, parent, child, name) {
        return false;
    }
    !names.contains(name)
}

// Appends the name of a field of a parent, if an entry lacks the field.
fn push_lacking<'s>(
    names: &mut Vec<&'s str>,
    alloc: Global,
    link: Link,
    parent: &EntryType,
    child: &Child<'_, '_, '_>,
    field: Named<'_, 's>,
) -> Result<(), AllocError>
    ensures { OnOk result (text_list names.new ≡ text_list names.old ++ map (λ n. n.name)
        (filter (spec.is_lacking link parent.now child.now.entry_type.now (contains_text child.now.names)) (named_of field.entry ∷ []))) }
{
    let name = read_name(alloc, field.name)?;
    if !is_lacking(link, parent, child.entry_type, &child.names, &name) {
        return Ok(());
    }
    names.push(field.name)?;
    Ok(())
}

// Returns the names of the fields of a parent that an entry lacks.
fn lacking_names<'a, 's>(
    alloc: Global,
    link: Link,
    parent: &EntryType,
    child: &Child<'_, '_, '_>,
    fields: &[Named<'a, 's>],
) -> Result<Vec<&'s str>, AllocError>
    ensures { IfOk result (λ names. text_list names ≡ map (λ n. n.name)
        (filter (spec.is_lacking link parent.now child.now.entry_type.now (contains_text child.now.names)) (map named_of fields.now))) }
{
    let mut names = Vec::new(alloc);
    'fields: for field in fields {
        push_lacking(&mut names, alloc, link, parent, child, *field)?;
    }
    Ok(names)
}

// Appends one `UninheritedFields` with these names of fields of `parent`. Does nothing if there are no names.
fn push_fields<'a, 's>(
    found: &mut Vec<UninheritedFields<'a, 's>>,
    entry: &'a Spanned<RawEntry<'s>>,
    reference: &'a Pair<'s>,
    parent: &'a Spanned<RawEntry<'s>>,
    names: Vec<&'s str>,
) -> Result<(), AllocError>
    ensures { OnOk result (uninherited_list found.new.items ≡ uninherited_list found.old.items ++
        uninherited_of (entry_reading_of entry.now) (field_of reference.now) (entry_reading_of parent.now) (text_list names.entry)) }
{
    if names.is_empty() {
        return Ok(());
    }
    found.push(UninheritedFields {
        entry,
        reference,
        parent,
        names,
    })?;
    Ok(())
}

// Appends the fields that an entry lacks of a parent.
fn push_of_parent<'a, 's>(
    found: &mut Vec<UninheritedFields<'a, 's>>,
    alloc: Global,
    file: &File<'a, 's>,
    fields: &[Vec<Named<'a, 's>>],
    child: &Child<'_, 'a, 's>,
    reference: &'a Pair<'s>,
    parent: Parent,
) -> Result<(), AllocError>
    requires known { HasNames file.now }
    requires as_many { length fields.now ≡ length file.now.entries.now }
    requires child { IsChild child.now }
    requires within { parent.index < length fields.now }
    ensures { OnOk result (uninherited_list found.new.items ≡ uninherited_list found.old.items ++
        uninherited_of (entry_reading_of child.now.entry.now) (field_of reference.now) (entry_at (readings file.now) parent.index)
        (lacking_names (readings file.now) (fields_at fields.now) (contains_text child.now.names)
        (entry_reading_of child.now.entry.now) parent)) }
{
    let index = parent.index;
    let of_parent = fields_of(fields, index);
    let names = lacking_names(alloc, parent.link, &file.types[index], child, of_parent)?;
    push_fields(found, child.entry, reference, &file.entries[index], names)
}

// Appends the fields that an entry lacks of each of these parents, which a reference names.
fn push_of_parents<'a, 's>(
    found: &mut Vec<UninheritedFields<'a, 's>>,
    alloc: Global,
    file: &File<'a, 's>,
    fields: &[Vec<Named<'a, 's>>],
    child: &Child<'_, 'a, 's>,
    reference: &'a Pair<'s>,
    parents: &[Parent],
) -> Result<(), AllocError>
    requires known { HasNames file.now }
    requires as_many { length fields.now ≡ length file.now.entries.now }
    requires child { IsChild child.now }
    requires within { All (λ p. p.index < length fields.now) parents.now }
    ensures { OnOk result (uninherited_list found.new.items ≡ uninherited_list found.old.items ++
        flat_map (λ p. uninherited_of (entry_reading_of child.now.entry.now) (field_of reference.now)
        (entry_at (readings file.now) p.index) (lacking_names (readings file.now) (fields_at fields.now) (contains_text child.now.names)
        (entry_reading_of child.now.entry.now) p)) parents.now) }
{
    'parents: for parent in parents {
        push_of_parent(found, alloc, file, fields, child, reference, *parent)?;
    }
    Ok(())
}

// Appends the fields that an entry lacks of the parents that a reference names, if it is resolved.
fn push_by_reference<'a, 's>(
    found: &mut Vec<UninheritedFields<'a, 's>>,
    alloc: Global,
    file: &File<'a, 's>,
    fields: &[Vec<Named<'a, 's>>],
    child: &Child<'_, 'a, 's>,
    reference: &'a Pair<'s>,
) -> Result<(), AllocError>
    requires known { HasNames file.now }
    requires as_many { length fields.now ≡ length file.now.entries.now }
    requires child { IsChild child.now }
    ensures { OnOk result (uninherited_list found.new.items ≡ uninherited_list found.old.items ++
        uninherited_by (readings file.now) (fields_at fields.now) (contains_text child.now.names) (entry_reading_of child.now.entry.now)
        (field_of reference.now)) }
{
    let parents = reference_parents(alloc, file, reference)?;
    push_of_parents(found, alloc, file, fields, child, reference, &parents)
}

// Appends the fields that an entry lacks of the parents that its resolved references name.
fn push_by_entry<'a, 's>(
    found: &mut Vec<UninheritedFields<'a, 's>>,
    alloc: Global,
    file: &File<'a, 's>,
    fields: &[Vec<Named<'a, 's>>],
    child: &Child<'_, 'a, 's>,
) -> Result<(), AllocError>
    requires known { HasNames file.now }
    requires as_many { length fields.now ≡ length file.now.entries.now }
    requires child { IsChild child.now }
    ensures { OnOk result (uninherited_list found.new.items ≡ uninherited_list found.old.items ++
        uninherited_in (readings file.now) (fields_at fields.now) (contains_text child.now.names)
        (entry_reading_of child.now.entry.now)) }
{
    'fields: for field in &child.entry.v.fields {
        push_by_reference(found, alloc, file, fields, child, field)?;
    }
    Ok(())
}

// Returns the names under which Biber reads fields.
fn read_names(alloc: Global, fields: &[Named<'_, '_>]) -> Result<BTreeSet<String>, AllocError>
    ensures { IfOk result (λ names. (name : List ℕ) →
        contains_text names name ≡ list_any (is_read_as name) (map named_of fields.now)) }
{
    let mut names = BTreeSet::new(alloc);
    'fields: for field in fields {
        names.insert(read_name(alloc, field.name)?)?;
    }
    Ok(names)
}

// Returns the entry at an index, with the names of its fields.
fn child_at<'c, 'a, 's>(
    alloc: Global,
    file: &'c File<'a, 's>,
    index: usize,
    entry: &'a Spanned<RawEntry<'s>>,
    fields: &[Named<'a, 's>],
) -> Result<Child<'c, 'a, 's>, AllocError>
    requires known { HasNames file.now }
    requires within { index < length file.now.entries.now }
    requires entry { entry_reading_of entry.now ≡ entry_at (readings file.now) index }
    ensures entry { IfOk result (λ child. child.entry.now ≡ entry.now) }
    ensures child { IfOk result IsChild }
    ensures names { IfOk result (λ child. (name : List ℕ) →
        contains_text child.names name ≡ list_any (is_read_as name) (map named_of fields.now)) }
{
    Ok(Child {
        entry,
        entry_type: &file.types[index],
        names: read_names(alloc, fields)?,
    })
}

// Returns the fields of parents that the entries of a file lack. The entries have these fields, with the inherited ones.
fn file_fields<'a, 's>(
    alloc: Global,
    file: &File<'a, 's>,
    fields: &[Vec<Named<'a, 's>>],
) -> Result<Vec<UninheritedFields<'a, 's>>, AllocError>
    requires known { HasNames file.now }
    requires as_many { length fields.now ≡ length file.now.entries.now }
    requires along { AreAlong (readings file.now) (fields_at fields.now) }
    ensures { IfOk result (λ found. uninherited_list found.items ≡ spec.uninherited (readings file.now)) }
{
    let mut found = Vec::new(alloc);
    'entries: for (index, entry) in file.entries.iter().enumerate() {
        let child = child_at(alloc, file, index, entry, fields_of(fields, index))?;
        push_by_entry(&mut found, alloc, file, fields, &child)?;
    }
    Ok(found)
}

/// Returns the fields of parents that the entries of a document lack. By the rules of BibLaTeX, the parent doesn't offer the entry the
/// field under any name. The entry has no field with this name, neither of its own nor an inherited one. Examples are the `options` of a
/// parent, and by `crossref` its `label`. The parents are those that resolved references name: fields `crossref` and `xdata` with keys
/// each of which finds a parent. Fields that a parent inherits count as its fields. `ids`, `crossref`, `xref` and `xdata` aren't listed.
///
/// The result is in the order of the references, and of the keys in each. It contains no parent without such fields.
///
/// # Errors
///
/// Returns `Cycle` if an entry inherits from itself, and `OutOfMemory` if memory runs out.
pub fn uninherited_fields<'a, 's>(
    alloc: Global,
    document: &'a RawDocument<'s>,
) -> Result<Vec<UninheritedFields<'a, 's>>, ResolveError>
    ensures found { IfOk result (λ found. uninherited_list found.items ≡ spec.uninherited document.now.says.entries) }
    ensures no_cycle { OnOk result (HasNoCycle (parent_graph document.now.says.entries)) }
    ensures refused { IfErr result (ResolveIsRefused document.now) }
{
    let raw = document.raw();
    let file = File::of(alloc, &raw.entries)?;
    let parents = all_parents(alloc, &file)?;
    let fields = all_fields(alloc, &file, &parents)?;
    Ok(file_fields(alloc, &file, &fields)?)
}
