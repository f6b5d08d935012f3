//! The graph of references of a bibliography.

ghost use Rattle.std.specs.Prelude.{◌≡◌, ◌&&◌, IfOk, map};
ghost use Rattle.bib_entry.specs.Parents.{has_references};
ghost use Rattle.bib_collections.specs.Rows.{rows};
ghost use Rattle.bib_inheritance.specs.InheritableDate.{looks_for_date};
ghost use Rattle.bib_inheritance.specs.Resolving.{graph_by, texts_of_entry};

use crate::inheritable_date::looks_for_date;
use crate::reference_names::references;
use bib_collections::names::Names;
use bib_entry::entry::Entry;
use bib_entry::parents::has_references;
use std::alloc::{AllocError, Global};

// Returns for each entry the indices of the entries that it refers to.
pub(crate) fn graph(
    alloc: Global,
    entries: &[Entry],
    names: &Names,
) -> Result<Vec<Vec<usize>>, AllocError>
    ensures { IfOk result (λ refs. rows refs.items ≡ graph_by names.now entries.now) }
{
    let mut refs = Vec::with_capacity(alloc, entries.len())?;
    'entries: for entry in entries {
        refs.push(references(alloc, &entry.fields, names)?)?;
    }
    Ok(refs)
}

// Returns for each entry whether it has a field through which it inherits.
pub(crate) fn reference_flags(alloc: Global, entries: &[Entry]) -> Result<Vec<bool>, AllocError>
    ensures { IfOk result (λ flags. flags.items ≡ map has_references entries.now) }
{
    let mut flags = Vec::with_capacity(alloc, entries.len())?;
    'entries: for entry in entries {
        flags.push(has_references(entry))?;
    }
    Ok(flags)
}

// Returns the graph as by `graph`, and for each entry whether it is flagged and lacks a required date. An entry that isn't
// flagged has no references and is skipped.
pub(crate) fn flagged_graph(
    alloc: Global,
    entries: &[Entry],
    names: &Names,
    flags: &[bool],
) -> Result<(Vec<Vec<usize>>, Vec<bool>), AllocError>
    requires { flags.now ≡ map has_references entries.now }
    ensures graph { IfOk result (λ found. rows found.0.items ≡ graph_by names.now entries.now) }
    ensures looks { IfOk result (λ found. found.1.items ≡
        map (λ e. has_references e && looks_for_date (texts_of_entry e)) entries.now) }
{
    let mut refs = Vec::with_capacity(alloc, entries.len())?;
    let mut looks = Vec::with_capacity(alloc, entries.len())?;
    'entries: for index in 0..entries.len() {
        if !flags[index] {
            refs.push(Vec::new(alloc))?;
            looks.push(false)?;
            continue 'entries;
        }
        let entry = &entries[index];
        let found = references(alloc, &entry.fields, names)?;
        refs.push(found)?;
        let is_looking = looks_for_date(&entry.entry_type, &entry.fields);
        looks.push(is_looking)?;
    }
    Ok((refs, looks))
}

// Returns for each entry whether it lacks a required date.
pub(crate) fn date_flags(alloc: Global, entries: &[Entry]) -> Result<Vec<bool>, AllocError>
    ensures { IfOk result (λ looks. looks.items ≡
        map (λ e. looks_for_date (texts_of_entry e)) entries.now) }
{
    let mut looks = Vec::with_capacity(alloc, entries.len())?;
    'entries: for entry in entries {
        looks.push(looks_for_date(&entry.entry_type, &entry.fields))?;
    }
    Ok(looks)
}
