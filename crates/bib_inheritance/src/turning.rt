//! Adds inherited fields to the entries and removes `xdata`, one entry at a time.

ghost use Rattle.std.specs.Prelude.{◌≡◌, ◌<◌, ◌++◌, ◌∷◌, [], ℕ, List, None, IsNone, OnOk, IfOk, length, map, option_map, is_some, if◌then◌else◌, slice_set, slice_index_or};
ghost use Rattle.std.specs.FinMap as by_name;
ghost use Rattle.std.specs.List.{All, Contains};
ghost use Rattle.bib_chunks.specs.Styled.{styled};
ghost use Rattle.bib_entry.specs.declared.entry.Entry.{Entry as AnEntry};
ghost use Rattle.bib_entry.specs.Parents.{has_references};
ghost use Rattle.bib_collections.specs.Graph.{IsInRange, HasNoCycle, IsTopologicalOrder};
ghost use Rattle.bib_collections.specs.Rows.{rows};
ghost use Rattle.bib_inheritance.specs.InheritableDate.{date_for};
ghost use Rattle.bib_inheritance.specs.Inherited.{field_by, inherited_field, with_inherited_fields};
ghost use Rattle.bib_inheritance.specs.EntryTexts.{EntryTexts, first_named, texts_of_references};
ghost use Rattle.bib_tables.specs.declared.mechanics.EntryType.{EntryType};
ghost use Rattle.bib_inheritance.specs.Resolving.{HaveInherited, at_index, texts_of_entries};
ghost use Rattle.bib_inheritance.specs.Turning.{AddsAmong, IsCacheOf, IsEmptyCache, IsTurned};

use crate::dates::last_date;
use crate::gathering::gather_fields;
use crate::inheritable_date::{InheritableDate, looks_for_date};
use crate::inheriting::inherit;
use crate::offers::Reference;
use bib_chunks::chunk::Chunks;
use bib_collections::text_map::TextMap;
use bib_entry::entry::Entry;
use bib_text::text::Text;
use std::alloc::{AllocError, Global};
use std::collections::BTreeSet;
use std::mem;

// Removes repeated indices, and keeps the first of each. An entry inherits the same fields without the repetitions.
fn without_repetitions(alloc: Global, indices: &[usize]) -> Result<Vec<usize>, AllocError>
    ensures among { IfOk result (λ first. All (Contains indices.now) first.items) }
    ensures same { IfOk result (λ first. (at : ℕ → EntryTexts) (entry_type : EntryType) (name : List ℕ) →
        inherited_field entry_type name (map at first.items) ≡ inherited_field entry_type name (map at indices.now)) }
{
    if indices.len() < 2 {
        let all = indices.to_vec(alloc)?;
        return Ok(all);
    }
    let mut seen = BTreeSet::new(alloc);
    let mut first = Vec::new(alloc);
    'indices: for index in indices {
        if seen.insert(*index)? {
            first.push(*index)?;
        }
    }
    Ok(first)
}

// Returns the entries at these indices.
fn references_of<'a>(
    alloc: Global,
    indices: &[usize],
    entries: &'a [Entry],
) -> Result<Vec<Reference<'a>>, AllocError>
    requires { All (λ r. r < length entries.now) indices.now }
    ensures { IfOk result (λ references. texts_of_references references.items ≡
        map (at_index (texts_of_entries entries.now)) indices.now) }
{
    let mut references = Vec::with_capacity(alloc, indices.len())?;
    'indices: for r in indices {
        let entry = &entries[*r];
        references.push(Reference {
            entry_type: &entry.entry_type,
            fields: &entry.fields,
        })?;
    }
    Ok(references)
}

// Returns the fields that the entry at `index` lacks and inherits.
fn fields_at(
    alloc: Global,
    indices: &[usize],
    entries: &[Entry],
    index: usize,
) -> Result<Vec<(Text, Chunks)>, AllocError>
    requires references { All (λ r. r < length entries.now) indices.now }
    requires index { index < length entries.now }
    ensures { IfOk result (λ fields. (name : List ℕ) → option_map styled (first_named fields.items name) ≡
        (if is_some ((at_index (texts_of_entries entries.now) index).fields name) then None
        else inherited_field (at_index (texts_of_entries entries.now) index).entry_type name
        (map (at_index (texts_of_entries entries.now)) indices.now))) }
{
    let first = without_repetitions(alloc, indices)?;
    let references = references_of(alloc, &first, entries)?;
    let entry = &entries[index];
    let fields = gather_fields(alloc, &entry.entry_type, &entry.fields, &references)?;
    Ok(fields)
}

// Returns the date that the entry at `index` inherits. It is that of the last reference whose date can be inherited, if the
// entry lacks a required date.
fn date_at(
    alloc: Global,
    indices: &[usize],
    entries: &[Entry],
    dates: &mut [Option<InheritableDate>],
    index: usize,
) -> Result<Option<Chunks>, AllocError>
    requires references { All (λ r. r < length entries.now) indices.now }
    requires index { index < length entries.now }
    requires dates { IsCacheOf entries.now dates.old }
    ensures date { IfOk result (λ date. option_map styled date ≡
        date_for (at_index (texts_of_entries entries.now) index)
        (map (at_index (texts_of_entries entries.now)) indices.now)) }
    ensures dates { IsCacheOf entries.now dates.new }
    ensures added { AddsAmong indices.now dates.old dates.new }
{
    let entry = &entries[index];
    if !looks_for_date(&entry.entry_type, &entry.fields) {
        return Ok(None);
    }
    last_date(alloc, indices, entries, dates)
}

// Adds the fields in `given` that an entry lacks, and the inherited date if there is one, and removes `xdata`. If memory
// runs out, the entry loses its fields.
fn set_gain(
    alloc: Global,
    entry: &mut Entry,
    given: Vec<(Text, Chunks)>,
    date: Option<Chunks>,
) -> Result<(), AllocError>
    ensures key { OnOk result (entry.new.key ≡ entry.old.key) }
    ensures entry_type { OnOk result (entry.new.entry_type ≡ entry.old.entry_type) }
    ensures fields { OnOk result ((name : List ℕ) → by_name.get entry.new.fields name ≡
        field_by date (by_name.get entry.old.fields) (first_named given.items) name) }
{
    let own = mem::replace(&mut entry.fields, TextMap::new(alloc));
    let fields = inherit(alloc, own, given, date)?;
    entry.fields = fields;
    Ok(())
}

// Resolves the entry at `index`, and appends the index to `turns`. This is the only place where the rule of inheritance is
// applied.
fn take_turn(
    alloc: Global,
    indices: &[usize],
    entries: &mut [Entry],
    dates: &mut [Option<InheritableDate>],
    turns: &mut Vec<usize>,
    index: usize,
) -> Result<(), AllocError>
    requires references { All (λ r. r < length entries.old) indices.now }
    requires index { index < length entries.old }
    requires dates { IsCacheOf entries.old dates.old }
    ensures length { length entries.new ≡ length entries.old }
    ensures turns { OnOk result (turns.new.items ≡ turns.old.items ++ index ∷ []) }
    ensures turned { OnOk result ((entry : AnEntry) × (entries.new ≡ slice_set entries.old index entry) ×
        IsTurned (slice_index_or entries.old index entry)
        (map (at_index (texts_of_entries entries.old)) indices.now) entry) }
    ensures dates { IsCacheOf entries.old dates.new }
    ensures added { AddsAmong indices.now dates.old dates.new }
{
    turns.push(index)?;
    let entry = &entries[index];
    if indices.is_empty() && entry.fields.get("xdata").is_none() {
        return Ok(());
    }
    let given = fields_at(alloc, indices, entries, index)?;
    let date = date_at(alloc, indices, entries, dates, index)?;
    set_gain(alloc, &mut entries[index], given, date)?;
    Ok(())
}

// Resolves the entries in this order, and returns the order. Caches the dates that it computes. An entry that isn't flagged
// and has no references is left unchanged and not examined.
pub(crate) fn take_turns(
    alloc: Global,
    order: &[usize],
    refs: &[Vec<usize>],
    flags: &[bool],
    entries: &mut [Entry],
    dates: &mut [Option<InheritableDate>],
) -> Result<Vec<usize>, AllocError>
    requires flags { flags.now ≡ map has_references entries.old }
    requires order { IsTopologicalOrder (rows refs.now) order.now }
    requires in_range { IsInRange (rows refs.now) }
    requires as_long { length entries.old ≡ length refs.now }
    requires dates { IsEmptyCache (length entries.old) dates.old }
    ensures turns { IfOk result (λ turns. turns.items ≡ order.now) }
    ensures length { length entries.new ≡ length entries.old }
    ensures inherited { OnOk result (HaveInherited entries.old (rows refs.now) entries.new) }
    ensures dates { OnOk result (IsCacheOf entries.new dates.new) }
{
    let mut turns = Vec::with_capacity(alloc, order.len())?;
    'order: for index in order {
        if !flags[*index] && refs[*index].is_empty() {
            turns.push(*index)?;
            continue 'order;
        }
        take_turn(alloc, &refs[*index], entries, dates, &mut turns, *index)?;
    }
    Ok(turns)
}
