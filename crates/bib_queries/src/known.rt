//! Compares keys with the names of a file's entries.

ghost use Rattle.std.specs.Prelude.{◌≡◌, ◌++◌, ℕ, List, map, IfOk, OnOk};
ghost use Rattle.bib_syntax.specs.Views.{entry_reading_of, part_of};
ghost use Rattle.bib_queries.specs.Known as spec;
ghost use Rattle.bib_queries.specs.Known.{IsKnownIn, IsUncited, has_name_among, uncited_key, uncited_keys};
ghost use Rattle.bib_queries.specs.Needed.{is_listed};
ghost use Rattle.bib_queries.specs.Sets.{is_in_set};
ghost use Rattle.bib_queries.specs.Texts.{text_list};

use crate::names::entry_names;
use crate::sets::name_set;
use bib_syntax::raw::{RawBibliography, RawEntry};
use bib_text::spanned::Spanned;
use std::alloc::{AllocError, Global};
use std::collections::BTreeSet;

// Returns the names of all entries.
fn all_names<'s>(
    alloc: Global,
    entries: &[Spanned<RawEntry<'s>>],
) -> Result<Vec<&'s str>, AllocError>
    ensures { IfOk result (λ names. text_list names ≡ spec.all_names (map entry_reading_of entries.now)) }
{
    let mut names = Vec::new(alloc);
    'entries: for entry in entries {
        names.extend_from_slice(&entry_names(alloc, entry)?)?;
    }
    Ok(names)
}

// Returns a mark for each of `keys`, in their order: whether it is one of `names`.
fn marks_among(alloc: Global, names: &[&str], keys: &[&str]) -> Result<Vec<bool>, AllocError>
    ensures { IfOk result (λ marks. marks.items ≡
        map (is_listed (map (λ n. n.now) names.now)) (map (λ k. k.now) keys.now)) }
{
    let set = name_set(alloc, names)?;
    let mut marks = Vec::with_capacity(alloc, keys.len())?;
    'keys: for key in keys {
        marks.push(set.contains(*key))?;
    }
    Ok(marks)
}

/// Returns a mark for each of `keys`, in their order: whether it is a name of an entry in `text`. The names of an entry are
/// its key and the names in its fields `ids`. An entry with a syntax error has the names in its complete parts.
pub fn mark_known(alloc: Global, text: &str, keys: &[&str]) -> Result<Vec<bool>, AllocError>
    ensures { IfOk result (λ marks. IsKnownIn text.now (map (λ k. k.now) keys.now) marks.items) }
{
    let found = RawBibliography::recover_parts(alloc, text)?;
    let names = all_names(alloc, &found.raw.entries)?;
    let marks = marks_among(alloc, &names, keys)?;
    Ok(marks)
}

// Returns whether a set contains one of these names.
fn has_one(set: &BTreeSet<&str>, names: &[&str]) -> bool
    ensures { (keys : List (List ℕ)) → ((name : List ℕ) → is_in_set set.now name ≡ is_listed keys name) →
        result ≡ has_name_among keys (map (λ n. n.now) names.now) }
{
    'names: for name in names {
        if set.contains(*name) {
            return true;
        }
    }
    false
}

// Appends the key of an entry, unless the set contains one of the entry's names.
fn push_uncited<'s>(
    alloc: Global,
    found: &mut Vec<Spanned<&'s str>>,
    set: &BTreeSet<&str>,
    entry: &Spanned<RawEntry<'s>>,
) -> Result<(), AllocError>
    ensures { OnOk result ((keys : List (List ℕ)) → ((name : List ℕ) → is_in_set set.now name ≡ is_listed keys name) →
        map part_of found.new.items ≡ map part_of found.old.items ++ uncited_key keys (entry_reading_of entry.now)) }
{
    let names = entry_names(alloc, entry)?;
    if has_one(set, &names) {
        return Ok(());
    }
    found.push(Spanned::new(entry.v.key.v, entry.v.key.span.start..entry.v.key.span.end))?;
    Ok(())
}

// Returns the keys of the entries that have no name in the set.
fn uncited_among<'s>(
    alloc: Global,
    set: &BTreeSet<&str>,
    entries: &[Spanned<RawEntry<'s>>],
) -> Result<Vec<Spanned<&'s str>>, AllocError>
    ensures { IfOk result (λ found. (keys : List (List ℕ)) → ((name : List ℕ) → is_in_set set.now name ≡ is_listed keys name) →
        map part_of found.items ≡ uncited_keys keys (map entry_reading_of entries.now)) }
{
    let mut found = Vec::new(alloc);
    'entries: for entry in entries {
        push_uncited(alloc, &mut found, set, entry)?;
    }
    Ok(found)
}

/// Returns the keys, with their spans, of the entries in `entries` that have no name among `keys`. Fails only if out of memory.
pub fn uncited_in<'s>(
    alloc: Global,
    entries: &[Spanned<RawEntry<'s>>],
    keys: &[&str],
) -> Result<Vec<Spanned<&'s str>>, AllocError>
    ensures { IfOk result (λ found. map part_of found.items ≡
        uncited_keys (map (λ k. k.now) keys.now) (map entry_reading_of entries.now)) }
{
    let set = name_set(alloc, keys)?;
    let found = uncited_among(alloc, &set, entries)?;
    Ok(found)
}

/// Returns the keys, with their spans, of the entries in `text` that have no name among `keys`. An entry with a syntax
/// error has the key and the names in its complete parts. It is skipped if recovery keeps no part of it.
pub fn find_uncited<'s>(
    alloc: Global,
    text: &'s str,
    keys: &[&str],
) -> Result<Vec<Spanned<&'s str>>, AllocError>
    ensures { IfOk result (λ found. IsUncited text.now (map (λ k. k.now) keys.now) (map part_of found.items)) }
{
    let raw = RawBibliography::recover_parts(alloc, text)?.raw;
    let found = uncited_in(alloc, &raw.entries, keys)?;
    Ok(found)
}
