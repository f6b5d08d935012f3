//! The names that units use, and the names that they define.

ghost use Rattle.std.specs.Prelude.{◌≡◌, ◌++◌, [], ◌∷◌, IfOk, OnOk, map};
ghost use Rattle.std.specs.List.{flat_map};
ghost use Rattle.std.specs.Str.{str_to_ascii_lowercase};
ghost use Rattle.std.specs.String.{string_bytes};
ghost use Rattle.bib_queries.specs.Names as queries;
ghost use Rattle.bib_queries.specs.Texts.{text_list};
ghost use Rattle.bib_syntax.specs.Views.{entry_reading_of, field_of, file_of};
ghost use Rattle.edit_merge.specs.UnitNames as spec;
ghost use Rattle.edit_units.specs.Views.{unit_reading_of};

use bib_queries::names::{entry_names, push_references, push_used_in_fields};
use bib_syntax::raw::{Pair, RawBibliography, RawEntry};
use bib_text::spanned::Spanned;
use edit_units::units::Unit;
use std::alloc::{AllocError, Global};

// Returns the abbreviations that the values of a file use.
fn abbreviations_of<'s>(
    alloc: Global,
    raw: &RawBibliography<'s>,
) -> Result<Vec<&'s str>, AllocError>
    ensures { IfOk result (λ names. text_list names ≡ spec.abbreviations_of (file_of raw.now)) }
{
    let mut names = Vec::new(alloc);
    'entries: for entry in &raw.entries {
        push_used_in_fields(&mut names, &entry.v.fields)?;
    }
    push_used_in_fields(&mut names, &raw.abbreviations)?;
    Ok(names)
}

// Returns the names in the reference fields of entries.
fn referenced_names<'s>(
    alloc: Global,
    entries: &[Spanned<RawEntry<'s>>],
) -> Result<Vec<&'s str>, AllocError>
    ensures { IfOk result (λ names. text_list names ≡ flat_map (λ e. queries.references_of e.fields) (map entry_reading_of entries.now)) }
{
    let mut names = Vec::new(alloc);
    'entries: for entry in entries {
        push_references(&mut names, &entry.v.fields)?;
    }
    Ok(names)
}

// Appends a name after the word for its sort.
fn push_name(
    names: &mut Vec<String>,
    alloc: Global,
    sort: &str,
    name: &str,
) -> Result<(), AllocError>
    ensures { OnOk result (map string_bytes names.new.items ≡ map string_bytes names.old.items ++ (sort.now ++ name.now) ∷ []) }
{
    let mut text = String::from_str(alloc, sort)?;
    text.push_str(name)?;
    names.push(text)?;
    Ok(())
}

// Appends the names of these entries.
fn push_keys(names: &mut Vec<String>, alloc: Global, keys: &[&str]) -> Result<(), AllocError>
    ensures { OnOk result (map string_bytes names.new.items ≡
        map string_bytes names.old.items ++ map spec.key_name (map (λ k. k.now) keys.now)) }
{
    'keys: for key in keys {
        push_name(names, alloc, "entry ", key)?;
    }
    Ok(())
}

// Appends the name of an abbreviation, in lowercase.
fn push_abbreviation(names: &mut Vec<String>, alloc: Global, name: &str) -> Result<(), AllocError>
    ensures { OnOk result (map string_bytes names.new.items ≡ map string_bytes names.old.items ++ spec.abbreviation_name name.now ∷ []) }
{
    let lowercase = name.to_ascii_lowercase(alloc)?;
    push_name(names, alloc, "string ", lowercase.as_str())
}

// Appends the names of these abbreviations, in lowercase.
fn push_abbreviations(
    names: &mut Vec<String>,
    alloc: Global,
    abbreviations: &[&str],
) -> Result<(), AllocError>
    ensures { OnOk result (map string_bytes names.new.items ≡
        map string_bytes names.old.items ++ map spec.abbreviation_name (map (λ a. a.now) abbreviations.now)) }
{
    'abbreviations: for abbreviation in abbreviations {
        push_abbreviation(names, alloc, abbreviation)?;
    }
    Ok(())
}

// Appends the names of definitions, in lowercase.
fn push_definitions(
    names: &mut Vec<String>,
    alloc: Global,
    definitions: &[Pair<'_>],
) -> Result<(), AllocError>
    ensures { OnOk result (map string_bytes names.new.items ≡
        map string_bytes names.old.items ++ map (λ f. spec.abbreviation_name f.name.text) (map field_of definitions.now)) }
{
    'definitions: for definition in definitions {
        push_abbreviation(names, alloc, definition.key.v)?;
    }
    Ok(())
}

// Appends the names of entries.
fn push_entries(
    names: &mut Vec<String>,
    alloc: Global,
    entries: &[Spanned<RawEntry<'_>>],
) -> Result<(), AllocError>
    ensures { OnOk result (map string_bytes names.new.items ≡
        map string_bytes names.old.items ++ flat_map spec.names_of_entry (map entry_reading_of entries.now)) }
{
    'entries: for entry in entries {
        let keys = entry_names(alloc, entry)?;
        push_keys(names, alloc, &keys)?;
    }
    Ok(())
}

// Returns the names that a unit uses. Returns an error only if out of memory.
pub(crate) fn names_used(alloc: Global, unit: &Unit<'_>) -> Result<Vec<String>, AllocError>
    ensures { IfOk result (λ names. map string_bytes names.items ≡ spec.names_used (unit_reading_of unit.now)) }
{
    let abbreviations = abbreviations_of(alloc, &unit.raw)?;
    let keys = referenced_names(alloc, &unit.raw.entries)?;
    let mut names = Vec::new(alloc);
    push_abbreviations(&mut names, alloc, &abbreviations)?;
    push_keys(&mut names, alloc, &keys)?;
    Ok(names)
}

// Returns the names that a unit defines. Returns an error only if out of memory.
pub(crate) fn defined_names(alloc: Global, unit: &Unit<'_>) -> Result<Vec<String>, AllocError>
    ensures { IfOk result (λ names. map string_bytes names.items ≡ spec.defined_names (unit_reading_of unit.now)) }
{
    let mut names = Vec::new(alloc);
    push_definitions(&mut names, alloc, &unit.raw.abbreviations)?;
    push_entries(&mut names, alloc, &unit.raw.entries)?;
    Ok(names)
}
