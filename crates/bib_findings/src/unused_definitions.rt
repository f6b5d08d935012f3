//! Findings of abbreviations that `@string` defines and that nothing uses.

ghost use Rattle.std.specs.Prelude.{◌≡◌, ◌++◌, ◌∷◌, [], List, if◌then◌else◌, map, not, IfOk, OnOk};
ghost use Rattle.std.specs.BTreeSet.{contains_text};
ghost use Rattle.std.specs.List.{flat_map, list_any};
ghost use Rattle.std.specs.Str.{str_eq_ignore_ascii_case};
ghost use Rattle.std.specs.String.{string_bytes};
ghost use Rattle.bib_tables.specs.Requirements.{Names};
ghost use Rattle.bib_syntax.specs.Reading.{FieldReading};
ghost use Rattle.bib_syntax.specs.Views.{entry_reading_of, field_of, file_of, piece_of};
ghost use Rattle.bib_findings.specs.After.{each_after};
ghost use Rattle.bib_findings.specs.UnusedDefinitions as spec;
ghost use Rattle.bib_findings.specs.UnusedDefinitions.{abbreviation_in, abbreviations_in, other_abbreviation_in, unused_after, unused_definition_findings, used_by_definition, used_by_entry, used_abbreviations};
ghost use Rattle.bib_findings.specs.UsedNames.{HasLowercaseNames, names_of_definitions, borrowed_texts};

use crate::codes::Code;
use crate::finding::Finding;
use bib_syntax::raw::{Pair, RawBibliography, RawChunk, RawEntry, RawRecovery};
use bib_text::spanned::Spanned;
use bib_text::text::Text;
use std::alloc::{AllocError, Global};
use std::collections::BTreeSet;

// Appends a name.
fn push_name<'s>(names: &mut Vec<&'s str>, name: &'s str) -> Result<(), AllocError>
    ensures { OnOk result (borrowed_texts names.new.items ≡ borrowed_texts names.old.items ++ name.now ∷ []) }
{
    names.push(name)?;
    Ok(())
}

// Appends the name of a piece that is an abbreviation.
fn push_abbreviation<'s>(
    names: &mut Vec<&'s str>,
    piece: &Spanned<RawChunk<'s>>,
) -> Result<(), AllocError>
    ensures { OnOk result (borrowed_texts names.new.items ≡ borrowed_texts names.old.items ++ abbreviation_in (piece_of piece.now)) }
{
    match piece.v {
        RawChunk::Normal(_) => Ok(()),
        RawChunk::Abbreviation(name) => push_name(names, name),
    }
}

// Appends the names of the abbreviations in the value of a field.
fn push_abbreviations<'s>(names: &mut Vec<&'s str>, field: &Pair<'s>) -> Result<(), AllocError>
    ensures { OnOk result (borrowed_texts names.new.items ≡ borrowed_texts names.old.items ++ abbreviations_in (field_of field.now)) }
{
    'pieces: for piece in &field.value.v {
        push_abbreviation(names, piece)?;
    }
    Ok(())
}

// Appends the names of the abbreviations in the fields of an entry.
fn push_of_entry<'s>(
    names: &mut Vec<&'s str>,
    said: &Spanned<RawEntry<'s>>,
) -> Result<(), AllocError>
    ensures { OnOk result (borrowed_texts names.new.items ≡ borrowed_texts names.old.items ++ used_by_entry (entry_reading_of said.now)) }
{
    'fields: for field in &said.v.fields {
        push_abbreviations(names, field)?;
    }
    Ok(())
}

// Appends the names of the abbreviations in the fields of entries.
fn push_of_entries<'s>(
    names: &mut Vec<&'s str>,
    said: &[Spanned<RawEntry<'s>>],
) -> Result<(), AllocError>
    ensures { OnOk result (borrowed_texts names.new.items ≡ borrowed_texts names.old.items
        ++ flat_map used_by_entry (map entry_reading_of said.now)) }
{
    'said: for one in said {
        push_of_entry(names, one)?;
    }
    Ok(())
}

// Appends a name, unless it is `own` in any ASCII case.
fn push_unless_own<'s>(names: &mut Vec<&'s str>, own: &str, name: &'s str) -> Result<(), AllocError>
    ensures { OnOk result (borrowed_texts names.new.items ≡ borrowed_texts names.old.items
        ++ (if str_eq_ignore_ascii_case name.now own.now then [] else name.now ∷ [])) }
{
    if name.eq_ignore_ascii_case(own) {
        return Ok(());
    }
    push_name(names, name)
}

// Appends the name of a piece that is an abbreviation, if it isn't the abbreviation `own`.
fn push_other<'s>(
    names: &mut Vec<&'s str>,
    own: &str,
    piece: &Spanned<RawChunk<'s>>,
) -> Result<(), AllocError>
    ensures { OnOk result (borrowed_texts names.new.items ≡ borrowed_texts names.old.items
        ++ other_abbreviation_in own.now (piece_of piece.now)) }
{
    match piece.v {
        RawChunk::Normal(_) => Ok(()),
        RawChunk::Abbreviation(name) => push_unless_own(names, own, name),
    }
}

// Appends the names of the other abbreviations in the value of a definition.
fn push_of_definition<'s>(names: &mut Vec<&'s str>, definition: &Pair<'s>) -> Result<(), AllocError>
    ensures { OnOk result (borrowed_texts names.new.items ≡ borrowed_texts names.old.items ++ used_by_definition (field_of definition.now)) }
{
    'pieces: for piece in &definition.value.v {
        push_other(names, definition.key.v, piece)?;
    }
    Ok(())
}

// Appends the names of the other abbreviations in the values of definitions.
fn push_of_definitions<'s>(
    names: &mut Vec<&'s str>,
    definitions: &[Pair<'s>],
) -> Result<(), AllocError>
    ensures { OnOk result (borrowed_texts names.new.items ≡ borrowed_texts names.old.items
        ++ flat_map used_by_definition (map field_of definitions.now)) }
{
    'definitions: for definition in definitions {
        push_of_definition(names, definition)?;
    }
    Ok(())
}

// Returns the names of the abbreviations that the entries of a file use, or its definitions of other abbreviations.
fn used_names<'s>(alloc: Global, raw: &RawBibliography<'s>) -> Result<Vec<&'s str>, AllocError>
    ensures { IfOk result (λ names. borrowed_texts names.items ≡ used_abbreviations (file_of raw.now)) }
{
    let mut names = Vec::new(alloc);
    push_of_entries(&mut names, &raw.entries)?;
    push_of_definitions(&mut names, &raw.abbreviations)?;
    Ok(names)
}

// Inserts a name in ASCII lowercase. Returns whether it is new.
fn insert_name(alloc: Global, set: &mut BTreeSet<String>, name: &str) -> Result<bool, AllocError>
    ensures set { OnOk result ((names : Names) → HasLowercaseNames (contains_text set.old) names
        → HasLowercaseNames (contains_text set.new) (names ++ name.now ∷ [])) }
    ensures new { IfOk result (λ is_new. (names : Names) → HasLowercaseNames (contains_text set.old) names
        → is_new ≡ not (list_any (str_eq_ignore_ascii_case name.now) names)) }
{
    let lower = name.to_ascii_lowercase(alloc)?;
    Ok(set.insert(lower)?)
}

// Returns the set of these names in ASCII lowercase.
fn name_set(alloc: Global, names: &[&str]) -> Result<BTreeSet<String>, AllocError>
    ensures { IfOk result (λ set. HasLowercaseNames (contains_text set) (borrowed_texts names.now)) }
{
    let mut set = BTreeSet::new(alloc);
    'names: for name in names {
        insert_name(alloc, &mut set, name)?;
    }
    Ok(set)
}

// Returns the message about an abbreviation with this name.
fn unused_message(alloc: Global, name: &str) -> Result<String, AllocError>
    ensures { IfOk result (λ text. string_bytes text ≡ spec.unused_message name.now) }
{
    format!(in alloc; "no field uses the abbreviation `{name}`")
}

// Returns the finding of a definition of an abbreviation that nothing uses.
fn unused_finding(alloc: Global, definition: &Pair<'_>) -> Result<Finding, AllocError>
    ensures { IfOk result (λ finding. finding ≡ spec.unused_definition_finding (field_of definition.now)) }
{
    let name = &definition.key;
    let message = unused_message(alloc, name.v)?;
    Ok(Finding {
        code: Code::UnusedDefinition,
        span: name.span.start..name.span.end,
        message: Text::from_string(message),
    })
}

// Appends the finding of a definition if its name is new.
fn add_if_new(
    alloc: Global,
    found: &mut Vec<Finding>,
    is_new: bool,
    definition: &Pair<'_>,
) -> Result<(), AllocError>
    ensures { OnOk result (found.new.items ≡ found.old.items
        ++ (if is_new then spec.unused_definition_finding (field_of definition.now) ∷ [] else [])) }
{
    if is_new {
        found.push(unused_finding(alloc, definition)?)?;
    }
    Ok(())
}

// Appends the finding of a definition if `set` doesn't have its name, and inserts the name. `set` has the used names and those of the
// earlier definitions, in ASCII lowercase.
fn add_if_unused(
    alloc: Global,
    found: &mut Vec<Finding>,
    set: &mut BTreeSet<String>,
    definition: &Pair<'_>,
) -> Result<(), AllocError>
    ensures set { OnOk result ((used : Names) (earlier : List FieldReading)
        → HasLowercaseNames (contains_text set.old) (used ++ names_of_definitions earlier)
        → HasLowercaseNames (contains_text set.new) (used ++ names_of_definitions (earlier ++ field_of definition.now ∷ []))) }
    ensures added { OnOk result ((used : Names) (earlier : List FieldReading)
        → HasLowercaseNames (contains_text set.old) (used ++ names_of_definitions earlier)
        → found.new.items ≡ found.old.items ++ unused_after used earlier (field_of definition.now)) }
{
    let is_new = insert_name(alloc, set, definition.key.v)?;
    add_if_new(alloc, found, is_new, definition)
}

// Appends a finding for the first definition of each abbreviation whose name isn't in `set`, the set of the used names in ASCII lowercase.
fn add_unused_among(
    alloc: Global,
    found: &mut Vec<Finding>,
    set: BTreeSet<String>,
    definitions: &[Pair<'_>],
) -> Result<(), AllocError>
    ensures { OnOk result ((used : Names) → HasLowercaseNames (contains_text set) used
        → found.new.items ≡ found.old.items ++ each_after (unused_after used) [] (map field_of definitions.now)) }
{
    let mut set = set;
    'definitions: for definition in definitions {
        add_if_unused(alloc, found, &mut set, definition)?;
    }
    Ok(())
}

/// Appends a finding for the first definition of each abbreviation that no field of an entry and no definition of another abbreviation
/// uses. Appends nothing if the text has no entry, or has a skipped block.
pub(crate) fn add_unused(
    alloc: Global,
    found: &mut Vec<Finding>,
    recovery: &RawRecovery<'_>,
) -> Result<(), AllocError>
    ensures { OnOk result (found.new.items ≡ found.old.items
        ++ unused_definition_findings (file_of recovery.now.raw) recovery.now.skipped.items) }
{
    let raw = &recovery.raw;
    if raw.entries.is_empty() || !recovery.skipped.is_empty() {
        return Ok(());
    }
    let names = used_names(alloc, raw)?;
    let set = name_set(alloc, &names)?;
    add_unused_among(alloc, found, set, &raw.abbreviations)
}
