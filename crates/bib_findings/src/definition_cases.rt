//! Notes on unknown abbreviations whose names are defined in another ASCII case.

ghost use Rattle.std.specs.Prelude.{◌≡◌, ◌++◌, ◌∷◌, [], List, map, IfOk, OnOk};
ghost use Rattle.std.specs.BTreeMap.{get_by_text};
ghost use Rattle.std.specs.String.{string_bytes};
ghost use Rattle.bib_syntax.specs.Reading.{FieldReading};
ghost use Rattle.bib_syntax.specs.Views.{field_of};
ghost use Rattle.bib_findings.specs.DefinitionCases as spec;
ghost use Rattle.bib_findings.specs.LastDefinitions.{AreLastDefinitions};

use bib_syntax::raw::{Pair, ParseError, ParseErrorKind};
use std::alloc::{AllocError, Global};
use std::collections::BTreeMap;

// Stores a definition as the last one of its name in ASCII lowercase.
fn store_last<'f, 's>(
    alloc: Global,
    lasts: &mut BTreeMap<String, &'f Pair<'s>>,
    definition: &'f Pair<'s>,
) -> Result<(), AllocError>
    ensures { OnOk result ((earlier : List FieldReading) → AreLastDefinitions (get_by_text lasts.old) earlier
        → AreLastDefinitions (get_by_text lasts.new) (earlier ++ field_of definition.now ∷ [])) }
{
    let name = definition.key.v.to_ascii_lowercase(alloc)?;
    lasts.insert(name, definition)?;
    Ok(())
}

// Returns the last of these definitions for each name in ASCII lowercase.
pub(crate) fn last_definitions<'f, 's>(
    alloc: Global,
    definitions: &'f [Pair<'s>],
) -> Result<BTreeMap<String, &'f Pair<'s>>, AllocError>
    ensures { IfOk result (λ lasts. AreLastDefinitions (get_by_text lasts) (map field_of definitions.now)) }
{
    let mut lasts = BTreeMap::new(alloc);
    'definitions: for definition in definitions {
        store_last(alloc, &mut lasts, definition)?;
    }
    Ok(lasts)
}

// Returns the note about the definition of an abbreviation that has this name.
fn case_note(alloc: Global, name: &str) -> Result<String, AllocError>
    ensures { IfOk result (λ text. string_bytes text ≡ spec.case_note name.now) }
{
    format!(in alloc; "; \"{name}\" is defined, and BibTeX and Biber ignore the case")
}

// Returns the note about this definition of an abbreviation at this offset. It is empty if the definition ends after the offset.
fn definition_note(alloc: Global, at: usize, definition: &Pair<'_>) -> Result<String, AllocError>
    ensures { IfOk result (λ text. string_bytes text ≡ spec.definition_note at (field_of definition.now)) }
{
    if definition.value.span.end <= at {
        return case_note(alloc, definition.key.v);
    }
    Ok(String::new(alloc))
}

// Returns the note about an unknown abbreviation with this name at this offset. `lasts` has the last definition of each name in ASCII
// lowercase.
fn abbreviation_note(
    alloc: Global,
    lasts: &BTreeMap<String, &Pair<'_>>,
    at: usize,
    name: &str,
) -> Result<String, AllocError>
    ensures { IfOk result (λ text. (definitions : List FieldReading) → AreLastDefinitions (get_by_text lasts.now) definitions
        → string_bytes text ≡ spec.abbreviation_note definitions at name.now) }
{
    let lowercase = name.to_ascii_lowercase(alloc)?;
    let Some(last) = lasts.get(lowercase.as_str()).copied() else {
        return Ok(String::new(alloc));
    };
    let note = definition_note(alloc, at, last)?;
    Ok(note)
}

// Returns the note about an error: that of an unknown abbreviation, or else the empty text. `lasts` has the last definition of each name
// in ASCII lowercase.
pub(crate) fn error_note(
    alloc: Global,
    lasts: &BTreeMap<String, &Pair<'_>>,
    error: &ParseError,
) -> Result<String, AllocError>
    ensures { IfOk result (λ text. (definitions : List FieldReading) → AreLastDefinitions (get_by_text lasts.now) definitions
        → string_bytes text ≡ spec.error_note definitions error.now) }
{
    match &error.kind {
        ParseErrorKind::UnknownAbbreviation(name) => {
            let at = error.span.start;
            abbreviation_note(alloc, lasts, at, name.as_str())
        }
        _ => Ok(String::new(alloc)),
    }
}
