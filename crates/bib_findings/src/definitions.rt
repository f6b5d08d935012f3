//! Findings of abbreviations that are defined again with another value.

ghost use Rattle.std.specs.Prelude.{◌≡◌, ◌++◌, ◌∷◌, [], List, false, map, IfOk, OnOk};
ghost use Rattle.std.specs.BTreeMap.{get_by_text};
ghost use Rattle.std.specs.Option.{option_map_or};
ghost use Rattle.std.specs.String.{string_bytes};
ghost use Rattle.bib_syntax.specs.Reading.{FieldReading};
ghost use Rattle.bib_syntax.specs.Views.{field_of};
ghost use Rattle.bib_findings.specs.Definitions as spec;
ghost use Rattle.bib_findings.specs.Definitions.{definition_after, definition_findings, finding_after, have_other_values};
ghost use Rattle.bib_findings.specs.LastDefinitions.{AreLastDefinitions, read_definition};

use crate::codes::Code;
use crate::finding::Finding;
use bib_queries::equal_values::are_equal_pieces;
use bib_syntax::raw::Pair;
use bib_text::text::Text;
use std::alloc::{AllocError, Global};
use std::collections::BTreeMap;

// Returns whether there is a last definition, and it has another value than this one.
fn has_other_value(
    alloc: Global,
    last: Option<&Pair<'_>>,
    definition: &Pair<'_>,
) -> Result<bool, AllocError>
    ensures { IfOk result (λ other. other ≡
        option_map_or (have_other_values (field_of definition.now)) (read_definition last.entry) false) }
{
    match last {
        Some(last) => {
            let value = definition.value.v.as_slice();
            Ok(!are_equal_pieces(alloc, value, last.value.v.as_slice())?)
        }
        None => Ok(false),
    }
}

// Returns the message about a definition of an abbreviation that has this name.
fn definition_message(alloc: Global, name: &str) -> Result<String, AllocError>
    ensures { IfOk result (λ text. string_bytes text ≡ spec.definition_message name.now) }
{
    format!(in alloc;
        "definition of `{name}` occurs again with another value; BibTeX and Biber use it for later entries"
    )
}

// Returns the finding of a definition whose abbreviation had another value.
fn definition_finding(alloc: Global, definition: &Pair<'_>) -> Result<Finding, AllocError>
    ensures { IfOk result (λ finding. finding ≡ spec.definition_finding (field_of definition.now)) }
{
    let name = &definition.key;
    let message = definition_message(alloc, name.v)?;
    Ok(Finding {
        code: Code::RepeatedDefinition,
        span: name.span.start..name.span.end,
        message: Text::from_string(message),
    })
}

// Appends the finding of a definition, if the last earlier one of the same abbreviation exists and has another value.
fn add_if_changed(
    alloc: Global,
    found: &mut Vec<Finding>,
    last: Option<&Pair<'_>>,
    definition: &Pair<'_>,
) -> Result<(), AllocError>
    ensures { OnOk result (found.new.items ≡ found.old.items ++ finding_after (read_definition last.entry) (field_of definition.now)) }
{
    if has_other_value(alloc, last, definition)? {
        found.push(definition_finding(alloc, definition)?)?;
    }
    Ok(())
}

// Appends the finding of a definition after the earlier ones, and stores it. `lasts` has the last earlier definition for each name in
// ASCII lowercase.
fn add_definition<'f, 's>(
    alloc: Global,
    found: &mut Vec<Finding>,
    lasts: &mut BTreeMap<String, &'f Pair<'s>>,
    definition: &'f Pair<'s>,
) -> Result<(), AllocError>
    ensures lasts { OnOk result ((earlier : List FieldReading) → AreLastDefinitions (get_by_text lasts.old) earlier
        → AreLastDefinitions (get_by_text lasts.new) (earlier ++ field_of definition.now ∷ [])) }
    ensures added { OnOk result ((earlier : List FieldReading) → AreLastDefinitions (get_by_text lasts.old) earlier
        → found.new.items ≡ found.old.items ++ definition_after earlier (field_of definition.now)) }
{
    let name = definition.key.v.to_ascii_lowercase(alloc)?;
    let last = lasts.get(name.as_str()).copied();
    add_if_changed(alloc, found, last, definition)?;
    lasts.insert(name, definition)?;
    Ok(())
}

/// Appends a finding for each of these definitions if the last earlier one of the same abbreviation, in any ASCII case, has another value.
pub(crate) fn add_redefinitions(
    alloc: Global,
    found: &mut Vec<Finding>,
    definitions: &[Pair<'_>],
) -> Result<(), AllocError>
    ensures { OnOk result (found.new.items ≡ found.old.items ++ definition_findings (map field_of definitions.now)) }
{
    let mut lasts = BTreeMap::new(alloc);
    'definitions: for definition in definitions {
        add_definition(alloc, found, &mut lasts, definition)?;
    }
    Ok(())
}
