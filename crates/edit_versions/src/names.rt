//! The names of units, by which the units of one version are found in another one.

ghost use Rattle.std.specs.Prelude.{◌≡◌, ◌++◌, IfOk, codes, map};
ghost use Rattle.std.specs.Fmt.{decimal};
ghost use Rattle.std.specs.List.{AllByRecursion, after_first, before_first};
ghost use Rattle.edit_entries.specs.Cuts.{CanBeCut};
ghost use Rattle.edit_units.specs.Views.{unit_reading_of};
ghost use Rattle.edit_versions.specs.Blocks.{AreBlocksCut, IsUnitCut};
ghost use Rattle.edit_versions.specs.Versions as spec;

use bib_collections::claims::Claims;
use bib_text::text::Text;
use edit_units::units::Unit;
use std::alloc::{AllocError, Global};

// Returns a text after a prefix.
pub(crate) fn with_prefix(alloc: Global, prefix: &str, text: &str) -> Result<Text, AllocError>
    ensures { IfOk result (λ name. name ≡ prefix.now ++ text.now) }
{
    let mut name = Text::from_str(alloc, prefix)?;
    name.push_str(text)?;
    Ok(name)
}

/// Returns the own name in a name of a unit: the part after the number.
pub fn own_part(name: &str) -> &str
    ensures { result.now ≡ spec.own_part name.now }
{
    match name.split_once(' ') {
        Some((_, own)) => own,
        None => "",
    }
}

/// Returns the first line of a text.
pub fn first_line(text: &str) -> &str
    ensures { result.now ≡ spec.first_line text.now }
{
    match text.split_once('\n') {
        Some((line, _)) => line,
        None => text,
    }
}

// Returns a text up to its first colon, without it, or all of it if it has none.
fn before_colon(text: &str) -> &str
    ensures { result.now ≡ before_first spec.is_colon text.now }
{
    match text.split_once(':') {
        Some((before, _)) => before,
        None => text,
    }
}

// Returns a text after its first colon, or an empty text if it has none.
fn after_colon(text: &str) -> &str
    ensures { result.now ≡ after_first spec.is_colon text.now }
{
    match text.split_once(':') {
        Some((_, after)) => after,
        None => "",
    }
}

/// Returns the words of a text, each with a space after it. Words are separated by ASCII white space. Returns an error only if out of memory.
pub fn words_with_spaces(alloc: Global, text: &str) -> Result<Text, AllocError>
    ensures { IfOk result (λ words. words ≡ spec.words_with_spaces text.now) }
{
    let mut words = Text::new(alloc);
    let mut is_after = true;
    'text: for c in text.chars() {
        let is_white = c.is_ascii_whitespace();
        if !is_white {
            words.push(c)?;
        } else if !is_after {
            words.push(' ')?;
        }
        is_after = is_white;
    }
    if !is_after {
        words.push(' ')?;
    }
    Ok(words)
}

// Returns the words of a line up to its second colon, without the colons.
fn words_to_second_colon(alloc: Global, line: &str) -> Result<Text, AllocError>
    ensures { IfOk result (λ words. words ≡ spec.words_to_second_colon line.now) }
{
    let mut words = words_with_spaces(alloc, before_colon(line))?;
    let second = words_with_spaces(alloc, before_colon(after_colon(line)))?;
    words.push_str(second.as_str())?;
    Ok(words)
}

// Returns the name of a unit without entries, definitions and preambles.
fn name_by_blocks(alloc: Global, text: &str, unit: &Unit<'_>) -> Result<Text, AllocError>
    requires unit { CanBeCut text.now unit.now.span.start unit.now.span.end }
    requires blocks { AreBlocksCut text.now unit.now.blocks.items }
    ensures { IfOk result (λ name. name ≡ spec.name_by_blocks text.now (unit_reading_of unit.now) unit.now.blocks.items) }
{
    match unit.blocks.first() {
        Some(block) => {
            let line = first_line(&text[block.start..block.end]);
            let words = words_to_second_colon(alloc, line)?;
            with_prefix(alloc, "comment ", words.as_str())
        }
        None => {
            let words = words_with_spaces(alloc, &text[unit.span.start..unit.span.end])?;
            with_prefix(alloc, "text ", words.as_str())
        }
    }
}

// Returns the name of a unit, which other units of the file may have too.
fn own_name(alloc: Global, text: &str, unit: &Unit<'_>) -> Result<Text, AllocError>
    requires unit { CanBeCut text.now unit.now.span.start unit.now.span.end }
    requires blocks { AreBlocksCut text.now unit.now.blocks.items }
    ensures { IfOk result (λ name. name ≡ spec.own_name text.now (unit_reading_of unit.now)) }
{
    if let Some(entry) = unit.raw.entries.first() {
        return with_prefix(alloc, "entry ", entry.v.key.v);
    }
    if let Some(definition) = unit.raw.abbreviations.first() {
        let name = definition.key.v.to_ascii_lowercase(alloc)?;
        return with_prefix(alloc, "string ", name.as_str());
    }
    if !unit.raw.preamble.is_empty() {
        return Text::from_str(alloc, "preamble");
    }
    name_by_blocks(alloc, text, unit)
}

/// Returns an own name after the number of earlier units that have it. Returns an error only if out of memory.
pub fn with_number(alloc: Global, number: usize, own: &Text) -> Result<Text, AllocError>
    ensures { IfOk result (λ name. name ≡ decimal number ++ (codes " " ++ own.now)) }
{
    let name = format!(in alloc; "{number} {}", own.as_str())?;
    Ok(Text::from_string(name))
}

/// Returns the names of the units of a text. No two units have the same name. Returns an error only if out of memory.
pub(crate) fn unit_names(
    alloc: Global,
    text: &str,
    units: &[Unit<'_>],
) -> Result<Vec<Text>, AllocError>
    requires { AllByRecursion (IsUnitCut text.now) (map unit_reading_of units.now) }
    ensures { IfOk result (λ names. names.items ≡ spec.unit_names text.now (map unit_reading_of units.now)) }
{
    let mut names = Vec::new(alloc);
    let mut counts = Claims::new(alloc);
    'units: for unit in units {
        let own = own_name(alloc, text, unit)?;
        let number = counts.get(own.as_str()).unwrap_or(0);
        names.push(with_number(alloc, number, &own)?)?;
        counts.claim(own, number + 1)?;
    }
    Ok(names)
}

/// Returns the index of each name. Returns an error only if out of memory.
pub fn indices_of(alloc: Global, names: &[Text]) -> Result<Claims, AllocError>
    ensures { IfOk result (λ indices. indices ≡ spec.indices_of names.now) }
{
    let mut indices = Claims::new(alloc);
    'names: for (index, name) in names.iter().enumerate() {
        indices.claim(name.clone()?, index)?;
    }
    Ok(indices)
}
