//! Lists as JSON.

ghost use Rattle.std.specs.Prelude.{◌≡◌, IfOk, map, string_bytes};
ghost use Rattle.serde_json.specs.Data.{string};
ghost use Rattle.serde_json.specs.View.{view};
ghost use Rattle.bib_json.specs.Objects.{array_of};
ghost use Rattle.bib_json.specs.Values.{range_json, part_json, language_json, language_or_part};

use bib_chunks::chunk::{Chunks, ChunksRef, format_verbatim};
use bib_tables::types::lang::Language;
use bib_values::enums::read_language;
use serde_json::{Map, Value};
use std::alloc::{AllocError, Global};
use std::ops::Range;

// Returns a range of numbers: the first and the last.
fn range_value(alloc: Global, range: &Range<u32>) -> Result<Value, AllocError>
    ensures { IfOk result (λ value. view value ≡ range_json range.now) }
{
    let mut members = Map::new(alloc);
    serde_json::put(&mut members, alloc, "start", Value::from(range.start))?;
    serde_json::put(&mut members, alloc, "end", Value::from(range.end))?;
    Ok(Value::from(members))
}

/// Returns an array of ranges of numbers.
pub(crate) fn ranges_value(alloc: Global, ranges: &[Range<u32>]) -> Result<Value, AllocError>
    ensures { IfOk result (λ value. view value ≡ array_of range_json ranges.now) }
{
    let mut elements = Vec::new(alloc);
    'page_ranges: for range in ranges {
        let element = range_value(alloc, range)?;
        elements.push(element)?;
    }
    Ok(Value::from(elements))
}

/// Returns an array of texts.
pub(crate) fn texts_value(alloc: Global, texts: &[String]) -> Result<Value, AllocError>
    ensures { IfOk result (λ value. view value ≡ array_of string (map (λ s. string_bytes s) texts.now)) }
{
    let mut elements = Vec::new(alloc);
    'texts: for text in texts {
        let element = Value::try_from_str(alloc, text.as_str())?;
        elements.push(element)?;
    }
    Ok(Value::from(elements))
}

// Returns the text of a part of a list.
fn part_value(alloc: Global, part: ChunksRef<'_>) -> Result<Value, AllocError>
    ensures { IfOk result (λ value. view value ≡ part_json part.now) }
{
    Ok(Value::from(format_verbatim(alloc, part)?))
}

/// Returns an array with the texts of the parts of a list.
pub(crate) fn parts_value(alloc: Global, parts: &[Chunks]) -> Result<Value, AllocError>
    ensures { IfOk result (λ value. view value ≡ array_of part_json parts.now) }
{
    let mut elements = Vec::new(alloc);
    'parts: for part in parts {
        let element = part_value(alloc, part.as_slice())?;
        elements.push(element)?;
    }
    Ok(Value::from(elements))
}

/// Returns the name of a language.
pub(crate) fn language_value(alloc: Global, language: Language) -> Result<Value, AllocError>
    ensures { IfOk result (λ value. view value ≡ language_json language) }
{
    let name = format!(in alloc; "{language}")?;
    Ok(Value::from(name))
}

// Returns the name of the language that a part of a list names, or else the text of the part.
fn language_or_part(alloc: Global, part: ChunksRef<'_>) -> Result<Value, AllocError>
    ensures { IfOk result (λ value. view value ≡ language_or_part part.now) }
{
    match read_language(alloc, part)? {
        Some(language) => language_value(alloc, language),
        None => part_value(alloc, part),
    }
}

/// Returns an array with the language that each part of a list names, or the text of the part if it names no language.
pub(crate) fn languages_value(alloc: Global, parts: &[Chunks]) -> Result<Value, AllocError>
    ensures { IfOk result (λ value. view value ≡ array_of language_or_part parts.now) }
{
    let mut elements = Vec::new(alloc);
    'parts: for part in parts {
        let element = language_or_part(alloc, part.as_slice())?;
        elements.push(element)?;
    }
    Ok(Value::from(elements))
}
