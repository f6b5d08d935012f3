//! Returns the JSON object of a finding, and elements of JSON arrays.

ghost use Rattle.std.specs.Prelude.{◌≡◌, IfOk};
ghost use Rattle.std.specs.String.{string_bytes};
ghost use Rattle.bibkit_core.specs.Objects as spec;

use crate::regions::Region;
use bib_findings::finding::Finding;
use serde_json::Value;
use std::alloc::{AllocError, Global};

/// Returns a text as a JSON string with its quotes.
pub fn json_text(alloc: Global, text: &str) -> Result<String, AllocError>
    ensures { IfOk result (λ json. string_bytes json ≡ spec.json_text text.now) }
{
    Value::String(String::from_str(alloc, text)?).to_string(alloc)
}

// Returns the text before an element of an array: a line feed, after a comma unless the element is the first.
fn separator(is_first: bool) -> &'static str
    ensures { result.now ≡ spec.separator is_first }
{
    if is_first { "\n" } else { ",\n" }
}

/// Returns an element of an array on a new line. A comma precedes it unless `is_first`.
pub fn element(alloc: Global, is_first: bool, value: &str) -> Result<String, AllocError>
    ensures { IfOk result (λ text. string_bytes text ≡ spec.element is_first value.now) }
{
    format!(in alloc; "{}{value}", separator(is_first))
}

// Returns the members for the lines and columns of a region.
fn region_members(alloc: Global, region: Region) -> Result<String, AllocError>
    ensures { IfOk result (λ text. string_bytes text ≡ spec.region_members region) }
{
    format!(in alloc;
        "\"line\":{},\"column\":{},\"end_line\":{},\"end_column\":{}",
        region.start.line, region.start.column, region.end.line, region.end.column
    )
}

// Returns the object of a finding in this region of the file `name`.
fn finding_object(
    alloc: Global,
    name: &str,
    region: Region,
    finding: &Finding,
) -> Result<String, AllocError>
    ensures { IfOk result (λ text. string_bytes text ≡ spec.finding_object name.now region finding.now) }
{
    let file = json_text(alloc, name)?;
    let members = region_members(alloc, region)?;
    let message = json_text(alloc, finding.message.as_str())?;
    format!(in alloc;
        "{{\"file\":{},{},\"severity\":\"{}\",\"code\":\"{}\",\"message\":{}}}",
        file.as_str(),
        members.as_str(),
        finding.code.severity().name(),
        finding.code.name(),
        message.as_str()
    )
}

/// Returns the object of a finding as an element of an array.
pub fn object_element(
    alloc: Global,
    is_first: bool,
    name: &str,
    region: Region,
    finding: &Finding,
) -> Result<String, AllocError>
    ensures { IfOk result (λ text. string_bytes text ≡ spec.element is_first (spec.finding_object name.now region finding.now)) }
{
    let object = finding_object(alloc, name, region, finding)?;
    element(alloc, is_first, object.as_str())
}

/// Returns the object of a finding on a line.
pub fn object_line(
    alloc: Global,
    name: &str,
    region: Region,
    finding: &Finding,
) -> Result<String, AllocError>
    ensures { IfOk result (λ text. string_bytes text ≡ spec.object_line name.now region finding.now) }
{
    let mut line = finding_object(alloc, name, region, finding)?;
    line.push('\n')?;
    Ok(line)
}
