//! Returns the workflow command of GitHub Actions for a finding.

ghost use Rattle.std.specs.Prelude.{◌≡◌, IfOk};
ghost use Rattle.std.specs.String.{string_bytes};
ghost use Rattle.bibkit_core.specs.Commands as spec;

use crate::escapes::{Context, escaped};
use crate::regions::Region;
use bib_findings::codes::Severity;
use bib_findings::finding::Finding;
use std::alloc::{AllocError, Global};

// Returns the name of the command for a severity.
fn severity_command(severity: Severity) -> &'static str
    ensures { result.now ≡ spec.severity_command severity }
{
    match severity {
        Severity::Error => "error",
        Severity::Warning => "warning",
        Severity::Info => "notice",
    }
}

// Returns the properties for the columns of a region. A region of several lines has none.
fn column_properties(alloc: Global, region: Region) -> Result<String, AllocError>
    ensures { IfOk result (λ text. string_bytes text ≡ spec.column_properties region) }
{
    if region.start.line != region.end.line {
        return Ok(String::new(alloc));
    }
    format!(in alloc;
        ",col={},endColumn={}",
        region.start.column, region.end.column
    )
}

// Returns the properties for a region of the file `name`.
fn place_properties(alloc: Global, name: &str, region: Region) -> Result<String, AllocError>
    ensures { IfOk result (λ text. string_bytes text ≡ spec.place_properties name.now region) }
{
    let file = escaped(alloc, Context::GithubProperty, name)?;
    let columns = column_properties(alloc, region)?;
    format!(in alloc;
        "file={},line={},endLine={}{}",
        file.as_str(),
        region.start.line,
        region.end.line,
        columns.as_str()
    )
}

/// Returns the command for a finding in this region of the file `name`, with a line feed.
pub fn finding_command(
    alloc: Global,
    name: &str,
    region: Region,
    finding: &Finding,
) -> Result<String, AllocError>
    ensures { IfOk result (λ text. string_bytes text ≡ spec.finding_command name.now region finding.now) }
{
    let properties = place_properties(alloc, name, region)?;
    let message = escaped(alloc, Context::GithubMessage, finding.message.as_str())?;
    format!(in alloc;
        "::{} {},title={}::{}\n",
        severity_command(finding.code.severity()),
        properties.as_str(),
        finding.code.name(),
        message.as_str()
    )
}
