//! Returns the line of a finding, and its text.

ghost use Rattle.std.specs.Prelude.{◌≡◌, IfOk};
ghost use Rattle.std.specs.String.{string_bytes};
ghost use Rattle.bibkit_core.specs.Printed as spec;

use bib_findings::finding::Finding;
use bib_source::positions::Position;
use std::alloc::{AllocError, Global};

/// Returns the line of a finding at the position `place` of the file `name`, with a line feed. It has the form
/// `FILE:LINE:COLUMN: error|warning|info: TEXT [CODE]`.
pub fn finding_line(
    alloc: Global,
    name: &str,
    place: Position,
    finding: &Finding,
) -> Result<String, AllocError>
    ensures { IfOk result (λ text. string_bytes text ≡ spec.finding_line name.now place finding.now) }
{
    format!(in alloc;
        "{name}:{}:{}: {}: {} [{}]\n",
        place.line,
        place.column,
        finding.code.severity().name(),
        finding.message.as_str(),
        finding.code.name()
    )
}

/// Returns the text of a finding in its line, after the position: `error|warning|info: TEXT [CODE]`.
pub fn line_text(alloc: Global, finding: &Finding) -> Result<String, AllocError>
    ensures { IfOk result (λ text. string_bytes text ≡ spec.line_text finding.now) }
{
    format!(in alloc;
        "{}: {} [{}]",
        finding.code.severity().name(),
        finding.message.as_str(),
        finding.code.name()
    )
}
