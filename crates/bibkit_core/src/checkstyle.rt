//! Returns elements of the XML format of Checkstyle.

ghost use Rattle.std.specs.Prelude.{◌≡◌, IfOk};
ghost use Rattle.std.specs.String.{string_bytes};
ghost use Rattle.bibkit_core.specs.Checkstyle as spec;

use crate::escapes::{Context, escaped};
use bib_findings::finding::Finding;
use bib_source::positions::Position;
use std::alloc::{AllocError, Global};

/// The text before the elements of all files.
pub const HEAD: &str = "<?xml version=\"1.0\" encoding=\"utf-8\"?>\n<checkstyle version=\"4.3\">\n";

/// The text after the elements of all files.
pub const TAIL: &str = "</checkstyle>\n";

/// Returns the element of a finding at the position `place`, on a line.
pub fn error_element(
    alloc: Global,
    place: Position,
    finding: &Finding,
) -> Result<String, AllocError>
    ensures { IfOk result (λ text. string_bytes text ≡ spec.error_element place finding.now) }
{
    let message = escaped(alloc, Context::XmlAttribute, finding.message.as_str())?;
    format!(in alloc;
        "    <error line=\"{}\" column=\"{}\" severity=\"{}\" message=\"{}\" source=\"bibkit.{}\"/>\n",
        place.line,
        place.column,
        finding.code.severity().name(),
        message.as_str(),
        finding.code.name()
    )
}

/// Returns the element of the file `name`, with the elements of its findings. It is empty if the file has none.
pub fn file_element(alloc: Global, name: &str, errors: String) -> Result<String, AllocError>
    ensures { IfOk result (λ text. string_bytes text ≡ spec.file_element name.now (string_bytes errors)) }
{
    if errors.is_empty() {
        return Ok(errors);
    }
    let name = escaped(alloc, Context::XmlAttribute, name)?;
    format!(in alloc;
        "  <file name=\"{}\">\n{}  </file>\n",
        name.as_str(),
        errors.as_str()
    )
}
