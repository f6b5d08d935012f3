//! Prints the selected findings of files, and counts them.

ghost use Rattle.std.specs.Prelude.{◌≡◌, OnOk, IfOk};
ghost use Rattle.std.specs.String.{string_bytes};
ghost use Rattle.bibkit_core.specs.Printed.{IsShown};
ghost use Rattle.bibkit_core.specs.Asked.{selected_findings};
ghost use Rattle.bibkit_core.specs.Adding.{IsAdded, IsPrintedOne};
ghost use Rattle.bibkit_core.specs.Conditions.{findings_of_no_entry};
ghost use Rattle.bibkit_core.specs.Linted as linted;
ghost use Rattle.bibkit_core.specs.Encodings.{byte_findings};
ghost use Rattle.bibkit_core.specs.Linted.{IsPrintedKept, ArePrinted, IsPrintedFile};
ghost use Rattle.bibkit_core.specs.Printed as spec;

use crate::checkstyle::error_element;
use crate::commands::finding_command;
use crate::conditions::{findings_of_no_entry, reported_findings};
use crate::encodings::byte_findings;
use crate::frames::framed_finding;
use crate::lines::finding_line;
use crate::objects::{object_element, object_line};
use crate::own_names::without_own;
use crate::regions::{Region, region_at};
use crate::request::{Lint, Style};
use crate::rules::{Rule, switched_off};
use crate::sarif::result_element;
use crate::tally::Tally;
use bib_findings::finding::Finding;
use bib_findings::findings::findings;
use bib_source::positions::Positions;
use biblatex::Decoded;
use std::alloc::{AllocError, Global};

/// The file that findings refer to.
#[derive(Clone, Copy)]
pub struct Origin<'a> {
    /// The name of the file.
    pub name: &'a str,
    /// The bytes in which the spans of the findings are offsets: those of the file, or of its decoded text.
    pub bytes: &'a [u8],
}

/// A text to print, and the counts of the findings so far.
#[derive(Drop)]
pub struct Printed {
    /// The text to print.
    pub text: String,
    /// The counts of all findings so far, including those before `text`.
    pub tally: Tally,
}

// Returns the text of a finding. `tally` counts the findings before it.
fn finding_text(
    alloc: Global,
    style: Style,
    tally: Tally,
    origin: &Origin<'_>,
    region: Region,
    finding: &Finding,
) -> Result<String, AllocError>
    ensures { IfOk result (λ text. IsShown style (spec.has_no_finding tally) origin.now.name.now region finding.now
        (string_bytes text)) }
{
    match style {
        Style::Plain => finding_line(alloc, origin.name, region.start, finding),
        Style::Colored => framed_finding(alloc, origin.name, origin.bytes, region.start, finding),
        Style::Json => object_element(alloc, tally.has_no_finding(), origin.name, region, finding),
        Style::JsonLines => object_line(alloc, origin.name, region, finding),
        Style::Github => finding_command(alloc, origin.name, region, finding),
        Style::Checkstyle => error_element(alloc, region.start, finding),
        Style::Sarif => result_element(alloc, tally.has_no_finding(), origin.name, region, finding),
    }
}

// Appends the text of a finding to `printed`, and counts it.
fn print_finding(
    alloc: Global,
    printed: &mut Printed,
    style: Style,
    origin: &Origin<'_>,
    region: Region,
    finding: &Finding,
) -> Result<(), AllocError>
    ensures { OnOk result (IsAdded (IsPrintedOne style origin.now.name.now region finding.now) printed.old printed.new) }
{
    let text = finding_text(alloc, style, printed.tally, origin, region, finding)?;
    printed.text.push_str(&text)?;
    printed.tally = printed.tally.with(finding.code.severity());
    Ok(())
}

/// Appends the selected findings among `found` to `printed`, and counts them. Rules in `off` are switched off.
pub fn print_findings(
    alloc: Global,
    printed: &mut Printed,
    lint: &Lint<'_>,
    off: &[Rule],
    origin: &Origin<'_>,
    found: &[Finding],
) -> Result<(), AllocError>
    ensures { OnOk result (IsAdded (ArePrinted lint.now.style origin.now.name.now origin.now.bytes.now
        (selected_findings lint.now.selection off.now found.now)) printed.old printed.new) }
{
    let mut positions = Positions::of_bytes(origin.bytes);
    'findings: for finding in found {
        let start = positions.position(finding.span.start);
        if lint.selection.asks_for(alloc, off, finding)? {
            let region = region_at(origin.bytes, start, &finding.span);
            print_finding(alloc, printed, lint.style, origin, region, finding)?;
        }
    }
    Ok(())
}

// Appends the findings of a file's bytes that are selected and that no rule in `off` means, and counts them. Appends none if there are
// conditions. `invalid` is the offset of the first byte that isn't UTF-8, if there is one.
fn print_byte_findings(
    alloc: Global,
    printed: &mut Printed,
    lint: &Lint<'_>,
    off: &[Rule],
    origin: &Origin<'_>,
    invalid: Option<usize>,
) -> Result<(), AllocError>
    ensures { OnOk result (IsAdded (ArePrinted lint.now.style origin.now.name.now origin.now.bytes.now
        (selected_findings lint.now.selection off.now
        (findings_of_no_entry lint.now.conditions.items (byte_findings origin.now.bytes.now invalid)))) printed.old printed.new) }
{
    let found = byte_findings(alloc, origin.bytes, invalid)?;
    let kept = findings_of_no_entry(alloc, &lint.conditions, found);
    print_findings(alloc, printed, lint, off, origin, &kept)
}

/// Returns the rules that the lines of a text switch off, if the request has switches. The only error is out of memory.
pub fn off_in(alloc: Global, lint: &Lint<'_>, text: &str) -> Result<Vec<Rule>, AllocError>
    ensures { IfOk result (λ off. off.items ≡ linted.off_in lint.now text.now) }
{
    if !lint.has_switches {
        return Ok(Vec::new(alloc));
    }
    switched_off(alloc, text)
}

/// Appends the selected findings among `kept` to `printed`, and counts them. `kept` are the reported findings of the file's decoded text.
/// If there are no conditions, the selected findings of the file's bytes come first, with their positions in the bytes. Findings that the
/// file switches off are left out.
pub fn print_kept(
    alloc: Global,
    printed: &mut Printed,
    lint: &Lint<'_>,
    origin: &Origin<'_>,
    decoded: &Decoded,
    kept: &[Finding],
) -> Result<(), AllocError>
    ensures { OnOk result (IsAdded (IsPrintedKept lint.now origin.now.name.now origin.now.bytes.now decoded.now kept.now)
        printed.old printed.new) }
{
    let off = off_in(alloc, lint, &decoded.text)?;
    print_byte_findings(alloc, printed, lint, &off, origin, decoded.invalid)?;
    let text = Origin {
        name: origin.name,
        bytes: decoded.text.as_bytes(),
    };
    print_findings(alloc, printed, lint, &off, &text, kept)?;
    Ok(())
}

/// Appends the selected findings of a file to `printed`, and counts them. The findings of its bytes come first, with their positions in
/// the bytes. The findings of the decoded text follow, with their positions in this text. If there are conditions,
/// only findings about entries whose key is that of an entry that meets all of them are appended. Findings that report one of the names
/// `lint.own` as unknown, and those that the file switches off, are left out.
pub fn print_file(
    alloc: Global,
    printed: &mut Printed,
    lint: &Lint<'_>,
    origin: &Origin<'_>,
    decoded: &Decoded,
) -> Result<(), AllocError>
    ensures { OnOk result (IsAdded (IsPrintedFile lint.now origin.now.name.now origin.now.bytes.now decoded.now) printed.old printed.new) }
{
    let found = findings(alloc, decoded.text.as_str())?;
    let reported = reported_findings(alloc, &lint.conditions, decoded.text.as_str(), found)?;
    let kept = without_own(alloc, &lint.own, reported)?;
    print_kept(alloc, printed, lint, origin, decoded, &kept)?;
    Ok(())
}
