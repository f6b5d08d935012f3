//! Finds the records among the lines of a text of RIS.

ghost use Rattle.std.specs.Prelude.{◌≡◌, IfOk};
ghost use Rattle.bib_from_ris.specs.Sections as spec;

use crate::lines::RisLine;
use bib_text::items::Items;
use bib_text::text::Text;
use std::alloc::{AllocError, Global};

/// A record, or lines that are in no record.
#[derive(Debug, Drop)]
pub struct Section {
    /// The line with the tag `TY` or `ER` that begins the section; a line without a tag for the first section.
    pub head: RisLine,
    /// The lines after it.
    pub lines: Items<RisLine>,
}

// Returns whether a line begins a section: `TY` begins a record, and `ER` ends it.
fn is_head(line: &RisLine) -> bool
    ensures { result ≡ spec.begins_section line.now }
{
    matches!(line.tag.as_str(), "TY" | "ER")
}

// Returns a copy of a line.
fn copied(alloc: Global, line: &RisLine) -> Result<RisLine, AllocError>
    ensures { IfOk result (λ copy. copy ≡ line.now) }
{
    Ok(RisLine {
        tag: Text::from_str(alloc, line.tag.as_str())?,
        value: Text::from_str(alloc, line.value.as_str())?,
    })
}

// Returns a section that begins with this line.
fn section_with(alloc: Global, head: RisLine) -> Section
    ensures { result ≡ spec.section_with head }
{
    Section {
        head,
        lines: Items::new(alloc),
    }
}

/// Returns the sections of lines. The first has the lines before the first `TY` or `ER`.
#[tactic(auto, unfolding(crate::specs::Sections::sections_of))]
pub(crate) fn sections_of(alloc: Global, lines: &[RisLine]) -> Result<Items<Section>, AllocError>
    ensures { IfOk result (λ sections. sections ≡ spec.sections_of lines.now) }
{
    let mut sections = Items::new(alloc);
    let none = RisLine {
        tag: Text::new(alloc),
        value: Text::new(alloc),
    };
    let mut section = section_with(alloc, none);
    'lines: for line in lines {
        let next = copied(alloc, line)?;
        if is_head(line) {
            sections.push(section)?;
            section = section_with(alloc, next);
        } else {
            section.lines.push(next)?;
        }
    }
    sections.push(section)?;
    Ok(sections)
}

/// Returns whether a section is a record.
pub(crate) fn is_record(section: &Section) -> bool
    ensures { result ≡ spec.is_record section.now }
{
    section.head.tag.as_str() == "TY"
}
