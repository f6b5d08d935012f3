//! Finds the lines that are in no record.

ghost use Rattle.std.specs.Prelude.{◌≡◌, ◌++◌, OnOk, IfOk};
ghost use Rattle.std.specs.List.{flat_map};
ghost use Rattle.bib_from_ris.specs.RisItems as spec;

use crate::lines::RisLine;
use crate::sections::{Section, is_record};
use crate::tags::first_text;
use bib_from_csl::losses::{Loss, LossKind};
use bib_text::items::Items;
use bib_text::text::Text;
use std::alloc::{AllocError, Global};

// Appends the loss of a line that is in no record, unless its value is empty. The name of the loss is the tag, or the text of a line
// without a tag, and its key is empty.
fn push_line(alloc: Global, losses: &mut Items<Loss>, line: &RisLine) -> Result<(), AllocError>
    ensures { OnOk result (losses.new ≡ losses.old ++ spec.outside_loss line.now) }
{
    if line.value.is_empty() {
        return Ok(());
    }
    let name = first_text(line.tag.as_str(), line.value.as_str());
    losses.push(Loss {
        id: Text::new(alloc),
        name: Text::from_str(alloc, name)?,
        kind: LossKind::NoField,
    })?;
    Ok(())
}

// Appends the losses of lines that are in no record.
fn push_lines(alloc: Global, losses: &mut Items<Loss>, lines: &[RisLine]) -> Result<(), AllocError>
    ensures { OnOk result (losses.new ≡ losses.old ++ flat_map spec.outside_loss lines.now) }
{
    'lines: for line in lines {
        push_line(alloc, losses, line)?;
    }
    Ok(())
}

// Appends the losses of a section that is no record.
fn push_section(
    alloc: Global,
    losses: &mut Items<Loss>,
    section: &Section,
) -> Result<(), AllocError>
    ensures { OnOk result (losses.new ≡ losses.old ++ spec.section_losses section.now) }
{
    if is_record(section) {
        return Ok(());
    }
    push_line(alloc, losses, &section.head)?;
    push_lines(alloc, losses, section.lines.as_slice())
}

/// Returns the losses of the lines of sections that are in no record.
pub(crate) fn outside_losses(alloc: Global, sections: &[Section]) -> Result<Items<Loss>, AllocError>
    ensures { IfOk result (λ losses. losses ≡ flat_map spec.section_losses sections.now) }
{
    let mut losses = Items::new(alloc);
    'sections: for section in sections {
        push_section(alloc, &mut losses, section)?;
    }
    Ok(losses)
}
