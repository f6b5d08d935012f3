//! Makes the items of records.

ghost use Rattle.std.specs.Prelude.{◌≡◌, IfOk};
ghost use Rattle.std.specs.Option.{option_map};
ghost use Rattle.bib_from_ris.specs.RisItems as spec;

use crate::members::members;
use crate::sections::{Section, is_record};
use crate::types::type_of_record;
use crate::variables::{VariableLine, text_of, variable_lines};
use bib_from_csl::given::GivenItem;
use bib_text::items::Items;
use bib_text::text::Text;
use std::alloc::{AllocError, Global};

// Returns `ris` and a number.
fn numbered_id(alloc: Global, number: usize) -> Result<Text, AllocError>
    ensures { IfOk result (λ id. id ≡ spec.numbered_id number) }
{
    let id = format!(in alloc; "ris{number}")?;
    Ok(Text::from_string(id))
}

// Returns the text that the key of a record comes from: the text of the tag ID, or else of DO, or else `ris` and the number of the record.
fn id_with(
    alloc: Global,
    id: Option<&str>,
    doi: Option<&str>,
    number: usize,
) -> Result<Text, AllocError>
    ensures { IfOk result (λ text. text
        ≡ spec.id_with (option_map (λ text. text.now) id.entry) (option_map (λ text. text.now) doi.entry) number) }
{
    match (id, doi) {
        (Some(id), _) => Text::from_str(alloc, id),
        (None, Some(doi)) => Text::from_str(alloc, doi),
        (None, None) => numbered_id(alloc, number),
    }
}

// Returns the item with these lines.
#[tactic(auto, unfolding(crate::specs::RisItems::item_of_lines))]
fn item_with(
    alloc: Global,
    number: usize,
    kind: &str,
    lines: &[VariableLine],
) -> Result<GivenItem, AllocError>
    ensures { IfOk result (λ item. item ≡ spec.item_of_lines number kind.now lines.now) }
{
    Ok(GivenItem {
        key_member: Text::from_str(alloc, "ID")?,
        id: id_with(alloc, text_of(lines, "id"), text_of(lines, "DOI"), number)?,
        kind: Text::from_str(alloc, type_of_record(kind))?,
        fields: members(alloc, kind, lines)?,
    })
}

// Returns the item of a record. `number` is that of the record, from 1.
#[tactic(auto, unfolding(crate::specs::RisItems::item_of_record))]
fn item_of_record(alloc: Global, number: usize, section: &Section) -> Result<GivenItem, AllocError>
    ensures { IfOk result (λ item. item ≡ spec.item_of_record number section.now) }
{
    let kind = section.head.value.as_str();
    let lines = variable_lines(alloc, kind, section.lines.as_slice())?;
    item_with(alloc, number, kind, lines.as_slice())
}

/// Returns the items of the records among sections.
pub(crate) fn items_of(alloc: Global, sections: &[Section]) -> Result<Items<GivenItem>, AllocError>
    ensures { IfOk result (λ items. items ≡ spec.record_items 1 sections.now) }
{
    let mut items = Items::new(alloc);
    'sections: for section in sections {
        if is_record(section) {
            items.push(item_of_record(alloc, items.len() + 1, section)?)?;
        }
    }
    Ok(items)
}
