//! The item of an entry.

ghost use Rattle.std.specs.Prelude.{◌≡◌, ◌++◌, OnOk, IfOk};
ghost use Rattle.bib_csl.specs.Items.{has_event, type_of_entry, work_fields, detail_fields, item_fields, item_of_entry};

use crate::dates::add_dates;
use crate::identifiers::{add_archive, add_identifiers};
use crate::item::{Field, Item};
use crate::item_types::ItemType;
use crate::notes::add_notes;
use crate::numbers::{add_pages, add_volume};
use crate::people::add_people;
use crate::publishing::add_publishing;
use crate::texts::plain_text;
use crate::titles::{add_container, add_event, add_titles};
use crate::types::item_type_of;
use bib_entry::entry::Entry;
use bib_text::items::Items;
use std::alloc::{AllocError, Global};

// Most items have no more variables.
const USUAL_FIELDS: usize = 12;

// Returns whether an entry has the title or the place of an event, such as a conference.
#[tactic(auto, unfolding(crate::specs::Items::has_event))]
fn has_event(entry: &Entry) -> bool
    ensures { result ≡ has_event entry.now }
{
    entry.get("eventtitle").is_some() || entry.get("venue").is_some()
}

// Returns the type of the item of an entry.
#[tactic(auto, unfolding(crate::specs::Items::type_of_entry))]
fn type_of_entry(alloc: Global, entry: &Entry) -> Result<ItemType, AllocError>
    ensures { IfOk result (λ kind. kind ≡ type_of_entry entry.now) }
{
    let subtype = plain_text(alloc, entry, "entrysubtype")?;
    Ok(item_type_of(&entry.entry_type, subtype.as_str(), has_event(entry)))
}

// Appends the variables for the titles, the container, the event, the publication and the genre of an item.
#[tactic(auto, unfolding(crate::specs::Items::work_fields))]
fn add_work(
    alloc: Global,
    kind: ItemType,
    entry: &Entry,
    fields: &mut Items<Field>,
) -> Result<(), AllocError>
    ensures { OnOk result (fields.new ≡ fields.old ++ work_fields kind entry.now) }
{
    add_titles(alloc, kind, entry, fields)?;
    add_container(alloc, kind, entry, fields)?;
    add_event(alloc, entry, fields)?;
    add_publishing(alloc, entry, fields)
}

// Appends the variables for the numbers, the pages, the identifiers, the archive and the notes of an item.
#[tactic(auto, unfolding(crate::specs::Items::detail_fields))]
fn add_details(
    alloc: Global,
    kind: ItemType,
    entry: &Entry,
    fields: &mut Items<Field>,
) -> Result<(), AllocError>
    ensures { OnOk result (fields.new ≡ fields.old ++ detail_fields kind entry.now) }
{
    add_volume(alloc, kind, entry, fields)?;
    add_pages(alloc, entry, fields)?;
    add_identifiers(alloc, entry, fields)?;
    add_archive(alloc, entry, fields)?;
    add_notes(alloc, entry, fields)
}

// Returns the variables of the item of an entry.
#[tactic(auto, unfolding(crate::specs::Items::item_fields))]
fn item_fields(alloc: Global, kind: ItemType, entry: &Entry) -> Result<Items<Field>, AllocError>
    ensures { IfOk result (λ fields. fields ≡ item_fields kind entry.now) }
{
    let mut fields = Items::from_vec(Vec::with_capacity(alloc, USUAL_FIELDS)?);
    add_work(alloc, kind, entry, &mut fields)?;
    add_details(alloc, kind, entry, &mut fields)?;
    add_people(alloc, kind, entry, &mut fields)?;
    add_dates(alloc, entry, &mut fields)?;
    Ok(fields)
}

/// Returns the item of an entry. The only error is out of memory.
#[tactic(auto, unfolding(crate::specs::Items::item_of_entry))]
pub fn item_of(alloc: Global, entry: &Entry) -> Result<Item, AllocError>
    ensures { IfOk result (λ item. item ≡ item_of_entry entry.now) }
{
    let kind = type_of_entry(alloc, entry)?;
    Ok(Item {
        id: entry.key.clone()?,
        kind,
        fields: item_fields(alloc, kind, entry)?,
    })
}
