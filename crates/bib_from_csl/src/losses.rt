//! The members of an item that its entry lacks or changes.

ghost use Rattle.std.specs.Prelude.{◌≡◌, ◌↔◌, ◌++◌, OnOk, IfOk, IsTrue};
ghost use Rattle.std.specs.List.{flat_map};
ghost use Rattle.std.specs.Option.{option_copied};
ghost use Rattle.bib_from_csl.specs.Losses as spec;

use crate::given::{Given, GivenItem};
use crate::variables::field_of;
use crate::writing::{Work, is_empty_content, work_of};
use bib_csl::item::{Content, Field, Item};
use bib_csl::making::item_of;
use bib_entry::entry::Entry;
use bib_text::items::Items;
use bib_text::text::Text;
use std::alloc::{AllocError, Global};

/// A member of an item that its entry lacks or changes.
#[derive(Debug, Drop)]
pub struct Loss {
    /// The text that the key of the item's entry comes from.
    pub id: Text,
    /// The name of the member.
    pub name: Text,
    /// The kind of loss.
    pub kind: LossKind,
}

/// The kind of loss of a member.
#[derive(Debug, Clone, Copy, PartialEq, Eq)]
pub enum LossKind {
    /// No field contains it.
    NoField,
    /// The entry can contain it, but the item that the entry is converted back to has another value, or none.
    Changed,
    /// A field contains the part that a variable can have, but no field contains the rest.
    Partly,
}

// Returns the content of the variable with a name.
fn content_of<'f>(fields: &'f [Field], name: &str) -> Option<&'f Content>
    ensures { option_copied result ≡ spec.content_of name.now fields.now }
{
    'fields: for field in fields {
        if field.variable.name() == name {
            return Some(&field.content);
        }
    }
    None
}

// Returns whether the entry of an item with these properties has a field for the variable with a name.
fn has_field(work: &Work, name: &str) -> bool
    ensures { result ≡ spec.is_fielded work.now name.now }
{
    name == "language" || !field_of(work.kind, work.in_work, name).is_empty()
}

// Returns whether the variable with a name has this content.
fn holds(fields: &[Field], name: &str, content: &Content) -> bool
    ensures { result ≡ spec.holds_content fields.now name.now content.now }
{
    match content_of(fields, name) {
        Some(found) => found == content,
        None => false,
    }
}

// Returns the loss of a member with a content.
#[tactic(auto, unfolding(crate::specs::Losses::content_loss))]
fn content_loss(
    work: &Work,
    fields: &[Field],
    name: &str,
    content: &Content,
    is_whole: bool,
) -> Option<LossKind>
    ensures { result ≡ spec.content_loss work.now fields.now name.now content.now is_whole }
{
    if is_empty_content(content) {
        return None;
    }
    if !has_field(work, name) {
        return Some(LossKind::NoField);
    }
    if !holds(fields, name, content) {
        return Some(LossKind::Changed);
    }
    partly_unless(is_whole)
}

// Returns the loss of a member whose content is in a field: `Partly` if a part of the value is missing from the content.
fn partly_unless(is_whole: bool) -> Option<LossKind>
    ensures { result ≡ spec.partly_unless is_whole }
{
    if is_whole {
        return None;
    }
    Some(LossKind::Partly)
}

// Returns the loss of a member without a content: `NoField`, unless `is_whole` says that nothing is missing.
fn no_field_unless(is_whole: bool) -> Option<LossKind>
    ensures { result ≡ spec.no_field_unless is_whole }
{
    if is_whole {
        return None;
    }
    Some(LossKind::NoField)
}

// Returns the loss of a member. `fields` has the variables of the item that the entry is converted back to.
fn loss_of(work: &Work, fields: &[Field], given: &Given) -> Option<LossKind>
    ensures { result ≡ spec.loss_of work.now fields.now given.now }
{
    match &given.content {
        Some(content) => content_loss(work, fields, given.name.as_str(), content, given.is_whole),
        None => no_field_unless(given.is_whole),
    }
}

// Appends a loss, if there is one.
fn push_loss(
    alloc: Global,
    losses: &mut Items<Loss>,
    id: &str,
    name: &str,
    kind: Option<LossKind>,
) -> Result<(), AllocError>
    ensures { OnOk result (losses.new ≡ losses.old ++ spec.loss id.now name.now kind) }
{
    let Some(kind) = kind else {
        return Ok(());
    };
    losses.push(Loss {
        id: Text::from_str(alloc, id)?,
        name: Text::from_str(alloc, name)?,
        kind,
    })?;
    Ok(())
}

// Returns the loss of a text that is parsed as `read`.
fn change_of(given: &str, read: &str) -> Option<LossKind>
    ensures { result ≡ spec.text_loss given.now read.now }
{
    if given == read {
        return None;
    }
    Some(LossKind::Changed)
}

// Appends the losses of the members of `item`. `read` is the item that its entry is converted back to.
fn push_members(
    alloc: Global,
    losses: &mut Items<Loss>,
    work: &Work,
    item: &GivenItem,
    read: &Item,
) -> Result<(), AllocError>
    ensures { OnOk result (losses.new ≡ losses.old ++ flat_map (spec.member_loss work.now item.now.id read.now.fields) item.now.fields) }
{
    'members: for given in item.fields.as_slice() {
        let kind = loss_of(work, read.fields.as_slice(), given);
        push_loss(alloc, losses, item.id.as_str(), given.name.as_str(), kind)?;
    }
    Ok(())
}

// Appends the losses of `item`. `read` is the item that its entry is converted back to.
#[tactic(auto, unfolding(crate::specs::Losses::item_losses))]
fn push_item(
    alloc: Global,
    losses: &mut Items<Loss>,
    item: &GivenItem,
    read: &Item,
) -> Result<(), AllocError>
    ensures { OnOk result (losses.new ≡ losses.old ++ spec.item_losses item.now read.now) }
{
    let id = item.id.as_str();
    let work = work_of(item);
    let key_member = item.key_member.as_str();
    push_loss(
        alloc,
        losses,
        id,
        key_member,
        change_of(id, read.id.as_str()),
    )?;
    push_loss(
        alloc,
        losses,
        id,
        "type",
        change_of(item.kind.as_str(), read.kind.name()),
    )?;
    push_members(alloc, losses, &work, item, read)
}

// Appends the losses of `item`. `entry` is its entry; without one, the only loss is `NoField` for the member that the key
// comes from.
fn push_losses(
    alloc: Global,
    losses: &mut Items<Loss>,
    item: &GivenItem,
    entry: Option<&Entry>,
) -> Result<(), AllocError>
    ensures { OnOk result (losses.new ≡ losses.old ++ spec.losses_in item.now (option_copied entry.entry)) }
{
    match entry {
        Some(entry) => {
            let read = item_of(alloc, entry)?;
            push_item(alloc, losses, item, &read)
        }
        None => push_loss(
            alloc,
            losses,
            item.id.as_str(),
            item.key_member.as_str(),
            Some(LossKind::NoField),
        ),
    }
}

/// Returns the losses of items. Their entries are in the same order; missing ones are those of the last items.
pub fn all_losses(
    alloc: Global,
    items: &[GivenItem],
    entries: &[Entry],
) -> Result<Items<Loss>, AllocError>
    ensures { IfOk result (λ losses. losses ≡ spec.all_losses items.now entries.now) }
{
    let mut losses = Items::new(alloc);
    let mut left = entries;
    'items: for item in items {
        push_losses(alloc, &mut losses, item, left.first())?;
        left = after_first(left);
    }
    Ok(losses)
}

// Returns the entries after the first.
fn after_first(entries: &[Entry]) -> &[Entry]
    ensures { result.now ≡ spec.after_first_entry entries.now }
{
    match entries {
        [_, rest @ ..] => rest,
        [] => entries,
    }
}
