//! The members of an item's object, in the order of their names.

ghost use Rattle.std.specs.Prelude.{◌≡◌, OnOk, IfOk};
ghost use Rattle.serde_json.specs.Data.{put as with_member};
ghost use Rattle.bib_csl.specs.Json as json;
ghost use Rattle.bib_csl.specs.Tokens.{held_json, members_held};

use crate::item::{Content, Item};
use std::alloc::{AllocError, Global};
use std::collections::BTreeMap;

/// The value of a member of an item's JSON object.
#[derive(Clone, Copy)]
pub(crate) enum Held<'i> {
    /// The key of the item or the name of its type.
    Word(&'i str),
    /// The content of a variable.
    Whole(&'i Content),
}

/// Members by their names.
pub(crate) type Members<'i> = BTreeMap<&'i str, Held<'i>>;

// Inserts a member, and replaces one with the same name.
fn put_member<'i>(
    members: &mut Members<'i>,
    name: &'i str,
    held: Held<'i>,
) -> Result<(), AllocError>
    ensures { OnOk result (members_held members.new.entries ≡
        with_member name.now (held_json held.entry) (members_held members.old.entries)) }
{
    members.insert(name, held)?;
    Ok(())
}

// Returns the members `id` and `type` of an item.
#[tactic(auto, unfolding(crate::specs::Json::head_members))]
fn head_members(alloc: Global, item: &Item) -> Result<Members<'_>, AllocError>
    ensures { IfOk result (λ members. members_held members.entries ≡ json.head_members item.now) }
{
    let mut members = BTreeMap::new(alloc);
    put_member(&mut members, "id", Held::Word(item.id.as_str()))?;
    put_member(&mut members, "type", Held::Word(item.kind.name()))?;
    Ok(members)
}

/// Returns the members of the object of an item.
#[tactic(auto, unfolding(crate::specs::Json::with_variable))]
pub(crate) fn item_members(alloc: Global, item: &Item) -> Result<Members<'_>, AllocError>
    ensures { IfOk result (λ members. members_held members.entries ≡
        json.with_variables item.now.fields (json.head_members item.now)) }
{
    let mut members = head_members(alloc, item)?;
    'fields: for field in item.fields.as_slice() {
        put_member(
            &mut members,
            field.variable.name(),
            Held::Whole(&field.content),
        )?;
    }
    Ok(members)
}
