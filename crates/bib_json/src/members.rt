//! Members of objects of JSON.

ghost use Rattle.std.specs.Prelude.{◌≡◌, OnOk, Some};
ghost use Rattle.std.specs.Option.{option_map};
ghost use Rattle.serde_json.specs.Data.{put as with_member, string};
ghost use Rattle.serde_json.specs.View.{view, members_view};
ghost use Rattle.bib_json.specs.Objects.{with_given};

use serde_json::{Map, Value};
use std::alloc::{AllocError, Global};

/// Inserts a member with a value, if there is one.
pub(crate) fn put_given(
    members: &mut Map<String, Value>,
    alloc: Global,
    name: &str,
    value: Option<Value>,
) -> Result<(), AllocError>
    ensures { OnOk result (members_view members.new.entries ≡
        with_given name.now (option_map view value) (members_view members.old.entries)) }
{
    if let Some(value) = value {
        serde_json::put(members, alloc, name, value)?;
    }
    Ok(())
}

/// Inserts a member with a text.
pub(crate) fn put_text(
    members: &mut Map<String, Value>,
    alloc: Global,
    name: &str,
    text: &str,
) -> Result<(), AllocError>
    ensures { OnOk result (members_view members.new.entries ≡
        with_member name.now (string text.now) (members_view members.old.entries)) }
{
    let value = Value::try_from_str(alloc, text)?;
    serde_json::put(members, alloc, name, value)
}
