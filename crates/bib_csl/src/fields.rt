//! Variables of an item, unless they are empty.

ghost use Rattle.std.specs.Prelude.{◌≡◌, ◌++◌, OnOk};
ghost use Rattle.bib_csl.specs.Fields.{given, given_people, given_date};

use crate::item::{Content, Field, ItemDate, Name};
use crate::variables::Variable;
use bib_text::items::Items;
use bib_text::text::Text;
use std::alloc::AllocError;

// Appends a variable with a text, unless the text is empty.
#[tactic(auto, unfolding(crate::specs::Fields::given))]
pub(crate) fn add_text(
    fields: &mut Items<Field>,
    variable: Variable,
    text: Text,
) -> Result<(), AllocError>
    ensures { OnOk result (fields.new ≡ fields.old ++ given variable text) }
{
    if text.is_empty() {
        return Ok(());
    }
    fields.push(Field {
        variable,
        content: Content::Text(text),
    })?;
    Ok(())
}

// Appends a variable with names, unless there are none.
#[tactic(auto, unfolding(crate::specs::Fields::given_people))]
pub(crate) fn add_names(
    fields: &mut Items<Field>,
    variable: Variable,
    names: Items<Name>,
) -> Result<(), AllocError>
    ensures { OnOk result (fields.new ≡ fields.old ++ given_people variable names) }
{
    if names.is_empty() {
        return Ok(());
    }
    fields.push(Field {
        variable,
        content: Content::Names(names),
    })?;
    Ok(())
}

// Appends a variable with a date, if there is one.
#[tactic(auto, unfolding(crate::specs::Fields::given_date))]
pub(crate) fn add_date(
    fields: &mut Items<Field>,
    variable: Variable,
    date: Option<ItemDate>,
) -> Result<(), AllocError>
    ensures { OnOk result (fields.new ≡ fields.old ++ given_date variable date) }
{
    let Some(date) = date else {
        return Ok(());
    };
    fields.push(Field {
        variable,
        content: Content::Date(date),
    })?;
    Ok(())
}
