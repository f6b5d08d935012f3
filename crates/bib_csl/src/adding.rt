//! Variables with the content of their field in the table of variables.

ghost use Rattle.std.specs.Prelude.{◌≡◌, ◌++◌, OnOk};
ghost use Rattle.bib_csl.specs.Adding as spec;

use crate::fields::add_text;
use crate::item::Field;
use crate::texts::{list_text, plain_text, rich_text, rich_text_or, title_text};
use crate::variables::Variable;
use bib_entry::entry::Entry;
use bib_text::items::Items;
use std::alloc::{AllocError, Global};

// Appends a variable with the plain text of its field, unless it is empty.
#[tactic(auto, unfolding(crate::specs::Adding::given_plain))]
pub(crate) fn add_plain(
    alloc: Global,
    variable: Variable,
    entry: &Entry,
    fields: &mut Items<Field>,
) -> Result<(), AllocError>
    ensures { OnOk result (fields.new ≡ fields.old ++ spec.given_plain variable entry.now) }
{
    add_text(
        fields,
        variable,
        plain_text(alloc, entry, variable.field())?,
    )
}

// Appends a variable with the title in its field, with HTML tags, unless it is empty.
#[tactic(auto, unfolding(crate::specs::Adding::given_title))]
pub(crate) fn add_title(
    alloc: Global,
    variable: Variable,
    entry: &Entry,
    fields: &mut Items<Field>,
) -> Result<(), AllocError>
    ensures { OnOk result (fields.new ≡ fields.old ++ spec.given_title variable entry.now) }
{
    add_text(
        fields,
        variable,
        title_text(alloc, entry, variable.field())?,
    )
}

// Appends a variable with the text of its field, with HTML tags, unless it is empty.
#[tactic(auto, unfolding(crate::specs::Adding::given_rich))]
pub(crate) fn add_rich(
    alloc: Global,
    variable: Variable,
    entry: &Entry,
    fields: &mut Items<Field>,
) -> Result<(), AllocError>
    ensures { OnOk result (fields.new ≡ fields.old ++ spec.given_rich variable entry.now) }
{
    add_text(fields, variable, rich_text(alloc, entry, variable.field())?)
}

// Appends a variable with the text of its field, or of the field `other` if its own is missing, with HTML tags. Appends nothing if the text
// is empty.
#[tactic(auto, unfolding(crate::specs::Adding::given_rich_or))]
pub(crate) fn add_rich_or(
    alloc: Global,
    variable: Variable,
    entry: &Entry,
    other: &str,
    fields: &mut Items<Field>,
) -> Result<(), AllocError>
    ensures { OnOk result (fields.new ≡ fields.old ++ spec.given_rich_or variable entry.now other.now) }
{
    add_text(
        fields,
        variable,
        rich_text_or(alloc, entry, variable.field(), other)?,
    )
}

// Appends a variable with the list of texts in its field, unless it is empty.
#[tactic(auto, unfolding(crate::specs::Adding::given_listed))]
pub(crate) fn add_listed(
    alloc: Global,
    variable: Variable,
    entry: &Entry,
    fields: &mut Items<Field>,
) -> Result<(), AllocError>
    ensures { OnOk result (fields.new ≡ fields.old ++ spec.given_listed variable entry.now) }
{
    add_text(fields, variable, list_text(alloc, entry, variable.field())?)
}
