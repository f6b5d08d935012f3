//! The changes of an entry.

ghost use Rattle.std.specs.Prelude.{◌≡◌, IfOk, map};
ghost use Rattle.std.specs.Option.{option_map};
ghost use Rattle.std.specs.String.{string_bytes};
ghost use Rattle.bib_syntax.specs.Views.{field_of};
ghost use Rattle.edit_convert.specs.Conversions as spec;
ghost use Rattle.edit_convert.specs.Tables.{lent_names, printed_of};

use crate::fields::divides_date;
use crate::joining::joined_date;
use crate::names::replaced_names;
use crate::types::{Printed, printed_type};
use bib_syntax::raw::Pair;
use bib_tables::dialects::Dialect;
use bib_tables::mechanics::EntryType;
use std::alloc::{AllocError, Global};

// The changes of an entry. `defines` is whether the file defines the abbreviation of a month. `names` are names of fields with their new
// names, and `printed` is the type of BibTeX that its field `type` means. `divides` is whether its date may be divided, and `joined` is
// the text of the date that its parts are joined to.
#[derive(Drop)]
pub(crate) struct Changes {
    pub(crate) defines: bool,
    pub(crate) names: Vec<(&'static str, &'static str)>,
    pub(crate) printed: Option<Printed>,
    pub(crate) divides: bool,
    pub(crate) joined: Option<String>,
}

// Returns the changes of an entry. `defines` is whether the file defines the abbreviation of a month.
pub(crate) fn changes_of(
    alloc: Global,
    dialect: Dialect,
    defines: bool,
    text: &str,
    kind: &EntryType,
    fields: &[Pair<'_>],
) -> Result<Changes, AllocError>
    ensures defines { IfOk result (λ changes. changes.defines ≡ defines) }
    ensures names { IfOk result (λ changes. lent_names changes.names.items ≡
        spec.free_names (map field_of fields.now) (spec.other_names dialect kind.now)) }
    ensures printed { IfOk result (λ changes. printed_of changes.printed ≡ spec.printed_type dialect kind.now (map field_of fields.now)) }
    ensures divides { IfOk result (λ changes. changes.divides ≡ spec.divides_date dialect (map field_of fields.now)) }
    ensures joined { IfOk result (λ changes. option_map string_bytes changes.joined ≡
        spec.joined_date dialect defines text.now (map field_of fields.now)) }
{
    Ok(Changes {
        defines,
        names: replaced_names(alloc, dialect, kind, fields)?,
        printed: printed_type(dialect, kind, fields),
        divides: divides_date(dialect, fields),
        joined: joined_date(alloc, dialect, defines, text, fields)?,
    })
}
