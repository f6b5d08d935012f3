//! Types of BibTeX that BibLaTeX has as other types with a value of the field `type`.

ghost use Rattle.std.specs.Prelude.{◌≡◌, map};
ghost use Rattle.bib_chunks.specs.Formatted.{is_break};
ghost use Rattle.bib_tables.specs.declared.mechanics.EntryType.{EntryType};
ghost use Rattle.bib_syntax.specs.Views.{field_of};
ghost use Rattle.edit_convert.specs.Conversions as conversions;
ghost use Rattle.edit_convert.specs.Tables.{lent_text, printed_of};
ghost use Rattle.edit_convert.specs.Types as spec;

use crate::fields::{count_named, first_named, single_text};
use crate::names::has_field;
use bib_syntax::raw::Pair;
use bib_tables::dialects::Dialect;
use bib_tables::mechanics::EntryType;

// A type of BibTeX, and the text that its standard styles print for it.
#[derive(Clone, Copy)]
pub(crate) struct Printed {
    pub(crate) name: &'static str,
    pub(crate) text: &'static str,
}

// Returns the value of `type` that BibLaTeX uses for a type of BibTeX that it merges with others.
fn type_value(kind: &EntryType) -> Option<&'static str>
    ensures { lent_text result ≡ spec.type_value kind.now }
{
    match kind {
        EntryType::MastersThesis => Some("mathesis"),
        EntryType::PhdThesis => Some("phdthesis"),
        EntryType::TechReport => Some("techreport"),
        _ => None,
    }
}

// Returns the type of BibTeX that a key in `type` means in a thesis.
fn thesis_by_key(key: &str) -> Option<Printed>
    ensures { printed_of result ≡ spec.type_by_key EntryType.Thesis key.now }
{
    match key {
        "mathesis" => Some(Printed {
            name: "mastersthesis",
            text: "Master's thesis",
        }),
        "phdthesis" => Some(Printed {
            name: "phdthesis",
            text: "PhD thesis",
        }),
        _ => None,
    }
}

// Returns the type of BibTeX that a key in `type` means in a report.
fn report_by_key(key: &str) -> Option<Printed>
    ensures { printed_of result ≡ spec.type_by_key EntryType.Report key.now }
{
    match key {
        "techreport" => Some(Printed {
            name: "techreport",
            text: "Technical Report",
        }),
        _ => None,
    }
}

// Returns the type of BibTeX that a type and a key in `type` mean.
fn type_by_key(kind: &EntryType, key: &str) -> Option<Printed>
    ensures { printed_of result ≡ spec.type_by_key kind.now key.now }
{
    match kind {
        EntryType::Thesis | EntryType::MastersThesis | EntryType::PhdThesis => thesis_by_key(key),
        EntryType::Report | EntryType::TechReport => report_by_key(key),
        _ => None,
    }
}

// Returns whether a byte ends a line.
fn is_line_end(byte: u8) -> bool
    ensures { result ≡ is_break byte }
{
    byte == b'\n' || byte == b'\r'
}

// Returns whether a tab occurs in the first line of a text.
fn has_tab_in_first_line(text: &str) -> bool
    ensures { result ≡ spec.has_tab_in_first_line text.now }
{
    'bytes: for byte in text.as_bytes() {
        if is_line_end(*byte) {
            return false;
        }
        if *byte == b'\t' {
            return true;
        }
    }
    false
}

// Returns the key that BibLaTeX finds in the text of a field `type`: without the white space around it, unless a tab occurs in the first
// line.
fn key_in(text: &str) -> &str
    ensures { result.now ≡ spec.key_in text.now }
{
    if has_tab_in_first_line(text) {
        return text;
    }
    text.trim_ascii()
}

// Returns the type of BibTeX that an entry's type and its field `type` mean, if it has one such field and they mean one.
fn read_type(kind: &EntryType, fields: &[Pair<'_>]) -> Option<Printed>
    ensures { printed_of result ≡ conversions.read_type kind.now (map field_of fields.now) }
{
    if count_named(fields, "type") != 1 {
        return None;
    }
    let field = first_named(fields, "type")?;
    let value = single_text(&field.value.v)?;
    type_by_key(kind, key_in(value))
}

// Returns the type of BibTeX that an entry gets by its field `type`, if there is one; for BibLaTeX there is none.
pub(crate) fn printed_type(
    dialect: Dialect,
    kind: &EntryType,
    fields: &[Pair<'_>],
) -> Option<Printed>
    ensures { printed_of result ≡ conversions.printed_type dialect kind.now (map field_of fields.now) }
{
    match dialect {
        Dialect::Biblatex => None,
        Dialect::Bibtex => read_type(kind, fields),
    }
}

// Returns the value of the field `type` that is added to an entry for BibLaTeX, if the type needs one and the entry has no such field.
pub(crate) fn missing_type(
    dialect: Dialect,
    kind: &EntryType,
    fields: &[Pair<'_>],
) -> Option<&'static str>
    ensures { lent_text result ≡ conversions.missing_type dialect kind.now (map field_of fields.now) }
{
    match dialect {
        Dialect::Biblatex => {
            if has_field(fields, "type") {
                None
            } else {
                type_value(kind)
            }
        }
        Dialect::Bibtex => None,
    }
}
