//! Types and fields that a conversion renames.

ghost use Rattle.std.specs.Prelude.{◌≡◌, IfOk, map};
ghost use Rattle.std.specs.List.{list_any};
ghost use Rattle.bib_syntax.specs.Grammar.{is_word};
ghost use Rattle.bib_syntax.specs.Views.{field_of};
ghost use Rattle.bib_tables.specs.Dialects.{kind_in};
ghost use Rattle.edit_convert.specs.Conversions as spec;
ghost use Rattle.edit_convert.specs.Tables.{lent_names, lent_text};
ghost use Rattle.edit_strings.specs.Views.{lent_texts};

use bib_syntax::raw::{Pair, is_word};
use bib_tables::dialects::Dialect;
use bib_tables::mechanics::EntryType;
use std::alloc::{AllocError, Global};

// Returns the type that a dialect uses for a type.
fn kind_in(dialect: Dialect, kind: &EntryType) -> EntryType
    ensures { result ≡ kind_in dialect kind.now }
{
    match dialect {
        Dialect::Biblatex => kind.to_biblatex(),
        Dialect::Bibtex => kind.to_bibtex(),
    }
}

// Returns whether `EntryType` has no variant for a type. BibLaTeX has types without a variant, for example `artwork`.
fn is_unknown(kind: &EntryType) -> bool
    ensures { result ≡ spec.is_unnamed_type kind.now }
{
    matches!(kind, EntryType::Unknown(_))
}

// Returns the name of the type that a dialect uses for a type, if it is another one. A type without a variant of `EntryType` is kept.
pub(crate) fn other_type(dialect: Dialect, kind: &EntryType) -> Option<&'static str>
    ensures { lent_text result ≡ spec.other_type dialect kind.now }
{
    let other = kind_in(dialect, kind);
    if is_unknown(kind) || other.name() == kind.name() {
        return None;
    }
    Some(other.name())
}

// Returns the fields that a conversion to BibTeX can rename in entries of a type, each with BibTeX's name.
fn bibtex_names(kind: &EntryType) -> &'static [(&'static str, &'static str)]
    ensures { lent_names result.now ≡ spec.other_names Dialect.Bibtex kind.now }
{
    match kind {
        EntryType::Thesis | EntryType::MastersThesis | EntryType::PhdThesis => &[
            ("institution", "school"),
            ("journaltitle", "journal"),
            ("location", "address"),
        ],
        _ => &[("journaltitle", "journal"), ("location", "address")],
    }
}

// Returns the fields that a conversion to a dialect can rename in entries of a type, each with the dialect's name.
pub(crate) fn other_names(
    dialect: Dialect,
    kind: &EntryType,
) -> &'static [(&'static str, &'static str)]
    ensures { lent_names result.now ≡ spec.other_names dialect kind.now }
{
    match dialect {
        Dialect::Biblatex => &[
            ("journal", "journaltitle"),
            ("address", "location"),
            ("school", "institution"),
        ],
        Dialect::Bibtex => bibtex_names(kind),
    }
}

// Returns whether one of these fields has this name, in any ASCII case.
pub(crate) fn has_field(fields: &[Pair<'_>], name: &str) -> bool
    ensures { result ≡ spec.is_field_there (map field_of fields.now) name.now }
{
    'fields: for field in fields {
        if is_word(field.key.v, name) {
            return true;
        }
    }
    false
}

// Returns the names of fields that are replaced in an entry, each with its new name.
pub(crate) fn replaced_names(
    alloc: Global,
    dialect: Dialect,
    kind: &EntryType,
    fields: &[Pair<'_>],
) -> Result<Vec<(&'static str, &'static str)>, AllocError>
    ensures { IfOk result (λ names. lent_names names.items ≡
        spec.free_names (map field_of fields.now) (spec.other_names dialect kind.now)) }
{
    let names = other_names(dialect, kind);
    let mut free = Vec::new(alloc);
    'rows: for row in names {
        if !has_field(fields, row.1) {
            free.push(*row)?;
        }
    }
    Ok(free)
}

// Returns whether a name is one of these, in any ASCII case.
pub(crate) fn is_one_of(names: &[&str], name: &str) -> bool
    ensures { result ≡ list_any (is_word name.now) (lent_texts names.now) }
{
    'names: for word in names {
        if is_word(name, *word) {
            return true;
        }
    }
    false
}

// Returns the second name of the first row whose first name is `name`, in any ASCII case.
pub(crate) fn other_name(names: &[(&'static str, &'static str)], name: &str) -> Option<&'static str>
    ensures { lent_text result ≡ spec.other_name (lent_names names.now) name.now }
{
    'rows: for row in names {
        if is_word(name, row.0) {
            return Some(row.1);
        }
    }
    None
}
