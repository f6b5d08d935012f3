//! The fields that BibLaTeX requires of an entry, by its type: the mandatory fields of its default data model.

ghost use Rattle.std.specs.Prelude.{◌≡◌, ◌++◌, IfOk, OnOk};
ghost use Rattle.bib_tables.specs.Requirements.{texts};
ghost use Rattle.bib_syntax.specs.Views.{entry_reading_of};
ghost use Rattle.bib_findings.specs.DemandRows.{demand_texts, demands_in};
ghost use Rattle.bib_findings.specs.Demands as spec;
ghost use Rattle.bib_findings.specs.Reported.{reported_missing};

use crate::fields::is_empty_value;
use crate::nearest::is_among;
use crate::places::{has_own_field, last_named};
use bib_entry::entry::Entry;
use bib_syntax::raw::RawEntry;
use bib_text::spanned::Spanned;
use std::alloc::{AllocError, Global};

// Types, and the requirements of entries with one of them, besides a date. A requirement is the fields of which an entry needs one.
struct Row {
    types: &'static [&'static str],
    demands: &'static [&'static [&'static str]],
}

static ROWS: [Row; 14] = [
    Row {
        types: &["article"],
        demands: &[&["author"], &["title"], &["journaltitle", "journal"]],
    },
    Row {
        types: &["book", "mvbook"],
        demands: &[&["author", "editor"], &["title"]],
    },
    Row {
        types: &["inbook", "bookinbook", "suppbook"],
        demands: &[&["author"], &["title"], &["booktitle"]],
    },
    Row {
        types: &["booklet"],
        demands: &[&["author", "editor"], &["title"]],
    },
    Row {
        types: &[
            "collection",
            "reference",
            "mvcollection",
            "mvreference",
            "periodical",
        ],
        demands: &[&["editor"], &["title"]],
    },
    Row {
        types: &["incollection", "suppcollection", "inreference"],
        demands: &[&["author"], &["editor"], &["title"], &["booktitle"]],
    },
    Row {
        types: &[
            "dataset",
            "manual",
            "misc",
            "software",
            "proceedings",
            "mvproceedings",
        ],
        demands: &[&["title"]],
    },
    Row {
        types: &["online", "electronic", "www"],
        demands: &[&["title"], &["url", "doi", "eprint"]],
    },
    Row {
        types: &["patent"],
        demands: &[&["author"], &["title"], &["number"]],
    },
    Row {
        types: &["inproceedings", "conference"],
        demands: &[&["author"], &["title"], &["booktitle"]],
    },
    Row {
        types: &["report", "thesis"],
        demands: &[
            &["author"],
            &["title"],
            &["type"],
            &["institution", "school"],
        ],
    },
    Row {
        types: &["techreport", "mastersthesis", "phdthesis"],
        demands: &[&["author"], &["title"], &["institution", "school"]],
    },
    Row {
        types: &["unpublished"],
        demands: &[&["author"], &["title"]],
    },
    Row {
        types: &["set"],
        demands: &[&["entryset"]],
    },
];

// The types that require a date, or a year.
static DATED_TYPES: [&str; 30] = [
    "article",
    "book",
    "mvbook",
    "inbook",
    "bookinbook",
    "suppbook",
    "booklet",
    "collection",
    "mvcollection",
    "incollection",
    "suppcollection",
    "manual",
    "misc",
    "online",
    "electronic",
    "www",
    "patent",
    "periodical",
    "suppperiodical",
    "proceedings",
    "inproceedings",
    "conference",
    "reference",
    "inreference",
    "report",
    "techreport",
    "thesis",
    "mastersthesis",
    "phdthesis",
    "unpublished",
];

// Returns the requirements in the first of these rows with this type, or none.
fn demands_in(rows: &[Row], entry_type: &str) -> &'static [&'static [&'static str]]
    ensures { demand_texts result.now ≡ demands_in rows.now entry_type.now }
{
    'rows: for row in rows {
        if is_among(row.types, entry_type) {
            return row.demands;
        }
    }
    &[]
}

// Returns the requirements of a type, besides a date.
fn demands_of(entry_type: &str) -> &'static [&'static [&'static str]]
    ensures { demand_texts result.now ≡ spec.demands_of entry_type.now }
{
    demands_in(&ROWS, entry_type)
}

// Returns the requirement of a date, if a type requires one.
fn date_demand(entry_type: &str) -> &'static [&'static [&'static str]]
    ensures { demand_texts result.now ≡ spec.date_demand entry_type.now }
{
    if is_among(&DATED_TYPES, entry_type) {
        &[&["year", "date"]]
    } else {
        &[]
    }
}

// Returns whether an entry has a value of a field: its last field of this name in the file isn't empty, or it has none there and inherits
// the field.
fn has_value(said: &Spanned<RawEntry<'_>>, entry: &Entry, name: &str) -> bool
    ensures { result ≡ spec.has_value (entry_reading_of said.now) entry.now name.now }
{
    match last_named(said.v.fields.as_slice(), name) {
        Some(field) => !is_empty_value(field),
        None => entry.fields.get(name).is_some(),
    }
}

// Returns whether an entry has a value of one of these fields.
fn is_met(said: &Spanned<RawEntry<'_>>, entry: &Entry, demand: &[&'static str]) -> bool
    ensures { result ≡ spec.is_met (entry_reading_of said.now) entry.now (texts demand.now) }
{
    'names: for name in demand {
        if has_value(said, entry, name) {
            return true;
        }
    }
    false
}

// Returns the first field of a requirement.
fn leading_field(demand: &[&'static str]) -> &'static str
    ensures { result.now ≡ spec.leading_field (texts demand.now) }
{
    match demand {
        [name, ..] => *name,
        [] => "",
    }
}

// Returns the field that a finding names for a requirement: the first that the entry has in the file, or else the first.
fn demanded_field(said: &Spanned<RawEntry<'_>>, demand: &[&'static str]) -> &'static str
    ensures { result.now ≡ spec.demanded_field (entry_reading_of said.now) (texts demand.now) }
{
    'names: for name in demand {
        if has_own_field(said, name) {
            return *name;
        }
    }
    leading_field(demand)
}

// Appends the fields that findings name for those of the requirements that an entry doesn't meet.
fn push_unmet(
    missing: &mut Vec<&'static str>,
    said: &Spanned<RawEntry<'_>>,
    entry: &Entry,
    demands: &[&'static [&'static str]],
) -> Result<(), AllocError>
    ensures { OnOk result (texts missing.new.items ≡ texts missing.old.items
        ++ spec.unmet_fields (entry_reading_of said.now) entry.now (demand_texts demands.now)) }
{
    'demands: for demand in demands {
        if !is_met(said, entry, demand) {
            missing.push(demanded_field(said, demand))?;
        }
    }
    Ok(())
}

// Returns the fields that findings name for the requirements that an entry doesn't meet.
fn missing_fields(
    alloc: Global,
    said: &Spanned<RawEntry<'_>>,
    entry: &Entry,
) -> Result<Vec<&'static str>, AllocError>
    ensures { IfOk result (λ missing. texts missing.items ≡ spec.missing_fields (entry_reading_of said.now) entry.now) }
{
    let entry_type = said.v.kind.v;
    let mut missing: Vec<&'static str> = Vec::new(alloc);
    push_unmet(&mut missing, said, entry, demands_of(entry_type))?;
    push_unmet(&mut missing, said, entry, date_demand(entry_type))?;
    Ok(missing)
}

/// Returns the missing fields that are reported: none if fields of the entry may be lost.
pub(crate) fn reported_missing(
    alloc: Global,
    may_lack: bool,
    said: &Spanned<RawEntry<'_>>,
    entry: &Entry,
) -> Result<Vec<&'static str>, AllocError>
    ensures { IfOk result (λ missing. texts missing.items ≡ reported_missing may_lack (entry_reading_of said.now) entry.now) }
{
    if may_lack {
        return Ok(Vec::new(alloc));
    }
    missing_fields(alloc, said, entry)
}
