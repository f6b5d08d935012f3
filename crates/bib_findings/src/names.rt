//! Field names that BibLaTeX knows, and findings of fields with a misspelled one.

ghost use Rattle.std.specs.Prelude.{◌≡◌, ◌++◌, bytes_eq, IfOk, OnOk, option_copied};
ghost use Rattle.std.specs.BTreeMap.{get_by_text};
ghost use Rattle.std.specs.List.{list_any};
ghost use Rattle.bib_syntax.specs.Views.{entry_reading_of, field_of};
ghost use Rattle.bib_findings.specs.Met.{AreFieldNames, IsFieldName, frequent_fields};
ghost use Rattle.bib_findings.specs.Names as spec;
ghost use Rattle.bib_findings.specs.Names.{misspelled_findings, misspelled_of};

use crate::codes::Code;
use crate::finding::Finding;
use crate::foreign::{begins_with, is_foreign};
use crate::nearest::{is_among, is_one_of, suggestion, unknown_message};
use bib_syntax::raw::{Pair, RawEntry};
use bib_text::spanned::Spanned;
use bib_text::text::Text;
use std::alloc::{AllocError, Global};
use std::collections::BTreeMap;

// The fields of BibLaTeX's default data model (manual, 2.2), without the custom ones. Also the names that BibLaTeX accepts from BibTeX, and
// the parts of dates.
static KNOWN_FIELDS: [&str; 190] = [
    "abstract",
    "addendum",
    "address",
    "afterword",
    "annotation",
    "annotator",
    "annote",
    "archiveprefix",
    "author",
    "authortype",
    "bookauthor",
    "bookpagination",
    "booksubtitle",
    "booktitle",
    "booktitleaddon",
    "chapter",
    "commentator",
    "crossref",
    "date",
    "day",
    "doi",
    "edition",
    "editor",
    "editora",
    "editoratype",
    "editorb",
    "editorbtype",
    "editorc",
    "editorctype",
    "editortype",
    "eid",
    "endday",
    "endmonth",
    "endyear",
    "entryset",
    "entrysubtype",
    "eprint",
    "eprintclass",
    "eprinttype",
    "eventdate",
    "eventday",
    "eventmonth",
    "eventtitle",
    "eventtitleaddon",
    "eventyear",
    "execute",
    "file",
    "foreword",
    "gender",
    "holder",
    "howpublished",
    "hyphenation",
    "ids",
    "indexsorttitle",
    "indextitle",
    "institution",
    "introduction",
    "isan",
    "isbn",
    "ismn",
    "isrn",
    "issn",
    "issue",
    "issuesubtitle",
    "issuetitle",
    "issuetitleaddon",
    "iswc",
    "journal",
    "journalsubtitle",
    "journaltitle",
    "journaltitleaddon",
    "key",
    "keywords",
    "label",
    "langid",
    "langidopts",
    "language",
    "library",
    "location",
    "mainsubtitle",
    "maintitle",
    "maintitleaddon",
    "month",
    "nameaddon",
    "note",
    "number",
    "options",
    "organization",
    "origdate",
    "origday",
    "origlanguage",
    "origlocation",
    "origmonth",
    "origpublisher",
    "origtitle",
    "origyear",
    "pages",
    "pagetotal",
    "pagination",
    "part",
    "pdf",
    "presort",
    "primaryclass",
    "publisher",
    "pubstate",
    "related",
    "relatedoptions",
    "relatedstring",
    "relatedtype",
    "reprinttitle",
    "school",
    "series",
    "shortauthor",
    "shorteditor",
    "shorthand",
    "shorthandintro",
    "shortjournal",
    "shortseries",
    "shorttitle",
    "sortkey",
    "sortname",
    "sortshorthand",
    "sorttitle",
    "sortyear",
    "subtitle",
    "title",
    "titleaddon",
    "translator",
    "type",
    "url",
    "urldate",
    "urlday",
    "urlmonth",
    "urlyear",
    "venue",
    "version",
    "volume",
    "volumes",
    "xdata",
    "xref",
    "year",
    "hour",
    "minute",
    "second",
    "timezone",
    "yeardivision",
    "endhour",
    "endminute",
    "endsecond",
    "endtimezone",
    "endyeardivision",
    "eventhour",
    "eventminute",
    "eventsecond",
    "eventtimezone",
    "eventyeardivision",
    "eventendyear",
    "eventendmonth",
    "eventendday",
    "eventendhour",
    "eventendminute",
    "eventendsecond",
    "eventendtimezone",
    "eventendyeardivision",
    "orighour",
    "origminute",
    "origsecond",
    "origtimezone",
    "origyeardivision",
    "origendyear",
    "origendmonth",
    "origendday",
    "origendhour",
    "origendminute",
    "origendsecond",
    "origendtimezone",
    "origendyeardivision",
    "urlhour",
    "urlminute",
    "urlsecond",
    "urltimezone",
    "urlyeardivision",
    "urlendyear",
    "urlendmonth",
    "urlendday",
    "urlendhour",
    "urlendminute",
    "urlendsecond",
    "urlendtimezone",
    "urlendyeardivision",
];

// The fields of BibLaTeX's data model whose meaning a style chooses (manual, 2.2.4). No name is taken for a misspelling of one.
static CUSTOM_FIELDS: [&str; 21] = [
    "lista",
    "listb",
    "listc",
    "listd",
    "liste",
    "listf",
    "namea",
    "nameatype",
    "nameb",
    "namebtype",
    "namec",
    "namectype",
    "usera",
    "userb",
    "userc",
    "userd",
    "usere",
    "userf",
    "verba",
    "verbb",
    "verbc",
];

// Frequent names of fields that BibLaTeX knows. Comparing a name with these takes less time than searching the cache for it.
static FREQUENT_FIELDS: [&str; 16] = [
    "author",
    "title",
    "year",
    "date",
    "pages",
    "journal",
    "volume",
    "number",
    "publisher",
    "doi",
    "url",
    "booktitle",
    "address",
    "month",
    "abstract",
    "editor",
];

// Returns whether the text after a plus sign in a field name marks a data annotation.
fn is_annotation_mark(mark: &str) -> bool
    ensures { result ≡ spec.is_annotation_mark mark.now }
{
    mark.eq_ignore_ascii_case("an") || begins_with("an:", mark)
}

// Returns the name of the field that a field is about: without the mark, if the field is a data annotation.
fn annotated_name(name: &str) -> &str
    ensures { result.now ≡ spec.annotated_name name.now }
{
    match name.split_once('+') {
        Some((field, mark)) if is_annotation_mark(mark) => field,
        _ => name,
    }
}

// Returns whether a name is one of `KNOWN_FIELDS` or `CUSTOM_FIELDS`, in any ASCII case.
fn is_in_model(name: &str) -> bool
    ensures { result ≡ spec.is_in_model name.now }
{
    is_among(&KNOWN_FIELDS, name) || is_among(&CUSTOM_FIELDS, name)
}

// Returns whether BibLaTeX knows a field of this name, in any ASCII case.
fn is_known_field(name: &str) -> bool
    ensures { result ≡ spec.is_known_field name.now }
{
    is_in_model(annotated_name(name))
}

/// The classification of a field name.
#[derive(Debug, Clone, Copy, PartialEq, Eq)]
pub(crate) enum FieldName {
    /// Another program uses this name.
    Foreign,
    /// BibLaTeX knows this name.
    Known,
    /// Any other name, with the known name that it may mean, if there is one.
    Unknown(Option<&'static str>),
}

// Classifies a field name.
fn look_up(alloc: Global, name: &str) -> Result<FieldName, AllocError>
    ensures { IfOk result (IsFieldName name.now) }
{
    if is_foreign(name) {
        return Ok(FieldName::Foreign);
    }
    if is_known_field(name) {
        return Ok(FieldName::Known);
    }
    let lowercase = name.to_ascii_lowercase(alloc)?;
    let meant = suggestion(alloc, &KNOWN_FIELDS, &lowercase)?;
    Ok(FieldName::Unknown(meant))
}

// Returns whether a name is one of `FREQUENT_FIELDS`.
fn is_frequent_field(name: &str) -> bool
    ensures { result ≡ list_any (λ frequent. bytes_eq frequent name.now) frequent_fields }
{
    is_one_of(&FREQUENT_FIELDS, name.as_bytes())
}

/// Classifies a field name, with a cache: a file has few names, and each occurs often.
pub(crate) fn meet(
    alloc: Global,
    met: &mut BTreeMap<String, FieldName>,
    name: &str,
) -> Result<FieldName, AllocError>
    requires { AreFieldNames (get_by_text met.old) }
    ensures met { OnOk result (AreFieldNames (get_by_text met.new)) }
    ensures is { IfOk result (IsFieldName name.now) }
{
    if is_frequent_field(name) {
        return Ok(FieldName::Known);
    }
    if let Some(is) = met.get(name).copied() {
        return Ok(is);
    }
    let is = look_up(alloc, name)?;
    met.insert(String::from_str(alloc, name)?, is)?;
    Ok(is)
}

// Returns the finding of an unknown field of the entry with this key, with the known name that it may mean.
fn misspelled_finding(
    alloc: Global,
    key: &str,
    field: &Pair<'_>,
    known: &str,
) -> Result<Finding, AllocError>
    ensures { IfOk result (λ finding. finding ≡ spec.misspelled_finding key.now (field_of field.now) known.now) }
{
    let message = unknown_message(alloc, key, "unknown field", field.key.v, known)?;
    Ok(Finding {
        code: Code::UnknownField,
        span: field.key.span.start..field.key.span.end,
        message: Text::from_string(message),
    })
}

// Appends the finding of an unknown field of the entry with this key, if it may mean a known name.
fn add_if_meant(
    alloc: Global,
    found: &mut Vec<Finding>,
    key: &str,
    field: &Pair<'_>,
    meant: Option<&'static str>,
) -> Result<(), AllocError>
    ensures { OnOk result (found.new.items ≡ found.old.items ++
        spec.meant_findings key.now (field_of field.now) (option_copied meant.entry)) }
{
    if let Some(known) = meant {
        found.push(misspelled_finding(alloc, key, field, known)?)?;
    }
    Ok(())
}

// Appends a finding for a field of the entry with this key, if its name is unknown and may mean a known one.
fn add_if_misspelled(
    alloc: Global,
    found: &mut Vec<Finding>,
    met: &mut BTreeMap<String, FieldName>,
    key: &str,
    field: &Pair<'_>,
) -> Result<(), AllocError>
    requires { AreFieldNames (get_by_text met.old) }
    ensures met { OnOk result (AreFieldNames (get_by_text met.new)) }
    ensures added { OnOk result (found.new.items ≡ found.old.items ++ misspelled_of key.now (field_of field.now)) }
{
    match meet(alloc, met, field.key.v)? {
        FieldName::Foreign => Ok(()),
        FieldName::Known => Ok(()),
        FieldName::Unknown(meant) => add_if_meant(alloc, found, key, field, meant),
    }
}

// Appends a finding for each misspelled field of an entry. `met` caches the field names.
pub(crate) fn add_misspelled_fields(
    alloc: Global,
    found: &mut Vec<Finding>,
    met: &mut BTreeMap<String, FieldName>,
    said: &Spanned<RawEntry<'_>>,
) -> Result<(), AllocError>
    requires { AreFieldNames (get_by_text met.old) }
    ensures met { OnOk result (AreFieldNames (get_by_text met.new)) }
    ensures added { OnOk result (found.new.items ≡ found.old.items ++ misspelled_findings (entry_reading_of said.now)) }
{
    'fields: for field in &said.v.fields {
        add_if_misspelled(alloc, found, met, said.v.key.v, field)?;
    }
    Ok(())
}
