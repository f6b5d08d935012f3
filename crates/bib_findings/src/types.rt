//! Entry types that BibLaTeX knows, and findings of entries with a misspelled one.

ghost use Rattle.std.specs.Prelude.{◌≡◌, ◌++◌, IfOk, OnOk, option_copied};
ghost use Rattle.bib_syntax.specs.Views.{entry_reading_of};
ghost use Rattle.bib_findings.specs.Types as spec;

use crate::codes::Code;
use crate::finding::Finding;
use crate::nearest::{is_among, suggestion, unknown_message};
use bib_syntax::raw::RawEntry;
use bib_text::spanned::Spanned;
use bib_text::text::Text;
use std::alloc::{AllocError, Global};

// The entry types of BibLaTeX's default data model, and the other names that it reads for some of them.
static KNOWN_TYPES: [&str; 57] = [
    "article",
    "artwork",
    "audio",
    "bibnote",
    "book",
    "bookinbook",
    "booklet",
    "collection",
    "commentary",
    "conference",
    "customa",
    "customb",
    "customc",
    "customd",
    "custome",
    "customf",
    "dataset",
    "electronic",
    "image",
    "inbook",
    "incollection",
    "inproceedings",
    "inreference",
    "jurisdiction",
    "legal",
    "legislation",
    "letter",
    "manual",
    "mastersthesis",
    "misc",
    "movie",
    "music",
    "mvbook",
    "mvcollection",
    "mvproceedings",
    "mvreference",
    "online",
    "patent",
    "performance",
    "periodical",
    "phdthesis",
    "proceedings",
    "reference",
    "report",
    "review",
    "set",
    "software",
    "standard",
    "suppbook",
    "suppcollection",
    "suppperiodical",
    "techreport",
    "thesis",
    "unpublished",
    "video",
    "www",
    "xdata",
];

/// Returns whether BibLaTeX knows an entry type, in any ASCII case.
pub(crate) fn is_known_type(name: &str) -> bool
    ensures { result ≡ spec.is_known_type name.now }
{
    is_among(&KNOWN_TYPES, name)
}

/// Returns the known type that an unknown one may mean, or `None` if there is no such type.
pub(crate) fn meant_type(alloc: Global, name: &str) -> Result<Option<&'static str>, AllocError>
    ensures { IfOk result (λ meant. option_copied meant ≡ spec.meant_type name.now) }
{
    let lowercase = name.to_ascii_lowercase(alloc)?;
    let meant = suggestion(alloc, &KNOWN_TYPES, &lowercase)?;
    Ok(meant)
}

// Returns the finding of an entry with an unknown type, with the known type that it may mean.
fn misspelled_finding(
    alloc: Global,
    said: &Spanned<RawEntry<'_>>,
    known: &str,
) -> Result<Finding, AllocError>
    ensures { IfOk result (λ finding. finding ≡ spec.misspelled_type_finding (entry_reading_of said.now) known.now) }
{
    let kind = &said.v.kind;
    let message = unknown_message(alloc, said.v.key.v, "unknown entry type", kind.v, known)?;
    Ok(Finding {
        code: Code::UnknownType,
        span: kind.span.start..kind.span.end,
        message: Text::from_string(message),
    })
}

// Appends the finding of an entry with an unknown type, if the type may mean a known one.
fn add_if_meant(
    alloc: Global,
    found: &mut Vec<Finding>,
    said: &Spanned<RawEntry<'_>>,
    meant: Option<&'static str>,
) -> Result<(), AllocError>
    ensures { OnOk result (found.new.items ≡ found.old.items ++
        spec.meant_type_findings (entry_reading_of said.now) (option_copied meant.entry)) }
{
    if let Some(known) = meant {
        found.push(misspelled_finding(alloc, said, known)?)?;
    }
    Ok(())
}

// Appends a finding if BibLaTeX doesn't know the type of an entry, and the type may mean a known one.
pub(crate) fn add_misspelled_type(
    alloc: Global,
    found: &mut Vec<Finding>,
    said: &Spanned<RawEntry<'_>>,
) -> Result<(), AllocError>
    ensures { OnOk result (found.new.items ≡ found.old.items ++ spec.type_findings (entry_reading_of said.now)) }
{
    if is_known_type(said.v.kind.v) {
        return Ok(());
    }
    let meant = meant_type(alloc, said.v.kind.v)?;
    add_if_meant(alloc, found, said, meant)?;
    Ok(())
}
