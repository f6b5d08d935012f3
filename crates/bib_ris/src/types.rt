//! The types of records.

ghost use Rattle.std.specs.Prelude.{◌≡◌, IfOk};
ghost use Rattle.std.specs.Option.{option_copied};
ghost use Rattle.bib_ris.specs.Types as spec;

use bib_chunks::chunk::{ChunksRef, format_verbatim};
use bib_csl::item_types::ItemType;
use bib_csl::types::item_type_named;
use bib_tables::mechanics::EntryType;
use std::alloc::{AllocError, Global};

// Returns the type of an article, by the text of its `entrysubtype`, in any ASCII case.
fn periodical_type(subtype: &str) -> &'static str
    ensures { result.now ≡ spec.periodical_type subtype.now }
{
    if subtype.eq_ignore_ascii_case("magazine") {
        "MGZN"
    } else if subtype.eq_ignore_ascii_case("newspaper") {
        "NEWS"
    } else {
        "JOUR"
    }
}

// Returns the type of an article, by its field `entrysubtype`. An article without this field is in a journal.
fn article_type(alloc: Global, subtype: Option<ChunksRef<'_>>) -> Result<&'static str, AllocError>
    ensures { IfOk result (λ name. name.now ≡ spec.article_type (option_copied subtype.entry)) }
{
    match subtype {
        Some(chunks) => {
            let subtype = format_verbatim(alloc, chunks)?;
            Ok(periodical_type(subtype.as_str()))
        }
        None => Ok("JOUR"),
    }
}

// Returns the type of the record of an entry whose type is unknown, by the type of its item.
fn type_of_work(kind: ItemType) -> &'static str
    ensures { result.now ≡ spec.type_of_work kind }
{
    match kind {
        ItemType::Graphic => "ART",
        ItemType::LegalCase => "CASE",
        ItemType::Legislation => "STAT",
        ItemType::MotionPicture => "MPCT",
        ItemType::PersonalCommunication => "PCOMM",
        ItemType::Review => "JOUR",
        ItemType::Song => "SOUND",
        ItemType::Standard => "STAND",
        ItemType::Treaty => "LEGAL",
        _ => "GEN",
    }
}

/// Returns the type of a record, by the entry type and the chunks of the field `entrysubtype`. The only error is out of memory.
pub fn ris_type(
    alloc: Global,
    entry_type: &EntryType,
    subtype: Option<ChunksRef<'_>>,
) -> Result<&'static str, AllocError>
    ensures { IfOk result (λ name. name.now ≡
        spec.ris_type entry_type.now (option_copied subtype.entry)) }
{
    Ok(match entry_type {
        EntryType::Article | EntryType::SuppPeriodical => return article_type(alloc, subtype),
        EntryType::Book
        | EntryType::MvBook
        | EntryType::Manual
        | EntryType::Collection
        | EntryType::MvCollection
        | EntryType::Reference
        | EntryType::MvReference => "BOOK",
        EntryType::InBook
        | EntryType::InCollection
        | EntryType::BookInBook
        | EntryType::SuppBook
        | EntryType::SuppCollection => "CHAP",
        EntryType::InProceedings => "CPAPER",
        EntryType::Proceedings | EntryType::MvProceedings => "CONF",
        EntryType::Thesis | EntryType::MastersThesis | EntryType::PhdThesis => "THES",
        EntryType::Report | EntryType::TechReport => "RPRT",
        EntryType::Online => "ELEC",
        EntryType::Patent => "PAT",
        EntryType::Dataset => "DATA",
        EntryType::Software => "COMP",
        EntryType::Unpublished => "UNPB",
        EntryType::Periodical => "JFULL",
        EntryType::Booklet => "PAMP",
        EntryType::InReference => "ENCYC",
        EntryType::Misc | EntryType::Set | EntryType::XData => "GEN",
        EntryType::Unknown(name) => type_of_work(item_type_named(name.as_str())),
    })
}
