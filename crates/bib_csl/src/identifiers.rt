//! Identifiers, addresses and archives of an item.

ghost use Rattle.std.specs.Prelude.{◌≡◌, ◌++◌, OnOk, IfOk};
ghost use Rattle.std.specs.Option.{option_copied};
ghost use Rattle.bib_csl.specs.Identifiers as spec;

use crate::adding::add_plain;
use crate::fields::add_text;
use crate::item::Field;
use crate::texts::{either, field_or, plain_text, shown_field};
use crate::variables::Variable;
use crate::ways::way_as_address;
use bib_chunks::chunk::{ChunksRef, format_verbatim};
use bib_entry::entry::Entry;
use bib_text::items::Items;
use bib_text::text::Text;
use std::alloc::{AllocError, Global};

// Returns the name of an archive in a field, with ASCII letters in lowercase.
#[tactic(auto, unfolding(crate::specs::Identifiers::archive_name))]
fn archive_name(alloc: Global, field: Option<ChunksRef<'_>>) -> Result<Text, AllocError>
    ensures { IfOk result (λ text. text ≡ spec.archive_name (option_copied field.entry)) }
{
    let Some(chunks) = field else {
        return Ok(Text::new(alloc));
    };
    let mut name = format_verbatim(alloc, chunks)?;
    name.make_ascii_lowercase();
    Ok(Text::from_string(name))
}

// Returns the archive of the electronic version of an entry (`eprinttype` or `archiveprefix`), with ASCII letters in lowercase.
#[tactic(auto, unfolding(crate::specs::Identifiers::archive_of))]
fn archive_of(alloc: Global, entry: &Entry) -> Result<Text, AllocError>
    ensures { IfOk result (λ text. text ≡ spec.archive_of entry.now) }
{
    archive_name(alloc, field_or(entry, "eprinttype", "archiveprefix"))
}

// Returns the identifier in that archive (the field `eprint`).
#[tactic(auto, unfolding(crate::specs::Identifiers::eprint_of))]
fn eprint_of(alloc: Global, entry: &Entry) -> Result<Text, AllocError>
    ensures { IfOk result (λ text. text ≡ spec.eprint_of entry.now) }
{
    plain_text(alloc, entry, "eprint")
}

/// Returns the start of the addresses in an archive, or an empty text for an archive without a known address.
#[tactic(auto, unfolding(crate::specs::Identifiers::archive_address))]
pub fn archive_address(archive: &str) -> &'static str
    ensures { result.now ≡ spec.archive_address archive.now }
{
    match archive {
        "arxiv" => "https://arxiv.org/abs/",
        "jstor" => "https://www.jstor.org/stable/",
        "pubmed" => "https://www.ncbi.nlm.nih.gov/pubmed/",
        "hdl" => "https://hdl.handle.net/",
        _ => "",
    }
}

// Returns the address of `eprint` in an archive, or an empty text if the archive has no known address or `eprint` is empty.
#[tactic(auto, unfolding(crate::specs::Identifiers::address_in))]
fn address_in(alloc: Global, archive: &str, eprint: &str) -> Result<Text, AllocError>
    ensures { IfOk result (λ text. text ≡ spec.address_in archive.now eprint.now) }
{
    let mut address = Text::from_str(alloc, archive_address(archive))?;
    if address.is_empty() {
        return Ok(address);
    }
    if eprint.is_empty() {
        return Ok(Text::new(alloc));
    }
    address.push_str(eprint)?;
    Ok(address)
}

// Returns the field `url`, or else the address in the archive.
#[tactic(auto, unfolding(crate::specs::Identifiers::named_address, crate::specs::Texts::either))]
pub(crate) fn named_address(alloc: Global, entry: &Entry) -> Result<Text, AllocError>
    ensures { IfOk result (λ text. text ≡ spec.named_address entry.now) }
{
    let url = plain_text(alloc, entry, Variable::Url.field())?;
    if !url.is_empty() {
        return Ok(url);
    }
    let archive = archive_of(alloc, entry)?;
    let eprint = eprint_of(alloc, entry)?;
    address_in(alloc, archive.as_str(), eprint.as_str())
}

/// Returns the address of an entry: `url`, or else that in the archive, or else `howpublished` if it is an address. The only error is out
/// of memory.
#[tactic(auto, unfolding(crate::specs::Identifiers::url_of))]
pub fn url_of(alloc: Global, entry: &Entry) -> Result<Text, AllocError>
    ensures { IfOk result (λ text. text ≡ spec.url_of entry.now) }
{
    Ok(either(named_address(alloc, entry)?, way_as_address(alloc, entry)?))
}

// Returns whether the archive is PubMed, whose numbers have a variable of their own.
#[tactic(auto, unfolding(crate::specs::Identifiers::is_in_pubmed))]
fn is_in_pubmed(alloc: Global, entry: &Entry) -> Result<bool, AllocError>
    ensures { IfOk result (λ is. is ≡ spec.is_in_pubmed entry.now) }
{
    Ok(archive_of(alloc, entry)?.as_str() == "pubmed")
}

// Returns the identifier in PubMed, or an empty text for another archive.
#[tactic(auto, unfolding(crate::specs::Identifiers::pubmed_number))]
fn pubmed_number(alloc: Global, entry: &Entry) -> Result<Text, AllocError>
    ensures { IfOk result (λ text. text ≡ spec.pubmed_number entry.now) }
{
    if is_in_pubmed(alloc, entry)? {
        return eprint_of(alloc, entry);
    }
    Ok(Text::new(alloc))
}

/// Returns the name of the archive of an entry, or an empty text for PubMed. The only error is out of memory.
#[tactic(auto, unfolding(crate::specs::Identifiers::archive_text))]
pub fn archive_text(alloc: Global, entry: &Entry) -> Result<Text, AllocError>
    ensures { IfOk result (λ text. text ≡ spec.archive_text entry.now) }
{
    if is_in_pubmed(alloc, entry)? {
        return Ok(Text::new(alloc));
    }
    shown_field(alloc, field_or(entry, "eprinttype", "archiveprefix"))
}

// Returns the identifier in the archive, or an empty text for PubMed.
#[tactic(auto, unfolding(crate::specs::Identifiers::archive_location))]
fn archive_location(alloc: Global, entry: &Entry) -> Result<Text, AllocError>
    ensures { IfOk result (λ text. text ≡ spec.archive_location entry.now) }
{
    if is_in_pubmed(alloc, entry)? {
        return Ok(Text::new(alloc));
    }
    eprint_of(alloc, entry)
}

/// Returns the DOI in a text: the text from the first `10.` on, or the whole text without one. Each DOI begins with `10.`, so an address
/// or a scheme before it is no part of it. The only error is out of memory.
#[tactic(auto, unfolding(crate::specs::Identifiers::bare_doi))]
pub fn bare_doi(alloc: Global, text: &str) -> Result<Text, AllocError>
    ensures { IfOk result (λ doi. doi ≡ spec.bare_doi text.now) }
{
    match text.split_once("10.") {
        Some((_, rest)) => {
            let mut doi = Text::from_str(alloc, "10.")?;
            doi.push_str(rest)?;
            Ok(doi)
        }
        None => Text::from_str(alloc, text),
    }
}

// Appends the DOI, the address, the PubMed number, the ISBN and the ISSN.
#[tactic(auto, unfolding(crate::specs::Identifiers::identifier_fields))]
pub(crate) fn add_identifiers(
    alloc: Global,
    entry: &Entry,
    fields: &mut Items<Field>,
) -> Result<(), AllocError>
    ensures { OnOk result (fields.new ≡ fields.old ++ spec.identifier_fields entry.now) }
{
    let doi = plain_text(alloc, entry, Variable::Doi.field())?;
    add_text(fields, Variable::Doi, bare_doi(alloc, doi.as_str())?)?;
    add_text(fields, Variable::Url, url_of(alloc, entry)?)?;
    add_text(fields, Variable::Pmid, pubmed_number(alloc, entry)?)?;
    add_plain(alloc, Variable::Isbn, entry, fields)?;
    add_plain(alloc, Variable::Issn, entry, fields)
}

// Appends the archive, the location in it, and the call number of a library.
#[tactic(auto, unfolding(crate::specs::Identifiers::archive_fields))]
pub(crate) fn add_archive(
    alloc: Global,
    entry: &Entry,
    fields: &mut Items<Field>,
) -> Result<(), AllocError>
    ensures { OnOk result (fields.new ≡ fields.old ++ spec.archive_fields entry.now) }
{
    add_text(fields, Variable::Archive, archive_text(alloc, entry)?)?;
    add_text(
        fields,
        Variable::ArchiveLocation,
        archive_location(alloc, entry)?,
    )?;
    add_plain(alloc, Variable::CallNumber, entry, fields)
}
