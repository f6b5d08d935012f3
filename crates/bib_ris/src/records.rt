//! Entries as records of RIS.

ghost use Rattle.std.specs.Prelude.{◌≡◌, ◌++◌, codes, IfOk, OnOk};
ghost use Rattle.std.specs.String.{string_bytes};
ghost use Rattle.bib_csl.specs.Texts.{field};
ghost use Rattle.bib_ris.specs.Records as spec;

use crate::dates::push_dates;
use crate::fields::{bare_named, push_field, push_field_or};
use crate::lines::{push_given, push_line, push_lines};
use crate::pages::push_pages;
use crate::people::push_people_of;
use crate::titles::push_titles;
use crate::types::ris_type;
use bib_csl::identifiers::{archive_text, bare_doi, url_of};
use bib_csl::notes::{language_of, language_value};
use bib_csl::publishing::{genre_of, publisher_of};
use bib_csl::texts::{either, field_or, list_text_or, plain_text};
use bib_entry::entry::Entry;
use bib_text::text::Text;
use bib_values::lists::read_strings;
use std::alloc::{AllocError, Global};

// Appends the line of the type.
#[tactic(auto, unfolding(crate::specs::Records::type_part))]
fn push_type(out: &mut String, alloc: Global, entry: &Entry) -> Result<(), AllocError>
    ensures { OnOk result (string_bytes out.new ≡ string_bytes out.old ++ spec.type_part entry.now) }
{
    let name = ris_type(alloc, &entry.entry_type, entry.get("entrysubtype"))?;
    push_line(out, "TY", name)
}

// Appends the lines of the authors (or else of the holders), of the authors of the book that contains the work, and of the translators.
#[tactic(auto, unfolding(crate::specs::Records::authors_part))]
fn push_authors(out: &mut String, alloc: Global, entry: &Entry) -> Result<(), AllocError>
    ensures { OnOk result (string_bytes out.new ≡ string_bytes out.old ++ spec.authors_part entry.now) }
{
    push_people_of(out, alloc, "AU", field_or(entry, "author", "holder"))?;
    push_people_of(out, alloc, "A2", entry.get("bookauthor"))?;
    push_people_of(out, alloc, "A4", entry.get("translator"))
}

// Appends the lines of the editors of every role.
#[tactic(auto, unfolding(crate::specs::Records::editors_part))]
fn push_editors(out: &mut String, alloc: Global, entry: &Entry) -> Result<(), AllocError>
    ensures { OnOk result (string_bytes out.new ≡ string_bytes out.old ++ spec.editors_part entry.now) }
{
    push_people_of(out, alloc, "ED", entry.get("editor"))?;
    push_people_of(out, alloc, "ED", entry.get("editora"))?;
    push_people_of(out, alloc, "ED", entry.get("editorb"))?;
    push_people_of(out, alloc, "ED", entry.get("editorc"))
}

// Appends the lines of the volume, the number of volumes, the number, the edition or version, and the chapter.
#[tactic(auto, unfolding(crate::specs::Records::volume_part))]
fn push_volume(out: &mut String, alloc: Global, entry: &Entry) -> Result<(), AllocError>
    ensures { OnOk result (string_bytes out.new ≡ string_bytes out.old ++ spec.volume_part entry.now) }
{
    push_field(out, alloc, entry, "VL", "volume")?;
    push_field(out, alloc, entry, "NV", "volumes")?;
    push_field_or(out, alloc, entry, "IS", "number", "issue")?;
    push_field_or(out, alloc, entry, "ET", "edition", "version")?;
    push_field(out, alloc, entry, "SE", "chapter")
}

// Returns the field `pagetotal`, the number of pages, or an empty text if the entry has the field `pages`.
#[tactic(auto, unfolding(crate::specs::Records::page_total))]
fn page_total(alloc: Global, entry: &Entry) -> Result<Text, AllocError>
    ensures { IfOk result (λ text. text ≡ spec.page_total entry.now) }
{
    if entry.get("pages").is_some() {
        return Ok(Text::new(alloc));
    }
    bare_named(alloc, entry, "pagetotal")
}

// Appends the lines of the pages, or else of their number, and of the number of an article.
#[tactic(auto, unfolding(crate::specs::Records::pages_part))]
fn push_numbers(out: &mut String, alloc: Global, entry: &Entry) -> Result<(), AllocError>
    ensures { OnOk result (string_bytes out.new ≡ string_bytes out.old ++ spec.pages_part entry.now) }
{
    push_pages(out, alloc, entry.get("pages"))?;
    push_given(out, "SP", page_total(alloc, entry)?.as_str())?;
    push_field(out, alloc, entry, "C7", "eid")
}

// Returns the place of the publisher, or else of the event.
#[tactic(auto, unfolding(crate::specs::Records::publication_place))]
fn publication_place(alloc: Global, entry: &Entry) -> Result<Text, AllocError>
    ensures { IfOk result (λ text. text ≡ spec.publication_place entry.now) }
{
    let place = list_text_or(alloc, entry, "location", "address")?;
    Ok(either(place, bare_named(alloc, entry, "venue")?))
}

// Appends the lines of the publisher, the place and the genre.
#[tactic(auto, unfolding(crate::specs::Records::publisher_part))]
fn push_publisher(out: &mut String, alloc: Global, entry: &Entry) -> Result<(), AllocError>
    ensures { OnOk result (string_bytes out.new ≡ string_bytes out.old ++ spec.publisher_part entry.now) }
{
    push_given(out, "PB", publisher_of(alloc, entry)?.as_str())?;
    push_given(out, "CY", publication_place(alloc, entry)?.as_str())?;
    push_given(out, "M3", genre_of(alloc, entry)?.as_str())
}

// Appends the lines of the ISBN or ISSN, the DOI, the address, and the place in a database or a library.
#[tactic(auto, unfolding(crate::specs::Records::links_part))]
fn push_links(out: &mut String, alloc: Global, entry: &Entry) -> Result<(), AllocError>
    ensures { OnOk result (string_bytes out.new ≡ string_bytes out.old ++ spec.links_part entry.now) }
{
    push_field_or(out, alloc, entry, "SN", "isbn", "issn")?;
    let doi = plain_text(alloc, entry, "doi")?;
    push_given(out, "DO", bare_doi(alloc, doi.as_str())?.as_str())?;
    push_given(out, "UR", url_of(alloc, entry)?.as_str())?;
    push_given(out, "DB", archive_text(alloc, entry)?.as_str())?;
    push_given(out, "AN", plain_text(alloc, entry, "eprint")?.as_str())?;
    push_field(out, alloc, entry, "CN", "library")
}

// Appends a line for each part of the comma list `keywords`, also for an empty part.
#[tactic(auto, unfolding(crate::specs::Records::keyword_lines))]
fn push_keywords(out: &mut String, alloc: Global, entry: &Entry) -> Result<(), AllocError>
    ensures { OnOk result (string_bytes out.new ≡ string_bytes out.old ++
        spec.keyword_lines (field entry.now (codes "keywords"))) }
{
    let Some(chunks) = entry.get("keywords") else {
        return Ok(());
    };
    let keywords = read_strings(alloc, chunks)?;
    push_lines(out, "KW", keywords.as_slice())
}

// Appends the lines of the abstract, the notes, the annotation, the keywords and the language.
#[tactic(auto, unfolding(crate::specs::Records::contents_part))]
fn push_contents(out: &mut String, alloc: Global, entry: &Entry) -> Result<(), AllocError>
    ensures { OnOk result (string_bytes out.new ≡ string_bytes out.old ++ spec.contents_part entry.now) }
{
    push_field(out, alloc, entry, "AB", "abstract")?;
    push_field(out, alloc, entry, "N1", "note")?;
    push_field(out, alloc, entry, "N1", "addendum")?;
    push_field_or(out, alloc, entry, "RN", "annotation", "annote")?;
    push_keywords(out, alloc, entry)?;
    push_given(
        out,
        "LA",
        language_of(alloc, language_value(entry))?.as_str(),
    )
}

// Appends the lines of the type, the people, the titles and the dates.
#[tactic(auto, unfolding(crate::specs::Records::work_part))]
fn push_work(out: &mut String, alloc: Global, entry: &Entry) -> Result<(), AllocError>
    ensures { OnOk result (string_bytes out.new ≡ string_bytes out.old ++ spec.work_part entry.now) }
{
    push_type(out, alloc, entry)?;
    push_authors(out, alloc, entry)?;
    push_editors(out, alloc, entry)?;
    push_titles(out, alloc, entry)?;
    push_dates(out, alloc, entry)
}

// Appends the lines of the numbers, the publisher, the identifiers and the contents.
#[tactic(auto, unfolding(crate::specs::Records::publication_part))]
fn push_publication(out: &mut String, alloc: Global, entry: &Entry) -> Result<(), AllocError>
    ensures { OnOk result (string_bytes out.new ≡ string_bytes out.old ++ spec.publication_part entry.now) }
{
    push_volume(out, alloc, entry)?;
    push_numbers(out, alloc, entry)?;
    push_publisher(out, alloc, entry)?;
    push_links(out, alloc, entry)?;
    push_contents(out, alloc, entry)
}

// Appends the line of the key, and the end of the record with an empty line after it.
#[tactic(auto, unfolding(crate::specs::Records::end_part))]
fn push_end(out: &mut String, entry: &Entry) -> Result<(), AllocError>
    ensures { OnOk result (string_bytes out.new ≡ string_bytes out.old ++ spec.end_part entry.now) }
{
    push_line(out, "ID", entry.key.as_str())?;
    out.push_str("ER  - \n\n")
}

/// Returns the record of an entry, with an empty line after it. Each line is a tag, two spaces, a hyphen, a space, and a text on one line,
/// and ends with a line feed. The only error is out of memory.
#[tactic(auto, unfolding(crate::specs::Records::ris_of))]
pub fn record_text(alloc: Global, entry: &Entry) -> Result<String, AllocError>
    ensures { IfOk result (λ text. string_bytes text ≡ spec.ris_of entry.now) }
{
    let mut out = String::new(alloc);
    push_work(&mut out, alloc, entry)?;
    push_publication(&mut out, alloc, entry)?;
    push_end(&mut out, entry)?;
    Ok(out)
}
