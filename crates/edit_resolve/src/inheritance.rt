//! The rules of inheritance of BibLaTeX.

ghost use Rattle.std.specs.Prelude.{◌≡◌, option_map, unwrap_or};
ghost use Rattle.bib_text.specs.Enums.{value_named};
ghost use Rattle.bib_tables.specs.Dialects.{biblatex_name};
ghost use Rattle.bib_tables.specs.Requirements.{is_one_of};
ghost use Rattle.edit_resolve.specs.Inheritance as spec;
ghost use Rattle.edit_resolve.specs.Inheritance.{biber_names, never_by_crossref, never_by_xdata, own_titles, title_names};
ghost use Rattle.edit_resolve.specs.declared.inheritance.Titles.TheVariants.{Main, Volume, Journal};

use bib_tables::dialects::biblatex_name;
use bib_tables::mechanics::EntryType;

/// The new names that the titles of a parent have in an entry.
#[derive(Clone, Copy)]
pub enum Titles {
    /// `maintitle`, `mainsubtitle`, `maintitleaddon`.
    Main,
    /// `booktitle`, `booksubtitle`, `booktitleaddon`.
    Volume,
    /// `journaltitle`, `journalsubtitle`, `journaltitleaddon`.
    Journal,
}

// Returns the name under which Biber reads a field whose name is in ASCII lowercase.
pub(crate) fn biber_name(lower: &str) -> &str
    ensures { result.now ≡ unwrap_or (value_named biber_names lower.now) (biblatex_name lower.now) }
{
    match lower {
        "annote" => "annotation",
        "archiveprefix" => "eprinttype",
        "primaryclass" => "eprintclass",
        "hyphenation" => "langid",
        "key" => "sortkey",
        "pdf" => "file",
        _ => biblatex_name(lower),
    }
}

// Returns whether a type is that of a part of a book.
fn is_book_part(child: &EntryType) -> bool
    ensures { result ≡ spec.is_book_part child.now }
{
    matches!(
        child,
        EntryType::InBook | EntryType::BookInBook | EntryType::SuppBook
    )
}

// Returns whether a type is that of a book or of one of its parts.
fn is_book(child: &EntryType) -> bool
    ensures { result ≡ spec.is_book child.now }
{
    matches!(
        child,
        EntryType::Book | EntryType::InBook | EntryType::BookInBook | EntryType::SuppBook
    )
}

// Returns whether a type is that of a part of a collection or of a work of reference.
fn is_collection_part(child: &EntryType) -> bool
    ensures { result ≡ spec.is_collection_part child.now }
{
    matches!(
        child,
        EntryType::InCollection | EntryType::InReference | EntryType::SuppCollection
    )
}

// Returns whether a type is that of a collection, of a work of reference or of one of their parts.
fn is_any_collection(child: &EntryType) -> bool
    ensures { result ≡ spec.is_any_collection child.now }
{
    matches!(
        child,
        EntryType::Collection
            | EntryType::Reference
            | EntryType::InCollection
            | EntryType::InReference
            | EntryType::SuppCollection
    )
}

// Returns whether a type is that of proceedings or of an article in them.
fn is_proceedings(child: &EntryType) -> bool
    ensures { result ≡ spec.is_proceedings child.now }
{
    matches!(child, EntryType::Proceedings | EntryType::InProceedings)
}

// Returns whether a type is that of an article in proceedings.
fn is_proceedings_part(child: &EntryType) -> bool
    ensures { result ≡ spec.is_proceedings_part child.now }
{
    matches!(child, EntryType::InProceedings)
}

// Returns whether a type is that of a part of a periodical.
fn is_periodical_part(child: &EntryType) -> bool
    ensures { result ≡ spec.is_periodical_part child.now }
{
    matches!(child, EntryType::Article | EntryType::SuppPeriodical)
}

// Returns `titles` if `passes`, otherwise `None`.
fn titles_if(titles: Titles, passes: bool) -> Option<Titles>
    ensures { result ≡ spec.titles_if titles passes }
{
    if passes { Some(titles) } else { None }
}

// Returns the new names that the titles of a parent have in an entry of the type `child`.
fn titles_in(parent: &EntryType, child: &EntryType) -> Option<Titles>
    ensures { result ≡ spec.titles_in parent.now child.now }
{
    match parent {
        EntryType::MvBook => titles_if(Titles::Main, is_book(child)),
        EntryType::MvCollection | EntryType::MvReference => {
            titles_if(Titles::Main, is_any_collection(child))
        }
        EntryType::MvProceedings => titles_if(Titles::Main, is_proceedings(child)),
        EntryType::Book => titles_if(Titles::Volume, is_book_part(child)),
        EntryType::Collection | EntryType::Reference => {
            titles_if(Titles::Volume, is_collection_part(child))
        }
        EntryType::Proceedings => titles_if(Titles::Volume, is_proceedings_part(child)),
        EntryType::Periodical => titles_if(Titles::Journal, is_periodical_part(child)),
        _ => None,
    }
}

// Returns the new name of a title of a work of several volumes.
fn main_title(name: &str) -> Option<&'static str>
    ensures { option_map (λ new. new.now) result ≡ value_named (title_names Main) name.now }
{
    match name {
        "title" => Some("maintitle"),
        "subtitle" => Some("mainsubtitle"),
        "titleaddon" => Some("maintitleaddon"),
        _ => None,
    }
}

// Returns the new name of a title of a book.
fn volume_title(name: &str) -> Option<&'static str>
    ensures { option_map (λ new. new.now) result ≡ value_named (title_names Volume) name.now }
{
    match name {
        "title" => Some("booktitle"),
        "subtitle" => Some("booksubtitle"),
        "titleaddon" => Some("booktitleaddon"),
        _ => None,
    }
}

// Returns the new name of a title of a periodical.
fn journal_title(name: &str) -> Option<&'static str>
    ensures { option_map (λ new. new.now) result ≡ value_named (title_names Journal) name.now }
{
    match name {
        "title" => Some("journaltitle"),
        "subtitle" => Some("journalsubtitle"),
        "titleaddon" => Some("journaltitleaddon"),
        _ => None,
    }
}

// Returns the new name of a title, if titles have new names.
fn title_name(titles: Option<Titles>, name: &str) -> Option<&'static str>
    ensures { option_map (λ new. new.now) result ≡ spec.title_name titles name.now }
{
    match titles {
        Some(Titles::Main) => main_title(name),
        Some(Titles::Volume) => volume_title(name),
        Some(Titles::Journal) => journal_title(name),
        None => None,
    }
}

// Returns whether the author of a parent is also the author of the book of an entry of the type `child`.
fn has_book_author(parent: &EntryType, child: &EntryType) -> bool
    ensures { result ≡ spec.has_book_author parent.now child.now }
{
    match parent {
        EntryType::MvBook | EntryType::Book => is_book_part(child),
        _ => false,
    }
}

// Returns the new name that the author of a parent has in an entry of the type `child`, besides its own.
fn author_name(parent: &EntryType, child: &EntryType) -> Option<&'static str>
    ensures { option_map (λ new. new.now) result ≡ spec.author_name parent.now child.now }
{
    if has_book_author(parent, child) {
        Some("bookauthor")
    } else {
        None
    }
}

// Returns the new name that a field of a parent gets by `crossref` in an entry of the type `child`, if it has one.
pub(crate) fn name_by_crossref(
    parent: &EntryType,
    child: &EntryType,
    name: &str,
) -> Option<&'static str>
    ensures { option_map (λ new. new.now) result ≡ spec.name_by_crossref parent.now child.now name.now }
{
    if name == "author" {
        return author_name(parent, child);
    }
    title_name(titles_in(parent, child), name)
}

// Returns whether a field is one of the titles that aren't inherited under their own names if the titles of the parent get new names.
fn is_own_title(name: &str) -> bool
    ensures { result ≡ is_one_of own_titles name.now }
{
    matches!(
        name,
        "title"
            | "subtitle"
            | "titleaddon"
            | "shorttitle"
            | "sorttitle"
            | "indextitle"
            | "indexsorttitle"
    )
}

// Returns whether a field other than an annotation is never inherited by `crossref`.
fn is_never_by_crossref(name: &str) -> bool
    ensures { result ≡ is_one_of never_by_crossref name.now }
{
    matches!(
        name,
        "ids"
            | "crossref"
            | "xref"
            | "xdata"
            | "entryset"
            | "entrysubtype"
            | "execute"
            | "label"
            | "options"
            | "presort"
            | "related"
            | "relatedoptions"
            | "relatedstring"
            | "relatedtype"
            | "shorthand"
            | "shorthandintro"
            | "sortkey"
    )
}

// Returns whether a field is an annotation of another field.
fn is_annotation(name: &str) -> bool
    ensures { result ≡ spec.is_annotation name.now }
{
    name.contains("+an")
}

// Returns whether an entry of the type `child` inherits a field of a parent by `crossref` under its own name.
pub(crate) fn keeps_name(parent: &EntryType, child: &EntryType, name: &str) -> bool
    ensures { result ≡ spec.keeps_name parent.now child.now name.now }
{
    if is_annotation(name) || is_never_by_crossref(name) {
        return false;
    }
    !(titles_in(parent, child).is_some() && is_own_title(name))
}

// Returns whether a field other than an annotation is never inherited by `xdata`.
fn is_never_by_xdata(name: &str) -> bool
    ensures { result ≡ is_one_of never_by_xdata name.now }
{
    matches!(name, "ids" | "crossref" | "xdata" | "options")
}

// Returns whether a field is inherited by `xdata`.
pub(crate) fn passes_on(name: &str) -> bool
    ensures { result ≡ spec.passes_on name.now }
{
    !is_annotation(name) && !is_never_by_xdata(name)
}
