//! The variables of the lines of a record, by their tags.

ghost use Rattle.std.specs.Prelude.{◌≡◌};
ghost use Rattle.bib_from_csl.specs.LanguageNames.{first_name};
ghost use Rattle.bib_from_ris.specs.Tags as spec;

use crate::lines::RisLine;
use crate::types::{is_in_series, is_periodical, is_whole_book};

// Returns the first text, or the other one if the first is empty.
pub(crate) fn first_text<'t>(first: &'t str, other: &'t str) -> &'t str
    ensures { result.now ≡ first_name first.now other.now }
{
    if first.is_empty() { other } else { first }
}

// Returns the variable for the authors. Those of an edited book are its editors.
fn first_people(kind: &str) -> &'static str
    ensures { result.now ≡ spec.first_people kind.now }
{
    if kind == "EDBOOK" { "editor" } else { "author" }
}

// Returns the variable for the tag A2: the editors of the series of a book, or the editors of another work. If the tag ED has these, A2 has
// the authors of the book that contains the work.
fn second_people(kind: &str, has_editors: bool) -> &'static str
    ensures { result.now ≡ spec.second_people kind.now has_editors }
{
    if is_whole_book(kind) {
        return "collection-editor";
    }
    if has_editors {
        "container-author"
    } else {
        "editor"
    }
}

// Returns the variable for the tag A3: the editors of a book, or the editors of the series of another work.
fn third_people(kind: &str) -> &'static str
    ensures { result.now ≡ spec.third_people kind.now }
{
    if is_whole_book(kind) {
        "editor"
    } else {
        "collection-editor"
    }
}

// Returns the variable for a tag of people, or an empty text for another tag.
#[tactic(auto, unfolding(crate::specs::Tags::people_variable))]
fn people_variable(kind: &str, has_editors: bool, tag: &str) -> &'static str
    ensures { result.now ≡ spec.people_variable kind.now has_editors tag.now }
{
    match tag {
        "AU" => first_people(kind),
        "A1" => first_people(kind),
        "A2" => second_people(kind, has_editors),
        "A3" => third_people(kind),
        "A4" => "translator",
        "ED" => "editor",
        _ => "",
    }
}

// Returns the variable for the second title: the series of a book, or the work that contains another work.
fn second_title(kind: &str) -> &'static str
    ensures { result.now ≡ spec.second_title kind.now }
{
    if is_whole_book(kind) {
        "collection-title"
    } else {
        "container-title"
    }
}

// Returns the variable for the title of a book, which is the record or contains the work.
fn book_title(kind: &str) -> &'static str
    ensures { result.now ≡ spec.title_in_book kind.now }
{
    if is_whole_book(kind) {
        "title"
    } else {
        "container-title"
    }
}

// Returns the variable for a tag of titles, or an empty text for another tag.
#[tactic(auto, unfolding(crate::specs::Tags::title_variable))]
fn title_variable(kind: &str, tag: &str) -> &'static str
    ensures { result.now ≡ spec.title_variable kind.now tag.now }
{
    match tag {
        "TI" => "title",
        "T1" => "title",
        "CT" => "title",
        "BT" => book_title(kind),
        "T2" => second_title(kind),
        "JF" => "container-title",
        "JO" => "container-title",
        "JA" => "container-title-short",
        "J1" => "container-title-short",
        "J2" => "container-title-short",
        "T3" => "collection-title",
        "ST" => "title-short",
        _ => "",
    }
}

// Returns the variable for a number: the issue of a periodical, the number in a series, or the number of the work itself.
fn number_variable(kind: &str) -> &'static str
    ensures { result.now ≡ spec.number_variable kind.now }
{
    if is_periodical(kind) {
        return "issue";
    }
    if is_in_series(kind) {
        "collection-number"
    } else {
        "number"
    }
}

// Returns the variable for the edition, which is the version of software.
fn edition_variable(kind: &str) -> &'static str
    ensures { result.now ≡ spec.edition_variable kind.now }
{
    if kind == "COMP" { "version" } else { "edition" }
}

// Returns the variable for a serial number: ISSN for a periodical or for fewer than ten bytes. An ISSN has nine characters, and an ISBN at
// least ten.
fn serial_variable(kind: &str, value: &str) -> &'static str
    ensures { result.now ≡ spec.serial_variable kind.now value.now }
{
    if is_periodical(kind) || value.len() < 10 {
        "ISSN"
    } else {
        "ISBN"
    }
}

// Returns the variable for a tag of numbers or dates, or an empty text for another tag. `value` is the text of the line.
#[tactic(auto, unfolding(crate::specs::Tags::count_variable))]
fn count_variable(kind: &str, tag: &str, value: &str) -> &'static str
    ensures { result.now ≡ spec.count_variable kind.now tag.now value.now }
{
    match tag {
        "VL" => "volume",
        "NV" => "number-of-volumes",
        "IS" => number_variable(kind),
        "ET" => edition_variable(kind),
        "SE" => "chapter-number",
        "SP" => "page",
        "EP" => "last-page",
        "C7" => "number",
        "SN" => serial_variable(kind, value),
        "PY" => "issued",
        "Y1" => "issued",
        "DA" => "day",
        "Y2" => "accessed",
        _ => "",
    }
}

// Returns the variable for a tag of another text, or an empty text.
#[tactic(auto, unfolding(crate::specs::Tags::word_variable))]
fn word_variable(tag: &str) -> &'static str
    ensures { result.now ≡ spec.word_variable tag.now }
{
    match tag {
        "PB" => "publisher",
        "CY" => "publisher-place",
        "PP" => "publisher-place",
        "M3" => "genre",
        "AB" => "abstract",
        "N2" => "abstract",
        "N1" => "note",
        "RN" => "annote",
        "KW" => "keyword",
        "LA" => "language",
        _ => "",
    }
}

// Returns the variable for a tag of an identifier, an address or a place in an archive, or an empty text.
#[tactic(auto, unfolding(crate::specs::Tags::identifier_variable))]
fn identifier_variable(tag: &str) -> &'static str
    ensures { result.now ≡ spec.identifier_variable tag.now }
{
    match tag {
        "UR" => "URL",
        "L2" => "URL",
        "DO" => "DOI",
        "DB" => "archive",
        "AN" => "archive_location",
        "CN" => "call-number",
        "ID" => "id",
        _ => "",
    }
}

/// Returns the variable of a line of a record of this type, or an empty text. `has_editors` says whether the record has the tag ED.
#[tactic(auto, unfolding(crate::specs::Tags::variable_of))]
pub(crate) fn variable_of(kind: &str, has_editors: bool, line: &RisLine) -> &'static str
    ensures { result.now ≡ spec.variable_of kind.now has_editors line.now }
{
    let tag = line.tag.as_str();
    let people = people_variable(kind, has_editors, tag);
    let title = first_text(people, title_variable(kind, tag));
    let number = first_text(title, count_variable(kind, tag, line.value.as_str()));
    let word = first_text(number, word_variable(tag));
    first_text(word, identifier_variable(tag))
}

/// Returns whether a line is used before the lines of the same variable for which this returns false.
#[tactic(auto, unfolding(crate::specs::Tags::is_preferred))]
pub(crate) fn is_preferred(kind: &str, tag: &str) -> bool
    ensures { result ≡ spec.is_preferred kind.now tag.now }
{
    !matches!(tag, "BT" | "JO" | "J1" | "J2" | "L2" | "N2") && !(tag == "T2" && is_whole_book(kind))
}

/// Returns the names of the variables that a record can have, in the order in which they are written, with a space between them.
#[tactic(auto, unfolding(crate::specs::Tags::variable_names))]
pub(crate) fn variable_names() -> &'static str
    ensures { result.now ≡ spec.variable_names }
{
    "id author editor container-author translator collection-editor title title-short container-title container-title-short collection-title issued day accessed volume number-of-volumes issue number collection-number edition version chapter-number page last-page publisher publisher-place genre ISBN ISSN DOI URL archive archive_location call-number abstract note annote keyword language"
}

/// Returns whether a variable is a list of names.
pub(crate) fn is_names(name: &str) -> bool
    ensures { result ≡ spec.is_name_list name.now }
{
    matches!(
        name,
        "author" | "editor" | "container-author" | "translator" | "collection-editor"
    )
}
