//! The identities of entries: a DOI, an ISBN, or a title with its first person and its year. Also tests whether entries are told apart.

ghost use Rattle.std.specs.Prelude.{◌≡◌, ◌++◌, ◌&&◌, ◌||◌, not, map, IfOk, OnOk, [], encode_utf8_all};
ghost use Rattle.std.specs.List.{list_all, list_any};
ghost use Rattle.std.specs.String.{string_bytes};
ghost use Rattle.bib_tables.specs.Requirements.{texts};
ghost use Rattle.bib_syntax.specs.Views.{entry_reading_of, piece_of};
ghost use Rattle.bib_findings.specs.Identities.{are_book_and_part, are_different, are_other_parts, are_same, are_told_apart, differs_in, doi_of, end_in_others, first_four, first_person, have_open_list, have_other_people, identities, identity, is_part_of_book, is_brace, is_whole_book, isbn_of, literal_text, or_else, first_person_of, own_people, plain_words, right_doi, right_isbn, share_doi, share_isbn, squeezed, own_literal, title_of, unhyphened, without_prefixes, work_of, work_text, year_of};
ghost use Rattle.bib_findings.specs.CheckDigits as spec;
ghost use Rattle.bib_findings.specs.Words.{ends_before, spaced_word, without_braces, words_text};

use crate::check_digits::{are_digits_or_x, is_isbn};
use crate::lowercase::lowercase;
use crate::nearest::is_among;
use crate::people::{has_end, has_start};
use crate::places::last_named;
use bib_syntax::raw::{RawChunk, RawEntry};
use bib_text::spanned::Spanned;
use std::alloc::{AllocError, Global};

/// The ways in which a DOI that is written as a link or with a scheme begins, in lowercase.
pub static DOI_PREFIXES: [&str; 5] = [
    "https://doi.org/",
    "http://doi.org/",
    "https://dx.doi.org/",
    "http://dx.doi.org/",
    "doi:",
];

// Returns the text of a value that is one literal (in braces, in quotes, or a number); for any other value, the empty
// text.
pub(crate) fn literal_text<'s>(pieces: &[Spanned<RawChunk<'s>>]) -> &'s str
    ensures { result.now ≡ literal_text (map piece_of pieces.now) }
{
    match pieces {
        [piece] => match piece.v {
            RawChunk::Normal(text) => text,
            RawChunk::Abbreviation(_) => "",
        },
        _ => "",
    }
}

// Returns the text of the last field of this name of an entry, if its value is one literal, and otherwise the empty text.
pub(crate) fn own_literal<'s>(said: &Spanned<RawEntry<'s>>, name: &str) -> &'s str
    ensures { result.now ≡ own_literal (entry_reading_of said.now) name.now }
{
    match last_named(said.v.fields.as_slice(), name) {
        Some(field) => literal_text(field.value.v.as_slice()),
        None => "",
    }
}

// Returns `text`, or `other` if it is empty.
fn or_else<'s>(text: &'s str, other: &'s str) -> &'s str
    ensures { result.now ≡ or_else text.now other.now }
{
    if text.is_empty() { other } else { text }
}

// Returns whether a character is a brace.
fn is_brace(c: char) -> bool
    ensures { result ≡ is_brace c }
{
    c == '{' || c == '}'
}

// If `word` isn't empty, appends it and a space to `text` and clears it.
fn end_word(text: &mut String, word: &mut String) -> Result<(), AllocError>
    ensures text { OnOk result (string_bytes text.new ≡ string_bytes text.old ++ spaced_word (string_bytes word.old)) }
    ensures none { OnOk result (string_bytes word.new ≡ []) }
{
    if word.is_empty() {
        return Ok(());
    }
    text.push_str(word)?;
    text.push(' ')?;
    word.clear();
    Ok(())
}

// Returns whether the words end before this one: only if the first person is wanted and the word is `and`.
fn ends_before(is_first: bool, word: &str) -> bool
    ensures { result ≡ ends_before is_first word.now }
{
    is_first && word == "and"
}

// Returns the words of a lowercase text, without the braces in them, each followed by a space: all words, or only those of the first
// person.
fn words(alloc: Global, lowercase: &str, is_first: bool) -> Result<String, AllocError>
    ensures { IfOk result (λ text. string_bytes text ≡ words_text is_first (without_braces lowercase.now)) }
{
    let mut text = String::with_capacity(alloc, lowercase.len())?;
    let mut word = String::new(alloc);
    'characters: for c in lowercase.chars() {
        if is_brace(c) {
            continue 'characters;
        }
        if !c.is_whitespace() {
            word.push(c)?;
            continue 'characters;
        }
        if ends_before(is_first, &word) {
            return Ok(text);
        }
        end_word(&mut text, &mut word)?;
    }
    if !ends_before(is_first, &word) {
        end_word(&mut text, &mut word)?;
    }
    Ok(text)
}

// Returns the words of a text in lowercase and without braces, each followed by a space.
pub(crate) fn plain_words(alloc: Global, text: &str) -> Result<String, AllocError>
    ensures { IfOk result (λ plain. string_bytes plain ≡ plain_words text.now) }
{
    let lowercase = lowercase(alloc, text)?;
    words(alloc, &lowercase, false)
}

// Returns the words of the first of some people, each followed by a space.
fn first_person(alloc: Global, people: &str) -> Result<String, AllocError>
    ensures { IfOk result (λ person. string_bytes person ≡ first_person people.now) }
{
    let lowercase = people.to_lowercase(alloc)?;
    words(alloc, &lowercase, true)
}

// Returns the first four characters of a text.
fn first_four(alloc: Global, text: &str) -> Result<String, AllocError>
    ensures { IfOk result (λ four. string_bytes four ≡ first_four text.now) }
{
    text.chars().take(4).collect(alloc)
}

// Returns a text in lowercase, without braces and white space.
fn squeezed(alloc: Global, text: &str) -> Result<String, AllocError>
    ensures { IfOk result (λ found. string_bytes found ≡ squeezed text.now) }
{
    let mut text = text.to_lowercase(alloc)?;
    text.retain(|c| !is_brace(c) && !c.is_whitespace());
    Ok(text)
}

// Returns a text without the first prefix of the list that it begins with.
fn without_prefixes<'t>(text: &'t str, prefixes: &[&'static str]) -> &'t str
    ensures { result.now ≡ without_prefixes text.now (map (λ p. p.now) prefixes.now) }
{
    'prefixes: for prefix in prefixes {
        if let Some(rest) = text.strip_prefix(*prefix) {
            return rest;
        }
    }
    text
}

// Returns a text if it begins with `10.`, as each DOI does, and otherwise the empty text.
fn right_doi(text: &str) -> &str
    ensures { result.now ≡ right_doi text.now }
{
    if has_start(text, "10.") { text } else { "" }
}

/// Returns the DOI of an entry in lowercase, without braces, white space and a link or a scheme before it; the empty text if the
/// entry has none as one literal.
pub(crate) fn doi(alloc: Global, said: &Spanned<RawEntry<'_>>) -> Result<String, AllocError>
    ensures { IfOk result (λ text. string_bytes text ≡ doi_of (entry_reading_of said.now)) }
{
    let text = squeezed(alloc, own_literal(said, "doi"))?;
    String::from_str(
        alloc,
        right_doi(without_prefixes(text.as_str(), &DOI_PREFIXES)),
    )
}

// The types of whole books: the ISBN of a part, such as a chapter, is that of its book.
static WHOLE_TYPES: [&str; 10] = [
    "book",
    "booklet",
    "collection",
    "manual",
    "mvbook",
    "mvcollection",
    "mvproceedings",
    "mvreference",
    "proceedings",
    "reference",
];

// The types of parts of books: the DOI of a part may be that of its book.
static PART_TYPES: [&str; 8] = [
    "inbook",
    "bookinbook",
    "suppbook",
    "incollection",
    "suppcollection",
    "inproceedings",
    "conference",
    "inreference",
];

// Returns whether an entry is a part of a book.
fn is_part_of_book(said: &Spanned<RawEntry<'_>>) -> bool
    ensures { result ≡ is_part_of_book (entry_reading_of said.now) }
{
    is_among(&PART_TYPES, said.v.kind.v)
}

// Returns whether one entry is a whole book, and the other a part of a book.
fn are_book_and_part(said: &Spanned<RawEntry<'_>>, other: &Spanned<RawEntry<'_>>) -> bool
    ensures { result ≡ are_book_and_part (entry_reading_of said.now) (entry_reading_of other.now) }
{
    (is_whole_book(said) && is_part_of_book(other))
        || (is_part_of_book(said) && is_whole_book(other))
}

// Returns whether an entry is a whole book.
fn is_whole_book(said: &Spanned<RawEntry<'_>>) -> bool
    ensures { result ≡ is_whole_book (entry_reading_of said.now) }
{
    is_among(&WHOLE_TYPES, said.v.kind.v)
}

// Returns a text without hyphens, braces and white space, in lowercase.
fn unhyphened(alloc: Global, text: &str) -> Result<String, AllocError>
    ensures { IfOk result (λ found. string_bytes found ≡ unhyphened text.now) }
{
    let text = squeezed(alloc, text)?;
    text.as_str().chars().filter(|c| *c != '-').collect(alloc)
}

// Returns whether a text has the length, the digits and the check digit of an ISBN.
fn is_right_isbn(text: &[u8]) -> bool
    ensures { result ≡ (list_all spec.is_digit_or_x text.now && spec.is_isbn text.now) }
{
    are_digits_or_x(text) && is_isbn(text)
}

// Returns a text if it has the length, the digits and the check digit of an ISBN, and otherwise the empty text.
fn right_isbn(text: &str) -> &str
    ensures { result.now ≡ right_isbn text.now }
{
    if is_right_isbn(text.as_bytes()) {
        text
    } else {
        ""
    }
}

/// Returns the ISBN of a whole book in lowercase, without hyphens, braces and white space. The text is empty if the entry has no ISBN as
/// one literal, or isn't a whole book.
pub(crate) fn isbn(alloc: Global, said: &Spanned<RawEntry<'_>>) -> Result<String, AllocError>
    ensures { IfOk result (λ text. string_bytes text ≡ isbn_of (entry_reading_of said.now)) }
{
    if !is_whole_book(said) {
        return Ok(String::new(alloc));
    }
    let text = unhyphened(alloc, own_literal(said, "isbn"))?;
    String::from_str(alloc, right_isbn(text.as_str()))
}

// The fields that tell parts, volumes and editions of one title apart.
static TELLING_FIELDS: [&str; 7] = [
    "volume", "number", "pages", "chapter", "part", "edition", "subtitle",
];

// Compares two texts in lowercase and without hyphens, braces and white space. Returns whether neither is empty then, and they differ.
fn are_different(alloc: Global, text: &str, other: &str) -> Result<bool, AllocError>
    ensures { IfOk result (λ differ. differ ≡ are_different (unhyphened text.now) (unhyphened other.now)) }
{
    let text = unhyphened(alloc, text)?;
    let other = unhyphened(alloc, other)?;
    Ok(!text.is_empty() && !other.is_empty() && text.as_str() != other.as_str())
}

// Returns whether the texts of two entries in the field of one of these names are different, as `are_different` compares them.
fn differ_in(
    alloc: Global,
    said: &Spanned<RawEntry<'_>>,
    other: &Spanned<RawEntry<'_>>,
    names: &[&'static str],
) -> Result<bool, AllocError>
    ensures { IfOk result (λ differ. differ ≡
        list_any (differs_in (entry_reading_of said.now) (entry_reading_of other.now)) (texts names.now)) }
{
    'names: for name in names {
        if are_different(alloc, own_literal(said, name), own_literal(other, name))? {
            return Ok(true);
        }
    }
    Ok(false)
}

// Returns whether some people end in `and others`, which means further people.
fn end_in_others(alloc: Global, people: &str) -> Result<bool, AllocError>
    ensures { IfOk result (λ others. others ≡ end_in_others people.now) }
{
    let words = plain_words(alloc, people)?;
    Ok(has_end(words.as_str(), " and others "))
}

/// Returns whether the people of one of two entries end in `and others`.
pub(crate) fn have_open_list(
    alloc: Global,
    said: &Spanned<RawEntry<'_>>,
    other: &Spanned<RawEntry<'_>>,
) -> Result<bool, AllocError>
    ensures { IfOk result (λ has. has ≡ have_open_list (entry_reading_of said.now) (entry_reading_of other.now)) }
{
    if end_in_others(alloc, own_people(said))? {
        return Ok(true);
    }
    end_in_others(alloc, own_people(other))
}

// Returns whether two entries have different people, as `are_different` compares them. A list that ends in `and others` isn't compared.
fn have_other_people(
    alloc: Global,
    said: &Spanned<RawEntry<'_>>,
    other: &Spanned<RawEntry<'_>>,
) -> Result<bool, AllocError>
    ensures { IfOk result (λ differ. differ ≡ have_other_people (entry_reading_of said.now) (entry_reading_of other.now)) }
{
    if have_open_list(alloc, said, other)? {
        return Ok(false);
    }
    are_different(alloc, own_people(said), own_people(other))
}

// Returns whether two texts are equal, and not empty.
fn are_same(text: &str, other: &str) -> bool
    ensures { result ≡ are_same text.now other.now }
{
    !text.is_empty() && text == other
}

/// Returns whether two entries have the same DOI.
pub(crate) fn share_doi(
    alloc: Global,
    said: &Spanned<RawEntry<'_>>,
    other: &Spanned<RawEntry<'_>>,
) -> Result<bool, AllocError>
    ensures { IfOk result (λ same. same ≡ share_doi (entry_reading_of said.now) (entry_reading_of other.now)) }
{
    let text = doi(alloc, said)?;
    let other = doi(alloc, other)?;
    Ok(are_same(text.as_str(), other.as_str()))
}

/// Returns whether two entries have the same ISBN of whole books.
pub(crate) fn share_isbn(
    alloc: Global,
    said: &Spanned<RawEntry<'_>>,
    other: &Spanned<RawEntry<'_>>,
) -> Result<bool, AllocError>
    ensures { IfOk result (λ same. same ≡ share_isbn (entry_reading_of said.now) (entry_reading_of other.now)) }
{
    let text = isbn(alloc, said)?;
    let other = isbn(alloc, other)?;
    Ok(are_same(text.as_str(), other.as_str()))
}

// Returns whether two entries have neither a DOI nor an ISBN in common, and have different people.
fn are_other_works(
    alloc: Global,
    said: &Spanned<RawEntry<'_>>,
    other: &Spanned<RawEntry<'_>>,
) -> Result<bool, AllocError>
    ensures { IfOk result (λ differ. differ ≡ (not (share_doi (entry_reading_of said.now) (entry_reading_of other.now)
        || share_isbn (entry_reading_of said.now) (entry_reading_of other.now))
        && have_other_people (entry_reading_of said.now) (entry_reading_of other.now))) }
{
    if share_doi(alloc, said, other)? || share_isbn(alloc, said, other)? {
        return Ok(false);
    }
    have_other_people(alloc, said, other)
}

// Returns whether two entries are parts of books, and the parts have different titles.
fn are_other_parts(
    alloc: Global,
    said: &Spanned<RawEntry<'_>>,
    other: &Spanned<RawEntry<'_>>,
) -> Result<bool, AllocError>
    ensures { IfOk result (λ differ. differ ≡ are_other_parts (entry_reading_of said.now) (entry_reading_of other.now)) }
{
    if !is_part_of_book(said) || !is_part_of_book(other) {
        return Ok(false);
    }
    are_different(
        alloc,
        own_literal(said, "title"),
        own_literal(other, "title"),
    )
}

/// Returns whether two entries are told apart: one is a part of a book and the other a whole book, both are parts with different titles,
/// they differ in one of the fields `volume`, `number`, `pages`, `chapter`, `part`, `edition` and `subtitle`, or they have neither a DOI
/// nor an ISBN in common and have different people.
pub(crate) fn are_told_apart(
    alloc: Global,
    said: &Spanned<RawEntry<'_>>,
    other: &Spanned<RawEntry<'_>>,
) -> Result<bool, AllocError>
    ensures { IfOk result (λ told. told ≡ are_told_apart (entry_reading_of said.now) (entry_reading_of other.now)) }
{
    if are_book_and_part(said, other) || are_other_parts(alloc, said, other)? {
        return Ok(true);
    }
    if differ_in(alloc, said, other, &TELLING_FIELDS)? {
        return Ok(true);
    }
    are_other_works(alloc, said, other)
}

/// Returns the year of an entry: its field `year`, or else the first four characters of its date. The words are in
/// lowercase and without braces, each followed by a space. A field that isn't one literal counts as missing. The text is empty if the
/// entry has no year.
pub fn year(alloc: Global, said: &Spanned<RawEntry<'_>>) -> Result<String, AllocError>
    ensures { IfOk result (λ text. string_bytes text ≡ year_of (entry_reading_of said.now)) }
{
    let of_date = first_four(alloc, own_literal(said, "date"))?;
    plain_words(alloc, or_else(own_literal(said, "year"), of_date.as_str()))
}

// Returns a title, a first person and a year as one text, joined by `{`; the empty text if one of them is empty.
fn work_text(alloc: Global, title: &str, person: &str, year: &str) -> Result<String, AllocError>
    ensures { IfOk result (λ text. string_bytes text ≡ work_text title.now person.now year.now) }
{
    if title.is_empty() || person.is_empty() || year.is_empty() {
        return Ok(String::new(alloc));
    }
    format!(in alloc; "{title}{{{person}{{{year}")
}

/// Returns the words of the title of an entry in lowercase and without braces, each followed by a space. A title that isn't one literal
/// counts as missing.
pub(crate) fn title(alloc: Global, said: &Spanned<RawEntry<'_>>) -> Result<String, AllocError>
    ensures { IfOk result (λ text. string_bytes text ≡ title_of (entry_reading_of said.now)) }
{
    plain_words(alloc, own_literal(said, "title"))
}

// Returns the authors of an entry, or else its editors. A field that isn't one literal counts as missing.
fn own_people<'s>(said: &Spanned<RawEntry<'s>>) -> &'s str
    ensures { result.now ≡ own_people (entry_reading_of said.now) }
{
    or_else(own_literal(said, "author"), own_literal(said, "editor"))
}

/// Returns the first author of an entry, or else its first editor. The words are in lowercase and without braces, each
/// followed by a space. A field that isn't one literal counts as missing. The text is empty if the entry has neither.
pub fn person(alloc: Global, said: &Spanned<RawEntry<'_>>) -> Result<String, AllocError>
    ensures { IfOk result (λ text. string_bytes text ≡ first_person_of (entry_reading_of said.now)) }
{
    first_person(alloc, own_people(said))
}

// Returns the title, the first person and the year of an entry, or the empty text if it lacks one of them.
fn work(alloc: Global, said: &Spanned<RawEntry<'_>>) -> Result<String, AllocError>
    ensures { IfOk result (λ text. string_bytes text ≡ work_of (entry_reading_of said.now)) }
{
    let title = title(alloc, said)?;
    let person = person(alloc, said)?;
    let year = year(alloc, said)?;
    work_text(alloc, title.as_str(), person.as_str(), year.as_str())
}

// Appends an identity of this kind, if the text isn't empty.
fn push_identity(
    alloc: Global,
    all: &mut Vec<String>,
    kind: &str,
    text: &str,
) -> Result<(), AllocError>
    ensures { OnOk result (map string_bytes all.new.items ≡ map string_bytes all.old.items ++
        identity kind.now text.now) }
{
    if text.is_empty() {
        return Ok(());
    }
    all.push(format!(in alloc; "{kind}{text}")?)?;
    Ok(())
}

// Returns the identities of an entry. Two entries that share one are likely the same work, unless a field tells them apart.
pub(crate) fn identities(
    alloc: Global,
    said: &Spanned<RawEntry<'_>>,
) -> Result<Vec<String>, AllocError>
    ensures { IfOk result (λ all. map string_bytes all.items ≡ identities (entry_reading_of said.now)) }
{
    let mut all = Vec::new(alloc);
    push_identity(alloc, &mut all, "doi ", doi(alloc, said)?.as_str())?;
    push_identity(alloc, &mut all, "isbn ", isbn(alloc, said)?.as_str())?;
    push_identity(alloc, &mut all, "work ", work(alloc, said)?.as_str())?;
    Ok(all)
}
