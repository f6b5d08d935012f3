//! Findings of malformed names of people.

ghost use Rattle.std.specs.Prelude.{◌≡◌, ◌==◌, ◌++◌, ◌||◌, codes, count_by, eqb, map, nat_eq, IfOk, OnOk};
ghost use Rattle.std.specs.List.{ends_with, flat_map, slice_split, starts_with};
ghost use Rattle.std.specs.String.{string_bytes};
ghost use Rattle.bib_text.specs.Characters as char;
ghost use Rattle.bib_queries.specs.Answers.{has_part};
ghost use Rattle.bib_syntax.specs.Views.{entry_reading_of, field_of};
ghost use Rattle.bib_findings.specs.People as spec;
ghost use Rattle.bib_findings.specs.People.{name_finding, name_findings, malformed_names};

use crate::codes::Code;
use crate::fields::named_message;
use crate::finding::Finding;
use crate::identities::{literal_text, plain_words};
use crate::nearest::is_among;
use crate::outside::outside_braces;
use bib_syntax::raw::{Pair, RawEntry};
use bib_text::spanned::Spanned;
use bib_text::text::Text;
use std::alloc::{AllocError, Global};

// A fault of a name.
#[derive(Clone, Copy)]
enum Fault {
    // It has no words.
    Empty,
    // It has more than two commas.
    ManyCommas,
    // It begins with a comma.
    CommaFirst,
    // It ends with a comma.
    CommaLast,
    // It contains `et al` or `et al.`, in place of `and others`.
    EtAl,
    // It contains a semicolon.
    Semicolon,
}

// The fields with names of people.
static PERSON_FIELDS: [&str; 15] = [
    "afterword",
    "annotator",
    "author",
    "bookauthor",
    "commentator",
    "editor",
    "editora",
    "editorb",
    "editorc",
    "foreword",
    "holder",
    "introduction",
    "shortauthor",
    "shorteditor",
    "translator",
];

// Appends a word and a space, or a line feed for the word `and`. Appends nothing for an empty word.
fn push_in_lines(lines: &mut String, word: &str) -> Result<(), AllocError>
    ensures { OnOk result (string_bytes lines.new ≡ string_bytes lines.old ++ spec.word_in_lines word.now) }
{
    if word.is_empty() {
        return Ok(());
    }
    if word == "and" {
        return lines.push_str("\n");
    }
    lines.push_str(word)?;
    lines.push_str(" ")
}

// Returns the words of a text, which are separated by spaces. A space follows each word, and a line feed is in place of each word `and`.
fn words_in_lines(alloc: Global, text: &str) -> Result<String, AllocError>
    ensures { IfOk result (λ lines. string_bytes lines ≡
        flat_map spec.word_in_lines (slice_split (λ b. b == char.space) text.now)) }
{
    let mut lines = String::with_capacity(alloc, text.len())?;
    'words: for word in text.split(' ') {
        push_in_lines(&mut lines, word)?;
    }
    Ok(lines)
}

// Returns a list of people in lowercase: the words of each person, each followed by a space, with a line feed between people. An `x`
// replaces each pair of braces with its contents.
fn lines_of_people(alloc: Global, text: &str) -> Result<String, AllocError>
    ensures { IfOk result (λ lines. string_bytes lines ≡ spec.lines_of_people text.now) }
{
    let outside = outside_braces(alloc, text)?;
    let plain = plain_words(alloc, &outside)?;
    words_in_lines(alloc, &plain)
}

// Returns the people in these lines.
fn people_in(alloc: Global, lines: &str) -> Result<Vec<&str>, AllocError>
    ensures { IfOk result (λ people. map (λ name. name.now) people.items ≡ spec.people_in lines.now) }
{
    lines.split('\n').collect(alloc)
}

// Returns the number of commas in a name.
fn comma_count(name: &str) -> usize
    ensures { result ≡ count_by (nat_eq char.comma) name.now }
{
    let mut count = 0usize;
    'bytes: for byte in name.as_bytes() {
        if *byte == b',' {
            count += 1;
        }
    }
    count
}

// Returns whether a name begins with a text.
pub(crate) fn has_start(name: &str, start: &str) -> bool
    ensures { result ≡ starts_with eqb name.now start.now }
{
    name.starts_with(start)
}

// Returns whether a name ends with a text.
pub(crate) fn has_end(name: &str, end: &str) -> bool
    ensures { result ≡ ends_with eqb name.now end.now }
{
    name.ends_with(end)
}

// Returns whether a name contains a text.
fn contains(name: &str, part: &str) -> bool
    ensures { result ≡ has_part part.now name.now }
{
    name.contains(part)
}

// Returns whether a name contains the words `et al` or `et al.`. A space follows each word of the name.
fn has_et_al(name: &str) -> bool
    ensures { result ≡ (spec.has_phrase name.now (codes "et al ") || spec.has_phrase name.now (codes "et al. ")) }
{
    let is_plain = has_start(name, "et al ") || contains(name, " et al ");
    is_plain || has_start(name, "et al. ") || contains(name, " et al. ")
}

// Returns the first fault of the words of a person, if they have one. The words contain no equals sign.
fn fault_of_words(name: &str) -> Option<Fault>
    ensures { result ≡ spec.fault_of_words name.now }
{
    if comma_count(name) > 2 {
        return Some(Fault::ManyCommas);
    }
    if has_start(name, ",") {
        return Some(Fault::CommaFirst);
    }
    if has_end(name, ", ") {
        return Some(Fault::CommaLast);
    }
    if has_et_al(name) {
        return Some(Fault::EtAl);
    }
    if contains(name, ";") {
        return Some(Fault::Semicolon);
    }
    None
}

// Returns the fault of a name, if it has one. A name with an equals sign isn't tested.
fn fault_of(name: &str) -> Option<Fault>
    ensures { result ≡ spec.fault_of name.now }
{
    if name.is_empty() {
        return Some(Fault::Empty);
    }
    if contains(name, "=") {
        return None;
    }
    fault_of_words(name)
}

// Returns the fault of the first person with a fault, if there is one.
fn first_fault(people: &[&str]) -> Option<Fault>
    ensures { result ≡ spec.first_fault (map (λ name. name.now) people.now) }
{
    'people: for name in people {
        if let Some(fault) = fault_of(name) {
            return Some(fault);
        }
    }
    None
}

// Returns the first fault in a list of people, if there is one.
fn fault_in(alloc: Global, text: &str) -> Result<Option<Fault>, AllocError>
    ensures { IfOk result (λ fault. fault ≡ spec.fault_in text.now) }
{
    if text.trim().is_empty() {
        return Ok(None);
    }
    let lines = lines_of_people(alloc, text)?;
    let people = people_in(alloc, &lines)?;
    Ok(first_fault(&people))
}

// Returns the words of a message before the name of the field.
fn before_field(fault: Fault) -> &'static str
    ensures { result.now ≡ spec.before_field fault }
{
    match fault {
        Fault::Empty => "empty name beside `and` in ",
        Fault::ManyCommas => "name with more than two commas in ",
        Fault::CommaFirst => "name that begins with a comma in ",
        Fault::CommaLast => "name that ends with a comma in ",
        Fault::EtAl => "`et al.` in ",
        Fault::Semicolon => "semicolon in ",
    }
}

// Returns the words of a message after the name of the field.
fn after_field(fault: Fault) -> &'static str
    ensures { result.now ≡ spec.after_field fault }
{
    match fault {
        Fault::EtAl => "; write `and others`",
        Fault::ManyCommas | Fault::Semicolon => "; names are separated by `and`",
        Fault::Empty | Fault::CommaFirst | Fault::CommaLast => "",
    }
}

// Returns the finding of a field of the entry with this key, which has this fault.
fn name_finding(
    alloc: Global,
    key: &str,
    field: &Pair<'_>,
    fault: Fault,
) -> Result<Finding, AllocError>
    ensures { IfOk result (λ finding. finding ≡ name_finding key.now (field_of field.now) fault) }
{
    let (before, after) = (before_field(fault), after_field(fault));
    let message = named_message(alloc, key, before, field.key.v, after)?;
    Ok(Finding {
        code: Code::MalformedName,
        span: field.key.span.start..field.key.span.end,
        message: Text::from_string(message),
    })
}

// Appends the finding of a field of the entry with this key, if it contains people and its value is one literal with a malformed name.
fn add_name(
    alloc: Global,
    found: &mut Vec<Finding>,
    key: &str,
    field: &Pair<'_>,
) -> Result<(), AllocError>
    ensures { OnOk result (found.new.items ≡ found.old.items ++ malformed_names key.now (field_of field.now)) }
{
    if !is_among(&PERSON_FIELDS, field.key.v) {
        return Ok(());
    }
    if let Some(fault) = fault_in(alloc, literal_text(&field.value.v))? {
        found.push(name_finding(alloc, key, field, fault)?)?;
    }
    Ok(())
}

// Appends the findings of these fields of the entry with this key that have malformed names.
fn add_names_among(
    alloc: Global,
    found: &mut Vec<Finding>,
    key: &str,
    fields: &[Pair<'_>],
) -> Result<(), AllocError>
    ensures { OnOk result (found.new.items ≡ found.old.items ++ flat_map (malformed_names key.now) (map field_of fields.now)) }
{
    'fields: for field in fields {
        add_name(alloc, found, key, field)?;
    }
    Ok(())
}

/// Appends the findings of the malformed names of an entry.
pub(crate) fn add_names(
    alloc: Global,
    found: &mut Vec<Finding>,
    said: &Spanned<RawEntry<'_>>,
) -> Result<(), AllocError>
    ensures { OnOk result (found.new.items ≡ found.old.items ++ name_findings (entry_reading_of said.now)) }
{
    add_names_among(alloc, found, said.v.key.v, &said.v.fields)
}
