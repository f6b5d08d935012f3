//! The text that a pattern gives for an entry.

ghost use Rattle.std.specs.Prelude.{◌≡◌, ◌++◌, IfOk, OnOk, length, string_bytes};
ghost use Rattle.std.specs.List.{flat_map};
ghost use Rattle.std.specs.Option.{option_copied};
ghost use Rattle.bib_entry.specs.Fields.{field_or};
ghost use Rattle.bib_keys.specs.Bases as spec;

use crate::cases::push_words;
use crate::characters::is_in_keys;
use crate::names::names_in_key;
use crate::pattern::{Case, Part};
use crate::titles::first_words;
use crate::years::year_digits;
use bib_chunks::chunk::{ChunksRef, format_verbatim};
use bib_entry::entry::Entry;
use std::alloc::{AllocError, Global};

// Returns the field `name`, or else the field `other`.
fn field_or<'a>(entry: &'a Entry, name: &str, other: &str) -> Option<ChunksRef<'a>>
    ensures { option_copied result ≡ field_or entry.now name.now other.now }
{
    match entry.get(name) {
        Some(chunks) => Some(chunks),
        None => entry.get(other),
    }
}

// Appends the names in a key for the authors, or for the editors if there is no field `author`.
fn push_authors(
    alloc: Global,
    out: &mut String,
    case: Case,
    count: Option<u8>,
    entry: &Entry,
) -> Result<(), AllocError>
    ensures { OnOk result (string_bytes out.new ≡ string_bytes out.old ++ spec.authors_in_key case count entry.now) }
{
    let Some(people) = field_or(entry, "author", "editor") else {
        return Ok(());
    };
    let names = names_in_key(alloc, count, people)?;
    push_words(alloc, out, case, &names)
}

// Appends the first `count` significant words of the title, or the first one if there is no `count`.
fn push_title(
    alloc: Global,
    out: &mut String,
    case: Case,
    count: Option<u8>,
    entry: &Entry,
) -> Result<(), AllocError>
    ensures { OnOk result (string_bytes out.new ≡ string_bytes out.old ++ spec.title_in_key case count entry.now) }
{
    let Some(title) = entry.get("title") else {
        return Ok(());
    };
    let words = first_words(alloc, count.unwrap_or(1) as usize, title)?;
    push_words(alloc, out, case, &words)
}

// Appends the year: the first four ASCII digits in a row in the field `date`, or in `year` if there is no `date`. If `is_short`,
// appends only the last two of them.
fn push_year(
    alloc: Global,
    out: &mut String,
    is_short: bool,
    entry: &Entry,
) -> Result<(), AllocError>
    ensures { OnOk result (string_bytes out.new ≡ string_bytes out.old ++ spec.year_in_key is_short entry.now) }
{
    let Some(date) = field_or(entry, "date", "year") else {
        return Ok(());
    };
    let date = format_verbatim(alloc, date)?;
    out.push_str(year_digits(date.as_str(), is_short))
}

// Appends the text of a part.
fn push_part(alloc: Global, out: &mut String, entry: &Entry, part: Part) -> Result<(), AllocError>
    ensures { OnOk result (string_bytes out.new ≡ string_bytes out.old ++ spec.part_text entry.now part) }
{
    match part {
        Part::Literal(c) => out.push(c),
        Part::Author(case, count) => push_authors(alloc, out, case, count, entry),
        Part::Title(case, count) => push_title(alloc, out, case, count, entry),
        Part::Year => push_year(alloc, out, false, entry),
        Part::ShortYear => push_year(alloc, out, true, entry),
    }
}

// Returns the texts of parts, one after another.
fn joined(alloc: Global, pattern: &[Part], entry: &Entry) -> Result<String, AllocError>
    ensures { IfOk result (λ text. string_bytes text ≡ flat_map (spec.part_text entry.now) pattern.now) }
{
    let mut out = String::new(alloc);
    'parts: for part in pattern {
        push_part(alloc, &mut out, entry, *part)?;
    }
    Ok(out)
}

// Returns whether `c` stays in a key after the character `last`: it is allowed, and no hyphen after a hyphen.
fn is_kept(last: char, c: char) -> bool
    ensures { result ≡ spec.is_kept last c }
{
    is_in_keys(c) && !(last == '-' && c == '-')
}

// Returns a text without the characters that don't stay in a key.
fn cleaned(alloc: Global, text: &str) -> Result<String, AllocError>
    ensures { IfOk result (λ key. string_bytes key ≡ spec.cleaned text.now) }
{
    let mut out = String::new(alloc);
    let mut last = ' ';
    'bytes: for byte in text.as_bytes() {
        let c = *byte as char;
        if !is_kept(last, c) {
            continue;
        }
        out.push(c)?;
        last = c;
    }
    Ok(out)
}

// Returns whether a text has an ASCII letter or an ASCII digit.
fn has_letter_or_digit(text: &str) -> bool
    ensures { result ≡ spec.has_letter_or_digit text.now }
{
    text.as_bytes()
        .iter()
        .any(|byte| byte.is_ascii_alphanumeric())
}

// Returns the text that a pattern gives for an entry.
pub(crate) fn pattern_text(
    alloc: Global,
    pattern: &[Part],
    entry: &Entry,
) -> Result<String, AllocError>
    ensures { IfOk result (λ text. string_bytes text ≡ spec.pattern_text pattern.now entry.now) }
{
    let text = joined(alloc, pattern, entry)?;
    let text = cleaned(alloc, text.as_str())?;
    if has_letter_or_digit(text.as_str()) {
        return Ok(text);
    }
    String::from_str(alloc, "nokey")
}
