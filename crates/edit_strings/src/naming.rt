//! Names for collected texts.
//!
//! `numbers` maps the start of a name to a number below which every number gives a name that is used. So the search for the next
//! name with this start begins where the last one ended.

ghost use Rattle.std.specs.Prelude.{◌≡◌, ◌≤◌, ◌||◌, ◌++◌, ℕ, List, true, IfOk, OnOk, length};
ghost use Rattle.std.specs.Char.{is_whitespace};
ghost use Rattle.std.specs.List.{list_any};
ghost use Rattle.std.specs.Str.{chars};
ghost use Rattle.std.specs.String.{string_bytes};
ghost use Rattle.bib_syntax.specs.Reading.{FileReading};
ghost use Rattle.edit_strings.specs.Collected as spec;
ghost use Rattle.edit_strings.specs.Collected.{AreNames, is_one_in_any_case, known_name, letters_or_s, name_letters, names_of_file, number_after};
ghost use Rattle.edit_strings.specs.Collecting.{AreBelowUsed, AreUsedBelow, GetsName, IsLeastFree, TakesName, has_lowercase, is_plain_name, is_taken, known_in, letter_at, met_after, string_texts};
ghost use Rattle.edit_strings.specs.Views.{lent_texts};

use crate::taken::Taken;
use bib_tables::months::Month;
use std::alloc::{AllocError, Global};
use std::collections::BTreeMap;

// Returns whether `name` is the abbreviation of a month, in any ASCII case.
pub(crate) fn is_month(name: &str) -> bool
    ensures { result ≡ spec.is_month name.now }
{
    Month::from_abbreviation(name).is_some()
}

// Returns the first ASCII letters of `word` in lowercase, at most `count` of them.
fn first_letters(alloc: Global, word: &str, count: usize) -> Result<String, AllocError>
    ensures { IfOk result (λ letters. string_bytes letters ≡ spec.first_letters count (chars word.now)) }
{
    word.chars()
        .filter(|c| c.is_ascii_alphabetic())
        .take(count)
        .map(|c| c.to_ascii_lowercase())
        .collect(alloc)
}

// Returns whether the current word has had an ASCII letter up to `c`, which is included. White space ends a word.
fn is_met_after(is_met: bool, c: char) -> bool
    ensures { result ≡ met_after is_met c }
{
    !c.is_whitespace() && (is_met || c.is_ascii_alphabetic())
}

// Appends `c` in lowercase if it is the first ASCII letter of a word.
fn push_initial(initials: &mut String, is_met: bool, c: char) -> Result<(), AllocError>
    ensures { OnOk result (string_bytes initials.new ≡ string_bytes initials.old ++ letter_at is_met c) }
{
    if !is_met && c.is_ascii_alphabetic() {
        initials.push(c.to_ascii_lowercase())?;
    }
    Ok(())
}

// Returns the first ASCII letter of each word of `text`, in lowercase.
fn initials(alloc: Global, text: &str) -> Result<String, AllocError>
    ensures { IfOk result (λ initials. string_bytes initials ≡ spec.initials text.now) }
{
    let mut initials = String::new(alloc);
    let mut is_met = false;
    'chars: for c in text.chars() {
        push_initial(&mut initials, is_met, c)?;
        is_met = is_met_after(is_met, c);
    }
    Ok(initials)
}

// Returns whether `text` contains white space.
fn has_white(text: &str) -> bool
    ensures { result ≡ list_any is_whitespace (chars text.now) }
{
    text.chars().any(|c| c.is_whitespace())
}

// Returns the letters from which the name of `text` is made.
fn name_letters(alloc: Global, text: &str) -> Result<String, AllocError>
    ensures { IfOk result (λ letters. string_bytes letters ≡ spec.name_letters text.now) }
{
    if has_white(text.trim()) {
        initials(alloc, text)
    } else {
        first_letters(alloc, text, 8)
    }
}

// Returns the start of the name of `text`: its letters, or `s` if there are none.
fn base(alloc: Global, text: &str) -> Result<String, AllocError>
    ensures { IfOk result (λ base. string_bytes base ≡ letters_or_s (spec.name_letters text.now)) }
{
    let letters = name_letters(alloc, text)?;
    if letters.is_empty() {
        String::from_str(alloc, "s")
    } else {
        Ok(letters)
    }
}

// Returns the number of characters of `text`.
fn character_count(text: &str) -> usize
    ensures { result ≡ length (chars text.now) }
{
    text.chars().count()
}

// Returns whether `text` has more characters than its new name without a number.
pub(crate) fn is_longer_than_name(alloc: Global, text: &str) -> Result<bool, AllocError>
    ensures { IfOk result (λ is. is ≡ spec.is_longer_than_name text.now) }
{
    let base = base(alloc, text)?;
    Ok(base.len() < character_count(text))
}

// Returns `base` followed by `number`, or only `base` if the number is 1.
fn numbered(alloc: Global, base: &str, number: u64) -> Result<String, AllocError>
    ensures { IfOk result (λ name. string_bytes name ≡ base.now ++ number_after number) }
{
    if number == 1 {
        String::from_str(alloc, base)
    } else {
        format!(in alloc; "{base}{number}")
    }
}

// Returns whether `name`, in ASCII lowercase, can't be a new name: it is the abbreviation of a month, or is taken.
fn is_used(taken: &Taken, name: &str) -> bool
    ensures { result ≡ (spec.is_month name.now || has_lowercase taken.now name.now) }
{
    is_month(name) || taken.has(name)
}

// Returns the first number from `from` on that makes `base` a new name, and this name. Each number below `from` makes a name that is
// used. No number from 2 on makes a month's abbreviation, so such a number is only skipped for a taken name. So the loop finds a new
// name before its end.
fn fresh(alloc: Global, taken: &Taken, base: &str, from: u64) -> Result<(u64, String), AllocError>
    requires plain { is_plain_name base.now ≡ true }
    requires some { 1 ≤ from }
    requires used { AreUsedBelow taken.now base.now from }
    ensures { IfOk result (λ made. IsLeastFree taken.now base.now made.0 (string_bytes made.1)) }
{
    let end = taken.count() as u64 + 3;
    'numbers: for number in from..end {
        let name = numbered(alloc, base, number)?;
        if !is_used(taken, name.as_str()) {
            return Ok((number, name));
        }
    }
    unreachable!()
}

// Returns the new name of `text`, and adds it to `taken`.
fn new_name(
    alloc: Global,
    taken: &mut Taken,
    numbers: &mut BTreeMap<String, u64>,
    text: &str,
) -> Result<String, AllocError>
    requires { AreBelowUsed taken.old numbers.old }
    ensures { IfOk result (λ name. TakesName taken.old taken.new numbers.new text.now (string_bytes name)) }
{
    let base = base(alloc, text)?;
    let from = numbers.get(base.as_str()).copied().unwrap_or(1);
    let (number, name) = fresh(alloc, taken, base.as_str(), from)?;
    taken.take(alloc, name.as_str())?;
    numbers.insert(base, number)?;
    Ok(name)
}

// Returns the name of `text`: the one in `known`, or else a new name, which it adds to `taken`.
fn name_of(
    alloc: Global,
    taken: &mut Taken,
    numbers: &mut BTreeMap<String, u64>,
    known: &BTreeMap<&str, &str>,
    text: &str,
) -> Result<String, AllocError>
    requires { AreBelowUsed taken.old numbers.old }
    ensures { IfOk result (λ name. GetsName taken.old taken.new numbers.new (known_in known.now text.now) text.now (string_bytes name)) }
{
    match known.get(text) {
        Some(name) => String::from_str(alloc, *name),
        None => new_name(alloc, taken, numbers, text),
    }
}

// Returns the name of each of `texts`: the one in `known`, or else a new name.
pub(crate) fn names(
    alloc: Global,
    taken: &mut Taken,
    known: &BTreeMap<&str, &str>,
    texts: &[&str],
) -> Result<Vec<String>, AllocError>
    ensures { IfOk result (λ names. (says : FileReading) →
        ((other : List ℕ) → is_taken taken.old other ≡ is_one_in_any_case (names_of_file says) other) →
        ((text : List ℕ) → known_in known.now text ≡ known_name says text) →
        AreNames says (lent_texts texts.now) (string_texts names.items)) }
{
    let mut numbers = BTreeMap::new(alloc);
    let mut names = Vec::with_capacity(alloc, texts.len())?;
    'texts: for text in texts {
        names.push(name_of(alloc, taken, &mut numbers, known, *text)?)?;
    }
    Ok(names)
}
