//! Findings of wrong standard numbers of books and of serials: ISBN and ISSN.

ghost use Rattle.std.specs.Prelude.{◌≡◌, ◌++◌, map, IfOk, OnOk};
ghost use Rattle.std.specs.List.{list_any};
ghost use Rattle.bib_syntax.specs.Views.{entry_reading_of};
ghost use Rattle.bib_findings.specs.StandardNumbers as spec;
ghost use Rattle.bib_findings.specs.StandardNumbers.{number_finding, number_finding_of, number_findings};

use crate::check_digits::{are_digits_or_x, is_isbn, is_issn};
use crate::codes::Code;
use crate::fields::named_message;
use crate::finding::Finding;
use crate::identities::own_literal;
use crate::places::field_place;
use bib_syntax::raw::RawEntry;
use bib_text::spanned::Spanned;
use bib_text::text::Text;
use std::alloc::{AllocError, Global};

// Returns whether a byte separates numbers: a comma, a semicolon, or one of the letters of the word `and`.
fn is_number_separator(b: u8) -> bool
    ensures { result ≡ spec.is_number_separator b }
{
    matches!(b, b',' | b';' | b'a' | b'n' | b'd')
}

// Returns whether a byte is a hyphen or a space, which separate the groups of a number.
fn is_group_separator(b: u8) -> bool
    ensures { result ≡ spec.is_group_separator b }
{
    b == b'-' || b == b' '
}

// Returns whether digits have the length and the check digit of an ISSN if `is_serial` is true, or else of an ISBN.
fn is_standard_number(is_serial: bool, digits: &[u8]) -> bool
    ensures { result ≡ spec.is_standard_number is_serial digits.now }
{
    if is_serial {
        is_issn(digits)
    } else {
        is_isbn(digits)
    }
}

// Returns the bytes of a text without hyphens and spaces: the digits of a number.
fn digits_of(alloc: Global, part: &[u8]) -> Result<Vec<u8>, AllocError>
    ensures { IfOk result (λ digits. digits.items ≡ spec.digits_of part.now) }
{
    part.iter()
        .copied()
        .filter(|b| !is_group_separator(*b))
        .collect(alloc)
}

// Returns whether a text without its hyphens and spaces is neither empty nor a standard number.
fn is_wrong_number(alloc: Global, is_serial: bool, text: &[u8]) -> Result<bool, AllocError>
    ensures { IfOk result (λ wrong. wrong ≡ spec.is_wrong_number is_serial text.now) }
{
    let digits = digits_of(alloc, text)?;
    Ok(!digits.is_empty() && !is_standard_number(is_serial, &digits))
}

// Returns whether a byte separates words: a space.
fn is_word_separator(b: u8) -> bool
    ensures { result ≡ spec.is_word_separator b }
{
    b == b' '
}

// Returns the words of a part between spaces. A word may be empty.
fn number_words(alloc: Global, part: &[u8]) -> Result<Vec<&[u8]>, AllocError>
    ensures { IfOk result (λ words. map (λ word. word.now) words.items ≡ spec.number_words part.now) }
{
    part.split(|b| is_word_separator(*b)).collect(alloc)
}

// Returns whether one of these words is wrong: without its hyphens and spaces, it is neither empty nor a standard number.
fn has_wrong_word(alloc: Global, is_serial: bool, words: &[&[u8]]) -> Result<bool, AllocError>
    ensures { IfOk result (λ wrong. wrong ≡ list_any (spec.is_wrong_number is_serial) (map (λ word. word.now) words.now)) }
{
    'words: for word in words {
        if is_wrong_number(alloc, is_serial, word)? {
            return Ok(true);
        }
    }
    Ok(false)
}

// Returns whether a part and one of its words are neither blank nor a number. A text of only hyphens and spaces is blank.
fn is_wrong_part(alloc: Global, is_serial: bool, part: &[u8]) -> Result<bool, AllocError>
    ensures { IfOk result (λ wrong. wrong ≡ spec.is_wrong_part is_serial part.now) }
{
    if !is_wrong_number(alloc, is_serial, part)? {
        return Ok(false);
    }
    let words = number_words(alloc, part)?;
    has_wrong_word(alloc, is_serial, &words)
}

// Returns whether a part contains only digits, `X` in either case, hyphens and spaces.
fn is_numeric(alloc: Global, part: &[u8]) -> Result<bool, AllocError>
    ensures { IfOk result (λ numeric. numeric ≡ spec.is_numeric part.now) }
{
    let digits = digits_of(alloc, part)?;
    Ok(are_digits_or_x(&digits))
}

// Returns the parts of a text between commas, semicolons and the letters `a`, `n` and `d`: the word `and` separates numbers.
fn number_parts(alloc: Global, text: &str) -> Result<Vec<&[u8]>, AllocError>
    ensures { IfOk result (λ parts. map (λ part. part.now) parts.items ≡ spec.number_parts text.now) }
{
    text.as_bytes()
        .split(|b| is_number_separator(*b))
        .collect(alloc)
}

// Returns whether all of these parts are numeric, and one of them is wrong.
fn has_wrong_among(alloc: Global, is_serial: bool, parts: &[&[u8]]) -> Result<bool, AllocError>
    ensures { IfOk result (λ wrong. wrong ≡ spec.has_wrong_among is_serial (map (λ part. part.now) parts.now)) }
{
    let mut are_numeric = true;
    let mut has_wrong = false;
    'parts: for part in parts {
        let numeric = is_numeric(alloc, part)?;
        let wrong = is_wrong_part(alloc, is_serial, part)?;
        are_numeric = are_numeric && numeric;
        has_wrong = has_wrong || wrong;
    }
    Ok(are_numeric && has_wrong)
}

// Returns whether all parts of a text are numeric, and one of them is wrong as an ISSN if `is_serial` is true, or else as an ISBN.
fn has_wrong_number(alloc: Global, is_serial: bool, text: &str) -> Result<bool, AllocError>
    ensures { IfOk result (λ wrong. wrong ≡ spec.has_wrong_number is_serial text.now) }
{
    let parts = number_parts(alloc, text)?;
    has_wrong_among(alloc, is_serial, &parts)
}

// Returns the code of a wrong number.
fn number_code(is_serial: bool) -> Code
    ensures { result ≡ spec.number_code is_serial }
{
    if is_serial {
        Code::WrongIssn
    } else {
        Code::WrongIsbn
    }
}

// Returns the finding of a field that contains a wrong number.
fn number_finding(
    alloc: Global,
    said: &Spanned<RawEntry<'_>>,
    is_serial: bool,
    name: &str,
) -> Result<Finding, AllocError>
    ensures { IfOk result (λ finding. finding ≡ number_finding (entry_reading_of said.now) is_serial name.now) }
{
    let before = "wrong length or check digit in ";
    let message = named_message(alloc, said.v.key.v, before, name, "")?;
    Ok(Finding {
        code: number_code(is_serial),
        span: field_place(said, name),
        message: Text::from_string(message),
    })
}

// Appends a finding if the field of this name of an entry is one literal that contains a wrong number: an ISSN if `is_serial` is true, or
// else an ISBN.
fn add_number(
    alloc: Global,
    found: &mut Vec<Finding>,
    said: &Spanned<RawEntry<'_>>,
    is_serial: bool,
    name: &str,
) -> Result<(), AllocError>
    ensures { OnOk result (found.new.items ≡ found.old.items ++ number_finding_of (entry_reading_of said.now) is_serial name.now) }
{
    if has_wrong_number(alloc, is_serial, own_literal(said, name))? {
        found.push(number_finding(alloc, said, is_serial, name)?)?;
    }
    Ok(())
}

/// Appends findings of the wrong numbers of an entry, in its fields `isbn` and `issn` if they are one literal.
pub(crate) fn add_numbers(
    alloc: Global,
    found: &mut Vec<Finding>,
    said: &Spanned<RawEntry<'_>>,
) -> Result<(), AllocError>
    ensures { OnOk result (found.new.items ≡ found.old.items ++ number_findings (entry_reading_of said.now)) }
{
    add_number(alloc, found, said, false, "isbn")?;
    add_number(alloc, found, said, true, "issn")
}
