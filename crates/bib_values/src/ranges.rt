//! Parses and writes ranges of numbers, as in `pages`.

ghost use Rattle.std.specs.Prelude.{◌≡◌, ◌==◌, ◌++◌, Some, None, IfOk, MatchOption, codes, map, string_bytes, encode_utf8_all};
ghost use Rattle.std.specs.Char.{is_ascii_digit, is_whitespace};
ghost use Rattle.std.specs.Option.{option_map};
ghost use Rattle.std.specs.Str.{chars};
ghost use Rattle.std.specs.Fmt.{decimal};
ghost use Rattle.bib_text.specs.Characters as char;
ghost use Rattle.bib_values.specs.Ranges.{leading_number, is_dash, after_dash, up_to, goes_on_with, starts_with, range_of, ranges_read, range_read, range_text, range_written, ranges_written};
ghost use Rattle.bib_text.specs.Runs.{leading_run, rest_after};

use crate::lists::write_strings;
use bib_chunks::chunk::cuts::comma_list;
use bib_chunks::chunk::making::normal;
use bib_chunks::chunk::{Chunks, ChunksRef, format_verbatim};
use bib_text::scanner::Scanner;
use std::alloc::{AllocError, Global};
use std::ops::Range;

// Returns the ASCII digits at the start of a text, and the text after them.
fn digits(text: &str) -> (&str, &str)
    ensures digits { result.0.now ≡ leading_run is_ascii_digit (chars text.now) }
    ensures rest { chars result.1.now ≡ rest_after is_ascii_digit (chars text.now) }
{
    let mut scanner = Scanner::new(text);
    let run = scanner.eat_while(|c| c.is_ascii_digit());
    let at = scanner.cursor();
    (run, &text[at..])
}

// Returns a text without the hyphens at its start.
fn after_hyphens(text: &str) -> &str
    ensures { chars result.now ≡ rest_after (λ c. c == char.hyphen) (chars text.now) }
{
    let mut scanner = Scanner::new(text);
    let _hyphens = scanner.eat_while(|c| c == '-');
    let at = scanner.cursor();
    &text[at..]
}

// Returns a text without the white space at its start.
fn after_white(text: &str) -> &str
    ensures { chars result.now ≡ rest_after is_whitespace (chars text.now) }
{
    text.trim_start()
}

// Returns the number at the start of a text, and the text after it.
fn leading_number(text: &str) -> Option<(u32, &str)>
    ensures { MatchOption result (leading_number (chars text.now) ≡ None)
        (λ found. leading_number (chars text.now) ≡ Some (found.0, chars found.1.now)) }
{
    let (run, rest) = digits(text);
    let Ok(value) = run.parse::<u32>() else {
        return None;
    };
    Some((value, rest))
}

// Returns whether the character separates two numbers.
fn is_dash(c: char) -> bool
    ensures { result ≡ is_dash c }
{
    c == '-' || c == '\u{2013}' || c == '\u{2014}'
}

// Returns a text without the dash and any further hyphens at its start, if it begins with a dash.
fn after_dash(text: &str) -> Option<&str>
    ensures { MatchOption result (after_dash (chars text.now) ≡ None)
        (λ rest. after_dash (chars text.now) ≡ Some (chars rest.now)) }
{
    let mut scanner = Scanner::new(text);
    let Some(c) = scanner.eat() else {
        return None;
    };
    let at = scanner.cursor();
    let rest = after_hyphens(&text[at..]);
    if !is_dash(c) {
        return None;
    }
    Some(rest)
}

// Returns the range with this start, from the text after a dash.
fn up_to(start: u32, text: &str) -> Option<Range<u32>>
    ensures { result ≡ up_to start (Some (chars text.now)) }
{
    let Some(found) = leading_number(after_white(text)) else {
        return None;
    };
    let rest = found.1.as_bytes();
    if rest.len() > 0 {
        return None;
    }
    Some(start..found.0)
}

// Returns the range with this start, from the text after the start and the white space there.
fn goes_on_with(start: u32, text: &str) -> Option<Range<u32>>
    ensures { result ≡ goes_on_with start (chars text.now) }
{
    if text.len() == 0 {
        return Some(start..start);
    }
    let Some(rest) = after_dash(text) else {
        return None;
    };
    up_to(start, rest)
}

// Returns the range that a text spells.
fn range_of(text: &str) -> Option<Range<u32>>
    ensures { result ≡ range_of (chars text.now) }
{
    let Some(found) = leading_number(after_white(text)) else {
        return None;
    };
    goes_on_with(found.0, after_white(found.1))
}

/// Returns the ranges that the formatted parts of a comma list spell, or `None` if a part spells none. The only error
/// is out of memory.
///
/// A range is one number, which is both its ends, or two numbers with a dash between them. A number has decimal digits
/// and fits in 32 bits. The dash is `-`, U+2013 or U+2014, and any number of `-` may come after it. White space may
/// come before each number and before the dash, and after a single number.
pub fn read_ranges(
    alloc: Global,
    chunks: ChunksRef<'_>,
) -> Result<Option<Vec<Range<u32>>>, AllocError>
    ensures { IfOk result (λ ranges. option_map (λ v. v.items) ranges ≡ ranges_read chunks.now) }
{
    let list = comma_list(alloc, chunks)?;
    let mut ranges = Vec::new(alloc);
    'parts: for part in list.as_slice() {
        let text = format_verbatim(alloc, part.as_slice())?;
        let Some(range) = range_of(text.as_str()) else {
            return Ok(None);
        };
        ranges.push(range)?;
    }
    Ok(Some(ranges))
}

/// Returns the first of the ranges that the formatted parts of a comma list spell, or `None` if a part spells none. The
/// only error is out of memory.
pub fn read_range(alloc: Global, chunks: ChunksRef<'_>) -> Result<Option<Range<u32>>, AllocError>
    ensures { IfOk result (λ range. range ≡ range_read chunks.now) }
{
    let Some(ranges) = read_ranges(alloc, chunks)? else {
        return Ok(None);
    };
    let Some(range) = ranges.first() else {
        return Ok(None);
    };
    Ok(Some(range.start..range.end))
}

// Returns the written text of a range.
fn range_text(alloc: Global, range: &Range<u32>) -> Result<String, AllocError>
    ensures { IfOk result (λ text. string_bytes text ≡ range_text range.now) }
{
    let mut text = range.start.to_string(alloc)?;
    let end = range.end.to_string(alloc)?;
    text.push_str("-")?;
    text.push_str(end.as_str())?;
    Ok(text)
}

/// Returns a range as one normal chunk: its ends in decimal digits, with `-` between them. The only error is out of
/// memory.
pub fn write_range(alloc: Global, range: &Range<u32>) -> Result<Chunks, AllocError>
    ensures { IfOk result (λ chunks. chunks ≡ range_written range.now) }
{
    let text = range_text(alloc, range)?;
    normal(alloc, text.as_str())
}

/// Returns ranges as a comma list: each is one normal chunk, with a normal chunk `,` between each two. The only error
/// is out of memory.
pub fn write_ranges(alloc: Global, ranges: &[Range<u32>]) -> Result<Chunks, AllocError>
    ensures { IfOk result (λ chunks. chunks ≡ ranges_written ranges.now) }
{
    let mut texts = Vec::new(alloc);
    'ranges: for range in ranges {
        texts.push(range_text(alloc, range)?)?;
    }
    write_strings(alloc, texts.as_slice())
}
