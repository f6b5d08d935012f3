//! Lines of pages.

ghost use Rattle.std.specs.Prelude.{◌≡◌, ◌++◌, IfOk, OnOk, encode_utf8_all};
ghost use Rattle.std.specs.Char.{is_ascii_digit};
ghost use Rattle.std.specs.List.{filter, prefix_len};
ghost use Rattle.std.specs.Option.{option_copied};
ghost use Rattle.std.specs.Str.{chars};
ghost use Rattle.std.specs.String.{string_bytes};
ghost use Rattle.bib_values.specs.Ranges.{ranges_read};
ghost use Rattle.bib_ris.specs.Pages as spec;

use crate::lines::push_given;
use bib_chunks::chunk::{ChunksRef, format_verbatim};
use bib_csl::markup::bare_text;
use bib_values::ranges::read_ranges;
use std::alloc::{AllocError, Global};

// Returns whether pages are one page or one range of pages.
fn is_one_range(alloc: Global, chunks: ChunksRef<'_>) -> Result<bool, AllocError>
    ensures { IfOk result (λ is. is ≡ spec.is_one_range (ranges_read chunks.now)) }
{
    match read_ranges(alloc, chunks)? {
        Some(ranges) => Ok(ranges.len() == 1),
        None => Ok(false),
    }
}

// Returns the number of ASCII digits at the start of a text.
fn digits(text: &str) -> usize
    ensures { result ≡ prefix_len is_ascii_digit text.now }
{
    text.as_bytes()
        .iter()
        .take_while(|byte| byte.is_ascii_digit())
        .count()
}

// Returns the ASCII digits of a text.
fn all_digits(alloc: Global, text: &str) -> Result<String, AllocError>
    ensures { IfOk result (λ all. string_bytes all ≡ encode_utf8_all (filter is_ascii_digit (chars text.now))) }
{
    text.chars().filter(|c| c.is_ascii_digit()).collect(alloc)
}

// Appends the lines of the first and the last page of a text that is one range. One page only has the first of these lines.
fn push_range(out: &mut String, alloc: Global, text: &str) -> Result<(), AllocError>
    ensures { OnOk result (string_bytes out.new ≡ string_bytes out.old ++ spec.range_lines text.now) }
{
    let (first, rest) = text.split_at(digits(text));
    push_given(out, "SP", first)?;
    let last = all_digits(alloc, rest)?;
    push_given(out, "EP", last.as_str())
}

/// Appends the lines of the first and the last page of one range, or the line of one page, or else a line with the text.
pub(crate) fn push_pages(
    out: &mut String,
    alloc: Global,
    field: Option<ChunksRef<'_>>,
) -> Result<(), AllocError>
    ensures { OnOk result (string_bytes out.new ≡ string_bytes out.old ++ spec.pages_lines (option_copied field.entry)) }
{
    let Some(chunks) = field else {
        return Ok(());
    };
    if is_one_range(alloc, chunks)? {
        let text = format_verbatim(alloc, chunks)?;
        return push_range(out, alloc, text.as_str().trim());
    }
    let text = bare_text(alloc, chunks)?;
    push_given(out, "SP", text.as_str())
}
