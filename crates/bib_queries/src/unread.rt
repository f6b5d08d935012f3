//! Prints the preambles in braces that can't be parsed, with their source text.

ghost use Rattle.std.specs.Prelude.{◌≡◌, ◌++◌, [], if◌then◌else◌, OnOk};
ghost use Rattle.std.specs.List.{AllByRecursion, flat_map};
ghost use Rattle.std.specs.String.{string_bytes};
ghost use Rattle.bib_queries.specs.Standing.{IsSkippedIn};
ghost use Rattle.bib_queries.specs.Unread as spec;
ghost use Rattle.bib_queries.specs.Unread.{has_unread_preamble, is_unread_preamble, unread_line};

use crate::names::is_name;
use bib_syntax::raw::SkippedBlock;
use std::alloc::AllocError;

// Returns the source text of a skipped block, without the white space at its end.
fn skipped_source<'s>(text: &'s str, block: &SkippedBlock) -> &'s str
    requires { IsSkippedIn text.now block.now }
    ensures { result.now ≡ spec.skipped_source text.now block.now }
{
    text[block.span.start..block.span.end].trim_end()
}

// Returns whether a block begins with `@preamble` in any ASCII case, white space if any, and an opening brace.
fn is_preamble(source: &str) -> bool
    ensures { result ≡ spec.is_preamble source.now }
{
    match source.split_once('{') {
        Some((head, _)) => is_name(head.trim_end(), "@preamble"),
        None => false,
    }
}

// Returns whether a skipped block is a preamble in braces.
fn is_unread(text: &str, block: &SkippedBlock) -> bool
    requires { IsSkippedIn text.now block.now }
    ensures { result ≡ is_unread_preamble text.now block.now }
{
    is_preamble(skipped_source(text, block))
}

// Returns whether one of these skipped blocks is a preamble in braces.
pub(crate) fn has_unread(text: &str, skipped: &[SkippedBlock]) -> bool
    requires { AllByRecursion (IsSkippedIn text.now) skipped.now }
    ensures { result ≡ has_unread_preamble text.now skipped.now }
{
    'spans: for block in skipped {
        if is_unread(text, block) {
            return true;
        }
    }
    false
}

// Appends the source text of a skipped block and a line end, if it is a preamble in braces.
fn print_unread(
    printed: &mut String,
    line_end: &str,
    text: &str,
    block: &SkippedBlock,
) -> Result<(), AllocError>
    requires { IsSkippedIn text.now block.now }
    ensures { OnOk result (string_bytes printed.new ≡ string_bytes printed.old ++ unread_line line_end.now text.now block.now) }
{
    if is_unread(text, block) {
        printed.push_str(skipped_source(text, block))?;
        printed.push_str(line_end)?;
    }
    Ok(())
}

// Appends the source text of the skipped blocks that are preambles in braces, each with a line end.
pub(crate) fn print_all_unread(
    printed: &mut String,
    line_end: &str,
    text: &str,
    skipped: &[SkippedBlock],
) -> Result<(), AllocError>
    requires { AllByRecursion (IsSkippedIn text.now) skipped.now }
    ensures { OnOk result (string_bytes printed.new ≡
        string_bytes printed.old ++ flat_map (unread_line line_end.now text.now) skipped.now) }
{
    'spans: for block in skipped {
        print_unread(printed, line_end, text, block)?;
    }
    Ok(())
}
