//! The fields of a block that can't be parsed.

ghost use Rattle.std.specs.Prelude.{◌≡◌, ◌≢◌, [], IfErr};
ghost use Rattle.bib_text.specs.Characters as char;
ghost use Rattle.bib_text.specs.Places.{Place, CharAt};
ghost use Rattle.bib_syntax.specs.Errors.{out_of_memory};
ghost use Rattle.bib_syntax.specs.Failures.{AllFail};

use crate::raw::fields::{closing_brace, field, gap};
use crate::raw::file::{BlockKind, block_kind, head};
use crate::raw::reader::Reader;
use crate::raw::words::{begins_identifier, error, expect, key};
use crate::raw::{ParseError, ParseErrorKind, Token};
use std::alloc::Global;

// Parses fields up to the closing brace of their block. Appends the offset of each field to `starts` before parsing it. Stops
// at a field whose error is known, without appending its offset.
fn add_starts(
    s: &mut Reader<'_, '_>,
    alloc: Global,
    starts: &mut Vec<usize>,
) -> Result<(), ParseError>
    ensures { IfErr result (λ e. e ≢ out_of_memory →
        AllFail s.old.text e starts.old.items → AllFail s.old.text e starts.new.items) }
{
    'fields: while begins_identifier(s) {
        if let Some(error) = s.known_error()? {
            return Err(error);
        }
        starts.push(s.cursor())?;
        field(s, alloc)?;
        gap(s);
        if !s.eat_if(',') {
            if !s.at('}') {
                return Err(error(s, ParseErrorKind::Expected(Token::Comma)));
            }
            return Ok(());
        }
        gap(s);
    }
    closing_brace(s)?;
    Ok(())
}

// Parses the key of an entry, the comma after it and its fields. Appends offsets of fields to `starts` as `add_starts` does.
fn add_entry_starts(
    s: &mut Reader<'_, '_>,
    alloc: Global,
    starts: &mut Vec<usize>,
) -> Result<(), ParseError>
    ensures { IfErr result (λ e. e ≢ out_of_memory →
        AllFail s.old.text e starts.old.items → AllFail s.old.text e starts.new.items) }
{
    key(s);
    s.eat_whitespace();
    expect(s, ',', Token::Comma)?;
    gap(s);
    add_starts(s, alloc, starts)?;
    Ok(())
}

// Parses the fields of the block at this at sign, and appends offsets of fields to `starts` as `add_starts` does. If that fails
// and memory didn't run out, parsing fields from each of these offsets fails with the same error.
pub(crate) fn failing_fields(
    s: &mut Reader<'_, '_>,
    alloc: Global,
    starts: &mut Vec<usize>,
) -> Result<(), ParseError>
    requires sign { (v : Place) × CharAt s.old char.at v }
    requires none { starts.old.items ≡ [] }
    ensures { IfErr result (λ e. e ≢ out_of_memory → AllFail s.old.text e starts.new.items) }
{
    let kind = head(s)?;
    match block_kind(kind.v) {
        BlockKind::Comment | BlockKind::Preamble => {}
        BlockKind::Strings => add_starts(s, alloc, starts)?,
        BlockKind::Entry => add_entry_starts(s, alloc, starts)?,
    }
    Ok(())
}
