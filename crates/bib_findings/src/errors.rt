//! Findings of errors and of skipped blocks.

ghost use Rattle.std.specs.Prelude.{◌≡◌, [], ◌++◌, if◌then◌else◌, List, map, IfOk, OnOk};
ghost use Rattle.std.specs.BTreeMap.{get_by_text};
ghost use Rattle.std.specs.String.{string_bytes};
ghost use Rattle.bib_syntax.specs.Reading.{FieldReading};
ghost use Rattle.bib_syntax.specs.Views.{entry_reading_of, field_of};
ghost use Rattle.bib_findings.specs.Errors as spec;
ghost use Rattle.bib_findings.specs.Errors.{block_finding, error_finding, error_code, error_message, with_name};
ghost use Rattle.bib_findings.specs.LastDefinitions.{AreLastDefinitions};
ghost use Rattle.bib_findings.specs.Starts.{AreEntriesByStart};

use crate::codes::Code;
use crate::cuts::entries_by_start;
use crate::definition_cases::{error_note, last_definitions};
use crate::entry_names::entry_name;
use crate::finding::Finding;
use bib_syntax::raw::{Pair, ParseError, ParseErrorKind, RawEntry, SkippedBlock, Token};
use bib_text::spanned::Spanned;
use bib_text::text::Text;
use std::alloc::{AllocError, Global};
use std::collections::BTreeMap;

// Returns the code of an error that recovery reports.
fn error_code(kind: &ParseErrorKind) -> Code
    ensures { result ≡ error_code kind.now }
{
    match kind {
        ParseErrorKind::UnknownAbbreviation(_) => Code::UnknownAbbreviation,
        ParseErrorKind::AbbreviationCycle(_) => Code::CircularAbbreviation,
        ParseErrorKind::DuplicateKey(_) => Code::DuplicateKey,
        ParseErrorKind::ReferenceCycle(_) => Code::CircularReference,
        ParseErrorKind::ResolutionError(_) => Code::UnreadDate,
        _ => Code::UnreadField,
    }
}

// Returns the words, followed by a name in quotes, exactly as the file writes it.
fn with_name(alloc: Global, words: &str, name: &str) -> Result<String, AllocError>
    ensures { IfOk result (λ text. string_bytes text ≡ with_name words.now name.now) }
{
    format!(in alloc; "{words} \"{name}\"")
}

// Returns the message of an error, with names unchanged.
fn error_message(alloc: Global, kind: &ParseErrorKind) -> Result<String, AllocError>
    ensures { IfOk result (λ text. string_bytes text ≡ error_message kind.now) }
{
    match kind {
        ParseErrorKind::UnexpectedEof => String::from_str(alloc, "unexpected end of file"),
        ParseErrorKind::Unexpected(token) => format!(in alloc; "unexpected {token}"),
        ParseErrorKind::Expected(token) => format!(in alloc; "expected {token}"),
        ParseErrorKind::UnknownAbbreviation(name) => {
            with_name(alloc, "unknown abbreviation", name.as_str())
        }
        ParseErrorKind::MalformedCommand => String::from_str(alloc, "malformed command"),
        ParseErrorKind::DuplicateKey(key) => with_name(alloc, "duplicate key", key.as_str()),
        ParseErrorKind::ResolutionError(kind) => {
            format!(in alloc; "a date that would be inherited can't be read: {kind}")
        }
        ParseErrorKind::AbbreviationCycle(name) => {
            with_name(alloc, "circular abbreviation", name.as_str())
        }
        ParseErrorKind::ReferenceCycle(key) => with_name(alloc, "circular reference", key.as_str()),
        _ => String::from_str(alloc, "out of memory"),
    }
}

// Returns the finding of an error. `lasts` has the last definition of each name of an abbreviation in ASCII lowercase.
fn error_finding(
    alloc: Global,
    lasts: &BTreeMap<String, &Pair<'_>>,
    error: &ParseError,
) -> Result<Finding, AllocError>
    ensures { IfOk result (λ finding. (definitions : List FieldReading) → AreLastDefinitions (get_by_text lasts.now) definitions
        → finding ≡ error_finding definitions error.now) }
{
    let message = error_message(alloc, &error.kind)?;
    let note = error_note(alloc, lasts, error)?;
    Ok(Finding {
        code: error_code(&error.kind),
        span: error.span.start..error.span.end,
        message: Text::from_string(format!(in alloc; "{message}{note}")?),
    })
}

// Returns whether a block has no end: its error begins at the end of the skipped text, or after it.
fn is_endless(block: &SkippedBlock) -> bool
    ensures { result ≡ spec.is_endless block.now }
{
    !(block.error.span.start < block.span.end)
}

// Returns whether a skipped block ends within a field after its complete ones.
fn is_unclosed(block: &SkippedBlock, entry: &Spanned<RawEntry<'_>>) -> bool
    ensures { result ≡ spec.is_unclosed block.now (entry_reading_of entry.now) }
{
    is_endless(block) && entry.span.end < block.span.end
}

// Returns a text if a condition is true, and else the empty text.
fn text_if(is: bool, text: &'static str) -> &'static str
    ensures { result.now ≡ if is then text.now else [] }
{
    if is { text } else { "" }
}

// Returns the note about BibTeX and Biber for a byte at which the grammar requires this token.
fn form_for_token(token: &Token, byte: u8) -> &'static str
    ensures { result.now ≡ spec.form_for_token token.now byte }
{
    match token {
        Token::OpeningBrace => {
            text_if(
                byte == b'(',
                "; BibTeX and Biber also read parentheses around a block",
            )
        }
        Token::ClosingBrace => {
            text_if(
                byte == b'#',
                "; BibTeX and Biber join the texts of a preamble by `#`",
            )
        }
        Token::Comma => {
            text_if(
                byte == b'}',
                "; BibTeX reads an entry without fields, but Biber reports an error",
            )
        }
        Token::QuotationMark => {
            text_if(
                byte == b'{',
                "; BibTeX and Biber also read a text in braces",
            )
        }
        _ => "",
    }
}

// Returns the note about BibTeX and Biber for a byte at which there is an error of this kind.
fn form_at(kind: &ParseErrorKind, byte: u8) -> &'static str
    ensures { result.now ≡ spec.form_at kind.now byte }
{
    if byte == b'%' {
        return "; Biber skips a comment here, but BibTeX doesn't";
    }
    match kind {
        ParseErrorKind::Expected(token) => form_for_token(token, byte),
        _ => "",
    }
}

// Returns whether bytes begin with a percent sign and a line feed.
fn begins_with_separator(bytes: &[u8]) -> bool
    ensures { result ≡ spec.begins_with_separator bytes.now }
{
    match bytes {
        [a, b, ..] => *a == b'%' && *b == b'\n',
        _ => false,
    }
}

// Returns whether one of several files in a text may end at this offset.
fn may_end_file(text: &str, at: usize) -> bool
    ensures { result ≡ spec.may_end_file text.now at }
{
    match text.as_bytes().get(at..) {
        Some(rest) => begins_with_separator(rest),
        None => false,
    }
}

// Returns the note about BibTeX and Biber for a block's error in this text.
fn other_form(text: &str, error: &ParseError) -> &'static str
    ensures { result.now ≡ spec.other_form text.now error.now }
{
    if may_end_file(text, error.span.start) {
        return "";
    }
    match text.as_bytes().get(error.span.start) {
        Some(byte) => form_at(&error.kind, *byte),
        None => "",
    }
}

// Returns the message of a block's error in this text.
fn block_message(alloc: Global, text: &str, error: &ParseError) -> Result<String, AllocError>
    ensures { IfOk result (λ message. string_bytes message ≡ spec.block_message text.now error.now) }
{
    let message = error_message(alloc, &error.kind)?;
    let form = other_form(text, error);
    format!(in alloc; "{message}{form}")
}

// Returns the finding of a skipped block of a text, of which `entry` is kept.
fn kept_finding(
    alloc: Global,
    text: &str,
    block: &SkippedBlock,
    entry: &Spanned<RawEntry<'_>>,
) -> Result<Finding, AllocError>
    ensures { IfOk result (λ finding. finding ≡ spec.kept_finding text.now block.now (entry_reading_of entry.now)) }
{
    let name = entry_name(entry.v.key.v);
    if is_unclosed(block, entry) {
        let message = format!(in alloc; "{name}: incomplete field; is a brace or a quote open?")?;
        return Ok(Finding {
            code: Code::Syntax,
            span: entry.span.end..entry.span.end,
            message: Text::from_string(message),
        });
    }
    let error = block_message(alloc, text, &block.error)?;
    let message = format!(in alloc; "{name}: {error}")?;
    Ok(Finding {
        code: Code::Syntax,
        span: block.error.span.start..block.error.span.end,
        message: Text::from_string(message),
    })
}

// Returns the finding of a skipped block of a text, of which no entry is kept.
fn lost_finding(alloc: Global, text: &str, block: &SkippedBlock) -> Result<Finding, AllocError>
    ensures { IfOk result (λ finding. finding ≡ spec.lost_finding text.now block.now) }
{
    if is_endless(block) {
        let words = "a block without an end; is a brace or a quote open?";
        return Ok(Finding {
            code: Code::Syntax,
            span: block.span.start..block.span.start,
            message: Text::from_string(String::from_str(alloc, words)?),
        });
    }
    let message = block_message(alloc, text, &block.error)?;
    Ok(Finding {
        code: Code::Syntax,
        span: block.error.span.start..block.error.span.end,
        message: Text::from_string(message),
    })
}

// Returns the finding of a skipped block of a text. `entries` contains the entries by their starts.
fn block_finding(
    alloc: Global,
    text: &str,
    said: &[Spanned<RawEntry<'_>>],
    entries: &BTreeMap<usize, &Spanned<RawEntry<'_>>>,
    block: &SkippedBlock,
) -> Result<Finding, AllocError>
    requires { AreEntriesByStart entries.now (map entry_reading_of said.now) }
    ensures { IfOk result (λ finding. finding ≡ block_finding text.now (map entry_reading_of said.now) block.now) }
{
    match entries.get(&block.span.start).copied() {
        Some(entry) => kept_finding(alloc, text, block, entry),
        None => lost_finding(alloc, text, block),
    }
}

// Appends the findings of the skipped blocks of a text. `said` contains its raw entries.
pub(crate) fn add_blocks(
    alloc: Global,
    found: &mut Vec<Finding>,
    text: &str,
    said: &[Spanned<RawEntry<'_>>],
    blocks: &[SkippedBlock],
) -> Result<(), AllocError>
    ensures { OnOk result (found.new.items ≡ found.old.items ++ map (block_finding text.now (map entry_reading_of said.now)) blocks.now) }
{
    if blocks.is_empty() {
        return Ok(());
    }
    let entries = entries_by_start(alloc, said)?;
    'skipped: for block in blocks {
        found.push(block_finding(alloc, text, said, &entries, block)?)?;
    }
    Ok(())
}

// Appends the findings of errors in a file with these definitions of abbreviations.
pub(crate) fn add_errors(
    alloc: Global,
    found: &mut Vec<Finding>,
    definitions: &[Pair<'_>],
    errors: &[ParseError],
) -> Result<(), AllocError>
    ensures { OnOk result (found.new.items ≡ found.old.items ++ map (error_finding (map field_of definitions.now)) errors.now) }
{
    if errors.is_empty() {
        return Ok(());
    }
    let lasts = last_definitions(alloc, definitions)?;
    'errors: for error in errors {
        found.push(error_finding(alloc, &lasts, error)?)?;
    }
    Ok(())
}
