//! Returns the answer to a request on one file: keys of entries, or entries with their source text.

ghost use Rattle.std.specs.Prelude.{◌≡◌, ◌==◌, ℕ, List, ◌++◌, [], map, length, not, if◌then◌else◌, IfOk, OnOk};
ghost use Rattle.std.specs.List.{AllByRecursion, list_any};
ghost use Rattle.std.specs.String.{string_bytes};
ghost use Rattle.bib_syntax.specs.Recovery.{IsBlockOf, IsRecovery};
ghost use Rattle.bib_syntax.specs.Views.{entry_reading_of, field_of, file_of, piece_of};
ghost use Rattle.bib_queries.specs.Answers as answers;
ghost use Rattle.bib_queries.specs.Answers.{IsPrinted, IsTextAnswer, has_key, is_found_in, lines_of_keys, passing_lines, piece_text};
ghost use Rattle.bib_queries.specs.Cited.{entry_line};
ghost use Rattle.bib_queries.specs.Cited as cited_spec;
ghost use Rattle.bib_queries.specs.Preambles.{ArePreambles};
ghost use Rattle.bib_queries.specs.Standing.{IsFieldIn, IsSkippedIn};

use crate::cited::cited_text;
use crate::line_ends::line_end;
use crate::names::is_name;
use crate::request::{Request, Search};
use crate::sets::name_set;
use bib_syntax::raw::{Pair, RawBibliography, RawChunk, RawEntry, RawRecovery};
use bib_text::spanned::Spanned;
use std::alloc::{AllocError, Global};

/// The answer to a request on one file.
#[derive(Debug, Drop)]
pub struct TextAnswer {
    /// The text to print.
    pub text: String,
    /// Whether the text has an entry, or a key for the request `Keys`. The text for `Cited` may have only definitions and
    /// preambles.
    pub has_entry: bool,
}

// Returns the text of a piece of a value.
fn text_of<'s>(piece: &Spanned<RawChunk<'s>>) -> &'s str
    ensures { result.now ≡ piece_text (piece_of piece.now) }
{
    match piece.v {
        RawChunk::Normal(text) | RawChunk::Abbreviation(text) => text,
    }
}

// Returns whether `text` contains `part`.
fn has_part(text: &str, part: &str) -> bool
    ensures { result ≡ answers.has_part part.now text.now }
{
    text.contains(part)
}

// Returns whether a piece of a value contains `part`.
fn is_in_value(value: &[Spanned<RawChunk<'_>>], part: &str) -> bool
    ensures { result ≡ list_any (λ piece. answers.has_part part.now (piece_text (piece_of piece))) value.now }
{
    value.iter().any(|piece| has_part(text_of(piece), part))
}

// Returns whether a field has the name of the search, and a piece of its value contains the text of the search.
fn is_found(field: &Pair<'_>, search: &Search<'_>) -> bool
    ensures { result ≡ answers.is_found search.now.field.now search.now.part.now (field_of field.now) }
{
    is_name(field.key.v, search.field) && is_in_value(&field.value.v, search.part)
}

// Returns whether the search finds one of these fields.
fn is_in_fields(fields: &[Pair<'_>], search: &Search<'_>) -> bool
    ensures { result ≡ list_any (λ f. answers.is_found search.now.field.now search.now.part.now (field_of f)) fields.now }
{
    fields.iter().any(|field| is_found(field, search))
}

// Returns whether the search finds a field of an entry.
fn is_found_in(entry: &Spanned<RawEntry<'_>>, search: &Search<'_>) -> bool
    ensures { result ≡ answers.is_found_in search.now.field.now search.now.part.now (entry_reading_of entry.now) }
{
    is_in_fields(&entry.v.fields, search)
}

// Returns the source text of an entry.
fn excerpt<'s>(text: &'s str, entry: &Spanned<RawEntry<'_>>) -> &'s str
    requires { IsBlockOf text.now (entry_reading_of entry.now) }
    ensures { result.now ≡ cited_spec.excerpt text.now (entry_reading_of entry.now) }
{
    &text[entry.span.start..entry.span.end + 1]
}

// Appends the source text of an entry and a line end.
fn print_entry(
    printed: &mut String,
    line_end: &str,
    text: &str,
    entry: &Spanned<RawEntry<'_>>,
) -> Result<(), AllocError>
    requires { IsBlockOf text.now (entry_reading_of entry.now) }
    ensures { OnOk result (string_bytes printed.new ≡
        string_bytes printed.old ++ entry_line line_end.now text.now (entry_reading_of entry.now)) }
{
    printed.push_str(excerpt(text, entry))?;
    printed.push_str(line_end)?;
    Ok(())
}

// Appends the source text of an entry and a line end, if it is requested.
pub(crate) fn print_if(
    printed: &mut String,
    line_end: &str,
    text: &str,
    entry: &Spanned<RawEntry<'_>>,
    is_asked: bool,
) -> Result<(), AllocError>
    requires { IsBlockOf text.now (entry_reading_of entry.now) }
    ensures { OnOk result (string_bytes printed.new ≡ string_bytes printed.old
        ++ (if is_asked then entry_line line_end.now text.now (entry_reading_of entry.now) else [])) }
{
    if is_asked {
        return print_entry(printed, line_end, text, entry);
    }
    Ok(())
}

/// Returns the keys of entries, each followed by a line feed. Returns an error only if out of memory.
pub fn key_lines(alloc: Global, entries: &[Spanned<RawEntry<'_>>]) -> Result<String, AllocError>
    ensures { IfOk result (λ printed. string_bytes printed ≡ lines_of_keys (map entry_reading_of entries.now)) }
{
    let mut printed = String::new(alloc);
    'entries: for entry in entries {
        printed.push_str(entry.v.key.v)?;
        printed.push('\n')?;
    }
    Ok(printed)
}

// Returns the source text of the entries with these keys, each followed by the line end of the text.
fn get(
    alloc: Global,
    keys: &[&str],
    text: &str,
    entries: &[Spanned<RawEntry<'_>>],
) -> Result<String, AllocError>
    requires { AllByRecursion (IsBlockOf text.now) (map entry_reading_of entries.now) }
    ensures { IfOk result (λ printed. string_bytes printed ≡
        passing_lines (has_key (map (λ key. key.now) keys.now)) text.now (map entry_reading_of entries.now)) }
{
    let asked = name_set(alloc, keys)?;
    let line_end = line_end(text);
    let mut printed = String::new(alloc);
    'entries: for entry in entries {
        print_if(
            &mut printed,
            line_end,
            text,
            entry,
            asked.contains(entry.v.key.v),
        )?;
    }
    Ok(printed)
}

// Returns the source text of the entries that the search finds, each followed by the line end of the text.
fn grep(
    alloc: Global,
    search: &Search<'_>,
    text: &str,
    entries: &[Spanned<RawEntry<'_>>],
) -> Result<String, AllocError>
    requires { AllByRecursion (IsBlockOf text.now) (map entry_reading_of entries.now) }
    ensures { IfOk result (λ printed. string_bytes printed ≡
        passing_lines (is_found_in search.now.field.now search.now.part.now) text.now (map entry_reading_of entries.now)) }
{
    let line_end = line_end(text);
    let mut printed = String::new(alloc);
    'entries: for entry in entries {
        print_if(
            &mut printed,
            line_end,
            text,
            entry,
            is_found_in(entry, search),
        )?;
    }
    Ok(printed)
}

// Returns the answer with this text of entries or keys.
fn entries_answer(text: String) -> TextAnswer
    ensures text { result.text ≡ text }
    ensures has_entry { result.has_entry ≡ not (length (string_bytes text) == 0) }
{
    let has_entry = !text.is_empty();
    TextAnswer { text, has_entry }
}

// Returns the answer to a request on the parsed and the skipped blocks of a text.
fn answer_found(
    alloc: Global,
    request: &Request<'_>,
    text: &str,
    found: &RawRecovery<'_>,
) -> Result<TextAnswer, AllocError>
    requires entries { AllByRecursion (IsBlockOf text.now) (file_of found.now.raw).entries }
    requires definitions { AllByRecursion (IsFieldIn text.now) (file_of found.now.raw).abbreviations }
    requires preambles { (insides : List (List ℕ)) × ArePreambles (file_of found.now.raw).preamble insides }
    requires skipped { AllByRecursion (IsSkippedIn text.now) found.now.skipped.items }
    ensures { IfOk result (λ answer. IsPrinted request.now text.now (file_of found.now.raw) found.now.skipped.items
        (string_bytes answer.text) answer.has_entry) }
{
    let entries = &found.raw.entries;
    match request {
        Request::Keys => Ok(entries_answer(key_lines(alloc, entries)?)),
        Request::Get(names) => Ok(entries_answer(get(alloc, names, text, entries)?)),
        Request::Grep(search) => Ok(entries_answer(grep(alloc, search, text, entries)?)),
        Request::Cited(keys) => cited_text(alloc, keys, text, found),
    }
}

/// Returns the answer to a request on a text, as `answer` does. `found` is the result of `RawBibliography::recover` for the text.
pub fn answer_of(
    alloc: Global,
    request: &Request<'_>,
    text: &str,
    found: &RawRecovery<'_>,
) -> Result<TextAnswer, AllocError>
    requires { IsRecovery text.now (file_of found.now.raw) found.now.skipped.items }
    ensures { IfOk result (λ answer. IsTextAnswer request.now text.now (string_bytes answer.text) answer.has_entry) }
{
    answer_found(alloc, request, text, found)
}

/// Returns the answer to a request on a text. Blocks that can't be parsed are skipped, except preambles in braces for `Cited`. The line
/// end of the text follows each printed entry, definition and preamble. A line feed follows each key for `Keys`.
pub fn answer(alloc: Global, request: &Request<'_>, text: &str) -> Result<TextAnswer, AllocError>
    ensures { IfOk result (λ answer. IsTextAnswer request.now text.now (string_bytes answer.text) answer.has_entry) }
{
    let found = RawBibliography::recover(alloc, text)?;
    answer_of(alloc, request, text, &found)
}
