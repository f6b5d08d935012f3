//! Prints the cited entries of a text with all parsed entries and definitions that they refer to, transitively, and the preambles.

ghost use Rattle.std.specs.Prelude.{◌≡◌, ℕ, List, [], ◌++◌, map, length, if◌then◌else◌, IfOk, OnOk};
ghost use Rattle.std.specs.List.{AllByRecursion, flat_map, list_any};
ghost use Rattle.std.specs.String.{string_bytes};
ghost use Rattle.bib_syntax.specs.Recovery.{IsBlockOf};
ghost use Rattle.bib_syntax.specs.Views.{entry_reading_of, field_of, file_of};
ghost use Rattle.bib_queries.specs.Cited.{IsCited, IsExcerpt, definition_line, definition_text, entry_line, used_in_entries, used_in_entry};
ghost use Rattle.bib_queries.specs.Names.{definition_node, entry_node};
ghost use Rattle.bib_queries.specs.Needed.{AreMarks, with_marks};
ghost use Rattle.bib_queries.specs.Preambles.{ArePreambles};
ghost use Rattle.bib_queries.specs.Standing.{IsFieldIn, IsSkippedIn};
ghost use Rattle.bib_queries.specs.Texts.{text_list};

use crate::excerpts::{TextAnswer, print_if};
use crate::line_ends::line_end;
use crate::names::{links_of_definitions, links_of_entries, push_used_in_fields};
use crate::needed::mark_needed;
use crate::preambles::print_preambles;
use crate::request::CitedKeys;
use crate::unread::{has_unread, print_all_unread};
use bib_syntax::raw::{Pair, RawBibliography, RawEntry, RawRecovery};
use bib_text::spanned::Spanned;
use std::alloc::{AllocError, Global};

// Marks the cited entries, and the entries that they refer to, transitively.
fn cited_entries(
    alloc: Global,
    cited: &CitedKeys<'_>,
    entries: &[Spanned<RawEntry<'_>>],
) -> Result<Vec<bool>, AllocError>
    ensures { IfOk result (λ marks. AreMarks (IsCited (text_list cited.now.keys) cited.now.all
        (map entry_node (map entry_reading_of entries.now))) (length entries.now) marks.items) }
{
    if cited.all {
        let marks = vec![in alloc; true; entries.len()]?;
        return Ok(marks);
    }
    let links = links_of_entries(alloc, entries)?;
    let marks = mark_needed(alloc, &cited.keys, &links)?;
    Ok(marks)
}

// Appends the abbreviations that an entry uses, if it has a mark.
fn push_used_if<'s>(
    names: &mut Vec<&'s str>,
    entry: &Spanned<RawEntry<'s>>,
    has_mark: bool,
) -> Result<(), AllocError>
    ensures { OnOk result (text_list names.new ≡ text_list names.old
        ++ (if has_mark then used_in_entry (entry_reading_of entry.now) else [])) }
{
    if has_mark {
        return push_used_in_fields(names, &entry.v.fields);
    }
    Ok(())
}

// Returns the abbreviations that the entries with marks use.
fn used_abbreviations<'s>(
    alloc: Global,
    entries: &[Spanned<RawEntry<'s>>],
    marks: &[bool],
) -> Result<Vec<&'s str>, AllocError>
    ensures { IfOk result (λ names. text_list names ≡ used_in_entries (with_marks marks.now (map entry_reading_of entries.now))) }
{
    let mut names = Vec::new(alloc);
    'entries: for (entry, mark) in entries.iter().zip(marks) {
        push_used_if(&mut names, entry, *mark)?;
    }
    Ok(names)
}

// Marks the definitions of the abbreviations that the entries with marks use, transitively. Marks all definitions if `all` is true.
fn used_definitions(
    alloc: Global,
    raw: &RawBibliography<'_>,
    marks: &[bool],
    all: bool,
) -> Result<Vec<bool>, AllocError>
    ensures { IfOk result (λ found. AreMarks
        (IsCited (used_in_entries (with_marks marks.now (file_of raw.now).entries)) all
        (map definition_node (file_of raw.now).abbreviations))
        (length (file_of raw.now).abbreviations) found.items) }
{
    if all {
        let marks = vec![in alloc; true; raw.abbreviations.len()]?;
        return Ok(marks);
    }
    let names = used_abbreviations(alloc, &raw.entries, marks)?;
    let links = links_of_definitions(alloc, &raw.abbreviations)?;
    let marks = mark_needed(alloc, &names, &links)?;
    Ok(marks)
}

// Returns the source text of a definition, from its name to the end of its value, without the white space at its end.
fn definition<'s>(text: &'s str, pair: &Pair<'_>) -> &'s str
    requires { IsFieldIn text.now (field_of pair.now) }
    ensures { result.now ≡ definition_text text.now (field_of pair.now) }
{
    text[pair.key.span.start..pair.value.span.end].trim_end()
}

// Appends a block with a definition and a line end, if the definition has a mark.
fn print_definition(
    printed: &mut String,
    line_end: &str,
    text: &str,
    pair: &Pair<'_>,
    has_mark: bool,
) -> Result<(), AllocError>
    requires { IsFieldIn text.now (field_of pair.now) }
    ensures { OnOk result (string_bytes printed.new ≡ string_bytes printed.old
        ++ (if has_mark then definition_line line_end.now text.now (field_of pair.now) else [])) }
{
    if !has_mark {
        return Ok(());
    }
    printed.push_str("@string{")?;
    printed.push_str(definition(text, pair))?;
    printed.push_str("}")?;
    printed.push_str(line_end)?;
    Ok(())
}

// Appends the definitions with marks, each as a block with a line end.
fn print_definitions(
    printed: &mut String,
    line_end: &str,
    text: &str,
    pairs: &[Pair<'_>],
    marks: &[bool],
) -> Result<(), AllocError>
    requires { AllByRecursion (IsFieldIn text.now) (map field_of pairs.now) }
    ensures { OnOk result (string_bytes printed.new ≡ string_bytes printed.old
        ++ flat_map (definition_line line_end.now text.now) (with_marks marks.now (map field_of pairs.now))) }
{
    'pairs: for (pair, mark) in pairs.iter().zip(marks) {
        print_definition(printed, line_end, text, pair, *mark)?;
    }
    Ok(())
}

// Appends the source text of the entries with marks, each with a line end.
fn print_entries(
    printed: &mut String,
    line_end: &str,
    text: &str,
    entries: &[Spanned<RawEntry<'_>>],
    marks: &[bool],
) -> Result<(), AllocError>
    requires { AllByRecursion (IsBlockOf text.now) (map entry_reading_of entries.now) }
    ensures { OnOk result (string_bytes printed.new ≡ string_bytes printed.old
        ++ flat_map (entry_line line_end.now text.now) (with_marks marks.now (map entry_reading_of entries.now))) }
{
    'entries: for (entry, mark) in entries.iter().zip(marks) {
        print_if(printed, line_end, text, entry, *mark)?;
    }
    Ok(())
}

// Returns whether one of the marks is true.
fn has_mark(marks: &[bool]) -> bool
    ensures { result ≡ list_any (λ mark. mark) marks.now }
{
    marks.iter().any(|mark| *mark)
}

// Returns the cited entries and all entries and definitions that they refer to, transitively. Definitions come first, then the parsed
// preambles, then the skipped preambles in braces, then entries. With a skipped preamble in braces, all definitions are returned.
pub(crate) fn cited_text(
    alloc: Global,
    cited: &CitedKeys<'_>,
    text: &str,
    found: &RawRecovery<'_>,
) -> Result<TextAnswer, AllocError>
    requires entries { AllByRecursion (IsBlockOf text.now) (file_of found.now.raw).entries }
    requires definitions { AllByRecursion (IsFieldIn text.now) (file_of found.now.raw).abbreviations }
    requires preambles { (insides : List (List ℕ)) × ArePreambles (file_of found.now.raw).preamble insides }
    requires skipped { AllByRecursion (IsSkippedIn text.now) found.now.skipped.items }
    ensures { IfOk result (λ answer. IsExcerpt (text_list cited.now.keys) cited.now.all text.now
        (file_of found.now.raw) found.now.skipped.items (string_bytes answer.text) answer.has_entry) }
{
    let raw = &found.raw;
    let marks = cited_entries(alloc, cited, &raw.entries)?;
    let definition_marks = used_definitions(alloc, raw, &marks, has_unread(text, &found.skipped))?;
    let line_end = line_end(text);
    let mut printed = String::new(alloc);
    print_definitions(
        &mut printed,
        line_end,
        text,
        &raw.abbreviations,
        &definition_marks,
    )?;
    print_preambles(&mut printed, line_end, raw.preamble.as_str())?;
    print_all_unread(&mut printed, line_end, text, &found.skipped)?;
    print_entries(&mut printed, line_end, text, &raw.entries, &marks)?;
    let has_entry = has_mark(&marks);
    Ok(TextAnswer {
        text: printed,
        has_entry,
    })
}
