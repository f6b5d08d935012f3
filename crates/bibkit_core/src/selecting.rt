//! The task that prints entries of files that conditions select, or their keys.

ghost use Rattle.std.specs.Prelude.{◌≡◌, ◌==◌, length, map, not, IfOk};
ghost use Rattle.std.specs.String.{string_bytes};
ghost use Rattle.bib_queries.specs.Answers.{lines_of_keys};
ghost use Rattle.bib_syntax.specs.Recovery.{IsRecovery};
ghost use Rattle.bib_syntax.specs.Views.{entry_reading_of, file_of};
ghost use Rattle.bibkit_core.specs.Conditions.{entries_with};
ghost use Rattle.bibkit_core.specs.Selecting as spec;
ghost use Rattle.bibkit_core.specs.Selecting.{AreCommonPrinted, BeginsSelecting, IsSelectedAnswer, selecting_begins, selecting_ends, selecting_messages, selecting_prints};

use crate::conditions::{common_keys, entries_with, keys_of_selected, resolved_entries};
use crate::decoding::decode_bytes;
use crate::entries::is_found_with;
use crate::request::Selected;
use crate::skipped::Skipped;
use crate::task::{End, Task};
use bib_queries::excerpts::{TextAnswer, answer_of, key_lines};
use bib_queries::request::Request as Excerpts;
use biblatex::{RawBibliography, RawEntry, RawRecovery, Spanned};
use std::alloc::{AllocError, Global};

/// Prints entries of files that conditions select, or their keys.
#[derive(Drop)]
pub struct Selecting<'r, 'a> {
    selected: &'r Selected<'a>,
    is_found: bool,
    skipped: Skipped,
}

impl<'r, 'a> Selecting<'r, 'a> {
    /// Returns the task before the first file.
    pub fn new(alloc: Global, selected: &'r Selected<'a>) -> Self
        ensures { BeginsSelecting selected.now result }
    {
        Selecting {
            selected,
            is_found: false,
            skipped: Skipped::none(alloc),
        }
    }
}

// Returns the keys of the entries that have one of these keys, each followed by a line feed.
fn keys_answer(
    alloc: Global,
    keys: &[&str],
    entries: Vec<Spanned<RawEntry<'_>>>,
) -> Result<TextAnswer, AllocError>
    ensures { IfOk result (λ answer. (string_bytes answer.text ≡
        lines_of_keys (entries_with (map (λ key. key.now) keys.now) (map entry_reading_of entries.entry.items)))
        × (answer.has_entry ≡ not (length (string_bytes answer.text) == 0))) }
{
    let entries = entries_with(alloc, keys, entries)?;
    let text = key_lines(alloc, &entries)?;
    let has_entry = !text.is_empty();
    Ok(TextAnswer { text, has_entry })
}

// Returns the entries of a text with this recovery that have one of the keys in both lists.
fn common_answer(
    alloc: Global,
    wanted: &[&str],
    keys: &[&str],
    text: &str,
    found: &RawRecovery<'_>,
) -> Result<TextAnswer, AllocError>
    requires { IsRecovery text.now (file_of found.now.raw) found.now.skipped.items }
    ensures { IfOk result (λ answer. AreCommonPrinted (map (λ key. key.now) wanted.now) (map (λ key. key.now) keys.now) text.now
        (string_bytes answer.text) answer.has_entry) }
{
    let common = common_keys(alloc, wanted, keys)?;
    let request = Excerpts::Get(common);
    answer_of(alloc, &request, text, found)
}

// Returns the entries of a text with a requested key, or, if no keys are requested, the keys of the entries. Only entries whose key is that
// of an entry that meets all conditions are returned. `found` is the result of `RawBibliography::recover` for the text.
fn selected_answer(
    alloc: Global,
    selected: &Selected<'_>,
    text: &str,
    found: RawRecovery<'_>,
) -> Result<TextAnswer, AllocError>
    requires { IsRecovery text.now (file_of found.raw) found.skipped.items }
    ensures { IfOk result (λ answer. IsSelectedAnswer selected.now text.now (string_bytes answer.text) answer.has_entry) }
{
    let entries = resolved_entries(alloc, &found.raw)?;
    let keys = keys_of_selected(alloc, &selected.conditions, &entries)?;
    match &selected.keys {
        Some(wanted) => common_answer(alloc, wanted, &keys, text, &found),
        None => keys_answer(alloc, &keys, found.raw.entries),
    }
}

// Returns the status: 1 if nothing was found or a block was skipped, otherwise 0.
fn selecting_status(is_found: bool, has_skipped: bool) -> u8
    ensures { result ≡ spec.selecting_status is_found has_skipped }
{
    if is_found && !has_skipped { 0 } else { 1 }
}

impl<'r, 'a> Task for Selecting<'r, 'a> {
    ghost begins = { selecting_begins };

    ghost prints = { selecting_prints };

    ghost messages = { selecting_messages };

    ghost ends = { selecting_ends };

    fn begin(&self) -> &'static str {
        ""
    }

    fn file(&mut self, alloc: Global, name: &str, bytes: &[u8]) -> Result<String, AllocError> {
        let decoded = decode_bytes(alloc, bytes)?;
        let text = decoded.text.as_str();
        let found = RawBibliography::recover(alloc, text)?;
        self.skipped.next(alloc, name, text, &found)?;
        let answer = selected_answer(alloc, self.selected, text, found)?;
        self.is_found = is_found_with(self.is_found, answer.has_entry);
        Ok(answer.text)
    }

    fn messages(&self) -> &str {
        &self.skipped.lines
    }

    fn end(&mut self, alloc: Global) -> Result<End, AllocError> {
        Ok(End {
            text: String::new(alloc),
            status: selecting_status(self.is_found, self.skipped.has_any),
        })
    }
}
