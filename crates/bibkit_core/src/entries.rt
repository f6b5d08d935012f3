//! The task that prints entries of files, or their keys.

ghost use Rattle.std.specs.Prelude.{◌≡◌, ◌||◌};
ghost use Rattle.bibkit_core.specs.Tasks.{BeginsEntries, entries_begins, entries_ends, entries_messages, entries_prints};
ghost use Rattle.bibkit_core.specs.Tasks as spec;

use crate::decoding::decode_bytes;
use crate::skipped::Skipped;
use crate::task::{End, Task};
use bib_queries::excerpts::answer_of;
use bib_queries::request::Request as Excerpts;
use biblatex::RawBibliography;
use std::alloc::{AllocError, Global};

/// Prints the requested entries of files, or the keys of their entries.
#[derive(Drop)]
pub struct Entries<'r, 'a> {
    request: &'r Excerpts<'a>,
    is_found: bool,
    skipped: Skipped,
}

impl<'r, 'a> Entries<'r, 'a> {
    /// Returns the task before the first file.
    pub fn new(alloc: Global, request: &'r Excerpts<'a>) -> Self
        ensures { BeginsEntries request.now result }
    {
        Entries {
            request,
            is_found: false,
            skipped: Skipped::none(alloc),
        }
    }
}

// Returns whether the request is a search: any request except that for all keys. A search that finds nothing has the status 1.
fn is_search(request: &Excerpts<'_>) -> bool
    ensures { result ≡ spec.is_search request.now }
{
    match request {
        Excerpts::Keys => false,
        _ => true,
    }
}

// Returns whether an entry (or a key, for the request `Keys`) is found so far: before this file, or in the output for this file.
pub(crate) fn is_found_with(is_found: bool, has_entry: bool) -> bool
    ensures { result ≡ (is_found || has_entry) }
{
    is_found || has_entry
}

// Returns the status of a request: 1 for a search that found nothing, and for a skipped block, otherwise 0.
fn entries_status(request: &Excerpts<'_>, is_found: bool, has_skipped: bool) -> u8
    ensures { result ≡ spec.entries_status request.now is_found has_skipped }
{
    if has_skipped || is_search(request) && !is_found {
        1
    } else {
        0
    }
}

impl<'r, 'a> Task for Entries<'r, 'a> {
    ghost begins = { entries_begins };

    ghost prints = { entries_prints };

    ghost messages = { entries_messages };

    ghost ends = { entries_ends };

    fn begin(&self) -> &'static str {
        ""
    }

    fn file(&mut self, alloc: Global, name: &str, bytes: &[u8]) -> Result<String, AllocError> {
        let decoded = decode_bytes(alloc, bytes)?;
        let text = decoded.text.as_str();
        let found = RawBibliography::recover(alloc, text)?;
        let answer = answer_of(alloc, self.request, text, &found)?;
        self.is_found = is_found_with(self.is_found, answer.has_entry);
        self.skipped.next(alloc, name, text, &found)?;
        Ok(answer.text)
    }

    fn messages(&self) -> &str {
        &self.skipped.lines
    }

    fn end(&mut self, alloc: Global) -> Result<End, AllocError> {
        Ok(End {
            text: String::new(alloc),
            status: entries_status(self.request, self.is_found, self.skipped.has_any),
        })
    }
}
