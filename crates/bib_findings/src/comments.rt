//! Findings of comments in entries.

ghost use Rattle.std.specs.Prelude.{◌≡◌, ◌++◌, ◌<◌, All, length, map, IfOk, OnOk};
ghost use Rattle.bib_syntax.specs.Views.{entry_reading_of};
ghost use Rattle.bib_findings.specs.Comments as spec;
ghost use Rattle.bib_findings.specs.Comments.{comment_findings, comment_of};
ghost use Rattle.bib_findings.specs.Duplicates.{entries_at};
ghost use Rattle.std.specs.String.{string_bytes};

use crate::codes::Code;
use crate::entry_names::entry_name;
use crate::finding::Finding;
use bib_queries::bytes::stretch;
use bib_syntax::raw::RawEntry;
use bib_text::spanned::Spanned;
use bib_text::text::Text;
use std::alloc::{AllocError, Global};

// Returns the byte offset of the first percent sign between two byte offsets of a text, if there is one.
fn percent_between(text: &str, start: usize, end: usize) -> Option<usize>
    ensures { result ≡ spec.percent_between text.now start end }
{
    let gap = stretch(text, start, end);
    match gap.iter().position(|b| *b == b'%') {
        Some(index) => Some(start + index),
        None => None,
    }
}

// Returns the byte offset of the first comment of an entry after its key, if there is one.
fn first_comment(text: &str, said: &Spanned<RawEntry<'_>>) -> Option<usize>
    ensures { result ≡ spec.first_comment text.now (entry_reading_of said.now) }
{
    let mut start = said.v.key.span.end;
    'fields: for field in &said.v.fields {
        if let Some(at) = percent_between(text, start, field.key.span.start) {
            return Some(at);
        }
        start = field.value.span.end;
    }
    percent_between(text, start, said.span.end)
}

// Returns the message about a comment in the entry with this key.
fn comment_message(alloc: Global, key: &str) -> Result<String, AllocError>
    ensures { IfOk result (λ text. string_bytes text ≡ spec.comment_message key.now) }
{
    let entry = entry_name(key);
    format!(in alloc;
        "{entry}: BibTeX can't read a comment in an entry, and skips the rest of the entry; move the comment before the entry"
    )
}

// Appends the finding of an entry, if it has a comment.
fn add_comment(
    alloc: Global,
    found: &mut Vec<Finding>,
    text: &str,
    said: &Spanned<RawEntry<'_>>,
) -> Result<(), AllocError>
    ensures { OnOk result (found.new.items ≡ found.old.items ++ comment_of text.now (entry_reading_of said.now)) }
{
    let Some(at) = first_comment(text, said) else {
        return Ok(());
    };
    let message = comment_message(alloc, said.v.key.v)?;
    found.push(Finding {
        code: Code::CommentInEntry,
        span: at..at,
        message: Text::from_string(message),
    })?;
    Ok(())
}

/// Appends a finding for each of these entries with a comment between its key, its fields and its closing brace, at the first such
/// comment. `text` is the text of the file. `origins` contains the index of each entry in `said`.
pub(crate) fn add_comments(
    alloc: Global,
    found: &mut Vec<Finding>,
    text: &str,
    said: &[Spanned<RawEntry<'_>>],
    origins: &[usize],
) -> Result<(), AllocError>
    requires { All (λ index. index < length said.now) origins.now }
    ensures { OnOk result (found.new.items ≡ found.old.items ++
        comment_findings text.now (entries_at (map entry_reading_of said.now) origins.now)) }
{
    'origins: for index in origins {
        add_comment(alloc, found, text, &said[*index])?;
    }
    Ok(())
}
