//! Texts of fields with HTML tags.

ghost use Rattle.std.specs.Prelude.{◌≡◌, ◌∷◌, [], ◌++◌, length, IfOk};
ghost use Rattle.std.specs.Option.{option_copied};
ghost use Rattle.std.specs.Str.{chars};
ghost use Rattle.bib_chunks.specs.Values.{text};
ghost use Rattle.bib_csl.specs.Texts.{bare_text, tagged, keeping_its_case, keeping_case, braced_in_title, is_letter_of_command, marked_field, marked_chunk, marked_chunks};

use crate::standing::shown_chunk;
use crate::tags::marked_text;
use bib_chunks::chunk::{Chunk, ChunksRef, Spanned};
use bib_text::text::Text;
use std::alloc::{AllocError, Global};

// Returns the text in a tag that keeps its case in every style, or an empty text as it is.
#[tactic(auto, unfolding(crate::specs::Texts::keeping_case))]
fn keeping_case(alloc: Global, text: Text) -> Result<Text, AllocError>
    ensures { IfOk result (λ kept. kept ≡ keeping_case text) }
{
    if text.is_empty() {
        return Ok(text);
    }
    let mut kept = Text::from_str(alloc, "<span class=\"nocase\">")?;
    kept.push_str(text.as_str())?;
    kept.push_str("</span>")?;
    Ok(kept)
}

// Returns the number of characters of a text.
fn characters(text: &str) -> usize
    ensures { result ≡ length (chars text.now) }
{
    text.chars().count()
}

// Returns whether the text of a chunk is one character beyond ASCII, and its place in the file is longer than the text. An
// accented letter that is written by a command has such a place.
#[tactic(auto, unfolding(crate::specs::Texts::is_letter_of_command))]
fn is_letter_of_command(chunk: &Spanned<Chunk>, text: &str) -> bool
    ensures { result ≡ is_letter_of_command chunk.now text.now }
{
    let place = chunk.span.end.saturating_sub(chunk.span.start);
    characters(text) == 1 && 1 < text.len() && text.len() < place
}

// Returns the text of a chunk in braces in a title. It is in a tag that keeps its case, unless it is empty or
// `is_letter_of_command` holds.
#[tactic(auto, unfolding(crate::specs::Texts::braced_in_title))]
fn braced_in_title(alloc: Global, chunk: &Spanned<Chunk>, text: Text) -> Result<Text, AllocError>
    ensures { IfOk result (λ kept. kept ≡ braced_in_title chunk.now text) }
{
    if is_letter_of_command(chunk, text.as_str()) {
        return Ok(text);
    }
    keeping_case(alloc, text)
}

// Returns the text of a chunk; if it is in braces in a title, as `braced_in_title` returns it.
#[tactic(auto, unfolding(crate::specs::Texts::keeping_its_case))]
fn keeping_its_case(
    alloc: Global,
    is_title: bool,
    chunk: &Spanned<Chunk>,
    text: Text,
) -> Result<Text, AllocError>
    ensures { IfOk result (λ kept. kept ≡ keeping_its_case is_title chunk.now text) }
{
    match &chunk.v {
        Chunk::Verbatim(_) if is_title => braced_in_title(alloc, chunk, text),
        _ => Ok(text),
    }
}

// Returns the text of a chunk with its commands replaced, with HTML tags or without them. Math is unchanged.
#[tactic(auto, unfolding(crate::specs::Texts::tagged))]
fn tagged(alloc: Global, has_tags: bool, chunk: &Spanned<Chunk>) -> Result<Text, AllocError>
    ensures { IfOk result (λ tagged_text. tagged_text ≡ tagged has_tags chunk.now.v (text (chunk.now ∷ []))) }
{
    let text = shown_chunk(alloc, chunk)?;
    match &chunk.v {
        Chunk::Math(_) => Ok(text),
        _ => marked_text(alloc, has_tags, text),
    }
}

// Returns the text of a chunk with HTML tags.
#[tactic(auto, unfolding(crate::specs::Texts::marked_chunk))]
fn marked_chunk(alloc: Global, is_title: bool, chunk: &Spanned<Chunk>) -> Result<Text, AllocError>
    ensures { IfOk result (λ text. text ≡ marked_chunk is_title chunk.now) }
{
    let text = tagged(alloc, true, chunk)?;
    keeping_its_case(alloc, is_title, chunk, text)
}

// Returns one text followed by another.
fn followed(first: Text, next: Text) -> Result<Text, AllocError>
    ensures { IfOk result (λ text. text ≡ first ++ next) }
{
    if first.is_empty() {
        return Ok(next);
    }
    let mut text = first;
    text.push_str(next.as_str())?;
    Ok(text)
}

// Returns the text of chunks with HTML tags.
#[tactic(auto, unfolding(crate::specs::Texts::marked_chunks))]
pub(crate) fn marked_chunks(
    alloc: Global,
    is_title: bool,
    chunks: ChunksRef<'_>,
) -> Result<Text, AllocError>
    ensures { IfOk result (λ text. text ≡ marked_chunks is_title chunks.now) }
{
    let mut out = Text::new(alloc);
    'chunks: for chunk in chunks {
        out = followed(out, marked_chunk(alloc, is_title, chunk)?)?;
    }
    Ok(out)
}

/// Returns the text of chunks with its LaTeX commands replaced, as an item has it, but without HTML tags. An unknown command without an
/// argument is kept, and so is math. The only error is out of memory.
#[tactic(auto, unfolding(crate::specs::Texts::bare_text))]
pub fn bare_text(alloc: Global, chunks: ChunksRef<'_>) -> Result<Text, AllocError>
    ensures { IfOk result (λ text. text ≡ bare_text chunks.now) }
{
    let mut out = Text::new(alloc);
    'chunks: for chunk in chunks {
        out = followed(out, tagged(alloc, false, chunk)?)?;
    }
    Ok(out)
}

// Returns the text of a field with HTML tags, or an empty text if the field is missing.
#[tactic(auto, unfolding(crate::specs::Texts::marked_field))]
pub(crate) fn marked_field(
    alloc: Global,
    is_title: bool,
    field: Option<ChunksRef<'_>>,
) -> Result<Text, AllocError>
    ensures { IfOk result (λ text. text ≡ marked_field is_title (option_copied field.entry)) }
{
    match field {
        Some(chunks) => marked_chunks(alloc, is_title, chunks),
        None => Ok(Text::new(alloc)),
    }
}
