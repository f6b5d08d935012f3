//! The formatted texts of chunks. Most chunks are copied as they are.

ghost use Rattle.std.specs.Prelude.{◌≡◌, ◌∷◌, [], IfOk, IfSome, bytes_eq, codes};
ghost use Rattle.std.specs.List.{list_all};
ghost use Rattle.bib_chunks.specs.Values.{text};
ghost use Rattle.bib_csl.specs.Unmarked.{is_in_line};

use bib_chunks::chunk::{Chunk, ChunksRef, Spanned, format_verbatim};
use bib_text::text::Text;
use std::alloc::{AllocError, Global};

// Returns whether a byte is neither a line feed nor a carriage return.
fn is_in_line(byte: u8) -> bool
    ensures { result ≡ is_in_line byte }
{
    !matches!(byte, b'\n' | b'\r')
}

// Returns whether a text contains neither a line feed nor a carriage return.
fn is_one_line(text: &str) -> bool
    ensures { result ≡ list_all is_in_line text.now }
{
    text.as_bytes().iter().all(|byte| is_in_line(*byte))
}

// Returns the text of a chunk that is verbatim, or normal and on one line. It is the formatted text of the chunk, too.
fn standing(chunk: &Spanned<Chunk>) -> Option<&str>
    ensures { IfSome result (λ own. own.now ≡ text (chunk.now ∷ [])) }
{
    match &chunk.v {
        Chunk::Normal(text) if is_one_line(text.as_str()) => Some(text.as_str()),
        Chunk::Verbatim(text) => Some(text.as_str()),
        _ => None,
    }
}

// Returns the formatted text of a chunk.
pub(crate) fn shown_chunk(alloc: Global, chunk: &Spanned<Chunk>) -> Result<Text, AllocError>
    ensures { IfOk result (λ shown. shown ≡ text (chunk.now ∷ [])) }
{
    if let Some(own) = standing(chunk) {
        return Text::from_str(alloc, own);
    }
    Ok(Text::from_string(format_verbatim(alloc, std::slice::from_ref(chunk))?))
}

// Returns the formatted text of chunks.
pub(crate) fn shown(alloc: Global, chunks: ChunksRef<'_>) -> Result<Text, AllocError>
    ensures { IfOk result (λ shown. shown ≡ text chunks.now) }
{
    if let [chunk] = chunks {
        return shown_chunk(alloc, chunk);
    }
    Ok(Text::from_string(format_verbatim(alloc, chunks)?))
}

// Returns whether a name is the word `others`.
pub(crate) fn says_others(alloc: Global, chunks: ChunksRef<'_>) -> Result<bool, AllocError>
    ensures { IfOk result (λ says. says ≡ bytes_eq (text chunks.now) (codes "others")) }
{
    if let [chunk] = chunks {
        if let Some(own) = standing(chunk) {
            return Ok(own == "others");
        }
    }
    Ok(format_verbatim(alloc, chunks)?.as_str() == "others")
}
