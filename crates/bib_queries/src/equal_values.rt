//! Whether two values are equal, except for runs of white space and for the braces or quotes around their literals.

ghost use Rattle.std.specs.Prelude.{◌≡◌, false, map, IfOk};
ghost use Rattle.bib_syntax.specs.Views.{piece_of};
ghost use Rattle.bib_queries.specs.EqualValues as spec;

use bib_syntax::raw::RawChunk;
use bib_text::spanned::Spanned;
use std::alloc::{AllocError, Global};

// Returns a text in which each run of ASCII white space is one space.
fn with_single_spaces(alloc: Global, text: &[u8]) -> Result<Vec<u8>, AllocError>
    ensures { IfOk result (λ spaced. spaced.items ≡ spec.with_single_spaces false text.now) }
{
    let mut spaced = Vec::new(alloc);
    let mut is_after = false;
    'bytes: for b in text {
        let is_white = b.is_ascii_whitespace();
        if !is_white {
            spaced.push(*b)?;
        } else if !is_after {
            spaced.push(b' ')?;
        }
        is_after = is_white;
    }
    Ok(spaced)
}

/// Returns whether two texts are the same if each run of ASCII white space is one space. Returns an error only if out of memory.
pub fn are_equal_texts(alloc: Global, text: &str, other: &str) -> Result<bool, AllocError>
    ensures { IfOk result (λ equal. equal ≡ spec.are_equal_texts text.now other.now) }
{
    let first = with_single_spaces(alloc, text.as_bytes())?;
    let second = with_single_spaces(alloc, other.as_bytes())?;
    Ok(first.as_slice() == second.as_slice())
}

// Returns whether two pieces are two literals with equal texts (see `are_equal_texts`), or two abbreviations whose names are equal, also in
// ASCII case.
fn is_equal_piece(
    alloc: Global,
    one: &Spanned<RawChunk<'_>>,
    other: &Spanned<RawChunk<'_>>,
) -> Result<bool, AllocError>
    ensures { IfOk result (λ equal. equal ≡ spec.is_equal_piece (piece_of one.now) (piece_of other.now)) }
{
    match one.v {
        RawChunk::Normal(first) => match other.v {
            RawChunk::Normal(second) => are_equal_texts(alloc, first, second),
            RawChunk::Abbreviation(_) => Ok(false),
        },
        RawChunk::Abbreviation(first) => match other.v {
            RawChunk::Normal(_) => Ok(false),
            RawChunk::Abbreviation(second) => Ok(first == second),
        },
    }
}

/// Returns whether two values have equal pieces in the same order. Two literals are equal if their texts are, with each run of ASCII white
/// space as one space. It doesn't count whether they are in braces or in quotes. Returns an error only if out of memory.
pub fn are_equal_pieces(
    alloc: Global,
    one: &[Spanned<RawChunk<'_>>],
    other: &[Spanned<RawChunk<'_>>],
) -> Result<bool, AllocError>
    ensures { IfOk result (λ equal. equal ≡ spec.are_equal_pieces (map piece_of one.now) (map piece_of other.now)) }
{
    if one.len() != other.len() {
        return Ok(false);
    }
    'pieces: for (index, piece) in one.iter().enumerate() {
        if !is_equal_piece(alloc, piece, &other[index])? {
            return Ok(false);
        }
    }
    Ok(true)
}
