//! Writing of the pieces of values.

ghost use Rattle.std.specs.Prelude.{◌≡◌, ◌++◌, codes, cond, map, OnOk};
ghost use Rattle.std.specs.List.{AllByRecursion};
ghost use Rattle.std.specs.String.{string_bytes};
ghost use Rattle.bib_syntax.specs.Views.{piece_of};
ghost use Rattle.edit_entries.specs.Cuts.{IsPieceCut};
ghost use Rattle.edit_format.specs.Delimited.{piece_as_written};
ghost use Rattle.edit_format.specs.Formatted.{value_laid_out};

use crate::delimiters::push_literal;
use crate::layout::Layout;
use bib_syntax::raw::RawChunk;
use bib_text::spanned::Spanned;
use std::alloc::AllocError;

// Appends a piece. A literal with delimiters gets those of the style, if it can be written in them.
fn push_piece(
    new: &mut String,
    layout: &Layout<'_, '_>,
    piece: &Spanned<RawChunk<'_>>,
) -> Result<(), AllocError>
    requires { IsPieceCut layout.now.text.now (piece_of piece.now) }
    ensures { OnOk result (string_bytes new.new ≡ string_bytes new.old ++
        piece_as_written layout.now.style.delimiters layout.now.text.now (piece_of piece.now)) }
{
    match piece.v {
        RawChunk::Normal(content) => push_literal(
            new,
            layout.style.delimiters,
            &layout.text[..piece.span.start],
            content,
        )?,
        RawChunk::Abbreviation(name) => new.push_str(name)?,
    }
    Ok(())
}

// Returns the separator before a piece: ` = ` before the first, and `next` before each other.
fn sign_before<'a>(is_first: bool, next: &'a str) -> &'a str
    ensures { result.now ≡ cond is_first (codes " = ") next.now }
{
    if is_first { " = " } else { next }
}

// Appends a value: ` = ` before its first piece, and `next` before each other piece.
pub(crate) fn push_value(
    new: &mut String,
    layout: &Layout<'_, '_>,
    next: &str,
    pieces: &[Spanned<RawChunk<'_>>],
) -> Result<(), AllocError>
    requires { AllByRecursion (IsPieceCut layout.now.text.now) (map piece_of pieces.now) }
    ensures { OnOk result (string_bytes new.new ≡ string_bytes new.old ++
        value_laid_out (codes " = ") next.now
        (map (piece_as_written layout.now.style.delimiters layout.now.text.now) (map piece_of pieces.now))) }
{
    let mut is_first = true;
    'pieces: for piece in pieces {
        new.push_str(sign_before(is_first, next))?;
        push_piece(new, layout, piece)?;
        is_first = false;
    }
    Ok(())
}
