//! Pieces of values, as they are written in the file.

ghost use Rattle.std.specs.Prelude.{◌≡◌, ◌++◌, [], codes, cond, OnOk, IfOk};
ghost use Rattle.std.specs.List.{AllByRecursion};
ghost use Rattle.std.specs.String.{string_bytes};
ghost use Rattle.bib_syntax.specs.Views.{piece_of};
ghost use Rattle.edit_entries.specs.Cuts.{IsPieceCut};
ghost use Rattle.edit_format.specs.Delimited.{delimited, piece_as_written};
ghost use Rattle.edit_format.specs.declared.style.Delimiters.TheVariants.{Keep};
ghost use Rattle.edit_strings.specs.Expanded as spec;
ghost use Rattle.edit_strings.specs.Views.{lent_pieces};

use bib_syntax::raw::RawChunk;
use bib_text::spanned::Spanned;
use std::alloc::{AllocError, Global};

// Appends the literal `content` with its delimiters in the file. The text before it, `before`, ends with the opening delimiter. A
// number has none.
fn push_literal(new: &mut String, before: &str, content: &str) -> Result<(), AllocError>
    ensures { OnOk result (string_bytes new.new ≡ string_bytes new.old ++ delimited Keep before.now content.now) }
{
    if before.ends_with("{") {
        new.push_str("{")?;
        new.push_str(content)?;
        new.push_str("}")?;
        return Ok(());
    }
    if before.ends_with("\"") {
        new.push_str("\"")?;
        new.push_str(content)?;
        new.push_str("\"")?;
        return Ok(());
    }
    new.push_str(content)?;
    Ok(())
}

// Appends a piece as it is written in the file, with its delimiters if it has any.
fn push_piece(new: &mut String, text: &str, piece: &Spanned<RawChunk<'_>>) -> Result<(), AllocError>
    requires { IsPieceCut text.now (piece_of piece.now) }
    ensures { OnOk result (string_bytes new.new ≡ string_bytes new.old ++ piece_as_written Keep text.now (piece_of piece.now)) }
{
    match piece.v {
        RawChunk::Normal(content) => push_literal(new, &text[..piece.span.start], content)?,
        RawChunk::Abbreviation(name) => new.push_str(name)?,
    }
    Ok(())
}

// Returns the separator before a piece: empty before the first, and ` # ` before each other.
fn sign_before(is_first: bool) -> &'static str
    ensures { result.now ≡ cond is_first [] (codes " # ") }
{
    if is_first { "" } else { " # " }
}

/// Returns `pieces` as they are written in `text`, with ` # ` between them. The only error is out of memory.
pub fn laid_out(
    alloc: Global,
    text: &str,
    pieces: &[&Spanned<RawChunk<'_>>],
) -> Result<String, AllocError>
    requires { AllByRecursion (IsPieceCut text.now) (lent_pieces pieces.now) }
    ensures { IfOk result (λ new. string_bytes new ≡ spec.laid_out text.now (lent_pieces pieces.now)) }
{
    let mut new = String::new(alloc);
    let mut is_first = true;
    'pieces: for piece in pieces {
        new.push_str(sign_before(is_first))?;
        push_piece(&mut new, text, *piece)?;
        is_first = false;
    }
    Ok(new)
}
