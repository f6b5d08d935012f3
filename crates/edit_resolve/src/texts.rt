//! The texts of new fields.

ghost use Rattle.std.specs.Prelude.{◌≡◌, ◌++◌, ◌∷◌, [], map, IfOk, OnOk};
ghost use Rattle.std.specs.List.{AllByRecursion};
ghost use Rattle.std.specs.String.{string_bytes};
ghost use Rattle.bib_syntax.specs.Views.{field_of, piece_of};
ghost use Rattle.edit_entries.specs.Changes.{more_field_texts, new_field_text, spaced_sign};
ghost use Rattle.edit_entries.specs.Cuts.{ArePiecesCut};
ghost use Rattle.edit_strings.specs.Views.{lent_pieces};
ghost use Rattle.edit_resolve.specs.Resolved.{new_field};
ghost use Rattle.edit_resolve.specs.Working.{named_of};

use crate::gathering::Named;
use bib_syntax::raw::RawChunk;
use bib_text::spanned::Spanned;
use edit_strings::elements::laid_out;
use std::alloc::{AllocError, Global};

// Returns the pieces of a value.
fn lent<'p, 's>(
    alloc: Global,
    pieces: &'p [Spanned<RawChunk<'s>>],
) -> Result<Vec<&'p Spanned<RawChunk<'s>>>, AllocError>
    ensures { IfOk result (λ lent. lent_pieces lent.items ≡ map piece_of pieces.now) }
{
    let mut lent = Vec::with_capacity(alloc, pieces.len())?;
    'pieces: for piece in pieces {
        lent.push(piece)?;
    }
    Ok(lent)
}

// Appends a new field.
fn push_field(
    new: &mut String,
    alloc: Global,
    text: &str,
    named: &Named<'_, '_>,
) -> Result<(), AllocError>
    requires { ArePiecesCut text.now (named_of named.now).field }
    ensures { OnOk result (string_bytes new.new ≡ string_bytes new.old ++ new_field_text (new_field text.now (named_of named.now))) }
{
    let pieces = lent(alloc, &named.field.value.v)?;
    let value = laid_out(alloc, text, &pieces)?;
    new.push_str(named.name)?;
    new.push_str(" = ")?;
    new.push_str(&value)
}

// Appends a comma, white space and a new field.
fn push_next(
    new: &mut String,
    alloc: Global,
    text: &str,
    white: &str,
    named: &Named<'_, '_>,
) -> Result<(), AllocError>
    requires { ArePiecesCut text.now (named_of named.now).field }
    ensures { OnOk result (string_bytes new.new ≡ string_bytes new.old
        ++ more_field_texts spaced_sign white.now (new_field text.now (named_of named.now) ∷ [])) }
{
    new.push_str(",")?;
    new.push_str(white)?;
    push_field(new, alloc, text, named)
}

// Returns the text of new fields, with a comma and white space between them.
pub(crate) fn new_text(
    alloc: Global,
    text: &str,
    white: &str,
    first: &Named<'_, '_>,
    more: &[Named<'_, '_>],
) -> Result<String, AllocError>
    requires first { ArePiecesCut text.now (named_of first.now).field }
    requires more { AllByRecursion (λ n. ArePiecesCut text.now n.field) (map named_of more.now) }
    ensures { IfOk result (λ new. string_bytes new ≡ new_field_text (new_field text.now (named_of first.now)) ++
        more_field_texts spaced_sign white.now (map (new_field text.now) (map named_of more.now))) }
{
    let mut new = String::new(alloc);
    push_field(&mut new, alloc, text, first)?;
    'more: for named in more {
        push_next(&mut new, alloc, text, white, named)?;
    }
    Ok(new)
}
