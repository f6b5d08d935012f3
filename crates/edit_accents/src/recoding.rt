//! Recodes the values of entries.

ghost use Rattle.std.specs.Prelude.{◌≡◌, ◌++◌, ◌<◌, IfOk, OnOk, encode_utf8_all, length, map, slice_index_or};
ghost use Rattle.std.specs.List.{AllByRecursion, list_any};
ghost use Rattle.std.specs.Option.{option_map};
ghost use Rattle.std.specs.Str.{chars};
ghost use Rattle.std.specs.String.{string_bytes};
ghost use Rattle.bib_syntax.specs.Views.{entry_reading_of, field_of, piece_of};
ghost use Rattle.edit_entries.specs.Cuts.{IsPieceCut};
ghost use Rattle.edit_entries.specs.EditList.{edit_of};
ghost use Rattle.edit_strings.specs.Expanded.{elements, laid_out};
ghost use Rattle.edit_strings.specs.Tables.{AreAllFieldsCut, IsFieldCut, entry_edits, field_edits, value_edits};
ghost use Rattle.edit_strings.specs.Views.{lent_pieces};
ghost use Rattle.edit_accents.specs.Accents.{with_characters};
ghost use Rattle.edit_accents.specs.Pieces.{new_texts, text_of_piece, piece_with_text};
ghost use Rattle.edit_accents.specs.Recoded as spec;
ghost use Rattle.edit_accents.specs.Recoded.{IsRecoded};
ghost use Rattle.edit_accents.specs.declared.recoding.Form.{Form};

use crate::decoding::decoded;
use crate::encoding::with_commands;
use crate::signs::signs;
use crate::writing::written;
use bib_syntax::raw::{Pair, RawChunk, RawEntry};
use bib_tables::fields::{is_reference_field, is_verbatim_field};
use bib_text::spanned::Spanned;
use edit_entries::document::RawDocument;
use edit_entries::editing::{Edit, edited_all};
use edit_entries::values::value_end;
use edit_strings::elements::laid_out;
use std::alloc::{AllocError, Global};

/// The form of accents and of letters beyond ASCII.
#[derive(Debug, Clone, Copy, PartialEq, Eq)]
pub enum Form {
    /// Characters: a command becomes the character that it gives, in NFC.
    Characters,
    /// LaTeX commands: a character becomes the command that gives it.
    Commands,
}

// Returns whether a byte shows that a text may change: the backslash of a command, or a byte of a character beyond ASCII.
fn is_other_form(form: Form, byte: u8) -> bool
    ensures { result ≡ spec.is_other_form form byte }
{
    match form {
        Form::Characters => byte == b'\\',
        Form::Commands => !byte.is_ascii(),
    }
}

// Returns whether a text contains a byte that shows that it may change.
fn has_other_form(form: Form, text: &str) -> bool
    ensures { result ≡ spec.has_other_form form text.now }
{
    'bytes: for byte in text.as_bytes() {
        if is_other_form(form, *byte) {
            return true;
        }
    }
    false
}

// Returns a text with its commands for accents and letters as characters.
fn with_characters(alloc: Global, text: &str) -> Result<String, AllocError>
    ensures { IfOk result (λ new. string_bytes new ≡ encode_utf8_all (with_characters (chars text.now))) }
{
    let cut = signs(alloc, text)?;
    let made = decoded(alloc, &cut)?;
    written(alloc, &made)
}

// Returns a text with its accents and letters in a form.
fn with_form(alloc: Global, form: Form, text: &str) -> Result<String, AllocError>
    ensures { IfOk result (λ new. string_bytes new ≡ encode_utf8_all (spec.with_form form (chars text.now))) }
{
    match form {
        Form::Characters => with_characters(alloc, text),
        Form::Commands => with_commands(alloc, text),
    }
}

// Returns the text of a literal with its accents and letters in a form.
fn text_recoded(alloc: Global, form: Form, text: &str) -> Result<String, AllocError>
    ensures { IfOk result (λ new. string_bytes new ≡ spec.text_recoded form text.now) }
{
    if has_other_form(form, text) {
        with_form(alloc, form, text)
    } else {
        String::from_str(alloc, text)
    }
}

// Returns the new text of a piece.
fn new_text(alloc: Global, form: Form, piece: &Spanned<RawChunk<'_>>) -> Result<String, AllocError>
    ensures { IfOk result (λ new. string_bytes new ≡ text_of_piece (spec.piece_recoded form (piece_of piece.now))) }
{
    match piece.v {
        RawChunk::Normal(text) => text_recoded(alloc, form, text),
        RawChunk::Abbreviation(name) => String::from_str(alloc, name),
    }
}

// Returns the new texts of pieces.
fn new_texts(
    alloc: Global,
    form: Form,
    pieces: &[Spanned<RawChunk<'_>>],
) -> Result<Vec<String>, AllocError>
    ensures { IfOk result (λ texts. map string_bytes texts.items ≡ new_texts form (map piece_of pieces.now)) }
{
    let mut texts = Vec::with_capacity(alloc, pieces.len())?;
    'pieces: for piece in pieces {
        texts.push(new_text(alloc, form, piece)?)?;
    }
    Ok(texts)
}

// Returns a piece with a new text.
fn with_text<'n>(piece: &Spanned<RawChunk<'_>>, text: &'n str) -> Spanned<RawChunk<'n>>
    ensures { piece_of result ≡ piece_with_text (piece_of piece.now) text.now }
{
    let v = match piece.v {
        RawChunk::Normal(_) => RawChunk::Normal(text),
        RawChunk::Abbreviation(_) => RawChunk::Abbreviation(text),
    };
    Spanned {
        v,
        span: piece.span.start..piece.span.end,
    }
}

// Returns the piece at an index.
fn piece_at<'p, 's>(pieces: &'p [Spanned<RawChunk<'s>>], at: usize) -> &'p Spanned<RawChunk<'s>>
    requires { at < length pieces.now }
    ensures { result.now ≡ slice_index_or pieces.now at result.now }
{
    &pieces[at]
}

// Returns whether the text of a piece changes.
fn changes(alloc: Global, form: Form, piece: &Spanned<RawChunk<'_>>) -> Result<bool, AllocError>
    ensures { IfOk result (λ b. b ≡ spec.changes_piece form (piece_of piece.now)) }
{
    match piece.v {
        RawChunk::Normal(old) => {
            let new = text_recoded(alloc, form, old)?;
            Ok(new.as_str() != old)
        }
        RawChunk::Abbreviation(_) => Ok(false),
    }
}

// Returns whether the text of any of the pieces changes.
fn any_changes(
    alloc: Global,
    form: Form,
    pieces: &[Spanned<RawChunk<'_>>],
) -> Result<bool, AllocError>
    ensures { IfOk result (λ b. b ≡ list_any (spec.changes_piece form) (map piece_of pieces.now)) }
{
    'pieces: for piece in pieces {
        if changes(alloc, form, piece)? {
            return Ok(true);
        }
    }
    Ok(false)
}

// Returns pieces with new texts.
fn new_pieces<'n>(
    alloc: Global,
    pieces: &[Spanned<RawChunk<'_>>],
    texts: &'n [String],
) -> Result<Vec<Spanned<RawChunk<'n>>>, AllocError>
    requires { length texts.now ≡ length pieces.now }
    ensures { IfOk result (λ new. (form : Form) → map string_bytes texts.now ≡ new_texts form (map piece_of pieces.now) →
        map piece_of new.items ≡ map (spec.piece_recoded form) (map piece_of pieces.now)) }
{
    let mut new = Vec::with_capacity(alloc, pieces.len())?;
    let mut at = 0usize;
    'pieces: while at < pieces.len() {
        let piece = piece_at(pieces, at);
        new.push(with_text(piece, &texts[at]))?;
        at += 1;
    }
    Ok(new)
}

// Returns the references to pieces.
fn lent<'p, 's>(
    alloc: Global,
    pieces: &'p [Spanned<RawChunk<'s>>],
) -> Result<Vec<&'p Spanned<RawChunk<'s>>>, AllocError>
    ensures { IfOk result (λ lent. lent_pieces lent.items ≡ map piece_of pieces.now) }
{
    let mut lent = Vec::with_capacity(alloc, pieces.len())?;
    'pieces: for piece in pieces {
        lent.push(piece)?;
    }
    Ok(lent)
}

// Returns whether a field with a name is one of four fields of other programs, whose values also occur elsewhere.
fn is_program_field(name: &str) -> bool
    ensures { result ≡ spec.is_program_field name.now }
{
    name.eq_ignore_ascii_case("groups")
        || name.eq_ignore_ascii_case("mendeley-groups")
        || name.eq_ignore_ascii_case("mendeley-tags")
        || name.eq_ignore_ascii_case("local-url")
}

// Returns whether the value of a field with a name lists keys of entries or keywords, or the field is in `is_program_field`.
fn is_kept_field(name: &str) -> bool
    ensures { result ≡ spec.is_kept_field name.now }
{
    is_reference_field(name)
        || name.eq_ignore_ascii_case("ids")
        || name.eq_ignore_ascii_case("keywords")
        || is_program_field(name)
}

// Returns whether the value of a field may change: verbatim fields, fields with keys or keywords and four fields of other programs stay
// the same.
fn is_recodable(alloc: Global, field: &Pair<'_>) -> Result<bool, AllocError>
    ensures { IfOk result (λ b. b ≡ spec.is_recodable_field (field_of field.now)) }
{
    let name = field.key.v.to_ascii_lowercase(alloc)?;
    Ok(!is_verbatim_field(&name) && !is_kept_field(field.key.v))
}

// Returns the new bytes of a value with these pieces.
fn value_text(
    alloc: Global,
    form: Form,
    text: &str,
    pieces: &[Spanned<RawChunk<'_>>],
) -> Result<String, AllocError>
    requires { AllByRecursion (IsPieceCut text.now) (map piece_of pieces.now) }
    ensures { IfOk result (λ new. string_bytes new ≡ laid_out text.now (map (spec.piece_recoded form) (map piece_of pieces.now))) }
{
    let texts = new_texts(alloc, form, pieces)?;
    let new = new_pieces(alloc, pieces, &texts)?;
    let lent = lent(alloc, &new)?;
    laid_out(alloc, text, &lent)
}

// Returns the new bytes of a value, if they change.
fn new_value(
    alloc: Global,
    form: Form,
    text: &str,
    field: &Pair<'_>,
) -> Result<Option<String>, AllocError>
    requires { AllByRecursion (IsPieceCut text.now) (elements (field_of field.now)) }
    ensures { IfOk result (λ new. option_map string_bytes new ≡
        option_map (λ n. n.bytes) (spec.recoding form text.now (field_of field.now))) }
{
    let pieces = &field.value.v;
    if is_recodable(alloc, field)? && any_changes(alloc, form, pieces)? {
        Ok(Some(value_text(alloc, form, text, pieces)?))
    } else {
        Ok(None)
    }
}

// Appends the edit of a field, if its value changes.
fn push_edit(
    edits: &mut Vec<Edit>,
    alloc: Global,
    form: Form,
    text: &str,
    field: &Pair<'_>,
) -> Result<(), AllocError>
    requires { IsFieldCut text.now (field_of field.now) }
    ensures { OnOk result (map edit_of edits.new.items ≡ map edit_of edits.old.items ++
        value_edits text.now (field_of field.now) (spec.recoding form text.now (field_of field.now))) }
{
    let Some(new) = new_value(alloc, form, text, field)? else {
        return Ok(());
    };
    edits.push(Edit {
        start: field.value.span.start,
        end: value_end(text, field),
        text: new,
    })?;
    Ok(())
}

// Appends the edits of the fields whose values change.
fn push_edits(
    edits: &mut Vec<Edit>,
    alloc: Global,
    form: Form,
    text: &str,
    fields: &[Pair<'_>],
) -> Result<(), AllocError>
    requires { AllByRecursion (IsFieldCut text.now) (map field_of fields.now) }
    ensures { OnOk result (map edit_of edits.new.items ≡ map edit_of edits.old.items ++
        field_edits (spec.recoding form text.now) text.now (map field_of fields.now)) }
{
    'fields: for field in fields {
        push_edit(edits, alloc, form, text, field)?;
    }
    Ok(())
}

// Returns the edits of entries.
fn edits(
    alloc: Global,
    form: Form,
    text: &str,
    entries: &[Spanned<RawEntry<'_>>],
) -> Result<Vec<Edit>, AllocError>
    requires { AreAllFieldsCut text.now (map entry_reading_of entries.now) }
    ensures { IfOk result (λ edits. map edit_of edits.items ≡
        entry_edits (spec.recoding form text.now) text.now (map entry_reading_of entries.now)) }
{
    let mut edits = Vec::new(alloc);
    'entries: for entry in entries {
        push_edits(&mut edits, alloc, form, text, &entry.v.fields)?;
    }
    Ok(edits)
}

/// Returns the text of `document` with the accents and letters beyond ASCII in its entries written in the form `form`. LaTeX
/// commands become characters, or characters become LaTeX commands. Verbatim fields, fields with keys or keywords, and four fields of other
/// programs stay the same. So do math between dollar signs, and addresses and keys in commands with the optional arguments before them. The
/// only error is out of memory.
pub fn recode(alloc: Global, document: &RawDocument<'_>, form: Form) -> Result<String, AllocError>
    ensures { IfOk result (λ new. IsRecoded form document.now (string_bytes new)) }
{
    let edits = edits(alloc, form, document.text(), &document.raw().entries)?;
    edited_all(alloc, document.text(), &edits)
}
