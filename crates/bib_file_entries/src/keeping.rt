//! Loads the entries of a file with errors.

ghost use Rattle.std.specs.Bool.{OnFalse};
ghost use Rattle.std.specs.Option.{unwrap_or};
ghost use Rattle.std.specs.Prelude.{◌≡◌, ◌++◌, ◌∷◌, [], map, length, IfOk, OnOk};
ghost use Rattle.bib_abbreviations.specs.Abbreviations.{given_by, sorted_in};
ghost use Rattle.bib_syntax.specs.Views.{entry_reading_of, field_of, file_of, piece_of};
ghost use Rattle.bib_syntax.specs.declared.raw.ParseErrorKind.TheVariants.{UnknownAbbreviation};
ghost use Rattle.bib_file_entries.specs.Claiming.{IsKeptSoFar};
ghost use Rattle.bib_file_entries.specs.Keeping.{AreKeptFields, IsKeptEntry, IsTried};
ghost use Rattle.bib_file_entries.specs.Kept.{mended_field, mended_piece, unknown_names};
ghost use Rattle.bib_file_entries.specs.Loaded.{definition_in};
ghost use Rattle.bib_file_entries.specs.Loading.{pieces_of};
ghost use Rattle.bib_collections.specs.Names.{AreIndicesBelow};

use crate::claiming::claims;
use crate::loading::{entry_with, read_field};
use crate::reading::duplicate;
use bib_abbreviations::definitions::definitions;
use bib_abbreviations::reader::FieldReader;
use bib_chunks::chunk::{Chunks, Span, Spanned};
use bib_collections::claims::Claims;
use bib_collections::names::Names;
use bib_entry::entry::Entry;
use bib_syntax::raw::{
    Field, Pair, ParseError, ParseErrorKind, RawBibliography, RawChunk, RawEntry,
};
use bib_text::text::Text;
use std::alloc::{AllocError, Global};
use std::collections::BTreeMap;

/// The entries of a file with errors, as far as they can be loaded.
#[derive(Drop)]
pub struct KeptEntries {
    /// The entries, each with its own fields.
    pub entries: Vec<Entry>,
    /// The names that the entries claim.
    pub names: Names,
    /// The span of each entry in the file, in bytes.
    pub spans: Vec<Span>,
    /// The index of each entry among the raw entries of the file.
    pub origins: Vec<usize>,
    /// The errors, in the order of the entries and of their fields. There is one for each undefined abbreviation in a field
    /// of a kept entry, and one for each field and entry that is left out. For a field that is left out, the errors of its
    /// abbreviations come first.
    pub errors: Vec<ParseError>,
}

// Returns the error of an undefined abbreviation, at its span.
fn unknown_abbreviation(alloc: Global, name: &str, span: &Span) -> Result<ParseError, AllocError>
    ensures { IfOk result (λ e. e ≡
        record { span = span.now; kind = UnknownAbbreviation name.now }) }
{
    let name = Text::from_str(alloc, name)?;
    Ok(ParseError {
        span: span.start..span.end,
        kind: ParseErrorKind::UnknownAbbreviation(name),
    })
}

// Returns whether a piece is an undefined abbreviation.
fn is_unknown(piece: &Spanned<RawChunk<'_>>, reader: &FieldReader<'_, '_>) -> bool
    ensures { OnFalse result (unknown_names (given_by reader.now) (piece_of piece.now ∷ []) ≡ []) }
{
    match piece.v {
        RawChunk::Abbreviation(name) => !reader.knows(name),
        RawChunk::Normal(_) => false,
    }
}

// Returns whether a field contains an undefined abbreviation.
fn has_unknown(field: &[Spanned<RawChunk<'_>>], reader: &FieldReader<'_, '_>) -> bool
    ensures { OnFalse result (unknown_names (given_by reader.now) (map piece_of field.now) ≡ []) }
{
    'pieces: for piece in field {
        if is_unknown(piece, reader) {
            return true;
        }
    }
    false
}

// Returns a copy of a piece, and replaces an undefined abbreviation by its name as text. Appends an error for it.
fn mend_piece<'s>(
    alloc: Global,
    piece: &Spanned<RawChunk<'s>>,
    reader: &FieldReader<'_, '_>,
    errors: &mut Vec<ParseError>,
) -> Result<Spanned<RawChunk<'s>>, AllocError>
    ensures mended { IfOk result (λ mended. piece_of mended ≡
        mended_piece (given_by reader.now) (piece_of piece.now)) }
    ensures errors { OnOk result (errors.new.items ≡ errors.old.items ++
        unknown_names (given_by reader.now) (piece_of piece.now ∷ [])) }
{
    let v = match piece.v {
        RawChunk::Normal(text) => RawChunk::Normal(text),
        RawChunk::Abbreviation(name) if reader.knows(name) => RawChunk::Abbreviation(name),
        RawChunk::Abbreviation(name) => {
            errors.push(unknown_abbreviation(alloc, name, &piece.span)?)?;
            RawChunk::Normal(name)
        }
    };
    Ok(Spanned::new(v, piece.span.start..piece.span.end))
}

// Returns copies of the pieces of a field, and replaces each undefined abbreviation by its name as text. Appends an error for
// each.
fn mend_pieces<'s>(
    alloc: Global,
    field: &[Spanned<RawChunk<'s>>],
    reader: &FieldReader<'_, '_>,
    errors: &mut Vec<ParseError>,
) -> Result<Field<'s>, AllocError>
    ensures mended { IfOk result (λ pieces. map piece_of pieces.items ≡
        map (mended_piece (given_by reader.now)) (map piece_of field.now)) }
    ensures errors { OnOk result (errors.new.items ≡ errors.old.items ++
        unknown_names (given_by reader.now) (map piece_of field.now)) }
{
    let mut pieces = Vec::with_capacity(alloc, field.len())?;
    'pieces: for piece in field {
        pieces.push(mend_piece(alloc, piece, reader, errors)?)?;
    }
    Ok(pieces)
}

// Returns a copy of a field with each undefined abbreviation replaced by its name as text, or `None` if it has none. Appends
// an error for each.
fn mend_field<'s>(
    alloc: Global,
    field: &Pair<'s>,
    reader: &FieldReader<'_, '_>,
    errors: &mut Vec<ParseError>,
) -> Result<Option<Pair<'s>>, AllocError>
    ensures mended { IfOk result (λ copy. field_of (unwrap_or copy field.now) ≡
        mended_field (given_by reader.now) (field_of field.now)) }
    ensures errors { OnOk result (errors.new.items ≡ errors.old.items ++
        unknown_names (given_by reader.now) (pieces_of field.now)) }
{
    if !has_unknown(&field.value.v, reader) {
        return Ok(None);
    }
    let pieces = mend_pieces(alloc, &field.value.v, reader, errors)?;
    let (name, value) = (&field.key.span, &field.value.span);
    Ok(Some(Pair {
        key: Spanned::new(field.key.v, name.start..name.end),
        value: Spanned::new(pieces, value.start..value.end),
    }))
}

// Parses a field with undefined abbreviations replaced by text. Returns `None` if it can't be parsed even so. Appends the
// errors.
fn keep_field<'s>(
    alloc: Global,
    field: &Pair<'s>,
    reader: &mut FieldReader<'_, 's>,
    errors: &mut Vec<ParseError>,
) -> Result<Option<(Text, Chunks)>, AllocError>
    ensures same { reader.new ≡ reader.old }
    ensures tried { IfOk result (IsTried (given_by reader.old) field.now errors.old.items errors.new.items) }
{
    let copy = mend_field(alloc, field, reader, errors)?;
    match read_field(alloc, copy.as_ref().unwrap_or(field), reader) {
        Ok(read) => Ok(Some(read)),
        Err(e) => {
            e.unless_out_of_memory()?;
            errors.push(e)?;
            Ok(None)
        }
    }
}

// Parses the fields of an entry, except those that can't be parsed. Appends the errors.
fn keep_fields<'s>(
    alloc: Global,
    fields: &[Pair<'s>],
    reader: &mut FieldReader<'_, 's>,
    errors: &mut Vec<ParseError>,
) -> Result<Vec<(Text, Chunks)>, AllocError>
    ensures same { reader.new ≡ reader.old }
    ensures kept { IfOk result (λ pairs. AreKeptFields (given_by reader.old) fields.now
        errors.old.items errors.new.items pairs.items) }
{
    let mut pairs = Vec::with_capacity(alloc, fields.len())?;
    'fields: for field in fields {
        let kept = keep_field(alloc, field, reader, errors)?;
        match kept {
            Some(pair) => pairs.push(pair)?,
            None => continue 'fields,
        }
    }
    Ok(pairs)
}

// Converts a raw entry to an entry with the fields that can be parsed. Appends the errors.
fn keep_entry<'s>(
    alloc: Global,
    raw: &Spanned<RawEntry<'s>>,
    reader: &mut FieldReader<'_, 's>,
    errors: &mut Vec<ParseError>,
) -> Result<Entry, AllocError>
    ensures same { reader.new ≡ reader.old }
    ensures kept { IfOk result (IsKeptEntry (given_by reader.old) (entry_reading_of raw.now)
        errors.old.items errors.new.items) }
{
    let pairs = keep_fields(alloc, &raw.v.fields, reader, errors)?;
    let entry = entry_with(alloc, raw.v.key.v, raw.v.kind.v, pairs)?;
    Ok(entry)
}

// Loads the entries of a file as far as possible, with these definitions of abbreviations.
fn keep_entries<'f, 's>(
    alloc: Global,
    raw: &[Spanned<RawEntry<'s>>],
    definitions: BTreeMap<&'s str, &'f Field<'s>>,
) -> Result<KeptEntries, AllocError>
    ensures kept { IfOk result (λ found. IsKeptSoFar (sorted_in definitions.entry)
        (map entry_reading_of raw.now) found.entries.items found.names found.spans.items
        found.origins.items found.errors.items) }
    ensures below { IfOk result (λ found. AreIndicesBelow (length found.entries.items) found.names) }
{
    let mut reader = FieldReader::new(alloc, definitions);
    let mut entries = Vec::with_capacity(alloc, raw.len())?;
    let mut spans = Vec::with_capacity(alloc, raw.len())?;
    let mut origins = Vec::with_capacity(alloc, raw.len())?;
    let mut names = Claims::new(alloc);
    let mut errors = Vec::new(alloc);
    let mut next = 0;
    'entries: for said in raw {
        let origin = next;
        next += 1;
        if names.get(said.v.key.v).is_some() {
            errors.push(duplicate(alloc, said)?)?;
            continue 'entries;
        }
        spans.push(said.span.start..said.span.end)?;
        origins.push(origin)?;
        let entry = keep_entry(alloc, said, &mut reader, &mut errors)?;
        names.claim_all(claims(alloc, &entry)?, entries.len())?;
        entries.push(entry)?;
    }
    let names = names.into_names(alloc)?;
    Ok(KeptEntries {
        entries,
        names,
        spans,
        origins,
        errors,
    })
}

/// Loads the entries of a file as far as possible. An entry is left out if its key was claimed by an earlier entry that was
/// kept, and a field if it can't be parsed. An abbreviation is undefined if it is neither defined in the file nor a month's. In a
/// field, its name replaces it as text. Each of these adds an error. Each name points to the last kept entry that claims it. The
/// only returned error is out of memory.
pub fn keep(alloc: Global, raw: &RawBibliography<'_>) -> Result<KeptEntries, AllocError>
    ensures kept { IfOk result (λ found. IsKeptSoFar (definition_in (file_of raw.now).abbreviations)
        (file_of raw.now).entries found.entries.items found.names found.spans.items
        found.origins.items found.errors.items) }
    ensures below { IfOk result (λ found. AreIndicesBelow (length found.entries.items) found.names) }
{
    let definitions = definitions(alloc, &raw.abbreviations)?;
    keep_entries(alloc, &raw.entries, definitions)
}
