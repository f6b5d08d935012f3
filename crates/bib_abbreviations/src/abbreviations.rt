//! Expands abbreviations: a memo keeps the chunks of each expanded name for later uses.

ghost use Rattle.std.specs.Prelude.{◌≡◌, ℕ, ◌+◌, ◌≤◌, ◌⊎◌, Some, None, List, [], ◌∷◌, ◌++◌, map, length, vec_len, IsOk, OnOk, OnErr, IfOk, IfErr};
ghost use Rattle.std.specs.Option.{option_map};
ghost use Rattle.bib_chunks.specs.Styled.{styled};
ghost use Rattle.bib_abbreviations.specs.Abbreviations as abbreviations;
ghost use Rattle.bib_abbreviations.specs.Abbreviations.{AreContents, Definitions, IsFirstError, defined_in};
ghost use Rattle.bib_abbreviations.specs.Expanding.{known_to, progress, with_progress, part_at, chunks_between, AddsPieces, AppendsPiece, AreWithin, HasContents, IsSoundFor, IsTaken, Opens, FailsWith, StopsAt};
ghost use Rattle.bib_syntax.specs.Errors.{out_of_memory};
ghost use Rattle.bib_chunks.specs.Joined.{AreJoined, ArePlaced};
ghost use Rattle.bib_syntax.specs.Reading.{Part, Piece};
ghost use Rattle.bib_syntax.specs.Reading.Piece.{abbreviation, literal};
ghost use Rattle.bib_syntax.specs.Views.{piece_of};
ghost use Rattle.bib_abbreviations.specs.declared.abbreviations.Progress.TheVariants.{Begun, Done};

use crate::definitions::Lookup;
use bib_chunks::chunk::{Chunk, Chunks, Span, Spanned};
use bib_chunks::joining::append_copies;
use bib_contents::contents::contents;
use bib_syntax::raw::{Field, ParseError, ParseErrorKind, RawChunk};
use bib_tables::months::Month;
use bib_text::items::Items;
use bib_text::text::Text;
use std::alloc::{AllocError, Global};
use std::collections::{BTreeMap, HashMap};

// Parses the contents of a field, with the definitions in a hash map.
pub(crate) fn field_contents<'a>(
    alloc: Global,
    is_verbatim: bool,
    field: &Field<'a>,
    definitions: &'a HashMap<&'a str, &'a Field<'a>>,
) -> Result<Chunks, ParseError>
    ensures contents { IfOk result (AreContents (defined_in definitions.now) is_verbatim
        (map piece_of field.now.items)) }
    ensures refused { IfErr result (λ e. (e ≡ out_of_memory) ⊎
        IsFirstError (defined_in definitions.now) is_verbatim [] (map piece_of field.now.items) e) }
{
    let expansion = Expansion {
        alloc,
        definitions: Lookup::Hashed(definitions),
        is_verbatim,
    };
    expansion.field(&mut Memo::new(alloc), field)
}

// The allocator, the definitions and the kind of field with which pieces are expanded.
#[derive(Clone, Copy)]
pub(crate) struct Expansion<'m, 'f, 's> {
    pub(crate) alloc: Global,
    pub(crate) definitions: Lookup<'m, 'f, 's>,
    pub(crate) is_verbatim: bool,
}

// The defined names that occurred, and their chunks in `values`. The chunks of a name are contiguous and include those of
// the names in its definition. Neighbouring chunks of different pieces may stay unmerged.
#[derive(Drop)]
pub(crate) struct Memo<'s> {
    names: BTreeMap<&'s str, Progress>,
    values: Vec<Spanned<Chunk>>,
}

// How far the expansion of a name is.
#[derive(Clone, Copy)]
enum Progress {
    // It has begun.
    Begun,
    // It is done: the chunks of the name are those from `start` to before `end` in `values`.
    Done { start: usize, end: usize },
}

// A name that is being expanded: the pieces of its definition that are left, and the index of its first chunk in
// `values`.
#[derive(Drop)]
struct Frame<'f, 's> {
    name: &'s str,
    rest: &'f [Spanned<RawChunk<'s>>],
    start: usize,
}

impl<'s> Memo<'s> {
    // Returns a memo without names.
    pub(crate) fn new(alloc: Global) -> Self
        ensures none { (name : List ℕ) → progress result name ≡ None }
        ensures empty { result.values.items ≡ [] }
    {
        Memo {
            names: BTreeMap::new(alloc),
            values: Vec::new(alloc),
        }
    }

    // Begins the expansion of a name.
    fn open<'f>(
        &mut self,
        name: &'s str,
        definition: &'f Field<'s>,
    ) -> Result<Frame<'f, 's>, ParseError>
        ensures opened { (definitions : Definitions) →
            definitions name.now ≡ Some (map piece_of definition.now.items) →
            progress self.old name.now ≡ None →
            IfOk result (λ frame. Opens definitions self.old self.new name.now frame) }
        ensures err { IfErr result (λ e. e ≡ out_of_memory) }
    {
        self.names.insert(name, Progress::Begun)?;
        Ok(Frame {
            name,
            rest: definition.as_slice(),
            start: self.values.len(),
        })
    }

    // Ends the expansion of a name.
    fn close(&mut self, frame: &Frame<'_, 's>) -> Result<(), ParseError>
        ensures values { self.new.values ≡ self.old.values }
        ensures names { OnOk result ((other : List ℕ) →
            progress self.new other ≡ with_progress frame.now.name.now
            (Done frame.now.start (length self.old.values.items)) (progress self.old) other) }
        ensures err { IfErr result (λ e. e ≡ out_of_memory) }
    {
        let done = Progress::Done {
            start: frame.start,
            end: self.values.len(),
        };
        self.names.insert(frame.name, done)?;
        Ok(())
    }

    // Appends copies of the chunks from `start` to before `end`, merged as by `append_copies`.
    fn repeat(&mut self, alloc: Global, start: usize, end: usize) -> Result<(), ParseError>
        requires ordered { start ≤ end }
        requires within { end ≤ length self.old.values.items }
        ensures names { self.new.names ≡ self.old.names }
        ensures values { OnOk result ((more : List (Spanned Chunk)) ×
            (self.new.values.items ≡ self.old.values.items ++ more) ×
            (styled more ≡ styled (chunks_between start end self.old.values.items))) }
        ensures err { IfErr result (λ e. e ≡ out_of_memory) }
    {
        let mut part = Chunks::new(alloc);
        append_copies(&mut part, &self.values[start..end])?;
        self.values.append(&mut part.into_vec())?;
        Ok(())
    }
}

impl<'m, 'f, 's> Expansion<'m, 'f, 's> {
    // Parses the contents of a field.
    pub(crate) fn field(self, memo: &mut Memo<'s>, field: &Field<'s>) -> Result<Chunks, ParseError>
        requires sound { IsSoundFor self memo.old [] }
        ensures contents { IfOk result (HasContents self.entry (map piece_of field.now.items)) }
        ensures sound { OnOk result (IsSoundFor self.entry memo.new []) }
        ensures refused { IfErr result (λ e. FailsWith self.entry [] (map piece_of field.now.items) e) }
    {
        // most fields have one chunk
        let mut out = Items::from_vec(Vec::with_capacity(self.alloc, 1)?);
        'pieces: for piece in field {
            self.expand(memo, &mut out, piece)?;
        }
        Ok(out)
    }

    // Parses the contents of a field. An error empties the memo.
    pub(crate) fn read(self, memo: &mut Memo<'s>, field: &Field<'s>) -> Result<Chunks, ParseError>
        requires sound { IsSoundFor self memo.old [] }
        ensures sound { IsSoundFor self.entry memo.new [] }
        ensures contents { IfOk result (HasContents self.entry (map piece_of field.now.items)) }
        ensures refused { IfErr result (λ e. FailsWith self.entry [] (map piece_of field.now.items) e) }
    {
        let read = self.field(memo, field);
        if read.is_err() {
            *memo = Memo::new(self.alloc);
        }
        read
    }

    // Expands a piece of a field, and appends its chunks to `out`.
    fn expand(
        self,
        memo: &mut Memo<'s>,
        out: &mut Chunks,
        piece: &Spanned<RawChunk<'s>>,
    ) -> Result<(), ParseError>
        requires sound { IsSoundFor self memo.old [] }
        ensures said { OnOk result (AppendsPiece self.entry (piece_of piece.now) out.old out.new) }
        ensures sound { OnOk result (IsSoundFor self.entry memo.new []) }
        ensures joined { OnOk result (AreJoined out.old → AreJoined out.new) }
        ensures placed { OnOk result ((p : Part) → piece_of piece.now ≡ literal p →
            p.end ≡ p.start + length p.text → (low : ℕ) → ArePlaced low p.start out.old →
            ArePlaced low p.end out.new) }
        ensures refused { IfErr result (λ e. StopsAt self.entry [] (piece_of piece.now) e) }
    {
        if let RawChunk::Normal(text) = piece.v {
            contents(out, self.alloc, text, piece.span.start, self.is_verbatim)?;
            return Ok(());
        }
        self.expand_name(memo, out, piece)
    }

    // Appends the chunks of a name to `out`. If the memo already has the name, it keeps no second copy of the chunks.
    fn expand_name(
        self,
        memo: &mut Memo<'s>,
        out: &mut Chunks,
        piece: &Spanned<RawChunk<'s>>,
    ) -> Result<(), ParseError>
        requires sound { IsSoundFor self memo.old [] }
        ensures said { OnOk result (AppendsPiece self.entry (piece_of piece.now) out.old out.new) }
        ensures sound { OnOk result (IsSoundFor self.entry memo.new []) }
        ensures joined { OnOk result (AreJoined out.old → AreJoined out.new) }
        ensures refused { IfErr result (λ e. StopsAt self.entry [] (piece_of piece.now) e) }
    {
        let start = memo.values.len();
        let Some(frame) = self.take(memo, piece)? else {
            append_copies(out, &memo.values[start..])?;
            memo.values.truncate(start);
            return Ok(());
        };
        self.run(memo, frame)?;
        append_copies(out, &memo.values[start..])?;
        Ok(())
    }

    // Expands the name of a frame: appends its chunks to the memo.
    fn run(self, memo: &mut Memo<'s>, first: Frame<'f, 's>) -> Result<(), ParseError>
        requires sound { IsSoundFor self memo.old (first.name.now ∷ []) }
        requires defined { known_to self first.name.now ≡ Some (map piece_of first.rest.now) }
        requires start { first.start ≡ length memo.old.values.items }
        ensures said { OnOk result (AddsPieces self.entry memo.old memo.new
            (map piece_of first.entry.rest.now)) }
        ensures sound { OnOk result (IsSoundFor self.entry memo.new []) }
        ensures refused { IfErr result (λ e. FailsWith self.entry (first.entry.name.now ∷ [])
            (map piece_of first.entry.rest.now) e) }
    {
        let mut frames: Vec<Frame<'f, 's>> = Vec::new(self.alloc);
        let mut frame = first;
        'frames: loop {
            let Some((piece, rest)) = frame.rest.split_first() else {
                memo.close(&frame)?;
                let Some(below) = frames.pop() else {
                    return Ok(());
                };
                frame = below;
                continue;
            };
            frame.rest = rest;
            if let Some(above) = self.take(memo, piece)? {
                frames.push(frame)?;
                frame = above;
            }
        }
    }

    // Appends the chunks of a literal, of an expanded name or of a month to the memo, or starts to expand a name.
    fn take(
        self,
        memo: &mut Memo<'s>,
        piece: &Spanned<RawChunk<'s>>,
    ) -> Result<Option<Frame<'f, 's>>, ParseError>
        requires within { AreWithin memo.old }
        ensures taken { (path : List (List ℕ)) → IsSoundFor self.entry memo.old path →
            IfOk result (IsTaken self.entry memo.old memo.new (piece_of piece.now)) }
        ensures refused { (path : List (List ℕ)) → IsSoundFor self.entry memo.old path →
            IfErr result (λ e. StopsAt self.entry path (piece_of piece.now) e) }
    {
        match piece.v {
            RawChunk::Normal(text) => {
                self.text(memo, text, piece.span.start)?;
                Ok(None)
            }
            RawChunk::Abbreviation(name) => self.name(memo, name, &piece.span),
        }
    }

    // Appends the chunks of a literal to the memo. The literal begins at byte `offset` of its file.
    fn text(self, memo: &mut Memo<'s>, text: &str, offset: usize) -> Result<(), ParseError>
        ensures names { memo.new.names ≡ memo.old.names }
        ensures said { OnOk result ((p : Part) → p.text ≡ text.now →
            AddsPieces self.entry memo.old memo.new (literal p ∷ [])) }
        ensures refused { IfErr result (λ e. (e ≡ out_of_memory) ⊎
            ((p : Part) (path : List (List ℕ)) (rest : List Piece) → p.text ≡ text.now →
            p.start ≡ offset → IsFirstError (known_to self.entry) self.entry.is_verbatim path (literal p ∷ rest) e)) }
    {
        let mut part = Chunks::new(self.alloc);
        contents(&mut part, self.alloc, text, offset, self.is_verbatim)?;
        memo.values.append(&mut part.into_vec())?;
        Ok(())
    }

    // Appends the chunks of a name to the memo, or starts to expand it. Returns an error if the name is being expanded, if it
    // is neither defined nor the abbreviation of a month, or if out of memory.
    fn name(
        self,
        memo: &mut Memo<'s>,
        name: &'s str,
        span: &Span,
    ) -> Result<Option<Frame<'f, 's>>, ParseError>
        requires within { AreWithin memo.old }
        ensures taken { (path : List (List ℕ)) → IsSoundFor self.entry memo.old path →
            IfOk result (IsTaken self.entry memo.old memo.new
            (abbreviation (part_at name.now span.now))) }
        ensures refused { (path : List (List ℕ)) → IsSoundFor self.entry memo.old path →
            IfErr result (λ e. StopsAt self.entry path
            (abbreviation (part_at name.now span.now)) e) }
    {
        match memo.names.get(name) {
            Some(Progress::Begun) => Err(ParseError {
                span: span.start..span.end,
                kind: ParseErrorKind::AbbreviationCycle(Text::from_str(self.alloc, name)?),
            }),
            Some(Progress::Done { start, end }) => {
                let (start, end) = (*start, *end);
                memo.repeat(self.alloc, start, end)?;
                Ok(None)
            }
            None => self.new_name(memo, name, span),
        }
    }

    // Starts to expand a name that isn't in the memo, or appends the name of the month that it abbreviates. Returns an error if
    // the name is neither defined nor the abbreviation of a month, or if out of memory.
    fn new_name(
        self,
        memo: &mut Memo<'s>,
        name: &'s str,
        span: &Span,
    ) -> Result<Option<Frame<'f, 's>>, ParseError>
        requires fresh { progress memo.old name.now ≡ None }
        ensures taken { IfOk result (IsTaken self.entry memo.old memo.new
            (abbreviation (part_at name.now span.now))) }
        ensures refused { IfErr result (λ e. (e ≡ out_of_memory) ⊎
            ((path : List (List ℕ)) (rest : List Piece) →
            IsFirstError (known_to self.entry) self.entry.is_verbatim path
            (abbreviation (part_at name.now span.now) ∷ rest) e)) }
    {
        if let Some(definition) = self.definitions.get(name) {
            return Ok(Some(memo.open(name, definition)?));
        }
        let Some(english) = month(name) else {
            return Err(ParseError {
                span: span.start..span.end,
                kind: ParseErrorKind::UnknownAbbreviation(Text::from_str(self.alloc, name)?),
            });
        };
        let v = Chunk::Normal(Text::from_str(self.alloc, english)?);
        memo.values.push(Spanned::new(v, span.start..span.end))?;
        Ok(None)
    }
}

// Returns the English name of the month that `name` abbreviates, in any ASCII case.
pub(crate) fn month(name: &str) -> Option<&'static str>
    ensures { option_map (λ english. english.now) result ≡ abbreviations.month name.now }
{
    Some(Month::from_abbreviation(name)?.name())
}
