//! Keeps the complete parts of a block that can't be parsed.

ghost use Rattle.std.specs.Prelude.{◌≡◌, ℕ, true, false, map, IfOk, MatchBool, MatchOption};
ghost use Rattle.std.specs.Str.{IsCharBoundary};
ghost use Rattle.bib_text.specs.Characters as char;
ghost use Rattle.bib_text.specs.Places.{Place, CharAt, place};
ghost use Rattle.bib_syntax.specs.Blocks.{item_of};
ghost use Rattle.bib_syntax.specs.Grammar as grammar;
ghost use Rattle.bib_syntax.specs.Grammar.{Field, longest};
ghost use Rattle.bib_syntax.specs.Kept as spec;
ghost use Rattle.bib_syntax.specs.Kept.{Comments, CompleteFields, Kept, KeptBody, NoField, Opening};
ghost use Rattle.bib_syntax.specs.Reading.{Part};
ghost use Rattle.bib_syntax.specs.Views.{field_of, part_of};

use crate::raw::fields::{field, line_comment};
use crate::raw::file::{BlockKind, Item, block_kind};
use crate::raw::reader::Reader;
use crate::raw::words::{begins_identifier, identifier, key};
use crate::raw::{Pair, RawEntry};
use bib_text::scanner::Scanner;
use bib_text::spanned::{Span, Spanned};
use std::alloc::{AllocError, Global};

// Returns whether `c` opens a block: an opening brace, a quote or an opening parenthesis.
fn opens_block(c: char) -> bool
    ensures { result ≡ spec.opens_block c }
{
    matches!(c, '{' | '"' | '(')
}

// Returns whether a character that opens a block is here.
fn begins_bracket(s: &Reader<'_, '_>) -> bool
    ensures { MatchBool result
        ((c : ℕ) × (v : Place) × CharAt s.now c v × (spec.opens_block c ≡ true))
        ((c : ℕ) (v : Place) → CharAt s.now c v → spec.opens_block c ≡ false) }
{
    match s.peek() {
        Some(c) => opens_block(c),
        None => false,
    }
}

// Parses the opening of the block at this at sign, and returns its name. Returns `None` if it isn't complete.
fn opening<'s>(s: &mut Reader<'s, '_>) -> Option<Spanned<&'s str>>
    requires { (v : Place) × CharAt s.old char.at v }
    ensures { MatchOption result
        ((kind : Part) (v : Place) → Opening s.old kind v → ⊥)
        (λ kind. Opening s.old (part_of kind) s.new) }
{
    s.eat_if('@');
    let Ok(kind) = identifier(s) else {
        return None;
    };
    s.eat_whitespace();
    if !begins_bracket(s) {
        return None;
    }
    s.eat();
    s.eat_whitespace();
    Some(kind)
}

// Moves past white space and line comments.
fn comments(s: &mut Reader<'_, '_>)
    ensures { Comments s.old s.new }
{
    s.eat_whitespace();
    'comments: while s.at('%') {
        line_comment(s);
        s.eat_whitespace();
    }
}

// Parses the field that begins here. Returns `None` and doesn't move if no complete field begins here.
fn complete_field<'s>(s: &mut Reader<'s, '_>, alloc: Global) -> Result<Option<Pair<'s>>, AllocError>
    ensures { IfOk result (λ found. MatchOption found
        ((s.new ≡ s.old) × NoField s.old)
        (λ pair. Field longest s.old (field_of pair) s.new)) }
{
    if !begins_identifier(s) {
        return Ok(None);
    }
    let mut reader = s.with_memo(None);
    match field(&mut reader, alloc) {
        Ok(pair) => {
            s.jump(reader.cursor());
            Ok(Some(pair))
        }
        Err(error) => {
            error.unless_out_of_memory()?;
            Ok(None)
        }
    }
}

// Parses the complete fields from here on, until no complete field begins or no comma follows one.
fn complete_fields<'s>(s: &mut Reader<'s, '_>, alloc: Global) -> Result<Vec<Pair<'s>>, AllocError>
    ensures { IfOk result (λ pairs. CompleteFields s.old (map field_of pairs.items) s.new) }
{
    let mut pairs = Vec::new(alloc);
    'fields: while let Some(pair) = complete_field(s, alloc)? {
        pairs.push(pair)?;
        comments(s);
        if !s.eat_if(',') {
            return Ok(pairs);
        }
        comments(s);
    }
    Ok(pairs)
}

// Returns an entry without fields, or nothing if its key is empty.
fn key_alone<'s>(
    alloc: Global,
    key: Spanned<&'s str>,
    kind: Spanned<&'s str>,
    span: Span,
) -> Item<'s>
    ensures { (u v : Place) → u.at ≡ span.start → v.at ≡ span.end →
        item_of result ≡ spec.key_alone u (part_of kind.entry) (part_of key.entry) v }
{
    if key.v.is_empty() {
        return Item::Nothing;
    }
    let fields = Vec::new(alloc);
    Item::Entry(Spanned::new(RawEntry { key, kind, fields }, span))
}

// Parses the key of an entry and its complete fields. `start` is the offset of the entry. If no comma follows the key, the
// entry has no fields, or nothing is kept if the key is empty.
fn kept_entry<'s>(
    s: &mut Reader<'s, '_>,
    alloc: Global,
    kind: Spanned<&'s str>,
    start: usize,
) -> Result<Item<'s>, AllocError>
    ensures { IfOk result (λ item. (u : Place) → u.at ≡ start →
        KeptBody u (part_of kind.entry) grammar.BlockKind.entry s.old (item_of item)) }
{
    let key = key(s);
    s.eat_whitespace();
    if !s.eat_if(',') {
        return Ok(key_alone(alloc, key, kind, start..s.cursor()));
    }
    comments(s);
    let fields = complete_fields(s, alloc)?;
    let entry = RawEntry { key, kind, fields };
    Ok(Item::Entry(Spanned::new(entry, start..s.cursor())))
}

// Parses the complete parts of the block at the offset `start`, where `text` has an at sign.
pub(crate) fn kept<'s>(alloc: Global, text: &'s str, start: usize) -> Result<Item<'s>, AllocError>
    requires boundary { IsCharBoundary text.now start }
    requires sign { (v : Place) × CharAt (place text.now start) char.at v }
    ensures { IfOk result (λ item. Kept (place text.now start) (item_of item)) }
{
    let mut s = Reader::new(Scanner::new(text));
    s.jump(start);
    let Some(kind) = opening(&mut s) else {
        return Ok(Item::Nothing);
    };
    match block_kind(kind.v) {
        BlockKind::Comment | BlockKind::Preamble => Ok(Item::Nothing),
        BlockKind::Strings => Ok(Item::Strings(complete_fields(&mut s, alloc)?)),
        BlockKind::Entry => kept_entry(&mut s, alloc, kind, start),
    }
}
