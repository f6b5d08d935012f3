//! Parses blocks, and files of blocks.

ghost use Rattle.std.specs.Prelude.{◌≡◌, ℕ, List, [], ◌∷◌, ◌==◌, ◌&&◌, ◌||◌, not, true, IfOk, IfErr, OnOk, OnErr};
ghost use Rattle.std.specs.String.{string_bytes};
ghost use Rattle.bib_text.specs.Characters as char;
ghost use Rattle.bib_text.specs.Places.{Place, CharAt, place};
ghost use Rattle.bib_syntax.specs.Blocks.{item_of, block_kind_of};
ghost use Rattle.bib_syntax.specs.Grammar as grammar;
ghost use Rattle.bib_syntax.specs.Grammar.{BlockKind as ABlock};
ghost use Rattle.bib_syntax.specs.Grammar.{Head, Body, Block, LineComment, File, Quoted, longest};
ghost use Rattle.bib_syntax.specs.Reading.{Part, FileReading, empty_reading, joined_preambles, then};
ghost use Rattle.bib_syntax.specs.Errors.{IsSyntaxError, Refuses};
ghost use Rattle.bib_syntax.specs.SyntaxErrors.{HeadFails, BodyFails, BlockFails, FileFails, Reports};
ghost use Rattle.bib_syntax.specs.Views.{part_of, file_of};

use crate::raw::fields::{fields, gap, line_comment};
use crate::raw::reader::Reader;
use crate::raw::words::{brace, expect, identifier, key, quoted_text};
use crate::raw::{Pair, ParseError, RawBibliography, RawEntry, Token};
use bib_text::spanned::Spanned;
use std::alloc::{AllocError, Global};

// The kind of a block.
pub(crate) enum BlockKind {
    Comment,
    Preamble,
    Strings,
    Entry,
}

/// Returns whether `name` is `word` in any ASCII case.
pub fn is_word(name: &str, word: &str) -> bool
    ensures { result ≡ grammar.is_word name.now word.now }
{
    name.eq_ignore_ascii_case(word)
}

// Returns the kind of a block with this name, which may be in any ASCII case.
pub(crate) fn block_kind(name: &str) -> BlockKind
    ensures { block_kind_of result ≡ grammar.block_kind name.now }
{
    if is_word(name, "comment") {
        BlockKind::Comment
    } else if is_word(name, "preamble") {
        BlockKind::Preamble
    } else if is_word(name, "string") {
        BlockKind::Strings
    } else {
        BlockKind::Entry
    }
}

// The content of a block.
#[derive(Drop)]
pub(crate) enum Item<'s> {
    Nothing,
    Preamble(&'s str),
    Strings(Vec<Pair<'s>>),
    Entry(Spanned<RawEntry<'s>>),
}

// Parses the head of a block: its at sign, its name, white space, an opening brace or a quote, and white space. Returns the name.
pub(crate) fn head<'s>(s: &mut Reader<'s, '_>) -> Result<Spanned<&'s str>, ParseError>
    requires { (v : Place) × CharAt s.old char.at v }
    ensures found { IfOk result (λ kind. Head longest s.old (part_of kind) s.new) }
    ensures fails { IfErr result (Reports (HeadFails s.old)) }
    ensures error { IfErr result (IsSyntaxError s.old.text) }
{
    s.eat_if('@');
    let kind = identifier(s)?;
    s.eat_whitespace();
    brace(s, '{', Token::OpeningBrace)?;
    s.eat_whitespace();
    Ok(kind)
}

// Parses the rest of a comment block, up to its first closing brace and including it.
fn comment(s: &mut Reader<'_, '_>) -> Result<(), ParseError>
    ensures found { OnOk result ((u : Place) (p : Part) →
        Body longest u p ABlock.comment s.old empty_reading s.new) }
    ensures fails { IfErr result (Reports (BodyFails ABlock.comment s.old)) }
    ensures error { IfErr result (IsSyntaxError s.old.text) }
{
    s.eat_to_brace();
    expect(s, '}', Token::ClosingBrace)?;
    Ok(())
}

// Parses the rest of a preamble: one quoted text, and a closing brace or a quote. Returns the text with its quotes.
fn preamble<'s>(s: &mut Reader<'s, '_>) -> Result<&'s str, ParseError>
    ensures found { IfOk result (λ text. (u : Place) (p : Part) →
        Body longest u p ABlock.preamble s.old (item_of (Item.Preamble text)) s.new) }
    ensures fails { IfErr result (Reports (BodyFails ABlock.preamble s.old)) }
    ensures error { IfErr result (IsSyntaxError s.old.text) }
{
    let start = s.cursor();
    quoted_text(s)?;
    let text = s.from(start);
    s.eat_whitespace();
    brace(s, '}', Token::ClosingBrace)?;
    Ok(text)
}

// Parses definitions of abbreviations, and the closing brace.
fn strings<'s>(s: &mut Reader<'s, '_>, alloc: Global) -> Result<Vec<Pair<'s>>, ParseError>
    ensures found { IfOk result (λ pairs. (u : Place) (p : Part) →
        Body longest u p ABlock.strings s.old (item_of (Item.Strings pairs)) s.new) }
    ensures fails { IfErr result (λ e. Refuses s.old.text e
        (Reports (BodyFails ABlock.strings s.old) e)) }
{
    let pairs = fields(s, alloc)?;
    s.eat_if('}');
    Ok(pairs)
}

// Parses the key of an entry, the comma after it, its fields and the closing brace. `start` is the offset of the entry.
fn entry<'s>(
    s: &mut Reader<'s, '_>,
    alloc: Global,
    kind: Spanned<&'s str>,
    start: usize,
) -> Result<Spanned<RawEntry<'s>>, ParseError>
    ensures found { IfOk result (λ e. (u : Place) → u.at ≡ start →
        Body longest u (part_of kind.entry) ABlock.entry s.old (item_of (Item.Entry e)) s.new) }
    ensures fails { IfErr result (λ e. Refuses s.old.text e
        (Reports (BodyFails ABlock.entry s.old) e)) }
{
    let key = key(s);
    s.eat_whitespace();
    expect(s, ',', Token::Comma)?;
    gap(s);
    let fields = fields(s, alloc)?;
    let span = start..s.cursor();
    s.eat_if('}');
    Ok(Spanned::new(RawEntry { key, kind, fields }, span))
}

// Parses a block: a comment, a preamble, definitions of abbreviations or an entry.
pub(crate) fn block<'s>(s: &mut Reader<'s, '_>, alloc: Global) -> Result<Item<'s>, ParseError>
    requires { (v : Place) × CharAt s.old char.at v }
    ensures found { IfOk result (λ item. Block longest s.old (item_of item) s.new) }
    ensures fails { IfErr result (λ e. Refuses s.old.text e (Reports (BlockFails s.old) e)) }
{
    let start = s.cursor();
    let kind = head(s)?;
    match block_kind(kind.v) {
        BlockKind::Comment => {
            comment(s)?;
            Ok(Item::Nothing)
        }
        BlockKind::Preamble => Ok(Item::Preamble(preamble(s)?)),
        BlockKind::Strings => Ok(Item::Strings(strings(s, alloc)?)),
        BlockKind::Entry => Ok(Item::Entry(entry(s, alloc, kind, start)?)),
    }
}

// Appends a preamble to the preambles before it.
pub(crate) fn add_preamble(preambles: &mut String, text: &str) -> Result<(), AllocError>
    ensures { OnOk result (string_bytes preambles.new ≡ joined_preambles (string_bytes preambles.old) text.now) }
{
    if !preambles.is_empty() && !text.is_empty() {
        preambles.push_str(" # ")?;
    }
    preambles.push_str(text)
}

// Appends the content of a block to the content of the blocks before it.
pub(crate) fn add<'s>(raw: &mut RawBibliography<'s>, item: Item<'s>) -> Result<(), AllocError>
    ensures { OnOk result (file_of raw.new ≡ then (file_of raw.old) (item_of item.entry)) }
{
    match item {
        Item::Nothing => {}
        Item::Preamble(text) => add_preamble(&mut raw.preamble, text)?,
        Item::Strings(mut pairs) => raw.abbreviations.append(&mut pairs)?,
        Item::Entry(entry) => raw.entries.push(entry)?,
    }
    Ok(())
}

// Parses the blocks of a file, up to its end.
pub(crate) fn blocks<'s>(
    s: &mut Reader<'s, '_>,
    alloc: Global,
) -> Result<RawBibliography<'s>, ParseError>
    ensures found { IfOk result (λ raw. File longest s.old (file_of raw)) }
    ensures fails { IfErr result (λ e. Refuses s.old.text e (Reports (FileFails s.old) e)) }
{
    let mut raw = RawBibliography {
        preamble: String::new(alloc),
        entries: Vec::new(alloc),
        abbreviations: Vec::new(alloc),
    };
    'file: while let Some(c) = s.peek() {
        if c == '@' {
            let item = block(s, alloc)?;
            add(&mut raw, item)?;
        } else if c == '%' {
            line_comment(s);
        } else {
            s.eat_until_either(b'@', b'%');
        }
    }
    Ok(raw)
}
