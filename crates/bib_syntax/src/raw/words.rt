//! Parses the words of a bibliography file: names, keys, numbers, braced and quoted texts.

ghost use Rattle.std.specs.Prelude.{◌≡◌, ℕ, ◌≤◌, ◌+◌, ◌||◌, ◌&&◌, ◌==◌, not, true, false, length, IfOk, IfErr, OnOk, OnErr, IsTrue, MatchBool};
ghost use Rattle.std.specs.Char.{is_ascii_digit};
ghost use Rattle.bib_text.specs.Characters as char;
ghost use Rattle.bib_text.specs.Places.{Place, CharAt, Longest};
ghost use Rattle.bib_text.specs.Braces.{Parts};
ghost use Rattle.bib_syntax.specs.Characters as characters;
ghost use Rattle.bib_syntax.specs.Errors.{IsSyntaxError, is_syntax};
ghost use Rattle.bib_syntax.specs.Grammar.{Identifier, Number, Quoted, QuotedParts, Braced, Element, longest};
ghost use Rattle.bib_syntax.specs.Reading.{Part, Piece, part};
ghost use Rattle.bib_syntax.specs.SyntaxErrors.{IdentifierFails, NumberFails, QuotedFails, BracedFails, ElementFails, Reports, error_at_place, text_end};
ghost use Rattle.bib_syntax.specs.Views.{part_of, piece_of};
ghost use Rattle.bib_syntax.specs.declared.raw.ParseErrorKind.TheVariants.{UnexpectedEof, Expected};

use crate::raw::reader::Reader;
use crate::raw::{
    ParseError, ParseErrorKind, RawChunk, Token, is_id_continue, is_id_start, is_key,
};
use bib_text::spanned::Spanned;

// Returns an error of the grammar here, with an empty span.
pub(crate) fn error(s: &Reader<'_, '_>, kind: ParseErrorKind) -> ParseError
    requires { IsTrue (is_syntax kind) }
    ensures syntax { IsSyntaxError s.now.text result }
    ensures here { result ≡ error_at_place kind s.now }
{
    let here = s.cursor();
    ParseError {
        span: here..here,
        kind,
    }
}

// Moves past the next character if it is `c`, and otherwise returns the error that `token` was expected.
pub(crate) fn expect(s: &mut Reader<'_, '_>, c: char, token: Token) -> Result<(), ParseError>
    ensures found { OnOk result (CharAt s.old c s.new) }
    ensures none { OnErr result ((v : Place) → CharAt s.old c v → ⊥) }
    ensures error { IfErr result (IsSyntaxError s.old.text) }
    ensures here { IfErr result (λ e. e ≡ error_at_place (Expected token) s.old) }
{
    if !s.eat_if(c) {
        return Err(error(s, ParseErrorKind::Expected(token)));
    }
    Ok(())
}

// Moves past the next character if it is the brace `c` or a quote, and otherwise returns the error that `token` was expected.
pub(crate) fn brace(s: &mut Reader<'_, '_>, c: char, token: Token) -> Result<(), ParseError>
    ensures found { OnOk result ((d : ℕ) × CharAt s.old d s.new × (d == c || d == char.quote ≡ true)) }
    ensures none { OnErr result ((d : ℕ) (v : Place) → CharAt s.old d v →
        d == c || d == char.quote ≡ true → ⊥) }
    ensures error { IfErr result (IsSyntaxError s.old.text) }
    ensures here { IfErr result (λ e. e ≡ error_at_place (Expected token) s.old) }
{
    if s.eat_if(c) || s.eat_if('"') {
        return Ok(());
    }
    Err(error(s, ParseErrorKind::Expected(token)))
}

// Returns whether an identifier begins here.
pub(crate) fn begins_identifier(s: &Reader<'_, '_>) -> bool
    ensures { MatchBool result
        ((c : ℕ) × (v : Place) × CharAt s.now c v × (characters.is_id_start c ≡ true))
        ((c : ℕ) (v : Place) → CharAt s.now c v → characters.is_id_start c ≡ false) }
{
    match s.peek() {
        Some(c) => is_id_start(c),
        None => false,
    }
}

// Parses an identifier: the name of a block, a field or an abbreviation.
pub(crate) fn identifier<'s>(s: &mut Reader<'s, '_>) -> Result<Spanned<&'s str>, ParseError>
    ensures found { IfOk result (λ name. Identifier longest s.old (part_of name) s.new) }
    ensures fails { IfErr result (Reports (IdentifierFails s.old)) }
    ensures error { IfErr result (IsSyntaxError s.old.text) }
{
    if !begins_identifier(s) {
        return Err(error(s, ParseErrorKind::Expected(Token::Identifier)));
    }
    let start = s.cursor();
    let text = s.eat_while(is_id_continue);
    Ok(Spanned::new(text, start..s.cursor()))
}

// Parses the key of an entry, which may be empty.
pub(crate) fn key<'s>(s: &mut Reader<'s, '_>) -> Spanned<&'s str>
    ensures longest { Longest characters.is_key s.old s.new }
    ensures reading { part_of result ≡ part s.old s.new }
{
    let start = s.cursor();
    let text = s.eat_while(is_key);
    Spanned::new(text, start..s.cursor())
}

// Returns whether `c` is one of the digits `0` to `9`.
fn is_digit(c: char) -> bool
    ensures { result ≡ is_ascii_digit c }
{
    c.is_ascii_digit()
}

// Moves past a number: a digit, and then zero or more digits and at most one point. Returns an error at a second point.
fn digits(s: &mut Reader<'_, '_>) -> Result<(), ParseError>
    requires { (c : ℕ) × (v : Place) × CharAt s.old c v × (is_ascii_digit c ≡ true) }
    ensures found { OnOk result (Number longest s.old s.new) }
    ensures fails { IfErr result (Reports (NumberFails s.old)) }
    ensures error { IfErr result (IsSyntaxError s.old.text) }
{
    s.eat_while(is_digit);
    if !s.eat_if('.') {
        return Ok(());
    }
    s.eat_while(is_digit);
    if s.at('.') {
        return Err(error(s, ParseErrorKind::Unexpected(Token::DecimalPoint)));
    }
    Ok(())
}

// Parses a number: a digit, and then zero or more digits and at most one point.
fn number<'s>(s: &mut Reader<'s, '_>) -> Result<Spanned<&'s str>, ParseError>
    requires { (c : ℕ) × (v : Place) × CharAt s.old c v × (is_ascii_digit c ≡ true) }
    ensures found { OnOk result (Number longest s.old s.new) }
    ensures reading { IfOk result (λ text. part_of text ≡ part s.old s.new) }
    ensures fails { IfErr result (Reports (NumberFails s.old)) }
    ensures error { IfErr result (IsSyntaxError s.old.text) }
{
    let start = s.cursor();
    digits(s)?;
    Ok(Spanned::new(s.from(start), start..s.cursor()))
}

// Parses a quoted text from after its first quote up to the quote that closes it, without moving past that quote.
fn quoted_parts<'s>(s: &mut Reader<'s, '_>) -> Result<Spanned<&'s str>, ParseError>
    ensures found { OnOk result (QuotedParts s.old s.new × ((v : Place) × CharAt s.new char.quote v)) }
    ensures reading { IfOk result (λ text. part_of text ≡ part s.old s.new) }
    ensures none { OnErr result ((v w : Place) → QuotedParts s.old v → CharAt v char.quote w → ⊥) }
    ensures error { IfErr result (IsSyntaxError s.old.text) }
    ensures end { IfErr result (λ e. e ≡ error_at_place UnexpectedEof (text_end s.old)) }
{
    let start = s.cursor();
    'parts: loop {
        s.eat_until_either(b'"', b'\\');
        if s.at('"') {
            return Ok(Spanned::new(s.from(start), start..s.cursor()));
        }
        if !s.eat_if('\\') {
            return Err(error(s, ParseErrorKind::UnexpectedEof));
        }
        s.eat();
    }
}

// Parses a quoted text with its quotes, and returns the text between them.
pub(crate) fn quoted_text<'s>(s: &mut Reader<'s, '_>) -> Result<Spanned<&'s str>, ParseError>
    ensures found { IfOk result (λ text. Quoted s.old (part_of text) s.new) }
    ensures fails { IfErr result (Reports (QuotedFails s.old)) }
    ensures error { IfErr result (IsSyntaxError s.old.text) }
{
    expect(s, '"', Token::QuotationMark)?;
    let text = quoted_parts(s)?;
    expect(s, '"', Token::QuotationMark)?;
    Ok(text)
}

// Parses a braced text from after its opening brace up to the brace that closes it, without moving past that brace. Doesn't
// use the memo.
fn scanned_parts<'s>(s: &mut Reader<'s, '_>) -> Result<Spanned<&'s str>, ParseError>
    ensures found { OnOk result (Parts s.old s.new × ((v : Place) × CharAt s.new char.close_brace v)) }
    ensures reading { IfOk result (λ text. part_of text ≡ part s.old s.new) }
    ensures none { OnErr result ((v w : Place) → Parts s.old v → CharAt v char.close_brace w → ⊥) }
    ensures error { IfErr result (IsSyntaxError s.old.text) }
    ensures end { IfErr result (λ e. e ≡ error_at_place UnexpectedEof (text_end s.old)) }
{
    let start = s.cursor();
    let mut depth = 0usize;
    'parts: loop {
        s.eat_until_any(b'{', b'}', b'\\');
        if s.eat_if('{') {
            depth += 1;
        } else if s.at('}') {
            if depth == 0 {
                return Ok(Spanned::new(s.from(start), start..s.cursor()));
            }
            s.eat_if('}');
            depth -= 1;
        } else if s.eat_if('\\') {
            s.eat();
        } else {
            return Err(error(s, ParseErrorKind::UnexpectedEof));
        }
    }
}

// Parses a braced text from after its opening brace up to the brace that closes it, without moving past that brace. Uses the
// memo if there is one.
fn braced_parts<'s>(s: &mut Reader<'s, '_>) -> Result<Spanned<&'s str>, ParseError>
    ensures found { OnOk result (Parts s.old s.new × ((v : Place) × CharAt s.new char.close_brace v)) }
    ensures reading { IfOk result (λ text. part_of text ≡ part s.old s.new) }
    ensures none { OnErr result ((v w : Place) → Parts s.old v → CharAt v char.close_brace w → ⊥) }
    ensures error { IfErr result (IsSyntaxError s.old.text) }
    ensures end { IfErr result (λ e. e ≡ error_at_place UnexpectedEof (text_end s.old)) }
{
    let Some(close) = s.known_close() else {
        return scanned_parts(s);
    };
    let start = s.cursor();
    let Some(at) = close else {
        s.jump_to_end();
        return Err(error(s, ParseErrorKind::UnexpectedEof));
    };
    s.jump(at);
    Ok(Spanned::new(s.from(start), start..s.cursor()))
}

// Parses a braced text with its braces, and returns the text between them.
fn braced_text<'s>(s: &mut Reader<'s, '_>) -> Result<Spanned<&'s str>, ParseError>
    requires { (v : Place) × CharAt s.old char.open_brace v }
    ensures found { IfOk result (λ text. Braced s.old (part_of text) s.new) }
    ensures fails { IfErr result (Reports (BracedFails s.old)) }
    ensures error { IfErr result (IsSyntaxError s.old.text) }
{
    expect(s, '{', Token::OpeningBrace)?;
    let text = braced_parts(s)?;
    expect(s, '}', Token::ClosingBrace)?;
    Ok(text)
}

// Returns whether a number begins here.
fn begins_number(s: &Reader<'_, '_>) -> bool
    ensures { MatchBool result
        ((c : ℕ) × (v : Place) × CharAt s.now c v × (is_ascii_digit c ≡ true))
        ((c : ℕ) (v : Place) → CharAt s.now c v → is_ascii_digit c ≡ false) }
{
    match s.peek() {
        Some(c) => is_digit(c),
        None => false,
    }
}

// Parses a piece of a value: a number, the name of an abbreviation, a braced or a quoted text.
pub(crate) fn element<'s>(s: &mut Reader<'s, '_>) -> Result<Spanned<RawChunk<'s>>, ParseError>
    ensures found { IfOk result (λ chunk. Element longest s.old (piece_of chunk) s.new) }
    ensures fails { IfErr result (Reports (ElementFails s.old)) }
    ensures error { IfErr result (IsSyntaxError s.old.text) }
{
    if s.at('{') {
        return Ok(braced_text(s)?.map(RawChunk::Normal));
    }
    if s.at('"') {
        return Ok(quoted_text(s)?.map(RawChunk::Normal));
    }
    if begins_number(s) {
        return Ok(number(s)?.map(RawChunk::Normal));
    }
    if begins_identifier(s) {
        return Ok(identifier(s)?.map(RawChunk::Abbreviation));
    }
    Err(error(s, ParseErrorKind::UnexpectedEof))
}
