//! Parses fields: names with values, separated by commas.

ghost use Rattle.std.specs.Prelude.{◌≡◌, ℕ, true, List, map, IfOk, IfErr, OnOk, OnErr};
ghost use Rattle.std.specs.Char.{is_whitespace};
ghost use Rattle.bib_text.specs.Characters as char;
ghost use Rattle.bib_text.specs.Places.{Place, CharAt, Stops, Longest};
ghost use Rattle.bib_syntax.specs.Characters.{is_id_start};
ghost use Rattle.bib_syntax.specs.Errors.{IsSyntaxError, Refuses};
ghost use Rattle.bib_syntax.specs.Grammar.{Elements, Field, Fields, Gap, LineComment, longest};
ghost use Rattle.bib_syntax.specs.Reading.{Piece, FieldReading};
ghost use Rattle.bib_syntax.specs.SyntaxErrors.{ElementsFails, FieldFails, FieldsFails, Reports};
ghost use Rattle.bib_syntax.specs.Views.{piece_of, field_of};

use crate::raw::reader::Reader;
use crate::raw::words::{begins_identifier, element, error, expect, identifier};
use crate::raw::{Field, Pair, ParseError, ParseErrorKind, Token};
use bib_text::spanned::Spanned;
use std::alloc::Global;

// Moves past a percent sign and the rest of its line, without the line feed.
pub(crate) fn line_comment(s: &mut Reader<'_, '_>)
    requires { (v : Place) × CharAt s.old char.percent v }
    ensures { LineComment s.old s.new }
{
    s.eat_if('%');
    s.eat_line();
}

// Moves past white space, in which one line comment may occur.
pub(crate) fn gap(s: &mut Reader<'_, '_>)
    ensures { Gap longest s.old s.new }
{
    s.eat_whitespace();
    if s.at('%') {
        line_comment(s);
        s.eat_whitespace();
    }
}

// Parses the pieces of a value, joined by `#`, and the white space after them.
fn elements<'s>(s: &mut Reader<'s, '_>, alloc: Global) -> Result<Field<'s>, ParseError>
    ensures found { IfOk result (λ pieces. Elements longest s.old
        (map piece_of pieces.items) s.new) }
    ensures fails { IfErr result (λ e. Refuses s.old.text e (Reports (ElementsFails s.old) e)) }
{
    let mut pieces = Vec::with_capacity(alloc, 1)?;
    'elements: loop {
        let piece = element(s)?;
        pieces.push(piece)?;
        s.eat_whitespace();
        if !s.eat_if('#') {
            return Ok(pieces);
        }
        s.eat_whitespace();
    }
}

// Parses a field: a name, an equals sign and a value.
pub(crate) fn field<'s>(s: &mut Reader<'s, '_>, alloc: Global) -> Result<Pair<'s>, ParseError>
    requires { (c : ℕ) × (v : Place) × CharAt s.old c v × (is_id_start c ≡ true) }
    ensures found { IfOk result (λ pair. Field longest s.old (field_of pair) s.new) }
    ensures fails { IfErr result (λ e. Refuses s.old.text e (Reports (FieldFails s.old) e)) }
{
    let name = identifier(s)?;
    s.eat_whitespace();
    expect(s, '=', Token::Equals)?;
    s.eat_whitespace();
    let start = s.cursor();
    let pieces = elements(s, alloc)?;
    Ok(Pair::new(name, Spanned::new(pieces, start..s.cursor())))
}

// Moves past white space to the closing brace after fields. Must not be called at an identifier.
pub(crate) fn closing_brace(s: &mut Reader<'_, '_>) -> Result<(), ParseError>
    requires { Stops is_id_start s.old }
    ensures found { OnOk result (Longest is_whitespace s.old s.new ×
        ((v : Place) × CharAt s.new char.close_brace v)) }
    ensures fails { IfErr result (Reports (FieldsFails s.old)) }
    ensures error { IfErr result (IsSyntaxError s.old.text) }
{
    s.eat_whitespace();
    if s.at('}') {
        return Ok(());
    }
    if s.done() {
        return Err(error(s, ParseErrorKind::UnexpectedEof));
    }
    Err(error(s, ParseErrorKind::Expected(Token::Identifier)))
}

// Parses fields up to the closing brace of their block, without moving past that brace.
pub(crate) fn fields<'s>(s: &mut Reader<'s, '_>, alloc: Global) -> Result<Vec<Pair<'s>>, ParseError>
    ensures found { IfOk result (λ pairs. Fields longest s.old (map field_of pairs.items) s.new) }
    ensures closed { OnOk result ((v : Place) × CharAt s.new char.close_brace v) }
    ensures fails { IfErr result (λ e. Refuses s.old.text e (Reports (FieldsFails s.old) e)) }
{
    let mut pairs = Vec::new(alloc);
    'fields: while begins_identifier(s) {
        if let Some(error) = s.known_error()? {
            return Err(error);
        }
        let pair = field(s, alloc)?;
        pairs.push(pair)?;
        gap(s);
        if !s.eat_if(',') {
            if !s.at('}') {
                return Err(error(s, ParseErrorKind::Expected(Token::Comma)));
            }
            return Ok(pairs);
        }
        gap(s);
    }
    closing_brace(s)?;
    Ok(pairs)
}
