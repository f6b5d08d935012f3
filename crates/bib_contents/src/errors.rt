//! The errors of contents.

ghost use Rattle.std.specs.Prelude.{◌≡◌};
ghost use Rattle.bib_syntax.specs.declared.raw.Token.TheVariants.{ClosingBrace};
ghost use Rattle.bib_syntax.specs.declared.raw.ParseErrorKind.TheVariants.{UnexpectedEof, Unexpected};

use bib_syntax::raw::{ParseError, ParseErrorKind, Token};

// Returns the error of a closing brace that has no opening one.
pub(crate) fn closing_brace_error(start: usize, end: usize) -> ParseError
    ensures kind { result.kind ≡ Unexpected ClosingBrace }
    ensures place { result.span ≡ record { start = start; end = end } }
{
    ParseError {
        span: start..end,
        kind: ParseErrorKind::Unexpected(Token::ClosingBrace),
    }
}

// Returns the error of a text that ends too early, with an empty span at its end.
pub(crate) fn early_end_error(end: usize) -> ParseError
    ensures kind { result.kind ≡ UnexpectedEof }
    ensures place { result.span ≡ record { start = end; end = end } }
{
    ParseError {
        span: end..end,
        kind: ParseErrorKind::UnexpectedEof,
    }
}
