//! Laws of abbreviations. The functions have empty bodies: each clause is a theorem about the definitions that it
//! names.

ghost use Rattle.std.specs.Prelude.{◌≡◌, Bool, List, []};
ghost use Rattle.bib_chunks.specs.Styled.{Atom};
ghost use Rattle.bib_abbreviations.specs.Abbreviations.{AreOneError, Definitions, Evaluates, IsFirstError};
ghost use Rattle.bib_syntax.specs.Reading.{Piece};
ghost use Rattle.bib_syntax.specs.declared.raw.ParseError.{ParseError};

/// States that pieces have at most one styled text, whatever the abbreviations in them.
pub fn one_value()
    ensures { (definitions : Definitions) (is_verbatim : Bool) (pieces : List Piece)
        (first second : List Atom) → Evaluates definitions is_verbatim pieces first →
        Evaluates definitions is_verbatim pieces second → first ≡ second }
{}

/// States that pieces with a styled text have no first error. Any two first errors of the same pieces have the same kind.
/// They also have the same span, unless they are errors of a literal that can't be parsed.
pub fn one_error()
    ensures none { (definitions : Definitions) (is_verbatim : Bool) (pieces : List Piece)
        (atoms : List Atom) (e : ParseError) → Evaluates definitions is_verbatim pieces atoms →
        IsFirstError definitions is_verbatim [] pieces e → ⊥ }
    ensures one { (definitions : Definitions) (is_verbatim : Bool) (pieces : List Piece)
        (first second : ParseError) → IsFirstError definitions is_verbatim [] pieces first →
        IsFirstError definitions is_verbatim [] pieces second → AreOneError first second }
{}
