//! Laws of contents. The functions have empty bodies: each clause is a theorem about the definitions that it names.

ghost use Rattle.std.specs.Prelude.{◌≡◌, ℕ, Bool, List};
ghost use Rattle.bib_chunks.specs.Styled.{Atom};
ghost use Rattle.bib_contents.specs.ContentErrors.{ContentFails};
ghost use Rattle.bib_contents.specs.Contents.{IsContent};
ghost use Rattle.bib_syntax.specs.declared.raw.ParseErrorKind.{ParseErrorKind as AKind};

/// States that a text has at most one parse as the contents of a field.
pub fn one_content()
    ensures { (is_verbatim : Bool) (text : List ℕ) (first second : List Atom) →
        IsContent is_verbatim text first → IsContent is_verbatim text second → first ≡ second }
{}

/// States that a text that fails has no parse, and only one kind of error.
pub fn one_error()
    ensures unread { (is_verbatim : Bool) (text : List ℕ) (kind : AKind) (atoms : List Atom) →
        ContentFails is_verbatim 0 text kind → IsContent is_verbatim text atoms → ⊥ }
    ensures kind { (is_verbatim : Bool) (text : List ℕ) (first second : AKind) →
        ContentFails is_verbatim 0 text first → ContentFails is_verbatim 0 text second → first ≡ second }
{}
