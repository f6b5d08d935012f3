//! Laws of formatted files. These functions have no code: their clauses are theorems about definitions.

ghost use Rattle.std.specs.Prelude.{◌≡◌, ℕ, List, MatchBool, length};
ghost use Rattle.bib_text.specs.Braces.{IsParts, has_balanced_braces};
ghost use Rattle.bib_text.specs.Places.{place};
ghost use Rattle.edit_format.specs.Delimited.{can_stand_in_quotes};
ghost use Rattle.edit_format.specs.Formatted.{text_in_style};
ghost use Rattle.edit_format.specs.declared.style.Style.{Style};
ghost use Rattle.bib_syntax.specs.Grammar.{IsRawReading, QuotedParts};
ghost use Rattle.bib_syntax.specs.Reading.{FileReading};

/// States that a text in a style is unchanged if it is formatted in the same style again.
pub fn twice_is_once()
    ensures { (style : Style) (text : List ℕ) (says again : FileReading) → IsRawReading text says →
        IsRawReading (text_in_style style text says) again →
        text_in_style style (text_in_style style text says) again ≡ text_in_style style text says }
{}

/// States that the tests of contents agree with the file grammar. The content of a quoted literal passes the test for braces exactly if
/// it parses as the content of a braced literal. The content of a braced literal passes the test for quotes exactly if it parses as the
/// content of a quoted literal.
pub fn delimiters_fit()
    ensures braces { (text : List ℕ) → QuotedParts (place text 0) (place text (length text)) →
        MatchBool (has_balanced_braces text) (IsParts text) (IsParts text → ⊥) }
    ensures quotes { (text : List ℕ) → IsParts text →
        MatchBool (can_stand_in_quotes text) (QuotedParts (place text 0) (place text (length text)))
        (QuotedParts (place text 0) (place text (length text)) → ⊥) }
{}
