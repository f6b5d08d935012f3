//! Laws of conditions. The functions have no code: their clauses are theorems about the definitions.

ghost use Rattle.std.specs.Prelude.{◌≡◌, ◌↔◌, ℕ, List, Result, Ok};
ghost use Rattle.bib_text.specs.Places.{Place};
ghost use Rattle.bib_select.specs.Conditions.{TermReading, alternatives_reading};
ghost use Rattle.bib_select.specs.Grammar.{IsCondition};
ghost use Rattle.bib_select.specs.Parsed.{IsConditionText, IsErrorOfText, IsParseError};
ghost use Rattle.bib_select.specs.Segments.{Segment};
ghost use Rattle.bib_select.specs.Tokens.{Placed, AreTokens};
ghost use Rattle.bib_select.specs.declared.errors.SelectionError.{SelectionError};

/// States that a text has at most one list of tokens, or at most one first quote that isn't closed, and not both. It is at most
/// one condition. If it is a condition, parsing it has no error except those of its regular expressions and out of memory.
pub fn a_text_is_one_condition()
    ensures tokens { (place : Place) (tokens others : Result (List Placed) ℕ) → AreTokens place tokens →
        AreTokens place others → tokens ≡ others }
    ensures condition { (text : List ℕ) (condition other : List (List TermReading)) →
        IsConditionText text condition → IsConditionText text other → condition ≡ other }
    ensures no_error { (text : List ℕ) (condition : List (List TermReading)) (error : SelectionError) →
        IsConditionText text condition → IsParseError text error → IsErrorOfText error → ⊥ }
{}

/// States that the tokens that are parsed as a condition are exactly those of the grammar.
pub fn conditions_have_a_grammar()
    ensures { (segment : Segment) (condition : List (List TermReading)) →
        (alternatives_reading segment ≡ Ok condition) ↔ IsCondition segment.tokens condition }
{}
