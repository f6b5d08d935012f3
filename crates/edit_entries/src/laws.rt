//! Laws of edits. These functions do nothing; their clauses are proved from the definitions.

ghost use Rattle.std.specs.Prelude.{◌≡◌, ℕ, List, bytes_eq, length, ◌↔◌};
ghost use Rattle.std.specs.List.{IsDistinct};
ghost use Rattle.bib_syntax.specs.Grammar.{Braced};
ghost use Rattle.bib_syntax.specs.Reading.{Part};
ghost use Rattle.bib_text.specs.Braces.{IsParts};
ghost use Rattle.bib_text.specs.Places.{place};
ghost use Rattle.edit_entries.specs.Documents.{Document, IsDocument, in_braces};
ghost use Rattle.edit_entries.specs.Selected.{FirstsRemoved, RemovedInTurn};
ghost use Rattle.edit_entries.specs.Setting.{FieldSet, HasValue, SetValue};

/// States that, after a field is set, the last field with the name in the first entry with the key has the value.
pub fn set_is_there()
    ensures { (d after : Document) (key name : List ℕ) (value : SetValue) → FieldSet d key name value after →
        HasValue after key name value }
{}

/// States that removing the first entries with several different keys at once gives the text of removing them in turn, in the order of the
/// keys.
pub fn removals_are_in_turn()
    ensures { (d after : Document) (keys : List (List ℕ)) → IsDocument d → IsDistinct bytes_eq keys → FirstsRemoved d keys after →
        (last : Document) × RemovedInTurn keys d last × IsDocument last × (last.text ≡ after.text) }
{}

/// States that a text has balanced braces exactly if, with a brace before and after it, it parses as one text in braces.
pub fn balanced_is_braced()
    ensures { (text : List ℕ) → IsParts text ↔
        ((p : Part) × Braced (place (in_braces text) 0) p (place (in_braces text) (length (in_braces text)))) }
{}
