//! Texts that can be names of fields.

ghost use Rattle.std.specs.Prelude.{◌≡◌, ℕ, MatchBool, false, true};
ghost use Rattle.bib_text.specs.Places.{CharAt, Place};
ghost use Rattle.bib_syntax.specs.Characters as characters;
ghost use Rattle.edit_entries.specs.Documents.{CanBeName};
ghost use Rattle.edit_entries.specs.Setting as spec;
ghost use Rattle.edit_entries.specs.Setting.{CanBeNewName};

use bib_syntax::raw::{is_id_continue, is_id_start};
use bib_text::scanner::Scanner;

// Returns whether the next character can begin an identifier.
fn begins_name(s: &Scanner<'_>) -> bool
    ensures { MatchBool result
        ((c : ℕ) × (v : Place) × CharAt s.now c v × (characters.is_id_start c ≡ true))
        ((c : ℕ) (v : Place) → CharAt s.now c v → characters.is_id_start c ≡ false) }
{
    match s.peek() {
        Some(c) => is_id_start(c),
        None => false,
    }
}

// Returns whether a text can be the name of a field.
pub(crate) fn can_be_name(text: &str) -> bool
    ensures { MatchBool result (CanBeName text.now) (CanBeName text.now → ⊥) }
{
    let mut s = Scanner::new(text);
    if !begins_name(&s) {
        return false;
    }
    s.eat_while(is_id_continue);
    s.done()
}

// Returns whether a text begins with an ASCII digit.
fn begins_with_digit(text: &str) -> bool
    ensures { result ≡ spec.begins_with_digit text.now }
{
    match text.as_bytes() {
        [first, ..] => first.is_ascii_digit(),
        [] => false,
    }
}

// Returns whether a text can be the name of a new field.
pub(crate) fn can_be_new_name(text: &str) -> bool
    ensures { MatchBool result (CanBeNewName text.now) (CanBeNewName text.now → ⊥) }
{
    if begins_with_digit(text) {
        return false;
    }
    can_be_name(text)
}
