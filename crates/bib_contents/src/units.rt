//! Units of contents, into which a field's text is cut.

ghost use Rattle.std.specs.Prelude.{◌≡◌, ℕ, ◌==◌, true, false, not, List, ◌∷◌, ◌++◌, replicate, IfNone, MatchOption};
ghost use Rattle.std.specs.Str.{chars};
ghost use Rattle.bib_contents.specs.Arguments.{AreKnown, Encloses};
ghost use Rattle.bib_contents.specs.ContentErrors.{UnitFails};
ghost use Rattle.bib_contents.specs.Contents as contents;
ghost use Rattle.bib_contents.specs.Contents.{ContentUnit, IsNext, begins, balances};
ghost use Rattle.bib_contents.specs.ParseResults.{IsNameStart, IsParsedArgument, IsParsedUnit};
ghost use Rattle.bib_contents.specs.Progress.{left, Passes};
ghost use Rattle.bib_contents.specs.UnitViews.{unit_of};
ghost use Rattle.bib_text.specs.Characters as char;

use crate::characters::Characters;
use crate::classes::{
    is_accent_letter, is_blank, is_escaped, is_mark, is_name_character, is_ordinary, is_sign,
    is_space,
};
use crate::ends::Ends;

// The argument of a command, if it isn't in braces.
pub(crate) enum Argument {
    Without,
    Empty,
    Single(char),
}

// The argument of a command.
enum Found<'s> {
    Plain(Argument),
    Braced(Characters<'s>),
}

// A unit that is written as characters.
pub(crate) enum TextUnit<'s> {
    Hyphens(usize),
    Spaces(&'s str),
    Escaped(char),
    Backslash,
    Copied(char),
    Command(&'s str, &'s str, Argument),
    Other(char),
}

// A unit of contents.
pub(crate) enum Unit<'s> {
    Shown(TextUnit<'s>),
    // A command and its argument in braces.
    Applied(&'s str, &'s str, Characters<'s>),
    Formula(&'s str),
    Opening,
    Closing,
}

// Consumes the hyphens at the cursor and returns their number.
pub(crate) fn hyphens(s: &mut Characters<'_>) -> usize
    ensures passed { (cs : List ℕ) × Passes s.old cs s.new }
    ensures same { s.new.text ≡ s.old.text }
    ensures spelt { left s.old ≡ replicate result char.hyphen ++ left s.new }
    ensures whole { begins (λ c. c == char.hyphen) (left s.new) ≡ false }
{
    s.eat_while(|c| c == '-').len()
}

// Parses math after its first dollar sign. Returns `None` if there is no second one.
fn formula<'s>(s: &mut Characters<'s>) -> Option<Unit<'s>>
    ensures same { s.new.text ≡ s.old.text }
    ensures found { MatchOption result
        ((u : ContentUnit) (rest : List ℕ) → IsNext false u (char.dollar ∷ left s.old) rest → ⊥)
        (λ u. IsNext false (unit_of u) (char.dollar ∷ left s.old) (left s.new)) }
    ensures fails { IfNone result (UnitFails false (char.dollar ∷ left s.old)) }
{
    let text = s.eat_while(|c| c != '$');
    if !s.eat_if('$') {
        return None;
    }
    Some(Unit::Formula(text))
}

// Parses an argument after its opening brace, by a search for the closing one. Returns `None` if there is none.
fn search<'s>(s: &mut Characters<'s>) -> Option<Characters<'s>>
    ensures same { s.new.text ≡ s.old.text }
    ensures found { MatchOption result
        ((text rest : List ℕ) → left s.old ≡ text ++ char.close_brace ∷ rest → balances 0 text ≡ true → ⊥)
        (λ inside. Encloses s.old inside s.new) }
{
    let start = s.cursor();
    let mut depth: usize = 0;
    'braces: loop {
        s.eat_while(|c| c != '{' && c != '}');
        let inside = s.back_to(start);
        let Some(brace) = s.eat() else {
            return None;
        };
        if brace == '{' {
            depth += 1;
        } else if depth == 0 {
            return Some(inside);
        } else {
            depth -= 1;
        }
    }
}

// Parses an argument after its opening brace. Searches for the closing one if its offset isn't known.
fn argument_in_braces<'s>(s: &mut Characters<'s>, ends: &Ends) -> Option<Characters<'s>>
    requires known { AreKnown ends.now s.old.text }
    ensures same { s.new.text ≡ s.old.text }
    ensures found { MatchOption result
        ((text rest : List ℕ) → left s.old ≡ text ++ char.close_brace ∷ rest → balances 0 text ≡ true → ⊥)
        (λ inside. Encloses s.old inside s.new) }
{
    let start = s.cursor();
    let Some(end) = ends.end_of(start) else {
        return search(s);
    };
    if s.len() <= end {
        return search(s);
    }
    s.jump(end);
    let inside = s.back_to(start);
    s.eat();
    Some(inside)
}

// Parses the argument of a command, after its name and the white space there. Returns `None` if the closing brace of
// the argument is missing.
fn eat_argument<'s>(
    s: &mut Characters<'s>,
    takes_next: bool,
    is_spaced: bool,
    ends: &Ends,
) -> Option<Found<'s>>
    requires known { AreKnown ends.now s.old.text }
    ensures { IsParsedArgument takes_next is_spaced s.old s.new result }
{
    if s.peek() == Some('{') {
        if is_spaced {
            return Some(Found::Plain(Argument::Without));
        }
        s.eat();
        let Some(inside) = argument_in_braces(s, ends) else {
            return None;
        };
        return Some(Found::Braced(inside));
    }
    if !takes_next {
        return Some(Found::Plain(Argument::Without));
    }
    let Some(c) = s.eat() else {
        return Some(Found::Plain(Argument::Empty));
    };
    Some(Found::Plain(Argument::Single(c)))
}

// Consumes the name of a command. `first` is the next character.
fn eat_name<'s>(s: &mut Characters<'s>, first: char) -> &'s str
    requires { IsNameStart first (left s.old) }
    ensures passed { Passes s.old (chars result.now) s.new }
    ensures name { contents.is_name (chars result.now) ≡ true }
    ensures whole { contents.is_whole_name (chars result.now) (left s.new) ≡ true }
{
    let start = s.cursor();
    s.eat();
    if is_sign(first) {
        return s.from(start);
    }
    s.eat_while(is_name_character);
    s.from(start)
}

// Returns whether the command `name` takes the next character as its argument. An accent does if it is named by a sign, or by a
// letter that white space follows (`is_spaced`).
fn takes_next(name: &str, is_spaced: bool) -> bool
    ensures { (space : List ℕ) → is_spaced ≡ not (contents.is_empty space) →
        result ≡ contents.takes_next (chars name.now) space }
{
    let mut letters = Characters::new(name);
    let Some(first) = letters.eat() else {
        return false;
    };
    if !letters.done() {
        return false;
    }
    is_mark(first) || (is_accent_letter(first) && is_spaced)
}

// Parses a command after its backslash. `first` is the next character and can begin a name. Returns `None` if the
// closing brace of its argument is missing.
fn command<'s>(s: &mut Characters<'s>, first: char, ends: &Ends) -> Option<Unit<'s>>
    requires start { IsNameStart first (left s.old) }
    requires known { AreKnown ends.now s.old.text }
    ensures { IsParsedUnit false (char.backslash ∷ left s.old) s.old s.new result }
{
    let name = eat_name(s, first);
    let space = s.eat_while(is_space);
    let is_spaced = !space.is_empty();
    let takes = takes_next(name, is_spaced);
    let Some(found) = eat_argument(s, takes, is_spaced, ends) else {
        return None;
    };
    match found {
        Found::Plain(argument) => Some(Unit::Shown(TextUnit::Command(name, space, argument))),
        Found::Braced(inside) => Some(Unit::Applied(name, space, inside)),
    }
}

// Parses the unit that begins with a backslash, after the backslash.
fn escape<'s>(s: &mut Characters<'s>, is_verbatim: bool, ends: &Ends) -> Option<Unit<'s>>
    requires known { AreKnown ends.now s.old.text }
    ensures { IsParsedUnit is_verbatim (char.backslash ∷ left s.old) s.old s.new result }
{
    let Some(c) = s.peek() else {
        if is_verbatim {
            return Some(Unit::Shown(TextUnit::Backslash));
        }
        return None;
    };
    if is_escaped(is_verbatim, c) {
        s.eat();
        return Some(Unit::Shown(TextUnit::Escaped(c)));
    }
    if is_verbatim {
        return Some(Unit::Shown(TextUnit::Backslash));
    }
    if is_blank(c) {
        return Some(Unit::Shown(TextUnit::Copied(c)));
    }
    command(s, c, ends)
}

// Parses the next unit. Returns `None` at the end of the text, or if the unit isn't complete.
pub(crate) fn eat_unit<'s>(
    s: &mut Characters<'s>,
    is_verbatim: bool,
    ends: &Ends,
) -> Option<Unit<'s>>
    requires known { AreKnown ends.now s.old.text }
    ensures { IsParsedUnit is_verbatim (left s.old) s.old s.new result }
{
    let Some(c) = s.peek() else {
        return None;
    };
    if is_ordinary(is_verbatim, c) {
        s.eat();
        return Some(Unit::Shown(TextUnit::Other(c)));
    }
    if is_space(c) {
        return Some(Unit::Shown(TextUnit::Spaces(s.eat_while(is_space))));
    }
    if c == '-' {
        return Some(Unit::Shown(TextUnit::Hyphens(hyphens(s))));
    }
    s.eat();
    if c == '\\' {
        return escape(s, is_verbatim, ends);
    }
    if c == '{' {
        return Some(Unit::Opening);
    }
    if c == '}' {
        return Some(Unit::Closing);
    }
    formula(s)
}
