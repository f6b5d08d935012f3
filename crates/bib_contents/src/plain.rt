//! Parses and writes runs of plain characters in contents, without a unit for each.

ghost use Rattle.std.specs.Prelude.{◌≡◌, ◌<◌, ◌∷◌, [], true, length, IfOk, OnOk, MatchOption};
ghost use Rattle.bib_contents.specs.Contents as contents;
ghost use Rattle.bib_contents.specs.Progress.{left, Passes, Renders};
ghost use Rattle.bib_text.specs.Characters as char;

use crate::characters::Characters;
use crate::classes::{is_escaped, is_space};
use crate::units::hyphens;
use crate::writing::write_dashes;
use std::alloc::AllocError;

// If the text goes on with a backslash and a character that it escapes, consumes both and returns the character.
fn eat_escaped(s: &mut Characters<'_>, is_verbatim: bool) -> Option<char>
    ensures { MatchOption result
        (s.new ≡ s.old)
        (λ c. Passes s.old (char.backslash ∷ c ∷ []) s.new × (contents.is_escaped is_verbatim c ≡ true)) }
{
    let mut ahead = s.copy();
    if !ahead.eat_if('\\') {
        return None;
    }
    let Some(c) = ahead.eat() else {
        return None;
    };
    if !is_escaped(is_verbatim, c) {
        return None;
    }
    *s = ahead;
    Some(c)
}

// If the text goes on with white space, hyphens or an escaped character, consumes the run or the character. Then writes its
// replacement and returns true.
fn write_run(
    text: &mut String,
    s: &mut Characters<'_>,
    is_verbatim: bool,
) -> Result<bool, AllocError>
    ensures read { OnOk result (Renders is_verbatim s.old s.new text.old text.new) }
    ensures shorter { IfOk result (λ found. found ≡ true →
        length (left s.new) < length (left s.old)) }
{
    let Some(c) = s.peek() else {
        return Ok(false);
    };
    if is_space(c) {
        s.eat_while(is_space);
        text.push(' ')?;
        return Ok(true);
    }
    if c == '-' {
        let count = hyphens(s);
        write_dashes(text, count)?;
        return Ok(true);
    }
    let Some(escaped) = eat_escaped(s, is_verbatim) else {
        return Ok(false);
    };
    text.push(escaped)?;
    Ok(true)
}

// Parses plain characters up to the next unit of another kind, and writes them.
pub(crate) fn write_plain(
    text: &mut String,
    s: &mut Characters<'_>,
    is_verbatim: bool,
) -> Result<(), AllocError>
    ensures { OnOk result (Renders is_verbatim s.old s.new text.old text.new) }
{
    'runs: loop {
        text.push_str(s.eat_as_is(is_verbatim))?;
        if !write_run(text, s, is_verbatim)? {
            return Ok(());
        }
    }
}
