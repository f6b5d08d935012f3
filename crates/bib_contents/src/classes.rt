//! Classes of characters in contents.

ghost use Rattle.std.specs.Prelude.{◌≡◌};
ghost use Rattle.bib_contents.specs.Contents as contents;

use bib_syntax::raw::is_id_continue;

/// Returns whether a backslash escapes `c`. `verb` says whether the field is a verbatim one. `read_char` is true for
/// parsed text and false for written text: the colon is escaped only in parsed text. `~` and `^` count as escaped outside verbatim
/// fields, although this library parses `\~` and `\^` as accents.
#[tactic(auto, unfolding(crate::specs::Contents::is_escapable, bib_chunks::specs::Written::is_grouping, bib_chunks::specs::Written::is_reserved))]
pub fn is_escapable(c: char, verb: bool, read_char: bool) -> bool
    ensures { result ≡ contents.is_escapable c verb read_char }
{
    match c {
        '{' | '}' | '\\' => true,
        '#' | '&' | '%' | '$' | '_' | '~' | '^' => !verb,
        ':' => read_char,
        _ => false,
    }
}

// Returns whether a backslash and this character are parsed as the character.
#[tactic(auto, unfolding(crate::specs::Contents::is_escaped, crate::specs::Contents::is_escapable, bib_chunks::specs::Written::is_grouping, bib_chunks::specs::Written::is_reserved))]
pub(crate) fn is_escaped(is_verbatim: bool, c: char) -> bool
    ensures { result ≡ contents.is_escaped is_verbatim c }
{
    match c {
        '{' | '}' | '\\' | ':' => true,
        '#' | '&' | '%' | '$' | '_' => !is_verbatim,
        _ => false,
    }
}

// Returns whether the character is white space or a control character.
#[tactic(auto, unfolding(crate::specs::Contents::is_blank))]
pub(crate) fn is_blank(c: char) -> bool
    ensures { result ≡ contents.is_blank c }
{
    c.is_whitespace() || c.is_control()
}

// Returns whether the character is white space.
#[tactic(auto, unfolding(crate::specs::Contents::is_space))]
pub(crate) fn is_space(c: char) -> bool
    ensures { result ≡ contents.is_space c }
{
    c.is_whitespace()
}

// Returns whether the character may occur in a command's name after the first one.
#[tactic(auto, unfolding(crate::specs::Contents::is_name_character))]
pub(crate) fn is_name_character(c: char) -> bool
    ensures { result ≡ contents.is_name_character c }
{
    is_id_continue(c)
}

// Returns whether the character is a sign that names an accent.
#[tactic(auto, unfolding(crate::specs::Contents::is_mark))]
pub(crate) fn is_mark(c: char) -> bool
    ensures { result ≡ contents.is_mark c }
{
    matches!(c, '"' | '\'' | '^' | '~' | '=' | '.' | '´' | '`')
}

// Returns whether the character is a letter that names an accent.
#[tactic(auto, unfolding(crate::specs::Contents::is_accent_letter))]
pub(crate) fn is_accent_letter(c: char) -> bool
    ensures { result ≡ contents.is_accent_letter c }
{
    matches!(c, 'b' | 'c' | 'd' | 'H' | 'k' | 'r' | 'u' | 'v')
}

// Returns whether the character is the whole name of a command that begins with it.
#[tactic(auto, unfolding(crate::specs::Contents::is_sign))]
pub(crate) fn is_sign(c: char) -> bool
    ensures { result ≡ contents.is_sign c }
{
    is_mark(c) || c == '-'
}

// Returns whether the character is a unit by itself: not white space, a hyphen, a brace, a backslash or, outside verbatim
// fields, a dollar sign.
#[tactic(auto, unfolding(crate::specs::Contents::is_ordinary, crate::specs::Contents::is_space, bib_chunks::specs::Written::is_grouping))]
pub(crate) fn is_ordinary(is_verbatim: bool, c: char) -> bool
    ensures { result ≡ contents.is_ordinary is_verbatim c }
{
    if c.is_ascii_lowercase() {
        return true;
    }
    match c {
        '-' | '{' | '}' | '\\' => false,
        '$' => is_verbatim,
        _ => !c.is_whitespace(),
    }
}
