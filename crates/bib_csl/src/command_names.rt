//! The names of commands, character by character: letters, a space or an accent.

ghost use Rattle.std.specs.Prelude.{◌≡◌};
ghost use Rattle.bib_csl.specs.Markup as spec;

// Returns whether a name is the space after a backslash.
pub(crate) fn is_space_name(name: &str) -> bool
    ensures { result ≡ spec.is_space_name name.now }
{
    name == " "
}

// Returns whether a character is a combining accent: one of U+0300 to U+036F.
#[tactic(auto, unfolding(crate::specs::Markup::is_accent))]
fn is_accent(c: char) -> bool
    ensures { result ≡ spec.is_accent c }
{
    '\u{300}' <= c && c < '\u{370}'
}

// Returns whether a name is a combining accent, by its first byte.
pub(crate) fn is_accent_name(name: &str) -> bool
    ensures { result ≡ spec.is_accent_name name.now }
{
    match name.as_bytes() {
        [first, ..] => *first == 204 || *first == 205,
        [] => false,
    }
}

// Returns whether a character after a backslash begins a name: an ASCII letter, a space or an accent.
#[tactic(auto, unfolding(crate::specs::Markup::begins_command))]
fn begins_command(c: char) -> bool
    ensures { result ≡ spec.begins_command c }
{
    c.is_ascii_alphabetic() || c == ' ' || is_accent(c)
}

// Returns whether a character belongs to the name of a command that is being read.
#[tactic(auto, unfolding(crate::specs::Markup::goes_on))]
pub(crate) fn goes_on(name: &str, c: char) -> bool
    ensures { result ≡ spec.goes_on name.now c }
{
    if name.is_empty() {
        return begins_command(c);
    }
    if is_space_name(name) || is_accent_name(name) {
        return false;
    }
    c.is_ascii_alphabetic()
}

// Returns whether a character is the opening brace of the argument of the command `name`, which is before it.
#[tactic(auto, unfolding(crate::specs::Markup::opens_argument))]
pub(crate) fn opens_argument(name: &str, c: char) -> bool
    ensures { result ≡ spec.opens_argument name.now c }
{
    c == '{' && !is_space_name(name)
}
