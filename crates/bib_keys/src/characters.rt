//! The characters of keys.

ghost use Rattle.std.specs.Prelude.{◌≡◌};
ghost use Rattle.bib_keys.specs.Characters as spec;

// Returns whether a character is an ASCII letter, an ASCII digit or one of `+-./:_`.
pub(crate) fn is_in_keys(c: char) -> bool
    ensures { result ≡ spec.is_in_keys c }
{
    c.is_ascii_alphanumeric() || matches!(c, '+' | '-' | '.' | '/' | ':' | '_')
}
