//! Parses hyphens and colons between the parts of a date.

ghost use Rattle.std.specs.Prelude.{◌≡◌, MatchResult};
ghost use Rattle.bib_text.specs.Characters as char;
ghost use Rattle.bib_dates.specs.Separators.{IsHyphens, IsColon, IsWithout, no_sign};

use bib_tables::type_error::{TypeError, TypeErrorKind};
use bib_text::scanner::Scanner;

// Returns the error of a missing sign, with the span of the white space from `start` to the cursor.
fn no_sign(s: &Scanner<'_>, start: usize) -> TypeError
    ensures { result ≡ no_sign (record { text = s.now.text; at = start }) s.now }
{
    TypeError {
        span: start..s.cursor(),
        kind: TypeErrorKind::InvalidFormat,
    }
}

/// Consumes white space and the hyphens after it. At least one hyphen is required. If there is none, the error has the kind
/// `InvalidFormat` and the span of the white space, and only that is consumed.
pub fn parse_hyphen(s: &mut Scanner<'_>) -> Result<(), TypeError>
    ensures { MatchResult result
        (λ _. IsHyphens s.old s.new)
        (λ e. IsWithout char.hyphen s.old s.new × (e ≡ no_sign s.old s.new)) }
{
    let start = s.cursor();
    s.eat_whitespace();
    if !s.eat_if('-') {
        return Err(no_sign(s, start));
    }
    s.eat_while(|c| c == '-');
    Ok(())
}

/// Consumes white space and the colon after it. If there is no colon, the error has the kind `InvalidFormat` and the
/// span of the white space, and only that is consumed.
pub fn parse_colon(s: &mut Scanner<'_>) -> Result<(), TypeError>
    ensures { MatchResult result
        (λ _. IsColon s.old s.new)
        (λ e. IsWithout char.colon s.old s.new × (e ≡ no_sign s.old s.new)) }
{
    let start = s.cursor();
    s.eat_whitespace();
    if !s.eat_if(':') {
        return Err(no_sign(s, start));
    }
    Ok(())
}
