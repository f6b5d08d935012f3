//! Braces as BibTeX counts them.

ghost use Rattle.std.specs.Prelude.{MatchBool};
ghost use Rattle.bib_queries.specs.Balance.{IsBalanced};

/// Returns whether each closing brace of a text closes an earlier opening brace, and each opening brace is closed. A brace after a
/// backslash counts, too.
pub fn is_balanced(text: &str) -> bool
    ensures { MatchBool result (IsBalanced text.now) (IsBalanced text.now → ⊥) }
{
    let mut depth = 0usize;
    'bytes: for byte in text.as_bytes() {
        if *byte == b'{' {
            depth += 1;
        } else if *byte == b'}' {
            if depth == 0 {
                return false;
            }
            depth -= 1;
        }
    }
    depth == 0
}
