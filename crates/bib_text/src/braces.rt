//! Texts with balanced braces.

ghost use Rattle.std.specs.Prelude.{◌≡◌, MatchBool};
ghost use Rattle.bib_text.specs.Braces.{IsParts, has_balanced_braces};

/// Returns whether the unescaped braces of a text are balanced and no unescaped backslash ends it. A backslash escapes the next
/// character. By the file grammar, such a text can be written between two braces. BibTeX escapes nothing: it also counts a brace after a
/// backslash. Does not allocate.
pub fn has_balanced_braces(text: &str) -> bool
    ensures parts { MatchBool result (IsParts text.now) (IsParts text.now → ⊥) }
    ensures test { result ≡ has_balanced_braces text.now }
{
    let mut depth = 0usize;
    let mut is_hidden = false;
    'bytes: for byte in text.as_bytes() {
        if is_hidden {
            is_hidden = false;
        } else if *byte == b'\\' {
            is_hidden = true;
        } else if *byte == b'{' {
            depth += 1;
        } else if *byte == b'}' {
            if depth == 0 {
                return false;
            }
            depth -= 1;
        }
    }
    !is_hidden && depth == 0
}
