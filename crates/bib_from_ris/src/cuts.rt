//! Cuts a text at its first hyphen, comma or slash.

ghost use Rattle.std.specs.Prelude.{◌≡◌, ◌==◌};
ghost use Rattle.std.specs.List.{before_first, after_first};
ghost use Rattle.bib_text.specs.Characters as char;

// Returns the text before the first hyphen and the text after it; all of the text and an empty text without a hyphen.
pub(crate) fn at_hyphen(text: &str) -> (&str, &str)
    ensures before { result.0.now ≡ before_first (λ b. b == char.hyphen) text.now }
    ensures after { result.1.now ≡ after_first (λ b. b == char.hyphen) text.now }
{
    match text.split_once('-') {
        Some(sides) => sides,
        None => (text, ""),
    }
}

// Returns the text before the first comma and the text after it; all of the text and an empty text without a comma.
pub(crate) fn at_comma(text: &str) -> (&str, &str)
    ensures before { result.0.now ≡ before_first (λ b. b == char.comma) text.now }
    ensures after { result.1.now ≡ after_first (λ b. b == char.comma) text.now }
{
    match text.split_once(',') {
        Some(sides) => sides,
        None => (text, ""),
    }
}

// Returns the text before the first slash and the text after it; all of the text and an empty text without a slash.
pub(crate) fn at_slash(text: &str) -> (&str, &str)
    ensures before { result.0.now ≡ before_first (λ b. b == char.slash) text.now }
    ensures after { result.1.now ≡ after_first (λ b. b == char.slash) text.now }
{
    match text.split_once('/') {
        Some(sides) => sides,
        None => (text, ""),
    }
}
