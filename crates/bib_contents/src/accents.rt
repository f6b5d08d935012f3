//! Accents: the combining mark of each, and the letter that it is put on.

ghost use Rattle.std.specs.Prelude.{◌≡◌, ◌∷◌, []};
ghost use Rattle.bib_text.specs.Enums.{value_named};
ghost use Rattle.bib_contents.specs.Commands.{accents, letter};

/// Returns the combining mark of the accent command whose name is this character: U+0308 for `"`.
#[tactic(auto, unfolding(crate::specs::Commands::accents))]
pub fn mark_of(c: char) -> Option<char>
    ensures { result ≡ value_named accents (c ∷ []) }
{
    match c {
        '`' => Some('\u{300}'),
        '´' => Some('\u{301}'),
        '\'' => Some('\u{301}'),
        '^' => Some('\u{302}'),
        '~' => Some('\u{303}'),
        '=' => Some('\u{304}'),
        'u' => Some('\u{306}'),
        '.' => Some('\u{307}'),
        '"' => Some('\u{308}'),
        'r' => Some('\u{30A}'),
        'H' => Some('\u{30B}'),
        'v' => Some('\u{30C}'),
        'd' => Some('\u{323}'),
        'c' => Some('\u{327}'),
        'k' => Some('\u{328}'),
        'b' => Some('\u{332}'),
        _ => None,
    }
}

/// Returns the letter that a mark is put on: i and j for the dotless ones, and otherwise the character itself.
pub fn letter(c: char) -> char
    ensures { result ≡ letter c }
{
    match c {
        'ı' => 'i',
        'ȷ' => 'j',
        _ => c,
    }
}
