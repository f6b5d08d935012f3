//! Laws of commands and characters. The functions have no code: their clauses are theorems about definitions.

ghost use Rattle.std.specs.Prelude.{◌≡◌, ◌∷◌, [], ℕ, List, Some};
ghost use Rattle.edit_accents.specs.Accents.{with_characters};
ghost use Rattle.edit_accents.specs.Encoded.{command_for};
ghost use Rattle.edit_entries.specs.Documents.{in_braces};
ghost use Rattle.unicode_normalization.specs.Forms.{nfc};

/// States that the command for a character, in braces, becomes this character again, in NFC. For the Angstrom sign U+212B, for
/// example, this is the letter `Å`.
pub fn commands_give_characters()
    ensures { (c : ℕ) (command : List ℕ) → command_for c ≡ Some command → with_characters (in_braces command) ≡ nfc (c ∷ []) }
{}
