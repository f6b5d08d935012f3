//! Laws of encodings, lines and hunks. These functions do nothing. Their clauses are proved from the definitions only.

ghost use Rattle.std.specs.Prelude.{◌≡◌, ◌≢◌, ◌<◌, ◌++◌, ℕ, List, [], drop};
ghost use Rattle.std.specs.List.{AllByRecursion, concat};
ghost use Rattle.std.specs.Str.{IsUtf8, StartsWithNoChar};
ghost use Rattle.bib_source.specs.Encoding.{byte_order_mark, without_byte_order_mark, windows_1252, windows_1252_text, IsFirstInvalid};
ghost use Rattle.bib_source.specs.Hunks.{Make};
ghost use Rattle.bib_source.specs.Lines.{lines_of};

/// States that a UTF-8 byte order mark at the start of a file is skipped, once. Nothing else is skipped.
pub fn only_a_mark_is_passed_over()
    ensures mark { (rest : List ℕ) → without_byte_order_mark (byte_order_mark ++ rest) ≡ rest }
    ensures others { (bytes : List ℕ) → ((rest : List ℕ) → bytes ≢ byte_order_mark ++ rest) →
        without_byte_order_mark bytes ≡ bytes }
{}

/// States that a file has at most one first invalid byte, and none if it is UTF-8 after an optional UTF-8 byte order mark. No
/// UTF-8 character begins at that byte.
pub fn one_byte_is_the_first_invalid()
    ensures one { (bytes : List ℕ) (index other : ℕ) →
        IsFirstInvalid bytes index → IsFirstInvalid bytes other → index ≡ other }
    ensures none { (bytes : List ℕ) (index : ℕ) →
        IsFirstInvalid bytes index → ¬ (IsUtf8 (without_byte_order_mark bytes)) }
    ensures no_character { (bytes : List ℕ) (index : ℕ) →
        IsFirstInvalid bytes index → StartsWithNoChar (drop index bytes) }
{}

/// States that in Windows-1252 different bytes are different characters, and different files are different texts.
pub fn each_byte_has_its_own_character()
    ensures bytes { (byte other : ℕ) → byte < 256 → other < 256 →
        windows_1252 byte ≡ windows_1252 other → byte ≡ other }
    ensures texts { (bytes others : List ℕ) →
        AllByRecursion (λ byte. byte < 256) bytes → AllByRecursion (λ byte. byte < 256) others →
        windows_1252_text bytes ≡ windows_1252_text others → bytes ≡ others }
{}

/// States that the concatenated lines of a text are the text.
pub fn lines_are_the_text()
    ensures { (text : List ℕ) → concat (lines_of text) ≡ text }
{}

/// States that a text stays the same if there are no hunks.
pub fn no_hunk_changes_nothing()
    ensures { (old new : List (List ℕ)) → Make 1 1 [] old new → new ≡ old }
{}
