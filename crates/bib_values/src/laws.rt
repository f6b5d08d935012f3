//! Laws of values. The functions have empty bodies: each clause is a theorem about the definitions that it names.

ghost use Rattle.std.specs.Prelude.{◌≡◌, ◌<◌, ◌⊎◌, ℕ, ℤ, pos, List, Some, FitsSigned};
ghost use Rattle.std.specs.Int.{w64};
ghost use Rattle.std.specs.List.{AllByRecursion};
ghost use Rattle.std.specs.Str.{IsUtf8, str_to_ascii_lowercase};
ghost use Rattle.std.specs.declared.ops.Range.{Range as ARange};
ghost use Rattle.bib_chunks.specs.declared.chunk.Chunk.TheVariants.{Verbatim as AVerbatim};
ghost use Rattle.bib_tables.specs.declared.types.Pagination.{Pagination as APagination};
ghost use Rattle.bib_tables.specs.declared.types.Gender.{Gender as AGender};
ghost use Rattle.bib_tables.specs.declared.types.EditorType.{EditorType as AnEditorType};
ghost use Rattle.bib_tables.specs.declared.types.lang.Language.{Language as ALanguage};
ghost use Rattle.bib_chunks.specs.Values.{text, alone};
ghost use Rattle.bib_values.specs.Numbers.{number_of, number_read, number_written};
ghost use Rattle.bib_values.specs.Roman.{roman, roman_of};
ghost use Rattle.bib_values.specs.Enumerations.{pagination_read, pagination_written, gender_read, gender_written, editor_type_read, editor_type_written, language_read, language_written, IsNamed};
ghost use Rattle.bib_values.specs.Lists.{strings_read, strings_written, StringsKept};
ghost use Rattle.bib_values.specs.Ranges.{range_of, IsRange, range_read, range_written, ranges_read, ranges_written, RangeKept, RangesKept};

/// States that each text parses from its verbatim chunk.
pub fn texts_survive(t: &str)
    ensures { text (alone (AVerbatim t.now)) ≡ t.now }
{}

/// States that each signed number of 64 bits parses from its written form.
pub fn numbers_survive()
    ensures { (z : ℤ) → FitsSigned w64 z → number_read (number_written z) ≡ Some z }
{}

/// States that each numeral from 1 to 3,999, in upper case or in lower case, is parsed as its number.
pub fn numerals_spell_their_numbers()
    ensures { (n : ℕ) → 0 < n → n < 4000 → (number_of (roman n) ≡ Some (pos n)) ×
        (number_of (str_to_ascii_lowercase (roman n)) ≡ Some (pos n)) }
{}

/// States that no text is parsed as a numeral except those of `numerals_spell_their_numbers`.
pub fn numerals_alone_are_read()
    ensures { (t : List ℕ) (n : ℕ) → roman_of t ≡ Some n → (0 < n) × (n < 4000) ×
        ((t ≡ roman n) ⊎ (t ≡ str_to_ascii_lowercase (roman n))) }
{}

/// States that each value of an enumeration parses from its written form, except unknown editor types.
pub fn enumerations_survive()
    ensures paginations { (scheme : APagination) →
        pagination_read (pagination_written scheme) ≡ Some scheme }
    ensures genders { (gender : AGender) → gender_read (gender_written gender) ≡ Some gender }
    ensures languages { (language : ALanguage) →
        language_read (language_written language) ≡ Some language }
    ensures editor_types { (role : AnEditorType) → IsNamed role →
        editor_type_read (editor_type_written role) ≡ role }
{}

/// States that a list of texts parses from its written form if it isn't empty and none of its texts contains a comma,
/// CR or LF.
pub fn lists_of_texts_survive()
    ensures { (texts : List (List ℕ)) → StringsKept texts →
        strings_read (strings_written texts) ≡ texts }
{}

/// States that `lists_of_texts_survive` covers all lists of texts that parse from their written form.
pub fn no_other_list_of_texts_survives()
    ensures { (texts : List (List ℕ)) → AllByRecursion IsUtf8 texts →
        strings_read (strings_written texts) ≡ texts → StringsKept texts }
{}

/// States that the parser of ranges meets the grammar of ranges: both give a text the same range, or none. A text is a
/// list of its characters.
pub fn ranges_are_read()
    ensures read { (characters : List ℕ) (range : ARange ℕ) →
        range_of characters ≡ Some range → IsRange characters range }
    ensures spelt { (characters : List ℕ) (range : ARange ℕ) →
        IsRange characters range → range_of characters ≡ Some range }
{}

/// States that each range of 32-bit numbers parses from its written form, and so does each list of one such range or
/// more.
pub fn ranges_survive()
    ensures range { (range : ARange ℕ) → RangeKept range →
        range_read (range_written range) ≡ Some range }
    ensures ranges { (ranges : List (ARange ℕ)) → RangesKept ranges →
        ranges_read (ranges_written ranges) ≡ Some ranges }
{}
