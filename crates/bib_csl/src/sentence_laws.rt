//! Laws of titles in sentence case. These functions have no code: their clauses are theorems about definitions.

ghost use Rattle.std.specs.Prelude.{◌≡◌, ◌<◌, ◌==◌, ◌||◌, ◌+◌, ◌∷◌, ◌++◌, ℕ, List, length, true, false, not, encode_utf8, encode_utf8_all};
ghost use Rattle.std.specs.Char.{is_whitespace};
ghost use Rattle.std.specs.List.{list_all};
ghost use Rattle.std.specs.Str.{chars};
ghost use Rattle.bib_text.specs.Characters as char;
ghost use Rattle.bib_csl.specs.Sentence as spec;
ghost use Rattle.bib_csl.specs.declared.sentence.Context.{Context as AContext};

/// States that of a word only the first letter may change: `word` is the rest of the word, and `rest` the text after it.
pub fn only_first_letters_change()
    ensures { (at : AContext) (c : ℕ) (word rest : List ℕ) → spec.keeps_case at ≡ false → spec.is_letter_or_digit c ≡ true
        → list_all spec.continues_word word ≡ true
        → (end : AContext) × (spec.cased_from at (c ∷ (word ++ rest))
        ≡ encode_utf8 (spec.cased at c (encode_utf8_all (word ++ rest))) ++ (encode_utf8_all word ++ spec.cased_from end rest)) }
{}

/// States that a text without less-than signs stays as it is in an element that keeps its case.
pub fn kept_text_stays()
    ensures { (at : AContext) (text rest : List ℕ) → 0 < at.depth → at.is_in_tag ≡ false
        → list_all (λ c. not (c == char.less)) text ≡ true
        → (end : AContext) × (spec.cased_from at (text ++ rest) ≡ encode_utf8_all text ++ spec.cased_from end rest) }
{}

/// States that an ordinary word at the start of a title gets a capital. `c` is the first character, and `rest` the characters after it.
pub fn first_word_gets_its_capital()
    ensures { (title : List ℕ) (c : ℕ) (rest : List ℕ) → chars title ≡ c ∷ rest
        → spec.is_letter_or_digit c ≡ true → spec.is_ordinary_word c (encode_utf8_all rest) ≡ true
        → (end : AContext) × (spec.title_in_sentence_case title ≡ encode_utf8 (spec.capital c) ++ spec.cased_from end rest) }
{}

/// States that a later ordinary word gets a small letter. The text before the word consists of `before` and of the white space `space`. It
/// begins with a letter or a digit, and contains only letters, digits and white space. `written` has as many characters as this text.
pub fn later_words_become_small()
    ensures { (title before : List ℕ) (space c : ℕ) (rest : List ℕ) → chars title ≡ before ++ (space ∷ (c ∷ rest))
        → spec.begins_by spec.is_letter_or_digit before ≡ true → list_all spec.is_plain_in_title before ≡ true
        → is_whitespace space ≡ true → spec.is_letter_or_digit c ≡ true → spec.is_ordinary_word c (encode_utf8_all rest) ≡ true
        → (written : List ℕ) × (end : AContext) × (length written ≡ length before + 1)
        × (spec.title_in_sentence_case title
        ≡ encode_utf8_all written ++ (encode_utf8 (spec.small c) ++ spec.cased_from end rest)) }
{}

/// States that an ordinary word gets a capital after a question mark, an exclamation mark or a colon, and white space. Before the mark, the
/// title contains only letters, digits and white space. `written` has as many characters as the text before the word.
pub fn words_after_a_mark_begin_a_sentence()
    ensures { (title before : List ℕ) (mark space c : ℕ) (rest : List ℕ)
        → chars title ≡ before ++ (mark ∷ (space ∷ (c ∷ rest))) → list_all spec.is_plain_in_title before ≡ true
        → (mark == char.question || (mark == spec.exclamation_mark || mark == char.colon)) ≡ true → is_whitespace space ≡ true
        → spec.is_letter_or_digit c ≡ true → spec.is_ordinary_word c (encode_utf8_all rest) ≡ true
        → (written : List ℕ) × (end : AContext) × (length written ≡ length before + 2)
        × (spec.title_in_sentence_case title
        ≡ encode_utf8_all written ++ (encode_utf8 (spec.capital c) ++ spec.cased_from end rest)) }
{}
