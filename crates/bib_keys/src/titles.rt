//! The significant words of titles.

ghost use Rattle.std.specs.Prelude.{◌≡◌, IfOk, map, take};
ghost use Rattle.std.specs.List.{list_any};
ghost use Rattle.std.specs.Str.{str_eq_ignore_ascii_case};
ghost use Rattle.bib_keys.specs.Commands.{text_in_key};
ghost use Rattle.bib_keys.specs.Words as spec;

use crate::commands::text_in_key;
use crate::letters::key_letters;
use bib_chunks::chunk::ChunksRef;
use bib_text::text::Text;
use std::alloc::{AllocError, Global};

// Articles, prepositions and conjunctions of English, German, French, Spanish and Italian.
static FUNCTION_WORDS: [&str; 61] = [
    "a", "an", "and", "as", "at", "au", "aux", "but", "by", "das", "de", "dei", "del", "della",
    "dem", "den", "der", "des", "di", "die", "du", "ein", "eine", "einem", "einen", "einer",
    "eines", "el", "en", "et", "for", "from", "gli", "il", "im", "in", "into", "la", "las", "le",
    "les", "lo", "los", "nor", "of", "on", "or", "oder", "the", "to", "un", "una", "und", "une",
    "vom", "von", "with", "y", "zu", "zum", "zur",
];

// Returns whether one of these words is `word`, in any ASCII case.
fn is_among(words: &[&'static str], word: &str) -> bool
    ensures { result ≡ list_any (λ known. str_eq_ignore_ascii_case known word.now) (map (λ known. known.now) words.now) }
{
    words.iter().any(|known| known.eq_ignore_ascii_case(word))
}

// Returns whether a word is a function word, in any ASCII case.
fn is_function_word(word: &str) -> bool
    ensures { result ≡ spec.is_function_word word.now }
{
    is_among(&FUNCTION_WORDS, word)
}

// Returns whether a word is significant: it is neither empty nor a function word.
fn is_significant(word: &str) -> bool
    ensures { result ≡ spec.is_significant word.now }
{
    !word.is_empty() && !is_function_word(word)
}

// Returns the first `count` significant words of a title, as plain text.
pub(crate) fn first_words(
    alloc: Global,
    count: usize,
    title: ChunksRef<'_>,
) -> Result<Vec<Text>, AllocError>
    ensures { IfOk result (λ words. words.items ≡ take count (spec.significant_words (text_in_key title.now))) }
{
    let title = text_in_key(alloc, title)?;
    let letters = key_letters(alloc, title.as_str())?;
    let mut words = Vec::new(alloc);
    'words: for word in letters.split(' ') {
        if is_significant(word) {
            words.push(Text::from_str(alloc, word)?)?;
        }
    }
    words.truncate(count);
    Ok(words)
}
