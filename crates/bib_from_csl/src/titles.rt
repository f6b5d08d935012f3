//! Titles whose words keep their case. Many styles of BibTeX and BibLaTeX print titles in lowercase letters, except for text in braces.

ghost use Rattle.std.specs.Prelude.{◌≡◌, ◌++◌, OnOk, IfOk};
ghost use Rattle.bib_dates.specs.Dates.{holds as has_byte};
ghost use Rattle.bib_text.specs.Characters as char;
ghost use Rattle.bib_from_csl.specs.OwnTitles as spec;

use bib_text::text::Text;
use std::alloc::{AllocError, Global};
use unicode::properties::is_uppercase;

/// Returns whether a variable is the title of the work itself, whole or short.
pub fn is_own_title(name: &str) -> bool
    ensures { result ≡ spec.is_own_title name.now }
{
    matches!(name, "title" | "title-short")
}

// Returns whether a word contains an uppercase letter.
fn has_capital(word: &str) -> bool
    ensures { result ≡ spec.has_capital word.now }
{
    word.chars().any(|c| is_uppercase(c))
}

// Appends a word, in a tag that keeps its case if it contains an uppercase letter.
fn push_kept(out: &mut Text, word: &str) -> Result<(), AllocError>
    ensures { OnOk result (out.new ≡ out.old ++ spec.kept_word word.now) }
{
    if has_capital(word) {
        out.push_str("<span class=\"nocase\">")?;
        out.push_str(word)?;
        return out.push_str("</span>");
    }
    out.push_str(word)
}

// Appends a word of a title: the first one as it is, any other after a space, in a tag if it contains an uppercase letter.
fn push_word(out: &mut Text, is_first: bool, word: &str) -> Result<(), AllocError>
    ensures { OnOk result (out.new ≡ out.old ++ spec.title_word is_first word.now) }
{
    if is_first {
        return out.push_str(word);
    }
    out.push_str(" ")?;
    push_kept(out, word)
}

// Returns a title in which each word with a capital, except the first, keeps its case.
fn kept_title(alloc: Global, text: &str) -> Result<Text, AllocError>
    ensures { IfOk result (λ kept. kept ≡ spec.kept_title text.now) }
{
    let mut kept = Text::new(alloc);
    let mut is_first = true;
    'words: for word in text.split(' ') {
        push_word(&mut kept, is_first, word)?;
        is_first = false;
    }
    Ok(kept)
}

// Returns whether a text contains a less-than sign, so that it may have tags.
fn may_have_tags(text: &str) -> bool
    ensures { result ≡ has_byte char.less text.now }
{
    text.as_bytes().contains(&b'<')
}

/// Returns the title of an item in English: without tags, each word with a capital, except the first, keeps its case in all styles. A title
/// that may have tags stays as it is. The only error is out of memory.
pub fn protected_title(alloc: Global, text: &str) -> Result<Text, AllocError>
    ensures { IfOk result (λ title. title ≡ spec.protected_title text.now) }
{
    if may_have_tags(text) {
        return Text::from_str(alloc, text);
    }
    kept_title(alloc, text)
}
