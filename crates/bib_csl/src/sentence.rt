//! English titles in sentence case.
//!
//! A title is read once, character by character. `Context` says what the text before a character means for it: whether a sentence begins,
//! and whether the character is inside of a word, of a tag, of math or of an element that keeps its case. At the start of a word, the rest
//! of the word decides whether the first letter changes.

ghost use Rattle.std.specs.Prelude.{◌≡◌, ◌<◌, ◌^◌, IfOk};
ghost use Rattle.std.specs.Char.{is_whitespace};
ghost use Rattle.std.specs.Char.Unicode.Lowercase.{is_lowercase};
ghost use Rattle.std.specs.Str.{chars};
ghost use Rattle.bib_csl.specs.Sentence as spec;

use bib_text::scanner::Scanner;
use bib_text::text::Text;
use std::alloc::{AllocError, Global};

/// The part of a sentence that a character is in.
#[derive(Debug, Clone, Copy, PartialEq, Eq)]
pub enum Sentence {
    /// The next word begins the title, or follows white space after a colon, a question mark or an exclamation mark.
    Begins,
    /// The next word follows a full stop and white space. The full stop may be that of an abbreviation.
    FollowsStop,
    /// A colon, a question mark or an exclamation mark is before the character, with nothing but quotation marks, brackets and tags
    /// between.
    AfterMark,
    /// A full stop is before the character, with nothing but quotation marks, brackets and tags between.
    AfterStop,
    /// Any other part.
    Inside,
}

/// The context of a character of a title: the meaning of the text before it.
#[derive(Debug, Clone, Copy, PartialEq, Eq)]
pub struct Context {
    /// The part of the sentence.
    pub sentence: Sentence,
    /// Whether the character continues a word if it can.
    pub is_in_word: bool,
    /// Whether the character is in a tag.
    pub is_in_tag: bool,
    /// Whether the character is in math.
    pub is_in_math: bool,
    /// The number of open elements that keep their case.
    pub depth: usize,
}

// Returns whether a character is a letter or a digit.
#[tactic(auto, unfolding(crate::specs::Sentence::is_letter_or_digit))]
fn is_letter_or_digit(c: char) -> bool
    ensures { result ≡ spec.is_letter_or_digit c }
{
    c.is_alphanumeric()
}

// Returns whether a character continues a word: a letter, a digit, a full stop or an apostrophe.
#[tactic(auto, unfolding(crate::specs::Sentence::continues_word))]
fn continues_word(c: char) -> bool
    ensures { result ≡ spec.continues_word c }
{
    is_letter_or_digit(c) || matches!(c, '.' | '\'' | '’')
}

// Returns the start of a text that continues the word before it.
fn word_in(text: &str) -> &str
    ensures { result.now ≡ spec.word_in text.now }
{
    let mut scanner = Scanner::new(text);
    scanner.eat_while(|c| continues_word(c))
}

// Returns the text after that.
fn text_after_word(text: &str) -> &str
    ensures { result.now ≡ spec.text_after_word text.now }
{
    let mut scanner = Scanner::new(text);
    scanner.eat_while(|c| continues_word(c));
    let at = scanner.cursor();
    &text[at..]
}

// Returns whether the rest of a word begins with a lowercase letter.
fn begins_small(rest: &str) -> bool
    ensures { result ≡ spec.begins_by is_lowercase (chars rest.now) }
{
    match rest.chars().next() {
        Some(c) => c.is_lowercase(),
        None => false,
    }
}

// Returns whether a text contains a capital or a digit.
fn has_capital_or_digit(text: &str) -> bool
    ensures { result ≡ spec.has_capital_or_digit text.now }
{
    text.chars().any(|c| c.is_uppercase() || c.is_numeric())
}

// Returns whether the rest of a word begins with a lowercase letter and contains neither a capital nor a digit.
#[tactic(auto, unfolding(crate::specs::Sentence::is_small_rest))]
fn is_small_rest(rest: &str) -> bool
    ensures { result ≡ spec.is_small_rest rest.now }
{
    begins_small(rest) && !has_capital_or_digit(rest)
}

// Returns whether a text begins with white space.
fn begins_with_space(text: &str) -> bool
    ensures { result ≡ spec.begins_by is_whitespace (chars text.now) }
{
    match text.chars().next() {
        Some(c) => c.is_whitespace(),
        None => false,
    }
}

// Returns whether the word of one letter before this text is the article.
#[tactic(auto, unfolding(crate::specs::Sentence::is_indefinite_article))]
fn is_indefinite_article(c: char, after: &str) -> bool
    ensures { result ≡ spec.is_indefinite_article c after.now }
{
    matches!(c, 'A' | 'a') && begins_with_space(after)
}

// Returns whether a text begins with math or with an element that keeps its case.
#[tactic(auto, unfolding(crate::specs::Sentence::begins_kept))]
fn begins_kept(text: &str) -> bool
    ensures { result ≡ spec.begins_kept text.now }
{
    text.starts_with("$")
        || text.starts_with("<span")
        || text.starts_with("<sup>")
        || text.starts_with("<sub>")
}

// Returns whether the case of the first letter of a word may change. `after` is the text after this letter.
#[tactic(auto, unfolding(crate::specs::Sentence::is_ordinary_word))]
fn is_ordinary_word(c: char, after: &str) -> bool
    ensures { result ≡ spec.is_ordinary_word c after.now }
{
    is_indefinite_article(c, after)
        || (is_small_rest(word_in(after)) && !begins_kept(text_after_word(after)))
}

// Returns the character as a capital, unless that would be more than one character.
#[tactic(auto, unfolding(crate::specs::Sentence::capital))]
fn capital(c: char) -> char
    ensures { result ≡ spec.capital c }
{
    let mut forms = c.to_uppercase();
    match (forms.next(), forms.next()) {
        (Some(form), None) => form,
        _ => c,
    }
}

// Returns the character as a small letter, unless that would be more than one character.
#[tactic(auto, unfolding(crate::specs::Sentence::small))]
fn small(c: char) -> char
    ensures { result ≡ spec.small c }
{
    let mut forms = c.to_lowercase();
    match (forms.next(), forms.next()) {
        (Some(form), None) => form,
        _ => c,
    }
}

// Returns the first letter of a word: a capital if a sentence begins, the letter as it is after a full stop and white space, and otherwise
// a small letter.
fn first_letter(sentence: Sentence, c: char) -> char
    ensures { result ≡ spec.first_letter sentence c }
{
    match sentence {
        Sentence::Begins => capital(c),
        Sentence::FollowsStop => c,
        Sentence::AfterMark | Sentence::AfterStop | Sentence::Inside => small(c),
    }
}

// Returns whether a character is a quotation mark, a parenthesis or a bracket.
#[tactic(auto, unfolding(crate::specs::Sentence::is_enclosing))]
fn is_enclosing(c: char) -> bool
    ensures { result ≡ spec.is_enclosing c }
{
    matches!(
        c,
        '"' | '\''
            | '`'
            | '('
            | ')'
            | '['
            | ']'
            | '“'
            | '”'
            | '‘'
            | '’'
            | '«'
            | '»'
            | '„'
            | '‚'
            | '‹'
            | '›'
    )
}

// Returns the part of a sentence after white space.
fn after_space(before: Sentence) -> Sentence
    ensures { result ≡ spec.after_space before }
{
    match before {
        Sentence::AfterMark => Sentence::Begins,
        Sentence::AfterStop => Sentence::FollowsStop,
        other => other,
    }
}

// Returns the part of a sentence after a character.
#[tactic(auto, unfolding(crate::specs::Sentence::sentence_part_after))]
fn sentence_part_after(before: Sentence, c: char) -> Sentence
    ensures { result ≡ spec.sentence_part_after before c }
{
    if c.is_whitespace() {
        return after_space(before);
    }
    if is_enclosing(c) {
        return before;
    }
    match c {
        '.' => Sentence::AfterStop,
        '?' | '!' | ':' => Sentence::AfterMark,
        _ => Sentence::Inside,
    }
}

// Returns whether a character after this one continues a word.
#[tactic(auto, unfolding(crate::specs::Sentence::is_in_word_after))]
fn is_in_word_after(is_in_word: bool, c: char) -> bool
    ensures { result ≡ spec.is_in_word_after is_in_word c }
{
    is_letter_or_digit(c) || matches!(c, '$' | '\\') || (is_in_word && continues_word(c))
}

// Returns whether the text after a less-than sign begins an element that keeps its case.
#[tactic(auto, unfolding(crate::specs::Sentence::opens_element))]
fn opens_element(text: &str) -> bool
    ensures { result ≡ spec.opens_element text.now }
{
    text.starts_with("span") || text.starts_with("sup>") || text.starts_with("sub>")
}

// Returns whether the text after a less-than sign ends such an element.
#[tactic(auto, unfolding(crate::specs::Sentence::closes_element))]
fn closes_element(text: &str) -> bool
    ensures { result ≡ spec.closes_element text.now }
{
    text.starts_with("/span") || text.starts_with("/sup") || text.starts_with("/sub")
}

// Returns whether the text after a less-than sign is that of a tag for italic or bold text.
#[tactic(auto, unfolding(crate::specs::Sentence::is_style_tag))]
fn is_style_tag(text: &str) -> bool
    ensures { result ≡ spec.is_style_tag text.now }
{
    text.starts_with("i>")
        || text.starts_with("/i>")
        || text.starts_with("b>")
        || text.starts_with("/b>")
}

// Returns whether a character and the text after it begin one of these tags.
#[tactic(auto, unfolding(crate::specs::Sentence::begins_tag))]
fn begins_tag(c: char, after: &str) -> bool
    ensures { result ≡ spec.begins_tag c after.now }
{
    c == '<' && (opens_element(after) || closes_element(after) || is_style_tag(after))
}

// Returns the number of open elements that keep their case, after the less-than sign of a tag.
#[tactic(auto, unfolding(crate::specs::Sentence::kept_depth_after))]
fn kept_depth_after(depth: usize, after: &str) -> usize
    requires { depth < 2 ^ 63 }
    ensures { result ≡ spec.kept_depth_after depth after.now }
{
    if opens_element(after) {
        return depth + 1;
    }
    if closes_element(after) {
        return depth.saturating_sub(1);
    }
    depth
}

// Returns the context after a character that is not in a tag and begins none.
#[tactic(auto, unfolding(crate::specs::Sentence::context_in_text))]
fn context_in_text(at: Context, c: char) -> Context
    ensures { result ≡ spec.context_in_text at c }
{
    Context {
        sentence: sentence_part_after(at.sentence, c),
        is_in_word: is_in_word_after(at.is_in_word, c),
        is_in_tag: false,
        is_in_math: if c == '$' {
            !at.is_in_math
        } else {
            at.is_in_math
        },
        depth: at.depth,
    }
}

// Returns the context in a tag, or after it.
#[tactic(auto, unfolding(crate::specs::Sentence::context_in_tag))]
fn context_in_tag(at: Context, is_in_tag: bool, depth: usize) -> Context
    ensures { result ≡ spec.context_in_tag at is_in_tag depth }
{
    Context {
        sentence: at.sentence,
        is_in_word: at.is_in_word,
        is_in_tag,
        is_in_math: at.is_in_math,
        depth,
    }
}

// Returns the context after a character. `after` is the text after it.
#[tactic(auto, unfolding(crate::specs::Sentence::context_after))]
fn context_after(at: Context, c: char, after: &str) -> Context
    requires { at.depth < 2 ^ 63 }
    ensures { result ≡ spec.context_after at c after.now }
{
    if at.is_in_tag {
        return context_in_tag(at, c != '>', at.depth);
    }
    if begins_tag(c, after) {
        return context_in_tag(at, true, kept_depth_after(at.depth, after));
    }
    context_in_text(at, c)
}

// Returns whether no letter changes here: inside of a word, a tag, math or an element that keeps its case.
#[tactic(auto, unfolding(crate::specs::Sentence::keeps_case))]
fn keeps_case(at: Context) -> bool
    ensures { result ≡ spec.keeps_case at }
{
    at.is_in_word || at.is_in_tag || at.is_in_math || at.depth > 0
}

// Returns a character of a title in sentence case. `after` is the text after it.
#[tactic(auto, unfolding(crate::specs::Sentence::cased))]
fn cased(at: Context, c: char, after: &str) -> char
    ensures { result ≡ spec.cased at c after.now }
{
    if keeps_case(at) || !is_letter_or_digit(c) {
        return c;
    }
    if is_ordinary_word(c, after) {
        return first_letter(at.sentence, c);
    }
    c
}

// Returns the context at the start of a title.
fn title_start() -> Context
    ensures { result ≡ spec.title_start }
{
    Context {
        sentence: Sentence::Begins,
        is_in_word: false,
        is_in_tag: false,
        is_in_math: false,
        depth: 0,
    }
}

/// Returns an English title in sentence case. Text in elements that keep their case and text between dollar signs stay as they are. The
/// only error is out of memory.
#[tactic(auto, unfolding(crate::specs::Sentence::title_in_sentence_case))]
pub fn title_in_sentence_case(alloc: Global, title: &str) -> Result<Text, AllocError>
    ensures { IfOk result (λ out. out ≡ spec.title_in_sentence_case title.now) }
{
    let mut out = Text::new(alloc);
    let mut at = title_start();
    let mut scanner = Scanner::new(title);
    'title: while let Some(c) = scanner.eat() {
        let next = scanner.cursor();
        let after = &title[next..];
        out.push(cased(at, c, after))?;
        at = context_after(at, c, after);
    }
    Ok(out)
}
