//! Cuts the text of a condition into tokens.

ghost use Rattle.std.specs.Prelude.{◌≡◌, true, false, map, IfOk, IfErr, MatchResult};
ghost use Rattle.std.specs.Option.{option_map};
ghost use Rattle.bib_text.specs.Places.{Place, CharAt, place};
ghost use Rattle.std.specs.Char.{is_whitespace};
ghost use Rattle.bib_select.specs.Segments as segments;
ghost use Rattle.bib_select.specs.Tokens as spec;
ghost use Rattle.bib_select.specs.Tokens.{AreTokens, IsToken, IsUnclosed};
ghost use Rattle.bib_select.specs.Scanning.{IsNextToken, IsTokenError, IsTokensError, unclosed_quote};
ghost use Rattle.bib_select.specs.Views.{placed_of, token_of};

use crate::errors::{SelectionError, SelectionErrorKind};
use bib_text::scanner::Scanner;
use std::alloc::Global;

/// A token of a condition.
#[derive(Debug, Clone, Copy)]
pub(crate) enum Token<'s> {
    /// A word: no white space, quotes or signs.
    Word(&'s str),
    /// The text between two quotes.
    Quoted(&'s str),
    /// A run of signs, such as `<=`.
    Sign(&'s str),
}

/// A token with its byte offset.
#[derive(Debug, Clone, Copy)]
pub(crate) struct Placed<'s> {
    /// The token.
    pub(crate) token: Token<'s>,
    /// The offset of its first byte.
    pub(crate) at: usize,
}

impl<'s> Placed<'s> {
    /// Returns whether the token is this word, in any ASCII case, without quotes.
    pub(crate) fn is_keyword(&self, keyword: &str) -> bool
        ensures { result ≡ segments.is_keyword keyword.now (token_of self.now.token) }
    {
        match self.token {
            Token::Word(word) => word.eq_ignore_ascii_case(keyword),
            Token::Quoted(_) | Token::Sign(_) => false,
        }
    }

    /// Returns the text of a word or between quotes.
    pub(crate) fn text(&self) -> Option<&'s str>
        ensures { option_map (λ text. text.now) result ≡ segments.text_in_token (token_of self.now.token) }
    {
        match self.token {
            Token::Word(text) | Token::Quoted(text) => Some(text),
            Token::Sign(_) => None,
        }
    }
}

// Returns whether a character is a sign.
fn is_sign_character(c: char) -> bool
    ensures { result ≡ spec.is_sign_character c }
{
    c == '=' || c == '!' || c == '~' || c == '<' || c == '>' || c == '(' || c == ')'
}

// Returns whether a character is a quote.
fn is_quote(c: char) -> bool
    ensures { result ≡ spec.is_quote c }
{
    c == '"' || c == '\''
}

// Returns whether a character belongs to a word.
fn is_word_character(c: char) -> bool
    ensures { result ≡ spec.is_word_character c }
{
    !c.is_whitespace() && !is_sign_character(c) && !is_quote(c)
}

// Returns the text between two quotes, and moves past the second. The opening quote is at the byte offset `at`.
fn quoted<'s>(s: &mut Scanner<'s>, quote: char, at: usize) -> Result<Token<'s>, SelectionError>
    requires here { (v : Place) × CharAt s.old quote v }
    requires quote { spec.is_quote quote ≡ true }
    ensures { MatchResult result (λ token. IsToken s.old (token_of token) s.new)
        (λ error. (error ≡ unclosed_quote at) × IsUnclosed s.old) }
{
    let _opening = s.eat();
    let text = s.eat_until(|c| c == quote);
    if s.eat_if(quote) {
        return Ok(Token::Quoted(text));
    }
    Err(SelectionError::Malformed {
        kind: SelectionErrorKind::UnclosedQuote,
        at,
    })
}

// Returns the token at the byte offset `at`, and moves past it. Its first character is `first`, which isn't white space.
fn token_at<'s>(s: &mut Scanner<'s>, first: char, at: usize) -> Result<Token<'s>, SelectionError>
    requires here { (v : Place) × CharAt s.old first v }
    requires dark { is_whitespace first ≡ false }
    ensures { MatchResult result (λ token. IsToken s.old (token_of token) s.new)
        (λ error. (error ≡ unclosed_quote at) × IsUnclosed s.old) }
{
    if is_quote(first) {
        return quoted(s, first, at);
    }
    if is_sign_character(first) {
        return Ok(Token::Sign(s.eat_while(|c| is_sign_character(c))));
    }
    Ok(Token::Word(s.eat_while(|c| is_word_character(c))))
}

// Returns the next token after white space, and moves past it. Returns `None` at the end of the text.
fn next_token<'s>(s: &mut Scanner<'s>) -> Result<Option<Placed<'s>>, SelectionError>
    ensures { MatchResult result (λ found. IsNextToken s.old (option_map placed_of found) s.new) (IsTokenError s.old) }
{
    let _white = s.eat_whitespace();
    let at = s.cursor();
    let Some(first) = s.peek() else {
        return Ok(None);
    };
    let token = token_at(s, first, at)?;
    Ok(Some(Placed { token, at }))
}

/// Returns the tokens of a text. The error is a quote that isn't closed, or out of memory.
pub(crate) fn tokens<'s>(alloc: Global, text: &'s str) -> Result<Vec<Placed<'s>>, SelectionError>
    ensures found { IfOk result (λ tokens. AreTokens (place text.now 0) (Ok (map placed_of tokens.items))) }
    ensures refused { IfErr result (IsTokensError (place text.now 0)) }
{
    let mut s = Scanner::new(text);
    let mut tokens = Vec::new(alloc);
    'tokens: while let Some(placed) = next_token(&mut s)? {
        tokens.push(placed)?;
    }
    Ok(tokens)
}
