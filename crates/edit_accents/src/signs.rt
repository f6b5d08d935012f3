//! Signs, into which a text is cut.

ghost use Rattle.std.specs.Prelude.{◌≡◌, ◌+◌, ◌<◌, ◌≤◌, ◌^◌, ℕ, false, List, IfOk};
ghost use Rattle.std.specs.Str.{chars};
ghost use Rattle.edit_accents.specs.Accents as spec;
ghost use Rattle.edit_accents.specs.Balance.{open_count};
ghost use Rattle.edit_accents.specs.declared.signs.Stretch.TheVariants.{Text, Accent, Address};

use crate::commands::is_accent_sign;
use std::alloc::{AllocError, Global};

/// A sign of a text.
#[derive(Debug, Clone, Copy, PartialEq, Eq)]
pub enum Sign {
    /// The backslash that begins a command, outside of math, addresses and keys.
    Command,
    /// An opening brace that no backslash escapes.
    Opening,
    /// A closing brace that no backslash escapes.
    Closing,
    /// A character of the text that is none of these.
    Plain(char),
    /// A character that a command became.
    Composed(char),
    /// A character that a command in braces became.
    Grouped(char),
}

/// A stretch of a text.
#[derive(Debug, Clone, Copy, PartialEq, Eq)]
pub enum Stretch {
    /// Text.
    Text,
    /// The name of an accent and the text after it, up to the first character of its argument.
    Accent,
    /// Math between dollar signs.
    Math,
    /// The name of a command, its optional arguments, and the address or the key that is its argument, with the number of open braces. An
    /// optional argument before them counts as one.
    Address(usize),
}

// Returns whether a text begins with a word, such as `url` or `cite`, that marks a command with an address or a key.
fn begins_address_word(text: &[char]) -> bool
    ensures { result ≡ spec.begins_address_word text.now }
{
    text.starts_with(&['u', 'r', 'l'])
        || text.starts_with(&['p', 'a', 't', 'h'])
        || text.starts_with(&['l', 'a', 'b', 'e', 'l'])
        || text.starts_with(&['r', 'e', 'f'])
        || text.starts_with(&['R', 'e', 'f'])
        || text.starts_with(&['c', 'i', 't', 'e'])
        || text.starts_with(&['C', 'i', 't', 'e'])
}

// Returns whether the name of a command at the start of the text after a backslash contains a word of `begins_address_word`.
fn begins_address(text: &[char]) -> bool
    ensures { result ≡ spec.begins_address text.now }
{
    'letters: for (at, c) in text.iter().enumerate() {
        if !c.is_ascii_alphabetic() {
            return false;
        }
        if begins_address_word(&text[at..]) {
            return true;
        }
    }
    false
}

// Returns the sign of a character that no backslash escapes.
fn sign_of(stretch: Stretch, c: char) -> Sign
    ensures { result ≡ spec.sign_of stretch c }
{
    if c == '{' {
        return Sign::Opening;
    }
    if c == '}' {
        return Sign::Closing;
    }
    if c == '\\' && matches!(stretch, Stretch::Text | Stretch::Accent) {
        return Sign::Command;
    }
    Sign::Plain(c)
}

// Returns whether a text begins with an ASCII letter.
fn begins_letter(text: &[char]) -> bool
    ensures { result ≡ spec.begins_letter text.now }
{
    matches!(text, [c, ..] if c.is_ascii_alphabetic())
}

// Returns whether the text after a backslash begins with the name of an accent.
fn begins_accent(text: &[char]) -> bool
    ensures { result ≡ spec.begins_accent text.now }
{
    match text {
        [c, ..] => is_accent_sign(*c) && !(c.is_ascii_alphabetic() && begins_letter(&text[1..])),
        [] => false,
    }
}

// Returns the stretch after a closing brace in an address or a key with `depth` open braces.
fn address_closed(depth: usize) -> Stretch
    ensures closed { result ≡ spec.address_closed depth }
    ensures count { open_count result ≤ depth }
{
    if depth > 1 {
        Stretch::Address(depth - 1)
    } else {
        Stretch::Text
    }
}

// Returns the stretch after a character of text.
fn stretch_after_text(c: char, rest: &[char]) -> Stretch
    ensures after { result ≡ spec.stretch_after_text c rest.now }
    ensures count { open_count result ≡ 0 }
{
    if c == '$' {
        return Stretch::Math;
    }
    if c == '\\' && begins_address(rest) {
        return Stretch::Address(0);
    }
    if c == '\\' && begins_accent(rest) {
        return Stretch::Accent;
    }
    Stretch::Text
}

// Returns the stretch after a character that follows the name of an accent: white space or a brace before its argument, or the
// argument itself.
fn stretch_after_accent(c: char, rest: &[char]) -> Stretch
    ensures after { result ≡ spec.stretch_after Accent c rest.now }
    ensures count { open_count result ≡ 0 }
{
    if c == '{' || c.is_whitespace() {
        Stretch::Accent
    } else {
        stretch_after_text(c, rest)
    }
}

// Returns the stretch after a character of the name or the arguments of a command with an address or a key, with `depth` open braces.
fn after_address(depth: usize, c: char) -> Stretch
    requires { depth < 2 ^ 63 }
    ensures after { (rest : List ℕ) → result ≡ spec.stretch_after (Address depth) c rest }
    ensures count { open_count result ≤ depth + 1 }
{
    if c == '{' {
        return Stretch::Address(depth + 1);
    }
    if c == '}' {
        return address_closed(depth);
    }
    if c == '[' && depth == 0 {
        return Stretch::Address(1);
    }
    if c == ']' && depth == 1 {
        return Stretch::Address(0);
    }
    Stretch::Address(depth)
}

/// Returns the stretch after a character that no backslash escapes.
pub(crate) fn stretch_after(stretch: Stretch, c: char, rest: &[char]) -> Stretch
    requires { open_count stretch < 2 ^ 63 }
    ensures after { result ≡ spec.stretch_after stretch c rest.now }
    ensures count { open_count result ≤ open_count stretch + 1 }
{
    match stretch {
        Stretch::Text => stretch_after_text(c, rest),
        Stretch::Accent => stretch_after_accent(c, rest),
        Stretch::Math if c == '$' => Stretch::Text,
        Stretch::Math => Stretch::Math,
        Stretch::Address(depth) => after_address(depth, c),
    }
}

/// Returns the characters of a text. The only error is out of memory.
pub(crate) fn characters(alloc: Global, text: &str) -> Result<Vec<char>, AllocError>
    ensures { IfOk result (λ cs. cs.items ≡ chars text.now) }
{
    let mut cs = Vec::with_capacity(alloc, text.len())?;
    'characters: for c in text.chars() {
        cs.push(c)?;
    }
    Ok(cs)
}

/// Returns the signs of a text. The only error is out of memory.
pub(crate) fn signs(alloc: Global, text: &str) -> Result<Vec<Sign>, AllocError>
    ensures { IfOk result (λ made. made.items ≡ spec.signs Text false (chars text.now)) }
{
    let cs = characters(alloc, text)?;
    let mut signs = Vec::with_capacity(alloc, cs.len())?;
    let mut stretch = Stretch::Text;
    let mut is_escaped = false;
    'characters: for (at, c) in cs.iter().enumerate() {
        if is_escaped {
            signs.push(Sign::Plain(*c))?;
            is_escaped = false;
        } else {
            signs.push(sign_of(stretch, *c))?;
            stretch = stretch_after(stretch, *c, &cs[at + 1..]);
            is_escaped = *c == '\\';
        }
    }
    Ok(signs)
}
