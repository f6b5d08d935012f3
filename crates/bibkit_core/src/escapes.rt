//! Escapes texts in formats of other programs.

ghost use Rattle.std.specs.Prelude.{◌≡◌, ◌++◌, OnOk, IfOk, option_map};
ghost use Rattle.std.specs.String.{string_bytes};
ghost use Rattle.bibkit_core.specs.Escapes as spec;

use std::alloc::{AllocError, Global};

/// The context in which a text is escaped.
#[derive(Debug, Clone, Copy, PartialEq, Eq)]
pub enum Context {
    /// The message of a workflow command of GitHub Actions.
    GithubMessage,
    /// The value of a property of a workflow command of GitHub Actions.
    GithubProperty,
    /// The value of an attribute of XML 1.0.
    XmlAttribute,
}

// Returns the replacement of a character in the message of a workflow command, or `None` for a character that is kept.
fn message_replacement(character: char) -> Option<&'static str>
    ensures { option_map (λ text. text.now) result ≡ spec.message_replacement character }
{
    match character {
        '%' => Some("%25"),
        '\r' => Some("%0D"),
        '\n' => Some("%0A"),
        _ => None,
    }
}

// Returns the replacement of a character in a property of a workflow command, or `None` for a character that is kept.
fn property_replacement(character: char) -> Option<&'static str>
    ensures { option_map (λ text. text.now) result ≡ spec.property_replacement character }
{
    match character {
        ':' => Some("%3A"),
        ',' => Some("%2C"),
        _ => message_replacement(character),
    }
}

// Returns whether XML 1.0 allows a character.
fn is_xml_character(character: char) -> bool
    ensures { result ≡ spec.is_xml_character character }
{
    matches!(
        character,
        '\t' | '\n' | '\r' | ' '..='\u{D7FF}' | '\u{E000}'..='\u{FFFD}' | '\u{10000}'..='\u{10FFFF}'
    )
}

// Returns U+FFFD for a character that XML 1.0 doesn't allow, otherwise `None`.
fn unless_allowed(character: char) -> Option<&'static str>
    ensures { option_map (λ text. text.now) result ≡ spec.unless_allowed character }
{
    if is_xml_character(character) {
        None
    } else {
        Some("\u{FFFD}")
    }
}

// Returns the replacement of a character in an attribute of XML, or `None` for a character that is kept.
fn xml_replacement(character: char) -> Option<&'static str>
    ensures { option_map (λ text. text.now) result ≡ spec.xml_replacement character }
{
    match character {
        '&' => Some("&amp;"),
        '<' => Some("&lt;"),
        '>' => Some("&gt;"),
        '"' => Some("&quot;"),
        '\'' => Some("&apos;"),
        '\t' => Some("&#9;"),
        '\n' => Some("&#10;"),
        '\r' => Some("&#13;"),
        _ => unless_allowed(character),
    }
}

impl Context {
    // Returns the replacement of a character, or `None` for a character that is kept.
    fn replacement(self, character: char) -> Option<&'static str>
        ensures { option_map (λ text. text.now) result ≡ spec.context_replacement self character }
    {
        match self {
            Self::GithubMessage => message_replacement(character),
            Self::GithubProperty => property_replacement(character),
            Self::XmlAttribute => xml_replacement(character),
        }
    }
}

// Appends a character, or its replacement in this context.
fn push_escaped(text: &mut String, context: Context, character: char) -> Result<(), AllocError>
    ensures { OnOk result (string_bytes text.new ≡ string_bytes text.old ++ spec.escaped_character context character) }
{
    match context.replacement(character) {
        Some(replacement) => text.push_str(replacement),
        None => text.push(character),
    }
}

/// Returns a text with the characters escaped that have a meaning in this context. Characters that XML doesn't allow are replaced by
/// U+FFFD in an attribute of XML.
pub fn escaped(alloc: Global, context: Context, text: &str) -> Result<String, AllocError>
    ensures { IfOk result (λ new. string_bytes new ≡ spec.escaped context text.now) }
{
    let mut new = String::new(alloc);
    'characters: for character in text.chars() {
        push_escaped(&mut new, context, character)?;
    }
    Ok(new)
}
