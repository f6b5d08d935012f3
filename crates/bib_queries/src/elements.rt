//! Parses the elements of a control file of Biber.

ghost use Rattle.std.specs.Prelude.{◌≡◌, ◌==◌, ◌||◌, ◌++◌, codes, eqb, length, IfOk, OnOk};
ghost use Rattle.std.specs.List.{starts_with};
ghost use Rattle.std.specs.Option.{option_map};
ghost use Rattle.std.specs.String.{string_bytes};
ghost use Rattle.bib_queries.specs.Elements as spec;
ghost use Rattle.bib_queries.specs.Texts.{text_list};

use crate::lines::after_prefix;
use crate::names::{push_filled, push_parts};
use std::alloc::{AllocError, Global};

// If `text` begins with the name of one of the five named escapes of XML and its semicolon, returns its character and the text after them.
// Otherwise returns an ampersand and all of `text`.
fn escape(text: &str) -> (&str, &str)
    ensures { result.0.now ++ result.1.now ≡ spec.unescaped_piece text.now }
{
    if let Some(rest) = after_prefix(text, "amp;") {
        return ("&", rest);
    }
    if let Some(rest) = after_prefix(text, "lt;") {
        return ("<", rest);
    }
    if let Some(rest) = after_prefix(text, "gt;") {
        return (">", rest);
    }
    if let Some(rest) = after_prefix(text, "quot;") {
        return ("\"", rest);
    }
    if let Some(rest) = after_prefix(text, "apos;") {
        return ("'", rest);
    }
    ("&", text)
}

// Appends an ampersand and the text after it, with a named escape at their start replaced.
fn push_piece(written: &mut String, piece: &str) -> Result<(), AllocError>
    ensures { OnOk result (string_bytes written.new ≡ string_bytes written.old ++ spec.unescaped_piece piece.now) }
{
    let (character, rest) = escape(piece);
    written.push_str(character)?;
    written.push_str(rest)?;
    Ok(())
}

// Appends an ampersand and `text`, which follows it, with the named escapes in both replaced.
fn push_pieces(written: &mut String, text: &str) -> Result<(), AllocError>
    ensures { OnOk result (string_bytes written.new ≡ string_bytes written.old ++ spec.unescaped_rest text.now) }
{
    'pieces: for piece in text.split('&') {
        push_piece(written, piece)?;
    }
    Ok(())
}

// Returns a text with each of the five named escapes of XML replaced by its character.
pub(crate) fn unescaped_text(alloc: Global, text: &str) -> Result<String, AllocError>
    ensures { IfOk result (λ written. string_bytes written ≡ spec.unescaped_text text.now) }
{
    let Some((first, rest)) = text.split_once('&') else {
        return String::from_str(alloc, text);
    };
    let mut written = String::from_str(alloc, first)?;
    push_pieces(&mut written, rest)?;
    Ok(written)
}

// Returns whether this text after the name of a tag ends the name: it is empty or begins with a space.
fn ends_name(rest: &str) -> bool
    ensures { result ≡ (length rest.now == 0 || starts_with eqb rest.now (codes " ")) }
{
    rest.is_empty() || rest.starts_with(' ')
}

// Returns whether a tag is this name, or begins with this name and a space.
fn is_tag_with(tag: &str, name: &str) -> bool
    ensures { result ≡ spec.is_tag_with name.now tag.now }
{
    match after_prefix(tag, name) {
        Some(rest) => ends_name(rest),
        None => false,
    }
}

// Returns the tag of an element with this name, or `None` for another element or a tag without an end. `piece` begins after the `<` of
// the element.
fn tag_with_name<'s>(piece: &'s str, name: &str) -> Option<&'s str>
    ensures { option_map (λ tag. tag.now) result ≡ spec.tag_with_name name.now piece.now }
{
    let (tag, _) = piece.split_once('>')?;
    if is_tag_with(tag, name) {
        Some(tag)
    } else {
        None
    }
}

// Returns the text of an element with this name, or `None` for another element or a tag without an end.
pub(crate) fn text_with_name<'s>(piece: &'s str, name: &str) -> Option<&'s str>
    ensures { option_map (λ text. text.now) result ≡ spec.text_with_name name.now piece.now }
{
    let (tag, text) = piece.split_once('>')?;
    if is_tag_with(tag, name) {
        Some(text)
    } else {
        None
    }
}

// Returns the text after the first place at which a text contains `part`, or `None` without one.
fn after_part<'s>(text: &'s str, part: &str) -> Option<&'s str>
    ensures { option_map (λ rest. rest.now) result ≡ spec.text_after_part part.now text.now }
{
    match text.split_once(part) {
        Some((_, rest)) => Some(rest),
        None => None,
    }
}

// Returns the text before the first quote, or `None` without one.
fn before_quote(text: &str) -> Option<&str>
    ensures { option_map (λ value. value.now) result ≡ spec.text_before_quote text.now }
{
    let (value, _) = text.split_once('"')?;
    Some(value)
}

// Returns the value of an attribute in a tag. `opening` is a space, the name of the attribute, an equals sign and a quote.
fn attribute<'s>(tag: &'s str, opening: &str) -> Option<&'s str>
    ensures { option_map (λ value. value.now) result ≡ spec.attribute opening.now tag.now }
{
    let rest = after_part(tag, opening)?;
    before_quote(rest)
}

// Returns whether a tag defines a dynamic set.
fn defines_set(tag: &str) -> bool
    ensures { result ≡ spec.defines_set tag.now }
{
    match attribute(tag, " type=\"") {
        Some(value) => value == "set",
        None => false,
    }
}

// Returns whether an element is a `bcf:citekey` that defines a dynamic set.
pub(crate) fn is_set(piece: &str) -> bool
    ensures { result ≡ spec.is_set piece.now }
{
    match tag_with_name(piece, "bcf:citekey") {
        Some(tag) => defines_set(tag),
        None => false,
    }
}

// Returns the text of an element `bcf:citekey`, or `None` for another element or a tag without an end.
pub(crate) fn citekey_text(piece: &str) -> Option<&str>
    ensures { option_map (λ text. text.now) result ≡ spec.citekey_text piece.now }
{
    text_with_name(piece, "bcf:citekey")
}

// Returns the value of the attribute `members` of an element `bcf:citekey`: the comma-separated members of a set.
fn member_list(piece: &str) -> Option<&str>
    ensures { option_map (λ list. list.now) result ≡ spec.member_list piece.now }
{
    let tag = tag_with_name(piece, "bcf:citekey")?;
    attribute(tag, " members=\"")
}

// Returns the text with the keys of an element `bcf:citekey`: the members of a set, or the element's text.
pub(crate) fn key_list(piece: &str) -> Option<&str>
    ensures { option_map (λ list. list.now) result ≡ spec.key_list piece.now }
{
    if is_set(piece) {
        member_list(piece)
    } else {
        citekey_text(piece)
    }
}

// Appends the keys in `list`: those of a comma-separated list if `has_commas` is true. Otherwise, `list` without the white space
// around it is one key, unless it is empty.
pub(crate) fn push_listed_keys<'s>(
    keys: &mut Vec<&'s str>,
    list: &'s str,
    has_commas: bool,
) -> Result<(), AllocError>
    ensures { OnOk result (text_list keys.new ≡ text_list keys.old ++ spec.listed_keys has_commas list.now) }
{
    if has_commas {
        push_parts(keys, list)
    } else {
        push_filled(keys, list.trim())
    }
}
