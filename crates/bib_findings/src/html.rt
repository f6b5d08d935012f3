//! Findings of printed fields: HTML and special characters.

ghost use Rattle.std.specs.Prelude.{◌≡◌, ◌==◌, ◌++◌, false, map, option_map, slice_get, IfOk, OnOk};
ghost use Rattle.std.specs.Char.{is_ascii_hexdigit};
ghost use Rattle.std.specs.List.{flat_map, list_all, list_any, take_while};
ghost use Rattle.std.specs.Option.{option_map_or};
ghost use Rattle.std.specs.String.{string_bytes};
ghost use Rattle.bib_syntax.specs.Views.{entry_reading_of, field_of};
ghost use Rattle.bib_findings.specs.Html as spec;
ghost use Rattle.bib_findings.specs.Html.{printed_finding, printed_findings};
ghost use Rattle.bib_findings.specs.HtmlParts.{is_tested_byte, markup_of};
ghost use Rattle.bib_findings.specs.declared.special_characters.Zone.TheVariants.{InText};

use crate::codes::Code;
use crate::fields::named_message;
use crate::finding::Finding;
use crate::foreign::begins_with_any;
use crate::identities::literal_text;
use crate::nearest::is_among;
use crate::special_characters::{Zone, add_special, is_printed, zone_after};
use bib_syntax::raw::{Pair, RawEntry};
use bib_text::digits::are_digits;
use bib_text::spanned::Spanned;
use bib_text::text::Text;
use std::alloc::{AllocError, Global};
use std::str::from_utf8;

// A part of a text that is HTML.
#[derive(Clone, Copy)]
enum HtmlPart<'s> {
    // A tag: `<` or `</`, and its name.
    Tag(&'static str, &'s str),
    // A character reference: `&` or `&#`, and its name or number.
    Reference(&'static str, &'s str),
}

// Names of tags that exports of publishers and of Crossref contain.
static TAG_NAMES: [&str; 19] = [
    "a", "b", "bold", "br", "div", "em", "font", "i", "inf", "italic", "p", "sc", "scp", "span",
    "strong", "sub", "sup", "tt", "u",
];

// The beginnings of the names of other such tags: those of JATS and of MathML.
static TAG_PREFIXES: [&str; 2] = ["jats:", "mml:"];

// The names of the character references that are reported, in any ASCII case.
static REFERENCE_NAMES: [&str; 54] = [
    "aacute", "acirc", "agrave", "alpha", "amp", "apos", "aring", "atilde", "auml", "beta",
    "ccedil", "deg", "delta", "eacute", "ecirc", "egrave", "euml", "gamma", "gt", "hellip",
    "iacute", "icirc", "igrave", "iuml", "lambda", "ldquo", "lsquo", "lt", "mdash", "middot",
    "minus", "mu", "nbsp", "ndash", "ntilde", "oacute", "ocirc", "ograve", "omega", "oslash",
    "otilde", "ouml", "pi", "quot", "rdquo", "rsquo", "sigma", "szlig", "times", "uacute", "ucirc",
    "ugrave", "uuml", "yacute",
];

// Returns whether a byte may occur in the name of a tag or of a character reference: an ASCII letter or digit, `-` or `:`.
fn is_name_byte(b: u8) -> bool
    ensures { result ≡ spec.is_html_name_byte b }
{
    b.is_ascii_alphanumeric() || b == b'-' || b == b':'
}

// Returns those bytes at the start that may occur in a name.
fn name_bytes(bytes: &[u8]) -> &[u8]
    ensures { result.now ≡ take_while spec.is_html_name_byte bytes.now }
{
    'bytes: for (index, b) in bytes.iter().enumerate() {
        if !is_name_byte(*b) {
            return &bytes[..index];
        }
    }
    bytes
}

// Returns those bytes at the start that may occur in a name, as a text.
fn name_at(bytes: &[u8]) -> &str
    ensures { result.now ≡ take_while spec.is_html_name_byte bytes.now }
{
    match from_utf8(name_bytes(bytes)) {
        Ok(name) => name,
        Err(_) => "",
    }
}

// Returns whether tags with this name are reported, in any ASCII case.
fn is_tag_name(name: &str) -> bool
    ensures { result ≡ spec.is_tag_name name.now }
{
    is_among(&TAG_NAMES, name) || begins_with_any(&TAG_PREFIXES, name)
}

// Returns whether a byte ends the name of a tag with `size` bytes: `>` or `/`, or ASCII white space after more than two bytes.
fn ends_tag_name(size: usize, b: u8) -> bool
    ensures { result ≡ spec.ends_tag_name size b }
{
    b == b'>' || b == b'/' || (size > 2 && b.is_ascii_whitespace())
}

// Returns whether the byte after the first `size` bytes ends the name of a tag, which these are.
fn is_tag_name_ended(bytes: &[u8], size: usize) -> bool
    ensures { result ≡ option_map_or (spec.ends_tag_name size) (slice_get bytes.now size) false }
{
    match bytes.get(size) {
        Some(b) => ends_tag_name(size, *b),
        None => false,
    }
}

// Returns whether there is a semicolon at an index.
fn is_semicolon_at(bytes: &[u8], index: usize) -> bool
    ensures { result ≡ option_map_or (λ b. b == spec.semicolon) (slice_get bytes.now index) false }
{
    match bytes.get(index) {
        Some(b) => *b == b';',
        None => false,
    }
}

// Returns the tag that begins with `start`, if the bytes after it begin with a name of a tag and the end of the name.
fn tag<'s>(start: &'static str, bytes: &'s [u8]) -> Option<HtmlPart<'s>>
    ensures { option_map markup_of result ≡ spec.tag_from start.now bytes.now }
{
    let name = name_at(bytes);
    if is_tag_name(name) && is_tag_name_ended(bytes, name.len()) {
        Some(HtmlPart::Tag(start, name))
    } else {
        None
    }
}

// Returns the tag of which these are the bytes after `<`, if there is one.
fn tag_after_less(bytes: &[u8]) -> Option<HtmlPart<'_>>
    ensures { option_map markup_of result ≡ spec.tag_after_less bytes.now }
{
    match bytes {
        [b'/', rest @ ..] => tag("</", rest),
        _ => tag("<", bytes),
    }
}

// Returns whether all bytes are hexadecimal digits.
fn are_hexadecimal(bytes: &[u8]) -> bool
    ensures { result ≡ list_all is_ascii_hexdigit bytes.now }
{
    bytes.iter().all(|b| b.is_ascii_hexdigit())
}

// Returns whether bytes are the number of a character: one or more ASCII digits, or `x` or `X` and one or more hexadecimal digits.
fn is_character_number(bytes: &[u8]) -> bool
    ensures { result ≡ spec.is_character_number bytes.now }
{
    match bytes {
        [b'x' | b'X', digits @ ..] => !digits.is_empty() && are_hexadecimal(digits),
        _ => !bytes.is_empty() && are_digits(bytes),
    }
}

// Returns the character reference that begins with `&`, if the bytes after it begin with a known name and a semicolon.
fn named_reference(bytes: &[u8]) -> Option<HtmlPart<'_>>
    ensures { option_map markup_of result ≡ spec.named_reference bytes.now }
{
    let name = name_at(bytes);
    if is_among(&REFERENCE_NAMES, name) && is_semicolon_at(bytes, name.len()) {
        Some(HtmlPart::Reference("&", name))
    } else {
        None
    }
}

// Returns the character reference that begins with `&#`, if the bytes after it begin with the number of a character and a semicolon.
fn numeric_reference(bytes: &[u8]) -> Option<HtmlPart<'_>>
    ensures { option_map markup_of result ≡ spec.numeric_reference bytes.now }
{
    let name = name_at(bytes);
    if is_character_number(name.as_bytes()) && is_semicolon_at(bytes, name.len()) {
        Some(HtmlPart::Reference("&#", name))
    } else {
        None
    }
}

// Returns the character reference of which these are the bytes after `&`, if there is one.
fn reference_after_ampersand(bytes: &[u8]) -> Option<HtmlPart<'_>>
    ensures { option_map markup_of result ≡ spec.reference_after_ampersand bytes.now }
{
    match bytes {
        [b'#', rest @ ..] => numeric_reference(rest),
        _ => named_reference(bytes),
    }
}

// Returns the tag or the character reference with which bytes begin, if there is one.
fn html_at(bytes: &[u8]) -> Option<HtmlPart<'_>>
    ensures { option_map markup_of result ≡ spec.html_at bytes.now }
{
    match bytes {
        [b'<', rest @ ..] => tag_after_less(rest),
        [b'&', rest @ ..] => reference_after_ampersand(rest),
        _ => None,
    }
}

// Returns the tag or the character reference with which bytes in this zone begin, if there is one. Returns `None` in math, and if a
// backslash escapes the first byte.
fn html_in(zone: Zone, bytes: &[u8]) -> Option<HtmlPart<'_>>
    ensures { option_map markup_of result ≡ spec.html_in zone bytes.now }
{
    match zone {
        Zone::InText => html_at(bytes),
        _ => None,
    }
}

// Returns the first tag or character reference of bytes that is outside math and whose first byte no backslash escapes.
fn first_html(bytes: &[u8]) -> Option<HtmlPart<'_>>
    ensures { option_map markup_of result ≡ spec.first_html InText bytes.now }
{
    let mut zone = Zone::InText;
    'bytes: for (index, b) in bytes.iter().enumerate() {
        let html = html_in(zone, &bytes[index..]);
        if html.is_some() {
            return html;
        }
        zone = zone_after(zone, char::from(*b));
    }
    None
}

// Returns a tag without its attributes, or a character reference.
fn html_text(alloc: Global, html: HtmlPart<'_>) -> Result<String, AllocError>
    ensures { IfOk result (λ text. string_bytes text ≡ spec.markup_text (markup_of html.entry)) }
{
    match html {
        HtmlPart::Tag(start, name) => format!(in alloc; "{start}{name}>"),
        HtmlPart::Reference(start, name) => format!(in alloc; "{start}{name};"),
    }
}

// Returns the end of a message: how LaTeX reads a tag or a character reference.
fn html_reading(html: HtmlPart<'_>) -> &'static str
    ensures { result.now ≡ spec.markup_reading (markup_of html.entry) }
{
    match html {
        HtmlPart::Tag(_, _) => "; LaTeX prints it as text",
        HtmlPart::Reference(_, _) => "; LaTeX stops at `&`",
    }
}

// Returns the finding of a field of the entry with this key, which contains this HTML.
fn html_finding(
    alloc: Global,
    key: &str,
    field: &Pair<'_>,
    html: HtmlPart<'_>,
) -> Result<Finding, AllocError>
    ensures { IfOk result (λ finding. finding ≡ spec.html_finding key.now (field_of field.now) (markup_of html.entry)) }
{
    let markup = html_text(alloc, html)?;
    let before = format!(in alloc; "HTML `{markup}` in ")?;
    let message = named_message(alloc, key, &before, field.key.v, html_reading(html))?;
    Ok(Finding {
        code: Code::Html,
        span: field.key.span.start..field.key.span.end,
        message: Text::from_string(message),
    })
}

// Returns whether a byte may begin HTML, or is special to LaTeX.
fn is_tested_byte(b: u8) -> bool
    ensures { result ≡ is_tested_byte b }
{
    matches!(b, b'<' | b'&' | b'%' | b'#' | b'_' | b'^')
}

// Returns whether a text has a byte that may begin HTML or is special to LaTeX.
fn has_tested_byte(text: &str) -> bool
    ensures { result ≡ list_any is_tested_byte text.now }
{
    text.as_bytes().iter().any(|b| is_tested_byte(*b))
}

// Appends the findings of HTML and of a special character in a field of the entry with this key, if the field is printed and its value is
// one literal. Beside a character reference, no special character is reported.
fn add_printed(
    alloc: Global,
    found: &mut Vec<Finding>,
    key: &str,
    field: &Pair<'_>,
) -> Result<(), AllocError>
    ensures { OnOk result (found.new.items ≡ found.old.items ++ printed_finding key.now (field_of field.now)) }
{
    if !is_printed(field.key.v) {
        return Ok(());
    }
    let text = literal_text(&field.value.v);
    if !has_tested_byte(text) {
        return Ok(());
    }
    let Some(html) = first_html(text.as_bytes()) else {
        return add_special(alloc, found, key, field);
    };
    found.push(html_finding(alloc, key, field, html)?)?;
    match html {
        HtmlPart::Tag(_, _) => add_special(alloc, found, key, field),
        HtmlPart::Reference(_, _) => Ok(()),
    }
}

// Appends the findings of HTML and of special characters in each of these fields of the entry with this key.
fn add_printed_among(
    alloc: Global,
    found: &mut Vec<Finding>,
    key: &str,
    fields: &[Pair<'_>],
) -> Result<(), AllocError>
    ensures { OnOk result (found.new.items ≡ found.old.items ++ flat_map (printed_finding key.now) (map field_of fields.now)) }
{
    'fields: for field in fields {
        add_printed(alloc, found, key, field)?;
    }
    Ok(())
}

/// Appends the findings of HTML and of special characters in the printed fields of an entry.
pub(crate) fn add_printed_fields(
    alloc: Global,
    found: &mut Vec<Finding>,
    said: &Spanned<RawEntry<'_>>,
) -> Result<(), AllocError>
    ensures { OnOk result (found.new.items ≡ found.old.items ++ printed_findings (entry_reading_of said.now)) }
{
    add_printed_among(alloc, found, said.v.key.v, &said.v.fields)
}
