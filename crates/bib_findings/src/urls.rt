//! Findings of URLs without a scheme.

ghost use Rattle.std.specs.Prelude.{◌≡◌, ◌++◌, IfOk, OnOk};
ghost use Rattle.std.specs.List.{list_any};
ghost use Rattle.bib_text.specs.Runs.{rest_after};
ghost use Rattle.bib_syntax.specs.Views.{entry_reading_of};
ghost use Rattle.bib_findings.specs.Urls as spec;
ghost use Rattle.bib_findings.specs.Urls.{url_findings};

use crate::codes::Code;
use crate::fields::named_message;
use crate::finding::Finding;
use crate::identities::own_literal;
use crate::places::field_place;
use bib_syntax::raw::RawEntry;
use bib_text::spanned::Spanned;
use bib_text::text::Text;
use std::alloc::{AllocError, Global};

// Returns whether a byte may occur in a scheme after its first letter: an ASCII letter or digit, `+`, `-` or `.`.
fn is_scheme_byte(b: u8) -> bool
    ensures { result ≡ spec.is_scheme_byte b }
{
    b.is_ascii_alphanumeric() || matches!(b, b'+' | b'-' | b'.')
}

// Returns bytes without those at their start that may occur in a scheme.
fn after_scheme_bytes(bytes: &[u8]) -> &[u8]
    ensures { result.now ≡ rest_after spec.is_scheme_byte bytes.now }
{
    'bytes: for (index, b) in bytes.iter().enumerate() {
        if !is_scheme_byte(*b) {
            return &bytes[index..];
        }
    }
    &[]
}

// Returns whether bytes begin with an ASCII letter.
fn begins_with_letter(bytes: &[u8]) -> bool
    ensures { result ≡ spec.begins_with_letter bytes.now }
{
    match bytes {
        [first, ..] => first.is_ascii_alphabetic(),
        [] => false,
    }
}

// Returns whether bytes begin with a colon.
fn begins_with_colon(bytes: &[u8]) -> bool
    ensures { result ≡ spec.begins_with_colon bytes.now }
{
    match bytes {
        [first, ..] => *first == b':',
        [] => false,
    }
}

// Returns whether bytes begin with a scheme and a colon.
fn begins_with_scheme(bytes: &[u8]) -> bool
    ensures { result ≡ spec.begins_with_scheme bytes.now }
{
    begins_with_letter(bytes) && begins_with_colon(after_scheme_bytes(bytes))
}

// Returns whether a text with this byte may be more than a single URL: ASCII white space, a backslash or a brace.
fn is_more_than_url(b: u8) -> bool
    ensures { result ≡ spec.is_more_than_url b }
{
    b.is_ascii_whitespace() || matches!(b, b'\\' | b'{' | b'}')
}

// Returns whether one of these bytes shows that a text may be more than a single URL.
fn are_more_than_url(bytes: &[u8]) -> bool
    ensures { result ≡ list_any spec.is_more_than_url bytes.now }
{
    bytes.iter().any(|b| is_more_than_url(*b))
}

// Returns whether a text is one word without commands and braces, and has no scheme.
fn has_no_scheme(bytes: &[u8]) -> bool
    ensures { result ≡ spec.has_no_scheme bytes.now }
{
    !bytes.is_empty() && !are_more_than_url(bytes) && !begins_with_scheme(bytes)
}

// Returns whether the field `url` of an entry is one literal, and `has_no_scheme` is true for its text without the white space around it.
fn has_url_without_scheme(said: &Spanned<RawEntry<'_>>) -> bool
    ensures { result ≡ spec.has_url_without_scheme (entry_reading_of said.now) }
{
    has_no_scheme(own_literal(said, "url").trim().as_bytes())
}

// Returns the finding of a URL without a scheme.
fn url_finding(alloc: Global, said: &Spanned<RawEntry<'_>>) -> Result<Finding, AllocError>
    ensures { IfOk result (λ finding. finding ≡ spec.url_finding (entry_reading_of said.now)) }
{
    let after = " has no scheme such as `https:`; viewers take the link for a file";
    let message = named_message(alloc, said.v.key.v, "", "url", after)?;
    Ok(Finding {
        code: Code::UrlScheme,
        span: field_place(said, "url"),
        message: Text::from_string(message),
    })
}

/// Appends a finding if the field `url` of an entry is one literal without a scheme. An empty text isn't tested, nor is a text with ASCII
/// white space in it, a backslash or a brace.
pub(crate) fn add_url(
    alloc: Global,
    found: &mut Vec<Finding>,
    said: &Spanned<RawEntry<'_>>,
) -> Result<(), AllocError>
    ensures { OnOk result (found.new.items ≡ found.old.items ++ url_findings (entry_reading_of said.now)) }
{
    if has_url_without_scheme(said) {
        found.push(url_finding(alloc, said)?)?;
    }
    Ok(())
}
