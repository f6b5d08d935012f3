//! Findings of entries after which the text reads as a field.

ghost use Rattle.std.specs.Prelude.{◌≡◌, ◌++◌, ◌<◌, All, drop, eqb, codes, length, map, IfOk, OnOk};
ghost use Rattle.std.specs.Char.{is_ascii_whitespace};
ghost use Rattle.std.specs.List.{starts_with};
ghost use Rattle.bib_text.specs.Runs.{rest_after};
ghost use Rattle.bib_syntax.specs.Views.{entry_reading_of};
ghost use Rattle.bib_findings.specs.Duplicates.{entries_at};
ghost use Rattle.bib_findings.specs.Stray as spec;
ghost use Rattle.bib_findings.specs.Stray.{stray_findings, stray_of};

use crate::codes::Code;
use crate::entry_names::entry_name;
use crate::finding::Finding;
use bib_syntax::raw::RawEntry;
use bib_text::spanned::Spanned;
use bib_text::text::Text;
use std::alloc::{AllocError, Global};

// Returns bytes without the ASCII white space at their start.
fn after_white(bytes: &[u8]) -> &[u8]
    ensures { result.now ≡ rest_after is_ascii_whitespace bytes.now }
{
    'bytes: for (index, b) in bytes.iter().enumerate() {
        if !b.is_ascii_whitespace() {
            return &bytes[index..];
        }
    }
    &[]
}

// Returns whether a byte is one of those that names of fields usually contain: an ASCII letter or digit, `-`, `+` or `_`.
fn is_field_name_byte(b: u8) -> bool
    ensures { result ≡ spec.is_field_name_byte b }
{
    b.is_ascii_alphanumeric() || b == b'-' || b == b'+' || b == b'_'
}

// Returns bytes without those at their start that names of fields usually contain.
fn after_name(bytes: &[u8]) -> &[u8]
    ensures { result.now ≡ rest_after spec.is_field_name_byte bytes.now }
{
    'bytes: for (index, b) in bytes.iter().enumerate() {
        if !is_field_name_byte(*b) {
            return &bytes[index..];
        }
    }
    &[]
}

// Returns bytes without a comma at their start.
fn after_one_comma(bytes: &[u8]) -> &[u8]
    ensures { result.now ≡ spec.after_one_comma bytes.now }
{
    match bytes {
        [b',', rest @ ..] => rest,
        _ => bytes,
    }
}

// Returns whether bytes begin with an equals sign.
fn begins_with_equals(bytes: &[u8]) -> bool
    ensures { result ≡ starts_with eqb bytes.now (codes "=") }
{
    match bytes {
        [first, ..] => *first == b'=',
        [] => false,
    }
}

// Returns whether bytes begin with a name, maybe ASCII white space, and an equals sign.
fn begins_field(bytes: &[u8]) -> bool
    ensures { result ≡ spec.begins_field bytes.now }
{
    let rest = after_name(bytes);
    rest.len() != bytes.len() && begins_with_equals(after_white(rest))
}

// Returns whether bytes read as a field, maybe after a comma.
fn reads_as_field(bytes: &[u8]) -> bool
    ensures { result ≡ spec.reads_as_field bytes.now }
{
    begins_field(after_white(after_one_comma(after_white(bytes))))
}

// Returns the bytes of a text from a byte offset on; none if the text is shorter.
fn bytes_from(text: &str, start: usize) -> &[u8]
    ensures { result.now ≡ drop start text.now }
{
    let bytes = text.as_bytes();
    if start < bytes.len() {
        &bytes[start..]
    } else {
        &[]
    }
}

// Returns bytes without the first one.
fn without_first(bytes: &[u8]) -> &[u8]
    ensures { result.now ≡ drop 1 bytes.now }
{
    match bytes {
        [_, rest @ ..] => rest,
        [] => &[],
    }
}

// Returns the finding of an entry, at its closing brace.
fn stray_finding(alloc: Global, said: &Spanned<RawEntry<'_>>) -> Result<Finding, AllocError>
    ensures { IfOk result (λ finding. finding ≡ spec.stray_finding (entry_reading_of said.now)) }
{
    let entry = entry_name(said.v.key.v);
    let message = format!(in alloc;
        "{entry}: the text after this closing brace reads as a field; is the brace one too many?"
    )?;
    Ok(Finding {
        code: Code::StrayField,
        span: said.span.end..said.span.end,
        message: Text::from_string(message),
    })
}

// Appends the finding of an entry of this text, if the text after its closing brace reads as a field.
fn add_stray(
    alloc: Global,
    found: &mut Vec<Finding>,
    text: &str,
    said: &Spanned<RawEntry<'_>>,
) -> Result<(), AllocError>
    ensures { OnOk result (found.new.items ≡ found.old.items ++ stray_of text.now (entry_reading_of said.now)) }
{
    let after = without_first(bytes_from(text, said.span.end));
    if reads_as_field(after) {
        found.push(stray_finding(alloc, said)?)?;
    }
    Ok(())
}

/// Appends a finding for each of these entries if the text after its closing brace reads as a field. `text` is the text of the file.
/// `origins` contains the index of each entry in `said`.
pub(crate) fn add_strays(
    alloc: Global,
    found: &mut Vec<Finding>,
    text: &str,
    said: &[Spanned<RawEntry<'_>>],
    origins: &[usize],
) -> Result<(), AllocError>
    requires { All (λ index. index < length said.now) origins.now }
    ensures { OnOk result (found.new.items ≡ found.old.items ++
        stray_findings text.now (entries_at (map entry_reading_of said.now) origins.now)) }
{
    'origins: for index in origins {
        add_stray(alloc, found, text, &said[*index])?;
    }
    Ok(())
}
