//! The delimiters of literals.

ghost use Rattle.std.specs.Prelude.{◌≡◌, ◌++◌, OnOk};
ghost use Rattle.std.specs.String.{string_bytes};
ghost use Rattle.edit_entries.specs.Documents.{in_braces};
ghost use Rattle.edit_format.specs.Delimited as styled;

use crate::style::Delimiters;
use bib_text::braces::has_balanced_braces;
use std::alloc::AllocError;

// Returns whether `content` can be written in quotes: it has no unescaped quote, and no backslash at its end would escape the
// delimiter.
fn can_stand_in_quotes(content: &str) -> bool
    ensures { result ≡ styled.can_stand_in_quotes content.now }
{
    let mut is_hidden = false;
    'bytes: for byte in content.as_bytes() {
        if is_hidden {
            is_hidden = false;
        } else if *byte == b'\\' {
            is_hidden = true;
        } else if *byte == b'"' {
            return false;
        }
    }
    !is_hidden
}

// Returns whether `content` contains a quote, escaped or not.
fn has_quote(content: &str) -> bool
    ensures { result ≡ styled.has_quote content.now }
{
    content.contains('"')
}

// Returns whether the style rewrites the quoted literal `content` in braces.
fn goes_in_braces(delimiters: Delimiters, content: &str) -> bool
    ensures { result ≡ styled.goes_in_braces delimiters content.now }
{
    match delimiters {
        Delimiters::Keep => false,
        Delimiters::Braces => has_balanced_braces(content),
        Delimiters::Quotes => false,
    }
}

// Returns whether the style rewrites the braced literal `content` in quotes.
fn goes_in_quotes(delimiters: Delimiters, content: &str) -> bool
    ensures { result ≡ styled.goes_in_quotes delimiters content.now }
{
    match delimiters {
        Delimiters::Keep => false,
        Delimiters::Braces => false,
        Delimiters::Quotes => !has_quote(content) && can_stand_in_quotes(content),
    }
}

// Appends `content` in braces.
fn push_in_braces(new: &mut String, content: &str) -> Result<(), AllocError>
    ensures { OnOk result (string_bytes new.new ≡ string_bytes new.old ++ in_braces content.now) }
{
    new.push_str("{")?;
    new.push_str(content)?;
    new.push_str("}")?;
    Ok(())
}

// Appends `content` in quotes.
fn push_in_quotes(new: &mut String, content: &str) -> Result<(), AllocError>
    ensures { OnOk result (string_bytes new.new ≡ string_bytes new.old ++ styled.in_quotes content.now) }
{
    new.push_str("\"")?;
    new.push_str(content)?;
    new.push_str("\"")?;
    Ok(())
}

// Appends a literal that is in braces in the file: in quotes if the style rewrites it, otherwise in braces.
fn push_braced(new: &mut String, delimiters: Delimiters, content: &str) -> Result<(), AllocError>
    ensures { OnOk result (string_bytes new.new ≡ string_bytes new.old ++ styled.braced_in_style delimiters content.now) }
{
    if goes_in_quotes(delimiters, content) {
        return push_in_quotes(new, content);
    }
    push_in_braces(new, content)
}

// Appends a literal that is in quotes in the file: in braces if the style rewrites it, otherwise in quotes.
fn push_quoted(new: &mut String, delimiters: Delimiters, content: &str) -> Result<(), AllocError>
    ensures { OnOk result (string_bytes new.new ≡ string_bytes new.old ++ styled.quoted_in_style delimiters content.now) }
{
    if goes_in_braces(delimiters, content) {
        return push_in_braces(new, content);
    }
    push_in_quotes(new, content)
}

// Appends the literal `content` with the delimiters of the style. The end of `before`, the text before the literal, tells its
// delimiters in the file.
pub(crate) fn push_literal(
    new: &mut String,
    delimiters: Delimiters,
    before: &str,
    content: &str,
) -> Result<(), AllocError>
    ensures { OnOk result (string_bytes new.new ≡ string_bytes new.old ++ styled.delimited delimiters before.now content.now) }
{
    if before.ends_with("{") {
        return push_braced(new, delimiters, content);
    }
    if before.ends_with("\"") {
        return push_quoted(new, delimiters, content);
    }
    new.push_str(content)?;
    Ok(())
}
