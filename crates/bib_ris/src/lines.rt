//! Lines of a record.

ghost use Rattle.std.specs.Prelude.{◌≡◌, ◌++◌, map, OnOk};
ghost use Rattle.std.specs.String.{string_bytes};
ghost use Rattle.bib_ris.specs.Lines as spec;

use std::alloc::AllocError;

// Returns a character, or a plain space for a line feed, a carriage return or a no-break space.
fn unbroken(c: char) -> char
    ensures { result ≡ spec.on_line c }
{
    match c {
        '\n' | '\r' | '\u{a0}' => ' ',
        _ => c,
    }
}

// Appends a text, with a plain space for each line feed, carriage return and no-break space.
fn push_one_line(out: &mut String, text: &str) -> Result<(), AllocError>
    ensures { OnOk result (string_bytes out.new ≡ string_bytes out.old ++ spec.one_line text.now) }
{
    'text: for c in text.chars() {
        out.push(unbroken(c))?;
    }
    Ok(())
}

/// Appends a line with this tag and a text.
pub(crate) fn push_line(out: &mut String, tag: &str, text: &str) -> Result<(), AllocError>
    ensures { OnOk result (string_bytes out.new ≡ string_bytes out.old ++ spec.ris_line tag.now text.now) }
{
    out.push_str(tag)?;
    out.push_str("  - ")?;
    push_one_line(out, text)?;
    out.push('\n')
}

/// Appends a line with this tag and a text, unless the text is empty.
pub(crate) fn push_given(out: &mut String, tag: &str, text: &str) -> Result<(), AllocError>
    ensures { OnOk result (string_bytes out.new ≡ string_bytes out.old ++ spec.given_line tag.now text.now) }
{
    if text.is_empty() {
        return Ok(());
    }
    push_line(out, tag, text)
}

/// Appends a line with this tag for each text.
pub(crate) fn push_lines(out: &mut String, tag: &str, texts: &[String]) -> Result<(), AllocError>
    ensures { OnOk result (string_bytes out.new ≡ string_bytes out.old ++
        spec.ris_lines tag.now (map (λ t. string_bytes t) texts.now)) }
{
    'texts: for text in texts {
        push_line(out, tag, text.as_str())?;
    }
    Ok(())
}
