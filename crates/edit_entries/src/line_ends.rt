//! Texts that get the carriage returns of a file's line ends.

ghost use Rattle.std.specs.Prelude.{◌≡◌, ◌++◌, IfOk, OnOk, encode_utf8, encode_utf8_all};
ghost use Rattle.std.specs.Str.{chars};
ghost use Rattle.std.specs.String.{string_bytes};
ghost use Rattle.bib_text.specs.Characters as char;
ghost use Rattle.edit_entries.specs.LineEnds as spec;

pub use bib_queries::line_ends::line_end;
use std::alloc::{AllocError, Global};

// Appends a carriage return if `c` is a line feed, and `before`, the character before it, isn't a carriage return.
fn push_return(new: &mut String, before: char, c: char) -> Result<(), AllocError>
    ensures { OnOk result (string_bytes new.new ++ encode_utf8 c ≡ string_bytes new.old ++ encode_utf8_all (spec.with_return before c)) }
{
    if c == '\n' {
        if before != '\r' {
            return new.push('\r');
        }
    }
    Ok(())
}

// Returns a text with a carriage return before each line feed.
fn with_returns(alloc: Global, text: &str) -> Result<String, AllocError>
    ensures { IfOk result (λ new. string_bytes new ≡ encode_utf8_all (spec.with_returns char.space (chars text.now))) }
{
    let mut new = String::new(alloc);
    let mut before = ' ';
    'text: for c in text.chars() {
        push_return(&mut new, before, c)?;
        new.push(c)?;
        before = c;
    }
    Ok(new)
}

/// Returns a text with the carriage returns of a file's line ends. If the first line of `file` ends with `\r\n`, each line feed of `text`
/// without a carriage return before it gets one. Otherwise the text is kept. The only error is out of memory.
pub fn with_line_ends_of(alloc: Global, file: &str, text: &str) -> Result<String, AllocError>
    ensures { IfOk result (λ new. string_bytes new ≡ spec.with_line_ends_of file.now text.now) }
{
    if line_end(file) == "\n" {
        return String::from_str(alloc, text);
    }
    with_returns(alloc, text)
}
