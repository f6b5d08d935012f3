//! Line ends of one kind.

ghost use Rattle.std.specs.Prelude.{◌≡◌, ◌++◌, IfOk, OnOk, chars, string_bytes};
ghost use Rattle.bib_recode.specs.LineEnds as spec;

use std::alloc::{AllocError, Global};

/// How lines of a text end.
#[derive(Debug, Clone, Copy, PartialEq, Eq)]
pub enum LineEnds {
    /// By a line feed.
    Lf,
    /// By a carriage return and a line feed.
    CrLf,
}

impl LineEnds {
    /// Returns the kind of line ends with this name (`lf` or `crlf`, in any ASCII case), or `None` if `name` is another word.
    pub fn from_name(name: &str) -> Option<LineEnds>
        ensures { result ≡ spec.line_ends_named name.now }
    {
        if name.eq_ignore_ascii_case("lf") {
            return Some(LineEnds::Lf);
        }
        if name.eq_ignore_ascii_case("crlf") {
            return Some(LineEnds::CrLf);
        }
        None
    }

    // Returns a line end of this kind.
    fn text(self) -> &'static str
        ensures { result.now ≡ spec.end_of_line self }
    {
        match self {
            LineEnds::Lf => "\n",
            LineEnds::CrLf => "\r\n",
        }
    }
}

// Appends a character, or a line end if a line ends at it. For a line feed after a carriage return, appends nothing, because that
// line has ended.
fn push_ended(
    out: &mut String,
    ends: LineEnds,
    is_after_return: bool,
    c: char,
) -> Result<(), AllocError>
    ensures { OnOk result (string_bytes out.new ≡ string_bytes out.old ++ spec.ended_bytes ends is_after_return c) }
{
    match c {
        '\r' => out.push_str(ends.text()),
        '\n' if is_after_return => Ok(()),
        '\n' => out.push_str(ends.text()),
        _ => out.push(c),
    }
}

// Returns a byte order mark if `has_mark` is true, otherwise an empty text.
fn mark_if(alloc: Global, has_mark: bool) -> Result<String, AllocError>
    ensures { IfOk result (λ mark. string_bytes mark ≡ spec.mark_if has_mark) }
{
    if has_mark {
        return String::from_str(alloc, "\u{FEFF}");
    }
    Ok(String::new(alloc))
}

/// Returns a text with line ends of one kind, and with a byte order mark at its start if `has_mark` is true. A line ends at a carriage
/// return, a line feed, or a carriage return and a line feed. All other characters are kept. The only error is out of memory.
pub fn with_line_ends(
    alloc: Global,
    text: &str,
    ends: LineEnds,
    has_mark: bool,
) -> Result<String, AllocError>
    ensures { IfOk result (λ new. string_bytes new ≡ spec.mark_if has_mark ++ spec.with_line_ends ends (chars text.now)) }
{
    let mut out = mark_if(alloc, has_mark)?;
    let mut is_after_return = false;
    'chars: for c in text.chars() {
        push_ended(&mut out, ends, is_after_return, c)?;
        is_after_return = c == '\r';
    }
    Ok(out)
}
