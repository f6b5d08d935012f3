//! The text between entries.

ghost use Rattle.std.specs.Prelude.{◌≡◌, ◌++◌, OnOk};
ghost use Rattle.std.specs.Char.{is_ascii_whitespace};
ghost use Rattle.std.specs.List.{list_all};
ghost use Rattle.std.specs.String.{string_bytes};
ghost use Rattle.edit_format.specs.Formatted.{gap_in_style, line_ends};

use std::alloc::AllocError;

// Returns whether `text` is empty or ASCII white space.
fn is_blank(text: &str) -> bool
    ensures { result ≡ list_all is_ascii_whitespace text.now }
{
    text.trim_ascii_start().is_empty()
}

// Appends `count` line ends.
fn push_line_ends(new: &mut String, line_end: &str, count: usize) -> Result<(), AllocError>
    ensures { OnOk result (string_bytes new.new ≡ string_bytes new.old ++ line_ends line_end.now count) }
{
    'lines: for _written in 0..count {
        new.push_str(line_end)?;
    }
    Ok(())
}

// Appends the text before an entry. If it is empty or ASCII white space and `blank_lines` is a number, appends this number of
// blank lines instead.
pub(crate) fn push_gap(
    new: &mut String,
    line_end: &str,
    blank_lines: Option<usize>,
    gap: &str,
) -> Result<(), AllocError>
    ensures { OnOk result (string_bytes new.new ≡ string_bytes new.old ++ gap_in_style line_end.now blank_lines gap.now) }
{
    if let Some(count) = blank_lines {
        if is_blank(gap) {
            new.push_str(line_end)?;
            return push_line_ends(new, line_end, count);
        }
    }
    new.push_str(gap)?;
    Ok(())
}
