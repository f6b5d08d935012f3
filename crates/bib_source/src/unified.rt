//! The differences of two texts in the unified format.

ghost use Rattle.std.specs.Prelude.{◌≡◌, ◌++◌, codes, IfOk, OnOk, map};
ghost use Rattle.std.specs.List.{flat_map};
ghost use Rattle.std.specs.String.{string_bytes};
ghost use Rattle.bib_source.specs.Visible.{hunk_of};
ghost use Rattle.bib_source.specs.Unified.{IsDiff, extent, hunk_header, hunk_text, diff_line, line_after, unified_text};

use crate::comparison::{Line, merge_lines};
use crate::hunks::{Hunk, hunks, new_count, old_count};
use crate::lines::lines;
use std::alloc::{AllocError, Global};

// Appends `sign` and a line. If no line feed ends the line, also appends one and a line that reports this.
fn push_line_after(diff: &mut String, sign: &str, line: &str) -> Result<(), AllocError>
    ensures { OnOk result (string_bytes diff.new ≡ string_bytes diff.old ++ line_after sign.now line.now) }
{
    diff.push_str(sign)?;
    diff.push_str(line)?;
    if !line.ends_with("\n") {
        diff.push_str("\n\\ No newline at end of file\n")?;
    }
    Ok(())
}

// Appends a line after its sign: a space, `-` or `+`.
fn push_diff_line(diff: &mut String, line: &Line<'_>) -> Result<(), AllocError>
    ensures { OnOk result (string_bytes diff.new ≡ string_bytes diff.old ++ diff_line line.now) }
{
    match line {
        Line::Context(line) => push_line_after(diff, " ", line),
        Line::Removed(line) => push_line_after(diff, "-", line),
        Line::Added(line) => push_line_after(diff, "+", line),
    }
}

// Returns a line number and the number of lines. If there are no lines, the line number is that of the line before.
fn extent_text(alloc: Global, number: usize, count: usize) -> Result<String, AllocError>
    ensures { IfOk result (λ text. string_bytes text ≡ extent number count) }
{
    let number = if count == 0 {
        number.saturating_sub(1)
    } else {
        number
    };
    format!(in alloc; "{number},{count}")
}

// Appends the header line of a hunk.
fn push_header(alloc: Global, diff: &mut String, hunk: &Hunk<'_, '_>) -> Result<(), AllocError>
    ensures { OnOk result (string_bytes diff.new ≡ string_bytes diff.old ++ hunk_header (hunk_of hunk.now)) }
{
    let old = extent_text(alloc, hunk.old, old_count(hunk.lines))?;
    let new = extent_text(alloc, hunk.new, new_count(hunk.lines))?;
    diff.push_str("@@ -")?;
    diff.push_str(&old)?;
    diff.push_str(" +")?;
    diff.push_str(&new)?;
    diff.push_str(" @@\n")?;
    Ok(())
}

// Appends the header and the lines of a hunk.
fn push_hunk(alloc: Global, diff: &mut String, hunk: &Hunk<'_, '_>) -> Result<(), AllocError>
    ensures { OnOk result (string_bytes diff.new ≡ string_bytes diff.old ++ hunk_text (hunk_of hunk.now)) }
{
    push_header(alloc, diff, hunk)?;
    'lines: for line in hunk.lines {
        push_diff_line(diff, line)?;
    }
    Ok(())
}

// Appends the name of the file twice: for the old text and for the new one.
fn push_names(diff: &mut String, name: &str) -> Result<(), AllocError>
    ensures { OnOk result (string_bytes diff.new ≡ string_bytes diff.old ++
        (codes "--- " ++ (name.now ++ (codes "\n+++ " ++ (name.now ++ codes "\n"))))) }
{
    diff.push_str("--- ")?;
    diff.push_str(name)?;
    diff.push_str("\n+++ ")?;
    diff.push_str(name)?;
    diff.push_str("\n")?;
    Ok(())
}

// Returns the name of the file and the hunks, or an empty text if there are no hunks.
fn with_name(alloc: Global, name: &str, hunks: &[Hunk<'_, '_>]) -> Result<String, AllocError>
    ensures { IfOk result (λ diff. string_bytes diff ≡ unified_text name.now (map hunk_of hunks.now)) }
{
    let mut diff = String::new(alloc);
    if !hunks.is_empty() {
        push_names(&mut diff, name)?;
    }
    'hunks: for hunk in hunks {
        push_hunk(alloc, &mut diff, hunk)?;
    }
    Ok(diff)
}

/// Returns the differences from `old` to `new` in the unified format, which `diff -u` prints and `patch` reads.
///
/// Returns an empty text if `old` equals `new`. Otherwise returns two lines with the name of the file, and the hunks. The
/// hunks turn `old` into `new`. Each line of a hunk is at most three lines from a changed line of the hunk. No line of the common
/// start or of the common end of both texts is shown as changed. In each run of changed lines the removed lines are before the
/// added ones, and these neither begin nor end with the same line. The contract leaves open which other equal lines are paired.
///
/// Returns an error only if out of memory.
pub fn unified_diff(alloc: Global, name: &str, old: &str, new: &str) -> Result<String, AllocError>
    ensures { IfOk result (λ diff. IsDiff name.now old.now new.now (string_bytes diff)) }
{
    if old == new {
        return Ok(String::new(alloc));
    }
    let old = lines(alloc, old)?;
    let new = lines(alloc, new)?;
    let compared = merge_lines(alloc, &old, &new)?;
    with_name(alloc, name, &hunks(alloc, &compared)?)
}
