//! Two texts as one, with marker lines around the lines in which they differ.

ghost use Rattle.std.specs.Prelude.{◌≡◌, ◌++◌, ◌≤◌, ◌-◌, ℕ, IfOk, OnOk, List, drop, false, length, map, option_map, take};
ghost use Rattle.std.specs.String.{string_bytes};
ghost use Rattle.edit_entry_merge.specs.ConflictTexts as spec;
ghost use Rattle.edit_entry_merge.specs.ConflictTexts.{IsConflictText, IsMarkedText, begin_with_same, between_markers, end_alike, lines_as_text, marker_lines};
ghost use Rattle.edit_entry_merge.specs.Lines.{lent_lines};

use std::alloc::{AllocError, Global};

/// The marker lines of a conflict, without line ends.
#[derive(Debug, Clone, Copy)]
pub struct Markers<'m> {
    /// The line before our part.
    pub ours: &'m str,
    /// The line between the two parts.
    pub middle: &'m str,
    /// The line after their part.
    pub theirs: &'m str,
}

// Returns the lines of a text, the texts between its line feeds, or none if there is no text.
fn lines_of(alloc: Global, text: Option<&str>) -> Result<Vec<&str>, AllocError>
    ensures { IfOk result (λ lines. lent_lines lines.items ≡ spec.optional_lines (option_map (λ t. t.now) text.entry)) }
{
    match text {
        Some(text) => text.split('\n').collect(alloc),
        None => Ok(Vec::new(alloc)),
    }
}

// Returns the number of lines that two lists share at their start.
fn shared_start(one: &[&str], other: &[&str]) -> usize
    ensures one { result ≤ length one.now }
    ensures other { result ≤ length other.now }
    ensures same { take result (lent_lines one.now) ≡ take result (lent_lines other.now) }
    ensures longest { begin_with_same (drop result (lent_lines one.now)) (drop result (lent_lines other.now)) ≡ false }
{
    let most = one.len().min(other.len());
    'lines: for index in 0..most {
        let line = one[index];
        let found = other[index];
        if line != found {
            return index;
        }
    }
    most
}

// Returns the number of lines that two lists share at their end.
fn shared_end(one: &[&str], other: &[&str]) -> usize
    ensures one { result ≤ length one.now }
    ensures other { result ≤ length other.now }
    ensures same { drop (length one.now - result) (lent_lines one.now) ≡ drop (length other.now - result) (lent_lines other.now) }
    ensures longest { end_alike (take (length one.now - result) (lent_lines one.now)) (take (length other.now - result) (lent_lines other.now))
        ≡ false }
{
    let most = one.len().min(other.len());
    'lines: for count in 0..most {
        let line = one[one.len() - 1 - count];
        let found = other[other.len() - 1 - count];
        if line != found {
            return count;
        }
    }
    most
}

// Appends lines.
fn push_lines<'l>(lines: &mut Vec<&'l str>, more: &[&'l str]) -> Result<(), AllocError>
    ensures { OnOk result (lent_lines lines.new.items ≡ lent_lines lines.old.items ++ lent_lines more.now) }
{
    'more: for line in more {
        lines.push(*line)?;
    }
    Ok(())
}

// Appends the lines in which two texts differ, between marker lines.
fn push_marked<'l>(
    lines: &mut Vec<&'l str>,
    markers: Markers<'l>,
    ours: &[&'l str],
    theirs: &[&'l str],
) -> Result<(), AllocError>
    ensures { OnOk result (lent_lines lines.new.items ≡ lent_lines lines.old.items
        ++ between_markers (marker_lines markers.entry) (lent_lines ours.now) (lent_lines theirs.now)) }
{
    if ours.is_empty() && theirs.is_empty() {
        return Ok(());
    }
    lines.push(markers.ours)?;
    push_lines(lines, ours)?;
    lines.push(markers.middle)?;
    push_lines(lines, theirs)?;
    lines.push(markers.theirs)?;
    Ok(())
}

// Returns lines with a line feed between each two of them.
fn joined_lines(alloc: Global, lines: &[&str]) -> Result<String, AllocError>
    ensures { IfOk result (λ text. string_bytes text ≡ lines_as_text (lent_lines lines.now)) }
{
    let mut text = String::new(alloc);
    'lines: for (index, line) in lines.iter().enumerate() {
        if index != 0 {
            text.push_str("\n")?;
        }
        text.push_str(line)?;
    }
    Ok(text)
}

// Returns the text of two lists of lines, with marker lines around those in which they differ.
fn marked_text(
    alloc: Global,
    markers: Markers<'_>,
    ours: &[&str],
    theirs: &[&str],
) -> Result<String, AllocError>
    ensures { IfOk result (λ text. IsMarkedText (marker_lines markers.entry) (lent_lines ours.now) (lent_lines theirs.now) (string_bytes text)) }
{
    let start = shared_start(ours, theirs);
    let our_rest = &ours[start..];
    let their_rest = &theirs[start..];
    let end = shared_end(our_rest, their_rest);
    let our_end = our_rest.len() - end;
    let mut lines = Vec::new(alloc);
    push_lines(&mut lines, &ours[..start])?;
    push_marked(
        &mut lines,
        markers,
        &our_rest[..our_end],
        &their_rest[..their_rest.len() - end],
    )?;
    push_lines(&mut lines, &our_rest[our_end..])?;
    joined_lines(alloc, &lines)
}

/// Returns two texts as one, with marker lines around the lines in which they differ. Lines are separated by line feeds. The lines that both
/// texts have at their start and at their end occur once, outside of the markers. Each text is the result without the markers and the other
/// text's part. If the texts are equal, there are no markers. If a text is absent, its part is empty. Returns an error only if out of
/// memory.
pub fn conflict_text(
    alloc: Global,
    markers: Markers<'_>,
    ours: Option<&str>,
    theirs: Option<&str>,
) -> Result<String, AllocError>
    ensures meaning { IfOk result (λ text. IsConflictText (marker_lines markers.entry)
        (option_map (λ t. t.now) ours.entry) (option_map (λ t. t.now) theirs.entry) (string_bytes text)) }
    ensures text { IfOk result (λ text. string_bytes text ≡ spec.conflict_text (marker_lines markers.entry)
        (option_map (λ t. t.now) ours.entry) (option_map (λ t. t.now) theirs.entry)) }
{
    let our_lines = lines_of(alloc, ours)?;
    let their_lines = lines_of(alloc, theirs)?;
    marked_text(alloc, markers, &our_lines, &their_lines)
}
