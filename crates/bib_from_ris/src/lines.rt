//! Parses the lines of a text of RIS.

ghost use Rattle.std.specs.Prelude.{◌≡◌, ◌==◌, ◌++◌, map, IfOk, OnOk};
ghost use Rattle.std.specs.List.{list_any, slice_split};
ghost use Rattle.bib_text.specs.Characters as char;
ghost use Rattle.bib_from_ris.specs.Lines as spec;

use crate::cuts::at_hyphen;
use bib_text::items::Items;
use bib_text::text::Text;
use std::alloc::{AllocError, Global};

/// A line with its tag, and the lines without a tag that continue it.
#[derive(Debug, Drop)]
pub struct RisLine {
    /// The tag; empty for the text before the first tag.
    pub tag: Text,
    /// The text after the tag.
    pub value: Text,
}

// Returns a text without the byte order mark U+FEFF at its start.
#[tactic(auto, unfolding(crate::specs::Lines::text_after_mark))]
fn without_mark(text: &str) -> &str
    ensures { result.now ≡ spec.text_after_mark text.now }
{
    text.strip_prefix("\u{feff}").unwrap_or(text)
}

// Returns the parts of a text between line feeds.
fn between_feeds(alloc: Global, text: &str) -> Result<Vec<&str>, AllocError>
    ensures { IfOk result (λ parts. map (λ part. part.now) parts.items ≡ slice_split (λ b. b == char.line_feed) text.now) }
{
    text.split('\n').collect(alloc)
}

// Returns the parts of a text between carriage returns.
fn between_returns(alloc: Global, text: &str) -> Result<Vec<&str>, AllocError>
    ensures { IfOk result (λ parts. map (λ part. part.now) parts.items ≡ slice_split (λ b. b == char.carriage_return) text.now) }
{
    text.split('\r').collect(alloc)
}

// Returns whether a text contains a hyphen.
fn has_hyphen(text: &str) -> bool
    ensures { result ≡ list_any (λ b. b == char.hyphen) text.now }
{
    text.as_bytes().iter().any(|b| *b == b'-')
}

// Returns whether a text is a tag and two spaces.
fn is_spaced_tag(text: &[u8]) -> bool
    ensures { result ≡ spec.is_spaced_tag text.now }
{
    match text {
        [a, b, b' ', b' '] => {
            a.is_ascii_uppercase() && (b.is_ascii_uppercase() || b.is_ascii_digit())
        }
        _ => false,
    }
}

// Returns whether a text is empty or begins with a space.
fn begins_value(text: &[u8]) -> bool
    ensures { result ≡ spec.begins_value text.now }
{
    match text {
        [] => true,
        [first, ..] => *first == b' ',
    }
}

// Returns whether a line has a tag: two characters, two spaces and a hyphen, and then a space or nothing.
#[tactic(auto, unfolding(crate::specs::Lines::has_tag))]
fn has_tag(line: &str) -> bool
    ensures { result ≡ spec.has_tag line.now }
{
    let (tag, value) = at_hyphen(line);
    has_hyphen(line) && is_spaced_tag(tag.as_bytes()) && begins_value(value.as_bytes())
}

// Returns a line that has a tag.
#[tactic(auto, unfolding(crate::specs::Lines::tagged_line))]
fn tagged_line(alloc: Global, line: &str) -> Result<RisLine, AllocError>
    ensures { IfOk result (λ found. found ≡ spec.tagged_line line.now) }
{
    let (tag, value) = at_hyphen(line);
    Ok(RisLine {
        tag: Text::from_str(alloc, tag.trim())?,
        value: Text::from_str(alloc, value.trim())?,
    })
}

// Appends the text that continues a value, after a space unless one of them is empty.
#[tactic(auto, unfolding(crate::specs::Lines::joined_value))]
fn push_continued(value: &mut Text, more: &str) -> Result<(), AllocError>
    ensures { OnOk result (value.new ≡ spec.joined_value value.old more.now) }
{
    if more.is_empty() {
        return Ok(());
    }
    if !value.is_empty() {
        value.push_str(" ")?;
    }
    value.push_str(more)
}

// Appends the parts of a text between carriage returns.
fn push_between_returns<'t>(
    alloc: Global,
    lines: &mut Vec<&'t str>,
    text: &'t str,
) -> Result<(), AllocError>
    ensures { OnOk result (map (λ line. line.now) lines.new.items
        ≡ map (λ line. line.now) lines.old.items ++ slice_split (λ b. b == char.carriage_return) text.now) }
{
    let parts = between_returns(alloc, text)?;
    'parts: for part in &parts {
        lines.push(*part)?;
    }
    Ok(())
}

// Returns the lines of a text. A line feed, a carriage return, or both end a line; between the two is an empty line.
fn text_lines(alloc: Global, text: &str) -> Result<Vec<&str>, AllocError>
    ensures { IfOk result (λ lines. map (λ line. line.now) lines.items ≡ spec.text_lines text.now) }
{
    let parts = between_feeds(alloc, text)?;
    let mut lines = Vec::new(alloc);
    'parts: for part in &parts {
        push_between_returns(alloc, &mut lines, *part)?;
    }
    Ok(lines)
}

// Returns the lines of a text with their tags. A line without a tag continues the line before it.
fn joined_lines(alloc: Global, lines: &[&str]) -> Result<Items<RisLine>, AllocError>
    ensures { IfOk result (λ found. found ≡ spec.lines_after spec.no_line (map (λ line. line.now) lines.now)) }
{
    let mut found = Items::new(alloc);
    let mut tag = Text::new(alloc);
    let mut value = Text::new(alloc);
    'lines: for line in lines {
        if has_tag(line) {
            found.push(RisLine { tag, value })?;
            let next = tagged_line(alloc, line)?;
            tag = next.tag;
            value = next.value;
        } else {
            push_continued(&mut value, line.trim())?;
        }
    }
    found.push(RisLine { tag, value })?;
    Ok(found)
}

/// Returns the lines of a text with their tags. The first has no tag; its value is the text before the first tag.
#[tactic(auto, unfolding(crate::specs::Lines::lines_of_ris))]
pub(crate) fn ris_lines(alloc: Global, text: &str) -> Result<Items<RisLine>, AllocError>
    ensures { IfOk result (λ lines. lines ≡ spec.lines_of_ris text.now) }
{
    let lines = text_lines(alloc, without_mark(text))?;
    joined_lines(alloc, &lines)
}
