//! Writes the text of units of contents.

ghost use Rattle.std.specs.Prelude.{◌≡◌, ◌∷◌, [], ◌++◌, OnOk, Some, true, if◌then◌else◌};
ghost use Rattle.std.specs.Str.{chars};
ghost use Rattle.bib_chunks.specs.Formatted as formatted;
ghost use Rattle.bib_chunks.specs.Writing.{Writes};
ghost use Rattle.bib_contents.specs.Arguments.{flat_if, unit_written};
ghost use Rattle.bib_contents.specs.Commands.{command_text};
ghost use Rattle.bib_contents.specs.Contents.{dashes};
ghost use Rattle.bib_contents.specs.UnitViews.{text_unit_of};
ghost use Rattle.bib_text.specs.Characters as char;

use crate::commands::{write_alone, write_command};
use crate::units::{Argument, TextUnit};
use bib_chunks::chunk::{Chunk, Spanned, format_verbatim};
use bib_text::text::Text;
use std::alloc::{AllocError, Global};

// Writes `count` hyphens as dashes: an em dash for each three, then an en dash for two or a hyphen for one.
pub(crate) fn write_dashes(text: &mut String, count: usize) -> Result<(), AllocError>
    ensures { OnOk result (Writes text.old text.new (dashes count)) }
{
    'threes: for _ in 0..count / 3 {
        text.push('—')?;
    }
    match count % 3 {
        2 => text.push('–')?,
        1 => text.push('-')?,
        _ => {}
    }
    Ok(())
}

// Writes the text of a command with this character as its argument.
fn write_single(text: &mut String, name: &str, c: char) -> Result<(), AllocError>
    ensures { OnOk result (Writes text.old text.new (command_text (chars name.now) (Some (c ∷ [])))) }
{
    let mut room = [0u8; 4];
    write_command(text, name, c.encode_utf8(&mut room))
}

// Returns whether the character is a line feed or a carriage return.
fn is_break(c: char) -> bool
    ensures { result ≡ formatted.is_break c }
{
    matches!(c, '\n' | '\r')
}

// Returns the character that is written after a kept backslash: on one line a line break becomes a space.
fn flat_character(c: char, is_flat: bool) -> char
    ensures { result ≡ (if is_flat then (if formatted.is_break c then char.space else c) else c) }
{
    if is_flat && is_break(c) {
        return ' ';
    }
    c
}

// Writes the text of a unit. `is_flat` says whether it is put on one line.
pub(crate) fn write_unit(
    text: &mut String,
    unit: TextUnit<'_>,
    is_flat: bool,
) -> Result<(), AllocError>
    ensures { OnOk result (Writes text.old text.new (unit_written is_flat (text_unit_of unit.entry))) }
{
    match unit {
        TextUnit::Hyphens(count) => write_dashes(text, count)?,
        TextUnit::Spaces(_) => text.push(' ')?,
        TextUnit::Escaped(c) => text.push(c)?,
        TextUnit::Backslash => text.push('\\')?,
        TextUnit::Copied(c) => {
            text.push('\\')?;
            text.push(flat_character(c, is_flat))?;
        }
        TextUnit::Command(name, _, argument) => match argument {
            Argument::Without => write_alone(text, name)?,
            Argument::Empty => write_command(text, name, "")?,
            Argument::Single(c) => write_single(text, name, c)?,
        },
        TextUnit::Other(c) => text.push(c)?,
    }
    Ok(())
}

// Writes a text on one line.
fn write_flat(text: &mut String, alloc: Global, part: &str) -> Result<(), AllocError>
    ensures { OnOk result (Writes text.old text.new (flat_if true (chars part.now))) }
{
    let chunk = Chunk::Normal(Text::from_str(alloc, part)?);
    let chunks = [Spanned::new(chunk, 0..0)];
    let flat = format_verbatim(alloc, &chunks)?;
    text.push_str(flat.as_str())?;
    Ok(())
}

// Writes a text, on one line if `is_flat`, otherwise unchanged.
fn write_flat_if(
    text: &mut String,
    alloc: Global,
    part: &str,
    is_flat: bool,
) -> Result<(), AllocError>
    ensures { OnOk result (Writes text.old text.new (flat_if is_flat (chars part.now))) }
{
    if is_flat {
        return write_flat(text, alloc, part);
    }
    text.push_str(part)?;
    Ok(())
}

// Writes math in an argument between dollar signs, on one line if `is_flat`, otherwise unchanged.
pub(crate) fn write_math(
    text: &mut String,
    alloc: Global,
    math: &str,
    is_flat: bool,
) -> Result<(), AllocError>
    ensures { OnOk result (Writes text.old text.new
        (char.dollar ∷ (flat_if is_flat (chars math.now) ++ char.dollar ∷ []))) }
{
    text.push('$')?;
    write_flat_if(text, alloc, math, is_flat)?;
    text.push('$')?;
    Ok(())
}
