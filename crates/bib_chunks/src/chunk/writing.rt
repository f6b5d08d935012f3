//! Writes values as they are written in a file.

ghost use Rattle.std.specs.Prelude.{◌≡◌, ◌∷◌, [], ◌++◌, false, OnOk, IfOk, string_bytes, encode_utf8_all};
ghost use Rattle.std.specs.Str.{chars};
ghost use Rattle.bib_chunks.specs.Written.{is_grouping, is_reserved, char_spelling, spelling, lead, trail, is_open_after, written_chunk, written_chunks, written_value};
ghost use Rattle.bib_chunks.specs.Writing.{Writes, is_bare};
ghost use Rattle.bib_text.specs.Characters as char;

use super::{Chunk, ChunksRef};
use bib_text::scanner::Scanner;
use std::alloc::{AllocError, Global};

// Returns whether the character is escaped by a backslash in every field.
#[tactic(auto, unfolding(crate::specs::Written::is_grouping))]
fn is_grouping(c: char) -> bool
    ensures { result ≡ is_grouping c }
{
    matches!(c, '{' | '}' | '\\')
}

// Returns whether the character is escaped by a backslash only outside verbatim fields.
#[tactic(auto, unfolding(crate::specs::Written::is_reserved))]
fn is_reserved(c: char) -> bool
    ensures { result ≡ is_reserved c }
{
    matches!(c, '#' | '&' | '%' | '$' | '_')
}

// Returns whether the character is written without an escape.
#[tactic(auto, unfolding(crate::specs::Writing::is_bare, crate::specs::Written::is_grouping, crate::specs::Written::is_reserved))]
fn is_bare(is_verbatim: bool, c: char) -> bool
    ensures { result ≡ is_bare is_verbatim c }
{
    if c.is_ascii_lowercase() {
        return true;
    }
    if is_grouping(c) {
        return false;
    }
    if is_verbatim {
        return true;
    }
    !is_reserved(c) && c != '~' && c != '^'
}

// Writes a backslash and a character.
fn write_hidden(out: &mut String, c: char) -> Result<(), AllocError>
    ensures { OnOk result (Writes out.old out.new (char.backslash ∷ c ∷ [])) }
{
    out.push('\\')?;
    out.push(c)?;
    Ok(())
}

// Writes one character, escaped if needed.
fn write_char(out: &mut String, is_verbatim: bool, c: char) -> Result<(), AllocError>
    ensures { OnOk result (Writes out.old out.new (char_spelling is_verbatim c)) }
{
    if is_grouping(c) {
        return write_hidden(out, c);
    }
    if is_verbatim {
        out.push(c)?;
        return Ok(());
    }
    if is_reserved(c) {
        return write_hidden(out, c);
    }
    if c == '~' {
        out.push_str("\\textasciitilde{}")?;
        return Ok(());
    }
    if c == '^' {
        out.push_str("\\textasciicircum{}")?;
        return Ok(());
    }
    out.push(c)?;
    Ok(())
}

// Writes a text, escaped character by character.
fn write_text(out: &mut String, is_verbatim: bool, text: &str) -> Result<(), AllocError>
    ensures { OnOk result (Writes out.old out.new (spelling is_verbatim (chars text.now))) }
{
    let mut scanner = Scanner::new(text);
    'text: loop {
        out.push_str(scanner.eat_while(|c| is_bare(is_verbatim, c)))?;
        let Some(c) = scanner.eat() else {
            return Ok(());
        };
        write_char(out, is_verbatim, c)?;
    }
}

// Returns the text directly before a chunk. `is_open` says whether the braces around verbatim chunks are open. Normal text closes
// them, and verbatim text opens them. Before math it is a dollar sign.
fn lead(chunk: &Chunk, is_open: bool) -> &'static str
    ensures { result.now ≡ lead is_open chunk.now }
{
    match chunk {
        Chunk::Normal(_) => {
            if is_open {
                return "}";
            }
            ""
        }
        Chunk::Verbatim(_) => {
            if is_open {
                return "";
            }
            "{"
        }
        Chunk::Math(_) => "$",
    }
}

// Returns the text directly after a chunk: a dollar sign after math, and nothing after other chunks.
fn trail(chunk: &Chunk) -> &'static str
    ensures { result.now ≡ trail chunk.now }
{
    match chunk {
        Chunk::Normal(_) | Chunk::Verbatim(_) => "",
        Chunk::Math(_) => "$",
    }
}

// Returns whether the braces around verbatim chunks are open after a chunk.
fn is_open_after(chunk: &Chunk, is_open: bool) -> bool
    ensures { result ≡ is_open_after is_open chunk.now }
{
    match chunk {
        Chunk::Normal(_) => false,
        Chunk::Verbatim(_) => true,
        Chunk::Math(_) => is_open,
    }
}

// Writes a chunk without braces and dollar signs around it.
fn write_chunk(out: &mut String, chunk: &Chunk, is_verbatim: bool) -> Result<(), AllocError>
    ensures { OnOk result (Writes out.old out.new (written_chunk chunk.now is_verbatim)) }
{
    match chunk {
        Chunk::Normal(text) => write_text(out, is_verbatim, text.as_str()),
        Chunk::Verbatim(text) => write_text(out, is_verbatim, text.as_str()),
        Chunk::Math(text) => {
            if is_verbatim {
                return write_text(out, true, text.as_str());
            }
            out.push_str(text.as_str())?;
            Ok(())
        }
    }
}

// Writes a chunk of a value, with the brace before it or the dollar signs around it, if any.
fn write_part(
    out: &mut String,
    chunk: &Chunk,
    is_open: bool,
    is_verbatim: bool,
) -> Result<(), AllocError>
    ensures { OnOk result (Writes out.old out.new
        (lead is_open chunk.now ++ written_chunk chunk.now is_verbatim ++ trail chunk.now)) }
{
    out.push_str(lead(chunk, is_open))?;
    write_chunk(out, chunk, is_verbatim)?;
    out.push_str(trail(chunk))?;
    Ok(())
}

// Writes the chunks of a value, without the braces around the value.
fn write_parts(out: &mut String, chunks: ChunksRef<'_>, is_verbatim: bool) -> Result<(), AllocError>
    ensures { OnOk result (Writes out.old out.new (written_chunks is_verbatim false chunks.now)) }
{
    let mut is_open = false;
    'parts: for chunk in chunks {
        write_part(out, &chunk.v, is_open, is_verbatim)?;
        is_open = is_open_after(&chunk.v, is_open);
    }
    if is_open {
        out.push('}')?;
    }
    Ok(())
}

// Returns the written text of a chunk, without braces and dollar signs around it.
pub(super) fn chunk_text(
    alloc: Global,
    chunk: &Chunk,
    is_verbatim: bool,
) -> Result<String, AllocError>
    ensures { IfOk result (λ text. string_bytes text ≡
        encode_utf8_all (written_chunk chunk.now is_verbatim)) }
{
    let mut out = String::new(alloc);
    write_chunk(&mut out, chunk, is_verbatim)?;
    Ok(out)
}

/// Appends a value to `out` as it is written in a file, in braces. `is_verbatim` says whether the field is a verbatim one.
///
/// The only error is out of memory. `out` may then end with a part of the value.
pub fn write_value(
    out: &mut String,
    chunks: ChunksRef<'_>,
    is_verbatim: bool,
) -> Result<(), AllocError>
    ensures { OnOk result (string_bytes out.new ≡ string_bytes out.old ++
        encode_utf8_all (written_value chunks.now is_verbatim)) }
{
    out.push('{')?;
    write_parts(out, chunks, is_verbatim)?;
    out.push('}')?;
    Ok(())
}

/// Returns a value as it is written in a file, in braces. `is_verbatim` says whether the field is a verbatim one.
///
/// The only error is out of memory.
pub fn value_text(
    alloc: Global,
    chunks: ChunksRef<'_>,
    is_verbatim: bool,
) -> Result<String, AllocError>
    ensures { IfOk result (λ text. string_bytes text ≡
        encode_utf8_all (written_value chunks.now is_verbatim)) }
{
    let mut out = String::new(alloc);
    write_value(&mut out, chunks, is_verbatim)?;
    Ok(out)
}
