//! Texts without the names of LaTeX commands.

ghost use Rattle.std.specs.Prelude.{◌≡◌, ◌++◌, ◌∷◌, [], IfOk, OnOk, string_bytes};
ghost use Rattle.std.specs.Char.{is_ascii_uppercase};
ghost use Rattle.std.specs.List.{list_any};
ghost use Rattle.bib_keys.specs.Commands as spec;

use bib_chunks::chunk::{Chunk, ChunksRef, Spanned, format_verbatim};
use std::alloc::{AllocError, Global};

// Returns whether an argument other than `{}` follows the name of a command. `rest` is the text after the name.
fn has_argument(rest: &str) -> bool
    ensures { result ≡ spec.has_argument rest.now }
{
    rest.starts_with("{") && !rest.starts_with("{}")
}

// Returns whether a text has an ASCII capital.
fn has_capital(text: &str) -> bool
    ensures { result ≡ list_any is_ascii_uppercase text.now }
{
    text.as_bytes().iter().any(|byte| byte.is_ascii_uppercase())
}

// Returns whether the name of a command counts as text. `rest` is the text after the name.
fn is_name_shown(is_math: bool, name: &str, rest: &str) -> bool
    ensures { result ≡ spec.is_name_shown is_math name.now rest.now }
{
    (is_math || has_capital(name)) && !has_argument(rest)
}

// Returns a text without the space at its start, if there is one.
fn without_space(text: &str) -> &str
    ensures { result.now ≡ spec.without_space text.now }
{
    match text.strip_prefix(' ') {
        Some(rest) => rest,
        None => text,
    }
}

// Returns the text after the name of a command, without the space that ends the name.
fn after_name<'a>(name: &str, rest: &'a str) -> &'a str
    ensures { result.now ≡ spec.after_name name.now rest.now }
{
    if name.is_empty() {
        return rest;
    }
    without_space(rest)
}

// Returns the number of ASCII letters with which bytes begin.
fn name_len(bytes: &[u8]) -> usize
    ensures { result ≡ spec.name_len bytes.now }
{
    bytes
        .iter()
        .position(|byte| !byte.is_ascii_alphabetic())
        .unwrap_or(bytes.len())
}

// Appends a name if it counts as text, and the text that follows it, without the space that ends the name.
fn push_command(out: &mut String, is_math: bool, name: &str, rest: &str) -> Result<(), AllocError>
    ensures { OnOk result (string_bytes out.new ≡ string_bytes out.old ++ spec.shown_command is_math name.now rest.now) }
{
    if is_name_shown(is_math, name, rest) {
        out.push_str(name)?;
    }
    out.push_str(after_name(name, rest))
}

// Appends a text that follows a backslash, without the space that ends the name at its start, and without the name unless it counts as
// text.
fn push_without_name(out: &mut String, is_math: bool, command: &str) -> Result<(), AllocError>
    ensures { OnOk result (string_bytes out.new ≡ string_bytes out.old ++ spec.without_name is_math command.now) }
{
    let (name, rest) = command.split_at(name_len(command.as_bytes()));
    push_command(out, is_math, name, rest)
}

// Returns a text without its backslashes, without the names of commands that don't count as text, and without the spaces that end names.
pub(crate) fn without_names(alloc: Global, is_math: bool, text: &str) -> Result<String, AllocError>
    ensures { IfOk result (λ out. string_bytes out ≡ spec.without_names is_math text.now) }
{
    let Some((before, commands)) = text.split_once('\\') else {
        return String::from_str(alloc, text);
    };
    let mut out = String::from_str(alloc, before)?;
    'commands: for command in commands.split('\\') {
        push_without_name(&mut out, is_math, command)?;
    }
    Ok(out)
}

// Returns the formatted text of a chunk without the names of commands that don't count as text.
fn chunk_text(alloc: Global, chunk: &Spanned<Chunk>) -> Result<String, AllocError>
    ensures { IfOk result (λ text. string_bytes text ≡ spec.chunk_text chunk.now) }
{
    let is_math = matches!(&chunk.v, Chunk::Math(_));
    let text = format_verbatim(alloc, std::slice::from_ref(chunk))?;
    without_names(alloc, is_math, text.as_str())
}

// Returns the formatted texts of chunks, one after another, without the names of commands that don't count as text.
pub(crate) fn text_in_key(alloc: Global, chunks: ChunksRef<'_>) -> Result<String, AllocError>
    ensures { IfOk result (λ text. string_bytes text ≡ spec.text_in_key chunks.now) }
{
    let mut out = String::new(alloc);
    'chunks: for chunk in chunks {
        let text = chunk_text(alloc, chunk)?;
        out.push_str(text.as_str())?;
    }
    Ok(out)
}
