//! The text outside braces.

ghost use Rattle.std.specs.Prelude.{◌≡◌, ◌==◌, ◌++◌, ◌<◌, ◌^◌, ◌-◌, ◌≤◌, ◌+◌, [], if◌then◌else◌, encode_utf8_all, IfOk, OnOk};
ghost use Rattle.std.specs.String.{string_bytes};
ghost use Rattle.bib_findings.specs.Outside as spec;

use std::alloc::{AllocError, Global};

/// Returns the number of open braces after a character, if `depth` are open before it.
pub(crate) fn open_braces_after(depth: usize, c: char) -> usize
    requires { depth < 2 ^ 64 - 1 }
    ensures value { result ≡ spec.open_braces_after depth c }
    ensures small { result ≤ depth + 1 }
{
    match c {
        '{' => depth + 1,
        '}' => depth.saturating_sub(1),
        _ => depth,
    }
}

// Appends a character outside braces as it is shown: an `x` for an opening brace, and nothing for a closing one.
fn push_shown(outside: &mut String, c: char) -> Result<(), AllocError>
    ensures { OnOk result (string_bytes outside.new ≡ string_bytes outside.old ++ encode_utf8_all (spec.shown c)) }
{
    match c {
        '{' => outside.push('x'),
        '}' => Ok(()),
        _ => outside.push(c),
    }
}

// Appends a character as it is shown if no brace is open before it.
fn push_at_depth(outside: &mut String, depth: usize, c: char) -> Result<(), AllocError>
    ensures { OnOk result (string_bytes outside.new ≡ string_bytes outside.old
        ++ encode_utf8_all (if depth == 0 then spec.shown c else [])) }
{
    if depth != 0 {
        return Ok(());
    }
    push_shown(outside, c)
}

/// Returns a text in which an `x` replaces each pair of braces with its contents. If a brace is never closed, an `x` replaces the rest of
/// the text. A closing brace without an opening one is removed. A brace after a backslash counts, as in BibTeX.
pub(crate) fn outside_braces(alloc: Global, text: &str) -> Result<String, AllocError>
    ensures { IfOk result (λ outside. string_bytes outside ≡ spec.outside_braces text.now) }
{
    let mut outside = String::with_capacity(alloc, text.len())?;
    let mut depth = 0usize;
    'characters: for c in text.chars() {
        push_at_depth(&mut outside, depth, c)?;
        depth = open_braces_after(depth, c);
    }
    Ok(outside)
}
