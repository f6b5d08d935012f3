//! The lines of a text.

ghost use Rattle.std.specs.Prelude.{◌≡◌, IfOk, map};
ghost use Rattle.bib_source.specs.Lines.{lines_of};

use std::alloc::{AllocError, Global};

// Cuts a text into lines, each with the line feed that ends it. The last line may have none.
pub(crate) fn lines<'t>(alloc: Global, text: &'t str) -> Result<Vec<&'t str>, AllocError>
    ensures { IfOk result (λ lines. map (λ line. line.now) lines.items ≡ lines_of text.now) }
{
    let mut lines = Vec::new(alloc);
    let mut start = 0usize;
    'bytes: for (index, byte) in text.as_bytes().iter().enumerate() {
        if *byte == b'\n' {
            lines.push(&text[start..index + 1])?;
            start = index + 1;
        }
    }
    if start < text.len() {
        lines.push(&text[start..])?;
    }
    Ok(lines)
}
