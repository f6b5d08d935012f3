//! The layout of a whole file.

ghost use Rattle.std.specs.Prelude.{◌≡◌, ◌⊎◌, IfErr, IfOk, None, map};
ghost use Rattle.std.specs.String.{string_bytes};
ghost use Rattle.bib_syntax.specs.Errors.{Refuses, out_of_memory};
ghost use Rattle.bib_syntax.specs.Grammar.{IsFile};
ghost use Rattle.bib_syntax.specs.SyntaxErrors.{IsReported};
ghost use Rattle.bib_syntax.specs.Views.{entry_reading_of};
ghost use Rattle.edit_entries.specs.Cuts.{AreEntriesCut};
ghost use Rattle.edit_format.specs.Formatted as styled;
ghost use Rattle.edit_format.specs.Formatted.{IsReadAlike, IsTextInStyle, line_end_of, says_in_order, text_in_style};

use crate::entries::push_entry;
use crate::gaps::push_gap;
use crate::layout::Layout;
use crate::style::Style;
use bib_syntax::raw::{EntryReader, ParseError, RawEntry};
use bib_text::spanned::Spanned;
use edit_entries::document::RawDocument;
use edit_entries::line_ends::line_end;
use std::alloc::{AllocError, Global};

// Returns the text with its entries in the layout of the style, and the text between them copied or replaced by blank lines.
fn with_entries(
    alloc: Global,
    layout: &Layout<'_, '_>,
    entries: &[Spanned<RawEntry<'_>>],
) -> Result<String, AllocError>
    requires { AreEntriesCut layout.now.text.now 0 (map entry_reading_of entries.now) }
    ensures { IfOk result (λ new. string_bytes new ≡
        styled.rest_in_style layout.now.line_end.now layout.now.style None layout.now.text.now 0 (map entry_reading_of entries.now)) }
{
    let mut new = String::new(alloc);
    let mut at = 0usize;
    let mut blank_lines = None;
    'entries: for entry in entries {
        push_gap(
            &mut new,
            layout.line_end,
            blank_lines,
            &layout.text[at..entry.span.start],
        )?;
        push_entry(alloc, &mut new, layout, entry)?;
        at = entry.span.end + 1;
        blank_lines = layout.style.blank_lines;
    }
    new.push_str(&layout.text[at..])?;
    Ok(new)
}

/// Returns the text of `document` in one style. Each entry gets a new layout:
///
/// ```text
/// @book{key,
///   author = {A} # b,
///   title = "T",
/// }
/// ```
///
/// The entry type and the names of fields are converted to ASCII lowercase, and the pieces of values are copied. The style may
/// also change the delimiters of literals, break long values into one line for each piece, and order the fields. An entry is
/// copied unchanged if it contains a `%` between its key, its fields and its closing brace. So is an entry with a literal whose
/// braces aren't balanced, counted without escapes as BibTeX counts them. If at most ASCII white space is between two entries,
/// the style may replace it by blank lines. Everything else is unchanged, byte for byte. New line ends are CR LF if the first line
/// of the text ends so, and LF otherwise. Returns an error only if memory runs out.
pub fn format(
    alloc: Global,
    document: &RawDocument<'_>,
    style: &Style<'_>,
) -> Result<String, AllocError>
    ensures text { IfOk result (λ new. string_bytes new ≡ text_in_style style.now document.now.text document.now.says) }
    ensures read { IfOk result (λ new. IsReadAlike (says_in_order style.now document.now.text document.now.says) (string_bytes new)) }
{
    let text = document.text();
    let layout = Layout {
        text,
        line_end: line_end(text),
        style: *style,
    };
    with_entries(alloc, &layout, &document.raw().entries)
}

/// Returns `text` in one style, as `format` returns the text of its document. Parses entry by entry, so memory holds one entry beside the
/// two texts. Fails like `RawDocument::parse`, or if out of memory.
pub fn format_text(alloc: Global, text: &str, style: &Style<'_>) -> Result<String, ParseError>
    ensures made { IfOk result (λ new. IsTextInStyle style.now text.now (string_bytes new)) }
    ensures refused { IfErr result (λ e. Refuses text.now e (IsFile text.now → ⊥)) }
    ensures reported { IfErr result (λ e. (e ≡ out_of_memory) ⊎ IsReported text.now e) }
{
    let layout = Layout {
        text,
        line_end: line_end(text),
        style: *style,
    };
    let mut entries = EntryReader::new(text);
    let mut new = String::new(alloc);
    let mut at = 0usize;
    let mut blank_lines: Option<usize> = None;
    'entries: while let Some(entry) = entries.next_entry(alloc)? {
        push_gap(
            &mut new,
            layout.line_end,
            blank_lines,
            &text[at..entry.span.start],
        )?;
        push_entry(alloc, &mut new, &layout, &entry)?;
        at = entries.cursor();
        blank_lines = style.blank_lines;
    }
    new.push_str(&text[at..])?;
    Ok(new)
}
