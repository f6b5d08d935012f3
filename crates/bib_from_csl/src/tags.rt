//! Texts with HTML tags, written in LaTeX.
//!
//! Each tag begins with a less-than sign, so the text is split there, and a piece may begin with the rest of a tag. The open tags are
//! kept. Each of the closing tags `</i>`, `</b>`, `</sup>`, `</sub>` and `</span>` closes the innermost open tag, whatever its name.

ghost use Rattle.std.specs.Prelude.{◌≡◌, ◌==◌, ◌++◌, length, OnOk, IfOk, string_bytes};
ghost use Rattle.std.specs.Option.{option_map};
ghost use Rattle.std.specs.Str.{chars};
ghost use Rattle.bib_from_csl.specs.Tags as spec;

use bib_chunks::chunk::Chunk;
use bib_text::items::Items;
use bib_text::text::Text;
use std::alloc::{AllocError, Global};

// An opening tag that is written as a LaTeX command, or as braces.
#[derive(Debug, Clone, Copy, PartialEq, Eq)]
pub enum Tag {
    // Italic.
    Italic,
    // Bold.
    Bold,
    // Superscript.
    Superscript,
    // Subscript.
    Subscript,
    // Small capitals.
    SmallCapitals,
    // Text that keeps its case.
    KeepsCase,
}

// Returns the text after a prefix, if the text begins with it.
fn rest_after<'s>(text: &'s str, prefix: &str) -> Option<&'s str>
    ensures { option_map (λ rest. rest.now) result ≡ spec.without_prefix prefix.now text.now }
{
    text.strip_prefix(prefix)
}

// Returns a tag without its less-than sign.
fn name_of(tag: Tag) -> &'static str
    ensures { result.now ≡ spec.tag_name tag }
{
    match tag {
        Tag::Italic => "i>",
        Tag::Bold => "b>",
        Tag::Superscript => "sup>",
        Tag::Subscript => "sub>",
        Tag::SmallCapitals => "span style=\"font-variant:small-caps;\">",
        Tag::KeepsCase => "span class=\"nocase\">",
    }
}

// Returns the LaTeX command of a tag, if there is one, and an opening brace.
fn command_of(tag: Tag) -> &'static str
    ensures { result.now ≡ spec.command_of tag }
{
    match tag {
        Tag::Italic => "\\emph{",
        Tag::Bold => "\\textbf{",
        Tag::Superscript => "\\textsuperscript{",
        Tag::Subscript => "\\textsubscript{",
        Tag::SmallCapitals => "\\textsc{",
        Tag::KeepsCase => "{",
    }
}

// If `piece`, the text after a less-than sign, begins with the rest of this tag, returns the tag and the text after it.
fn opened_by(piece: &str, tag: Tag) -> Option<(Tag, &str)>
    ensures { option_map (λ found. (found.0, found.1.now)) result ≡ spec.opened_by piece.now tag }
{
    let rest = rest_after(piece, name_of(tag))?;
    Some((tag, rest))
}

// If `piece`, the text after a less-than sign, begins with the rest of an opening tag, returns the tag and the text after it.
fn opened(piece: &str) -> Option<(Tag, &str)>
    ensures { option_map (λ found. (found.0, found.1.now)) result ≡ spec.opened piece.now }
{
    opened_by(piece, Tag::Italic)
        .or_else(|| opened_by(piece, Tag::Bold))
        .or_else(|| opened_by(piece, Tag::Superscript))
        .or_else(|| opened_by(piece, Tag::Subscript))
        .or_else(|| opened_by(piece, Tag::SmallCapitals))
        .or_else(|| opened_by(piece, Tag::KeepsCase))
}

// If `piece`, the text after a less-than sign, begins with the rest of a closing tag, returns the text after the tag.
fn closed(piece: &str) -> Option<&str>
    ensures { option_map (λ rest. rest.now) result ≡ spec.closed piece.now }
{
    rest_after(piece, "/i>")
        .or_else(|| rest_after(piece, "/b>"))
        .or_else(|| rest_after(piece, "/sup>"))
        .or_else(|| rest_after(piece, "/sub>"))
        .or_else(|| rest_after(piece, "/span>"))
}

// Returns a text with the special characters of LaTeX escaped.
pub(crate) fn spelled(alloc: Global, text: &str) -> Result<Text, AllocError>
    ensures { IfOk result (λ out. out ≡ spec.spelled_text text.now) }
{
    let chunk = Chunk::Normal(Text::from_str(alloc, text)?);
    Ok(Text::from_string(chunk.to_biblatex_string(alloc, false)?))
}

// Appends a text with the special characters of LaTeX escaped.
fn push_spelled(alloc: Global, out: &mut Text, text: &str) -> Result<(), AllocError>
    ensures { OnOk result (out.new ≡ out.old ++ spec.spelled_text text.now) }
{
    let text = spelled(alloc, text)?;
    out.push_str(text.as_str())
}

// The output, and the open tags after it, the innermost last.
#[derive(Drop)]
struct Marked {
    text: Text,
    tags: Items<Tag>,
}

// Appends the output for a piece after a less-than sign.
fn push_piece(alloc: Global, marked: &mut Marked, piece: &str) -> Result<(), AllocError>
    ensures text { OnOk result (marked.new.text ≡ marked.old.text ++ spec.tag_piece_text (length marked.old.tags) piece.now) }
    ensures depth { OnOk result (length marked.new.tags ≡ spec.open_after_piece (length marked.old.tags) piece.now) }
{
    if let Some((tag, rest)) = opened(piece) {
        marked.text.push_str(command_of(tag))?;
        marked.tags.push(tag)?;
        return push_spelled(alloc, &mut marked.text, rest);
    }
    if let Some(rest) = closed(piece) {
        if marked.tags.pop().is_some() {
            marked.text.push('}')?;
            return push_spelled(alloc, &mut marked.text, rest);
        }
    }
    marked.text.push('<')?;
    push_spelled(alloc, &mut marked.text, piece)
}

// Appends the output for the pieces after the first less-than sign.
fn push_pieces(alloc: Global, marked: &mut Marked, text: &str) -> Result<(), AllocError>
    ensures text { OnOk result (marked.new.text ≡ marked.old.text ++ spec.pieces_text (length marked.old.tags) (spec.tag_pieces text.now)) }
    ensures depth { OnOk result (length marked.new.tags ≡ spec.open_after_pieces (length marked.old.tags) (spec.tag_pieces text.now)) }
{
    'pieces: for piece in text.split('<') {
        push_piece(alloc, marked, piece)?;
    }
    Ok(())
}

// Appends a closing brace for each open tag.
fn push_closed(marked: &mut Marked) -> Result<(), AllocError>
    ensures { OnOk result (marked.new.text ≡ marked.old.text ++ spec.all_closed (length marked.old.tags)) }
{
    'tags: while let Some(_) = marked.tags.pop() {
        marked.text.push('}')?;
    }
    Ok(())
}

// Returns the LaTeX source of a text with HTML tags.
#[tactic(auto, unfolding(crate::specs::Tags::tagged_source))]
pub(crate) fn tagged(alloc: Global, text: &str) -> Result<Text, AllocError>
    ensures { IfOk result (λ out. out ≡ spec.tagged_source text.now) }
{
    let mut marked = Marked {
        text: Text::new(alloc),
        tags: Items::new(alloc),
    };
    let Some((first, rest)) = text.split_once('<') else {
        push_spelled(alloc, &mut marked.text, text)?;
        return Ok(marked.text);
    };
    push_spelled(alloc, &mut marked.text, first)?;
    push_pieces(alloc, &mut marked, rest)?;
    push_closed(&mut marked)?;
    Ok(marked.text)
}
