//! Appends members with a text, and members without content, which are reported as lost.

ghost use Rattle.std.specs.Prelude.{◌≡◌, ◌∷◌, ◌++◌, [], OnOk, IfOk};
ghost use Rattle.std.specs.Option.{option_map};
ghost use Rattle.bib_from_ris.specs.Members as spec;

use crate::variables::{VariableLine, text_of};
use bib_csl::item::Content;
use bib_csl::sentence_items::is_english_tag;
use bib_from_csl::given::Given;
use bib_from_csl::titles::protected_title;
use bib_text::items::Items;
use bib_text::text::Text;
use std::alloc::{AllocError, Global};

/// Appends a member without content for a line that no variable contains.
pub(crate) fn push_lost(alloc: Global, out: &mut Items<Given>, tag: &str) -> Result<(), AllocError>
    ensures { OnOk result (out.new ≡ out.old ++ spec.member_without_content tag.now ∷ []) }
{
    out.push(Given {
        name: Text::from_str(alloc, tag)?,
        content: None,
        is_whole: false,
    })?;
    Ok(())
}

/// Appends the member of a variable with this text.
pub(crate) fn push_text(
    alloc: Global,
    out: &mut Items<Given>,
    name: &str,
    text: &str,
) -> Result<(), AllocError>
    ensures { OnOk result (out.new ≡ out.old ++ spec.text_given name.now text.now ∷ []) }
{
    out.push(Given {
        name: Text::from_str(alloc, name)?,
        content: Some(Content::Text(Text::from_str(alloc, text)?)),
        is_whole: true,
    })?;
    Ok(())
}

// Appends a member without content for a line of a variable, if its value isn't this text.
fn push_other(
    alloc: Global,
    out: &mut Items<Given>,
    name: &str,
    text: &str,
    line: &VariableLine,
) -> Result<(), AllocError>
    ensures { OnOk result (out.new ≡ out.old ++ spec.other_line name.now text.now line.now) }
{
    if line.variable.as_str() == name && line.value.as_str() != text {
        return push_lost(alloc, out, line.tag.as_str());
    }
    Ok(())
}

/// Appends the members of the lines of a variable that don't have its text.
#[tactic(auto, unfolding(crate::specs::Members::other_members))]
pub(crate) fn push_others(
    alloc: Global,
    out: &mut Items<Given>,
    lines: &[VariableLine],
    name: &str,
) -> Result<(), AllocError>
    ensures { OnOk result (out.new ≡ out.old ++ spec.other_members name.now lines.now) }
{
    let Some(text) = text_of(lines, name) else {
        return Ok(());
    };
    'lines: for line in lines {
        push_other(alloc, out, name, text, line)?;
    }
    Ok(())
}

// Appends the member of a variable, if it has a text.
fn push_if_text(
    alloc: Global,
    out: &mut Items<Given>,
    name: &str,
    text: Option<&str>,
) -> Result<(), AllocError>
    ensures { OnOk result (out.new ≡ out.old ++ spec.if_text name.now (option_map (λ text. text.now) text.entry)) }
{
    match text {
        Some(text) => push_text(alloc, out, name, text),
        None => Ok(()),
    }
}

/// Appends the members of a variable with one text.
#[tactic(auto, unfolding(crate::specs::Members::text_members))]
pub(crate) fn push_text_members(
    alloc: Global,
    out: &mut Items<Given>,
    lines: &[VariableLine],
    name: &str,
) -> Result<(), AllocError>
    ensures { OnOk result (out.new ≡ out.old ++ spec.text_members name.now lines.now) }
{
    push_if_text(alloc, out, name, text_of(lines, name))?;
    push_others(alloc, out, lines, name)
}

// Returns whether a record has no language, or one that begins with `en`.
fn is_english_record(lines: &[VariableLine]) -> bool
    ensures { result ≡ spec.is_english_record lines.now }
{
    match text_of(lines, "language") {
        Some(tag) => is_english_tag(tag),
        None => true,
    }
}

// Returns the text of a title. In English, this is its `protected_title`.
fn record_title(alloc: Global, is_in_english: bool, text: &str) -> Result<Text, AllocError>
    ensures { IfOk result (λ title. title ≡ spec.record_title is_in_english text.now) }
{
    if is_in_english {
        return protected_title(alloc, text);
    }
    Text::from_str(alloc, text)
}

// Appends the member of a title, if it has a text.
fn push_if_title(
    alloc: Global,
    out: &mut Items<Given>,
    is_in_english: bool,
    name: &str,
    text: Option<&str>,
) -> Result<(), AllocError>
    ensures { OnOk result (out.new ≡ out.old ++ spec.if_title is_in_english name.now (option_map (λ text. text.now) text.entry)) }
{
    let Some(text) = text else {
        return Ok(());
    };
    let title = record_title(alloc, is_in_english, text)?;
    push_text(alloc, out, name, title.as_str())
}

/// Appends the members of a title.
#[tactic(auto, unfolding(crate::specs::Members::title_members))]
pub(crate) fn push_title_members(
    alloc: Global,
    out: &mut Items<Given>,
    lines: &[VariableLine],
    name: &str,
) -> Result<(), AllocError>
    ensures { OnOk result (out.new ≡ out.old ++ spec.title_members name.now lines.now) }
{
    push_if_title(
        alloc,
        out,
        is_english_record(lines),
        name,
        text_of(lines, name),
    )?;
    push_others(alloc, out, lines, name)
}
