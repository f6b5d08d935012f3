//! The lines of a record with their variables.

ghost use Rattle.std.specs.Prelude.{◌≡◌, ◌++◌, OnOk, IfOk};
ghost use Rattle.std.specs.List.{list_any};
ghost use Rattle.std.specs.Option.{option_map};
ghost use Rattle.bib_from_ris.specs.Variables as spec;

use crate::lines::RisLine;
use crate::tags::{is_preferred, variable_of};
use bib_text::items::Items;
use bib_text::text::Text;
use std::alloc::{AllocError, Global};

/// A line with the variable that it belongs to.
#[derive(Debug, Drop)]
pub struct VariableLine {
    /// The name of the variable; empty if there is none.
    pub variable: Text,
    /// The tag of the line.
    pub tag: Text,
    /// The text of the line.
    pub value: Text,
    /// Whether the line is used before the lines of the same variable for which this is false.
    pub is_preferred: bool,
}

// Appends a line with its variable, unless its value is empty.
fn push_with_variable(
    alloc: Global,
    out: &mut Items<VariableLine>,
    kind: &str,
    has_editors: bool,
    line: &RisLine,
) -> Result<(), AllocError>
    ensures { OnOk result (out.new ≡ out.old ++ spec.line_and_variable kind.now has_editors line.now) }
{
    if line.value.is_empty() {
        return Ok(());
    }
    out.push(VariableLine {
        variable: Text::from_str(alloc, variable_of(kind, has_editors, line))?,
        tag: Text::from_str(alloc, line.tag.as_str())?,
        value: Text::from_str(alloc, line.value.as_str())?,
        is_preferred: is_preferred(kind, line.tag.as_str()),
    })?;
    Ok(())
}

// Returns whether one of these lines has the tag ED.
fn have_editor(lines: &[RisLine]) -> bool
    ensures { result ≡ list_any spec.is_editor_line lines.now }
{
    lines.iter().any(|line| line.tag.as_str() == "ED")
}

/// Returns the lines of a record of this type that have a value, each with its variable.
#[tactic(auto, unfolding(crate::specs::Variables::variable_lines))]
pub(crate) fn variable_lines(
    alloc: Global,
    kind: &str,
    lines: &[RisLine],
) -> Result<Items<VariableLine>, AllocError>
    ensures { IfOk result (λ found. found ≡ spec.variable_lines kind.now lines.now) }
{
    let mut found = Items::new(alloc);
    let has_editors = have_editor(lines);
    'lines: for line in lines {
        push_with_variable(alloc, &mut found, kind, has_editors, line)?;
    }
    Ok(found)
}

// Returns the text of the first preferred line of a variable.
fn preferred_text<'l>(lines: &'l [VariableLine], name: &str) -> Option<&'l str>
    ensures { option_map (λ text. text.now) result ≡ spec.preferred_text name.now lines.now }
{
    'lines: for line in lines {
        if line.variable.as_str() == name && line.is_preferred {
            return Some(line.value.as_str());
        }
    }
    None
}

// Returns the text of the first line of a variable.
fn any_text<'l>(lines: &'l [VariableLine], name: &str) -> Option<&'l str>
    ensures { option_map (λ text. text.now) result ≡ spec.any_text name.now lines.now }
{
    'lines: for line in lines {
        if line.variable.as_str() == name {
            return Some(line.value.as_str());
        }
    }
    None
}

/// Returns the text of a variable: that of its first preferred line, or else of its first line.
#[tactic(auto, unfolding(crate::specs::Variables::variable_text))]
pub(crate) fn text_of<'l>(lines: &'l [VariableLine], name: &str) -> Option<&'l str>
    ensures { option_map (λ text. text.now) result ≡ spec.variable_text name.now lines.now }
{
    match preferred_text(lines, name) {
        Some(text) => Some(text),
        None => any_text(lines, name),
    }
}
