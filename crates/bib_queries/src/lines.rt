//! Parses the lines of an .aux file.

ghost use Rattle.std.specs.Prelude.{◌≡◌, ◌++◌, codes, eqb, OnOk};
ghost use Rattle.std.specs.List.{ends_with};
ghost use Rattle.std.specs.Option.{option_map, option_map_or};
ghost use Rattle.bib_queries.specs.Lines as spec;
ghost use Rattle.bib_queries.specs.Texts.{text_list};

use crate::names::push_parts;
use std::alloc::AllocError;

// Returns the text after a prefix, or `None` if the text doesn't begin with it.
pub(crate) fn after_prefix<'s>(text: &'s str, prefix: &str) -> Option<&'s str>
    ensures { option_map (λ rest. rest.now) result ≡ spec.text_after_prefix prefix.now text.now }
{
    text.strip_prefix(prefix)
}

// Returns the text of an argument up to its closing brace, or `None` without one.
fn argument(text: &str) -> Option<&str>
    ensures { option_map (λ rest. rest.now) result ≡ spec.argument text.now }
{
    let (inside, _) = text.split_once('}')?;
    Some(inside)
}

// Returns the text of the last of one or two arguments. `text` begins after the opening brace of the first.
fn last_argument(text: &str) -> Option<&str>
    ensures { option_map (λ rest. rest.now) result ≡ spec.last_argument text.now }
{
    let (first, following) = text.split_once('}')?;
    match after_prefix(following, "{") {
        Some(second) => argument(second),
        None => Some(first),
    }
}

// Returns the text after the citation command at the start of a line, or `None` without one.
fn after_command(line: &str) -> Option<&str>
    ensures { option_map (λ rest. rest.now) result ≡ spec.after_command line.now }
{
    match after_prefix(line, "\\citation{") {
        Some(rest) => Some(rest),
        None => after_prefix(line, "\\abx@aux@cite{"),
    }
}

// Returns the comma-separated keys that a line cites, or `None` if the line is no complete citation command.
fn aux_list(line: &str) -> Option<&str>
    ensures { option_map (λ rest. rest.now) result ≡ spec.aux_list line.now }
{
    let rest = after_command(line)?;
    last_argument(rest)
}

// Appends the keys that a line cites.
pub(crate) fn push_aux_keys<'s>(keys: &mut Vec<&'s str>, line: &'s str) -> Result<(), AllocError>
    ensures { OnOk result (text_list keys.new ≡ text_list keys.old ++ spec.aux_cited line.now) }
{
    match aux_list(line) {
        Some(list) => push_parts(keys, list),
        None => Ok(()),
    }
}

// Returns whether a name ends with `.aux`.
fn ends_with_aux(name: &str) -> bool
    ensures { result ≡ ends_with eqb name.now (codes ".aux") }
{
    name.ends_with(".aux")
}

// Returns a name, or `None` if it doesn't end with `.aux`.
fn aux_name(name: &str) -> Option<&str>
    ensures { option_map (λ kept. kept.now) result ≡ spec.aux_name name.now }
{
    if ends_with_aux(name) {
        Some(name)
    } else {
        None
    }
}

/// Returns the name of the .aux file that a line of an .aux file inputs, or `None` if it inputs none. LaTeX writes such a line for
/// `\include`. BibTeX skips a name that doesn't end with `.aux`.
pub fn aux_input(line: &str) -> Option<&str>
    ensures { option_map (λ name. name.now) result ≡ spec.aux_input line.now }
{
    let rest = after_prefix(line, "\\@input{")?;
    let name = argument(rest)?;
    aux_name(name)
}

// Returns the comma-separated names of .bib files in a line, or `None` if the line is no complete `\bibdata`.
pub(crate) fn aux_data(line: &str) -> Option<&str>
    ensures { option_map (λ list. list.now) result ≡ spec.aux_data line.now }
{
    let rest = after_prefix(line, "\\bibdata{")?;
    argument(rest)
}
