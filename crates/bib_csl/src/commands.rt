//! LaTeX commands: the text, the tag or the quotation mark for each.

ghost use Rattle.std.specs.Prelude.{◌≡◌, map};
ghost use Rattle.std.specs.Option.{option_map};
ghost use Rattle.bib_text.specs.Enums.{value_named};
ghost use Rattle.bib_csl.specs.Markup as spec;
ghost use Rattle.bib_csl.specs.Named.{named_pair_of, pair_of};

use crate::named::{find_text, is_among};

// Signs: the name of the command and the text.
static SIGNS: [(&str, &str); 12] = [
    ("hyphen", "-"),
    ("slash", "/"),
    ("adddot", "."),
    ("ldots", "…"),
    ("dots", "…"),
    ("textellipsis", "…"),
    ("quad", " "),
    ("TeX", "TeX"),
    ("LaTeX", "LaTeX"),
    ("LaTeXe", "LaTeX2ε"),
    ("BibTeX", "BibTeX"),
    ("MF", "METAFONT"),
];

// Returns the text for a command that is a sign, whether it has an argument or not, or `None` for other commands.
fn sign_named(name: &str) -> Option<&'static str>
    ensures { option_map (λ sign. sign.now) result ≡ spec.sign_named name.now }
{
    find_text(&SIGNS, name)
}

// Commands that are left out: `\relax`, and those that change the font up to the end of the group.
static SILENT: [&str; 16] = [
    "bf", "bfseries", "em", "it", "itshape", "relax", "rm", "rmfamily", "sc", "scshape", "sf",
    "sffamily", "sl", "slshape", "tt", "ttfamily",
];

// Returns whether a command is left out: `\relax`, or one of these that change the font up to the end of the group.
fn is_silent(name: &str) -> bool
    ensures { result ≡ spec.is_silent name.now }
{
    is_among(&SILENT, name)
}

// Returns the text for a command without its argument: a sign, or an empty text for a silent command. Returns `None` for other commands.
#[tactic(auto, unfolding(crate::specs::Markup::said_alone))]
pub(crate) fn said_alone(name: &str) -> Option<&'static str>
    ensures { option_map (λ text. text.now) result ≡ spec.said_alone name.now }
{
    match sign_named(name) {
        Some(sign) => Some(sign),
        None => { if is_silent(name) { Some("") } else { None } }
    }
}

// Commands with tags: the name, the opening tag and the closing tag.
static TAGS: [(&str, &str, &str); 7] = [
    ("emph", "<i>", "</i>"),
    ("textit", "<i>", "</i>"),
    ("mkbibemph", "<i>", "</i>"),
    ("textbf", "<b>", "</b>"),
    ("textsuperscript", "<sup>", "</sup>"),
    ("textsubscript", "<sub>", "</sub>"),
    (
        "textsc",
        "<span style=\"font-variant:small-caps;\">",
        "</span>",
    ),
];

// Returns the tags in the first row with exactly this name, or `None`.
fn find_tags(
    rows: &[(&str, &'static str, &'static str)],
    name: &str,
) -> Option<(&'static str, &'static str)>
    ensures { option_map pair_of result ≡ value_named (map named_pair_of rows.entry.now) name.now }
{
    'rows: for (row_name, before, after) in rows {
        if *row_name == name {
            return Some((*before, *after));
        }
    }
    None
}

// Returns the opening and the closing tag for a command with this name, or `None` for other commands.
fn tags_named(name: &str) -> Option<(&'static str, &'static str)>
    ensures { option_map pair_of result ≡ value_named spec.tags name.now }
{
    find_tags(&TAGS, name)
}

// Returns the opening tag for a command with this name, or `None` for other commands.
#[tactic(auto, unfolding(crate::specs::Markup::tag_before))]
fn tag_before(name: &str) -> Option<&'static str>
    ensures { option_map (λ tag. tag.now) result ≡ spec.tag_before name.now }
{
    match tags_named(name) {
        Some((before, _)) => Some(before),
        None => None,
    }
}

// Returns the closing tag for a command with this name, or `None` for other commands.
#[tactic(auto, unfolding(crate::specs::Markup::tag_after))]
fn tag_after(name: &str) -> Option<&'static str>
    ensures { option_map (λ tag. tag.now) result ≡ spec.tag_after name.now }
{
    match tags_named(name) {
        Some((_, after)) => Some(after),
        None => None,
    }
}

// Returns whether a command puts its argument in quotation marks.
#[tactic(auto, unfolding(crate::specs::Markup::quotes_argument))]
fn quotes_argument(name: &str) -> bool
    ensures { result ≡ spec.quotes_argument name.now }
{
    name == "enquote" || name == "mkbibquote"
}

// Returns the quotation mark before the argument of a command, or its opening tag if `has_tags`, or `None` for other commands.
#[tactic(auto, unfolding(crate::specs::Markup::mark_opening))]
fn mark_opening(has_tags: bool, name: &str) -> Option<&'static str>
    ensures { option_map (λ mark. mark.now) result ≡ spec.mark_opening has_tags name.now }
{
    if quotes_argument(name) {
        return Some("“");
    }
    if has_tags { tag_before(name) } else { None }
}

// Returns the quotation mark after the argument of a command, or its closing tag if `has_tags`, or `None` for other commands.
#[tactic(auto, unfolding(crate::specs::Markup::mark_closing))]
fn mark_closing(has_tags: bool, name: &str) -> Option<&'static str>
    ensures { option_map (λ mark. mark.now) result ≡ spec.mark_closing has_tags name.now }
{
    if quotes_argument(name) {
        return Some("”");
    }
    if has_tags { tag_after(name) } else { None }
}

// Returns the text for a command and the opening brace of its argument: a tag, a quotation mark or a sign. It is empty for any other
// command, whose argument is kept. Returns `None` for a backslash without a name.
#[tactic(auto, unfolding(crate::specs::Markup::opening_tag))]
pub(crate) fn opening_tag(has_tags: bool, name: &str) -> Option<&'static str>
    ensures { option_map (λ tag. tag.now) result ≡ spec.opening_tag has_tags name.now }
{
    if name.is_empty() {
        return None;
    }
    match mark_opening(has_tags, name) {
        Some(tag) => Some(tag),
        None => Some(sign_named(name).unwrap_or("")),
    }
}

// Returns the text for the closing brace of the argument of a command, or `None` for a brace without a command.
#[tactic(auto, unfolding(crate::specs::Markup::closing_tag))]
pub(crate) fn closing_tag(has_tags: bool, name: &str) -> Option<&'static str>
    ensures { option_map (λ tag. tag.now) result ≡ spec.closing_tag has_tags name.now }
{
    if name.is_empty() {
        return None;
    }
    Some(mark_closing(has_tags, name).unwrap_or(""))
}
