//! Findings of special characters: those that are special to LaTeX, and occur outside braces and math where no backslash escapes them.

ghost use Rattle.std.specs.Prelude.{◌≡◌, ◌==◌, ◌&&◌, ◌++◌, IfOk, OnOk, if◌then◌else◌};
ghost use Rattle.std.specs.String.{string_bytes};
ghost use Rattle.std.specs.Str.{chars};
ghost use Rattle.bib_syntax.specs.Views.{field_of};
ghost use Rattle.bib_findings.specs.SpecialCharacters as spec;
ghost use Rattle.bib_findings.specs.SpecialCharacters.{special_finding, specials_of};
ghost use Rattle.bib_findings.specs.declared.special_characters.Zone.TheVariants.{InText};

use crate::codes::Code;
use crate::fields::named_message;
use crate::finding::Finding;
use crate::identities::literal_text;
use crate::nearest::is_among;
use crate::outside::open_braces_after;
use bib_syntax::raw::Pair;
use bib_text::text::Text;
use std::alloc::{AllocError, Global};

/// The part of a text to which a character belongs.
#[derive(Clone, Copy)]
pub(crate) enum Zone {
    // In the text itself.
    InText,
    // After a backslash in the text that isn't escaped itself.
    InTextEscaped,
    // After the first dollar sign of math.
    MathOpened,
    // Between dollar signs.
    InMath,
    // After a backslash between dollar signs that isn't escaped itself.
    InMathEscaped,
    // Between pairs of dollar signs.
    InDisplay,
    // After a backslash between pairs of dollar signs that isn't escaped itself.
    InDisplayEscaped,
    // After a dollar sign between pairs of dollar signs.
    DisplayClosing,
    // Between `\(` or `\[`, and `\)` or `\]`.
    InFormula,
    // After a backslash in such a formula that isn't escaped itself.
    InFormulaEscaped,
}

// The tested fields: names, titles, publishers, places and notes that BibLaTeX prints as text.
static PRINTED_FIELDS: [&str; 34] = [
    "addendum",
    "author",
    "booksubtitle",
    "booktitle",
    "booktitleaddon",
    "editor",
    "eventtitle",
    "howpublished",
    "institution",
    "issuesubtitle",
    "issuetitle",
    "journal",
    "journalsubtitle",
    "journaltitle",
    "location",
    "address",
    "mainsubtitle",
    "maintitle",
    "maintitleaddon",
    "note",
    "organization",
    "origpublisher",
    "origtitle",
    "publisher",
    "reprinttitle",
    "school",
    "series",
    "shortjournal",
    "shorttitle",
    "subtitle",
    "title",
    "titleaddon",
    "translator",
    "venue",
];

// Returns whether a character is `&`, `%`, `#`, `_` or `^`, which LaTeX doesn't print outside math.
fn is_latex_special(c: char) -> bool
    ensures { result ≡ spec.is_latex_special c }
{
    matches!(c, '&' | '%' | '#' | '_' | '^')
}

// Returns the zone after a character in the text itself.
fn after_text(c: char) -> Zone
    ensures { result ≡ spec.zone_after InText c }
{
    match c {
        '\\' => Zone::InTextEscaped,
        '$' => Zone::MathOpened,
        _ => Zone::InText,
    }
}

/// Returns the zone after a character.
pub(crate) fn zone_after(zone: Zone, c: char) -> Zone
    ensures { result ≡ spec.zone_after zone c }
{
    match (zone, c) {
        (Zone::InText, _) => after_text(c),
        (Zone::InTextEscaped, '(' | '[') => Zone::InFormula,
        (Zone::InTextEscaped, _) => Zone::InText,
        (Zone::MathOpened | Zone::InMath, '\\') => Zone::InMathEscaped,
        (Zone::MathOpened, '$') => Zone::InDisplay,
        (Zone::InMath, '$') => Zone::InText,
        (Zone::MathOpened | Zone::InMath | Zone::InMathEscaped, _) => Zone::InMath,
        (Zone::InDisplay | Zone::DisplayClosing, '\\') => Zone::InDisplayEscaped,
        (Zone::InDisplay, '$') => Zone::DisplayClosing,
        (Zone::DisplayClosing, '$') => Zone::InText,
        (Zone::InDisplay | Zone::InDisplayEscaped | Zone::DisplayClosing, _) => Zone::InDisplay,
        (Zone::InFormula, '\\') => Zone::InFormulaEscaped,
        (Zone::InFormulaEscaped, ')' | ']') => Zone::InText,
        (Zone::InFormula | Zone::InFormulaEscaped, _) => Zone::InFormula,
    }
}

// Returns whether a character in this zone is a special one in the text itself.
fn is_unescaped_special(zone: Zone, c: char) -> bool
    ensures { result ≡ spec.is_unescaped_special zone c }
{
    matches!(zone, Zone::InText) && is_latex_special(c)
}

// Returns whether a character in this zone is a special one in the text itself. `depth` braces are open before it.
fn is_special_at(depth: usize, zone: Zone, c: char) -> bool
    ensures { result ≡ (depth == 0 && spec.is_unescaped_special zone c) }
{
    depth == 0 && is_unescaped_special(zone, c)
}

// Returns the zone after a character outside braces, as it is shown: an `x` for an opening brace, and nothing for a closing one.
fn zone_after_shown(zone: Zone, c: char) -> Zone
    ensures { result ≡ spec.zone_after_shown zone c }
{
    match c {
        '{' => zone_after(zone, 'x'),
        '}' => zone,
        _ => zone_after(zone, c),
    }
}

// Returns the zone after a character that is shown if no brace is open before it. `depth` braces are open before it.
fn zone_at(depth: usize, zone: Zone, c: char) -> Zone
    ensures { result ≡ if depth == 0 then spec.zone_after_shown zone c else zone }
{
    if depth != 0 {
        return zone;
    }
    zone_after_shown(zone, c)
}

// Returns the first special character of a text that is outside braces and math, and that no backslash escapes.
fn first_special(text: &str) -> Option<char>
    ensures { result ≡ spec.special_of text.now }
{
    let mut zone = Zone::InText;
    let mut depth = 0usize;
    'characters: for c in text.chars() {
        if is_special_at(depth, zone, c) {
            return Some(c);
        }
        zone = zone_at(depth, zone, c);
        depth = open_braces_after(depth, c);
    }
    None
}

// Returns the end of a message: the advice for a special character. `\^` is an accent.
fn special_remedy(c: char) -> &'static str
    ensures { result.now ≡ spec.special_remedy c }
{
    match c {
        '^' => "; write `\\textasciicircum{}`",
        _ => " needs a backslash before it",
    }
}

// Returns the finding of a field of the entry with this key, which has this special character.
fn special_finding(
    alloc: Global,
    key: &str,
    field: &Pair<'_>,
    c: char,
) -> Result<Finding, AllocError>
    ensures { IfOk result (λ finding. finding ≡ special_finding key.now (field_of field.now) c) }
{
    let before = format!(in alloc; "`{c}` in ")?;
    let message = named_message(alloc, key, &before, field.key.v, special_remedy(c))?;
    Ok(Finding {
        code: Code::SpecialCharacter,
        span: field.key.span.start..field.key.span.end,
        message: Text::from_string(message),
    })
}

/// Returns whether a field of this name is tested, in any ASCII case.
pub(crate) fn is_printed(name: &str) -> bool
    ensures { result ≡ spec.is_printed name.now }
{
    is_among(&PRINTED_FIELDS, name)
}

/// Appends the finding of a field of the entry with this key, if its value is one literal with a special character.
pub(crate) fn add_special(
    alloc: Global,
    found: &mut Vec<Finding>,
    key: &str,
    field: &Pair<'_>,
) -> Result<(), AllocError>
    ensures { OnOk result (found.new.items ≡ found.old.items ++ specials_of key.now (field_of field.now)) }
{
    let Some(c) = first_special(literal_text(&field.value.v)) else {
        return Ok(());
    };
    found.push(special_finding(alloc, key, field, c)?)?;
    Ok(())
}
