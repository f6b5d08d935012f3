//! Makes the members of the item of a record. Each line with a value is in the content of a variable, is the text of the key, or has a
//! member without content.

ghost use Rattle.std.specs.Prelude.{◌≡◌, ◌∷◌, ◌++◌, [], codes, encode_utf8_all, OnOk, IfOk};
ghost use Rattle.std.specs.List.{flat_map};
ghost use Rattle.std.specs.Option.{option_map};
ghost use Rattle.bib_from_ris.specs.Members as spec;

use crate::cuts::at_hyphen;
use crate::dates::{is_whole_date, is_year_of, ris_date};
use crate::names::ris_name;
use crate::tags::{is_names, variable_names};
use crate::text_members::{
    push_lost, push_others, push_text, push_text_members, push_title_members,
};
use crate::types::known_type;
use crate::variables::{VariableLine, text_of};
use bib_csl::item::{Content, Name};
use bib_from_csl::given::Given;
use bib_from_csl::titles::is_own_title;
use bib_text::digits::are_digits;
use bib_text::items::Items;
use bib_text::text::Text;
use std::alloc::{AllocError, Global};

// Appends the name in a line, if the line has this variable.
fn push_name_in(
    alloc: Global,
    out: &mut Items<Name>,
    name: &str,
    line: &VariableLine,
) -> Result<(), AllocError>
    ensures { OnOk result (out.new ≡ out.old ++ spec.name_in name.now line.now) }
{
    if line.variable.as_str() == name {
        out.push(ris_name(alloc, line.value.as_str())?)?;
    }
    Ok(())
}

// Returns the names in the lines of a variable.
fn names_in(alloc: Global, lines: &[VariableLine], name: &str) -> Result<Items<Name>, AllocError>
    ensures { IfOk result (λ names. names ≡ flat_map (spec.name_in name.now) lines.now) }
{
    let mut names = Items::new(alloc);
    'lines: for line in lines {
        push_name_in(alloc, &mut names, name, line)?;
    }
    Ok(names)
}

// Appends the member of a variable with the names of all its lines, if there are any.
#[tactic(auto, unfolding(crate::specs::Members::names_members))]
fn push_names_members(
    alloc: Global,
    out: &mut Items<Given>,
    lines: &[VariableLine],
    name: &str,
) -> Result<(), AllocError>
    ensures { OnOk result (out.new ≡ out.old ++ spec.names_members name.now lines.now) }
{
    let names = names_in(alloc, lines, name)?;
    if names.is_empty() {
        return Ok(());
    }
    out.push(Given {
        name: Text::from_str(alloc, name)?,
        content: Some(Content::Names(names)),
        is_whole: true,
    })?;
    Ok(())
}

// Appends a text, after the separator unless it is the first.
fn push_joined(before: &mut Text, separator: &str, text: &str) -> Result<(), AllocError>
    ensures { OnOk result (before.new ≡ spec.joined_with separator.now before.old text.now) }
{
    if !before.is_empty() {
        before.push_str(separator)?;
    }
    before.push_str(text)
}

// Returns the texts of the lines of a variable, with a separator between them.
fn joined_text(
    alloc: Global,
    lines: &[VariableLine],
    name: &str,
    separator: &str,
) -> Result<Text, AllocError>
    ensures { IfOk result (λ text. text ≡ spec.joined_after name.now separator.now [] lines.now) }
{
    let mut text = Text::new(alloc);
    'lines: for line in lines {
        if line.variable.as_str() == name {
            push_joined(&mut text, separator, line.value.as_str())?;
        }
    }
    Ok(text)
}

// Appends the member of a variable with the texts of all its lines, unless they are empty.
#[tactic(auto, unfolding(crate::specs::Members::joined_members))]
fn push_joined_members(
    alloc: Global,
    out: &mut Items<Given>,
    lines: &[VariableLine],
    name: &str,
    separator: &str,
) -> Result<(), AllocError>
    ensures { OnOk result (out.new ≡ out.old ++ spec.joined_members name.now separator.now lines.now) }
{
    let text = joined_text(alloc, lines, name, separator)?;
    if text.is_empty() {
        return Ok(());
    }
    push_text(alloc, out, name, text.as_str())
}

// Appends the member of a variable with the date of a text.
#[tactic(auto, unfolding(crate::specs::Members::member_of_date))]
fn push_date(
    alloc: Global,
    out: &mut Items<Given>,
    name: &str,
    text: &str,
) -> Result<(), AllocError>
    ensures { OnOk result (out.new ≡ out.old ++ spec.member_of_date name.now text.now ∷ []) }
{
    let Some(date) = ris_date(alloc, text)? else {
        return push_lost(alloc, out, name);
    };
    out.push(Given {
        name: Text::from_str(alloc, name)?,
        content: Some(Content::Date(date)),
        is_whole: is_whole_date(text),
    })?;
    Ok(())
}

// Appends the member of a variable with the date of a text, if there is one.
fn push_if_date(
    alloc: Global,
    out: &mut Items<Given>,
    name: &str,
    text: Option<&str>,
) -> Result<(), AllocError>
    ensures { OnOk result (out.new ≡ out.old ++ spec.if_date name.now (option_map (λ text. text.now) text.entry)) }
{
    match text {
        Some(text) => push_date(alloc, out, name, text),
        None => Ok(()),
    }
}

// Appends the members of the date of access.
#[tactic(auto, unfolding(crate::specs::Members::access_members))]
fn push_access(
    alloc: Global,
    out: &mut Items<Given>,
    lines: &[VariableLine],
) -> Result<(), AllocError>
    ensures { OnOk result (out.new ≡ out.old ++ spec.access_members lines.now) }
{
    push_if_date(alloc, out, "accessed", text_of(lines, "accessed"))?;
    push_others(alloc, out, lines, "accessed")
}

// Appends the members of the date of publication with the texts of the tags PY or Y1, and DA. If `year` is the year of `day`, the date is
// that of DA. If it is another date, DA is lost.
fn push_both_dates(
    alloc: Global,
    out: &mut Items<Given>,
    year: &str,
    day: &str,
) -> Result<(), AllocError>
    ensures { OnOk result (out.new ≡ out.old ++ spec.year_or_day year.now day.now) }
{
    if year == day || is_year_of(year, day) {
        return push_date(alloc, out, "issued", day);
    }
    push_date(alloc, out, "issued", year)?;
    push_lost(alloc, out, "DA")
}

// Appends the members of the date of publication with the texts of the tags PY or Y1, and DA, if there are any.
fn push_issued_date(
    alloc: Global,
    out: &mut Items<Given>,
    year: Option<&str>,
    day: Option<&str>,
) -> Result<(), AllocError>
    ensures { OnOk result (out.new ≡ out.old
        ++ spec.issued_given (option_map (λ text. text.now) year.entry) (option_map (λ text. text.now) day.entry)) }
{
    match (year, day) {
        (Some(year), Some(day)) => push_both_dates(alloc, out, year, day),
        (None, Some(day)) => push_date(alloc, out, "issued", day),
        (year, None) => push_if_date(alloc, out, "issued", year),
    }
}

// Appends the members of the date of publication.
#[tactic(auto, unfolding(crate::specs::Members::issued_members))]
fn push_issued(
    alloc: Global,
    out: &mut Items<Given>,
    lines: &[VariableLine],
) -> Result<(), AllocError>
    ensures { OnOk result (out.new ≡ out.old ++ spec.issued_members lines.now) }
{
    push_issued_date(alloc, out, text_of(lines, "issued"), text_of(lines, "day"))?;
    push_others(alloc, out, lines, "issued")?;
    push_others(alloc, out, lines, "day")
}

// Appends an en dash.
fn push_dash(text: &mut Text) -> Result<(), AllocError>
    ensures { OnOk result (text.new ≡ text.old ++ encode_utf8_all (codes "–")) }
{
    text.push_str("–")
}

// Returns the first and the last page of a range, or one page.
#[tactic(auto, unfolding(crate::specs::Members::page_range))]
fn page_range(alloc: Global, first: &str, last: &str) -> Result<Text, AllocError>
    ensures { IfOk result (λ pages. pages ≡ spec.page_range first.now last.now) }
{
    let mut pages = Text::from_str(alloc, first)?;
    if first == last {
        return Ok(pages);
    }
    push_dash(&mut pages)?;
    pages.push_str(last)?;
    Ok(pages)
}

// Returns whether a text consists of ASCII digits and isn't empty.
fn is_number(text: &str) -> bool
    ensures { result ≡ spec.are_some_digits text.now }
{
    !text.is_empty() && are_digits(text.as_bytes())
}

// Returns the text of pages under one tag: two numbers with a hyphen between them are a range, and any other text is unchanged.
#[tactic(auto, unfolding(crate::specs::Members::hyphened_pages))]
fn hyphened_pages(alloc: Global, text: &str) -> Result<Text, AllocError>
    ensures { IfOk result (λ pages. pages ≡ spec.hyphened_pages text.now) }
{
    let (first, last) = at_hyphen(text);
    if is_number(first) && is_number(last) {
        return page_range(alloc, first, last);
    }
    Text::from_str(alloc, text)
}

// Appends the member of the pages with the text of one tag.
fn push_hyphened(alloc: Global, out: &mut Items<Given>, text: &str) -> Result<(), AllocError>
    ensures { OnOk result (out.new ≡ out.old ++ spec.text_given (codes "page") (spec.hyphened_pages text.now) ∷ []) }
{
    let pages = hyphened_pages(alloc, text)?;
    push_text(alloc, out, "page", pages.as_str())
}

// Appends the member of the pages with the texts of the tags SP and EP, if there are any.
fn push_page(
    alloc: Global,
    out: &mut Items<Given>,
    first: Option<&str>,
    last: Option<&str>,
) -> Result<(), AllocError>
    ensures { OnOk result (out.new ≡ out.old
        ++ spec.pages_given (option_map (λ text. text.now) first.entry) (option_map (λ text. text.now) last.entry)) }
{
    match (first, last) {
        (Some(first), Some(last)) => {
            push_text(alloc, out, "page", page_range(alloc, first, last)?.as_str())
        }
        (None, Some(last)) => push_hyphened(alloc, out, last),
        (Some(first), None) => push_hyphened(alloc, out, first),
        (None, None) => Ok(()),
    }
}

// Appends the members of the pages.
#[tactic(auto, unfolding(crate::specs::Members::pages_members))]
fn push_pages(
    alloc: Global,
    out: &mut Items<Given>,
    lines: &[VariableLine],
) -> Result<(), AllocError>
    ensures { OnOk result (out.new ≡ out.old ++ spec.pages_members lines.now) }
{
    push_page(
        alloc,
        out,
        text_of(lines, "page"),
        text_of(lines, "last-page"),
    )?;
    push_others(alloc, out, lines, "page")?;
    push_others(alloc, out, lines, "last-page")
}

// Appends the members of a variable. `day` and `last-page` have none; those of `issued` and `page` include their lines. The text of `id` is
// the key.
#[tactic(auto, unfolding(crate::specs::Members::members_of))]
fn push_members_of(
    alloc: Global,
    out: &mut Items<Given>,
    lines: &[VariableLine],
    name: &str,
) -> Result<(), AllocError>
    ensures { OnOk result (out.new ≡ out.old ++ spec.members_of lines.now name.now) }
{
    if is_names(name) {
        return push_names_members(alloc, out, lines, name);
    }
    if is_own_title(name) {
        return push_title_members(alloc, out, lines, name);
    }
    match name {
        "issued" => push_issued(alloc, out, lines),
        "accessed" => push_access(alloc, out, lines),
        "page" => push_pages(alloc, out, lines),
        "keyword" => push_joined_members(alloc, out, lines, name, ", "),
        "note" => push_joined_members(alloc, out, lines, name, ". "),
        "id" => push_others(alloc, out, lines, name),
        "day" => Ok(()),
        "last-page" => Ok(()),
        _ => push_text_members(alloc, out, lines, name),
    }
}

// Appends the members of each variable.
fn push_variables(
    alloc: Global,
    out: &mut Items<Given>,
    lines: &[VariableLine],
) -> Result<(), AllocError>
    ensures { OnOk result (out.new ≡ out.old ++ flat_map (spec.members_of lines.now) spec.variables) }
{
    'names: for name in variable_names().split(' ') {
        push_members_of(alloc, out, lines, name)?;
    }
    Ok(())
}

// Returns whether a record can have the variable with a name.
fn is_variable(name: &str) -> bool
    ensures { result ≡ spec.is_variable name.now }
{
    let mut found = false;
    'names: for variable in variable_names().split(' ') {
        found = found || name == variable;
    }
    found
}

// Appends a member without content for a line that has none of the variables.
fn push_unknown(
    alloc: Global,
    out: &mut Items<Given>,
    line: &VariableLine,
) -> Result<(), AllocError>
    ensures { OnOk result (out.new ≡ out.old ++ spec.unknown_line line.now) }
{
    if is_variable(line.variable.as_str()) {
        return Ok(());
    }
    push_lost(alloc, out, line.tag.as_str())
}

// Appends a member without content for each line that has none of the variables.
fn push_all_unknown(
    alloc: Global,
    out: &mut Items<Given>,
    lines: &[VariableLine],
) -> Result<(), AllocError>
    ensures { OnOk result (out.new ≡ out.old ++ flat_map spec.unknown_line lines.now) }
{
    'lines: for line in lines {
        push_unknown(alloc, out, line)?;
    }
    Ok(())
}

// Appends a member without content for a type that is unknown.
#[tactic(auto, unfolding(crate::specs::Members::type_member))]
fn push_type(alloc: Global, out: &mut Items<Given>, kind: &str) -> Result<(), AllocError>
    ensures { OnOk result (out.new ≡ out.old ++ spec.type_member kind.now) }
{
    if known_type(kind).is_empty() {
        return push_lost(alloc, out, "TY");
    }
    Ok(())
}

/// Returns the members of a record of this type: that of an unknown type, those of each variable, and those of the lines that have no
/// variable.
#[tactic(auto, unfolding(crate::specs::Members::members))]
pub(crate) fn members(
    alloc: Global,
    kind: &str,
    lines: &[VariableLine],
) -> Result<Items<Given>, AllocError>
    ensures { IfOk result (λ members. members ≡ spec.members kind.now lines.now) }
{
    let mut out = Items::new(alloc);
    push_type(alloc, &mut out, kind)?;
    push_variables(alloc, &mut out, lines)?;
    push_all_unknown(alloc, &mut out, lines)?;
    Ok(out)
}
