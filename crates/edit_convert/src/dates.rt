//! Splits a date into fields of its parts, for BibTeX.

ghost use Rattle.std.specs.Prelude.{◌≡◌, ◌++◌, ◌<◌, ◌==◌, ◌∷◌, [], IfOk, OnOk, Some, is_some};
ghost use Rattle.std.specs.List.{list_all, slice_split};
ghost use Rattle.std.specs.Char.{is_ascii_digit};
ghost use Rattle.std.specs.Option.{option_map};
ghost use Rattle.std.specs.String.{string_bytes};
ghost use Rattle.bib_text.specs.Enums.{value_named};
ghost use Rattle.bib_dates.specs.Dates.{date_of};
ghost use Rattle.bib_dates.specs.Readings.{readable_value};
ghost use Rattle.edit_convert.specs.Conversions as conversions;
ghost use Rattle.edit_convert.specs.Dates as spec;
ghost use Rattle.edit_convert.specs.Dates.{more_fields, numbered_months, side_year, to_fields};
ghost use Rattle.edit_entries.specs.Changes.{field_text_by, more_field_texts};
ghost use Rattle.edit_convert.specs.Notes.{has_unread_parts};
ghost use Rattle.edit_strings.specs.Views.{lent_texts};
ghost use Rattle.edit_convert.specs.Tables.{IsFieldInText, lent_text, names_as_written, side_as_written, sides_as_written, sign_by, white_at};

use crate::new_fields::{EntryField, push_braced, push_comma, push_name};
use bib_chunks::chunk::making::verbatim;
use bib_dates::date::Date;
use bib_tables::months::Month;
use std::alloc::{AllocError, Global};

// A side of a date: its year, and its month and day if it has them.
#[derive(Drop)]
pub(crate) struct Side<'t> {
    year: &'t str,
    month: Option<Month>,
    day: Option<&'t str>,
}

// A date, or the two sides of a range.
#[derive(Drop)]
pub(crate) struct Sides<'t> {
    from: Side<'t>,
    to: Option<Side<'t>>,
}

// Returns the month with a number of two digits.
fn month_numbered(number: &str) -> Option<Month>
    ensures { result ≡ value_named numbered_months number.now }
{
    match number {
        "01" => Some(Month::January),
        "02" => Some(Month::February),
        "03" => Some(Month::March),
        "04" => Some(Month::April),
        "05" => Some(Month::May),
        "06" => Some(Month::June),
        "07" => Some(Month::July),
        "08" => Some(Month::August),
        "09" => Some(Month::September),
        "10" => Some(Month::October),
        "11" => Some(Month::November),
        "12" => Some(Month::December),
        _ => None,
    }
}

// Returns whether each byte of a text is a digit.
fn all_digits(text: &str) -> bool
    ensures { result ≡ list_all is_ascii_digit text.now }
{
    'bytes: for byte in text.as_bytes() {
        if !byte.is_ascii_digit() {
            return false;
        }
    }
    true
}

// Returns whether a text is a number of `count` digits.
pub(crate) fn are_digits(count: usize, text: &str) -> bool
    ensures { result ≡ spec.are_digits count text.now }
{
    text.len() == count && all_digits(text)
}

// Returns the side with only a year, if the year has four digits.
fn year_side(year: &str) -> Option<Side<'_>>
    ensures { option_map side_as_written result ≡ spec.side_of (year.now ∷ []) }
{
    if !are_digits(4, year) {
        return None;
    }
    Some(Side {
        year,
        month: None,
        day: None,
    })
}

// Returns the side with a month, if there is a month with this number.
fn month_side<'t>(year: &'t str, month: &str, day: Option<&'t str>) -> Option<Side<'t>>
    ensures { option_map side_as_written result ≡
        spec.month_side year.now (value_named numbered_months month.now) (lent_text day.entry) }
{
    Some(Side {
        year,
        month: Some(month_numbered(month)?),
        day,
    })
}

// Returns the side with these parts: a year in four digits, and perhaps a month and a day in two each.
fn side_of<'t>(parts: &[&'t str]) -> Option<Side<'t>>
    ensures { option_map side_as_written result ≡ spec.side_of (lent_texts parts.now) }
{
    match parts {
        [year] => year_side(*year),
        [year, month] => {
            if !are_digits(4, *year) {
                return None;
            }
            month_side(*year, *month, None)
        }
        [year, month, day] => {
            if !are_digits(4, *year) || !are_digits(2, *day) {
                return None;
            }
            month_side(*year, *month, Some(*day))
        }
        _ => None,
    }
}

// Returns the parts of a text between the occurrences of an ASCII character.
fn parts<'t>(alloc: Global, text: &'t str, separator: char) -> Result<Vec<&'t str>, AllocError>
    requires { separator < 128 }
    ensures { IfOk result (λ parts. lent_texts parts.items ≡ slice_split (λ c. c == separator) text.now) }
{
    let mut parts = Vec::new(alloc);
    'parts: for part in text.split(separator) {
        parts.push(part)?;
    }
    Ok(parts)
}

// Returns the side whose parts are separated by hyphens in a text.
fn side_in<'t>(alloc: Global, text: &'t str) -> Result<Option<Side<'t>>, AllocError>
    ensures { IfOk result (λ side. option_map side_as_written side ≡ spec.side_in text.now) }
{
    let parts = parts(alloc, text, '-')?;
    Ok(side_of(&parts))
}

// Returns the range with two sides.
fn two_sides<'t>(alloc: Global, from: &'t str, to: &'t str) -> Result<Option<Sides<'t>>, AllocError>
    ensures { IfOk result (λ sides. option_map sides_as_written sides ≡ spec.two_sides (spec.side_in from.now) (spec.side_in to.now)) }
{
    let Some(from) = side_in(alloc, from)? else {
        return Ok(None);
    };
    let Some(to) = side_in(alloc, to)? else {
        return Ok(None);
    };
    Ok(Some(Sides { from, to: Some(to) }))
}

// Returns the date with one side.
fn one_side<'t>(alloc: Global, text: &'t str) -> Result<Option<Sides<'t>>, AllocError>
    ensures { IfOk result (λ sides. option_map sides_as_written sides ≡ spec.one_side (spec.side_in text.now)) }
{
    let Some(from) = side_in(alloc, text)? else {
        return Ok(None);
    };
    Ok(Some(Sides { from, to: None }))
}

// Returns the date with one side, or the range with two.
fn sides_of<'t>(alloc: Global, texts: &[&'t str]) -> Result<Option<Sides<'t>>, AllocError>
    ensures { IfOk result (λ sides. option_map sides_as_written sides ≡ spec.sides_of (lent_texts texts.now)) }
{
    match texts {
        [from] => one_side(alloc, *from),
        [from, to] => two_sides(alloc, *from, *to),
        _ => Ok(None),
    }
}

// Returns whether a text parses as a date or a range.
pub(crate) fn is_date(alloc: Global, text: &str) -> Result<bool, AllocError>
    ensures { IfOk result (λ is. is ≡ is_some (readable_value (date_of text.now))) }
{
    let chunks = verbatim(alloc, text)?;
    match Date::parse(alloc, chunks.as_slice()) {
        Ok(_date) => Ok(true),
        Err(error) => {
            let _unread = error.unless_out_of_memory()?;
            Ok(false)
        }
    }
}

// Returns the sides of a date or a range that can be divided into fields.
pub(crate) fn date_sides<'t>(alloc: Global, text: &'t str) -> Result<Option<Sides<'t>>, AllocError>
    ensures { IfOk result (λ sides. option_map sides_as_written sides ≡ spec.date_sides text.now) }
{
    if !is_date(alloc, text)? {
        return Ok(None);
    }
    let texts = parts(alloc, text, '/')?;
    sides_of(alloc, &texts)
}

// Returns whether a date has parts that no standard style of BibTeX reads: a day, or a second side.
pub(crate) fn has_unread_parts(sides: &Sides<'_>) -> bool
    ensures { result ≡ has_unread_parts (sides_as_written sides.now) }
{
    sides.from.day.is_some() || sides.to.is_some()
}

// The names of a side's fields.
#[derive(Drop)]
struct SideNames {
    year: &'static str,
    month: &'static str,
    day: &'static str,
}

// Appends the field of a month after another field, if there is a month.
fn push_month(
    out: &mut String,
    alloc: Global,
    at: &EntryField<'_, '_>,
    defines: bool,
    name: &str,
    month: Option<Month>,
) -> Result<(), AllocError>
    requires { IsFieldInText at.now }
    ensures { OnOk result (string_bytes out.new ≡ string_bytes out.old
        ++ more_field_texts (sign_by at.now) (white_at at.now) (spec.month_fields defines name.now month)) }
{
    let Some(month) = month else {
        return Ok(());
    };
    push_comma(out, at)?;
    if defines {
        return push_braced(out, alloc, at, name, month.name());
    }
    push_name(out, alloc, at, name)?;
    out.push_str(month.abbreviation())
}

// Appends the field of a day after another field, if there is a day.
fn push_day(
    out: &mut String,
    alloc: Global,
    at: &EntryField<'_, '_>,
    name: &str,
    day: Option<&str>,
) -> Result<(), AllocError>
    requires { IsFieldInText at.now }
    ensures { OnOk result (string_bytes out.new ≡ string_bytes out.old
        ++ more_field_texts (sign_by at.now) (white_at at.now) (spec.day_fields name.now (lent_text day.entry))) }
{
    let Some(day) = day else {
        return Ok(());
    };
    push_comma(out, at)?;
    push_braced(out, alloc, at, name, day)
}

// Appends the fields of a side.
fn push_side(
    out: &mut String,
    alloc: Global,
    at: &EntryField<'_, '_>,
    defines: bool,
    names: &SideNames,
    side: &Side<'_>,
) -> Result<(), AllocError>
    requires { IsFieldInText at.now }
    ensures { OnOk result (string_bytes out.new ≡ string_bytes out.old
        ++ (field_text_by (sign_by at.now) (side_year (names_as_written names.now) (side_as_written side.now))
        ++ more_field_texts (sign_by at.now) (white_at at.now)
        (more_fields defines (names_as_written names.now) (side_as_written side.now)))) }
{
    push_braced(out, alloc, at, names.year, side.year)?;
    push_month(out, alloc, at, defines, names.month, side.month)?;
    push_day(out, alloc, at, names.day, side.day)
}

// Appends the fields of the second side of a range.
fn push_second_side(
    out: &mut String,
    alloc: Global,
    at: &EntryField<'_, '_>,
    defines: bool,
    side: &Side<'_>,
) -> Result<(), AllocError>
    requires { IsFieldInText at.now }
    ensures { OnOk result (string_bytes out.new ≡ string_bytes out.old
        ++ more_field_texts (sign_by at.now) (white_at at.now) (to_fields defines (Some (side_as_written side.now)))) }
{
    let names = SideNames {
        year: "endyear",
        month: "endmonth",
        day: "endday",
    };
    push_comma(out, at)?;
    push_side(out, alloc, at, defines, &names, side)
}

// Returns the text of the fields of a date's parts. `defines` is whether the file defines the abbreviation of a month.
pub(crate) fn written_sides(
    alloc: Global,
    at: &EntryField<'_, '_>,
    defines: bool,
    sides: &Sides<'_>,
) -> Result<String, AllocError>
    requires { IsFieldInText at.now }
    ensures { IfOk result (λ text. string_bytes text ≡
        spec.written_sides (sign_by at.now) (white_at at.now) defines (sides_as_written sides.now)) }
{
    let names = SideNames {
        year: "year",
        month: "month",
        day: "day",
    };
    let mut out = String::new(alloc);
    push_side(&mut out, alloc, at, defines, &names, &sides.from)?;
    if let Some(to) = &sides.to {
        push_second_side(&mut out, alloc, at, defines, to)?;
    }
    Ok(out)
}

// Returns the text of a field `date`.
pub(crate) fn written_date(
    alloc: Global,
    at: &EntryField<'_, '_>,
    date: &str,
) -> Result<String, AllocError>
    requires { IsFieldInText at.now }
    ensures { IfOk result (λ text. string_bytes text ≡ field_text_by (sign_by at.now) (conversions.date_field date.now)) }
{
    let mut out = String::new(alloc);
    push_braced(&mut out, alloc, at, "date", date)?;
    Ok(out)
}
