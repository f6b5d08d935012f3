//! Writes dates.

ghost use Rattle.std.specs.Prelude.{◌≡◌, ◌∷◌, IfOk, Some, string_bytes};
ghost use Rattle.std.specs.Fmt.{WritesOnOk};
ghost use Rattle.std.specs.Option.{option_map};
ghost use Rattle.bib_dates.specs.Written.{year_text, count_text, with_zeros, month_text, day_text, datetime_text, first_side, second_side, mark_text, date_text};
ghost use Rattle.bib_text.specs.Characters as char;

use crate::date::{Date, DateValue, Datetime};
use std::alloc::{AllocError, Global};
use std::fmt;

/// Writes the year, the month and the day, with hyphens between them. A day without a month isn't written, nor is the
/// time.
impl fmt::Display for Datetime {
    ghost output = { λ d. Some (datetime_text d) };

    fn fmt<W: fmt::Write>(&self, f: &mut fmt::Formatter<W>) -> fmt::Result {
        year(f, self.year)?;
        let Some(month) = self.month else {
            return Ok(());
        };
        count(f, month)?;
        let Some(day) = self.day else {
            return Ok(());
        };
        count(f, day)
    }
}

// Writes a year in at least four digits, with a sign if it is negative.
fn year<W: fmt::Write>(f: &mut fmt::Formatter<W>, year: i32) -> fmt::Result
    ensures { WritesOnOk W.write_str_gives f.old result (year_text year) f.new }
{
    if year < 0 {
        f.write_str("-")?;
    }
    four_wide(f, year.unsigned_abs())
}

// Writes a number in at least four digits.
fn four_wide<W: fmt::Write>(f: &mut fmt::Formatter<W>, n: u32) -> fmt::Result
    ensures { WritesOnOk W.write_str_gives f.old result (with_zeros 4 n) f.new }
{
    write!(f, "{n:04}")
}

// Writes a hyphen and a month or a day, which counts from 0.
fn count<W: fmt::Write>(f: &mut fmt::Formatter<W>, n: u8) -> fmt::Result
    ensures { WritesOnOk W.write_str_gives f.old result (char.hyphen ∷ count_text n) f.new }
{
    let n = u16::from(n) + 1;
    write!(f, "-{n:02}")
}

// Returns a number in at least four digits.
fn four_digits(alloc: Global, n: u32) -> Result<String, AllocError>
    ensures { IfOk result (λ text. string_bytes text ≡ with_zeros 4 n) }
{
    format!(in alloc; "{n:04}")
}

// Returns the text of a month or a day, which counts from 0.
fn count_text(alloc: Global, n: u8) -> Result<String, AllocError>
    ensures { IfOk result (λ text. string_bytes text ≡ count_text n) }
{
    let n = u16::from(n) + 1;
    format!(in alloc; "{n:02}")
}

impl Datetime {
    /// Returns the year in at least four digits, with `-` before a negative one. The only error is out of memory.
    pub fn year_text(&self, alloc: Global) -> Result<String, AllocError>
        ensures { IfOk result (λ text. string_bytes text ≡ year_text self.now.year) }
    {
        let digits = four_digits(alloc, self.year.unsigned_abs())?;
        if self.year < 0 {
            return format!(in alloc; "-{digits}");
        }
        Ok(digits)
    }

    /// Returns the number of the month in at least two digits, from 1, if there is a month. The only error is out of
    /// memory.
    pub fn month_text(&self, alloc: Global) -> Result<Option<String>, AllocError>
        ensures { IfOk result (λ text. option_map string_bytes text ≡ month_text self.now) }
    {
        let Some(month) = self.month else {
            return Ok(None);
        };
        Ok(Some(count_text(alloc, month)?))
    }

    /// Returns the number of the day in at least two digits, from 1, if there is a day and a month. The only error is
    /// out of memory.
    pub fn day_text(&self, alloc: Global) -> Result<Option<String>, AllocError>
        ensures { IfOk result (λ text. option_map string_bytes text ≡ day_text self.now) }
    {
        let (Some(_), Some(day)) = (self.month, self.day) else {
            return Ok(None);
        };
        Ok(Some(count_text(alloc, day)?))
    }
}

impl DateValue {
    /// Returns the date, or the side of a range: the first one if there are two.
    pub fn first_side(&self) -> Datetime
        ensures { result ≡ first_side self.now }
    {
        match *self {
            DateValue::At(date) => date,
            DateValue::After(start) => start,
            DateValue::Before(end) => end,
            DateValue::Between(start, _) => start,
        }
    }

    /// Returns the second side of a range, if it has two.
    pub fn second_side(&self) -> Option<Datetime>
        ensures { result ≡ second_side self.now }
    {
        match *self {
            DateValue::Between(_, end) => Some(end),
            _ => None,
        }
    }
}

// Returns the mark at the end of a date.
fn mark(uncertain: bool, approximate: bool) -> &'static str
    ensures { result.now ≡ mark_text uncertain approximate }
{
    match (uncertain, approximate) {
        (true, true) => "%",
        (true, false) => "?",
        (false, true) => "~",
        (false, false) => "",
    }
}

// Returns the text of a date.
pub(crate) fn text(date: &Date, alloc: Global) -> Result<String, AllocError>
    ensures { IfOk result (λ text. string_bytes text ≡ date_text date.now) }
{
    let mark = mark(date.uncertain, date.approximate);
    match date.value {
        DateValue::At(at) => format!(in alloc; "{at}{mark}"),
        DateValue::After(start) => format!(in alloc; "{start}/..{mark}"),
        DateValue::Before(end) => format!(in alloc; "../{end}{mark}"),
        DateValue::Between(start, end) => format!(in alloc; "{start}/{end}{mark}"),
    }
}
