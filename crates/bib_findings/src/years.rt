//! Findings of entries with two different years.

ghost use Rattle.std.specs.Prelude.{◌≡◌, ◌++◌, IfOk, OnOk};
ghost use Rattle.bib_syntax.specs.Views.{entry_reading_of};
ghost use Rattle.bib_findings.specs.Years as spec;
ghost use Rattle.bib_findings.specs.Years.{year_findings};

use crate::codes::Code;
use crate::fields::named_message;
use crate::finding::Finding;
use crate::identities::own_literal;
use crate::malformed_dates::{has_no_date, is_mark};
use crate::places::field_place;
use bib_entry::entry::Entry;
use bib_syntax::raw::RawEntry;
use bib_text::digits::are_digits;
use bib_text::spanned::Spanned;
use bib_text::text::Text;
use std::alloc::{AllocError, Global};

// Returns whether bytes are four digits.
fn has_four_digits(bytes: &[u8]) -> bool
    ensures { result ≡ spec.has_four_digits bytes.now }
{
    bytes.len() == 4 && are_digits(bytes)
}

// Returns whether a date may go on with these bytes after its year.
fn may_follow_year(rest: &[u8]) -> bool
    ensures { result ≡ spec.may_follow_year rest.now }
{
    match rest {
        [] => true,
        [b, ..] => *b == b'-' || *b == b'/' || is_mark(*b),
    }
}

// Returns whether these are two different years of four digits.
fn are_two_years(year: &[u8], other: &[u8]) -> bool
    ensures { result ≡ spec.are_two_years year.now other.now }
{
    has_four_digits(year) && has_four_digits(other) && year != other
}

// Returns whether `year` is four digits, and `date` begins with a year of four digits that differs from them.
fn has_other_year(year: &[u8], date: &[u8]) -> bool
    ensures { result ≡ spec.has_other_year year.now date.now }
{
    let end = date.len().min(4);
    are_two_years(year, &date[..end]) && may_follow_year(&date[end..])
}

// Returns whether the `date` of an entry begins with a year of four digits that differs from the four digits of its `year`.
fn has_two_years(said: &Spanned<RawEntry<'_>>) -> bool
    ensures { result ≡ spec.has_two_years (entry_reading_of said.now) }
{
    let year = own_literal(said, "year").trim();
    let date = own_literal(said, "date").trim();
    has_other_year(year.as_bytes(), date.as_bytes())
}

// Returns the finding of an entry with two years.
fn year_finding(alloc: Global, said: &Spanned<RawEntry<'_>>) -> Result<Finding, AllocError>
    ensures { IfOk result (λ finding. finding ≡ spec.year_finding (entry_reading_of said.now)) }
{
    let after = " isn't the year of `date`, which Biber takes";
    let message = named_message(alloc, said.v.key.v, "", "year", after)?;
    Ok(Finding {
        code: Code::TwoYears,
        span: field_place(said, "year"),
        message: Text::from_string(message),
    })
}

/// Appends a finding if the `date` of an entry begins with a year of four digits that differs from the four digits of its `year`, and isn't
/// malformed.
pub(crate) fn add_years(
    alloc: Global,
    found: &mut Vec<Finding>,
    said: &Spanned<RawEntry<'_>>,
    entry: &Entry,
) -> Result<(), AllocError>
    ensures { OnOk result (found.new.items ≡ found.old.items ++ year_findings (entry_reading_of said.now) entry.now) }
{
    if has_two_years(said) && !has_no_date(alloc, said, entry, "date")? {
        found.push(year_finding(alloc, said)?)?;
    }
    Ok(())
}
