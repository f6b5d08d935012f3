//! Parsed conditions, and whether an entry meets them.

ghost use Rattle.std.specs.Prelude.{◌≡◌, IfOk, is_some, false};
ghost use Rattle.std.specs.FinMap as by_name;
ghost use Rattle.std.specs.List.{list_all};
ghost use Rattle.std.specs.Option.{option_map_or};
ghost use Rattle.bib_chunks.specs.Values as values;
ghost use Rattle.bib_queries.specs.Answers.{has_part};
ghost use Rattle.regex.specs.Patterns.{find_str};
ghost use Rattle.regex.specs.Strings.{regex_pattern};
ghost use Rattle.bib_select.specs.Selected.{compares_so, meets, meets_term, passes_test, passes_text_test, publication_year};

use crate::years::year;
use bib_chunks::chunk::format_verbatim;
use bib_entry::entry::Entry;
use bib_tables::mechanics::EntryType;
use bib_text::items::Items;
use bib_text::text::Text;
use regex::Regex;
use std::alloc::{AllocError, Global};

/// A test of a text. The case of letters matters, unless a regular expression ignores it.
#[derive(Drop)]
pub enum TextTest {
    /// The text is this one.
    Is(Text),
    /// The text is another one.
    IsNot(Text),
    /// The text contains this one.
    Contains(Text),
    /// The expression matches somewhere in the text.
    Matches(Regex),
}

/// A comparison of two numbers.
#[derive(Debug, Clone, Copy, PartialEq, Eq)]
pub enum Comparison {
    /// The first is less than the second.
    Less,
    /// The first is the second, or less.
    AtMost,
    /// The two are equal.
    Equal,
    /// The two aren't equal.
    NotEqual,
    /// The first is the second, or greater.
    AtLeast,
    /// The first is greater than the second.
    Greater,
}

/// A test of an entry.
#[derive(Drop)]
pub enum Test {
    /// The entry has a field with this name.
    Has(Text),
    /// The entry is of this type.
    OfType(EntryType),
    /// The entry isn't of this type.
    OfOtherType(EntryType),
    /// The key of the entry passes the test.
    Key(TextTest),
    /// The entry has a field with this name, and the text of the field passes the test.
    Field(Text, TextTest),
    /// The entry has a date that can be parsed, and the comparison holds for its year and this one.
    Year(Comparison, i64),
}

/// A test of an entry, or its negation.
#[derive(Drop)]
pub struct Term {
    /// Whether the word `not` is before the test. If it is, an entry meets the term if it doesn't pass the test.
    pub negated: bool,
    /// The test.
    pub test: Test,
}

/// A parsed condition. An entry meets it if it meets all terms of one of the alternatives.
#[derive(Drop)]
pub struct Selection {
    /// The alternatives.
    pub alternatives: Items<Items<Term>>,
}

// Returns whether a regular expression matches somewhere in a text.
fn matches(alloc: Global, regex: &Regex, text: &str) -> Result<bool, AllocError>
    ensures { IfOk result (λ found. found ≡ is_some (find_str (regex_pattern regex.now) text.now 0)) }
{
    let mut matcher = regex.matcher(alloc)?;
    Ok(matcher.is_match(text))
}

// Returns whether a text contains another one.
fn contains(text: &str, part: &str) -> bool
    ensures { result ≡ has_part part.now text.now }
{
    text.contains(part)
}

impl TextTest {
    // Returns whether a text passes the test.
    fn passes(&self, alloc: Global, text: &str) -> Result<bool, AllocError>
        ensures { IfOk result (λ passed. passed ≡ passes_text_test self.now text.now) }
    {
        match self {
            TextTest::Is(wanted) => Ok(text == wanted.as_str()),
            TextTest::IsNot(wanted) => Ok(text != wanted.as_str()),
            TextTest::Contains(wanted) => Ok(contains(text, wanted.as_str())),
            TextTest::Matches(regex) => matches(alloc, regex, text),
        }
    }
}

impl Comparison {
    // Returns whether the comparison holds for two numbers.
    fn compares(self, number: i64, other: i64) -> bool
        ensures { result ≡ compares_so self number other }
    {
        let ordering = number.cmp(&other);
        match self {
            Comparison::Less => ordering.is_lt(),
            Comparison::AtMost => ordering.is_le(),
            Comparison::Equal => ordering.is_eq(),
            Comparison::NotEqual => ordering.is_ne(),
            Comparison::AtLeast => ordering.is_ge(),
            Comparison::Greater => ordering.is_gt(),
        }
    }
}

// Returns whether an entry has a field with this name whose text passes the test.
fn field_passes(
    alloc: Global,
    entry: &Entry,
    name: &str,
    test: &TextTest,
) -> Result<bool, AllocError>
    ensures { IfOk result (λ passed. passed ≡ option_map_or (λ chunks. passes_text_test test.now (values.text chunks))
        (by_name.get entry.now.fields name.now) false) }
{
    let Some(chunks) = entry.get(name) else {
        return Ok(false);
    };
    let text = format_verbatim(alloc, chunks)?;
    test.passes(alloc, text.as_str())
}

// Returns whether an entry has a year for which the comparison with `other` holds.
fn year_compares(
    alloc: Global,
    entry: &Entry,
    comparison: Comparison,
    other: i64,
) -> Result<bool, AllocError>
    ensures { IfOk result (λ passed. passed ≡ option_map_or (λ year. compares_so comparison year other)
        (publication_year entry.now) false) }
{
    match year(alloc, entry)? {
        Some(year) => Ok(comparison.compares(i64::from(year), other)),
        None => Ok(false),
    }
}

impl Test {
    // Returns whether an entry passes the test.
    fn passes(&self, alloc: Global, entry: &Entry) -> Result<bool, AllocError>
        ensures { IfOk result (λ passed. passed ≡ passes_test entry.now self.now) }
    {
        match self {
            Test::Has(name) => Ok(entry.get(name.as_str()).is_some()),
            Test::OfType(kind) => Ok(entry.entry_type == *kind),
            Test::OfOtherType(kind) => Ok(entry.entry_type != *kind),
            Test::Key(test) => test.passes(alloc, entry.key.as_str()),
            Test::Field(name, test) => field_passes(alloc, entry, name.as_str(), test),
            Test::Year(comparison, number) => year_compares(alloc, entry, *comparison, *number),
        }
    }
}

impl Term {
    // Returns whether an entry meets the term.
    fn is_met(&self, alloc: Global, entry: &Entry) -> Result<bool, AllocError>
        ensures { IfOk result (λ met. met ≡ meets_term entry.now self.now) }
    {
        let passes = self.test.passes(alloc, entry)?;
        Ok(if self.negated { !passes } else { passes })
    }
}

// Returns whether an entry meets all of these terms.
fn meets_all(alloc: Global, terms: &Items<Term>, entry: &Entry) -> Result<bool, AllocError>
    ensures { IfOk result (λ met. met ≡ list_all (meets_term entry.now) terms.now) }
{
    'terms: for term in terms.as_slice() {
        if !term.is_met(alloc, entry)? {
            return Ok(false);
        }
    }
    Ok(true)
}

impl Selection {
    /// Returns whether an entry meets the condition: all terms of one of its alternatives. The only error is out of memory.
    pub fn selects(&self, alloc: Global, entry: &Entry) -> Result<bool, AllocError>
        ensures { IfOk result (λ met. met ≡ meets entry.now self.now) }
    {
        'alternatives: for terms in self.alternatives.as_slice() {
            if meets_all(alloc, terms, entry)? {
                return Ok(true);
            }
        }
        Ok(false)
    }
}
