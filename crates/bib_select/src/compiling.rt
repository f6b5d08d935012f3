//! Compiles a condition: its regular expressions, the names of entry types, and the names of fields in ASCII lower case.

ghost use Rattle.std.specs.Prelude.{◌≡◌, ◌≢◌, ℕ, List, map, IfOk, IfErr};
ghost use Rattle.std.specs.List.{AllZip};
ghost use Rattle.std.specs.Str.{str_to_ascii_lowercase};
ghost use Rattle.regex.specs.Strings.{IsDefaultFailure};
ghost use Rattle.regex.specs.declared.error.Error.TheVariants as regex_error;
ghost use Rattle.bib_select.specs.Compiled.{HasAnyExpression, HasExpression, HasTermExpression, HasText, HasTextExpression, IsCompileError, IsCompiledFrom, IsTermOf, IsTestOf, IsTextTestOf};
ghost use Rattle.bib_select.specs.Views.{test_reading_of, term_reading_of, terms_reading_of, text_reading_of};

use crate::errors::{SelectionError, SelectionErrorKind};
use crate::selection::{Term, Test, TextTest};
use crate::terms::{Operator, RawTerm, RawTest, RawText};
use bib_tables::mechanics::EntryType;
use bib_text::items::Items;
use bib_text::text::Text;
use regex::Regex;
use std::alloc::{AllocError, Global};

// Returns the error for a regular expression at a byte offset.
fn expression_error(cause: regex::Error, at: usize) -> SelectionError
    requires { cause ≢ regex_error.Internal }
    ensures { (source : List ℕ) → IsDefaultFailure source cause → IsCompileError (HasText source at) result }
{
    match cause {
        regex::Error::OutOfMemory => SelectionError::OutOfMemory,
        _ => SelectionError::Malformed {
            kind: SelectionErrorKind::Regex(cause),
            at,
        },
    }
}

// Compiles a regular expression at a byte offset.
fn expression(alloc: Global, source: &str, at: usize) -> Result<Regex, SelectionError>
    ensures found { IfOk result (IsCompiledFrom source.now) }
    ensures refused { IfErr result (IsCompileError (HasText source.now at)) }
{
    match Regex::new(alloc, source) {
        Ok(regex) => Ok(regex),
        Err(cause) => Err(expression_error(cause, at)),
    }
}

// Returns the test of a text.
fn text_test(alloc: Global, text: RawText<'_>) -> Result<TextTest, SelectionError>
    ensures found { IfOk result (IsTextTestOf (text_reading_of text.entry)) }
    ensures refused { IfErr result (IsCompileError (HasTextExpression (text_reading_of text.entry))) }
{
    match text.operator {
        Operator::Is => Ok(TextTest::Is(Text::from_str(alloc, text.text)?)),
        Operator::IsNot => Ok(TextTest::IsNot(Text::from_str(alloc, text.text)?)),
        Operator::Contains => Ok(TextTest::Contains(Text::from_str(alloc, text.text)?)),
        Operator::Matches => Ok(TextTest::Matches(expression(alloc, text.text, text.at)?)),
    }
}

// Returns the name of a field in ASCII lower case.
fn field_name(alloc: Global, name: &str) -> Result<Text, AllocError>
    ensures { IfOk result (λ lowered. lowered ≡ str_to_ascii_lowercase name.now) }
{
    Ok(Text::from_string(name.to_ascii_lowercase(alloc)?))
}

// Returns the test of an entry.
fn test(alloc: Global, raw: RawTest<'_>) -> Result<Test, SelectionError>
    ensures found { IfOk result (IsTestOf (test_reading_of raw.entry)) }
    ensures refused { IfErr result (IsCompileError (HasExpression (test_reading_of raw.entry))) }
{
    match raw {
        RawTest::Has(name) => Ok(Test::Has(field_name(alloc, name)?)),
        RawTest::OfType(name) => Ok(Test::OfType(EntryType::new(alloc, name)?)),
        RawTest::OfOtherType(name) => Ok(Test::OfOtherType(EntryType::new(alloc, name)?)),
        RawTest::Key(text) => Ok(Test::Key(text_test(alloc, text)?)),
        RawTest::Field(name, text) => {
            let name = field_name(alloc, name)?;
            Ok(Test::Field(name, text_test(alloc, text)?))
        }
        RawTest::Year(comparison, number) => Ok(Test::Year(comparison, number)),
    }
}

// Returns the terms of an alternative.
fn terms(alloc: Global, raw: &[RawTerm<'_>]) -> Result<Items<Term>, SelectionError>
    ensures found { IfOk result (AllZip IsTermOf (map term_reading_of raw.now)) }
    ensures refused { IfErr result (IsCompileError (HasTermExpression (map term_reading_of raw.now))) }
{
    let mut terms = Items::new(alloc);
    'terms: for term in raw {
        terms.push(Term {
            negated: term.negated,
            test: test(alloc, term.test)?,
        })?;
    }
    Ok(terms)
}

/// Returns the alternatives of a condition. The error is a regular expression that can't be compiled, or out of memory.
pub(crate) fn alternatives(
    alloc: Global,
    raw: &[Vec<RawTerm<'_>>],
) -> Result<Items<Items<Term>>, SelectionError>
    ensures found { IfOk result (AllZip (AllZip IsTermOf) (map terms_reading_of raw.now)) }
    ensures refused { IfErr result (IsCompileError (HasAnyExpression (map terms_reading_of raw.now))) }
{
    let mut alternatives = Items::new(alloc);
    'alternatives: for raw_terms in raw {
        alternatives.push(terms(alloc, raw_terms)?)?;
    }
    Ok(alternatives)
}
