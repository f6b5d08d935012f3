//! Parses a term of a condition: a test, or `not` and a test.

ghost use Rattle.std.specs.Prelude.{◌≡◌};
ghost use Rattle.std.specs.Option.{option_map};
ghost use Rattle.bib_values.specs.Numbers.{decimal_of};
ghost use Rattle.bib_select.specs.Conditions as conditions;
ghost use Rattle.bib_select.specs.Segments.{if_ended};
ghost use Rattle.bib_select.specs.Views.{test_reading_of, test_result, placed_of, question_of, segment_of, subject_of, term_result};

use crate::errors::{SelectionError, SelectionErrorKind};
use crate::segments::Segment;
use crate::selection::Comparison;
use crate::tokens::{Placed, Token};

/// The comparison of the text of an entry with that of a test.
#[derive(Clone, Copy)]
pub(crate) enum Operator {
    /// The texts are equal.
    Is,
    /// The texts aren't equal.
    IsNot,
    /// The text of the entry contains that of the test.
    Contains,
    /// The text of the test is a regular expression that matches somewhere.
    Matches,
}

/// The text of a test with its operator and its byte offset.
#[derive(Clone, Copy)]
pub(crate) struct RawText<'s> {
    /// The operator.
    pub(crate) operator: Operator,
    /// The text.
    pub(crate) text: &'s str,
    /// The offset of its token.
    pub(crate) at: usize,
}

/// A test as it is written.
#[derive(Clone, Copy)]
pub(crate) enum RawTest<'s> {
    /// The entry has a field.
    Has(&'s str),
    /// The entry is of a type.
    OfType(&'s str),
    /// The entry isn't of a type.
    OfOtherType(&'s str),
    /// The key is compared with a text.
    Key(RawText<'s>),
    /// A field is compared with a text.
    Field(&'s str, RawText<'s>),
    /// The year is compared with a number.
    Year(Comparison, i64),
}

/// A term as it is written.
#[derive(Clone, Copy)]
pub(crate) struct RawTerm<'s> {
    /// Whether the word `not` is before the test.
    pub(crate) negated: bool,
    /// The test.
    pub(crate) test: RawTest<'s>,
}

/// The subject of a test.
#[derive(Clone, Copy)]
pub(crate) enum Subject<'s> {
    /// The type of the entry.
    EntryType,
    /// Its key.
    Key,
    /// Its year.
    Year,
    /// The field with this name.
    Field(&'s str),
}

/// A subject with its operator.
#[derive(Clone, Copy)]
pub(crate) enum Question<'s> {
    /// Whether the entry is of a type.
    OfType,
    /// Whether it isn't of a type.
    OfOtherType,
    /// The comparison of its key.
    Key(Operator),
    /// The comparison of a field.
    Field(&'s str, Operator),
    /// The comparison of its year.
    Year(Comparison),
}

// Returns the subject that a token names, or `None` for a sign.
fn subject_at<'s>(placed: &Placed<'s>) -> Option<Subject<'s>>
    ensures { option_map subject_of result ≡ conditions.subject_at (placed_of placed.now) }
{
    if placed.is_keyword("type") {
        return Some(Subject::EntryType);
    }
    if placed.is_keyword("key") {
        return Some(Subject::Key);
    }
    if placed.is_keyword("year") {
        return Some(Subject::Year);
    }
    let name = placed.text()?;
    Some(Subject::Field(name))
}

// Returns the comparison of a token that is the sign of one, or `None` for any other token.
fn comparison_at(placed: &Placed<'_>) -> Option<Comparison>
    ensures { result ≡ conditions.comparison_at (placed_of placed.now) }
{
    let Token::Sign(sign) = placed.token else {
        return None;
    };
    match sign {
        "<" => Some(Comparison::Less),
        "<=" => Some(Comparison::AtMost),
        "=" => Some(Comparison::Equal),
        "!=" => Some(Comparison::NotEqual),
        ">=" => Some(Comparison::AtLeast),
        ">" => Some(Comparison::Greater),
        _ => None,
    }
}

// Returns the operator on texts that a token is: the sign `=`, `!=` or `~`, or the word `contains`. Returns `None` for any other token.
fn operator_at(placed: &Placed<'_>) -> Option<Operator>
    ensures { result ≡ conditions.operator_at (placed_of placed.now) }
{
    if placed.is_keyword("contains") {
        return Some(Operator::Contains);
    }
    let Token::Sign(sign) = placed.token else {
        return None;
    };
    match sign {
        "=" => Some(Operator::Is),
        "!=" => Some(Operator::IsNot),
        "~" => Some(Operator::Matches),
        _ => None,
    }
}

// Returns the question that an operator asks about the type, or `None` for `contains` and `~`.
fn type_question(operator: Operator) -> Option<Question<'static>>
    ensures { option_map question_of result ≡ conditions.type_question operator }
{
    match operator {
        Operator::Is => Some(Question::OfType),
        Operator::IsNot => Some(Question::OfOtherType),
        Operator::Contains | Operator::Matches => None,
    }
}

// Returns the question made of a subject and the operator of a token, or `None` if the token is no operator for the subject.
fn question_at<'s>(subject: Subject<'s>, placed: &Placed<'_>) -> Option<Question<'s>>
    ensures { option_map question_of result ≡ conditions.question_at (subject_of subject.entry) (placed_of placed.now) }
{
    match subject {
        Subject::EntryType => type_question(operator_at(placed)?),
        Subject::Key => Some(Question::Key(operator_at(placed)?)),
        Subject::Field(name) => Some(Question::Field(name, operator_at(placed)?)),
        Subject::Year => Some(Question::Year(comparison_at(placed)?)),
    }
}

// Returns the test made of a question and the text of a token, or `None` if the token has no text that fits the question.
fn raw_test_at<'s>(question: Question<'s>, placed: &Placed<'s>) -> Option<RawTest<'s>>
    ensures { option_map test_reading_of result ≡ conditions.reading_at (question_of question.entry) (placed_of placed.now) }
{
    let text = placed.text()?;
    let at = placed.at;
    match question {
        Question::OfType => Some(RawTest::OfType(text)),
        Question::OfOtherType => Some(RawTest::OfOtherType(text)),
        Question::Key(operator) => Some(RawTest::Key(RawText { operator, text, at })),
        Question::Field(name, operator) => Some(RawTest::Field(
            name,
            RawText { operator, text, at },
        )),
        Question::Year(comparison) => Some(RawTest::Year(comparison, decimal(text)?)),
    }
}

// Returns the number that a text spells in decimal digits, with or without a sign, if it is an `i64`.
fn decimal(text: &str) -> Option<i64>
    ensures { result ≡ decimal_of text.now }
{
    text.parse::<i64>().ok()
}

// Returns the kind of the error for a subject if no operator for it follows.
fn missing_operator(subject: Subject<'_>) -> SelectionErrorKind
    ensures { result ≡ conditions.missing_operator (subject_of subject.entry) }
{
    match subject {
        Subject::EntryType => SelectionErrorKind::MissingTypeOperator,
        Subject::Year => SelectionErrorKind::MissingYearOperator,
        Subject::Key | Subject::Field(_) => SelectionErrorKind::MissingOperator,
    }
}

// Returns the kind of the error for a question if no text that fits it follows.
fn missing_text(question: Question<'_>) -> SelectionErrorKind
    ensures { result ≡ conditions.missing_text (question_of question.entry) }
{
    match question {
        Question::Year(_) => SelectionErrorKind::MissingYear,
        _ => SelectionErrorKind::MissingText,
    }
}

// Returns `test`, or an error if the segment has a token.
fn if_ended<'s>(test: RawTest<'s>, segment: Segment<'_, 's>) -> Result<RawTest<'s>, SelectionError>
    ensures { test_result result ≡ if_ended (test_reading_of test.entry) (segment_of segment.entry) }
{
    if segment.tokens.is_empty() {
        return Ok(test);
    }
    Err(segment.error(SelectionErrorKind::MissingJoint))
}

// Returns the test made of a question and the text in a segment. The segment must have no other token.
fn answer_test<'s>(
    question: Question<'s>,
    segment: Segment<'_, 's>,
) -> Result<RawTest<'s>, SelectionError>
    ensures { test_result result ≡
        conditions.answer_test (question_of question.entry) (segment_of segment.entry) }
{
    let Some(first) = segment.first() else {
        return Err(segment.error(missing_text(question)));
    };
    let Some(test) = raw_test_at(question, &first) else {
        return Err(segment.error(missing_text(question)));
    };
    if_ended(test, segment.rest())
}

// Returns the test made of a subject, and of the operator and the text in a segment. The segment must have no other token.
fn operator_test<'s>(
    subject: Subject<'s>,
    segment: Segment<'_, 's>,
) -> Result<RawTest<'s>, SelectionError>
    ensures { test_result result ≡
        conditions.operator_test (subject_of subject.entry) (segment_of segment.entry) }
{
    let Some(first) = segment.first() else {
        return Err(segment.error(missing_operator(subject)));
    };
    let Some(question) = question_at(subject, &first) else {
        return Err(segment.error(missing_operator(subject)));
    };
    answer_test(question, segment.rest())
}

// Parses all tokens of a segment as a test: a subject, an operator and a text.
fn subject_test<'s>(segment: Segment<'_, 's>) -> Result<RawTest<'s>, SelectionError>
    ensures { test_result result ≡ conditions.subject_test (segment_of segment.entry) }
{
    let Some(first) = segment.first() else {
        return Err(segment.error(SelectionErrorKind::MissingTest));
    };
    let Some(subject) = subject_at(&first) else {
        return Err(segment.error(SelectionErrorKind::MissingTest));
    };
    operator_test(subject, segment.rest())
}

// Returns the test after `has`.
fn has_test<'s>(segment: Segment<'_, 's>) -> Result<RawTest<'s>, SelectionError>
    ensures { test_result result ≡ conditions.has_test (segment_of segment.entry) }
{
    let Some(first) = segment.first() else {
        return Err(segment.error(SelectionErrorKind::MissingField));
    };
    let Some(name) = first.text() else {
        return Err(segment.error(SelectionErrorKind::MissingField));
    };
    if_ended(RawTest::Has(name), segment.rest())
}

// Parses all tokens of a segment as a test.
fn test<'s>(segment: Segment<'_, 's>) -> Result<RawTest<'s>, SelectionError>
    ensures { test_result result ≡ conditions.test_reading (segment_of segment.entry) }
{
    if segment.opens_with("has") {
        return has_test(segment.rest());
    }
    subject_test(segment)
}

/// Parses all tokens of a segment as a term: a test, or `not` and a test.
pub(crate) fn term<'s>(segment: Segment<'_, 's>) -> Result<RawTerm<'s>, SelectionError>
    ensures { term_result result ≡ conditions.term_reading (segment_of segment.entry) }
{
    if segment.opens_with("not") {
        let test = test(segment.rest())?;
        return Ok(RawTerm {
            negated: true,
            test,
        });
    }
    let test = test(segment)?;
    Ok(RawTerm {
        negated: false,
        test,
    })
}
