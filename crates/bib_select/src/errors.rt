//! The reasons for refusing a condition.

ghost use Rattle.std.specs.Prelude.{◌≡◌};
ghost use Rattle.bib_select.specs.declared.errors.SelectionError.TheVariants.{OutOfMemory};

use std::alloc::{AllocError, AllocFailed};
use std::fmt;
use thiserror::Error;

/// The kind of an error in the text of a condition.
#[derive(Debug, Clone, Copy, PartialEq, Eq)]
pub enum SelectionErrorKind {
    /// A quote isn't closed.
    UnclosedQuote,
    /// A test is missing.
    MissingTest,
    /// The name of a field is missing after `has`.
    MissingField,
    /// No operator comes after `key` or the name of a field.
    MissingOperator,
    /// Neither `=` nor `!=` comes after `type`.
    MissingTypeOperator,
    /// No sign of a comparison of numbers comes after `year`.
    MissingYearOperator,
    /// A text is missing after an operator.
    MissingText,
    /// A year is missing after an operator.
    MissingYear,
    /// A token other than `and` and `or` comes after a test.
    MissingJoint,
    /// A regular expression can't be compiled.
    Regex(regex::Error),
}

impl fmt::Display for SelectionErrorKind {
    fn fmt<W: fmt::Write>(&self, f: &mut fmt::Formatter<W>) -> fmt::Result {
        match self {
            Self::UnclosedQuote => write!(f, "the quote isn't closed"),
            Self::MissingTest => {
                write!(
                    f,
                    "expected a test, for example `type = article` or `has doi`"
                )
            }
            Self::MissingField => write!(f, "expected the name of a field"),
            Self::MissingOperator => write!(f, "expected `=`, `!=`, `contains` or `~`"),
            Self::MissingTypeOperator => write!(f, "expected `=` or `!=`"),
            Self::MissingYearOperator => { write!(f, "expected `=`, `!=`, `<`, `<=`, `>` or `>=`") }
            Self::MissingText => write!(f, "expected a text"),
            Self::MissingYear => write!(f, "expected a year"),
            Self::MissingJoint => write!(f, "expected `and` or `or`"),
            Self::Regex(error) => write!(f, "malformed regular expression ({error})"),
        }
    }
}

/// The reason why a condition can't be parsed.
#[derive(Debug, Clone, Copy, PartialEq, Eq, Error)]
pub enum SelectionError {
    /// The text is no condition, or a regular expression in it can't be compiled.
    #[error("{kind} at byte {at}")]
    Malformed {
        /// The kind of the error.
        kind: SelectionErrorKind,
        /// The byte offset of the token that doesn't fit, of the quote that isn't closed, or of the token with the regular
        /// expression that can't be compiled. If the text ends too early, its length.
        at: usize,
    },
    /// Out of memory.
    #[error("out of memory")]
    OutOfMemory,
}

impl From<AllocError> for SelectionError {
    ghost from_gives = { λ _ error. error ≡ OutOfMemory };

    fn from(_error: AllocError) -> SelectionError {
        SelectionError::OutOfMemory
    }
}

impl<T: Drop> From<AllocFailed<T>> for SelectionError {
    ghost from_gives = { λ _ error. error ≡ OutOfMemory };

    fn from(failed: AllocFailed<T>) -> SelectionError {
        SelectionError::from(AllocError::from(failed))
    }
}
