//! Errors of parsing chunks as a value of a type.

ghost use Rattle.std.specs.Prelude.{◌≡◌, ◌≢◌, Some, IfOk, OnErr};
ghost use Rattle.bib_tables.specs.TypeError.{type_kind_text, type_error_text, no_memory};
ghost use Rattle.bib_tables.specs.declared.type_error.TypeErrorKind.TheVariants.{OutOfMemory};

use bib_text::spanned::Span;
use std::alloc::{AllocError, AllocFailed};
use std::error::Error;
use std::fmt;

/// Why chunks couldn't be parsed as a value, and where.
#[derive(Debug, Clone, PartialEq, Eq, Drop)]
pub struct TypeError {
    /// The span of the error, in bytes: that of the chunks, or of the white space that `parse_hyphen` or `parse_colon` consumed. For
    /// a day after a month, it is that of the digits in the text of the month. It is `0..0` for the kind `OutOfMemory`.
    pub span: Span,
    /// The reason.
    pub kind: TypeErrorKind,
}

/// Why chunks couldn't be parsed as a value.
#[derive(Debug, Clone, Copy, PartialEq, Eq)]
#[non_exhaustive]
pub enum TypeErrorKind {
    /// A range of dates has neither a start nor an end.
    UndefinedRange,
    /// A day isn't from 1 to 31, or its month has no such day.
    DayOutOfRange,
    /// A month isn't from 1 to 12.
    MonthOutOfRange,
    /// A text isn't a number, a range or a list of ranges, or a number is too large or, in a time, out of range.
    InvalidNumber,
    /// A number is missing, or the span of chunks that aren't a number is empty or reversed.
    MissingNumber,
    /// A part of a date has too few or too many digits.
    WrongNumberOfDigits,
    /// A date has an invalid format.
    InvalidFormat,
    /// The code of a gender is unknown.
    UnknownGender,
    /// A range of numbers is malformed. Never returned; kept so that all names of the Rust crate `biblatex` exist.
    InvalidIntegerRange,
    /// The name of a pagination scheme is unknown.
    UnknownPagination,
    /// The name of an editor's role is unknown. Never returned; kept so that all names of the Rust crate `biblatex` exist.
    UnknownEditorType,
    /// The name of a language is unknown.
    UnknownLangId,
    /// A year with an era, such as CE or BCE, is 0.
    YearZeroCE,
    /// Out of memory.
    OutOfMemory,
}

impl fmt::Display for TypeErrorKind {
    ghost output = { λ kind. Some (type_kind_text kind) };

    fn fmt<W: fmt::Write>(&self, f: &mut fmt::Formatter<W>) -> fmt::Result {
        f.write_str(match self {
            Self::UndefinedRange => "range must not be open on both sides",
            Self::DayOutOfRange => "day out of range (must be between 1 and 31)",
            Self::MonthOutOfRange => "month out of range (must be between 1 and 12)",
            Self::InvalidNumber => "invalid number",
            Self::MissingNumber => "missing number",
            Self::WrongNumberOfDigits => "wrong number of digits",
            Self::InvalidFormat => "invalid format",
            Self::UnknownGender => "unknown gender",
            Self::InvalidIntegerRange => "invalid integer range",
            Self::UnknownPagination => "unknown pagination",
            Self::UnknownEditorType => "unknown editor type",
            Self::UnknownLangId => "unknown language id",
            Self::YearZeroCE => "year 0 CE or BCE does not exist",
            Self::OutOfMemory => "out of memory",
        })
    }
}

impl fmt::Display for TypeError {
    ghost output = { λ error. Some (type_error_text error) };

    fn fmt<W: fmt::Write>(&self, f: &mut fmt::Formatter<W>) -> fmt::Result {
        write!(f, "{}: {}-{}", self.kind, self.span.start, self.span.end)
    }
}

impl Error for TypeError {}

impl TypeError {
    /// Returns the error itself if it is one of the chunks, and an `AllocError` if it is `OutOfMemory`.
    pub fn unless_out_of_memory(self) -> Result<TypeError, AllocError>
        ensures ok { IfOk result (λ error. (error ≡ self) × (self.kind ≢ OutOfMemory)) }
        ensures err { OnErr result (self.kind ≡ OutOfMemory) }
    {
        match self.kind {
            TypeErrorKind::OutOfMemory => Err(AllocError),
            _ => Ok(self),
        }
    }
}

impl From<AllocError> for TypeError {
    ghost from_gives = { λ _ error. error ≡ no_memory };

    fn from(_error: AllocError) -> TypeError {
        TypeError {
            span: 0..0,
            kind: TypeErrorKind::OutOfMemory,
        }
    }
}

impl<T: Drop> From<AllocFailed<T>> for TypeError {
    ghost from_gives = { λ _ error. error ≡ no_memory };

    fn from(failed: AllocFailed<T>) -> TypeError {
        TypeError::from(AllocError::from(failed))
    }
}
