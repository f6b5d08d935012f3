//! The errors of texts that aren't dates.

ghost use Rattle.std.specs.Prelude.{◌≡◌, ◌≢◌};
ghost use Rattle.bib_tables.specs.declared.type_error.TypeErrorKind.TheVariants.{OutOfMemory};
ghost use Rattle.bib_dates.specs.Code.{error_kind_of};
ghost use Rattle.bib_dates.specs.Readings.{IsDateKind, IsUnreadKind};

use bib_tables::type_error::TypeErrorKind;

// A kind of error that the definition of dates specifies. Out of memory is not an error of a text.
#[derive(Debug, Clone, Copy, PartialEq, Eq)]
pub(crate) enum SpecifiedKind {
    UndefinedRange,
    DayOutOfRange,
    MonthOutOfRange,
    InvalidNumber,
    WrongNumberOfDigits,
    InvalidFormat,
    YearZeroCE,
}

// A kind of error that a text may have if the definition specifies none.
#[derive(Debug, Clone, Copy, PartialEq, Eq)]
pub(crate) enum UnspecifiedKind {
    InvalidNumber,
    MissingNumber,
    WrongNumberOfDigits,
    InvalidFormat,
}

// The error of a text that can't be parsed: the definition specifies its kind, or it doesn't.
#[derive(Debug, Clone, Copy, PartialEq, Eq)]
pub(crate) enum ReadError {
    Specified(SpecifiedKind),
    Unspecified(UnspecifiedKind),
}

impl SpecifiedKind {
    // Returns this specified kind as the kind of a type error.
    pub(crate) fn kind(self) -> TypeErrorKind
        ensures value { result ≡ error_kind_of self }
        ensures memory { result ≢ OutOfMemory }
        ensures date { IsDateKind result }
    {
        match self {
            SpecifiedKind::UndefinedRange => TypeErrorKind::UndefinedRange,
            SpecifiedKind::DayOutOfRange => TypeErrorKind::DayOutOfRange,
            SpecifiedKind::MonthOutOfRange => TypeErrorKind::MonthOutOfRange,
            SpecifiedKind::InvalidNumber => TypeErrorKind::InvalidNumber,
            SpecifiedKind::WrongNumberOfDigits => TypeErrorKind::WrongNumberOfDigits,
            SpecifiedKind::InvalidFormat => TypeErrorKind::InvalidFormat,
            SpecifiedKind::YearZeroCE => TypeErrorKind::YearZeroCE,
        }
    }
}

impl UnspecifiedKind {
    // Returns this kind, which the definition doesn't specify, as the kind of a type error.
    pub(crate) fn kind(self) -> TypeErrorKind
        ensures memory { result ≢ OutOfMemory }
        ensures unread { IsUnreadKind result }
    {
        match self {
            UnspecifiedKind::InvalidNumber => TypeErrorKind::InvalidNumber,
            UnspecifiedKind::MissingNumber => TypeErrorKind::MissingNumber,
            UnspecifiedKind::WrongNumberOfDigits => TypeErrorKind::WrongNumberOfDigits,
            UnspecifiedKind::InvalidFormat => TypeErrorKind::InvalidFormat,
        }
    }
}
