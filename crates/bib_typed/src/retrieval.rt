//! The error of getting a field as a value.

ghost use Rattle.std.specs.Prelude.{◌≡◌, Some};
ghost use Rattle.bib_typed.specs.Retrieved.{retrieval_text, retrieval_error};

use bib_tables::type_error::TypeError;
use bib_text::text::Text;
use std::alloc::{AllocError, AllocFailed};
use std::error::Error;
use std::fmt;

/// The error of getting a field as a value.
#[derive(Debug, Clone, PartialEq, Eq, Drop)]
pub enum RetrievalError {
    /// The field is missing. The text is its name. From a getter of a date of an entry, such as `event_date`, it is `year`.
    Missing(Text),
    /// The chunks of the field can't be parsed as a value of the type.
    TypeError(TypeError),
    /// Out of memory.
    OutOfMemory,
}

impl fmt::Display for RetrievalError {
    ghost output = { λ error. Some (retrieval_text error) };

    fn fmt<W: fmt::Write>(&self, f: &mut fmt::Formatter<W>) -> fmt::Result {
        match self {
            RetrievalError::Missing(name) => write!(f, "field {} is missing", name.as_str()),
            RetrievalError::TypeError(error) => write!(f, "{}", error),
            RetrievalError::OutOfMemory => f.write_str("out of memory"),
        }
    }
}

impl Error for RetrievalError {}

/// Converts the error of parsing chunks. Out of memory becomes `OutOfMemory`, and not a `TypeError`.
impl From<TypeError> for RetrievalError {
    ghost from_gives = { λ e error. error ≡ retrieval_error e.kind e };

    fn from(e: TypeError) -> RetrievalError {
        match e.unless_out_of_memory() {
            Ok(e) => RetrievalError::TypeError(e),
            Err(error) => RetrievalError::from(error),
        }
    }
}

impl From<AllocError> for RetrievalError {
    ghost use Rattle.bib_typed.specs.declared.retrieval.RetrievalError.TheVariants.{OutOfMemory};

    ghost from_gives = { λ _ error. error ≡ OutOfMemory };

    fn from(_error: AllocError) -> RetrievalError {
        RetrievalError::OutOfMemory
    }
}

impl<T: Drop> From<AllocFailed<T>> for RetrievalError {
    ghost use Rattle.bib_typed.specs.declared.retrieval.RetrievalError.TheVariants.{OutOfMemory};

    ghost from_gives = { λ _ error. error ≡ OutOfMemory };

    fn from(failed: AllocFailed<T>) -> RetrievalError {
        RetrievalError::from(AllocError::from(failed))
    }
}
