//! The errors of parsing a pattern.

ghost use Rattle.std.specs.Prelude.{◌≡◌};
ghost use Rattle.bib_keys.specs.declared.errors.PatternError.TheVariants.{OutOfMemory};

use std::alloc::{AllocError, AllocFailed};
use thiserror::Error;

/// The reason why parsing a pattern failed. The number is an offset in bytes.
#[derive(Debug, Clone, Copy, PartialEq, Eq, Error)]
pub enum PatternError {
    /// The character at this offset isn't allowed in a key.
    #[error("a key can't contain the character at byte {0}, only ASCII letters, digits and `+-./:_`")]
    NotInKeys(usize),
    /// The opening brace at this offset doesn't begin a placeholder.
    #[error("expected `{{author}}`, `{{title}}` or `{{year}}` at byte {0}, or one of them with a number, such as `{{title:3}}`")]
    NoPlaceholder(usize),
    /// Out of memory.
    #[error("out of memory")]
    OutOfMemory,
}

impl From<AllocError> for PatternError {
    ghost from_gives = { λ _ error. error ≡ OutOfMemory };

    fn from(_error: AllocError) -> PatternError {
        PatternError::OutOfMemory
    }
}

impl<T: Drop> From<AllocFailed<T>> for PatternError {
    ghost from_gives = { λ _ error. error ≡ OutOfMemory };

    fn from(failed: AllocFailed<T>) -> PatternError {
        PatternError::from(AllocError::from(failed))
    }
}
