//! Errors of expanding abbreviations.

ghost use Rattle.std.specs.Prelude.{◌≡◌, IfOk, OnErr};
ghost use Rattle.edit_strings.specs.declared.errors.ExpandError.TheVariants.{EarlyUse, OutOfMemory};

use std::alloc::{AllocError, AllocFailed};
use thiserror::Error;

/// The error that stopped the expansion of abbreviations.
#[derive(Debug, Clone, Copy, PartialEq, Eq, Error)]
pub enum ExpandError {
    /// A definition uses its own name, or one that is only defined later. Holds the index of the first such definition.
    #[error("a definition uses its own name, or one that is defined later")]
    EarlyUse(usize),
    /// Memory ran out.
    #[error("out of memory")]
    OutOfMemory,
}

impl ExpandError {
    /// Returns the index of the definition that uses its own name, or one that is only defined later. For `OutOfMemory`, returns an
    /// `AllocError`.
    pub fn unless_out_of_memory(self) -> Result<usize, AllocError>
        ensures early_use { IfOk result (λ index. self ≡ EarlyUse index) }
        ensures no_memory { OnErr result (self ≡ OutOfMemory) }
    {
        match self {
            ExpandError::EarlyUse(index) => Ok(index),
            ExpandError::OutOfMemory => Err(AllocError),
        }
    }
}

impl From<AllocError> for ExpandError {
    ghost from_gives = { λ _ error. error ≡ OutOfMemory };

    fn from(_error: AllocError) -> ExpandError {
        ExpandError::OutOfMemory
    }
}

impl<T: Drop> From<AllocFailed<T>> for ExpandError {
    ghost from_gives = { λ _ error. error ≡ OutOfMemory };

    fn from(failed: AllocFailed<T>) -> ExpandError {
        ExpandError::from(AllocError::from(failed))
    }
}
