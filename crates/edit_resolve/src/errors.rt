//! Errors of resolving.

ghost use Rattle.std.specs.Prelude.{◌≡◌, IfOk, OnErr};
ghost use Rattle.edit_resolve.specs.Errors.{resolve_error};
ghost use Rattle.edit_resolve.specs.declared.errors.ResolveError.TheVariants.{Cycle, OutOfMemory};

use bib_collections::worklist::OrderError;
use std::alloc::{AllocError, AllocFailed};

/// The error that stopped the writing of inherited fields.
#[derive(Debug, Clone, Copy, PartialEq, Eq)]
pub enum ResolveError {
    /// An entry inherits from itself, directly or through other entries. Holds the index of the first such entry, from 0.
    Cycle(usize),
    /// Memory ran out.
    OutOfMemory,
}

impl ResolveError {
    /// Returns the index of the entry that inherits from itself, or an `AllocError` for `OutOfMemory`.
    pub fn unless_out_of_memory(self) -> Result<usize, AllocError>
        ensures cycle { IfOk result (λ index. self ≡ Cycle index) }
        ensures no_memory { OnErr result (self ≡ OutOfMemory) }
    {
        match self {
            ResolveError::Cycle(index) => Ok(index),
            ResolveError::OutOfMemory => Err(AllocError),
        }
    }
}

impl From<AllocError> for ResolveError {
    ghost from_gives = { λ _ error. error ≡ OutOfMemory };

    fn from(_error: AllocError) -> ResolveError {
        ResolveError::OutOfMemory
    }
}

impl<T: Drop> From<AllocFailed<T>> for ResolveError {
    ghost from_gives = { λ _ error. error ≡ OutOfMemory };

    fn from(failed: AllocFailed<T>) -> ResolveError {
        ResolveError::from(AllocError::from(failed))
    }
}

impl From<OrderError> for ResolveError {
    ghost from_gives = { λ error made. made ≡ resolve_error error };

    fn from(error: OrderError) -> ResolveError {
        match error.unless_out_of_memory() {
            Ok(index) => ResolveError::Cycle(index),
            Err(refused) => ResolveError::from(refused),
        }
    }
}
