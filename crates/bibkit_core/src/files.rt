//! The trait for reading files.

ghost use Rattle.std.specs.Prelude.{◌≡◌, ◌≢◌, ℕ, List, Option, Some, None, IfOk, IfErr};

use std::alloc::{AllocError, Global};

/// The error of reading a file.
#[derive(Debug, Clone, Copy, PartialEq, Eq)]
pub enum FileError {
    /// No file has this name.
    NotFound,
    /// Permission is denied.
    Denied,
    /// The file is a folder.
    Folder,
    /// Reading the file failed for another reason.
    Failed,
    /// Out of memory.
    OutOfMemory,
}

impl FileError {
    /// Returns `AllocError` for out of memory, and `Ok` with any other error.
    pub fn unless_out_of_memory(self) -> Result<Self, AllocError>
        ensures { IfOk result (λ e. (e ≡ self) × (e ≢ FileError.OutOfMemory)) }
    {
        match self {
            Self::OutOfMemory => Err(AllocError),
            _ => Ok(self),
        }
    }

    /// Returns the message of the error.
    pub fn text(self) -> &'static str {
        match self {
            Self::NotFound => "there is no such file",
            Self::Denied => "it may not be read",
            Self::Folder => "it is a folder",
            Self::Failed => "it can't be read",
            Self::OutOfMemory => "there is no memory for it",
        }
    }
}

/// Reads files by their names.
pub trait Files {
    // Whether one call with this name may lead from the first state to the second and return these bytes, or fail for a reason other than
    // out of memory (`None`).
    ghost reads: { Self → List ℕ → Option (List ℕ) → Self → Type 0 };

    /// Returns all bytes of the file with this name, which may be a name for standard input.
    fn read(&mut self, alloc: Global, name: &str) -> Result<Vec<u8>, FileError>
        ensures given { IfOk result (λ bytes. reads self.old name.now (Some bytes.items) self.new) }
        ensures failed { IfErr result (λ e. e ≢ FileError.OutOfMemory →
            reads self.old name.now None self.new) };
}
