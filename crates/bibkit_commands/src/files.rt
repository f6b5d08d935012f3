//! Reads the files of the system and standard input.

use bibkit_core::files::{FileError, Files};
use std::alloc::Global;
use std::io::{ErrorKind, Read};
use std::{fs, io, rt};

/// The files of the system, and standard input.
#[derive(Drop)]
pub struct SystemFiles<'r, 'n, R> {
    rt: &'r R,
    input: &'n str,
}

impl<'r, 'n, R> SystemFiles<'r, 'n, R> {
    /// Returns the files of a runtime. The file `input` is standard input.
    pub fn new(rt: &'r R, input: &'n str) -> Self {
        SystemFiles { rt, input }
    }
}

// Returns the rest of standard input.
fn read_input<R: Input>(rt: &R, alloc: Global) -> io::Result<Vec<u8>> {
    let mut bytes = Vec::new(alloc);
    let mut reader = rt.reader();
    reader.read_to_end(&mut bytes)?;
    Ok(bytes)
}

// Returns the error of reading a file for a kind of system error.
fn file_error(kind: ErrorKind) -> FileError {
    match kind {
        ErrorKind::NotFound => FileError::NotFound,
        ErrorKind::PermissionDenied => FileError::Denied,
        ErrorKind::IsADirectory => FileError::Folder,
        ErrorKind::OutOfMemory => FileError::OutOfMemory,
        _ => FileError::Failed,
    }
}

impl<'r, 'n, R: rt::Files + Input + AllocGlobal> Files for SystemFiles<'r, 'n, R> {
    // Nothing is known of the contents of the system's files.
    ghost reads = { λ old name bytes new. Unit {0} };

    fn read(&mut self, alloc: Global, name: &str) -> Result<Vec<u8>, FileError> {
        let read = if name == self.input {
            read_input(self.rt, alloc)
        } else {
            fs::read(self.rt, name)
        };
        match read {
            Ok(bytes) => Ok(bytes),
            Err(error) => Err(file_error(error.kind())),
        }
    }
}
