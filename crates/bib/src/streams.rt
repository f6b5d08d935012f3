//! Readers as inputs.

ghost use Rattle.std.specs.Prelude.{◌≡◌, ◌≢◌, ◌+◌, ◌-◌, ◌^◌, min, IfSome, OnOk, IfErr};
ghost use Rattle.std.specs.IoError.{error_kind};

use crate::run::{InputSource, SourceError};
use std::alloc::Global;
use std::io;
use std::io::{ErrorKind, Read};

/// A reader as an input.
#[derive(Drop)]
pub struct Input<R> {
    reader: R,
    failures: u64,
}

impl<R> Input<R> {
    /// Returns an input from this reader, without failures.
    pub fn new(reader: R) -> Self
        ensures reader { result.reader ≡ reader }
        ensures failures { result.failures ≡ 0 }
    {
        Input {
            reader,
            failures: 0,
        }
    }

    /// Returns the reader.
    pub fn into_reader(self) -> R
        ensures { result ≡ self.reader }
    {
        let Input {
            reader,
            failures: _,
        } = self;
        reader
    }

    // Returns the bytes of a read, or its error. Counts an error other than out of memory as a failure, up to 2^64 - 1.
    fn count(&mut self, read: io::Result<usize>, bytes: Vec<u8>) -> Result<Vec<u8>, SourceError>
        ensures given { OnOk read (result ≡ Ok bytes) }
        ensures failed { IfErr read (λ error. error_kind error ≢ ErrorKind.OutOfMemory →
            result ≡ Err SourceError.Failed) }
        ensures lacking { IfErr read (λ error. error_kind error ≡ ErrorKind.OutOfMemory →
            result ≡ Err SourceError.OutOfMemory) }
        ensures counted { result ≡ Err SourceError.Failed →
            self.new.failures ≡ min (self.old.failures + 1) (2 ^ 64 - 1) }
        ensures same { result ≢ Err SourceError.Failed →
            self.new.failures ≡ self.old.failures }
        ensures reader { self.new.reader ≡ self.old.reader }
    {
        match read {
            Ok(_) => Ok(bytes),
            Err(error) if error.kind() == ErrorKind::OutOfMemory => Err(SourceError::OutOfMemory),
            Err(_) => {
                self.failures = self.failures.saturating_add(1);
                Err(SourceError::Failed)
            }
        }
    }
}

impl<R: Read> InputSource for Input<R> {
    ghost gives = { λ input bytes. IfSome (R.remaining input.reader) (λ left. bytes ≡ left) };

    ghost failures = { λ input. input.failures };

    fn read_all(&mut self, alloc: Global) -> Result<Vec<u8>, SourceError> {
        let mut bytes = Vec::new(alloc);
        let read = self.reader.read_to_end(&mut bytes);
        self.count(read, bytes)
    }
}
