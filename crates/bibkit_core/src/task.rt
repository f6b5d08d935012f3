//! The trait of commands that process files in turn.

ghost use Rattle.std.specs.Prelude.{◌≡◌, ℕ, List, IfOk};
ghost use Rattle.std.specs.String.{string_bytes};

use std::alloc::{AllocError, Global};

/// The end of a task: the last text to print, and the status.
#[derive(Drop)]
pub struct End {
    /// The text after that of the last file.
    pub text: String,
    /// The status if all files could be read.
    pub status: u8,
}

/// A command that returns a text to print for each of several files.
pub trait Task {
    // The text before that of the first file.
    ghost begins: { Self → List ℕ };

    // Whether processing a file with this name and these bytes may lead from the first state to the second and print this text.
    ghost prints: { Self → List ℕ → List ℕ → List ℕ → Self → Type 0 };

    // The messages about the file that was processed last.
    ghost messages: { Self → List ℕ };

    // Whether this text may be printed after that of the last file, with this status.
    ghost ends: { Self → List ℕ → ℕ → Type 0 };

    /// Returns the text before that of the first file.
    fn begin(&self) -> &'static str
        ensures { result.now ≡ begins self.now };

    /// Processes the file `name` with these bytes, and returns the text to print for it.
    fn file(&mut self, alloc: Global, name: &str, bytes: &[u8]) -> Result<String, AllocError>
        ensures { IfOk result (λ text. prints self.old name.now bytes.now (string_bytes text) self.new) };

    /// Returns the messages about the file that was processed last.
    fn messages(&self) -> &str
        ensures { result.now ≡ messages self.now };

    /// Returns the text after that of the last file, and the status.
    fn end(&mut self, alloc: Global) -> Result<End, AllocError>
        ensures { IfOk result (λ end. ends self.old (string_bytes end.text) end.status) };
}
