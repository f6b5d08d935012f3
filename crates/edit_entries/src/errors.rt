//! The reasons for refusing an edit.

ghost use Rattle.std.specs.Prelude.{◌≡◌};
ghost use Rattle.edit_entries.specs.declared.errors.EditError.TheVariants.{OutOfMemory};

use std::alloc::{AllocError, AllocFailed};
use thiserror::Error;

/// The reason for refusing an edit. A refused edit changes nothing.
#[derive(Debug, Clone, Copy, PartialEq, Eq, Error)]
pub enum EditError {
    /// No entry has the key.
    #[error("no entry has the key")]
    UnknownKey,
    /// A new key, or a name of an added entry, is used already, in any ASCII case. It is a key that another entry keeps, a name in the
    /// field `ids` of an entry, or another new key.
    #[error("an entry has the name already, as its key or in its field `ids`")]
    KeyIsThere,
    /// A new key, or the key of an added entry, can't be a new key. BibTeX, Biber or bibtool misreads it, a reference to it is parsed as
    /// another text, or its citation means all entries. Or the key to replace is empty.
    #[error("a new key isn't empty or `*`, and has no white space, control character, comma, quote, brace, parenthesis, `--` or any of # $ % = \\ ~")]
    NotAKey,
    /// The text can't be the name of a new field. BibTeX and Biber read no name that begins with a digit.
    #[error("the text can't be the name of a field")]
    NotAName,
    /// The value can't be written in braces. A brace isn't closed or closes nothing, for this library or for BibTeX, which also counts a
    /// brace after a backslash. Or a backslash at its end escapes the closing brace.
    #[error("the value can't be written in braces")]
    NotInBraces,
    /// The value can't be written without braces: it is neither a number nor an abbreviation that is a month or is defined before the
    /// entry. BibTeX requires this order. An abbreviation that begins with a digit can't be written either.
    #[error("the value is neither a number nor an abbreviation that is defined before the entry")]
    NotBare,
    /// An abbreviation is defined already, in any ASCII case, with other literals or abbreviations as its value: uses of it could change
    /// their value.
    #[error("an abbreviation is defined already with another text")]
    DefinitionIsThere,
    /// The entry would have no field left. bibtool doesn't read such an entry, and loses the one after it too.
    #[error("the entry would have no field left")]
    NoFieldLeft,
    /// Out of memory.
    #[error("out of memory")]
    OutOfMemory,
}

impl From<AllocError> for EditError {
    ghost from_gives = { λ _ error. error ≡ OutOfMemory };

    fn from(_error: AllocError) -> EditError {
        EditError::OutOfMemory
    }
}

impl<T: Drop> From<AllocFailed<T>> for EditError {
    ghost from_gives = { λ _ error. error ≡ OutOfMemory };

    fn from(failed: AllocFailed<T>) -> EditError {
        EditError::from(AllocError::from(failed))
    }
}
