//! The status of a call, its number, and the call that writes its text.

ghost use Rattle.std.specs.Prelude.{◌≡◌};
ghost use Rattle.biblatex_c.specs.Calls.{IsNumberedEnd};
ghost use Rattle.biblatex_c.specs.Statuses as spec;

use crate::buffers::write;
use biblatex::ParseError;
use edit_entries::errors::EditError;
use std::alloc::AllocError;

/// The result of a call: success, or the reason for its failure.
#[derive(Debug, Clone, Copy, PartialEq, Eq)]
pub enum Status {
    /// The call succeeded: the buffer contains the result.
    Done,
    /// The buffer is shorter than the result.
    TooShort,
    /// The bytes of an argument aren't UTF-8.
    NotUtf8,
    /// A text has an error that makes parsing fail, or no format has the number.
    Refused,
    /// Out of memory.
    OutOfMemory,
    /// No entry has the key.
    UnknownKey,
    /// Another entry has the name already, as its key or in its field `ids`, in any ASCII case. Or the renamed entry has it in its `ids`.
    KeyIsThere,
    /// The old key is empty; or the new key, or the key of an added entry, can't be a new key: BibTeX, Biber or bibtool misreads it, a
    /// reference to it is parsed as another text, or its citation means all entries.
    NotAKey,
    /// The text can't be the name of a new field.
    NotAName,
    /// The value, or a changed reference to a renamed entry, can't be written in braces.
    NotInBraces,
    /// An added abbreviation is defined already, in any ASCII case, with other literals or abbreviations as its value.
    DefinitionIsThere,
    /// The entry would have no field left.
    NoFieldLeft,
    /// The value is neither a number nor an abbreviation that is a month or is defined before the entry.
    NotBare,
    /// A field or a definition of the text to edit or to add contains a text in quotes whose braces aren't balanced, such as
    /// `"The {"}Big{"} one"`. BibTeX and Biber may end such a text elsewhere, and then parse it and the text after it differently.
    UnbalancedQuotes,
}

impl Status {
    /// Returns the number of the status, from 0 to 13, as in c/biblatex.h.
    pub fn number(self) -> u32
        ensures { result ≡ spec.status_number self }
    {
        match self {
            Status::Done => 0,
            Status::TooShort => 1,
            Status::NotUtf8 => 2,
            Status::Refused => 3,
            Status::OutOfMemory => 4,
            Status::UnknownKey => 5,
            Status::KeyIsThere => 6,
            Status::NotAKey => 7,
            Status::NotAName => 8,
            Status::NotInBraces => 9,
            Status::DefinitionIsThere => 10,
            Status::NoFieldLeft => 11,
            Status::NotBare => 12,
            Status::UnbalancedQuotes => 13,
        }
    }
}

// Returns the text of the status with this number, or "no status" if no status has it.
fn text_of(number: u32) -> &'static str
    ensures { result.now ≡ spec.status_text number }
{
    match number {
        0 => "done",
        1 => "the buffer is too short",
        2 => "not UTF-8",
        3 => "refused",
        4 => "out of memory",
        5 => "no entry has the key",
        6 => "an entry has the name already, as its key or in its field `ids`",
        7 => "the text can't be a new key",
        8 => "the text can't be the name of a field",
        9 => "the value can't be written in braces",
        10 => "an abbreviation is defined already with another text",
        11 => "the entry would have no field left",
        12 => "the value is neither a number nor an abbreviation that is defined before the entry",
        13 => "the braces of a text in quotes aren't balanced",
        _ => "no status",
    }
}

/// Writes the text of the status with this number, or "no status" if no status has it.
#[unsafe(no_mangle)]
pub extern "C" fn biblatex_message(number: u32, out: &mut [u8], size: &mut usize) -> u32
    ensures { IsNumberedEnd (λ answer. answer ≡ spec.status_text number) (λ _. ⊥) out.old size.old out.new size.new result }
{
    write(text_of(number).as_bytes(), out, size).number()
}

impl From<AllocError> for Status {
    ghost use Rattle.biblatex_c.specs.declared.status.Status.TheVariants.{OutOfMemory};

    ghost from_gives = { λ _ status. status ≡ OutOfMemory };

    fn from(_error: AllocError) -> Self {
        Status::OutOfMemory
    }
}

impl From<ParseError> for Status {
    ghost from_gives = { λ error status. status ≡ spec.status_of_error error };

    fn from(error: ParseError) -> Self {
        match error.unless_out_of_memory() {
            Ok(()) => Status::Refused,
            Err(no_memory) => Status::from(no_memory),
        }
    }
}

impl From<EditError> for Status {
    ghost from_gives = { λ error status. status ≡ spec.status_of_edit error };

    fn from(error: EditError) -> Self {
        match error {
            EditError::UnknownKey => Status::UnknownKey,
            EditError::KeyIsThere => Status::KeyIsThere,
            EditError::NotAKey => Status::NotAKey,
            EditError::NotAName => Status::NotAName,
            EditError::NotInBraces => Status::NotInBraces,
            EditError::DefinitionIsThere => Status::DefinitionIsThere,
            EditError::NoFieldLeft => Status::NoFieldLeft,
            EditError::NotBare => Status::NotBare,
            EditError::OutOfMemory => Status::OutOfMemory,
        }
    }
}
