//! Prints the entries of a bibliography in another format.

ghost use Rattle.std.specs.Prelude.{◌≡◌, ◌≢◌, IfErr, IfOk, OnErr};
ghost use Rattle.std.specs.String.{string_bytes};
ghost use Rattle.std.specs.Io.KnownBytes.{Appends};
ghost use Rattle.bibkit_convert.specs.Converted.{ConvertFails, EntryFails, IsExported, texts_after, text_after, is_first_after, is_still_first};
ghost use Rattle.bibkit_convert.specs.Converting.{file_error};

use crate::target::Target;
use biblatex::{Bibliography, Entry, ParseError, Sink};
use std::alloc::{AllocError, Global};

/// The error of converting a bibliography.
#[derive(Debug, Drop)]
pub enum ConvertError {
    /// The text isn't accepted as a bibliography, for this error. Nothing is printed.
    File(ParseError),
    /// The output refused the text of an entry.
    NotTaken,
    /// Out of memory.
    OutOfMemory,
}

impl ConvertError {
    /// Returns `AllocError` for out of memory, and `Ok` with any other error.
    pub fn unless_out_of_memory(self) -> Result<ConvertError, AllocError>
        ensures other { IfOk result (λ other. (other ≡ self) × (self ≢ ConvertError.OutOfMemory)) }
        ensures no_memory { OnErr result (self ≡ ConvertError.OutOfMemory) }
    {
        match self {
            ConvertError::OutOfMemory => Err(AllocError),
            other => Ok(other),
        }
    }
}

impl From<AllocError> for ConvertError {
    ghost use Rattle.bibkit_convert.specs.declared.converting.ConvertError.TheVariants.{OutOfMemory};

    ghost from_gives = { λ _ error. error ≡ OutOfMemory };

    fn from(_error: AllocError) -> Self {
        ConvertError::OutOfMemory
    }
}

impl From<ParseError> for ConvertError {
    ghost from_gives = { λ error converted. converted ≡ file_error error };

    fn from(error: ParseError) -> Self {
        match error.unless_out_of_memory() {
            Ok(()) => ConvertError::File(error),
            Err(no_memory) => ConvertError::from(no_memory),
        }
    }
}

// Returns the text of an entry after its separator, or an empty text if the format doesn't have the entry.
fn text_of(
    alloc: Global,
    target: Target,
    is_first: bool,
    entry: &Entry,
) -> Result<String, AllocError>
    ensures { IfOk result (λ text. string_bytes text ≡ text_after target is_first entry.now) }
{
    let mut text = String::new(alloc);
    if target.has(entry) {
        text.push_str(target.before(is_first))?;
        text.push_str(&target.text_of(alloc, entry)?)?;
    }
    Ok(text)
}

/// Prints an entry after its separator, if the format has it, and returns whether the next entry would be the first of the output;
/// `is_first` says this of the entry. Passes one text to `output`.
pub fn print_entry<K: Sink>(
    alloc: Global,
    target: Target,
    is_first: bool,
    entry: &Entry,
    output: &mut K,
) -> Result<bool, ConvertError>
    ensures printed { IfOk result (λ is_still. Appends (K.taken output.old) (K.taken output.new) (text_after target is_first entry.now)) }
    ensures next { IfOk result (λ is_still. is_still ≡ is_still_first target is_first entry.now) }
    ensures same { IfOk result (λ is_still. K.refusals output.new ≡ K.refusals output.old) }
    ensures failed { IfErr result (EntryFails K.refusals output.old output.new) }
{
    let text = text_of(alloc, target, is_first, entry)?;
    if output.write_str(&text) {
        Ok(is_first && !target.has(entry))
    } else {
        Err(ConvertError::NotTaken)
    }
}

/// Prints the entries of a bibliography, each after its separator. Returns whether the next entry would be the first of the
/// output; `is_first` says this of the first of these entries. Passes one text for each entry to `output`. The text after the
/// last entry is [`Target::end`].
pub fn print_entries<K: Sink>(
    alloc: Global,
    target: Target,
    is_first: bool,
    bibliography: &Bibliography,
    output: &mut K,
) -> Result<bool, ConvertError>
    ensures printed { IfOk result (λ is_still. Appends (K.taken output.old) (K.taken output.new)
        (texts_after target is_first bibliography.now.entries)) }
    ensures next { IfOk result (λ is_still. is_still ≡ is_first_after target is_first bibliography.now.entries) }
    ensures failed { IfErr result (EntryFails K.refusals output.old output.new) }
{
    let mut is_still_first = is_first;
    'entries: for entry in bibliography {
        is_still_first = print_entry(alloc, target, is_still_first, entry, output)?;
    }
    Ok(is_still_first)
}

/// Parses a bibliography and prints its entries with inherited fields, as [`print_entries`] does. Returns whether the next entry
/// would be the first of the output; `is_first` says this of the first of these entries.
pub fn print_converted<K: Sink>(
    alloc: Global,
    target: Target,
    is_first: bool,
    text: &str,
    output: &mut K,
) -> Result<bool, ConvertError>
    ensures converted { IfOk result (IsExported K.taken target is_first text.now output.old output.new) }
    ensures failed { IfErr result (ConvertFails K.refusals text.now output.old output.new) }
{
    let bibliography = Bibliography::parse(alloc, text)?;
    print_entries(alloc, target, is_first, &bibliography, output)
}
