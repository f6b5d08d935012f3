//! Prints the new text of an edited file, or its diff.

ghost use Rattle.std.specs.Prelude.{◌≡◌, false, IfErr, IfOk, OnOk};
ghost use Rattle.std.specs.Str.{IsUtf8};
ghost use Rattle.std.specs.String.{string_bytes};
ghost use Rattle.std.specs.Io.KnownBytes.{Appends};
ghost use Rattle.bib_source.specs.Unified.{IsDiff};
ghost use Rattle.bibkit_edits.specs.declared.printing.Unprinted.TheVariants.{NotTaken};
ghost use Rattle.bibkit_edits.specs.Printing.{HasPrintedDifference, HasPrintedEdited, IsDifferenceNotPrinted, IsNotPrinted, status_of};

use crate::edit::{Edit, Refusal};
use crate::editing::edit_file;
use bib_source::unified::unified_diff;
use biblatex::Sink;
use std::alloc::{AllocError, Global};
use std::str::from_utf8;

/// The error of printing an edited file.
#[derive(Debug, Drop)]
pub enum Unprinted {
    /// The edits are refused.
    Refused(Refusal),
    /// The output refused the new text or the diff.
    NotTaken,
}

impl Unprinted {
    /// Returns the status:
    /// - 1: an edit is refused, or a text has an error that makes parsing fail.
    /// - 2: the file isn't UTF-8, or the output refused the text.
    /// - 3: out of memory.
    pub fn status(&self) -> u8
        ensures { result ≡ status_of self.now }
    {
        match self {
            Self::NotTaken => 2,
            Self::Refused(Refusal::NotUtf8 { .. }) => 2,
            Self::Refused(Refusal::OutOfMemory) => 3,
            Self::Refused(_) => 1,
        }
    }
}

impl From<Refusal> for Unprinted {
    ghost use Rattle.bibkit_edits.specs.declared.printing.Unprinted.TheVariants.{Refused};

    ghost from_gives = { λ refusal why. why ≡ Refused refusal };

    fn from(refusal: Refusal) -> Self {
        Unprinted::Refused(refusal)
    }
}

impl From<AllocError> for Unprinted {
    ghost use Rattle.bibkit_edits.specs.declared.edit.Refusal.TheVariants.{OutOfMemory};
    ghost use Rattle.bibkit_edits.specs.declared.printing.Unprinted.TheVariants.{Refused};

    ghost from_gives = { λ _ why. why ≡ Refused OutOfMemory };

    fn from(error: AllocError) -> Self {
        Unprinted::Refused(Refusal::from(error))
    }
}

// Writes a text to the output in one call. Fails with `NotTaken` if the output refuses the text.
fn hand_over<K: Sink>(text: &str, output: &mut K) -> Result<(), Unprinted>
    ensures taken { OnOk result (Appends (K.taken output.old) (K.taken output.new) text.now) }
    ensures refused { IfErr result (λ why. (why ≡ NotTaken) × K.hands_over output.old text.now false output.new) }
{
    if output.write_str(text) {
        Ok(())
    } else {
        Err(Unprinted::NotTaken)
    }
}

/// Applies edits to the bytes of a file, and prints the new text. If the edits are refused, the output is unchanged. `is_last` says whether
/// the process ends after this file, so that memory needn't be freed.
pub fn print_edited<K: Sink>(
    alloc: Global,
    bytes: &[u8],
    edits: &[Edit<'_>],
    is_last: bool,
    output: &mut K,
) -> Result<(), Unprinted>
    ensures printed { OnOk result (HasPrintedEdited K.taken edits.now bytes.now output.old output.new) }
    ensures not_printed { IfErr result (IsNotPrinted K.hands_over edits.now bytes.now output.old output.new) }
{
    let new = edit_file(alloc, bytes, edits, is_last)?;
    hand_over(&new, output)
}

// Returns the diff from `bytes`, which are UTF-8, to the text `new`.
fn difference(alloc: Global, name: &str, bytes: &[u8], new: &str) -> Result<String, AllocError>
    requires { IsUtf8 bytes.now }
    ensures { IfOk result (λ diff. IsDiff name.now bytes.now new.now (string_bytes diff)) }
{
    match from_utf8(bytes) {
        Ok(old) => unified_diff(alloc, name, old, new),
        Err(_) => unreachable!(),
    }
}

/// Applies edits to the bytes of a file, and prints a unified diff with the file name, as `diff -u` does. Returns whether
/// the diff isn't empty. If the edits are refused, the output is unchanged. The memory of the edits is freed before the diff is made.
pub fn print_difference<K: Sink>(
    alloc: Global,
    name: &str,
    bytes: &[u8],
    edits: &[Edit<'_>],
    output: &mut K,
) -> Result<bool, Unprinted>
    ensures printed { IfOk result (λ differs. HasPrintedDifference K.taken name.now edits.now bytes.now differs output.old output.new) }
    ensures not_printed { IfErr result (IsDifferenceNotPrinted K.hands_over name.now edits.now bytes.now output.old output.new) }
{
    let edited = edit_file(alloc, bytes, edits, false)?;
    let diff = difference(alloc, name, bytes, &edited)?;
    hand_over(&diff, output)?;
    Ok(!diff.as_str().is_empty())
}
