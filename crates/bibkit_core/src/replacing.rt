//! Replaces the text of a file as a whole.

ghost use Rattle.std.specs.Prelude.{[], ℕ, ◌≡◌, ◌≢◌, ◌⊎◌, ◌+◌, ◌-◌, ◌^◌, ◌<◌, min, string_bytes, IfOk, IfErr, OnOk, OnErr, IsErrOf, IsErrAnd, IsSome, MatchResult};
ghost use Rattle.bibkit_core.specs.Folder.{OfOpen, IsCounted};
ghost use Rattle.bibkit_core.specs.Replaced.{new_name, AreNamesTaken, IsNeverTorn, IsOnDisk, IsOldOrNew, IsLeft, IsAfterError, IsKept, OthersHold, IsCaused, AreTwoFailed};
ghost use Rattle.bibkit_core.specs.ReplaceSteps.{TouchesOnly, TouchesNothing, IsMadeBeside, IsCountedOnce, IsFilled, IsExchange, IsExchanged, IsExchangeError};
ghost use Rattle.bibkit_core.specs.declared.replacing.ReplaceError.TheVariants.{OutOfMemory};

use crate::folder::Folder;
use std::alloc::{AllocError, Global};
use std::io;

// The number of names to try for the new file.
const NAMES: u32 = 100;

/// The error of replacing a file.
#[derive(Drop)]
pub enum ReplaceError {
    /// Out of memory. The file is unchanged.
    OutOfMemory,
    /// All names for the new file are in use. The file is unchanged.
    NamesTaken,
    /// The error occurred before the rename; for example, the new file can't be created, written or synced. The old file is unchanged.
    NotReplaced(io::Error),
    /// Renaming the new file failed. The file has the old text or the new one.
    Unsure(io::Error),
    /// Syncing the folder failed. The file has the new text, but a crash may still bring back the old one.
    Unsettled(io::Error),
}

impl From<AllocError> for ReplaceError {
    ghost from_gives = { λ _ e. e ≡ OutOfMemory };

    fn from(_error: AllocError) -> Self {
        ReplaceError::OutOfMemory
    }
}

// Returns the name of the new file beside `target` with this number.
fn new_name(alloc: Global, target: &str, number: u32) -> Result<String, AllocError>
    ensures { IfOk result (λ name. string_bytes name ≡ new_name target.now number) }
{
    format!(in alloc; "{target}.bibkit-{number}")
}

// Creates an empty file beside `target`, opens it, and returns its name.
fn make_beside<F: Folder>(
    alloc: Global,
    folder: &mut F,
    target: &str,
) -> Result<String, ReplaceError>
    ensures distinct { IfOk result (λ name. string_bytes name ≢ target.now) }
    ensures made { (F.disk folder.old).is_known → IfOk result (λ name.
        IsMadeBeside target.now (string_bytes name) (F.disk folder.old) (F.disk folder.new)) }
    ensures unmade { (F.disk folder.old).is_known →
        OnErr result (TouchesNothing (F.disk folder.old) (F.disk folder.new)) }
    ensures taken { (F.disk folder.old).is_known → IsErrOf result ReplaceError.NamesTaken →
        AreNamesTaken target.now 100 (F.disk folder.old) }
    ensures counted { MatchResult result (λ _. F.failures folder.new ≡ F.failures folder.old)
        (IsCountedOnce (F.failures folder.old) (F.failures folder.new)) }
{
    for number in 0..NAMES {
        let name = new_name(alloc, target, number)?;
        match folder.create_new(name.as_str()) {
            Ok(true) => return Ok(name),
            Ok(false) => {}
            Err(error) => return Err(ReplaceError::NotReplaced(error)),
        }
    }
    Err(ReplaceError::NamesTaken)
}

// Writes `text` into the open file, and syncs the file.
fn fill<F: Folder>(folder: &mut F, text: &str) -> io::Result<()>
    ensures touches { (F.disk folder.old).is_known → OfOpen (F.disk folder.old)
        (λ name. TouchesOnly name (F.disk folder.old) (F.disk folder.new)) }
    ensures filled { (F.disk folder.old).is_known → OnOk result (OfOpen (F.disk folder.old)
        (λ name. (F.disk folder.old).holds name ≡ Some [] → IsFilled text.now name (F.disk folder.new))) }
    ensures counted { IsCounted (F.failures folder.old) (F.failures folder.new) result }
{
    folder.write(text)?;
    folder.sync()
}

// Renames the new file `name` to `target`, and syncs the folder. If the rename fails, tries to remove the new file.
fn exchange<F: Folder>(folder: &mut F, name: &str, target: &str) -> Result<(), ReplaceError>
    requires { name.now ≢ target.now }
    ensures exchange { (F.disk folder.old).is_known →
        IsExchange name.now target.now (F.disk folder.old) (F.disk folder.new) }
    ensures done { (F.disk folder.old).is_known →
        OnOk result (IsExchanged name.now target.now (F.disk folder.old) (F.disk folder.new)) }
    ensures failed { (F.disk folder.old).is_known → IfErr result
        (IsExchangeError name.now target.now (F.failures folder.old) (F.failures folder.new)
        (F.disk folder.old) (F.disk folder.new)) }
    ensures counted { IfErr result (IsCaused (F.failures folder.old) (F.failures folder.new)) }
{
    if let Err(error) = folder.rename(name, target) {
        let _ = folder.remove(name);
        return Err(ReplaceError::Unsure(error));
    }
    match folder.sync_folder() {
        Ok(()) => Ok(()),
        Err(error) => Err(ReplaceError::Unsettled(error)),
    }
}

/// Replaces the text of the file `target` by `text`. Writes `text` into a new file `TARGET.bibkit-0`, or the next name up to
/// `TARGET.bibkit-99` that isn't in use. Syncs the new file, renames it to `target`, and syncs the folder. If the new file can't
/// be written, synced or renamed, tries to remove it. [`ReplaceError`] describes the state of `target` after each error.
pub fn replace<F: Folder>(
    alloc: Global,
    folder: &mut F,
    target: &str,
    text: &str,
) -> Result<(), ReplaceError>
    // If the old bytes are on the disk, a crash leaves in the target either them or all of the text, at each moment until the call returns.
    ensures whole { (F.disk folder.old).is_known → IsOnDisk target.now (F.disk folder.old) →
        IsOldOrNew target.now text.now (F.disk folder.old) (F.disk folder.new) }

    // Even if the old bytes may not be on the disk, a crash leaves contents that it could leave before the call, or all of the text.
    ensures crash { (F.disk folder.old).is_known →
        IsNeverTorn target.now text.now (F.disk folder.old) (F.disk folder.new) }
    ensures done { (F.disk folder.old).is_known →
        OnOk result ((F.disk folder.new).holds target.now ≡ Some text.now) }
    ensures durable { (F.disk folder.old).is_known →
        OnOk result (IsLeft target.now text.now (F.disk folder.new)) }
    ensures failed { (F.disk folder.old).is_known → IfErr result
        (IsAfterError target.now text.now (F.disk folder.old) (F.disk folder.new)) }

    // Each name except the target is kept if it was in use, or if it isn't one of the names of new files.
    ensures taken { (F.disk folder.old).is_known → (other : _) → other ≢ target.now →
        IsSome ((F.disk folder.old).holds other) → IsKept other (F.disk folder.old) (F.disk folder.new) }
    ensures others { (F.disk folder.old).is_known → (other : _) → other ≢ target.now →
        ((k : ℕ) → k < 100 → other ≢ new_name target.now k) →
        IsKept other (F.disk folder.old) (F.disk folder.new) }

    // No new file is left beside the target, unless a call and then the removal of the new file failed.
    ensures alone { (F.disk folder.old).is_known →
        OnOk result (OthersHold target.now (F.disk folder.old) (F.disk folder.new)) }
    ensures removed { (F.disk folder.old).is_known →
        OnErr result (OthersHold target.now (F.disk folder.old) (F.disk folder.new)
        ⊎ AreTwoFailed (F.failures folder.old) (F.failures folder.new)) }

    // The error is `NamesTaken` only if all names are in use, and an error of the folder only if a call of the folder failed.
    ensures names_taken { (F.disk folder.old).is_known → IsErrOf result ReplaceError.NamesTaken →
        AreNamesTaken target.now 100 (F.disk folder.old) }
    ensures caused { IfErr result (IsCaused (F.failures folder.old) (F.failures folder.new)) }
{
    let name = make_beside(alloc, folder, target)?;
    if let Err(error) = fill(folder, text) {
        let _ = folder.remove(name.as_str());
        return Err(ReplaceError::NotReplaced(error));
    }
    exchange(folder, name.as_str(), target)
}
