//! The files of a folder, as calls see them and as a crash may leave them.

ghost use Rattle.std.specs.Prelude.{◌≡◌, ◌≢◌, ◌⊎◌, ℕ, IsSome, OnOk, OnErr};
ghost use Rattle.bibkit_core.specs.Folder.{Disk, Elapses, IsAsBefore, IsAsBeforeBut, OnMade, OnTaken, OnUnmade, IsNewFile, OfOpen, IsAppended, IsSaved, IsRenamed, IsCrashOfRename, IsCrashOfRemoval, IsLeftAsNow, IsCounted};

use std::io;

/// The files of a folder, one of which may be open for writing.
///
/// Most contracts of these calls apply only if something is known of the files. No contract of std describes the contents of the
/// system's files, so an adapter for them has `unknown_disk`. For it, only the count of failed calls is proved. These facts are
/// assumed:
/// - Each method makes the system calls for what its contract states, such as `fsync` for `sync`.
/// - The system then meets the contract, which is no more than POSIX promises.
/// - Nobody else changes these files meanwhile.
pub trait Folder {
    // The known state of the files at this moment.
    ghost disk: { Self → Disk };

    // The number of calls that have failed, counted up to 2^64 - 1.
    ghost failures: { Self → ℕ };

    /// Creates an empty file, opens it, and returns true. Returns false if the name is in use. An error creates no file.
    fn create_new(&mut self, name: &str) -> io::Result<bool>
        ensures known { (disk self.old).is_known → (disk self.new).is_known }
        ensures made { (disk self.old).is_known →
            OnMade result (IsNewFile name.now (disk self.old) (disk self.new)) }
        ensures taken { (disk self.old).is_known →
            OnTaken result (IsSome ((disk self.old).holds name.now)) }
        ensures unmade { (disk self.old).is_known →
            OnUnmade result (IsAsBefore (disk self.old) (disk self.new)) }
        ensures time { (disk self.old).is_known → Elapses (disk self.old) (disk self.new) }
        ensures counted { IsCounted (failures self.old) (failures self.new) result };

    /// Appends a text to the open file. Until the file is synced, a crash may leave any bytes in it.
    fn write(&mut self, text: &str) -> io::Result<()>
        ensures known { (disk self.old).is_known → (disk self.new).is_known }
        ensures written { (disk self.old).is_known → OnOk result (OfOpen (disk self.old)
            (λ name. IsAppended text.now name (disk self.old) (disk self.new))) }
        ensures others { (disk self.old).is_known → OfOpen (disk self.old)
            (λ name. IsAsBeforeBut name (disk self.old) (disk self.new)) }
        ensures is_open { (disk self.old).is_known →
            (disk self.new).open_name ≡ (disk self.old).open_name }
        ensures time { (disk self.old).is_known → Elapses (disk self.old) (disk self.new) }
        ensures counted { IsCounted (failures self.old) (failures self.new) result };

    /// Waits until the bytes of the open file are on the disk. The name of the file may not be on the disk yet.
    fn sync(&mut self) -> io::Result<()>
        ensures known { (disk self.old).is_known → (disk self.new).is_known }
        ensures same { (disk self.old).is_known →
            OnOk result (IsAsBefore (disk self.old) (disk self.new)) }
        ensures saved { (disk self.old).is_known → OnOk result (OfOpen (disk self.old)
            (λ name. IsSaved name (disk self.new))) }
        ensures others { (disk self.old).is_known → OfOpen (disk self.old)
            (λ name. IsAsBeforeBut name (disk self.old) (disk self.new)) }
        ensures time { (disk self.old).is_known → Elapses (disk self.old) (disk self.new) }
        ensures counted { IsCounted (failures self.old) (failures self.new) result };

    /// Renames the file `from` to `to`. A file that had the name `to` loses it. An error may occur before or after the change.
    fn rename(&mut self, from: &str, to: &str) -> io::Result<()>
        requires { from.now ≢ to.now }
        ensures known { (disk self.old).is_known → (disk self.new).is_known }
        ensures renamed { (disk self.old).is_known →
            OnOk result (IsRenamed from.now to.now (disk self.old) (disk self.new)) }
        ensures saved { (disk self.old).is_known → OnOk result ((bytes : _) →
            (disk self.new).may_leave_in to.now bytes → (disk self.old).may_leave_in from.now bytes) }
        ensures failed { (disk self.old).is_known →
            OnErr result (((name : _) → (disk self.new).holds name ≡ (disk self.old).holds name)
            ⊎ IsRenamed from.now to.now (disk self.old) (disk self.new)) }
        ensures crash { (disk self.old).is_known →
            IsCrashOfRename from.now to.now (disk self.old) (disk self.new) }
        ensures time { (disk self.old).is_known → Elapses (disk self.old) (disk self.new) }
        ensures counted { IsCounted (failures self.old) (failures self.new) result };

    /// Removes the file with this name. An error may occur before or after the change.
    fn remove(&mut self, name: &str) -> io::Result<()>
        ensures known { (disk self.old).is_known → (disk self.new).is_known }
        ensures removed { (disk self.old).is_known →
            OnOk result ((disk self.new).holds name.now ≡ None) }
        ensures failed { (disk self.old).is_known →
            OnErr result (((disk self.new).holds name.now ≡ (disk self.old).holds name.now)
            ⊎ ((disk self.new).holds name.now ≡ None)) }
        ensures others { (disk self.old).is_known →
            IsAsBeforeBut name.now (disk self.old) (disk self.new) }
        ensures crash { (disk self.old).is_known →
            IsCrashOfRemoval name.now (disk self.old) (disk self.new) }
        ensures time { (disk self.old).is_known → Elapses (disk self.old) (disk self.new) }
        ensures counted { IsCounted (failures self.old) (failures self.new) result };

    /// Waits until the names of the folder are on the disk, each with its current file.
    fn sync_folder(&mut self) -> io::Result<()>
        ensures known { (disk self.old).is_known → (disk self.new).is_known }
        ensures same { (disk self.old).is_known → IsAsBefore (disk self.old) (disk self.new) }
        ensures settled { (disk self.old).is_known → OnOk result ((name : _) (c : _) →
            (disk self.new).may_leave name c → IsLeftAsNow (disk self.old) name c) }
        ensures time { (disk self.old).is_known → Elapses (disk self.old) (disk self.new) }
        ensures counted { IsCounted (failures self.old) (failures self.new) result };
}
