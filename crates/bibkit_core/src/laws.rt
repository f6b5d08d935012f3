//! Proves that the contracts of the calls of a folder, except `remove`, can be met: the contract of a successful call holds for some
//! disks before and after the call.

ghost use Rattle.std.specs.Prelude.{[], ℕ, ◌≡◌, ◌≢◌, ◌++◌, IsSome};
ghost use Rattle.bibkit_core.specs.Folder.{Files, Elapses, IsAsBefore, IsAsBeforeBut, IsNewFile, IsAppended, IsSaved, IsRenamed, IsCrashOfRename, IsLeftAsNow};
ghost use Rattle.bibkit_core.specs.Possible.{loose_disk, firm_disk, with_file};

/// States that the contract of `create_new` holds for some disks, if the name isn't in use.
pub fn makes(name: &str)
    ensures made { (files : Files) → files name.now ≡ None → IsNewFile name.now
        (loose_disk files None) (loose_disk (with_file files name.now (Some [])) (Some name.now)) }
{}

/// States that the contracts of `write` and `sync` hold for some disks: the text is appended to the open file, and synced.
pub fn writes(name: &str, text: &str)
    ensures written { (files : Files) (bytes : _) → files name.now ≡ Some bytes →
        IsAppended text.now name.now (loose_disk files (Some name.now))
        (loose_disk (with_file files name.now (Some (bytes ++ text.now))) (Some name.now)) }
    ensures others { (files : Files) (bytes : _) → IsAsBeforeBut name.now (loose_disk files (Some name.now))
        (loose_disk (with_file files name.now (Some (bytes ++ text.now))) (Some name.now)) }
    ensures saved { (files : Files) → IsSaved name.now (loose_disk files (Some name.now)) }
{}

/// States that the contract of `rename` holds for some disks: the file with the name `from` has the name `to`.
pub fn renames(from: &str, to: &str)
    requires { from.now ≢ to.now }
    ensures renamed { (files : Files) (open_name : _) → IsRenamed from.now to.now (loose_disk files open_name)
        (loose_disk (with_file (with_file files to.now (files from.now)) from.now None) open_name) }
    ensures saved { (files : Files) (open_name : _) (bytes : _) →
        (loose_disk (with_file (with_file files to.now (files from.now)) from.now None) open_name).may_leave_in to.now bytes →
        (loose_disk files open_name).may_leave_in from.now bytes }
    ensures crash { (files : Files) (open_name : _) → IsCrashOfRename from.now to.now (loose_disk files open_name)
        (loose_disk (with_file (with_file files to.now (files from.now)) from.now None) open_name) }
{}

/// States that the contract of `sync_folder` holds for some disks, and that time elapses.
pub fn settles()
    ensures same { (files : Files) (open_name : _) → IsAsBefore (loose_disk files open_name) (firm_disk files) }
    ensures settled { (files : Files) (open_name : _) (name : _) (c : _) →
        (firm_disk files).may_leave name c → IsLeftAsNow (loose_disk files open_name) name c }
    ensures time { (files : Files) (open_name : _) → Elapses (loose_disk files open_name) (firm_disk files) }
    ensures time_before { (files : Files) (others : Files) (open_name : _) (other_name : _) →
        Elapses (loose_disk files open_name) (loose_disk others other_name) }
{}
