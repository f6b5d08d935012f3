//! Replaces the text of a file of the system as a whole.

ghost use Rattle.bibkit_core.specs.Folder.{unknown_disk, IsCounted};

use bibkit_core::folder::Folder;
use bibkit_core::replacing;
use bibkit_core::replacing::ReplaceError;
use std::fs::{OpenFile, OpenOptions, Permissions};
use std::io::{ErrorKind, Write};
use std::path::{Path, PathBuf};
use std::rt::Files;
use std::{fs, io};

// The folder of a file, and the permissions of the new file.
#[derive(Drop)]
struct SystemFolder<'r, 'b, R: Files> {
    rt: &'r R,
    // The folder, open.
    folder: R::File,
    rights: Permissions,
    // The bytes that the file must have when it is replaced.
    old: &'b [u8],
    // Whether the file had other bytes instead.
    is_changed: bool,
    // The file that is open for writing.
    file: Option<R::File>,
    failures: u64,
}

// Increments `failures` if a call failed. The count stays at its maximum.
fn count<T>(failures: &mut u64, answer: &io::Result<T>)
    ensures { IsCounted failures.old failures.new answer.now }
{
    if answer.is_err() {
        *failures = failures.saturating_add(1);
    }
}

// Sets the permissions of a file, and then writes a text into it.
fn write_with<F: OpenFile + Write>(
    file: &mut F,
    rights: &Permissions,
    text: &str,
) -> io::Result<()> {
    file.set_permissions(rights.clone()?)?;
    file.write_all(text.as_bytes())
}

// Returns the error of a call that needs an open file.
fn none_open() -> io::Result<()> {
    Err(io::Error::from(ErrorKind::InvalidInput))
}

// Renames the file `from` to `to`. If `to` doesn't have the bytes `old`, stores that in `is_changed`, and fails.
fn rename_over<R: Files + AllocGlobal>(
    rt: &R,
    old: &[u8],
    is_changed: &mut bool,
    from: &str,
    to: &str,
) -> io::Result<()> {
    let now = fs::read(rt, to)?;
    if now.as_slice() == old {
        return fs::rename(rt, from, to);
    }
    *is_changed = true;
    Err(io::Error::from(ErrorKind::InvalidInput))
}

impl<'r, 'b, R: Files + AllocGlobal> Folder for SystemFolder<'r, 'b, R> {
    // Nothing is known of the contents of the system's files.
    ghost disk = { λ _. unknown_disk };

    ghost failures = { λ folder. folder.failures };

    fn create_new(&mut self, name: &str) -> io::Result<bool> {
        let opened = OpenOptions::new()
            .write(true)
            .create_new(true)
            .open(self.rt, name);
        let answer = match opened {
            Ok(file) => {
                self.file = Some(file);
                Ok(true)
            }
            Err(error) if error.kind() == ErrorKind::AlreadyExists => Ok(false),
            Err(error) => Err(error),
        };
        count(&mut self.failures, &answer);
        answer
    }

    // Sets the permissions of the file before it writes the text.
    fn write(&mut self, text: &str) -> io::Result<()> {
        let answer = match &mut self.file {
            Some(file) => write_with(file, &self.rights, text),
            None => none_open(),
        };
        count(&mut self.failures, &answer);
        answer
    }

    fn sync(&mut self) -> io::Result<()> {
        let answer = match &self.file {
            Some(file) => file.sync_all(),
            None => none_open(),
        };
        count(&mut self.failures, &answer);
        answer
    }

    fn rename(&mut self, from: &str, to: &str) -> io::Result<()> {
        let answer = rename_over(self.rt, self.old, &mut self.is_changed, from, to);
        count(&mut self.failures, &answer);
        answer
    }

    fn remove(&mut self, name: &str) -> io::Result<()> {
        let answer = fs::remove_file(self.rt, name);
        count(&mut self.failures, &answer);
        answer
    }

    fn sync_folder(&mut self) -> io::Result<()> {
        let answer = self.folder.sync_all();
        count(&mut self.failures, &answer);
        answer
    }
}

// Returns the permissions of a file. Fails if it can't be opened for writing or isn't a regular file.
fn rights<R: Files>(rt: &R, target: &str) -> io::Result<Permissions> {
    let file = OpenOptions::new().write(true).open(rt, target)?;
    let metadata = file.metadata()?;
    if metadata.is_file() {
        Ok(metadata.permissions())
    } else {
        Err(io::Error::from(ErrorKind::InvalidInput))
    }
}

// Returns the folder of the file `target`, or `.` if `target` is only a file name. Fails if `target` has no parent, such as `/`.
fn parent_of(target: &PathBuf) -> io::Result<&str> {
    match target.parent() {
        Some(parent) if parent.to_string_lossy().is_empty() => Ok("."),
        Some(parent) => Ok(parent.to_string_lossy()),
        None => Err(io::Error::from(ErrorKind::InvalidInput)),
    }
}

// Opens the folder of a file that has the bytes `old`. Fails if the folder can't be opened, or if the file can't be opened for writing or
// isn't a regular file.
fn folder_of<'r, 'b, R: Files>(
    rt: &'r R,
    target: &PathBuf,
    old: &'b [u8],
) -> io::Result<SystemFolder<'r, 'b, R>> {
    let rights = rights(rt, target.to_string_lossy())?;
    let folder = fs::open(rt, parent_of(target)?)?;
    Ok(SystemFolder {
        rt,
        folder,
        rights,
        old,
        is_changed: false,
        file: None,
        failures: 0,
    })
}

// Returns the path to which a symbolic link leads, or `None` if the file isn't a symbolic link.
fn link_of<R: Files + AllocGlobal>(rt: &R, target: &PathBuf) -> io::Result<Option<PathBuf>> {
    match fs::read_link(rt, target) {
        Ok(link) => {
            let parent = target.parent().unwrap_or(Path::new(""));
            Ok(Some(parent.join(rt.alloc(), &link)?))
        }
        Err(error) if error.kind() == ErrorKind::InvalidInput => Ok(None),
        Err(error) => Err(error),
    }
}

// The number of paths that `target_of` tries: one more than the number of symbolic links in a row that it follows.
const LINKS: u32 = 40;

// Returns the path of the file to which `name` leads through symbolic links. A relative link continues the path as `name` begins it, so it
// also works in a folder whose own path isn't UTF-8.
fn target_of<R: Files + AllocGlobal>(rt: &R, name: &str) -> io::Result<PathBuf> {
    let mut target = PathBuf::from_str(rt.alloc(), name)?;
    'links: for _link in 0..LINKS {
        match link_of(rt, &target)? {
            Some(next) => target = next,
            None => return Ok(target),
        }
    }
    Err(io::Error::from(ErrorKind::InvalidInput))
}

/// Replaces the bytes `old` of the file `name` by `text`, as `bibkit_core::replacing` specifies. Returns false, and replaces nothing, if the
/// file has other bytes just before the new file gets its name. The file keeps its permissions. If `name` is a symbolic link, its target is
/// replaced. Fails if the file can't be opened for writing or isn't a regular file.
pub fn replace<R: Files + AllocGlobal>(
    rt: &R,
    name: &str,
    old: &[u8],
    text: &str,
) -> Result<bool, ReplaceError> {
    let target = target_of(rt, name).map_err(ReplaceError::NotReplaced)?;
    let mut folder = folder_of(rt, &target, old).map_err(ReplaceError::NotReplaced)?;
    match replacing::replace(rt.alloc(), &mut folder, target.to_string_lossy(), text) {
        Ok(()) => Ok(true),
        Err(_) if folder.is_changed => Ok(false),
        Err(error) => Err(error),
    }
}
