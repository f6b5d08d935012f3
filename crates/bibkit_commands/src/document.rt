//! Runs `cited`: reads the file of a document, with the .aux files that it inputs, and prints the cited entries of .bib files.

ghost use Rattle.std.specs.Prelude.{◌≡◌, Some, codes, IfOk};
ghost use Rattle.bibkit_commands.specs.Messages.{on_file, says};

use crate::files::SystemFiles;
use crate::joining::join;
use crate::stops::{Stop, bytes_of, say};
use bib_queries::lines::aux_input;
use bib_queries::sources::{sources_in_aux, sources_in_bcf};
use bib_source::decoding::decode;
use bibkit_core::files::{FileError, Files};
use bibkit_core::request::{Call, Request};
use bibkit_core::run::run;
use bibkit_settings::configuration::folder;
use biblatex::Output;
use std::alloc::{AllocError, Global};
use std::collections::BTreeMap;
use std::{fs, io, rt};

// The maximum number of .aux files of a document.
const MOST_FILES: usize = 1000;

// The text of the file of a document, and the status so far. In an .aux file, each line that inputs another is replaced by the lines of
// that file. It is removed if that file occurred before, can't be read, or is beyond `MOST_FILES`. The status is 2 in the last two cases.
#[derive(Drop)]
struct Whole {
    text: String,
    status: u8,
}

// The files of the system, except that the first call for the file of the document returns its whole text. If `joined` is a text, the first
// other call returns it, even if it is again for the document.
#[derive(Drop)]
struct DocumentFiles<'r, 'n, 'd, R> {
    files: SystemFiles<'r, 'n, R>,
    name: &'d str,
    whole: Option<Vec<u8>>,
    joined: Option<Vec<u8>>,
}

impl<'r, 'n, 'd, R: rt::Files + Input + AllocGlobal> Files for DocumentFiles<'r, 'n, 'd, R> {
    // Nothing is known of the contents of the system's files.
    ghost reads = { λ old name bytes new. Unit {0} };

    fn read(&mut self, alloc: Global, name: &str) -> Result<Vec<u8>, FileError> {
        if name == self.name {
            if let Some(bytes) = self.whole.take() {
                return Ok(bytes);
            }
        }
        match self.joined.take() {
            Some(bytes) => Ok(bytes),
            None => self.files.read(alloc, name),
        }
    }
}

// Returns whether the file of a document is a control file of Biber (.bcf).
fn is_control_file(document: &str) -> bool {
    document.ends_with(".bcf")
}

// Returns whether a file with this name exists.
fn exists(rt: &HostRuntime, name: &str) -> bool {
    matches!(fs::exists(rt, name), Ok(true))
}

// Returns the name of a file that a document names. If no file has this name, but a file in the folder of the document has it, returns
// the name of the latter.
fn located(rt: &HostRuntime, document: &str, name: &str) -> Result<String, AllocError> {
    if exists(rt, name) {
        return String::from_str(rt.alloc(), name);
    }
    let path = folder(document).join(rt.alloc(), name)?;
    let beside = path.to_string_lossy();
    if exists(rt, beside) {
        return String::from_str(rt.alloc(), beside);
    }
    String::from_str(rt.alloc(), name)
}

// Returns the decoded text of a file.
fn text_of(rt: &HostRuntime, name: &str) -> Result<String, Stop> {
    let bytes = bytes_of(rt, name)?;
    let decoded = decode(rt.alloc(), &bytes)?;
    Ok(decoded.text)
}

// Adds the lines of a text to a stack of lines, so that its first line is the last of the stack.
fn push_lines(alloc: Global, pending: &mut Vec<String>, text: &str) -> Result<(), AllocError> {
    let mut lines = Vec::new(alloc);
    'lines: for line in text.split('\n') {
        lines.push(String::from_str(alloc, line)?)?;
    }
    lines.reverse();
    pending.append(&mut lines)?;
    Ok(())
}

// Returns the message and status 2 for a file that isn't read because there are too many.
fn too_many_stop(alloc: Global, name: &str) -> Result<Stop, AllocError>
    ensures { IfOk result (λ stop. says stop ≡ Some (on_file name.now (codes "too many .aux files"), 2)) }
{
    let said = format!(in alloc; "bibkit: {name}: too many .aux files\n")?;
    Ok(Stop::Said(said, 2))
}

// Adds the lines of an input file to a stack of lines, unless `seen` contains the file: the document itself, or a file that was input
// before. Returns the status: 0, or 2 after reporting that the file can't be read or that there are too many files.
fn enter(
    rt: &HostRuntime,
    seen: &mut BTreeMap<String, ()>,
    pending: &mut Vec<String>,
    file: String,
) -> Result<u8, Stop> {
    if seen.contains_key(file.as_str()) {
        return Ok(0);
    }
    if seen.len() >= MOST_FILES {
        let stop = too_many_stop(rt.alloc(), file.as_str())?;
        return Ok(say(rt, &stop));
    }
    let read = text_of(rt, file.as_str());
    seen.insert(file, ())?;
    match read {
        Ok(text) => {
            push_lines(rt.alloc(), pending, &text)?;
            Ok(0)
        }
        Err(stop) => {
            let stop = stop.unless_out_of_memory()?;
            Ok(say(rt, &stop))
        }
    }
}

// Returns the whole text of an .aux file with this name and text.
fn whole_aux(rt: &HostRuntime, document: &str, text: &str) -> Result<Whole, Stop> {
    let alloc = rt.alloc();
    let mut whole = Whole {
        text: String::new(alloc),
        status: 0,
    };
    let mut seen = BTreeMap::new(alloc);
    seen.insert(String::from_str(alloc, document)?, ())?;
    let mut pending = Vec::new(alloc);
    push_lines(alloc, &mut pending, text)?;
    'lines: for _ in 0..usize::MAX {
        let Some(line) = pending.pop() else {
            break;
        };
        if let Some(name) = aux_input(line.as_str()) {
            let file = located(rt, document, name)?;
            whole.status = enter(rt, &mut seen, &mut pending, file)?.max(whole.status);
        } else {
            whole.text.push_str(line.as_str())?;
            whole.text.push('\n')?;
        }
    }
    Ok(whole)
}

// Returns the result of `located` for each name in `named`. A name that occurs several times has one result.
fn located_once(
    rt: &HostRuntime,
    document: &str,
    named: &[String],
) -> Result<Vec<String>, AllocError> {
    let mut seen = BTreeMap::new(rt.alloc());
    let mut files = Vec::new(rt.alloc());
    'named: for name in named {
        if !seen.contains_key(name.as_str()) {
            seen.insert(String::from_str(rt.alloc(), name.as_str())?, ())?;
            files.push(located(rt, document, name.as_str())?)?;
        }
    }
    Ok(files)
}

// Returns the names of the .bib files that a document with this whole text names, or `-` (standard input) if it names none.
fn named_files(rt: &HostRuntime, document: &str, whole: &str) -> Result<Vec<String>, AllocError> {
    let named = if is_control_file(document) {
        sources_in_bcf(rt.alloc(), whole)?
    } else {
        sources_in_aux(rt.alloc(), whole)?
    };
    let mut files = located_once(rt, document, &named)?;
    if files.is_empty() {
        files.push(String::from_str(rt.alloc(), "-")?)?;
    }
    Ok(files)
}

// Returns copies of names.
fn copies(alloc: Global, names: &[&str]) -> Result<Vec<String>, AllocError> {
    let mut copies = Vec::new(alloc);
    'names: for name in names {
        copies.push(String::from_str(alloc, name)?)?;
    }
    Ok(copies)
}

// Returns the names as texts.
fn texts(alloc: Global, names: &[String]) -> Result<Vec<&str>, AllocError> {
    let mut texts = Vec::new(alloc);
    'names: for name in names {
        texts.push(name.as_str())?;
    }
    Ok(texts)
}

// Prints the entries that the document with this whole text cites, and returns the status. The entries are those of the file `name`, or of
// the text `joined` if there is one. Skipped blocks of `joined` aren't reported, because `join` reports those of its files.
fn run_name<'a>(
    rt: &HostRuntime,
    document: &'a str,
    whole: String,
    name: &'a str,
    joined: Option<String>,
) -> Result<u8, AllocError> {
    let call = Call {
        request: Request::Cited(document),
        has_progress: false,
        has_skipped_lines: joined.is_none(),
        names: vec![in rt.alloc(); name]?,
    };
    let mut files = DocumentFiles {
        files: SystemFiles::new(rt, "-"),
        name: document,
        whole: Some(whole.into_bytes()),
        joined: joined.map(|text| text.into_bytes()),
    };
    let mut output = Output::new(io::writer(rt));
    let messages = Output::new(rt.stderr());
    Ok(run(rt.alloc(), &call, &mut files, &mut output, messages))
}

// Prints the entries of files that the document with this whole text cites, and returns the status. Several files are one database.
fn run_names(
    rt: &HostRuntime,
    document: &str,
    whole: String,
    names: &[&str],
) -> Result<u8, AllocError> {
    if let [name] = names {
        return run_name(rt, document, whole, name, None);
    }
    let database = join(rt, names)?;
    let status = run_name(rt, document, whole, "-", Some(database.text))?;
    Ok(status.max(database.status))
}

// Runs `cited`, and returns the status.
fn cited_status(rt: &HostRuntime, document: &str, given: &[&str]) -> Result<u8, Stop> {
    let text = text_of(rt, document)?;
    let whole = if is_control_file(document) {
        Whole { text, status: 0 }
    } else {
        whole_aux(rt, document, &text)?
    };
    let files = if given.is_empty() {
        named_files(rt, document, &whole.text)?
    } else {
        copies(rt.alloc(), given)?
    };
    let names = texts(rt.alloc(), &files)?;
    let status = run_names(rt, document, whole.text, &names)?;
    Ok(status.max(whole.status))
}

/// Prints the entries of files that a document cites, and returns the status. The files are those with the names `given`. If `given` is
/// empty, they are those that the document names, or standard input if it names none.
pub fn run_cited(rt: &HostRuntime, document: &str, given: &[&str]) -> u8 {
    match cited_status(rt, document, given) {
        Ok(status) => status,
        Err(stop) => say(rt, &stop),
    }
}
