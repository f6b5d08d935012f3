//! Runs requests: reads the files, prints the results, and returns the status.

ghost use Rattle.std.specs.Prelude.{◌≡◌, ◌≢◌, ◌<◌, ◌≤◌, ◌&&◌, ℕ, List, IfErr, IfOk, OnOk, option_map, if◌then◌else◌};
ghost use Rattle.std.specs.String.{string_bytes};
ghost use Rattle.std.specs.Io.KnownBytes.{Appends};
ghost use Rattle.bibkit_core.specs.Answered.{CantReadDocument, HasFailed, IsCallAnswer};
ghost use Rattle.bibkit_core.specs.Outcomes.{HasPrinted};
ghost use Rattle.bibkit_core.specs.Running.{IsTaskPrinted, names_given};
ghost use Rattle.bibkit_core.specs.Steps.{AreEntriesPrinted, AreFirst, AreSelectedPrinted, HasNoText, HasRun, HasStep, HasStopped, IsMeaningPrinted, IsNothing, ReadsText};
ghost use Rattle.bibkit_core.specs.declared.run.Stop.TheVariants.{OutOfMemory};

use crate::cited::{citations, keys};
use crate::counting::Counting;
use crate::decoding::decode_bytes;
use crate::entries::Entries;
use crate::files::Files;
use crate::lint_run::run_lint;
use crate::messages::Messages;
use crate::request::{Call, Request, Selected};
use crate::selecting::Selecting;
use crate::task::Task;
use bib_findings::codes::Code;
use bib_queries::request::{CitedKeys, Request as Excerpts};
use biblatex::Sink;
use std::alloc::{AllocError, Global};

// The reason for which a run ends before everything is printed.
#[derive(Debug, Clone, Copy, PartialEq, Eq)]
pub(crate) enum Stop {
    // The output refused a text.
    Refused,
    // The file of the document can't be read. The error has been printed.
    NoDocument,
    // Out of memory.
    OutOfMemory,
}

impl From<AllocError> for Stop {
    ghost from_gives = { λ _ stop. stop ≡ OutOfMemory };

    fn from(_error: AllocError) -> Self {
        Stop::OutOfMemory
    }
}

// Writes a text to the output.
fn print<K: Sink>(output: &mut K, text: &str) -> Result<(), Stop>
    ensures printed { OnOk result (Appends (K.taken output.old) (K.taken output.new) text.now) }
    ensures same { OnOk result (K.refusals output.new ≡ K.refusals output.old) }
    ensures stopped { IfErr result (HasStopped K.taken K.refusals K.hands_over IsNothing ⊥ output.old output.new) }
{
    if output.write_str(text) {
        Ok(())
    } else {
        Err(Stop::Refused)
    }
}

// Returns the bytes of a file. If it can't be read, prints the error and returns `None`.
fn bytes_of<F: Files, M: Sink>(
    alloc: Global,
    name: &str,
    files: &mut F,
    messages: &mut Messages<M>,
) -> Result<Option<Vec<u8>>, AllocError>
    ensures { IfOk result (λ found. F.reads files.old name.now (option_map (λ bytes. bytes.items) found) files.new) }
{
    match files.read(alloc, name) {
        Ok(bytes) => Ok(Some(bytes)),
        Err(error) => {
            let error = error.unless_out_of_memory()?;
            messages.report(alloc, name, error)?;
            Ok(None)
        }
    }
}

// Reads a file, runs the task on it and prints its messages and its text. If the file can't be read, prints the error and returns false.
fn run_file<T: Task, F: Files, K: Sink, M: Sink>(
    alloc: Global,
    name: &str,
    task: &mut T,
    files: &mut F,
    output: &mut K,
    messages: &mut Messages<M>,
) -> Result<bool, Stop>
    ensures printed { IfOk result (λ is_read. HasStep F.reads T.prints files.old task.old (K.taken output.old) name.now is_read
        files.new task.new (K.taken output.new)) }
    ensures same { OnOk result (K.refusals output.new ≡ K.refusals output.old) }
    ensures stopped { IfErr result (HasStopped K.taken K.refusals K.hands_over IsNothing ⊥ output.old output.new) }
{
    messages.begin(alloc, name)?;
    let Some(bytes) = bytes_of(alloc, name, files, messages)? else {
        return Ok(false);
    };
    let text = task.file(alloc, name, &bytes)?;
    messages.clear();
    messages.report_skipped(task.messages());
    print(output, &text)?;
    Ok(true)
}

// Returns whether both are true.
fn both(first: bool, second: bool) -> bool
    ensures { result ≡ (first && second) }
{
    first && second
}

// Runs the task on files in turn and prints the texts. Returns whether all files could be read.
fn run_files<T: Task, F: Files, K: Sink, M: Sink>(
    alloc: Global,
    names: &[&str],
    task: &mut T,
    files: &mut F,
    output: &mut K,
    messages: &mut Messages<M>,
) -> Result<bool, Stop>
    ensures printed { IfOk result (λ are_read. HasRun F.reads T.prints files.old task.old (K.taken output.old)
        (names_given names.now) are_read files.new task.new (K.taken output.new)) }
    ensures same { OnOk result (K.refusals output.new ≡ K.refusals output.old) }
    ensures stopped { IfErr result (HasStopped K.taken K.refusals K.hands_over
        (AreFirst F.reads T.prints files.old task.old (names_given names.now)) ⊥ output.old output.new) }
{
    let mut are_read = true;
    'names: for name in names {
        let is_read = run_file(alloc, *name, task, files, output, messages)?;
        are_read = both(are_read, is_read);
    }
    Ok(are_read)
}

// Returns the status: 2 if a file can't be read, otherwise `status`.
fn status_of(are_read: bool, status: u8) -> u8
    ensures { result ≡ (if are_read then status else 2) }
{
    if are_read { status } else { 2 }
}

// Runs a task on files, and prints its texts before, for and after the files. Returns the status: 2 if a file can't be read, otherwise
// that of the end of the task.
pub(crate) fn run_task<T: Task, F: Files, K: Sink, M: Sink>(
    alloc: Global,
    names: &[&str],
    task: &mut T,
    files: &mut F,
    output: &mut K,
    messages: &mut Messages<M>,
) -> Result<u8, Stop>
    ensures printed { IfOk result (HasPrinted K.taken (IsTaskPrinted F.reads T.begins T.prints T.ends files.old task.old
        (names_given names.now)) output.old output.new) }
    ensures same { OnOk result (K.refusals output.new ≡ K.refusals output.old) }
    ensures stopped { IfErr result (HasStopped K.taken K.refusals K.hands_over
        (IsTaskPrinted F.reads T.begins T.prints T.ends files.old task.old (names_given names.now)) ⊥ output.old output.new) }
{
    print(output, task.begin())?;
    let are_read = run_files(alloc, names, task, files, output, messages)?;
    let end = task.end(alloc)?;
    print(output, &end.text)?;
    Ok(status_of(are_read, end.status))
}

// Reads and decodes the .aux or .bcf file of a document. Fails with `NoDocument` if it can't be read.
pub(crate) fn document_text<F: Files, M: Sink>(
    alloc: Global,
    name: &str,
    files: &mut F,
    messages: &mut Messages<M>,
) -> Result<String, Stop>
    ensures read { IfOk result (λ text. ReadsText F.reads files.old name.now files.new (string_bytes text)) }
    ensures unread { IfErr result (HasNoText F.reads files.old name.now files.new) }
{
    let Some(bytes) = bytes_of(alloc, name, files, messages)? else {
        return Err(Stop::NoDocument);
    };
    let decoded = decode_bytes(alloc, &bytes)?;
    Ok(decoded.text)
}

// Prints the requested entries of files, and returns the status.
fn run_entries<F: Files, K: Sink, M: Sink>(
    alloc: Global,
    request: &Excerpts<'_>,
    names: &[&str],
    files: &mut F,
    output: &mut K,
    messages: &mut Messages<M>,
) -> Result<u8, Stop>
    ensures printed { IfOk result (HasPrinted K.taken
        (AreEntriesPrinted F.reads request.now files.old (names_given names.now)) output.old output.new) }
    ensures same { OnOk result (K.refusals output.new ≡ K.refusals output.old) }
    ensures stopped { IfErr result (HasStopped K.taken K.refusals K.hands_over
        (AreEntriesPrinted F.reads request.now files.old (names_given names.now))
        ⊥ output.old output.new) }
{
    let mut task = Entries::new(alloc, request);
    run_task(alloc, names, &mut task, files, output, messages)
}

// Prints entries of files that conditions select, or their keys, and returns the status.
fn run_selected<F: Files, K: Sink, M: Sink>(
    alloc: Global,
    selected: &Selected<'_>,
    names: &[&str],
    files: &mut F,
    output: &mut K,
    messages: &mut Messages<M>,
) -> Result<u8, Stop>
    ensures printed { IfOk result (HasPrinted K.taken
        (AreSelectedPrinted F.reads selected.now files.old (names_given names.now)) output.old output.new) }
    ensures same { OnOk result (K.refusals output.new ≡ K.refusals output.old) }
    ensures stopped { IfErr result (HasStopped K.taken K.refusals K.hands_over
        (AreSelectedPrinted F.reads selected.now files.old (names_given names.now))
        ⊥ output.old output.new) }
{
    let mut task = Selecting::new(alloc, selected);
    run_task(alloc, names, &mut task, files, output, messages)
}

// Prints the entries of files that a document cites, everything that they refer to, transitively, and the preambles. Returns the status.
fn run_cited<F: Files, K: Sink, M: Sink>(
    alloc: Global,
    document: &str,
    names: &[&str],
    files: &mut F,
    output: &mut K,
    messages: &mut Messages<M>,
) -> Result<u8, Stop>
    ensures printed { IfOk result (HasPrinted K.taken
        (IsCallAnswer F.reads files.old (names_given names.now) (Request.Cited document.entry)) output.old output.new) }
    ensures same { OnOk result (K.refusals output.new ≡ K.refusals output.old) }
    ensures stopped { IfErr result (HasStopped K.taken K.refusals K.hands_over
        (IsCallAnswer F.reads files.old (names_given names.now) (Request.Cited document.entry))
        (CantReadDocument F.reads files.old (Request.Cited document.entry)) output.old output.new) }
{
    let text = document_text(alloc, document, files, messages)?;
    let citations = citations(alloc, document, text.as_str())?;
    let request = Excerpts::Cited(CitedKeys {
        keys: keys(alloc, &citations)?,
        all: citations.all,
    });
    let status = run_entries(alloc, &request, names, files, output, messages)?;
    Ok(status)
}

// Prints the counts of files, and returns the status.
fn run_counts<F: Files, K: Sink, M: Sink>(
    alloc: Global,
    names: &[&str],
    files: &mut F,
    output: &mut K,
    messages: &mut Messages<M>,
) -> Result<u8, Stop>
    ensures printed { IfOk result (HasPrinted K.taken
        (IsCallAnswer F.reads files.old (names_given names.now) Request.Stats) output.old output.new) }
    ensures same { OnOk result (K.refusals output.new ≡ K.refusals output.old) }
    ensures stopped { IfErr result (HasStopped K.taken K.refusals K.hands_over
        (IsCallAnswer F.reads files.old (names_given names.now) Request.Stats)
        ⊥ output.old output.new) }
{
    let mut task = Counting::new(alloc);
    let status = run_task(alloc, names, &mut task, files, output, messages)?;
    Ok(status)
}

// Prints the explanation of a code, and returns the status 0.
fn explain<K: Sink>(alloc: Global, code: Code, output: &mut K) -> Result<u8, Stop>
    ensures printed { IfOk result (HasPrinted K.taken
        (IsMeaningPrinted code) output.old output.new) }
    ensures same { OnOk result (K.refusals output.new ≡ K.refusals output.old) }
    ensures stopped { IfErr result (HasStopped K.taken K.refusals K.hands_over
        (IsMeaningPrinted code)
        ⊥ output.old output.new) }
{
    let text = format!(in alloc;
        "{} ({}): {}\n",
        code.name(),
        code.severity().name(),
        code.explanation()
    )?;
    print(output, text.as_str())?;
    Ok(0)
}

// Runs a request, and returns the status.
fn answer<F: Files, K: Sink, M: Sink>(
    alloc: Global,
    request: &Request<'_>,
    names: &[&str],
    files: &mut F,
    output: &mut K,
    messages: &mut Messages<M>,
) -> Result<u8, Stop>
    ensures printed { IfOk result (HasPrinted K.taken
        (IsCallAnswer F.reads files.old (names_given names.now) request.now) output.old output.new) }
    ensures same { OnOk result (K.refusals output.new ≡ K.refusals output.old) }
    ensures stopped { IfErr result (HasStopped K.taken K.refusals K.hands_over
        (IsCallAnswer F.reads files.old (names_given names.now) request.now)
        (CantReadDocument F.reads files.old request.now) output.old output.new) }
{
    match request {
        Request::Lint(lint) => {
            let status = run_lint(alloc, lint, names, files, output, messages)?;
            Ok(status)
        }
        Request::Explain(code) => {
            let status = explain(alloc, *code, output)?;
            Ok(status)
        }
        Request::Entries(request) => {
            let status = run_entries(alloc, request, names, files, output, messages)?;
            Ok(status)
        }
        Request::Selected(selected) => {
            let status = run_selected(alloc, selected, names, files, output, messages)?;
            Ok(status)
        }
        Request::Cited(document) => {
            let status = run_cited(alloc, *document, names, files, output, messages)?;
            Ok(status)
        }
        Request::Stats => {
            let status = run_counts(alloc, names, files, output, messages)?;
            Ok(status)
        }
    }
}

/// Runs a request, and returns the greatest status that applies:
/// - 0: done.
/// - 1: `lint` printed a finding of at least the severity `fail_on`, a search found nothing, or a request for entries skipped a block.
/// - 2: a file can't be read, or the output refused a text.
/// - 3: out of memory.
pub fn run<F: Files, K: Sink, M: Sink + Drop>(
    alloc: Global,
    call: &Call<'_>,
    files: &mut F,
    output: &mut K,
    messages: M,
) -> u8
    ensures status { result ≤ 3 }
    ensures printed { result < 2 → HasPrinted K.taken (IsCallAnswer F.reads files.old
        (names_given call.now.names.items) call.now.request) output.old output.new result }
    ensures failed { result ≡ 2 → HasFailed F.reads K.taken K.refusals K.hands_over files.old
        (names_given call.now.names.items) call.now.request output.old output.new }
    ensures refused { K.refusals output.new ≢ K.refusals output.old → result ≡ 2 }
{
    let mut messages = Messages::new(
        messages,
        call.has_progress,
        call.has_skipped_lines,
        call.names.len(),
    );
    match answer(
        alloc,
        &call.request,
        &call.names,
        files,
        output,
        &mut messages,
    ) {
        Ok(status) => {
            messages.clear();
            status
        }
        Err(Stop::Refused) => {
            messages.end("bibkit: the output can't be written\n");
            2
        }
        Err(Stop::NoDocument) => 2,
        Err(Stop::OutOfMemory) => {
            messages.end("bibkit: out of memory\n");
            3
        }
    }
}
