//! Runs `lint`: on each file by itself, or on several files as one database.

ghost use Rattle.std.specs.Prelude.{◌≡◌, false, true, IfErr, IfOk, OnOk};
ghost use Rattle.bibkit_core.specs.Answered.{CantReadDocument, IsCallAnswer};
ghost use Rattle.bibkit_core.specs.Answered as spec;
ghost use Rattle.bibkit_core.specs.declared.request.Request.TheVariants as request;
ghost use Rattle.bibkit_core.specs.Outcomes.{HasPrinted};
ghost use Rattle.bibkit_core.specs.Running.{names_given};
ghost use Rattle.bibkit_core.specs.Steps.{AreComparedPrinted, AreFindingsPrinted, HasStopped, IsComparedDatabase, IsDatabasePrinted};

use crate::cited::Document;
use crate::comparing::Comparing;
use crate::database::Database;
use crate::files::Files;
use crate::linting::Linting;
use crate::messages::Messages;
use crate::request::{Cited, Lint};
use crate::run::{Stop, document_text, run_task};
use biblatex::Sink;
use std::alloc::{AllocError, Global};

// Prints the selected findings of files, and returns the status.
fn run_findings<F: Files, K: Sink, M: Sink>(
    alloc: Global,
    lint: &Lint<'_>,
    names: &[&str],
    files: &mut F,
    output: &mut K,
    messages: &mut Messages<M>,
) -> Result<u8, Stop>
    ensures printed { IfOk result (HasPrinted K.taken
        (AreFindingsPrinted F.reads lint.now files.old (names_given names.now)) output.old output.new) }
    ensures same { OnOk result (K.refusals output.new ≡ K.refusals output.old) }
    ensures stopped { IfErr result (HasStopped K.taken K.refusals K.hands_over
        (AreFindingsPrinted F.reads lint.now files.old (names_given names.now))
        ⊥ output.old output.new) }
{
    let mut task = Linting::new(lint);
    run_task(alloc, names, &mut task, files, output, messages)
}

// Prints the selected findings of files, and the selected findings that compare the files with the citations of a document. Returns the
// status.
fn run_compared<F: Files, K: Sink, M: Sink>(
    alloc: Global,
    lint: &Lint<'_>,
    cited: Cited<'_>,
    names: &[&str],
    files: &mut F,
    output: &mut K,
    messages: &mut Messages<M>,
) -> Result<u8, Stop>
    ensures printed { IfOk result (HasPrinted K.taken
        (AreComparedPrinted F.reads lint.now cited.entry files.old (names_given names.now)) output.old output.new) }
    ensures same { OnOk result (K.refusals output.new ≡ K.refusals output.old) }
    ensures stopped { IfErr result (HasStopped K.taken K.refusals K.hands_over
        (AreComparedPrinted F.reads lint.now cited.entry files.old (names_given names.now))
        ((files' : F) × F.reads files.old cited.entry.name.now None files') output.old output.new) }
{
    let text = document_text(alloc, cited.name, files, messages)?;
    let document = Document::new(alloc, cited.name, text.as_str(), cited.has_unused)?;
    let mut task = Comparing::new(lint, document);
    let status = run_task(alloc, names, &mut task, files, output, messages)?;
    Ok(status)
}

// Prints the selected findings of files as one database, and those of the document, if there is one. Returns the status.
fn run_database<F: Files, K: Sink, M: Sink>(
    alloc: Global,
    lint: &Lint<'_>,
    document: Option<Document<'_>>,
    names: &[&str],
    files: &mut F,
    output: &mut K,
    messages: &mut Messages<M>,
) -> Result<u8, Stop>
    ensures printed { IfOk result (HasPrinted K.taken
        (IsDatabasePrinted F.reads lint.now document.entry files.old (names_given names.now)) output.old output.new) }
    ensures same { OnOk result (K.refusals output.new ≡ K.refusals output.old) }
    ensures stopped { IfErr result (HasStopped K.taken K.refusals K.hands_over
        (IsDatabasePrinted F.reads lint.now document.entry files.old (names_given names.now))
        ⊥ output.old output.new) }
{
    let mut task = Database::new(alloc, lint, document);
    run_task(alloc, names, &mut task, files, output, messages)
}

// Prints the selected findings of files as one database, and the selected findings that compare it with the citations of a document.
// Returns the status.
fn run_compared_database<F: Files, K: Sink, M: Sink>(
    alloc: Global,
    lint: &Lint<'_>,
    cited: Cited<'_>,
    names: &[&str],
    files: &mut F,
    output: &mut K,
    messages: &mut Messages<M>,
) -> Result<u8, Stop>
    ensures printed { IfOk result (HasPrinted K.taken
        (IsComparedDatabase F.reads lint.now cited.entry files.old (names_given names.now)) output.old output.new) }
    ensures same { OnOk result (K.refusals output.new ≡ K.refusals output.old) }
    ensures stopped { IfErr result (HasStopped K.taken K.refusals K.hands_over
        (IsComparedDatabase F.reads lint.now cited.entry files.old (names_given names.now))
        ((files' : F) × F.reads files.old cited.entry.name.now None files') output.old output.new) }
{
    let text = document_text(alloc, cited.name, files, messages)?;
    let compared = Document::new(alloc, cited.name, text.as_str(), cited.has_unused)?;
    let status = run_database(alloc, lint, Some(compared), names, files, output, messages)?;
    Ok(status)
}

// Returns whether `lint` takes files with these names as one database: there are several, and the request doesn't say that each is a
// database.
fn is_database(lint: &Lint<'_>, names: &[&str]) -> bool
    ensures { result ≡ spec.is_database lint.now (names_given names.now) }
{
    !lint.is_each && names.len() > 1
}

// Runs `lint` on files as one database, with or without a document, and returns the status.
fn run_lint_database<F: Files, K: Sink, M: Sink>(
    alloc: Global,
    lint: &Lint<'_>,
    names: &[&str],
    files: &mut F,
    output: &mut K,
    messages: &mut Messages<M>,
) -> Result<u8, Stop>
    requires { spec.is_database lint.now (names_given names.now) ≡ true }
    ensures printed { IfOk result (HasPrinted K.taken
        (IsCallAnswer F.reads files.old (names_given names.now) (request.Lint lint.now)) output.old output.new) }
    ensures same { OnOk result (K.refusals output.new ≡ K.refusals output.old) }
    ensures stopped { IfErr result (HasStopped K.taken K.refusals K.hands_over
        (IsCallAnswer F.reads files.old (names_given names.now) (request.Lint lint.now))
        (CantReadDocument F.reads files.old (request.Lint lint.now)) output.old output.new) }
{
    match lint.cited {
        None => {
            let status = run_database(alloc, lint, None, names, files, output, messages)?;
            Ok(status)
        }
        Some(cited) => {
            let status = run_compared_database(alloc, lint, cited, names, files, output, messages)?;
            Ok(status)
        }
    }
}

// Runs `lint` on each file by itself, with or without a document, and returns the status.
fn run_lint_each<F: Files, K: Sink, M: Sink>(
    alloc: Global,
    lint: &Lint<'_>,
    names: &[&str],
    files: &mut F,
    output: &mut K,
    messages: &mut Messages<M>,
) -> Result<u8, Stop>
    requires { spec.is_database lint.now (names_given names.now) ≡ false }
    ensures printed { IfOk result (HasPrinted K.taken
        (IsCallAnswer F.reads files.old (names_given names.now) (request.Lint lint.now)) output.old output.new) }
    ensures same { OnOk result (K.refusals output.new ≡ K.refusals output.old) }
    ensures stopped { IfErr result (HasStopped K.taken K.refusals K.hands_over
        (IsCallAnswer F.reads files.old (names_given names.now) (request.Lint lint.now))
        (CantReadDocument F.reads files.old (request.Lint lint.now)) output.old output.new) }
{
    match lint.cited {
        None => {
            let status = run_findings(alloc, lint, names, files, output, messages)?;
            Ok(status)
        }
        Some(cited) => {
            let status = run_compared(alloc, lint, cited, names, files, output, messages)?;
            Ok(status)
        }
    }
}

// Runs `lint`, on files as one database or on each by itself, with or without a document. Returns the status.
pub(crate) fn run_lint<F: Files, K: Sink, M: Sink>(
    alloc: Global,
    lint: &Lint<'_>,
    names: &[&str],
    files: &mut F,
    output: &mut K,
    messages: &mut Messages<M>,
) -> Result<u8, Stop>
    ensures printed { IfOk result (HasPrinted K.taken
        (IsCallAnswer F.reads files.old (names_given names.now) (request.Lint lint.now)) output.old output.new) }
    ensures same { OnOk result (K.refusals output.new ≡ K.refusals output.old) }
    ensures stopped { IfErr result (HasStopped K.taken K.refusals K.hands_over
        (IsCallAnswer F.reads files.old (names_given names.now) (request.Lint lint.now))
        (CantReadDocument F.reads files.old (request.Lint lint.now)) output.old output.new) }
{
    if is_database(lint, names) {
        let status = run_lint_database(alloc, lint, names, files, output, messages)?;
        return Ok(status);
    }
    let status = run_lint_each(alloc, lint, names, files, output, messages)?;
    Ok(status)
}
