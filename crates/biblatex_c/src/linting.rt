//! The call that writes the findings of a text as JSON.

ghost use Rattle.std.specs.Prelude.{◌≡◌, IfOk, IfErr};
ghost use Rattle.std.specs.String.{string_bytes};
ghost use Rattle.biblatex_c.specs.Calls.{AreFaults, IsNumberedEnd};
ghost use Rattle.biblatex_c.specs.declared.status.Status.TheVariants.{OutOfMemory};

use crate::buffers::end;
use crate::status::Status;
use bibkit_core::linting::Linting;
use bibkit_core::own_names::OwnNames;
use bibkit_core::request::{FailOn, Lint, Style};
use bibkit_core::selection::Selection;
use bibkit_core::task::Task;
use std::alloc::Global;

// Returns all findings of a text as a JSON array. Fails only if out of memory.
fn faults_of(alloc: Global, bytes: &[u8]) -> Result<String, Status>
    ensures found { IfOk result (λ text. AreFaults bytes.now (string_bytes text)) }
    ensures fails { IfErr result (λ why. why ≡ OutOfMemory) }
{
    let lint = Lint {
        selection: Selection::all(alloc),
        style: Style::Json,
        fail_on: FailOn::Warning,
        cited: None,
        is_each: false,
        conditions: Vec::new(alloc),
        own: OwnNames::none(alloc),
        has_switches: false,
    };
    let mut linting = Linting::new(&lint);
    let mut text = String::from_str(alloc, linting.begin())?;
    let found = linting.file(alloc, "", bytes)?;
    text.push_str(&found)?;
    let ending = linting.end(alloc)?;
    text.push_str(&ending.text)?;
    Ok(text)
}

/// Writes the findings of a text as a JSON array of objects. Each object has the file name (empty), the line and the column of the start
/// and of the end, severity, code and message. A text that isn't UTF-8 is decoded as Windows-1252, and has a finding that says so.
#[unsafe(no_mangle)]
pub extern "C" fn biblatex_lint(alloc: Global, text: &[u8], out: &mut [u8], size: &mut usize) -> u32
    ensures { IsNumberedEnd (AreFaults text.now) (λ why. why ≡ OutOfMemory) out.old size.old out.new size.new result }
{
    end(faults_of(alloc, text), out, size).number()
}
