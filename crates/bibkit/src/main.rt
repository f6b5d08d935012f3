//! The program `bibkit`: it lints, searches, edits, formats and converts bibliography files.
#![tactic(auto)]

use bibkit_commands::start::start;
use std::process::ExitCode;

fn main(rt: HostRuntime) -> ExitCode {
    ExitCode::from(start(&rt))
}
