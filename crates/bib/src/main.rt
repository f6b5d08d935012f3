//! The program `bib`: reads a bibliography from standard input, and prints the output of a command.
#![tactic(auto)]

mod reports;
mod run;
mod start;
mod streams;

use crate::streams::Input;
use biblatex::Output;
use std::process::ExitCode;
use std::{env, io};

fn main(rt: HostRuntime) -> ExitCode {
    let mut input = Input::new(rt.reader());
    let mut output = Output::new(io::writer(&rt));
    ExitCode::from(start::start(rt.alloc(), env::args(&rt), &mut input, &mut output))
}
