//! The program: one command, over files or standard input.
//!
//! - `dispatch.rt`: what is done for the words of a command line, on which files.
//! - `words.rt`: how the words are read.
//! - `inputs.rt`: the inputs that a command line names.
//! - `progress.rt`: the lines that `--progress` writes.
//! - `lines.rt`: lines that a thread of their own writes to standard error.
//! - `refusal.rt`: why the program stopped.
//! - `status.rt`: the exit status.
//! - `tests.rt`: the module of the tests.
//! - `tests/files.rt`: files in memory.
//! - `tests/dispatch.rt`: tests of what the words of command lines come to.
//! - `tests/lines.rt`: the command lines of these tests, and what each comes to.
//! - `tests/invocations.rt`: tests of how the words are read.
//! - `tests/refusal.rt`: tests of the lines on standard error.
#![tactic(auto)]

mod dispatch;
mod inputs;
mod lines;
mod progress;
mod refusal;
mod status;
#[cfg(test)]
mod tests;
mod words;

use dispatch::{given_words, run_words};
use flow_commands::Means;
use flow_core::StdSink;
use inputs::StdInputs;
use lines::Lines;
use progress::Progress;
use refusal::Stop;
use std::io;
use std::io::IsTerminal;
use std::process::ExitCode;
use words::CommandLine;

fn main(rt: HostRuntime) -> ExitCode {
    let Ok(start) = Box::new(rt.alloc(), move || Lines::start(rt, rt.alloc())) else {
        drop(eprintln!(&rt; "{}", Stop::Memory));
        return ExitCode::from(Stop::Memory.status());
    };
    let inputs = StdInputs::new(&rt);
    let progress = Progress::new(&rt, start, rt.stderr().is_terminal());
    let mut out = StdSink::new(io::writer(&rt));
    let means = Means {
        rt: &rt,
        alloc: rt.alloc(),
        watch: &progress,
    };
    let words = given_words(&rt);
    let refusal = run_words::<CommandLine, _, _, _, _, _>(&means, &inputs, words, &mut out).err();
    progress.end(refusal);
    match refusal {
        None => ExitCode::SUCCESS,
        Some(stop) => ExitCode::from(stop.status()),
    }
}
