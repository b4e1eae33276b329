//! Makes each library call that may return that memory ran out, and runs each command, on worked instances. It compares
//! what they return and write with what they should. A group of calls ends at a call for which memory ran out, and the
//! next group follows.
//!
//! The status is 0 where each call returned what it should. It is 1 where memory ran out in some call, or a worker
//! could not be started, and all other calls returned what they should. It is 2 where a call returned anything else.
//!
//! `rt try --fail-alloc N` refuses growth N of a run, and builds the program anew for each N. To build it once, N stays
//! the same, and standard input says how many growths are made and given back before the calls: none where it is empty.
//!
//! - `groups.rt`: the groups of library calls, and what each is made on.
//! - `growths.rt`: growths of memory before the calls.
//! - `instances.rt`: instances, sequences and the generator.
//! - `texts.rt`: benchmark text, start text, sinks and sources.
//! - `schedules.rt`: timetable, table and picture.
//! - `bounds.rt`: the starting sequence, and better ones.
//! - `search.rt`: plans, outcomes, verdicts, directions and bounds.
//! - `lanes.rt`: lanes.
//! - `workers.rt`: workers in threads.
//! - `certificates.rt`: the writer and the checker of certificates.
//! - `commands.rt`: the commands, over sources and sinks in memory.
#![tactic(auto)]

mod bounds;
mod certificates;
mod commands;
mod groups;
mod growths;
mod instances;
mod lanes;
mod schedules;
mod search;
mod texts;
mod workers;

use commands::{RUN_COUNT, RUNS, run_is_right};
use flow_commands::CommandFault;
use groups::{GROUPS, is_refusal};
use growths::{asked, grow};
use std::process::ExitCode;
use workers::workers_solve;

/// The status where memory ran out in some call, or a worker could not be started.
const REFUSED: u8 = 1;

/// The status where a call returned something that it should not.
const WRONG: u8 = 2;

/// How many groups returned what they should, and the status, as far as they were made.
#[derive(Drop)]
struct Tally {
    right: u32,
    status: u8,
}

impl Tally {
    /// Adds a group: whether its calls returned what they should, or the fault of the call at which it ended.
    fn add<R: Eprint>(&mut self, rt: &R, name: &str, ended: Result<bool, CommandFault>) {
        match ended {
            Ok(true) => self.right = self.right.saturating_add(1),
            Err(fault) if is_refusal(fault) => self.status = self.status.max(REFUSED),
            _ => {
                drop(eprintln!(rt; "{name}: not what it should be"));
                self.status = WRONG;
            }
        }
    }
}

fn main(rt: HostRuntime) -> ExitCode {
    let alloc = rt.alloc();
    if grow(alloc, asked(&rt)).is_err() {
        return ExitCode::from(REFUSED);
    }
    let mut tally = Tally {
        right: 0,
        status: 0,
    };
    for (name, group) in &GROUPS {
        tally.add(&rt, name, group.made(alloc));
    }
    let workers = workers_solve(&rt, alloc);
    tally.add(&rt, "serve, solve, solve_limited", workers);
    for run in &RUNS {
        tally.add(&rt, run.name, run_is_right(&rt, alloc, run));
    }
    let count = GROUPS.len() + 1 + RUN_COUNT;
    let right = tally.right;
    drop(println!(&rt; "{right} of {count} groups of calls returned what they should"));
    ExitCode::from(tally.status)
}
