//! How to call the solver and the checker from a crate of one's own: an instance is solved, its certificate is written
//! into memory, and the checker reads it there.
#![tactic(auto)]

use anyhow::Error;
use flow_cert::{check, write_certificate};
use flow_core::{Instance, MemorySink};
use flow_pool::{Open, solve};
use flow_search::{Options, prepare};
use std::alloc::Global;
use std::sync::Wait;
use std::thread::Threads;

/// The jobs and machines of the instance, and its times, machine by machine.
const JOBS: u32 = 3;

const MACHINES: u32 = 3;

const TIMES: [u32; 9] = [4, 0, 0, 0, 8, 2, 4, 0, 1];

/// More bytes than the certificate has.
const ROOM: usize = 1_000;

fn main(rt: HostRuntime) -> Result<(), Error> {
    let value = certified(&rt, rt.alloc())?;
    println!(rt; "optimal {value}")?;
    Ok(())
}

/// The least makespan of the instance, by two workers, as the checker reads it from the certificate.
fn certified<R: Threads + Wait + Sync>(rt: &R, alloc: Global) -> Result<u64, Error> {
    let instance = Instance::new(alloc, JOBS, MACHINES, &TIMES)?;
    let plan = prepare(alloc, &instance, Options::new(2, 1, 1_000_000)?)?;
    let report = solve(rt, alloc, &plan, &Open)?;
    let mut certificate = MemorySink::new(alloc, ROOM);
    write_certificate(&plan, &report.verdict, &mut certificate)?;
    Ok(check(alloc, &instance, certificate.bytes())?)
}
