//! What `gen` writes and refuses.

use super::texts::GENERATED;
use super::{ROOM, Wanted, comes_to};
use flow_commands::{CommandFault, run_gen};
use flow_core::{InstanceFault, MemorySink};
use std::alloc::Global;

/// Jobs, machines and a seed; and what is written, or the fault.
static ROWS: [([u32; 3], Wanted); 4] = rows! {
    [2, 2, 1], Ok(GENERATED);
    [1, 1, 2_147_483_646], Ok(b"number of jobs, number of machines, initial seed, upper bound and lower bound :\n\
1 1 2147483646 99 99\nprocessing times :\n99\n");
    [0, 1, 1], Err(CommandFault::Instance(InstanceFault::Jobs));
    [2, 2, 2_147_483_647], Err(CommandFault::Instance(InstanceFault::Seed));
};

/// Whether `gen` comes to what a row says.
fn holds(alloc: Global, row: &([u32; 3], Wanted)) -> bool {
    let ([jobs, machines, seed], wanted) = *row;
    let mut out = MemorySink::new(alloc, ROOM);
    let ran = run_gen(alloc, jobs, machines, seed, &mut out);
    comes_to(ran, &out, wanted)
}

#[test]
fn gen_writes_block_with_bounds(rt: HostRuntime) {
    for (number, row) in ROWS.iter().enumerate() {
        assert!(rt; holds(rt.alloc(), row), "row {number}");
    }
}
