//! Plans from a given start.

use crate::instances::three_machines;
use crate::outcomes::{AMPLE, is_verdict};
use flow_core::{Instance, Sequence};
use flow_search::{Options, Plan, PlanFault, prepare_from, solve_plain};
use std::alloc::Global;

/// A start of the instance with three machines, walked by hand: its jobs, its makespan, and the tree at depth 0.
type Row = (&'static [u16], u64, &'static [u8]);

static STARTS: [Row; 3] = [
    (&[3, 1, 2], 12, b"+BC+AB"),
    (&[2, 1, 3], 13, b"+BC++.B"),
    (&[1, 2, 3], 15, b"++B+.++.B++.B"),
];

/// Whether a plan has the start and the makespan of a row, and a verdict with its tree.
fn solves(alloc: Global, plan: &Plan, row: &Row) -> bool {
    let (jobs, makespan, tree) = *row;
    if plan.start().jobs() != jobs || plan.start_value() != makespan {
        return false;
    }
    match solve_plain(alloc, plan) {
        Ok(verdict) => is_verdict(&verdict, 12, &[3, 1, 2], &[tree]),
        Err(_) => false,
    }
}

/// Whether the plan from a start has what its row says.
fn is_solved(alloc: Global, row: &Row) -> bool {
    let Ok(options) = Options::new(1, 0, AMPLE) else {
        return false;
    };
    let Ok(instance) = three_machines(alloc) else {
        return false;
    };
    let Ok(start) = Sequence::new(alloc, &instance, row.0) else {
        return false;
    };
    match prepare_from(alloc, &instance, start, options) {
        Ok(plan) => solves(alloc, &plan, row),
        Err(_) => false,
    }
}

#[test]
fn a_plan_starts_from_the_given_sequence(rt: HostRuntime) {
    for (number, row) in STARTS.iter().enumerate() {
        assert!(rt; is_solved(rt.alloc(), row), "row {number}");
    }
}

/// Whether two jobs have no plan at depth 3.
fn is_too_deep(alloc: Global) -> bool {
    let Ok(options) = Options::new(1, 3, AMPLE) else {
        return false;
    };
    let Ok(few) = Instance::new(alloc, 2, 1, &[0, 0]) else {
        return false;
    };
    let Ok(start) = Sequence::new(alloc, &few, &[2, 1]) else {
        return false;
    };
    prepare_from(alloc, &few, start, options).err() == Some(PlanFault::Depth)
}

#[test]
fn prepare_from_names_first_fault(rt: HostRuntime) {
    assert!(rt; is_too_deep(rt.alloc()));
}
