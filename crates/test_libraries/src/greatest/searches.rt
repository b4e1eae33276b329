//! The search for directions with the most jobs and the greatest times, where all times are equal. How many directions
//! it writes is known by reasoning.

use flow_core::Instance;
use flow_directions::{Found, prove};
use std::test::Fail;

/// Jobs, machines, and the time of each job on each machine.
type Equal = (u32, u32, u32);

/// With equal times all sequences have one makespan, and each node has it as its bound. With 800 jobs on two machines
/// it needs more than 16 bits where each time is 82 or more.
static EQUAL: [Equal; 8] = [
    (1, 1, 0),
    (1, 26, 999_999),
    (17, 2, 3),
    (800, 1, 1),
    (800, 2, 0),
    (800, 2, 81),
    (800, 2, 82),
    (800, 26, 999_999),
];

/// Whether this is the sequence of so many jobs in their order, with this makespan, after as many directions.
fn is_in_order(found: &Found, jobs: u32, least: u64) -> bool {
    match found {
        Found::Below {
            sequence,
            makespan,
            directions,
        } => {
            let order = sequence.jobs();
            *makespan == least
                && *directions == u64::from(jobs)
                && order.is_sorted()
                && order.len() == jobs as usize
        }
        _ => false,
    }
}

/// Nothing is needed for the makespan; and for the next number the jobs in their order are below it, after as many
/// directions as there are jobs, which are over a budget of one less.
#[test]
fn equal_times_need_no_directions(rt: HostRuntime) -> Result<(), Fail> {
    let alloc = rt.alloc();
    for (jobs, machines, time) in &EQUAL {
        let times = vec![in alloc; *time; jobs.saturating_mul(*machines) as usize]?;
        let instance = Instance::new(alloc, *jobs, *machines, times.as_slice())?;
        let steps = u64::from(jobs.saturating_add(*machines).saturating_sub(1));
        let least = steps.saturating_mul(u64::from(*time));
        let next = least.saturating_add(1);
        let budget = u64::from(*jobs);
        let none = prove(alloc, &instance, &[], &[], least, 0)?;
        assert!(rt;
            none == Found::Proved(Vec::new(alloc)),
            "{jobs} jobs, time {time}"
        );
        let below = prove(alloc, &instance, &[], &[], next, budget)?;
        assert!(rt;
            is_in_order(&below, *jobs, least),
            "{jobs} jobs, time {time}"
        );
        let over = prove(alloc, &instance, &[], &[], next, budget.saturating_sub(1))?;
        assert!(rt; over == Found::Over, "{jobs} jobs, time {time}");
    }
    Ok(())
}
