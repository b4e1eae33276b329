//! Trees of millions of bytes, of instances whose trees `bench/plain.rs` found.

use crate::plans::planned;
use flow_cert::write_certificate;
use flow_check::check;
use flow_core::{MemorySink, generate};
use flow_search::{Outcome, RunFault, answer, solve_plain};
use std::test::Fail;

/// The sequence that the search finds for the instance of seed 32, whose tree has 11,013,239 bytes.
static FOUND: [u16; 15] = [6, 5, 2, 3, 4, 11, 13, 15, 8, 9, 7, 10, 12, 1, 14];

/// Whether an outcome has the makespan 884, this sequence, and a tree of so many bytes.
fn is_found(outcome: &Outcome) -> bool {
    match outcome {
        Outcome::Done {
            best: Some(best),
            tree,
        } => {
            best.value == 884
                && best.sequence.jobs() == FOUND.as_slice()
                && tree.len() == 11_013_239
        }
        _ => false,
    }
}

#[test]
fn tree_of_eleven_million_bytes_is_answered(rt: HostRuntime) -> Result<(), Fail> {
    let instance = generate(rt.alloc(), 15, 4, 32)?;
    let plan = planned(rt.alloc(), &instance, 1, (0, 1, 11_013_239))?;
    assert_eq!(rt; plan.prefixes(), 1);
    assert!(rt; is_found(&answer(rt.alloc(), &plan, 0)));
    Ok(())
}

/// The lines of the certificate but the fifth have 23, 7, 4, 36 and 4 bytes.
#[test]
fn certificate_of_eleven_million_bytes_is_written_and_accepted(
    rt: HostRuntime,
) -> Result<(), Fail> {
    let instance = generate(rt.alloc(), 15, 4, 32)?;
    let plan = planned(rt.alloc(), &instance, 1, (0, 1, 11_013_239))?;
    let verdict = solve_plain(rt.alloc(), &plan)?;
    let mut sink = MemorySink::new(rt.alloc(), 12_000_000);
    write_certificate(&plan, &verdict, &mut sink)?;
    assert_eq!(rt; sink.bytes().len(), 11_013_314);
    assert_eq!(rt; check(rt.alloc(), &instance, sink.bytes()), Ok(884));
    Ok(())
}

/// The tree of the instance of seed 3.
#[test]
fn tree_of_more_than_the_greatest_budget_is_refused(rt: HostRuntime) -> Result<(), Fail> {
    let instance = generate(rt.alloc(), 15, 4, 3)?;
    let plan = planned(rt.alloc(), &instance, 1, (0, 1, 100_000_000))?;
    assert!(rt; solve_plain(rt.alloc(), &plan).err() == Some(RunFault::OverBudget(0)));
    Ok(())
}
