//! Options, plans, outcomes and verdicts.

use crate::instances::{TREES_AT_DEPTH_1, three_machines};
use crate::outcomes::{AMPLE, TIGHT, all_outcomes, is_verdict};
use crate::plans::planned;
use crate::shops::{Shop, made};
use flow_search::{
    OptionFault, Options, Outcome, Plan, PlanFault, RunFault, Verdict, answer, conclude, prepare,
    solve_plain,
};
use std::test::Fail;

/// Workers, depth and budget, and the first fault, if there is one.
static OPTIONS: [(u32, u32, u32, Option<OptionFault>); 6] = [
    (0, 0, 1, Some(OptionFault::Workers)),
    (65, 4, 0, Some(OptionFault::Workers)),
    (1, 4, 0, Some(OptionFault::Depth)),
    (1, 0, 0, Some(OptionFault::Budget)),
    (1, 0, 100_000_001, Some(OptionFault::Budget)),
    (64, 3, 100_000_000, None),
];

#[test]
fn options_name_first_fault(rt: HostRuntime) {
    for (workers, depth, budget, fault) in &OPTIONS {
        let parts = Options::new(*workers, *depth, *budget).map(|options| {
            (options.workers(), options.depth(), options.budget())
        });
        let wanted = match fault {
            Some(fault) => Err(*fault),
            None => Ok((*workers, *depth, *budget)),
        };
        assert_eq!(rt; parts, wanted);
    }
}

/// Versions, and whether they are taken.
static VERSIONS: [(u32, bool); 4] = [(0, false), (1, true), (2, true), (3, false)];

/// The options keep their other parts.
#[test]
fn with_version_takes_1_and_2(rt: HostRuntime) -> Result<(), Fail> {
    let options = Options::new(3, 2, 7)?;
    for (version, is_taken) in &VERSIONS {
        match options.with_version(*version) {
            Ok(chosen) => {
                let parts = (
                    chosen.workers(),
                    chosen.depth(),
                    chosen.budget(),
                    chosen.version(),
                );
                assert_eq!(rt; (*is_taken, parts), (true, (3, 2, 7, *version)));
            }
            Err(fault) => {
                assert_eq!(rt;
                    (*is_taken, fault),
                    (false, OptionFault::Version),
                    "{version}"
                );
            }
        }
    }
    assert_eq!(rt; options.version(), 1);
    Ok(())
}

/// Instances on one machine, and the fault of their plans at depth 3.
static PLAN_FAULTS: [(Shop, PlanFault); 2] = [
    (Shop::Times(48, 1, &[0; 48]), PlanFault::Prefixes),
    (Shop::Times(2, 1, &[0; 2]), PlanFault::Depth),
];

#[test]
fn prepare_names_first_fault(rt: HostRuntime) -> Result<(), Fail> {
    let options = Options::new(1, 3, AMPLE)?;
    for (shop, fault) in &PLAN_FAULTS {
        let instance = made(rt.alloc(), *shop)?;
        assert!(rt;
            prepare(rt.alloc(), &instance, options).err() == Some(*fault),
            "{fault:?}"
        );
    }
    Ok(())
}

/// Prefixes by their numbers.
type Prefixes = &'static [(u32, &'static [u16])];

/// Instances, the depth, how many prefixes the plan has, and some of them. The first has the most that a plan may have.
static PLANS: [(Shop, u32, u32, Prefixes); 2] = rows! {
    Shop::Times(47, 1, &[0; 47]), 3, 97_290, &[(0, &[1, 2, 3]), (97_289, &[47, 46, 45])];
    Shop::Three, 2, 6, &[(0, &[1, 2]), (1, &[1, 3]), (2, &[2, 1]), (3, &[2, 3]), (4, &[3, 1]), (5, &[3, 2])];
};

#[test]
fn prepare_numbers_prefixes(rt: HostRuntime) -> Result<(), Fail> {
    for (shop, depth, count, prefixes) in &PLANS {
        let instance = made(rt.alloc(), *shop)?;
        let plan = planned(rt.alloc(), &instance, 1, (*depth, 1, AMPLE))?;
        assert_eq!(rt; plan.prefixes(), *count);
        for (number, jobs) in *prefixes {
            assert!(rt;
                *number < plan.prefixes() && plan.prefix(*number) == *jobs,
                "{number}"
            );
        }
    }
    Ok(())
}

/// Whether a plan starts from these jobs.
fn is_start(plan: &Plan, jobs: &[u16]) -> bool {
    plan.start().jobs() == jobs
}

#[test]
fn plan_gives_its_parts(rt: HostRuntime) -> Result<(), Fail> {
    let instance = three_machines(rt.alloc())?;
    let plan = planned(rt.alloc(), &instance, 2, (2, 1, AMPLE))?;
    assert_eq!(rt;
        (plan.instance().machines(), plan.options().workers()),
        (3, 2)
    );
    assert_eq!(rt; plan.start_value(), 13);
    assert!(rt; is_start(&plan, &[2, 1, 3]));
    Ok(())
}

/// A prefix of the instance with three machines at depth 1, the value and the sequence of its best, and its tree.
type Answered = (u32, Option<(u64, &'static [u16])>, &'static [u8]);

static ANSWERS: [Answered; 3] = [
    (0, None, b"B"),
    (1, None, b"C"),
    (2, Some((12, &[3, 1, 2])), b"++.B"),
];

/// Whether an outcome has this best and this tree.
fn is_done(outcome: &Outcome, best: Option<(u64, &[u16])>, tree: &[u8]) -> bool {
    let Outcome::Done {
        best: found,
        tree: bytes,
    } = outcome
    else {
        return false;
    };
    let is_best = match (found, best) {
        (Some(found), Some((value, jobs))) => {
            found.value == value && found.sequence.jobs() == jobs
        }
        (None, None) => true,
        _ => false,
    };
    is_best && bytes.as_slice() == tree
}

#[test]
fn answer_succeeds(rt: HostRuntime) -> Result<(), Fail> {
    let instance = three_machines(rt.alloc())?;
    let plan = planned(rt.alloc(), &instance, 1, (1, 1, AMPLE))?;
    assert_eq!(rt; plan.prefixes(), 3);
    for (number, best, tree) in &ANSWERS {
        assert!(rt; *number < plan.prefixes(), "prefix {number}");
        assert!(rt;
            is_done(&answer(rt.alloc(), &plan, *number), *best, tree),
            "prefix {number}"
        );
    }
    Ok(())
}

/// What a table says of a verdict: its value, its sequence and its trees; or why there is none.
type Listed = Result<(u64, &'static [u16], &'static [&'static [u8]]), RunFault>;

/// Whether a verdict is that of a table.
fn is_listed(found: &Result<Verdict, RunFault>, listed: Listed) -> bool {
    match (found, listed) {
        (Ok(verdict), Ok((value, jobs, trees))) => is_verdict(verdict, value, jobs, trees),
        (Err(fault), Err(wanted)) => *fault == wanted,
        _ => false,
    }
}

/// Budgets, and what the outcomes of the instance with three machines come to at depth 1.
static CONCLUDED: [(u32, Listed); 2] = [
    (AMPLE, Ok((12, &[3, 1, 2], &TREES_AT_DEPTH_1))),
    (TIGHT, Err(RunFault::OverBudget(2))),
];

#[test]
fn conclude_takes_the_outcomes_of_all_prefixes(rt: HostRuntime) -> Result<(), Fail> {
    let instance = three_machines(rt.alloc())?;
    for (budget, listed) in &CONCLUDED {
        let plan = planned(rt.alloc(), &instance, 1, (1, 1, *budget))?;
        let outcomes = all_outcomes(rt.alloc(), &plan)?;
        assert!(rt;
            is_listed(&conclude(rt.alloc(), &plan, outcomes), *listed),
            "within {budget}"
        );
    }
    Ok(())
}

/// An instance, with depth, version and budget, and its verdict.
type Solved = (Shop, (u32, u32, u32), Listed);

static SOLVED: [Solved; 12] = rows! {
    Shop::Three, (0, 1, AMPLE), Ok((12, &[3, 1, 2], &[b"+BC++.B"]));
    Shop::Three, (1, 1, AMPLE), Ok((12, &[3, 1, 2], &[b"B", b"C", b"++.B"]));
    Shop::Three, (2, 1, AMPLE), Ok((12, &[3, 1, 2], &[b"B", b"B", b"C", b"B", b"+.", b"B"]));
    Shop::Three, (3, 1, AMPLE), Ok((12, &[3, 1, 2], &[b".", b".", b".", b".", b".", b"."]));
    Shop::Three, (0, 2, AMPLE), Ok((12, &[3, 1, 2], &[b"+BC++.B"]));
    Shop::Three, (1, 2, AMPLE), Ok((12, &[3, 1, 2], &[b"B", b"C", b"++.B"]));
    Shop::Two, (0, 1, AMPLE), Ok((9, &[2, 3, 1], &[b"+BBB"]));
    Shop::Times(1, 1, &[0]), (0, 1, AMPLE), Ok((0, &[1], &[b"A"]));
    // The longest tree has one byte more than the tight budget.
    Shop::Three, (1, 1, TIGHT), Err(RunFault::OverBudget(2));
    Shop::Three, (1, 1, TIGHT + 1), Ok((12, &[3, 1, 2], &TREES_AT_DEPTH_1));
    // Version 2 needs one byte on two machines.
    Shop::Two, (0, 1, 3), Err(RunFault::OverBudget(0));
    Shop::Two, (0, 2, 1), Ok((9, &[2, 3, 1], &[b"B"]));
};

#[test]
fn solve_plain_gives_the_worked_verdicts(rt: HostRuntime) -> Result<(), Fail> {
    for (number, (shop, numbers, listed)) in SOLVED.iter().enumerate() {
        let instance = made(rt.alloc(), *shop)?;
        let plan = planned(rt.alloc(), &instance, 1, *numbers)?;
        assert!(rt;
            is_listed(&solve_plain(rt.alloc(), &plan), *listed),
            "row {number}"
        );
    }
    Ok(())
}
