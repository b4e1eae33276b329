//! Two-ended certificates with the most jobs, and with many signs. How many signs they need is known by reasoning.

use crate::greatest::texts::jobs_line;
use crate::two_ended::{Answer, answer_of};
use flow_check::CheckFault;
use flow_core::{Instance, InstanceFault};
use std::alloc::Global;
use std::test::Fail;

/// Signs of the front.
const FRONT: [u8; 2] = [b'+', b'+'];

/// Signs of the back.
const BACK: [u8; 2] = [b'-', b'-'];

/// Signs of both ends in turn.
const TURNS: [u8; 2] = [b'+', b'-'];

/// What the checker answers for an instance with these bounds, the jobs in the order of their numbers, and so many
/// signs.
fn answer_with(
    alloc: Global,
    instance: &Instance,
    (lower, upper): (u64, u64),
    pattern: [u8; 2],
    count: usize,
) -> Result<Answer, Fail> {
    let jobs: Vec<u16> = (1..instance.jobs() + 1).collect(alloc)?;
    let machines = instance.machines();
    let sizes = format!(in alloc; "{} {machines}\n{lower} {upper}\n", instance.jobs())?;
    let line = jobs_line(alloc, jobs.as_slice())?;
    let mut text = Vec::with_capacity(alloc, count.saturating_add(4_000))?;
    for part in [b"flowshop two-ended 1\n", sizes.as_bytes(), line.as_slice()] {
        text.extend_from_slice(part)?;
    }
    for place in 0..count {
        text.push(pattern[place % 2])?;
    }
    text.extend_from_slice(b"\nend\n")?;
    Ok(answer_of(alloc, instance, text.as_slice()))
}

/// Puts a time in its place.
fn put(times: &mut [u32], place: u32, time: u32) {
    if let Some(old) = times.get_mut(place as usize) {
        *old = time;
    }
}

/// Jobs on 26 machines: job `j` takes `j - 1` units on the first one, `j` on the last and 0 on the others, and the last
/// job so much more on the first. Or, for the back, machines and jobs in the other order.
///
/// In the order of their numbers, the last machine always has a job, up to the last one, which comes so much later: the
/// makespan is the sum of the last machine's times, and so much more. Every job in another place lets that machine
/// wait. So for that makespan each node has one child below it at the front, or at the back, and as many
/// signs as jobs prove it.
fn stairs(
    alloc: Global,
    jobs: u32,
    unit: u32,
    more: u32,
    for_back: bool,
) -> Result<Instance, InstanceFault> {
    let mut times = vec![in alloc; 0u32; jobs.saturating_mul(26) as usize]?;
    for place in 0..jobs {
        let step = if for_back { jobs - 1 - place } else { place };
        let extra = if step == jobs - 1 { more } else { 0 };
        let early = step.saturating_mul(unit).saturating_add(extra);
        let late = step.saturating_add(1).saturating_mul(unit);
        let (first, last) = if for_back {
            (late, early)
        } else {
            (early, late)
        };
        put(times.as_mut_slice(), place, first);
        put(
            times.as_mut_slice(),
            jobs.saturating_mul(25).saturating_add(place),
            last,
        );
    }
    Instance::new(alloc, jobs, 26, times.as_slice())
}

/// Jobs, units and what the last one takes more, the bounds, how many signs, and the fault, if there is one.
type Stairs = (u32, u32, u32, (u64, u64), usize, Option<CheckFault>);

/// A sign is missing, or more signs follow.
const TREE: Option<CheckFault> = Some(CheckFault::Tree(5));

/// A sequence is below the threshold.
const LOW: Option<CheckFault> = Some(CheckFault::Low(5));

/// The last machine has 1 + 2 + .. units, which are 28 of 7 jobs, 64,980 of 360, and 320,400 of 800.
static STAIRS: [Stairs; 16] = [
    (360, 1, 1, (64_981, 64_981), 359, TREE),
    (360, 1, 1, (64_981, 64_981), 360, None),
    (360, 1, 1, (64_981, 64_981), 361, TREE),
    (800, 1, 1, (320_401, 320_401), 799, TREE),
    (800, 1, 1, (320_401, 320_401), 800, None),
    (800, 1, 1, (320_401, 320_401), 801, TREE),
    (800, 1_000, 9, (320_400_009, 320_400_009), 800, None),
    // The greatest number of 16 bits, and the next one.
    (7, 2_340, 15, (65_535, 65_535), 7, None),
    (7, 2_340, 15, (65_536, 65_535), 7, LOW),
    (7, 2_340, 16, (65_536, 65_536), 7, None),
    (7, 2_340, 16, (65_535, 65_536), 7, None),
    // The jobs in their order are below the threshold.
    (800, 1, 1, (320_402, 320_401), 799, TREE),
    (800, 1, 1, (320_402, 320_401), 800, LOW),
    (800, 1, 0, (320_401, 320_400), 800, LOW),
    (800, 1, 0, (320_401, 320_400), 801, LOW),
    (800, 1, 1, (u64::MAX, 320_401), 800, LOW),
];

#[test]
fn as_many_signs_as_jobs_prove_the_makespan_of_stairs(rt: HostRuntime) -> Result<(), Fail> {
    for (jobs, unit, more, bounds, count, fault) in &STAIRS {
        let answer = match fault {
            None => Ok(*bounds),
            Some(fault) => Err(*fault),
        };
        for (for_back, pattern) in [(false, FRONT), (true, BACK)] {
            let instance = stairs(rt.alloc(), *jobs, *unit, *more, for_back)?;
            let found = answer_with(rt.alloc(), &instance, *bounds, pattern, *count)?;
            assert_eq!(rt;
                found,
                answer,
                "{jobs} jobs, {count} signs, back: {for_back}"
            );
        }
    }
    Ok(())
}

/// So many easy jobs and a hard one on two machines. An easy job takes 0 and 1, the hard one 1 more than there are easy
/// ones and 20.
fn with_a_hard_job(alloc: Global, easy: u32) -> Result<Instance, InstanceFault> {
    let jobs = easy.saturating_add(1);
    let mut times = vec![in alloc; 1u32; jobs.saturating_mul(2) as usize]?;
    for place in 0..easy {
        put(times.as_mut_slice(), place, 0);
    }
    put(times.as_mut_slice(), easy, jobs);
    put(times.as_mut_slice(), jobs.saturating_add(easy), 20);
    Instance::new(alloc, jobs, 2, times.as_slice())
}

/// Easy jobs, signs, and the answer with the least makespan.
///
/// Wherever the hard job stands, the second machine waits for it, or the first one works past the others; so the least
/// makespan is the sum of the second machine's times and 1, and a node is below it exactly where the hard job is left.
/// Whatever the signs are, one is needed for each list of easy jobs: of 8 jobs 1 + 8 + 8 * 7 + .. + 8 * 7 * .. * 1.
type Hard = (u32, [u8; 2], usize, Answer);

/// What the checker answers for so many easy jobs and a hard one.
fn hard_answer(alloc: Global, easy: u32, pattern: [u8; 2], count: usize) -> Result<Answer, Fail> {
    let least = u64::from(easy).saturating_add(21);
    let instance = with_a_hard_job(alloc, easy)?;
    answer_with(alloc, &instance, (least, least), pattern, count)
}

static WITH_A_HARD_JOB: [Hard; 7] = [
    (8, FRONT, 109_601, Ok((29, 29))),
    (8, BACK, 109_601, Ok((29, 29))),
    (8, TURNS, 109_601, Ok((29, 29))),
    (8, TURNS, 109_600, Err(CheckFault::Tree(5))),
    (8, TURNS, 109_602, Err(CheckFault::Tree(5))),
    (8, BACK, 100_000_000, Err(CheckFault::Tree(5))),
    (0, BACK, 0, Ok((21, 21))),
];

#[test]
fn any_signs_prove_the_makespan_of_a_hard_job(rt: HostRuntime) -> Result<(), Fail> {
    for (easy, pattern, count, answer) in &WITH_A_HARD_JOB {
        let found = hard_answer(rt.alloc(), *easy, *pattern, *count)?;
        assert_eq!(rt;
            found,
            *answer,
            "{easy} easy jobs, {count} signs {pattern:?}"
        );
    }
    Ok(())
}

// With 11 easy jobs 108,505,112 signs are needed.

/// A sign is missing.
const TOO_FEW: Answer = Err(CheckFault::Tree(5));

#[test]
fn a_hundred_million_plus_signs_are_too_few(rt: HostRuntime) -> Result<(), Fail> {
    assert_eq!(rt; hard_answer(rt.alloc(), 11, FRONT, 100_000_000)?, TOO_FEW);
    Ok(())
}

#[test]
fn a_hundred_million_minus_signs_are_too_few(rt: HostRuntime) -> Result<(), Fail> {
    assert_eq!(rt; hard_answer(rt.alloc(), 11, BACK, 100_000_000)?, TOO_FEW);
    Ok(())
}
