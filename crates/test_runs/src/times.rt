//! Runs of `certify` and `improve` whose time is over, at each moment.

use crate::searches::{ANY, effort_of, start_of};
use flow_certify::{Certified, MostDirections, Proof, ProofLimits, certify};
use flow_core::{Instance, generate};
use flow_directions::{Alone, Counted, Found, News, Prover};
use flow_improve::{BeamLimits, Deadline, beam_until, improve, improve_until};
use std::alloc::{AllocError, Global};
use std::cell::Cell;
use std::test::Fail;

/// A time that is over once it was asked for more often than so.
#[derive(Drop)]
struct Time {
    asked: Cell<u64>,
    most: u64,
    /// The lower bound that was told at the beginning of the second step.
    lower: Cell<u64>,
    step: Cell<u32>,
}

impl Time {
    /// It was not asked for yet.
    fn new(most: u64) -> Time {
        Time {
            asked: Cell::new(0),
            most,
            lower: Cell::new(0),
            step: Cell::new(0),
        }
    }
}

impl Deadline for Time {
    fn is_over(&self) -> bool {
        self.asked.set(self.asked.get().saturating_add(1));
        self.asked.get() > self.most
    }
}

impl Prover for Time {
    ghost is_ready = { λ _. Unit {0} };

    fn prove(
        &self,
        alloc: Global,
        instance: &Instance,
        threshold: u64,
        budget: u64,
    ) -> Result<Option<Found>, AllocError> {
        if Deadline::is_over(self) {
            return Ok(None);
        }
        Alone.prove(alloc, instance, threshold, budget)
    }

    fn count_directions(
        &self,
        alloc: Global,
        instance: &Instance,
        threshold: u64,
        budget: u64,
    ) -> Result<Option<Counted>, AllocError> {
        if Deadline::is_over(self) {
            return Ok(None);
        }
        Alone.count_directions(alloc, instance, threshold, budget)
    }

    fn is_limited(&self) -> bool {
        self.most < u64::MAX
    }

    fn is_over(&self) -> bool {
        Deadline::is_over(self)
    }

    fn tell(&self, _instance: &Instance, news: News) {
        match news {
            News::Step(step) => self.step.set(step),
            News::Bounds { lower, .. } => {
                if self.step.get() == 2 && self.lower.get() == 0 {
                    self.lower.set(lower);
                }
            }
            _ => {}
        }
    }
}

/// The times of three jobs on three machines, machine by machine. The least makespan is 12, and the bound of the empty
/// lists 10.
const THREE_MACHINES: [u32; 9] = [4, 0, 0, 0, 8, 2, 4, 0, 1];

/// How often the time is asked for before it is over; both bounds, and the directions. The first search from the
/// sequence 2 1 3 of makespan 13 reaches one of 12, and the second proves 12.
static ENDS: [(u64, u64, u64, &[u8]); 4] = rows! {
    0, 10, 13, b"";
    1, 10, 12, b"";
    2, 12, 12, b"++";
    u64::MAX, 12, 12, b"++";
};

#[test]
fn a_run_keeps_what_it_found_in_its_time(rt: HostRuntime) -> Result<(), Fail> {
    let instance = Instance::new(rt.alloc(), 3, 3, &THREE_MACHINES)?;
    let start = start_of(rt.alloc(), &instance, &[2, 1, 3]).ok_or("no start")?;
    let effort = effort_of([0, 0, 1, 0]).ok_or("no effort")?;
    let limit = MostDirections::new(100).ok_or("no limit")?;
    for (most, lower, upper, text) in &ENDS {
        for keeps_signs in [true, false] {
            let limits = ProofLimits {
                most: limit,
                keeps_signs,
            };
            let time = Time::new(*most);
            let found = certify(rt.alloc(), &time, &instance, &start, &effort, limits)?;
            assert_eq!(rt; found.lower, *lower, "{most}");
            assert_eq!(rt; found.upper, *upper, "{most}");
            assert_eq!(rt; found.proof.directions(), text.len() as u64, "{most}");
            if let Proof::Signs(signs) = &found.proof {
                assert!(rt; signs.as_slice() == *text, "{most}");
            }
        }
    }
    Ok(())
}

/// Jobs, machines and seed of a published instance whose least makespan, 1235, is not proved with so few directions.
const SHOP: (u32, u32, u32) = (20, 5, 495_070_989);

/// The most directions of its runs.
const FEW: u64 = 20;

/// What a run finds in its time.
fn certified(alloc: Global, instance: &Instance, time: &Time, most: u64) -> Option<Certified> {
    let start = start_of(alloc, instance, ANY)?;
    let effort = effort_of([64, 100, 1, 100])?;
    let limits = ProofLimits {
        most: MostDirections::new(most)?,
        keeps_signs: true,
    };
    certify(alloc, time, instance, &start, &effort, limits).ok()
}

/// A run ends soon once its time is over: it asks no more than once for each beam and each of the other searches.
#[test]
fn a_run_ends_soon_at_any_moment(rt: HostRuntime) -> Result<(), Fail> {
    let (jobs, machines, seed) = SHOP;
    let instance = generate(rt.alloc(), jobs, machines, seed)?;
    let whole = Time::new(u64::MAX - 1);
    let last = certified(rt.alloc(), &instance, &whole, FEW).ok_or("no bounds")?;
    let mut upper = u64::MAX;
    let mut lower = 0;
    for part in 0..50_u64 {
        let time = Time::new(whole.asked.get().saturating_mul(part) / 49);
        let found = certified(rt.alloc(), &instance, &time, FEW).ok_or("no bounds")?;
        assert!(rt; found.lower <= 1_235, "{part}: {}", found.lower);
        assert!(rt; found.upper >= 1_235, "{part}: {}", found.upper);
        assert!(rt;
            time.asked.get() <= time.most.saturating_add(100),
            "{part}: {}",
            time.asked.get()
        );
        assert!(rt;
            found.upper <= upper,
            "{part}: {} after {upper}",
            found.upper
        );
        assert!(rt;
            found.lower >= lower,
            "{part}: {} after {lower}",
            found.lower
        );
        upper = found.upper;
        lower = found.lower;
    }
    assert_eq!(rt; upper, last.upper);
    assert_eq!(rt; lower, last.lower);
    Ok(())
}

/// One whose least makespan is not proved by the searches of the first step, and the most directions of its runs.
const HARD: (u32, u32, u32) = (20, 10, 1_672_900_551);

const MANY: u64 = 10_000_000;

/// Where the time is limited, the lower bound is raised before the beams, and else it is not: what a run with no limit
/// writes is what it always wrote.
#[test]
fn a_limited_run_raises_its_bound_before_the_beams(rt: HostRuntime) -> Result<(), Fail> {
    let (jobs, machines, seed) = HARD;
    let instance = generate(rt.alloc(), jobs, machines, seed)?;
    let free = Time::new(u64::MAX);
    certified(rt.alloc(), &instance, &free, MANY).ok_or("no bounds")?;
    let limited = Time::new(u64::MAX - 1);
    certified(rt.alloc(), &instance, &limited, MANY).ok_or("no bounds")?;
    assert!(rt;
        limited.lower.get() > free.lower.get(),
        "{} for {}",
        limited.lower.get(),
        free.lower.get()
    );
    Ok(())
}

/// `improve` gives the start where its time is over at once, and something no worse the more time it has.
#[test]
fn improve_gives_its_best_at_any_moment(rt: HostRuntime) -> Result<(), Fail> {
    let (jobs, machines, seed) = SHOP;
    let instance = generate(rt.alloc(), jobs, machines, seed)?;
    let start = start_of(rt.alloc(), &instance, ANY).ok_or("no start")?;
    let effort = effort_of([64, 100, 1, 100]).ok_or("no effort")?;
    let none = improve_until(rt.alloc(), &instance, &start, &effort, &Time::new(0))?;
    assert!(rt; none.sequence == start);
    let whole = Time::new(u64::MAX);
    let last = improve_until(rt.alloc(), &instance, &start, &effort, &whole)?;
    assert!(rt;
        last.value < none.value,
        "{} for {}",
        last.value,
        none.value
    );
    let mut value = none.value;
    for part in 0..20_u64 {
        let time = Time::new(whole.asked.get().saturating_mul(part) / 19);
        let reached = improve_until(rt.alloc(), &instance, &start, &effort, &time)?;
        assert!(rt;
            reached.value <= value,
            "{part}: {} after {value}",
            reached.value
        );
        value = reached.value;
    }
    assert_eq!(rt; value, last.value);
    Ok(())
}

/// A beam of width 1 makes two passes. It asks before each, and in each before each of the 20 jobs.
#[test]
fn a_beam_asks_before_each_job(rt: HostRuntime) -> Result<(), Fail> {
    let (jobs, machines, seed) = SHOP;
    let instance = generate(rt.alloc(), jobs, machines, seed)?;
    let start = start_of(rt.alloc(), &instance, ANY).ok_or("no start")?;
    let limits = BeamLimits {
        below: None,
        width: 1,
        work: u64::MAX,
    };
    let time = Time::new(u64::MAX);
    beam_until(rt.alloc(), &instance, &start, limits, &time)?;
    assert!(rt; time.asked.get() >= 2 * (1 + 20), "{}", time.asked.get());
    Ok(())
}

/// Without a beam the time is asked for once, and then before each round: where it is over once it was asked for more
/// often than 1 and so many rounds, these rounds are made.
#[test]
fn rounds_end_where_the_time_is_over(rt: HostRuntime) -> Result<(), Fail> {
    let (jobs, machines, seed) = SHOP;
    let instance = generate(rt.alloc(), jobs, machines, seed)?;
    let start = start_of(rt.alloc(), &instance, ANY).ok_or("no start")?;
    let effort = effort_of([0, 100, 1, 100]).ok_or("no effort")?;
    for rounds in 0..12_u32 {
        let time = Time::new(u64::from(rounds) + 1);
        let reached = improve_until(rt.alloc(), &instance, &start, &effort, &time)?;
        assert_eq!(rt; time.asked.get(), u64::from(rounds) + 2, "{rounds}");
        let few = effort_of([0, rounds, 1, 100]).ok_or("no effort")?;
        let made = improve(rt.alloc(), &instance, &start, &few)?;
        assert_eq!(rt; reached.value, made.value, "{rounds}");
        assert!(rt; reached.sequence == made.sequence, "{rounds}");
    }
    Ok(())
}
