//! Two-ended certificates of drawn instances, beside a plain reading of their directions and the least makespan that
//! trying all sequences finds.

ghost use Rattle.std.specs.Prelude.{◌<◌, ◌≤◌};

use crate::changes::replaced;
use flow_cert::write_two_ended;
use flow_check::{Bounds, CheckFault, check_two_ended};
use flow_core::{End, Instance, MemorySink, Sequence};
use std::alloc::{AllocError, Global};
use std::test::Fail;

/// The most jobs of a drawn instance.
const JOBS: usize = 7;

/// The most machines. One that an instance lacks is behind the last, with times of 0, which raise no bound.
const MACHINES: usize = 5;

/// As many signs as 7 jobs have lists that leave a job: 1 + 7 + 7 * 6 + .. + 7 * 6 * 5 * 4 * 3 * 2.
const SIGNS: usize = 8_660;

/// A number for each machine.
type Row = [u64; MACHINES];

/// A row with some times behind it, or before it, where it is counted from the last machine on.
fn longer(row: &Row, times: &Row, end: End) -> Row {
    let mut done = 0u64;
    let mut next = *row;
    for step in 0..MACHINES {
        let machine = machine_at(end, step);
        done = done.max(row[machine]).saturating_add(times[machine]);
        next[machine] = done;
    }
    next
}

/// The machine of a step from the first machine to the last, or from the last one to the first.
fn machine_at(end: End, step: usize) -> usize
    requires { step < 5 }
    ensures { result < 5 }
{
    match end {
        End::Front => step,
        End::Back => MACHINES - 1 - step,
    }
}

/// A state of Lehmer's generator.
#[derive(Drop)]
struct Draw(u64);

impl Draw {
    /// Draws a number from 0 up to the greatest.
    fn upto(&mut self, greatest: u64) -> u64
        requires { greatest < 1000 }
        ensures { result ≤ greatest }
    {
        self.0 = self.0.wrapping_mul(16_807) % 2_147_483_647;
        self.0 % (greatest + 1)
    }
}

/// A node: two lists of jobs, and those that neither has.
#[derive(Clone, Copy)]
struct Node {
    /// The front of the first list, or the heads.
    front: Row,
    /// The times of the jobs left.
    owed: Row,
    /// The back of the last list, or the tails.
    back: Row,
    /// Whether a job is left.
    is_left: [bool; JOBS],
}

impl Node {
    /// The bound.
    fn bound(&self) -> u64 {
        let mut bound = 0u64;
        for machine in 0..MACHINES {
            let sum = self.front[machine].saturating_add(self.owed[machine]);
            bound = bound.max(sum.saturating_add(self.back[machine]));
        }
        bound
    }

    /// The node with a job left put at an end.
    fn with(&self, shop: &Drawn, end: End, job: usize) -> Node
        requires { job < 7 }
    {
        let mut node = *self;
        let times = &shop.times[job];
        for machine in 0..MACHINES {
            node.owed[machine] = self.owed[machine].saturating_sub(times[machine]);
        }
        match end {
            End::Front => node.front = longer(&self.front, times, end),
            End::Back => node.back = longer(&self.back, times, end),
        }
        node.is_left[job] = false;
        node
    }
}

/// A drawn instance, with its times job by job.
#[derive(Drop)]
struct Drawn {
    jobs: usize,
    machines: usize,
    times: [Row; JOBS],
}

impl Drawn {
    /// Draws the times of so many jobs on so many machines, from the least up to so much more.
    fn new(draw: &mut Draw, jobs: usize, machines: usize, least: u64, more: u64) -> Drawn
        requires { more < 1000 }
    {
        let mut times = [[0; MACHINES]; JOBS];
        for job in 0..jobs.min(JOBS) {
            for machine in 0..machines.min(MACHINES) {
                times[job][machine] = draw.upto(more).saturating_add(least);
            }
        }
        Drawn {
            jobs,
            machines,
            times,
        }
    }

    /// The instance, with the greatest number of 32 bits for a greater time.
    fn instance(&self, alloc: Global) -> Result<Instance, Fail> {
        let mut times = Vec::new(alloc);
        for machine in 0..self.machines.min(MACHINES) {
            for job in self.times.iter().take(self.jobs) {
                times.push(u32::try_from(job[machine]).unwrap_or(u32::MAX))?;
            }
        }
        let jobs = u32::try_from(self.jobs).unwrap_or(0);
        let machines = u32::try_from(self.machines).unwrap_or(0);
        Ok(Instance::new(alloc, jobs, machines, times.as_slice())?)
    }

    /// The least times that one of the jobs needs on the machines before each, or on those after each.
    fn least_beside(&self, end: End) -> Row {
        let mut least = [u64::MAX; MACHINES];
        for job in 0..self.jobs.min(JOBS) {
            let mut beside = 0u64;
            for step in 0..MACHINES {
                let machine = machine_at(end, step);
                least[machine] = least[machine].min(beside);
                beside = beside.saturating_add(self.times[job][machine]);
            }
        }
        least
    }

    /// The node of two empty lists.
    fn root(&self) -> Node {
        let mut owed = [0u64; MACHINES];
        let mut is_left = [false; JOBS];
        for job in 0..self.jobs.min(JOBS) {
            is_left[job] = true;
            for machine in 0..MACHINES {
                owed[machine] = owed[machine].saturating_add(self.times[job][machine]);
            }
        }
        Node {
            front: self.least_beside(End::Front),
            owed,
            back: self.least_beside(End::Back),
            is_left,
        }
    }

    /// The makespan of a sequence.
    fn makespan(&self, jobs: &[u16]) -> u64 {
        let mut front = [0; MACHINES];
        for job in jobs {
            if let Some(times) = self.times.get((*job as usize).wrapping_sub(1)) {
                front = longer(&front, times, End::Front);
            }
        }
        front[MACHINES - 1]
    }

    /// The least makespan of the sequences that begin with a list, whose front this is, and have so many jobs more.
    fn least(&self, front: &Row, is_left: &[bool; JOBS], left: usize) -> u64 {
        if left == 0 {
            return front[MACHINES - 1];
        }
        let below = left - 1;
        let mut least = u64::MAX;
        for job in 0..JOBS {
            if is_left[job] {
                let mut others = *is_left;
                others[job] = false;
                let next = longer(front, &self.times[job], End::Front);
                least = least.min(self.least(&next, &others, below));
            }
        }
        least
    }

    /// Reads the signs of a node that leaves so many jobs, from a place on, up to their end or their first fault.
    fn read(
        &self,
        node: &Node,
        left: usize,
        number: u64,
        signs: &[u8],
        place: &mut usize,
    ) -> Result<(), CheckFault> {
        if node.bound() >= number {
            return Ok(());
        }
        if left == 0 {
            return Err(CheckFault::Low(5));
        }
        let end = match signs.get(*place) {
            Some(b'+') => End::Front,
            Some(b'-') => End::Back,
            _ => return Err(CheckFault::Tree(5)),
        };
        *place = place.saturating_add(1);
        let below = left - 1;
        for job in 0..JOBS {
            if node.is_left[job] {
                self.read(&node.with(self, end, job), below, number, signs, place)?;
            }
        }
        Ok(())
    }

    /// What a plain reading says of signs that should prove a threshold.
    fn answer(&self, number: u64, signs: &[u8]) -> Result<(), CheckFault> {
        let mut place = 0;
        self.read(&self.root(), self.jobs, number, signs, &mut place)?;
        if place < signs.len() {
            return Err(CheckFault::Tree(5));
        }
        Ok(())
    }
}

/// A drawn instance with the least makespan, and a drawn sequence with its makespan.
#[derive(Drop)]
struct Case {
    drawn: Drawn,
    instance: Instance,
    least: u64,
    upper: u64,
    sequence: Sequence,
}

/// The jobs of an instance in a drawn order.
fn drawn_jobs(alloc: Global, draw: &mut Draw, instance: &Instance) -> Result<Vec<u16>, AllocError> {
    let mut jobs = Vec::new(alloc);
    for job in 1..instance.jobs() + 1 {
        let place = draw.upto(u64::from(job) - 1) as usize;
        jobs.insert(place.min(jobs.len()), job)?;
    }
    Ok(jobs)
}

/// A case of an instance.
fn case_of(alloc: Global, draw: &mut Draw, drawn: Drawn) -> Result<Case, Fail> {
    let instance = drawn.instance(alloc)?;
    let jobs = drawn_jobs(alloc, draw, &instance)?;
    let least = drawn.least(&[0; MACHINES], &drawn.root().is_left, drawn.jobs);
    let upper = drawn.makespan(jobs.as_slice());
    let sequence = Sequence::new(alloc, &instance, jobs.as_slice())?;
    Ok(Case {
        drawn,
        instance,
        least,
        upper,
        sequence,
    })
}

/// Drawn signs, as many as a certificate may need.
fn drawn_signs(alloc: Global, draw: &mut Draw) -> Result<Vec<u8>, AllocError> {
    let mut signs = Vec::new(alloc);
    for _ in 0..SIGNS {
        signs.push(if draw.upto(1) == 0 { b'+' } else { b'-' })?;
    }
    Ok(signs)
}

/// What a text shows, or its first fault.
type Answer = Result<(), CheckFault>;

/// What the checker answers for the text of a case with a lower bound and signs. Of a lawful text it has to give both
/// bounds and the sequence.
fn answer_of(alloc: Global, case: &Case, lower: u64, signs: &[u8]) -> Result<Answer, Fail> {
    let upper = case.upper;
    let bounds = Bounds { lower, upper };
    let mut sink = MemorySink::new(alloc, 10_000);
    write_two_ended(&case.instance, bounds, &case.sequence, signs, &mut sink)?;
    match check_two_ended(alloc, &case.instance, sink.bytes()) {
        Ok(shown) if shown.bounds == bounds && shown.sequence == case.sequence => Ok(Ok(())),
        Ok(_) => Err(Fail::from("other bounds, or another sequence")),
        Err(fault) => Ok(Err(fault)),
    }
}

/// Signs; and these with one less, with one more, and with the one at a place turned.
fn with_changes(alloc: Global, signs: &[u8], place: usize) -> Result<[Vec<u8>; 4], AllocError> {
    let turned: &[u8] = if signs.get(place) == Some(&b'+') {
        b"-"
    } else {
        b"+"
    };
    Ok([
        Vec::from_slice(alloc, signs)?,
        replaced(alloc, signs, signs.len().saturating_sub(1), 1, b"")?,
        replaced(alloc, signs, signs.len(), 0, b"+")?,
        replaced(alloc, signs, place, 1, turned)?,
    ])
}

/// The first signs that the checker does not answer as it should for a lower bound, with its answer and the right one:
/// of as many of the drawn signs as a plain reading takes, and of these with a change. The least makespan says which
/// numbers are proved, and the plain reading what else is answered.
fn first_other(
    alloc: Global,
    case: &Case,
    lower: u64,
    signs: &[u8],
    turned: usize,
) -> Result<Option<(Vec<u8>, Answer, Answer)>, Fail> {
    let mut count = 0;
    let drawn = &case.drawn;
    let plain = drawn.read(&drawn.root(), drawn.jobs, lower, signs, &mut count);
    let taken = signs.get(..count).unwrap_or(b"");
    let by_least = if lower <= case.least {
        Ok(())
    } else {
        Err(CheckFault::Low(5))
    };
    if plain != by_least {
        return Err(Fail::from("the plain reading proves another makespan"));
    }
    let place = turned.checked_rem(taken.len()).unwrap_or(0);
    for text in with_changes(alloc, taken, place)? {
        let found = answer_of(alloc, case, lower, text.as_slice())?;
        let wanted = drawn.answer(lower, text.as_slice());
        if found != wanted {
            return Ok(Some((text, found, wanted)));
        }
    }
    Ok(None)
}

/// The least times, and how much more the greatest are.
static TIMES: [(u64, u64); 6] = [(0, 0), (5, 0), (0, 1), (0, 2), (1, 8), (0, 99)];

/// Each number is tried from the root's bound less 1 to the least makespan and 2.
#[test]
fn directions_of_drawn_instances_are_read_as_plainly(rt: HostRuntime) -> Result<(), Fail> {
    let mut draw = Draw(1);
    for jobs in 1..8usize {
        for machines in 1..6usize {
            for (from, more) in &TIMES {
                let drawn = Drawn::new(&mut draw, jobs, machines, *from, *more);
                let case = case_of(rt.alloc(), &mut draw, drawn)?;
                let signs = drawn_signs(rt.alloc(), &mut draw)?;
                let first = case.drawn.root().bound().saturating_sub(1);
                for lower in first..case.least.saturating_add(3) {
                    let turned = draw.upto(999) as usize;
                    let other = first_other(rt.alloc(), &case, lower, signs.as_slice(), turned)?;
                    assert!(rt;
                        other.is_none(),
                        "{jobs} jobs on {machines} machines from {from}, {lower}: {other:?}"
                    );
                }
            }
        }
    }
    Ok(())
}
