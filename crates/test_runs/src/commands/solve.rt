//! What `solve` by its numbers writes and refuses.

use super::texts::{DEPTH_0, DEPTH_1, DEPTH_2, DEPTH_3, ONE_JOB, THREE_MACHINES, TWO_MACHINES};
use super::{
    AMPLE, End, Given, OF_THREE, ROOM, Wanted, all_of, comes_to, end_of, ends, filled, read_up_to,
};
use flow_commands::{CommandFault, run_solve};
use flow_core::MemorySink;
use flow_pool::{Gate, Open, SolveFault};
use std::alloc::Global;
use std::sync::Wait;
use std::sync::atomic::{AtomicBool, AtomicU32, Ordering};
use std::thread::Threads;

/// How often a held prefix looks whether the others were reached.
const TURNS: u64 = 1_000_000_000;

/// Numbers of workers.
const SOME: &[u32] = &[1, 2, 3, 64];

/// A text, numbers of workers, a depth and a budget; and what is written, or the fault.
type Row = (&'static [u8], &'static [u32], u32, u32, Wanted);

static ROWS: [Row; 8] = rows! {
    THREE_MACHINES, SOME, 0, AMPLE, Ok(DEPTH_0);
    THREE_MACHINES, SOME, 1, AMPLE, Ok(DEPTH_1);
    THREE_MACHINES, SOME, 2, AMPLE, Ok(DEPTH_2);
    THREE_MACHINES, SOME, 3, AMPLE, Ok(DEPTH_3);
    THREE_MACHINES, SOME, 1, 4, Ok(DEPTH_1);
    THREE_MACHINES, SOME, 1, 3, Err(CommandFault::Run(SolveFault::OverBudget(2)));
    TWO_MACHINES, &[1], 0, AMPLE, Ok(b"flowshop certificate 1\n3 2 0\n9\n2 3 1\n+BBB\nend\n");
    ONE_JOB, &[1], 0, AMPLE, Ok(b"flowshop certificate 1\n1 1 0\n0\n1\nA\nend\n");
};

/// Whether `solve` of a text with these workers, depth and budget ends so with a sink of so many bytes.
fn solves<R: Threads + Wait + Sync>(
    rt: &R,
    alloc: Global,
    texts: &Given,
    (workers, depth, budget): (u32, u32, u32),
    room: usize,
    end: End,
) -> bool {
    let mut out = MemorySink::new(alloc, room);
    let mut file = texts.source();
    let ran = run_solve(
        rt, alloc, &mut file, 1, workers, depth, budget, 1, &Open, &mut out,
    );
    ends(ran, &out, end)
}

/// Whether `solve` with so many workers comes to what a row says.
fn holds<R: Threads + Wait + Sync>(rt: &R, alloc: Global, row: &Row, workers: u32) -> bool {
    let (text, _, depth, budget, wanted) = *row;
    let texts = Given { text, ..OF_THREE };
    solves(
        rt,
        alloc,
        &texts,
        (workers, depth, budget),
        ROOM,
        end_of(wanted),
    )
}

/// One worker, depth 0 and an ample budget.
const ALONE: (u32, u32, u32) = (1, 0, AMPLE);

#[test]
fn solve_writes_same_bytes_with_any_workers(rt: HostRuntime) {
    for (number, row) in ROWS.iter().enumerate() {
        for workers in row.1 {
            assert!(rt; holds(&rt, rt.alloc(), row, *workers), "row {number}");
        }
    }
}

#[test]
fn solve_fills_a_sink_up_to_its_limit(rt: HostRuntime) {
    for room in 0..51usize {
        let end = filled(room, DEPTH_0);
        assert!(rt;
            solves(&rt, rt.alloc(), &OF_THREE, ALONE, room, end),
            "at {room}"
        );
    }
}

#[test]
fn solve_writes_nothing_after_a_failed_read(rt: HostRuntime) {
    for most in 0..34usize {
        let texts = Given {
            text_most: Some(most),
            ..OF_THREE
        };
        let end = read_up_to(THREE_MACHINES, most, DEPTH_0);
        assert!(rt;
            solves(&rt, rt.alloc(), &texts, ALONE, ROOM, end),
            "at {most}"
        );
    }
}

/// Notes which prefixes were reached, and holds some of them until all of these were reached. (test_threads tests
/// `solve` with a gate of the same form: a crate does not see the tests of another.)
#[derive(Drop)]
struct Meeting {
    /// A bit for each prefix that is held.
    held: u32,
    /// A bit for each prefix that was reached.
    came: AtomicU32,
    late: AtomicBool,
}

impl Gate for Meeting {
    fn reached(&self, _lane: u32, number: u32) {
        let bit = 1u32.rotate_left(number);
        self.came.fetch_or(bit, Ordering::SeqCst);
        if self.held & bit == 0 {
            return;
        }
        for _ in 0..TURNS {
            if self.came.load(Ordering::SeqCst) & self.held == self.held {
                return;
            }
        }
        self.late.store(true, Ordering::SeqCst);
    }
}

/// Workers, and a bit for each prefix that is held: as many as workers.
static MEETINGS: [(u32, u32); 2] = [(2, 0b11), (3, 0b111)];

/// Whether the workers meet at the prefixes that are held, none of them late, reach all three prefixes, and come to the
/// certificate.
fn meet<R: Threads + Wait + Sync>(rt: &R, alloc: Global, row: &(u32, u32)) -> bool {
    let (workers, held) = *row;
    let gate = Meeting {
        held,
        came: AtomicU32::new(0),
        late: AtomicBool::new(false),
    };
    let mut out = MemorySink::new(alloc, ROOM);
    let mut file = all_of(THREE_MACHINES);
    let ran = run_solve(
        rt, alloc, &mut file, 1, workers, 1, AMPLE, 1, &gate, &mut out,
    );
    comes_to(ran, &out, Ok(DEPTH_1))
        && gate.came.load(Ordering::SeqCst) == 0b111
        && !gate.late.load(Ordering::SeqCst)
}

#[test]
fn run_solve_starts_workers(rt: HostRuntime) {
    for (number, row) in MEETINGS.iter().enumerate() {
        assert!(rt; meet(&rt, rt.alloc(), row), "row {number}");
    }
}
