//! Starts, as `solve` and `schedule` take them.

use super::endless::Endless;
use super::texts::{
    BEST, FROM_BEST, FROM_LAST, FROM_START, LAST, LONG_TREES, LONG_TREES_START, NEH, ONE_JOB,
    OTHER_STARTS, START, THREE_MACHINES,
};
use super::{AMPLE, Given, OF_THREE, ROOM, UNREAD, Wanted, all_of, answers, comes_to, end_of};
use flow_commands::{
    CommandFault, Means, Request, SecondFile, SolveRequest, Unwatched, run_request,
};
use flow_core::{MemorySink, ReadFault};
use flow_pool::SolveFault;
use flow_search::OptionFault;
use std::alloc::Global;
use std::sync::Wait;
use std::thread::Threads;

/// One worker, depth 0 and an ample budget, in version 1.
const PLAIN: SolveRequest = SolveRequest {
    workers: 1,
    depth: 0,
    budget: AMPLE,
    version: 1,
};

/// More workers than there may be.
const CROWDED: SolveRequest = SolveRequest {
    workers: 65,
    budget: 1,
    ..PLAIN
};

/// A text, a start text and a request; and what is written, or the fault.
type Row = (&'static [u8], &'static [u8], SolveRequest, Wanted);

static ROWS: [Row; 7] = rows! {
    // The certificates were computed apart from the program, by the definitions.
    THREE_MACHINES, START, PLAIN, Ok(FROM_START);
    THREE_MACHINES, LAST, PLAIN, Ok(FROM_LAST);
    THREE_MACHINES, BEST, PLAIN, Ok(FROM_BEST);
    ONE_JOB, b"sequence 1\nmakespan 0\n", PLAIN, Ok(b"flowshop certificate 1\n1 1 0\n0\n1\nA\nend\n");
    THREE_MACHINES, NEH, CROWDED, Err(CommandFault::Choice(OptionFault::Workers));
    THREE_MACHINES, NEH, SolveRequest { budget: 6, ..PLAIN }, Err(CommandFault::Run(SolveFault::OverBudget(0)));
    LONG_TREES, LONG_TREES_START, SolveRequest { budget: 16_330, ..PLAIN },
        Err(CommandFault::Run(SolveFault::OverBudget(0)));
};

/// Whether `solve` from a start comes to what a row says.
fn solves<R: Threads + Wait + Sync>(rt: &R, alloc: Global, row: &Row) -> bool {
    let (text, start, request, wanted) = *row;
    let texts = Given {
        text,
        second: SecondFile::Start(start),
        ..OF_THREE
    };
    answers(
        rt,
        alloc,
        &texts,
        &Request::Solve(request),
        ROOM,
        end_of(wanted),
    )
}

#[test]
fn solve_searches_from_a_start(rt: HostRuntime) {
    for (number, row) in ROWS.iter().enumerate() {
        assert!(rt; solves(&rt, rt.alloc(), row), "row {number}");
    }
}

#[test]
fn solve_names_the_fault_of_a_start(rt: HostRuntime) {
    for (number, (start, fault)) in OTHER_STARTS.iter().enumerate() {
        let row = (THREE_MACHINES, *start, CROWDED, Err(*fault));
        assert!(rt; solves(&rt, rt.alloc(), &row), "row {number}");
    }
}

#[test]
fn solve_writes_nothing_after_a_start_that_fails(rt: HostRuntime) {
    for most in 0..NEH.len() + 1 {
        let texts = Given {
            second: SecondFile::Start(NEH),
            second_most: Some(most),
            ..OF_THREE
        };
        assert!(rt;
            answers(
                &rt,
                rt.alloc(),
                &texts,
                &Request::Solve(PLAIN),
                ROOM,
                UNREAD
            ),
            "at {most}"
        );
    }
}

#[test]
fn solve_stops_an_endless_start(rt: HostRuntime) {
    let mut out = MemorySink::new(rt.alloc(), ROOM);
    let means = Means {
        rt: &rt,
        alloc: rt.alloc(),
        watch: &Unwatched,
    };
    let mut start = SecondFile::Start(Endless::new());
    let mut file = all_of(THREE_MACHINES);
    let ran = run_request(
        &means,
        &mut file,
        1,
        &mut start,
        &Request::Solve(PLAIN),
        &mut out,
    );
    assert!(rt; comes_to(ran, &out, Err(CommandFault::Read(ReadFault::TooLong))));
}
