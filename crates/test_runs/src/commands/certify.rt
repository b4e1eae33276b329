//! What `certify` writes.

ghost use Rattle.std.specs.Prelude.{◌≡◌, false};

use super::endless::Endless;
use super::texts::{
    ABOVE_16_BITS, AIMED, BEST, COUNTED_12, FOUR_MACHINES, GENERATED, HALVED, LAST, LONG_JOBS,
    LONG_TOTAL, LONG_TREES, NINE_JOBS, ON_THREE, ONE_JOB, ONE_LONG_JOB, SEVEN_JOBS, THREE_MACHINES,
    TOTAL_IN_NARROW, TOTAL_IN_WIDE, TWO_ENDED_12, TWO_MACHINES, UP_TO_16_BITS,
};
use super::{
    Given, OF_THREE, ROOM, Wanted, all_of, answers, checked, comes_to, end_of, filled, improvement,
    of_certificate, start_of,
};
use flow_commands::{
    CertifyRequest, CheckOutput, CommandFault, Means, ProofForm, Request, Unwatched, run_request,
};
use flow_core::{MemorySink, ReadFault, TextFault};
use std::alloc::Global;
use std::sync::Wait;
use std::thread::Threads;

/// Numbers of an improvement without beam and rounds.
const NONE: [u32; 4] = [0, 0, 1, 0];

/// A text, a start text, width, rounds, seed and work, the most directions, and the form of the proof; and what is
/// written, or the fault.
type Row = (
    &'static [u8],
    Option<&'static [u8]>,
    [u32; 4],
    u64,
    ProofForm,
    Wanted,
);

const UNASKED: ProofForm = ProofForm::ByLength;

/// The greatest numbers of an improvement.
const GREATEST: [u32; 4] = [65_536, 100_000_000, 2_147_483_646, 1_000_000];

/// The text with three machines has one best sequence. The directions were computed apart from the program, by the
/// definitions.
static ROWS: [Row; 17] = rows! {
    THREE_MACHINES, Some(LAST), NONE, 1_000, UNASKED, Ok(TWO_ENDED_12);
    THREE_MACHINES, Some(LAST), NONE, 1_000, ProofForm::Signs, Ok(TWO_ENDED_12);
    THREE_MACHINES, Some(LAST), NONE, 1_000, ProofForm::Count, Ok(COUNTED_12);
    // Of more directions signs are kept, and written, only where they are asked for, and of many more never.
    THREE_MACHINES, Some(BEST), GREATEST, 100_000_000, UNASKED, Ok(TWO_ENDED_12);
    THREE_MACHINES, Some(BEST), GREATEST, 100_000_001, UNASKED, Ok(COUNTED_12);
    THREE_MACHINES, Some(LAST), NONE, 1_000_000_000, ProofForm::Signs, Ok(TWO_ENDED_12);
    THREE_MACHINES, Some(LAST), NONE, 1_000_000_001, ProofForm::Signs, Err(CommandFault::SignedDirections);
    THREE_MACHINES, Some(LAST), NONE, 1_000_000_001, UNASKED, Ok(COUNTED_12);
    THREE_MACHINES, Some(BEST), GREATEST, 1_000_000_000_000_000, ProofForm::Count, Ok(COUNTED_12);
    THREE_MACHINES, Some(LAST), NONE, 1_000_000_000_000_000, UNASKED, Ok(COUNTED_12);
    THREE_MACHINES, Some(LAST), NONE, 1_000_000_000_000_001, ProofForm::Count, Err(CommandFault::Directions);
    ONE_JOB, None, NONE, 1, UNASKED, Ok(b"flowshop two-ended 1\n1 1\n0 0\n1\n\nend\n");
    ONE_JOB, None, NONE, 1, ProofForm::Count, Ok(b"flowshop counted 1\n1 1\n0 0\n1\n0\nend\n");
    // One round with each of two seeds, by the plain program bench/improve.rs, and the bound with no job put.
    LONG_TREES, None, [0, 1, 1, 1], 1, UNASKED,
        Ok(b"flowshop two-ended 1\n9 4\n557 616\n1 6 4 3 9 5 7 2 8\n\nend\n");
    LONG_TREES, None, [0, 1, 2, 1], 1, UNASKED,
        Ok(b"flowshop two-ended 1\n9 4\n557 616\n1 6 3 9 4 5 7 2 8\n\nend\n");
    LONG_TREES, None, [0, 1, 2, 1], 1, ProofForm::Count,
        Ok(b"flowshop counted 1\n9 4\n557 616\n1 6 3 9 4 5 7 2 8\n0\nend\n");
    // The text comes before the numbers.
    b"", None, NONE, 0, UNASKED, Err(CommandFault::Text(TextFault::NoBlock));
};

/// The request of `certify` with these numbers of an improvement, so many directions, so many workers, and a form of
/// the proof.
fn certified(numbers: [u32; 4], directions: u64, workers: u32, proof: ProofForm) -> Request {
    Request::Certify {
        request: CertifyRequest {
            improve: improvement(numbers),
            directions,
            workers,
            proof,
        },
        progress: false,
        seconds: None,
    }
}

/// Whether `certify` comes to what a row says.
fn holds<R: Threads + Wait + Sync>(rt: &R, alloc: Global, row: &Row) -> bool {
    let (text, start, numbers, directions, proof, wanted) = *row;
    let request = certified(numbers, directions, 1, proof);
    let texts = Given {
        text,
        second: start_of(start),
        ..OF_THREE
    };
    answers(rt, alloc, &texts, &request, ROOM, end_of(wanted))
}

#[test]
fn certify_writes_a_text_or_refuses(rt: HostRuntime) {
    for (number, row) in ROWS.iter().enumerate() {
        assert!(rt; holds(&rt, rt.alloc(), row), "row {number}");
    }
}

/// A text, width, rounds, seed and work, and the most directions; and what `check` prints for what `certify` writes.
type Known = (&'static [u8], [u32; 4], u64, Wanted);

/// The least makespans of nine, eight, seven, six and four jobs are those of all their sequences, tried apart from the
/// program, where no text says them. Of the long job no number above the first bound is proved by so few directions.
/// Where a text stands with a number of directions and with one more, all searches together have 850 for each one that
/// is given, over the cost of a direction: 684 on 9 jobs and 26 machines; and on 7 jobs and 2 machines 464, or 928
/// above the makespan 65,535. The bounds of three generated instances are those of a plain search, written apart, which
/// follows the steps of the manual.
static KNOWN: [Known; 25] = rows! {
    THREE_MACHINES, NONE, 1_000, Ok(b"optimal 12\n");
    THREE_MACHINES, [4_096, 10_000, 1, 10], 1_000, Ok(b"optimal 12\n");
    TWO_MACHINES, NONE, 1_000, Ok(b"optimal 9\n");
    GENERATED, NONE, 1_000, Ok(b"optimal 122\n");
    FOUR_MACHINES, [16, 10, 1, 10], 1_000_000, Ok(b"optimal 742\n");
    FOUR_MACHINES, NONE, 1_000_000, Ok(b"optimal 742\n");
    LONG_TREES, [0, 10, 1, 10], 1_000_000, Ok(b"optimal 616\n");
    b"a\n6 3 0 0 0\nb\n4 7 6 9 5 4\n1 2 9 6 3 9\n4 5 5 5 9 6\n", [1, 1, 1, 1], 1_000_000, Ok(b"optimal 44\n");
    ONE_LONG_JOB, NONE, 1_000, Ok(b"bounds 24 33\n");
    // The first search proves the makespan, if half of all directions suffice.
    LONG_JOBS, NONE, 3_148, Ok(b"bounds 61 286\n");
    LONG_JOBS, NONE, 3_149, Ok(b"optimal 286\n");
    UP_TO_16_BITS, NONE, 2_136, Ok(b"bounds 32772 65535\n");
    UP_TO_16_BITS, NONE, 2_137, Ok(b"optimal 65535\n");
    // The whole budget comes at once: four fifths of all directions.
    LONG_TOTAL, NONE, 1_968, Ok(b"bounds 250 260\n");
    LONG_TOTAL, NONE, 1_969, Ok(b"optimal 260\n");
    ABOVE_16_BITS, NONE, 2_670, Ok(b"bounds 32768 65536\n");
    ABOVE_16_BITS, NONE, 2_671, Ok(b"optimal 65536\n");
    // What is kept raises the first bound, as far as searches that are over leave some of it.
    NINE_JOBS, NONE, 330, Ok(b"bounds 653 684\n");
    // The last search has a greater budget than that which was over, but not ten times as great.
    SEVEN_JOBS, NONE, 66, Ok(b"bounds 407 431\n");
    SEVEN_JOBS, NONE, 67, Ok(b"optimal 431\n");
    ON_THREE, NONE, 60, Ok(b"optimal 540\n");
    // What is kept is given when the beam has the least makespan.
    TOTAL_IN_NARROW, [16, 0, 1, 1], 22, Ok(b"optimal 45\n");
    TOTAL_IN_WIDE, [64, 0, 1, 1], 48, Ok(b"optimal 27\n");
    // No search comes to 484 within its budget: only a beam of width 8 does that is aimed at 485.
    AIMED, [1, 0, 1, 1], 30, Ok(b"optimal 484\n");
    // Neither a search nor the beam that is aimed at 536 comes below 574: a beam of width 1 does that is aimed half of
    // the way.
    HALVED, [4, 0, 1, 1], 20, Ok(b"bounds 535 548\n");
};

/// Certifies the text of a row with so many workers, in a form of the proof. Returns whether it is not refused.
fn is_certified<R: Threads + Wait + Sync>(
    rt: &R,
    alloc: Global,
    row: &Known,
    workers: u32,
    proof: ProofForm,
    out: &mut MemorySink,
) -> bool
    requires { out.old.failed ≡ false }
{
    let (text, numbers, directions, _) = *row;
    let request = certified(numbers, directions, workers, proof);
    let means = Means {
        rt,
        alloc,
        watch: &Unwatched,
    };
    let mut none = OF_THREE.second_source();
    run_request(&means, &mut all_of(text), 1, &mut none, &request, out) == Ok(())
}

/// Whether `check` prints what a row says for what `certify` writes in a form, and more workers write the same.
fn proves<R: Threads + Wait + Sync>(
    rt: &R,
    alloc: Global,
    row: &Known,
    proof: ProofForm,
    out: &mut MemorySink,
) -> bool
    requires { out.old.failed ≡ false }
{
    let (text, _, _, wanted) = *row;
    if !is_certified(rt, alloc, row, 1, proof, out) {
        return false;
    }
    for workers in &[2, 64] {
        let mut other = MemorySink::new(alloc, ROOM);
        let is_same = is_certified(rt, alloc, row, *workers, proof, &mut other)
            && other.bytes() == out.bytes();
        if !is_same {
            return false;
        }
    }
    let texts = of_certificate(text, out.bytes());
    let request = checked(CheckOutput::Proved);
    answers(rt, alloc, &texts, &request, ROOM, end_of(wanted))
}

/// Whether `check` prints what a row says for what `certify` writes in both forms, and `signs` makes one of the other.
fn proves_both<R: Threads + Wait + Sync>(rt: &R, alloc: Global, row: &Known) -> bool {
    let mut signs = MemorySink::new(alloc, ROOM);
    let mut counted = MemorySink::new(alloc, ROOM);
    if !proves(rt, alloc, row, ProofForm::Signs, &mut signs)
        || !proves(rt, alloc, row, ProofForm::Count, &mut counted)
    {
        return false;
    }
    let texts = of_certificate(row.0, counted.bytes());
    let end = end_of(Ok(signs.bytes()));
    answers(rt, alloc, &texts, &Request::Signs, ROOM, end)
}

#[test]
fn check_accepts_what_certify_wrote(rt: HostRuntime) {
    for (number, row) in KNOWN.iter().enumerate() {
        assert!(rt; proves_both(&rt, rt.alloc(), row), "row {number}");
    }
}

#[test]
fn certify_fills_a_sink_up_to_its_limit(rt: HostRuntime) {
    let request = certified(NONE, 1_000, 1, UNASKED);
    for room in 0..46usize {
        let end = filled(room, TWO_ENDED_12);
        assert!(rt;
            answers(&rt, rt.alloc(), &OF_THREE, &request, room, end),
            "at {room}"
        );
    }
}

#[test]
fn certify_stops_an_endless_text(rt: HostRuntime) {
    let mut out = MemorySink::new(rt.alloc(), ROOM);
    let means = Means {
        rt: &rt,
        alloc: rt.alloc(),
        watch: &Unwatched,
    };
    let mut none = OF_THREE.second_source();
    let mut file = Endless::new();
    let request = certified(NONE, 1_000, 1, UNASKED);
    let ran = run_request(&means, &mut file, 1, &mut none, &request, &mut out);
    assert!(rt; comes_to(ran, &out, Err(CommandFault::Read(ReadFault::TooLong))));
}
