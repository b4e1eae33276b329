//! What `check` prints and refuses.

use super::texts::{
    COUNTED_12, DEPTH_0, DEPTH_3, FROM_BEST, FROM_LAST, FROM_START, GENERATED, ONE_JOB,
    THREE_MACHINES, TWO_ENDED_11, TWO_ENDED_12, TWO_MACHINES, VERSION_2,
};
use super::{
    AMPLE, CHECK, Given, ROOM, Wanted, all_of, answers, checked, checked_with, comes_to, end_of,
    ends, filled, of_certificate, read_up_to,
};
use flow_check::{CheckFault, MOST_NODES};
use flow_commands::{CheckOutput, CheckRequest, CommandFault, run_check, run_solve};
use flow_core::{MemorySink, MemorySource};
use flow_pool::Open;
use std::alloc::Global;
use std::sync::Wait;
use std::thread::Threads;

/// What is printed for a certificate of the text with three machines.
const OPTIMAL: Wanted = Ok(b"optimal 12\n");

/// The fault of another first line.
const HEADER: Wanted = Err(CommandFault::Certificate(CheckFault::Header));

/// A text and a certificate; and what `run_check`, which accepts certificates with trees alone, prints, or the fault.
static ALONE: [(&[u8], &[u8], Wanted); 10] = rows! {
    THREE_MACHINES, DEPTH_0, OPTIMAL;
    THREE_MACHINES, FROM_START, OPTIMAL;
    THREE_MACHINES, FROM_LAST, OPTIMAL;
    THREE_MACHINES, FROM_BEST, OPTIMAL;
    THREE_MACHINES, VERSION_2, OPTIMAL;
    THREE_MACHINES, TWO_ENDED_12, HEADER;
    THREE_MACHINES, TWO_ENDED_11, HEADER;
    THREE_MACHINES, COUNTED_12, HEADER;
    THREE_MACHINES, b"flowshop certificate 1\n3 3 1\n12\n3 1 2\nB\nC\n++.A\nend\n",
        Err(CommandFault::Certificate(CheckFault::Weak(7)));
    TWO_MACHINES, DEPTH_0, Err(CommandFault::Certificate(CheckFault::Size));
};

/// Whether `run_check` comes to what a row says.
fn holds(alloc: Global, row: &(&[u8], &[u8], Wanted)) -> bool {
    let (text, certificate, wanted) = *row;
    let mut out = MemorySink::new(alloc, ROOM);
    let mut cert = all_of(certificate);
    let ran = run_check(alloc, &mut all_of(text), 1, &mut cert, &mut out);
    comes_to(ran, &out, wanted)
}

#[test]
fn run_check_prints_the_least_makespan(rt: HostRuntime) {
    for (number, row) in ALONE.iter().enumerate() {
        assert!(rt; holds(rt.alloc(), row), "row {number}");
    }
}

#[test]
fn run_check_prints_nothing_after_a_failed_read(rt: HostRuntime) {
    for most in 0..DEPTH_0.len() + 2 {
        let mut out = MemorySink::new(rt.alloc(), ROOM);
        let mut cert = MemorySource::new(DEPTH_0, 5, Some(most));
        let mut file = all_of(THREE_MACHINES);
        let ran = run_check(rt.alloc(), &mut file, 1, &mut cert, &mut out);
        let end = read_up_to(DEPTH_0, most, b"optimal 12\n");
        assert!(rt; ends(ran, &out, end), "at {most}");
    }
}

/// The sequence of the certificates of three machines.
const BEST_LINES: Wanted = Ok(b"sequence 3 1 2\nmakespan 12\n");

/// What is asked for: the line of what is proved, the lines of the sequence, or a report.
const LINE: CheckOutput = CheckOutput::Proved;

const LINES: CheckOutput = CheckOutput::Sequence;

const REPORT: CheckOutput = CheckOutput::Report;

/// A certificate of three machines, what is asked for, and whether a least makespan has to be proved;
/// and what is printed, or the fault.
type Row = (&'static [u8], CheckOutput, bool, Wanted);

static ASKED: [Row; 8] = rows! {
    DEPTH_3, LINES, false, BEST_LINES;
    VERSION_2, LINES, true, BEST_LINES;
    TWO_ENDED_12, LINE, true, OPTIMAL;
    COUNTED_12, LINES, true, BEST_LINES;
    b"flowshop counted 1\n3 3\n11 13\n2 1 3\n1\nend\n", LINE, true, Err(CommandFault::Bounds { lower: 11, upper: 13 });
    b"flowshop two-ended 1", LINE, false, HEADER;
    b"flowshop two-ended 1\n3 3\n12 12\n3 1 2\n++\nend", LINE, false, Err(CommandFault::Certificate(CheckFault::End));
    // A fault of the text comes before bounds that differ.
    b"flowshop two-ended 1\n3 3\n12 13\n2 1 3\n+\nend\n", LINE, true,
        Err(CommandFault::Certificate(CheckFault::Tree(5)));
};

/// Whether `check` comes to what a row says.
fn prints<R: Threads + Wait + Sync>(rt: &R, alloc: Global, row: &Row) -> bool {
    let (certificate, output, optimal, wanted) = *row;
    let request = checked_with(CheckRequest {
        output,
        optimal,
        ..CHECK
    });
    let texts = of_certificate(THREE_MACHINES, certificate);
    answers(rt, alloc, &texts, &request, ROOM, end_of(wanted))
}

#[test]
fn check_prints_what_is_asked_for(rt: HostRuntime) {
    for (number, row) in ASKED.iter().enumerate() {
        assert!(rt; prints(&rt, rt.alloc(), row), "row {number}");
    }
}

/// A text for three machines, the most nodes that it may state, and the number of workers; and what is printed, or the
/// fault.
type Limited = (&'static [u8], u64, u32, Wanted);

static LIMITED: [Limited; 12] = rows! {
    COUNTED_12, MOST_NODES, 1, OPTIMAL;
    COUNTED_12, 2, 64, OPTIMAL;
    COUNTED_12, 1, 1, Err(CommandFault::Certificate(CheckFault::Most));
    COUNTED_12, 2, 0, Err(CommandFault::Workers);
    b"flowshop counted 1\n3 3\n12 12\n3 1 2\n1\nend\n", 2, 2, Err(CommandFault::Certificate(CheckFault::Tree(5)));
    b"flowshop counted 1\n3 3\n12 12\n3 1 2\n3\nend\n", 3, 1, Err(CommandFault::Certificate(CheckFault::Tree(5)));
    b"flowshop counted 1\n3 3\n13 12\n3 1 2\n3\nend\n", 3, 2, Err(CommandFault::Certificate(CheckFault::Low(5)));
    b"flowshop counted 1\n3 3\n13 12\n3 1 2\n2\nend\n", 2, 1, Err(CommandFault::Certificate(CheckFault::Tree(5)));
    // The first fault is that of the most nodes, and the number of workers comes before the text.
    b"flowshop counted 1\n3 3\n12 12\n3 1 2\n3\nend", 2, 1, Err(CommandFault::Certificate(CheckFault::Most));
    b"", 0, 65, Err(CommandFault::Workers);
    // No other kind of text states nodes, or is read by several workers.
    TWO_ENDED_12, 0, 64, OPTIMAL;
    DEPTH_0, 0, 64, OPTIMAL;
};

/// Whether `check` with these limits comes to what a row says.
fn keeps_to<R: Threads + Wait + Sync>(rt: &R, alloc: Global, row: &Limited) -> bool {
    let (certificate, most, workers, wanted) = *row;
    let request = checked_with(CheckRequest {
        most,
        workers,
        ..CHECK
    });
    let texts = of_certificate(THREE_MACHINES, certificate);
    answers(rt, alloc, &texts, &request, ROOM, end_of(wanted))
}

#[test]
fn check_counts_no_more_nodes_than_are_allowed(rt: HostRuntime) {
    for (number, row) in LIMITED.iter().enumerate() {
        assert!(rt; keeps_to(&rt, rt.alloc(), row), "row {number}");
    }
}

/// The text with three machines with a shop of seed 1 before it, and a two-ended certificate of that shop.
const TWO_BLOCKS: &[u8] = b"a\n2 2 1 0 0\nb\n1 14\n75 46\na\n3 3 0 0 0\nb\n4 0 0\n0 8 2\n4 0 1\n";

const OF_SEED: &[u8] = b"flowshop two-ended 1\n2 2\n122 122\n1 2\n\nend\n";

/// A text, an index and a certificate; and the report that is printed. The sums are those of sha256sum.
type Reported = (&'static [u8], u32, &'static [u8], Wanted);

static REPORTED: [Reported; 5] = rows! {
    THREE_MACHINES, 1, VERSION_2, Ok(b"optimal 12\nblock 1 of 1\njobs 3\nmachines 3\nthe head has no seed\n\
SHA-256 of the text 18b7b4023a8fb46013f10742bad982ebca434ab33e1a7596f75efb151d356312\ntrees 1\n\
SHA-256 of the certificate 3b11bbb0e3cce19dc89865ac6cb602d27e20b627b7fa7f6f288edf021aa091c9\n");
    TWO_BLOCKS, 2, DEPTH_3, Ok(b"optimal 12\nblock 2 of 2\njobs 3\nmachines 3\nthe head has no seed\n\
SHA-256 of the text 4d477d413a4a78c6c556f2d635af474ceda28495e5166c213b936ad94750390c\ntrees 6\n\
SHA-256 of the certificate b06a811ea180985207f44d0d7e00d2860bb046629ff3ed3a41104752be0e2ee1\n");
    THREE_MACHINES, 1, TWO_ENDED_12, Ok(b"optimal 12\nblock 1 of 1\njobs 3\nmachines 3\nthe head has no seed\n\
SHA-256 of the text 18b7b4023a8fb46013f10742bad982ebca434ab33e1a7596f75efb151d356312\ndirections 2\n\
SHA-256 of the certificate 796ab48850ac31b8476c4ea1fb8d27f21187331e21aac1a0358f18c0e2ec9625\n");
    THREE_MACHINES, 1, COUNTED_12, Ok(b"optimal 12\nblock 1 of 1\njobs 3\nmachines 3\nthe head has no seed\n\
SHA-256 of the text 18b7b4023a8fb46013f10742bad982ebca434ab33e1a7596f75efb151d356312\nnodes 2\n\
SHA-256 of the certificate 5716d11c4a31e7ac7e06bf3672c6e179bdb8a07bd3ff64d6520a2670f11b87a9\n");
    TWO_BLOCKS, 1, OF_SEED, Ok(b"optimal 122\nblock 1 of 2\njobs 2\nmachines 2\nthe times are those of seed 1\n\
SHA-256 of the text 4d477d413a4a78c6c556f2d635af474ceda28495e5166c213b936ad94750390c\ndirections 0\n\
SHA-256 of the certificate f6c90bc9805d508694d96196f1268379da85227b2fee223f8431cbde73b3862f\n");
};

/// Whether `check` prints the report of a row.
fn reports<R: Threads + Wait + Sync>(rt: &R, alloc: Global, row: &Reported) -> bool {
    let (text, index, certificate, wanted) = *row;
    let texts = Given {
        index,
        ..of_certificate(text, certificate)
    };
    answers(rt, alloc, &texts, &checked(REPORT), ROOM, end_of(wanted))
}

#[test]
fn check_reports_of_which_block_and_how_long(rt: HostRuntime) {
    for (number, row) in REPORTED.iter().enumerate() {
        assert!(rt; reports(&rt, rt.alloc(), row), "row {number}");
    }
}

#[test]
fn check_fills_a_sink_up_to_its_limit(rt: HostRuntime) {
    let texts = of_certificate(THREE_MACHINES, DEPTH_0);
    for room in 0..28usize {
        let end = filled(room, b"sequence 3 1 2\nmakespan 12\n");
        assert!(rt;
            answers(&rt, rt.alloc(), &texts, &checked(LINES), room, end),
            "at {room}"
        );
    }
}

/// A text, the greatest depth, and what `check` prints for its certificates.
type Solved = (&'static [u8], u32, Wanted);

/// All 720 sequences of the last were tried apart from the program: the least makespan is 44, and that of the starting
/// sequence is 46.
static SOLVED: [Solved; 5] = rows! {
    THREE_MACHINES, 3, Ok(b"optimal 12\n");
    TWO_MACHINES, 3, Ok(b"optimal 9\n");
    ONE_JOB, 1, Ok(b"optimal 0\n");
    GENERATED, 2, Ok(b"optimal 122\n");
    b"a\n6 3 0 0 0\nb\n4 7 6 9 5 4\n1 2 9 6 3 9\n4 5 5 5 9 6\n", 2, Ok(b"optimal 44\n");
};

/// Whether `check` of what `solve` writes at a depth in a version comes to what a row says.
fn is_accepted<R: Threads + Wait + Sync>(
    rt: &R,
    alloc: Global,
    row: &Solved,
    depth: u32,
    version: u32,
) -> bool {
    let (text, _, wanted) = *row;
    let mut cert = MemorySink::new(alloc, ROOM);
    let mut file = all_of(text);
    let ran = run_solve(
        rt, alloc, &mut file, 1, 2, depth, AMPLE, version, &Open, &mut cert,
    );
    let texts = of_certificate(text, cert.bytes());
    let request = checked_with(CheckRequest {
        optimal: true,
        ..CHECK
    });
    ran == Ok(()) && answers(rt, alloc, &texts, &request, ROOM, end_of(wanted))
}

#[test]
fn check_accepts_what_solve_wrote(rt: HostRuntime) {
    for row in &SOLVED {
        for depth in 0..row.1.saturating_add(1) {
            for version in 1..3u32 {
                assert!(rt;
                    is_accepted(&rt, rt.alloc(), row, depth, version),
                    "at depth {depth} in version {version}"
                );
            }
        }
    }
}
