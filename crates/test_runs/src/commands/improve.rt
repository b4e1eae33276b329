//! What `improve` writes.

use super::texts::ONE_JOB;
use super::{Given, OF_THREE, ROOM, answers, end_of, generated, improvement, start_of, started};
use flow_commands::Request;
use std::alloc::Global;
use std::sync::Wait;
use std::thread::Threads;

/// Whether `improve` of a text, from a start if there is one, with width, rounds, seed and work, writes these bytes.
fn improves<R: Threads + Wait + Sync>(
    rt: &R,
    alloc: Global,
    (text, start): (&[u8], Option<&[u8]>),
    numbers: [u32; 4],
    bytes: &[u8],
) -> bool {
    let texts = Given {
        text,
        second: start_of(start),
        ..OF_THREE
    };
    let request = Request::Improve {
        request: improvement(numbers),
        seconds: None,
    };
    answers(rt, alloc, &texts, &request, ROOM, end_of(Ok(bytes)))
}

#[test]
fn improve_ends_with_one_job(rt: HostRuntime) {
    for width in &[0, 65_536] {
        let numbers = [*width, 100_000_000, 2_147_483_646, 1_000_000];
        let bytes = b"sequence 1\nmakespan 0\n";
        assert!(rt;
            improves(&rt, rt.alloc(), (ONE_JOB, None), numbers, bytes),
            "width {width}"
        );
    }
}

/// Jobs, machines and the instance's seed; width, rounds and seed; and what `improve` writes with them, as the plain
/// program bench/improve.rs does.
static GENERATED: [([u32; 3], [u32; 3], &[u8]); 6] = rows! {
    [20, 10, 587_595_453], [0, 50, 3],
        b"sequence 18 5 2 12 9 10 15 17 4 13 3 6 19 8 20 11 14 7 16 1\nmakespan 1583\n";
    [20, 10, 587_595_453], [0, 1_000, 3],
        b"sequence 18 5 2 12 9 10 4 14 13 15 17 3 6 19 8 20 11 7 1 16\nmakespan 1582\n";
    [20, 10, 587_595_453], [0, 50, 2_147_483_645],
        b"sequence 18 5 2 12 17 15 3 9 10 14 4 6 19 8 20 11 13 7 1 16\nmakespan 1586\n";
    [21, 26, 8], [0, 40, 1], b"sequence 2 17 10 9 12 19 8 5 18 7 1 20 13 21 3 15 6 14 4 16 11\nmakespan 2638\n";
    [6, 3, 17], [0, 100_000_000, 1], b"sequence 1 6 3 2 5 4\nmakespan 415\n";
    [8, 3, 12], [0, 20, 1], b"sequence 1 3 4 8 6 5 2 7\nmakespan 369\n";
};

/// Whether `improve` of a generated instance writes what a row says, and also from the start text that `neh` writes.
fn holds<R: Threads + Wait + Sync>(
    rt: &R,
    alloc: Global,
    row: &([u32; 3], [u32; 3], &'static [u8]),
) -> bool {
    let ([jobs, machines, of_instance], [width, rounds, seed], lines) = *row;
    let text = generated(alloc, jobs, machines, of_instance);
    let start = started(alloc, text.bytes());
    let numbers = [width, rounds, seed, 8_500];
    improves(rt, alloc, (text.bytes(), None), numbers, lines)
        && improves(
            rt,
            alloc,
            (text.bytes(), Some(start.bytes())),
            numbers,
            lines,
        )
}

#[test]
fn improve_makes_its_rounds(rt: HostRuntime) {
    for (number, row) in GENERATED.iter().enumerate() {
        assert!(rt; holds(&rt, rt.alloc(), row), "row {number}");
    }
}
