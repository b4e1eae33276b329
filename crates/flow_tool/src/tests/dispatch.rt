//! What the words of command lines come to, over files and a sink in memory.

ghost use Rattle.std.specs.Prelude.{◌≡◌, false};

use crate::dispatch::run_words;
use crate::refusal::Stop;
use crate::tests::files::{DEPTH_1, Named, START};
use crate::tests::lines::{
    ANSWERS, CERTIFY, CHECK, IMPROVE, OPTIONS, Row, SCHEDULE, SIGNS, STARTS, VERSIONS,
};
use crate::tests::refusal::is_line;
use crate::words::CommandLine;
use flow_commands::{Means, Unwatched};
use flow_core::MemorySink;
use std::alloc::{AllocError, Global};
use std::process::Abort;
use std::sync::Wait;
use std::thread::Threads;

/// How many bytes the output takes.
const ROOM: usize = 100_000;

/// The words of a command line, with the program's name before them.
pub(crate) fn words_of<'a>(alloc: Global, line: &'a str) -> Result<Vec<&'a str>, AllocError> {
    let mut words = Vec::new(alloc);
    words.push("flowshop")?;
    for word in line.split(' ') {
        if !word.is_empty() {
            words.push(word)?;
        }
    }
    Ok(words)
}

/// Whether a command line, beside a file of the name `stdin` that holds these bytes, has this line on standard error:
/// none where it was obeyed.
fn says<R: Threads + Wait + Sync>(
    rt: &R,
    alloc: Global,
    of_stdin: &'static [u8],
    line: &str,
    refusal: &str,
    out: &mut MemorySink,
) -> bool
    requires { out.old.failed ≡ false }
{
    let means = Means {
        rt,
        alloc,
        watch: &Unwatched,
    };
    let words = words_of(alloc, line).map_err(|_| Stop::Memory);
    match run_words::<CommandLine, _, _, _, _, _>(&means, &Named::new(of_stdin), words, out) {
        Ok(()) => refusal.is_empty(),
        Err(stop) => is_line(alloc, stop, refusal),
    }
}

/// Whether a command line that begins with these words writes and says what its row tells, beside a file of the name
/// `stdin` that holds these bytes.
fn is_right<R: Threads + Wait + Sync>(
    rt: &R,
    alloc: Global,
    begin: &str,
    of_stdin: &'static [u8],
    row: &Row,
) -> bool {
    let (rest, bytes, refusal) = *row;
    let mut out = MemorySink::new(alloc, ROOM);
    match format!(in alloc; "{begin} {rest}") {
        Ok(line) => {
            says(rt, alloc, of_stdin, line.as_str(), refusal, &mut out) && out.bytes() == bytes
        }
        Err(_) => false,
    }
}

/// Runs command lines that begin with the same words, beside a file of the name `stdin` that holds these bytes. Each
/// writes and says what its row tells.
fn run_rows<R: Threads + Wait + Sync + Abort>(
    rt: &R,
    alloc: Global,
    begin: &str,
    of_stdin: &'static [u8],
    rows: &[Row],
) {
    for row in rows {
        assert!(rt;
            is_right(rt, alloc, begin, of_stdin, row),
            "after {begin} {}",
            row.0
        );
    }
}

#[test]
fn each_command_writes_its_answer(rt: HostRuntime) {
    run_rows(&rt, rt.alloc(), "", DEPTH_1, &ANSWERS);
}

#[test]
fn each_option_of_solve_has_its_effect(rt: HostRuntime) {
    run_rows(&rt, rt.alloc(), "solve text_three 1", DEPTH_1, &OPTIONS);
}

#[test]
fn each_version_has_its_certificate(rt: HostRuntime) {
    run_rows(&rt, rt.alloc(), "solve stdin", DEPTH_1, &VERSIONS);
}

#[test]
fn solve_takes_a_start_by_its_name(rt: HostRuntime) {
    run_rows(&rt, rt.alloc(), "solve", START, &STARTS);
}

#[test]
fn improve_takes_its_numbers_and_its_start(rt: HostRuntime) {
    run_rows(&rt, rt.alloc(), "improve", DEPTH_1, &IMPROVE);
}

#[test]
fn certify_takes_its_numbers_and_its_start(rt: HostRuntime) {
    run_rows(&rt, rt.alloc(), "certify", DEPTH_1, &CERTIFY);
}

#[test]
fn schedule_takes_its_files_and_its_form(rt: HostRuntime) {
    run_rows(&rt, rt.alloc(), "schedule", START, &SCHEDULE);
}

#[test]
fn check_takes_each_file_by_its_name(rt: HostRuntime) {
    run_rows(&rt, rt.alloc(), "check", DEPTH_1, &CHECK);
}

#[test]
fn signs_takes_each_file_by_its_name(rt: HostRuntime) {
    run_rows(&rt, rt.alloc(), "signs", DEPTH_1, &SIGNS);
}

/// Lines whose output is long: how many bytes of it there is room for, how it begins, and the line on standard error.
static LONG: [(&str, usize, &[u8], &str); 3] = [
    ("schedule text_three 1 start --form svg", ROOM, b"<svg ", ""),
    (
        "--help",
        ROOM,
        b"Least makespans of permutation flow shops",
        "",
    ),
    ("--help", 10, b"Least make", "failed write Device"),
];

/// Whether the output of a line begins as it should.
fn begins<R: Threads + Wait + Sync>(
    rt: &R,
    alloc: Global,
    row: &(&str, usize, &[u8], &str),
) -> bool {
    let (line, room, begin, refusal) = *row;
    let mut out = MemorySink::new(alloc, room);
    says(rt, alloc, DEPTH_1, line, refusal, &mut out) && out.bytes().starts_with(begin)
}

#[test]
fn long_output_begins_as_it_should(rt: HostRuntime) {
    for row in &LONG {
        assert!(rt; begins(&rt, rt.alloc(), row), "after {}", row.0);
    }
}
