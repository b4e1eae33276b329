//! The commands, over sources and sinks in memory.

ghost use Rattle.std.specs.Prelude.{◌≡◌, false};
ghost use Rattle.std.specs.Option.{ForSome};
ghost use Rattle.flow_requests.specs.SecondFile.{file_in};

use crate::groups::{is_refusal, refused_where};
use crate::schedules::{TABLE, is_picture};
use flow_check::{CheckFault, MOST_NODES};
use flow_commands::{
    CertifyRequest, CheckOutput, CheckRequest, CommandFault, ImproveRequest, Means, ProofForm,
    Request, ScheduleForm, SecondFile, SolveRequest, Unwatched, run_check, run_gen, run_neh,
    run_request, run_solve, run_span,
};
use flow_core::{MemorySink, MemorySource, StartFault};
use flow_pool::{Open, SolveFault};
use std::alloc::Global;
use std::sync::Wait;
use std::thread::Threads;
use test_libraries::{
    AMPLE, CERTIFICATE_AT_DEPTH_0, GENERATED_TEXT, THREE_MACHINES_TEXT, TIGHT, TWO_ENDED_11,
    TWO_ENDED_12, TWO_MACHINES_TEXT, WEAK_CERTIFICATE,
};

/// A start of the instance with three machines.
const START: &[u8] = b"sequence 1 2 3\nmakespan 15\n";

/// The certificate of the instance with three machines at depth 0 from this start. It was computed apart from the
/// program, by the definitions.
const STARTED_CERTIFICATE: &[u8] =
    b"flowshop certificate 1\n3 3 0\n12\n3 1 2\n++B+.++.B++.B\nend\n";

/// The certificate of that instance at depth 0, in version 2. It was computed apart from the program, by the
/// definitions.
const CERTIFICATE_2: &[u8] = b"flowshop certificate 2\n3 3 0\n12\n3 1 2\n+BC++.B\nend\n";

/// An instance with ten jobs on six machines, which `gen` makes of seed 42.
const TEN_JOBS_TEXT: &[u8] = b"a\n10 6 42 0 0\nb\n1 52 73 27 38 20 97 51 53 26\n\
11 81 90 45 25 25 19 33 11 80\n53 84 73 8 54 13 86 46 47 45\n24 2 3 99 91 78 57 77 62 35\n\
38 27 35 64 37 6 53 16 45 33\n20 7 98 55 9 99 43 70 19 54\n";

/// What `certify` writes for it with the numbers below. Bounds and directions are those of a slow search in Python,
/// written apart; beams and rounds those of the plain program bench/improve.rs. Better sequences come by directions, by
/// the beam and by the rounds; then the lower bound is raised, and a beam is aimed at 624.
const BOUNDS_OF_TEN_JOBS: &[u8] =
    b"flowshop two-ended 1\n10 6\n623 677\n6 1 5 10 8 3 4 7 9 2\n-\nend\n";

/// Five jobs with the times 1 and 1, and one with 10 and 10.
const ONE_LONG_JOB_TEXT: &[u8] = b"a\n6 2 0 0 0\nb\n1 1 1 1 1 10\n1 1 1 1 1 10\n";

/// All its sequences have the makespan 25. The directions have a plus for each list of distinct short jobs.
const BY_TWO_WORKERS: &[u8] = b"flowshop two-ended 1\n6 2\n25 25\n5 4 3 2 1 6\n\
++++++++++++++++++++++++++++++++++++++++++++++++++++++++++++++++++++++++++++++++++++++++++++++++++++\
++++++++++++++++++++++++++++++++++++++++++++++++++++++++++++++++++++++++++++++++++++++++++++++++++++\
++++++++++++++++++++++++++++++++++++++++++++++++++++++++++++++++++++++++++++++++++++++++++++++++++++\
++++++++++++++++++++++++++\nend\n";

/// The counted certificate of the instance with three machines.
const COUNTED_12: &[u8] = b"flowshop counted 1\n3 3\n12 12\n3 1 2\n2\nend\n";

/// What is printed for a certificate whose sequence is asked for.
const CHECKED_LINES: &[u8] = b"sequence 3 1 2\nmakespan 12\n";

/// A two-ended certificate of the generated text, and the report on it.
const TWO_ENDED_OF_SEED: &[u8] = b"flowshop two-ended 1\n2 2\n122 122\n1 2\n\nend\n";

const REPORT: &[u8] =
    b"optimal 122\nblock 1 of 1\njobs 2\nmachines 2\nthe times are those of seed 1\n\
SHA-256 of the text 8cfa848d8f7280187f3ede64f9b3bf29e713587de09ea71e15ebe5566ceeda45\ndirections 0\n\
SHA-256 of the certificate f6c90bc9805d508694d96196f1268379da85227b2fee223f8431cbde73b3862f\n";

/// No beam, and no round of an improvement.
const NO_ROUND: ImproveRequest = ImproveRequest {
    width: 0,
    rounds: 0,
    seed: 1,
    work: 0,
};

/// A little of a beam, and a few rounds.
const SOME_ROUNDS: ImproveRequest = ImproveRequest {
    width: 4,
    rounds: 2,
    seed: 1,
    work: 1,
};

/// A proof by a thousand directions, with no beam and no round.
const PROVED: CertifyRequest = CertifyRequest {
    improve: NO_ROUND,
    directions: 1_000,
    workers: 1,
    proof: ProofForm::ByLength,
};

/// Bounds by fifty directions, with a little of a beam and a few rounds.
const BOUNDED: CertifyRequest = CertifyRequest {
    improve: SOME_ROUNDS,
    directions: 50,
    workers: 1,
    proof: ProofForm::ByLength,
};

/// `solve` with two workers at depth 0.
const SOLVE: SolveRequest = SolveRequest {
    workers: 2,
    depth: 0,
    budget: AMPLE,
    version: 1,
};

/// `check` of what is proved.
const CHECK: CheckRequest = CheckRequest {
    output: CheckOutput::Proved,
    optimal: false,
    most: MOST_NODES,
    workers: 1,
};

/// A call of a command, with what it is given beside its text.
#[derive(Drop)]
enum Call {
    Gen,
    Span,
    Neh,
    /// At a depth, within a budget.
    Solve(u32, u32),
    /// Of a certificate.
    Check(&'static [u8]),
    /// By `run_request`, with a second file.
    Request(SecondFile<&'static [u8]>, Request),
}

/// What a command is to write, or its fault.
#[derive(Drop)]
enum Wanted {
    Text(&'static [u8]),
    Picture,
    Fault(CommandFault),
}

/// A run of a command.
#[derive(Drop)]
pub(crate) struct Run {
    /// The name of the run.
    pub name: &'static str,
    text: &'static [u8],
    call: Call,
    wanted: Wanted,
}

/// How many runs there are.
pub(crate) const RUN_COUNT: usize = 23;

/// All runs.
pub(crate) const RUNS: [Run; RUN_COUNT] = [
    Run {
        name: "run_span",
        text: TWO_MACHINES_TEXT,
        call: Call::Span,
        wanted: Wanted::Text(b"makespan 9\n"),
    },
    Run {
        name: "run_gen",
        text: b"",
        call: Call::Gen,
        wanted: Wanted::Text(GENERATED_TEXT),
    },
    Run {
        name: "run_neh",
        text: TWO_MACHINES_TEXT,
        call: Call::Neh,
        wanted: Wanted::Text(b"sequence 2 3 1\nmakespan 9\n"),
    },
    Run {
        name: "run_solve",
        text: THREE_MACHINES_TEXT,
        call: Call::Solve(0, AMPLE),
        wanted: Wanted::Text(&CERTIFICATE_AT_DEPTH_0),
    },
    Run {
        name: "run_solve beyond the budget",
        text: THREE_MACHINES_TEXT,
        call: Call::Solve(1, TIGHT),
        wanted: Wanted::Fault(CommandFault::Run(SolveFault::OverBudget(2))),
    },
    Run {
        name: "run_check",
        text: THREE_MACHINES_TEXT,
        call: Call::Check(&CERTIFICATE_AT_DEPTH_0),
        wanted: Wanted::Text(b"optimal 12\n"),
    },
    Run {
        name: "run_check of a text with a weak letter",
        text: THREE_MACHINES_TEXT,
        call: Call::Check(WEAK_CERTIFICATE),
        wanted: Wanted::Fault(CommandFault::Certificate(CheckFault::Weak(7))),
    },
    Run {
        name: "improve from a start",
        text: THREE_MACHINES_TEXT,
        call: Call::Request(
            SecondFile::Start(START),
            Request::Improve {
                request: NO_ROUND,
                seconds: None,
            },
        ),
        wanted: Wanted::Text(START),
    },
    Run {
        name: "certify from a start",
        text: THREE_MACHINES_TEXT,
        call: Call::Request(
            SecondFile::Start(START),
            Request::Certify {
                request: PROVED,
                progress: false,
                seconds: None,
            },
        ),
        wanted: Wanted::Text(TWO_ENDED_12),
    },
    Run {
        name: "certify with a few directions",
        text: TEN_JOBS_TEXT,
        call: Call::Request(
            SecondFile::Absent,
            Request::Certify {
                request: BOUNDED,
                progress: false,
                seconds: None,
            },
        ),
        wanted: Wanted::Text(BOUNDS_OF_TEN_JOBS),
    },
    Run {
        name: "certify by two workers",
        text: ONE_LONG_JOB_TEXT,
        call: Call::Request(
            SecondFile::Absent,
            Request::Certify {
                request: CertifyRequest {
                    workers: 2,
                    ..PROVED
                },
                progress: false,
                seconds: None,
            },
        ),
        wanted: Wanted::Text(BY_TWO_WORKERS),
    },
    Run {
        name: "certify with a count",
        text: THREE_MACHINES_TEXT,
        call: Call::Request(
            SecondFile::Start(START),
            Request::Certify {
                request: CertifyRequest {
                    proof: ProofForm::Count,
                    ..PROVED
                },
                progress: false,
                seconds: None,
            },
        ),
        wanted: Wanted::Text(COUNTED_12),
    },
    Run {
        name: "solve in version 2",
        text: THREE_MACHINES_TEXT,
        call: Call::Request(
            SecondFile::Absent,
            Request::Solve(SolveRequest {
                version: 2,
                ..SOLVE
            }),
        ),
        wanted: Wanted::Text(CERTIFICATE_2),
    },
    Run {
        name: "solve from a start",
        text: THREE_MACHINES_TEXT,
        call: Call::Request(SecondFile::Start(START), Request::Solve(SOLVE)),
        wanted: Wanted::Text(STARTED_CERTIFICATE),
    },
    Run {
        name: "solve from a start with another makespan",
        text: THREE_MACHINES_TEXT,
        call: Call::Request(
            SecondFile::Start(b"sequence 1 2 3\nmakespan 14\n"),
            Request::Solve(SOLVE),
        ),
        wanted: Wanted::Fault(CommandFault::Start(StartFault::Line(2))),
    },
    Run {
        name: "check of a two-ended sequence",
        text: THREE_MACHINES_TEXT,
        call: Call::Request(
            SecondFile::Certificate(TWO_ENDED_12),
            Request::Check {
                request: CheckRequest {
                    output: CheckOutput::Sequence,
                    ..CHECK
                },
                progress: false,
            },
        ),
        wanted: Wanted::Text(CHECKED_LINES),
    },
    Run {
        name: "check of a counted certificate by two workers",
        text: THREE_MACHINES_TEXT,
        call: Call::Request(
            SecondFile::Certificate(COUNTED_12),
            Request::Check {
                request: CheckRequest {
                    workers: 2,
                    ..CHECK
                },
                progress: false,
            },
        ),
        wanted: Wanted::Text(b"optimal 12\n"),
    },
    Run {
        name: "signs of a counted certificate",
        text: THREE_MACHINES_TEXT,
        call: Call::Request(SecondFile::Certificate(COUNTED_12), Request::Signs),
        wanted: Wanted::Text(TWO_ENDED_12),
    },
    Run {
        name: "check with a report",
        text: GENERATED_TEXT,
        call: Call::Request(
            SecondFile::Certificate(TWO_ENDED_OF_SEED),
            Request::Check {
                request: CheckRequest {
                    output: CheckOutput::Report,
                    ..CHECK
                },
                progress: false,
            },
        ),
        wanted: Wanted::Text(REPORT),
    },
    Run {
        name: "check of bounds",
        text: THREE_MACHINES_TEXT,
        call: Call::Request(
            SecondFile::Certificate(TWO_ENDED_11),
            Request::Check {
                request: CHECK,
                progress: false,
            },
        ),
        wanted: Wanted::Text(b"bounds 11 13\n"),
    },
    Run {
        name: "check of bounds for an optimum",
        text: THREE_MACHINES_TEXT,
        call: Call::Request(
            SecondFile::Certificate(TWO_ENDED_11),
            Request::Check {
                request: CheckRequest {
                    optimal: true,
                    ..CHECK
                },
                progress: false,
            },
        ),
        wanted: Wanted::Fault(CommandFault::Bounds {
            lower: 11,
            upper: 13,
        }),
    },
    Run {
        name: "schedule of a table",
        text: TWO_MACHINES_TEXT,
        call: Call::Request(
            SecondFile::StartOrCertificate(b"sequence 2 3 1\n"),
            Request::Schedule(ScheduleForm::Csv),
        ),
        wanted: Wanted::Text(TABLE),
    },
    Run {
        name: "schedule of a two-ended certificate",
        text: THREE_MACHINES_TEXT,
        call: Call::Request(
            SecondFile::StartOrCertificate(TWO_ENDED_12),
            Request::Schedule(ScheduleForm::Svg),
        ),
        wanted: Wanted::Picture,
    },
];

/// A source of all these bytes.
fn all_of(bytes: &[u8]) -> MemorySource
    ensures { result.failed ≡ false }
{
    MemorySource::new(bytes, 7, None)
}

/// The source of a second file.
fn second_of(second: SecondFile<&'static [u8]>) -> SecondFile<MemorySource<'static>>
    ensures { ForSome (file_in result) (λ source. source.failed ≡ false) }
{
    match second {
        SecondFile::Absent => SecondFile::Absent,
        SecondFile::Start(bytes) => SecondFile::Start(all_of(bytes)),
        SecondFile::Certificate(bytes) => SecondFile::Certificate(all_of(bytes)),
        SecondFile::StartOrCertificate(bytes) => SecondFile::StartOrCertificate(all_of(bytes)),
    }
}

/// Runs a command.
fn ran<T: Threads + Wait + Sync>(
    threads: &T,
    alloc: Global,
    run: &Run,
    out: &mut MemorySink,
) -> Result<(), CommandFault>
    requires { out.old.failed ≡ false }
{
    let mut file = all_of(run.text);
    match &run.call {
        Call::Gen => run_gen(alloc, 2, 2, 1, out),
        Call::Span => run_span(alloc, &mut file, 1, &[2, 3, 1], out),
        Call::Neh => run_neh(alloc, &mut file, 1, out),
        Call::Solve(depth, budget) => run_solve(
            threads, alloc, &mut file, 1, 2, *depth, *budget, 1, &Open, out,
        ),
        Call::Check(certificate) => {
            run_check(alloc, &mut file, 1, &mut all_of(*certificate), out)
        }
        Call::Request(second, request) => {
            let means = Means {
                rt: threads,
                alloc,
                watch: &Unwatched,
            };
            run_request(&means, &mut file, 1, &mut second_of(*second), request, out)
        }
    }
}

/// Whether that is a part of what a command is to write, and not all of it. A picture is written whole or not at all.
fn is_part(written: &[u8], wanted: &Wanted) -> bool {
    match wanted {
        Wanted::Text(text) => text.starts_with(written) && written.len() < text.len(),
        Wanted::Picture => written.is_empty(),
        Wanted::Fault(_) => false,
    }
}

/// Whether a command wrote, or refused, as it should. Where memory ran out it wrote nothing, or in its sink a part. A
/// command that refuses never writes anything.
fn is_wanted(
    ran: Result<(), CommandFault>,
    written: &[u8],
    wanted: &Wanted,
) -> Result<bool, CommandFault> {
    match (ran, wanted) {
        (Ok(()), Wanted::Text(text)) => Ok(written == *text),
        (Ok(()), Wanted::Picture) => Ok(is_picture(written)),
        (Ok(()), Wanted::Fault(_)) => Ok(false),
        (Err(CommandFault::Write(_)), _) => refused_where(is_part(written, wanted)),
        (Err(fault), _) if is_refusal(fault) => refused_where(written.is_empty()),
        (Err(fault), Wanted::Fault(other)) => Ok(written.is_empty() && fault == *other),
        (Err(_), _) => Ok(false),
    }
}

/// Makes a run, and says whether it came to what it should.
pub(crate) fn run_is_right<T: Threads + Wait + Sync>(
    threads: &T,
    alloc: Global,
    run: &Run,
) -> Result<bool, CommandFault> {
    let mut out = MemorySink::new(alloc, 10_000);
    let ran = ran(threads, alloc, run, &mut out);
    is_wanted(ran, out.bytes(), &run.wanted)
}
