//! How the words of command lines are read.

use crate::tests::dispatch::words_of;
use clap::error::ErrorKind;
use flow_requests::{
    CertifyRequest, CheckOutput, CheckRequest, ImproveRequest, Invocation, ProofForm, Request,
    ScheduleForm, SecondFile, SolveRequest,
};
use flow_words::{invocation_of, make_command};
use std::alloc::Global;

/// What words ask for, or what kind of fault they have.
fn read<'a>(alloc: Global, words: &'a [&'a str]) -> Result<Option<Invocation<'a>>, ErrorKind> {
    let Ok(command) = make_command(alloc) else {
        return Err(ErrorKind::OutOfMemory);
    };
    match command.try_get_matches_from(words) {
        Ok(matches) => match invocation_of(alloc, &matches) {
            Ok(invocation) => Ok(invocation),
            Err(_) => Err(ErrorKind::OutOfMemory),
        },
        Err(error) => Err(error.kind()),
    }
}

/// The request of `solve` where no option is given.
const SOLVE: SolveRequest = SolveRequest {
    workers: 1,
    depth: 1,
    budget: 1_000_000,
    version: 1,
};

/// The request of `improve` where no option is given.
const USUAL: ImproveRequest = ImproveRequest {
    width: 4_096,
    rounds: 10_000,
    seed: 1,
    work: 8_500,
};

/// Another request of `improve`.
const OTHER: ImproveRequest = ImproveRequest {
    width: 65_537,
    rounds: 4_294_967_295,
    seed: 0,
    work: 7,
};

/// The request of `check` where no option is given.
const CHECK: CheckRequest = CheckRequest {
    output: CheckOutput::Proved,
    optimal: false,
    most: 10_000_000_000,
    workers: 1,
};

/// Command lines, and what they ask for: the name of the second file, and what is asked of block 1 of the text FILE.
const OF_BLOCK: [(&str, SecondFile<&str>, Request); 15] = [
    (
        "check FILE 1 CERT",
        SecondFile::Certificate("CERT"),
        Request::Check {
            request: CHECK,
            progress: false,
        },
    ),
    (
        "check FILE 1 CERT --optimal --sequence",
        SecondFile::Certificate("CERT"),
        Request::Check {
            request: CheckRequest {
                output: CheckOutput::Sequence,
                optimal: true,
                ..CHECK
            },
            progress: false,
        },
    ),
    (
        "check FILE 1 CERT --verbose",
        SecondFile::Certificate("CERT"),
        Request::Check {
            request: CheckRequest {
                output: CheckOutput::Report,
                ..CHECK
            },
            progress: false,
        },
    ),
    (
        "check FILE 1 CERT --workers 65 --progress --most 18446744073709551615",
        SecondFile::Certificate("CERT"),
        Request::Check {
            request: CheckRequest {
                most: 18_446_744_073_709_551_615,
                workers: 65,
                ..CHECK
            },
            progress: true,
        },
    ),
    (
        "signs FILE 1 CERT",
        SecondFile::Certificate("CERT"),
        Request::Signs,
    ),
    ("neh FILE 1", SecondFile::Absent, Request::Neh),
    (
        "schedule FILE 1 SEQUENCE",
        SecondFile::StartOrCertificate("SEQUENCE"),
        Request::Schedule(ScheduleForm::Csv),
    ),
    (
        "schedule FILE 1 SEQUENCE --form svg",
        SecondFile::StartOrCertificate("SEQUENCE"),
        Request::Schedule(ScheduleForm::Svg),
    ),
    (
        "solve FILE 1 --depth 2",
        SecondFile::Absent,
        Request::Solve(SolveRequest { depth: 2, ..SOLVE }),
    ),
    (
        "solve FILE 1 --certificate 2 --start SEQUENCE --workers 3",
        SecondFile::Start("SEQUENCE"),
        Request::Solve(SolveRequest {
            workers: 3,
            version: 2,
            ..SOLVE
        }),
    ),
    (
        "improve FILE 1",
        SecondFile::Absent,
        Request::Improve {
            request: USUAL,
            seconds: None,
        },
    ),
    (
        "improve FILE 1 --seed 0 --start SEQUENCE --rounds 4294967295 --width 65537 --work 7 \
--time-limit 0",
        SecondFile::Start("SEQUENCE"),
        Request::Improve {
            request: OTHER,
            seconds: Some(0),
        },
    ),
    (
        "certify FILE 1",
        SecondFile::Absent,
        Request::Certify {
            request: CertifyRequest {
                improve: USUAL,
                directions: 100_000_000,
                workers: 1,
                proof: ProofForm::ByLength,
            },
            progress: false,
            seconds: None,
        },
    ),
    (
        "certify FILE 1 --proof signs --workers 2",
        SecondFile::Absent,
        Request::Certify {
            request: CertifyRequest {
                improve: USUAL,
                directions: 100_000_000,
                workers: 2,
                proof: ProofForm::Signs,
            },
            progress: false,
            seconds: None,
        },
    ),
    (
        "certify FILE 1 --directions 18446744073709551615 --work 7 --width 65537 --seed 0 --rounds 4294967295 \
--workers 65 --progress --time-limit 10 --proof count --start SEQUENCE",
        SecondFile::Start("SEQUENCE"),
        Request::Certify {
            request: CertifyRequest {
                improve: OTHER,
                directions: u64::MAX,
                workers: 65,
                proof: ProofForm::Count,
            },
            progress: true,
            seconds: Some(10),
        },
    ),
];

/// Whether a command line is read as this invocation.
fn is_read_as(alloc: Global, line: &str, wanted: &Invocation) -> bool {
    let Ok(words) = words_of(alloc, line) else {
        return false;
    };
    match read(alloc, words.as_slice()) {
        Ok(Some(invocation)) => invocation == *wanted,
        _ => false,
    }
}

/// Whether a command line asks this of block 1 of the text FILE, with this second file.
fn asks(alloc: Global, line: &str, name: SecondFile<&str>, wanted: &Request) -> bool {
    let Ok(words) = words_of(alloc, line) else {
        return false;
    };
    match read(alloc, words.as_slice()) {
        Ok(
            Some(
                Invocation::OfBlock {
                    file,
                    index,
                    second,
                    request,
                },
            ),
        ) => file == "FILE" && index == 1 && second == name && request == *wanted,
        _ => false,
    }
}

/// Whether the jobs of a sequence are read.
fn are_jobs_read(alloc: Global) -> bool {
    let Ok(jobs) = vec![in alloc; 3, 1, 65_535] else {
        return false;
    };
    let span = Invocation::OfBlock {
        file: "FILE",
        index: u32::MAX,
        second: SecondFile::Absent,
        request: Request::Span { jobs },
    };
    is_read_as(alloc, "span FILE 4294967295 3 1 65535", &span)
}

/// Whether the numbers of `gen` are read.
fn are_numbers_read(alloc: Global) -> bool {
    let wanted = Invocation::Gen {
        jobs: 20,
        machines: 5,
        seed: 4_294_967_295,
    };
    is_read_as(alloc, "gen 20 5 4294967295", &wanted)
}

#[test]
fn words_are_read_as_invocations(rt: HostRuntime) {
    assert!(rt; are_jobs_read(rt.alloc()));
    assert!(rt; are_numbers_read(rt.alloc()));
    for (line, second, wanted) in &OF_BLOCK {
        assert!(rt; asks(rt.alloc(), *line, *second, wanted), "after {line}");
    }
}

/// Command lines that are refused.
static REFUSED: [&str; 27] = [
    "",
    "sort",
    "span FILE 1",
    "span FILE 1 65536",
    "span FILE 4294967296 1",
    "neh FILE x",
    "solve FILE 1 --workers -1",
    "check FILE 1",
    "gen 20 5 1 1",
    "solve FILE 1 --start",
    "solve FILE 1 --start a --start b",
    "neh FILE 1 --start a",
    "improve FILE",
    "improve FILE 1 --rounds -1",
    "improve FILE 1 --certificate 1",
    "certify FILE 1 --seed 4294967296",
    "certify FILE 1 --workers -1",
    "certify FILE 1 --directions 18446744073709551616",
    "certify FILE 1 --certificate 1",
    "certify FILE 1 --bounds",
    "solve FILE 1 --mirrored",
    "solve FILE 1 --target 1",
    "check FILE 1 CERT --either",
    "check FILE 1 CERT --most 18446744073709551616",
    "check FILE 1 CERT --most -1",
    "check FILE 1 CERT --proof count",
    "signs FILE 1",
];

/// Whether a command line is refused, and neither for help nor for memory.
fn is_refused(alloc: Global, line: &str) -> bool {
    let Ok(words) = words_of(alloc, line) else {
        return false;
    };
    match read(alloc, words.as_slice()) {
        Err(kind) => kind != ErrorKind::DisplayHelp && kind != ErrorKind::OutOfMemory,
        Ok(_) => false,
    }
}

#[test]
fn other_words_are_refused(rt: HostRuntime) {
    for line in &REFUSED {
        assert!(rt; is_refused(rt.alloc(), line), "after {line}");
    }
}
