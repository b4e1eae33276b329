//! What the commands write and refuse, over sources and sinks in memory.

ghost use Rattle.std.specs.Prelude.{◌≡◌, false};
ghost use Rattle.std.specs.Option.{ForSome};
ghost use Rattle.flow_requests.specs.SecondFile.{file_in};

use flow_check::MOST_NODES;
use flow_commands::{
    CheckOutput, CheckRequest, CommandFault, ImproveRequest, Means, Request, SecondFile, Unwatched,
    run_gen, run_neh, run_request,
};
use flow_core::{MemorySink, MemorySource, ReadFault, WriteFault};
use std::alloc::Global;
use std::sync::Wait;
use std::thread::Threads;
use texts::THREE_MACHINES;

mod certify;
mod check;
mod endless;
mod faults;
mod generate;
mod improve;
mod neh;
mod schedule;
mod solve;
mod span;
mod starts;
mod texts;

/// The budget of a tree where none is to be refused.
const AMPLE: u32 = 1_000_000;

/// How many bytes a sink takes where it is to take all.
const ROOM: usize = 100_000;

/// What a run comes to: all that it writes, or its fault.
type Wanted = Result<&'static [u8], CommandFault>;

/// What a run comes to, and all that it has written then.
type End<'a> = (Result<(), CommandFault>, &'a [u8]);

/// The end of a run that comes to this. One that is refused writes nothing.
fn end_of(wanted: Result<&[u8], CommandFault>) -> End {
    match wanted {
        Ok(bytes) => (Ok(()), bytes),
        Err(fault) => (Err(fault), b""),
    }
}

/// The end of a run that writes a text into a sink of so many bytes: all of it, or, where it has more, so many of its
/// bytes.
fn filled(room: usize, text: &[u8]) -> End {
    match text.get(..room) {
        Some(bytes) if room < text.len() => (Err(CommandFault::Write(WriteFault::Device)), bytes),
        _ => (Ok(()), text),
    }
}

/// The end of a run that reads a text which refuses.
const UNREAD: End<'static> = (Err(CommandFault::Read(ReadFault::Device)), b"");

/// The end of a run that reads a text which refuses after so many bytes, and writes these bytes if it is read whole.
fn read_up_to<'a>(text: &[u8], most: usize, bytes: &'a [u8]) -> End<'a> {
    if most > text.len() {
        (Ok(()), bytes)
    } else {
        UNREAD
    }
}

/// Whether a run ended so.
fn ends(ran: Result<(), CommandFault>, out: &MemorySink, end: End) -> bool {
    ran == end.0 && out.bytes() == end.1
}

/// Whether a run came to this.
fn comes_to(
    ran: Result<(), CommandFault>,
    out: &MemorySink,
    wanted: Result<&[u8], CommandFault>,
) -> bool {
    ends(ran, out, end_of(wanted))
}

/// What a run reads: a text and an index, and a second file; and how many bytes each gives before it refuses, if it
/// does.
#[derive(Clone, Copy)]
struct Given<'a> {
    text: &'a [u8],
    text_most: Option<usize>,
    index: u32,
    second: SecondFile<&'a [u8]>,
    second_most: Option<usize>,
}

impl<'a> Given<'a> {
    /// The source of the text.
    fn source(&self) -> MemorySource<'a>
        ensures { result.failed ≡ false }
    {
        MemorySource::new(self.text, 7, self.text_most)
    }

    /// The source of the second file.
    fn second_source(&self) -> SecondFile<MemorySource<'a>>
        ensures { ForSome (file_in result) (λ source. source.failed ≡ false) }
    {
        let most = self.second_most;
        match self.second {
            SecondFile::Absent => SecondFile::Absent,
            SecondFile::Start(text) => SecondFile::Start(MemorySource::new(text, 5, most)),
            SecondFile::Certificate(text) => {
                SecondFile::Certificate(MemorySource::new(text, 5, most))
            }
            SecondFile::StartOrCertificate(text) => {
                SecondFile::StartOrCertificate(MemorySource::new(text, 5, most))
            }
        }
    }
}

/// The text with three machines.
const OF_THREE: Given<'static> = Given {
    text: THREE_MACHINES,
    text_most: None,
    index: 1,
    second: SecondFile::Absent,
    second_most: None,
};

/// A text, and a certificate of its first block.
fn of_certificate<'a>(text: &'a [u8], certificate: &'a [u8]) -> Given<'a> {
    Given {
        text,
        text_most: None,
        index: 1,
        second: SecondFile::Certificate(certificate),
        second_most: None,
    }
}

/// A start, or none.
fn start_of(start: Option<&[u8]>) -> SecondFile<&[u8]> {
    match start {
        Some(text) => SecondFile::Start(text),
        None => SecondFile::Absent,
    }
}

/// Whether what a request asks of texts ends so with a sink of so many bytes.
fn answers<R: Threads + Wait + Sync>(
    rt: &R,
    alloc: Global,
    texts: &Given,
    request: &Request,
    room: usize,
    end: End,
) -> bool {
    let mut out = MemorySink::new(alloc, room);
    let means = Means {
        rt,
        alloc,
        watch: &Unwatched,
    };
    let mut file = texts.source();
    let mut second = texts.second_source();
    let ran = run_request(
        &means,
        &mut file,
        texts.index,
        &mut second,
        request,
        &mut out,
    );
    ends(ran, &out, end)
}

/// A source of all these bytes.
fn all_of(bytes: &[u8]) -> MemorySource
    ensures { result.failed ≡ false }
{
    MemorySource::new(bytes, 7, None)
}

/// The text of a generated instance; none where it was refused.
fn generated(alloc: Global, jobs: u32, machines: u32, seed: u32) -> MemorySink {
    let mut out = MemorySink::new(alloc, ROOM);
    let _ = run_gen(alloc, jobs, machines, seed, &mut out);
    out
}

/// The starting sequence of a text, as `neh` writes it.
fn started(alloc: Global, text: &[u8]) -> MemorySink {
    let mut out = MemorySink::new(alloc, ROOM);
    let _ = run_neh(alloc, &mut all_of(text), 1, &mut out);
    out
}

/// The numbers of an improvement: width, rounds, seed and work.
fn improvement(numbers: [u32; 4]) -> ImproveRequest {
    let [width, rounds, seed, work] = numbers;
    ImproveRequest {
        width,
        rounds,
        seed,
        work,
    }
}

/// What `check` is asked for where no option is given.
const CHECK: CheckRequest = CheckRequest {
    output: CheckOutput::Proved,
    optimal: false,
    most: MOST_NODES,
    workers: 1,
};

/// The request of `check` with these choices.
fn checked_with(request: CheckRequest) -> Request {
    Request::Check {
        request,
        progress: false,
    }
}

/// What is printed of a certificate, where its bounds may differ.
fn checked(output: CheckOutput) -> Request {
    checked_with(CheckRequest { output, ..CHECK })
}
