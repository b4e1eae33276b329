//! Sinks and sources.

ghost use Rattle.std.specs.Prelude.{◌≡◌, None, false};

use crate::instances::TWO_MACHINES_TEXT;
use flow_core::{
    MemorySink, MemorySource, ReadFault, Refused, Sink, Source, StdSink, StdSource, WriteFault,
    put_all, read_all, read_by_begin,
};
use std::alloc::{AllocError, Global};
use std::io::{self, ErrorKind, Read, Write};

/// How many bytes a sink takes, the answer, and what it has then.
type Put = (usize, Result<(), WriteFault>, &'static [u8]);

static PUT: [Put; 2] = [
    (10, Err(WriteFault::Device), b"number of "),
    (200, Ok(()), TWO_MACHINES_TEXT),
];

#[test]
fn put_all_puts_what_the_sink_takes(rt: HostRuntime) {
    for (limit, answer, bytes) in &PUT {
        let mut sink = MemorySink::new(rt.alloc(), *limit);
        assert!(rt; !sink.failed());
        assert_eq!(rt;
            put_all(&mut sink, TWO_MACHINES_TEXT),
            *answer,
            "up to {limit}"
        );
        assert_eq!(rt;
            (sink.bytes(), sink.failed()),
            (*bytes, answer.is_err()),
            "up to {limit}"
        );
    }
}

/// Whether `read_all` gives these bytes or this fault for a source.
fn reads<S: Source>(
    alloc: Global,
    source: &mut S,
    limit: usize,
    answer: Result<&[u8], ReadFault>,
) -> bool
    requires { S.has_failed source.old ≡ false }
{
    match read_all(alloc, source, limit) {
        Ok(bytes) => answer == Ok(bytes.as_slice()),
        Err(fault) => answer == Err(fault),
    }
}

/// With which bytes there may be more, the limit without them, the limit with them, how many of the bytes a source
/// gives before it refuses, and what is read of five bytes in pieces of two.
type Listed = (
    &'static [u8],
    usize,
    usize,
    Option<usize>,
    Result<&'static [u8], ReadFault>,
);

static READ: [Listed; 6] = [
    (b"", 5, 5, None, Ok(b"abcde")),
    (b"", 4, 4, None, Err(ReadFault::TooLong)),
    (b"", 5, 5, Some(3), Err(ReadFault::Device)),
    (b"abc", 3, 5, None, Ok(b"abcde")),
    (b"abd", 3, 5, None, Err(ReadFault::TooLong)),
    (b"abc", 2, 4, None, Err(ReadFault::TooLong)),
];

/// The bytes are read by `read_all` too where both limits are one.
#[test]
fn bytes_are_read_to_the_end_or_up_to_the_limit(rt: HostRuntime) {
    for (number, (begin, limit, long, most, answer)) in READ.iter().enumerate() {
        let mut source = MemorySource::new(b"abcde", 2, *most);
        assert!(rt; !source.failed());
        let found = match read_by_begin(
            rt.alloc(),
            &mut source,
            begin,
            *limit,
            (*long).max(*limit),
        ) {
            Ok(bytes) => *answer == Ok(bytes.as_slice()),
            Err(fault) => *answer == Err(fault),
        };
        assert!(rt; found, "row {number}");
        assert_eq!(rt; source.failed(), most.is_some(), "row {number}");
        let mut other = MemorySource::new(b"abcde", 2, *most);
        if *limit == *long {
            assert!(rt;
                reads(rt.alloc(), &mut other, *limit, *answer),
                "row {number}"
            );
        }
    }
}

/// Gives one byte in each call, never ends, and counts the calls.
#[derive(Drop)]
struct Endless {
    calls: u64,
}

impl Source for Endless {
    ghost given = { λ _. None };

    ghost has_ended = { λ _. false };

    ghost has_failed = { λ _. false };

    fn get(&mut self, buffer: &mut [u8]) -> Result<usize, Refused> {
        self.calls = self.calls.saturating_add(1);
        buffer[0] = b'1';
        Ok(1)
    }

    fn failed(&self) -> bool {
        false
    }
}

/// `read_all` stops an endless source behind the first byte over its limit.
#[test]
fn read_all_asks_once_more_than_its_limit(rt: HostRuntime) {
    let mut source = Endless { calls: 0 };
    assert!(rt; reads(rt.alloc(), &mut source, 5, Err(ReadFault::TooLong)));
    assert_eq!(rt; source.calls, 6);
}

#[test]
fn readers_of_the_library_are_sources(rt: HostRuntime) {
    let mut source = StdSource::new(b"flow shop".as_slice());
    assert!(rt; !source.failed());
    assert!(rt; reads(rt.alloc(), &mut source, 100, Ok(b"flow shop")));
}

#[test]
fn writers_of_the_library_are_sinks(rt: HostRuntime) {
    let mut kept: Vec<u8> = Vec::new(rt.alloc());
    let mut sink = StdSink::new(&mut kept);
    assert!(rt; !sink.failed() && put_all(&mut sink, b"flow shop").is_ok() && !sink.failed());
    assert_eq!(rt; kept.as_slice(), b"flow shop".as_slice());
}

/// Gives its bytes in pieces, each after so many interrupted reads, and then ends or fails. It counts its reads.
#[derive(Drop)]
struct FakeReader<'a> {
    bytes: &'a [u8],
    piece: usize,
    interruptions: u32,
    interrupted: u32,
    fails: bool,
    reads: u32,
}

impl<'a> FakeReader<'a> {
    fn new(bytes: &'a [u8], piece: usize, interruptions: u32, fails: bool) -> FakeReader<'a> {
        FakeReader {
            bytes,
            piece,
            interruptions,
            interrupted: 0,
            fails,
            reads: 0,
        }
    }
}

impl<'a> Read for FakeReader<'a> {
    fn read(&mut self, buffer: &mut [u8]) -> io::Result<usize> {
        self.reads = self.reads.saturating_add(1);
        if self.interrupted < self.interruptions {
            self.interrupted += 1;
            return Err(io::Error::from(ErrorKind::Interrupted));
        }
        self.interrupted = 0;
        if self.fails && self.bytes.is_empty() {
            return Err(io::Error::from(ErrorKind::ConnectionReset));
        }
        let count = self.bytes.len().min(self.piece).min(buffer.len());
        let (given, rest) = self.bytes.split_at(count);
        buffer[..count].copy_from_slice(given);
        self.bytes = rest;
        Ok(count)
    }
}

/// Whether a source gives these bytes next.
fn gives<R: Read>(source: &mut StdSource<R>, bytes: &[u8]) -> bool {
    let mut buffer = [0u8; 4];
    match source.get(&mut buffer) {
        Ok(count) => buffer.get(..count) == Some(bytes),
        Err(_) => false,
    }
}

/// Whether a source refuses, and has not failed before.
fn refuses<R: Read>(source: &mut StdSource<R>) -> bool {
    let mut buffer = [0u8; 4];
    !source.failed() && source.get(&mut buffer) == Err(Refused) && source.failed()
}

/// A source reads on behind 999 interruptions of each read, three pieces and the end; and refuses behind 1,000.
#[test]
fn std_source_reads_again_where_it_was_interrupted(rt: HostRuntime) {
    let mut reader = FakeReader::new(b"flow shop", 3, 999, false);
    let mut source = StdSource::new(&mut reader);
    assert!(rt; gives(&mut source, b"flo") && !source.failed());
    assert!(rt; reads(rt.alloc(), &mut source, 100, Ok(b"w shop")));
    assert_eq!(rt; reader.reads, 4_000);
    let mut reader = FakeReader::new(b"flow shop", 3, 1_000, false);
    assert!(rt; refuses(&mut StdSource::new(&mut reader)));
    assert_eq!(rt; reader.reads, 1_000);
}

/// A source does not ask again once its reader has failed.
#[test]
fn std_source_refuses_where_its_reader_fails(rt: HostRuntime) {
    let mut reader = FakeReader::new(b"flow", 3, 0, true);
    let mut source = StdSource::new(&mut reader);
    assert!(rt; gives(&mut source, b"flo") && gives(&mut source, b"w") && refuses(&mut source));
    assert_eq!(rt; reader.reads, 3);
}

#[test]
fn read_all_names_the_fault_of_a_reader(rt: HostRuntime) {
    let mut source = StdSource::new(FakeReader::new(b"flow", 3, 0, true));
    assert!(rt; !source.failed());
    assert!(rt; reads(rt.alloc(), &mut source, 100, Err(ReadFault::Device)));
    assert!(rt; source.failed());
}

/// `count` bytes, each different from the one before it.
fn many_bytes(alloc: Global, count: u32) -> Result<Vec<u8>, AllocError> {
    (0..count).map(|index| (index % 251) as u8).collect(alloc)
}

/// The lengths of pieces.
static PIECES: [usize; 5] = [1, 1_000, 65_536, 65_537, 140_000];

#[test]
fn std_source_gives_every_piece(rt: HostRuntime) -> Result<(), AllocError> {
    let bytes = many_bytes(rt.alloc(), 140_000)?;
    for piece in &PIECES {
        let mut source = StdSource::new(FakeReader::new(bytes.as_slice(), *piece, 0, false));
        assert!(rt; !source.failed());
        assert!(rt;
            reads(rt.alloc(), &mut source, 140_000, Ok(bytes.as_slice())),
            "pieces of {piece}"
        );
        assert!(rt; !source.failed());
    }
    Ok(())
}

/// Keeps bytes in pieces, each after so many interrupted writes, and fails once it has as many as its limit. It counts
/// its writes.
#[derive(Drop)]
struct FakeWriter {
    bytes: Vec<u8>,
    piece: usize,
    interruptions: u32,
    interrupted: u32,
    limit: usize,
    writes: u32,
}

impl FakeWriter {
    fn new(alloc: Global, piece: usize, interruptions: u32, limit: usize) -> FakeWriter {
        FakeWriter {
            bytes: Vec::new(alloc),
            piece,
            interruptions,
            interrupted: 0,
            limit,
            writes: 0,
        }
    }
}

impl Write for FakeWriter {
    fn write(&mut self, bytes: &[u8]) -> io::Result<usize> {
        self.writes = self.writes.saturating_add(1);
        if self.interrupted < self.interruptions {
            self.interrupted += 1;
            return Err(io::Error::from(ErrorKind::Interrupted));
        }
        self.interrupted = 0;
        let room = self.limit.saturating_sub(self.bytes.len());
        if room == 0 {
            return Err(io::Error::from(ErrorKind::StorageFull));
        }
        let count = bytes.len().min(self.piece).min(room);
        if self.bytes.extend_from_slice(&bytes[..count]).is_err() {
            return Err(io::Error::from(ErrorKind::OutOfMemory));
        }
        Ok(count)
    }

    fn flush(&mut self) -> io::Result<()> {
        Ok(())
    }
}

/// Interruptions of each write, bytes in a write, bytes in all; the bytes kept, and the number of writes.
type Written = (u32, usize, usize, &'static [u8], u32);

static WRITTEN: [Written; 7] = [
    (0, 100, 100, b"flow shop", 1),
    (0, 1, 100, b"flow shop", 9),
    (999, 4, 100, b"flow shop", 3_000),
    (1_000, 4, 100, b"", 1_000),
    (0, 0, 100, b"", 1),
    (0, 2, 5, b"flow ", 4),
    (0, 9, 0, b"", 1),
];

/// A sink over a writer puts nine bytes.
#[test]
fn std_sink_writes_again_until_its_writer_refuses(rt: HostRuntime) {
    for (number, (interruptions, piece, limit, kept, writes)) in WRITTEN.iter().enumerate() {
        let is_whole = kept.len() == 9;
        let mut writer = FakeWriter::new(rt.alloc(), *piece, *interruptions, *limit);
        let mut sink = StdSink::new(&mut writer);
        assert!(rt; !sink.failed());
        assert_eq!(rt;
            put_all(&mut sink, b"flow shop").is_ok(),
            is_whole,
            "row {number}"
        );
        assert_eq!(rt; sink.failed(), !is_whole, "row {number}");
        assert_eq!(rt;
            (writer.bytes.as_slice(), writer.writes),
            (*kept, *writes),
            "row {number}"
        );
    }
}
