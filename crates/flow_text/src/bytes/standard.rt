//! A sink over a writer of the standard library, and a source over a reader.

ghost use Rattle.std.specs.Prelude.{◌≡◌, ◌<◌, ◌≤◌, ◌||◌, false, None, length, IfOk, is_err};
ghost use Rattle.std.specs.Io.KnownBytes.{WriteAppends, ReadConsumes};
ghost use Rattle.flow_text.specs.Bytes.{is_end};

use crate::bytes::device::{Sink, Source};
use crate::bytes::fault::Refused;
use std::io::{ErrorKind, Read, Write};
use std::marker::Model;

/// How many times an interrupted read or write is tried before it is refused.
const TRIES: u32 = 1_000;

/// A sink over a writer. It refuses where a write takes no byte or fails. An interrupted write is tried again.
#[derive(Drop)]
pub struct StdSink<W> {
    writer: W,
    failed: bool,
}

impl<W> Model for StdSink<W> {
    ghost use Rattle.flow_text.specs.Devices.{Writing};
    ghost use Rattle.flow_text.specs.internal.Codes.{writing_code};

    ghost Value = { Writing W };

    ghost coded = { writing_code W.code };

    ghost view = { λ s. record { writer = s.writer; failed = s.failed } };
}

impl<W: Write> StdSink<W> {
    /// A sink over this writer.
    pub fn new(writer: W) -> StdSink<W>
        ensures { result ≡ record { writer = writer; failed = false } }
    {
        StdSink {
            writer,
            failed: false,
        }
    }
}

impl<W: Write> Sink for StdSink<W> {
    // What a file or a terminal keeps is not known.
    ghost taken = { λ _. None };

    ghost has_failed = { λ s. s.failed };

    fn put(&mut self, bytes: &[u8]) -> Result<usize, Refused>
        requires { 0 < length bytes.now }
        ensures count { IfOk result (λ c. (1 ≤ c) × (c ≤ length bytes.now)) }
        ensures bytes { WriteAppends None None result bytes.now }
        ensures failed { self.new.failed ≡ (self.old.failed || is_err result) }
        // Where the writer says what it holds, it took just these bytes.
        ensures written { WriteAppends (W.contents self.old.writer) (W.contents self.new.writer) result bytes.now }
    {
        for _ in 0..TRIES {
            match self.writer.write(bytes) {
                Ok(0) => break,
                Ok(count) => return Ok(count),
                Err(error) => {
                    if error.kind() != ErrorKind::Interrupted {
                        break;
                    }
                }
            }
        }
        self.failed = true;
        Err(Refused)
    }

    fn failed(&self) -> bool {
        self.failed
    }
}

/// A source over a reader. It refuses where a read fails. An interrupted read is tried again.
#[derive(Drop)]
pub struct StdSource<R> {
    reader: R,
    ended: bool,
    failed: bool,
}

impl<R> Model for StdSource<R> {
    ghost use Rattle.flow_text.specs.Devices.{Reading};
    ghost use Rattle.flow_text.specs.internal.Codes.{reading_code};

    ghost Value = { Reading R };

    ghost coded = { reading_code R.code };

    ghost view = { λ s. record { reader = s.reader; ended = s.ended; failed = s.failed } };
}

impl<R: Read> StdSource<R> {
    /// A source over this reader.
    pub fn new(reader: R) -> StdSource<R>
        ensures { result ≡ record { reader = reader; ended = false; failed = false } }
    {
        StdSource {
            reader,
            ended: false,
            failed: false,
        }
    }
}

impl<R: Read> Source for StdSource<R> {
    // What a file or a terminal holds is not known.
    ghost given = { λ _. None };

    ghost has_ended = { λ s. s.ended };

    ghost has_failed = { λ s. s.failed };

    fn get(&mut self, buffer: &mut [u8]) -> Result<usize, Refused>
        requires { 0 < length buffer.old }
        ensures count { IfOk result (λ c. c ≤ length buffer.old) }
        ensures bytes { WriteAppends None None result buffer.new }
        ensures ended { self.new.ended ≡ is_end result }
        ensures failed { self.new.failed ≡ (self.old.failed || is_err result) }
        // Where the reader says what it has left, it gave just these bytes.
        ensures read { ReadConsumes (R.remaining self.old.reader) (R.remaining self.new.reader) result buffer.new }
    {
        for _ in 0..TRIES {
            match self.reader.read(buffer) {
                Ok(count) => {
                    self.ended = count == 0;
                    return Ok(count);
                }
                Err(error) => {
                    if error.kind() != ErrorKind::Interrupted {
                        break;
                    }
                }
            }
        }
        self.failed = true;
        self.ended = false;
        Err(Refused)
    }

    fn failed(&self) -> bool {
        self.failed
    }
}
