//! A sink and a source in memory.

ghost use Rattle.std.specs.Prelude.{◌≡◌, ◌+◌, ◌-◌, ◌<◌, ◌≤◌, ◌↔◌, [], length, take, min, false, Some, IsErr, IfOk};
ghost use Rattle.std.specs.Prelude.{is_err, ◌||◌};
ghost use Rattle.std.specs.Io.KnownBytes.{WriteAppends};
ghost use Rattle.std.specs.Option.{ForSome};
ghost use Rattle.flow_text.specs.Bytes.{is_end};

use crate::bytes::device::{Sink, Source};
use crate::bytes::fault::Refused;
use std::alloc::Global;
use std::marker::Model;

/// Keeps the bytes that are put into it. Refuses once it has as many as its limit, and where memory ran out.
#[derive(Debug, Drop)]
pub struct MemorySink {
    bytes: Vec<u8>,
    limit: usize,
    failed: bool,
}

impl Model for MemorySink {
    ghost use Rattle.std.specs.Prelude.{◌≤◌, length};
    ghost use Rattle.flow_text.specs.Devices.{BytesTaken};

    ghost Value = { BytesTaken };

    ghost view = { λ s. record { bytes = s.bytes.items; limit = s.limit; failed = s.failed } };

    ghost invariant = { λ s. length s.bytes.items ≤ s.limit };
}

impl MemorySink {
    /// An empty sink, which takes `limit` bytes in all.
    pub fn new(alloc: Global, limit: usize) -> MemorySink
        ensures { result ≡ record { bytes = []; limit = limit; failed = false } }
    {
        MemorySink {
            bytes: Vec::new(alloc),
            limit,
            failed: false,
        }
    }

    /// The bytes taken so far.
    pub fn bytes(&self) -> &[u8]
        ensures value { result.now ≡ self.now.bytes }
        ensures within { length self.now.bytes ≤ self.now.limit }
    {
        self.bytes.as_slice()
    }
}

impl Sink for MemorySink {
    ghost taken = { λ s. Some s.bytes };

    ghost has_failed = { λ s. s.failed };

    fn put(&mut self, bytes: &[u8]) -> Result<usize, Refused>
        requires { 0 < length bytes.now }
        ensures count { IfOk result (λ c. (1 ≤ c) × (c ≤ length bytes.now)) }
        ensures bytes { WriteAppends (Some self.old.bytes) (Some self.new.bytes) result bytes.now }
        ensures failed { self.new.failed ≡ (self.old.failed || is_err result) }
        ensures takes { IfOk result (λ c. c ≡ min (length bytes.now) (self.old.limit - length self.old.bytes)) }
        ensures full { length self.old.bytes ≡ self.old.limit → IsErr result }
        ensures limit { self.new.limit ≡ self.old.limit }
    {
        let room = self.limit - self.bytes.len();
        let count = bytes.len().min(room);
        if count == 0 || self.bytes.extend_from_slice(&bytes[..count]).is_err() {
            self.failed = true;
            return Err(Refused);
        }
        Ok(count)
    }

    fn failed(&self) -> bool {
        self.failed
    }
}

/// Gives the bytes of a slice in order, in pieces. It may refuse after some of them.
#[derive(Debug, Drop)]
pub struct MemorySource<'a> {
    bytes: &'a [u8],
    given: usize,
    piece: usize,
    fail_after: Option<usize>,
    ended: bool,
    failed: bool,
}

impl<'a> Model for MemorySource<'a> {
    ghost use Rattle.std.specs.Prelude.{◌≤◌, length};
    ghost use Rattle.std.specs.Option.{ForSome};
    ghost use Rattle.flow_text.specs.Devices.{BytesToGive};

    ghost Value = { BytesToGive };

    ghost view = { λ s. record {
      bytes = s.bytes.now;
      given = s.given;
      piece = s.piece;
      fail_after = s.fail_after;
      ended = s.ended;
      failed = s.failed;
    } };

    ghost invariant = { λ s. (s.given ≤ length s.bytes.now) × (1 ≤ s.piece)
        × ForSome s.fail_after (λ most. s.given ≤ most) };
}

impl<'a> MemorySource<'a> {
    /// A source of these bytes. In a call it gives at most `piece` of them, which is 1 or more. It refuses once it gave
    /// `fail_after` of them; with `None` it never refuses.
    pub fn new(bytes: &'a [u8], piece: usize, fail_after: Option<usize>) -> MemorySource<'a>
        requires { 1 ≤ piece }
        ensures { result ≡ record {
          bytes = bytes.entry.now;
          given = 0;
          piece = piece;
          fail_after = fail_after;
          ended = false;
          failed = false;
        } }
    {
        MemorySource {
            bytes,
            given: 0,
            piece,
            fail_after,
            ended: false,
            failed: false,
        }
    }
}

impl<'a> Source for MemorySource<'a> {
    ghost given = { λ s. Some (take s.given s.bytes) };

    ghost has_ended = { λ s. s.ended };

    ghost has_failed = { λ s. s.failed };

    fn get(&mut self, buffer: &mut [u8]) -> Result<usize, Refused>
        requires { 0 < length buffer.old }
        ensures count { IfOk result (λ c. c ≤ length buffer.old) }
        ensures bytes { WriteAppends (Some (take self.old.given self.old.bytes))
            (Some (take self.new.given self.new.bytes)) result buffer.new }
        ensures ended { self.new.ended ≡ is_end result }
        ensures failed { self.new.failed ≡ (self.old.failed || is_err result) }
        ensures refuses { IsErr result ↔ (self.old.fail_after ≡ Some self.old.given) }
        ensures untouched { IsErr result → buffer.new ≡ buffer.old }
        ensures ends { IfOk result (λ c. (c ≡ 0) ↔ (self.old.given ≡ length self.old.bytes)) }
        ensures piece { IfOk result (λ c. c ≤ self.old.piece) }
        ensures counts { IfOk result (λ c. self.new.given ≡ self.old.given + c) }
        ensures all { ForSome self.new.fail_after (λ most. self.new.given ≤ most) }
        ensures keeps { (self.new.bytes ≡ self.old.bytes) × (self.new.piece ≡ self.old.piece)
            × (self.new.fail_after ≡ self.old.fail_after) }
    {
        let room = match self.fail_after {
            Some(most) => most - self.given,
            None => usize::MAX,
        };
        if room == 0 {
            self.failed = true;
            self.ended = false;
            return Err(Refused);
        }
        let rest = &self.bytes[self.given..];
        let count = rest.len().min(self.piece).min(room).min(buffer.len());
        buffer[..count].copy_from_slice(&rest[..count]);
        self.given += count;
        self.ended = count == 0;
        Ok(count)
    }

    fn failed(&self) -> bool {
        self.failed
    }
}
