//! Bytes that are gathered before a sink takes them.

ghost use Rattle.std.specs.Prelude.{◌≡◌, ℕ, ◌+◌, ◌≤◌, false, List, [], ◌++◌, length, take, decimal, is_err};
ghost use Rattle.std.specs.Prelude.{OnOk, OnErr};
ghost use Rattle.std.specs.Io.KnownBytes.{Appends};
ghost use Rattle.flow_text.specs.Bytes.{AddsProperPrefix};
ghost use Rattle.flow_check.specs.TextLines.{line, spaced};
ghost use Rattle.flow_cert.specs.internal.Gathered.{HandsOn};
ghost use Rattle.flow_cert.specs.internal.HeadingText.{bounds_line};

use flow_check::Bounds;
use flow_text::{Sink, WriteFault, put_all};
use itoa::Buffer;
use std::marker::Model;

/// How many bytes are gathered at most.
const ROOM: usize = 65_536;

/// Bytes that no sink has taken yet.
#[derive(Drop)]
pub(crate) struct Gathered {
    bytes: [u8; ROOM],
    count: usize,
}

impl Model for Gathered {
    ghost use Rattle.std.specs.Prelude.{List, ℕ, ◌≤◌, take};
    ghost use Rattle.flow_cert.specs.declared.gathered.TheConstants.{ROOM};

    ghost Value = { List ℕ };

    ghost view = { λ g. take g.count g.bytes };

    ghost invariant = { λ g. g.count ≤ ROOM };
}

impl Gathered {
    /// No bytes.
    pub(crate) fn none() -> Gathered
        ensures { result ≡ [] }
    {
        Gathered {
            bytes: [0; ROOM],
            count: 0,
        }
    }

    /// Gathers bytes, where there is room for them.
    fn keep(&mut self, bytes: &[u8])
        requires { length self.old + length bytes.now ≤ ROOM }
        ensures { self.new ≡ self.old ++ bytes.now }
    {
        let end = self.count + bytes.len();
        self.bytes[self.count..end].copy_from_slice(bytes);
        self.count = end;
    }

    /// Puts all gathered bytes into the sink.
    pub(crate) fn put<S: Sink>(&mut self, out: &mut S) -> Result<(), WriteFault>
        requires { S.has_failed out.old ≡ false }
        ensures failed { S.has_failed out.new ≡ is_err result }
        ensures ok { OnOk result (Appends (S.taken out.old) (S.taken out.new) self.old) }
        ensures none { OnOk result (self.new ≡ []) }
        ensures err { OnErr result (AddsProperPrefix (S.taken out.old) (S.taken out.new) self.old) }
    {
        put_all(out, &self.bytes[..self.count])?;
        self.count = 0;
        Ok(())
    }

    /// Adds bytes. Where there is no room for them, the gathered bytes are put into the sink first. More bytes than can
    /// be gathered are put without a copy.
    pub(crate) fn add<S: Sink>(&mut self, out: &mut S, bytes: &[u8]) -> Result<(), WriteFault>
        requires { S.has_failed out.old ≡ false }
        ensures failed { S.has_failed out.new ≡ is_err result }
        ensures ok { OnOk result (HandsOn (S.taken out.old) (S.taken out.new) self.old bytes.now self.new) }
        ensures err { OnErr result (AddsProperPrefix (S.taken out.old) (S.taken out.new) (self.old ++ bytes.now)) }
    {
        if bytes.len() <= ROOM - self.count {
            self.keep(bytes);
            return Ok(());
        }
        self.put(out)?;
        if bytes.len() <= ROOM {
            self.keep(bytes);
            return Ok(());
        }
        put_all(out, bytes)
    }

    /// Adds a number, in decimal.
    pub(crate) fn add_number<S: Sink>(&mut self, out: &mut S, number: u64) -> Result<(), WriteFault>
        requires { S.has_failed out.old ≡ false }
        ensures failed { S.has_failed out.new ≡ is_err result }
        ensures ok { OnOk result (HandsOn (S.taken out.old) (S.taken out.new) self.old (decimal number) self.new) }
        ensures err { OnErr result (AddsProperPrefix (S.taken out.old) (S.taken out.new) (self.old ++ decimal number)) }
    {
        let mut buffer = Buffer::new();
        self.add(out, buffer.format(number).as_bytes())
    }

    /// Adds a line of numbers.
    pub(crate) fn add_numbers<S: Sink>(
        &mut self,
        out: &mut S,
        numbers: &[u16],
    ) -> Result<(), WriteFault>
        requires { S.has_failed out.old ≡ false }
        ensures failed { S.has_failed out.new ≡ is_err result }
        ensures ok { OnOk result
            (HandsOn (S.taken out.old) (S.taken out.new) self.old (line (spaced numbers.now)) self.new) }
        ensures err { OnErr result
            (AddsProperPrefix (S.taken out.old) (S.taken out.new) (self.old ++ line (spaced numbers.now))) }
    {
        let mut gap: &[u8] = b"";
        for number in numbers {
            self.add(out, gap)?;
            self.add_number(out, u64::from(*number))?;
            gap = b" ";
        }
        self.add(out, b"\n")
    }

    /// Adds the line of a value.
    pub(crate) fn add_value<S: Sink>(&mut self, out: &mut S, value: u64) -> Result<(), WriteFault>
        requires { S.has_failed out.old ≡ false }
        ensures failed { S.has_failed out.new ≡ is_err result }
        ensures ok { OnOk result
            (HandsOn (S.taken out.old) (S.taken out.new) self.old (line (decimal value)) self.new) }
        ensures err { OnErr result
            (AddsProperPrefix (S.taken out.old) (S.taken out.new) (self.old ++ line (decimal value))) }
    {
        self.add_number(out, value)?;
        self.add(out, b"\n")
    }

    /// Adds the line of two bounds.
    pub(crate) fn add_bounds<S: Sink>(
        &mut self,
        out: &mut S,
        bounds: Bounds,
    ) -> Result<(), WriteFault>
        requires { S.has_failed out.old ≡ false }
        ensures failed { S.has_failed out.new ≡ is_err result }
        ensures ok { OnOk result
            (HandsOn (S.taken out.old) (S.taken out.new) self.old (bounds_line bounds) self.new) }
        ensures err { OnErr result
            (AddsProperPrefix (S.taken out.old) (S.taken out.new) (self.old ++ bounds_line bounds)) }
    {
        self.add_number(out, bounds.lower)?;
        self.add(out, b" ")?;
        self.add_value(out, bounds.upper)
    }
}
