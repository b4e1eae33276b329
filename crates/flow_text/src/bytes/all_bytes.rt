//! Calls that write all bytes, and that read all bytes.

ghost use Rattle.std.specs.Prelude.{◌≡◌, ◌≤◌, ◌↔◌, ◌++◌, false, true, [], vec_len};
ghost use Rattle.std.specs.Prelude.{IfOk, OnOk, OnErr, IsErr, IsErrOf};
ghost use Rattle.std.specs.Io.KnownBytes.{Appends};
ghost use Rattle.flow_shop.specs.Sequences.{Extends};
ghost use Rattle.flow_text.specs.Bytes.{Adds, AddsProperPrefix, Grows, GrowsWithin, GrowsBeyond, IsWithinBy};

use crate::bytes::device::{Sink, Source};
use crate::bytes::fault::{ReadFault, WriteFault};
use std::alloc::Global;

/// The most bytes that one call of a source is asked for.
const PIECE: usize = 65_536;

/// Writes all bytes. `Device` where the sink refused; then it took a proper prefix.
pub fn put_all<S: Sink>(sink: &mut S, bytes: &[u8]) -> Result<(), WriteFault>
    requires { S.has_failed sink.old ≡ false }
    ensures device { IsErr result ↔ (S.has_failed sink.new ≡ true) }
    ensures ok { OnOk result (Appends (S.taken sink.old) (S.taken sink.new) bytes.now) }
    ensures err { OnErr result (AddsProperPrefix (S.taken sink.old) (S.taken sink.new) bytes.now) }
    ensures nothing { bytes.now ≡ [] → sink.new ≡ sink.old }
{
    let mut done = 0;
    while done < bytes.len() {
        match sink.put(&bytes[done..]) {
            Ok(count) => done += count,
            Err(_) => return Err(WriteFault::Device),
        }
    }
    Ok(())
}

/// All bytes that a source gives up to its end. `Device` where the source refused, `TooLong` where it gave more bytes
/// than the limit, `Memory` where memory ran out. It calls the source at most `limit + 1` times.
pub fn read_all<S: Source>(
    alloc: Global,
    source: &mut S,
    limit: usize,
) -> Result<Vec<u8>, ReadFault>
    requires { S.has_failed source.old ≡ false }
    ensures within { IfOk result (λ v. vec_len v ≤ limit) }
    ensures bytes { IfOk result (λ v. Appends (S.given source.old) (S.given source.new) v.items) }
    ensures ended { OnOk result (S.has_ended source.new ≡ true) }
    ensures memory { IsErrOf result ReadFault.Memory → GrowsWithin (S.given source.old) (S.given source.new) limit }
    ensures too_long { IsErrOf result ReadFault.TooLong → GrowsBeyond (S.given source.old) (S.given source.new) limit }
    ensures device { IsErrOf result ReadFault.Device ↔ (S.has_failed source.new ≡ true) }
    ensures stands { Grows (S.given source.old) (S.given source.new) }
{
    read_by_begin(alloc, source, &[], limit, limit)
}

/// All bytes that a source gives up to its end, within a limit by how they begin: at most `long` bytes where they begin
/// with `begin`, and else at most `limit`. `Device` where the source refused, `TooLong` where it gave more bytes,
/// `Memory` where memory ran out. It calls the source at most `long + 1` times.
pub fn read_by_begin<S: Source>(
    alloc: Global,
    source: &mut S,
    begin: &[u8],
    limit: usize,
    long: usize,
) -> Result<Vec<u8>, ReadFault>
    requires works { S.has_failed source.old ≡ false }
    requires longer { limit ≤ long }
    ensures within { IfOk result (λ v. IsWithinBy begin.now limit long v.items) }
    ensures bytes { IfOk result (λ v. Appends (S.given source.old) (S.given source.new) v.items) }
    ensures ended { OnOk result (S.has_ended source.new ≡ true) }
    ensures memory { IsErrOf result ReadFault.Memory →
        Adds (IsWithinBy begin.now limit long) (S.given source.old) (S.given source.new) }
    ensures too_long { IsErrOf result ReadFault.TooLong →
        Adds (λ bytes. ¬ IsWithinBy begin.now limit long bytes) (S.given source.old) (S.given source.new) }
    ensures device { IsErrOf result ReadFault.Device ↔ (S.has_failed source.new ≡ true) }
    ensures stands { Grows (S.given source.old) (S.given source.new) }
{
    let mut all = Vec::new(alloc);
    let mut buffer = [0u8; PIECE];
    'calls: loop {
        let count = match source.get(&mut buffer) {
            Ok(count) => count,
            Err(_) => return Err(ReadFault::Device),
        };
        if count == 0 {
            return Ok(all);
        }
        let piece = &buffer[..count];
        if !may_come(all.as_slice(), piece, begin, limit, long) {
            return Err(ReadFault::TooLong);
        }
        all.extend_from_slice(piece)?;
    }
}

/// Whether so many bytes may have come, with those that come next.
fn may_come(all: &[u8], next: &[u8], begin: &[u8], limit: usize, long: usize) -> bool
    requires within { IsWithinBy begin.now limit long all.now }
    requires longer { limit ≤ long }
    ensures yes { result ≡ true → IsWithinBy begin.now limit long (all.now ++ next.now) }
    ensures no { result ≡ false → ¬ IsWithinBy begin.now limit long (all.now ++ next.now) }
{
    let most = if begin_so(all, next, begin) {
        long
    } else {
        limit
    };
    next.len() <= most - all.len()
}

/// Whether bytes begin so, with those that come next.
fn begin_so(all: &[u8], next: &[u8], begin: &[u8]) -> bool
    ensures yes { result ≡ true → Extends (all.now ++ next.now) begin.now }
    ensures no { result ≡ false → ¬ Extends (all.now ++ next.now) begin.now }
{
    let (front, back) = begin.split_at(all.len().min(begin.len()));
    all.starts_with(front) && next.starts_with(back)
}
