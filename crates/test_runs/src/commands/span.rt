//! What `span` writes and refuses.

use super::endless::Endless;
use super::texts::TWO_MACHINES;
use super::{ROOM, Wanted, all_of, comes_to};
use flow_commands::{CommandFault, run_span};
use flow_core::{MemorySink, ReadFault, SequenceFault};
use std::alloc::Global;

/// Ten times the block with two machines.
const TEN_ALIKE: &[u8] = b"a\n3 2 0 0 0\nb\n3 1 2\n2 4 2\na\n3 2 0 0 0\nb\n3 1 2\n2 4 2\n\
a\n3 2 0 0 0\nb\n3 1 2\n2 4 2\na\n3 2 0 0 0\nb\n3 1 2\n2 4 2\na\n3 2 0 0 0\nb\n3 1 2\n2 4 2\n\
a\n3 2 0 0 0\nb\n3 1 2\n2 4 2\na\n3 2 0 0 0\nb\n3 1 2\n2 4 2\na\n3 2 0 0 0\nb\n3 1 2\n2 4 2\n\
a\n3 2 0 0 0\nb\n3 1 2\n2 4 2\na\n3 2 0 0 0\nb\n3 1 2\n2 4 2\n";

/// A text, an index and jobs; and what is written, or the fault.
type Row = (&'static [u8], u32, &'static [u16], Wanted);

static ROWS: [Row; 8] = rows! {
    TWO_MACHINES, 1, &[2, 3, 1], Ok(b"makespan 9\n");
    TWO_MACHINES, 1, &[2, 2, 1], Err(CommandFault::Sequence(SequenceFault::Twice(2)));
    TWO_MACHINES, 1, &[2, 3], Err(CommandFault::Sequence(SequenceFault::Length));
    TWO_MACHINES, 1, &[0, 1, 2], Err(CommandFault::Sequence(SequenceFault::Job(1)));
    TWO_MACHINES, 2, &[2, 3, 1], Err(CommandFault::Index);
    TEN_ALIKE, 10, &[2, 3, 1], Ok(b"makespan 9\n");
    TEN_ALIKE, 11, &[2, 3, 1], Err(CommandFault::Index);
    TEN_ALIKE, 0, &[2, 3, 1], Err(CommandFault::Index);
};

/// Whether `span` comes to what a row says.
fn holds(alloc: Global, row: &Row) -> bool {
    let (text, index, jobs, wanted) = *row;
    let mut out = MemorySink::new(alloc, ROOM);
    let ran = run_span(alloc, &mut all_of(text), index, jobs, &mut out);
    comes_to(ran, &out, wanted)
}

#[test]
fn span_writes_the_makespan(rt: HostRuntime) {
    for (number, row) in ROWS.iter().enumerate() {
        assert!(rt; holds(rt.alloc(), row), "row {number}");
    }
}

#[test]
fn span_stops_an_endless_source(rt: HostRuntime) {
    let mut out = MemorySink::new(rt.alloc(), ROOM);
    let mut file = Endless::new();
    let ran = run_span(rt.alloc(), &mut file, 1, &[1], &mut out);
    assert!(rt; comes_to(ran, &out, Err(CommandFault::Read(ReadFault::TooLong))));
    // One piece more than 256 make the limit of 16,777,216 bytes.
    assert_eq!(rt; file.given, 257 * 65_536);
}
