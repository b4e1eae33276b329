//! What `neh` writes.

use super::texts::{FOUR_MACHINES, THREE_MACHINES};
use super::{ROOM, Wanted, all_of, comes_to};
use flow_commands::run_neh;
use flow_core::MemorySink;
use std::alloc::Global;

/// A text, and what is written. The sequences were worked out apart from the program.
static ROWS: [(&[u8], Wanted); 2] = rows! {
    THREE_MACHINES, Ok(b"sequence 2 1 3\nmakespan 13\n");
    FOUR_MACHINES, Ok(b"sequence 7 1 2 5 8 3 4 9 6\nmakespan 745\n");
};

/// Whether `neh` comes to what a row says.
fn holds(alloc: Global, row: &(&[u8], Wanted)) -> bool {
    let (text, wanted) = *row;
    let mut out = MemorySink::new(alloc, ROOM);
    let ran = run_neh(alloc, &mut all_of(text), 1, &mut out);
    comes_to(ran, &out, wanted)
}

#[test]
fn neh_writes_the_starting_sequence(rt: HostRuntime) {
    for (number, row) in ROWS.iter().enumerate() {
        assert!(rt; holds(rt.alloc(), row), "row {number}");
    }
}
