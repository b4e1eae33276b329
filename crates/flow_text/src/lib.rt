//! What a flow shop program reads and writes: sinks and sources of bytes, benchmark text and start text.
//!
//! - `bytes.rt`: the module of sinks and sources.
//! - `bytes/device.rt`: sinks take bytes, and sources give them.
//! - `bytes/fault.rt`: what can go wrong between a program and a device.
//! - `bytes/all_bytes.rt`: calls that write all bytes, and that read all bytes.
//! - `bytes/memory.rt`: a sink and a source in memory.
//! - `bytes/standard.rt`: a sink over a writer of the standard library, and a source over a reader.
//! - `text.rt`: the module of benchmark text and start text.
//! - `text/block.rt`: a block of benchmark text.
//! - `text/fault.rt`: what can be wrong with a text.
//! - `text/line.rt`: one line of a text.
//! - `text/line_kinds.rt`: how each kind of line is read, and which fault it has.
//! - `text/progress.rt`: what was read of a text so far.
//! - `text/read.rt`: a whole text.
//! - `text/pick.rt`: the block that an index names.
//! - `text/write.rt`: how a block is written.
//! - `text/start.rt`: start text.
//! - `laws.rt`: laws of the definitions.
#![tactic(auto)]

mod bytes;
mod laws;
mod text;

pub use bytes::{
    MemorySink, MemorySource, ReadFault, Refused, Sink, Source, StdSink, StdSource, WriteFault,
    put_all, read_all, read_by_begin,
};
pub use laws::{each_index_is_judged, each_start_is_judged, texts_have_no_fault};
pub use text::{
    Block, Claim, Pick, PickFault, Start, StartFault, TextFault, block_text, pick_block,
    read_blocks, read_start,
};
