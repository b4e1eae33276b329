//! Benchmark text, start text, sinks and sources.

use crate::groups::refused_where;
use flow_commands::CommandFault;
use flow_core::{
    Claim, Instance, MemorySink, MemorySource, PickFault, Sink, block_text, put_all, read_all,
    read_blocks, read_start,
};
use std::alloc::Global;
use test_libraries::TWO_MACHINES_TEXT;

/// `read_blocks` and `block_text` of the instance with two machines.
pub(crate) fn text_is_read(alloc: Global, two: &Instance) -> Result<bool, CommandFault> {
    let blocks = match read_blocks(alloc, TWO_MACHINES_TEXT) {
        Ok(blocks) => blocks,
        Err(fault) => return Err(CommandFault::from(PickFault::from(fault))),
    };
    let [block] = blocks.as_slice() else {
        return Ok(false);
    };
    let text = block_text(alloc, block)?;
    Ok(block.instance == *two && text.as_slice() == TWO_MACHINES_TEXT)
}

/// What a start text claims.
const CLAIM: Claim = Claim {
    makespan: 9,
    line: 2,
};

/// `read_start`.
pub(crate) fn start_is_read(alloc: Global) -> Result<bool, CommandFault> {
    let start = read_start(alloc, b"sequence 2 3 1\nmakespan 9\n")?;
    Ok(start.jobs.as_slice() == [2, 3, 1].as_slice() && start.claim == Some(CLAIM))
}

/// `read_all`.
pub(crate) fn source_is_read(alloc: Global) -> Result<bool, CommandFault> {
    let mut source = MemorySource::new(TWO_MACHINES_TEXT, 7, None);
    let bytes = read_all(alloc, &mut source, TWO_MACHINES_TEXT.len())?;
    Ok(bytes.as_slice() == TWO_MACHINES_TEXT)
}

/// `put` of a sink in memory, by `put_all`. Where it fails, memory ran out, since the sink has room.
pub(crate) fn sink_takes_all(alloc: Global) -> Result<bool, CommandFault> {
    let mut sink = MemorySink::new(alloc, 1_000);
    let first = put_all(&mut sink, b"flow ");
    if first.is_err() || sink.failed() {
        return refused_where(sink.bytes().is_empty());
    }
    if put_all(&mut sink, TWO_MACHINES_TEXT).is_err() {
        return refused_where(sink.bytes() == b"flow ".as_slice());
    }
    Ok(sink.bytes().starts_with(b"flow ") && sink.bytes().ends_with(TWO_MACHINES_TEXT))
}
