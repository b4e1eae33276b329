//! The permutation flow shop under one name: limits, instances and bounds, the generator, bytes and texts. Each item is
//! one of flow_limits, flow_shop, flow_generator or flow_text.
//!
//! - `instance.rt`: faults of instances.
//! - `row.rt`: rows.
//! - `sequence.rt`: faults of sequences.
//! - `bytes.rt`: the module of faults of devices.
//! - `bytes/fault.rt`: faults of devices.
//! - `text.rt`: the modules of blocks, of faults and of starts.
//! - `text/block.rt`: blocks.
//! - `text/fault.rt`: faults of texts.
//! - `text/pick.rt`: blocks that an index names, and why it names none.
//! - `text/start.rt`: what a start text says, and its faults.
#![tactic(auto)]

pub mod bytes;
pub mod instance;
pub mod row;
pub mod sequence;
pub mod text;

pub use flow_generator::{Taillard, generate};
pub use flow_limits::{
    MAX_BUDGET, MAX_CERTIFICATE, MAX_DEPTH, MAX_DIRECTIONS, MAX_JOBS, MAX_MACHINES, MAX_NUMBER,
    MAX_PREFIXES, MAX_ROUNDS, MAX_SEED, MAX_TEXT, MAX_TIME, MAX_VERSION, MAX_WIDTH, MAX_WORK,
    MAX_WORKERS, MIN_VERSION, limits_are_those_stated,
};
pub use flow_shop::{
    End, Front, Instance, InstanceFault, JobSet, Row, Sequence, SequenceFault, bound_is_admissible,
    completion_by_recurrence, completion_is_greatest, directions_are_one, directions_are_sound,
    end_bound_is_admissible, end_bound_is_exact, ends_by_recurrence, front_push,
    instances_have_no_fault, least_makespan_is_one, makespan, released_bound_is_admissible,
    released_bound_is_stronger, rows, sequences_have_no_fault,
};
pub use flow_text::{
    Block, Claim, MemorySink, MemorySource, Pick, PickFault, ReadFault, Refused, Sink, Source,
    Start, StartFault, StdSink, StdSource, TextFault, WriteFault, block_text, each_index_is_judged,
    each_start_is_judged, pick_block, put_all, read_all, read_blocks, read_by_begin, read_start,
    texts_have_no_fault,
};
