//! The starting sequence.

mod insertion;
pub(crate) mod insertion_room;
mod job_order;
pub(crate) mod neh;
