//! The timetable of a sequence: as operations, as a CSV table, and as a picture.
//!
//! - `operations.rt`: when each job of a sequence starts and ends on each machine.
//! - `table.rt`: the timetable as a CSV table.
//! - `path.rt`: a heaviest staircase path of a sequence.
//! - `scale.rt`: where times and machines stand on the picture.
//! - `colours.rt`: the colours of the bars, and of the numbers on them.
//! - `bar.rt`: the bar of an operation.
//! - `axis.rt`: the time axis.
//! - `picture_head.rt`: the head of a picture.
//! - `picture.rt`: the picture.
//! - `text.rt`: words and numbers at the end of a text.
//! - `laws.rt`: laws of the definitions.
#![tactic(auto)]

mod axis;
mod bar;
mod colours;
mod laws;
mod operations;
mod path;
mod picture;
mod picture_head;
mod scale;
mod table;
mod text;

pub use laws::operation_starts_when_free;
pub use operations::{Operation, timetable};
pub use picture::timetable_picture;
pub use table::timetable_csv;
