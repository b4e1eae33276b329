//! The commands, over sources and sinks: each reads what it needs, and writes its output or refuses by its first fault.
//!
//! Each command has a file of its word, and what it answers is said in the file of that name in `specs/`. (`gen` is a
//! word of the language, so its files are `generate`.) What it is asked for stands in flow_requests.
//!
//! - `request.rt`: one call for all commands that read a block.
//! - `command.rt`: what all commands have in common.
//! - `files.rt`: the files that a command reads.
//! - `block.rt`: the block of a benchmark text that an index names.
//! - `start.rt`: the starting sequence that a start text gives.
//! - `certify.rt`: `certify`.
//! - `proof.rt`: how the proof that it writes is kept and written.
//! - `check.rt`: `check`.
//! - `report.rt`: the report of `check`.
//! - `signs.rt`: `signs`.
//! - `schedule.rt`: `schedule`.
//! - `timed.rt`: the sequence that a text gives to `schedule`.
//! - `solve.rt`: `solve`.
//! - `improve.rt`: `improve`.
//! - `neh.rt`: `neh`.
//! - `span.rt`: `span`.
//! - `generate.rt`: `gen`.
//! - `workers.rt`: the number of workers that is asked for.
//! - `printed.rt`: the lines that commands print.
//! - `refusals.rt`: why a command refused, and the words of the line that says so.
//! - `laws.rt`: laws of the definitions.
#![tactic(auto)]

mod block;
mod certify;
mod check;
mod command;
mod files;
mod generate;
mod improve;
mod laws;
mod neh;
mod printed;
mod proof;
mod refusals;
mod report;
mod request;
mod schedule;
mod signs;
mod solve;
mod span;
mod start;
mod timed;
mod workers;

pub use check::run_check;
pub use flow_improve::EffortFault;
pub use flow_requests::{
    CertifyRequest, CheckOutput, CheckRequest, ImproveRequest, ProofForm, Request, ScheduleForm,
    SecondFile, SolveRequest,
};
pub use flow_workers::{News, Unwatched, Watch};
pub use generate::run_gen;
pub use laws::{each_start_gives_one, report_states_lengths};
pub use neh::run_neh;
pub use refusals::{CommandFault, ToolFault};
pub use request::{Means, run_request};
pub use solve::run_solve;
pub use span::run_span;
