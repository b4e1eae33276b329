//! The lines on standard error.

use crate::refusal::Stop;
use flow_commands::CommandFault;
use flow_core::SequenceFault;
use std::alloc::Global;

/// Why the program stopped, and the line on standard error.
static STOPS: [(Stop, &str); 5] = [
    (Stop::CommandLine, "refused command line"),
    (Stop::Memory, "refused memory"),
    (Stop::Open, "failed open"),
    (Stop::Fault(CommandFault::Memory), "refused memory"),
    (
        Stop::Fault(CommandFault::Sequence(SequenceFault::Twice(2))),
        "refused sequence Twice 2",
    ),
];

/// Whether this is the line of a stop.
pub(crate) fn is_line(alloc: Global, stop: Stop, line: &str) -> bool {
    match format!(in alloc; "{stop}") {
        Ok(text) => text.as_str() == line,
        Err(_) => false,
    }
}

#[test]
fn stops_are_printed_as_their_lines(rt: HostRuntime) {
    for (stop, line) in &STOPS {
        assert!(rt; is_line(rt.alloc(), *stop, line), "{line}");
    }
}
