//! The lines on standard error that no run of the program shows in the other tests.

use flow_commands::CommandFault;
use flow_core::TextFault;
use flow_pool::SolveFault;
use std::alloc::Global;

/// Faults, and the line on standard error for each.
static FAULT_LINES: [(CommandFault, &str); 2] = rows! {
    CommandFault::Text(TextFault::Byte(2)), "refused text Byte 2";
    CommandFault::Run(SolveFault::Threads), "refused run Threads";
};

/// Whether a fault is printed as its line.
fn is_printed(alloc: Global, row: &(CommandFault, &str)) -> bool {
    match format!(in alloc; "{}", row.0) {
        Ok(text) => text.as_str() == row.1,
        Err(_) => false,
    }
}

#[test]
fn faults_are_printed_as_their_lines(rt: HostRuntime) {
    for (number, row) in FAULT_LINES.iter().enumerate() {
        assert!(rt; is_printed(rt.alloc(), row), "row {number}");
    }
}
