//! The words of the command line, and what they ask for. What is done is not known here.
//!
//! - `grammar.rt`: the grammar: each command with its words.
//! - `requests.rt`: how words become a request.
#![tactic(auto)]

mod grammar;
mod requests;

pub use grammar::make_command;
pub use requests::invocation_of;
