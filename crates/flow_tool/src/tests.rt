//! The tests of the program.

mod dispatch;
mod files;
mod invocations;
mod lines;
mod refusal;
