//! Tests at the limits: the most jobs and machines, the greatest times, and long trees. What they expect follows from
//! the definitions, or was computed by `bench/plain.rs`, which shares nothing with the crates; a comment says which.

mod directions;
mod equal_times;
mod letters;
mod long_trees;
mod many_prefixes;
mod searches;
mod texts;
mod written;
