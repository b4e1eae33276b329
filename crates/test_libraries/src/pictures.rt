//! Tests of the timetable, its table and its picture. What they expect was worked out by hand.

mod greatest;
mod worked;
