//! Lines that a thread of their own writes to standard error, so that a run never waits for whoever reads them.

use crossbeam_channel::{Receiver, Sender, bounded};
use std::alloc::Global;
use std::fmt::Display;
use std::rt::Clock;
use std::sync::Wait;
use std::thread;
use std::thread::Threads;
use std::time::Duration;

/// How many lines wait at most, beside the one that is being written.
const MOST_WAITING: usize = 4;

/// How long the end of a run waits for its last lines, in seconds.
const PATIENCE: u64 = 1;

/// Lines for standard error, and the thread that writes them.
#[derive(Drop)]
pub(crate) struct Lines<L> {
    waiting: Sender<L, Global>,
    /// No message comes here. It is closed once the thread has written the last line.
    written: Receiver<(), Global>,
}

impl<L: Display + Send + Drop + 'static> Lines<L> {
    /// Starts the thread. None where there is no memory or no thread for it.
    pub(crate) fn start<R: Threads + Wait + Eprint + Copy + Send + Drop + 'static>(
        rt: R,
        alloc: Global,
    ) -> Option<Lines<L>> {
        let (waiting, lines) = bounded::<L, Global>(alloc, MOST_WAITING).ok()?;
        let (writing, written) = bounded::<(), Global>(alloc, 1).ok()?;
        let writer = move || {
            for line in lines.iter(&rt) {
                // Where standard error refuses a line, the next one may still pass.
                drop(eprintln!(&rt; "{line}"));
            }
            drop(writing);
        };
        drop(thread::spawn(&rt, writer).ok()?);
        Some(Lines { waiting, written })
    }

    /// Hands a line to the thread. It is left out where too many wait.
    pub(crate) fn tell<R: Wait>(&self, rt: &R, line: L) {
        drop(self.waiting.try_send(rt, line));
    }

    /// Hands on the last line, if there is one, and waits until all are written; for each of both a second at most.
    pub(crate) fn end<R: Wait + Clock>(self, rt: &R, last: Option<L>) {
        let Lines { waiting, written } = self;
        if let Some(line) = last {
            drop(waiting.send_timeout(rt, line, Duration::from_secs(PATIENCE)));
        }
        drop(waiting);
        drop(written.recv_timeout(rt, Duration::from_secs(PATIENCE)));
    }
}
