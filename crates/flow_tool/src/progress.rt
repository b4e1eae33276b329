//! The watch of a run: the lines that `--progress` writes to standard error, and when its time is over.

use crate::lines::Lines;
use crate::refusal::Stop;
use flow_commands::{News, Watch};
use flow_core::Instance;
use std::cell::Cell;
use std::fmt;
use std::fmt::{Display, Formatter};
use std::rt::Clock;
use std::sync::Wait;

/// The least time between two lines, in milliseconds; only the last line may come sooner.
const PAUSE: u64 = 1_000;

/// How long a run is silent on a terminal that was not asked to say how far it is, in milliseconds.
const SILENCE: u64 = 5_000;

/// A line for standard error.
#[derive(Drop)]
pub(crate) enum Line {
    /// How far `certify` is.
    Certify {
        /// How long ago it began.
        seconds: u64,
        /// The step that it is at.
        step: u32,
        /// The bounds that it knows.
        bounds: (u64, u64),
        /// How many directions it wrote.
        directions: u64,
    },
    /// How far `check` is.
    Check {
        /// How long ago it began.
        seconds: u64,
        /// How many nodes it counted.
        nodes: u64,
    },
    /// Why the program stopped.
    Refusal(Stop),
}

impl Display for Line {
    fn fmt<W: fmt::Write>(&self, f: &mut Formatter<W>) -> fmt::Result {
        match self {
            Line::Certify {
                seconds,
                step,
                bounds: (lower, upper),
                directions,
            } => write!(
                f,
                "certify: {seconds} s, step {step}, bounds {lower} {upper}, {directions} directions"
            ),
            Line::Check { seconds, nodes } => write!(f, "check: {seconds} s, {nodes} nodes"),
            Line::Refusal(stop) => write!(f, "{stop}"),
        }
    }
}

/// Starts the thread that writes lines; none where it can't. The bounds of the runtime that a thread is given have to
/// be known where this is made, and a watch has no place to ask for them.
pub(crate) type StartLines = Box<dyn Fn() -> Option<Lines<Line>>>;

/// Writes lines that say how far a run is, and never waits for whoever reads them: where standard error refuses a line
/// or is full, the run goes on without it.
#[derive(Drop)]
pub(crate) struct Progress<'a, R> {
    rt: &'a R,
    start: StartLines,
    ghost can_start: { pre start },
    /// Whether standard error is a terminal.
    is_terminal: bool,
    /// Whether the run was asked to say how far it is.
    asked: Cell<bool>,
    /// There are none before the first line.
    lines: Cell<Option<Lines<Line>>>,
    /// When the run began, by the clock, in milliseconds.
    begun: Cell<Option<u64>>,
    /// When the last line was written.
    written: Cell<u64>,
    /// The step that it is at. A check has none.
    step: Cell<Option<u32>>,
    bounds: Cell<(u64, u64)>,
    /// The directions of the searches that are over.
    before: Cell<u64>,
    /// The directions of the search that goes on.
    directions: Cell<u64>,
    /// When the time is over, by the clock, in milliseconds, where it is limited.
    ends: Cell<Option<u64>>,
}

impl<'a, R: Wait + Eprint + Clock> Progress<'a, R> {
    /// No line is written yet, and no thread started.
    pub(crate) fn new(rt: &'a R, start: StartLines, is_terminal: bool) -> Progress<'a, R>
        requires { pre start }
    {
        Progress {
            rt,
            start,
            is_terminal,
            asked: Cell::new(false),
            lines: Cell::new(None),
            begun: Cell::new(None),
            written: Cell::new(0),
            step: Cell::new(None),
            bounds: Cell::new((0, 0)),
            before: Cell::new(0),
            directions: Cell::new(0),
            ends: Cell::new(None),
        }
    }

    /// The time of the clock in milliseconds.
    fn now(&self) -> u64 {
        match self.rt.monotonic() {
            Ok(time) => u64::try_from(time.as_millis()).unwrap_or(u64::MAX),
            Err(_) => 0,
        }
    }

    /// Whether there is a clock. Without one a time that is limited is over at once.
    fn has_clock(&self) -> bool {
        self.rt.monotonic().is_ok()
    }

    /// Writes a line, unless it would come too soon.
    fn write(&self, is_last: bool) {
        let now = self.now();
        let Some(begun) = self.begun.get() else {
            self.begun.set(Some(now));
            self.written.set(now);
            return;
        };
        if self.is_silent(now.saturating_sub(begun), is_last) {
            return;
        }
        if !is_last && now.saturating_sub(self.written.get()) < PAUSE {
            return;
        }
        self.written.set(now);
        self.hand_on(self.line(now.saturating_sub(begun) / 1_000));
    }

    /// The line of a run that began so many seconds ago.
    fn line(&self, seconds: u64) -> Line {
        let directions = self.before.get().saturating_add(self.directions.get());
        match self.step.get() {
            Some(step) => Line::Certify {
                seconds,
                step,
                bounds: self.bounds.get(),
                directions,
            },
            None => Line::Check {
                seconds,
                nodes: directions,
            },
        }
    }

    /// Whether nothing is to be said so long after the beginning: no run that was not asked says anything in its first
    /// seconds, or off a terminal, or only at its end.
    fn is_silent(&self, elapsed: u64, is_last: bool) -> bool {
        let has_spoken = self.written.get() > self.begun.get().unwrap_or(0);
        !self.asked.get() && (!self.is_terminal || elapsed < SILENCE || (is_last && !has_spoken))
    }

    /// Hands a line to the thread that writes. It is left out where there is no such thread.
    fn hand_on(&self, line: Line) {
        let lines = match self.lines.replace(None) {
            Some(lines) => Some(lines),
            None => (self.start)(),
        };
        if let Some(lines) = &lines {
            lines.tell(self.rt, line);
        }
        self.lines.set(lines);
    }

    /// Ends the lines, with that of a refusal where there is one. Where a run wrote lines, it does not wait for long.
    pub(crate) fn end(self, refusal: Option<Stop>) {
        let Progress { rt, lines, .. } = self;
        match (lines.into_inner(), refusal) {
            (Some(lines), refusal) => lines.end(rt, refusal.map(|stop| Line::Refusal(stop))),
            // Where standard error refuses the line, the status still tells.
            (None, Some(stop)) => drop(eprintln!(rt; "{stop}")),
            (None, None) => {}
        }
    }
}

impl<'a, R: Wait + Eprint + Clock> Watch for Progress<'a, R> {
    fn begin(&self, asked: bool, seconds: Option<u32>) {
        self.asked.set(asked);
        if let Some(seconds) = seconds {
            let ends = self.now().saturating_add(u64::from(seconds) * 1_000);
            self.ends.set(Some(ends));
        }
    }

    fn is_on(&self) -> bool {
        self.asked.get() || self.is_terminal
    }

    fn tell(&self, _instance: &Instance, news: News) {
        match news {
            // Once the time is over the run only passes through the steps that are left.
            News::Step(_) if self.is_over() => {}
            News::Step(step) => self.step.set(Some(step)),
            News::Bounds { lower, upper } => {
                let before = self.before.get().saturating_add(self.directions.get());
                self.before.set(before);
                self.directions.set(0);
                self.bounds.set((lower, upper));
            }
            News::Directions(directions) => self.directions.set(directions),
            News::Ended => {}
        }
        self.write(matches!(news, News::Ended));
    }

    fn is_limited(&self) -> bool {
        self.ends.get().is_some()
    }

    fn is_over(&self) -> bool {
        match self.ends.get() {
            Some(ends) => !self.has_clock() || self.now() >= ends,
            None => false,
        }
    }
}
