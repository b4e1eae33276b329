//! Gates: what notes the calls, what holds workers, and what watches a lane.

use flow_lanes::Receiver;
use flow_pool::{Answer, Gate};
use std::alloc::{AllocError, Global};
use std::sync::Mutex;
use std::sync::atomic::{AtomicBool, AtomicU32, AtomicUsize, Ordering};

/// Counts all calls, and notes the worker and the prefix of each of the first.
#[derive(Drop)]
pub(crate) struct Calls {
    count: AtomicUsize,
    noted: Vec<(AtomicU32, AtomicU32)>,
}

impl Calls {
    /// No call yet, and room to note so many.
    pub(crate) fn new(alloc: Global, room: u32) -> Result<Calls, AllocError> {
        let mut noted = Vec::new(alloc);
        for _ in 0..room {
            noted.push((AtomicU32::new(u32::MAX), AtomicU32::new(u32::MAX)))?;
        }
        Ok(Calls {
            count: AtomicUsize::new(0),
            noted,
        })
    }

    /// How many calls there were.
    pub(crate) fn count(&self) -> usize {
        self.count.load(Ordering::SeqCst)
    }

    /// Whether call `index`, from 0, was for this prefix, by this worker.
    pub(crate) fn is(&self, index: usize, lane: u32, number: u32) -> bool {
        match self.noted.get(index) {
            Some((by, prefix)) => {
                by.load(Ordering::SeqCst) == lane && prefix.load(Ordering::SeqCst) == number
            }
            None => false,
        }
    }

    /// Whether there was one noted call for this prefix, by this worker.
    pub(crate) fn is_once(&self, lane: u32, number: u32) -> bool {
        let mut has_come = false;
        for (by, prefix) in &self.noted {
            if prefix.load(Ordering::SeqCst) == number {
                if has_come || by.load(Ordering::SeqCst) != lane {
                    return false;
                }
                has_come = true;
            }
        }
        has_come
    }
}

impl Gate for Calls {
    fn reached(&self, lane: u32, number: u32) {
        let index = self.count.fetch_add(1, Ordering::SeqCst);
        if let Some((by, prefix)) = self.noted.get(index) {
            by.store(lane, Ordering::SeqCst);
            prefix.store(number, Ordering::SeqCst);
        }
    }
}

/// How often a worker looks whether other prefixes were reached, before it gives up.
const TURNS: u64 = 1_000_000_000;

/// A prefix whose worker is held until the prefixes of these bits were reached, and then for so many turns.
pub(crate) type Hold = (u32, u32, u64);

/// Holds workers.
#[derive(Drop)]
pub(crate) struct Holding<'a> {
    holds: &'a [Hold],
    /// A bit for each prefix that was reached, up to prefix 20.
    came: AtomicU32,
    late: AtomicBool,
}

impl<'a> Holding<'a> {
    /// No prefix was reached yet.
    pub(crate) fn new(holds: &'a [Hold]) -> Holding<'a> {
        Holding {
            holds,
            came: AtomicU32::new(0),
            late: AtomicBool::new(false),
        }
    }

    /// Whether each prefix of these bits was reached.
    pub(crate) fn has_reached(&self, bits: u32) -> bool {
        self.came.load(Ordering::SeqCst) & bits == bits
    }

    /// Whether a worker gave up.
    pub(crate) fn is_late(&self) -> bool {
        self.late.load(Ordering::SeqCst)
    }

    /// Waits until each prefix of these bits was reached, or gives up.
    fn wait_for(&self, bits: u32) {
        for _ in 0..TURNS {
            if self.has_reached(bits) {
                return;
            }
        }
        self.late.store(true, Ordering::SeqCst);
    }
}

impl Gate for Holding<'_> {
    fn reached(&self, _lane: u32, number: u32) {
        if number > 20 {
            return;
        }
        self.came
            .fetch_or(1u32.rotate_left(number), Ordering::SeqCst);
        for (held, bits, turns) in self.holds {
            if number == *held {
                self.wait_for(*bits);
                for _ in 0..*turns {
                    let _came = self.came.load(Ordering::SeqCst);
                }
            }
        }
    }
}

/// Looks, while a worker is held in the gate, how many answers it has sent: one for each prefix before this one.
#[derive(Drop)]
pub(crate) struct Watch {
    /// The calls.
    pub calls: Calls,
    answers: Mutex<Receiver<Answer>>,
    differs: AtomicBool,
}

impl Watch {
    /// No call yet.
    pub(crate) fn new(calls: Calls, answers: Receiver<Answer>) -> Watch {
        Watch {
            calls,
            answers: Mutex::new(answers),
            differs: AtomicBool::new(false),
        }
    }

    /// Whether there was another number of answers at some call.
    pub(crate) fn differs(&self) -> bool {
        self.differs.load(Ordering::SeqCst)
    }

    /// How many answers are in the lane at last.
    pub(crate) fn ready(self) -> usize {
        self.answers.into_inner().ready()
    }
}

impl Gate for Watch {
    fn reached(&self, lane: u32, number: u32) {
        let sent = match self.answers.try_lock() {
            Some(mut answers) => answers.ready(),
            None => usize::MAX,
        };
        if sent != self.calls.count() {
            self.differs.store(true, Ordering::SeqCst);
        }
        self.calls.reached(lane, number);
    }
}
