//! One round: a few jobs leave the list and are placed again, and then each job in turn, in passes.

ghost use Rattle.std.specs.Prelude.{◌≡◌, IfOk};
ghost use Rattle.flow_shop.specs.Paths.{span};
ghost use Rattle.flow_shop.specs.Sequences.{IsSequence};
ghost use Rattle.flow_improve.specs.internal.Rooms.{IsRoundsFor};

use crate::draws::{place_in, shuffle};
use crate::list::{numbers, take_out};
use crate::place::Room;
use flow_generator::Taillard;
use flow_shop::Instance;
use std::alloc::{AllocError, Global};

/// How many jobs leave the list in a round, where there are so many.
const TAKEN_OUT: usize = 4;

/// What rounds need: the random numbers, room for insertions, the jobs by number, and the order of a pass.
#[derive(Drop)]
pub(crate) struct Rounds {
    draws: Taillard,
    room: Room,
    jobs: Vec<u16>,
    order: Vec<u16>,
}

impl Rounds {
    /// Rounds on an instance, with the random numbers that follow.
    pub(crate) fn new(
        alloc: Global,
        instance: &Instance,
        draws: Taillard,
    ) -> Result<Rounds, AllocError>
        ensures { IfOk result (IsRoundsFor instance.now) }
    {
        Ok(Rounds {
            draws,
            room: Room::new(alloc, instance)?,
            jobs: numbers(alloc, instance)?,
            order: numbers(alloc, instance)?,
        })
    }

    /// The steps of all rounds so far.
    pub(crate) fn steps(&self) -> u64 {
        self.room.steps
    }

    /// Takes a few jobs out of the list, each from a place that is drawn, and places them again in the order in which
    /// they left.
    fn place_some(&mut self, instance: &Instance, list: &mut [u16]) -> u64
        requires rounds { IsRoundsFor instance.now self.old }
        requires list { IsSequence instance.now.jobs list.old }
        ensures rounds { IsRoundsFor instance.now self.new }
        ensures list { IsSequence instance.now.jobs list.new }
        ensures makespan { result ≡ span instance.now list.new }
    {
        let jobs = list.len();
        let kept = jobs.saturating_sub(TAKEN_OUT);
        // The jobs that have left stand at the end of the list, in the order in which they left.
        for count in (kept + 1..jobs + 1).rev() {
            take_out(list, place_in(&mut self.draws, count));
        }
        for count in kept..jobs - 1 {
            self.room.place(instance, list, count);
        }
        self.room.place(instance, list, jobs - 1)
    }

    /// A pass: takes each job out of the list and places it again, in an order that is drawn. `before` is the makespan
    /// of the list; returns that of the new one.
    fn pass(&mut self, instance: &Instance, list: &mut [u16], before: u64) -> u64
        requires rounds { IsRoundsFor instance.now self.old }
        requires list { IsSequence instance.now.jobs list.old }
        requires before { before ≡ span instance.now list.old }
        ensures rounds { IsRoundsFor instance.now self.new }
        ensures list { IsSequence instance.now.jobs list.new }
        ensures makespan { result ≡ span instance.now list.new }
    {
        self.order
            .as_mut_slice()
            .copy_from_slice(self.jobs.as_slice());
        shuffle(&mut self.draws, self.order.as_mut_slice());
        self.room
            .place_each(instance, list, self.order.as_slice(), before)
    }

    /// Changes the list by one round, and returns its makespan.
    pub(crate) fn round(&mut self, instance: &Instance, list: &mut [u16]) -> u64
        requires rounds { IsRoundsFor instance.now self.old }
        requires list { IsSequence instance.now.jobs list.old }
        ensures rounds { IsRoundsFor instance.now self.new }
        ensures list { IsSequence instance.now.jobs list.new }
        ensures makespan { result ≡ span instance.now list.new }
    {
        let mut before = self.place_some(instance, list);
        let mut makespan = self.pass(instance, list, before);
        // No pass makes it greater, since a job may go back to its place.
        'passes: while makespan < before {
            before = makespan;
            makespan = self.pass(instance, list, before);
        }
        makespan
    }
}
