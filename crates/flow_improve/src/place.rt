//! Jobs placed in a list.

ghost use Rattle.std.specs.Prelude.{◌≡◌, ◌+◌, ◌<◌, take, IfOk};
ghost use Rattle.flow_shop.specs.Paths.{span};
ghost use Rattle.flow_shop.specs.Sequences.{IsSequence};
ghost use Rattle.flow_bound.specs.Rooms.{IsRoomFor};

use crate::list::{place_of, put_in, take_out};
use flow_bound::InsertionRoom;
use flow_shop::Instance;
use std::alloc::{AllocError, Global};

/// Room for insertions, and how many steps they took. It is made once for all rounds.
#[derive(Drop)]
pub(crate) struct Room {
    insertions: InsertionRoom,
    /// The steps so far: three for each job of a list in which a job is placed, and each machine.
    pub(crate) steps: u64,
}

impl Room {
    /// The room for the lists of an instance's jobs.
    pub(crate) fn new(alloc: Global, instance: &Instance) -> Result<Room, AllocError>
        ensures { IfOk result (λ room. IsRoomFor instance.now room.insertions) }
    {
        Ok(Room {
            insertions: InsertionRoom::new(alloc, instance)?,
            steps: 0,
        })
    }

    /// Places the job at index `count` among the `count` jobs before it: at the earliest place of least makespan.
    /// Returns this makespan.
    pub(crate) fn place(&mut self, instance: &Instance, list: &mut [u16], count: usize) -> u64
        requires room { IsRoomFor instance.now self.old.insertions }
        requires list { IsSequence instance.now.jobs list.old }
        requires count { count < instance.now.jobs }
        ensures room { IsRoomFor instance.now self.new.insertions }
        ensures list { IsSequence instance.now.jobs list.new }
        ensures makespan { result ≡ span instance.now (take (count + 1) list.new) }
    {
        let machines = usize::from(instance.machines());
        self.steps = self.steps.saturating_add(3 * (count * machines) as u64);
        let (before, rest) = list.split_at(count);
        let best = self.insertions.best_place(instance, before, rest[0]);
        put_in(&mut list[..count + 1], best.index);
        best.makespan
    }

    /// Takes each job of an order out of the list and places it again. `before` is the makespan of the list; returns
    /// that of the new one.
    pub(crate) fn place_each(
        &mut self,
        instance: &Instance,
        list: &mut [u16],
        order: &[u16],
        before: u64,
    ) -> u64
        requires room { IsRoomFor instance.now self.old.insertions }
        requires list { IsSequence instance.now.jobs list.old }
        requires before { before ≡ span instance.now list.old }
        ensures room { IsRoomFor instance.now self.new.insertions }
        ensures list { IsSequence instance.now.jobs list.new }
        ensures makespan { result ≡ span instance.now list.new }
    {
        let last = list.len() - 1;
        let mut makespan = before;
        for &job in order {
            take_out(list, place_of(list, job));
            makespan = self.place(instance, list, last);
        }
        makespan
    }
}
