//! What a search comes to: a sequence and its makespan.

ghost use Rattle.std.specs.Prelude.{◌≡◌, ◌≤◌, min, false, nat_lt, cond, length, IfOk};
ghost use Rattle.flow_shop.specs.Shop.{Shop};
ghost use Rattle.flow_shop.specs.Paths.{span};
ghost use Rattle.flow_shop.specs.Sequences.{IsSequence};
ghost use Rattle.flow_improve.specs.internal.Reaches.{HasMakespan};

use flow_shop::{Instance, Sequence, makespan};
use std::alloc::{AllocError, Global};

/// The best sequence of a search.
#[derive(Drop)]
pub struct Reached {
    /// The sequence.
    pub sequence: Sequence,
    /// Its makespan.
    pub value: u64,
    /// Whether the search ended because the makespan has Taillard's bound, or because a pass dropped nothing. No
    /// contract says that no sequence has a smaller makespan then.
    pub whole: bool,
}

impl Reached {
    /// A sequence that is there from the start of a search.
    pub(crate) fn new(
        alloc: Global,
        instance: &Instance,
        sequence: &Sequence,
    ) -> Result<Reached, AllocError>
        requires { length sequence.now ≡ instance.now.jobs }
        ensures reached { IfOk result (HasMakespan instance.now) }
        ensures value { IfOk result (λ reached. reached.value ≡ span instance.now sequence.now) }
        ensures whole { IfOk result (λ reached. reached.whole ≡ false) }
    {
        Ok(Reached {
            sequence: Sequence::of_known(alloc, sequence.jobs())?,
            value: makespan(instance, sequence),
            whole: false,
        })
    }

    /// Takes the sequence of these jobs, where its makespan is smaller.
    pub(crate) fn take(
        &mut self,
        alloc: Global,
        instance: &Instance,
        jobs: &[u16],
    ) -> Result<(), AllocError>
        requires reached { HasMakespan instance.now self.old }
        requires jobs { IsSequence instance.now.jobs jobs.now }
        ensures reached { HasMakespan instance.now self.new }
        ensures least { self.new.value ≤ self.old.value }
        ensures value { IfOk result (λ unit. self.new.value ≡ min self.old.value (span instance.now jobs.now)) }
        ensures whole { self.new.whole ≡ self.old.whole }
    {
        let sequence = Sequence::of_known(alloc, jobs)?;
        let value = makespan(instance, &sequence);
        if value < self.value {
            self.sequence = sequence;
            self.value = value;
        }
        Ok(())
    }

    /// The one of smaller makespan; on a tie this one.
    pub(crate) fn or_better(self, other: Reached) -> Reached
        ensures reached { (shop : Shop) → HasMakespan shop self → HasMakespan shop other → HasMakespan shop result }
        ensures least { result.value ≤ self.value }
        ensures other { result.value ≤ other.value }
        ensures one { result ≡ cond (nat_lt other.value self.value) other self }
    {
        if other.value < self.value {
            other
        } else {
            self
        }
    }
}
