//! A sequence that a search reached, in room that a caller lends.

ghost use Rattle.std.specs.Prelude.{◌≡◌, ℕ, ◌≤◌, List, Option, length, take, drop, cond};
ghost use Rattle.flow_c.specs.Statuses.{done};
ghost use Rattle.flow_c.specs.Reached.{Finds, GivesReached};
ghost use Rattle.flow_c.specs.Rooms.{IsSameRoom};
ghost use Rattle.flow_improve.specs.declared.reached.Reached.{Reached};
ghost use Rattle.flow_c.specs.declared.fault.Fault.{Fault};
ghost use Rattle.flow_c.specs.declared.shop.ShopNumbers.{ShopNumbers};

use crate::fault::Fault;
use crate::outcome::Outcome;
use crate::room::fill;
use flow_improve::Reached;

/// Room for a sequence, and what is said of it.
#[repr(C)]
pub struct ReachedRoom<'a> {
    /// Room for the jobs.
    pub sequence: &'a mut [u16],
    /// The makespan.
    pub makespan: u64,
    /// 1 where the makespan has Taillard's bound, or where the search ended because a pass dropped nothing; else 0. No
    /// contract says of the latter that no sequence has a smaller makespan.
    pub whole: u32,
}

impl ReachedRoom<'_> {
    /// Takes what a search reached.
    pub(crate) fn put(&mut self, reached: &Reached)
        requires { length reached.now.sequence ≤ length self.old.sequence.now }
        ensures sequence { take (length reached.now.sequence) self.new.sequence.now ≡ reached.now.sequence }
        ensures rest { drop (length reached.now.sequence) self.new.sequence.now
            ≡ drop (length reached.now.sequence) self.old.sequence.now }
        ensures makespan { self.new.makespan ≡ reached.now.value }
        ensures whole { self.new.whole ≡ cond reached.now.whole 1 0 }
        ensures room { IsSameRoom self.new.sequence self.old.sequence }
    {
        fill(reached.sequence.jobs(), self.sequence);
        self.makespan = reached.value;
        self.whole = u32::from(reached.whole);
    }

    /// Takes what a search found, and says how the call ends.
    pub(crate) fn answer(&mut self, found: Result<Reached, Fault>) -> Outcome
        requires { (numbers : ShopNumbers) × (start : List ℕ) × (refusal : Option Fault)
            × Finds numbers start refusal (length self.old.sequence.now) found }
        ensures gives { (numbers : ShopNumbers) (start : List ℕ) (refusal : Option Fault) →
            Finds numbers start refusal (length self.old.sequence.now) found →
            GivesReached numbers start refusal self.old self.new result }
        ensures told { result.status ≡ done → (reached : Reached) × (found ≡ Ok reached)
            × (self.new.makespan ≡ reached.value) × (self.new.whole ≡ cond reached.whole 1 0) }
    {
        match found {
            Ok(reached) => {
                self.put(&reached);
                Outcome::done()
            }
            Err(fault) => Outcome::refused(fault),
        }
    }
}
