//! Laws of the definitions: each contract is a theorem, and no body does anything.

ghost use Rattle.std.specs.Prelude.{◌≡◌, ℕ, ◌+◌, ◌<◌, ◌≤◌, max, None, List, [], ◌∷◌, ◌++◌, length, All, Contains};
ghost use Rattle.flow_shop.specs.Shop.{Shop, IsWithinLimits, time};
ghost use Rattle.flow_shop.specs.Paths.{IsPath, weight, completion};
ghost use Rattle.flow_shop.specs.Sequences.{IsSequence, IsLeastMakespan};
ghost use Rattle.flow_shop.specs.InstanceFaults.{instance_fault};
ghost use Rattle.flow_shop.specs.SequenceFaults.{sequence_fault};
ghost use Rattle.flow_shop.specs.Bound.{BoundIsAdmissible, ReleasedBoundIsAdmissible, ReleasedBoundIsStronger};
ghost use Rattle.flow_shop.specs.Ends.{BackByRecurrence, EndBoundIsAdmissible, EndBoundIsExact, FrontByRecurrence};
ghost use Rattle.flow_shop.specs.Directions.{DirectionsAreOne, DirectionsAreSound, ProvedIsLowerBound};
ghost use Rattle.flow_shop.specs.Least.{least};
ghost use Rattle.flow_shop.specs.TwoLeast.{least_below, second_below, LeastWithoutOneIsFound};

/// A completion time is the weight of a heaviest staircase path.
pub fn completion_is_greatest()
    ensures attained { (shop : Shop) (jobs : List ℕ) (machine : ℕ) → 0 < length jobs → 1 ≤ machine →
        (machines : List ℕ) × (length machines ≡ length jobs) × IsPath 1 machines machine
        × (weight shop jobs 1 machines ≡ completion shop jobs machine) }
    ensures greatest { (shop : Shop) (jobs machines : List ℕ) (machine : ℕ) →
        length machines ≡ length jobs → IsPath 1 machines machine →
        weight shop jobs 1 machines ≤ completion shop jobs machine }
{}

/// A job starts on a machine when the job before it has left that machine, and it has itself left the machine before.
pub fn completion_by_recurrence()
    ensures { (shop : Shop) (jobs : List ℕ) (job machine : ℕ) →
        completion shop (jobs ++ job ∷ []) (machine + 1)
        ≡ max (completion shop jobs (machine + 1)) (completion shop (jobs ++ job ∷ []) machine)
        + time shop job (machine + 1) }
{}

/// The makespan of a sequence that extends a list is at least the list's bound on each machine.
pub fn bound_is_admissible()
    ensures { BoundIsAdmissible }
{}

/// The makespan of a sequence that extends a list is at least the list's released bound on each machine.
pub fn released_bound_is_admissible()
    ensures { ReleasedBoundIsAdmissible }
{}

/// The released bound of a list is at least its machine bound.
pub fn released_bound_is_stronger()
    ensures { ReleasedBoundIsStronger }
{}

/// Fronts and backs are computed job by job and machine by machine. They begin with empty lists, whose fronts are the
/// heads and whose backs are the tails of the machines.
pub fn ends_by_recurrence()
    ensures front { FrontByRecurrence }
    ensures back { BackByRecurrence }
{}

/// No sequence of a node is below the node's bound.
pub fn end_bound_is_admissible()
    ensures { EndBoundIsAdmissible }
{}

/// Where no job is left, the bound of a node is the makespan of its one sequence.
pub fn end_bound_is_exact()
    ensures { EndBoundIsExact }
{}

/// No sequence of a node is below a threshold that directions prove for the node. No sequence of an instance is below a
/// threshold that directions prove.
pub fn directions_are_sound()
    ensures node { DirectionsAreSound }
    ensures all { ProvedIsLowerBound }
{}

/// A text begins with at most one string of directions that prove a threshold for a node.
pub fn directions_are_one()
    ensures { DirectionsAreOne }
{}

/// An instance has a least makespan, and only one.
pub fn least_makespan_is_one()
    ensures some { (shop : Shop) → (value : ℕ) × IsLeastMakespan shop value }
    ensures one { (shop : Shop) (value other : ℕ) → IsLeastMakespan shop value → IsLeastMakespan shop other →
        value ≡ other }
{}

/// The least of some numbers and of one more is at most each of these, and it is one of them.
pub fn least_is_least()
    ensures least { (first : ℕ) (numbers : List ℕ) → All (λ number. least_below first numbers ≤ number)
        (first ∷ numbers) }
    ensures one { (first : ℕ) (numbers : List ℕ) → Contains (first ∷ numbers) (least_below first numbers) }
{}

/// The second least of some numbers and of two more, the lesser one first, is the least of what remains where one that
/// is the least of all these is taken out.
pub fn second_is_second()
    ensures { (first second one : ℕ) (numbers before after : List ℕ) → first ≤ second →
        before ++ one ∷ after ≡ first ∷ second ∷ numbers → one ≡ least_below first numbers →
        second_below first second numbers ≡ least (before ++ after) }
{}

/// Where one of some numbers is taken out, the least of the others is the second least of all if it was the least, and
/// else the least of all.
pub fn least_without_one()
    ensures { LeastWithoutOneIsFound }
{}

/// Numbers of jobs and machines, and times, have no fault exactly where they are an instance within the limits.
pub fn instances_have_no_fault()
    ensures is { (shop : Shop) → instance_fault shop.jobs shop.machines shop.times ≡ None → IsWithinLimits shop }
    ensures has { (shop : Shop) → IsWithinLimits shop → instance_fault shop.jobs shop.machines shop.times ≡ None }
{}

/// A list has no fault exactly where it is a sequence.
pub fn sequences_have_no_fault()
    ensures is { (n : ℕ) (jobs : List ℕ) → sequence_fault n jobs ≡ None → IsSequence n jobs }
    ensures has { (n : ℕ) (jobs : List ℕ) → IsSequence n jobs → sequence_fault n jobs ≡ None }
{}
