//! Bounds of the least makespan, from a start.

ghost use Rattle.std.specs.Prelude.{◌≡◌, ◌≤◌, None, [], length, IfOk};
ghost use Rattle.flow_shop.specs.Paths.{span};
ghost use Rattle.flow_shop.specs.Sequences.{IsSequence};
ghost use Rattle.flow_shop.specs.Directions.{Proves};
ghost use Rattle.flow_shop.specs.Ends.{end_bound};
ghost use Rattle.flow_directions.specs.Search.{directions_of, first_below};
ghost use Rattle.flow_certify.specs.Searched.{Keeps, has_signs};
ghost use Rattle.flow_certify.specs.Signs.{most_searched};

use crate::kept::Kept;
use crate::proof::{Proof, ProofLimits};
use crate::shared::Shared;
use flow_directions::{News, Prover};
use flow_improve::Effort;
use flow_shop::{Instance, Sequence};
use std::alloc::{AllocError, Global};

/// Bounds of the least makespan, a sequence that has the upper one, and what is kept of the directions that prove the
/// lower one.
#[derive(Debug, Drop)]
pub struct Certified {
    /// No sequence has a smaller makespan.
    pub lower: u64,
    /// The makespan of the sequence.
    pub upper: u64,
    /// The sequence.
    pub sequence: Sequence,
    /// The directions that prove the lower bound, or how many they are.
    pub proof: Proof,
}

/// Bounds of the least makespan, a sequence that has the upper one, and the directions that prove the lower one, or how
/// many they are. The prover searches for directions. It is told which step begins, and which bounds are known before
/// each task and at the end. What is found does not depend on which prover it is, unless its time is over: then the run
/// ends soon, with what it knows. Bounds, sequence and number of directions are the same whether signs are kept or not.
pub fn certify<P: Prover>(
    alloc: Global,
    prover: &P,
    instance: &Instance,
    start: &Sequence,
    effort: &Effort,
    limits: ProofLimits,
) -> Result<Certified, AllocError>
    requires ready { P.is_ready prover.now }
    requires start { length start.now ≡ instance.now.jobs }
    ensures each { IfOk result (λ found. IsSequence instance.now.jobs found.sequence) }
    ensures attained { IfOk result (λ found. span instance.now found.sequence ≡ found.upper) }
    ensures no_worse { IfOk result (λ found. found.upper ≤ span instance.now start.now) }
    ensures searched { IfOk result (λ found. first_below instance.now found.lower [] [] ≡ None) }
    ensures proved { IfOk result (λ found. Proves instance.now found.lower
        (directions_of instance.now found.lower [] [])) }
    ensures kept { IfOk result (λ found. Keeps found.proof (directions_of instance.now found.lower [] [])) }
    ensures form { IfOk result (λ found. has_signs found.proof ≡ limits.keeps_signs) }
    ensures floor { IfOk result (λ found. end_bound instance.now [] [] ≤ found.lower) }
    ensures few { IfOk result (λ found.
        length (directions_of instance.now found.lower [] []) ≤ most_searched limits.most) }
{
    let shared = Shared {
        alloc,
        instance,
        prover,
    };
    let mut kept = Kept::new(alloc, instance, start, limits, prover.is_limited())?;
    let mut step = 0;
    'tasks: while kept.run.tasks > 0 {
        let task = kept.run.next(effort);
        if kept.run.step != step {
            step = kept.run.step;
            prover.tell(instance, News::Step(step));
        }
        kept.tell(&shared);
        if !kept.go_on(&shared, &task)? {
            break;
        }
    }
    prover.tell(instance, News::Ended);
    Ok(Certified {
        lower: kept.run.lower,
        upper: kept.run.upper,
        sequence: kept.best,
        proof: kept.proof,
    })
}
