//! The starting sequence, and better ones.

ghost use Rattle.std.specs.Prelude.{◌≡◌, length};

use flow_bound::{insertion_spans, neh};
use flow_commands::CommandFault;
use flow_core::{Instance, Sequence};
use flow_improve::{
    Effort, EffortFault, Never, Reached, beam, beam_below, improve, rounds_of_both,
};
use std::alloc::Global;

/// `neh` of the instance with three machines.
pub(crate) fn starting_sequence_is_found(
    alloc: Global,
    three: &Instance,
) -> Result<bool, CommandFault> {
    let (sequence, makespan) = neh(alloc, three)?;
    Ok(makespan == 13 && sequence.jobs() == [2, 1, 3].as_slice())
}

/// `insertion_spans` of the instance with three machines.
pub(crate) fn insertions_are_tried(alloc: Global, three: &Instance) -> Result<bool, CommandFault>
    requires { three.now.jobs ≡ 3 }
{
    let spans = insertion_spans(alloc, three, &[2, 1], 3)?;
    Ok(spans.as_slice() == [14, 15, 13].as_slice())
}

/// A little of a beam, and a few rounds.
fn little() -> Result<Effort, EffortFault> {
    Effort::new(1, 6, 5, 1)
}

/// Whether a sequence is the best of the instance with four machines that is generated of seed 1. The values are those
/// of the plain program bench/improve.rs.
fn is_best(best: &Reached) -> bool {
    best.value == 272 && best.sequence.jobs() == [1, 3, 2].as_slice()
}

/// `beam` from the starting sequence.
pub(crate) fn beam_is_searched(
    alloc: Global,
    instance: &Instance,
    start: &Sequence,
) -> Result<bool, CommandFault>
    requires { length start.now ≡ instance.now.jobs }
{
    let best = beam(alloc, instance, start, 4, 1_000)?;
    Ok(is_best(&best) && best.whole)
}

/// `beam_below` from the starting sequence: below 273 it comes to the best sequence, and below 272 there is none.
pub(crate) fn aimed_beam_is_searched(
    alloc: Global,
    instance: &Instance,
    start: &Sequence,
) -> Result<bool, CommandFault>
    requires { length start.now ≡ instance.now.jobs }
{
    let best = beam_below(alloc, instance, start, 273, 4, 1_000)?;
    let none = beam_below(alloc, instance, start, 272, 4, 1_000)?;
    Ok(is_best(&best) && none.value == 288 && none.sequence == *start)
}

/// `rounds_of_both` from the starting sequence.
pub(crate) fn rounds_of_both_are_made(
    alloc: Global,
    instance: &Instance,
    start: &Sequence,
) -> Result<bool, CommandFault>
    requires { length start.now ≡ instance.now.jobs }
{
    let beamed = beam(alloc, instance, start, 0, 0)?;
    Ok(is_best(&rounds_of_both(alloc, instance, start, &beamed, &little()?, &Never)?))
}

/// `improve` from the starting sequence.
pub(crate) fn start_is_improved(
    alloc: Global,
    instance: &Instance,
    start: &Sequence,
) -> Result<bool, CommandFault>
    requires { length start.now ≡ instance.now.jobs }
{
    Ok(is_best(&improve(alloc, instance, start, &little()?)?))
}
