//! What a round does with its list of jobs.

ghost use Rattle.std.specs.Prelude.{◌≡◌, ◌-◌, ◌<◌, ◌≤◌, length, take, insert, slice_index, IfOk};
ghost use Rattle.std.specs.List.Sorted.{IsPermutation};
ghost use Rattle.flow_shop.specs.Sequences.{IsSequence};

use flow_shop::Instance;
use std::alloc::{AllocError, Global};

/// The jobs of an instance in the order of their numbers.
pub(crate) fn numbers(alloc: Global, instance: &Instance) -> Result<Vec<u16>, AllocError>
    ensures { IfOk result (λ numbers. IsSequence instance.now.jobs numbers.items) }
{
    let jobs = instance.jobs();
    let mut numbers = Vec::with_capacity(alloc, usize::from(jobs))?;
    for job in 1..jobs + 1 {
        numbers.push(job)?;
    }
    Ok(numbers)
}

/// The place of a job that stands in the list, counted from 0.
pub(crate) fn place_of(list: &[u16], job: u16) -> usize
    requires { 1 ≤ length list.now }
    ensures { result < length list.now }
{
    let last = list.len() - 1;
    for place in 0..last {
        if list[place] == job {
            return place;
        }
    }
    last
}

/// Moves the job at a place to the end.
pub(crate) fn take_out(list: &mut [u16], place: usize)
    requires { place < length list.old }
    ensures { IsPermutation list.old list.new }
{
    list[place..].rotate_left(1);
}

/// Moves the last job to a place.
pub(crate) fn put_in(list: &mut [u16], place: usize)
    requires { place < length list.old }
    ensures list { list.new ≡
        insert (take (length list.old - 1) list.old) place (slice_index list.old (length list.old - 1)) }
    ensures permutation { IsPermutation list.old list.new }
{
    list[place..].rotate_right(1);
}
