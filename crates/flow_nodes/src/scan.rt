//! The numbers of a child, by vectors that have those of four machines.

ghost use Rattle.std.specs.Prelude.{◌≡◌, ℕ, ◌+◌, ◌-◌, ◌<◌, ◌≤◌, List, [], ◌∷◌, ◌++◌, All, length, slice_index, max};
ghost use Rattle.flow_limits.specs.Limits.{most_machines, greatest_completion, greatest_time};
ghost use Rattle.flow_shop.specs.Shop.{Shop, AreOf};
ghost use Rattle.flow_shop.specs.Rows.{IsRow};
ghost use Rattle.flow_shop.specs.Ends.{back, front};
ghost use Rattle.flow_nodes.specs.Nodes.{IsJob};
ghost use Rattle.flow_nodes.specs.internal.Scan.{begun_at, done_at, greatest_from, greatest_to};

use flow_limits::MAX_MACHINES;
use flow_shop::Row;
use std::simd::prelude::*;

/// How many machines a vector has the numbers of.
pub(crate) const FOUR: usize = 4;

/// No job takes so long on all machines together.
const LONGEST: u32 = 26_000_000;

/// The numbers of four machines, from that at a place on.
#[inline(always)]
pub(crate) fn four_of(numbers: &[u32; MAX_MACHINES], at: usize) -> u32x4
    requires at { at ≤ 22 }
    ensures size { length result ≡ 4 }
    ensures each { (lane : ℕ) → lane < 4 → slice_index result lane ≡ slice_index numbers.now (at + lane) }
{
    let numbers = &numbers[..];
    u32x4::from_slice(&numbers[at..])
}

/// Writes the numbers of four machines, from that at a place on.
#[inline(always)]
pub(crate) fn put_four(four: u32x4, at: usize, numbers: &mut [u32; MAX_MACHINES])
    requires at { at ≤ 22 }
    requires four { length four ≡ 4 }
    ensures each { (lane place : ℕ) → lane < 4 → place ≡ at + lane →
        slice_index numbers.new place ≡ slice_index four lane }
    ensures before { (place : ℕ) → place < at → slice_index numbers.new place ≡ slice_index numbers.old place }
    ensures behind { (place : ℕ) → at + 4 ≤ place → slice_index numbers.new place ≡ slice_index numbers.old place }
{
    four.copy_to_slice(&mut numbers[at..at + FOUR]);
}

/// Writes the times of the jobs left without one of them, on four machines, from that at a place on.
#[inline(always)]
fn fewer_of_four(
    works: &[u32; MAX_MACHINES],
    times: &[u32; MAX_MACHINES],
    at: usize,
    fewer: &mut [u32; MAX_MACHINES],
)
    requires at { at ≤ 22 }
    ensures each { (place : ℕ) → at ≤ place → place < at + 4 →
        slice_index times.now place ≤ slice_index works.now place →
        slice_index fewer.new place + slice_index times.now place ≡ slice_index works.now place }
    ensures before { (place : ℕ) → place < at → slice_index fewer.new place ≡ slice_index fewer.old place }
{
    let left = four_of(works, at) - four_of(times, at);
    put_four(left, at, fewer);
}

/// Writes the times of the jobs left without one of them.
#[inline(always)]
pub(crate) fn work_without(
    works: &[u32; MAX_MACHINES],
    times: &[u32; MAX_MACHINES],
    machines: usize,
    fewer: &mut [u32; MAX_MACHINES],
)
    requires machines { machines ≤ most_machines }
    requires covers { (place : ℕ) → place < machines → slice_index times.now place ≤ slice_index works.now place }
    ensures { (place : ℕ) → place < machines →
        slice_index fewer.new place + slice_index times.now place ≡ slice_index works.now place }
{
    let mut at = 0;
    'fours: while at < machines {
        fewer_of_four(works, times, at.min(MAX_MACHINES - FOUR), fewer);
        at += FOUR;
    }
}

/// The greater of two numbers in each lane.
#[inline(always)]
fn greater_each(first: u32x4, second: u32x4) -> u32x4
    requires sizes { (length first ≡ 4) × (length second ≡ 4) }
    ensures size { length result ≡ 4 }
    ensures each { (lane : ℕ) → lane < 4 →
        slice_index result lane ≡ max (slice_index first lane) (slice_index second lane) }
{
    first.simd_max(second)
}

/// The greatest number up to each lane, and of those before, whose greatest all lanes have.
#[inline(always)]
fn greatest_up(numbers: u32x4, before: u32x4) -> u32x4
    requires sizes { (length numbers ≡ 4) × (length before ≡ 4) }
    requires same { (lane : ℕ) → lane < 4 → slice_index before lane ≡ slice_index before 0 }
    ensures size { length result ≡ 4 }
    ensures first { slice_index result 0 ≡ max (slice_index before 0) (slice_index numbers 0) }
    ensures next { (lane : ℕ) → lane < 3 →
        slice_index result (lane + 1) ≡ max (slice_index result lane) (slice_index numbers (lane + 1)) }
{
    let of_two = greater_each(numbers, numbers.swizzle([0, 0, 1, 2]));
    let of_four = greater_each(of_two, of_two.swizzle([0, 1, 0, 1]));
    greater_each(of_four, before)
}

/// The greatest number from each lane on, and of those behind, whose greatest all lanes have.
#[inline(always)]
fn greatest_down(numbers: u32x4, behind: u32x4) -> u32x4
    requires sizes { (length numbers ≡ 4) × (length behind ≡ 4) }
    requires same { (lane : ℕ) → lane < 4 → slice_index behind lane ≡ slice_index behind 0 }
    ensures size { length result ≡ 4 }
    ensures last { slice_index result 3 ≡ max (slice_index behind 0) (slice_index numbers 3) }
    ensures next { (lane : ℕ) → lane < 3 →
        slice_index result lane ≡ max (slice_index result (lane + 1)) (slice_index numbers lane) }
{
    let of_two = greater_each(numbers, numbers.swizzle([1, 2, 3, 3]));
    let of_four = greater_each(of_two, of_two.swizzle([2, 3, 2, 3]));
    greater_each(of_four, behind)
}

/// Writes the fronts with a job behind the list on four machines, from that at a place on. Takes the greatest of the
/// numbers before in all lanes, and gives the greatest of those up to the four.
#[inline(always)]
fn front_four(
    fronts: &[u32; MAX_MACHINES],
    row: &Row,
    at: usize,
    before: u32x4,
    longer: &mut [u32; MAX_MACHINES],
) -> u32x4
    requires at { at ≤ 22 }
    requires fit { (lane : ℕ) → lane < 4 →
        done_at fronts.now row.now.times row.now.tails (at + lane) ≤ 4294967295 }
    requires size { length before ≡ 4 }
    requires before { (lane : ℕ) → lane < 4 →
        slice_index before lane ≡ greatest_to (done_at fronts.now row.now.times row.now.tails) at }
    ensures size { length result ≡ 4 }
    ensures greatest { (lane : ℕ) → lane < 4 →
        slice_index result lane ≡ greatest_to (done_at fronts.now row.now.times row.now.tails) (at + 4) }
    ensures each { (place : ℕ) → at ≤ place → place < at + 4 →
        slice_index longer.new place + slice_index row.now.tails place
        ≡ greatest_to (done_at fronts.now row.now.times row.now.tails) (place + 1) }
    ensures others { (place : ℕ) → place < at → slice_index longer.new place ≡ slice_index longer.old place }
{
    let tails = four_of(&row.tails, at);
    let whole = four_of(&row.times, at) + tails;
    let numbers = four_of(fronts, at) + whole;
    let greatest = greatest_up(numbers, before);
    put_four(greatest - tails, at, longer);
    greatest.swizzle([3, 3, 3, 3])
}

/// Writes the fronts of a first list with a job behind it, by those of the list.
#[inline(always)]
pub(crate) fn front_with(
    fronts: &[u32; MAX_MACHINES],
    row: &Row,
    machines: usize,
    longer: &mut [u32; MAX_MACHINES],
)
    requires machines { machines ≤ most_machines }
    requires small { (place : ℕ) → place < machines → slice_index fronts.now place ≤ greatest_completion }
    requires times { (place : ℕ) → place < machines → slice_index row.now.times place ≤ greatest_time }
    requires tails { (place : ℕ) → place < machines → slice_index row.now.tails place ≤ 25000000 }
    ensures { (shop : Shop) (first : List ℕ) (job : ℕ) → machines ≡ shop.machines →
        All (λ job. IsJob shop job) first → IsJob shop job → AreOf shop (front shop first) fronts.now →
        IsRow shop job row.now → AreOf shop (front shop (first ++ job ∷ [])) longer.new }
{
    let mut at = 0;
    let mut before = u32x4::splat(0);
    'fours: while at + FOUR <= machines {
        before = front_four(fronts, row, at, before, longer);
        at += FOUR;
    }
    'others: while at < machines {
        let tail = row.tails[at];
        let number = fronts[at] + (row.times[at] + tail);
        before = greater_each(before, u32x4::splat(number));
        longer[at] = before.to_array()[0] - tail;
        at += 1;
    }
}

/// Writes the backs with a job before the list on four machines, from that at a place on. Takes the greatest of the
/// numbers behind in all lanes, and gives the greatest of those from the four on.
#[inline(always)]
fn back_four(
    backs: &[u32; MAX_MACHINES],
    row: &Row,
    at: usize,
    behind: u32x4,
    longer: &mut [u32; MAX_MACHINES],
) -> u32x4
    requires at { at ≤ 22 }
    requires fit { (lane : ℕ) → lane < 4 → slice_index backs.now (at + lane) ≤ 4000000000 }
    requires whole { (lane : ℕ) → lane < 4 →
        slice_index row.now.times (at + lane) + slice_index row.now.tails (at + lane) ≤ 26000000 }
    requires size { length behind ≡ 4 }
    requires same { (lane : ℕ) → lane < 4 → slice_index behind lane ≡ slice_index behind 0 }
    ensures size { length result ≡ 4 }
    ensures same { (lane : ℕ) → lane < 4 → slice_index result lane ≡ slice_index result 0 }
    ensures greatest { (count : ℕ) →
        slice_index behind 0 ≡ greatest_from (begun_at backs.now row.now.tails) count (at + 4) →
        slice_index result 0 ≡ greatest_from (begun_at backs.now row.now.tails) (count + 4) at }
    ensures each { (count place : ℕ) →
        slice_index behind 0 ≡ greatest_from (begun_at backs.now row.now.tails) count (at + 4) →
        at ≤ place → place < at + 4 → slice_index longer.new place + 26000000
        ≡ greatest_from (begun_at backs.now row.now.tails) (count + (at + 4 - place)) place
        + (slice_index row.now.times place + slice_index row.now.tails place) }
    ensures others { (place : ℕ) → at + 4 ≤ place → slice_index longer.new place ≡ slice_index longer.old place }
{
    let before = u32x4::splat(LONGEST) - four_of(&row.tails, at);
    let numbers = four_of(backs, at) + before;
    let greatest = greatest_down(numbers, behind);
    put_four(greatest - (before - four_of(&row.times, at)), at, longer);
    greatest.swizzle([0, 0, 0, 0])
}

/// Writes the backs of a last list with a job before it, by those of the list.
#[inline(always)]
pub(crate) fn back_with(
    backs: &[u32; MAX_MACHINES],
    row: &Row,
    machines: usize,
    longer: &mut [u32; MAX_MACHINES],
)
    requires machines { machines ≤ most_machines }
    requires small { (place : ℕ) → place < machines → slice_index backs.now place ≤ greatest_completion }
    requires times { (place : ℕ) → place < machines → slice_index row.now.times place ≤ greatest_time }
    requires tails { (place : ℕ) → place < machines → slice_index row.now.tails place ≤ 25000000 }
    ensures { (shop : Shop) (last : List ℕ) (job : ℕ) → machines ≡ shop.machines → IsJob shop job →
        AreOf shop (back shop last) backs.now → IsRow shop job row.now →
        AreOf shop (back shop (job ∷ last)) longer.new }
{
    let mut end = machines;
    let mut behind = u32x4::splat(0);
    'others: while end % FOUR > 0 {
        let place = end - 1;
        let before = LONGEST - row.tails[place];
        behind = greater_each(behind, u32x4::splat(backs[place] + before));
        longer[place] = behind.to_array()[0] - (before - row.times[place]);
        end = place;
    }
    'fours: while end > 0 {
        let at = end - FOUR;
        behind = back_four(backs, row, at, behind, longer);
        end = at;
    }
}
