//! The makespan with a job between two lists, from fronts and tails.

ghost use Rattle.std.specs.Prelude.{◌≡◌, ℕ, ◌<◌, ◌≤◌, List, [], ◌∷◌, ◌++◌, length, drop, All};
ghost use Rattle.std.specs.Prelude.{slice_index_or};
ghost use Rattle.flow_shop.specs.Paths.{span};
ghost use Rattle.flow_shop.specs.Front.{IsFrontOf, IsWithinFront};
ghost use Rattle.flow_shop.specs.Rows.{AreRows};
ghost use Rattle.flow_bound.specs.internal.Tails.{AreTails};

use flow_limits::MAX_MACHINES;
use flow_shop::{Instance, Row};

/// A time for each machine, that of machine 1 first.
pub(crate) type Times = [u32; MAX_MACHINES];

/// Turns the tails of a list into those of the list with one more job before it, and writes them into a row too.
fn push_tails(instance: &Instance, rows: &[Row], tails: &mut Times, job: u16, row: &mut Times)
    requires rows { AreRows instance.now rows.now }
    requires job_from { 1 ≤ job }
    requires job_to { job ≤ instance.now.jobs }
    requires within { IsWithinFront instance.now tails.old }
    ensures tails { (jobs : List ℕ) → AreTails instance.now jobs tails.old →
        AreTails instance.now (job ∷ jobs) tails.new }
    ensures row { (jobs : List ℕ) → AreTails instance.now jobs tails.old → AreTails instance.now (job ∷ jobs) row.new }
{
    let times = &rows[job as usize - 1].times;
    let mut behind = 0;
    for place in (0..instance.machines() as usize).rev() {
        behind = tails[place].max(behind) + times[place];
        tails[place] = behind;
        row[place] = behind;
    }
}

/// The makespan with a job between two lists, from the front of the first and the tails of the second.
pub(crate) fn span_between(
    instance: &Instance,
    rows: &[Row],
    front: &Times,
    job: u16,
    tails: &Times,
) -> u64
    requires rows { AreRows instance.now rows.now }
    requires job_from { 1 ≤ job }
    requires job_to { job ≤ instance.now.jobs }
    requires front { IsWithinFront instance.now front.now }
    requires tails { IsWithinFront instance.now tails.now }
    ensures { (before behind : List ℕ) → IsFrontOf instance.now before front.now →
        AreTails instance.now behind tails.now → result ≡ span instance.now (before ++ job ∷ behind) }
{
    let times = &rows[job as usize - 1].times;
    let mut completion: u32 = 0;
    let mut most: u32 = 0;
    for machine in 1..instance.machines() + 1 {
        let place = machine as usize - 1;
        completion = front[place].max(completion) + times[place];
        most = most.max(completion + tails[place]);
    }
    u64::from(most)
}

/// The makespan with a job between two lists, from the front of the first and the tails of the second. Turns the front
/// into that of the first list with its own next job at its end.
pub(crate) fn span_and_push(
    instance: &Instance,
    rows: &[Row],
    front: &mut Times,
    job: u16,
    tails: &Times,
    next: u16,
) -> u64
    requires rows { AreRows instance.now rows.now }
    requires job_from { 1 ≤ job }
    requires job_to { job ≤ instance.now.jobs }
    requires next_from { 1 ≤ next }
    requires next_to { next ≤ instance.now.jobs }
    requires front { IsWithinFront instance.now front.old }
    requires tails { IsWithinFront instance.now tails.now }
    ensures span { (before behind : List ℕ) → IsFrontOf instance.now before front.old →
        AreTails instance.now behind tails.now → result ≡ span instance.now (before ++ job ∷ behind) }
    ensures front { (jobs : List ℕ) → IsFrontOf instance.now jobs front.old →
        IsFrontOf instance.now (jobs ++ next ∷ []) front.new }
{
    let times = &rows[job as usize - 1].times;
    let next_times = &rows[next as usize - 1].times;
    let mut completion: u32 = 0;
    let mut most: u32 = 0;
    let mut free: u32 = 0;
    for machine in 1..instance.machines() + 1 {
        let place = machine as usize - 1;
        let here = front[place];
        completion = here.max(completion) + times[place];
        most = most.max(completion + tails[place]);
        free = here.max(free) + next_times[place];
        front[place] = free;
    }
    u64::from(most)
}

/// Writes the tails of the jobs behind each place of a partial sequence.
pub(crate) fn fill_tails(instance: &Instance, rows: &[Row], partial: &[u16], tails: &mut [Times])
    requires rows { AreRows instance.now rows.now }
    requires short { length partial.now < instance.now.jobs }
    requires jobs { All (λ job. (1 ≤ job) × (job ≤ instance.now.jobs)) partial.now }
    requires room { length partial.now < length tails.old }
    ensures { (place : ℕ) → place ≤ length partial.now →
        AreTails instance.now (drop place partial.now) (slice_index_or tails.new place []) }
{
    let mut behind = [0; MAX_MACHINES];
    tails[partial.len()] = behind;
    for place in (0..partial.len()).rev() {
        push_tails(
            instance,
            rows,
            &mut behind,
            partial[place],
            &mut tails[place],
        );
    }
}
