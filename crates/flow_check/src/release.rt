//! How much the bound of a version is above the machine bound. In version 2 a machine counts from its release: no job
//! left starts there before it, whichever comes first.

ghost use Rattle.std.specs.Prelude.{◌≡◌, ℕ, suc, ◌+◌, ◌-◌, List, ◌++◌, ◌∷◌, [], nat_le, slice_index, Some};
ghost use Rattle.std.specs.Prelude.{length};
ghost use Rattle.flow_shop.specs.Sequences.{jobs_left};
ghost use Rattle.flow_shop.specs.Bound.{bound_at, bound_of, front_of, release};
ghost use Rattle.flow_check.specs.internal.Links.{AreLinks};
ghost use Rattle.flow_nodes.specs.Nodes.{IsMachine};
ghost use Rattle.flow_check.specs.internal.Nodes.{IsListNode, IsAt, IsChild, grown, left_before};
ghost use Rattle.flow_check.specs.internal.Lags.{AreTwoLeastLagsTo, AreKept, AreUnknown};

use crate::node::{ListNode, bound};
use crate::trees_text::TreesText;
use flow_shop::{LeastPairs, has_releases};

/// Forgets all lags that are known. Most places are not known, and those are not written.
pub(crate) fn forget(lags: &mut [Option<LeastPairs>])
    ensures size { length lags.new ≡ length lags.old }
    ensures none { AreUnknown lags.new }
{
    for place in 0..lags.len() {
        if lags[place].is_some() {
            lags[place] = None;
        }
    }
}

/// Finds the two least lags of the jobs left to a machine, from each machine up to it. A job's lag from a machine to
/// another is its time on the machines from there to the one before the other.
fn find_lags(text: &TreesText, links: &[u16], machine: u16) -> LeastPairs
    requires links { (list : List ℕ) × AreLinks text.now.shop.now.jobs list links.now }
    requires machine { IsMachine text.now.shop.now machine }
    ensures { (list : List ℕ) → AreLinks text.now.shop.now.jobs list links.now →
        AreTwoLeastLagsTo text.now.shop.now list machine result }
{
    let mut lags = LeastPairs::none();
    let mut last = 0;
    'jobs: loop {
        let job = links[last as usize];
        if job == 0 {
            return lags;
        }
        let to_machine = text.rows[job as usize - 1].lags_to(machine);
        lags.take(&to_machine, machine as usize);
        last = job;
    }
}

/// The two least lags of the jobs left to a machine: those that are kept, or else they are found, and kept where
/// there is a place for them.
fn lags_of(
    text: &TreesText,
    kept: &mut [Option<LeastPairs>],
    links: &[u16],
    machine: u16,
) -> LeastPairs
    requires at { (list : List ℕ) × AreLinks text.now.shop.now.jobs list links.now
        × AreKept text.now.shop.now list kept.old }
    requires machine { IsMachine text.now.shop.now machine }
    ensures size { length kept.new ≡ length kept.old }
    ensures lags { (list : List ℕ) → AreLinks text.now.shop.now.jobs list links.now →
        AreKept text.now.shop.now list kept.old → AreTwoLeastLagsTo text.now.shop.now list machine result }
    ensures kept { (list : List ℕ) → AreLinks text.now.shop.now.jobs list links.now →
        AreKept text.now.shop.now list kept.old → AreKept text.now.shop.now list kept.new }
{
    let place = machine as usize - 1;
    if place >= kept.len() {
        return find_lags(text, links, machine);
    }
    if let Some(known) = kept[place] {
        return known;
    }
    let lags = find_lags(text, links, machine);
    kept[place] = Some(lags);
    lags
}

/// How much later than its front a machine is released for the jobs left of a list.
fn own_gain(text: &TreesText, node: &ListNode, lags: &LeastPairs, machine: u16) -> u64
    requires at { (list : List ℕ) × (left : ℕ) × IsListNode text.now.shop.now list node.now (suc left)
        × AreTwoLeastLagsTo text.now.shop.now list machine lags.now }
    requires machine { IsMachine text.now.shop.now machine }
    ensures { (list : List ℕ) (left : ℕ) → IsListNode text.now.shop.now list node.now (suc left) →
        AreTwoLeastLagsTo text.now.shop.now list machine lags.now →
        slice_index (front_of text.now.shop.now list) (machine - 1) + result
        ≡ release text.now.shop.now (front_of text.now.shop.now list)
        (jobs_left text.now.shop.now.jobs list) machine }
{
    let mut release: u64 = 0;
    for from in 1..machine + 1 {
        let place = from as usize - 1;
        release = release.max(node.front[place] + u64::from(lags.least[place]));
    }
    release - node.front[machine as usize - 1]
}

/// How much later than its front a machine is released for the jobs left of a list's child that has this job at its
/// end.
fn child_gain(text: &TreesText, node: &ListNode, lags: &LeastPairs, job: u16, machine: u16) -> u64
    requires at { (list : List ℕ) × (left : ℕ) × IsListNode text.now.shop.now list node.now (suc (suc left))
        × AreTwoLeastLagsTo text.now.shop.now list machine lags.now
        × IsChild text.now.shop.now.jobs list (Some job) }
    requires machine { IsMachine text.now.shop.now machine }
    ensures { (list : List ℕ) (left : ℕ) → IsListNode text.now.shop.now list node.now (suc (suc left)) →
        AreTwoLeastLagsTo text.now.shop.now list machine lags.now →
        IsChild text.now.shop.now.jobs list (Some job) →
        slice_index (front_of text.now.shop.now (list ++ job ∷ [])) (machine - 1) + result
        ≡ release text.now.shop.now (front_of text.now.shop.now (list ++ job ∷ []))
        (jobs_left text.now.shop.now.jobs (list ++ job ∷ [])) machine }
{
    let row = &text.rows[job as usize - 1];
    let mut free = 0;
    let mut release: u64 = 0;
    for from in 1..machine + 1 {
        let place = from as usize - 1;
        free = node.front[place].max(free) + u64::from(row.times[place]);
        let behind = lags.at(place).without(row.lag(from, machine));
        release = release.max(free + u64::from(behind));
    }
    release - free
}

/// How much the bound of the version is above the machine bound of a list, or of a child of it, where jobs are left.
fn gain(
    text: &TreesText,
    node: &ListNode,
    kept: &mut [Option<LeastPairs>],
    links: &[u16],
    child: Option<u16>,
    machine: u16,
) -> u64
    requires at { (list : List ℕ) × (left : ℕ)
        × IsAt text.now.shop.now list node.now links.now (left_before child (suc left))
        × AreKept text.now.shop.now list kept.old
        × IsChild text.now.shop.now.jobs list child }
    requires machine { IsMachine text.now.shop.now machine }
    ensures size { length kept.new ≡ length kept.old }
    ensures kept { (list : List ℕ) → AreLinks text.now.shop.now.jobs list links.now →
        AreKept text.now.shop.now list kept.old → AreKept text.now.shop.now list kept.new }
    ensures value { (list : List ℕ) (left : ℕ) →
        IsAt text.now.shop.now list node.now links.now (left_before child (suc left)) →
        AreKept text.now.shop.now list kept.old →
        IsChild text.now.shop.now.jobs list child →
        bound_at text.now.shop.now (grown list child) machine + result
        ≡ bound_of text.now.version text.now.shop.now (grown list child) machine }
{
    if !has_releases(text.version) {
        return 0;
    }
    let lags = lags_of(text, kept, links, machine);
    match child {
        None => own_gain(text, node, &lags, machine),
        Some(job) => child_gain(text, node, &lags, job, machine),
    }
}

/// Whether the bound of the version on a machine reaches the value, for a list, or for a child of it, where jobs are
/// left. The machine bound alone is often enough.
pub(crate) fn reaches(
    text: &TreesText,
    node: &mut ListNode,
    kept: &mut [Option<LeastPairs>],
    links: &[u16],
    child: Option<u16>,
    machine: u16,
) -> bool
    requires at { (list : List ℕ) × (left : ℕ)
        × IsAt text.now.shop.now list node.old links.now (left_before child (suc left))
        × AreKept text.now.shop.now list kept.old
        × IsChild text.now.shop.now.jobs list child }
    requires machine { IsMachine text.now.shop.now machine }
    ensures node { (list : List ℕ) (left : ℕ) → IsAt text.now.shop.now list node.old links.now left →
        IsAt text.now.shop.now list node.new links.now left }
    ensures size { length kept.new ≡ length kept.old }
    ensures kept { (list : List ℕ) → AreLinks text.now.shop.now.jobs list links.now →
        AreKept text.now.shop.now list kept.old → AreKept text.now.shop.now list kept.new }
    ensures value { (list : List ℕ) (left : ℕ) →
        IsAt text.now.shop.now list node.old links.now (left_before child (suc left)) →
        AreKept text.now.shop.now list kept.old →
        IsChild text.now.shop.now.jobs list child →
        result ≡ nat_le text.now.value
        (bound_of text.now.version text.now.shop.now (grown list child) machine) }
{
    let plain = bound(text, node, links, child, machine);
    if plain >= text.value {
        return true;
    }
    text.value - plain <= gain(text, node, kept, links, child, machine)
}
