//! What a search for directions came to, as it is told: with the signs of its directions, or with their number.

ghost use Rattle.std.specs.Prelude.{◌≡◌, ◌⊎◌, ◌++◌, ◌≤◌, ℕ, List, None, Some, IfOk, OnOk, IfErr, length};
ghost use Rattle.flow_shop.specs.Shop.{IsWithinLimits};
ghost use Rattle.flow_shop.specs.Sequences.{AreJobs};
ghost use Rattle.flow_c.specs.Statuses as statuses;
ghost use Rattle.flow_c.specs.Statuses.{memory};
ghost use Rattle.flow_c.specs.Faults.{shop_of, numbers_fault};
ghost use Rattle.flow_c.specs.Searches.{IsCome, IsRestTooLong, prove_fault};
ghost use Rattle.flow_c.specs.internal.Parts.{IsComeTo, IsToldBy, LeavesShort};

use crate::fault::Fault;
use crate::node::NodeLists;
use crate::part::numbers_of;
use crate::room::need;
use crate::shop::ShopNumbers;
use flow_directions::{Advanced, Part, Tallied, advance, tally};
use flow_shop::{Instance, Sequence};
use std::alloc::{AllocError, Global};

/// The directions prove the threshold.
const PROVED: u32 = 1;

/// A sequence is below the threshold.
const BELOW: u32 = 2;

/// There are more directions than there may be.
const OVER: u32 = 3;

/// What a search came to, apart from its directions.
#[derive(Debug, Drop)]
pub(crate) enum Came {
    /// The directions prove the threshold.
    Proved,
    /// A sequence is below the threshold.
    Below {
        /// The first one, in the order of the search.
        sequence: Sequence,
        /// Its makespan.
        makespan: u64,
    },
    /// There are more directions than there may be. The search goes on with these parts.
    Rest(Vec<Part>),
}

/// What is kept of the directions of a search: their signs, or their number.
pub(crate) trait Kept: Drop {
    // It is kept of these.
    ghost is_of: { Self → List ℕ → Type 0 };

    /// Searches a node of an instance, and keeps this of at most so many directions. A fault is that memory ran out.
    fn search(
        alloc: Global,
        instance: &Instance,
        node: &NodeLists,
        threshold: u64,
        budget: u64,
    ) -> Result<(Came, Self), Fault>
        requires jobs { AreJobs instance.now.jobs (node.now.first.now ++ node.now.last.now) }
        ensures came { IfOk result (λ found. (text : List ℕ) × is_of found.1 text
            × IsCome instance.now threshold budget node.now text found.0) }
        ensures refused { IfErr result (λ fault. statuses.number fault ≡ memory) };
}

/// Their signs.
impl Kept for Vec<u8> {
    ghost is_of = { λ signs text. signs.items ≡ text };

    fn search(
        alloc: Global,
        instance: &Instance,
        node: &NodeLists,
        threshold: u64,
        budget: u64,
    ) -> Result<(Came, Vec<u8>), Fault> {
        match advance(alloc, instance, node.first, node.last, threshold, budget) {
            Ok(Advanced::Proved(directions)) => Ok((Came::Proved, directions)),
            Ok(
                Advanced::Below {
                    sequence,
                    makespan,
                    directions,
                },
            ) => Ok((Came::Below { sequence, makespan }, directions)),
            Ok(Advanced::Rest { directions, parts }) => Ok((Came::Rest(parts), directions)),
            // The lists are those of a node, so a fault is that memory ran out.
            Err(_) => Err(Fault::Memory),
        }
    }
}

/// Their number.
impl Kept for u64 {
    ghost is_of = { λ count text. count ≡ length text };

    fn search(
        alloc: Global,
        instance: &Instance,
        node: &NodeLists,
        threshold: u64,
        budget: u64,
    ) -> Result<(Came, u64), Fault> {
        match tally(alloc, instance, node.first, node.last, threshold, budget) {
            Ok(Tallied::Proved(count)) => Ok((Came::Proved, count)),
            Ok(
                Tallied::Below {
                    sequence,
                    makespan,
                    directions,
                },
            ) => Ok((Came::Below { sequence, makespan }, directions)),
            Ok(Tallied::Rest(parts)) => Ok((Came::Rest(parts), budget)),
            // The lists are those of a node, so a fault is that memory ran out.
            Err(_) => Err(Fault::Memory),
        }
    }
}

/// What a search came to, as it is told, apart from its directions.
#[derive(Debug, Drop)]
pub(crate) struct Told {
    /// What it came to.
    pub(crate) found: u32,
    /// The jobs of a sequence; none where there is no sequence.
    pub(crate) sequence: Vec<u16>,
    /// Its makespan; 0 where there is none.
    pub(crate) makespan: u64,
    /// The numbers of the parts that are left.
    pub(crate) rest: Vec<u16>,
}

/// What a search may take.
#[derive(Clone, Copy, Debug)]
pub(crate) struct PartLimits {
    /// The most directions.
    pub(crate) budget: u64,
    /// The entries for a sequence.
    pub(crate) sequence: usize,
    /// The entries for the numbers of the parts that are left.
    pub(crate) rest: usize,
}

impl Came {
    /// What a search came to, as it is told.
    fn told(self, alloc: Global) -> Result<Told, AllocError>
        requires { LeavesShort self }
        ensures { IfOk result (IsToldBy self) }
    {
        match self {
            Came::Proved => Ok(Told {
                found: PROVED,
                sequence: Vec::new(alloc),
                makespan: 0,
                rest: Vec::new(alloc),
            }),
            Came::Below { sequence, makespan } => Ok(Told {
                found: BELOW,
                sequence: Vec::from_slice(alloc, sequence.jobs())?,
                makespan,
                rest: Vec::new(alloc),
            }),
            Came::Rest(parts) => Ok(Told {
                found: OVER,
                sequence: Vec::new(alloc),
                makespan: 0,
                rest: numbers_of(alloc, parts.as_slice())?,
            }),
        }
    }
}

/// Searches a node, and tells what the search came to, where there is room for the parts that are left.
fn search<K: Kept>(
    alloc: Global,
    instance: &Instance,
    node: &NodeLists,
    threshold: u64,
    limits: PartLimits,
) -> Result<(Told, K), Fault>
    requires limits { IsWithinLimits instance.now }
    requires jobs { AreJobs instance.now.jobs (node.now.first.now ++ node.now.last.now) }
    ensures found { IfOk result (λ found. (text : List ℕ) × K.is_of found.1 text
        × IsComeTo instance.now threshold limits.budget node.now text found.0) }
    ensures enough { IfOk result (λ found. length found.0.rest.items ≤ limits.rest) }
    ensures refused { IfErr result (λ fault. (statuses.number fault ≡ memory)
        ⊎ IsRestTooLong instance.now threshold limits.budget node.now limits.rest fault) }
{
    let (came, kept) = K::search(alloc, instance, node, threshold, limits.budget)?;
    let told = came.told(alloc)?;
    need(told.rest.len(), limits.rest)?;
    Ok((told, kept))
}

/// Searches a node of the instance of these numbers, where there is room for what the search comes to.
pub(crate) fn search_numbers<K: Kept>(
    alloc: Global,
    shop: &ShopNumbers,
    node: &NodeLists,
    threshold: u64,
    limits: PartLimits,
) -> Result<(Told, K), Fault>
    ensures found { IfOk result (λ found. (text : List ℕ) × K.is_of found.1 text
        × IsComeTo (shop_of shop.now) threshold limits.budget node.now text found.0) }
    ensures jobs { OnOk result (AreJobs shop.now.jobs (node.now.first.now ++ node.now.last.now)) }
    ensures room { OnOk result (shop.now.jobs ≤ limits.sequence) }
    ensures enough { IfOk result (λ found. length found.0.rest.items ≤ limits.rest) }
    ensures accepted { OnOk result (prove_fault shop.now node.now limits.sequence ≡ None) }
    ensures refused { IfErr result (λ fault. (statuses.number fault ≡ memory)
        ⊎ (prove_fault shop.now node.now limits.sequence ≡ Some fault)
        ⊎ ((prove_fault shop.now node.now limits.sequence ≡ None)
        × IsRestTooLong (shop_of shop.now) threshold limits.budget node.now limits.rest fault)) }
    ensures memory { IfErr result (λ fault. statuses.number fault ≡ memory → numbers_fault shop.now ≡ None) }
{
    let instance = shop.instance(alloc)?;
    node.test(&instance)?;
    need(shop.jobs as usize, limits.sequence)?;
    search(alloc, &instance, node, threshold, limits)
}
