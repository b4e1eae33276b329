//! The outcome of a prefix: how its search ended.

ghost use Rattle.std.specs.Prelude.{◌≡◌, ◌<◌, ◌≤◌, length, true, IfOk};
ghost use Rattle.std.specs.Option.{option_map};
ghost use Rattle.flow_shop.specs.Sequences.{IsSequence};
ghost use Rattle.flow_search.specs.Plans.{prefixes_of, tree_of, best_of};
ghost use Rattle.flow_search.specs.internal.Nodes.{found_if};
ghost use Rattle.flow_search.specs.Outcomes.{IsLawful, solution_of};

use crate::budget::SearchFault;
use crate::few_left::ColumnMemory;
use crate::plan::Plan;
use crate::setting::Setting;
use crate::state::SearchState;
use crate::subtree::explore;
use flow_shop::{Front, Sequence, front_push};
use std::alloc::{AllocError, Global};

/// The best sequence that extends a prefix. Its makespan is below that of the start.
#[derive(Debug, PartialEq, Eq, Drop)]
pub struct Best {
    /// The makespan of the sequence.
    pub value: u64,
    /// The sequence.
    pub sequence: Sequence,
}

/// How the search of a prefix ended.
#[derive(Debug, PartialEq, Eq, Drop)]
pub enum Outcome {
    /// The whole subtree was searched.
    Done {
        /// The best of the prefix; `None` where no sequence has a smaller makespan than the start.
        best: Option<Best>,
        /// The tree of the prefix.
        tree: Vec<u8>,
    },
    /// The tree is longer than the budget.
    OverBudget,
    /// Memory ran out.
    NoMemory,
    /// The plan has no such prefix.
    NoPrefix,
}

/// Searches the subtree of a prefix.
fn search_prefix(alloc: Global, plan: &Plan, number: u32) -> Result<SearchState, SearchFault>
    requires { number < length (prefixes_of plan.now) }
    ensures best { IfOk result (λ search. found_if search ≡ best_of plan.now number) }
    ensures tree { IfOk result (λ search. search.tree.items ≡ tree_of plan.now number) }
    ensures within { IfOk result (λ search. length search.tree.items ≤ plan.now.options.budget) }
    ensures sequence { IfOk result (λ search. search.improved ≡ true →
        IsSequence plan.now.shop.jobs search.best.items) }
    ensures over { result ≡ Err SearchFault.OverBudget → plan.now.options.budget < length (tree_of plan.now number) }
{
    let instance = plan.instance();
    let prefix = plan.prefix(number);
    let jobs = instance.jobs();
    let mut search = SearchState::new(alloc, instance, plan.start_value())?;
    let mut front = Front::empty();
    for job in prefix {
        front_push(instance, &mut front, *job);
        search.enter(*job)?;
    }
    let count = jobs - prefix.len() as u16;
    let options = plan.options();
    let budget = options.budget() as usize;
    let version = options.version();
    let stack = Vec::with_capacity(alloc, count as usize)?;
    let setting = Setting {
        instance,
        rows: plan.rows(),
        budget,
        version,
    };
    let mut columns = ColumnMemory::new();
    explore(&setting, &front, count, &mut columns, &mut search, stack)?;
    Ok(search)
}

/// The best that a search found.
fn best_found(alloc: Global, search: &SearchState) -> Result<Option<Best>, AllocError>
    requires { search.now.improved ≡ true → IsSequence (length search.now.best.items) search.now.best.items }
    ensures { IfOk result (λ best. option_map solution_of best ≡ found_if search.now) }
{
    if !search.improved {
        return Ok(None);
    }
    let sequence = Sequence::of_known(alloc, search.best.as_slice())?;
    Ok(Some(Best {
        value: search.value,
        sequence,
    }))
}

/// The outcome of the prefix of a number, counted from 0.
pub fn answer(alloc: Global, plan: &Plan, number: u32) -> Outcome
    requires { number < length (prefixes_of plan.now) }
    ensures { IsLawful plan.now number result }
{
    let search = match search_prefix(alloc, plan, number) {
        Ok(search) => search,
        Err(SearchFault::OverBudget) => return Outcome::OverBudget,
        Err(SearchFault::Memory) => return Outcome::NoMemory,
    };
    match best_found(alloc, &search) {
        Ok(best) => Outcome::Done {
            best,
            tree: search.tree,
        },
        Err(_) => Outcome::NoMemory,
    }
}
