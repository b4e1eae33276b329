//! The budget of a tree.

ghost use Rattle.std.specs.Prelude.{◌≡◌, ◌≤◌, [], ◌∷◌, ◌++◌, length, Err, OnOk};
ghost use Rattle.flow_search.specs.declared.budget.SearchFault.TheVariants.{Memory};

use std::alloc::{AllocError, AllocFailed};

/// Why a search ended early.
#[derive(Clone, Copy)]
pub enum SearchFault {
    /// The tree is longer than the budget.
    OverBudget,
    /// Memory ran out.
    Memory,
}

impl From<AllocError> for SearchFault {
    ghost from_gives = { λ _ fault. fault ≡ Memory };

    fn from(_error: AllocError) -> SearchFault {
        SearchFault::Memory
    }
}

impl<T: Drop> From<AllocFailed<T>> for SearchFault {
    ghost from_gives = { λ _ fault. fault ≡ Memory };

    fn from(_error: AllocFailed<T>) -> SearchFault {
        SearchFault::Memory
    }
}

/// Appends a byte to a tree. `OverBudget` where the tree is as long as the budget.
#[inline(always)]
pub fn write_within(budget: usize, tree: &mut Vec<u8>, byte: u8) -> Result<(), SearchFault>
    ensures done { OnOk result (tree.new.items ≡ tree.old.items ++ byte ∷ []) }
    ensures within { OnOk result (length tree.new.items ≤ budget) }
    ensures over { result ≡ Err SearchFault.OverBudget → budget ≤ length tree.old.items }
{
    if tree.len() >= budget {
        return Err(SearchFault::OverBudget);
    }
    tree.push(byte)?;
    Ok(())
}
