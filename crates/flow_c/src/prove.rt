//! A part of a search for directions, which writes them.

ghost use Rattle.std.specs.Prelude.{◌≡◌, ◌⊎◌, ◌≤◌, None, length, take, drop};
ghost use Rattle.flow_shop.specs.Directions.{ProvesFrom};
ghost use Rattle.flow_c.specs.Statuses.{done, memory};
ghost use Rattle.flow_c.specs.Faults.{shop_of, numbers_fault};
ghost use Rattle.flow_c.specs.Checks.{ReportsCheck};
ghost use Rattle.flow_c.specs.Searches.{proved, below, most_rest, IsBelow, IsSearched, IsRestTooLong, prove_fault};
ghost use Rattle.flow_c.specs.Rooms.{IsSameRoom};

use crate::came::{PartLimits, search_numbers};
use crate::node::NodeLists;
use crate::outcome::Outcome;
use crate::room::fill;
use crate::shop::ShopNumbers;
use std::alloc::Global;

/// Room for what a search comes to, and what is said of it.
#[repr(C)]
pub struct PartRooms<'a> {
    /// Room for a sequence.
    pub sequence: &'a mut [u16],
    /// Room for directions: as many as there may be.
    pub directions: &'a mut [u8],
    /// Room for the numbers of the parts that are left.
    pub rest: &'a mut [u16],
    /// What the search came to.
    pub found: u32,
    /// The makespan of the sequence; 0 where there is none.
    pub makespan: u64,
    /// How many directions there are.
    pub directions_length: usize,
    /// How many numbers the parts that are left have.
    pub rest_length: usize,
}

/// A part of a search for directions that prove that no sequence of a node has a makespan below a threshold: it may
/// write as many as there is room for. The directions become the first entries of `directions`. Where there are more of
/// them, the parts with which the search goes on become, as numbers, the first entries of `rest`. A sequence below the
/// threshold becomes the first entries of `sequence`.
#[unsafe(no_mangle)]
pub extern "C" fn flowshop_prove(
    alloc: Global,
    shop: &ShopNumbers,
    node: &NodeLists,
    threshold: u64,
    part: &mut PartRooms,
) -> Outcome
    ensures status { ReportsCheck (prove_fault shop.now node.now (length part.old.sequence.now))
        (IsRestTooLong (shop_of shop.now) threshold (length part.old.directions.now) node.now
        (length part.old.rest.now))
        result }
    ensures enough { prove_fault shop.now node.now (length part.old.sequence.now) ≡ None →
        most_rest shop.now.jobs ≤ length part.old.rest.now → (result.status ≡ done) ⊎ (result.status ≡ memory) }
    ensures memory { result.status ≡ memory → numbers_fault shop.now ≡ None }
    ensures searched { result.status ≡ done →
        IsSearched (shop_of shop.now) threshold (length part.old.directions.now) node.now
        part.new.found part.new.sequence.now part.new.makespan
        (take part.new.directions_length part.new.directions.now) (take part.new.rest_length part.new.rest.now) }
    ensures proved { result.status ≡ done → part.new.found ≡ proved →
        ProvesFrom (shop_of shop.now) threshold node.now.first.now node.now.last.now
        (take part.new.directions_length part.new.directions.now) }
    ensures below { result.status ≡ done → part.new.found ≡ below →
        IsBelow (shop_of shop.now) threshold node.now (take shop.now.jobs part.new.sequence.now) part.new.makespan }
    ensures none { result.status ≡ done →
        (part.new.found ≡ below) ⊎ (part.new.sequence.now ≡ part.old.sequence.now) }
    ensures within { result.status ≡ done → (part.new.directions_length ≤ length part.old.directions.now)
        × (part.new.rest_length ≤ length part.old.rest.now) }
    ensures rest { drop shop.now.jobs part.new.sequence.now ≡ drop shop.now.jobs part.old.sequence.now }
    ensures beyond { result.status ≡ done → (drop part.new.directions_length part.new.directions.now
        ≡ drop part.new.directions_length part.old.directions.now)
        × (drop part.new.rest_length part.new.rest.now ≡ drop part.new.rest_length part.old.rest.now) }
    ensures rooms { IsSameRoom part.new.sequence part.old.sequence × IsSameRoom part.new.directions part.old.directions
        × IsSameRoom part.new.rest part.old.rest }
    ensures stays { result.status ≡ done → result.place ≡ 0 }
    ensures kept { (result.status ≡ done) ⊎ (part.new ≡ part.old) }
{
    let limits = PartLimits {
        budget: part.directions.len() as u64,
        sequence: part.sequence.len(),
        rest: part.rest.len(),
    };
    match search_numbers::<Vec<u8>>(alloc, shop, node, threshold, limits) {
        Ok((told, directions)) => {
            fill(told.sequence.as_slice(), part.sequence);
            fill(directions.as_slice(), part.directions);
            fill(told.rest.as_slice(), part.rest);
            part.found = told.found;
            part.makespan = told.makespan;
            part.directions_length = directions.len();
            part.rest_length = told.rest.len();
            Outcome::done()
        }
        Err(fault) => Outcome::refused(fault),
    }
}
