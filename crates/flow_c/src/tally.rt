//! A part of a search for directions, which counts them.

ghost use Rattle.std.specs.Prelude.{◌≡◌, ◌⊎◌, ◌≤◌, None, length, take, drop};
ghost use Rattle.flow_c.specs.Statuses.{done, memory};
ghost use Rattle.flow_c.specs.Faults.{shop_of, numbers_fault};
ghost use Rattle.flow_c.specs.Checks.{ReportsCheck};
ghost use Rattle.flow_c.specs.Searches.{proved, below, most_rest, IsBelow, IsCounted, IsProvedBy, IsRestTooLong};
ghost use Rattle.flow_c.specs.Searches.{prove_fault};
ghost use Rattle.flow_c.specs.Rooms.{IsSameRoom};

use crate::came::{PartLimits, search_numbers};
use crate::node::NodeLists;
use crate::outcome::Outcome;
use crate::room::fill;
use crate::shop::ShopNumbers;
use std::alloc::Global;

/// Room for what a search comes to that counts its directions, and what is said of it. It lies in memory as `PartRooms`
/// does.
#[repr(C)]
pub struct TallyRooms<'a> {
    /// Room for a sequence.
    pub sequence: &'a mut [u16],
    /// Where room for directions is; nobody looks there.
    pub directions: usize,
    /// How many entries that room has.
    pub directions_count: usize,
    /// Room for the numbers of the parts that are left.
    pub rest: &'a mut [u16],
    /// What the search came to.
    pub found: u32,
    /// The makespan of the sequence; 0 where there is none.
    pub makespan: u64,
    /// How many directions there are.
    pub directions_length: usize,
    /// How many numbers the parts that are left have.
    pub rest_length: usize,
}

/// The same part of a search as that of `flowshop_prove`, which counts the directions instead of writing them, at most
/// so many. `directions_length` becomes how many `flowshop_prove` would have written with room for so many.
#[unsafe(no_mangle)]
pub extern "C" fn flowshop_tally(
    alloc: Global,
    shop: &ShopNumbers,
    node: &NodeLists,
    threshold: u64,
    budget: u64,
    part: &mut TallyRooms,
) -> Outcome
    ensures status { ReportsCheck (prove_fault shop.now node.now (length part.old.sequence.now))
        (IsRestTooLong (shop_of shop.now) threshold budget node.now (length part.old.rest.now)) result }
    ensures enough { prove_fault shop.now node.now (length part.old.sequence.now) ≡ None →
        most_rest shop.now.jobs ≤ length part.old.rest.now → (result.status ≡ done) ⊎ (result.status ≡ memory) }
    ensures memory { result.status ≡ memory → numbers_fault shop.now ≡ None }
    ensures searched { result.status ≡ done →
        IsCounted (shop_of shop.now) threshold budget node.now
        part.new.found part.new.sequence.now part.new.makespan part.new.directions_length
        (take part.new.rest_length part.new.rest.now) }
    ensures proved { result.status ≡ done → part.new.found ≡ proved →
        IsProvedBy (shop_of shop.now) threshold node.now part.new.directions_length }
    ensures below { result.status ≡ done → part.new.found ≡ below →
        IsBelow (shop_of shop.now) threshold node.now (take shop.now.jobs part.new.sequence.now) part.new.makespan }
    ensures none { result.status ≡ done →
        (part.new.found ≡ below) ⊎ (part.new.sequence.now ≡ part.old.sequence.now) }
    ensures within { result.status ≡ done → (part.new.directions_length ≤ budget)
        × (part.new.rest_length ≤ length part.old.rest.now) }
    ensures rest { drop shop.now.jobs part.new.sequence.now ≡ drop shop.now.jobs part.old.sequence.now }
    ensures beyond { result.status ≡ done →
        drop part.new.rest_length part.new.rest.now ≡ drop part.new.rest_length part.old.rest.now }
    ensures rooms { IsSameRoom part.new.sequence part.old.sequence × IsSameRoom part.new.rest part.old.rest }
    ensures unseen { (part.new.directions ≡ part.old.directions)
        × (part.new.directions_count ≡ part.old.directions_count) }
    ensures stays { result.status ≡ done → result.place ≡ 0 }
    ensures kept { (result.status ≡ done) ⊎ (part.new ≡ part.old) }
{
    let limits = PartLimits {
        budget,
        sequence: part.sequence.len(),
        rest: part.rest.len(),
    };
    match search_numbers::<u64>(alloc, shop, node, threshold, limits) {
        Ok((told, count)) => {
            fill(told.sequence.as_slice(), part.sequence);
            fill(told.rest.as_slice(), part.rest);
            part.found = told.found;
            part.makespan = told.makespan;
            part.directions_length = count as usize;
            part.rest_length = told.rest.len();
            Outcome::done()
        }
        Err(fault) => Outcome::refused(fault),
    }
}
