//! A search that is shared: the places of its parts, in their order.

ghost use Rattle.std.specs.Prelude.{◌≡◌, ◌<◌, ◌≤◌, ℕ, None, Some, List, [], ◌∷◌, length};
ghost use Rattle.flow_parts.specs.Orders.{place_at};
ghost use Rattle.flow_parts.specs.Searches.{IsPut, IsSearch, decided_of, put_of};
ghost use Rattle.flow_parts.specs.declared.answer.Put.TheVariants.{Taken, Late};
ghost use Rattle.flow_c.specs.Faults.{HasFault, IsDone};
ghost use Rattle.flow_c.specs.Shared.{IsGiven, first_number, found_number, found_place, needed_places, put_fault};
ghost use Rattle.flow_c.specs.Shared.{searched_of};
ghost use Rattle.flow_c.specs.declared.fault.Fault.{Fault};
ghost use Rattle.flow_c.specs.declared.fault.Fault.TheVariants.{Room};

use crate::fault::Fault;
use crate::outcome::Outcome;
use flow_parts::{Decided, Place, Put, Search, Searched};

/// What became of a place that was given, as numbers.
#[repr(C)]
#[derive(Clone, Copy, Debug)]
pub struct SearchedNumbers {
    /// How many directions were written there.
    pub written: u64,
    /// How many places are left behind these; it counts for nothing where a sequence was reached.
    pub left: u32,
    /// 0; else a sequence below the number comes behind these directions.
    pub reached: u32,
}

impl SearchedNumbers {
    /// The same as a record of the search.
    fn searched(&self) -> Searched
        ensures { result ≡ searched_of self.now }
    {
        Searched {
            written: self.written,
            left: self.left,
            reached: self.reached != 0,
        }
    }
}

/// Begins a search that is shared, of at most so many directions: place 0, which stands for all of it, waits. The other
/// entries of the array stay as they were.
#[unsafe(no_mangle)]
pub extern "C" fn flowshop_search(budget: u64, places: &mut [Place], search: &mut Search) -> Outcome
    ensures begun { 0 < length places.old → IsDone result × IsSearch search.new places.new (0 ∷ [])
        × (search.new.budget ≡ budget) × (search.new.places ≡ 1) × ((place_at places.new 0).state ≡ 0) }
    ensures unused { (number : ℕ) → 1 ≤ number → place_at places.new number ≡ place_at places.old number }
    ensures refused { length places.old ≡ 0 → HasFault (Room 1) result × (search.new ≡ search.old)
        × (places.new ≡ places.old) }
{
    match Search::new(budget, places) {
        Some(begun) => {
            *search = begun;
            Outcome::done()
        }
        None => Outcome::refused(Fault::Room(1)),
    }
}

/// Gives the first place in order that waits: `place` becomes one more than it, or 0 where none waits.
#[unsafe(no_mangle)]
pub extern "C" fn flowshop_search_give(
    search: &Search,
    places: &mut [Place],
    place: &mut u64,
) -> Outcome
    ensures done { IsDone result }
    ensures given { (order : List ℕ) → IsSearch search.now places.old order →
        IsGiven search.now places.old places.new order place.new }
{
    *place = match search.give(places) {
        Some(number) => number.saturating_add(1),
        None => 0,
    };
    Outcome::done()
}

/// Takes what became of a place that was given. `first` becomes one more than the first of the places that are left,
/// or 0 where the answer is late: then nothing else changes.
#[unsafe(no_mangle)]
pub extern "C" fn flowshop_search_put(
    search: &mut Search,
    places: &mut [Place],
    place: u64,
    searched: &SearchedNumbers,
    first: &mut u64,
) -> Outcome
    ensures accepted { put_fault (needed_places search.old searched.now)
        (put_of search.old places.old place (searched_of searched.now)) ≡ None →
        IsDone result × (first.new ≡ first_number (put_of search.old places.old place (searched_of searched.now))) }
    ensures refused { (fault : Fault) → put_fault (needed_places search.old searched.now)
        (put_of search.old places.old place (searched_of searched.now)) ≡ Some fault →
        HasFault fault result × (search.new ≡ search.old) × (places.new ≡ places.old) × (first.new ≡ first.old) }
    ensures taken { (order : List ℕ) → IsSearch search.old places.old order →
        put_of search.old places.old place (searched_of searched.now) ≡ Taken search.old.places →
        IsPut search.old search.new places.old places.new order place (searched_of searched.now) }
    ensures late { put_of search.old places.old place (searched_of searched.now) ≡ Late →
        (search.new ≡ search.old) × (places.new ≡ places.old) }
{
    let needed = search.places.saturating_add(u64::from(searched.left));
    match search.put(places, place, &searched.searched()) {
        Put::Taken { first: begins } => {
            *first = begins.saturating_add(1);
            Outcome::done()
        }
        Put::Late => {
            *first = 0;
            Outcome::done()
        }
        Put::NoRoom => Outcome::refused(Fault::Room(needed as usize)),
        Put::TooMany => Outcome::refused(Fault::NoAnswer),
    }
}

/// What a search came to: `found` becomes 1 where it is proved, 2 where a sequence was reached, at `place`, 3 where it
/// is over its budget, and 0 where it is not decided.
#[unsafe(no_mangle)]
pub extern "C" fn flowshop_search_found(
    search: &Search,
    found: &mut u32,
    place: &mut u64,
) -> Outcome
    ensures done { IsDone result }
    ensures found { found.new ≡ found_number (decided_of search.now) }
    ensures place { place.new ≡ found_place (decided_of search.now) }
{
    (*found, *place) = match search.found() {
        None => (0, 0),
        Some(Decided::Proved { .. }) => (1, 0),
        Some(Decided::Below { place, .. }) => (2, place),
        Some(Decided::Over) => (3, 0),
    };
    Outcome::done()
}
