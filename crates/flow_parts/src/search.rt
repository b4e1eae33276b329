//! The search: which place is given next, and what an answer changes.

ghost use Rattle.std.specs.Prelude.{◌≡◌, ◌↔◌, ℕ, ◌<◌, ◌≤◌, ◌+◌, ◌^◌, ◌⊎◌, true, false, List, [], ◌∷◌, length};
ghost use Rattle.std.specs.Prelude.{IfSome, IfNone, IsNone};
ghost use Rattle.flow_parts.specs.Orders.{IsLinked, first_open_in, place_at, settled_in};
ghost use Rattle.flow_parts.specs.Searches.{GivesNone, GivesPlace, IsPut, IsSearch, decided_of, is_given, put_of};

use crate::answer::{Decided, Put, Searched};
use crate::place::{GIVEN, Place, REACHED, SEARCHED, place_at, set_place};
use crate::walks::{Settled, add_places, drop_from, settle_from, start_of, waiting_from};

/// Where a search stands. With the array of its places it is numbers alone: both can be copied, kept in a file, and
/// gone on with. Each call is given the same array.
#[repr(C)]
#[derive(Clone, Copy, Debug)]
pub struct Search {
    /// The most directions.
    pub budget: u64,
    /// How many directions were written at the places in order.
    pub written: u64,
    /// How many of them stand before the first open place.
    pub settled: u64,
    /// One more than the first open place in order; 0 where none is open.
    pub first_open: u64,
    /// How many places in order are open: they wait or are given.
    pub open: u64,
    /// How many places of the array are used.
    pub places: u64,
    /// One more than the place at which a sequence was reached; 0 where none was.
    pub reached: u64,
}

impl Search {
    /// A search with a budget of directions: one place, the whole search, waits. None where the array has no room.
    pub fn new(budget: u64, places: &mut [Place]) -> Option<Search>
        ensures none { IsNone result ↔ (length places.old ≡ 0) }
        ensures begun { IfSome result (λ search. IsSearch search places.new (0 ∷ [])) }
        ensures waits { IfSome result (λ search. place_at places.new 0
            ≡ record { written = 0; next = 0; state = 0; skip = 0 }) }
        ensures budget { IfSome result (λ search. search.budget ≡ budget) }
        ensures places { IfSome result (λ search. search.places ≡ 1) }
        ensures unused { (number : ℕ) → 1 ≤ number → place_at places.new number ≡ place_at places.old number }
    {
        if places.is_empty() {
            return None;
        }
        add_places(places, 0, 1, 0);
        Some(Search {
            budget,
            written: 0,
            settled: 0,
            first_open: 1,
            open: 1,
            places: 1,
            reached: 0,
        })
    }

    /// Gives the first place in order that waits. None where none waits. Of the places before it nothing changes but what
    /// searched ones skip, so that the next call passes over them at once.
    pub fn give(&self, places: &mut [Place]) -> Option<u64>
        ensures given { (order : List ℕ) → IsSearch self.now places.old order → IfSome result
            (λ number. GivesPlace self.now places.old places.new order number) }
        ensures none { (order : List ℕ) → IsSearch self.now places.old order → IfNone result
            (GivesNone self.now places.old places.new order) }
    {
        let link = waiting_from(places, self.first_open);
        if link == 0 {
            return None;
        }
        let number = link - 1;
        let place = place_at(places, number);
        set_place(
            places,
            number,
            Place {
                state: GIVEN,
                ..place
            },
        );
        Some(number)
    }

    /// Takes what became of a place that was given.
    pub fn put(&mut self, places: &mut [Place], number: u64, searched: &Searched) -> Put
        ensures result { result ≡ put_of self.old places.old number searched.now }
        ensures taken { (order : List ℕ) → IsSearch self.old places.old order →
            result ≡ Put.Taken self.old.places →
            IsPut self.old self.new places.old places.new order number searched.now }
        ensures unchanged { (result ≡ Put.Taken self.old.places)
            ⊎ ((self.new ≡ self.old) × (places.new ≡ places.old)) }
    {
        if !self.is_given(places, number) {
            return Put::Late;
        }
        if self.written.checked_add(searched.written).is_none() {
            return Put::TooMany;
        }
        let first = self.places;
        if searched.reached {
            self.reach(places, number, searched);
            return Put::Taken { first };
        }
        let room = (places.len() as u64).checked_sub(first);
        if room.is_none_or(|room| u64::from(searched.left) > room) {
            return Put::NoRoom;
        }
        self.go_on(places, number, searched);
        Put::Taken { first }
    }

    /// What the search came to: that it is over its budget, as soon as the directions before the first open place are
    /// more; and that a sequence was reached, or none is, where no place is open. None where it goes on.
    pub fn found(&self) -> Option<Decided>
        ensures { result ≡ decided_of self.now }
    {
        if self.settled > self.budget {
            Some(Decided::Over)
        } else if self.open > 0 {
            None
        } else if self.reached > 0 {
            Some(Decided::Below {
                place: self.reached - 1,
                directions: self.settled,
            })
        } else {
            Some(Decided::Proved {
                directions: self.settled,
            })
        }
    }

    /// Whether a place is given.
    fn is_given(&self, places: &[Place], number: u64) -> bool
        ensures { result ≡ is_given self.now places.now number }
    {
        number < self.places && place_at(places, number).state == GIVEN
    }

    /// Ends the order at a given place at which a sequence was reached.
    fn reach(&mut self, places: &mut [Place], number: u64, searched: &Searched)
        ensures { (order : List ℕ) → IsSearch self.old places.old order →
            is_given self.old places.old number ≡ true → self.old.written + searched.now.written < 2 ^ 64 →
            searched.now.reached ≡ true →
            IsPut self.old self.new places.old places.new order number searched.now }
    {
        let place = place_at(places, number);
        let dropped = drop_from(places, place.next);
        set_place(
            places,
            number,
            Place {
                written: searched.written,
                next: 0,
                state: REACHED,
                skip: 0,
            },
        );
        self.reached = number.saturating_add(1);
        self.open = self.open.saturating_sub(1).saturating_sub(dropped.open);
        self.written = self
            .written
            .saturating_sub(dropped.written)
            .saturating_add(searched.written);
        self.settle(places);
    }

    /// Puts the new places behind a given one that was searched.
    fn go_on(&mut self, places: &mut [Place], number: u64, searched: &Searched)
        ensures { (order : List ℕ) → IsSearch self.old places.old order →
            is_given self.old places.old number ≡ true → self.old.written + searched.now.written < 2 ^ 64 →
            searched.now.reached ≡ false → self.old.places + searched.now.left ≤ length places.old →
            self.old.places + searched.now.left < 2 ^ 64 →
            IsPut self.old self.new places.old places.new order number searched.now }
    {
        let place = place_at(places, number);
        let first = self.places;
        let left = u64::from(searched.left);
        add_places(places, first, left, place.next);
        set_place(
            places,
            number,
            Place {
                written: searched.written,
                next: start_of(first, left, place.next),
                state: SEARCHED,
                skip: 0,
            },
        );
        self.places = first.saturating_add(left);
        self.open = self.open.saturating_sub(1).saturating_add(left);
        self.written = self.written.saturating_add(searched.written);
        self.settle(places);
    }

    /// Passes over the places that are not open, from the first open one on.
    fn settle(&mut self, places: &[Place])
        ensures { (rest : List ℕ) → IsLinked (λ number. (place_at places.now number).next) self.old.first_open rest →
            length rest ≤ length places.now → self.old.settled + settled_in (place_at places.now) rest < 2 ^ 64 →
            self.new ≡ record self.old {
              settled = self.old.settled + settled_in (place_at places.now) rest;
              first_open = first_open_in (place_at places.now) rest;
            } }
    {
        let settled = settle_from(
            places,
            Settled {
                written: self.settled,
                first_open: self.first_open,
            },
        );
        self.settled = settled.written;
        self.first_open = settled.first_open;
    }
}
