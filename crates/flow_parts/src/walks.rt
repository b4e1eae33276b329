//! Walks through the places. Each has at most as many steps as the array has places.

ghost use Rattle.std.specs.Prelude.{◌≡◌, ℕ, ◌+◌, ◌<◌, ◌≤◌, ◌^◌, List, length};
ghost use Rattle.flow_parts.specs.Orders.{IsLinked, place_at, settled_in};
ghost use Rattle.flow_parts.specs.internal.Walks.{AreAdded, AreCountable, AreDropped, IsBegun, IsCounted};
ghost use Rattle.flow_parts.specs.internal.Walks.{IsFirstWaiting, IsPassed, IsRunTo, start_of};

use crate::place::{DROPPED, Place, SEARCHED, WAITS, place_at, set_place};

/// What is counted at places that are dropped.
#[derive(Clone, Copy)]
pub(crate) struct Dropped {
    /// How many of them were open.
    pub(crate) open: u64,
    /// How many directions were written at the others.
    pub(crate) written: u64,
}

/// Drops the places from one on, by the links of the order.
pub(crate) fn drop_from(places: &mut [Place], start: u64) -> Dropped
    ensures dropped { (rest : List ℕ) → AreCountable places.old start rest →
        AreDropped (place_at places.old) (place_at places.new) rest }
    ensures counted { (rest : List ℕ) → AreCountable places.old start rest →
        IsCounted (place_at places.old) rest result }
{
    let mut dropped = Dropped {
        open: 0,
        written: 0,
    };
    let mut link = start;
    'places: for _step in 0..places.len() {
        if link == 0 {
            break;
        }
        let number = link - 1;
        let place = place_at(places, number);
        dropped.open = dropped.open.saturating_add(place.open());
        dropped.written = dropped.written.saturating_add(place.counted());
        set_place(
            places,
            number,
            Place {
                state: DROPPED,
                ..place
            },
        );
        link = place.next;
    }
    dropped
}

/// Writes so many places that wait, from a number on, one behind the other, and before the place of a link.
pub(crate) fn add_places(places: &mut [Place], first: u64, count: u64, next: u64)
    ensures { first + count ≤ length places.old → first + count < 2 ^ 64 →
        AreAdded (place_at places.old) (place_at places.new) first count next }
{
    let mut next = next;
    'places: for index in (0..count).rev() {
        let number = first.saturating_add(index);
        set_place(
            places,
            number,
            Place {
                written: 0,
                next,
                state: WAITS,
                skip: 0,
            },
        );
        next = number.saturating_add(1);
    }
}

/// The link of the first of so many new places, from a number on; another link where there are none.
pub(crate) fn start_of(first: u64, count: u64, otherwise: u64) -> u64
    ensures { first + count < 2 ^ 64 → result ≡ start_of first count otherwise }
{
    if count == 0 {
        otherwise
    } else {
        first.saturating_add(1)
    }
}

/// The places before the first open one.
#[derive(Clone, Copy)]
pub(crate) struct Settled {
    /// How many directions were written at them, and before.
    pub(crate) written: u64,
    /// One more than the first open place, or 0.
    pub(crate) first_open: u64,
}

/// Passes over the places from one on that are not open, by the links of the order.
pub(crate) fn settle_from(places: &[Place], settled: Settled) -> Settled
    ensures { (rest : List ℕ) → IsLinked (λ number. (place_at places.now number).next) settled.first_open rest →
        length rest ≤ length places.now → settled.written + settled_in (place_at places.now) rest < 2 ^ 64 →
        IsPassed (place_at places.now) settled result rest }
{
    let mut settled = settled;
    'places: for _step in 0..places.len() {
        if settled.first_open == 0 {
            break;
        }
        let place = place_at(places, settled.first_open - 1);
        if place.is_open() {
            break;
        }
        settled.written = settled.written.saturating_add(place.written);
        settled.first_open = place.next;
    }
    settled
}

/// The link of the first place that waits, from the place of a link on; 0 where none waits. The first place of each run
/// that was searched skips to the last one from now on, so that no later walk goes through the run.
pub(crate) fn waiting_from(places: &mut [Place], start: u64) -> u64
    ensures { (order : List ℕ) → IsBegun places.old start order →
        IsFirstWaiting (place_at places.old) (place_at places.new) order result }
{
    let mut link = start;
    let mut run = 0;
    'places: for _step in 0..places.len() {
        if link == 0 {
            break;
        }
        let place = place_at(places, link - 1);
        if place.state == WAITS {
            return link;
        }
        if place.state == SEARCHED {
            run = run_to(places, run, link);
            link = place.onward();
        } else {
            run = 0;
            link = place.next;
        }
    }
    0
}

/// The link of the first place of a run of searched places, once it goes on with the place of a link: this one, where
/// there was none; else the first one skips to it, where its skip has room for the link.
fn run_to(places: &mut [Place], run: u64, link: u64) -> u64
    ensures { IsRunTo (place_at places.old) (place_at places.new) run link result }
{
    if run == 0 {
        return link;
    }
    if let Ok(skip) = u32::try_from(link) {
        let place = place_at(places, run - 1);
        set_place(places, run - 1, Place { skip, ..place });
    }
    run
}
