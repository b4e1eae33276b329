//! Searches call by call, worked out by hand.

use crate::place::{place_at, set_place};
use crate::{Decided, Place, Put, Search, Searched};
use std::test::Fail;

/// A call, and what it returns.
#[derive(Clone, Copy)]
enum Call {
    /// A place is given.
    Give(Option<u64>),
    /// At a place so many directions were written, and the search goes on with so many new places.
    GoesOn(u64, u64, u32, Put),
    /// At a place so many directions were written, and then a sequence was reached.
    Reaches(u64, u64, Put),
    /// The caller writes into the array what a place skips.
    Skip(u64, u32),
}

use Call::{Give, GoesOn, Reaches, Skip};
use Put::{Late, NoRoom, Taken, TooMany};

/// A search: its budget, how many places the array has, and the calls; then its places in order, the skips of those
/// that have one, how many directions are written and settled, how many places are open, and what it came to.
type History = (
    u64,
    usize,
    &'static [Call],
    &'static [u64],
    &'static [(u64, u32)],
    [u64; 3],
    Option<Decided>,
);

/// The most places of an array.
const MOST: usize = 9;

static HISTORIES: [History; 23] = [
    // The whole search is one place.
    (
        5,
        1,
        &[
            Give(Some(0)),
            Give(None),
            GoesOn(0, 5, 0, Taken { first: 1 }),
            Give(None),
        ],
        &[0],
        &[],
        [5, 5, 0],
        Some(Decided::Proved { directions: 5 }),
    ),
    (
        4,
        1,
        &[Give(Some(0)), GoesOn(0, 5, 0, Taken { first: 1 })],
        &[0],
        &[],
        [5, 5, 0],
        Some(Decided::Over),
    ),
    (
        5,
        1,
        &[Give(Some(0)), Reaches(0, 5, Taken { first: 1 })],
        &[0],
        &[],
        [5, 5, 0],
        Some(Decided::Below {
            place: 0,
            directions: 5,
        }),
    ),
    (
        0,
        1,
        &[Give(Some(0)), Reaches(0, 1, Taken { first: 1 })],
        &[0],
        &[],
        [1, 1, 0],
        Some(Decided::Over),
    ),
    // New places stand behind theirs.
    (
        100,
        8,
        &[
            Give(Some(0)),
            GoesOn(0, 10, 3, Taken { first: 1 }),
            Give(Some(1)),
            Give(Some(2)),
            GoesOn(2, 7, 2, Taken { first: 4 }),
            Give(Some(4)),
        ],
        &[0, 1, 2, 4, 5, 3],
        &[],
        [17, 10, 4],
        None,
    ),
    // Behind a sequence all is dropped; what is before it is still searched.
    (
        100,
        4,
        &[
            Give(Some(0)),
            GoesOn(0, 1, 3, Taken { first: 1 }),
            Give(Some(1)),
            Give(Some(2)),
            Give(Some(3)),
            GoesOn(3, 50, 0, Taken { first: 4 }),
            Reaches(2, 4, Taken { first: 4 }),
            GoesOn(3, 50, 0, Late),
            Reaches(2, 4, Late),
        ],
        &[0, 1, 2],
        &[],
        [5, 1, 1],
        None,
    ),
    (
        100,
        4,
        &[
            Give(Some(0)),
            GoesOn(0, 1, 3, Taken { first: 1 }),
            Give(Some(1)),
            Give(Some(2)),
            Reaches(2, 4, Taken { first: 4 }),
            Give(None),
            GoesOn(1, 2, 0, Taken { first: 4 }),
        ],
        &[0, 1, 2],
        &[],
        [7, 7, 0],
        Some(Decided::Below {
            place: 2,
            directions: 7,
        }),
    ),
    // An earlier place reaches a sequence later.
    (
        100,
        4,
        &[
            Give(Some(0)),
            GoesOn(0, 1, 3, Taken { first: 1 }),
            Give(Some(1)),
            Give(Some(2)),
            Reaches(2, 4, Taken { first: 4 }),
            Reaches(1, 2, Taken { first: 4 }),
        ],
        &[0, 1],
        &[],
        [3, 3, 0],
        Some(Decided::Below {
            place: 1,
            directions: 3,
        }),
    ),
    // Directions behind an open place count once it is searched: it may reach a sequence.
    (
        10,
        3,
        &[
            Give(Some(0)),
            GoesOn(0, 0, 2, Taken { first: 1 }),
            Give(Some(1)),
            Give(Some(2)),
            GoesOn(2, 100, 0, Taken { first: 3 }),
        ],
        &[0, 1, 2],
        &[],
        [100, 0, 1],
        None,
    ),
    (
        10,
        3,
        &[
            Give(Some(0)),
            GoesOn(0, 0, 2, Taken { first: 1 }),
            Give(Some(1)),
            Give(Some(2)),
            GoesOn(2, 100, 0, Taken { first: 3 }),
            GoesOn(1, 0, 0, Taken { first: 3 }),
        ],
        &[0, 1, 2],
        &[],
        [100, 100, 0],
        Some(Decided::Over),
    ),
    // What waits is given in order, whenever it was put in.
    (
        9,
        6,
        &[
            Give(Some(0)),
            GoesOn(0, 0, 3, Taken { first: 1 }),
            Give(Some(1)),
            Give(Some(2)),
            GoesOn(1, 5, 1, Taken { first: 4 }),
            GoesOn(2, 3, 1, Taken { first: 5 }),
            Give(Some(4)),
            Give(Some(5)),
            Give(Some(3)),
            Give(None),
        ],
        &[0, 1, 4, 2, 5, 3],
        &[],
        [8, 5, 3],
        None,
    ),
    // What was dropped is not given.
    (
        9,
        6,
        &[
            Give(Some(0)),
            GoesOn(0, 0, 3, Taken { first: 1 }),
            Give(Some(1)),
            GoesOn(1, 0, 2, Taken { first: 4 }),
            Give(Some(4)),
            Give(Some(5)),
            Give(Some(2)),
            Reaches(5, 1, Taken { first: 6 }),
            GoesOn(2, 3, 0, Late),
            Give(None),
        ],
        &[0, 1, 4, 5],
        &[],
        [1, 0, 1],
        None,
    ),
    // The first place of a run that was searched skips to the last one, once a walk has come through.
    (
        99,
        6,
        &[
            Give(Some(0)),
            GoesOn(0, 1, 5, Taken { first: 1 }),
            Give(Some(1)),
            Give(Some(2)),
            Give(Some(3)),
            Give(Some(4)),
            GoesOn(3, 1, 0, Taken { first: 6 }),
            GoesOn(2, 1, 0, Taken { first: 6 }),
            Give(Some(5)),
        ],
        &[0, 1, 2, 3, 4, 5],
        &[(2, 4)],
        [3, 1, 3],
        None,
    ),
    // A run goes on: it skips what it did, and more; also where it is the end of the order.
    (
        99,
        6,
        &[
            Give(Some(0)),
            GoesOn(0, 1, 5, Taken { first: 1 }),
            Give(Some(1)),
            Give(Some(2)),
            Give(Some(3)),
            GoesOn(3, 1, 0, Taken { first: 6 }),
            GoesOn(2, 1, 0, Taken { first: 6 }),
            Give(Some(4)),
            Give(Some(5)),
            GoesOn(5, 1, 0, Taken { first: 6 }),
            GoesOn(4, 1, 0, Taken { first: 6 }),
            Give(None),
            Give(None),
        ],
        &[0, 1, 2, 3, 4, 5],
        &[(2, 6)],
        [5, 1, 1],
        None,
    ),
    // New places behind a run, and between two runs, are not passed over; then both are one run.
    (
        99,
        9,
        &[
            Give(Some(0)),
            GoesOn(0, 1, 6, Taken { first: 1 }),
            Give(Some(1)),
            Give(Some(2)),
            Give(Some(3)),
            Give(Some(4)),
            Give(Some(5)),
            GoesOn(2, 1, 0, Taken { first: 7 }),
            GoesOn(4, 1, 0, Taken { first: 7 }),
            GoesOn(5, 1, 0, Taken { first: 7 }),
            Give(Some(6)),
            GoesOn(3, 1, 2, Taken { first: 7 }),
            Give(Some(7)),
            Give(Some(8)),
            GoesOn(8, 1, 0, Taken { first: 9 }),
            GoesOn(7, 1, 0, Taken { first: 9 }),
            Give(None),
        ],
        &[0, 1, 2, 3, 7, 8, 4, 5, 6],
        &[(2, 6), (4, 6)],
        [7, 1, 2],
        None,
    ),
    // A sequence between two runs drops the second one; new places before the first one are given.
    (
        99,
        9,
        &[
            Give(Some(0)),
            GoesOn(0, 1, 6, Taken { first: 1 }),
            Give(Some(1)),
            Give(Some(2)),
            Give(Some(3)),
            Give(Some(4)),
            Give(Some(5)),
            Give(Some(6)),
            GoesOn(2, 1, 0, Taken { first: 7 }),
            GoesOn(3, 1, 0, Taken { first: 7 }),
            GoesOn(5, 1, 0, Taken { first: 7 }),
            GoesOn(6, 1, 0, Taken { first: 7 }),
            Give(None),
            Reaches(4, 1, Taken { first: 7 }),
            Give(None),
            GoesOn(1, 1, 2, Taken { first: 7 }),
            Give(Some(7)),
            Give(Some(8)),
            Give(None),
        ],
        &[0, 1, 7, 8, 2, 3, 4],
        &[(2, 4)],
        [5, 2, 2],
        None,
    ),
    // A sequence at the place behind a run ends the order there.
    (
        99,
        4,
        &[
            Give(Some(0)),
            GoesOn(0, 1, 3, Taken { first: 1 }),
            Give(Some(1)),
            Give(Some(2)),
            Give(Some(3)),
            GoesOn(2, 1, 0, Taken { first: 4 }),
            Reaches(3, 1, Taken { first: 4 }),
            Give(None),
        ],
        &[0, 1, 2, 3],
        &[],
        [3, 1, 1],
        None,
    ),
    // Where no place skips, which is always lawful, runs are passed place by place, and skipped from then on.
    (
        99,
        7,
        &[
            Give(Some(0)),
            GoesOn(0, 1, 6, Taken { first: 1 }),
            Give(Some(1)),
            Give(Some(2)),
            Give(Some(3)),
            Give(Some(4)),
            GoesOn(2, 1, 0, Taken { first: 7 }),
            GoesOn(3, 1, 0, Taken { first: 7 }),
            GoesOn(4, 1, 0, Taken { first: 7 }),
            Give(Some(5)),
            Skip(2, 0),
            Give(Some(6)),
        ],
        &[0, 1, 2, 3, 4, 5, 6],
        &[(2, 5)],
        [4, 1, 3],
        None,
    ),
    // In an array that the caller has changed, skips are followed too, and each call ends.
    (
        99,
        5,
        &[
            Give(Some(0)),
            GoesOn(0, 1, 4, Taken { first: 1 }),
            Give(Some(1)),
            Give(Some(2)),
            GoesOn(2, 1, 0, Taken { first: 5 }),
            Skip(2, 5),
            Give(Some(4)),
            Skip(2, 3),
            Give(None),
            Skip(2, u32::MAX),
            Give(None),
            Skip(2, 0),
            Give(Some(3)),
        ],
        &[0, 1, 2, 3, 4],
        &[],
        [2, 1, 3],
        None,
    ),
    // Behind the last place there is none, whatever the array has there.
    (
        5,
        2,
        &[Give(Some(0)), GoesOn(1, 0, 0, Late)],
        &[0],
        &[],
        [0, 0, 1],
        None,
    ),
    // There is no room.
    (
        9,
        3,
        &[
            Give(Some(0)),
            GoesOn(0, 1, 3, NoRoom),
            GoesOn(0, 1, u32::MAX, NoRoom),
            GoesOn(u64::MAX, 1, 1, Late),
            GoesOn(0, 1, 2, Taken { first: 1 }),
            GoesOn(1, 1, 1, Late),
        ],
        &[0, 1, 2],
        &[],
        [1, 1, 2],
        None,
    ),
    // The greatest numbers.
    (
        u64::MAX,
        2,
        &[
            Give(Some(0)),
            GoesOn(0, u64::MAX, 1, Taken { first: 1 }),
            Give(Some(1)),
            GoesOn(1, 1, 0, TooMany),
            Reaches(1, u64::MAX, TooMany),
            GoesOn(1, 0, 0, Taken { first: 2 }),
        ],
        &[0, 1],
        &[],
        [u64::MAX, u64::MAX, 0],
        Some(Decided::Proved {
            directions: u64::MAX,
        }),
    ),
    (
        u64::MAX - 1,
        2,
        &[Give(Some(0)), GoesOn(0, u64::MAX, 1, Taken { first: 1 })],
        &[0, 1],
        &[],
        [u64::MAX, u64::MAX, 1],
        Some(Decided::Over),
    ),
];

/// Whether a call returns what it has to.
fn returns(search: &mut Search, places: &mut [Place], call: Call) -> bool {
    match call {
        Give(number) => search.give(places) == number,
        GoesOn(number, written, left, put) => {
            let searched = Searched {
                written,
                left,
                reached: false,
            };
            search.put(places, number, &searched) == put
        }
        Reaches(number, written, put) => {
            let searched = Searched {
                written,
                left: 7,
                reached: true,
            };
            search.put(places, number, &searched) == put
        }
        Skip(number, skip) => {
            let place = place_at(places, number);
            set_place(places, number, Place { skip, ..place });
            true
        }
    }
}

/// Whether these places stand one behind the other, from the first on.
fn stand_in_order(places: &[Place], order: &[u64]) -> bool {
    let mut link = 1;
    for number in order {
        if link != number.saturating_add(1) {
            return false;
        }
        link = place_at(places, *number).next;
    }
    link == 0
}

/// Whether of these places those skip others that are to, and no more.
fn skip_others(places: &[Place], order: &[u64], skips: &[(u64, u32)]) -> bool {
    for number in order {
        let mut wanted = 0;
        for (place, skip) in skips {
            if place == number {
                wanted = *skip;
            }
        }
        if place_at(places, *number).skip != wanted {
            return false;
        }
    }
    true
}

#[test]
fn searches_go_as_worked_out(rt: HostRuntime) -> Result<(), Fail> {
    for (row, (budget, room, calls, order, skips, counts, found)) in HISTORIES.iter().enumerate() {
        let none = Place {
            written: 9,
            next: 9,
            state: 1,
            skip: 0,
        };
        let mut array = [none; MOST];
        let places = &mut array[..(*room).min(MOST)];
        let started = Search::new(*budget, places);
        assert!(rt; started.is_some());
        let Some(mut search) = started else {
            return Ok(());
        };
        for (place, call) in calls.iter().enumerate() {
            assert!(rt;
                returns(&mut search, places, *call),
                "row {row}, call {place}"
            );
        }
        assert!(rt; stand_in_order(places, order), "row {row}");
        assert!(rt; skip_others(places, order, skips), "row {row}");
        assert_eq!(rt;
            [search.written, search.settled, search.open],
            *counts,
            "row {row}"
        );
        assert_eq!(rt; search.found(), *found, "row {row}");
    }
    assert!(rt; Search::new(5, &mut []).is_none());
    Ok(())
}
