//! The places of a search, in an array of the caller.

ghost use Rattle.std.specs.Prelude.{◌≡◌, length, slice_set};
ghost use Rattle.flow_parts.specs.Orders.{counted_in, is_open, open_in, place_at};
ghost use Rattle.flow_parts.specs.internal.Walks.{onward_of};

/// The state of a place that waits to be given to a worker.
pub(crate) const WAITS: u32 = 0;

/// The state of a place that is given to a worker.
pub(crate) const GIVEN: u32 = 1;

/// The state of a place that was searched.
pub(crate) const SEARCHED: u32 = 2;

/// The state of a place at which a sequence below the threshold was reached.
pub(crate) const REACHED: u32 = 3;

/// The state of a place that was dropped.
pub(crate) const DROPPED: u32 = 4;

/// One place of a search: parts that stand one after the other. The caller keeps the parts, and their directions, by
/// the number of the place.
#[repr(C)]
#[derive(Clone, Copy, Debug)]
pub struct Place {
    /// How many directions were written there.
    pub written: u64,
    /// One more than the place behind it; 0 where it is the last one.
    pub next: u64,
    /// 0 where it waits, 1 given to a worker, 2 searched, 3 searched up to a sequence below the threshold, 4 dropped.
    pub state: u32,
    /// One more than a place further on such that this one, that one and all between were searched; 0: none.
    pub skip: u32,
}

/// Behind the end of an array.
const NOWHERE: Place = Place {
    written: 0,
    next: 0,
    state: DROPPED,
    skip: 0,
};

impl Place {
    /// Whether it is still to be searched.
    pub(crate) fn is_open(&self) -> bool
        ensures { result ≡ is_open self.now }
    {
        self.state <= GIVEN
    }

    /// 1 where it is open, else 0.
    pub(crate) fn open(&self) -> u64
        ensures { result ≡ open_in self.now }
    {
        if self.is_open() { 1 } else { 0 }
    }

    /// How many directions count: none where it is open.
    pub(crate) fn counted(&self) -> u64
        ensures { result ≡ counted_in self.now }
    {
        if self.is_open() { 0 } else { self.written }
    }

    /// One more than a place further on, where those between were searched: by its skip, or else the place behind it.
    pub(crate) fn onward(&self) -> u64
        ensures { result ≡ onward_of self.now }
    {
        if self.skip == 0 {
            self.next
        } else {
            u64::from(self.skip)
        }
    }
}

/// What is at a place; behind the end of the array, a place that was dropped.
pub(crate) fn place_at(places: &[Place], number: u64) -> Place
    ensures { result ≡ place_at places.now number }
{
    match places.get(number as usize) {
        Some(place) => *place,
        None => NOWHERE,
    }
}

/// Writes a place, unless it is behind the end of the array.
pub(crate) fn set_place(places: &mut [Place], number: u64, place: Place)
    ensures { places.new ≡ slice_set places.old number place }
{
    let index = number as usize;
    if index < places.len() {
        places[index] = place;
    }
}
