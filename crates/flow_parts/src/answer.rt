//! What became of a place, and of the whole search.

/// What became of a place that was given.
#[derive(Clone, Copy, Debug, PartialEq, Eq)]
pub struct Searched {
    /// How many directions were written there first.
    pub written: u64,
    /// With how many new places the search goes on there, behind these directions. It counts for nothing where a
    /// sequence was reached.
    pub left: u32,
    /// Whether a sequence below the threshold was reached, behind these directions.
    pub reached: bool,
}

/// What an answer changed.
#[derive(Clone, Copy, Debug, PartialEq, Eq)]
pub enum Put {
    /// It was taken.
    Taken {
        /// The first of the new places, whose numbers follow one another.
        first: u64,
    },
    /// The place is not given: it was dropped or answered before, or there is none. Nothing changed.
    Late,
    /// The array has no room for the new places. Nothing changed.
    NoRoom,
    /// With these there would be 2 to the 64th directions or more. Nothing changed.
    TooMany,
}

/// What a search came to.
#[derive(Clone, Copy, Debug, PartialEq, Eq)]
pub enum Decided {
    /// No sequence is below the threshold.
    Proved {
        /// How many directions prove it: those of all places, in order.
        directions: u64,
    },
    /// A sequence below the threshold was reached, which is the first one.
    Below {
        /// At which place.
        place: u64,
        /// How many directions come before it.
        directions: u64,
    },
    /// There are more directions than the budget.
    Over,
}
