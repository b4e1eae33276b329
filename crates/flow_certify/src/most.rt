//! The limit that a caller sets on the directions of a certificate.

ghost use Rattle.std.specs.Prelude.{◌≡◌, true};
ghost use Rattle.std.specs.Option.{SomeIff};
ghost use Rattle.flow_certify.specs.Signs.{may_be_most, most_searched};

use flow_limits::MAX_DIRECTIONS;
use std::marker::Model;

/// The greatest limit on the directions of a certificate. Those of a limit above `MAX_DIRECTIONS` are to be counted, since
/// `check` does not read so many signs.
pub const MAX_COUNTED_DIRECTIONS: u64 = 1_000_000_000_000_000;

/// The most directions that fit, with the other lines of a two-ended certificate, into the text that `check` reads.
const MOST_SIGNS: u64 = 999_990_000;

/// The limit that a caller sets on the directions of a certificate: a number in `1..=MAX_COUNTED_DIRECTIONS`.
#[derive(Clone, Copy)]
pub struct MostDirections {
    count: u64,
}

impl Model for MostDirections {
    ghost use Rattle.std.specs.Prelude.{ℕ, ◌≡◌, true};
    ghost use Rattle.flow_certify.specs.Signs.{may_be_most};

    ghost Value = { ℕ };

    ghost view = { λ m. m.count };

    ghost invariant = { λ m. may_be_most m.count ≡ true };

    ghost inverse = { λ count. record { count = count } };
}

impl MostDirections {
    /// A limit of so many; `None` where that is not in `1..=MAX_COUNTED_DIRECTIONS`.
    pub fn new(count: u64) -> Option<MostDirections>
        ensures { SomeIff result (may_be_most count ≡ true) count }
    {
        if count < 1 || count > MAX_COUNTED_DIRECTIONS {
            return None;
        }
        Some(MostDirections { count })
    }

    /// How many directions it allows.
    pub(crate) fn count(&self) -> u64
        ensures { result ≡ self.now }
    {
        self.count
    }

    /// How many directions one search may write: up to `MAX_DIRECTIONS` no more than `check` reads as signs.
    pub(crate) fn searched(&self) -> u64
        ensures { result ≡ most_searched self.now }
    {
        if self.count <= u64::from(MAX_DIRECTIONS) {
            self.count.min(MOST_SIGNS)
        } else {
            self.count
        }
    }
}
