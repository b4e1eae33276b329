//! The two least of some numbers, and the least without one of them.

ghost use Rattle.std.specs.Prelude.{◌≡◌, min, max};
ghost use Rattle.flow_shop.specs.TwoLeast.{IsLeastWithout, least_of_none};

/// The two least of some numbers, each the greatest number of 32 bits where there is no such number. Where two numbers
/// are the least, both are the same.
#[derive(Clone, Copy, Debug, PartialEq, Eq)]
pub struct TwoLeast {
    /// The least.
    pub least: u32,
    /// The second least.
    pub second: u32,
}

impl TwoLeast {
    /// Those of no numbers.
    #[inline(always)]
    pub fn none() -> TwoLeast
        ensures least { result.least ≡ least_of_none }
        ensures second { result.second ≡ least_of_none }
    {
        TwoLeast {
            least: u32::MAX,
            second: u32::MAX,
        }
    }

    /// Those of the numbers and of one more.
    #[inline(always)]
    pub fn with(self, number: u32) -> TwoLeast
        ensures least { result.least ≡ min self.least number }
        ensures second { result.second ≡ min self.second (max self.least number) }
    {
        TwoLeast {
            least: self.least.min(number),
            second: self.second.min(self.least.max(number)),
        }
    }

    /// The least of the numbers without one of them.
    #[inline(always)]
    pub fn without(self, one: u32) -> u32
        ensures { IsLeastWithout one self.least self.second result }
    {
        if one == self.least {
            self.second
        } else {
            self.least
        }
    }
}
