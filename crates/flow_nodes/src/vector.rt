//! Vectors: numbers side by side.

ghost use Rattle.std.specs.Prelude.{◌≡◌, ℕ, ◌+◌, ◌*◌, ◌<◌, ◌≤◌, ◌↔◌, max, List, length, slice_index, sum_by};
ghost use Rattle.std.specs.Prelude.{IsBitSet};
ghost use Rattle.std.specs.Int.{bit_at};
ghost use Rattle.std.proofs.Common.{rules};
ghost use Rattle.flow_nodes.specs.Vectors.{capped, HasLane};
ghost use Rattle.flow_nodes.specs.Marks.{picked};

use std::simd::prelude::*;

/// The greatest number of a lane of 16 bits.
const NARROW_CAP: u32 = 65_535;

/// The bit of each lane, where a lane has 16 bits.
const NARROW_BITS: [u16; 16] = [
    1, 2, 4, 8, 16, 32, 64, 128, 256, 512, 1024, 2048, 4096, 8192, 16384, 32768,
];

/// The bit of each lane, where a lane has 32 bits.
const WIDE_BITS: [u32; 16] = [
    1, 2, 4, 8, 16, 32, 64, 128, 256, 512, 1024, 2048, 4096, 8192, 16384, 32768,
];

/// Numbers side by side. A lane has its number, or the cap where that is less. So for each limit up to the cap, a
/// number is below the limit exactly where its lane is.
pub trait Vector: Copy {
    /// The cap.
    const CAP: u32;

    ghost CAP: { ℕ };

    /// How many lanes there are.
    const WIDTH: usize;

    ghost WIDTH: { ℕ };

    /// The lanes as a list.
    ghost list: { Self → List ℕ };

    /// The same number in all lanes.
    fn all(number: u64) -> Self
        ensures { (lane : ℕ) → lane < WIDTH → HasLane CAP WIDTH (list result) lane number };

    /// The same number in all lanes, where it is no greater than the cap.
    fn each(number: u32) -> Self
        requires { number ≤ CAP }
        ensures { (lane : ℕ) → lane < WIDTH → HasLane CAP WIDTH (list result) lane number };

    /// What stands for a number in `from_pair`.
    ghost pair_of: { ℕ → ℕ };

    /// Of each of four numbers that is no greater than the cap: the number twice, side by side in the halves of 32
    /// bits, where lanes have 16 bits; else the number.
    fn pairs(four: u32x4) -> u32x4
        requires { length four ≡ 4 }
        ensures size { length result ≡ 4 }
        ensures each { (place : ℕ) → place < 4 → slice_index four place ≤ CAP →
            slice_index result place ≡ pair_of (slice_index four place) };

    /// The number of a pair in all lanes.
    fn from_pair(pair: u32) -> Self
        ensures { (number lane : ℕ) → number ≤ CAP → pair ≡ pair_of number → lane < WIDTH →
            HasLane CAP WIDTH (list result) lane number };

    /// In each lane the greater of two numbers.
    fn at_least(self, other: Self) -> Self
        ensures { (lane one two : ℕ) → HasLane CAP WIDTH (list self) lane one →
            HasLane CAP WIDTH (list other) lane two → HasLane CAP WIDTH (list result) lane (max one two) };

    /// In each lane the sum of two numbers.
    fn plus(self, other: Self) -> Self
        ensures { (lane one two : ℕ) → HasLane CAP WIDTH (list self) lane one →
            HasLane CAP WIDTH (list other) lane two → HasLane CAP WIDTH (list result) lane (one + two) };

    /// The lanes below a number, a bit for each, and no other bits.
    fn below(self, number: u32) -> u64
        requires { number ≤ CAP }
        ensures each { (lane value : ℕ) → HasLane CAP WIDTH (list self) lane value →
            IsBitSet result lane ↔ (value < number) }
        ensures none { (lane : ℕ) → WIDTH ≤ lane → ¬ IsBitSet result lane };

    /// The sum of the lanes whose bits are set in a word.
    fn sum_marked(self, word: u16) -> u64
        requires { WIDTH ≡ 16 }
        ensures small { result ≤ 16 * 4294967295 }
        ensures sum { (f : ℕ → ℕ) (names : List ℕ) → length names ≡ WIDTH →
            ((lane : ℕ) → lane < WIDTH → bit_at word lane ≡ 1 →
            HasLane CAP WIDTH (list self) lane (f (slice_index names lane)) × (f (slice_index names lane) ≤ CAP)) →
            result ≡ sum_by f (picked word 0 names) };

    /// The number of a lane.
    fn at(self, lane: usize) -> u32
        requires { lane < WIDTH }
        ensures { (value : ℕ) → HasLane CAP WIDTH (list self) lane value → result ≡ capped CAP value };

    /// The numbers of a list, one for each lane.
    fn load(numbers: &[u32]) -> Self
        requires { length numbers.now ≡ WIDTH }
        ensures { (lane : ℕ) → lane < WIDTH →
            HasLane CAP WIDTH (list result) lane (slice_index numbers.now lane) };

    /// A machine word has a bit for each lane.
    ghost narrow: { WIDTH ≤ 64 };
}

impl Vector for u16x16 {
    const CAP: u32 = NARROW_CAP;

    ghost CAP = { 65535 };

    const WIDTH: usize = 16;

    ghost WIDTH = { 16 };

    ghost list = { λ lanes. lanes };

    #[inline(always)]
    fn all(number: u64) -> u16x16 {
        u16x16::splat(number.min(NARROW_CAP as u64) as u16)
    }

    #[inline(always)]
    fn each(number: u32) -> u16x16 {
        u16x16::splat(number as u16)
    }

    ghost pair_of = { λ number. number * 65537 };

    #[inline(always)]
    fn pairs(four: u32x4) -> u32x4 {
        four * u32x4::splat(65_537)
    }

    #[inline(always)]
    fn from_pair(pair: u32) -> u16x16 {
        u16x16::from_le_bytes(u32x8::splat(pair).to_le_bytes())
    }

    #[inline(always)]
    fn at_least(self, other: u16x16) -> u16x16 {
        self.simd_max(other)
    }

    #[inline(always)]
    fn plus(self, other: u16x16) -> u16x16 {
        self.saturating_add(other)
    }

    #[inline(always)]
    fn below(self, number: u32) -> u64 {
        self.simd_lt(u16x16::splat(number as u16)).to_bitmask()
    }

    #[inline(always)]
    fn sum_marked(self, word: u16) -> u64 {
        let bits = u16x16::from_array(NARROW_BITS);
        let marked = (u16x16::splat(word) & bits).simd_eq(bits);
        let lanes = marked.select(self, u16x16::splat(0)).to_array();
        let mut sum = 0;
        for lane in 0..16 {
            sum += u32::from(lanes[lane]);
        }
        u64::from(sum)
    }

    #[inline(always)]
    fn at(self, lane: usize) -> u32 {
        u32::from(self.to_array()[lane])
    }

    #[inline(always)]
    fn load(numbers: &[u32]) -> u16x16 {
        let mut lanes = [0; 16];
        for lane in 0..16 {
            lanes[lane] = numbers[lane].min(NARROW_CAP) as u16;
        }
        u16x16::from_array(lanes)
    }

    ghost narrow = { Prim.search rules };
}

impl Vector for u32x16 {
    const CAP: u32 = 4_294_967_295;

    ghost CAP = { 4294967295 };

    const WIDTH: usize = 16;

    ghost WIDTH = { 16 };

    ghost list = { λ lanes. lanes };

    #[inline(always)]
    fn all(number: u64) -> u32x16 {
        u32x16::splat(number.min(4_294_967_295) as u32)
    }

    #[inline(always)]
    fn each(number: u32) -> u32x16 {
        u32x16::splat(number)
    }

    ghost pair_of = { λ number. number };

    #[inline(always)]
    fn pairs(four: u32x4) -> u32x4 {
        four
    }

    #[inline(always)]
    fn from_pair(pair: u32) -> u32x16 {
        u32x16::splat(pair)
    }

    #[inline(always)]
    fn at_least(self, other: u32x16) -> u32x16 {
        self.simd_max(other)
    }

    #[inline(always)]
    fn plus(self, other: u32x16) -> u32x16 {
        self.saturating_add(other)
    }

    #[inline(always)]
    fn below(self, number: u32) -> u64 {
        self.simd_lt(u32x16::splat(number)).to_bitmask()
    }

    #[inline(always)]
    fn sum_marked(self, word: u16) -> u64 {
        let bits = u32x16::from_array(WIDE_BITS);
        let marked = (u32x16::splat(u32::from(word)) & bits).simd_eq(bits);
        let lanes = marked.select(self, u32x16::splat(0)).to_array();
        let mut sum = 0;
        for lane in 0..16 {
            sum += u64::from(lanes[lane]);
        }
        sum
    }

    #[inline(always)]
    fn at(self, lane: usize) -> u32 {
        self.to_array()[lane]
    }

    #[inline(always)]
    fn load(numbers: &[u32]) -> u32x16 {
        u32x16::from_slice(numbers)
    }

    ghost narrow = { Prim.search rules };
}
