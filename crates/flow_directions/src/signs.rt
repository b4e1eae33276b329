//! The signs of the directions that a search takes: written, or only counted.

ghost use Rattle.std.specs.Prelude.{◌≡◌, ◌<◌, List, [], ◌∷◌, ◌++◌, ℕ, length, OnOk};
ghost use Rattle.flow_shop.specs.Directions.{sign};

use flow_shop::End;
use std::alloc::AllocError;

/// The signs of the directions that a search takes.
pub(crate) trait Signs {
    // They are these.
    ghost are: { Self → List ℕ → Type 0 };

    /// Adds the sign of an end.
    fn add(&mut self, end: End) -> Result<(), AllocError>
        requires { (text : List ℕ) × are self.old text × (length text < 18446744073709551615) }
        ensures { (text : List ℕ) → are self.old text → OnOk result (are self.new (text ++ sign end ∷ [])) };
}

/// They are written.
impl Signs for Vec<u8> {
    ghost are = { λ signs text. signs.items ≡ text };

    #[inline(always)]
    fn add(&mut self, end: End) -> Result<(), AllocError> {
        self.push(match end {
            End::Front => b'+',
            End::Back => b'-',
        })?;
        Ok(())
    }
}

/// They are counted.
impl Signs for u64 {
    ghost are = { λ count text. count ≡ length text };

    #[inline(always)]
    fn add(&mut self, _end: End) -> Result<(), AllocError> {
        *self += 1;
        Ok(())
    }
}
