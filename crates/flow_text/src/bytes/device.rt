//! Sinks take bytes, and sources give them.

ghost use Rattle.std.specs.Prelude.{◌≡◌, ◌<◌, ◌≤◌, ℕ, Bool, List, Option, length, IfOk, ◌||◌, is_err};
ghost use Rattle.std.specs.Io.KnownBytes.{WriteAppends};
ghost use Rattle.flow_text.specs.Bytes.{is_end};

use crate::bytes::fault::Refused;

/// Takes bytes, as a file does that is written.
pub trait Sink {
    // The bytes taken so far, where they are known.
    ghost taken: { Self → Option (List ℕ) };

    // Whether a call of `put` was refused.
    ghost has_failed: { Self → Bool };

    /// Takes one or more bytes from the front of the slice, and returns how many. `Refused` where it took none.
    fn put(&mut self, bytes: &[u8]) -> Result<usize, Refused>
        requires { 0 < length bytes.now }
        ensures count { IfOk result (λ c. (1 ≤ c) × (c ≤ length bytes.now)) }
        ensures bytes { WriteAppends (taken self.old) (taken self.new) result bytes.now }
        ensures failed { has_failed self.new ≡ (has_failed self.old || is_err result) };

    /// Whether a call of `put` was refused.
    fn failed(&self) -> bool
        ensures { result ≡ has_failed self.now };
}

/// Gives bytes, as a file does that is read.
pub trait Source {
    // The bytes given so far, where they are known.
    ghost given: { Self → Option (List ℕ) };

    // Whether the last call of `get` found the end of the input.
    ghost has_ended: { Self → Bool };

    // Whether a call of `get` was refused.
    ghost has_failed: { Self → Bool };

    /// Puts the next bytes at the front of the slice, and returns how many: 0 at the end of the input. `Refused` where
    /// it could not.
    fn get(&mut self, buffer: &mut [u8]) -> Result<usize, Refused>
        requires { 0 < length buffer.old }
        ensures count { IfOk result (λ c. c ≤ length buffer.old) }
        ensures bytes { WriteAppends (given self.old) (given self.new) result buffer.new }
        ensures ended { has_ended self.new ≡ is_end result }
        ensures failed { has_failed self.new ≡ (has_failed self.old || is_err result) };

    /// Whether a call of `get` was refused.
    fn failed(&self) -> bool
        ensures { result ≡ has_failed self.now };
}
