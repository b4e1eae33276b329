//! A source without an end.

ghost use Rattle.std.specs.Prelude.{◌≡◌, None, false};

use flow_core::{Refused, Source};

/// A source without an end: it gives the digit 1, and counts the bytes.
#[derive(Drop)]
pub(super) struct Endless {
    pub(super) given: u64,
    failed: bool,
}

impl Endless {
    pub(super) fn new() -> Endless
        ensures { result.failed ≡ false }
    {
        Endless {
            given: 0,
            failed: false,
        }
    }
}

impl Source for Endless {
    ghost given = { λ _. None };

    ghost has_ended = { λ _. false };

    ghost has_failed = { λ s. s.failed };

    fn get(&mut self, buffer: &mut [u8]) -> Result<usize, Refused> {
        let count = buffer.len().min(65_536);
        match self.given.checked_add(count as u64) {
            Some(given) => self.given = given,
            None => {
                self.failed = true;
                return Err(Refused);
            }
        }
        buffer[..count].fill(b'1');
        Ok(count)
    }

    fn failed(&self) -> bool {
        self.failed
    }
}
