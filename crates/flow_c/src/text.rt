//! Texts: one that is written, and one in room that a caller lends.

ghost use Rattle.std.specs.Prelude.{◌≡◌, ◌-◌, ◌^◌, ◌≤◌, false, [], length, take, drop};
ghost use Rattle.flow_c.specs.Rooms.{IsSameRoom};

use crate::room::fill;
use flow_text::MemorySink;
use std::alloc::Global;

/// Room for a text, and its length.
#[repr(C)]
pub struct TextRoom<'a> {
    /// Room for the bytes.
    pub bytes: &'a mut [u8],
    /// How many bytes the text has.
    pub length: usize,
}

/// An empty text, which may have as many bytes as memory has room for.
pub(crate) fn empty_text(alloc: Global) -> MemorySink
    ensures { result ≡ record { bytes = []; limit = 2 ^ 64 - 1; failed = false } }
{
    MemorySink::new(alloc, usize::MAX)
}

impl TextRoom<'_> {
    /// Takes a text.
    pub(crate) fn put(&mut self, text: &[u8])
        requires { length text.now ≤ length self.old.bytes.now }
        ensures length { self.new.length ≡ length text.now }
        ensures text { take self.new.length self.new.bytes.now ≡ text.now }
        ensures rest { drop self.new.length self.new.bytes.now ≡ drop self.new.length self.old.bytes.now }
        ensures room { IsSameRoom self.new.bytes self.old.bytes }
    {
        fill(text, self.bytes);
        self.length = text.len();
    }
}
