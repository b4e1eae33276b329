//! The number below which children are searched, in the bits that lanes have.

ghost use Rattle.std.specs.Prelude.{◌≡◌, nat_le};
ghost use Rattle.flow_nodes.specs.Vectors.{limit_of};

/// The limit that stands for a number in 32 bits: the number, or the greatest of 32 bits where that is less. No bound
/// of a child is greater, so the same children are below it.
#[inline(always)]
pub fn limit_of(threshold: u64) -> u32
    ensures { result ≡ limit_of threshold }
{
    threshold.min(u64::from(u32::MAX)) as u32
}

/// Whether lanes of 16 bits are enough for a number, which then is no greater than their cap.
#[inline(always)]
pub fn fits_narrow_lanes(threshold: u64) -> bool
    ensures { result ≡ nat_le threshold 65535 }
{
    threshold <= u64::from(u16::MAX)
}
