//! The plain rule for the end at which a node is opened: where fewer children are below the threshold; where as many
//! are, the end whose bounds sum to more; and the front where these sums are equal too.

ghost use Rattle.std.specs.Prelude.{◌≡◌, Some, None, cond, nat_le, nat_lt};
ghost use Rattle.flow_shop.specs.declared.end.End.TheVariants.{Front, Back};

use flow_shop::End;

/// The end where fewer children are below the threshold, of so many at each end; none where as many are.
#[inline(always)]
pub fn fewer_below(front: u32, back: u32) -> Option<End>
    ensures { result ≡ cond (nat_lt front back) (Some Front) (cond (nat_lt back front) (Some Back) None) }
{
    if front < back {
        Some(End::Front)
    } else if back < front {
        Some(End::Back)
    } else {
        None
    }
}

/// The end whose bounds sum to more; the front where both sums are equal.
#[inline(always)]
pub fn greater_sum(front: u64, back: u64) -> End
    ensures { result ≡ cond (nat_le back front) Front Back }
{
    if back <= front { End::Front } else { End::Back }
}
