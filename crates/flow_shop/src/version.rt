//! Which bound a version of certificates has.

ghost use Rattle.std.specs.Prelude.{◌≡◌, nat_eq};

/// Whether the bound of a version has releases: that of version 2 has, and that of version 1 has none.
#[inline(always)]
pub fn has_releases(version: u32) -> bool
    ensures { result ≡ nat_eq version 2 }
{
    version == 2
}
