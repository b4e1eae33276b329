//! The titles of certificates, and the last line of each.

/// The first line of a certificate, up to its version.
pub const TITLE: &[u8] = b"flowshop certificate ";

/// The first line of a two-ended certificate, with its end.
pub const TWO_ENDED_TITLE: &[u8] = b"flowshop two-ended 1\n";

/// The first line of a counted certificate, with its end.
pub const COUNTED_TITLE: &[u8] = b"flowshop counted 1\n";

/// The last line of each, with its end.
pub const LAST_LINE: &[u8] = b"end\n";
