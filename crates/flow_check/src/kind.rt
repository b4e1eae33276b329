//! The kinds of text that are checked.

ghost use Rattle.flow_check.specs.Kinds.{IsReadAs};

use crate::titles::{COUNTED_TITLE, TWO_ENDED_TITLE};

/// What a text is to prove, and how.
#[derive(Clone, Copy, Debug, PartialEq, Eq)]
pub enum TextKind {
    /// A least makespan, by trees: a certificate.
    Certificate,
    /// A lower bound of all makespans, by directions, beside a sequence: a two-ended certificate. Where both bounds
    /// are one number, it is the least makespan.
    TwoEnded,
    /// The same, by how many nodes the search below the lower bound opens: a counted certificate.
    Counted,
}

/// The kind as which a text is read: a two-ended or a counted certificate where it begins with the first line of one,
/// and else a certificate.
pub fn kind_of(bytes: &[u8]) -> TextKind
    ensures { IsReadAs bytes.now result }
{
    if bytes.starts_with(TWO_ENDED_TITLE) {
        TextKind::TwoEnded
    } else if bytes.starts_with(COUNTED_TITLE) {
        TextKind::Counted
    } else {
        TextKind::Certificate
    }
}
