//! Laws of the definitions: each contract is a theorem, and no body does anything.

ghost use Rattle.flow_c.specs.Shared.{AnswersAreTrue, ProvedGoesOn};

/// An answer that says what `flowshop_prove` or `flowshop_tally` came to is a true one, also where it made several
/// nodes of a place, one after the other.
pub fn answers_are_true()
    ensures goes_on { ProvedGoesOn }
    ensures answers { AnswersAreTrue }
{}
