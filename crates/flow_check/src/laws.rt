//! Laws of the definitions: each contract is a theorem, and no body does anything.

ghost use Rattle.flow_check.specs.Certificate.{CertificateIsSound, StatesOne, ValueIsOne};
ghost use Rattle.flow_check.specs.CertificateFaults.{EachTextIsJudged};
ghost use Rattle.flow_check.specs.Counted.{CountedIsSound, CountedStatesOne};
ghost use Rattle.flow_check.specs.CountedFaults.{AboveIsMost, EachCountedIsJudged};
ghost use Rattle.flow_check.specs.Kinds.{KindIsOne};
ghost use Rattle.flow_check.specs.TwoEnded.{TwoEndedIsSound, TwoEndedStatesOne};
ghost use Rattle.flow_check.specs.TwoEndedFaults.{EachTwoEndedIsJudged};
ghost use Rattle.flow_check.specs.internal.Reading.{ValueIsExact, FaultIsExact};

/// The value of a lawful certificate, whoever made it, is the least makespan. No text is a certificate of two values.
pub fn certificate_is_sound()
    ensures least { CertificateIsSound }
    ensures one { ValueIsOne }
{}

/// A lawful certificate states one value and one sequence.
pub fn text_states_one()
    ensures { StatesOne }
{}

/// A text is read as a value exactly where it is a lawful certificate of it.
pub fn value_is_exact()
    ensures { ValueIsExact }
{}

/// A text is a lawful certificate of a value, or has one first fault, and not both. The definition of that fault is the
/// one by which a text is read.
pub fn fault_is_exact()
    ensures judged { EachTextIsJudged }
    ensures exact { FaultIsExact }
{}

/// The bounds of a lawful two-ended certificate, whoever made it, hold. Where they are the same, they are the least
/// makespan.
pub fn two_ended_is_sound()
    ensures { TwoEndedIsSound }
{}

/// A lawful two-ended certificate states one pair of bounds, one sequence and one string of directions.
pub fn two_ended_states_one()
    ensures { TwoEndedStatesOne }
{}

/// A text is a lawful two-ended certificate of some bounds, with a sequence, or has one first fault, and not both.
pub fn two_ended_fault_is_exact()
    ensures { EachTwoEndedIsJudged }
{}

/// The bounds of a lawful counted certificate, whoever made it, hold. Where they are the same, they are the least
/// makespan.
pub fn counted_is_sound()
    ensures { CountedIsSound }
{}

/// A lawful counted certificate states one pair of bounds, one sequence and one count.
pub fn counted_states_one()
    ensures { CountedStatesOne }
{}

/// For a reader who allows some number of nodes, a text is a lawful counted certificate that states no more nodes, or
/// has one first fault, and not both. Where a lawful one states more, the fault is `Most`.
pub fn counted_fault_is_exact()
    ensures judged { EachCountedIsJudged }
    ensures above { AboveIsMost }
{}

/// A text is read as one kind.
pub fn kind_is_one()
    ensures { KindIsOne }
{}
