//! Writing a counted certificate.

ghost use Rattle.std.specs.Prelude.{◌≡◌, ◌↔◌, false, true, IsErr, OnOk, OnErr};
ghost use Rattle.std.specs.Io.KnownBytes.{Appends};
ghost use Rattle.flow_text.specs.Bytes.{AddsProperPrefix};
ghost use Rattle.flow_shop.specs.Paths.{span};
ghost use Rattle.flow_shop.specs.Sequences.{IsSequence};
ghost use Rattle.flow_check.specs.Counted.{counted_text, IsCountedText, OpensInAll};

use crate::four_lines::add_four_lines;
use crate::gathered::Gathered;
use flow_check::{Bounds, COUNTED_TITLE, LAST_LINE};
use flow_shop::{Instance, Sequence};
use flow_text::{Sink, WriteFault};

/// Writes a counted certificate into a sink that did not refuse yet: two bounds, a sequence, and a count. The text is
/// lawful where the sequence is one of the instance and has the upper bound as its makespan, and the search below the
/// lower one reaches no sequence and opens so many nodes. `Device` where the sink refused; then it took a proper prefix
/// of the text.
pub fn write_counted<S: Sink>(
    instance: &Instance,
    bounds: Bounds,
    sequence: &Sequence,
    count: u64,
    out: &mut S,
) -> Result<(), WriteFault>
    requires { S.has_failed out.old ≡ false }
    ensures device { IsErr result ↔ (S.has_failed out.new ≡ true) }
    ensures ok { OnOk result (Appends (S.taken out.old) (S.taken out.new)
        (counted_text instance.now bounds sequence.now count)) }
    ensures err { OnErr result (AddsProperPrefix (S.taken out.old) (S.taken out.new)
        (counted_text instance.now bounds sequence.now count)) }
    ensures lawful { IsSequence instance.now.jobs sequence.now → span instance.now sequence.now ≡ bounds.upper →
        OpensInAll instance.now bounds.lower count →
        IsCountedText instance.now (counted_text instance.now bounds sequence.now count) bounds sequence.now }
{
    let mut gathered = Gathered::none();
    add_four_lines(
        &mut gathered,
        out,
        COUNTED_TITLE,
        instance,
        bounds,
        sequence,
    )?;
    gathered.add_value(out, count)?;
    gathered.add(out, LAST_LINE)?;
    gathered.put(out)
}
