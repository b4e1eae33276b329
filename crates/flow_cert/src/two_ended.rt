//! Writing a two-ended certificate.

ghost use Rattle.std.specs.Prelude.{◌≡◌, ◌↔◌, false, true, IsErr, OnOk, OnErr};
ghost use Rattle.std.specs.Io.KnownBytes.{Appends};
ghost use Rattle.flow_text.specs.Bytes.{AddsProperPrefix};
ghost use Rattle.flow_shop.specs.Paths.{span};
ghost use Rattle.flow_shop.specs.Sequences.{IsSequence};
ghost use Rattle.flow_shop.specs.Directions.{Proves};
ghost use Rattle.flow_check.specs.TwoEnded.{two_ended_text, IsTwoEnded};

use crate::four_lines::add_four_lines;
use crate::gathered::Gathered;
use flow_check::{Bounds, LAST_LINE, TWO_ENDED_TITLE};
use flow_shop::{Instance, Sequence};
use flow_text::{Sink, WriteFault};

/// Writes a two-ended certificate into a sink that did not refuse yet: two bounds, a sequence, and the signs of the
/// directions. The text is lawful where the sequence is one of the instance and has the upper bound as its makespan,
/// and the directions prove the lower one. `Device` where the sink refused; then it took a proper prefix of the text.
pub fn write_two_ended<S: Sink>(
    instance: &Instance,
    bounds: Bounds,
    sequence: &Sequence,
    directions: &[u8],
    out: &mut S,
) -> Result<(), WriteFault>
    requires { S.has_failed out.old ≡ false }
    ensures device { IsErr result ↔ (S.has_failed out.new ≡ true) }
    ensures ok { OnOk result (Appends (S.taken out.old) (S.taken out.new)
        (two_ended_text instance.now bounds sequence.now directions.now)) }
    ensures err { OnErr result (AddsProperPrefix (S.taken out.old) (S.taken out.new)
        (two_ended_text instance.now bounds sequence.now directions.now)) }
    ensures lawful { IsSequence instance.now.jobs sequence.now → span instance.now sequence.now ≡ bounds.upper →
        Proves instance.now bounds.lower directions.now →
        IsTwoEnded instance.now (two_ended_text instance.now bounds sequence.now directions.now) bounds sequence.now }
{
    let mut gathered = Gathered::none();
    add_four_lines(
        &mut gathered,
        out,
        TWO_ENDED_TITLE,
        instance,
        bounds,
        sequence,
    )?;
    gathered.add(out, directions)?;
    gathered.add(out, b"\n")?;
    gathered.add(out, LAST_LINE)?;
    gathered.put(out)
}
