ghost use Rattle.std.specs.Prelude.{◌≡◌, ◌≤◌, OnOk, OnErr};
ghost use Rattle.pair_io.specs.Counts.{Rose};
ghost use Rattle.pair_io.specs.Gains.{Gains, GainsPrefix};

use crate::{Failed, Sink};

/// Puts all bytes, in as many calls of `put` as it takes, and doesn't flush. Where it fails, the
/// sink took the bytes before some place and not the others. Takes no memory.
#[tactic(auto, using(crate::proofs::Gains::gains))]
pub fn write_all<O: Sink>(sink: &mut O, bytes: &[u8]) -> Result<(), Failed>
    ensures written { OnOk result (Gains (O.told sink.old) (O.told sink.new) bytes.now) }
    ensures prefix { OnErr result (GainsPrefix (O.told sink.old) (O.told sink.new) bytes.now) }
    ensures cause { OnErr result (Rose (O.faults sink.old) (O.faults sink.new)) }
    ensures no_fault { OnOk result (O.faults sink.new ≡ O.faults sink.old) }
    ensures faults { O.faults sink.old ≤ O.faults sink.new }
{
    let mut rest = bytes;
    while !rest.is_empty() {
        let count = sink.put(rest)?;
        rest = &rest[count..];
    }
    Ok(())
}
