//! Writing all of some bytes to a sink.

ghost use Rattle.std.specs.Prelude.{◌≤◌, OnOk, OnErr};
ghost use Rattle.flux_outside.specs.Streams.{Wrote, Broke};

use crate::faults::Failed;
use crate::sinks::Sink;

/// Writes all of the bytes, in as many calls as the sink needs.
pub fn write_all<O: Sink>(out: &mut O, bytes: &[u8]) -> Result<(), Failed>
    ensures later { (O.seen out.old).faults ≤ (O.seen out.new).faults }
    ensures wrote { OnOk result (Wrote (O.seen out.old) (O.seen out.new) bytes.now) }
    ensures broke { OnErr result (Broke (O.seen out.old) (O.seen out.new) bytes.now) }
{
    let mut rest = bytes;
    while !rest.is_empty() {
        let count = out.write(rest)?;
        rest = &rest[count..];
    }
    Ok(())
}
