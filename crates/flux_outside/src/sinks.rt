//! Streams that bytes are written to.

ghost use Rattle.flux_outside.specs.Causes.{HasCause};
ghost use Rattle.flux_outside.specs.Sinks.{TakesSome, taken};
ghost use Rattle.flux_outside.specs.Streams.{Stream, Gains};

use crate::faults::Failed;

/// Takes bytes in order.
pub trait Sink {
    /// All bytes written so far, where they are reported, and how often the sink has failed.
    ghost seen: { Self → Stream };

    /// Writes a front of the bytes, and answers how many bytes that was. To take none of some bytes is a fault.
    fn write(&mut self, bytes: &[u8]) -> Result<usize, Failed>
        ensures bound { TakesSome result bytes.now }
        ensures bytes { Gains (seen self.old) (seen self.new) (taken result bytes.now) }
        ensures cause { HasCause (seen self.old).faults (seen self.new).faults result };
}
