//! Links to clients.

ghost use Rattle.std.specs.Prelude.{◌≡◌};
ghost use Rattle.std.specs.Io.{ReadsAtMost};
ghost use Rattle.std.specs.Io.KnownBytes.{ReadConsumes};
ghost use Rattle.flux_outside.specs.Causes.{HasCause};
ghost use Rattle.flux_outside.specs.Sinks.{TakesSome, taken};
ghost use Rattle.flux_outside.specs.Streams.{Gains};
ghost use Rattle.flux_doors.specs.Seen.{SeenLink, IsSame, IsUnread};

use flux_outside::Failed;

/// Gives the bytes that a client sends, and takes those of the reply.
pub trait Link {
    /// What is seen of it. No call changes what its client sends: so links can be kept apart. Before the first read, those
    /// that are left were left before it.
    ghost seen: { Self → SeenLink };

    /// Reads some of the bytes that are left, and answers how many. It reads none into a buffer that has room only at
    /// their end.
    fn read(&mut self, buffer: &mut [u8]) -> Result<usize, Failed>
        ensures bound { ReadsAtMost result buffer.new }
        ensures same { IsSame (seen self.old) (seen self.new) }
        ensures bytes { ReadConsumes (seen self.old).left (seen self.new).left result buffer.new }
        ensures before { (seen self.new).left_before ≡ (seen self.old).left }
        ensures written { (seen self.new).stream.written ≡ (seen self.old).stream.written }
        ensures cause { HasCause (seen self.old).stream.faults (seen self.new).stream.faults result };

    /// Writes a front of the bytes, and answers how many bytes that was. To take none of some bytes is a fault.
    fn write(&mut self, bytes: &[u8]) -> Result<usize, Failed>
        ensures bound { TakesSome result bytes.now }
        ensures same { IsUnread (seen self.old) (seen self.new) }
        ensures bytes { Gains (seen self.old).stream (seen self.new).stream (taken result bytes.now) }
        ensures cause { HasCause (seen self.old).stream.faults (seen self.new).stream.faults result };
}
