//! A link in memory, whose calls fail where a test wants them to.

ghost use Rattle.std.specs.Prelude.{◌≡◌, ◌≤◌, ◌<◌, length, IfOk};

use crate::links::Link;
use flux_outside::{Calls, Failed, MemorySink, Sink, count_failure};
use flux_values::{Bytes, List};

/// A link in memory: what it gives, and the sink that takes its reply.
pub struct MemoryLink {
    input: Bytes,
    given: usize,
    /// So many bytes were given before the last read.
    given_before: usize,
    piece: usize,
    written: MemorySink,
    calls: Calls,
    faults: u64,
    ghost within: { given ≤ length input },
    ghost some: { 0 < piece },
}

impl Drop for MemoryLink {
    fn drop(self) {
        let MemoryLink {
            input,
            given,
            given_before,
            piece,
            written,
            calls,
            faults,
        } = self;
    }
}

impl MemoryLink {
    ghost use Rattle.std.specs.Prelude.{◌≡◌, Some};
    ghost use Rattle.flux_outside.specs.InMemory.{sink_bytes};
    ghost use Rattle.flux_doors.specs.Memory.{link_seen, link_written, IsNewLink};

    /// A link that gives these bytes, at most `piece` a call. The reads whose numbers are in `fails`, counted from 1,
    /// fail; a write fails where the sink's does.
    pub fn new(input: Bytes, piece: usize, written: MemorySink, fails: List<u64>) -> MemoryLink
        requires { 0 < piece }
        ensures seen { link_seen result ≡ record {
          had = Some input;
          left = Some input;
          left_before = Some input;
          stream = record { written = Some (sink_bytes written); faults = 0 };
        } }
        ensures made { IsNewLink result piece written fails }
    {
        MemoryLink {
            input,
            given: 0,
            given_before: 0,
            piece,
            written,
            calls: Calls::new(fails),
            faults: 0,
        }
    }

    /// All bytes written.
    pub fn written(&self) -> &[u8]
        ensures { result.now ≡ link_written self.now }
    {
        self.written.written()
    }
}

impl Link for MemoryLink {
    ghost use Rattle.std.specs.Prelude.{◌≡◌, ◌↔◌, IsOk, IfOk, length};
    ghost use Rattle.std.specs.Io.{ReadsAtMost};
    ghost use Rattle.std.specs.Io.KnownBytes.{ReadConsumes};
    ghost use Rattle.flux_outside.specs.Causes.{HasCause};
    ghost use Rattle.flux_outside.specs.Sinks.{TakesSome, taken};
    ghost use Rattle.flux_outside.specs.Streams.{Gains};
    ghost use Rattle.flux_doors.specs.Seen.{IsSame, IsUnread};
    ghost use Rattle.flux_doors.specs.Memory.{link_seen, piece_left, LinkReads, LinkWasRead, LinkWrites, LinkWasWritten};

    ghost seen = { link_seen };

    fn read(&mut self, buffer: &mut [u8]) -> Result<usize, Failed>
        ensures bound { ReadsAtMost result buffer.new }
        ensures same { IsSame (link_seen self.old) (link_seen self.new) }
        ensures bytes { ReadConsumes (link_seen self.old).left (link_seen self.new).left result buffer.new }
        ensures before { (link_seen self.new).left_before ≡ (link_seen self.old).left }
        ensures written { (link_seen self.new).stream.written ≡ (link_seen self.old).stream.written }
        ensures cause { HasCause (link_seen self.old).stream.faults (link_seen self.new).stream.faults result }
        // It gives a piece, unless the call is to fail.
        ensures piece { IfOk result (λ count. count ≡ piece_left self.old (length buffer.old)) }
        ensures reads { IsOk result ↔ LinkReads self.old }
        ensures called { LinkWasRead self.old self.new }
    {
        self.given_before = self.given;
        if self.calls.count() {
            return Err(count_failure(&mut self.faults));
        }
        let rest = &self.input.as_bytes()[self.given..];
        let count = rest.len().min(self.piece).min(buffer.len());
        buffer[..count].copy_from_slice(&rest[..count]);
        self.given += count;
        Ok(count)
    }

    fn write(&mut self, bytes: &[u8]) -> Result<usize, Failed>
        ensures bound { TakesSome result bytes.now }
        ensures same { IsUnread (link_seen self.old) (link_seen self.new) }
        ensures bytes { Gains (link_seen self.old).stream (link_seen self.new).stream (taken result bytes.now) }
        ensures cause { HasCause (link_seen self.old).stream.faults (link_seen self.new).stream.faults result }
        // It fails where its sink does.
        ensures writes { IsOk result ↔ LinkWrites self.old (length bytes.now) }
        ensures called { LinkWasWritten self.old self.new }
    {
        match self.written.write(bytes) {
            Ok(taken) => Ok(taken),
            Err(_) => Err(count_failure(&mut self.faults)),
        }
    }
}
