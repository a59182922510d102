//! Reads and writes of std, which are tried again where a signal interrupted them, and for no other cause.

ghost use Rattle.std.specs.Io.{ReadsAtMost, WritesAtMost};
ghost use Rattle.std.specs.Io.KnownBytes.{ReadConsumes, WriteAppends};

use crate::told::{Counted, count_told};
use std::io::{ErrorKind, Read, Write};

/// How often a call that signals interrupt is tried.
const TRIES: u32 = 1_000_000;

/// Reads on. What a signal interrupted is tried again, up to a million times.
pub fn read_on<R: Read>(reader: &mut R, buffer: &mut [u8]) -> Result<usize, ErrorKind>
    ensures bound { ReadsAtMost result buffer.new }
    ensures bytes { ReadConsumes (R.remaining reader.old) (R.remaining reader.new) result buffer.new }
{
    'tries: for _ in 0..TRIES {
        match count_told(reader.read(buffer)) {
            Counted::Took(count) => return Ok(count),
            Counted::Interrupted => {}
            Counted::Failed(kind) => return Err(kind),
        }
    }
    Err(ErrorKind::Interrupted)
}

/// Writes a front of some bytes, and tells how many that was.
pub fn write_on<W: Write>(writer: &mut W, bytes: &[u8]) -> Result<usize, ErrorKind>
    ensures bound { WritesAtMost result bytes.now }
    ensures bytes { WriteAppends (W.contents writer.old) (W.contents writer.new) result bytes.now }
{
    'tries: for _ in 0..TRIES {
        match count_told(writer.write(bytes)) {
            Counted::Took(count) => return Ok(count),
            Counted::Interrupted => {}
            Counted::Failed(kind) => return Err(kind),
        }
    }
    Err(ErrorKind::Interrupted)
}
