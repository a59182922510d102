//! What answers of std tell of a link that may have come.

ghost use Rattle.std.specs.Prelude.{◌≡◌, IfOk, IfErr};
ghost use Rattle.std.specs.IoError.{error_kind, raw_os_error};
ghost use Rattle.flux_doors.specs.Arrivals.{is_short, why_by_kind, why_none};

use std::io;
use std::io::ErrorKind;

/// The numbers of Linux for too many descriptors in the system and in the process, and for no buffers.
const ENFILE: i32 = 23;

const EMFILE: i32 = 24;

const ENOBUFS: i32 = 105;

/// What came at a door.
#[derive(Drop)]
pub enum Arrival<S> {
    Link(S),
    /// No client waits now.
    NoneReady,
    /// A client waited, and went away.
    Gone,
    /// The system has no descriptor or no memory for a client now.
    Short,
    Failed,
}

/// Whether a number of the system's means that it lacks descriptors or buffers.
fn is_short(code: Option<i32>) -> bool
    ensures { result ≡ is_short code }
{
    match code {
        Some(code) => code == ENFILE || code == EMFILE || code == ENOBUFS,
        None => false,
    }
}

fn why_by_kind<S>(kind: ErrorKind) -> Arrival<S>
    ensures { result ≡ why_by_kind kind }
{
    match kind {
        ErrorKind::WouldBlock => Arrival::NoneReady,
        ErrorKind::ConnectionAborted => Arrival::Gone,
        ErrorKind::OutOfMemory => Arrival::Short,
        _ => Arrival::Failed,
    }
}

/// What an accept of std came to.
pub fn arrival_of<S: Drop>(answer: io::Result<S>) -> Arrival<S>
    ensures link { IfOk answer (λ stream. result ≡ Arrival.Link stream) }
    ensures none { IfErr answer (λ e. result ≡ why_none (raw_os_error e) (error_kind e)) }
{
    match answer {
        Ok(stream) => Arrival::Link(stream),
        Err(e) if is_short(e.raw_os_error()) => Arrival::Short,
        Err(e) => why_by_kind(e.kind()),
    }
}
