//! Links over real sockets: they tell nothing of what they hold.

ghost use Rattle.std.specs.Prelude.{◌≡◌, ◌≤◌, IfSome, length};

use crate::endings::Ending;
use crate::flushing::Flushing;
use crate::links::Link;
use crate::unsent::Unsent;
use flux_outside::{Failed, count_failure, write_on};
use std::io::ErrorKind;
use std::net::Net;
use std::time::Clock;

/// A client over a socket, whose text is there. No read waits, and no write does: what the socket doesn't take is kept, and sent by
/// the door. A write fails where its client is gone, or where the socket takes nothing and no more bytes may be kept.
#[derive(Drop)]
pub struct RealLink<R: Net + Clock + Copy> {
    stream: R::Stream,
    clock: R,
    /// Its number at the door, and whether the door watches its socket.
    number: u64,
    is_watched: bool,
    text: Vec<u8>,
    /// So many bytes of the text were read.
    given: usize,
    /// Whether some of its reply was written, and what of it wasn't sent yet.
    is_answered: bool,
    unsent: Unsent,
    faults: u64,
}

/// What is left to do with a link that was given back.
pub(crate) enum Left<R: Net> {
    /// Nothing: it is closed.
    Nothing,
    /// Its reply has to be sent.
    Reply(Flushing<R>),
    /// Its client has to end.
    End(Ending<R>),
}

impl<R: Net + Clock + Copy> RealLink<R> {
    /// A link of a number at its door, with its text.
    pub(crate) fn new(
        clock: R,
        stream: R::Stream,
        number: u64,
        is_watched: bool,
        text: Vec<u8>,
        unsent: Unsent,
    ) -> RealLink<R>
        ensures { result.faults ≡ 0 }
    {
        RealLink {
            stream,
            clock,
            number,
            is_watched,
            text,
            given: 0,
            is_answered: false,
            unsent,
            faults: 0,
        }
    }

    pub(crate) fn number(&self) -> u64 {
        self.number
    }

    pub(crate) fn is_watched(&self) -> bool {
        self.is_watched
    }

    /// Sends a front of these bytes, where nothing is left to be sent before; None where the client is gone.
    fn send_now(&mut self, bytes: &[u8]) -> Option<usize>
        ensures bound { IfSome result (λ count. count ≤ length bytes.now) }
        ensures faults { self.new.faults ≡ self.old.faults }
    {
        if !self.unsent.is_empty() {
            return Some(0);
        }
        match write_on(&mut self.stream, bytes) {
            Ok(count) => Some(count),
            Err(ErrorKind::WouldBlock) => Some(0),
            Err(_) => None,
        }
    }

    /// Sends what the socket takes of some bytes, and keeps the rest to be sent later. Returns how many bytes that was.
    fn take(&mut self, bytes: &[u8]) -> Option<usize>
        ensures bound { IfSome result (λ count. count ≤ length bytes.now) }
        ensures faults { self.new.faults ≡ self.old.faults }
    {
        let sent = self.send_now(bytes)?;
        if sent == bytes.len() || self.unsent.keep(&bytes[sent..]) {
            Some(bytes.len())
        } else {
            Some(sent)
        }
    }

    /// What is left to do with it. Where nothing was written, or a write failed, it is closed.
    pub(crate) fn leave(self) -> Left<R> {
        let RealLink {
            stream,
            clock,
            is_answered,
            unsent,
            faults,
            ..
        } = self;
        let Ok(now) = clock.monotonic() else {
            return Left::Nothing;
        };
        if !is_answered || faults > 0 {
            return Left::Nothing;
        }
        if !unsent.is_empty() {
            return Left::Reply(Flushing {
                stream,
                unsent,
                took: now,
            });
        }
        match Ending::new(stream, now) {
            Some(ending) => Left::End(ending),
            None => Left::Nothing,
        }
    }
}

impl<R: Net + Clock + Copy> Link for RealLink<R> {
    ghost use Rattle.std.specs.Prelude.{None};

    ghost seen = { λ link. record {
      had = None;
      left = None;
      left_before = None;
      stream = record { written = None; faults = link.faults };
    } };

    fn read(&mut self, buffer: &mut [u8]) -> Result<usize, Failed> {
        let Some(rest) = self.text.as_slice().get(self.given..) else {
            return Ok(0);
        };
        let count = rest.len().min(buffer.len());
        buffer[..count].copy_from_slice(&rest[..count]);
        self.given = self.given.saturating_add(count);
        Ok(count)
    }

    fn write(&mut self, bytes: &[u8]) -> Result<usize, Failed> {
        match self.take(bytes) {
            Some(taken) if taken > 0 || bytes.is_empty() => {
                self.is_answered = true;
                Ok(taken)
            }
            _ => Err(count_failure(&mut self.faults)),
        }
    }
}
