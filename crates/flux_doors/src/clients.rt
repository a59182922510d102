//! Clients whose text isn't there yet.

ghost use Rattle.std.specs.Prelude.{◌≡◌};

use crate::framing::Framing;
use flux_outside::read_on;
use std::alloc::Global;
use std::io::ErrorKind;
use std::net::Net;
use std::time::Duration;

/// So many bytes of what was looked at before can belong to an end that the next piece completes.
const OVERLAP: usize = 2;

/// A client of which the door reads until its text has ended.
#[derive(Drop)]
pub struct Client<R: Net> {
    pub stream: R::Stream,
    /// When it was accepted.
    pub accepted: Duration,
    /// What it has sent so far.
    pub text: Vec<u8>,
}

/// What a client has sent.
#[derive(Clone, Copy, PartialEq, Eq)]
pub enum Heard {
    /// Not all of its text yet.
    Part,
    /// Its text: the end is there, or as much as a text may have, or the client has ended.
    Text,
    /// It can't be read, or there is no memory for what it sends.
    Nothing,
}

impl<R: Net> Client<R> {
    /// One that was accepted at this time.
    pub fn new(alloc: Global, stream: R::Stream, accepted: Duration) -> Client<R>
        ensures { result.accepted ≡ accepted }
    {
        Client {
            stream,
            accepted,
            text: Vec::new(alloc),
        }
    }

    pub fn is_silent(&self) -> bool {
        self.text.is_empty()
    }

    /// Adds a piece. Only what is new is looked at, and what an end can overlap with.
    fn add(&mut self, framing: Framing, piece: &[u8]) -> Heard
        ensures { self.new.accepted ≡ self.old.accepted }
    {
        let seen = self.text.len().saturating_sub(OVERLAP);
        if self.text.extend_from_slice(piece).is_err() {
            return Heard::Nothing;
        }
        let ended = match self.text.as_slice().get(seen..) {
            Some(new) => framing.ends_in(new),
            None => false,
        };
        if ended || self.text.len() >= framing.limit() {
            Heard::Text
        } else {
            Heard::Part
        }
    }

    /// Reads what is there, by way of a block, until the text has ended. It never waits.
    pub fn hear(&mut self, framing: Framing, block: &mut [u8]) -> Heard
        ensures { self.new.accepted ≡ self.old.accepted }
    {
        'reads: for _ in 0..framing.limit() {
            let room = framing.limit().saturating_sub(self.text.len());
            let room = room.min(block.len());
            let heard = match read_on(&mut self.stream, &mut block[..room]) {
                Ok(0) => Heard::Text,
                Ok(count) => self.add(framing, &block[..count]),
                Err(ErrorKind::WouldBlock) => return Heard::Part,
                Err(_) => Heard::Nothing,
            };
            if heard != Heard::Part {
                return heard;
            }
        }
        Heard::Text
    }
}
