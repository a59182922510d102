//! The bytes of replies that sockets didn't take yet.

use flux_outside::write_on;
use std::alloc::{AllocError, Global};
use std::io::{ErrorKind, Write};
use std::sync::Arc;
use std::sync::atomic::{AtomicU64, Ordering};

/// So many bytes of replies at most wait in all links of a door: 64 MiB.
const UNSENT_LIMIT: u64 = 67_108_864;

/// How many bytes wait in all links of a door.
#[derive(Drop)]
pub struct Tally {
    bytes: Arc<AtomicU64>,
}

impl Tally {
    pub fn new(alloc: Global) -> Result<Tally, AllocError> {
        Ok(Tally {
            bytes: Arc::new(alloc, AtomicU64::new(0))?,
        })
    }

    /// Another owner of the same count.
    pub fn share(&self) -> Result<Tally, AllocError> {
        Ok(Tally {
            bytes: Arc::try_clone(&self.bytes)?,
        })
    }

    /// Counts some bytes more, unless that is beyond the limit.
    fn add(&self, count: usize) -> bool {
        let more = count as u64;
        let before = self.bytes.fetch_add(more, Ordering::SeqCst);
        if before.saturating_add(more) <= UNSENT_LIMIT {
            return true;
        }
        self.remove(count);
        false
    }

    /// Whether more than half of the limit waits.
    pub fn is_pressed(&self) -> bool {
        self.bytes.load(Ordering::SeqCst) > UNSENT_LIMIT / 2
    }

    fn remove(&self, count: usize) {
        let _ = self.bytes.fetch_sub(count as u64, Ordering::SeqCst);
    }
}

/// What is left of a reply.
pub struct Unsent {
    bytes: Vec<u8>,
    /// So many bytes of these were sent.
    sent: usize,
    tally: Tally,
}

/// What a socket took.
#[derive(Clone, Copy, PartialEq, Eq)]
pub enum Sending {
    /// All that was left.
    All,
    /// A part of it.
    Part,
    /// Nothing.
    Nothing,
    /// The client is gone.
    Failed,
}

impl Unsent {
    pub fn new(alloc: Global, tally: Tally) -> Unsent {
        Unsent {
            bytes: Vec::new(alloc),
            sent: 0,
            tally,
        }
    }

    /// Whether nothing is left.
    pub fn is_empty(&self) -> bool {
        self.sent >= self.bytes.len()
    }

    /// Keeps some bytes more; false where that is beyond the limit, or there is no memory for it.
    pub fn keep(&mut self, bytes: &[u8]) -> bool {
        if !self.tally.add(bytes.len()) {
            return false;
        }
        if self.bytes.extend_from_slice(bytes).is_err() {
            self.tally.remove(bytes.len());
            return false;
        }
        true
    }

    /// Sends as much as a socket takes.
    pub fn send<W: Write>(&mut self, stream: &mut W) -> Sending {
        let mut sending = Sending::Nothing;
        for _ in 0..self.bytes.len() {
            let rest = match self.bytes.as_slice().get(self.sent..) {
                Some(rest) if !rest.is_empty() => rest,
                _ => return Sending::All,
            };
            match write_on(stream, rest) {
                Ok(count) if count > 0 => self.sent = self.sent.saturating_add(count),
                Ok(_) => return Sending::Failed,
                Err(ErrorKind::WouldBlock) => return sending,
                Err(_) => return Sending::Failed,
            }
            sending = Sending::Part;
        }
        Sending::All
    }
}

impl Drop for Unsent {
    fn drop(self) {
        self.tally.remove(self.bytes.len());
        let Unsent { bytes, sent, tally } = self;
    }
}
