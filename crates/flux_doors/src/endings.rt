//! Links whose replies are sent, until their clients have ended too.

use flux_outside::read_on;
use std::alloc::Global;
use std::collections::VecDeque;
use std::io::ErrorKind;
use std::net::{Net, OpenStream, Shutdown};
use std::time::Duration;

/// So many seconds at most, what a client still sends is read after the reply, so that it gets the reply.
const CLOSING_SECONDS: u64 = 1;

/// So many milliseconds at most, a client is waited for then that sends nothing.
const CLOSING_MILLIS: u64 = 20;

/// So many bytes at most are read then: 1 MiB.
const CLOSING_BYTES: usize = 1_048_576;

/// A socket that was shut down for writing. What the client still sends is read up to a bound: a socket that
/// is closed with bytes unread would take back what the client hasn't read yet.
#[derive(Drop)]
pub struct Ending<R: Net> {
    stream: R::Stream,
    /// When it was shut down, and when the client was last heard.
    told: Duration,
    heard: Duration,
    /// So many bytes more are read.
    left: usize,
}

impl<R: Net> Ending<R> {
    /// Tells the client that nothing more comes, at this time; None where the system refuses.
    pub fn new(stream: R::Stream, now: Duration) -> Option<Ending<R>> {
        stream.shutdown(Shutdown::Write).ok()?;
        Some(Ending {
            stream,
            told: now,
            heard: now,
            left: CLOSING_BYTES,
        })
    }

    /// When it is closed, if its client sends nothing more.
    fn due(&self) -> Duration {
        let silent = self
            .heard
            .saturating_add(Duration::from_millis(CLOSING_MILLIS));
        silent.min(
            self.told
                .saturating_add(Duration::from_secs(CLOSING_SECONDS)),
        )
    }

    /// Reads what is there, by way of a block; false where the client has ended or a bound is reached.
    fn hear(&mut self, now: Duration, block: &mut [u8]) -> bool {
        for _ in 0..CLOSING_BYTES {
            match read_on(&mut self.stream, block) {
                Ok(count) if 0 < count && count < self.left => {
                    self.left -= count;
                    self.heard = now;
                }
                Err(ErrorKind::WouldBlock) => return now < self.due(),
                _ => return false,
            }
        }
        false
    }
}

/// Such sockets. None of them is waited for.
#[derive(Drop)]
pub struct Endings<R: Net> {
    /// Those that weren't looked at since they were shut down. Most clients have ended by the first look.
    told: VecDeque<Ending<R>>,
    /// Those whose clients had not ended by then.
    late: VecDeque<Ending<R>>,
}

impl<R: Net> Endings<R> {
    pub fn new(alloc: Global) -> Endings<R> {
        Endings {
            told: VecDeque::new(alloc),
            late: VecDeque::new(alloc),
        }
    }

    pub fn len(&self) -> usize {
        self.told.len().saturating_add(self.late.len())
    }

    /// Adds one. Where there is no memory for it, it is closed.
    pub fn add(&mut self, ending: Ending<R>) {
        let _ = self.told.push_back(ending);
    }

    /// Closes the oldest; false where there is none.
    pub fn close_oldest(&mut self) -> bool {
        self.late.pop_front().is_some() || self.told.pop_front().is_some()
    }

    /// When one is due next; None where there are none.
    pub fn next_due(&self) -> Option<Duration> {
        match (self.told.front(), self.late.front()) {
            (Some(told), Some(late)) => Some(told.due().min(late.due())),
            (Some(ending), None) | (None, Some(ending)) => Some(ending.due()),
            (None, None) => None,
        }
    }

    /// Looks at one, and keeps it where its client may still send something.
    fn look_at(&mut self, ending: Ending<R>, now: Duration, block: &mut [u8]) {
        let mut ending = ending;
        if ending.hear(now, block) {
            let _ = self.late.push_back(ending);
        }
    }

    /// Looks at those that are due.
    fn look_at_late(&mut self, now: Duration, block: &mut [u8]) {
        for _ in 0..self.late.len() {
            match self.late.front() {
                Some(ending) if ending.due() <= now => {}
                _ => return,
            }
            if let Some(ending) = self.late.pop_front() {
                self.look_at(ending, now, block);
            }
        }
    }

    /// Reads what clients still send, by way of a block, and closes those that have ended.
    pub fn look(&mut self, now: Duration, block: &mut [u8]) {
        self.look_at_late(now, block);
        for _ in 0..self.told.len() {
            if let Some(ending) = self.told.pop_front() {
                self.look_at(ending, now, block);
            }
        }
    }
}
