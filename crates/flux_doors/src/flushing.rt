//! Links whose replies aren't sent yet, and were given back.

use crate::unsent::{Sending, Unsent};
use std::alloc::Global;
use std::collections::BTreeMap;
use std::net::Net;
use std::time::Duration;

/// So many seconds at most, a client takes nothing of its reply.
pub const REPLY_SECONDS: u64 = 30;

/// So many seconds at most, while more than half of the bytes wait that may.
const PRESSED_SECONDS: u64 = 1;

/// Once in so many seconds it is looked at whether one does.
const LOOK_SECONDS: u64 = 1;

/// A link whose reply isn't sent yet.
#[derive(Drop)]
pub struct Flushing<R: Net> {
    pub stream: R::Stream,
    pub unsent: Unsent,
    /// When its client took something last.
    pub took: Duration,
}

impl<R: Net> Flushing<R> {
    /// Sends on, at this time.
    pub fn go_on(&mut self, now: Duration) -> Sending {
        let sending = self.unsent.send(&mut self.stream);
        if sending == Sending::Part {
            self.took = now;
        }
        sending
    }

    fn is_late(&self, now: Duration, seconds: u64) -> bool {
        now.saturating_sub(self.took) >= Duration::from_secs(seconds)
    }
}

/// Such links under their numbers.
#[derive(Drop)]
pub struct Flushings<R: Net> {
    links: BTreeMap<u64, Flushing<R>>,
    /// When they were looked at last.
    looked: Duration,
}

impl<R: Net> Flushings<R> {
    pub fn new(alloc: Global) -> Flushings<R> {
        Flushings {
            links: BTreeMap::new(alloc),
            looked: Duration::ZERO,
        }
    }

    pub fn len(&self) -> usize {
        self.links.len()
    }

    /// Keeps one. Where there is no memory for it, it is closed.
    pub fn keep(&mut self, number: u64, link: Flushing<R>) {
        let _ = self.links.insert(number, link);
    }

    /// Takes out the one of a number.
    pub fn take(&mut self, number: u64) -> Option<Flushing<R>> {
        self.links.remove(&number)
    }

    /// Closes the oldest; false where there is none.
    pub fn close_oldest(&mut self) -> bool {
        self.links.pop_first().is_some()
    }

    /// When they are looked at next; None where there are none.
    pub fn next_look(&self) -> Option<Duration> {
        if self.links.is_empty() {
            None
        } else {
            Some(
                self.looked
                    .saturating_add(Duration::from_secs(LOOK_SECONDS)),
            )
        }
    }

    /// Closes those whose clients took nothing for too long.
    pub fn close_late(&mut self, now: Duration, is_pressed: bool) {
        let seconds = if is_pressed {
            PRESSED_SECONDS
        } else {
            REPLY_SECONDS
        };
        match self.next_look() {
            Some(next) if next <= now => {
                self.looked = now;
                self.links.retain(|_, link| !link.is_late(now, seconds));
            }
            _ => {}
        }
    }
}
